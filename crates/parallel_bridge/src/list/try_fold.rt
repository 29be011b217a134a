//! Folds by steps that may fail.
ghost use Rattle.std.specs.Prelude.{Err, IfOk, List, Ok};
ghost use Rattle.std.specs.Iterator.{Drains, HoldsAlong, IsFinite};
ghost use Rattle.std.specs.List.{All};
ghost use Rattle.parallel_bridge.specs.Comes.{Comes, ComesSerially, OkStep};
ghost use Rattle.parallel_bridge.specs.Outcomes.{UnlessRefused};
ghost use Rattle.parallel_bridge.specs.Shapes.{Shape, levels};
ghost use Rattle.parallel_bridge.specs.Sources.{GivesSome, MayCome};
ghost use Rattle.parallel_bridge.specs.Tries.{TryAlong, TryFoldSegment};

use crate::bridge::bridge_watched;
use crate::consumer::try_fold::{TryFoldConsumer, try_fold_step};
use crate::consumer::try_reduce::TryReduceConsumer;
use crate::domain::Domain;
use crate::gate::watch::seats_for;
use crate::gate::{Gate, GateWatch};
use crate::parts::Parts;
use crate::troubles::unhalt;
use parallel_fault::Trouble;
use std::alloc::Global;
use std::marker::{Brand, PhantomData};
use std::num::NonZeroUsize;
use std::thread::Threads;

/// The items that an iterator gives folded from an identity, as they come and in their order, up to
/// the first step that fails, on the caller's thread. Nothing is reduced, and no memory is taken.
///
/// # Errors
///
/// The error of the first step that fails.
pub fn try_fold_iter<
    I: Iterator,
    R: Drop,
    E: Drop,
    ID: Fn() -> R,
    F: Fn(R, I::Item) -> Result<R, E>,
>(iter: I, identity: &ID, fold_op: &F) -> Result<R, E>
where
    I::Item: Drop,
    requires can { I.can_next iter }
    requires ends { IsFinite (I.remaining iter) }
    requires identity_accepts { ID.IsAlwaysCallable identity.now }
    requires fold_accepts { HoldsAlong I.next_gives iter
        (All (λ x. (value : R) → ComesSerially (ID.post identity.now) (OkStep (F.post fold_op.now))
        (MayCome I.next_gives iter) value → F.pre fold_op.now value x)) }
    ensures { GivesSome (Drains I.next_gives) iter
        (λ xs. TryFoldSegment (ID.post identity.now) (λ a x out. F.post fold_op.now a x out)
        xs result) }
{
    let mut control = Ok(identity());
    for item in iter {
        control = try_fold_step(control, item, fold_op);
    }
    control
}

/// The items of a list folded along its shape for that many threads: each segment from an identity
/// of its own, up to its own first error, and reduced after a further identity; neighbours are
/// reduced left before right, and of several errors the leftmost is returned. A segment stops at
/// that of a segment to its left, too: then the closures aren't called for its other items.
///
/// # Errors
///
/// `Trouble::Closure` with the closure's error; `Trouble::Fault` with `Fault::Memory` if an
/// allocation fails.
pub fn try_fold_parallel<
    Rt: Threads + Sync,
    P: Parts,
    R: Send + Drop,
    E: Send + Drop,
    ID: Fn() -> R + Send + Sync,
    F: Fn(R, P::Item) -> Result<R, E> + Send + Sync,
    G: Fn(R, R) -> R + Send + Sync,
>(
    rt: &Rt,
    alloc: Global,
    threads: NonZeroUsize,
    parts: P,
    identity: &ID,
    fold_op: &F,
    reduce_op: &G,
) -> Result<R, Trouble<E>>
    requires identity_accepts { ID.IsAlwaysCallable identity.now }
    requires fold_accepts { (x : P.Item) → P.may parts x → (value : R)
        → Comes (ID.post identity.now) (OkStep (F.post fold_op.now)) (G.post reduce_op.now)
        (P.may parts) value → F.pre fold_op.now value x }
    requires reduce_accepts { (a b : R)
        → Comes (ID.post identity.now) (OkStep (F.post fold_op.now)) (G.post reduce_op.now)
        (P.may parts) a
        → Comes (ID.post identity.now) (OkStep (F.post fold_op.now)) (G.post reduce_op.now)
        (P.may parts) b → G.pre reduce_op.now a b }
    ensures along { UnlessRefused result (λ out. GivesSome P.gives parts
        (λ xs. TryAlong (ID.post identity.now) (F.post fold_op.now) (G.post reduce_op.now)
        (Shape (levels threads) xs) out)) }
{
    try_fold_among::<Rt, P, R, E, ID, F, G, Brand>(
        rt, alloc, threads, parts, identity, fold_op, reduce_op,
    )
}

// The same of closures that stay among the values of a domain.
fn try_fold_among<
    Rt: Threads + Sync,
    P: Parts,
    R: Send + Drop,
    E: Send + Drop,
    ID: Fn() -> R + Send + Sync,
    F: Fn(R, P::Item) -> Result<R, E> + Send + Sync,
    G: Fn(R, R) -> R + Send + Sync,
    D: Domain<R> + Send,
>(
    rt: &Rt,
    alloc: Global,
    threads: NonZeroUsize,
    parts: P,
    identity: &ID,
    fold_op: &F,
    reduce_op: &G,
) -> Result<R, Trouble<E>>
    requires identity_accepts { ID.IsAlwaysCallable identity.now }
    requires begins { (e : R) → ID.post identity.now e → D.has e }
    requires steps { (x : P.Item) → P.may parts x → (a : R) → D.has a → F.pre fold_op.now a x
        × ((b : R) → F.post fold_op.now a x (Ok b) → D.has b) }
    requires reduces { (a b : R) → D.has a → D.has b → G.pre reduce_op.now a b
        × ((r : R) → G.post reduce_op.now a b r → D.has r) }
    ensures along { UnlessRefused result (λ out. GivesSome P.gives parts
        (λ xs. TryAlong (ID.post identity.now) (F.post fold_op.now) (G.post reduce_op.now)
        (Shape (levels threads) xs) out)) }
{
    let (gate, seat) = Gate::open(alloc, seats_for(parts.len()))?;
    let base = TryReduceConsumer::<'_, ID, G, D> {
        identity,
        reduce_op,
        domain: PhantomData,
    };
    let folding = TryFoldConsumer::<'_, TryReduceConsumer<'_, ID, G, D>, ID, F, D> {
        base,
        identity,
        fold_op,
        domain: PhantomData,
    };
    let watch = GateWatch {
        gate: &gate,
        seat,
        start: 0,
    };
    let (done, watch) = bridge_watched(rt, alloc, threads, parts, folding, watch);
    let seat = watch.seat;
    gate.close_joined(seat);
    unhalt(done)
}
