//! Folds.
ghost use Rattle.std.specs.Prelude.{IfOk, List};
ghost use Rattle.std.specs.Iterator.{Drains, HoldsAlong, IsFinite};
ghost use Rattle.std.specs.List.{All};
ghost use Rattle.parallel_fault.specs.Trouble.{IsMemoryOnErr};
ghost use Rattle.parallel_bridge.specs.Comes.{Comes, ComesSerially};
ghost use Rattle.parallel_bridge.specs.Lists.{FoldSegment};
ghost use Rattle.parallel_bridge.specs.Shapes.{Along, Shape, levels};
ghost use Rattle.parallel_bridge.specs.Sources.{GivesSome, MayCome};

use crate::bridge::bridge;
use crate::consumer::fold::FoldConsumer;
use crate::consumer::reduce::ReduceConsumer;
use crate::domain::Domain;
use crate::parts::Parts;
use crate::troubles::unfailing;
use parallel_fault::Fault;
use std::alloc::Global;
use std::marker::{Brand, PhantomData};
use std::num::NonZeroUsize;
use std::thread::Threads;

/// The items that an iterator gives folded from an identity, as they come and in their order, on
/// the caller's thread. Nothing is gathered and nothing is reduced, so it takes no memory.
pub fn fold_iter<I: Iterator, R: Drop, ID: Fn() -> R, F: Fn(R, I::Item) -> R>(
    iter: I,
    identity: &ID,
    fold_op: &F,
) -> R
    requires can { I.can_next iter }
    requires ends { IsFinite (I.remaining iter) }
    requires identity_accepts { ID.IsAlwaysCallable identity.now }
    requires fold_accepts { HoldsAlong I.next_gives iter
        (All (λ x. (value : R) → ComesSerially (ID.post identity.now) (F.post fold_op.now)
        (MayCome I.next_gives iter) value → F.pre fold_op.now value x)) }
    ensures { GivesSome (Drains I.next_gives) iter
        (λ xs. FoldSegment (ID.post identity.now) (λ a x b. F.post fold_op.now a x b) xs result) }
{
    let mut value = identity();
    for item in iter {
        value = fold_op(value, item);
    }
    value
}

/// The items of a list folded along its shape for that many threads: each segment from an identity
/// of its own and reduced after a further identity, and neighbours reduced left before right.
///
/// # Errors
///
/// `Fault::Memory` if an allocation fails.
pub fn fold_parallel<
    Rt: Threads + Sync,
    P: Parts,
    R: Send + Drop,
    ID: Fn() -> R + Send + Sync,
    F: Fn(R, P::Item) -> R + Send + Sync,
    G: Fn(R, R) -> R + Send + Sync,
>(
    rt: &Rt,
    alloc: Global,
    threads: NonZeroUsize,
    parts: P,
    identity: &ID,
    fold_op: &F,
    reduce_op: &G,
) -> Result<R, Fault>
    requires identity_accepts { ID.IsAlwaysCallable identity.now }
    requires fold_accepts { (x : P.Item) → P.may parts x → (value : R)
        → Comes (ID.post identity.now) (F.post fold_op.now) (G.post reduce_op.now) (P.may parts)
        value → F.pre fold_op.now value x }
    requires reduce_accepts { (a b : R)
        → Comes (ID.post identity.now) (F.post fold_op.now) (G.post reduce_op.now) (P.may parts) a
        → Comes (ID.post identity.now) (F.post fold_op.now) (G.post reduce_op.now) (P.may parts) b
        → G.pre reduce_op.now a b }
    ensures along { IfOk result (λ r. GivesSome P.gives parts
        (λ xs. Along (ID.post identity.now) (F.post fold_op.now) (G.post reduce_op.now)
        (Shape (levels threads) xs) r)) }
    ensures fault { IsMemoryOnErr result }
{
    fold_among::<Rt, P, R, ID, F, G, Brand>(rt, alloc, threads, parts, identity, fold_op, reduce_op)
}

// The same of closures that stay among the values of a domain.
fn fold_among<
    Rt: Threads + Sync,
    P: Parts,
    R: Send + Drop,
    ID: Fn() -> R + Send + Sync,
    F: Fn(R, P::Item) -> R + Send + Sync,
    G: Fn(R, R) -> R + Send + Sync,
    D: Domain<R> + Send,
>(
    rt: &Rt,
    alloc: Global,
    threads: NonZeroUsize,
    parts: P,
    identity: &ID,
    fold_op: &F,
    reduce_op: &G,
) -> Result<R, Fault>
    requires identity_accepts { ID.IsAlwaysCallable identity.now }
    requires begins { (e : R) → ID.post identity.now e → D.has e }
    requires steps { (x : P.Item) → P.may parts x → (a : R) → D.has a → F.pre fold_op.now a x
        × ((b : R) → F.post fold_op.now a x b → D.has b) }
    requires reduces { (a b : R) → D.has a → D.has b → G.pre reduce_op.now a b
        × ((r : R) → G.post reduce_op.now a b r → D.has r) }
    ensures along { IfOk result (λ r. GivesSome P.gives parts
        (λ xs. Along (ID.post identity.now) (F.post fold_op.now) (G.post reduce_op.now)
        (Shape (levels threads) xs) r)) }
    ensures fault { IsMemoryOnErr result }
{
    let base = ReduceConsumer::<'_, ID, G, D> {
        identity,
        reduce_op,
        domain: PhantomData,
    };
    let folding = FoldConsumer::<'_, ReduceConsumer<'_, ID, G, D>, ID, F, D> {
        base,
        identity,
        fold_op,
        domain: PhantomData,
    };
    unfailing(bridge(rt, alloc, threads, parts, folding))
}
