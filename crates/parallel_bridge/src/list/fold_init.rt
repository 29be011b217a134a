//! Folds with a state at hand.
ghost use Rattle.std.specs.Prelude.{IfOk, List};
ghost use Rattle.std.specs.Borrow.{MutBor};
ghost use Rattle.std.specs.Iterator.{Drains, HoldsAlong, IsFinite};
ghost use Rattle.std.specs.List.{All};
ghost use Rattle.parallel_fault.specs.Trouble.{IsMemoryOnErr};
ghost use Rattle.parallel_bridge.specs.Comes.{Comes, ComesSerially};
ghost use Rattle.parallel_bridge.specs.Shapes.{Shape, levels};
ghost use Rattle.parallel_bridge.specs.Sources.{GivesSome, MayCome};
ghost use Rattle.parallel_bridge.specs.States.{AlongInit, AnyState, FoldInitSegment, FoldStep};

use crate::bridge::bridge;
use crate::consumer::fold_init::FoldInitConsumer;
use crate::consumer::reduce::ReduceConsumer;
use crate::domain::Domain;
use crate::parts::Parts;
use crate::troubles::unfailing;
use parallel_fault::Fault;
use std::alloc::Global;
use std::marker::{Brand, PhantomData};
use std::num::NonZeroUsize;
use std::thread::Threads;

/// The items that an iterator gives folded from an identity, as they come and in their order, with
/// one state that `init` makes and that goes from item to item, on the caller's thread. It takes no
/// memory.
pub fn fold_init_iter<
    I: Iterator,
    S: Drop,
    R: Drop,
    N: Fn() -> S,
    ID: Fn() -> R,
    F: Fn(R, &mut S, I::Item) -> R,
>(iter: I, init: &N, identity: &ID, fold_op: &F) -> R
    requires can { I.can_next iter }
    requires ends { IsFinite (I.remaining iter) }
    requires init_accepts { N.IsAlwaysCallable init.now }
    requires identity_accepts { ID.IsAlwaysCallable identity.now }
    requires fold_accepts { HoldsAlong I.next_gives iter
        (All (λ x. (value : R)
        → ComesSerially (ID.post identity.now) (AnyState (FoldStep (F.post fold_op.now)))
        (MayCome I.next_gives iter) value
        → (state : MutBor S) → F.pre fold_op.now value state x)) }
    ensures { GivesSome (Drains I.next_gives) iter
        (λ xs. FoldInitSegment (N.post init.now) (ID.post identity.now)
        (FoldStep (λ a p x b q. F.post fold_op.now a p x b q)) xs result) }
{
    let mut state = init();
    let mut value = identity();
    for item in iter {
        value = fold_op(value, &mut state, item);
    }
    value
}

/// The items of a list folded along its shape for that many threads: each segment from a state and
/// an identity of its own and reduced after a further identity, and neighbours reduced left before
/// right.
///
/// # Errors
///
/// `Fault::Memory` if an allocation fails.
pub fn fold_init_parallel<
    Rt: Threads + Sync,
    P: Parts,
    S: Send + Drop,
    R: Send + Drop,
    N: Fn() -> S + Send + Sync,
    ID: Fn() -> R + Send + Sync,
    F: Fn(R, &mut S, P::Item) -> R + Send + Sync,
    G: Fn(R, R) -> R + Send + Sync,
>(
    rt: &Rt,
    alloc: Global,
    threads: NonZeroUsize,
    parts: P,
    init: &N,
    identity: &ID,
    fold_op: &F,
    reduce_op: &G,
) -> Result<R, Fault>
    requires init_accepts { N.IsAlwaysCallable init.now }
    requires identity_accepts { ID.IsAlwaysCallable identity.now }
    requires fold_accepts { (x : P.Item) → P.may parts x → (value : R)
        → Comes (ID.post identity.now) (AnyState (FoldStep (F.post fold_op.now)))
        (G.post reduce_op.now) (P.may parts) value
        → (state : MutBor S) → F.pre fold_op.now value state x }
    requires reduce_accepts { (a b : R)
        → Comes (ID.post identity.now) (AnyState (FoldStep (F.post fold_op.now)))
        (G.post reduce_op.now) (P.may parts) a
        → Comes (ID.post identity.now) (AnyState (FoldStep (F.post fold_op.now)))
        (G.post reduce_op.now) (P.may parts) b → G.pre reduce_op.now a b }
    ensures along { IfOk result (λ r. GivesSome P.gives parts
        (λ xs. AlongInit (N.post init.now) (ID.post identity.now) (FoldStep (F.post fold_op.now))
        (G.post reduce_op.now) (Shape (levels threads) xs) r)) }
    ensures fault { IsMemoryOnErr result }
{
    fold_init_among::<Rt, P, S, R, N, ID, F, G, Brand>(
        rt, alloc, threads, parts, init, identity, fold_op, reduce_op,
    )
}

// The same of closures that stay among the values of a domain.
fn fold_init_among<
    Rt: Threads + Sync,
    P: Parts,
    S: Send + Drop,
    R: Send + Drop,
    N: Fn() -> S + Send + Sync,
    ID: Fn() -> R + Send + Sync,
    F: Fn(R, &mut S, P::Item) -> R + Send + Sync,
    G: Fn(R, R) -> R + Send + Sync,
    D: Domain<R> + Send,
>(
    rt: &Rt,
    alloc: Global,
    threads: NonZeroUsize,
    parts: P,
    init: &N,
    identity: &ID,
    fold_op: &F,
    reduce_op: &G,
) -> Result<R, Fault>
    requires init_accepts { N.IsAlwaysCallable init.now }
    requires identity_accepts { ID.IsAlwaysCallable identity.now }
    requires begins { (e : R) → ID.post identity.now e → D.has e }
    requires steps { (x : P.Item) → P.may parts x → (a : R) → D.has a
        → (p : MutBor S) → F.pre fold_op.now a p x
        × ((b : R) (q : MutBor S) → F.post fold_op.now a p x b q → D.has b) }
    requires reduces { (a b : R) → D.has a → D.has b → G.pre reduce_op.now a b
        × ((r : R) → G.post reduce_op.now a b r → D.has r) }
    ensures along { IfOk result (λ r. GivesSome P.gives parts
        (λ xs. AlongInit (N.post init.now) (ID.post identity.now) (FoldStep (F.post fold_op.now))
        (G.post reduce_op.now) (Shape (levels threads) xs) r)) }
    ensures fault { IsMemoryOnErr result }
{
    let base = ReduceConsumer::<'_, ID, G, D> {
        identity,
        reduce_op,
        domain: PhantomData,
    };
    let folding = FoldInitConsumer::<'_, ReduceConsumer<'_, ID, G, D>, N, ID, F, D> {
        base,
        init,
        identity,
        fold_op,
        domain: PhantomData,
    };
    unfailing(bridge(rt, alloc, threads, parts, folding))
}
