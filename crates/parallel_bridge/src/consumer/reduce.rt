//! The items of a segment reduced, and then the results.
ghost use Rattle.std.specs.Prelude.{◌++◌, [], List, Result, false};
ghost use Rattle.parallel_bridge.specs.Lists.{Chain, FoldSegment};
ghost use Rattle.parallel_bridge.specs.Tries.{OnlyOk};

use crate::domain::Domain;
use crate::plumbing::{Consumer, Folder, Reducer};
use parallel_fault::{Fault, Trouble};
use std::alloc::Global;
use std::convert::Infallible;
use std::marker::PhantomData;

/// Reduces the items of each segment after an identity, and then the results.
#[derive(Drop)]
pub struct ReduceConsumer<'r, I, G, D> {
    /// The closure that returns a value to reduce from.
    pub identity: &'r I,
    /// The closure that reduces two values, the left one first.
    pub reduce_op: &'r G,
    /// The values that the reduction stays among.
    pub domain: PhantomData<D>,
}

/// The value that the items of a segment are reduced to so far.
#[derive(Drop)]
pub struct ReduceFolder<'r, T, G, D> {
    /// The value so far.
    pub item: T,
    /// The closure that reduces two values, the left one first.
    pub reduce_op: &'r G,
    /// The values that the reduction stays among.
    pub domain: PhantomData<D>,
}

impl<'r, T, I: Fn() -> T, G: Fn(T, T) -> T, D: Domain<T>> Reducer<T, Infallible>
    for ReduceConsumer<'r, I, G, D> {
    ghost can_reduce = { λ s left right. G.pre s.reduce_op.now left right
        × ((r : T) → G.post s.reduce_op.now left right r → D.has r) };

    ghost reduce_gives = { λ s left right out. OnlyOk
        (λ all. G.post s.reduce_op.now left right all × D.has all) out };

    fn reduce(self, left: T, right: T) -> Result<T, Trouble<Infallible>> {
        Ok((self.reduce_op)(left, right))
    }
}

impl<'r, T: Drop, G: Fn(T, T) -> T, D: Domain<T>> Folder<T, T, Infallible>
    for ReduceFolder<'r, T, G, D> {
    ghost ready = { λ s. D.has s.item × ((a b : T) → D.has a → D.has b
        → G.pre s.reduce_op.now a b × ((r : T) → G.post s.reduce_op.now a b r → D.has r)) };

    ghost takes = { λ _ x. D.has x };

    ghost gives = { λ s xs out. OnlyOk
        (λ r. Chain (λ a x b. G.post s.reduce_op.now a x b) s.item xs r × D.has r) out };

    ghost may_fill = { false };

    fn consume(self, _alloc: Global, item: T) -> Result<Self, Fault> {
        let item = (self.reduce_op)(self.item, item);
        Ok(ReduceFolder { item, ..self })
    }

    fn complete(self, _alloc: Global) -> Result<T, Trouble<Infallible>> {
        Ok(self.item)
    }

    fn full(&self) -> bool {
        false
    }
}

impl<
    'r,
    T: Send + Drop,
    I: Fn() -> T + Sync,
    G: Fn(T, T) -> T + Sync,
    D: Domain<T> + Send,
> Consumer<T> for ReduceConsumer<'r, I, G, D> {
    type Result = T;

    type Error = Infallible;

    type Folder = ReduceFolder<'r, T, G, D>;

    type Reducer = ReduceConsumer<'r, I, G, D>;

    ghost ready = { λ s. I.IsAlwaysCallable s.identity.now
        × ((e : T) → I.post s.identity.now e → D.has e)
        × ((a b : T) → D.has a → D.has b
        → G.pre s.reduce_op.now a b × ((r : T) → G.post s.reduce_op.now a b r → D.has r)) };

    ghost takes = { λ _ x. D.has x };

    ghost leaf_gives = { λ s xs out. OnlyOk
        (λ r. FoldSegment (I.post s.identity.now) (λ a x b. G.post s.reduce_op.now a x b) xs r
        × D.has r) out };

    ghost node_gives = { λ s left right out. OnlyOk
        (λ all. G.post s.reduce_op.now left right all × D.has all) out };

    fn split_at(self, _index: usize) -> Result<(Self, Self, Self), Fault> {
        let right = ReduceConsumer { ..self };
        let reducer = ReduceConsumer { ..self };
        Ok((self, right, reducer))
    }

    fn into_folder(self, _alloc: Global) -> Result<ReduceFolder<'r, T, G, D>, Fault> {
        Ok(ReduceFolder {
            item: (self.identity)(),
            reduce_op: self.reduce_op,
            domain: PhantomData,
        })
    }
}
