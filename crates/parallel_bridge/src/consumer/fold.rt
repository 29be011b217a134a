//! The value that the items of a segment are folded to.
ghost use Rattle.std.specs.Prelude.{List, Result};
ghost use Rattle.parallel_bridge.specs.Fulls.{OnValue};
ghost use Rattle.parallel_bridge.specs.Lists.{Chain, FoldSegment};

use crate::domain::Domain;
use crate::plumbing::{Consumer, Folder};
use parallel_fault::{Fault, Trouble};
use std::alloc::Global;
use std::marker::PhantomData;

/// Folds the items of each segment from an identity, and hands the value to another consumer.
#[derive(Drop)]
pub struct FoldConsumer<'c, C, I, F, D> {
    /// What takes the value of a segment.
    pub base: C,
    /// The closure that returns a value to fold from.
    pub identity: &'c I,
    /// The closure that takes the folded value one item further.
    pub fold_op: &'c F,
    /// The values that the fold stays among.
    pub domain: PhantomData<D>,
}

/// The value that the items of a segment are folded to so far.
#[derive(Drop)]
pub struct FoldFolder<'c, C, R, F, D> {
    /// What takes the value of the segment.
    pub base: C,
    /// The value so far.
    pub item: R,
    /// The closure that takes it one item further.
    pub fold_op: &'c F,
    /// The values that the fold stays among.
    pub domain: PhantomData<D>,
}

impl<'c, X: Drop, U: Drop, R, E, C: Folder<U, R, E>, F: Fn(U, X) -> U, D: Domain<U>> Folder<X, R, E>
    for FoldFolder<'c, C, U, F, D> {
    ghost ready = { λ s. C.ready s.base × ((u : U) → D.has u → C.takes s.base u)
        × D.has s.item };

    ghost takes = { λ s x. (a : U) → D.has a → F.pre s.fold_op.now a x
        × ((b : U) → F.post s.fold_op.now a x b → D.has b) };

    ghost gives = { λ s xs out. OnValue C.may_fill
        (Chain (λ a x b. F.post s.fold_op.now a x b) s.item) (C.gives s.base) xs out };

    ghost may_fill = { C.may_fill };

    fn consume(self, _alloc: Global, item: X) -> Result<Self, Fault> {
        let item = (self.fold_op)(self.item, item);
        Ok(FoldFolder { item, ..self })
    }

    fn complete(self, alloc: Global) -> Result<R, Trouble<E>> {
        let base = self.base.consume(alloc, self.item)?;
        base.complete(alloc)
    }

    fn full(&self) -> bool {
        self.base.full()
    }
}

impl<
    'c,
    X: Drop,
    U: Send + Drop,
    C: Consumer<U>,
    I: Fn() -> U + Sync,
    F: Fn(U, X) -> U + Sync,
    D: Domain<U> + Send,
> Consumer<X> for FoldConsumer<'c, C, I, F, D> {
    type Result = C::Result;

    type Error = C::Error;

    type Folder = FoldFolder<'c, C::Folder, U, F, D>;

    type Reducer = C::Reducer;

    ghost ready = { λ s. C.ready s.base × ((u : U) → D.has u → C.takes s.base u)
        × I.IsAlwaysCallable s.identity.now × ((e : U) → I.post s.identity.now e → D.has e) };

    ghost takes = { λ s x. (a : U) → D.has a → F.pre s.fold_op.now a x
        × ((b : U) → F.post s.fold_op.now a x b → D.has b) };

    ghost leaf_gives = { λ s xs out. OnValue C.Folder.may_fill
        (FoldSegment (I.post s.identity.now) (λ a x b. F.post s.fold_op.now a x b))
        (C.leaf_gives s.base) xs out };

    ghost node_gives = { λ s a b out. C.node_gives s.base a b out };

    fn split_at(self, index: usize) -> Result<(Self, Self, C::Reducer), Fault> {
        let (left, rest, reducer) = self.base.split_at(index)?;
        let left = FoldConsumer { base: left, ..self };
        let right = FoldConsumer { base: rest, ..self };
        Ok((left, right, reducer))
    }

    fn into_folder(self, alloc: Global) -> Result<FoldFolder<'c, C::Folder, U, F, D>, Fault> {
        let base = self.base.into_folder(alloc)?;
        Ok(FoldFolder {
            base,
            item: (self.identity)(),
            fold_op: self.fold_op,
            domain: PhantomData,
        })
    }
}
