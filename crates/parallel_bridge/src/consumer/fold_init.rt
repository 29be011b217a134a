//! The value that the items of a segment are folded to with a state at hand.
ghost use Rattle.std.specs.Prelude.{Result};
ghost use Rattle.std.specs.Borrow.{MutBor};
ghost use Rattle.parallel_bridge.specs.Fulls.{OnValue};
ghost use Rattle.parallel_bridge.specs.States.{FoldInitSegment, FoldStep, StateChain};

use crate::domain::Domain;
use crate::plumbing::{Consumer, Folder};
use parallel_fault::{Fault, Trouble};
use std::alloc::Global;
use std::marker::PhantomData;

/// Folds the items of each segment from an identity with a state at hand, fresh for each segment,
/// and hands the value to another consumer.
#[derive(Drop)]
pub struct FoldInitConsumer<'c, C, N, I, F, D> {
    /// What takes the value of a segment.
    pub base: C,
    /// The closure that makes a state.
    pub init: &'c N,
    /// The closure that returns a value to fold from.
    pub identity: &'c I,
    /// The closure that takes the folded value one item further.
    pub fold_op: &'c F,
    /// The values that the fold stays among.
    pub domain: PhantomData<D>,
}

/// The value that the items of a segment are folded to so far, and the state that the next item
/// meets.
#[derive(Drop)]
pub struct FoldInitFolder<'c, C, S, R, F, D> {
    /// What takes the value of the segment.
    pub base: C,
    /// The state that the next item meets.
    pub state: S,
    /// The value so far.
    pub item: R,
    /// The closure that takes it one item further.
    pub fold_op: &'c F,
    /// The values that the fold stays among.
    pub domain: PhantomData<D>,
}

impl<
    'c,
    X: Drop,
    S: Drop,
    U: Drop,
    R,
    E,
    C: Folder<U, R, E>,
    F: Fn(U, &mut S, X) -> U,
    D: Domain<U>,
> Folder<X, R, E> for FoldInitFolder<'c, C, S, U, F, D> {
    ghost ready = { λ s. C.ready s.base × ((u : U) → D.has u → C.takes s.base u)
        × D.has s.item };

    ghost takes = { λ s x. (a : U) → D.has a → (p : MutBor S) → F.pre s.fold_op.now a p x
        × ((b : U) (q : MutBor S) → F.post s.fold_op.now a p x b q → D.has b) };

    ghost gives = { λ s xs out. OnValue C.may_fill
        (StateChain (FoldStep (λ a p x b q. F.post s.fold_op.now a p x b q)) s.state s.item)
        (C.gives s.base) xs out };

    ghost may_fill = { C.may_fill };

    fn consume(self, _alloc: Global, item: X) -> Result<Self, Fault> {
        let mut state = self.state;
        let value = (self.fold_op)(self.item, &mut state, item);
        Ok(FoldInitFolder {
            base: self.base,
            state,
            item: value,
            fold_op: self.fold_op,
            domain: PhantomData,
        })
    }

    fn complete(self, alloc: Global) -> Result<R, Trouble<E>> {
        let base = self.base.consume(alloc, self.item)?;
        base.complete(alloc)
    }

    fn full(&self) -> bool {
        self.base.full()
    }
}

impl<
    'c,
    X: Drop,
    S: Send + Drop,
    U: Send + Drop,
    C: Consumer<U>,
    N: Fn() -> S + Sync,
    I: Fn() -> U + Sync,
    F: Fn(U, &mut S, X) -> U + Sync,
    D: Domain<U> + Send,
> Consumer<X> for FoldInitConsumer<'c, C, N, I, F, D> {
    type Result = C::Result;

    type Error = C::Error;

    type Folder = FoldInitFolder<'c, C::Folder, S, U, F, D>;

    type Reducer = C::Reducer;

    ghost ready = { λ s. C.ready s.base × ((u : U) → D.has u → C.takes s.base u)
        × N.IsAlwaysCallable s.init.now × I.IsAlwaysCallable s.identity.now
        × ((e : U) → I.post s.identity.now e → D.has e) };

    ghost takes = { λ s x. (a : U) → D.has a → (p : MutBor S) → F.pre s.fold_op.now a p x
        × ((b : U) (q : MutBor S) → F.post s.fold_op.now a p x b q → D.has b) };

    ghost leaf_gives = { λ s xs out. OnValue C.Folder.may_fill
        (FoldInitSegment (N.post s.init.now) (I.post s.identity.now)
        (FoldStep (λ a p x b q. F.post s.fold_op.now a p x b q)))
        (C.leaf_gives s.base) xs out };

    ghost node_gives = { λ s a b out. C.node_gives s.base a b out };

    fn split_at(self, index: usize) -> Result<(Self, Self, C::Reducer), Fault> {
        let (left, rest, reducer) = self.base.split_at(index)?;
        let left = FoldInitConsumer { base: left, ..self };
        let right = FoldInitConsumer { base: rest, ..self };
        Ok((left, right, reducer))
    }

    fn into_folder(
        self,
        alloc: Global,
    ) -> Result<FoldInitFolder<'c, C::Folder, S, U, F, D>, Fault> {
        let base = self.base.into_folder(alloc)?;
        let state = (self.init)();
        let item = (self.identity)();
        Ok(FoldInitFolder {
            base,
            state,
            item,
            fold_op: self.fold_op,
            domain: PhantomData,
        })
    }
}
