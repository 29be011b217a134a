//! The results of a closure with a state at hand.
ghost use Rattle.std.specs.Prelude.{IfOk, List, Result};
ghost use Rattle.std.specs.Borrow.{MutBor};
ghost use Rattle.parallel_bridge.specs.Fulls.{OnResults};
ghost use Rattle.parallel_bridge.specs.States.{MapStep, StateSegment, StatesFrom};

use crate::plumbing::{Consumer, Folder};
use parallel_fault::{Fault, Trouble};
use std::alloc::Global;

/// Maps each item by a closure with a state at hand, fresh for each segment, and hands the
/// results to another consumer.
#[derive(Drop)]
pub struct MapInitConsumer<'f, C, N, F> {
    /// What takes the results.
    pub base: C,
    /// The closure that makes a state.
    pub init: &'f N,
    /// The closure that maps an item.
    pub map_op: &'f F,
}

/// Maps the items of a segment with one state, and hands the results to another folder.
#[derive(Drop)]
pub struct MapWithFolder<'f, C, S, F> {
    /// What takes the results.
    pub base: C,
    /// The state that the next item meets.
    pub item: S,
    /// The closure that maps an item.
    pub map_op: &'f F,
}

impl<'f, X: Drop, S: Drop, T: Drop, R, E, C: Folder<T, R, E>, F: Fn(&mut S, X) -> T> Folder<X, R, E>
    for MapWithFolder<'f, C, S, F> {
    ghost ready = { λ s. C.ready s.base × ((y : T) → C.takes s.base y) };

    ghost takes = { λ s x. (p : MutBor S) → F.pre s.map_op.now p x };

    ghost gives = { λ s xs out. OnResults C.may_fill
        (StatesFrom (MapStep (λ p x y q. F.post s.map_op.now p x y q)) s.item)
        (C.gives s.base) xs out };

    ghost may_fill = { C.may_fill };

    fn consume(self, alloc: Global, item: X) -> Result<Self, Fault> {
        let mut state = self.item;
        let answer = (self.map_op)(&mut state, item);
        let base = self.base.consume(alloc, answer)?;
        Ok(MapWithFolder {
            base,
            item: state,
            map_op: self.map_op,
        })
    }

    fn complete(self, alloc: Global) -> Result<R, Trouble<E>> {
        self.base.complete(alloc)
    }

    fn full(&self) -> bool {
        self.base.full()
    }
}

impl<
    'f,
    X: Drop,
    S: Send + Drop,
    T: Drop,
    C: Consumer<T>,
    N: Fn() -> S + Sync,
    F: Fn(&mut S, X) -> T + Sync,
> Consumer<X> for MapInitConsumer<'f, C, N, F> {
    type Result = C::Result;

    type Error = C::Error;

    type Folder = MapWithFolder<'f, C::Folder, S, F>;

    type Reducer = C::Reducer;

    ghost ready = { λ s. C.ready s.base × ((y : T) → C.takes s.base y)
        × N.IsAlwaysCallable s.init.now };

    ghost takes = { λ s x. (p : MutBor S) → F.pre s.map_op.now p x };

    ghost leaf_gives = { λ s xs out. OnResults C.Folder.may_fill
        (StateSegment (N.post s.init.now) (MapStep (λ p x y q. F.post s.map_op.now p x y q)))
        (C.leaf_gives s.base) xs out };

    ghost node_gives = { λ s a b out. C.node_gives s.base a b out };

    fn split_at(self, index: usize) -> Result<(Self, Self, C::Reducer), Fault> {
        let (left, rest, reducer) = self.base.split_at(index)?;
        let left = MapInitConsumer { base: left, ..self };
        let right = MapInitConsumer { base: rest, ..self };
        Ok((left, right, reducer))
    }

    fn into_folder(self, alloc: Global) -> Result<MapWithFolder<'f, C::Folder, S, F>, Fault> {
        let base = self.base.into_folder(alloc)?;
        Ok(MapWithFolder {
            base,
            item: (self.init)(),
            map_op: self.map_op,
        })
    }
}
