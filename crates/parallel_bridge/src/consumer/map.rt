//! The results of a closure.
ghost use Rattle.std.specs.Prelude.{List, Result};
ghost use Rattle.parallel_bridge.specs.Fulls.{OnResults};
ghost use Rattle.parallel_bridge.specs.Lists.{MapOf};

use crate::plumbing::{Consumer, Folder};
use parallel_fault::{Fault, Trouble};
use std::alloc::Global;

/// Maps each item by a closure, and hands the results to another consumer.
#[derive(Drop)]
pub struct MapConsumer<'f, C, F> {
    /// What takes the results.
    pub base: C,
    /// The closure that maps an item.
    pub map_op: &'f F,
}

/// Maps the items of a segment by a closure, and hands the results to another folder.
#[derive(Drop)]
pub struct MapFolder<'f, C, F> {
    /// What takes the results.
    pub base: C,
    /// The closure that maps an item.
    pub map_op: &'f F,
}

impl<'f, X: Drop, T: Drop, R, E, C: Folder<T, R, E>, F: Fn(X) -> T> Folder<X, R, E>
    for MapFolder<'f, C, F> {
    ghost ready = { λ s. C.ready s.base × ((y : T) → C.takes s.base y) };

    ghost takes = { λ s x. F.pre s.map_op.now x };

    ghost gives = { λ s xs out. OnResults C.may_fill (MapOf (F.post s.map_op.now))
        (C.gives s.base) xs out };

    ghost may_fill = { C.may_fill };

    fn consume(self, alloc: Global, item: X) -> Result<Self, Fault> {
        let answer = (self.map_op)(item);
        let base = self.base.consume(alloc, answer)?;
        Ok(MapFolder { base, ..self })
    }

    fn complete(self, alloc: Global) -> Result<R, Trouble<E>> {
        self.base.complete(alloc)
    }

    fn full(&self) -> bool {
        self.base.full()
    }
}

impl<'f, X: Drop, T: Drop, C: Consumer<T>, F: Fn(X) -> T + Sync> Consumer<X>
    for MapConsumer<'f, C, F> {
    type Result = C::Result;

    type Error = C::Error;

    type Folder = MapFolder<'f, C::Folder, F>;

    type Reducer = C::Reducer;

    ghost ready = { λ s. C.ready s.base × ((y : T) → C.takes s.base y) };

    ghost takes = { λ s x. F.pre s.map_op.now x };

    ghost leaf_gives = { λ s xs out. OnResults C.Folder.may_fill (MapOf (F.post s.map_op.now))
        (C.leaf_gives s.base) xs out };

    ghost node_gives = { λ s a b out. C.node_gives s.base a b out };

    fn split_at(self, index: usize) -> Result<(Self, Self, C::Reducer), Fault> {
        let (left, rest, reducer) = self.base.split_at(index)?;
        let left = MapConsumer { base: left, ..self };
        let right = MapConsumer { base: rest, ..self };
        Ok((left, right, reducer))
    }

    fn into_folder(self, alloc: Global) -> Result<MapFolder<'f, C::Folder, F>, Fault> {
        let base = self.base.into_folder(alloc)?;
        Ok(MapFolder {
            base,
            map_op: self.map_op,
        })
    }
}
