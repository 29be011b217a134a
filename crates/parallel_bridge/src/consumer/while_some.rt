//! The values before the first `None`.
ghost use Rattle.std.specs.Prelude.{true};
ghost use Rattle.parallel_bridge.specs.Tries.{before_none, unless_full};

use crate::plumbing::{Consumer, Folder};
use parallel_fault::{Fault, Trouble};
use std::alloc::Global;

/// Hands the values before the first `None` of each segment to another consumer.
#[derive(Drop)]
pub struct WhileSomeConsumer<C> {
    /// What takes the values.
    pub base: C,
}

/// Hands the values before the first `None` of a segment to another folder.
#[derive(Drop)]
pub struct WhileSomeFolder<C> {
    /// What takes the values.
    pub base: C,
    /// Whether a `None` was met in this segment.
    pub full: bool,
}

impl<T: Drop, R, E, C: Folder<T, R, E>> Folder<Option<T>, R, E> for WhileSomeFolder<C> {
    ghost ready = { λ s. C.ready s.base × ((y : T) → C.takes s.base y) };

    ghost takes = { λ _ _. Unit {0} };

    ghost gives = { λ s xs out. C.gives s.base (unless_full s.full xs) out };

    ghost may_fill = { true };

    fn consume(self, alloc: Global, item: Option<T>) -> Result<Self, Fault> {
        if self.full {
            return Ok(self);
        }
        match item {
            Some(value) => {
                let base = self.base.consume(alloc, value)?;
                Ok(WhileSomeFolder { base, full: false })
            }
            None => Ok(WhileSomeFolder {
                base: self.base,
                full: true,
            }),
        }
    }

    fn complete(self, alloc: Global) -> Result<R, Trouble<E>> {
        self.base.complete(alloc)
    }

    fn full(&self) -> bool {
        self.full
    }
}

impl<T: Drop, C: Consumer<T>> Consumer<Option<T>> for WhileSomeConsumer<C> {
    type Result = C::Result;

    type Error = C::Error;

    type Folder = WhileSomeFolder<C::Folder>;

    type Reducer = C::Reducer;

    ghost ready = { λ s. C.ready s.base × ((y : T) → C.takes s.base y) };

    ghost takes = { λ _ _. Unit {0} };

    ghost leaf_gives = { λ s xs out. C.leaf_gives s.base (before_none xs) out };

    ghost node_gives = { λ s a b out. C.node_gives s.base a b out };

    fn split_at(self, index: usize) -> Result<(Self, Self, C::Reducer), Fault> {
        let (left, right, reducer) = self.base.split_at(index)?;
        Ok((
            WhileSomeConsumer { base: left },
            WhileSomeConsumer { base: right },
            reducer,
        ))
    }

    fn into_folder(self, alloc: Global) -> Result<WhileSomeFolder<C::Folder>, Fault> {
        let base = self.base.into_folder(alloc)?;
        Ok(WhileSomeFolder { base, full: false })
    }
}
