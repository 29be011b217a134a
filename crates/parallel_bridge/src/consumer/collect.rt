//! The list of the items.
ghost use Rattle.std.specs.Prelude.{◌≡◌, ◌++◌, IfOk, List, Result, false};
ghost use Rattle.parallel_bridge.specs.Tries.{OnlyOk};

use crate::plumbing::{Consumer, Folder, Reducer};
use crate::window::block::Block;
use parallel_fault::{Fault, Trouble};
use std::alloc::Global;
use std::convert::Infallible;

/// Gives the list of the items, in order.
#[derive(Drop)]
pub struct CollectConsumer;

/// The items of a segment so far, in order.
#[derive(Drop)]
pub struct CollectResult<T> {
    items: Block<T, Global>,
    ghost first: { items.before ≡ 0 },
}

/// Appends the right list to the left one.
#[derive(Drop)]
pub struct CollectReducer;

impl<T: Drop, E> Reducer<Vec<T>, E> for CollectReducer {
    ghost can_reduce = { λ _ _ _. Unit {0} };

    ghost reduce_gives = { λ _ left right out. OnlyOk
        (λ all. all.items ≡ left.items ++ right.items) out };

    fn reduce(self, mut left: Vec<T>, mut right: Vec<T>) -> Result<Vec<T>, Trouble<E>> {
        left.append(&mut right)?;
        Ok(left)
    }
}

impl<T: Drop, E> Folder<T, Vec<T>, E> for CollectResult<T> {
    ghost ready = { λ _. Unit {0} };

    ghost takes = { λ _ _. Unit {0} };

    ghost gives = { λ s xs out. OnlyOk (λ ys. ys.items ≡ s.items.items ++ xs) out };

    ghost may_fill = { false };

    fn consume(self, _alloc: Global, item: T) -> Result<Self, Fault> {
        let items = self.items.push(item)?;
        Ok(CollectResult { items })
    }

    fn complete(self, _alloc: Global) -> Result<Vec<T>, Trouble<E>> {
        Ok(self.items.into_vec())
    }

    fn full(&self) -> bool {
        false
    }
}

impl<T: Send + Drop> Consumer<T> for CollectConsumer {
    type Result = Vec<T>;

    type Error = Infallible;

    type Folder = CollectResult<T>;

    type Reducer = CollectReducer;

    ghost ready = { λ _. Unit {0} };

    ghost takes = { λ _ _. Unit {0} };

    ghost leaf_gives = { λ _ xs out. OnlyOk (λ ys. ys.items ≡ xs) out };

    ghost node_gives = { λ _ left right out. OnlyOk
        (λ all. all.items ≡ left.items ++ right.items) out };

    fn split_at(self, _index: usize) -> Result<(Self, Self, CollectReducer), Fault> {
        Ok((CollectConsumer, CollectConsumer, CollectReducer))
    }

    fn into_folder(self, alloc: Global) -> Result<CollectResult<T>, Fault> {
        Ok(CollectResult {
            items: Block::from_vec(Vec::new(alloc)),
        })
    }
}
