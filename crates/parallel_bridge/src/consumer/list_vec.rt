//! A list of lists, one for each segment.
ghost use Rattle.std.specs.Prelude.{◌≡◌, ◌++◌, IfOk, List, Result, false};
ghost use Rattle.parallel_bridge.specs.Tries.{OnlyOk};
ghost use Rattle.parallel_bridge.specs.Outcomes.{IsListed};

use crate::plumbing::{Consumer, Folder, Reducer};
use parallel_fault::{Fault, Trouble};
use std::alloc::Global;
use std::collections::LinkedList;
use std::convert::Infallible;

/// Gives a list of lists, one for each segment that has items, whose items are those of all
/// segments in order. Nothing is copied where two parts are put together.
#[derive(Drop)]
pub struct ListVecConsumer;

/// The items of a segment so far, in order.
#[derive(Drop)]
pub struct ListVecFolder<T> {
    /// The items.
    pub vec: Vec<T>,
}

/// Appends the right list of lists to the left one.
#[derive(Drop)]
pub struct ListReducer;

impl<T: Drop, E> Reducer<LinkedList<Vec<T>>, E> for ListReducer {
    ghost can_reduce = { λ _ _ _. Unit {0} };

    ghost reduce_gives = { λ _ left right out. OnlyOk (λ all. all ≡ left ++ right) out };

    fn reduce(
        self,
        mut left: LinkedList<Vec<T>>,
        mut right: LinkedList<Vec<T>>,
    ) -> Result<LinkedList<Vec<T>>, Trouble<E>> {
        left.append(&mut right)?;
        Ok(left)
    }
}

impl<T: Drop, E> Folder<T, LinkedList<Vec<T>>, E> for ListVecFolder<T> {
    ghost ready = { λ _. Unit {0} };

    ghost takes = { λ _ _. Unit {0} };

    ghost gives = { λ s xs out. OnlyOk (λ all. IsListed (s.vec.items ++ xs) all) out };

    ghost may_fill = { false };

    fn consume(mut self, _alloc: Global, item: T) -> Result<Self, Fault> {
        self.vec.push(item)?;
        Ok(self)
    }

    fn complete(self, alloc: Global) -> Result<LinkedList<Vec<T>>, Trouble<E>> {
        let mut all = LinkedList::new(alloc);
        if self.vec.is_empty() {
            return Ok(all);
        }
        all.push_back(self.vec)?;
        Ok(all)
    }

    fn full(&self) -> bool {
        false
    }
}

impl<T: Send + Drop> Consumer<T> for ListVecConsumer {
    type Result = LinkedList<Vec<T>>;

    type Error = Infallible;

    type Folder = ListVecFolder<T>;

    type Reducer = ListReducer;

    ghost ready = { λ _. Unit {0} };

    ghost takes = { λ _ _. Unit {0} };

    ghost leaf_gives = { λ _ xs out. OnlyOk (λ all. IsListed xs all) out };

    ghost node_gives = { λ _ left right out. OnlyOk (λ all. all ≡ left ++ right) out };

    fn split_at(self, _index: usize) -> Result<(Self, Self, ListReducer), Fault> {
        Ok((ListVecConsumer, ListVecConsumer, ListReducer))
    }

    fn into_folder(self, alloc: Global) -> Result<ListVecFolder<T>, Fault> {
        Ok(ListVecFolder {
            vec: Vec::new(alloc),
        })
    }
}
