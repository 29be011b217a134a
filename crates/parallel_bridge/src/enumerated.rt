//! A list, each item with its index.
ghost use Rattle.std.specs.Prelude.{◌≡◌, ◌-◌, ◌<◌, ◌≤◌, min};
ghost use Rattle.std.specs.List.{range_with_len};

use crate::producer::{Indices, Producer};
use crate::zipped::{Zipped, ZippedIter};
use parallel_fault::Fault;
use std::alloc::Global;
use std::ops::Range;

/// The items of a list, each with its index: the pairs of the indices and the list. A part of it
/// has the indices of its items in the whole.
#[derive(Drop)]
pub struct Enumerated<P> {
    /// The pairs of indices and items.
    pub pairs: Zipped<Indices, P>,
}

impl<P: Producer> Enumerated<P> {
    /// The items of a list with their indices, from 0 on.
    pub fn new(list: P) -> Enumerated<P>
        ensures list { result.pairs.right ≡ list }
        ensures start { result.pairs.left.start ≡ 0 }
        ensures end { result.pairs.left.end ≡ P.count list }
    {
        let indices = Indices {
            start: 0,
            end: list.len(),
        };
        Enumerated {
            pairs: Zipped::new(indices, list),
        }
    }
}

impl<P: Producer> Producer for Enumerated<P> {
    ghost use Rattle.parallel_bridge.specs.Zips.{PairsOf};

    type Item = (usize, P::Item);

    type Iter = ZippedIter<Range<usize>, P::Iter>;

    ghost gives = { λ s zs. PairsOf
        (λ is. is ≡ range_with_len s.pairs.left.start (s.pairs.left.end - s.pairs.left.start))
        (P.gives s.pairs.right) zs };

    ghost may = { λ s z. ((s.pairs.left.start ≤ z.0) × (z.0 < s.pairs.left.end))
        × P.may s.pairs.right z.1 };

    ghost count = { λ s. min (s.pairs.left.end - s.pairs.left.start) (P.count s.pairs.right) };

    fn len(&self) -> usize {
        self.pairs.len()
    }

    fn split_at(self, alloc: Global, index: usize) -> Result<(Self, Self), Fault> {
        let (front, back) = self.pairs.split_at(alloc, index)?;
        Ok((Enumerated { pairs: front }, Enumerated { pairs: back }))
    }

    fn into_front(self, index: usize) -> Self {
        Enumerated {
            pairs: self.pairs.into_front(index),
        }
    }

    fn into_items(self) -> ZippedIter<Range<usize>, P::Iter> {
        self.pairs.into_items()
    }
}
