//! Two lists, pair by pair.
ghost use Rattle.std.specs.Prelude.{◌≡◌, List, MatchOption, Some, min};
ghost use Rattle.std.specs.Iterator.{IsFinite, YieldsThen, count_min};

use crate::producer::Producer;
use parallel_fault::Fault;
use std::alloc::Global;

/// Two lists, pair by pair: the first items of both, then the second ones, and so on. It is cut to
/// the shorter one: the items of a longer list that have no neighbour are in no pair.
#[derive(Drop)]
pub struct Zipped<L, R> {
    /// What comes first in the pairs.
    pub left: L,
    /// What comes second.
    pub right: R,
}

impl<L, R> Zipped<L, R> {
    /// The pairs of two lists.
    pub fn new(left: L, right: R) -> Zipped<L, R>
        ensures left { result.left ≡ left }
        ensures right { result.right ≡ right }
    {
        Zipped { left, right }
    }
}

impl<L: Producer, R: Producer> Producer for Zipped<L, R> {
    ghost use Rattle.parallel_bridge.specs.Zips.{PairsOf};

    type Item = (L::Item, R::Item);

    type Iter = ZippedIter<L::Iter, R::Iter>;

    ghost gives = { λ s zs. PairsOf (L.gives s.left) (R.gives s.right) zs };

    ghost may = { λ s z. L.may s.left z.0 × R.may s.right z.1 };

    ghost count = { λ s. min (L.count s.left) (R.count s.right) };

    fn len(&self) -> usize {
        self.left.len().min(self.right.len())
    }

    fn split_at(self, alloc: Global, index: usize) -> Result<(Self, Self), Fault> {
        let (left_front, left_back) = self.left.split_at(alloc, index)?;
        let (right_front, right_back) = self.right.split_at(alloc, index)?;
        let front = Zipped {
            left: left_front,
            right: right_front,
        };
        let back = Zipped {
            left: left_back,
            right: right_back,
        };
        Ok((front, back))
    }

    fn into_front(self, index: usize) -> Self {
        Zipped {
            left: self.left.into_front(index),
            right: self.right.into_front(index),
        }
    }

    // Where a longer side can be cut to the shorter one, nothing is passed over.
    fn into_items(self) -> ZippedIter<L::Iter, R::Iter> {
        let pairs = self.len();
        ZippedIter {
            left: self.left.into_front(pairs).into_items(),
            right: self.right.into_front(pairs).into_items(),
        }
    }
}

/// The items of two iterators, pair by pair. Where one of them ends, what the other one still gives
/// is passed over, so that both have ended.
#[derive(Drop)]
pub struct ZippedIter<A, B> {
    /// What comes first in the pairs.
    pub left: A,
    /// What comes second.
    pub right: B,
}

impl<A: Iterator, B: Iterator> Iterator for ZippedIter<A, B>
where
    A::Item: Drop,
    B::Item: Drop,
{
    ghost use Rattle.parallel_bridge.specs.Zips.{zipped_steps};

    type Item = (A::Item, B::Item);

    ghost can_next = { λ s. A.can_next s.left × B.can_next s.right
        × IsFinite (A.remaining s.left) × IsFinite (B.remaining s.right) };

    ghost next_gives = { zipped_steps A.next_gives B.next_gives };

    ghost remaining = { λ s. count_min (A.remaining s.left) (B.remaining s.right) };

    fn next(&mut self) -> Option<(A::Item, B::Item)> {
        match self.left.next() {
            Some(left) => match self.right.next() {
                Some(right) => Some((left, right)),
                None => {
                    pass_over(&mut self.left);
                    None
                }
            },
            None => {
                pass_over(&mut self.right);
                None
            }
        }
    }

    fn size_hint(&self) -> (usize, Option<usize>) {
        let (left, left_most) = self.left.size_hint();
        let (right, right_most) = self.right.size_hint();
        (left.min(right), lesser(left_most, right_most))
    }
}

// The lesser of two bounds, where there is one.
fn lesser(left: Option<usize>, right: Option<usize>) -> Option<usize>
    ensures { MatchOption left (result ≡ right)
        (λ n. MatchOption right (result ≡ left) (λ m. result ≡ Some (min n m))) }
{
    match (left, right) {
        (Some(left), Some(right)) => Some(left.min(right)),
        (None, most) | (most, None) => most,
    }
}

// Passes over what an iterator still gives.
fn pass_over<I: Iterator>(iter: &mut I)
where
    I::Item: Drop,
    requires can { I.can_next iter.old }
    requires ends { IsFinite (I.remaining iter.old) }
    ensures all { (xs : List I.Item) × YieldsThen I.next_gives iter.old xs None iter.new }
    ensures ended { IsFinite (I.remaining iter.new) }
{
    while let Some(_item) = iter.next() {}
}
