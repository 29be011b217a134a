//! Lists that may be split: slices, copies of their items, indices, and owned items.
ghost use Rattle.std.specs.Prelude.{◌≡◌, ◌++◌, ◌-◌, ◌+◌, ◌<◌, ◌≤◌, ℕ, List, drop, length, map, take, IfOk, ◌⊎◌};
ghost use Rattle.std.specs.Borrow.{Bor};
ghost use Rattle.std.specs.Iterator.{Drains, HoldsAlong, IsFinite, YieldsFirst, YieldsLast, item_count};
ghost use Rattle.std.specs.List.{All, Contains, range_with_len};
ghost use Rattle.parallel_fault.specs.Trouble.{IsMemoryOnErr};
ghost use Rattle.parallel_bridge.specs.Lists.{IsFront};

use crate::window::block::Block;
use parallel_fault::Fault;
use std::alloc::Global;
use std::ops::Range;

/// A list that may be split in two, each part a list of its own, with nothing gathered or copied.
///
/// A producer of a user's own may stand for any list that has a length and can be cut at an index.
/// Its laws are the clauses here: the lists of two parts, one after another, are the list, and what
/// its iterator gives is the list.
pub trait Producer: Send + Sized + Drop {
    /// What the list has.
    type Item: Send + Drop;

    /// What goes over the items.
    type Iter: Iterator<Item = Self::Item> + Send;

    /// Whether the producer may give a list.
    ghost gives: { Self → List Self.Item → Type 0 };

    /// Whether an item may come.
    ghost may: { Self → Self.Item → Type 0 };

    /// How many items come.
    ghost count: { Self → ℕ };

    /// The number of items.
    fn len(&self) -> usize
        ensures counted { result ≡ count self.now }
        ensures each { (xs : List Self.Item) → gives self.now xs → length xs ≡ result };

    /// A producer of the first `index` items, and one of the rest.
    ///
    /// # Errors
    ///
    /// `Fault::Memory` alone, where a part needs memory of its own; the items are then gone.
    fn split_at(self, alloc: Global, index: usize) -> Result<(Self, Self), Fault>
        requires { index ≤ count self }
        ensures joined { IfOk result (λ parts. (xs ys : List Self.Item) → gives parts.0 xs
            → gives parts.1 ys → gives self (xs ++ ys)) }
        ensures front { IfOk result (λ parts. (xs : List Self.Item) → gives parts.0 xs
            → length xs ≡ index) }
        ensures some { IfOk result (λ parts. (ys : List Self.Item) × gives parts.1 ys) }
        ensures counts { IfOk result (λ parts. (count parts.0 ≡ index)
            × (count parts.1 ≡ count self - index)) }
        ensures may_front { IfOk result (λ parts. (x : Self.Item) → may parts.0 x → may self x) }
        ensures may_back { IfOk result (λ parts. (x : Self.Item) → may parts.1 x → may self x) }
        ensures fault { IsMemoryOnErr result };

    /// A producer of the first `index` items, where the others may be left out at no cost; of all
    /// items otherwise, as it is written here.
    fn into_front(self, index: usize) -> Self
        requires { index ≤ count self }
        ensures front { (xs : List Self.Item) → gives result xs
            → (all : List Self.Item) × gives self all × IsFront index xs all }
        ensures may_front { (x : Self.Item) → may result x → may self x }
    {
        let _len = index;
        self
    }

    /// An iterator over the items, in order.
    fn into_items(self) -> Self::Iter
        ensures can { Self.Iter.can_next result }
        ensures ends { IsFinite (Self.Iter.remaining result) }
        ensures gives { (xs : List Self.Item) → Drains Self.Iter.next_gives result xs
            → gives self xs }
        ensures may { HoldsAlong Self.Iter.next_gives result (All (may self)) };
}

impl<'a, T: Sync> Producer for &'a [T] {
    type Item = &'a T;

    type Iter = std::slice::Iter<'a, T>;

    ghost gives = { λ s xs. map (λ (x : Bor T). x.now) xs ≡ s.now };

    ghost may = { λ s x. Contains s.now x.now };

    ghost count = { λ s. length s.now };

    fn len(&self) -> usize {
        let items: &'a [T] = *self;
        items.len()
    }

    fn split_at(self, _alloc: Global, index: usize) -> Result<(Self, Self), Fault> {
        Ok((&self[..index], &self[index..]))
    }

    fn into_front(self, index: usize) -> Self {
        &self[..index]
    }

    fn into_items(self) -> std::slice::Iter<'a, T> {
        self.iter()
    }
}

/// The items of a slice, each copied as it comes.
#[derive(Clone, Copy, Debug)]
pub struct Copies<'a, T> {
    /// The items.
    pub slice: &'a [T],
}

impl<'a, T: Copy + Send + Sync + Drop> Producer for Copies<'a, T> {
    type Item = T;

    type Iter = std::iter::Copied<std::slice::Iter<'a, T>>;

    ghost gives = { λ s xs. xs ≡ s.slice.now };

    ghost may = { λ s x. Contains s.slice.now x };

    ghost count = { λ s. length s.slice.now };

    fn len(&self) -> usize {
        self.slice.len()
    }

    fn split_at(self, _alloc: Global, index: usize) -> Result<(Self, Self), Fault> {
        let front = Copies {
            slice: &self.slice[..index],
        };
        let back = Copies {
            slice: &self.slice[index..],
        };
        Ok((front, back))
    }

    fn into_front(self, index: usize) -> Self {
        Copies {
            slice: &self.slice[..index],
        }
    }

    fn into_items(self) -> std::iter::Copied<std::slice::Iter<'a, T>> {
        self.slice.iter().copied()
    }
}

/// The indices from `start` up to `end`, which isn't one of them.
#[derive(Clone, Copy, Debug, PartialEq, Eq)]
pub struct Indices {
    /// The first index.
    pub start: usize,
    /// The index after the last one.
    pub end: usize,
}

impl Producer for Indices {
    type Item = usize;

    type Iter = Range<usize>;

    ghost gives = { λ s xs. xs ≡ range_with_len s.start (s.end - s.start) };

    ghost may = { λ s x. (s.start ≤ x) × (x < s.end) };

    ghost count = { λ s. s.end - s.start };

    fn len(&self) -> usize {
        self.end.saturating_sub(self.start)
    }

    #[tactic(auto, using(crate::proofs::Ranges::indices_split, crate::proofs::Ranges::indices_long))]
    fn split_at(self, _alloc: Global, index: usize) -> Result<(Self, Self), Fault> {
        if self.end <= self.start {
            return Ok((self, self));
        }
        let middle = self.start + index;
        let front = Indices {
            start: self.start,
            end: middle,
        };
        let back = Indices {
            start: middle,
            end: self.end,
        };
        Ok((front, back))
    }

    fn into_front(self, index: usize) -> Self {
        if self.end <= self.start {
            return self;
        }
        Indices {
            start: self.start,
            end: self.start + index,
        }
    }

    fn into_items(self) -> Range<usize> {
        self.start..self.end
    }
}

/// Owned items that may be split in two, each part with its own items.
#[derive(Drop)]
pub struct DrainProducer<T> {
    items: Block<T, Global>,
    ghost first: { items.before ≡ 0 },
}

impl<T: Drop> DrainProducer<T> {
    ghost use Rattle.parallel_bridge.specs.Producers.{drain_items, drain_rest};

    /// A producer of all items of a list. It keeps the list's block.
    pub fn from_vec(items: Vec<T>) -> Self
        ensures { drain_items result ≡ items.items }
    {
        DrainProducer {
            items: Block::from_vec(items),
        }
    }

    /// The items as a vector. Nothing is copied.
    pub fn into_vec(self) -> Vec<T>
        ensures { result.items ≡ drain_items self }
    {
        self.items.into_vec()
    }

    /// An iterator over the items, from both ends.
    pub fn drain(self) -> SliceDrain<T>
        ensures { drain_rest result ≡ drain_items self }
    {
        SliceDrain { rest: self.items }
    }
}

impl<T: Send + Drop> Producer for DrainProducer<T> {
    ghost use Rattle.parallel_bridge.specs.Producers.{drain_items};

    type Item = T;

    type Iter = SliceDrain<T>;

    ghost gives = { λ s xs. xs ≡ drain_items s };

    ghost may = { λ s x. Contains (drain_items s) x };

    ghost count = { λ s. length (drain_items s) };

    fn len(&self) -> usize {
        self.items.len()
    }

    fn split_at(self, _alloc: Global, index: usize) -> Result<(Self, Self), Fault> {
        let (front, back) = self.items.split_off(index)?;
        Ok((
            DrainProducer { items: front },
            DrainProducer { items: back },
        ))
    }

    fn into_items(self) -> SliceDrain<T> {
        self.drain()
    }
}

/// Gives owned items from both ends, each one once.
#[derive(Drop)]
pub struct SliceDrain<T> {
    rest: Block<T, Global>,
}

impl<T: Drop> Iterator for SliceDrain<T> {
    ghost use Rattle.parallel_bridge.specs.Producers.{drain_rest};

    type Item = T;

    ghost next_gives = { YieldsFirst drain_rest };

    ghost remaining = { item_count drain_rest };

    fn next(&mut self) -> Option<T> {
        if self.rest.len() == 0 {
            return None;
        }
        Some(self.rest.take())
    }

    fn size_hint(&self) -> (usize, Option<usize>) {
        let left = self.rest.len();
        (left, Some(left))
    }
}

impl<T: Drop> DoubleEndedIterator for SliceDrain<T> {
    ghost use Rattle.parallel_bridge.specs.Producers.{drain_rest};

    ghost next_back_gives = { YieldsLast drain_rest };

    fn next_back(&mut self) -> Option<T> {
        if self.rest.len() == 0 {
            return None;
        }
        Some(self.rest.take_back())
    }
}

impl<T: Drop> ExactSizeIterator for SliceDrain<T> {
    fn len(&self) -> usize {
        self.rest.len()
    }
}
