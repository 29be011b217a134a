//! How often a list is split.
ghost use Rattle.std.specs.Prelude.{◌≡◌, ◌/◌, ◌<◌, ◌≤◌, ◌↔◌, IsTrue, false, max};
ghost use Rattle.std.specs.Int.NonZero.{non_zero_usize_get};

use std::num::NonZeroUsize;

/// How often a list may still be split, whatever its length.
#[derive(Clone, Copy, Debug, PartialEq, Eq)]
pub struct Splitter {
    /// The number that is halved at each split, and splits no more once it is 0.
    pub splits: usize,
}

impl Splitter {
    /// The number starts as that of the threads.
    pub fn new(threads: NonZeroUsize) -> Self
        ensures { result.splits ≡ non_zero_usize_get threads }
    {
        Splitter {
            splits: threads.get(),
        }
    }

    /// Whether to split once more; where so, the number is halved, rounding down.
    pub fn try_split(&mut self) -> bool
        ensures splits { IsTrue result ↔ 0 < self.old.splits }
        ensures halved { self.new.splits ≡ self.old.splits / 2 }
    {
        let splits = self.splits;
        self.splits = splits / 2;
        splits > 0
    }
}

/// How often a list may still be split, and how short its parts may become.
#[derive(Clone, Copy, Debug, PartialEq, Eq)]
pub struct LengthSplitter {
    /// How often.
    pub inner: Splitter,
    /// The least length of a part, 1 or more.
    pub min: usize,
}

impl LengthSplitter {
    /// The number starts as that of the threads, and no part has fewer than `min` items, nor none.
    pub fn new(threads: NonZeroUsize, min: usize) -> Self
        ensures splits { result.inner.splits ≡ non_zero_usize_get threads }
        ensures min { result.min ≡ max min 1 }
    {
        LengthSplitter {
            inner: Splitter::new(threads),
            min: min.max(1),
        }
    }

    /// Whether to split a list of `len` items at half its length; where so, the number is halved.
    pub fn try_split(&mut self, len: usize) -> bool
        ensures splits { IsTrue result ↔ ((self.old.min ≤ len / 2) × (0 < self.old.inner.splits)) }
        ensures halved { IsTrue result → self.new.inner.splits ≡ self.old.inner.splits / 2 }
        ensures kept { result ≡ false → self.new.inner.splits ≡ self.old.inner.splits }
        ensures least { self.new.min ≡ self.old.min }
    {
        len / 2 >= self.min && self.inner.try_split()
    }
}
