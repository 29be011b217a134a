//! Iterators that say how many items come, so that none is gathered to be counted.
ghost use Rattle.std.specs.Prelude.{◌≡◌, ◌-◌, refl};
ghost use Rattle.std.specs.Iterator.{Drains, IsFinite, size};
ghost use Rattle.parallel_bridge.specs.Sources.{MayCome};
ghost use Rattle.parallel_bridge.specs.ExactSizes.{GivesExactly, ends_at_first, exactly_copied, exactly_listed, exactly_ranged, exactly_zipped};
ghost use Rattle.std.specs.Iterator.Adapters.{copied_source, zip_first, zip_second};
ghost use Rattle.std.specs.Slice.Iter.{iter_rest};
ghost use Rattle.std.proofs.lemmas.Iterator.{YieldsList-from_range, YieldsList-from_slice};
ghost use Rattle.parallel_bridge.specs.Windows.{IsExtent};

use crate::parts::Parts;
use crate::segment::WindowSegment;
use crate::source::gathered;
use crate::window::home::Home;
use crate::window::part::Window;
use parallel_fault::Fault;
use std::alloc::Global;
use std::iter::{Copied, Zip};
use std::ops::Range;

/// An iterator that may be called, ends, and gives just as many items as its `len` says. Of any
/// other `ExactSizeIterator` its clauses say only that no more items come.
pub trait ExactSize: ExactSizeIterator {
    /// No run of calls gives more items than are left, and each that comes to its end gives as
    /// many.
    ghost exact: { (s : Self) → Self.can_next s × IsFinite (Self.remaining s)
        × GivesExactly Self.next_gives s (size (Self.remaining s)) };
}

impl ExactSize for Range<usize> {
    ghost exact = { λ s. (
      tt,
      tt,
      exactly_ranged s
          (YieldsList-from_range s.start s.end (s.end - s.start) refl refl),
    ) };
}

impl<'a, T> ExactSize for std::slice::Iter<'a, T> {
    ghost exact = { λ s. (
      tt,
      tt,
      exactly_listed (iter_rest s)
          (YieldsList-from_slice (iter_rest s) refl),
    ) };
}

impl<'a, T: Copy + 'a, I: ExactSize<Item = &'a T>> ExactSize for Copied<I> {
    ghost exact = { λ s. let inner = I.exact (copied_source s) in (
      inner.0,
      inner.1,
      exactly_copied I.next_gives (size (I.remaining (copied_source s))) inner.2,
    ) };
}

impl<A: ExactSize, B: ExactSize> ExactSize for Zip<A, B>
where
    A::Item: Drop,
{
    ghost exact = { λ s. let a = A.exact (zip_first s) in let b = B.exact (zip_second s) in (
      (a.0, b.0),
      ends_at_first (A.remaining (zip_first s)) (B.remaining (zip_second s)) a.1,
      exactly_zipped A.next_gives B.next_gives (A.remaining (zip_first s))
          (B.remaining (zip_second s)) a.1 b.1 a.2 b.2,
    ) };
}

/// An iterator as a source that is asked for its number: a strategy is asked by it before an item
/// is taken, and only where it goes in parallel are the items gathered.
#[derive(Clone, Drop)]
pub struct Counted<I> {
    /// The iterator.
    pub iter: I,
}

impl<I: ExactSize + Send + Drop> Parts for Counted<I>
where
    I::Item: Send + Drop,
{
    type Item = I::Item;

    type Iter = I;

    type Segment = WindowSegment<I::Item>;

    type Home = Home<I::Item, Global>;

    ghost gives = { λ s xs. Drains I.next_gives s.iter xs };

    ghost may = { λ s x. MayCome I.next_gives s.iter x };

    ghost count = { λ s. size (I.remaining s.iter) };

    ghost keeps = { λ home rest. (rest.start ≡ home.start) × (rest.room ≡ home.room)
        × IsExtent I.Item.row home };

    fn len(&self) -> usize {
        self.iter.len()
    }

    fn into_items(self) -> I {
        self.iter
    }

    fn into_segment(
        self,
        alloc: Global,
    ) -> Result<(WindowSegment<I::Item>, Home<I::Item, Global>), Fault> {
        let items = gathered(alloc, self.iter)?;
        let (window, home) = Home::adopt(items);
        Ok((WindowSegment { window }, home))
    }

    fn put_away(home: Home<I::Item, Global>, rest: Window<I::Item>) {
        home.free(rest);
    }
}
