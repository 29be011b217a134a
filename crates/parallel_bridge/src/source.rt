//! Where the items of a list call come from.
ghost use Rattle.std.specs.Prelude.{◌≡◌, List, IfOk};
ghost use Rattle.std.specs.Iterator.{Drains, HoldsAlong, IsFinite};
ghost use Rattle.std.specs.List.{All, Contains};
ghost use Rattle.parallel_fault.specs.Trouble.{IsMemoryOnErr};
ghost use Rattle.parallel_bridge.specs.Sources.{MayCome};

use crate::counted::{Counted, ExactSize};
use crate::pairs::{PairDrain, Pairs};
use crate::parts::{Parts, ProducerParts};
use crate::producer::{DrainProducer, Producer, SliceDrain};
use crate::room::{places_for, with_places};
use crate::segment::Segment;
use parallel_fault::Fault;
use std::alloc::{AllocError, Global};

/// Where the items of a list call come from: a list that is one already, or any iterator that ends.
///
/// The parameter names the kind of source. It is always inferred, and there so that every iterator,
/// every producer and every vector can be a source: a call writes `fold(.., items, ..)` for a
/// `&[T]`, a `Vec<T>`, a `0..n`, a chain or a producer of the user's own.
pub trait Source<M>: Sized {
    /// What comes.
    type Item: Send + Drop;

    /// The list, split among threads.
    type Parts: Parts<Item = Self::Item, Segment: Segment<Self::Item>>;

    /// What goes over the items as they come.
    type Iter: Iterator<Item = Self::Item>;

    /// Whether the items may be asked for. It is nothing for a list, and for an iterator that it
    /// may be called and ends.
    ghost can: { Self → Type 0 };

    /// Whether a list may come.
    ghost gives: { Self → List Self.Item → Type 0 };

    /// Whether an item may come.
    ghost may: { Self → Self.Item → Type 0 };

    /// An iterator over the items, in order; nothing is gathered.
    fn into_items(self) -> Self::Iter
        requires { can self }
        ensures can { Self.Iter.can_next result }
        ensures ends { IsFinite (Self.Iter.remaining result) }
        ensures gives { (xs : List Self.Item) → Drains Self.Iter.next_gives result xs
            → gives self xs }
        ensures may { HoldsAlong Self.Iter.next_gives result (All (may self)) };

    /// The list, to be split. What is no list yet is gathered.
    ///
    /// # Errors
    ///
    /// `Fault::Memory` alone; the items are then gone.
    fn into_parts(self, alloc: Global) -> Result<Self::Parts, Fault>
        requires { can self }
        ensures gives { IfOk result (λ parts. (xs : List Self.Item) → Self.Parts.gives parts xs
            → gives self xs) }
        ensures may { IfOk result (λ parts. (x : Self.Item) → Self.Parts.may parts x → may self x) }
        ensures fault { IsMemoryOnErr result };
}

/// The kind of a source that is a list already.
pub struct ByParts;

/// The kind of a source that is a vector.
pub struct ByVec;

/// The kind of a source that is an owned list, taken two neighbours at a time.
pub struct ByPairs;

/// The kind of a source that is an iterator.
pub struct ByIter;

/// The kind of a source that is an iterator which knows its number.
pub struct ByCount;

impl<P: Producer> Source<ByParts> for P {
    type Item = P::Item;

    type Parts = ProducerParts<P>;

    type Iter = P::Iter;

    ghost can = { λ _. Unit {0} };

    ghost gives = { λ source xs. P.gives source xs };

    ghost may = { λ source x. P.may source x };

    fn into_items(self) -> P::Iter {
        <P as Producer>::into_items(self)
    }

    fn into_parts(self, _alloc: Global) -> Result<ProducerParts<P>, Fault> {
        Ok(ProducerParts { list: self })
    }
}

impl<T: Send + Drop> Source<ByVec> for Vec<T> {
    type Item = T;

    type Parts = DrainProducer<T>;

    type Iter = SliceDrain<T>;

    ghost can = { λ _. Unit {0} };

    ghost gives = { λ source xs. xs ≡ source.items };

    ghost may = { λ source x. Contains source.items x };

    fn into_items(self) -> SliceDrain<T> {
        Producer::into_items(DrainProducer::from_vec(self))
    }

    fn into_parts(self, _alloc: Global) -> Result<DrainProducer<T>, Fault> {
        Ok(DrainProducer::from_vec(self))
    }
}

impl<T: Send + Drop> Source<ByPairs> for Pairs<T> {
    ghost use Rattle.parallel_bridge.specs.Pairs.{pair_items};

    type Item = (T, T);

    type Parts = Pairs<T>;

    type Iter = PairDrain<T>;

    ghost can = { λ _. Unit {0} };

    ghost gives = { λ source xs. xs ≡ pair_items source };

    ghost may = { λ source x. Contains (pair_items source) x };

    fn into_items(self) -> PairDrain<T> {
        Parts::into_items(self)
    }

    fn into_parts(self, _alloc: Global) -> Result<Pairs<T>, Fault> {
        Ok(self)
    }
}

impl<I: Iterator> Source<ByIter> for I
where
    I::Item: Send + Drop,
{
    type Item = I::Item;

    type Parts = DrainProducer<I::Item>;

    type Iter = I;

    ghost can = { λ source. I.can_next source × IsFinite (I.remaining source) };

    ghost gives = { λ source xs. Drains I.next_gives source xs };

    ghost may = { λ source x. MayCome I.next_gives source x };

    fn into_items(self) -> I {
        self
    }

    fn into_parts(self, alloc: Global) -> Result<DrainProducer<I::Item>, Fault> {
        let items = gathered(alloc, self)?;
        Ok(DrainProducer::from_vec(items))
    }
}

impl<I: ExactSize + Send + Drop> Source<ByCount> for Counted<I>
where
    I::Item: Send + Drop,
{
    type Item = I::Item;

    type Parts = Counted<I>;

    type Iter = I;

    ghost can = { λ _. Unit {0} };

    ghost gives = { λ source xs. Drains I.next_gives source.iter xs };

    ghost may = { λ source x. MayCome I.next_gives source.iter x };

    fn into_items(self) -> I {
        Parts::into_items(self)
    }

    fn into_parts(self, _alloc: Global) -> Result<Counted<I>, Fault> {
        Ok(self)
    }
}

/// The items that an iterator gives, as a list.
///
/// # Errors
///
/// `AllocError` if an allocation fails.
pub(crate) fn gathered<I: Iterator>(alloc: Global, iter: I) -> Result<Vec<I::Item>, AllocError>
where
    I::Item: Drop,
    requires can { I.can_next iter }
    requires ends { IsFinite (I.remaining iter) }
    ensures drained { IfOk result (λ all. Drains I.next_gives iter all.items) }
    ensures may { IfOk result (λ all. (x : I.Item) → Contains all.items x
        → MayCome I.next_gives iter x) }
{
    let mut items = with_places(alloc, places_for(iter.size_hint().0));
    items.extend(iter)?;
    Ok(items)
}
