//! What a list call splits among threads: a list that comes apart into segments, and the block that
//! its items lie in, to which what is left of them comes back.
ghost use Rattle.std.specs.Prelude.{◌≡◌, ◌≤◌, ℕ, List, IfOk, length};
ghost use Rattle.std.specs.Iterator.{Drains, HoldsAlong, IsFinite};
ghost use Rattle.std.specs.List.{All, Contains};
ghost use Rattle.parallel_fault.specs.Trouble.{IsMemoryOnErr};
ghost use Rattle.parallel_bridge.specs.Fills.{SamePlaces};
ghost use Rattle.parallel_bridge.specs.Windows.{IsExtent};

use crate::producer::{DrainProducer, Producer, SliceDrain};
use crate::segment::{ProducerSegment, Segment, WindowSegment};
use crate::window::home::Home;
use crate::window::part::Window;
use parallel_fault::Fault;
use std::alloc::Global;

/// A list that a call splits among threads. Its laws are a [`Producer`]'s, and those of its one
/// segment: the segment of the whole list gives what the list gives, and what is left of it is put
/// away with what its items lay in.
pub trait Parts: Send + Sized + Drop {
    /// What the list has.
    type Item: Send + Drop;

    /// What goes over the items.
    type Iter: Iterator<Item = Self::Item> + Send;

    /// The parts that it is split into.
    type Segment: Segment<Self::Item>;

    /// What the items lie in while the list is split.
    type Home;

    /// Whether the list may be given.
    ghost gives: { Self → List Self.Item → Type 0 };

    /// Whether an item may come.
    ghost may: { Self → Self.Item → Type 0 };

    /// How many items come.
    ghost count: { Self → ℕ };

    /// What may be put away with a home.
    ghost keeps: { Self.Home → Self.Segment.Rest → Type 0 };

    /// The number of items.
    fn len(&self) -> usize
        ensures counted { result ≡ count self.now }
        ensures each { (xs : List Self.Item) → gives self.now xs → length xs ≡ result };

    /// An iterator over the items, in order.
    fn into_items(self) -> Self::Iter
        ensures can { Self.Iter.can_next result }
        ensures ends { IsFinite (Self.Iter.remaining result) }
        ensures gives { (xs : List Self.Item) → Drains Self.Iter.next_gives result xs
            → gives self xs }
        ensures may { HoldsAlong Self.Iter.next_gives result (All (may self)) };

    /// The whole list as one segment, and what its items lie in. What is no list yet is gathered;
    /// of what is one, nothing is copied.
    ///
    /// # Errors
    ///
    /// `Fault::Memory` alone, where the items have to be gathered; they are then gone.
    fn into_segment(self, alloc: Global) -> Result<(Self::Segment, Self::Home), Fault>
        ensures ready { IfOk result (λ p. Self.Segment.ready p.0) }
        ensures gives { IfOk result (λ p. (xs : List Self.Item) → Self.Segment.gives p.0 xs
            → gives self xs) }
        ensures may { IfOk result (λ p. (x : Self.Item) → Self.Segment.may p.0 x → may self x) }
        ensures count { IfOk result (λ p. Self.Segment.count p.0 ≡ count self) }
        ensures keeps { IfOk result (λ p. (rest : Self.Segment.Rest)
            → Self.Segment.leaves p.0 rest → keeps p.1 rest) }
        ensures fault { IsMemoryOnErr result };

    /// Puts away what is left of the segment of the whole list.
    fn put_away(home: Self::Home, rest: <Self::Segment as Segment<Self::Item>>::Rest)
        requires { keeps home rest };
}

/// A producer, whose parts are made by itself.
#[derive(Drop)]
pub struct ProducerParts<P> {
    /// The producer.
    pub list: P,
}

impl<P: Producer> Parts for ProducerParts<P> {
    type Item = P::Item;

    type Iter = P::Iter;

    type Segment = ProducerSegment<P>;

    type Home = ();

    ghost gives = { λ s xs. P.gives s.list xs };

    ghost may = { λ s x. P.may s.list x };

    ghost count = { λ s. P.count s.list };

    ghost keeps = { λ home rest. Unit {0} };

    fn len(&self) -> usize {
        self.list.len()
    }

    fn into_items(self) -> P::Iter {
        self.list.into_items()
    }

    fn into_segment(self, _alloc: Global) -> Result<(ProducerSegment<P>, ()), Fault> {
        Ok((ProducerSegment { parts: self.list }, ()))
    }

    fn put_away(_home: (), _rest: ()) {}
}

impl<T: Send + Drop> Parts for DrainProducer<T> {
    ghost use Rattle.parallel_bridge.specs.Producers.{drain_items};

    type Item = T;

    type Iter = SliceDrain<T>;

    type Segment = WindowSegment<T>;

    type Home = Home<T, Global>;

    ghost gives = { λ s xs. xs ≡ drain_items s };

    ghost may = { λ s x. Contains (drain_items s) x };

    ghost count = { λ s. length (drain_items s) };

    ghost keeps = { λ home rest. (rest.start ≡ home.start) × (rest.room ≡ home.room)
        × IsExtent T.row home };

    fn len(&self) -> usize {
        Producer::len(self)
    }

    fn into_items(self) -> SliceDrain<T> {
        Producer::into_items(self)
    }

    fn into_segment(self, _alloc: Global) -> Result<(WindowSegment<T>, Home<T, Global>), Fault> {
        let (window, home) = Home::adopt(self.into_vec());
        Ok((WindowSegment { window }, home))
    }

    fn put_away(home: Home<T, Global>, rest: Window<T>) {
        home.free(rest);
    }
}
