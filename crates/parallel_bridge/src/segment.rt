//! Parts of a list that are split, and then handed over item by item. What is left of a part, the
//! memory of its items for one, comes back, and that of two neighbours is put together again.
ghost use Rattle.std.specs.Prelude.{◌≡◌, ◌++◌, ◌-◌, ◌+◌, ◌≤◌, ℕ, List, [], IfErr, IfOk, length};
ghost use Rattle.std.specs.List.{Contains};
ghost use Rattle.std.specs.Vec.Ownership.{FitsInBlock};
ghost use Rattle.parallel_fault.specs.declared.fault.Fault.TheVariants.{Memory};
ghost use Rattle.parallel_bridge.specs.Fills.{IsFull, SamePlaces};
ghost use Rattle.parallel_bridge.specs.Windows.{Follows};

use crate::cursor::{Cursor, IterCursor};
use crate::producer::Producer;
use crate::window::part::Window;
use parallel_fault::Fault;
use std::alloc::Global;

/// A part of a list. Its laws are a [`Producer`]'s, and those of what is left.
pub trait Segment<Item: Send + Drop>: Send + Sized + Drop {
    /// What is left of a part whose items were handed over.
    type Rest: Send + Drop;

    /// What gives its items, and then what is left of it.
    type Items: Cursor<Item, Self::Rest> + Send;

    /// Whether the part may be used.
    ghost ready: { Self → Type 0 };
    /// Whether it may give a list.
    ghost gives: { Self → List Item → Type 0 };
    /// Whether an item may come.
    ghost may: { Self → Item → Type 0 };
    /// How many items come.
    ghost count: { Self → ℕ };
    /// What may be left of it.
    ghost leaves: { Self → Self.Rest → Type 0 };
    /// What may be left of its two halves.
    ghost meets: { Self → Self.Rest → Self.Rest → Type 0 };

    /// The number of items.
    fn len(&self) -> usize
        ensures counted { result ≡ count self.now }
        ensures each { (xs : List Item) → gives self.now xs → length xs ≡ result };

    /// The part of the first `index` items, and that of the rest.
    ///
    /// # Errors
    ///
    /// `Fault::Memory` alone, and what is left; the items are then gone.
    fn split_at(self, alloc: Global, index: usize) -> Result<(Self, Self), (Self::Rest, Fault)>
        requires ready { ready self }
        requires within { index ≤ count self }
        ensures ready { IfOk result (λ p. ready p.0 × ready p.1) }
        ensures joined { IfOk result (λ p. (xs ys : List Item) → gives p.0 xs
            → gives p.1 ys → gives self (xs ++ ys)) }
        ensures front { IfOk result (λ p. (xs : List Item) → gives p.0 xs → length xs ≡ index) }
        ensures some { IfOk result (λ p. (ys : List Item) × gives p.1 ys) }
        ensures counts { IfOk result (λ p. (count p.0 ≡ index) × (count p.1 ≡ count self - index)) }
        ensures may_front { IfOk result (λ p. (x : Item) → may p.0 x → may self x) }
        ensures may_back { IfOk result (λ p. (x : Item) → may p.1 x → may self x) }
        ensures rests { IfOk result (λ p. (a b : Self.Rest) → leaves p.0 a → leaves p.1 b
            → meets self a b) }
        ensures refused { IfErr result (λ e. leaves self e.0 × (e.1 ≡ Memory)) };

    /// What is left of two halves, as what is left of the whole.
    fn join(left: Self::Rest, right: Self::Rest) -> Self::Rest
        requires { (whole : Self) × meets whole left right }
        ensures { (whole : Self) → meets whole left right → leaves whole result };

    /// What gives the items one by one.
    fn into_items(self) -> Self::Items
        requires { ready self }
        ensures ready { Self.Items.ready result }
        ensures gives { (xs : List Item) → Self.Items.gives result xs → gives self xs }
        ensures may { (x : Item) → Self.Items.may result x → may self x }
        ensures leaves { (rest : Self.Rest) → Self.Items.leaves result rest → leaves self rest };
}

/// What a producer gives. Nothing is left of it.
#[derive(Drop)]
pub struct ProducerSegment<P> {
    /// The producer.
    pub parts: P,
}

impl<P: Producer> Segment<P::Item> for ProducerSegment<P> {
    type Rest = ();

    type Items = IterCursor<P::Iter>;

    ghost ready = { λ s. Unit {0} };

    ghost gives = { λ s xs. P.gives s.parts xs };

    ghost may = { λ s x. P.may s.parts x };

    ghost count = { λ s. P.count s.parts };

    ghost leaves = { λ s rest. Unit {0} };

    ghost meets = { λ s a b. Unit {0} };

    fn len(&self) -> usize {
        self.parts.len()
    }

    fn split_at(self, alloc: Global, index: usize) -> Result<(Self, Self), ((), Fault)> {
        match self.parts.split_at(alloc, index) {
            Ok((front, back)) => Ok((
                ProducerSegment { parts: front },
                ProducerSegment { parts: back },
            )),
            Err(fault) => Err(((), fault)),
        }
    }

    fn join(_left: (), _right: ()) {}

    fn into_items(self) -> IterCursor<P::Iter> {
        IterCursor {
            iter: self.parts.into_items(),
        }
    }
}

/// Owned items, where they lie. Their slots are left.
#[derive(Drop)]
pub struct WindowSegment<T: Drop> {
    /// The items, one in each slot.
    pub window: Window<T>,
}

impl<T: Send + Drop> Segment<T> for WindowSegment<T> {
    type Rest = Window<T>;

    type Items = WindowSegment<T>;

    ghost ready = { λ s. IsFull s.window × FitsInBlock T.row s.window.room };

    ghost gives = { λ s xs. xs ≡ s.window.items };

    ghost may = { λ s x. Contains s.window.items x };

    ghost count = { λ s. length s.window.items };

    ghost leaves = { λ s rest. SamePlaces s.window rest × (rest.items ≡ []) };

    ghost meets = { λ s a b. (a.start ≡ s.window.start) × Follows T.row a b
        × (a.room + b.room ≡ s.window.room) × (a.items ≡ []) × (b.items ≡ [])
        × FitsInBlock T.row s.window.room };

    fn len(&self) -> usize {
        self.window.len()
    }

    fn split_at(self, _alloc: Global, index: usize) -> Result<(Self, Self), (Window<T>, Fault)> {
        let (front, back) = self.window.split(index);
        Ok((
            WindowSegment { window: front },
            WindowSegment { window: back },
        ))
    }

    fn join(left: Window<T>, right: Window<T>) -> Window<T> {
        left.join(right)
    }

    fn into_items(self) -> WindowSegment<T> {
        self
    }
}

impl<T: Drop> Cursor<T, Window<T>> for WindowSegment<T> {
    ghost ready = { λ s. Unit {0} };

    ghost gives = { λ s xs. xs ≡ s.window.items };

    ghost may = { λ s x. Contains s.window.items x };

    ghost left = { λ s. length s.window.items };

    ghost leaves = { λ s rest. SamePlaces s.window rest × (rest.items ≡ []) };

    fn next(&mut self) -> Option<T> {
        if self.window.len() == 0 {
            return None;
        }
        Some(self.window.take())
    }

    fn rest(mut self) -> Window<T> {
        self.window.clear();
        self.window
    }

    fn end(self) -> Window<T> {
        Cursor::rest(self)
    }
}
