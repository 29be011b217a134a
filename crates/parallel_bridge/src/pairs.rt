//! Neighbouring pairs of an owned list, which is cut where it lies.
ghost use Rattle.std.specs.Prelude.{◌≡◌, ◌+◌, ◌<◌, ◌/◌, ◌∷◌, [], Result, length};
ghost use Rattle.std.specs.Iterator.{YieldsFirst, item_count};
ghost use Rattle.std.specs.List.{Contains};
ghost use Rattle.std.specs.Vec.Ownership.{FitsInBlock};
ghost use Rattle.parallel_bridge.specs.Fills.{IsFull, SamePlaces};
ghost use Rattle.parallel_bridge.specs.Pairs.{odd_of, pair_items, pair_rest, pairs_of};
ghost use Rattle.parallel_bridge.specs.Windows.{Follows, IsExtent};

use crate::cursor::Cursor;
use crate::parts::Parts;
use crate::segment::Segment;
use crate::window::block::Block;
use crate::window::home::Home;
use crate::window::part::Window;
use parallel_fault::Fault;
use std::alloc::Global;

/// The items of an owned list, two neighbours at a time. It is cut where it lies: a cut of the
/// pairs is a cut of the list at twice the index, and no item is moved before its pair is handed
/// over.
#[derive(Drop)]
pub struct Pairs<T> {
    items: Vec<T>,
}

impl<T: Drop> Pairs<T> {
    /// The pairs of a list, and its last item where it has an odd number of them. Nothing is
    /// copied, and it takes no memory.
    pub fn new(mut items: Vec<T>) -> (Pairs<T>, Option<T>)
        ensures pairs { pair_items result.0 ≡ pairs_of items.items }
        ensures odd { result.1 ≡ odd_of items.items }
    {
        let odd = if items.len() % 2 == 1 {
            items.pop()
        } else {
            None
        };
        (Pairs { items }, odd)
    }
}

impl<T: Send + Drop> Parts for Pairs<T> {
    type Item = (T, T);

    type Iter = PairDrain<T>;

    type Segment = PairSegment<T>;

    type Home = Home<T, Global>;

    ghost gives = { λ s xs. xs ≡ pair_items s };

    ghost may = { λ s x. Contains (pair_items s) x };

    ghost count = { λ s. length s.items.items / 2 };

    ghost keeps = { λ home rest. (rest.start ≡ home.start) × (rest.room ≡ home.room)
        × IsExtent T.row home };

    #[tactic(auto, using(crate::proofs::Neighbours::length_pairs))]
    fn len(&self) -> usize {
        self.items.len() / 2
    }

    fn into_items(self) -> PairDrain<T> {
        PairDrain {
            rest: Block::from_vec(self.items),
        }
    }

    fn into_segment(self, _alloc: Global) -> Result<(PairSegment<T>, Home<T, Global>), Fault> {
        let (window, home) = Home::adopt(self.items);
        Ok((PairSegment { window }, home))
    }

    fn put_away(home: Home<T, Global>, rest: Window<T>) {
        home.free(rest);
    }
}

/// Owned items, two neighbours at a time, where they lie. Their slots are left.
#[derive(Drop)]
pub struct PairSegment<T: Drop> {
    /// The items, one in each slot.
    pub window: Window<T>,
}

impl<T: Send + Drop> Segment<(T, T)> for PairSegment<T> {
    type Rest = Window<T>;

    type Items = PairSegment<T>;

    ghost ready = { λ s. IsFull s.window × FitsInBlock T.row s.window.room };

    ghost gives = { λ s xs. xs ≡ pairs_of s.window.items };

    ghost may = { λ s x. Contains (pairs_of s.window.items) x };

    ghost count = { λ s. length s.window.items / 2 };

    ghost leaves = { λ s rest. SamePlaces s.window rest × (rest.items ≡ []) };

    ghost meets = { λ s a b. (a.start ≡ s.window.start) × Follows T.row a b
        × (a.room + b.room ≡ s.window.room) × (a.items ≡ []) × (b.items ≡ [])
        × FitsInBlock T.row s.window.room };

    #[tactic(auto, using(crate::proofs::Neighbours::length_pairs))]
    fn len(&self) -> usize {
        self.window.len() / 2
    }

    fn split_at(self, _alloc: Global, index: usize) -> Result<(Self, Self), (Window<T>, Fault)> {
        let _len = self.window.len();
        let (front, back) = self.window.split(2 * index);
        Ok((PairSegment { window: front }, PairSegment { window: back }))
    }

    fn join(left: Window<T>, right: Window<T>) -> Window<T> {
        left.join(right)
    }

    fn into_items(self) -> PairSegment<T> {
        self
    }
}

impl<T: Drop> Cursor<(T, T), Window<T>> for PairSegment<T> {
    ghost ready = { λ s. Unit {0} };

    ghost gives = { λ s xs. xs ≡ pairs_of s.window.items };

    ghost may = { λ s x. Contains (pairs_of s.window.items) x };

    ghost left = { λ s. length s.window.items };

    ghost leaves = { λ s rest. SamePlaces s.window rest × (rest.items ≡ []) };

    fn next(&mut self) -> Option<(T, T)> {
        if self.window.len() < 2 {
            return None;
        }
        Some(take_pair(&mut self.window))
    }

    fn rest(mut self) -> Window<T> {
        self.window.clear();
        self.window
    }

    fn end(self) -> Window<T> {
        Cursor::rest(self)
    }
}

// Moves the first two items out.
fn take_pair<T>(window: &mut Window<T>) -> (T, T)
    requires { 1 < length window.old.items }
    ensures items { pairs_of window.old.items ≡ result ∷ pairs_of window.new.items }
    ensures fewer { length window.old.items ≡ length window.new.items + 2 }
    ensures place { SamePlaces window.old window.new }
{
    let left = window.take();
    let right = window.take();
    (left, right)
}

/// Gives owned items from the front, two neighbours at a time, each one once.
#[derive(Drop)]
pub struct PairDrain<T> {
    rest: Block<T, Global>,
}

impl<T: Drop> Iterator for PairDrain<T> {
    type Item = (T, T);

    ghost next_gives = { YieldsFirst pair_rest };

    ghost remaining = { item_count pair_rest };

    fn next(&mut self) -> Option<(T, T)> {
        if self.rest.len() < 2 {
            return None;
        }
        let first = self.rest.take();
        let second = self.rest.take();
        Some((first, second))
    }

    #[tactic(auto, using(crate::proofs::Neighbours::length_pairs))]
    fn size_hint(&self) -> (usize, Option<usize>) {
        let left = self.rest.len() / 2;
        (left, Some(left))
    }
}

impl<T: Drop> ExactSizeIterator for PairDrain<T> {
    #[tactic(auto, using(crate::proofs::Neighbours::length_pairs))]
    fn len(&self) -> usize {
        self.rest.len() / 2
    }
}
