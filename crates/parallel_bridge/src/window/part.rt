//! A window over reserved memory, seen as the list of its items.
ghost use Rattle.std.specs.Prelude.{◌≡◌, ◌+◌, ◌-◌, ◌<◌, ◌≤◌, ◌++◌, ◌∷◌, [], drop, length, take};
ghost use Rattle.std.specs.Vec.Ownership.{FitsInBlock};
ghost use Rattle.parallel_bridge.specs.Places.{shifted, values};
ghost use Rattle.parallel_bridge.specs.Windows.{Adjoins, Follows, IsRow, part};

use crate::window::cells::{Base, Cells};
use std::marker::Model;

/// Slots side by side, of which a run has items and the others are empty. Whoever has the window
/// has its slots, and nobody else does. A window that is dropped drops its items; its slots are
/// given back through its [`Home`](crate::window::home::Home) alone.
pub struct Window<T> {
    pub(crate) base: Base<T>,
    pub(crate) room: usize,
    pub(crate) before: usize,
    pub(crate) len: usize,
    pub(crate) cells: Cells<T>,
}

impl<T> Model for Window<T> {
    ghost use Rattle.parallel_bridge.specs.Windows.{IsRow, View, part, view_code};
    ghost use Rattle.parallel_bridge.specs.Places.{values};

    ghost Value = { View T };

    ghost coded = { view_code T.code };

    ghost view = { λ w. part w.base.ptr w.room w.before (values w.cells.slots) };

    ghost invariant = { λ w. IsRow w.cells.at w.base.ptr w.cells.slots w.room w.before w.len };
}

impl<T> Window<T> {
    /// The number of items.
    pub fn len(&self) -> usize
        ensures { result ≡ length self.now.items }
    {
        self.len
    }

    /// The number of slots.
    pub fn room(&self) -> usize
        ensures { result ≡ self.now.room }
    {
        self.room
    }

    /// Writes an item after the others, where there is room for it. It takes no memory.
    pub fn put(&mut self, item: T)
        requires { self.old.before + length self.old.items < self.old.room }
        ensures { self.new ≡ part self.old.start self.old.room self.old.before
            (self.old.items ++ item ∷ []) }
    {
        let index = self.before + self.len;
        self.cells.write(self.base, index, item);
        self.len += 1;
    }

    /// Moves the first item out.
    pub fn take(&mut self) -> T
        requires { 0 < length self.old.items }
        ensures items { self.old.items ≡ result ∷ self.new.items }
        ensures place { (self.new.start ≡ self.old.start) × (self.new.room ≡ self.old.room)
            × (self.new.before ≡ self.old.before + 1) }
    {
        let index = self.before;
        let item = self.cells.read(self.base, index);
        self.before += 1;
        self.len -= 1;
        item
    }

    /// Moves the last item out.
    pub fn take_back(&mut self) -> T
        requires { 0 < length self.old.items }
        ensures items { self.old.items ≡ self.new.items ++ result ∷ [] }
        ensures place { (self.new.start ≡ self.old.start) × (self.new.room ≡ self.old.room)
            × (self.new.before ≡ self.old.before) }
    {
        let index = self.before + self.len - 1;
        let item = self.cells.read(self.base, index);
        self.len -= 1;
        item
    }

    /// A window over the first `index` slots, and one over the rest.
    pub fn split(self, index: usize) -> (Self, Self)
        requires { (self.before ≡ 0) × (index ≤ self.room) }
        ensures left { result.0 ≡ part self.start index 0 (take index self.items) }
        ensures right { result.1 ≡ part (shifted T.row self.start index) (self.room - index) 0
            (drop index self.items) }
    {
        let Window {
            base,
            room,
            before: _,
            len,
            cells,
        } = self;
        let filled = if len < index { len } else { index };
        let (front, middle, back) = cells.split(base, index);
        let left = Window {
            base,
            room: index,
            before: 0,
            len: filled,
            cells: front,
        };
        let right = Window {
            base: middle,
            room: room - index,
            before: 0,
            len: len - filled,
            cells: back,
        };
        (left, right)
    }

    // Where the slots begin, how many they are, how many are in front of the items, the number of
    // items, and the slots.
    pub(crate) fn into_parts(self) -> (Base<T>, usize, usize, usize, Cells<T>)
        ensures view { self ≡ part result.0.ptr result.1 result.2 (values result.4.slots) }
        ensures row { IsRow result.4.at result.0.ptr result.4.slots result.1 result.2 result.3 }
    {
        let Window {
            base,
            room,
            before,
            len,
            cells,
        } = self;
        (base, room, before, len, cells)
    }

    /// One window over the slots of two neighbours, the left one first.
    pub fn join(self, right: Self) -> Self
        requires follows { Follows T.row self right }
        requires fits { FitsInBlock T.row (self.room + right.room) }
        requires adjoins { Adjoins self right }
        ensures { result ≡ part self.start (self.room + right.room) self.before
            (self.items ++ right.items) }
    {
        let Window {
            base,
            room,
            before,
            len,
            cells,
        } = self;
        let (_, more_room, _, more, more_cells) = right.into_parts();
        Window {
            base,
            room: room + more_room,
            before,
            len: len + more,
            cells: cells.join(more_cells),
        }
    }
}

impl<T: Drop> Window<T> {
    /// Drops the items, each one once, and keeps the slots.
    pub fn clear(&mut self)
        ensures { self.new ≡ part self.old.start self.old.room 0 [] }
    {
        for _item in 0..self.len {
            drop(self.take());
        }
        self.before = 0;
    }
}

impl<T: Drop> Drop for Window<T> {
    fn drop(mut self) {
        self.clear();
        let _parts = self.into_parts();
    }
}
