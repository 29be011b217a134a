//! A whole block with its items, which may be dropped anywhere.
ghost use Rattle.std.specs.Prelude.{◌≡◌, ◌+◌, ◌<◌, ◌≤◌, ◌++◌, ◌∷◌, [], IfOk, drop, length, take};
ghost use Rattle.parallel_bridge.specs.Windows.{part};

use crate::window::cells::Deed;
use crate::window::part::Window;
use crate::window::vector::{close, open};
use std::alloc::{AllocError, Allocator};
use std::marker::Model;

/// A window over all slots of a block, with the right to free it. A block that is dropped drops its
/// items and is freed. A clause sees it as it sees its window.
pub struct Block<T, A: Allocator> {
    window: Window<T>,
    deed: Deed<T, A>,
    vec: Vec<T, A>,
}

impl<T, A: Allocator> Model for Block<T, A> {
    ghost use Rattle.std.specs.Prelude.{◌≡◌, ◌<◌, ◌^◌};
    ghost use Rattle.parallel_bridge.specs.Windows.{View, view_code};

    ghost Value = { View T };

    ghost coded = { view_code T.code };

    ghost view = { λ b. b.window };

    ghost invariant = { λ b. (b.deed.at ≡ b.window.start) × (b.deed.len ≡ b.window.room)
        × (b.deed.alloc ≡ b.vec.alloc)
        × (b.vec.cap ≡ 0) × (b.window.room < 2 ^ 63) };
}

impl<T, A: Allocator> Block<T, A> {
    /// A vector's own block, with its items where they lie and its spare slots after them.
    /// Nothing is copied.
    pub fn from_vec(mut vec: Vec<T, A>) -> Self
        ensures { result ≡ part result.start vec.cap 0 vec.items }
    {
        let len = vec.len();
        let room = vec.capacity();
        let (base, cells, deed) = open(&mut vec);
        let window = Window {
            base,
            room,
            before: 0,
            len,
            cells,
        };
        Block { window, deed, vec }
    }

    /// The items as a vector, which has the block. Nothing is copied.
    pub fn into_vec(self) -> Vec<T, A>
        requires { self.before ≡ 0 }
        ensures { result.items ≡ self.items }
    {
        let Block { window, deed, vec } = self;
        let mut vec = vec;
        let (base, room, _, len, cells) = window.into_parts();
        close(&mut vec, base, len, room, cells, deed);
        vec
    }

    /// The number of items.
    pub fn len(&self) -> usize
        ensures { result ≡ length self.now.items }
    {
        self.window.len()
    }

    /// Writes an item after the others, where there is room for it. It takes no memory.
    pub fn put(&mut self, item: T)
        requires { self.old.before + length self.old.items < self.old.room }
        ensures { self.new ≡ part self.old.start self.old.room self.old.before
            (self.old.items ++ item ∷ []) }
    {
        self.window.put(item);
    }

    /// Moves the first item out.
    pub fn take(&mut self) -> T
        requires { 0 < length self.old.items }
        ensures items { self.old.items ≡ result ∷ self.new.items }
        ensures place { (self.new.start ≡ self.old.start) × (self.new.room ≡ self.old.room)
            × (self.new.before ≡ self.old.before + 1) }
    {
        self.window.take()
    }

    /// Moves the last item out.
    pub fn take_back(&mut self) -> T
        requires { 0 < length self.old.items }
        ensures items { self.old.items ≡ self.new.items ++ result ∷ [] }
        ensures place { (self.new.start ≡ self.old.start) × (self.new.room ≡ self.old.room)
            × (self.new.before ≡ self.old.before) }
    {
        self.window.take_back()
    }
}

impl<T: Drop, A: Allocator> Block<T, A> {
    /// The block with one item more, after the others. Where it has no room left, its items move
    /// into a bigger one.
    ///
    /// # Errors
    ///
    /// `AllocError` where a bigger block can't be allocated; the items are then gone.
    pub fn push(mut self, item: T) -> Result<Self, AllocError>
        requires { self.before ≡ 0 }
        ensures { IfOk result (λ b. (b.items ≡ self.items ++ item ∷ []) × (b.before ≡ 0)) }
    {
        if self.window.len() == self.window.room() {
            let mut vec = self.into_vec();
            vec.push(item)?;
            return Ok(Block::from_vec(vec));
        }
        self.put(item);
        Ok(self)
    }

    /// The first `index` items where they lie, and the rest moved into a block of their own.
    ///
    /// # Errors
    ///
    /// `AllocError` where the second block can't be allocated; the items are then gone.
    pub fn split_off(self, index: usize) -> Result<(Self, Self), AllocError>
    where
        A: Clone,
        requires { (self.before ≡ 0) × (index ≤ length self.items) }
        ensures front { IfOk result (λ p. (p.0.items ≡ take index self.items) × (p.0.before ≡ 0)) }
        ensures back { IfOk result (λ p. (p.1.items ≡ drop index self.items) × (p.1.before ≡ 0)) }
    {
        let mut front = self.into_vec();
        let back = front.split_off(index)?;
        Ok((Block::from_vec(front), Block::from_vec(back)))
    }
}

impl<T: Drop, A: Allocator> Drop for Block<T, A> {
    fn drop(mut self) {
        self.window.clear();
        drop(self.into_vec());
    }
}
