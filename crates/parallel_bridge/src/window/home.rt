//! The block that a window is over: reserved, adopted from a vector, and handed over or freed.
ghost use Rattle.std.specs.Prelude.{◌≡◌, ◌≤◌, ◌<◌, ◌^◌, [], IfOk, length};
ghost use Rattle.parallel_bridge.specs.Windows.{IsExtent, part};

use crate::window::cells::{Base, Cells, Deed};
use crate::window::part::Window;
use crate::window::vector::{close, open};
use std::alloc::{AllocError, Allocator};
use std::marker::Model;

/// The block that a window is over, with the right to free it. It can't be dropped: a window over
/// all its slots is handed over with it as a vector, or freed with it.
pub struct Home<T, A: Allocator> {
    base: Base<T>,
    room: usize,
    capacity: usize,
    end: Base<T>,
    tail: Cells<T>,
    deed: Deed<T, A>,
    vec: Vec<T, A>,
}

impl<T, A: Allocator> Model for Home<T, A> {
    ghost use Rattle.std.specs.Prelude.{◌≡◌, ◌<◌, ◌^◌};
    ghost use Rattle.parallel_bridge.specs.Windows.{IsTail, Extent, extent_code};

    ghost Value = { Extent };

    ghost coded = { extent_code };

    ghost view = { λ h. record {
      start = h.base.ptr;
      room = h.room;
      capacity = h.capacity;
      end = h.end.ptr;
    } };

    ghost invariant = { λ h. IsTail h.tail.at h.end.ptr h.tail.slots h.capacity h.room
        × (h.deed.at ≡ h.base.ptr) × (h.deed.len ≡ h.capacity) × (h.deed.alloc ≡ h.vec.alloc)
        × (h.vec.cap ≡ 0) × (h.capacity < 2 ^ 63) };
}

impl<T, A: Allocator> Home<T, A> {
    /// Reserves a block for `room` items, of which the window has none yet.
    ///
    /// # Errors
    ///
    /// `AllocError` where it can't be allocated.
    pub fn reserve(alloc: A, room: usize) -> Result<(Window<T>, Self), AllocError>
        ensures window { IfOk result (λ r. (r.0 ≡ part r.1.start room 0 []) × (r.1.room ≡ room)) }
        ensures extent { IfOk result (λ r. IsExtent T.row r.1) }
    {
        // glibc gives free memory at the end of its heap back once that is twice the greatest block
        // that was freed. A list that was gathered and its results, as long, would be just as much,
        // and each call would get all their pages anew; an eighth more keeps them.
        let vec = Vec::with_capacity(alloc, room.saturating_add(room / 8))?;
        Ok(Home::over(vec, room))
    }

    /// Reserves a block for `room` items and none to spare, of which the window has none yet.
    ///
    /// # Errors
    ///
    /// `AllocError` where it can't be allocated.
    pub(crate) fn reserve_exact(alloc: A, room: usize) -> Result<(Window<T>, Self), AllocError>
        ensures window { IfOk result (λ r. (r.0 ≡ part r.1.start room 0 []) × (r.1.room ≡ room)) }
        ensures extent { IfOk result (λ r. IsExtent T.row r.1) }
    {
        let vec = Vec::with_capacity(alloc, room)?;
        Ok(Home::over(vec, room))
    }

    /// A window over a vector's own items, where they lie.
    pub fn adopt(vec: Vec<T, A>) -> (Window<T>, Self)
        ensures window { (result.0 ≡ part result.1.start (length vec.items) 0 vec.items)
            × (result.1.room ≡ length vec.items) }
        ensures extent { IsExtent T.row result.1 }
    {
        let room = vec.len();
        Home::over(vec, room)
    }

    // A window over the first slots of a vector's block.
    fn over(mut vec: Vec<T, A>, room: usize) -> (Window<T>, Self)
        requires fits { (length vec.items ≤ room) × (room ≤ vec.cap) }
        ensures window { (result.0 ≡ part result.1.start room 0 vec.items)
            × (result.1.room ≡ room) }
        ensures extent { IsExtent T.row result.1 }
    {
        let len = vec.len();
        let capacity = vec.capacity();
        let (base, all, deed) = open(&mut vec);
        let (cells, end, tail) = all.split(base, room);
        let window = Window {
            base,
            room,
            before: 0,
            len,
            cells,
        };
        let home = Home {
            base,
            room,
            capacity,
            end,
            tail,
            deed,
            vec,
        };
        (window, home)
    }
}

impl<T> Window<T> {
    /// The items as a vector, which has the window's block. Nothing is copied.
    pub fn into_vec<A: Allocator>(self, home: Home<T, A>) -> Vec<T, A>
        requires whole { (self.start ≡ home.start) × (self.room ≡ home.room) × IsExtent T.row home }
        requires first { self.before ≡ 0 }
        ensures { result.items ≡ self.items }
    {
        let (_, _, _, len, cells) = self.into_parts();
        let Home {
            base,
            room: _,
            capacity,
            end: _,
            tail,
            deed,
            mut vec,
        } = home;
        let all = cells.join(tail);
        close(&mut vec, base, len, capacity, all, deed);
        vec
    }
}

impl<T: Drop, A: Allocator> Home<T, A> {
    /// Drops what is left in the window, and frees its block.
    pub fn free(self, mut window: Window<T>)
        requires { (window.start ≡ self.start) × (window.room ≡ self.room) × IsExtent T.row self }
    {
        window.clear();
        drop(window.into_vec(self));
    }
}
