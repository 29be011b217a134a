//! A vector's own block, taken out as slots and put back.
ghost use Rattle.std.specs.Prelude.{◌≡◌, ◌-◌, ◌^◌, ◌<◌, ◌++◌, [], None, Some, length, map, replicate};
ghost use Rattle.parallel_bridge.specs.Places.{values};

use crate::window::cells::{Base, Cells, Deed};
use std::alloc::Allocator;
use std::marker::PhantomData;

// The first three words of a vector.
struct Words<T> {
    ptr: *const T,
    len: usize,
    cap: usize,
}

/// Takes a vector's block out, and leaves the vector without one.
pub(crate) fn open<T, A: Allocator>(vec: &mut Vec<T, A>) -> (Base<T>, Cells<T>, Deed<T, A>)
    ensures row { (result.0.ptr ≡ vec.old.ptr) × (result.1.at ≡ vec.old.ptr)
        × (result.1.slots ≡ map Some vec.old.items ++ replicate
        (vec.old.cap - length vec.old.items) None) }
    ensures deed { (result.2.at ≡ vec.old.ptr) × (result.2.len ≡ vec.old.cap)
        × (result.2.alloc ≡ vec.old.alloc) }
    ensures left { (vec.new.items ≡ []) × (vec.new.cap ≡ 0) × (vec.new.alloc ≡ vec.old.alloc) }
{
    let words = vec as *mut Vec<T, A> as *mut Words<T>;
    unsafe {
        let base = Base {
            ptr: (*words).ptr as *mut T,
        };
        (*words).len = 0;
        (*words).cap = 0;
        (
            base,
            Cells { mark: PhantomData },
            Deed { mark: PhantomData },
        )
    }
}

/// Gives a vector without a block the slots as its block, with the first `len` as its items.
pub(crate) fn close<T, A: Allocator>(
    vec: &mut Vec<T, A>,
    base: Base<T>,
    len: usize,
    capacity: usize,
    cells: Cells<T>,
    deed: Deed<T, A>,
)
    requires vec { (vec.old.cap ≡ 0) × (capacity < 2 ^ 63) }
    requires cells { (cells.at ≡ base.ptr) × (length cells.slots ≡ capacity)
        × (length (values cells.slots) ≡ len)
        × (cells.slots ≡ map Some (values cells.slots) ++ replicate (capacity - len) None) }
    requires deed { (deed.at ≡ base.ptr) × (deed.len ≡ capacity) × (deed.alloc ≡ vec.old.alloc) }
    ensures { (vec.new.items ≡ values cells.slots) × (vec.new.alloc ≡ vec.old.alloc) }
{
    let Cells { mark: _ } = cells;
    let Deed { mark: _ } = deed;
    let words = vec as *mut Vec<T, A> as *mut Words<T>;
    unsafe {
        (*words).ptr = base.ptr as *const T;
        (*words).len = len;
        (*words).cap = capacity;
    }
}
