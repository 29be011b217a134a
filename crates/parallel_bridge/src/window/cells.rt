//! Slots side by side in memory, each empty or with a value.
ghost use Rattle.std.specs.Prelude.{◌≡◌, ◌<◌, ◌≤◌, ◌+◌, ◌++◌, ℕ, List, Option, Some, None, ⊤, drop, get_or, length, slice_set, take};
ghost use Rattle.std.specs.Vec.Ownership.{FitsInBlock};
ghost use base.Fml.{ftrue};
ghost use denote.RawPtr.{Ptr};
ghost use Rattle.parallel_bridge.specs.Places.{IsFilled, cells_own, deed_owns, shifted};

use std::alloc::{AllocError, Allocator};
use std::marker::{Model, PhantomData, Send};

/// Where slots begin. It owns nothing.
pub struct Base<T> {
    pub(crate) ptr: *mut T,
}

impl<T> Clone for Base<T> {
    ghost is_clone = { λ x y. y ≡ x };

    ghost is_infallible = { λ _. ⊤ };

    fn clone(&self) -> Result<Base<T>, AllocError> {
        Ok(*self)
    }
}

impl<T> Copy for Base<T> {}

unsafe impl<T> Send for Base<T> {}

/// The owner of slots, which says what each of them holds. It takes no space. Dropped, it forgets
/// what they hold.
#[derive(Drop)]
pub struct Cells<T> {
    pub(crate) mark: PhantomData<*const T>,
    ghost at: { Ptr },
    ghost slots: { List (Option T) },
}

impl<T> Model for Cells<T> {
    ghost also_owns = { λ c. cells_own T.row c.at c.slots };

    ghost also_shares = { λ _ _ _. ftrue };
}

unsafe impl<T: Send> Send for Cells<T> {}

/// The right to give a block of `len` slots at `at` back to its allocator. It takes no space.
pub struct Deed<T, A: Allocator> {
    pub(crate) mark: PhantomData<*const (T, A)>,
    ghost at: { Ptr },
    ghost len: { ℕ },
    ghost alloc: { A },
}

impl<T, A: Allocator> Model for Deed<T, A> {
    ghost also_owns = { λ d. deed_owns T.row (A.dealloc_token d.alloc) d.at d.len };

    ghost also_shares = { λ _ _ _. ftrue };
}

unsafe impl<T, A: Allocator + Send> Send for Deed<T, A> {}

impl<T> Cells<T> {
    /// Puts an item into an empty slot.
    pub(crate) fn write(&mut self, base: Base<T>, index: usize, item: T)
        requires { (base.ptr ≡ self.old.at) × (index < length self.old.slots)
            × (get_or self.old.slots index None ≡ None) }
        ensures { (self.new.at ≡ self.old.at)
            × (self.new.slots ≡ slice_set self.old.slots index (Some item)) }
    {
        unsafe { base.ptr.add(index).write(item) }
    }

    /// Moves the item of a slot out, which is empty then.
    pub(crate) fn read(&mut self, base: Base<T>, index: usize) -> T
        requires { (base.ptr ≡ self.old.at) × IsFilled self.old.slots index }
        ensures value { get_or self.old.slots index None ≡ Some result }
        ensures slots { (self.new.at ≡ self.old.at)
            × (self.new.slots ≡ slice_set self.old.slots index None) }
    {
        unsafe { base.ptr.add(index).read() }
    }

    /// The first `index` slots, and the rest with where they begin.
    pub(crate) fn split(self, base: Base<T>, index: usize) -> (Cells<T>, Base<T>, Cells<T>)
        requires { (base.ptr ≡ self.at) × (index ≤ length self.slots) }
        ensures { (result.0.at ≡ self.at) × (result.0.slots ≡ take index self.slots)
            × (result.1.ptr ≡ shifted T.row self.at index) × (result.2.at ≡ result.1.ptr)
            × (result.2.slots ≡ drop index self.slots) }
    {
        let Cells { mark: _ } = self;
        let rest = Base {
            ptr: unsafe { base.ptr.add(index) },
        };
        let front = Cells { mark: PhantomData };
        let back = Cells { mark: PhantomData };
        (front, rest, back)
    }

    /// These and the neighbours to their right, as one.
    pub(crate) fn join(self, right: Cells<T>) -> Cells<T>
        requires { (right.at ≡ shifted T.row self.at (length self.slots))
            × FitsInBlock T.row (length self.slots + length right.slots) }
        ensures { (result.at ≡ self.at) × (result.slots ≡ self.slots ++ right.slots) }
    {
        let Cells { mark: _ } = self;
        let Cells { mark: _ } = right;
        Cells { mark: PhantomData }
    }
}
