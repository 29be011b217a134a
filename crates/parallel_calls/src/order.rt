//! Whether a slice is sorted.
ghost use Rattle.std.specs.Prelude.{◌≡◌, ◌+◌, ◌<◌, Bool, true, IfOk, length};
ghost use Rattle.std.specs.Fn.{FnReturnsAtPair};
ghost use Rattle.std.specs.List.{IsAllAdjacentAnswer};
ghost use Rattle.commonware_parallel.specs.Words.{IsMemoryOnErr};
ghost use Rattle.parallel_calls.specs.Functions.{GoesByPair};
ghost use Rattle.parallel_calls.specs.Neighbours.{AcceptsNext, HoldsAtNext};
ghost use Rattle.parallel_calls.specs.Verdicts.{StopsUnless};

use crate::on::On;
use commonware_parallel::{Fault, Indices, Place, Strategy};
use std::sync::Wait;
use std::thread::Threads;

impl<'s, Rt: Threads + Wait + Sync, S: Strategy, P: Place> On<'s, Rt, S, P> {
    /// Whether the closure answers true at each item and the next one, as `slice::is_sorted_by`
    /// asks. Once one pair fails, the closure is called no more than the fallible map calls its
    /// closure after an error.
    ///
    /// # Errors
    ///
    /// `Fault::Memory` if an allocation fails.
    pub fn is_sorted_by<T: Sync, C: Fn(&T, &T) -> bool + Send + Sync + Drop>(
        &self,
        items: &[T],
        compare: C,
    ) -> Result<bool, Fault>
        requires accepts { AcceptsNext (C.pre compare) items.now }
        ensures sorted { IfOk result
            (IsAllAdjacentAnswer (λ x y b. FnReturnsAtPair C.Fn compare x y b) items.now) }
        ensures plain { (fits : T → T → Bool)
            → GoesByPair (λ x y b. FnReturnsAtPair C.Fn compare x y b) fits
            → IfOk result (IsAllAdjacentAnswer (λ x y b. b ≡ fits x y) items.now) }
        ensures fault { IsMemoryOnErr result }
    {
        let step = |place: usize| -> Result<(), ()>
            requires accepts { AcceptsNext (C.pre compare) items.now }
            requires inside { place + 1 < length items.now }
            ensures { StopsUnless true (HoldsAtNext
                (λ x y b. FnReturnsAtPair C.Fn compare x y b) items.entry.now) place result }
        {
            if at_next(&compare, items, place) {
                Ok(())
            } else {
                Err(())
            }
        };
        let pairs = Indices {
            start: 0,
            end: items.len().saturating_sub(1),
        };
        let stop = self.first_stop(pairs, step)?;
        Ok(stop.is_none())
    }
}

// What the closure answers at an item and the next one.
pub(crate) fn at_next<T, C: Fn(&T, &T) -> bool>(compare: &C, items: &[T], place: usize) -> bool
    requires accepts { AcceptsNext (C.pre compare.now) items.now }
    requires inside { place + 1 < length items.now }
    ensures { HoldsAtNext (λ x y b. FnReturnsAtPair C.Fn compare.now x y b) items.now place result }
{
    compare(&items[place], &items[place + 1])
}
