//! The first of each run of items that are the same.
ghost use Rattle.std.specs.Prelude.{◌≡◌, ◌<◌, Bool, IfOk, length, map};
ghost use Rattle.std.specs.Cmp.{IsPartialEquivalence};
ghost use Rattle.std.specs.Fn.{FnReturnsAtPair};
ghost use Rattle.std.specs.List.{dedup};
ghost use Rattle.commonware_parallel.specs.Words.{IsMemoryOnErr};
ghost use Rattle.parallel_calls.specs.Functions.{GoesByPair};
ghost use Rattle.parallel_calls.specs.Neighbours.{AcceptsNext};
ghost use Rattle.parallel_calls.specs.Runs.{DedupOf, KeptAt, RepeatsAt, dedup_of};

use crate::on::On;
use crate::order::at_next;
use commonware_parallel::{Fault, Indices, Place, Strategy};
use std::sync::Wait;
use std::thread::Threads;

impl<'s, Rt: Threads + Wait + Sync, S: Strategy, P: Place> On<'s, Rt, S, P> {
    /// The first item of each run, in order: an item stays where it is the first one, or where the
    /// closure answers false of the one before it and of itself (`DedupOf`). For an equivalence
    /// those are the items that `Vec::dedup_by` leaves, which asks of the last item that stayed.
    ///
    /// # Errors
    ///
    /// `Fault::Memory` if an allocation fails.
    pub fn dedup_by<'a, T: Sync, F: Fn(&T, &T) -> bool + Send + Sync + Drop>(
        &self,
        items: &'a [T],
        same: F,
    ) -> Result<Vec<&'a T>, Fault>
        requires accepts { AcceptsNext (F.pre same) items.now }
        ensures kept { IfOk result (λ kept. DedupOf (λ x y b. FnReturnsAtPair F.Fn same x y b)
            items.now (map (λ item. item.now) kept.items)) }
        ensures plain { (f : T → T → Bool) → GoesByPair (λ x y b. FnReturnsAtPair F.Fn same x y b) f
            → IfOk result (λ kept. map (λ item. item.now) kept.items ≡ dedup_of f items.now) }
        ensures deduped { (f : T → T → Bool)
            → GoesByPair (λ x y b. FnReturnsAtPair F.Fn same x y b) f → IsPartialEquivalence f
            → IfOk result (λ kept. map (λ item. item.now) kept.items ≡ dedup f items.now) }
        ensures fault { IsMemoryOnErr result }
    {
        let keep = |place: usize| -> Option<&T>
            requires accepts { AcceptsNext (F.pre same) items.now }
            requires inside { place < length items.now }
            ensures { KeptAt (λ x y b. FnReturnsAtPair F.Fn same x y b) items.entry.now place
                result }
        {
            if repeats(&same, items, place) {
                None
            } else {
                Some(&items[place])
            }
        };
        let places = Indices {
            start: 0,
            end: items.len(),
        };
        self.filter_map(places, keep)
    }
}

// Whether the item at a place is the same as the one before it.
fn repeats<T, F: Fn(&T, &T) -> bool>(same: &F, items: &[T], place: usize) -> bool
    requires accepts { AcceptsNext (F.pre same.now) items.now }
    requires inside { place < length items.now }
    ensures { RepeatsAt (λ x y b. FnReturnsAtPair F.Fn same.now x y b) items.now place result }
{
    let has_one_before = place > 0;
    has_one_before && at_next(same, items, place - 1)
}
