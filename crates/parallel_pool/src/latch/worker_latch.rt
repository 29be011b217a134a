//! A core latch that says which worker to wake.
ghost use Rattle.std.specs.Prelude.{◌≡◌};
ghost use Rattle.std.specs.NonZero.{non_zero_usize_get};
ghost use Rattle.parallel_fault.specs.Trouble.{IsMemoryOnErr};

use crate::latch::core_latch::CoreLatch;
use crate::latch::latch_seat::LatchSeat;
use parallel_fault::Fault;
use std::alloc::Global;
use std::marker::PhantomData;
use std::num::NonZeroUsize;

/// A core latch and the index of the one worker that it wakes: an `OnceLatch` or a `SpinLatch`, by
/// its kind.
///
/// Contracts name the core latch by `core_of` and the index by `target_of`.
#[derive(Drop)]
pub struct WorkerLatch<K> {
    pub(crate) core_latch: CoreLatch,
    pub(crate) target_worker_index: usize,
    kind: PhantomData<K>,
}

impl<K> WorkerLatch<K> {
    ghost use Rattle.std.specs.Prelude.{◌≡◌, All, IfOk, None, Some, vec_len, if◌then◌else◌};
    ghost use Rattle.parallel_pool.specs.LatchMoves.{is_sleeping};
    ghost use Rattle.parallel_pool.specs.LatchHistory.{newcomer, Called, HasSeenSet};
    ghost use Rattle.parallel_pool.specs.Latch.{IsLatchSeatOf, known};
    ghost use Rattle.parallel_pool.specs.WorkerLatch.{core_of, target_of};
    ghost use Rattle.parallel_pool.specs.declared.latch.history.Act.TheVariants.{Set};

    /// A latch that isn't set, for the worker of this index, and its seats, of which each has seen
    /// nothing yet.
    ///
    /// # Errors
    ///
    /// `Fault::Memory` if an allocation fails.
    pub fn new(
        alloc: Global,
        seats: NonZeroUsize,
        target_worker_index: usize,
    ) -> Result<(WorkerLatch<K>, Vec<LatchSeat>), Fault>
        ensures target { IfOk result (λ made. target_of made.0 ≡ target_worker_index) }
        ensures count { IfOk result (λ made. vec_len made.1 ≡ non_zero_usize_get seats) }
        ensures seats { IfOk result (λ made. All (IsLatchSeatOf (core_of made.0)) made.1.items) }
        ensures fresh { IfOk result (λ made. All (λ seat. known seat ≡ newcomer) made.1.items) }
        ensures fault { IsMemoryOnErr result }
    {
        let (core_latch, seats) = CoreLatch::new(alloc, seats)?;
        let latch = WorkerLatch {
            core_latch,
            target_worker_index,
            kind: PhantomData,
        };
        Ok((latch, seats))
    }

    /// The core latch, for whoever waits.
    pub fn as_core_latch(&self) -> &CoreLatch
        ensures { result.now ≡ core_of self.now }
    {
        &self.core_latch
    }

    /// Sets the latch, for good, and returns the index of the worker to wake, which is there
    /// exactly where that worker was asleep.
    pub fn set(&self, seat: &mut LatchSeat) -> Option<usize>
        requires { IsLatchSeatOf (core_of self.now) seat.old }
        ensures call { Called Set (λ phase. result ≡ (if is_sleeping phase
            then Some (target_of self.now) else None)) (known seat.old) (known seat.new) }
        ensures sees { HasSeenSet (known seat.new) }
        ensures again { HasSeenSet (known seat.old) → result ≡ None }
        ensures seat { IsLatchSeatOf (core_of self.now) seat.new }
    {
        if self.core_latch.set(seat) {
            Some(self.target_worker_index)
        } else {
            None
        }
    }
}
