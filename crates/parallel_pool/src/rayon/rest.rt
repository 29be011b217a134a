//! What a worker rests by: its parker, and the latch that ends it.
ghost use Rattle.std.specs.Arc.{arc_value};
ghost use Rattle.parallel_pool.specs.Latch.{IsLatchSeatOf};
ghost use Rattle.parallel_pool.specs.WorkerLatch.{core_of};
ghost use Rattle.parallel_fault.specs.Trouble.{IsMemoryOnErr};

use crate::latch::latch_seat::LatchSeat;
use crate::latch::once_latch::OnceLatch;
use crate::sleep::{IdleState, Sleep};
use crossbeam_utils::sync::Parker;
use parallel_fault::Fault;
use std::alloc::Global;
use std::num::NonZeroUsize;
use std::sync::{Arc, Wait};

/// One worker's parker, and its seat of the latch that is set when its pool has come to its end.
#[derive(Drop)]
pub(crate) struct Rest {
    parker: Parker,
    terminate: Arc<OnceLatch, Global>,
    seat: LatchSeat,
    ghost seated: { IsLatchSeatOf (core_of (arc_value terminate)) seat },
}

impl Rest {
    /// What the worker of this index rests by, on this parker, with a latch that isn't set.
    ///
    /// # Errors
    ///
    /// `Fault::Memory` if an allocation fails.
    pub(crate) fn new(alloc: Global, index: usize, parker: Parker) -> Result<Rest, Fault>
        ensures fault { IsMemoryOnErr result }
    {
        let (latch, mut seats) = OnceLatch::new(alloc, NonZeroUsize::MIN, index)?;
        let Some(seat) = seats.pop() else {
            return Err(Fault::Memory);
        };
        let terminate = Arc::new(alloc, latch)?;
        Ok(Rest {
            parker,
            terminate,
            seat,
        })
    }

    /// The latch, for whoever sets it.
    ///
    /// # Errors
    ///
    /// `Fault::Memory` if an allocation fails.
    pub(crate) fn latch(&self) -> Result<Arc<OnceLatch, Global>, Fault>
        ensures fault { IsMemoryOnErr result }
    {
        Ok(Arc::try_clone(&self.terminate)?)
    }

    /// Whether the pool has come to its end.
    pub(crate) fn is_over(&mut self) -> bool {
        self.terminate.as_core_latch().probe(&mut self.seat)
    }

    /// One round of an idle worker.
    pub(crate) fn idle<R: Wait, F: FnOnce() -> bool>(
        &mut self,
        rt: &R,
        sleep: &Sleep,
        idle: &mut IdleState,
        has_jobs: F,
    )
        requires { F.IsAlwaysCallable has_jobs }
    {
        let latch = self.terminate.as_core_latch();
        sleep.no_work_found(rt, idle, &self.parker, latch, &mut self.seat, has_jobs);
    }
}
