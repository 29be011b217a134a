//! A core latch whose worker looks for other work while it waits.
ghost use Rattle.std.specs.Prelude.{◌≡◌, ◌↔◌, IsTrue};
ghost use Rattle.parallel_pool.specs.LatchMoves.{is_latched};
ghost use Rattle.parallel_pool.specs.LatchHistory.{Called, HasSeenSet};
ghost use Rattle.parallel_pool.specs.Latch.{IsLatchSeatOf, known};
ghost use Rattle.parallel_pool.specs.WorkerLatch.{core_of};
ghost use Rattle.parallel_pool.specs.declared.latch.history.Act.TheVariants.{Probe};

use crate::latch::latch_seat::LatchSeat;
use crate::latch::worker_latch::WorkerLatch;

/// The kind of a latch that its worker probes.
#[derive(Drop)]
pub struct Spin;

/// A core latch and the index of the worker that waits for it, which looks for other work
/// meanwhile.
pub type SpinLatch = WorkerLatch<Spin>;

impl WorkerLatch<Spin> {
    /// Says whether the latch is set.
    pub fn probe(&self, seat: &mut LatchSeat) -> bool
        requires { IsLatchSeatOf (core_of self.now) seat.old }
        ensures call { Called Probe (λ phase. result ≡ is_latched phase) (known seat.old)
            (known seat.new) }
        ensures sees { IsTrue result ↔ HasSeenSet (known seat.new) }
        ensures stays { HasSeenSet (known seat.old) → IsTrue result }
        ensures seat { IsLatchSeatOf (core_of self.now) seat.new }
    {
        self.core_latch.probe(seat)
    }
}
