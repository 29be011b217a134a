//! A pool of the machine's own size.
ghost use Rattle.std.specs.Prelude.{◌≤◌, ◌<◌, IfOk, true};

use crate::rayon_strategy::Rayon;
use parallel_policy::MonotonicClock;
use parallel_pool::rayon::MAX_THREADS;
use std::alloc::Global;
use std::fmt::Debug;
use std::io::ErrorKind;
use std::num::NonZeroUsize;
use std::thread::{Threads, available_parallelism};
use std::{io, time};

impl<Rt: Threads + time::Clock + Clone + Send + Sync + Debug + Drop + 'static> Rayon<
    MonotonicClock<Rt>,
> {
    ghost use Rattle.commonware_parallel.specs.Rayon.{IsMade};

    /// A strategy over a pool of as many threads as the system says may run at once for this
    /// process, with the runtime's clock and a policy that knows nothing yet. Where the system
    /// doesn't say, `otherwise` is the number.
    ///
    /// # Errors
    ///
    /// The runtime's error where its clock can't be read; `ErrorKind::OutOfMemory` where memory of
    /// the pool or the policy was refused.
    pub fn of_machine(
        rt: &Rt,
        alloc: Global,
        otherwise: NonZeroUsize,
    ) -> io::Result<Rayon<MonotonicClock<Rt>>>
        ensures made { IfOk result (λ strategy.
            IsMade strategy.threads strategy.threads true strategy) }
        ensures threads { IfOk result (λ strategy. (0 < strategy.threads)
            × (strategy.threads ≤ MAX_THREADS)) }
    {
        let threads = available_parallelism(rt).unwrap_or(otherwise);
        let clock = MonotonicClock::new(rt.clone()?)?;
        match Rayon::new(rt, alloc, threads, clock) {
            Ok(strategy) => Ok(strategy),
            Err(_) => Err(io::Error::from(ErrorKind::OutOfMemory)),
        }
    }
}
