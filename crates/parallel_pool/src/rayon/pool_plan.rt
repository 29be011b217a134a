//! What a pool is built by, but for the closures.
ghost use Rattle.std.specs.Prelude.{◌≡◌, ◌≤◌};
ghost use Rattle.std.specs.NonZero.{non_zero_usize_get};
ghost use Rattle.parallel_pool.specs.PlannedThreads.{IsPlanned};

use crate::rayon::environment::{Environment, planned_threads};
use crate::rayon::thread_pool::MAX_THREADS;
use std::num::NonZeroUsize;

/// What a pool is built by, but for the closures: contracts see a builder as this.
#[derive(Debug, Default, Drop)]
pub struct PoolPlan {
    /// The number of threads that is set, where it is above 0.
    pub num_threads: usize,
    /// Whether the thread that builds the pool is its worker 0.
    pub use_current_thread: bool,
    /// The size of each started worker's stack in bytes, where it is set.
    pub stack_size: Option<usize>,
    /// Where a number of threads is found that isn't set.
    pub environment: Environment,
    /// The pool's label.
    pub label: u64,
    /// Whether no worker is started.
    pub unstarted_workers: bool,
}

impl PoolPlan {
    /// For how many threads the pool is planned.
    pub fn planned_threads(&self) -> NonZeroUsize
        ensures planned { IsPlanned self.now (non_zero_usize_get result) }
        ensures at_most { non_zero_usize_get result ≤ MAX_THREADS }
    {
        let planned = planned_threads(
            self.num_threads,
            self.environment.num_threads.as_deref(),
            self.environment.num_cpus.as_deref(),
            self.environment.machine,
        );
        NonZeroUsize::new(planned).unwrap_or(NonZeroUsize::MIN)
    }
}
