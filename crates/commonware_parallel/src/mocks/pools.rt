//! Pools for tests.
ghost use Rattle.std.specs.Prelude.{◌≡◌, IfOk, IfErr, ◌≤◌, false, min, true};
ghost use Rattle.std.specs.Int.NonZero.{non_zero_usize_get};
ghost use Rattle.parallel_pool.specs.declared.rayon.build_error.ThreadPoolBuildError.TheVariants.{Memory};
ghost use Rattle.commonware_parallel.specs.Rayon.{IsMade};

use crate::rayon_strategy::Rayon;
use parallel_policy::Clock;
use parallel_pool::rayon::{MAX_THREADS, ThreadPoolBuildError};
use std::alloc::Global;
use std::num::NonZeroUsize;
use std::thread::Threads;

/// A strategy over a pool of `workers` threads, 65535 at most, planned for `parallelism`, with a
/// policy that knows nothing yet.
///
/// # Errors
///
/// Those of `Rayon::new`.
pub fn pooled<Rt: Threads, C: Clock>(
    rt: &Rt,
    alloc: Global,
    workers: NonZeroUsize,
    parallelism: NonZeroUsize,
    clock: C,
) -> Result<Rayon<C>, ThreadPoolBuildError>
    ensures made { IfOk result (IsMade (non_zero_usize_get parallelism)
        (min (non_zero_usize_get workers) MAX_THREADS) true) }
    ensures refused { IfErr result (λ error. error ≡ Memory) }
{
    let strategy = Rayon::new(rt, alloc, workers, clock)?;
    Ok(strategy.with_parallelism(parallelism))
}

/// As `pooled`, over one thread: batches are still cut as they are planned.
///
/// # Errors
///
/// Those of `Rayon::new`.
pub fn inline<Rt: Threads, C: Clock>(
    rt: &Rt,
    alloc: Global,
    parallelism: NonZeroUsize,
    clock: C,
) -> Result<Rayon<C>, ThreadPoolBuildError>
    ensures made { IfOk result (IsMade (non_zero_usize_get parallelism) 1 true) }
    ensures refused { IfErr result (λ error. error ≡ Memory) }
{
    pooled(rt, alloc, NonZeroUsize::MIN, parallelism, clock)
}

/// A strategy over a pool of `workers` threads, 65535 at most, that are never started, planned for
/// as many: a job that it hands off is dropped, and its result stays pending.
///
/// It takes two workers at least: over one thread a job is run at once.
///
/// # Errors
///
/// Those of `Rayon::new`.
pub fn pending<Rt: Threads, C: Clock>(
    rt: &Rt,
    alloc: Global,
    workers: NonZeroUsize,
    clock: C,
) -> Result<Rayon<C>, ThreadPoolBuildError>
    requires { 2 ≤ non_zero_usize_get workers }
    ensures made { IfOk result (IsMade (min (non_zero_usize_get workers) MAX_THREADS)
        (min (non_zero_usize_get workers) MAX_THREADS) false) }
    ensures refused { IfErr result (λ error. error ≡ Memory) }
{
    let strategy = Rayon::new(rt, alloc, workers, clock)?;
    Ok(strategy.without_workers())
}
