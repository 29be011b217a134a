//! The search through the rules.
ghost use Rattle.std.specs.Prelude.{◌≡◌, IfOk, IfErr};
ghost use Rattle.std.specs.Arc.{arc_value};
ghost use Rattle.std.specs.Int.NonZero.{non_zero_usize_get};
ghost use Rattle.parallel_pool.specs.ThreadPool.{thread_count};
ghost use Rattle.commonware_parallel.specs.Exploring.{Explored, Compares, IsExplorer};
ghost use Rattle.commonware_parallel.specs.declared.mocks.explore_error.ExploreError.TheVariants.{Build};
ghost use Rattle.parallel_pool.specs.declared.rayon.build_error.ThreadPoolBuildError.TheVariants.{Memory};

use crate::mocks::explore_error::ExploreError;
use crate::mocks::explorer::Explorer;
use crate::mocks::rule::Rule;
use parallel_pool::rayon::ThreadPool;
use std::alloc::Global;
use std::fmt::Debug;
use std::num::NonZeroUsize;
use std::sync::Arc;
use std::thread::Threads;

/// The thread number of the pool that `explore` runs on.
pub const WORKERS: usize = 4;

/// The number that `explore` plans for.
pub const TASKS: usize = 8;

/// `WORKERS` as the number that `pooled` takes.
pub fn workers() -> NonZeroUsize
    ensures { non_zero_usize_get result ≡ WORKERS }
{
    NonZeroUsize::MIN.saturating_add(WORKERS - 1)
}

/// `TASKS` as the number that `pooled` takes.
pub fn tasks() -> NonZeroUsize
    ensures { non_zero_usize_get result ≡ TASKS }
{
    NonZeroUsize::MIN.saturating_add(TASKS - 1)
}

/// The output of a closure through a serial explorer, if its outputs through a parallel one and
/// through the explorers of the seeds 0 to 3 are equal to it.
///
/// The closure is called once for each rule, in that order, up to the first output that differs,
/// with explorers over `WORKERS` threads that are planned for `TASKS`, and whose jobs get workers
/// (`Explored`).
///
/// # Errors
///
/// `ExploreError::Differs` with the rule of the first output that differs from the serial one, and
/// `ExploreError::Build` with `ThreadPoolBuildError::Memory` where the pool or a handle of it was
/// refused memory.
pub fn explore<Rt: Threads, R: PartialEq + Debug + Drop, F: FnMut(&Explorer) -> R>(
    _rt: &Rt,
    alloc: Global,
    run: F,
) -> Result<R, ExploreError>
    requires { F.IsAlwaysCallable run }
    ensures { Explored (λ f explorer r g. F.step f explorer r g) (λ a b. R.eq a b) run result }
{
    let mut run = run;
    let pool = Arc::new(alloc, ThreadPool::new(workers()))?;
    let explorer = explorer_by(&pool, Rule::Serial)?;
    let serial = run(&explorer);
    compare(&mut run, &pool, Rule::Parallel, &serial)?;
    compare(&mut run, &pool, Rule::Seeded(0), &serial)?;
    compare(&mut run, &pool, Rule::Seeded(1), &serial)?;
    compare(&mut run, &pool, Rule::Seeded(2), &serial)?;
    compare(&mut run, &pool, Rule::Seeded(3), &serial)?;
    Ok(serial)
}

// An explorer by the rule, over the pool.
fn explorer_by(pool: &Arc<ThreadPool, Global>, rule: Rule) -> Result<Explorer, ExploreError>
    ensures explorer { IfOk result (IsExplorer (thread_count (arc_value pool.now)) rule) }
    ensures error { IfErr result (λ error. error ≡ Build Memory) }
{
    let pool = Arc::try_clone(pool)?;
    Ok(Explorer {
        pool,
        parallelism: tasks(),
        starts_workers: true,
        rule,
    })
}

// Runs by the rule, and compares with the serial output.
fn compare<R: PartialEq + Drop, F: FnMut(&Explorer) -> R>(
    run: &mut F,
    pool: &Arc<ThreadPool, Global>,
    rule: Rule,
    serial: &R,
) -> Result<(), ExploreError>
    requires callable { F.IsAlwaysCallable run.old }
    requires workers { thread_count (arc_value pool.now) ≡ 4 }
    ensures callable { F.IsAlwaysCallable run.new }
    ensures compares { Compares (λ f explorer r g. F.step f explorer r g)
        (λ a b. R.eq a b) serial.now rule run.old run.new result }
{
    let explorer = explorer_by(pool, rule)?;
    if run(&explorer) == *serial {
        Ok(())
    } else {
        Err(ExploreError::Differs(rule))
    }
}
