//! How a job begins: at once, on a worker of its own, or never.
ghost use Rattle.std.specs.Prelude.{IfErr, IfOk, true};
ghost use Rattle.parallel_bridge.specs.declared.path.Path.TheVariants.{Parallel, Serial};
ghost use Rattle.commonware_parallel.specs.Spawned.{BeginsAs, FailsToBegin, gives_answer};

use crate::meter::Meter;
use crate::running::Running;
use crate::spawned::ending::Ending;
use crate::spawned::job::{Job, Kept};
use crate::spawned::{Spawned, Stage};
use parallel_bridge::Path;
use parallel_fault::Fault;
use std::alloc::Global;
use std::sync::{Arc, Wait};
use std::thread;
use std::thread::Threads;

/// Begins a job: serially on the caller's thread, in parallel on a worker of its own, where workers
/// are started. Where they aren't the job is dropped, and never returns.
///
/// # Errors
///
/// `Fault::Memory` where memory was refused before the worker was started; `Fault::Worker` where
/// its start was refused. The job is then dropped.
pub(crate) fn begin<
    R: Threads + Wait + Copy + Send + 'static,
    M: Meter + Send + 'static,
    S: Send + Drop + 'static,
    F: Job<S, T> + Send + Drop + 'static,
    T: Send + Drop + 'static,
>(
    rt: R,
    alloc: Global,
    path: Path,
    starts: bool,
    meter: M,
    strategy: S,
    job: F,
) -> Result<Spawned<R, S, F, T>, Fault>
    requires { F.may_run job strategy }
    ensures gives { IfOk result (λ spawned. (x : T) → gives_answer F.may_answer spawned x
        → F.may_answer job strategy x) }
    ensures form { IfOk result (BeginsAs starts path) }
    ensures refused { IfErr result (FailsToBegin starts path) }
{
    match path {
        Path::Serial => Ok(run_here(rt, meter, strategy, job)),
        Path::Parallel if starts => hand_off(rt, alloc, meter, strategy, job),
        Path::Parallel => Ok(Spawned::at(rt, Stage::Unstarted)),
    }
}

// Runs a job on the caller's thread.
fn run_here<R: Wait, M: Meter, S, F: Job<S, T>, T>(
    rt: R,
    meter: M,
    strategy: S,
    job: F,
) -> Spawned<R, S, F, T>
    requires { F.may_run job strategy }
    ensures gives { (x : T) → gives_answer F.may_answer result x → F.may_answer job strategy x }
    ensures form { BeginsAs true Serial result }
{
    let running = Running::begun(meter);
    let answer = job.run_on(strategy);
    running.ended(&rt);
    Spawned::at(rt, Stage::Ready(answer))
}

// Hands a job off to a worker of its own, which measures it, and tells when it has ended.
fn hand_off<
    R: Threads + Wait + Copy + Send + 'static,
    M: Meter + Send + 'static,
    S: Send + Drop + 'static,
    F: Job<S, T> + Send + Drop + 'static,
    T: Send + Drop + 'static,
>(rt: R, alloc: Global, meter: M, strategy: S, job: F) -> Result<Spawned<R, S, F, T>, Fault>
    requires { F.may_run job strategy }
    ensures gives { IfOk result (λ spawned. (x : T) → gives_answer F.may_answer spawned x
        → F.may_answer job strategy x) }
    ensures form { IfOk result (BeginsAs true Parallel) }
    ensures refused { IfErr result (FailsToBegin true Parallel) }
{
    let ending = Arc::new(alloc, Ending::new())?;
    let theirs = Arc::try_clone(&ending)?;
    let kept = Kept::of(&job, &strategy);
    let run = move || -> T
        requires { F.may_run job strategy }
        ensures { F.may_answer job strategy result }
    {
        let running = Running::begun(meter);
        let answer = job.run_on(strategy);
        running.ended(&rt);
        theirs.end(&rt);
        answer
    };
    match thread::spawn_with(&rt, kept, run) {
        Ok(worker) => Ok(Spawned::at(rt, Stage::Waiting(worker, ending))),
        Err(_) => Err(Fault::Worker),
    }
}
