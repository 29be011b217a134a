//! Jobs that are brought to a pool, beside a thread started for each.
use crate::counted_job::{Board, CountedJob};
use crate::request::Pair;
use crate::times::{Decimal, Times};
use crate::work::ROUNDS;
use anyhow::{Context, Result, ensure};
use commonware_parallel::{Clock, Fault, MonotonicClock};
use parallel_pool::rayon::{Execute, Staff, ThreadPool, ThreadPoolBuilder, WorkerThread, Yield};
use std::alloc::Global;
use std::collections::VecDeque;
use std::fmt::Debug;
use std::ops::Range;
use std::sync::atomic::{AtomicU64, Ordering};
use std::sync::{Arc, Wait};
use std::thread::{self, Threads};
use std::time;

/// How many jobs are brought to workers that sleep, one after the other.
const WAKES: usize = 201;

/// After how many milliseconds without a job each worker sleeps.
const PAUSE: u64 = 5;

/// The most threads that are started for a job each: of more, the memory of their ends would be
/// timed.
const MOST_THREADS: usize = 20_000;

/// A pool of workers that call `CountedJob`s.
type Pool = ThreadPool<Staff<CountedJob>>;

/// Times that many jobs to pools of that many workers, and prints a line for each way.
///
/// # Errors
///
/// What was refused, or the error of a write.
pub fn race_jobs<Rt>(rt: &Rt, trial: Pair) -> Result<()>
where
    Rt: time::Clock
        + Print
        + AllocGlobal
        + Threads
        + Wait
        + Copy
        + Drop
        + Send
        + Sync
        + Debug
        + 'static,
{
    let Pair {
        first: jobs,
        second: workers,
    } = trial;
    let alloc = rt.alloc();
    let clock = Arc::new(alloc, MonotonicClock::new(*rt)?)?;
    for (kind, rounds) in [("empty", 0), ("heavy", ROUNDS)] {
        for (way, is_from_worker) in [("spawn", false), ("spawn_from", true)] {
            let taken = time_pool(rt, alloc, &*clock, trial, rounds, is_from_worker)?;
            report(rt, kind, way, jobs, taken)?;
        }
        let few = jobs.min(MOST_THREADS);
        let taken = time_threads(rt, alloc, &*clock, few, workers, rounds)?;
        report(rt, kind, "a thread each", few, taken)?;
    }
    let times = time_wakes(rt, alloc, &clock, workers)?;
    let best = Decimal::microseconds(times.best);
    let median = Decimal::microseconds(times.median);
    println!(rt; "from spawn to the call by a sleeper: best {best} us, median {median} us")?;
    Ok(())
}

fn report(rt: &impl Print, kind: &str, way: &str, jobs: usize, taken: u64) -> Result<()> {
    let each = Decimal::ratio(taken, jobs as u64).context("no job was timed")?;
    let rate = (jobs as u64).saturating_mul(1_000_000_000) / taken.max(1);
    println!(rt; "{kind}, {way}: {each} ns a job, {rate} jobs a second")?;
    Ok(())
}

// From the first job's coming to a pool until all were called and the workers have ended, in
// nanoseconds. The jobs come by `spawn`, or from a worker of the pool, which calls jobs too once
// all have come.
fn time_pool<R: Threads + Wait + Copy + Send + 'static, C: Clock>(
    rt: &R,
    alloc: Global,
    clock: &C,
    trial: Pair,
    rounds: u64,
    is_from_worker: bool,
) -> Result<u64> {
    let board = board_of(alloc, trial.first)?;
    let mut builder = ThreadPoolBuilder::new().num_threads(trial.second);
    if is_from_worker {
        builder = builder.use_current_thread();
    }
    let (pool, worker) = builder.build_for::<R, CountedJob>(rt, alloc)?;
    ensure!(
        worker.is_some() == is_from_worker,
        "the pool has another worker here than was asked for"
    );
    let start = clock.now();
    bring_jobs(rt, &pool, worker, &board, rounds, trial.first)?;
    pool.close(rt);
    let end = clock.now();
    ensure!(board.is_each_once(), "jobs were lost");
    Ok(end.saturating_sub(start))
}

/// A board for that many jobs, to be shared by them.
///
/// # Errors
///
/// What was refused.
pub fn board_of(alloc: Global, jobs: usize) -> Result<Arc<Board, Global>> {
    let board = Board::new(alloc, jobs)?;
    Ok(Arc::new(alloc, board)?)
}

// Brings that many jobs to the pool, by `spawn` or from a worker of it.
fn bring_jobs<R: Wait>(
    rt: &R,
    pool: &Pool,
    worker: Option<WorkerThread<CountedJob>>,
    board: &Arc<Board, Global>,
    rounds: u64,
    jobs: usize,
) -> Result<(), Fault> {
    let Some(mut worker) = worker else {
        return spawn_all(rt, pool, board, 0..jobs, rounds);
    };
    spawn_all_from(rt, pool, &mut worker, board, rounds, jobs)?;
    call_all(rt, pool, &mut worker);
    Ok(())
}

/// Puts the jobs of these numbers among the injected ones of a pool.
///
/// # Errors
///
/// `Fault::Memory` where there is no memory for a job; those before it stay.
pub fn spawn_all<R: Wait>(
    rt: &R,
    pool: &Pool,
    board: &Arc<Board, Global>,
    numbers: Range<usize>,
    rounds: u64,
) -> Result<(), Fault> {
    for number in numbers {
        let job = CountedJob::new(board, number, rounds)?;
        if let Err((fault, _)) = pool.spawn(rt, job) {
            return Err(fault);
        }
    }
    Ok(())
}

// Puts that many jobs onto the worker's own deque.
fn spawn_all_from<R: Wait>(
    rt: &R,
    pool: &Pool,
    worker: &mut WorkerThread<CountedJob>,
    board: &Arc<Board, Global>,
    rounds: u64,
    jobs: usize,
) -> Result<(), Fault> {
    for number in 0..jobs {
        let job = CountedJob::new(board, number, rounds)?;
        if let Err((fault, _)) = pool.spawn_from(rt, worker, job) {
            return Err(fault);
        }
    }
    Ok(())
}

// Calls jobs until the worker finds none.
fn call_all<R: Wait>(rt: &R, pool: &Pool, worker: &mut WorkerThread<CountedJob>) {
    for _ in rt.forever() {
        match pool.yield_now(rt, worker) {
            Some(Yield::Executed) => {}
            _ => break,
        }
    }
}

// From the first thread's start until all were joined. No more of them than `at_once` stand at a
// time.
fn time_threads<R: Threads, C: Clock>(
    rt: &R,
    alloc: Global,
    clock: &C,
    jobs: usize,
    at_once: usize,
    rounds: u64,
) -> Result<u64> {
    let board = board_of(alloc, jobs)?;
    let mut threads = VecDeque::new(alloc);
    let start = clock.now();
    for number in 0..jobs {
        if threads.len() >= at_once {
            join_first(rt, &mut threads);
        }
        let job = CountedJob::new(&board, number, rounds)?;
        threads.push_back(start_one(rt, job)?)?;
    }
    join_all(rt, threads);
    let end = clock.now();
    ensure!(board.is_each_once(), "jobs were lost");
    Ok(end.saturating_sub(start))
}

fn start_one<R: Threads, J: Execute + Send + 'static>(
    rt: &R,
    job: J,
) -> Result<thread::JoinHandle<()>> {
    Ok(thread::Builder::new().spawn(rt, move || job.execute(0))?)
}

fn join_first<R: Threads>(rt: &R, threads: &mut VecDeque<thread::JoinHandle<()>>) {
    if let Some(first) = threads.pop_front() {
        first.join(rt);
    }
}

fn join_all<R: Threads>(rt: &R, threads: VecDeque<thread::JoinHandle<()>>) {
    for thread in threads {
        thread.join(rt);
    }
}

// A job that tells when it was called.
#[derive(Drop)]
struct Ring<C: Clock> {
    clock: Arc<C, Global>,
    called: Arc<AtomicU64, Global>,
}

impl<C: Clock> Execute for Ring<C> {
    fn execute(self, _index: usize) {
        let Ring { clock, called } = self;
        called.store(clock.now(), Ordering::SeqCst);
    }
}

// From the `spawn` of one job to a pool whose workers sleep until it is called. This thread sleeps
// meanwhile: a worker that wakes on its processor would wait for it, as long as it worked on.
fn time_wakes<R: Threads + Wait + time::Clock + Copy + Send + 'static, C: Clock>(
    rt: &R,
    alloc: Global,
    clock: &Arc<C, Global>,
    workers: usize,
) -> Result<Times> {
    let called = Arc::new(alloc, AtomicU64::new(0))?;
    let builder = ThreadPoolBuilder::new().num_threads(workers);
    let (pool, _) = builder.build_for::<R, Ring<C>>(rt, alloc)?;
    let mut readings = Vec::new(alloc);
    for _ in 0..WAKES {
        readings.push(time_wake(rt, &pool, clock, &called)?)?;
    }
    pool.close(rt);
    Times::of(readings)
}

// The same of one job, after a pause in which the workers fall asleep.
fn time_wake<R: Wait + time::Clock, C: Clock>(
    rt: &R,
    pool: &ThreadPool<Staff<Ring<C>>>,
    clock: &Arc<C, Global>,
    called: &Arc<AtomicU64, Global>,
) -> Result<u64> {
    thread::sleep(rt, time::Duration::from_millis(PAUSE));
    let ring = Ring {
        clock: Arc::try_clone(clock)?,
        called: Arc::try_clone(called)?,
    };
    let start = clock.now();
    ensure!(pool.spawn(rt, ring).is_ok(), "a job was refused");
    Ok(come(rt, called).saturating_sub(start))
}

// When the job was called, once it was, or 0 where it wasn't within ten seconds.
fn come(rt: &impl time::Clock, called: &AtomicU64) -> u64 {
    for _ in 0..10_000 {
        thread::sleep(rt, time::Duration::from_millis(1));
        let told = called.swap(0, Ordering::SeqCst);
        if told > 0 {
            return told;
        }
    }
    0
}
