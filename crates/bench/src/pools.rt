//! Pools that are brought many jobs by several threads at once, and pools that come and go.
use crate::counted_job::{Board, CountedJob};
use crate::jobs::{board_of, spawn_all};
use crate::request::Pair;
use anyhow::{Context, Result, ensure};
use commonware_parallel::Fault;
use parallel_pool::rayon::{Staff, ThreadPool, ThreadPoolBuilder};
use std::alloc::Global;
use std::fs;
use std::ops::Range;
use std::rt::Files;
use std::sync::{Arc, Wait};
use std::thread::{self, Threads};
use std::time::{Clock, Duration};

/// How many workers the first pool has.
const WORKERS: usize = 4;

/// How many threads bring it jobs, all at once.
const BRINGERS: usize = 4;

/// How many jobs a thread brings before it sleeps.
const BURST: usize = 5_000;

/// For how many milliseconds it sleeps, so that the workers find nothing, and block.
const PAUSE: u64 = 3;

/// How many jobs each of the other pools is brought.
const FEW: usize = 100;

/// The most workers that one of them has.
const MOST_WORKERS: usize = 7;

/// Brings the first number of jobs to one pool, by several threads at once, makes the second number
/// of pools one after the other and drops each with its jobs still to come, and prints what was
/// done.
///
/// # Errors
///
/// A refusal of memory or of a thread, `jobs were lost` where a job wasn't called just once, and
/// `workers are left` where the process still has more than one thread after ten seconds.
pub fn soak_pools<Rt>(rt: &Rt, trial: Pair) -> Result<()>
where
    Rt: Print + AllocGlobal + Files + Clock + Threads + Wait + Copy + Send + Sync + 'static,
{
    let Pair {
        first: jobs,
        second: pools,
    } = trial;
    let alloc = rt.alloc();
    soak_one(rt, alloc, jobs)?;
    let mut workers = 1;
    for _ in 0..pools {
        drop_one(rt, alloc, workers)?;
        workers = workers % MOST_WORKERS + 1;
    }
    ensure!(are_gone(rt)?, "workers are left");
    println!(rt;
        "pools: {jobs} jobs by {BRINGERS} threads to {WORKERS} workers, each called once"
    )?;
    println!(rt; "pools: {pools} more pools, {FEW} jobs each, called once; no worker is left")?;
    Ok(())
}

// Many jobs to one pool.
fn soak_one<R: Clock + Threads + Wait + Copy + Send + Sync + 'static>(
    rt: &R,
    alloc: Global,
    jobs: usize,
) -> Result<()> {
    let board = board_of(alloc, jobs)?;
    let builder = ThreadPoolBuilder::new().num_threads(WORKERS);
    let (pool, _) = builder.build_for::<R, CountedJob>(rt, alloc)?;
    let brought = bring_all(rt, alloc, &pool, &board, jobs)?;
    pool.close(rt);
    for each in brought {
        each?;
    }
    ensure!(board.is_each_once(), "jobs were lost");
    Ok(())
}

/// What takes jobs from several threads at once.
trait Bring: Sync {
    /// Brings it the jobs of these numbers.
    ///
    /// # Errors
    ///
    /// What was refused.
    fn bring<R: Wait>(
        &self,
        rt: &R,
        board: &Arc<Board, Global>,
        numbers: Range<usize>,
    ) -> Result<(), Fault>;
}

impl Bring for ThreadPool<Staff<CountedJob>> {
    fn bring<R: Wait>(
        &self,
        rt: &R,
        board: &Arc<Board, Global>,
        numbers: Range<usize>,
    ) -> Result<(), Fault> {
        spawn_all(rt, self, board, numbers, 0)
    }
}

// Each thread brings a part of the jobs. That a pool may be shared is found where nothing but the
// pool has to be.
fn bring_all<R: Clock + Threads + Wait + Sync>(
    rt: &R,
    alloc: Global,
    pool: &ThreadPool<Staff<CountedJob>>,
    board: &Arc<Board, Global>,
    jobs: usize,
) -> Result<Vec<Result<(), Fault>>> {
    bring_parts::<R, ThreadPool<Staff<CountedJob>>>(rt, alloc, pool, board, jobs)
}

fn bring_parts<R: Clock + Threads + Wait + Sync, P: Bring>(
    rt: &R,
    alloc: Global,
    pool: &P,
    board: &Arc<Board, Global>,
    jobs: usize,
) -> Result<Vec<Result<(), Fault>>> {
    let brought = thread::map_indices(
        rt,
        alloc,
        BRINGERS,
        &|place: usize| { bring_bursts(rt, pool, board, part_of(jobs, BRINGERS, place)) },
    )?;
    Ok(brought)
}

// The numbers of the part at `place`, of that many parts that neighbour each other.
fn part_of(jobs: usize, parts: usize, place: usize) -> Range<usize> {
    let each = jobs / parts.max(1);
    let start = each.saturating_mul(place);
    if place.saturating_add(1) == parts {
        start..jobs
    } else {
        start..start.saturating_add(each)
    }
}

// Brings the jobs of these numbers, with a sleep after each burst.
fn bring_bursts<R: Clock + Wait, P: Bring>(
    rt: &R,
    pool: &P,
    board: &Arc<Board, Global>,
    numbers: Range<usize>,
) -> Result<(), Fault> {
    for start in (numbers.start..numbers.end).step_by(BURST) {
        let end = numbers.end.min(start.saturating_add(BURST));
        pool.bring(rt, board, start..end)?;
        thread::sleep(rt, Duration::from_millis(PAUSE));
    }
    Ok(())
}

// A pool of that many workers that is dropped with its jobs, which are called all the same.
fn drop_one<R: Clock + Threads + Wait + Copy + Send + 'static>(
    rt: &R,
    alloc: Global,
    workers: usize,
) -> Result<()> {
    let board = board_of(alloc, FEW)?;
    let builder = ThreadPoolBuilder::new().num_threads(workers);
    let (pool, _) = builder.build_for::<R, CountedJob>(rt, alloc)?;
    spawn_all(rt, &pool, &board, 0..FEW, 0)?;
    drop(pool);
    ensure!(come_all(rt, &board), "jobs were lost");
    ensure!(board.is_each_once(), "jobs were lost");
    Ok(())
}

// Whether all jobs of such a pool are called, within ten seconds.
fn come_all(rt: &impl Clock, board: &Board) -> bool {
    for _ in 0..10_000 {
        if board.calls() >= FEW as u64 {
            return true;
        }
        thread::sleep(rt, Duration::from_millis(1));
    }
    false
}

// Whether the process comes down to one thread within ten seconds.
fn are_gone<R: Files + AllocGlobal + Clock>(rt: &R) -> Result<bool> {
    for _ in 0..1_000 {
        if threads_of_process(rt)? == 1 {
            return Ok(true);
        }
        thread::sleep(rt, Duration::from_millis(10));
    }
    Ok(false)
}

// How many threads the process has, by Linux's own count.
fn threads_of_process<R: Files + AllocGlobal>(rt: &R) -> Result<usize> {
    let status = fs::read_to_string(rt, "/proc/self/status")?;
    let line = status.lines().find(|line| line.starts_with("Threads:"));
    let count = line.context("the system counts no threads")?;
    let count = count.trim_start_matches("Threads:").trim();
    Ok(count.parse()?)
}
