//! Builds and jobs that are refused: no worker is left running, and no job is waited for that
//! didn't come.
//!
//! The tests that take all memory first are refused wherever they are run, but where allocations
//! are checked (`no_memory`): there they end. The one that takes all places for a thread's stack is
//! refused there too. `a_build_works_or_leaves_no_worker` and that of the many jobs are also to be
//! run with each allocation failing in turn, as the 1000th, which is of a push to the injected
//! jobs, and the 3000th, of a push for a worker; the former also with each start of a thread
//! failing. A test whose own boxes are refused has nothing to ask, and ends.
use crate::brought::{Brought, Led, Long, leads};
use crate::checks::row;
use crate::tally::{
    Act, Host, Job, Tally, awaits, empty_tally, push_by, read, starts_of, telling, told_to,
    try_tally,
};
use parallel_pool::rayon::{
    Queue, Staff, ThreadPool, ThreadPoolBuildError, ThreadPoolBuilder, WorkerThread, Yield,
};
use std::alloc::{AllocError, AllocGlobal, Global};
use std::collections::VecDeque;
use std::process::Abort;
use std::rt::Files;
use std::sync::Arc;
use std::{fs, thread};
use test_support::no_memory::{all_memory, all_places};
use test_support::{holds, same};

// How many workers have started, of at most 255 of each index.
fn started(tally: &Tally) -> u64 {
    let mut count = 0u64;
    for index in 0..4usize {
        count = count.wrapping_add(starts_of(tally, index));
    }
    count
}

// What is refused of a build of four workers: a stack that no thread has, the third one's name, or
// what happens to be.
#[derive(Clone, Copy, Debug, PartialEq, Eq)]
enum Refused {
    Stack,
    Name,
    Nothing,
}

// Such a builder, which tells a tally, where there is memory for it.
fn builder(alloc: Global, refused: Refused, tally: &Arc<Tally>) -> Option<ThreadPoolBuilder> {
    let four = told_to(alloc, 4, tally)?;
    match refused {
        Refused::Stack => Some(four.stack_size(usize::MAX)),
        Refused::Name => {
            let name_of = move |index: usize| {
                if index == 2 {
                    Err(AllocError)
                } else {
                    String::from_str(alloc, "worker")
                }
            };
            Some(four.thread_name(Box::new(alloc, name_of).ok()?))
        }
        Refused::Nothing => Some(four),
    }
}

// Stops the test where a build that has to be refused isn't, or a worker is left.
fn builds<R: Host>(rt: &R, refused: Refused) -> Option<()> {
    let tally = try_tally(rt.alloc())?;
    let builder = builder(rt.alloc(), refused, &tally)?;
    match builder.build(rt, rt.alloc()) {
        Ok((pool, _none)) => {
            row(rt, "it is granted", refused, Refused::Nothing);
            pool.close(rt);
            same!(rt, read(&tally.begun), 16_843_009);
            awaits(rt, &tally.ended, 1, "the workers have ended");
        }
        Err(refusal) => {
            let is_memory = matches!(refusal, ThreadPoolBuildError::Memory);
            row(rt, refused, is_memory || refused != Refused::Name, true);
            row(rt, "no worker has the handler", read(&tally.ended), 1);
            row(rt, "not all have begun", started(&tally) < 4, true);
        }
    }
    Some(())
}

#[test]
fn a_build_works_or_leaves_no_worker(rt: HostRuntime) {
    for refused in [Refused::Nothing, Refused::Stack, Refused::Name] {
        let _built = builds(&rt, refused);
    }
}

// What is left free of a machine without places: room for as many stacks of the size below, each in
// a place of its own, between places that stay taken.
fn places(alloc: Global, count: usize) -> Option<(Vec<Vec<u8>>, Vec<Vec<u8>>)> {
    let mut stacks = Vec::with_capacity(alloc, count).ok()?;
    let mut between = Vec::with_capacity(alloc, count).ok()?;
    for _ in 0..count {
        stacks.push(Vec::with_capacity(alloc, PLACE).ok()?).ok()?;
        between.push(Vec::with_capacity(alloc, PLACE).ok()?).ok()?;
    }
    Some((stacks, between))
}

// A stack fits in a place, and two of them don't. Neither is kept once it is given back. A stack
// fits also where three threads before it have a heap of their own in that place, for each of which
// glibc takes 128 MiB at most.
const STACK: usize = 800 << 20;

const PLACE: usize = 1_400 << 20;

// What else a thread asks for fits here, and no stack does.
const NO_PLACE: usize = 300 << 20;

// So many builders of four workers, which tell a tally.
fn builders<R: Host>(rt: &R, count: usize, tally: &Arc<Tally>) -> Vec<ThreadPoolBuilder> {
    let mut all = Vec::with_capacity(rt.alloc(), count).expect(rt, "memory");
    for _ in 0..count {
        let builder = told_to(rt.alloc(), 4, tally).expect(rt, "memory");
        all.push(builder.stack_size(STACK))
            .expect(rt, "it has room");
    }
    all
}

// Whether the process has come to have one thread alone, by Linux's own count. A worker that has
// ended is gone some time later, and its place is free only then.
fn is_alone<R: Files + AllocGlobal + Abort>(rt: &R) -> bool {
    for _ in 0..300_000u32 {
        let counts = fs::read_to_string(rt, "/proc/self/stat").expect(rt, "the counts");
        if counts.as_str().split(' ').nth(19) == Some("1") {
            return true;
        }
        thread::yield_now();
    }
    false
}

#[test]
fn a_build_that_is_refused_after_its_first_threads_ends_them(rt: HostRuntime) {
    let alloc = rt.alloc();
    let tally = empty_tally(&rt);
    let builders = builders(&rt, 5, &tally);
    let (mut stacks, _between) = places(alloc, 4).expect(&rt, "memory");
    let room = Vec::<u8>::with_capacity(alloc, NO_PLACE).expect(&rt, "memory");
    let held = all_places(alloc).expect(&rt, "places that have an end");
    drop(room);
    let (mut wanted, mut threads) = (0u64, 0u64);
    for builder in builders {
        let built = builder.build(&rt, alloc);
        wanted = wanted.wrapping_add(threads);
        let ended_by_now = read(&tally.ended);
        threads = threads.wrapping_add(1);
        match built {
            Ok((pool, _none)) => pool.close(&rt),
            Err(refusal) => {
                holds!(&rt, matches!(refusal, ThreadPoolBuildError::Spawn));
                row(&rt, threads, ended_by_now, threads);
            }
        }
        let found = (started(&tally), is_alone(&rt));
        row(&rt, threads, found, (wanted, true));
        stacks.pop();
    }
    drop(held);
    same!(&rt, started(&tally), 10);
    awaits(&rt, &tally.ended, 5, "all workers have ended");
}

// The room that a build is given, of which each build that was refused gives 64 bytes more.
const ROOM: usize = 120_000;

#[test]
fn a_build_that_is_refused_anywhere_leaves_no_worker(rt: HostRuntime) {
    let alloc = rt.alloc();
    let tally = empty_tally(&rt);
    let builders = builders(&rt, 1000, &tally);
    let mut room = Vec::<u8>::with_capacity(alloc, ROOM).expect(&rt, "memory");
    let Some(held) = all_memory(alloc) else {
        return;
    };
    let mut refused = 0u64;
    for builder in builders {
        let left = ROOM.saturating_sub(64usize.saturating_mul(refused as usize));
        drop(room);
        room = Vec::with_capacity(alloc, left).expect(&rt, "it had as much");
        let Err(refusal) = builder.build(&rt, alloc) else {
            panic!(rt; "there is no place for a stack");
        };
        refused = refused.wrapping_add(1);
        row(&rt, refused, read(&tally.ended), refused);
        if matches!(refusal, ThreadPoolBuildError::Spawn) {
            break;
        }
    }
    drop(held);
    // (a build asks for memory in many places, and then for a thread)
    holds!(&rt, refused > 100 && refused < 1000);
    same!(&rt, read(&tally.begun), 0);
}

// Brings many jobs in one way to a pool, each of which adds one, and returns how many came.
fn many_come<R: Host>(
    rt: &R,
    pool: &ThreadPool<Staff<Short>>,
    worker: &mut WorkerThread<Short>,
    brought: Brought,
    tally: &Arc<Tally>,
) -> u64 {
    let mut came = 0u64;
    for _ in 0..60_000u32 {
        let job = telling(rt, tally, Act::Adds(1));
        let is_one = match brought {
            Brought::Injected => push_by(rt, worker, Queue::Injected, job),
            Brought::ToOne => push_by(rt, worker, Queue::Broadcast(1), job),
            Brought::Own => pool.spawn_from(rt, worker, job).is_ok(),
            _ => pool.spawn(rt, job).is_ok(),
        };
        came = came.wrapping_add(u64::from(is_one));
    }
    came
}

// A job that takes little memory.
type Short = Job<1>;

// Many jobs are brought to a pool in each way, where no memory is left if `takes_all`. Nothing
// where the test's own memory is refused.
fn comes_or_is_refused<R: Host>(rt: &R, takes_all: bool) -> Option<()> {
    let tally = try_tally(rt.alloc())?;
    let builder = told_to(rt.alloc(), 2, &tally)?.use_current_thread();
    let built = builder.build_for::<R, Short>(rt, rt.alloc());
    let (pool, current) = built.ok()?;
    let mut worker = current?;
    let held = if takes_all {
        all_memory(rt.alloc())?
    } else {
        Vec::new(rt.alloc())
    };
    let mut wanted = 0u64;
    for brought in [
        Brought::Injected,
        Brought::ToOne,
        Brought::Own,
        Brought::Spawned,
    ] {
        let came = many_come(rt, &pool, &mut worker, brought, &tally);
        row(rt, (brought, came), came < 60_000 || !takes_all, true);
        wanted = wanted.wrapping_add(came);
    }
    drop(held);
    drop(pool);
    awaits(rt, &tally.ended, 1, "no refused job is waited for");
    same!(rt, read(&tally.called), wanted);
    Some(())
}

#[test]
fn many_jobs_are_called_but_those_that_are_refused(rt: HostRuntime) {
    for takes_all in [false, true] {
        let _brought = comes_or_is_refused(&rt, takes_all);
    }
}

// Pushes jobs to a worker until a push is refused, and returns how many came, of a hundred at most.
fn fills<R: Host>(rt: &R, led: &mut Led, index: usize, jobs: &mut VecDeque<Long>) -> u64 {
    let mut came = 0u64;
    for _ in 0..100u32 {
        let Some(job) = jobs.pop_back() else { break };
        if !push_by(rt, &mut led.worker, Queue::Broadcast(index), job) {
            break;
        }
        came = came.wrapping_add(1);
    }
    came
}

// So many jobs, of which each adds one.
fn jobs<R: Host>(rt: &R, tally: &Arc<Tally>, count: usize) -> VecDeque<Long> {
    let mut jobs = VecDeque::new(rt.alloc());
    for _ in 0..count {
        jobs.push_back(telling(rt, tally, Act::Adds(1)))
            .expect(rt, "memory");
    }
    jobs
}

// While no memory is to be had the third of four workers waits, and its queue is full: of a job for
// each of them the first two are called, and the others come back.
fn third_is_refused<R: Host>(rt: &R, by_pool: bool) {
    let mut led = leads(rt, 4);
    let halted = led.halts(rt, 2);
    // (each queue has a block)
    holds!(rt, led.brings(rt, Brought::ToEach, 2, Act::Counts));
    led.pool.yield_now(rt, &mut led.worker);
    awaits(rt, &led.tally.others, 3, "all but the third are called");
    let mut more = jobs(rt, &led.tally, 100);
    let four = jobs(rt, &led.tally, 4);
    let Some(held) = all_memory(rt.alloc()) else {
        halted.opens();
        return;
    };
    let came = fills(rt, &mut led, 2, &mut more);
    let refused = led.brings_each(rt, four, by_pool);
    drop(held);
    let left = refused.map_or(0, |refused| refused.1.len());
    row(rt, by_pool, (came < 100, left), (true, 2));
    led.pool.yield_now(rt, &mut led.worker);
    awaits(rt, &led.tally.called, 2, "those before it are called");
    halted.opens();
    drop(led.pool);
    awaits(rt, &led.tally.ended, 1, "no refused job is waited for");
    let found = (read(&led.tally.called), read(&led.tally.others));
    row(rt, by_pool, found, (came.wrapping_add(2), 4));
}

#[test]
fn jobs_that_were_not_broadcast_come_back(rt: HostRuntime) {
    for by_pool in [false, true] {
        third_is_refused(&rt, by_pool);
    }
}
