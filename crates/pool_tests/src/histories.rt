//! Who calls a job that comes, and in which order jobs are called: no job waits while a worker
//! sleeps, and a job counts until it has ended or is taken by a seat.
use crate::brought::{ALL, Brought, Led, leads};
use crate::checks::row;
use crate::tally::{Act, Host, Tally, awaits, becomes, let_it_sleep, push_by, read, telling};
use parallel_pool::rayon::{Execute, Queue, Yield};
use std::sync::Arc;
use test_support::same;

// All started workers but one have a job that doesn't end yet.
fn halts_all_but<R: Host>(rt: &R, led: &mut Led, free: usize) -> Vec<Arc<Tally>> {
    let mut halted = Vec::new(rt.alloc());
    for index in 1..led.pool.current_num_threads() {
        if index != free {
            let tally = led.halts(rt, index);
            halted.push(tally).expect(rt, "memory");
        }
    }
    halted
}

// Brings a job that one worker is to call, whether that one sleeps or has just called another, and
// stops the test where it doesn't.
fn is_called<R: Host>(rt: &R, led: &mut Led, brought: Brought, target: usize) {
    for is_asleep in [true, false] {
        if is_asleep {
            let_it_sleep(rt);
        }
        let before = read(&led.tally.called);
        let came = led.brings(rt, brought, target, Act::AddsAt(target));
        let is_called = becomes(&led.tally.called, before.wrapping_add(1));
        let threads = led.pool.current_num_threads();
        let at = ("came, called", threads, brought, target, is_asleep);
        row(rt, at, (came, is_called), (true, true));
    }
}

#[test]
fn the_one_worker_that_is_free_calls_each_job(rt: HostRuntime) {
    for (num_threads, free) in [(2, 1), (3, 1), (3, 2), (4, 1), (4, 2), (4, 3), (7, 1)] {
        let mut led = leads(&rt, num_threads);
        let halted = halts_all_but(&rt, &mut led, free);
        for brought in ALL {
            is_called(&rt, &mut led, brought, free);
        }
        for tally in halted.iter() {
            tally.opens();
        }
        led.ends(&rt);
    }
}

#[test]
fn a_sleeper_calls_the_job_that_is_for_it(rt: HostRuntime) {
    let mut led = leads(&rt, 4);
    for brought in [Brought::ToOne, Brought::ToEach, Brought::ToEachBySeat] {
        for target in [3usize, 2, 1, 3] {
            is_called(&rt, &mut led, brought, target);
        }
    }
    let_it_sleep(&rt);
    led.ends(&rt);
}

// Two jobs of each kind, by the digits that they write. One worker has a job that doesn't end yet.
fn brings_six<R: Host>(rt: &R, target: usize) -> (Led, Arc<Tally>) {
    let mut led = leads(rt, 2);
    let halted = led.halts(rt, 1);
    for (brought, digit) in [
        (Brought::Spawned, 5),
        (Brought::Injected, 6),
        (Brought::Own, 3),
        (Brought::Own, 4),
        (Brought::ToOne, 1),
        (Brought::ToOne, 2),
    ] {
        let came = led.brings(rt, brought, target, Act::Writes(digit));
        row(rt, digit, came, true);
    }
    (led, halted)
}

#[test]
fn a_worker_calls_what_is_for_it_then_what_it_steals_then_what_is_injected(rt: HostRuntime) {
    let (led, halted) = brings_six(&rt, 1);
    halted.opens();
    awaits(&rt, &led.tally.called, 123_456, "that order");
    led.ends(&rt);
}

#[test]
fn a_worker_calls_its_own_last_job_first(rt: HostRuntime) {
    let (mut led, halted) = brings_six(&rt, 0);
    for called in [4, 43, 431, 4312, 43_125, 431_256] {
        let yielded = led.pool.yield_now(&rt, &mut led.worker);
        let found = (yielded, read(&led.tally.called));
        row(&rt, called, found, (Some(Yield::Executed), called));
    }
    let yielded = led.pool.yield_now(&rt, &mut led.worker);
    same!(&rt, yielded, Some(Yield::Idle));
    halted.opens();
    led.ends(&rt);
}

// Stops the test where a job that comes to a queue of a pool that was dropped isn't called, or its
// workers don't end, while one of them has a job that doesn't end yet.
fn one_is_at_work<R: Host>(rt: &R, queue: Queue) {
    let mut led = leads(rt, 3);
    let halted = led.halts(rt, 1);
    let Led {
        pool,
        mut worker,
        tally,
        stranger: _,
    } = led;
    drop(pool);
    for called in 1..3u64 {
        let_it_sleep(rt);
        let job = telling(rt, &tally, Act::AddsAt(2));
        let came = push_by(rt, &mut worker, queue, job);
        let is_called = becomes(&tally.called, called);
        let of = ("came, called", queue, called);
        row(rt, of, (came, is_called), (true, true));
    }
    halted.opens();
    awaits(rt, &tally.ended, 1, "the workers have ended");
}

#[test]
fn a_job_counts_until_it_has_ended(rt: HostRuntime) {
    for queue in [Queue::Injected, Queue::Broadcast(2)] {
        one_is_at_work(&rt, queue);
    }
}

// Stops the test where the workers don't end of a pool that was dropped, once a job that came in
// some way was taken by the first worker's seat. The other one had a job that didn't end meanwhile.
fn takes<R: Host>(rt: &R, brought: Brought, queue: Queue) {
    let mut led = leads(rt, 2);
    let halted = led.halts(rt, 1);
    let came = led.brings(rt, brought, 0, Act::Adds(1));
    let Led {
        pool,
        mut worker,
        tally,
        stranger: _,
    } = led;
    let seat = worker.jobs();
    let taken = if seat.has(queue) {
        seat.take(rt, queue)
    } else {
        None
    };
    drop(pool);
    halted.opens();
    awaits(rt, &tally.ended, 1, "the other worker has ended");
    row(rt, (brought, came), taken.is_some(), true);
    taken.expect(rt, "a job").execute(0);
    same!(rt, read(&tally.called), 1);
}

#[test]
fn a_job_that_a_seat_took_is_counted(rt: HostRuntime) {
    for (brought, queue) in [
        (Brought::Spawned, Queue::Injected),
        (Brought::Injected, Queue::Injected),
        (Brought::Stranger, Queue::Injected),
        (Brought::Own, Queue::Deque(0)),
        (Brought::ToOne, Queue::Broadcast(0)),
        (Brought::ToEach, Queue::Broadcast(0)),
    ] {
        takes(&rt, brought, queue);
    }
}
