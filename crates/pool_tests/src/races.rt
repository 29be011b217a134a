//! Jobs that come while a worker goes to sleep: each is called.
use crate::brought::{ALL, Brought, Led, leads};
use crate::checks::row;
use crate::tally::{Act, Host, becomes, let_it_sleep, read};
use std::sync::atomic::AtomicU64;
use std::thread;
use std::time::{Duration, Instant};

// How many jobs come, one after the other, and for how many milliseconds about: fewer come on a
// machine that is busy.
const ROUNDS: u64 = 2000;

const LONGEST: u64 = 3000;

// In how many looks at its tally a job is called that wakes nobody.
const SOON: u32 = 1000;

// Whether a word is that much after so few looks.
fn is_soon(word: &AtomicU64, wanted: u64) -> bool {
    for _ in 0..SOON {
        if read(word) == wanted {
            return true;
        }
    }
    false
}

// Does that often what a worker does that looks for jobs: it looks once and yields once in a round.
fn looks_on<R: Host>(rt: &R, led: &mut Led, often: u64) {
    for _ in 0..often {
        led.pool.yield_now(rt, &mut led.worker);
        thread::yield_now();
    }
}

// Brings jobs, each a little longer after the one before was called, and stops the test where one
// isn't called. It returns how many came, and how many were called in less time than it takes to
// wake a sleeper: these came while the worker looked for jobs.
fn comes_meanwhile<R: Host>(rt: &R, brought: Brought) -> (u64, u64) {
    let start = Instant::now(rt).expect(rt, "a time");
    let mut led = leads(rt, 2);
    let (mut round, mut soon) = (0u64, 0u64);
    for _ in 0..ROUNDS {
        if start.elapsed(rt).expect(rt, "a time") > Duration::from_millis(LONGEST) {
            break;
        }
        round = round.wrapping_add(1);
        let came = led.brings(rt, brought, 1, Act::Adds(1));
        if is_soon(&led.tally.called, round) {
            soon = soon.wrapping_add(1);
        }
        let is_called = becomes(&led.tally.called, round);
        let of = ("came, called", brought, round);
        row(rt, of, (came, is_called), (true, true));
        looks_on(rt, &mut led, round % 48);
    }
    led.ends(rt);
    (round, soon)
}

#[test]
fn a_job_that_comes_while_a_worker_goes_to_sleep_is_called(rt: HostRuntime) {
    for brought in ALL {
        let (came, soon) = comes_meanwhile(&rt, brought);
        let _told = eprintln!(&rt; "{brought:?}: {soon} of {came} came while a worker looked");
    }
}

#[test]
fn each_of_many_sleepers_is_woken_once_its_job_is_there(rt: HostRuntime) {
    let mut led = leads(&rt, 40);
    let mut called = 0u64;
    for target in [1, 39, 32, 31, 16] {
        for brought in [Brought::ToEach, Brought::ToEachBySeat] {
            let_it_sleep(&rt);
            let came = led.brings(&rt, brought, target, Act::AddsAt(target));
            called = called.wrapping_add(1);
            let is_called = becomes(&led.tally.called, called);
            let of = ("came, called", brought, target);
            row(&rt, of, (came, is_called), (true, true));
        }
    }
    led.ends(&rt);
}
