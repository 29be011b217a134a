//! A map that another thread watches, and one that a flag stops.
use crate::checks::lists;
use commonware_parallel::{Sequential, Strategy, Trouble};
use std::alloc::Global;
use std::process::Abort;
use std::sync::Wait;
use std::sync::atomic::{AtomicBool, AtomicUsize, Ordering};
use std::thread::{Threads, yield_now};
use std::time::Duration;
use test_strategies::{SITE, pool};
use test_support::{holds, same};
use uses::progress::map_and_tell;
use uses::stopping::{Stopped, map_unless_stopped};

// Turns to wait for another thread.
const TURNS: u64 = 10_000_000;

const NUMBERS: [u32; 8] = [3, 1, 4, 1, 5, 9, 2, 6];

// What the word holds once it isn't 0, or 0 after those turns.
fn awaited(word: &AtomicUsize) -> usize {
    for _ in 0..TURNS {
        let value = word.load(Ordering::SeqCst);
        if value != 0 {
            return value;
        }
        yield_now();
    }
    0
}

// The last number, 6, isn't done before another thread has told of some of the others.
fn is_told_meanwhile<Rt: Threads + Wait + Abort + Sync, S: Strategy>(
    rt: &Rt,
    alloc: Global,
    strategy: &S,
    through: &'static str,
) {
    let (told, seen) = (AtomicUsize::new(0), AtomicUsize::new(0));
    let work = |number: u32| {
        if number == 6 {
            seen.store(awaited(&told), Ordering::SeqCst);
        }
        number
    };
    let tell = |count: usize| told.store(count, Ordering::SeqCst);
    let pause = Duration::from_millis(1);
    let found = map_and_tell(rt, alloc, strategy, SITE, &NUMBERS, work, pause, tell);
    lists(rt, ("map_and_tell", through, 8), found, &NUMBERS);
    same!(rt, told.load(Ordering::SeqCst), 8);
    holds!(rt, seen.load(Ordering::SeqCst) != 0);
}

#[test]
fn how_far_a_map_has_come_is_told_while_it_runs(rt: HostRuntime) {
    let alloc = rt.alloc();
    is_told_meanwhile(&rt, alloc, &Sequential, "Sequential");
    let four = pool(&rt, alloc, 4, 4).expect(&rt, "a pool");
    is_told_meanwhile(&rt, alloc, &four, "a pool");
}

// A map whose third item raises the flag, which may have been raised before: how many items were
// done, and whether it was stopped.
fn items_done<Rt: Threads + Wait + Sync, S: Strategy>(
    rt: &Rt,
    alloc: Global,
    strategy: &S,
    is_raised: bool,
) -> (usize, bool) {
    let (stop, done) = (AtomicBool::new(is_raised), AtomicUsize::new(0));
    let work = |number: u32| {
        if number == 4 {
            stop.store(true, Ordering::SeqCst);
        }
        done.fetch_add(1, Ordering::SeqCst);
    };
    let found = map_unless_stopped(rt, alloc, strategy, SITE, &NUMBERS, &stop, work);
    let is_stopped = matches!(found, Err(Trouble::Closure(Stopped)));
    (done.load(Ordering::SeqCst), is_stopped)
}

#[test]
fn a_map_is_stopped_by_a_flag(rt: HostRuntime) {
    let alloc = rt.alloc();
    let four = pool(&rt, alloc, 4, 4).expect(&rt, "a pool");
    same!(&rt, items_done(&rt, alloc, &Sequential, false), (3, true));
    same!(&rt, items_done(&rt, alloc, &Sequential, true), (0, true));
    same!(&rt, items_done(&rt, alloc, &four, true), (0, true));
    let stop = AtomicBool::new(false);
    let same_number = |number: u32| number;
    let found = map_unless_stopped(&rt, alloc, &four, SITE, &NUMBERS, &stop, same_number);
    lists(&rt, ("map_unless_stopped", "a pool", 8), found, &NUMBERS);
}
