//! Calls whose closures fail: by which error, in each of many runs.
use crate::checks::{Of, row};
use crate::lists::{add, square_or_fail, ten, zero};
use commonware_parallel::{Sequential, Strategy, Trouble};
use std::alloc::Global;
use std::process::Abort;
use std::sync::Wait;
use std::sync::atomic::{AtomicU32, Ordering};
use std::thread::Threads;
use test_strategies::{SITE, Stopped, learning, pool};
use test_support::{holds, same};

// Which of the numbers below 100 fail: one, and those from a further one on; and the first of them.
type Failing = (u32, u32, u32);

// Two that fail, each, and many.
const FAILING: [Failing; 3] = [(57, 99, 57), (0, 0, 0), (25, 25, 25)];

// In how many of a thousand runs a map returned another error than the first one. (A test that
// makes many more might not end in its time where the machine does much else.)
fn other_errors<Rt: Threads + Wait + Sync, S: Strategy>(
    rt: &Rt,
    alloc: Global,
    strategy: &S,
    (one, from, first): Failing,
) -> u32 {
    let map_op = |number: u32| {
        if number == one || number >= from {
            Err(number)
        } else {
            Ok(number)
        }
    };
    let mut others = 0u32;
    for _ in 0..1000u32 {
        let mapped = strategy.try_map_collect_vec(rt, alloc, SITE, 0..100u32, map_op);
        if mapped.err() != Some(Trouble::Closure(first)) {
            others = others.wrapping_add(1);
        }
    }
    others
}

#[test]
fn the_first_error_is_returned_in_each_of_a_thousand_runs(rt: HostRuntime) {
    let fixed = pool(&rt, rt.alloc(), 4, 4).expect(&rt, "a pool");
    let learned = learning(&rt, rt.alloc(), 4, Stopped).expect(&rt, "a pool");
    for failing in FAILING {
        let (first, alloc) = (failing.2 as usize, rt.alloc());
        let others = other_errors(&rt, alloc, &fixed, failing);
        row(&rt, ("fallible map", "a pool", first), others, 0);
        let others = other_errors(&rt, alloc, &learned, failing);
        row(&rt, ("fallible map", "a policy", first), others, 0);
    }
}

// Each call returns its own number, and the calls from the one of this number on fail by it; and
// how many there were.
fn map_unsteadily<Rt: Threads + Wait + Sync, S: Strategy>(
    rt: &Rt,
    alloc: Global,
    strategy: &S,
    from: u32,
) -> (Result<Vec<u32>, Trouble<u32>>, u32) {
    let calls = AtomicU32::new(0);
    let mapped = strategy.try_map_collect_vec(rt, alloc, SITE, 0..100u32, |_: u32| {
        let call = calls.fetch_add(1, Ordering::SeqCst);
        if call < from { Ok(call) } else { Err(call) }
    });
    (mapped, calls.load(Ordering::SeqCst))
}

#[test]
fn an_unsteady_closure_fails_by_an_error_of_its_own(rt: HostRuntime) {
    let alloc = rt.alloc();
    let serial = map_unsteadily(&rt, alloc, &Sequential, 50);
    same!(&rt, serial, (Err(Trouble::Closure(50)), 51));
    let four = pool(&rt, alloc, 4, 4).expect(&rt, "a pool");
    let (failed, calls) = map_unsteadily(&rt, alloc, &four, 50);
    let is_own = matches!(failed, Err(Trouble::Closure(call)) if 50 <= call && call < calls);
    holds!(&rt, is_own);
    let (mapped, calls) = map_unsteadily(&rt, alloc, &four, 100);
    let len = mapped.expect(&rt, "no error").len();
    same!(&rt, (len, calls), (100, 100));
}

// Adds an odd number, and fails at an even one.
fn add_odd(sum: u32, number: u32) -> Result<u32, u32> {
    if number % 2 == 0 {
        Err(number)
    } else {
        Ok(sum.wrapping_add(number))
    }
}

// Adds a number, and fails where the sum passes 10.
fn add_to_ten(sum: u32, number: u32) -> Result<u32, u32> {
    let next = sum.wrapping_add(number);
    if next > 10 { Err(number) } else { Ok(next) }
}

// A fold of the odd numbers of 1 to 4, and one of 6 and 7 that fails where a sum passes 10.
fn folds_come<Rt: Threads + Wait + Abort + Sync, S: Strategy>(
    rt: &Rt,
    alloc: Global,
    strategy: &S,
    through: &'static str,
    sum: Result<u32, Trouble<u32>>,
) {
    let odd = strategy.try_fold(rt, alloc, SITE, 1..5u32, ten, add_odd, add);
    let of: Of = ("sum of odd numbers", through, 4);
    row(rt, of, odd, Err(Trouble::Closure(2)));
    let found = strategy.try_fold(rt, alloc, SITE, 6..8u32, zero, add_to_ten, add);
    row(rt, ("sum up to ten", through, 2), found, sum);
    let failed = strategy.try_map_collect_vec(rt, alloc, SITE, 0..100u32, square_or_fail);
    let wanted = Some(Trouble::Closure(57));
    row(rt, ("fallible map", through, 100), failed.err(), wanted);
}

// Each segment begins anew, so that in two of them no sum passes 10.
#[test]
fn a_call_ends_at_its_first_error(rt: HostRuntime) {
    let alloc = rt.alloc();
    let in_one = Err(Trouble::Closure(7));
    folds_come(&rt, alloc, &Sequential, "Sequential", in_one);
    let two = pool(&rt, alloc, 2, 2).expect(&rt, "a pool");
    folds_come(&rt, alloc, &two, "a pool of two", Ok(13));
    let own = Sequential.try_fold(SITE, 6..8u32, zero, add_to_ten, add);
    same!(&rt, own, Err(7));
    let own = Sequential.try_map_collect_vec(alloc, SITE, 0..100u32, square_or_fail);
    same!(&rt, own.err(), Some(Trouble::Closure(57)));
}
