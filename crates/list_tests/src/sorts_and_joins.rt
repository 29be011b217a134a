//! Sorts and joins: known values, and which closure of a join comes first.
use crate::checks::{Of, row};
use crate::lists::{ten, zero};
use commonware_parallel::{Fault, Sequential, Strategy};
use std::alloc::Global;
use std::cmp as order;
use std::process::Abort;
use std::sync::Wait;
use std::sync::atomic::{AtomicBool, AtomicU32, Ordering};
use std::thread::{Threads, yield_now};
use test_strategies::{SITE, pool};
use test_support::same;

fn ascending(left: &u32, right: &u32) -> order::Ordering {
    left.cmp(right)
}

fn descending(left: &u32, right: &u32) -> order::Ordering {
    right.cmp(left)
}

// Two sorts and a join.
fn are_known<Rt: Threads + Wait + Abort + Sync, S: Strategy>(
    rt: &Rt,
    alloc: Global,
    strategy: &S,
    through: &'static str,
) {
    let mut numbers = [3, 1, 2, 1];
    let sorted = strategy.sort_by(rt, alloc, SITE, &mut numbers, ascending);
    row(rt, ("sort", through, 4), sorted, Ok(()));
    row(rt, ("sort", through, 4), numbers, [1, 1, 2, 3]);
    let sorted = strategy.sort_unstable_by(rt, alloc, SITE, &mut numbers, descending);
    row(rt, ("unstable sort", through, 4), sorted, Ok(()));
    row(rt, ("unstable sort", through, 4), numbers, [3, 2, 1, 1]);
    let both = strategy.join(rt, alloc, SITE, ten, zero);
    row(rt, ("join", through, 2), both, Ok((10, 0)));
}

#[test]
fn sorts_and_joins_return_known_values(rt: HostRuntime) {
    let alloc = rt.alloc();
    are_known(&rt, alloc, &Sequential, "Sequential");
    let two = pool(&rt, alloc, 2, 3).expect(&rt, "a pool");
    are_known(&rt, alloc, &two, "a pool");
    let mut numbers = [3, 1, 2, 1];
    let sorted = Sequential.sort_by(alloc, SITE, &mut numbers, ascending);
    row(&rt, ("sort", "Sequential's own", 4), sorted, Ok(()));
    row(&rt, ("sort", "Sequential's own", 4), numbers, [1, 1, 2, 3]);
    Sequential.sort_unstable_by(SITE, &mut numbers, descending);
    let of: Of = ("unstable sort", "Sequential's own", 4);
    row(&rt, of, numbers, [3, 2, 1, 1]);
    let both = Sequential.join(SITE, ten, zero);
    same!(&rt, both, (10, 0));
}

// Sets the own flag, and returns whether the other one was seen within three million turns.
fn sees(own: &AtomicBool, other: &AtomicBool) -> bool {
    own.store(true, Ordering::SeqCst);
    for _ in 0..3_000_000u32 {
        if other.load(Ordering::SeqCst) {
            return true;
        }
        yield_now();
    }
    false
}

/// Whether each part of a join saw the other one.
pub fn parts_see<Rt: Threads + Wait + Sync, S: Strategy>(
    rt: &Rt,
    alloc: Global,
    strategy: &S,
) -> Result<(bool, bool), Fault> {
    let (first, second) = (AtomicBool::new(false), AtomicBool::new(false));
    strategy.join(
        rt,
        alloc,
        SITE,
        || sees(&first, &second),
        || sees(&second, &first),
    )
}

// Each closure takes the next number.
#[test]
fn a_serial_join_runs_its_first_closure_first(rt: HostRuntime) {
    let alloc = rt.alloc();
    let calls = AtomicU32::new(0);
    let next = || calls.fetch_add(1, Ordering::SeqCst);
    let order = Strategy::join(&Sequential, &rt, alloc, SITE, next, next);
    row(&rt, ("join", "Sequential", 2), order, Ok((0, 1)));
}
