//! The scans of random lists through each strategy, against plain loops, and that chunks are
//! scanned side by side.
use crate::checks::{Host, calls_of, row};
use crate::random::Random;
use commonware_parallel::mocks::{Explorer, Rule};
use commonware_parallel::{Copies, Fault, Sequential, Site, Strategy};
use parallel_calls::On;
use std::alloc::Global;
use std::sync::Wait;
use std::sync::atomic::{AtomicBool, AtomicU64, Ordering};
use std::test::Fail;
use std::thread::{Threads, yield_now};
use test_strategies::pool;

// What a number is multiplied by, and what is added then.
#[derive(Clone, Copy, Debug, PartialEq, Eq)]
struct Line {
    slope: u64,
    offset: u64,
}

const START: Line = Line {
    slope: 3,
    offset: 1,
};

// First the one and then the other: it matters which is first, and not where brackets stand.
fn then(first: Line, second: Line) -> Line {
    Line {
        slope: first.slope.wrapping_mul(second.slope),
        offset: first
            .offset
            .wrapping_mul(second.slope)
            .wrapping_add(second.offset),
    }
}

// A line for each number.
fn lines_of<Rt: Host>(rt: &Rt, alloc: Global, numbers: &[u64]) -> Vec<Line> {
    let lines = numbers.iter().map(|number: &u64| Line {
        slope: number.wrapping_add(2),
        offset: *number,
    });
    lines.collect::<Vec<Line>>(alloc).expect(rt, "memory")
}

// The inclusive scan from the left, in a plain loop.
fn inclusive_of<Rt: Host>(rt: &Rt, alloc: Global, lines: &[Line]) -> Vec<Line> {
    let mut so_far = None;
    let mut expected = Vec::new(alloc);
    for line in lines {
        let next = match so_far {
            Some(before) => then(before, *line),
            None => *line,
        };
        expected.push(next).expect(rt, "memory");
        so_far = Some(next);
    }
    expected
}

// The exclusive one.
fn exclusive_of<Rt: Host>(rt: &Rt, alloc: Global, lines: &[Line]) -> Vec<Line> {
    let mut so_far = START;
    let mut expected = Vec::new(alloc);
    for line in lines {
        expected.push(so_far).expect(rt, "memory");
        so_far = then(so_far, *line);
    }
    expected
}

// Stops the test where a scan differs from its loop, over a source or in place.
fn scans<Rt: Host, S: Strategy>(on: &On<'_, Rt, S, Site>, numbers: &[u64]) {
    let rt = on.rt;
    let mut through = lines_of(rt, on.alloc, numbers);
    let mut before = lines_of(rt, on.alloc, numbers);
    let ends = inclusive_of(rt, on.alloc, through.as_slice());
    let starts = exclusive_of(rt, on.alloc, before.as_slice());
    let lines = Copies {
        slice: through.as_slice(),
    };
    let found = on.inclusive_scan(lines, then).expect(rt, "memory");
    let of = ("inclusive", numbers);
    row(on, of, found.as_slice(), ends.as_slice());
    let found = on.exclusive_scan(lines, START, then).expect(rt, "memory");
    let of = ("exclusive", numbers);
    row(on, of, found.as_slice(), starts.as_slice());
    let made = on.inclusive_scan_in_place(&mut through, then);
    row(on, ("in place", numbers), (made, through), (Ok(()), ends));
    let made = on.exclusive_scan_in_place(&mut before, START, then);
    let of = ("exclusive, in place", numbers);
    row(on, of, (made, before), (Ok(()), starts));
}

// The same for lists of each length below 20, and for 1,000 random lists.
fn agree<Rt: Host, S: Strategy>(rt: &Rt, alloc: Global, strategy: &S) {
    let on = calls_of(rt, alloc, strategy);
    let mut random = Random::new(88172645463325252);
    let mut numbers = Vec::new(alloc);
    for _ in 0..20 {
        scans(&on, numbers.as_slice());
        numbers.push(random.below(50)).expect(rt, "memory");
    }
    for _ in 0..1000 {
        let numbers = random.list(alloc, 40, 50).expect(rt, "memory");
        scans(&on, numbers.as_slice());
    }
}

#[test]
fn serial_scans_agree_with_loops(rt: HostRuntime) {
    agree(&rt, rt.alloc(), &Sequential);
}

#[test]
fn an_explorers_scans_agree_with_loops(rt: HostRuntime) {
    let strategy = pool(&rt, rt.alloc(), 4, 4).expect(&rt, "a pool");
    let explorer = Explorer::by_rule(&strategy, Rule::Seeded(1)).expect(&rt, "an explorer");
    agree(&rt, rt.alloc(), &explorer);
}

#[test]
fn scans_on_one_thread_agree_with_loops(rt: HostRuntime) {
    let strategy = pool(&rt, rt.alloc(), 1, 1).expect(&rt, "a pool");
    agree(&rt, rt.alloc(), &strategy);
}

#[test]
fn scans_on_two_threads_agree_with_loops(rt: HostRuntime) {
    let strategy = pool(&rt, rt.alloc(), 2, 2).expect(&rt, "a pool");
    agree(&rt, rt.alloc(), &strategy);
}

#[test]
fn scans_on_four_threads_agree_with_loops(rt: HostRuntime) {
    let strategy = pool(&rt, rt.alloc(), 4, 4).expect(&rt, "a pool");
    agree(&rt, rt.alloc(), &strategy);
}

// Says that one of two came, and waits for the other one, or for a bounded time.
fn meet(own: &AtomicBool, other: &AtomicBool) -> bool {
    own.store(true, Ordering::SeqCst);
    for _ in 0..1_000_000u32 {
        if other.load(Ordering::SeqCst) {
            return true;
        }
        yield_now();
    }
    false
}

// How many of the first steps in two chunks of two items met the other one: four, two in the pass
// that puts the items of each chunk together, and two in the one that scans each chunk.
fn met<Rt: Threads + Wait + Sync, S: Strategy>(on: &On<'_, Rt, S, Site>) -> Result<u64, Fault> {
    let totals = [AtomicBool::new(false), AtomicBool::new(false)];
    let scans = [AtomicBool::new(false), AtomicBool::new(false)];
    let meetings = AtomicU64::new(0);
    let comes = |own: &AtomicBool, other: &AtomicBool| {
        if meet(own, other) {
            meetings.fetch_add(1, Ordering::SeqCst);
        }
    };
    let add = |left: u64, right: u64| -> u64 {
        match (left, right) {
            (1, 2) => comes(&totals[0], &totals[1]),
            (4, 8) => comes(&totals[1], &totals[0]),
            (16, 1) => comes(&scans[0], &scans[1]),
            (19, 4) => comes(&scans[1], &scans[0]),
            _ => {}
        }
        left.wrapping_add(right)
    };
    let mut numbers = Vec::new(on.alloc);
    numbers.extend_from_slice(&[1, 2, 4, 8])?;
    on.exclusive_scan_in_place(&mut numbers, 16, add)?;
    if numbers.as_slice() != [16, 17, 19, 23].as_slice() {
        return Ok(0);
    }
    Ok(meetings.load(Ordering::SeqCst))
}

#[test]
fn two_chunks_meet(rt: HostRuntime) {
    let strategy = pool(&rt, rt.alloc(), 2, 2).expect(&rt, "a pool");
    let on = calls_of(&rt, rt.alloc(), &strategy);
    row(&on, ("meetings", &[]), met(&on), Ok(4));
}
