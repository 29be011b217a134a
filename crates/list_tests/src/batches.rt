//! Batches: in which ranges their indices go, and what becomes of a list that is lent to one; and
//! lists that are changed where they lie.
use crate::checks::{Of, lists, row};
use commonware_parallel::{Batches, Fault, Sequential, Site, Strategy, Trouble};
use std::alloc::Global;
use std::num::NonZeroUsize;
use std::ops::Range;
use std::process::Abort;
use std::sync::Wait;
use std::sync::atomic::{AtomicU64, Ordering};
use std::thread::Threads;
use test_strategies::{SITE, pool};
use test_support::{holds, number, same};

// ---- ranges

/// The ranges that the strategy runs a batch over.
pub fn batch_ranges<Rt: Wait, S: Strategy>(
    rt: &Rt,
    alloc: Global,
    strategy: &S,
    site: Site,
    len: usize,
    minimum: NonZeroUsize,
) -> Result<Vec<Range<usize>>, Fault> {
    let list = |batches: Batches<'_, S, Site>| batches.ranges().to_vec(alloc);
    let ranges = strategy.run_batches(rt, alloc, site, len, minimum, 1, list)?;
    Ok(ranges?)
}

#[test]
fn a_batch_has_as_many_ranges_as_are_planned(rt: HostRuntime) {
    let alloc = rt.alloc();
    let four = pool(&rt, alloc, 1, 4).expect(&rt, "a pool");
    for (len, minimum, wanted) in [
        (16, 1, [0..4, 4..8, 8..12, 12..16].as_slice()),
        (16, 5, [0..6, 6..11, 11..16].as_slice()),
        (16, 9, [0..16].as_slice()),
        (0, 1, [0..0].as_slice()),
    ] {
        let ranges = batch_ranges(&rt, alloc, &four, SITE, len, number(minimum));
        let of: Of = ("ranges of a minimum", "a pool", minimum);
        lists(&rt, of, ranges, wanted);
    }
    let ranges = batch_ranges(&rt, alloc, &Sequential, SITE, 16, NonZeroUsize::MIN);
    lists(&rt, ("ranges", "Sequential", 16), ranges, &[0..16]);
}

#[test]
fn a_batch_has_no_range_below_the_minimum(rt: HostRuntime) {
    let eight = pool(&rt, rt.alloc(), 1, 8).expect(&rt, "a pool");
    for (len, minimum, count) in [
        (2, 1, 2),
        (7, 1, 7),
        (8, 1, 8),
        (9, 1, 8),
        (17, 1, 8),
        (15, 7, 2),
        (16, 8, 2),
        (17, 8, 2),
        (usize::MAX, 1, 8),
        (usize::MAX, usize::MAX / 2, 2),
    ] {
        let ranges = batch_ranges(&rt, rt.alloc(), &eight, SITE, len, number(minimum));
        let ranges = ranges.expect(&rt, "memory");
        row(&rt, ("how many ranges", "a pool", len), ranges.len(), count);
    }
}

#[test]
fn more_ranges_than_memory_are_refused(rt: HostRuntime) {
    let alloc = rt.alloc();
    let refused = Batches::balanced(alloc, &Sequential, SITE, 7, NonZeroUsize::MAX);
    holds!(&rt, matches!(refused, Err(Fault::Memory)));
    let endless = pool(&rt, alloc, 1, usize::MAX).expect(&rt, "a pool");
    let refused = batch_ranges(&rt, alloc, &endless, SITE, usize::MAX, NonZeroUsize::MIN);
    holds!(&rt, matches!(refused, Err(Fault::Memory)));
}

// ---- closures

fn unprepared(_ranges: &[Range<usize>]) -> Result<Vec<u32>, Fault> {
    Err(Fault::Worker)
}

#[test]
fn what_is_not_prepared_is_not_mapped(rt: HostRuntime) {
    let alloc = rt.alloc();
    let strategy = pool(&rt, alloc, 2, 4).expect(&rt, "a pool");
    let calls = AtomicU64::new(0);
    let map_op = |_: u32| -> Result<u64, u32> { Ok(calls.fetch_add(1, Ordering::SeqCst)) };
    let four = number(4);
    let batch = Batches::balanced(alloc, &strategy, SITE, 10, four).expect(&rt, "memory");
    let refused = batch.map_collect_vec(&rt, alloc, unprepared, map_op);
    same!(&rt, refused.err(), Some(Fault::Worker));
    let batch = Batches::whole(alloc, &strategy, SITE, 10).expect(&rt, "memory");
    let refused = batch.try_map_collect_vec(&rt, alloc, unprepared, map_op);
    same!(&rt, refused.err(), Some(Trouble::Fault(Fault::Worker)));
    same!(&rt, calls.load(Ordering::SeqCst), 0);
}

// The number of ranges, or the first index of the second range.
fn ranges_or_second<Rt: Wait, S: Strategy>(
    rt: &Rt,
    alloc: Global,
    strategy: &S,
) -> Result<usize, Trouble<usize>> {
    let least = NonZeroUsize::MIN;
    strategy.try_run_batches(
        rt,
        alloc,
        SITE,
        10,
        least,
        1,
        |batches: Batches<'_, S, _>| {
            match batches.ranges().get(1) {
                Some(range) => Err(range.start),
                None => Ok(batches.ranges().len()),
            }
        },
    )
}

#[test]
fn a_batch_returns_its_closures_error(rt: HostRuntime) {
    let alloc = rt.alloc();
    let four = pool(&rt, alloc, 1, 4).expect(&rt, "a pool");
    let second = ranges_or_second(&rt, alloc, &four);
    same!(&rt, second, Err(Trouble::Closure(3)));
    same!(&rt, ranges_or_second(&rt, alloc, &Sequential), Ok(1));
    let whole = Sequential.run_batches(alloc, SITE, 16, number(5), usize::MAX, |batches| {
        (batches.ranges() == [0..16].as_slice(), batches.site())
    });
    let of: Of = ("whole batch", "Sequential's own", 16);
    row(&rt, of, whole, Ok((true, SITE)));
}

// ---- lent lists

/// Adds ten times the part's beginning, and its length, to each of its items.
pub fn mark(start: usize, part: &mut [u64]) {
    let mark = start.wrapping_mul(10).wrapping_add(part.len()) as u64;
    for item in part.iter_mut() {
        *item = item.wrapping_add(mark);
    }
}

// Marks each of that many parts of a list.
fn mark_parts<Rt: Threads + Wait + Abort + Sync, S: Strategy>(
    rt: &Rt,
    alloc: Global,
    strategy: &S,
    numbers: &mut [u64],
    count: usize,
) -> Result<(), Fault> {
    let count = number(count);
    let batches = Batches::balanced(alloc, strategy, SITE, numbers.len(), count)?;
    batches.for_each_mut(rt, alloc, numbers, mark)
}

// Parts of a list, in one part, in some, and in more than there are items.
fn marks_are_right<Rt: Threads + Wait + Abort + Sync, S: Strategy>(
    rt: &Rt,
    alloc: Global,
    strategy: &S,
    through: &'static str,
) {
    for (count, marks) in [
        (3, [].as_slice()),
        (5, [1, 11].as_slice()),
        (1, [3, 3, 3].as_slice()),
        (3, [3, 3, 3, 32, 32, 52, 52].as_slice()),
    ] {
        let mut numbers = Vec::from_slice(alloc, marks).expect(rt, "memory");
        numbers.fill(0);
        let of: Of = ("change by parts", through, count);
        let changed = mark_parts(rt, alloc, strategy, numbers.as_mut_slice(), count);
        row(rt, of, changed, Ok(()));
        row(rt, of, numbers.as_slice(), marks);
    }
}

#[test]
fn each_part_of_a_lent_list_is_changed_once(rt: HostRuntime) {
    let alloc = rt.alloc();
    marks_are_right(&rt, alloc, &Sequential, "Sequential");
    let three = pool(&rt, alloc, 3, 3).expect(&rt, "a pool");
    marks_are_right(&rt, alloc, &three, "a pool");
}

// Ten times the item, and its index.
fn add_index(index: usize, item: &mut u64) {
    *item = item.wrapping_mul(10).wrapping_add(index as u64);
}

// Lists of no item and of some, in chunks of one item, some, and more than all, and item by item.
fn lists_are_right<Rt: Threads + Wait + Abort + Sync, S: Strategy>(
    rt: &Rt,
    alloc: Global,
    strategy: &S,
    through: &'static str,
) {
    for (size, marks) in [
        (5, [].as_slice()),
        (1, [1, 11, 21].as_slice()),
        (3, [3, 3, 3, 33, 33, 33, 61].as_slice()),
        (usize::MAX, [4, 4, 4, 4].as_slice()),
    ] {
        let mut numbers = Vec::from_slice(alloc, marks).expect(rt, "memory");
        numbers.fill(0);
        let list = numbers.as_mut_slice();
        let changed = strategy.for_each_chunk_mut(rt, alloc, SITE, list, number(size), mark);
        row(rt, ("change by chunks", through, size), changed, Ok(()));
        let of: Of = ("marks by chunks", through, size);
        row(rt, of, numbers.as_slice(), marks);
    }
    let mut numbers = [7, 8, 9];
    let changed = strategy.for_each_mut(rt, alloc, SITE, &mut numbers, add_index);
    row(rt, ("change of items", through, 3), changed, Ok(()));
    let of: Of = ("changed items", through, 3);
    row(rt, of, numbers.as_slice(), &[70, 81, 92]);
}

#[test]
fn a_list_is_changed_where_it_lies(rt: HostRuntime) {
    let alloc = rt.alloc();
    lists_are_right(&rt, alloc, &Sequential, "Sequential");
    let three = pool(&rt, alloc, 3, 3).expect(&rt, "a pool");
    lists_are_right(&rt, alloc, &three, "a pool");
    let mut numbers = [7, 8, 9];
    Sequential.for_each_mut(SITE, &mut numbers, add_index);
    same!(&rt, numbers.as_slice(), [70, 81, 92].as_slice());
    Sequential.for_each_chunk_mut(SITE, &mut numbers, number(2), mark);
    same!(&rt, numbers.as_slice(), [72, 83, 113].as_slice());
}
