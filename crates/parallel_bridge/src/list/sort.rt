//! Sorts.
ghost use Rattle.std.specs.Prelude.{◌<◌, OnOk};
ghost use Rattle.std.specs.List.Sorted.{IsPermutation, IsSortedByClosure, IsStableByClosure};
ghost use Rattle.parallel_fault.specs.Trouble.{IsMemoryOnErr};

use crate::room::keep_pages;
use parallel_fault::Fault;
use parallel_row::{Even, parts_in_row};
use std::alloc::Global;
use std::cmp::Ordering;
use std::mem::size_of_val;
use std::num::NonZeroUsize;
use std::thread::Threads;

// A part of fewer items isn't worth a thread.
const PART: usize = 8192;

/// Sorts the items by an order: parts of at least 8192 items side by side where there are threads
/// to share, then parts of twice as many, and so on, each by std's sort, and at last the whole on
/// the caller's thread; items that tie keep their order. The caller's thread is one of the threads,
/// so that at most `threads - 1` others run at a time.
///
/// # Errors
///
/// `Fault::Memory` if a sort's buffer can't be allocated; the items are then a permutation of what
/// they were.
pub fn sort_parallel<Rt: Threads + Sync, T: Send, C: Fn(&T, &T) -> Ordering + Send + Sync>(
    rt: &Rt,
    alloc: Global,
    threads: NonZeroUsize,
    items: &mut [T],
    compare: &C,
) -> Result<(), Fault>
    requires { C.IsAlwaysCallable compare.now }
    ensures permutation { IsPermutation items.old items.new }
    ensures sorted { OnOk result (IsSortedByClosure C.FnMut compare.now items.new) }
    ensures stable { IsStableByClosure C.FnMut compare.now items.old items.new }
    ensures fault { IsMemoryOnErr result }
{
    let by_reference = move |x: &T, y: &T| -> Ordering
        requires { C.IsAlwaysCallable compare.now }
        ensures { C.step compare.entry.now x.entry y.entry result compare.entry.now }
    { compare(x, y) };
    let parts = threads.get().min(items.len() / PART);
    if parts > 1 {
        keep_pages(alloc, size_of_val(&*items));
    }
    sort_rounds(rt, alloc, parts, items, by_reference)
}

// Parts of one size side by side, then of twice as many items, of which each has two sorted runs,
// and at last the whole.
fn sort_rounds<Rt: Threads + Sync, T: Send, C: FnMut(&T, &T) -> Ordering + Copy + Send + Sync>(
    rt: &Rt,
    alloc: Global,
    parts: usize,
    items: &mut [T],
    compare: C,
) -> Result<(), Fault>
    requires { C.IsAlwaysCallable compare }
    ensures permutation { IsPermutation items.old items.new }
    ensures sorted { OnOk result (IsSortedByClosure C.FnMut compare items.new) }
    ensures stable { IsStableByClosure C.FnMut compare items.old items.new }
    ensures fault { IsMemoryOnErr result }
{
    let len = items.len();
    let mut size = (len / parts.max(1)).max(1);
    while size <= len / 2 {
        sort_parts(rt, alloc, size, items, compare);
        size *= 2;
    }
    items.sort_by(alloc, compare)?;
    Ok(())
}

// The parts of that size, by a thread for each that is whole. One whose sort finds no memory is
// left to the sort of more.
fn sort_parts<Rt: Threads + Sync, T: Send, C: FnMut(&T, &T) -> Ordering + Copy + Send + Sync>(
    rt: &Rt,
    alloc: Global,
    size: usize,
    items: &mut [T],
    compare: C,
)
    requires size { 0 < size }
    requires accepts { C.IsAlwaysCallable compare }
    ensures permutation { IsPermutation items.old items.new }
    ensures stable { IsStableByClosure C.FnMut compare items.old items.new }
{
    let sort = move |_start: usize, part: &mut [T]|
        requires { C.IsAlwaysCallable compare }
        ensures permutation { IsPermutation part.entry.now part.exit.now }
        ensures stable { IsStableByClosure C.FnMut compare part.entry.now part.exit.now }
    { sort_part(alloc, part, compare) };
    let len = items.len();
    let count = len.div_ceil(size);
    parts_in_row(rt, len / size, &Even { size, len }, count, items, &sort);
}

// One of them.
fn sort_part<T, C: FnMut(&T, &T) -> Ordering + Copy>(alloc: Global, part: &mut [T], compare: C)
    requires { C.IsAlwaysCallable compare }
    ensures permutation { IsPermutation part.old part.new }
    ensures stable { IsStableByClosure C.FnMut compare part.old part.new }
{
    let _whether_it_sorted = part.sort_by(alloc, compare);
}
