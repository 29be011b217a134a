//! The parts of a list that is cut, its items, or its chunks of one size, each changed where it
//! lies, in threads that one thread starts one after another.
//!
//! A thread that was just started may have to share a processor with the one that started it. So
//! whoever has threads to share starts all others before it works itself: `join_mut` is given a
//! part for a new thread, and all the others beside it.
ghost use Rattle.std.specs.Prelude.{◌≡◌, ◌≢◌, ◌≤◌, ◌<◌, ◌+◌, ◌-◌, ◌^◌, ℕ, length};
ghost use Rattle.std.specs.Fork.{AcceptsAt, AcceptsChunksMut, AcceptsEach, ChangesAt, ChangesChunks, ChangesEach};
ghost use Rattle.std.specs.Int.NonZero.{non_zero_usize_get};
ghost use Rattle.std.specs.Thread.{IsSend, IsSync};
ghost use Rattle.parallel_row.specs.Cut.{AcceptsCut, AcceptsFrom, ChangesCut, ChangesFrom, Rises, part_of_cut};

use crate::cuts::{Cuts, Even};
use std::num::NonZeroUsize;
use std::thread::{Threads, join_mut};

/// One thread starts fewer than that many others, since each start takes some of its stack.
pub const ROW: usize = 64;

/// Calls `op` with each item and its index. The items are split into at most `threads` parts, of
/// which the caller's thread has one.
pub fn each_item<Rt: Threads + Sync, T: Send, F: Fn(usize, &mut T) + Sync>(
    rt: &Rt,
    threads: NonZeroUsize,
    items: &mut [T],
    op: &F,
)
    requires { AcceptsEach F.Fn op.now items.old }
    ensures { ChangesEach F.Fn op.now items.old items.new }
{
    let part = move |from: usize, part: &mut [T]|
        requires room { from + length part.now < 2 ^ 64 }
        requires accepts { AcceptsFrom F.Fn op.now from part.now }
        ensures { ChangesFrom F.Fn op.entry.now from part.entry.now part.exit.now }
    { items_from(op, from, part) };
    let len = items.len();
    let size = len.div_ceil(threads.get()).max(1);
    let count = len.div_ceil(size);
    parts_in_row(rt, threads.get(), &Even { size, len }, count, items, &part);
}

/// Calls `op` with each chunk of `size` items, the last one maybe shorter, and the index at which
/// it begins. The chunks are split among at most `threads` threads, of which the caller's is one.
pub fn each_chunk<Rt: Threads + Sync, T: Send, F: Fn(usize, &mut [T]) + Sync>(
    rt: &Rt,
    threads: NonZeroUsize,
    size: NonZeroUsize,
    items: &mut [T],
    op: &F,
)
    requires { AcceptsChunksMut F.Fn op.now (non_zero_usize_get size) items.old }
    ensures { ChangesChunks F.Fn op.now (non_zero_usize_get size) items.old items.new }
{
    let size = size.get();
    let len = items.len();
    let count = len.div_ceil(size);
    parts_in_row(rt, threads.get(), &Even { size, len }, count, items, op);
}

/// Calls `op` with each item and its index, one after another.
pub fn each_item_in_turn<T, F: Fn(usize, &mut T)>(items: &mut [T], op: &F)
    requires { AcceptsEach F.Fn op.now items.old }
    ensures { ChangesEach F.Fn op.now items.old items.new }
{
    items_from(op, 0, items);
}

/// Calls `op` with each chunk of `size` items and the index at which it begins, one after another.
pub fn each_chunk_in_turn<T, F: Fn(usize, &mut [T])>(size: NonZeroUsize, items: &mut [T], op: &F)
    requires { AcceptsChunksMut F.Fn op.now (non_zero_usize_get size) items.old }
    ensures { ChangesChunks F.Fn op.now (non_zero_usize_get size) items.old items.new }
{
    let size = size.get();
    let len = items.len();
    parts_in_turn(&Even { size, len }, len.div_ceil(size), items, op);
}

/// Calls `op` with each of the first `count` parts, which the items are, and the index at which it
/// begins: side by side on at most `threads` threads, of which the caller's is one, and on no more
/// than there are parts.
///
/// The caller starts the others one after another, at most 63, before it does the last parts
/// itself; none of them starts another. Of more than 64 threads it starts some that have several
/// each to share, up to a 64th of them, rounded up, and start those in turn. Each thread gets as
/// many parts as the others, or one more.
pub fn parts_in_row<Rt: Threads + Sync, T: Send, C: Cuts, F: Fn(usize, &mut [T]) + Sync>(
    rt: &Rt,
    threads: usize,
    cuts: &C,
    count: usize,
    items: &mut [T],
    op: &F,
)
    requires { AcceptsCut F.Fn op.now (C.place cuts.now) 0 count items.old }
    ensures { ChangesCut F.Fn op.now (C.place cuts.now) 0 count items.old items.new }
{
    in_groups(rt, op, cuts, 0, count, threads.min(count), items);
}

/// The same on the caller's thread, one part after another.
pub fn parts_in_turn<T, C: Cuts, F: Fn(usize, &mut [T])>(
    cuts: &C,
    count: usize,
    items: &mut [T],
    op: &F,
)
    requires { AcceptsCut F.Fn op.now (C.place cuts.now) 0 count items.old }
    ensures { ChangesCut F.Fn op.now (C.place cuts.now) 0 count items.old items.new }
{
    in_turn(op, cuts, 0, count, items);
}

// The parts from `begin` below `end`, which the items are, by that many threads.
#[cycle(groups)]
fn in_groups<Rt: Threads + Sync, T: Send, C: Cuts, F: Fn(usize, &mut [T]) + Sync>(
    rt: &Rt,
    op: &F,
    cuts: &C,
    begin: usize,
    end: usize,
    threads: usize,
    items: &mut [T],
)
    requires { AcceptsCut F.Fn op.now (C.place cuts.now) begin end items.old }
    ensures { ChangesCut F.Fn op.now (C.place cuts.now) begin end items.old items.new }
{
    if threads <= ROW {
        in_row(rt, op, cuts, begin, end, threads, items);
        return;
    }
    by_groups(
        rt,
        op,
        cuts,
        begin,
        end,
        threads.div_ceil(ROW),
        threads,
        items,
    );
}

// The same, where each new thread has `grain` of them to share.
#[cycle(groups)]
fn by_groups<Rt: Threads + Sync, T: Send, C: Cuts, F: Fn(usize, &mut [T]) + Sync>(
    rt: &Rt,
    op: &F,
    cuts: &C,
    begin: usize,
    end: usize,
    grain: usize,
    threads: usize,
    items: &mut [T],
)
    requires grain { 0 < grain }
    requires accepts { AcceptsCut F.Fn op.now (C.place cuts.now) begin end items.old }
    ensures { ChangesCut F.Fn op.now (C.place cuts.now) begin end items.old items.new }
{
    if threads <= grain {
        in_groups(rt, op, cuts, begin, end, threads, items);
        return;
    }
    let middle = middle_of(begin, end, grain, threads);
    let len = length_between(cuts, begin, middle);
    let (first, rest) = items.split_at_mut(len);
    group_beside(
        rt,
        op,
        cuts,
        begin,
        grain,
        first,
        middle,
        end,
        threads - grain,
        rest,
    );
}

// A group of `grain` threads in a new thread, beside the other groups.
#[cycle(groups)]
fn group_beside<Rt: Threads + Sync, T: Send, C: Cuts, F: Fn(usize, &mut [T]) + Sync>(
    rt: &Rt,
    op: &F,
    cuts: &C,
    begin: usize,
    grain: usize,
    first: &mut [T],
    middle: usize,
    end: usize,
    others: usize,
    rest: &mut [T],
)
    requires threads { (0 < grain) × (0 < others) }
    requires first { AcceptsCut F.Fn op.now (C.place cuts.now) begin middle first.old }
    requires rest { AcceptsCut F.Fn op.now (C.place cuts.now) middle end rest.old }
    ensures first { ChangesCut F.Fn op.now (C.place cuts.now) begin middle first.old first.new }
    ensures rest { ChangesCut F.Fn op.now (C.place cuts.now) middle end rest.old rest.new }
{
    let mut one = move ||
        requires { IsSync Rt.row × IsSync F.row × IsSync C.row × IsSend T.row
            × AcceptsCut F.Fn op.now (C.place cuts.now) begin middle first.now }
        ensures { ChangesCut F.Fn op.entry.now (C.place cuts.entry.now) begin middle
            first.entry.now first.exit.now }
    { in_groups(rt, op, cuts, begin, middle, grain, first) };
    let mut more = move ||
        requires { IsSync Rt.row × IsSync F.row × IsSync C.row × IsSend T.row × (0 < grain)
            × AcceptsCut F.Fn op.now (C.place cuts.now) middle end rest.now }
        ensures { ChangesCut F.Fn op.entry.now (C.place cuts.entry.now) middle end
            rest.entry.now rest.exit.now }
    { by_groups(rt, op, cuts, middle, end, grain, others, rest) };
    join_mut(rt, &mut one, &mut more);
}

// The same by at most `ROW` threads, each new one of which gets the parts of one.
#[cycle(row)]
fn in_row<Rt: Threads + Sync, T: Send, C: Cuts, F: Fn(usize, &mut [T]) + Sync>(
    rt: &Rt,
    op: &F,
    cuts: &C,
    begin: usize,
    end: usize,
    threads: usize,
    items: &mut [T],
)
    requires { AcceptsCut F.Fn op.now (C.place cuts.now) begin end items.old }
    ensures { ChangesCut F.Fn op.now (C.place cuts.now) begin end items.old items.new }
{
    if threads < 2 {
        in_turn(op, cuts, begin, end, items);
        return;
    }
    let middle = middle_of(begin, end, 1, threads);
    let len = length_between(cuts, begin, middle);
    let (first, rest) = items.split_at_mut(len);
    one_beside(rt, op, cuts, begin, first, middle, end, threads - 1, rest);
}

// The parts of a thread in a new one, which can't start another, beside those of the other threads.
#[cycle(row)]
fn one_beside<Rt: Threads + Sync, T: Send, C: Cuts, F: Fn(usize, &mut [T]) + Sync>(
    rt: &Rt,
    op: &F,
    cuts: &C,
    begin: usize,
    first: &mut [T],
    middle: usize,
    end: usize,
    others: usize,
    rest: &mut [T],
)
    requires first { AcceptsCut F.Fn op.now (C.place cuts.now) begin middle first.old }
    requires rest { AcceptsCut F.Fn op.now (C.place cuts.now) middle end rest.old }
    ensures first { ChangesCut F.Fn op.now (C.place cuts.now) begin middle first.old first.new }
    ensures rest { ChangesCut F.Fn op.now (C.place cuts.now) middle end rest.old rest.new }
{
    let mut one = move ||
        requires { IsSync F.row × IsSync C.row × IsSend T.row
            × AcceptsCut F.Fn op.now (C.place cuts.now) begin middle first.now }
        ensures { ChangesCut F.Fn op.entry.now (C.place cuts.entry.now) begin middle
            first.entry.now first.exit.now }
    { in_turn(op, cuts, begin, middle, first) };
    let mut more = move ||
        requires { IsSync Rt.row × IsSync F.row × IsSync C.row × IsSend T.row
            × AcceptsCut F.Fn op.now (C.place cuts.now) middle end rest.now }
        ensures { ChangesCut F.Fn op.entry.now (C.place cuts.entry.now) middle end
            rest.entry.now rest.exit.now }
    { in_row(rt, op, cuts, middle, end, others, rest) };
    join_mut(rt, &mut one, &mut more);
}

// Where the parts of `share` threads end, which are the first of that many.
fn middle_of(begin: usize, end: usize, share: usize, threads: usize) -> usize
    requires bounds { begin ≤ end }
    requires threads { 0 < threads }
    ensures from { begin ≤ result }
    ensures below { result ≤ end }
{
    let count = end - begin;
    let whole = (count / threads).saturating_mul(share);
    let more = (count % threads).saturating_mul(share) / threads;
    begin + whole.saturating_add(more).min(count)
}

// The parts from `begin` below `end`, which the items are, one after another.
fn in_turn<T, C: Cuts, F: Fn(usize, &mut [T])>(
    op: &F,
    cuts: &C,
    begin: usize,
    end: usize,
    items: &mut [T],
)
    requires { AcceptsCut F.Fn op.now (C.place cuts.now) begin end items.old }
    ensures { ChangesCut F.Fn op.now (C.place cuts.now) begin end items.old items.new }
{
    for number in begin..end {
        at_part(op, cuts, begin, number, items);
    }
}

// The part of that number, of items that begin with part `begin`.
fn at_part<T, C: Cuts, F: Fn(usize, &mut [T])>(
    op: &F,
    cuts: &C,
    begin: usize,
    number: usize,
    items: &mut [T],
)
    requires rises { Rises (C.place cuts.now) }
    requires from { begin ≤ number }
    requires inside { C.place cuts.now (number + 1) ≤ C.place cuts.now begin + length items.old }
    requires room { number + 1 < 2 ^ 64 }
    requires accepts { AcceptsAt F.Fn op.now (C.place cuts.now number)
        (part_of_cut (C.place cuts.now) begin number items.old) }
    ensures len { length items.new ≡ length items.old }
    ensures here { ChangesAt F.Fn op.now (C.place cuts.now number)
        (part_of_cut (C.place cuts.now) begin number items.old)
        (part_of_cut (C.place cuts.now) begin number items.new) }
    ensures others { (m : ℕ) → begin ≤ m → m ≢ number
        → part_of_cut (C.place cuts.now) begin m items.new
        ≡ part_of_cut (C.place cuts.now) begin m items.old }
{
    let before = length_between(cuts, begin, number);
    let (_, rest) = items.split_at_mut(before);
    let len = length_between(cuts, number, number + 1);
    let (part, _) = rest.split_at_mut(len);
    op(cuts.place(number), part);
}

// How many items the parts from `begin` below `end` have.
fn length_between<C: Cuts>(cuts: &C, begin: usize, end: usize) -> usize
    requires rises { Rises (C.place cuts.now) }
    requires bounds { begin ≤ end }
    ensures { result ≡ C.place cuts.now end - C.place cuts.now begin }
{
    cuts.place(end) - cuts.place(begin)
}

// The items of a list whose first one has that index, one after another.
fn items_from<T, F: Fn(usize, &mut T)>(op: &F, from: usize, items: &mut [T])
    requires room { from + length items.old < 2 ^ 64 }
    requires accepts { AcceptsFrom F.Fn op.now from items.old }
    ensures { ChangesFrom F.Fn op.now from items.old items.new }
{
    for k in 0..items.len() {
        at_item(op, from + k, &mut items[k]);
    }
}

// One item.
fn at_item<T, F: Fn(usize, &mut T)>(op: &F, index: usize, item: &mut T)
    requires { AcceptsAt F.Fn op.now index item.old }
    ensures { ChangesAt F.Fn op.now index item.old item.new }
{
    op(index, item);
}
