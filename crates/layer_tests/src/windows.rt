//! Owned items that are taken from where they lie, and results that are written where they stay:
//! each is dropped once, or handed out, and a block gives its memory back.
use crate::checks::row;
use linked_list_allocator::LocalHeap;
use parallel_bridge::list::map::map_parallel;
use parallel_bridge::pairs::Pairs;
use parallel_bridge::producer::{DrainProducer, Producer};
use parallel_bridge::source::Source;
use parallel_bridge::window::block::Block;
use std::alloc::Global;
use std::process::Abort;
use std::thread::Threads;
use test_support::counted::{Counted, Counts, counted_items};
use test_support::{holds, number, same};

// The place of an item that is there.
fn place_of(item: Option<&Counted<'_>>) -> Option<usize> {
    match item {
        Some(item) => Some(item.place),
        None => None,
    }
}

// The same of one that was taken, and is dropped.
fn place_taken(item: Option<Counted<'_>>) -> Option<usize> {
    place_of(item.as_ref())
}

/// What is done with a list of counted items.
#[derive(Clone, Copy, Debug, PartialEq, Eq)]
pub(crate) enum Doing {
    /// Each is mapped to another one.
    Map,
    /// So many are taken from the front of a drain, and from its back.
    Drain(usize, usize),
    /// They are split there, and the front goes before the back.
    Split(usize),
    /// A block of them gets one more.
    Push,
    /// A block of them is cut there.
    Cut(usize),
}

// How many threads do it, and over how many items.
type Size = (usize, usize);

/// Does that, and stops the test where a result is wrong or an item isn't dropped once. None where
/// memory is refused.
pub(crate) fn does<R: Threads + Sync + Abort>(
    rt: &R,
    alloc: Global,
    doing: Doing,
    size: Size,
) -> Option<()> {
    let counts = Counts::new();
    let done = match counted_items(alloc, &counts, size.1) {
        Some(items) => does_with(rt, alloc, doing, size, &counts, items),
        None => None,
    };
    row(rt, (doing, size), counts.left(), 0);
    done
}

fn does_with<'a, R: Threads + Sync + Abort>(
    rt: &R,
    alloc: Global,
    doing: Doing,
    (threads, len): Size,
    counts: &'a Counts,
    items: Vec<Counted<'a>>,
) -> Option<()> {
    match doing {
        Doing::Map => map(rt, alloc, threads, counts, items),
        Doing::Drain(front, back) => drain(rt, counts, items, front, back),
        Doing::Split(index) => split(rt, alloc, counts, items, index),
        Doing::Push => {
            let more = len.wrapping_add(1);
            let block = Block::from_vec(items).push(Counted::new(counts, len)).ok()?;
            row(rt, "push", (block.len(), counts.left()), (more, more));
            Some(())
        }
        Doing::Cut(index) => {
            assert!(rt; index <= items.len());
            let (front, back) = Block::from_vec(items).split_off(index).ok()?;
            row(rt, len, (front.len(), counts.left()), (index, len));
            drop((front, back));
            Some(())
        }
    }
}

fn map<'a, R: Threads + Sync + Abort>(
    rt: &R,
    alloc: Global,
    threads: usize,
    counts: &'a Counts,
    items: Vec<Counted<'a>>,
) -> Option<()> {
    let count = items.len();
    let answer = |item: Counted<'_>| Counted::new(counts, item.place);
    let parts = DrainProducer::from_vec(items);
    let answers = map_parallel(rt, alloc, number(threads), parts, &answer).ok()?;
    row(rt, threads, (answers.len(), counts.left()), (count, count));
    for place in 0..count {
        row(rt, threads, place_of(answers.get(place)), Some(place));
    }
    Some(())
}

fn drain<'a>(
    rt: &impl Abort,
    counts: &'a Counts,
    items: Vec<Counted<'a>>,
    front: usize,
    back: usize,
) -> Option<()> {
    let count = items.len();
    let mut drain = DrainProducer::from_vec(items).drain();
    for place in 0..front.min(count) {
        row(rt, "front", place_taken(drain.next()), Some(place));
    }
    let mut end = count;
    for _taken in 0..back.min(drain.len()) {
        end = end.wrapping_sub(1);
        row(rt, "back", place_taken(drain.next_back()), Some(end));
    }
    row(rt, "left", counts.left(), drain.len());
    Some(())
}

fn split<'a>(
    rt: &impl Abort,
    alloc: Global,
    counts: &'a Counts,
    items: Vec<Counted<'a>>,
    index: usize,
) -> Option<()> {
    let parts = DrainProducer::from_vec(items);
    let len = parts.len();
    if index <= len {
        let (front, back) = parts.split_at(alloc, index).ok()?;
        row(rt, "front", front.len(), index);
        drop(front);
        let left = len.wrapping_sub(index);
        row(rt, "back", (back.len(), counts.left()), (left, left));
    }
    Some(())
}

#[test]
fn a_drain_or_a_part_that_is_let_go_drops_what_is_left(rt: HostRuntime) {
    for (len, first, second) in [(0, 0, 0), (1, 1, 0), (5, 0, 2), (5, 2, 3), (1000, 300, 1)] {
        for doing in [
            Doing::Drain(first, second),
            Doing::Split(first),
            Doing::Push,
            Doing::Cut(first),
        ] {
            let done = does(&rt, rt.alloc(), doing, (1, len));
            row(&rt, (doing, len), done, Some(()));
        }
    }
}

#[test]
fn each_item_and_each_answer_of_a_map_is_dropped_once(rt: HostRuntime) {
    for threads in 1..9 {
        for len in [0, 1, 2, 5, 1000] {
            let done = does(&rt, rt.alloc(), Doing::Map, (threads, len));
            row(&rt, (threads, len), done, Some(()));
        }
    }
}

#[test]
fn pairs_come_serially_too_and_say_how_many_are_left(rt: HostRuntime) {
    let alloc = rt.alloc();
    let items = vec![in alloc; 1u8, 2, 3, 4, 5].expect(&rt, "memory");
    let (pairs, odd) = Pairs::new(items);
    same!(&rt, odd, Some(5));
    let mut drain = Source::into_items(pairs);
    for (pair, left) in [(Some((1, 2)), 1), (Some((3, 4)), 0), (None, 0), (None, 0)] {
        row(&rt, left, drain.next(), pair);
        row(&rt, pair, drain.size_hint(), (left, Some(left)));
    }
}

#[test]
fn a_dropped_block_gives_its_memory_back(rt: HostRuntime) {
    let heap = LocalHeap::new(rt.alloc(), 65_536).expect(&rt, "memory for a heap");
    for (len, room, pushes, least) in [(3, 3, false, 24), (3, 3, true, 32), (0, 100, false, 800)] {
        let mut items = Vec::<u64, _>::with_capacity(&heap, room).expect(&rt, "memory");
        items.resize(len, 1).expect(&rt, "it has room");
        let mut block = Block::from_vec(items);
        if pushes {
            block = block.push(4).expect(&rt, "memory");
        }
        row(&rt, (len, pushes), heap.used() >= least, true);
        drop(block);
        row(&rt, ("bytes in use", len, pushes), heap.used(), 0);
    }
    let inner = Vec::from_slice(&heap, &[4u64; 100]).expect(&rt, "memory");
    let block = Block::from_vec(Vec::new(&heap)).push(inner);
    let block = block.expect(&rt, "memory");
    holds!(&rt, heap.used() >= 800);
    drop(block);
    row(&rt, "with an item's own memory", heap.used(), 0);
}
