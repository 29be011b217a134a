//! Consumers and their folders at concrete types.
use crate::checks::row;
use parallel_bridge::bridge::bridge;
use parallel_bridge::consumer::fold::FoldFolder;
use parallel_bridge::consumer::fold_init::FoldInitFolder;
use parallel_bridge::consumer::list_vec::{ListVecConsumer, ListVecFolder};
use parallel_bridge::consumer::map::{MapConsumer, MapFolder};
use parallel_bridge::consumer::map_init::MapWithFolder;
use parallel_bridge::consumer::partition::PartitionConsumer;
use parallel_bridge::consumer::try_fold::TryFoldFolder;
use parallel_bridge::consumer::try_reduce::TryReduceFolder;
use parallel_bridge::consumer::while_some::{WhileSomeConsumer, WhileSomeFolder};
use parallel_bridge::plumbing::Folder;
use parallel_bridge::producer::DrainProducer;
use parallel_fault::Fault;
use std::alloc::Global;
use std::marker::{Brand, PhantomData};
use std::sync::atomic::{AtomicU64, Ordering};
use test_support::{number, same};

// Whether a folder is full at first, after an item that makes no difference, and after a bad one.
fn fullness<X: Drop, R, F: Folder<X, R, u32>>(
    alloc: Global,
    folder: F,
    good: X,
    bad: X,
) -> Result<[bool; 3], Fault>
    requires ready { F.ready folder }
    requires good { F.takes folder good }
    requires bad { F.takes folder bad }
{
    let before = folder.full();
    let folder = folder.consume(alloc, good)?;
    let between = folder.full();
    let folder = folder.consume(alloc, bad)?;
    Ok([before, between, folder.full()])
}

// A folder of numbers up to the first `None`, which was met or not.
fn options(alloc: Global, full: bool) -> WhileSomeFolder<ListVecFolder<u32>> {
    let vec = Vec::new(alloc);
    WhileSomeFolder {
        base: ListVecFolder { vec },
        full,
    }
}

fn add(left: u32, right: u32) -> u32 {
    left.wrapping_add(right)
}

// The sum, where it is below 5.
fn add_checked(sum: u32, item: u32) -> Result<u32, u32> {
    let sum = add(sum, item);
    if sum < 5 { Ok(sum) } else { Err(sum) }
}

// That of a fallible reduction, and of a fold that ends in it.
#[test]
fn a_folder_of_what_may_fail_is_full_after_an_error(rt: HostRuntime) {
    let alloc = rt.alloc();
    let wanted = Ok([false, false, true]);
    let found = fullness::<Option<u32>, _, _>(alloc, options(alloc, false), Some(4), None);
    row(&rt, "options", found, wanted);
    let (control, reduce_op) = (Ok(0), &add);
    let domain: PhantomData<Brand> = PhantomData;
    let base = TryReduceFolder {
        control,
        reduce_op,
        domain,
    };
    let found = fullness(alloc, base, Ok(4), Err(5));
    row(&rt, "reduction", found, wanted);
    let base = TryReduceFolder {
        control,
        reduce_op,
        domain,
    };
    let folder = TryFoldFolder {
        base,
        control,
        fold_op: &add_checked,
        domain,
    };
    row(&rt, "fold", fullness(alloc, folder, 4, 5), wanted);
}

// The number, where it is below 5.
fn small(item: u32) -> Option<u32> {
    if item < 5 { Some(item) } else { None }
}

fn small_with(_state: &mut u8, item: u32) -> Option<u32> {
    small(item)
}

fn last_small(_before: Option<u32>, item: u32) -> Option<u32> {
    small(item)
}

fn last_small_with(_before: Option<u32>, _state: &mut u8, item: u32) -> Option<u32> {
    small(item)
}

#[test]
fn a_folder_of_a_map_is_full_where_its_base_is(rt: HostRuntime) {
    let alloc = rt.alloc();
    let (base, map_op) = (options(alloc, false), &small);
    let folder = MapFolder { base, map_op };
    let full = fullness::<u32, _, _>(alloc, folder, 4, 5);
    row(&rt, "map", full, Ok([false, false, true]));
    let (base, item, map_op) = (options(alloc, false), 0, &small_with);
    let folder = MapWithFolder { base, item, map_op };
    let full = fullness::<u32, _, _>(alloc, folder, 4, 5);
    row(&rt, "map with a state", full, Ok([false, false, true]));
}

#[test]
fn a_folder_of_a_fold_is_full_where_its_base_is(rt: HostRuntime) {
    let alloc = rt.alloc();
    let domain: PhantomData<Brand> = PhantomData;
    for is_full in [false, true] {
        let folder = FoldFolder {
            base: options(alloc, is_full),
            item: None,
            fold_op: &last_small,
            domain,
        };
        let full = fullness::<u32, _, _>(alloc, folder, 4, 5);
        row(&rt, "fold", full, Ok([is_full; 3]));
        let folder = FoldInitFolder {
            base: options(alloc, is_full),
            state: 0,
            item: None,
            fold_op: &last_small_with,
            domain,
        };
        let full = fullness::<u32, _, _>(alloc, folder, 4, 5);
        row(&rt, "fold with a state", full, Ok([is_full; 3]));
    }
}

// Each segment keeps what stands before its first `None`. For one thread the list is halved once.
#[test]
fn a_map_before_a_full_folder_maps_no_more(rt: HostRuntime) {
    let alloc = rt.alloc();
    let calls = AtomicU64::new(0);
    let map_op = |item: u32| {
        calls.fetch_add(1, Ordering::Relaxed);
        small(item)
    };
    let items = Vec::from_slice(alloc, &[1u32, 5, 2, 3, 4, 6, 1]).expect(&rt, "memory");
    let base = ListVecConsumer;
    let (base, map_op) = (WhileSomeConsumer { base }, &map_op);
    let consumer = MapConsumer { base, map_op };
    let parts = DrainProducer::from_vec(items);
    let lists = bridge(&rt, alloc, number(1), parts, consumer).expect(&rt, "memory");
    let mut kept = Vec::new(alloc);
    for mut list in lists {
        kept.append(&mut list).expect(&rt, "memory");
    }
    same!(&rt, kept.as_slice(), [1, 3, 4].as_slice());
    row(&rt, "calls", calls.load(Ordering::Relaxed), 5);
}

// Beside a place for each item fewer than 4,096 of each kind in each of its two segments.
#[test]
fn a_partition_asks_for_little_more_than_it_fills(rt: HostRuntime) {
    let mut items = Vec::new(rt.alloc());
    items.resize(40_000, 3u32).expect(&rt, "memory");
    items.resize(100_000, 7).expect(&rt, "memory");
    let map_op = |item: u32| (item, small(item));
    let (items, map_op, parts) = (items.len(), &map_op, DrainProducer::from_vec(items));
    let consumer = PartitionConsumer { map_op, items };
    let lists = bridge(&rt, rt.alloc(), number(1), parts, consumer).expect(&rt, "memory");
    let mut room = 0usize;
    for pair in lists.iter() {
        room = room.wrapping_add(pair.0.capacity());
        room = room.wrapping_add(pair.1.capacity());
    }
    row(&rt, "places", room.max(116_384), 116_384);
}
