//! Roots of trees, by levels, by blocks and of leaves that are made of a source's items: known
//! values.
use crate::checks::row;
use commonware_parallel::merkle::{
    plain_root, root, root_by_blocks, root_of_leaves, root_of_leaves_by_levels,
};
use commonware_parallel::{Fault, Sequential, Strategy};
use std::alloc::Global;
use std::process::Abort;
use std::sync::Wait;
use std::thread::Threads;
use test_strategies::{SITE, pool};

#[derive(Clone, Copy)]
enum How {
    ByLevels,
    ByBlocks,
    OfLeaves,
    OfLeavesByLevels,
}

// How a root is found.
const ROOTED: [(&str, How); 4] = [
    ("root by levels", How::ByLevels),
    ("root by blocks", How::ByBlocks),
    ("root of leaves", How::OfLeaves),
    ("root of leaves by levels", How::OfLeavesByLevels),
];

fn root_of<Rt: Threads + Wait + Sync, S: Strategy>(
    rt: &Rt,
    alloc: Global,
    strategy: &S,
    how: How,
    leaves: Vec<u64>,
) -> Result<Option<u64>, Fault> {
    match how {
        How::ByLevels => root(rt, alloc, strategy, SITE, leaves, combine),
        How::ByBlocks => root_by_blocks(rt, alloc, strategy, SITE, leaves, combine),
        How::OfLeaves => {
            root_of_leaves(rt, alloc, strategy, SITE, leaves, |leaf: u64| leaf, combine)
        }
        How::OfLeavesByLevels => {
            root_of_leaves_by_levels(rt, alloc, strategy, SITE, leaves, |leaf: u64| leaf, combine)
        }
    }
}

// A node of two neighbours, which tells their order and how they are grouped.
fn combine(left: u64, right: u64) -> u64 {
    let modulus = 1_000_003;
    let twice = (left % modulus).wrapping_mul(2);
    let thrice = (right % modulus).wrapping_mul(3);
    twice.wrapping_add(thrice) % modulus
}

const SEVEN: [u64; 7] = [1, 2, 3, 4, 5, 6, 7];

// The root of [9], and those of the first of seven numbers.
fn are_known<Rt: Threads + Wait + Abort + Sync, S: Strategy>(
    rt: &Rt,
    alloc: Global,
    strategy: &S,
    through: &'static str,
    (name, how): (&'static str, How),
) {
    for (numbers, known) in [
        ([9].as_slice(), Some(9)),
        (&SEVEN[..0], None),
        (&SEVEN[..3], Some(25)),
        (&SEVEN[..5], Some(155)),
        (&SEVEN[..7], Some(371)),
    ] {
        let leaves = Vec::from_slice(alloc, numbers).expect(rt, "memory for leaves");
        let found = root_of(rt, alloc, strategy, how, leaves);
        row(rt, (name, through, numbers.len()), found, Ok(known));
    }
}

#[test]
fn roots_are_as_by_hand(rt: HostRuntime) {
    let alloc = rt.alloc();
    let four = pool(&rt, alloc, 4, 4).expect(&rt, "a pool");
    for rooted in ROOTED {
        are_known(&rt, alloc, &Sequential, "Sequential", rooted);
        are_known(&rt, alloc, &four, "a pool", rooted);
    }
    let leaves = Vec::from_slice(alloc, &SEVEN).expect(&rt, "memory for leaves");
    let plain = plain_root(alloc, leaves, &combine);
    row(&rt, ("plain root", "nobody", 7), plain, Ok(Some(371)));
}
