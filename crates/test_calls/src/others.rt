//! The other calls: joins, sorts, changes, batches, tiles and trees, with closures that visit a
//! probe.
ghost use Rattle.std.specs.Prelude.{length};
ghost use Rattle.parallel_shares.specs.Cut.{BalancedCut};
ghost use Rattle.commonware_parallel.specs.Batches.{ranges_of};

use crate::calls::{Here, Outcome, done, tried};
use crate::ready::calls_of;
use crate::sources::{LOST, zeros};
use crate::steps::{cells_counted, no_count};
use crate::visits::Visitor;
use commonware_parallel::merkle::{root, root_by_blocks, root_of_leaves, root_of_leaves_by_levels};
use commonware_parallel::{Batches, Fault, Grid, Runtime, Site, Strategy, Tiles, Trouble};
use std::alloc::Global;
use std::cmp::Ordering;
use std::num::NonZeroUsize;
use std::ops::Range;
use test_support::counted::{Counted, Counts};

/// How many items a part of a sort has.
pub const PART: usize = 8192;

// That number, or 1 in the place of 0.
fn above_none(number: usize) -> NonZeroUsize {
    NonZeroUsize::MIN.saturating_add(number.saturating_sub(1))
}

/// That many numbers, which are no run that a sort turns without memory: the first ones aren't in
/// their places, and of very many none is. More of fewer would take long.
pub fn numbers(alloc: Global, count: usize) -> Result<Vec<u32>, Fault> {
    let mut numbers = Vec::with_capacity(alloc, count)?;
    let mixed = if count < 600_000 { 64 } else { u32::MAX };
    let mut place = 0u32;
    for _ in 0..count {
        numbers.push(if place < mixed { place ^ 1 } else { place })?;
        place = place.wrapping_add(1);
    }
    Ok(numbers)
}

/// How numbers are sorted: by themselves or by a key, and those that tie in their order or not.
#[derive(Clone, Copy, Debug, PartialEq, Eq)]
pub enum Sorted {
    Stable,
    Unstable,
    StableByKey,
    UnstableByKey,
}

/// A sort of numbers, of which each comparison visits: a meeting by level, where the two are of two
/// parts. A key visits no level.
pub fn sort<Rt: Runtime, S: Strategy>(
    on: &Here<'_, Rt, S>,
    sorted: Sorted,
    count: usize,
    visited: Visitor<'_>,
) -> Outcome {
    let mut numbers = numbers(on.alloc, count)?;
    let numbers = numbers.as_mut_slice();
    let compare = |left: &u32, right: &u32| -> Ordering {
        visited.visit_level(usize::from(*left / 8192 == *right / 8192));
        left.cmp(right)
    };
    let key = |number: &u32| -> u32 {
        visited.visit_level(usize::MAX);
        *number
    };
    let calls = calls_of(on);
    let held = visited.holds(on.alloc);
    let sorted = match sorted {
        Sorted::Stable => on
            .strategy
            .sort_by(on.rt, on.alloc, on.site, numbers, compare),
        Sorted::Unstable => on
            .strategy
            .sort_unstable_by(on.rt, on.alloc, on.site, numbers, compare),
        Sorted::StableByKey => calls.sort_by_key(numbers, key),
        Sorted::UnstableByKey => calls.sort_unstable_by_key(numbers, key),
    };
    drop(held);
    done(sorted)
}

/// A change of numbers in place, one by one or in chunks of that size, of which each call visits.
pub fn change<Rt: Runtime, S: Strategy>(
    on: &Here<'_, Rt, S>,
    size: usize,
    count: usize,
    visited: Visitor<'_>,
) -> Outcome {
    let mut numbers = numbers(on.alloc, count)?;
    let numbers = numbers.as_mut_slice();
    let held = visited.holds(on.alloc);
    let changed = if size > 1 {
        on.strategy.for_each_chunk_mut(
            on.rt,
            on.alloc,
            on.site,
            numbers,
            above_none(size),
            |_: usize, _: &mut [u32]| {
                let _ = visited.visit();
            },
        )
    } else {
        on.strategy
            .for_each_mut(on.rt, on.alloc, on.site, numbers, |_: usize, _: &mut u32| {
                let _ = visited.visit();
            })
    };
    drop(held);
    done(changed)
}

/// A join of two closures that visit.
pub fn join<Rt: Runtime, S: Strategy>(on: &Here<'_, Rt, S>, visited: Visitor<'_>) -> Outcome {
    let side = || visited.visit().is_ok();
    done(on.strategy.join(on.rt, on.alloc, on.site, side, side))
}

/// A run of one of two bodies that visit, which may fail or can't.
pub fn run<Rt: Runtime, S: Strategy>(
    on: &Here<'_, Rt, S>,
    may_fail: bool,
    len: usize,
    visited: Visitor<'_>,
) -> Outcome {
    let (rt, alloc, site) = (on.rt, on.alloc, on.site);
    let body = || visited.visit();
    if may_fail {
        return on.strategy.try_run(rt, alloc, site, len, body, body);
    }
    done(on.strategy.run(rt, alloc, site, len, body, body))
}

/// What is done with a batch: a map of what is prepared of it, which may fail or can't, in one that
/// may fail or can't; or a change of a list's parts where they lie.
#[derive(Clone, Copy, Debug)]
pub enum Batched {
    Map,
    TryMap,
    TryBatch,
    Change,
}

// The lengths of the ranges, three times each.
fn lengths_of(alloc: Global, ranges: &[Range<usize>]) -> Result<Vec<usize>, Fault> {
    let mut lengths = Vec::new(alloc);
    for range in ranges {
        let length = range.end.saturating_sub(range.start);
        for _ in 0..3u32 {
            lengths.push(length)?;
        }
    }
    Ok(lengths)
}

// The map, each closure of which visits three times for each range.
fn map_ranges<Rt: Runtime, S: Strategy>(
    rt: &Rt,
    alloc: Global,
    batches: Batches<'_, S, Site>,
    batched: Batched,
    visited: Visitor<'_>,
) -> Outcome {
    let prepare = |ranges: &[Range<usize>]| lengths_of(alloc, ranges);
    let map_op = |_: usize| visited.visit();
    if matches!(batched, Batched::Map) {
        return done(batches.map_collect_vec(rt, alloc, prepare, map_op));
    }
    tried(batches.try_map_collect_vec(rt, alloc, prepare, map_op))
}

// The change of a list as long as the batch, of which each part visits once.
fn change_batch<Rt: Runtime, S: Strategy>(
    on: &Here<'_, Rt, S>,
    len: usize,
    minimum: NonZeroUsize,
    visited: Visitor<'_>,
) -> Result<(), Fault> {
    let (rt, alloc, site) = (on.rt, on.alloc, on.site);
    let mut items = zeros(alloc, len)?;
    let whole = items.as_mut_slice();
    let len = whole.len();
    let run = move |batches: Batches<'_, S, Site>| -> Result<(), Fault>
        requires { BalancedCut (length whole.now) (ranges_of batches) }
    {
        let list = whole;
        batches.for_each_mut(rt, alloc, list, |_: usize, _: &mut [usize]| {
            let _ = visited.visit();
        })
    };
    on.strategy
        .run_batches(rt, alloc, site, len, minimum, 3, run)?
}

/// A batch of that many indices, in ranges of at least `minimum`, each of which visits.
pub fn run_batch<Rt: Runtime, S: Strategy>(
    on: &Here<'_, Rt, S>,
    batched: Batched,
    minimum: usize,
    len: usize,
    visited: Visitor<'_>,
) -> Outcome {
    let minimum = above_none(minimum);
    if matches!(batched, Batched::Change) {
        return done(change_batch(on, len, minimum, visited));
    }
    let (rt, alloc, site) = (on.rt, on.alloc, on.site);
    let run = |batches: Batches<'_, S, Site>| map_ranges(rt, alloc, batches, batched, visited);
    if !matches!(batched, Batched::TryBatch) {
        return on
            .strategy
            .run_batches(rt, alloc, site, len, minimum, 3, run)?;
    }
    match on
        .strategy
        .try_run_batches(rt, alloc, site, len, minimum, 3, run)
    {
        Ok(()) => Ok(()),
        Err(Trouble::Fault(fault)) => Err(Trouble::Fault(fault)),
        Err(Trouble::Closure(trouble)) => Err(trouble),
    }
}

/// How tiles are filled: with a result for each stretch, or by a kernel by row.
#[derive(Clone, Copy, Debug)]
pub enum Filling {
    Stretches,
    Kernel,
}

// What a tile costs.
fn tile_cost() -> NonZeroUsize {
    above_none(8)
}

// The results of tiles whose fills visit.
fn fill_tiles<Rt: Runtime, S: Strategy>(
    rt: &Rt,
    alloc: Global,
    tiles: Tiles<'_, S, Site>,
    visited: Visitor<'_>,
) -> Result<(), Fault> {
    let begin = || {
        visited.begin();
        no_count()
    };
    let fill = |count: &mut usize, _: usize, columns: Range<usize>| {
        let _ = visited.visit();
        *count = count.saturating_add(columns.len());
    };
    let _ = tiles.fill_collect_vec(rt, alloc, begin, fill, cells_counted)?;
    Ok(())
}

// The values of a kernel by row that visits.
fn fold_rows<Rt: Runtime, S: Strategy>(
    on: &Here<'_, Rt, S>,
    rows: usize,
    len: usize,
    visited: Visitor<'_>,
) -> Outcome {
    if rows.checked_mul(len).is_none() {
        return Err(Trouble::Fault(Fault::Memory));
    }
    let (rt, alloc, site) = (on.rt, on.alloc, on.site);
    let (cost, add) = (tile_cost(), usize::wrapping_add);
    let kernel = |_: usize, columns: Range<usize>| -> usize {
        let _ = visited.visit();
        columns.len()
    };
    let held = visited.holds(alloc);
    let folded = on
        .strategy
        .fold_rows(rt, alloc, site, rows, len, cost, kernel, add);
    drop(held);
    done(folded)
}

/// The results of tiles on that many rows of that many columns, each fill of which visits.
pub fn fill<Rt: Runtime, S: Strategy>(
    on: &Here<'_, Rt, S>,
    filling: Filling,
    len: usize,
    rows: usize,
    visited: Visitor<'_>,
) -> Outcome {
    if matches!(filling, Filling::Kernel) {
        return fold_rows(on, rows, len, visited);
    }
    let tile_cost = tile_cost();
    let grids = [Grid { rows, tile_cost }];
    if !Grid::fits(&grids, len) {
        return Err(Trouble::Fault(Fault::Memory));
    }
    let (rt, alloc, site) = (on.rt, on.alloc, on.site);
    let run = |tiles: Tiles<'_, S, Site>| fill_tiles(rt, alloc, tiles, visited);
    let held = visited.holds(alloc);
    let filled = on.strategy.run_tiles(rt, alloc, site, len, &grids, 5, run);
    drop(held);
    done(filled?)
}

/// How a tree's root is found.
#[derive(Clone, Copy, Debug, PartialEq, Eq)]
pub enum Rooted {
    ByLevels,
    ByBlocks,
    OfLeaves,
    OfLeavesByLevels,
}

// A node of a tree.
trait Node: Send + Drop {
    // Its level, from that of the leaves up.
    fn level(&self) -> usize;

    // One of the next level.
    fn above(self) -> Self;
}

impl Node for Counted<'_> {
    fn level(&self) -> usize {
        self.place
    }

    fn above(self) -> Self {
        self.at(self.place.wrapping_add(1))
    }
}

// The root of such leaves, each pair of which visits its level.
fn combine<Rt: Runtime, S: Strategy, T: Node>(
    on: &Here<'_, Rt, S>,
    rooted: Rooted,
    leaves: Vec<T>,
    visited: Visitor<'_>,
) -> Outcome {
    let (rt, alloc, site) = (on.rt, on.alloc, on.site);
    let node = |left: T, _: T| {
        visited.visit_level(left.level());
        left.above()
    };
    let held = visited.holds(alloc);
    let found = match rooted {
        Rooted::ByLevels => root(rt, alloc, on.strategy, site, leaves, node),
        Rooted::ByBlocks => root_by_blocks(rt, alloc, on.strategy, site, leaves, node),
        Rooted::OfLeaves => {
            root_of_leaves(rt, alloc, on.strategy, site, leaves, |leaf: T| leaf, node)
        }
        Rooted::OfLeavesByLevels => {
            root_of_leaves_by_levels(rt, alloc, on.strategy, site, leaves, |leaf: T| leaf, node)
        }
    };
    drop(held);
    done(found)
}

/// The root of a tree of that many leaves. It fails by an error of its own where not each node was
/// dropped once.
pub fn tree<Rt: Runtime, S: Strategy>(
    on: &Here<'_, Rt, S>,
    rooted: Rooted,
    count: usize,
    visited: Visitor<'_>,
) -> Outcome {
    let counts = Counts::new();
    let mut leaves = Vec::with_capacity(on.alloc, count)?;
    for _ in 0..count {
        leaves.push(Counted::new(&counts, 0))?;
    }
    let found = combine(on, rooted, leaves, visited);
    if counts.left() > 0 {
        return Err(Trouble::Closure(LOST));
    }
    found
}
