//! The same cases through a strategy, over any source of the items.
use crate::callers::{Extras, bytes_above, first_mismatch};
use crate::case::{Case, Cost};
use crate::ready::ready_by_strategy;
use crate::tiles::{Tiling, sum_of_tiles};
use crate::ways::{Answer, Items};
use crate::work::{
    add, add_counted, add_heavy, add_rising, ascending, combined, combined_heavily, heavy, light,
    parted_heavily, parted_lightly, rising, same, try_heavy, try_light, zero,
};
use commonware_parallel::{
    Copies, Counted, Fault, Runtime, Site, Source, Strategy, Trouble, merkle,
};
use parallel_bridge::{Parts, Segment};
use std::alloc::Global;

/// The site of every call.
pub const SITE: Site = Site {
    file: "bench",
    line: 1,
    column: 1,
};

/// The case's result through a strategy.
///
/// # Errors
///
/// What was refused.
pub fn by_strategy<Rt: Runtime, S: Strategy>(
    rt: &Rt,
    alloc: Global,
    strategy: &S,
    case: Case,
    items: Items<'_>,
    extras: Extras<'_>,
) -> Result<Answer, Fault> {
    if !case.takes_source() {
        return by_slice(rt, alloc, strategy, case, items.as_slice(), extras);
    }
    match items {
        Items::Slice(items) => by_source(rt, alloc, strategy, case, Copies { slice: items }),
        Items::Iterator(items) => by_source(rt, alloc, strategy, case, items.iter().copied()),
        Items::Counted(items) => {
            let iter = items.iter().copied();
            by_source(rt, alloc, strategy, case, Counted { iter })
        }
        Items::Owned(items) => by_source(rt, alloc, strategy, case, items),
    }
}

// The result of a case that goes by no source.
fn by_slice<Rt: Runtime, S: Strategy>(
    rt: &Rt,
    alloc: Global,
    strategy: &S,
    case: Case,
    items: &[u64],
    extras: Extras<'_>,
) -> Result<Answer, Fault> {
    let number = match case {
        Case::Sort => return sorted(rt, alloc, strategy, items),
        Case::Ready(ready) => return ready_by_strategy(rt, alloc, strategy, ready, items),
        Case::Tiles(rows, cost) => {
            let tiling = Tiling::of(rows, cost, items.len());
            sum_of_tiles(rt, alloc, strategy, tiling, items)?
        }
        Case::TreeLight => by_levels(rt, alloc, strategy, items, combined)?,
        Case::TreeHeavy => by_levels(rt, alloc, strategy, items, combined_heavily)?,
        Case::BlocksLight => by_blocks(rt, alloc, strategy, items, combined)?,
        Case::BlocksHeavy => by_blocks(rt, alloc, strategy, items, combined_heavily)?,
        Case::RowsAbove => bytes_above(rt, alloc, strategy, extras.bytes)?,
        Case::Digests => first_mismatch(rt, alloc, strategy, extras)? as u64,
        _ => 0,
    };
    Ok(Answer::Number(number))
}

// The root of a tree level by level, and 0 where there is none.
fn by_levels<Rt: Runtime, S: Strategy, F: Fn(u64, u64) -> u64 + Send + Sync + Drop>(
    rt: &Rt,
    alloc: Global,
    strategy: &S,
    slice: &[u64],
    node: F,
) -> Result<u64, Fault>
    requires { F.IsAlwaysCallable node }
{
    let leaves = Copies { slice };
    let root = merkle::root_of_leaves_by_levels(rt, alloc, strategy, SITE, leaves, same, node)?;
    Ok(root.unwrap_or(0))
}

// The same by blocks of leaves.
fn by_blocks<Rt: Runtime, S: Strategy, F: Fn(u64, u64) -> u64 + Send + Sync + Drop>(
    rt: &Rt,
    alloc: Global,
    strategy: &S,
    slice: &[u64],
    node: F,
) -> Result<u64, Fault>
    requires { F.IsAlwaysCallable node }
{
    let leaves = Copies { slice };
    let root = merkle::root_of_leaves(rt, alloc, strategy, SITE, leaves, same, node)?;
    Ok(root.unwrap_or(0))
}

fn sorted<Rt: Runtime, S: Strategy>(
    rt: &Rt,
    alloc: Global,
    strategy: &S,
    items: &[u64],
) -> Result<Answer, Fault> {
    let mut sorted: Vec<u64> = items.iter().copied().collect(alloc)?;
    strategy.sort_by(rt, alloc, SITE, sorted.as_mut_slice(), ascending)?;
    Ok(Answer::Numbers(sorted))
}

// The result of a case over a source.
fn by_source<
    Rt: Runtime,
    S: Strategy,
    M,
    I: Source<M, Item = u64, Parts: Parts<Segment: Segment<u64>>> + Drop,
>(rt: &Rt, alloc: Global, strategy: &S, case: Case, source: I) -> Result<Answer, Fault>
    requires { I.can source }
{
    match case {
        Case::Map(cost) => Ok(Answer::Numbers(mapped(rt, alloc, strategy, cost, source)?)),
        Case::Fold(cost) => Ok(Answer::Number(folded(rt, alloc, strategy, cost, source)?)),
        Case::FoldInit => {
            let total = strategy.fold_init(rt, alloc, SITE, source, zero, zero, add_counted, add)?;
            Ok(Answer::Number(total))
        }
        Case::TryMapLight => {
            tried(strategy.try_map_collect_vec(rt, alloc, SITE, source, try_light))
        }
        Case::TryMapEarly => {
            tried(strategy.try_map_collect_vec(rt, alloc, SITE, source, try_heavy))
        }
        Case::PartitionLight => {
            parted(strategy.map_partition_collect_vec(rt, alloc, SITE, source, parted_lightly))
        }
        Case::PartitionHeavy => {
            parted(strategy.map_partition_collect_vec(rt, alloc, SITE, source, parted_heavily))
        }
        _ => Ok(Answer::Number(0)),
    }
}

fn mapped<
    Rt: Runtime,
    S: Strategy,
    M,
    I: Source<M, Item = u64, Parts: Parts<Segment: Segment<u64>>>,
>(rt: &Rt, alloc: Global, strategy: &S, cost: Cost, source: I) -> Result<Vec<u64>, Fault>
    requires { I.can source }
{
    match cost {
        Cost::Light => strategy.map_collect_vec(rt, alloc, SITE, source, light),
        Cost::Heavy => strategy.map_collect_vec(rt, alloc, SITE, source, heavy),
        Cost::Rising => strategy.map_collect_vec(rt, alloc, SITE, source, rising),
    }
}

fn folded<
    Rt: Runtime,
    S: Strategy,
    M,
    I: Source<M, Item = u64, Parts: Parts<Segment: Segment<u64>>>,
>(rt: &Rt, alloc: Global, strategy: &S, cost: Cost, source: I) -> Result<u64, Fault>
    requires { I.can source }
{
    match cost {
        Cost::Light => strategy.fold(rt, alloc, SITE, source, zero, add, add),
        Cost::Heavy => strategy.fold(rt, alloc, SITE, source, zero, add_heavy, add),
        Cost::Rising => strategy.fold(rt, alloc, SITE, source, zero, add_rising, add),
    }
}

// What a map returns that may fail.
fn tried(outcome: Result<Vec<u64>, Trouble<u64>>) -> Result<Answer, Fault> {
    match outcome {
        Ok(answers) => Ok(Answer::Numbers(answers)),
        Err(Trouble::Closure(failing)) => Ok(Answer::Number(failing)),
        Err(Trouble::Fault(fault)) => Err(fault),
    }
}

// What a partition returns.
fn parted(parts: Result<(Vec<u64>, Vec<u64>), Fault>) -> Result<Answer, Fault> {
    let (values, keys) = parts?;
    Ok(Answer::Parts(values, keys))
}
