//! The same cases through the kit's `rayon`, as its callers write them.
use crate::case::{Case, Cost};
use crate::ready::ready_by_kit;
use crate::ways::Answer;
use crate::work::{add, ascending, heavy, light, rising, zero};
use commonware_parallel::Fault;
use rayon::prelude::*;
use std::alloc::{AllocError, Global};
use std::thread::Threads;

/// The case's result, and 0 for a case that it has no call for.
///
/// It has no pool: a chain starts threads for as many pieces as it makes, two for each processor.
///
/// # Errors
///
/// What was refused.
pub fn by_kit<Rt: Threads + Sync>(
    rt: &Rt,
    alloc: Global,
    case: Case,
    items: &[u64],
) -> Result<Answer, Fault> {
    match case {
        Case::Map(cost) => Ok(Answer::Numbers(mapped(rt, alloc, cost, items)?)),
        Case::Fold(cost) => Ok(Answer::Number(folded(rt, cost, items))),
        Case::Sort => Ok(Answer::Numbers(sorted(rt, alloc, items)?)),
        Case::Ready(ready) => Ok(ready_by_kit(rt, alloc, ready, items)?),
        _ => Ok(Answer::Number(0)),
    }
}

fn mapped<Rt: Threads + Sync>(
    rt: &Rt,
    alloc: Global,
    cost: Cost,
    items: &[u64],
) -> Result<Vec<u64>, AllocError> {
    match cost {
        Cost::Light => items.par_iter().copied().map(light).collect(rt, alloc),
        Cost::Heavy => items.par_iter().copied().map(heavy).collect(rt, alloc),
        Cost::Rising => items.par_iter().copied().map(rising).collect(rt, alloc),
    }
}

fn folded<Rt: Threads + Sync>(rt: &Rt, cost: Cost, items: &[u64]) -> u64 {
    let items = items.par_iter().copied();
    match cost {
        Cost::Light => items.reduce(rt, zero, add),
        Cost::Heavy => items.map(heavy).reduce(rt, zero, add),
        Cost::Rising => items.map(rising).reduce(rt, zero, add),
    }
}

fn sorted<Rt: Threads + Sync>(
    rt: &Rt,
    alloc: Global,
    items: &[u64],
) -> Result<Vec<u64>, AllocError> {
    let mut sorted: Vec<u64> = items.iter().copied().collect(alloc)?;
    par_sort_by(rt, alloc, sorted.as_mut_slice(), ascending)?;
    Ok(sorted)
}
