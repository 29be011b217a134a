//! The cases of ready calls: by a plain loop, through a strategy, and through the kit's `rayon`.
use crate::calls::SITE;
use crate::loops::folded;
use crate::ways::Answer;
use crate::work::{add, ascending, heavier, is_even, is_even_at};
use commonware_parallel::{Copies, Fault, Runtime, Strategy};
use parallel_calls::On;
use rayon::prelude::*;
use std::alloc::{AllocError, Global};
use std::thread::Threads;

/// A ready call.
#[derive(Clone, Copy)]
pub enum Ready {
    /// A search for the item in the middle.
    Find,
    /// The even items.
    Filter,
    /// How many items are even.
    Count,
    Sum,
    /// The sums up to each item.
    Scan,
    /// The least item.
    Least,
    /// The item of which the heavy function makes the least.
    LeastHeavy,
}

impl Ready {
    /// Whether the kit's `rayon` has the call.
    pub fn suits_kit(self) -> bool {
        !matches!(self, Ready::Scan)
    }
}

// The item in the middle, and 0 where there is none.
fn middle(items: &[u64]) -> u64 {
    items.get(items.len() / 2).copied().unwrap_or(0)
}

fn number(found: Option<u64>) -> Answer {
    Answer::Number(found.unwrap_or(u64::MAX))
}

/// The call's result by a plain loop.
///
/// # Errors
///
/// `AllocError` if an allocation fails.
pub fn ready_by_loop(alloc: Global, ready: Ready, items: &[u64]) -> Result<Answer, AllocError> {
    let wanted = middle(items);
    match ready {
        Ready::Find => Ok(number(items.iter().copied().find(|item: &u64| *item == wanted))),
        Ready::Filter => {
            let kept = items.iter().copied().filter(is_even_at).collect(alloc)?;
            Ok(Answer::Numbers(kept))
        }
        Ready::Count => {
            let count = items.iter().copied().filter(is_even_at).count();
            Ok(Answer::Number(count as u64))
        }
        Ready::Sum => Ok(Answer::Number(folded(items, add))),
        Ready::Scan => Ok(Answer::Numbers(scanned(alloc, items)?)),
        Ready::Least => Ok(number(items.iter().copied().min_by(ascending))),
        Ready::LeastHeavy => Ok(number(items.iter().copied().min_by(heavier))),
    }
}

fn scanned(alloc: Global, items: &[u64]) -> Result<Vec<u64>, AllocError> {
    let mut sums = Vec::with_capacity(alloc, items.len())?;
    let mut sum = 0u64;
    for item in items {
        sum = add(sum, *item);
        sums.push(sum)?;
    }
    Ok(sums)
}

/// The call's result through a strategy.
///
/// # Errors
///
/// What was refused.
pub fn ready_by_strategy<Rt: Runtime, S: Strategy>(
    rt: &Rt,
    alloc: Global,
    strategy: &S,
    ready: Ready,
    slice: &[u64],
) -> Result<Answer, Fault> {
    let on = On {
        rt,
        alloc,
        strategy,
        site: SITE,
    };
    let (items, wanted) = (Copies { slice }, middle(slice));
    match ready {
        Ready::Find => Ok(number(on.find_first(items, |item: &u64| *item == wanted)?)),
        Ready::Filter => Ok(Answer::Numbers(on.filter(items, is_even_at)?)),
        Ready::Count => Ok(Answer::Number(on.count(items, is_even)? as u64)),
        Ready::Sum => Ok(Answer::Number(on.sum(items)?)),
        Ready::Scan => Ok(Answer::Numbers(on.inclusive_scan(items, add)?)),
        Ready::Least => Ok(number(on.min_by(items, ascending)?)),
        Ready::LeastHeavy => Ok(number(on.min_by(items, heavier)?)),
    }
}

/// The call's result through the kit's `rayon`, and 0 for a call that it hasn't.
///
/// # Errors
///
/// `AllocError` if an allocation fails.
pub fn ready_by_kit<Rt: Threads + Sync>(
    rt: &Rt,
    alloc: Global,
    ready: Ready,
    items: &[u64],
) -> Result<Answer, AllocError> {
    let (all, wanted) = (items.par_iter().copied(), middle(items));
    match ready {
        Ready::Find => Ok(number(all.find_first(rt, |item: &u64| *item == wanted))),
        Ready::Filter => Ok(Answer::Numbers(all.filter(is_even_at).collect(rt, alloc)?)),
        Ready::Count => Ok(Answer::Number(all.filter(is_even_at).count(rt) as u64)),
        Ready::Sum => Ok(Answer::Number(all.reduce(rt, || 0, add))),
        Ready::Scan => Ok(Answer::Number(0)),
        Ready::Least => Ok(number(all.min_by(rt, ascending))),
        Ready::LeastHeavy => Ok(number(all.min_by(rt, heavier))),
    }
}
