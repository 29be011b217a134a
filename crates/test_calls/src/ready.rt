//! The calls of `On` that no strategy has by their name, over any source, with closures that visit
//! a probe. One that looks for an item finds the one whose visit fails.
use crate::calls::{Here, Outcome, done};
use crate::sources::zeros;
use crate::visits::Visitor;
use commonware_parallel::bridge::Segment;
use commonware_parallel::{Parts, Producer, Runtime, Site, Source, Strategy, Trouble};
use parallel_calls::On;
use std::cmp::Ordering;

/// Such a call.
#[derive(Clone, Copy, Debug, PartialEq, Eq)]
pub enum Ready {
    Any,
    All,
    FindFirst,
    FindMapFirst,
    PositionFirst,
    IsSortedBy,
    DedupBy,
    Count,
    ForEach,
    Filter,
    FilterMap,
    FlatMap,
    MinBy,
    MaxBy,
    MinByKey,
    MaxByKey,
    Reduce,
    Sum,
    Product,
    CheckedSum,
    InclusiveScan,
    ExclusiveScan,
}

/// All of them.
pub const READY: [Ready; 22] = [
    Ready::Any,
    Ready::All,
    Ready::FindFirst,
    Ready::FindMapFirst,
    Ready::PositionFirst,
    Ready::IsSortedBy,
    Ready::DedupBy,
    Ready::Count,
    Ready::ForEach,
    Ready::Filter,
    Ready::FilterMap,
    Ready::FlatMap,
    Ready::MinBy,
    Ready::MaxBy,
    Ready::MinByKey,
    Ready::MaxByKey,
    Ready::Reduce,
    Ready::Sum,
    Ready::Product,
    Ready::CheckedSum,
    Ready::InclusiveScan,
    Ready::ExclusiveScan,
];

impl Ready {
    /// Whether it stops at an item whose visit fails.
    pub fn stops(self) -> bool {
        matches!(
            self,
            Ready::Any
                | Ready::All
                | Ready::FindFirst
                | Ready::FindMapFirst
                | Ready::PositionFirst
                | Ready::IsSortedBy
        )
    }

    /// Whether its closure is called with two items, or with each of two that are compared, so that
    /// nobody has counted how often.
    pub fn is_of_pairs(self) -> bool {
        self.is_scan()
            || matches!(
                self,
                Ready::MinBy | Ready::MaxBy | Ready::MinByKey | Ready::MaxByKey | Ready::Reduce
            )
    }

    /// Whether it is a scan over a source, which gathers the items before it scans them.
    pub fn is_scan(self) -> bool {
        matches!(self, Ready::InclusiveScan | Ready::ExclusiveScan)
    }

    /// Whether it calls no closure.
    pub fn is_silent(self) -> bool {
        matches!(self, Ready::Sum | Ready::Product | Ready::CheckedSum)
    }
}

/// The calls at that site.
pub fn calls_of<'a, Rt, S>(here: &Here<'a, Rt, S>) -> On<'a, Rt, S, Site> {
    let Here {
        rt,
        alloc,
        strategy,
        site,
    } = *here;
    On {
        rt,
        alloc,
        strategy,
        site,
    }
}

// The outcome of a call that looks for an item.
fn found(is_found: bool) -> Outcome {
    if is_found {
        Err(Trouble::Closure(7))
    } else {
        Ok(())
    }
}

// The calls that look for an item.
fn look<Rt: Runtime, S: Strategy, M, I: Source<M>>(
    on: &On<'_, Rt, S, Site>,
    ready: Ready,
    source: I,
    visited: Visitor<'_>,
) -> Outcome
    requires { I.can source }
{
    let is_found = match ready {
        Ready::Any => on.any(source, |_: I::Item| visited.visit().is_err())?,
        Ready::All => !on.all(source, |_: I::Item| visited.visit().is_ok())?,
        Ready::FindFirst => on
            .find_first(source, |_: &I::Item| visited.visit().is_err())?
            .is_some(),
        _ => on
            .find_map_first(source, |_: I::Item| visited.visit().err())?
            .is_some(),
    };
    found(is_found)
}

// Those that go over each item. Nothing is kept of one whose visit doesn't fail.
fn gather<Rt: Runtime, S: Strategy, M, I: Source<M>>(
    on: &On<'_, Rt, S, Site>,
    ready: Ready,
    source: I,
    visited: Visitor<'_>,
) -> Outcome
    requires { I.can source }
{
    let alloc = on.alloc;
    match ready {
        Ready::Count => done(on.count(source, |_: I::Item| visited.visit().is_ok())),
        Ready::ForEach => done(on.for_each(source, |_: I::Item| {
            let _ = visited.visit();
        })),
        Ready::Filter => done(on.filter(source, |_: &I::Item| visited.visit().is_err())),
        Ready::FilterMap => done(on.filter_map(source, |_: I::Item| visited.visit().err())),
        _ => done(on.flat_map(source, |_: I::Item| {
            let _ = visited.visit();
            Vec::<u32>::new(alloc)
        })),
    }
}

// Those that put two items together, or compare them: all tie.
fn pick<Rt: Runtime, S: Strategy, M, I: Source<M>>(
    on: &On<'_, Rt, S, Site>,
    ready: Ready,
    source: I,
    visited: Visitor<'_>,
) -> Outcome
    requires { I.can source }
{
    let compare = |_: &I::Item, _: &I::Item| -> Ordering {
        let _ = visited.visit();
        Ordering::Equal
    };
    let key = |_: &I::Item| -> u32 {
        let _ = visited.visit();
        0
    };
    match ready {
        Ready::MinBy => done(on.min_by(source, compare)),
        Ready::MaxBy => done(on.max_by(source, compare)),
        Ready::MinByKey => done(on.min_by_key(source, key)),
        Ready::MaxByKey => done(on.max_by_key(source, key)),
        _ => done(on.reduce(source, |left: I::Item, _: I::Item| -> I::Item {
            let _ = visited.visit();
            left
        })),
    }
}

/// Makes such a call over a source of any items.
pub fn make_ready<Rt: Runtime, S: Strategy, M, I: Source<M>>(
    here: &Here<'_, Rt, S>,
    ready: Ready,
    source: I,
    visited: Visitor<'_>,
) -> Outcome
    requires { I.can source }
{
    let on = &calls_of(here);
    if ready.stops() {
        look(on, ready, source, visited)
    } else if ready.is_of_pairs() {
        pick(on, ready, source, visited)
    } else {
        gather(on, ready, source, visited)
    }
}

/// Looks for the place of an item.
pub fn position<Rt: Runtime, S: Strategy, L: Producer>(
    here: &Here<'_, Rt, S>,
    list: L,
    visited: Visitor<'_>,
) -> Outcome {
    let on = &calls_of(here);
    let held = visited.holds(on.alloc);
    let place = on.position_first(list, |_: L::Item| visited.visit().is_err());
    drop(held);
    found(place?.is_some())
}

/// Adds numbers up, or multiplies them.
pub fn add_up<
    Rt: Runtime,
    S: Strategy,
    M,
    I: Source<M, Item = usize, Parts: Parts<Segment: Segment<usize>>>,
>(here: &Here<'_, Rt, S>, ready: Ready, numbers: I, visited: Visitor<'_>) -> Outcome
    requires { I.can numbers }
{
    let on = &calls_of(here);
    let held = visited.holds(on.alloc);
    let made = match ready {
        Ready::Sum => done(on.sum(numbers)),
        Ready::Product => done(on.product(numbers)),
        _ => done(on.checked_sum(numbers)),
    };
    drop(held);
    made
}

/// Scans numbers.
pub fn scan<
    Rt: Runtime,
    S: Strategy,
    M,
    I: Source<M, Item = usize, Parts: Parts<Segment: Segment<usize>>>,
>(here: &Here<'_, Rt, S>, ready: Ready, numbers: I, visited: Visitor<'_>) -> Outcome
    requires { I.can numbers }
{
    let on = &calls_of(here);
    let held = visited.holds(on.alloc);
    let op = |left: usize, right: usize| -> usize {
        let _ = visited.visit();
        left.wrapping_add(right)
    };
    let made = if matches!(ready, Ready::InclusiveScan) {
        done(on.inclusive_scan(numbers, op))
    } else {
        done(on.exclusive_scan(numbers, 0, op))
    };
    drop(held);
    made
}

/// Scans that many numbers in place, from the first one or from a start.
pub fn scan_in_place<Rt: Runtime, S: Strategy>(
    here: &Here<'_, Rt, S>,
    is_inclusive: bool,
    count: usize,
    visited: Visitor<'_>,
) -> Outcome {
    let on = &calls_of(here);
    let mut numbers = zeros(on.alloc, count)?;
    let held = visited.holds(on.alloc);
    let op = |left: usize, right: usize| -> usize {
        let _ = visited.visit();
        left.wrapping_add(right)
    };
    let made = if is_inclusive {
        done(on.inclusive_scan_in_place(numbers.as_mut_slice(), op))
    } else {
        done(on.exclusive_scan_in_place(numbers.as_mut_slice(), 0, op))
    };
    drop(held);
    made
}

/// Goes over each item and the one before it.
pub fn dedup<Rt: Runtime, S: Strategy>(
    here: &Here<'_, Rt, S>,
    numbers: &[usize],
    visited: Visitor<'_>,
) -> Outcome {
    let on = &calls_of(here);
    let held = visited.holds(on.alloc);
    let kept = on.dedup_by(numbers, |_: &usize, _: &usize| visited.visit().is_ok());
    drop(held);
    done(kept)
}

/// Goes over each item and the next one of numbers, of which there is one more than pairs.
pub fn is_sorted<Rt: Runtime, S: Strategy>(
    here: &Here<'_, Rt, S>,
    numbers: &[usize],
    visited: Visitor<'_>,
) -> Outcome {
    let on = &calls_of(here);
    let held = visited.holds(on.alloc);
    let fits = |_: &usize, _: &usize| visited.visit().is_ok();
    let is_sorted = on.is_sorted_by(numbers, fits);
    drop(held);
    found(!is_sorted?)
}
