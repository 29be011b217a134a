//! The one list of calls that each probe goes over.
use crate::calls::{CALLS, Called, MULTIPLIER, Outcome, called_here};
use crate::others::{
    Batched, Filling, Rooted, Sorted, change, fill, join, run, run_batch, sort, tree,
};
use crate::ready::{READY, Ready, scan_in_place};
use crate::sources::{FEW, Given, OTHERS, TWO, make_over};
use crate::steps::Gives;
use crate::visits::Visitor;
use commonware_parallel::{Call, Fault, Kind, Runtime, Strategy, Trouble};
use std::alloc::{AllocGlobal, Global};
use std::thread::yield_now;
use test_strategies::SITE;

/// What the runtime of a test is, beside what stops it.
pub trait Host: Runtime + AllocGlobal + Copy + Send + 'static {}

impl<Rt: Runtime + AllocGlobal + Copy + Send + 'static> Host for Rt {}

/// A call, or a rest.
#[derive(Clone, Copy, Debug)]
pub enum Act {
    /// A list call over one of the sources.
    List(Called, Given),
    /// A sort of numbers.
    Sort(Sorted),
    /// A change of numbers in place, one by one or in chunks of that size.
    Change(usize),
    /// A scan of numbers in place, from the first one or from a start.
    Scan(bool),
    Join,
    /// A batch of indices, in ranges of at least that length.
    Batch(Batched, usize),
    /// The fill of tiles on rows of that many columns.
    Fill(Filling, usize),
    /// A tree over leaves.
    Tree(Rooted),
    /// A run of two bodies, which may fail or can't.
    Run(bool),
    /// A job that is dropped. It stands in no list, as it goes on aside.
    Job,
    /// A rest for a while, in which a call would have ended.
    Rest,
}

// Those that aren't list calls. Rows of ten columns are too short to be cut.
const ASIDE: [Act; 21] = [
    Act::Sort(Sorted::Stable),
    Act::Sort(Sorted::Unstable),
    Act::Sort(Sorted::StableByKey),
    Act::Sort(Sorted::UnstableByKey),
    Act::Change(1),
    Act::Change(2),
    Act::Scan(true),
    Act::Scan(false),
    Act::Join,
    Act::Batch(Batched::Map, 1),
    Act::Batch(Batched::TryMap, 1),
    Act::Batch(Batched::TryBatch, 1),
    Act::Batch(Batched::Change, 1),
    Act::Fill(Filling::Stretches, 10),
    Act::Fill(Filling::Kernel, 10),
    Act::Tree(Rooted::ByLevels),
    Act::Tree(Rooted::ByBlocks),
    Act::Tree(Rooted::OfLeaves),
    Act::Tree(Rooted::OfLeavesByLevels),
    Act::Run(false),
    Act::Run(true),
];

// The calls that stand on a strategy's, each over two sources, or the one that it is for.
fn add_ready(acts: &mut Vec<Act>) -> Result<(), Fault> {
    for ready in READY {
        let called = Called::Ready(ready);
        match ready {
            Ready::IsSortedBy | Ready::DedupBy => acts.push(Act::List(called, Given::Slice))?,
            _ if ready.is_silent() || ready.is_scan() || ready == Ready::PositionFirst => {
                acts.push(Act::List(called, Given::OwnProducer))?;
            }
            _ => {
                for given in TWO {
                    acts.push(Act::List(called, given))?;
                }
            }
        }
    }
    Ok(())
}

/// All calls: each list call over those few sources, the fallible map and fold over each source,
/// and the others.
pub fn acts(alloc: Global) -> Result<Vec<Act>, Fault> {
    let mut acts = Vec::from_slice(alloc, &ASIDE)?;
    for called in CALLS {
        for given in FEW {
            acts.push(Act::List(called, given))?;
        }
    }
    for given in OTHERS {
        acts.push(Act::List(Called::TryMap, given))?;
        acts.push(Act::List(Called::TryFold, given))?;
    }
    add_ready(&mut acts)?;
    Ok(acts)
}

impl Act {
    /// Whether its closures may fail, or a closure that fails ends it.
    pub fn may_fail(self) -> bool {
        match self {
            Act::List(Called::Ready(ready), _) => ready.stops(),
            Act::List(called, _) => matches!(called, Called::TryMap | Called::TryFold),
            Act::Batch(batched, _) => matches!(batched, Batched::TryMap | Batched::TryBatch),
            Act::Run(may_fail) => may_fail,
            _ => false,
        }
    }

    /// Whether its closure is called with pairs of neighbours.
    pub fn is_of_pairs(self) -> bool {
        match self {
            Act::List(Called::Ready(ready), _) => ready.is_of_pairs(),
            Act::Scan(_) => true,
            _ => false,
        }
    }

    /// Whether its strategy is asked twice: about the items that are gathered, and about a scan.
    pub fn asks_twice(self) -> bool {
        matches!(self, Act::List(Called::Ready(ready), _) if ready.is_scan())
    }

    /// Whether it calls no closure.
    pub fn is_silent(self) -> bool {
        matches!(self, Act::List(Called::Ready(ready), _) if ready.is_silent())
    }

    /// Whether it is over no list or over the producer of one's own: how many threads start depends
    /// on no source.
    pub fn is_over_own(self) -> bool {
        !matches!(self, Act::List(..)) || matches!(self, Act::List(_, Given::OwnProducer))
    }

    /// Whether its items take no memory.
    pub fn is_bare(self) -> bool {
        match self {
            Act::List(_, Given::OwnProducer | Given::Indices | Given::Counted) => true,
            Act::Batch(batched, _) => !matches!(batched, Batched::Change),
            Act::Join | Act::Run(_) | Act::Fill(..) => true,
            _ => false,
        }
    }

    /// What a call over that many items is asked as, planned for that many. Each index of a batch
    /// stands for three. Each row of ten takes eighteen, and they stand for five times as much, but
    /// for a kernel's.
    pub fn question(self, len: usize, planned: usize) -> Call {
        let (kind, len, work, max_parts) = match self {
            Act::Join => (Kind::Join, 2, 2, 1),
            Act::List(Called::MultipliedMap | Called::MultipliedMapInit, _) => {
                (Kind::Body, len, len.wrapping_mul(MULTIPLIER), 1)
            }
            Act::Change(2) => (Kind::Body, len / 2, len / 2, 1),
            Act::Batch(..) => (Kind::Batches, len, len.wrapping_mul(3), planned),
            Act::Fill(Filling::Kernel, _) => (Kind::Tiles, 10, len.wrapping_mul(18), planned),
            Act::Fill(..) => (Kind::Tiles, 10, len.wrapping_mul(90), planned),
            _ => (Kind::Body, len, len, 1),
        };
        Call {
            kind,
            len,
            work,
            max_parts,
        }
    }
}

fn rest() {
    for _ in 0..50u32 {
        yield_now();
    }
}

/// Does that over so many items, rows or leaves, where it is over any. Each closure visits.
pub fn does<Rt: Host, S: Strategy>(
    rt: &Rt,
    strategy: &S,
    act: Act,
    len: usize,
    visited: Visitor<'_>,
) -> Outcome {
    let on = &called_here(rt, strategy);
    match act {
        Act::List(called, given) => make_over(on, called, given, len, visited),
        Act::Sort(sorted) => sort(on, sorted, len, visited),
        Act::Change(size) => change(on, size, len, visited),
        Act::Scan(is_inclusive) => scan_in_place(on, is_inclusive, len, visited),
        Act::Join => join(on, visited),
        Act::Batch(batched, minimum) => run_batch(on, batched, minimum, len, visited),
        Act::Fill(filling, columns) => fill(on, filling, columns, len, visited),
        Act::Tree(rooted) => tree(on, rooted, len, visited),
        Act::Run(may_fail) => run(on, may_fail, len, visited),
        Act::Job => match strategy.spawn(rt, on.alloc, SITE, 1, Gives(7)) {
            // (where no stack is to be had, its worker is refused)
            Ok(_) | Err(Fault::Worker) => Ok(()),
            Err(fault) => Err(Trouble::Fault(fault)),
        },
        Act::Rest => {
            rest();
            Ok(())
        }
    }
}
