//! The sources that a list call may be given, each of any length.
ghost use Rattle.std.specs.Prelude.{⊤};

use crate::calls::{Called, Here, Outcome, make, make_fallible};
use crate::ready::{Ready, add_up, dedup, is_sorted, position, scan};
use crate::visits::Visitor;
use commonware_parallel::bridge::DrainProducer;
use commonware_parallel::{
    Chunks, Copies, Counted, Enumerated, Fault, Indices, Pairs, Producer, Runtime, Source,
    Strategy, Trouble, Zipped,
};
use std::alloc::Global;
use std::iter::Copied;
use std::num::NonZeroUsize;
use std::slice::Iter;
use test_support::counted::{Counted as Item, Counts};

/// A source. Those of vectors, iterators and pairs have counted items.
#[derive(Clone, Copy, Debug)]
pub enum Given {
    Slice,
    Vector,
    Iterator,
    OwnProducer,
    Copies,
    Chunks,
    Zipped,
    Enumerated,
    Pairs,
    Indices,
    Counted,
    OwnSource,
}

/// One of a list that is cut as it is, one of owned items, one that has to be gathered, and a
/// producer of one's own, which takes no memory.
pub const FEW: [Given; 4] = [
    Given::Slice,
    Given::Vector,
    Given::Iterator,
    Given::OwnProducer,
];

/// The others, over which the table has the fallible map and the fallible fold alone: no call's own
/// body differs by its source, but how a list is cut does.
pub const OTHERS: [Given; 8] = [
    Given::Copies,
    Given::Chunks,
    Given::Zipped,
    Given::Enumerated,
    Given::Pairs,
    Given::Indices,
    Given::Counted,
    Given::OwnSource,
];

/// Those of the calls that stand on a strategy's, whose bodies differ by no source.
pub const TWO: [Given; 2] = [Given::Iterator, Given::OwnProducer];

// A producer of one's own, of which each cut is told.
#[derive(Drop)]
struct Cut<'a, P> {
    list: P,
    visited: Visitor<'a>,
}

impl<'a, P: Producer> Producer for Cut<'a, P> {
    type Item = P::Item;

    type Iter = P::Iter;

    ghost gives = { λ s xs. P.gives s.list xs };

    ghost may = { λ s x. P.may s.list x };

    ghost count = { λ s. P.count s.list };

    fn len(&self) -> usize {
        self.list.len()
    }

    fn split_at(self, alloc: Global, index: usize) -> Result<(Self, Self), Fault> {
        let visited = self.visited;
        visited.cut();
        let (front, back) = self.list.split_at(alloc, index)?;
        let front = Cut {
            list: front,
            visited,
        };
        let back = Cut {
            list: back,
            visited,
        };
        Ok((front, back))
    }

    fn into_items(self) -> P::Iter {
        self.list.into_items()
    }
}

// A source of one's own, whose items are gathered where a call goes parallel. Nothing is said of
// which items come.
#[derive(Drop)]
struct OwnSource<'a> {
    slice: &'a [usize],
}

struct ByOwnSource;

impl<'a> Source<ByOwnSource> for OwnSource<'a> {
    type Item = usize;

    type Parts = DrainProducer<usize>;

    type Iter = Copied<Iter<'a, usize>>;

    ghost can = { λ _. ⊤ };

    ghost gives = { λ _ _. ⊤ };

    ghost may = { λ _ _. ⊤ };

    fn into_items(self) -> Copied<Iter<'a, usize>> {
        self.slice.iter().copied()
    }

    fn into_parts(self, alloc: Global) -> Result<DrainProducer<usize>, Fault> {
        let items = Vec::from_slice(alloc, self.slice)?;
        Ok(DrainProducer::from_vec(items))
    }
}

/// That many items.
pub fn zeros(alloc: Global, count: usize) -> Result<Vec<usize>, Fault> {
    let mut items = Vec::with_capacity(alloc, count)?;
    for _ in 0..count {
        items.push(0)?;
    }
    Ok(items)
}

// The fallible call over a list that is cut as it is.
fn over_list<Rt: Runtime, S: Strategy, P: Producer>(
    on: &Here<'_, Rt, S>,
    called: Called,
    list: P,
    visited: Visitor<'_>,
) -> Outcome {
    make_fallible(on, called, list, visited)
}

// The same over the pairs of two lists.
fn over_zipped<Rt: Runtime, S: Strategy, L: Producer, R: Producer>(
    on: &Here<'_, Rt, S>,
    called: Called,
    left: L,
    right: R,
    visited: Visitor<'_>,
) -> Outcome {
    over_list(on, called, Zipped::new(left, right), visited)
}

// The same over the chunks of two of a list, alone or zipped with a list that is far longer: that
// of an even number of chunks is on the right.
fn over_chunks<Rt: Runtime, S: Strategy>(
    on: &Here<'_, Rt, S>,
    called: Called,
    given: Given,
    slice: &[usize],
    visited: Visitor<'_>,
) -> Outcome {
    let size = NonZeroUsize::MIN.saturating_add(1);
    let chunks = Chunks { slice, size };
    if matches!(given, Given::Chunks) {
        return over_list(on, called, chunks, visited);
    }
    let indices = Indices {
        start: 3,
        end: 1 << 36,
    };
    if slice.len() % 4 == 0 {
        return over_zipped(on, called, chunks, indices, visited);
    }
    let longer = Enumerated::new(Zipped::new(indices, indices));
    over_zipped(on, called, longer, chunks, visited)
}

// The call over lists that are cut as they are, and a source of one's own.
fn over_parts<Rt: Runtime, S: Strategy>(
    on: &Here<'_, Rt, S>,
    called: Called,
    given: Given,
    slice: &[usize],
    visited: Visitor<'_>,
) -> Outcome {
    match given {
        Given::Copies => over_list(on, called, Copies { slice }, visited),
        Given::Enumerated => over_list(on, called, Enumerated::new(Copies { slice }), visited),
        Given::OwnSource => make_fallible(on, called, OwnSource { slice }, visited),
        _ => over_chunks(on, called, given, slice, visited),
    }
}

// The call over counted items: a vector, its iterator or its pairs. It fails by an error of its own
// where not each of them was dropped once.
fn over_counted<Rt: Runtime, S: Strategy>(
    on: &Here<'_, Rt, S>,
    called: Called,
    given: Given,
    len: usize,
    visited: Visitor<'_>,
) -> Outcome {
    let counts = Counts::new();
    let mut items = Vec::with_capacity(on.alloc, visited.places(len))?;
    for place in 0..len {
        items.push(Item::new(&counts, place))?;
    }
    let made = match given {
        Given::Vector => make(on, called, items, visited),
        Given::Iterator => make(on, called, items.into_iter(), visited),
        _ => {
            let (pairs, _none) = Pairs::new(items);
            make_fallible(on, called, pairs, visited)
        }
    };
    if counts.left() > 0 {
        return Err(Trouble::Closure(LOST));
    }
    made
}

// The call over the producer of one's own.
fn over_own<Rt: Runtime, S: Strategy>(
    on: &Here<'_, Rt, S>,
    called: Called,
    list: Indices,
    visited: Visitor<'_>,
) -> Outcome {
    let list = Cut { list, visited };
    match called {
        Called::Ready(Ready::PositionFirst) => position(on, list, visited),
        Called::Ready(ready) if ready.is_silent() => add_up(on, ready, list, visited),
        Called::Ready(ready) if ready.is_scan() => scan(on, ready, list, visited),
        _ => make(on, called, list, visited),
    }
}

// The call over a slice.
fn over_slice<Rt: Runtime, S: Strategy>(
    on: &Here<'_, Rt, S>,
    called: Called,
    len: usize,
    visited: Visitor<'_>,
) -> Outcome {
    if let Called::Ready(Ready::IsSortedBy) = called {
        let numbers = zeros(on.alloc, len.saturating_add(1))?;
        return is_sorted(on, numbers.as_slice(), visited);
    }
    let items = zeros(on.alloc, len)?;
    match called {
        Called::Ready(Ready::DedupBy) => dedup(on, items.as_slice(), visited),
        _ => make(on, called, items.as_slice(), visited),
    }
}

/// The error of a call that doesn't drop each item once.
pub const LOST: u32 = 1000;

/// The call over such a source of that many items: one that the table has.
pub fn make_over<Rt: Runtime, S: Strategy>(
    on: &Here<'_, Rt, S>,
    called: Called,
    given: Given,
    len: usize,
    visited: Visitor<'_>,
) -> Outcome {
    let twice = len.saturating_mul(2);
    let indices = Indices {
        start: 3,
        end: len.saturating_add(3),
    };
    match given {
        Given::Vector | Given::Iterator => over_counted(on, called, given, len, visited),
        Given::Pairs => over_counted(on, called, given, twice, visited),
        Given::Indices => over_list(on, called, indices, visited),
        Given::OwnProducer => over_own(on, called, indices, visited),
        Given::Counted => make_fallible(on, called, Counted { iter: 0..len }, visited),
        Given::Slice => over_slice(on, called, len, visited),
        Given::Chunks | Given::Zipped => {
            let items = zeros(on.alloc, twice)?;
            over_parts(on, called, given, items.as_slice(), visited)
        }
        _ => {
            let items = zeros(on.alloc, len)?;
            over_parts(on, called, given, items.as_slice(), visited)
        }
    }
}
