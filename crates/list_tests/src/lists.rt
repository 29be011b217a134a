//! Known values of the list calls, in one piece and where they go along the shape.
//!
//! The identity 10 isn't neutral for addition, so that a sum tells in how many segments a list
//! went: each leaf of its shape adds 20, and a list in one piece adds 10. A state counts the items
//! of its segment.
use crate::checks::{Of, lists};
use commonware_parallel::mocks::Explorer;
use commonware_parallel::{Sequential, Strategy, Trouble};
use std::alloc::{AllocError, Global};
use std::ops::Range;
use std::process::Abort;
use std::sync::Wait;
use std::thread::Threads;
use test_strategies::{SITE, pool};

/// A list call, which is the strategy's of that name.
#[derive(Clone, Copy, Debug, PartialEq, Eq)]
pub enum Called {
    Map,
    MultipliedMap,
    TryMap,
    MapInit,
    MultipliedMapInit,
    Fold,
    FoldInit,
    TryFold,
    Partition,
}

/// What a call returns as a list: a fold its one value, a partition its values and then its keys.
pub type Outcome = Result<Vec<u32>, Trouble<u32>>;

/// A call over the numbers from one up to another, and what it returns in one piece, with a leaf
/// for each item, and with leaves of one and of two.
pub type Known = (&'static str, Called, u32, u32, [&'static [u32]; 3]);

const SQUARES: [&[u32]; 3] = [&[0, 1, 4, 9, 16, 25, 36, 49, 64, 81]; 3];

const COUNTS: [&[u32]; 3] = [&[1, 2, 3], &[1, 1, 1], &[1, 1, 2]];

const THREE: [&[u32]; 3] = [&[16], &[66], &[46]];

const NONE: [&[u32]; 3] = [&[10], &[20], &[20]];

/// The calls, each over ten numbers or fewer.
pub const KNOWN: [Known; 12] = [
    ("map", Called::Map, 0, 10, SQUARES),
    ("multiplied map", Called::MultipliedMap, 0, 10, SQUARES),
    ("fallible map", Called::TryMap, 0, 10, SQUARES),
    ("map with a state", Called::MapInit, 0, 3, COUNTS),
    (
        "multiplied map with a state",
        Called::MultipliedMapInit,
        0,
        3,
        COUNTS,
    ),
    ("fold", Called::Fold, 1, 4, THREE),
    ("fold", Called::Fold, 1, 1, NONE),
    ("fold with a state", Called::FoldInit, 1, 4, THREE),
    ("fold with a state", Called::FoldInit, 1, 1, NONE),
    ("fallible fold", Called::TryFold, 1, 4, THREE),
    ("fallible fold", Called::TryFold, 1, 1, NONE),
    (
        "partition",
        Called::Partition,
        0,
        6,
        [&[0, 20, 40, 1, 3, 5]; 3],
    ),
];

// ---- what their closures do

/// What a state begins with, and a sum that is to be the list's own.
pub fn zero() -> u32 {
    0
}

/// What a sum begins with that tells the segments.
pub fn ten() -> u32 {
    10
}

/// Adds 1 to the state and returns it, whatever the item.
pub fn count(state: &mut u32, _item: u32) -> u32 {
    *state = state.wrapping_add(1);
    *state
}

pub fn add(left: u32, right: u32) -> u32 {
    left.wrapping_add(right)
}

// Adds the item, and counts it in the state.
fn add_counted(sum: u32, state: &mut u32, item: u32) -> u32 {
    *state = state.wrapping_add(1);
    sum.wrapping_add(item)
}

// The sum, by a step that fails nowhere.
fn add_or_fail(sum: u32, item: u32) -> Result<u32, u32> {
    Ok(sum.wrapping_add(item))
}

// The even numbers with ten times themselves, and the odd ones without.
fn tenfold(number: u32) -> (u32, Option<u32>) {
    if number % 2 == 0 {
        (number, Some(number.wrapping_mul(10)))
    } else {
        (number, None)
    }
}

fn square(number: u32) -> u32 {
    number.wrapping_mul(number)
}

/// The square of a number, of which 57 and 99 fail.
pub fn square_or_fail(number: u32) -> Result<u32, u32> {
    if number == 57 || number == 99 {
        Err(number)
    } else {
        Ok(square(number))
    }
}

// ---- the calls

// One value as a list.
fn one(alloc: Global, value: u32) -> Outcome {
    Ok(Vec::from_slice(alloc, &[value])?)
}

// The values, and then the keys.
fn both(parts: (Vec<u32>, Vec<u32>)) -> Result<Vec<u32>, AllocError> {
    let (mut values, keys) = parts;
    values.extend(keys)?;
    Ok(values)
}

// A map that can't fail.
fn map<Rt: Threads + Wait + Sync, S: Strategy>(
    rt: &Rt,
    alloc: Global,
    strategy: &S,
    called: Called,
    numbers: Range<u32>,
) -> Outcome {
    let mapped = match called {
        Called::Map => strategy.map_collect_vec(rt, alloc, SITE, numbers, square),
        Called::MultipliedMap => {
            strategy.map_collect_vec_with_multiplier(rt, alloc, SITE, numbers, 9, square)
        }
        Called::MapInit => strategy.map_init_collect_vec(rt, alloc, SITE, numbers, zero, count),
        _ => strategy.map_init_collect_vec_with_multiplier(
            rt, alloc, SITE, numbers, 9, zero, count,
        ),
    };
    Ok(mapped?)
}

// A fold.
fn fold<Rt: Threads + Wait + Sync, S: Strategy>(
    rt: &Rt,
    alloc: Global,
    strategy: &S,
    called: Called,
    numbers: Range<u32>,
) -> Result<u32, Trouble<u32>> {
    let folded = match called {
        Called::Fold => strategy.fold(rt, alloc, SITE, numbers, ten, add, add),
        Called::FoldInit => strategy.fold_init(
            rt,
            alloc,
            SITE,
            numbers,
            zero,
            ten,
            add_counted,
            add,
        ),
        _ => return strategy.try_fold(rt, alloc, SITE, numbers, ten, add_or_fail, add),
    };
    Ok(folded?)
}

/// Makes such a call.
pub fn call<Rt: Threads + Wait + Sync, S: Strategy>(
    rt: &Rt,
    alloc: Global,
    strategy: &S,
    called: Called,
    numbers: Range<u32>,
) -> Outcome {
    match called {
        Called::TryMap => { strategy.try_map_collect_vec(rt, alloc, SITE, numbers, square_or_fail) }
        Called::Fold | Called::FoldInit | Called::TryFold => {
            one(alloc, fold(rt, alloc, strategy, called, numbers)?)
        }
        Called::Partition => {
            let parts = strategy.map_partition_collect_vec(rt, alloc, SITE, numbers, tenfold)?;
            Ok(both(parts)?)
        }
        _ => map(rt, alloc, strategy, called, numbers),
    }
}

// The same by `Sequential`'s own function of that name.
fn call_own(alloc: Global, called: Called, numbers: Range<u32>) -> Outcome {
    let own = Sequential;
    let mapped = match called {
        Called::Map => own.map_collect_vec(alloc, SITE, numbers, square),
        Called::MultipliedMap => {
            own.map_collect_vec_with_multiplier(alloc, SITE, numbers, 9, square)
        }
        Called::TryMap => {
            return own.try_map_collect_vec(alloc, SITE, numbers, square_or_fail);
        }
        Called::MapInit => own.map_init_collect_vec(alloc, SITE, numbers, zero, count),
        Called::MultipliedMapInit => {
            own.map_init_collect_vec_with_multiplier(alloc, SITE, numbers, 9, zero, count)
        }
        Called::Partition => {
            return Ok(both(own.map_partition_collect_vec(alloc, SITE, numbers, tenfold)?)?);
        }
        _ => return one(alloc, fold_own(called, numbers)?),
    };
    Ok(mapped?)
}

fn fold_own(called: Called, numbers: Range<u32>) -> Result<u32, Trouble<u32>> {
    match called {
        Called::Fold => Ok(Sequential.fold(SITE, numbers, ten, add, add)),
        Called::FoldInit => Ok(Sequential.fold_init(SITE, numbers, zero, ten, add_counted, add)),
        _ => match Sequential.try_fold(SITE, numbers, ten, add_or_fail, add) {
            Ok(sum) => Ok(sum),
            Err(error) => Err(Trouble::Closure(error)),
        },
    }
}

// Stops the test where a call isn't known to return that.
fn is_known(rt: &impl Abort, through: &'static str, shape: usize, row: &Known, found: Outcome) {
    let (name, _, from, end, known) = *row;
    let of: Of = (name, through, end.wrapping_sub(from) as usize);
    let wanted = known.get(shape).expect(rt, "a shape");
    lists(rt, of, found, wanted);
}

// Makes the calls through a strategy, by which they go in that shape.
fn are_known<Rt: Threads + Wait + Abort + Sync, S: Strategy>(
    rt: &Rt,
    alloc: Global,
    (through, strategy): (&'static str, &S),
    shape: usize,
) {
    for known in &KNOWN {
        let found = call(rt, alloc, strategy, known.1, known.2..known.3);
        is_known(rt, through, shape, known, found);
    }
}

#[test]
fn a_list_in_one_piece_takes_one_identity_and_one_state(rt: HostRuntime) {
    let alloc = rt.alloc();
    for known in &KNOWN {
        let found = call_own(alloc, known.1, known.2..known.3);
        is_known(&rt, "Sequential's own", 0, known, found);
    }
    are_known(&rt, alloc, ("Sequential", &Sequential), 0);
    let one = pool(&rt, alloc, 4, 1).expect(&rt, "a pool");
    are_known(&rt, alloc, ("a pool planned for one", &one), 0);
}

// Two threads cut three items into leaves of one, and one thread into leaves of one and two.
#[test]
fn a_list_along_the_shape_takes_two_identities_and_a_state_a_leaf(rt: HostRuntime) {
    let alloc = rt.alloc();
    let two = pool(&rt, alloc, 2, 3).expect(&rt, "a pool");
    are_known(&rt, alloc, ("a pool of two", &two), 1);
    let explorer = Explorer::parallel(&two).expect(&rt, "memory");
    are_known(&rt, alloc, ("an explorer over two", &explorer), 1);
    let one = pool(&rt, alloc, 1, 2).expect(&rt, "a pool");
    are_known(&rt, alloc, ("a pool of one", &one), 2);
}
