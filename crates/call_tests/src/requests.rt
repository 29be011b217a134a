//! Calls over more items than a block for all of them is to be had for: which need none, and that
//! the others are refused before they call anything.
use crate::asks::{BEGUN, DROPPED, asked};
use crate::checks::{Test, all_acts, equal, has, row, through};
use crate::meets::closures;
use crate::refusals::REFUSED;
use commonware_parallel::mocks::{Explorer, Rule};
use commonware_parallel::{Call, Strategy};
use test_calls::calls::{CALLS, Called, Outcome};
use test_calls::every_call::{Act, does};
use test_calls::noting::Noting;
use test_calls::others::{Filling, Rooted};
use test_calls::ready::Ready;
use test_calls::sources::Given;
use test_calls::steps::no_count;
use test_calls::visits::{Times, Visitor};
use test_calls::ways::{Row, Through, Way};
use test_strategies::{SITE, pool};
use test_support::no_memory::all_places;

// How many items each call has: their results take more than 2 MiB. (One of less can be had where
// all places of 1 MiB are held: a block below the stack grows into its guard of 1 MiB.)
const LEN: usize = 280_000;

/// The same of each call: the numbers of a sort take 3 MiB.
pub fn len_of(act: Act) -> usize {
    match act {
        Act::Sort(_) => 786_432,
        _ => LEN,
    }
}

/// How a call goes: in parallel; serially once its strategy was asked; or serially unasked.
#[derive(Clone, Copy)]
pub enum Path {
    Parallel,
    Serial,
    Unasked,
}

/// What becomes of a call for which no large block is to be had.
#[derive(Clone, Copy, Debug, PartialEq, Eq)]
pub enum Fate {
    Succeeds,
    Refused,
    /// Refused before its strategy is asked, as its items have to be gathered first.
    RefusedUnasked,
}

// Whether it needs a place for each item of a source.
fn gathers(ready: Ready) -> bool {
    ready == Ready::FlatMap || ready.is_scan()
}

/// The fate of each call. Maps need a block for their results, and a partition that all items pass,
/// with values that take no place, needs none, nor one that keeps nothing.
pub fn fate_of(act: Act, path: Path) -> Fate {
    match (act, path) {
        (Act::List(_, Given::Iterator | Given::OwnSource), Path::Parallel | Path::Serial) => {
            Fate::RefusedUnasked
        }
        (Act::List(_, Given::Counted), Path::Parallel) => Fate::Refused,
        (Act::List(Called::Fold | Called::FoldInit | Called::TryFold, _), _) => Fate::Succeeds,
        (Act::List(Called::Partition, _), _) => Fate::Succeeds,
        (Act::List(Called::Ready(ready), _), _) if !gathers(ready) => Fate::Succeeds,
        (Act::List(..) | Act::Sort(_) | Act::Fill(..), _) => Fate::Refused,
        (Act::Tree(Rooted::ByLevels | Rooted::OfLeavesByLevels), _) => Fate::Refused,
        // The nodes of its pairs are then a list.
        (Act::Tree(Rooted::OfLeaves), Path::Unasked) => Fate::Refused,
        _ => Fate::Succeeds,
    }
}

/// The calls whose items take no memory, which are made while all large blocks are held; of tiles
/// those by stretches alone, as each row takes long.
pub fn bare_acts(rt: &impl Test) -> Vec<Act> {
    let mut acts = all_acts(rt);
    acts.retain(|act| act.is_bare() && !matches!(act, Act::Fill(Filling::Kernel, _)));
    acts
}

/// The others, for each of which the blocks are taken anew, which takes long: so of the list calls
/// a map and a fold that may fail alone.
pub fn laden_acts(rt: &impl Test) -> Vec<Act> {
    let mut acts = all_acts(rt);
    acts.retain(|act| match act {
        Act::List(Called::TryFold, _) | Act::List(Called::TryMap, Given::Vector) => !act.is_bare(),
        Act::List(..) => false,
        _ => !act.is_bare(),
    });
    acts
}

// Stops the test where a call takes a block that it needs not, or calls a closure before the block
// that it needs is there.
fn takes(
    rt: &impl Test,
    through: &Through,
    of: Row,
    path: Path,
    (planned, starves): (usize, bool),
) {
    let times = Times::new();
    let visited = if starves {
        Visitor::Starves(&times)
    } else {
        Visitor::Counts(&times)
    };
    let made = through.does(rt, of.act, of.len, visited);
    let (outcome, calls) = match (fate_of(of.act, path), path) {
        (Fate::Succeeds, _) => (Ok(()), closures(of.act, of.len, planned)),
        (_, Path::Parallel) if !matches!(of.act, Act::Fill(..)) => (Err(REFUSED), Some(0)),
        // Its results grow as they come.
        _ => (Err(REFUSED), None),
    };
    let calls = calls.unwrap_or(times.items());
    row(rt, of, (made, times.items()), (outcome, calls));
}

/// All places for large blocks but the first one, in which the items of a call have room until the
/// call itself takes what is left of it.
pub fn all_but_one(held: Vec<Vec<u8>>) -> Vec<Vec<u8>> {
    let mut held = held;
    held.as_mut_slice().reverse();
    let _first = held.pop();
    held
}

// The same of each call whose items take no memory, and of the others.
fn all_take(rt: &impl Test, path: Path, (bare, laden): ((Way, usize), (Way, usize))) {
    let (through_bare, through_laden) = (through(rt, bare.0), through(rt, laden.0));
    let (bare_acts, laden_acts) = (bare_acts(rt), laden_acts(rt));
    let held = all_places(rt.alloc()).expect(rt, "places that have an end");
    for act in bare_acts.iter() {
        let of = Row::of(bare.0, *act, len_of(*act));
        takes(rt, &through_bare, of, path, (bare.1, false));
    }
    let held = all_but_one(held);
    for act in laden_acts.iter() {
        // The parts of a sort that go in parallel are too short for such a block.
        if !matches!((*act, path), (Act::Sort(_), Path::Parallel)) {
            let of = Row::of(laden.0, *act, len_of(*act));
            takes(rt, &through_laden, of, path, (laden.1, true));
        }
    }
    drop(held);
}

// One thread for those whose items take memory: where allocations are checked, a thread needs
// places of its own.
#[test]
fn a_call_takes_no_block_for_items_that_it_need_not_gather(rt: HostRuntime) {
    let ways = ((Way::Noting(4), 4), (Way::Noting(1), 1));
    all_take(&rt, Path::Parallel, ways);
}

#[test]
fn a_serial_call_takes_no_block_for_items(rt: HostRuntime) {
    let way = (Way::Explorer(Rule::Parallel, 4, 1), 1);
    all_take(&rt, Path::Unasked, (way, way));
}

// Results of items that take no place: by a map, by one that may fail and by one with a state.
fn forget(_item: usize) {}

fn forget_or_fail(_item: usize) -> Result<(), u32> {
    Ok(())
}

fn forget_by_state(_state: &mut usize, _item: usize) {}

#[test]
fn a_serial_map_gathers_nothing(rt: HostRuntime) {
    let alloc = rt.alloc();
    let one = pool(&rt, alloc, 4, 1).expect(&rt, "a pool");
    let strategy = Explorer::by_rule(&one, Rule::Parallel).expect(&rt, "memory for a handle");
    let held = all_places(alloc).expect(&rt, "places that have an end");
    let plain = strategy.map_collect_vec(&rt, alloc, SITE, 0..LEN, forget);
    let fallible = strategy.try_map_collect_vec(&rt, alloc, SITE, 0..LEN, forget_or_fail);
    let (init, op) = (no_count, forget_by_state);
    let by_state = strategy.map_init_collect_vec(&rt, alloc, SITE, 0..LEN, init, op);
    let made = [plain.is_ok(), fallible.is_ok(), by_state.is_ok()];
    equal(&rt, "maps", made, [true; 3]);
    drop(held);
}

// Stops the test where a call that is refused is asked about or told otherwise.
fn is_untold(rt: &impl Test, act: Act, threads: usize, call: Call) {
    let noting = Noting::new(rt.alloc(), threads).expect(rt, "a log");
    let way = Way::Noting(threads);
    let of = Row { way, act, len: LEN };
    let times = Times::new();
    let made: Outcome = does(rt, &noting, act, LEN, Visitor::Starves(&times));
    row(rt, of, made, Err(REFUSED));
    has(rt, noting.log(), of, &[asked(call), BEGUN, DROPPED]);
}

// With a thread for each sixteen leaves a block of the tree has two, and there are as many tops.
#[test]
fn a_call_that_is_refused_tells_nothing(rt: HostRuntime) {
    let blocks = Call::body_with_multiplier(LEN / 2, 2);
    is_untold(&rt, Act::Tree(Rooted::ByBlocks), LEN / 16, blocks);
    is_untold(&rt, Act::Tree(Rooted::ByLevels), 4, Call::body(LEN / 2));
    is_untold(&rt, Act::Tree(Rooted::OfLeavesByLevels), 4, blocks);
    for called in CALLS {
        let act = Act::List(called, Given::OwnProducer);
        if fate_of(act, Path::Parallel) == Fate::Refused {
            is_untold(&rt, act, 4, act.question(LEN, 4));
        }
    }
}
