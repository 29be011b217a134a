//! That each call succeeds through each strategy; and requests of memory that are refused, each in
//! its turn: the result is the right one or `Memory`, each item is dropped once, and the call
//! succeeds in the end.
//!
//! All memory is taken before each call but for a room, of which each further try is left 16 bytes
//! more, so that the first request is refused, then the second, and so on. Where memory has no end
//! (`no_memory`) each call has to succeed at once. The test that makes each call twice is for runs
//! in which one allocation fails.
use crate::checks::{Test, all_acts, equal, row, through};
use commonware_parallel::mocks::{ExploreError, Rule, explore};
use commonware_parallel::rayon::ThreadPoolBuildError;
use commonware_parallel::{Chooser, Fault, Trouble};
use test_calls::calls::{Called, Outcome};
use test_calls::every_call::{Act, acts};
use test_calls::visits::Visitor;
use test_calls::ways::{Row, Through, Way, ways};
use test_support::no_memory::{ROOM, all_memory, greatest_block, hold_rest};

// The strategies, one of each kind.
const WAYS: [Way; 6] = [
    Way::Sequential,
    Way::Noting(4),
    Way::Pool(4, 4),
    Way::Learning(2, 0),
    Way::Explorer(Rule::Parallel, 4, 4),
    Way::Explorer(Rule::Seeded(1), 2, 2),
];

/// Memory was refused.
pub const REFUSED: Trouble<u32> = Trouble::Fault(Fault::Memory);

// Whether that was refused. It succeeds otherwise.
fn is_refused(rt: &impl Test, of: Row, found: Outcome) -> bool {
    if found == Err(REFUSED) {
        return true;
    }
    row(rt, of, found, Ok(()));
    false
}

fn search(rt: &impl Test) -> Outcome {
    match explore(rt, rt.alloc(), |explorer| explorer.planning().get()) {
        Ok(8) => Ok(()),
        Err(ExploreError::Build(ThreadPoolBuildError::Memory)) => Err(REFUSED),
        _ => Err(Trouble::Closure(8)),
    }
}

// After the first call that is refused each one has to succeed.
fn succeeds(rt: &impl Test, of: Row, found: Outcome, refused: &mut bool) {
    if *refused {
        row(rt, of, found, Ok(()));
    } else {
        *refused = is_refused(rt, of, found);
    }
}

// Makes each call twice with that many items. A strategy's own making may be what is refused.
fn try_twice(rt: &impl Test, way: Way, len: usize, refused: &mut bool) {
    let (Ok(through), Ok(acts)) = (Through::of(rt, way), acts(rt.alloc())) else {
        return succeeds(rt, Row::of(way, Act::Rest, len), Err(REFUSED), refused);
    };
    for act in acts.iter().chain(&[Act::Job]) {
        for _ in 0..2u32 {
            let of = Row::of(way, *act, len);
            let made = through.does(rt, *act, len, Visitor::Passes);
            succeeds(rt, of, made, refused);
        }
    }
}

#[test]
fn each_call_succeeds_or_is_refused(rt: HostRuntime) {
    let mut refused = false;
    for way in WAYS {
        for len in [0, 1, 2, 9, 1000] {
            try_twice(&rt, way, len, &mut refused);
        }
    }
    for _ in 0..2u32 {
        let of = Row::of(Way::Sequential, Act::Rest, 0);
        succeeds(&rt, of, search(&rt), &mut refused);
    }
}

// Tries a call with more and more memory, until it succeeds: how often it was refused.
fn refusals(rt: &impl Test, through: &Through, of: Row) -> u64 {
    for step in 0..1000u64 {
        let taken = (step as usize).saturating_mul(16);
        let plug = greatest_block(rt.alloc(), ROOM.saturating_sub(taken));
        let made = if matches!(of.act, Act::Rest) {
            search(rt)
        } else {
            through.does(rt, of.act, of.len, Visitor::Passes)
        };
        let is_refused = is_refused(rt, of, made);
        drop(plug);
        if !is_refused {
            return step;
        }
    }
    panic!(rt; "{of:?} doesn't succeed")
}

// A search stands in the place of a rest. Each call has a room of its own, and what it leaves of
// that the next one hasn't: as glibc keeps small blocks at hand where they lie, a room that was used
// isn't whole any more. So the lists are short, and a tree has just enough leaves for blocks.
#[test]
fn each_growth_is_refused_in_turn(rt: HostRuntime) {
    let (acts, alloc) = (all_acts(&rt), rt.alloc());
    let mut standing = Vec::new(alloc);
    let mut rooms = Vec::new(alloc);
    for way in WAYS {
        let one = (way, through(&rt, way));
        standing.push(one).expect(&rt, "memory");
        for _ in 0..acts.len().saturating_add(2) {
            let room = Vec::<u8>::with_capacity(alloc, ROOM).expect(&rt, "memory");
            rooms.push(room).expect(&rt, "memory");
        }
    }
    let mut held = all_memory(alloc).unwrap_or(Vec::new(alloc));
    let has_end = held.len() > 0;
    let mut total = 0u64;
    for (way, through) in standing.iter() {
        for act in acts.iter().chain(&[Act::Job, Act::Rest]) {
            drop(rooms.pop());
            let len = if matches!(*act, Act::Tree(_)) { 17 } else { 9 };
            let of = Row::of(*way, *act, len);
            let refused = refusals(&rt, through, of);
            // A serial fold over items that take none takes no memory.
            let is_fold = matches!(*act, Act::List(Called::Fold | Called::TryFold, _));
            if *way == Way::Sequential && is_fold && act.is_bare() {
                row(&rt, of, refused, 0);
            }
            total = total.saturating_add(refused);
            if has_end {
                hold_rest(alloc, &mut held);
            }
        }
    }
    equal(&rt, "some are refused", total > 0, has_end);
    drop(held);
    let _told = eprintln!(&rt; "{total} calls were refused");
}

// Over each source by a few strategies, and by the others over one's own and few lengths: what a
// call returns is a clause.
#[test]
fn each_call_succeeds_through_each_strategy(rt: HostRuntime) {
    for way in ways(rt.alloc()).expect(&rt, "memory for a table") {
        let through = through(&rt, way);
        let is_whole = matches!(way, Way::Sequential | Way::Noting(_) | Way::Pool(4, _));
        for act in all_acts(&rt) {
            for len in [0, 1, 7, 100] {
                if is_whole || act.is_over_own() && (len == 0 || len == 7) {
                    let made = through.does(&rt, act, len, Visitor::Passes);
                    row(&rt, Row::of(way, act, len), made, Ok(()));
                }
            }
        }
    }
}
