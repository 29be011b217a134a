//! What a strategy is asked and told of each call: asked once, at the call's own site, by the
//! call's own numbers, and told once that the run has succeeded, or never where it failed.
use crate::checks::{Test, all_acts, equal, has, row};
use commonware_parallel::{Call, Fault, Grid, Kind, Strategy, Trouble};
use std::num::NonZeroUsize;
use std::ops::Range;
use test_calls::calls::Called;
use test_calls::every_call::{Act, does};
use test_calls::logs::{self, INNER, Line, OUTER, RAN, asked_at};
use test_calls::noting::Noting;
use test_calls::others::{Batched, Rooted};
use test_calls::sources::Given;
use test_calls::visits::Visitor;
use test_calls::ways::{Row, THREADS, Way};
use test_strategies::SITE;

pub const BEGUN: Line = (OUTER, logs::BEGUN, None);

const TOLD: Line = (OUTER, logs::TOLD, None);

pub const DROPPED: Line = (OUTER, logs::DROPPED, None);

const BEGUN_INSIDE: Line = (INNER, logs::BEGUN, None);

const TOLD_INSIDE: Line = (INNER, logs::TOLD, None);

const DROPPED_INSIDE: Line = (INNER, logs::DROPPED, None);

// The question about a call.
pub fn asked(call: Call) -> Line {
    asked_at(OUTER, SITE.column, call)
}

// A question to the strategy of a batch's parts.
fn asked_inside(len: usize) -> Line {
    asked_at(INNER, SITE.column, Call::body(len))
}

/// A strategy of that many threads that writes all down.
pub fn noting(rt: &impl Test, threads: usize) -> Noting {
    Noting::new(rt.alloc(), threads).expect(rt, "a log")
}

// A row through one of four threads.
fn row_of(act: Act, len: usize) -> Row {
    Row::of(Way::Noting(4), act, len)
}

// Stops the test where a call over sixteen items is asked about or told otherwise than once, and
// the strategy of a batch's or of tiles' parts about their map. Of each range of a batch there are
// three parts, but for those of a list that is changed.
fn asks(rt: &impl Test, act: Act, fails: bool, threads: usize) {
    let noting = noting(rt, threads);
    let (log, of) = (noting.log(), Row::of(Way::Noting(threads), act, 16));
    let visitor = if fails {
        Visitor::Fails(log)
    } else {
        Visitor::Writes(log)
    };
    let made = does(rt, &noting, act, 16, visitor);
    let fails = fails && act.may_fail();
    // A batch whose map fails has succeeded where its closure can't fail.
    let (outcome, told) = match act {
        _ if !fails => (Ok(()), TOLD),
        Act::Batch(Batched::TryMap, _) => (Err(Trouble::Closure(7)), TOLD),
        _ => (Err(Trouble::Closure(7)), DROPPED),
    };
    row(rt, of, made, outcome);
    let ask = asked(act.question(16, threads));
    let parts = match act {
        Act::Batch(Batched::Change, _) | Act::Fill(..) => threads,
        Act::Batch(..) => threads.wrapping_mul(3),
        act if act.asks_twice() => {
            let lines = [ask, BEGUN, TOLD, ask, BEGUN, RAN, told];
            return has(rt, log, of, &lines);
        }
        act if act.is_silent() => return has(rt, log, of, &[ask, BEGUN, told]),
        _ => return has(rt, log, of, &[ask, BEGUN, RAN, told]),
    };
    let inside = if fails { DROPPED_INSIDE } else { TOLD_INSIDE };
    let within = asked_inside(parts);
    let lines = [ask, BEGUN, within, BEGUN_INSIDE, RAN, inside, told];
    has(rt, log, of, &lines);
}

// Of a tree each level is asked about.
#[test]
fn each_call_asks_once_and_tells_once(rt: HostRuntime) {
    for act in all_acts(&rt) {
        if !matches!(act, Act::Tree(_)) {
            asks(&rt, act, false, 4);
            asks(&rt, act, false, 7);
        }
    }
}

#[test]
fn a_call_that_fails_tells_nothing(rt: HostRuntime) {
    for act in all_acts(&rt) {
        if !matches!(act, Act::Tree(_)) {
            asks(&rt, act, true, 4);
        }
    }
}

// Over the list that takes no memory, as each call asks by the same code, and many items take long;
// and a batch that is whole.
#[test]
fn a_call_over_many_items_or_none_asks_once(rt: HostRuntime) {
    let map = Act::List(Called::Map, Given::OwnProducer);
    let fold = Act::List(Called::Fold, Given::OwnProducer);
    let batch = Act::Batch(Batched::TryBatch, usize::MAX);
    for act in [map, fold, batch] {
        for len in [0, 1, 1_100_000] {
            let (noting, of) = (noting(&rt, 4), row_of(act, len));
            let made = does(&rt, &noting, act, len, Visitor::Passes);
            row(&rt, of, made, Ok(()));
            let lines = [asked(act.question(len, 1)), BEGUN, TOLD];
            has(&rt, noting.log(), of, &lines);
        }
    }
}

// No value for a part of a row.
fn none_of(_row: usize, _columns: Range<usize>) -> u64 {
    0
}

#[test]
fn a_kernel_that_fails_or_is_refused_tells_nothing(rt: HostRuntime) {
    let (alloc, one) = (rt.alloc(), NonZeroUsize::MIN);
    let refused = noting(&rt, 4);
    let add = u64::wrapping_add;
    let folded = refused.fold_rows(&rt, alloc, SITE, 1 << 60, 0, one, none_of, add);
    equal(&rt, "fold_rows", folded.err(), Some(Fault::Memory));
    let failed = noting(&rt, 4);
    let grids = [Grid {
        rows: 4,
        tile_cost: one,
    }];
    let tried = failed.try_run_tiles(&rt, alloc, SITE, 10, &grids, 1, |_| Err::<(), u32>(7));
    equal(&rt, "try_run_tiles", tried, Err(Trouble::Closure(7)));
    for (noting, len, work) in [(refused, 0, 1 << 60), (failed, 10, 44)] {
        let call = Call {
            kind: Kind::Tiles,
            len,
            work,
            max_parts: 4,
        };
        let lines = [asked(call), BEGUN, DROPPED];
        has(&rt, noting.log(), row_of(Act::Rest, work), &lines);
    }
}

#[test]
fn a_whole_batch_asks_once_and_its_map_asks_nobody(rt: HostRuntime) {
    for batched in [
        Batched::Map,
        Batched::TryMap,
        Batched::TryBatch,
        Batched::Change,
    ] {
        let noting = noting(&rt, 4);
        let act = Act::Batch(batched, 9);
        let of = row_of(act, 16);
        let made = does(&rt, &noting, act, 16, Visitor::Writes(noting.log()));
        row(&rt, of, made, Ok(()));
        let whole = asked(act.question(16, 1));
        has(&rt, noting.log(), of, &[whole, BEGUN, RAN, TOLD]);
    }
}

// Stops the test where a tree asks or tells otherwise than of calls of these lengths, with these
// multipliers.
fn tree_asks(rt: &impl Test, rooted: Rooted, count: usize, calls: &[(usize, usize)]) {
    let noting = noting(rt, 4);
    let of = row_of(Act::Tree(rooted), count);
    let made = does(rt, &noting, of.act, count, Visitor::Writes(noting.log()));
    row(rt, of, made, Ok(()));
    let mut lines = Vec::new(rt.alloc());
    for (len, multiplier) in calls {
        let call = Call::body_with_multiplier(*len, *multiplier);
        let four = [asked(call), BEGUN, RAN, TOLD];
        let added = lines.extend_from_slice(&four);
        added.expect(rt, "memory for lines");
    }
    has(rt, noting.log(), of, lines.as_slice());
}

// Of fewer than sixteen leaves a thread there are no blocks.
#[test]
fn a_tree_asks_about_its_blocks_and_the_pairs_of_each_level(rt: HostRuntime) {
    let levels = [(6, 1), (3, 1), (2, 1), (1, 1)];
    tree_asks(&rt, Rooted::ByLevels, 13, &levels);
    let of_leaves = [(7, 2), (3, 1), (2, 1), (1, 1)];
    tree_asks(&rt, Rooted::OfLeavesByLevels, 13, &of_leaves);
    let few = [(31, 1), (16, 1), (8, 1), (4, 1), (2, 1), (1, 1)];
    tree_asks(&rt, Rooted::ByBlocks, 63, &few);
    let some = [(32, 2), (16, 1), (8, 1), (4, 1), (2, 1), (1, 1)];
    let more = [(33, 4), (16, 1), (8, 1), (4, 1), (2, 1), (1, 1), (1, 1)];
    for rooted in [Rooted::ByBlocks, Rooted::OfLeaves] {
        tree_asks(&rt, rooted, 64, &some);
        tree_asks(&rt, rooted, 130, &more);
    }
}

// Of sixteen leaves a thread there are blocks of two, whatever the number of threads.
#[test]
fn a_tree_asks_about_its_blocks_first(rt: HostRuntime) {
    for threads in THREADS {
        let (tops, len) = (threads.wrapping_mul(8), threads.wrapping_mul(16));
        let blocks = asked(Call::body_with_multiplier(tops, 2));
        for rooted in [Rooted::ByBlocks, Rooted::OfLeaves] {
            let noting = noting(&rt, threads);
            let of = Row::of(Way::Noting(threads), Act::Tree(rooted), len);
            let made = does(&rt, &noting, of.act, len, Visitor::Passes);
            let first = noting.log().lines(&rt).first().copied();
            row(&rt, of, (made, first), (Ok(()), Some(blocks)));
        }
    }
}
