//! That as many closures of a call are under way at once as the strategy has threads, and no more;
//! how often a list is cut, once less often than it has segments, of which there are at most twice
//! as many as threads; and how often a call calls its closures and begins a state.
use crate::checks::{Test, all_acts, row, through};
use commonware_parallel::mocks::Rule;
use test_calls::calls::Called;
use test_calls::every_call::Act;
use test_calls::meetings::Meeting;
use test_calls::others::{Batched, Filling, PART, Rooted, Sorted};
use test_calls::ready::Ready;
use test_calls::sources::Given;
use test_calls::visits::{Times, Visitor};
use test_calls::ways::{Row, THREADS, Through, Way, threads_between};

// For how many turns a meeting goes on, so that one too many may come. One of more than four
// threads doesn't go on, as it would take long.
fn turns(threads: usize) -> u32 {
    if threads > 4 { 0 } else { 20 }
}

// The greatest power of two that isn't above the number, which isn't 0. A list of about as many
// items as there are threads, tiles, and the levels of a tree needn't be shared by all of them
// where their number is no power of two.
pub fn power_within(number: usize) -> usize {
    let halvings = number.checked_ilog2().unwrap_or(0);
    1usize.checked_shl(halvings).unwrap_or(1)
}

// How many closures meet, at least and at most, of a call over that many parts.
fn bounds(act: Act, threads: usize, parts: usize) -> (usize, usize) {
    let most = threads.min(parts);
    let is_even = threads == 0 || parts % threads == 0;
    match act {
        Act::Join => (2, 2),
        // It has as many ranges as are planned for its threads, once or twice.
        Act::Batch(..) if !is_even => (power_within(most), threads),
        Act::Batch(..) => (threads, threads),
        // Chunks of as many items as a share has, which needn't be as many as there are threads.
        Act::Change(_) if !is_even => (most.div_ceil(2), most),
        Act::Change(_) | Act::Sort(_) => (most, most),
        Act::List(..) if parts >= threads.saturating_mul(2) => (threads, threads),
        _ => (power_within(most), most),
    }
}

// How many items so many parts of a call have.
fn items(act: Act, parts: usize) -> usize {
    match act {
        Act::Sort(_) => parts.saturating_mul(PART),
        Act::Change(2) => parts.saturating_mul(2),
        Act::Tree(_) if parts > 5000 => parts / 4,
        Act::Tree(_) => parts.saturating_mul(16).wrapping_add(5),
        _ => parts,
    }
}

// Stops the test where fewer closures of a call meet, or more.
fn meet(rt: &impl Test, through: &Through, of: Row, (least, most): (usize, usize)) {
    let meeting = Meeting::of(least, turns(most));
    let made = through.does(rt, of.act, of.len, Visitor::Meets(&meeting));
    let met = meeting.most();
    row(rt, of, (made, met), (Ok(()), met.max(least).min(most)));
}

// A meeting for each level of a tree of so many leaves.
fn levels_of(rt: &impl Test, threads: usize, leaves: usize) -> Vec<Meeting> {
    let mut levels = Vec::new(rt.alloc());
    let mut nodes = leaves;
    for _ in 0..64u32 {
        if nodes > 1 {
            let (least, most) = level_bounds(threads, nodes);
            let meeting = Meeting::of(least, turns(most));
            levels.push(meeting).expect(rt, "memory for meetings");
            nodes = nodes.div_ceil(2);
        }
    }
    levels
}

// How many pairs of a level of so many nodes meet.
fn level_bounds(threads: usize, nodes: usize) -> (usize, usize) {
    let pairs = nodes / 2;
    let most = threads.min(pairs);
    if pairs < threads.saturating_mul(2) {
        (power_within(most), most)
    } else {
        (threads, threads)
    }
}

// Whether threads come to a level of so many nodes of a tree when each is done with a long block,
// maybe long after one another.
fn is_late(leaves: usize, nodes: usize) -> bool {
    leaves > 100_000 && nodes < 1000
}

// The same of the pairs of each level of a tree, of sixteen leaves a thread and more, of which
// there are blocks.
fn pairs_meet(rt: &impl Test, through: &Through, of: Row, threads: usize) {
    let levels = levels_of(rt, threads, of.len);
    let made = through.does(rt, of.act, of.len, Visitor::MeetsByLevel(levels.as_slice()));
    row(rt, of, made, Ok(()));
    let mut nodes = of.len;
    for meeting in levels.iter() {
        let (least, most) = level_bounds(threads, nodes);
        let least = if is_late(of.len, nodes) { 1 } else { least };
        let met = meeting.most();
        row(rt, of, (nodes, met), (nodes, met.max(least).min(most)));
        nodes = nodes.div_ceil(2);
    }
}

// The same of the first round in which parts of a sort are merged: half as many meet, whose
// comparisons are of numbers of two parts.
fn merges_meet(rt: &impl Test, through: &Through, of: Row, parts: usize) {
    let levels = [Meeting::of(parts / 2, 0)];
    let made = through.does(rt, of.act, of.len, Visitor::MeetsByLevel(&levels));
    let met = levels[0].most();
    row(rt, of, (made, met), (Ok(()), met.max(parts / 2)));
}

// The same of a call over so many parts. Where closures are called with neighbours each segment has
// some.
fn call_meets(rt: &impl Test, through: &Through, of: Row, (threads, parts): (usize, usize)) {
    let parts = if of.act.is_of_pairs() {
        parts.saturating_mul(8)
    } else {
        parts
    };
    let of = Row {
        len: items(of.act, parts),
        ..of
    };
    match of.act {
        // One of its bodies runs.
        Act::Run(_) => {}
        act if act.is_silent() => {}
        // Not each segment of so few has two neighbours.
        act if act.is_of_pairs() && parts < threads.saturating_mul(4) => {}
        // A batch of one range is whole, and not shared.
        Act::Batch(..) if parts < 2 => {}
        Act::Sort(_) if parts <= threads && parts < 64 => {
            meet(rt, through, of, (parts, parts));
            // A key is of one number.
            if matches!(of.act, Act::Sort(Sorted::Stable | Sorted::Unstable)) {
                merges_meet(rt, through, of, parts);
            }
        }
        // More parts than threads take long, and of 64 each thread that is started gets two.
        Act::Sort(_) => {}
        Act::Tree(_) => pairs_meet(rt, through, of, threads),
        act => meet(rt, through, of, bounds(act, threads, parts)),
    }
}

// The same of each call, over all sources or one's own alone, as the others take long; and of tiles
// on rows that are cut.
fn all_meet(rt: &impl Test, (way, threads): (Way, usize), is_whole: bool, parts: &[usize]) {
    let through = through(rt, way);
    for act in all_acts(rt) {
        if is_whole || act.is_over_own() {
            for share in parts {
                call_meets(rt, &through, Row::of(way, act, 0), (threads, *share));
            }
        }
    }
    for filling in [Filling::Stretches, Filling::Kernel] {
        for rows in [1, 3] {
            let of = Row::of(way, Act::Fill(filling, 20_000), rows);
            meet(rt, &through, of, (power_within(threads), threads));
        }
    }
}

// Over eight items by one's own producer, and by each source.
#[test]
fn as_many_closures_of_each_call_meet_as_there_are_threads(rt: HostRuntime) {
    all_meet(&rt, (Way::Noting(4), 4), true, &[8]);
    all_meet(&rt, (Way::Noting(4), 4), false, &[2, 4, 5]);
}

// By this clock each run takes so long that its policy keeps it parallel.
#[test]
fn as_many_meet_whatever_the_strategy(rt: HostRuntime) {
    for way in [
        Way::Explorer(Rule::Parallel, 4, 4),
        Way::Learning(4, 2_500_000),
        Way::Pool(4, 8),
    ] {
        all_meet(&rt, (way, 4), false, &[4, 40]);
    }
    // A join goes in parallel whatever its pool has or is planned for, and chunks of any size do.
    let (one, four) = (Way::Pool(1, 1), Way::Pool(4, 4));
    meet(&rt, &through(&rt, one), Row::of(one, Act::Join, 2), (2, 2));
    let chunks = Row::of(four, Act::Change(10), 40);
    meet(&rt, &through(&rt, four), chunks, (4, 4));
}

// The same by each of these numbers of threads: of as many parts, of ten times as many, and by few
// threads of some thousands, and by others of three.
fn numbers_meet(rt: &impl Test, least: usize, most: usize) {
    for threads in threads_between(least, most) {
        let many = threads.saturating_mul(5000);
        let other = if *threads > 4 { 3 } else { many };
        let parts = [*threads, threads.saturating_mul(10), other];
        all_meet(rt, (Way::Pool(*threads, *threads), *threads), false, &parts);
    }
}

#[test]
fn as_many_meet_whatever_the_number_of_threads(rt: HostRuntime) {
    numbers_meet(&rt, 2, 6);
}

#[test]
fn as_many_meet_of_more_threads(rt: HostRuntime) {
    numbers_meet(&rt, 7, 12);
}

#[test]
fn many_threads_meet_and_as_many_where_more_are_planned(rt: HostRuntime) {
    numbers_meet(&rt, 17, 65);
}

// Which long calls are tried together, in a test of their own, and over how many items: a million,
// but of those that take long for each. Each list call has one body for all sources, and a source
// that isn't one's own has the fallible map and fold alone.
fn group_of(act: Act) -> (&'static str, usize) {
    match act {
        _ if act.is_silent() => ("none", 0),
        Act::List(Called::Ready(_), Given::Iterator) => ("none", 0),
        Act::List(Called::Ready(_), _) | Act::Scan(_) => ("ready", 1_000_001),
        Act::List(
            Called::Fold | Called::FoldInit | Called::TryFold | Called::Partition,
            Given::OwnProducer,
        ) => ("folds", 1_000_001),
        Act::List(_, Given::OwnProducer) => ("maps", 1_000_001),
        Act::List(..) if act.may_fail() => ("sources", 100_001),
        Act::List(..) | Act::Run(_) => ("none", 0),
        Act::Sort(_) => ("sorts", 300_001),
        Act::Fill(..) => ("tiles", 300_001),
        Act::Tree(Rooted::ByLevels | Rooted::OfLeavesByLevels) => ("trees", 10_001),
        Act::Tree(_) => ("trees", 300_001),
        _ => ("changes", 1_000_001),
    }
}

// Stops the test where two closures of such a call don't meet, or more. Two threads share it, and a
// batch has a hundred ranges.
fn long_calls_meet(rt: &impl Test, group: &str) {
    let way = Way::Pool(2, 100);
    let through = through(rt, way);
    for act in all_acts(rt) {
        let (own, len) = group_of(act);
        let of = Row { way, act, len };
        match act {
            _ if own != group => {}
            Act::Tree(_) => pairs_meet(rt, &through, of, 2),
            _ => meet(rt, &through, of, (2, 2)),
        }
    }
}

#[test]
fn two_closures_of_each_long_map_meet(rt: HostRuntime) {
    long_calls_meet(&rt, "maps");
}

#[test]
fn two_closures_of_each_long_fold_meet(rt: HostRuntime) {
    long_calls_meet(&rt, "folds");
}

#[test]
fn two_closures_of_each_long_ready_call_meet(rt: HostRuntime) {
    long_calls_meet(&rt, "ready");
}

#[test]
fn two_closures_over_each_long_source_meet(rt: HostRuntime) {
    long_calls_meet(&rt, "sources");
}

#[test]
fn two_closures_of_each_long_sort_meet(rt: HostRuntime) {
    long_calls_meet(&rt, "sorts");
}

#[test]
fn two_closures_of_each_long_change_and_batch_meet(rt: HostRuntime) {
    long_calls_meet(&rt, "changes");
}

#[test]
fn two_closures_of_long_tiles_meet(rt: HostRuntime) {
    long_calls_meet(&rt, "tiles");
}

#[test]
fn two_closures_of_long_trees_meet(rt: HostRuntime) {
    long_calls_meet(&rt, "trees");
}

// How often a call calls its closures, but one whose comparisons nobody has counted.
pub fn closures(act: Act, len: usize, planned: usize) -> Option<usize> {
    match act {
        Act::Sort(_) => None,
        act if act.is_of_pairs() => None,
        act if act.is_silent() => Some(0),
        Act::List(Called::Ready(Ready::DedupBy), _) => Some(len.saturating_sub(1)),
        Act::Join => Some(2),
        Act::Run(_) => Some(1),
        Act::Change(2) => Some(len.div_ceil(2)),
        Act::Batch(Batched::Change, _) => Some(planned),
        Act::Batch(..) => Some(planned.saturating_mul(3)),
        Act::Tree(_) => Some(len.saturating_sub(1)),
        _ => Some(len),
    }
}

// Stops the test where a thread has more of such a call than its share: each of them, in turn, is
// held up until the others have done so many quarters of it.
fn shares(rt: &impl Test, act: Act, (threads, quarters): (usize, usize)) {
    let way = Way::Pool(threads, threads);
    let (through, of) = (through(rt, way), Row::of(way, act, 32_768));
    let calls = closures(act, of.len, threads).unwrap_or(0);
    // (of a tree the tops of its blocks come later)
    let enough = (calls / 4).saturating_mul(quarters).saturating_sub(64);
    for held in 0..threads {
        let times = Times::new();
        let visited = Visitor::Holds(&times, threads, held, enough);
        let made = through.does(rt, act, of.len, visited);
        row(rt, of, (made, held, times.counted()[1]), (Ok(()), held, 0));
    }
}

#[test]
fn no_thread_has_more_than_its_share(rt: HostRuntime) {
    for act in all_acts(&rt) {
        let is_list = matches!(act, Act::List(_, Given::OwnProducer) | Act::Change(_));
        let is_by_blocks = matches!(act, Act::Tree(Rooted::ByBlocks | Rooted::OfLeaves));
        if is_by_blocks || is_list && !act.is_of_pairs() && !act.is_silent() {
            shares(&rt, act, (2, 2));
            shares(&rt, act, (4, 3));
        }
    }
}

// How many states a call begins: one for each segment, or for each worker of tiles.
fn states(act: Act, segments: usize, workers: usize) -> usize {
    match act {
        Act::List(Called::MapInit | Called::MultipliedMapInit | Called::FoldInit, _) => segments,
        Act::Fill(Filling::Stretches, _) => workers,
        _ => 0,
    }
}

// Stops the test where a call doesn't cut its list into so many segments, call its closure once for
// each item, and begin a state for each segment. Only the list of one's own tells its cuts.
fn cuts(rt: &impl Test, way: Way, (threads, segments): (usize, usize), len: usize) {
    let through = through(rt, way);
    for act in all_acts(rt) {
        let is_own = matches!(act, Act::List(_, Given::OwnProducer));
        // Only one of one's own tells its cuts. (By four threads the states over others are
        // counted.)
        if !is_own && (len > 1000 || !act.is_over_own() && threads != 4) {
            continue;
        }
        let of = Row { way, act, len };
        let times = Times::new();
        let made = through.does(rt, act, len, Visitor::Counts(&times));
        let cut = segments.saturating_sub(1).wrapping_mul(usize::from(is_own));
        let states = states(act, segments, threads);
        let calls = closures(act, len, threads).unwrap_or(times.items());
        let found = (made, times.counted());
        row(rt, of, found, (Ok(()), [calls, states, cut]));
    }
}

#[test]
fn each_list_call_cuts_a_list_into_segments_and_begins_a_state_for_each(rt: HostRuntime) {
    for threads in THREADS {
        let of = (threads, power_within(threads).saturating_mul(2));
        cuts(&rt, Way::Noting(threads), of, 1000);
        // By this clock each run takes so long that its policy keeps it parallel.
        if threads > 1 {
            cuts(&rt, Way::Learning(threads, 10_000_000), of, 1001);
        }
    }
    // Planned for fewer, a list is shared by all threads.
    cuts(&rt, Way::Pool(4, 2), (4, 8), 1001);
    cuts(&rt, Way::Noting(4), (4, 8), 1_000_001);
    // What goes serially is one segment.
    cuts(&rt, Way::Explorer(Rule::Serial, 4, 4), (1, 1), 1000);
    cuts(&rt, Way::Explorer(Rule::Parallel, 4, 1), (1, 1), 1000);
}
