//! That blocks of memory are given back: of a home by the count of a heap; of calls by the size of
//! the process. Where allocations are checked, as by `rt try`, small blocks stay with the process
//! once they are freed, and large ones don't.
use crate::checks::{Test, all_acts, equal, row, through};
use crate::requests::{Fate, Path, bare_acts, fate_of, len_of};
use commonware_parallel::mocks::explore;
use commonware_parallel::rayon::ThreadPoolBuilder;
use commonware_parallel::{Chooser, Clock, Fault, Rayon, Strategy, Trouble};
use futures::executor::block_on;
use linked_list_allocator::LocalHeap;
use parallel_bridge::window::home::Home;
use std::io::Eprint;
use std::random::RandomSource;
use std::rt::Files;
use std::sync::Arc;
use test_calls::calls::Called;
use test_calls::clocks::Stepping;
use test_calls::every_call::Act;
use test_calls::sources::Given;
use test_calls::steps::Gives;
use test_calls::visits::{Times, Visitor};
use test_calls::ways::{Row, Through, Way};
use test_strategies::{SITE, learning, pool};
use test_support::no_memory::{all_places, take_all};
use test_support::{holds, processes, same};

#[test]
fn a_home_gives_its_block_back(rt: HostRuntime) {
    let heap = LocalHeap::new(rt.alloc(), 65_536).expect(&rt, "memory for a heap");
    let items = Vec::from_slice(&heap, &[1u64, 2, 3]).expect(&rt, "memory");
    holds!(&rt, heap.used() > 0);
    let (window, home) = Home::adopt(items);
    home.free(window);
    equal(&rt, "adopted", heap.used(), 0);
    let (window, home) = Home::<u64, _>::reserve(&heap, 100).expect(&rt, "memory");
    holds!(&rt, heap.used() >= 800);
    home.free(window);
    equal(&rt, "reserved", heap.used(), 0);
    let items = Vec::from_slice(&heap, &[1u64, 2, 3]).expect(&rt, "memory");
    let (window, home) = Home::adopt(items);
    let items = window.into_vec(home);
    same!(&rt, items.as_slice(), [1, 2, 3].as_slice());
    holds!(&rt, heap.used() > 0);
    drop(items);
    equal(&rt, "handed over", heap.used(), 0);
}

// How many KiB this process has of that: of addresses, now or at most, or of memory.
fn kibibytes(rt: &(impl Test + Files), name: &str) -> u64 {
    processes::figure(rt, name).expect(rt, "a count")
}

// Makes a call some times, each closure of which does that. It fails where it says so.
fn make(rt: &impl Test, through: &Through, of: Row, turns: u32, fails: usize, kind: Block) {
    for _ in 0..turns {
        let times = Times::new();
        let visited = match kind {
            Block::Small | Block::Refused => Visitor::FailsAt(&times, fails),
            Block::Large => Visitor::Roams(&times, fails, false),
            Block::Starved => Visitor::Roams(&times, fails, true),
        };
        let wanted = match kind {
            Block::Starved | Block::Refused => Err(Trouble::Fault(Fault::Memory)),
            _ if of.act.may_fail() && fails < of.len => Err(Trouble::Closure(7)),
            _ => Ok(()),
        };
        row(rt, of, through.does(rt, of.act, of.len, visited), wanted);
    }
}

// What the items of a call lie in: small blocks; a large one; or one while no other is to be had, so
// that a map is refused its results. Or none is to be had meanwhile, and the call is refused.
#[derive(Clone, Copy)]
enum Block {
    Small,
    Large,
    Starved,
    Refused,
}

// Stops the test where the process grows by a block for each call, in each of some tries: in one of
// them no thread has got a store of its own. A small one is seen in a thousand calls by the
// memory, and a large one at once by the addresses.
fn gives_back(rt: &(impl Test + Files), through: &Through, of: Row, fails: usize, kind: Block) {
    let (name, enough, turns) = match kind {
        Block::Small => ("RssAnon:", 16, 1000),
        // (each of them fills a block first, which takes long)
        Block::Refused => ("RssAnon:", 12, 500),
        _ => ("VmSize:", 40_000, 1),
    };
    let mut least = u64::MAX;
    for _ in 0..12u32 {
        let before = kibibytes(rt, name);
        make(rt, through, of, turns, fails, kind);
        least = least.min(kibibytes(rt, name).saturating_sub(before));
        if least < enough {
            return;
        }
    }
    let kept = ("KiB that are kept", fails, least);
    row(rt, of, kept, ("KiB that are kept", fails, 0));
}

// Each call over owned items, which ends well or fails; and a map whose results would take as much
// as such a block, which fails at once.
#[test]
fn a_call_gives_the_blocks_of_its_items_and_results_back(rt: HostRuntime) {
    for way in [Way::Sequential, Way::Pool(2, 2)] {
        let through = through(&rt, way);
        for act in all_acts(&rt) {
            if matches!(
                act,
                Act::List(_, Given::Vector | Given::Iterator | Given::Pairs)
            ) {
                let of = Row { way, act, len: 16 };
                gives_back(&rt, &through, of, usize::MAX, Block::Large);
                if act.may_fail() {
                    gives_back(&rt, &through, of, 3, Block::Large);
                }
            }
        }
        let act = Act::List(Called::TryMap, Given::OwnProducer);
        let len = 8usize << 20;
        gives_back(&rt, &through, Row { way, act, len }, 0, Block::Large);
    }
}

#[test]
fn a_call_that_is_refused_gives_the_block_of_its_items_back(rt: HostRuntime) {
    for (way, called) in [
        (Way::Sequential, Called::MapInit),
        (Way::Pool(2, 2), Called::Map),
        (Way::Pool(2, 2), Called::TryMap),
    ] {
        let of = Row::of(way, Act::List(called, Given::Vector), 262_144);
        gives_back(&rt, &through(&rt, way), of, usize::MAX, Block::Starved);
    }
}

// What is made and dropped: a block of 64 bytes, a search, a job that is waited for, one that a
// policy has measured and that goes with it, and a pool.
#[derive(Clone, Copy, Debug, PartialEq, Eq)]
enum Made {
    Block,
    Search,
    Job,
    MeasuredJob,
    Pool,
}

/// Spawns a job and waits for it.
pub fn wait_for_job<C: Clock>(rt: &(impl Test + RandomSource), strategy: &Rayon<C>) {
    let spawned = strategy.spawn(rt, rt.alloc(), SITE, 1, Gives(7));
    let given = block_on(rt, spawned.expect(rt, "a job"));
    equal(rt, "a job", given.expect(rt, "a queue"), 7);
}

// A pool that learns, and its clock's reading.
fn learning_pool(rt: &impl Test) -> Rayon<Stepping> {
    let clock = Stepping::new(rt.alloc(), 1000).expect(rt, "a clock");
    learning(rt, rt.alloc(), 4, clock).expect(rt, "a pool")
}

fn make_one(rt: &(impl Test + RandomSource), made: Made) {
    let alloc = rt.alloc();
    match made {
        Made::Block => drop(Vec::<u8>::with_capacity(alloc, 64).expect(rt, "memory")),
        Made::Search => {
            let told = explore(rt, alloc, |explorer| explorer.planning().get());
            equal(rt, "a search", told.expect(rt, "memory"), 8);
        }
        Made::Job => wait_for_job(rt, &pool(rt, alloc, 4, 4).expect(rt, "a pool")),
        Made::MeasuredJob => wait_for_job(rt, &learning_pool(rt)),
        Made::Pool => {
            let builder = ThreadPoolBuilder::new().num_threads(4).unstarted_workers();
            let built = builder.build(rt, alloc);
            equal(rt, "a pool", built.is_ok(), true);
        }
    }
}

// By how many KiB the process grows while as many are made again, of which each is dropped.
fn growth_by(rt: &(impl Test + Files + RandomSource), made: Made, many: u32) -> u64 {
    let mut before = 0u64;
    for turn in 0..many.saturating_mul(2) {
        if turn == many {
            before = kibibytes(rt, "RssAnon:");
        }
        make_one(rt, made);
    }
    kibibytes(rt, "RssAnon:").saturating_sub(before)
}

// Whether each block that is freed stays with the process.
fn stays(rt: &(impl Test + Files + RandomSource + Eprint)) -> bool {
    let stays = growth_by(rt, Made::Block, 40_000) >= 1_024;
    if stays {
        let _told = eprintln!(rt; "nothing is seen: blocks stay with the process");
    }
    stays
}

// One block more for each would be two MiB at least.
#[test]
fn what_is_made_and_let_go_leaves_no_block(rt: HostRuntime) {
    if stays(&rt) {
        return;
    }
    for (made, many) in [
        (Made::Search, 100_000),
        (Made::Job, 40_000),
        (Made::MeasuredJob, 10_000),
        (Made::Pool, 10_000),
    ] {
        let grown = growth_by(&rt, made, many);
        let of = (made, grown);
        equal(&rt, "growth", (of, grown < 1_024), (of, true));
    }
}

// The same of a thousand calls through such a strategy, which end well or fail.
fn calls_leave_none(rt: &(impl Test + Files + RandomSource + Eprint), way: Way) {
    if stays(rt) {
        return;
    }
    let through = through(rt, way);
    // Where blocks were freed before there is no room for those that are kept.
    let mut held = Vec::new(rt.alloc());
    let _all = take_all(rt.alloc(), 24, 40_000, &mut held);
    for act in all_acts(rt) {
        let of = Row { way, act, len: 40 };
        gives_back(rt, &through, of, usize::MAX, Block::Small);
        if act.may_fail() {
            gives_back(rt, &through, of, 0, Block::Small);
        }
    }
    drop(held);
}

#[test]
fn a_thousand_serial_calls_leave_no_block(rt: HostRuntime) {
    calls_leave_none(&rt, Way::Sequential);
}

#[test]
fn a_thousand_measured_calls_leave_no_block(rt: HostRuntime) {
    calls_leave_none(&rt, Way::Learning(2, 0));
}

#[test]
fn a_thousand_calls_on_two_threads_leave_no_block(rt: HostRuntime) {
    calls_leave_none(&rt, Way::Pool(2, 2));
}

#[test]
fn a_thousand_calls_on_three_threads_leave_no_block(rt: HostRuntime) {
    calls_leave_none(&rt, Way::Pool(3, 3));
}

// Numbers of two parts, as fewer are sorted by the caller alone. Their blocks leave room for small
// ones of the calls after them, which aren't seen there.
#[test]
fn a_thousand_sorts_leave_no_block(rt: HostRuntime) {
    let way = Way::Pool(2, 2);
    for act in all_acts(&rt) {
        if matches!(act, Act::Sort(_)) && !stays(&rt) {
            let of = Row::of(way, act, 16_384);
            gives_back(&rt, &through(&rt, way), of, usize::MAX, Block::Small);
        }
    }
}

// Each call that is refused its results, over items that take no memory.
#[test]
fn hundreds_of_refused_calls_leave_no_block(rt: HostRuntime) {
    if stays(&rt) {
        return;
    }
    let (serial, pool) = (Way::Sequential, Way::Pool(2, 2));
    let (by_none, by_two) = (through(&rt, serial), through(&rt, pool));
    let acts = bare_acts(&rt);
    let held = all_places(rt.alloc()).expect(&rt, "places that have an end");
    for act in acts.iter() {
        for (way, through, path) in [
            (serial, &by_none, Path::Unasked),
            (pool, &by_two, Path::Parallel),
        ] {
            let of = Row::of(way, *act, len_of(*act));
            if fate_of(*act, path) == Fate::Refused && matches!(act, Act::List(..)) {
                gives_back(&rt, through, of, usize::MAX, Block::Refused);
            }
        }
    }
    drop(held);
}

#[test]
fn a_measured_job_lets_its_clock_go(rt: HostRuntime) {
    let clock = Stepping::new(rt.alloc(), 1000).expect(&rt, "a clock");
    let mut reading = Arc::try_clone(&clock.reading).expect(&rt, "a handle");
    let strategy = learning(&rt, rt.alloc(), 4, clock).expect(&rt, "a pool");
    for _ in 0..12u32 {
        wait_for_job(&rt, &strategy);
    }
    drop(strategy);
    holds!(&rt, Arc::get_mut(&mut reading).is_some());
}

// A block for a number of each item, or for two of each chunk, would take 8 MiB, beside the 4 of
// the numbers.
#[test]
fn a_list_is_changed_in_place_without_a_block(rt: HostRuntime) {
    for way in [Way::Sequential, Way::Pool(2, 2)] {
        let through = through(&rt, way);
        for act in [Act::Change(1), Act::Change(2)] {
            // (what a thread takes for itself stays for the next one)
            make(&rt, &through, Row { way, act, len: 4 }, 1, 0, Block::Small);
            let of = Row::of(way, act, 1 << 20);
            let before = kibibytes(&rt, "VmPeak:");
            make(&rt, &through, of, 1, 0, Block::Small);
            let growth = kibibytes(&rt, "VmPeak:").saturating_sub(before);
            row(&rt, of, (growth, growth < 6_144), (growth, true));
        }
    }
}
