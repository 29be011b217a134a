//! What the layers do with memory, over one list of their calls: each returns its result or
//! `Memory` whichever request is refused, and succeeds in the end; and each gives back what it
//! takes, which some promise to be nothing.
ghost use Rattle.std.specs.Prelude.{◌≡◌};
ghost use Rattle.parallel_shares.specs.Seats.{AreSeatsOf};
ghost use Rattle.parallel_bridge.specs.Gates.{IsGateSeatOf, seats_of, stands_for};

use crate::checks::row;
use crate::claims::{last_claim, opened, refill_at, run_of_rows, steal_at};
use crate::tables::SITE;
use crate::windows::{Doing, does};
use parallel_bridge::drive::segments;
use parallel_bridge::gate::{Gate, GateSeat};
use parallel_bridge::window::home::Home;
use parallel_policy::execution::RunExecution;
use parallel_policy::key::Key;
use parallel_policy::policy::Policy;
use parallel_policy::table::Table;
use parallel_pool::latch::{CoreLatch, CountLatch, OnceLatch, SpinLatch};
use parallel_pool::rayon::{BroadcastContext, JobQueues, JobSeat, ThreadPool, map_in_row};
use parallel_pool::sleep::{Sleep, SleepState};
use parallel_shares::{Seat, Shares, cut};
use std::alloc::{AllocGlobal, Global};
use std::num::NonZeroUsize;
use std::process::Abort;
use std::rt::Files;
use std::sync::Wait;
use std::sync::atomic::{AtomicU64, Ordering};
use std::thread::Threads;
use test_support::counted::{Counted, Counts, counted_items};
use test_support::no_memory::{ROOM, all_memory, greatest_block};
use test_support::number;
use test_support::processes::figure;

// How what needs no memory is used: it is made and dropped, and closed or used before.
#[derive(Clone, Copy, Debug, PartialEq, Eq)]
enum Used {
    Not,
    Closed,
    InFull,
}

// A call of a layer, or what a layer offers in all.
#[derive(Clone, Copy, Debug, PartialEq, Eq)]
enum Called {
    // On so many threads.
    Over(usize, Doing),
    // A row of threads and a broadcast.
    Rows,
    OfPool,
    OfBridge,
    OfShares,
    OfPolicy,
    Choice,
    // These promise to take no memory but for what they are made of.
    Shares(Used),
    Gate(Used),
    CountLatch(Used),
    CoreLatch(Used),
}

// Those that take memory, of which the first two start threads.
const CALLS: [Called; 10] = [
    Called::Over(2, Doing::Map),
    Called::Rows,
    Called::Over(1, Doing::Split(4)),
    Called::Over(1, Doing::Push),
    Called::Over(1, Doing::Cut(4)),
    Called::OfPool,
    Called::OfBridge,
    Called::OfShares,
    Called::OfPolicy,
    Called::Choice,
];

// Those that take none, by how they are used.
fn unneeding(used: Used) -> [Called; 4] {
    [
        Called::Shares(used),
        Called::Gate(used),
        Called::CountLatch(used),
        Called::CoreLatch(used),
    ]
}

fn index_of(context: BroadcastContext) -> usize {
    context.index()
}

// Where a row of threads is refused none of them was called.
fn rows<R: Threads + Sync + Abort>(rt: &R, alloc: Global) -> Option<()> {
    let counts = Counts::new();
    let items = counted_items(alloc, &counts, 4)?;
    let calls = AtomicU64::new(0);
    let place_of = |item: Counted<'_>| {
        calls.fetch_add(1, Ordering::SeqCst);
        item.place
    };
    let places = map_in_row(rt, alloc, items, &place_of);
    let called = if places.is_ok() { 4 } else { 0 };
    let found = (counts.left(), calls.load(Ordering::SeqCst));
    row(rt, "a row", found, (0, called));
    let places = places.ok()?;
    row(rt, "a row", places.as_slice(), [0, 1, 2, 3].as_slice());
    let pool = ThreadPool::new(number(3));
    let indices = pool.broadcast(rt, alloc, &index_of).ok()?;
    row(rt, "a broadcast", indices.as_slice(), [0, 1, 2].as_slice());
    Some(())
}

fn seats_of_queues(alloc: Global, workers: NonZeroUsize) -> Option<JobSeat<u32>> {
    let (queues, _owned) = JobQueues::new(alloc, workers).ok()?;
    queues.seat(alloc).ok()
}

fn of_pool(rt: &impl Abort, alloc: Global) -> Option<()> {
    let three = number(3);
    assert!(rt; three.get() <= 65_535);
    let is_made = CoreLatch::new(alloc, three).is_ok()
        && CountLatch::with_count(alloc, three).is_ok()
        && SpinLatch::new(alloc, three, 1).is_ok()
        && OnceLatch::new(alloc, three, 1).is_ok()
        && Sleep::new(alloc, three).is_ok()
        && SleepState::new(alloc, three, 0).is_ok()
        && seats_of_queues(alloc, three).is_some();
    if is_made { Some(()) } else { None }
}

fn of_bridge(rt: &impl Abort, alloc: Global) -> Option<()> {
    let three = number(3);
    let (window, home) = Home::<u64, Global>::reserve(alloc, 7).ok()?;
    home.free(window);
    let is_made = Gate::open(alloc, three).is_ok()
        && Gate::new(alloc, three).is_ok()
        && segments(alloc, three, 9).is_ok();
    if is_made { Some(()) } else { None }
}

// Where it is refused the table has no entry.
fn choice(rt: &impl Abort, alloc: Global) -> Option<()> {
    let mut table = Table::new(alloc);
    let key = Key::new(SITE, 64, 64, 4);
    let answer = table.choose_run(key, 4);
    let is_there = table.run_entry(key).is_some();
    row(rt, "a choice", is_there, answer.is_ok());
    row(rt, "a choice", answer.ok()?, (RunExecution::Parallel, true));
    table.record_run(key, RunExecution::Parallel, 5).ok()
}

// A seat claims all, and steals and puts down what it stole, a few times.
fn use_shares<R: Wait + Abort>(rt: &R, shares: &Shares, seats: &mut Vec<Seat>)
    requires { AreSeatsOf shares.now seats.old.items }
    ensures { AreSeatsOf shares.now seats.new.items }
{
    for _ in 0..4u32 {
        last_claim(rt, shares, seats, 0);
        let (_tried, transit) = steal_at(rt, shares, seats, 0);
        if transit.is_some() {
            refill_at(rt, shares, seats, 0);
        }
    }
    assert!(rt; !seats.is_empty());
    shares.claim(rt, &mut seats[0]);
}

fn shares<R: Wait + Abort>(rt: &R, alloc: Global, used: Used) {
    let (shares, mut seats) = opened(rt, alloc, (1, 64, 1, 2, false));
    match used {
        Used::Not => drop((shares, seats)),
        Used::Closed => drop(shares.close(seats)),
        Used::InFull => {
            use_shares(rt, &shares, &mut seats);
            drop(shares.close(seats));
        }
    }
}

// A gate whose one seat stands for two.
fn gate(rt: &impl Abort, alloc: Global, used: Used) {
    let (gate, seat) = Gate::open(alloc, number(2)).expect(rt, "memory");
    let mut seats = Vec::with_capacity(alloc, 1).expect(rt, "memory");
    if used == Used::InFull {
        use_gate(gate, seat);
        return;
    }
    seats.push(seat).expect(rt, "it has room");
    if used == Used::Closed {
        gate.close(seats);
    }
}

// The seat is cut, one half tells the gate of a start, and the other looks.
fn use_gate(gate: Gate, mut seat: GateSeat)
    requires belongs { IsGateSeatOf gate seat }
    requires two { stands_for seat ≡ 2 }
    requires all { seats_of gate ≡ 2 }
{
    let mut back = gate.split(&mut seat);
    gate.tell(&mut back, 3);
    gate.stopped(&mut seat, 5);
    gate.join(&mut seat, back);
    gate.close_joined(seat);
}

fn count_latch(rt: &impl Abort, alloc: Global, used: Used) {
    let made = CountLatch::with_count(alloc, NonZeroUsize::MIN);
    let (latch, mut shares) = made.expect(rt, "memory");
    let mut share = shares.pop().expect(rt, "a share");
    if used != Used::Not {
        latch.give(&mut share);
    }
}

fn core_latch(rt: &impl Abort, alloc: Global, used: Used) {
    let (latch, mut seats) = CoreLatch::new(alloc, NonZeroUsize::MIN).expect(rt, "memory");
    let mut seat = seats.pop().expect(rt, "a seat");
    if used != Used::Not {
        latch.probe(&mut seat);
        latch.get_sleepy(&mut seat);
        latch.fall_asleep(&mut seat);
        latch.set(&mut latch.newcomer());
        latch.wake_up(&mut seat);
    }
}

// Makes a call, and stops the test where it returns another result than its own. None where memory
// is refused.
fn make<R: Threads + Wait + Sync + Abort>(rt: &R, alloc: Global, called: Called) -> Option<()> {
    match called {
        Called::Over(threads, doing) => does(rt, alloc, doing, (threads, 9)),
        Called::Rows => rows(rt, alloc),
        Called::OfPool => of_pool(rt, alloc),
        Called::OfBridge => of_bridge(rt, alloc),
        Called::OfShares => {
            let _ranges = cut(alloc, 10, number(2)).ok()?;
            run_of_rows(rt, alloc)
        }
        Called::OfPolicy => Policy::new(alloc).ok().map(drop),
        Called::Choice => choice(rt, alloc),
        Called::Shares(used) => Some(shares(rt, alloc, used)),
        Called::Gate(used) => Some(gate(rt, alloc, used)),
        Called::CountLatch(used) => Some(count_latch(rt, alloc, used)),
        Called::CoreLatch(used) => Some(core_latch(rt, alloc, used)),
    }
}

// Each call is made twice: for runs in which one allocation fails.
#[test]
fn each_call_of_a_layer_answers_or_is_refused(rt: HostRuntime) {
    let mut refused = false;
    for called in CALLS {
        for _ in 0..2 {
            let is_refused = make(&rt, rt.alloc(), called).is_none();
            let of = (called, "refused, and another before it");
            row(&rt, of, refused && is_refused, false);
            refused = refused || is_refused;
        }
    }
}

// Makes a call with more and more memory, until it succeeds: how often it was refused.
fn refusals<R: Threads + Wait + Sync + Abort>(rt: &R, alloc: Global, called: Called) -> u64 {
    for step in 0..1000u64 {
        let taken = (step as usize).saturating_mul(16);
        let plug = greatest_block(alloc, ROOM.saturating_sub(taken));
        let made = make(rt, alloc, called);
        drop(plug);
        if made.is_some() {
            return step;
        }
    }
    panic!(rt; "{called:?} doesn't succeed")
}

// All memory is taken first but for that room, of which each further try of a call is left 16 bytes
// more. Where memory has no end (`no_memory`) each call has to succeed at once. What a call frees
// stays at hand for later ones, so only the first is surely refused.
#[test]
fn each_call_of_a_layer_is_refused_in_turn_and_succeeds_in_the_end(rt: HostRuntime) {
    let alloc = rt.alloc();
    let room = Vec::<u8>::with_capacity(alloc, ROOM).expect(&rt, "memory");
    let held = all_memory(alloc);
    drop(room);
    let mut refused = 0u64;
    for called in CALLS {
        refused = refused.saturating_add(refusals(&rt, alloc, called));
    }
    row(&rt, "refused", refused > 0, held.is_some());
    drop(held);
    let _told = eprintln!(&rt; "{refused} calls were refused");
}

// How often a call is made; and half of the KiB by which the process grows where each takes one
// block more, at least.
const MANY: u32 = 8_000;

const GROWTH: u64 = 120;

fn make_many<R: Threads + Wait + Sync + Abort>(rt: &R, alloc: Global, called: Called, many: u32) {
    for _ in 0..many {
        make(rt, alloc, called);
    }
}

// By how many KiB the process grows meanwhile, once the stack has its pages.
fn grows<R: Threads + Wait + Sync + Files + AllocGlobal + Abort>(rt: &R, called: Called) -> u64 {
    make_many(rt, rt.alloc(), called, MANY / 2);
    let before = figure(rt, "RssAnon:").expect(rt, "a count");
    make_many(rt, rt.alloc(), called, MANY);
    let after = figure(rt, "RssAnon:").expect(rt, "a count");
    after.saturating_sub(before)
}

// Under `rt try` a block that is freed stays with the process, so that it grows by each: there a
// call that takes one is seen, and elsewhere one that doesn't give it back.
#[test]
fn a_call_of_a_layer_gives_back_what_it_takes_and_takes_none_where_it_says_so(rt: HostRuntime) {
    let mut least = [0; 4];
    for used in [Used::Not, Used::Closed, Used::InFull] {
        let mut at = 0usize;
        for called in unneeding(used) {
            let found = grows(&rt, called);
            assert!(rt; at < 4);
            if used == Used::Not {
                least[at] = found;
            }
            let at_most = least[at].saturating_add(GROWTH);
            row(&rt, (called, at_most), found.min(at_most), found);
            at = at.wrapping_add(1);
        }
    }
    if least[0] < GROWTH {
        for called in &CALLS[2..] {
            let found = grows(&rt, *called);
            row(&rt, *called, found.min(GROWTH), found);
        }
    }
}

#[test]
fn a_gate_has_one_word_for_any_number_of_seats(rt: HostRuntime) {
    for seats in [1usize, 1 << 20, 1 << 60, usize::MAX] {
        let opened = Gate::open(rt.alloc(), number(seats));
        row(&rt, seats, opened.is_ok(), true);
    }
}
