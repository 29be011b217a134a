//! Shares over atomic words, and the pure machine, on plans whose words are known.
ghost use Rattle.std.specs.Prelude.{◌≡◌, ◌*◌, ◌^◌, ◌<◌, ◌≤◌, IsFalse};
ghost use Rattle.std.specs.Int.NonZero.{non_zero_usize_get};
ghost use Rattle.parallel_shares.specs.Seats.{AreSeatsOf};

use crate::checks::{lists, row};
use parallel_shares::machine::{Event, Outcome, Plan, State, replay};
use parallel_shares::{Seat, Shares, Stretch, Tried, pack, stretches};
use std::alloc::Global;
use std::ops::Range;
use std::process::Abort;
use std::sync::Wait;
use test_support::{holds, number, same};

// One try of the seat at a place to claim.
pub(crate) fn claim_at(
    rt: &impl Abort,
    shares: &Shares,
    seats: &mut Vec<Seat>,
    index: usize,
) -> Tried
    requires { AreSeatsOf shares.now seats.old.items }
    ensures { AreSeatsOf shares.now seats.new.items }
{
    assert!(rt; index < seats.len());
    shares.try_claim(&mut seats[index])
}

// One try of the seat at a place to steal, and what it has in transit then.
pub(crate) fn steal_at(
    rt: &impl Abort,
    shares: &Shares,
    seats: &mut Vec<Seat>,
    index: usize,
) -> (Tried, Option<Range<usize>>)
    requires { AreSeatsOf shares.now seats.old.items }
    ensures { AreSeatsOf shares.now seats.new.items }
{
    assert!(rt; index < seats.len());
    let seat = &mut seats[index];
    assert!(rt; seat.own_empty());
    assert!(rt; seat.in_transit().is_none());
    let tried = shares.try_steal(seat);
    (tried, seat.in_transit())
}

// The seat at a place puts down what it has in transit.
pub(crate) fn refill_at(rt: &impl Abort, shares: &Shares, seats: &mut Vec<Seat>, index: usize)
    requires { AreSeatsOf shares.now seats.old.items }
    ensures { AreSeatsOf shares.now seats.new.items }
{
    assert!(rt; index < seats.len());
    let seat = &mut seats[index];
    assert!(rt; seat.in_transit().is_some());
    shares.refill(seat);
}

// The seat at a place claims until its own word is empty, and returns its last claim.
pub(crate) fn last_claim<R: Wait + Abort>(
    rt: &R,
    shares: &Shares,
    seats: &mut Vec<Seat>,
    index: usize,
) -> Range<usize>
    requires { AreSeatsOf shares.now seats.old.items }
    ensures { AreSeatsOf shares.now seats.new.items }
{
    let mut last = 0..0;
    for _ in rt.forever() {
        match claim_at(rt, shares, seats, index) {
            Tried::Claimed(cells) => last = cells,
            _ => return last,
        }
    }
    unreachable!()
}

/// How many rows there are, cells of each, what a tile costs, how many workers, and whether a row
/// stays whole.
pub(crate) type Sizes = (usize, usize, usize, usize, bool);

/// Shares of those sizes, and their seats.
pub(crate) fn opened(rt: &impl Abort, alloc: Global, sizes: Sizes) -> (Shares, Vec<Seat>)
    ensures { AreSeatsOf result.0 result.1.items }
{
    let (rows, len, tile_cost, workers, whole) = sizes;
    assert!(rt; rows != 0 && len != 0 && tile_cost != 0);
    assert!(rt; whole || tile_cost <= len.saturating_sub(tile_cost));
    assert!(rt; rows.checked_mul(len).is_some());
    let (tile_cost, workers) = (number(tile_cost), number(workers));
    Shares::new(alloc, rows, len, tile_cost, workers, whole).expect(rt, "memory")
}

// The plan of the same sizes.
fn planned(rt: &impl Abort, sizes: Sizes) -> Plan {
    let (rows, len, tile_cost, workers, whole) = sizes;
    assert!(rt; rows != 0 && len != 0 && tile_cost != 0);
    assert!(rt; whole || tile_cost <= len.saturating_sub(tile_cost));
    assert!(rt; rows.checked_mul(len).is_some());
    Plan::new(rows, len, number(tile_cost), number(workers), whole)
}

// The sizes, the cells of a unit and all cells, and the words of a plan that is untouched.
const OPENED: [(Sizes, (usize, usize), &[u64]); 5] = [
    (
        (65_537, 281_470_681_808_895, 1, 1, true),
        (562_941_363_617_790, usize::MAX),
        &[32_769],
    ),
    ((65_536, 3, 1, 4, true), (6, 196_608), &[32_768]),
    ((1, 4, 2, 2, false), (1, 4), &[2, 131_076]),
    (
        (1, usize::MAX, 1, 2, false),
        (281_479_271_743_489, usize::MAX),
        &[32_768, 2_147_549_183],
    ),
    (
        (1, 100_001, 10, 2, false),
        (2, 100_001),
        &[25_001, 1_638_515_537],
    ),
];

#[test]
fn a_plan_opens_with_known_words_in_shares_and_in_the_machine(rt: HostRuntime) {
    for (sizes, cells, words) in OPENED {
        let (shares, seats) = opened(&rt, rt.alloc(), sizes);
        row(&rt, sizes, (shares.unit(), shares.cells()), cells);
        row(&rt, sizes, [shares.workers(), seats.len()], [sizes.3; 2]);
        row(&rt, sizes, shares.close(seats).as_slice(), words);
        let plan = planned(&rt, sizes);
        row(&rt, sizes, plan.unit(), cells.0);
        let state = State::new(rt.alloc(), &plan).expect(&rt, "memory");
        row(&rt, sizes, state.words(), words);
    }
    let plan = planned(&rt, (1, 100_001, 10, 2, false));
    same!(&rt, [plan.claim(), plan.units()], [5, 50_001]);
}

// The first seat of shares of those sizes claims all that it has, at last those cells, and steals and
// puts down the others; then these words are left at their places.
fn steals<R: Wait + Abort>(
    rt: &R,
    alloc: Global,
    sizes: Sizes,
    (last, stolen): (Range<usize>, Range<usize>),
    words: &[(usize, u64)],
) {
    let (shares, mut seats) = opened(rt, alloc, sizes);
    let claimed = last_claim(rt, &shares, &mut seats, 0);
    row(rt, sizes, claimed, last);
    let (tried, transit) = steal_at(rt, &shares, &mut seats, 0);
    row(rt, sizes, (tried, &transit), (Tried::Taken, &Some(stolen)));
    if transit.is_some() {
        refill_at(rt, &shares, &mut seats, 0);
    }
    let left = shares.close(seats);
    for (place, word) in words {
        row(rt, (sizes, *place), left.get(*place), Some(word));
    }
}

// The most cells, and not the most units; and of equals the last.
#[test]
fn a_thief_takes_from_the_seat_with_the_most_cells(rt: HostRuntime) {
    let words = [(0, 655_372), (1, 262_152), (2, 524_298)];
    let sizes = (1, 12, 1, 3, false);
    steals(&rt, rt.alloc(), sizes, (3..4, 10..12), &words);
    let (sizes, words) = ((1, 65_537, 2, 3, false), [(1, 715_866_112)]);
    steals(
        &rt,
        rt.alloc(),
        sizes,
        (21_844..21_846, 16_384..21_846),
        &words,
    );
}

// The events of two seats and their shares.
const LOOK_0: Event = Event::Load { seat: 0, share: 0 };

const LOOK_1: Event = Event::Load { seat: 1, share: 1 };

const ACROSS: Event = Event::Load { seat: 0, share: 1 };

const CLAIM_0: Event = Event::Claim { seat: 0 };

const CLAIM_1: Event = Event::Claim { seat: 1 };

const STEAL_0: Event = Event::Steal { seat: 0 };

const FILL_0: Event = Event::Refill { seat: 0 };

#[test]
fn a_replay_steals_and_loses_a_stale_claim(rt: HostRuntime) {
    let alloc = rt.alloc();
    let plan = planned(&rt, (1, 8, 1, 2, false));
    let events = [
        LOOK_1, LOOK_0, CLAIM_0, LOOK_0, CLAIM_0, LOOK_0, CLAIM_0, LOOK_0, CLAIM_0, ACROSS,
        STEAL_0, CLAIM_1, FILL_0, LOOK_0, CLAIM_0, LOOK_0, CLAIM_0, LOOK_1, CLAIM_1, LOOK_1,
        CLAIM_1,
    ];
    let (state, outcomes) = replay(alloc, &plan, &events).expect(&rt, "memory");
    let told = [
        Outcome::Taken(6..8),
        Outcome::Lost,
        Outcome::Refilled(393_224),
    ];
    same!(&rt, outcomes.get(10..13), Some(told.as_slice()));
    same!(&rt, outcomes.get(17), Some(&Outcome::Loaded(262_150)));
    same!(&rt, state.words(), [pack(8, 8), pack(6, 6)].as_slice());
    assert!(rt; plan.workers() == 2);
    let wanted = [0..4, 6..8].map(|columns: Range<usize>| Stretch { row: 0, columns });
    lists(
        &rt,
        "stretches",
        stretches(alloc, state.claims(0), 8),
        &wanted,
    );
    same!(&rt, state.claims(1), [4..5, 5..6].as_slice());
}

// Counts cells and calls.
fn count_columns(filled: &mut (usize, usize), _row: usize, columns: Range<usize>) {
    let cells = columns.end.saturating_sub(columns.start);
    *filled = (filled.0.saturating_add(cells), filled.1.saturating_add(1));
}

// The row with what was counted, of which the next row has nothing yet.
fn row_cells_and_calls(filled: &mut (usize, usize), row: usize) -> (usize, usize, usize) {
    let (cells, calls) = (filled.0, filled.1);
    *filled = (0, 0);
    (row, cells, calls)
}

/// A run over three rows of five cells, by one seat of two, where memory is given.
pub(crate) fn run_of_rows<R: Wait + Abort>(rt: &R, alloc: Global) -> Option<()> {
    let two = number(2);
    let Ok((shares, mut seats)) = Shares::new(alloc, 3, 5, two, two, false) else {
        return None;
    };
    let mut seat = seats.pop()?;
    let mut filled = (0usize, 0usize);
    let (fill, sum) = (&count_columns, &row_cells_and_calls);
    let run = shares.run(rt, alloc, &mut seat, 5, &mut filled, fill, sum);
    let results = run.ok()?;
    let wanted = [(1, 2, 1), (2, 5, 3), (0, 1, 1), (1, 3, 2)];
    same!(rt, results.as_slice(), wanted.as_slice());
    // (it has no room for a result of each cell)
    holds!(rt, results.capacity() < 15);
    same!(rt, (filled, seat.own_empty()), ((0, 0), true));
    same!(rt, seat.in_transit(), None);
    Some(())
}

#[test]
fn a_run_goes_on_in_a_row_and_over_to_the_next(rt: HostRuntime) {
    same!(&rt, run_of_rows(&rt, rt.alloc()), Some(()));
}
