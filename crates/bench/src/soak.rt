//! Random plans of shares, each emptied by threads that claim, steal and refill.
ghost use Rattle.std.specs.Prelude.{◌≡◌, ◌*◌, ◌≤◌, IfOk, IsFalse, None, map};
ghost use Rattle.std.specs.Int.NonZero.{non_zero_usize_get};
ghost use Rattle.parallel_shares.specs.Seats.{AreSeatsOf, IsSeatOf, index_of, transit_of};
ghost use Rattle.bench.specs.Driven.{seat_of};

use crate::request::Pair;
use crate::work::mixed_once;
use anyhow::{Result, ensure};
use parallel_fault::Fault;
use parallel_shares::{Seat, Shares, Tried};
use std::alloc::{AllocError, Global};
use std::num::NonZeroUsize;
use std::ops::Range;
use std::sync::Wait;
use std::thread::{self, Threads};

/// The most rows of a plan.
const MOST_ROWS: usize = 70_000;

/// The most cells of a row.
const MOST_CELLS: usize = 400_000;

/// The most seats of a plan.
const MOST_SEATS: usize = 16;

/// The greatest cost of a tile.
const MOST_COST: usize = 64;

/// How often a step came to what.
#[derive(Clone, Copy, Default)]
pub struct Counts {
    steps: u64,
    /// Claims that gained cells.
    claimed: u64,
    /// Claims that met another word.
    lost: u64,
    /// Steals that took units.
    taken: u64,
    /// Steals that met another word.
    missed: u64,
    /// Steals for which no split paid.
    nothing: u64,
}

impl Counts {
    fn add(&mut self, other: Counts) {
        self.steps = self.steps.wrapping_add(other.steps);
        self.claimed = self.claimed.wrapping_add(other.claimed);
        self.lost = self.lost.wrapping_add(other.lost);
        self.taken = self.taken.wrapping_add(other.taken);
        self.missed = self.missed.wrapping_add(other.missed);
        self.nothing = self.nothing.wrapping_add(other.nothing);
    }

    // Counts what a try to claim, or to steal, came to.
    fn count(&mut self, tried: &Tried, is_steal: bool) {
        self.steps = self.steps.wrapping_add(1);
        match tried {
            Tried::Claimed(_) => self.claimed = self.claimed.wrapping_add(1),
            Tried::Lost if is_steal => self.missed = self.missed.wrapping_add(1),
            Tried::Lost => self.lost = self.lost.wrapping_add(1),
            Tried::Taken => self.taken = self.taken.wrapping_add(1),
            Tried::Nothing if is_steal => self.nothing = self.nothing.wrapping_add(1),
            _ => {}
        }
    }
}

/// Numbers that look random.
#[derive(Clone, Copy)]
struct Random {
    state: u64,
}

impl Random {
    // A number from 1 to `most`, small ones as often as great ones: the next number without that
    // many of its last binary digits, 45 to 63 of them.
    fn up_to(&mut self, most: usize) -> NonZeroUsize {
        let dropped = 45 + self.next() % 19;
        let number = (self.next() >> dropped) as usize;
        NonZeroUsize::MIN.saturating_add(number % most.max(1))
    }

    // One side of a coin or the other.
    fn coin(&mut self) -> bool {
        self.next() % 2 == 1
    }

    // The next number, whose first digits look as random as its last.
    fn next(&mut self) -> u64 {
        self.state = mixed_once(self.state);
        self.state ^ (self.state >> 32)
    }
}

/// What a seat came back with: its claims, unless memory for one was refused, and what it counted.
#[derive(Drop)]
pub struct Driven {
    seat: Seat,
    claims: Result<Vec<Range<usize>>, AllocError>,
    counts: Counts,
}

/// Makes that many plans one after the other, the first one's numbers from a seed, empties each,
/// and prints what was counted.
///
/// # Errors
///
/// A refusal of memory, and `cells were lost` where the claims of a plan aren't each cell once.
pub fn soak<Rt: Print + AllocGlobal + Threads + Wait + Sync>(rt: &Rt, trial: Pair) -> Result<()> {
    let alloc = rt.alloc();
    let mut random = Random {
        state: trial.second as u64,
    };
    let mut counts = Counts::default();
    for _ in 0..trial.first {
        counts.add(soak_plan(rt, alloc, &mut random)?);
    }
    report(rt, trial.first, counts)
}

fn report(rt: &impl Print, plans: usize, counts: Counts) -> Result<()> {
    let Counts {
        steps,
        claimed,
        lost,
        taken,
        missed,
        nothing,
    } = counts;
    println!(rt; "soak: {plans} plans, {steps} steps")?;
    println!(rt; "claims: {claimed} won, {lost} lost")?;
    println!(rt; "steals: {taken} taken, {missed} lost, {nothing} nothing")?;
    Ok(())
}

// What was counted in one random plan.
fn soak_plan<Rt: Threads + Wait + Sync>(
    rt: &Rt,
    alloc: Global,
    random: &mut Random,
) -> Result<Counts> {
    let rows = random.up_to(MOST_ROWS).get();
    let len = random.up_to(MOST_CELLS).get();
    let tile_cost = random.up_to(MOST_COST);
    let workers = random.up_to(MOST_SEATS);
    let whole = is_whole(random.coin(), len, tile_cost);
    ensure!(rows.checked_mul(len).is_some(), "too many cells");
    let (shares, seats) = Shares::new(alloc, rows, len, tile_cost, workers, whole)?;
    let cells = shares.cells();
    let (words, claims, counts) = empty(rt, alloc, shares, seats)?;
    ensure!(are_empty(words.as_slice()), "words were left");
    ensure!(is_each_once(claims, cells)?, "cells were lost");
    Ok(counts)
}

// Whether rows are kept whole: where the coin says so, and where a row has less than two tiles.
fn is_whole(coin: bool, len: usize, tile_cost: NonZeroUsize) -> bool
    ensures { IsFalse result → 2 * non_zero_usize_get tile_cost ≤ len }
{
    coin || len / 2 < tile_cost.get()
}

// Drives each seat in a thread of its own, and returns the words that are left, all claims, and
// what was counted.
fn empty<Rt: Threads + Wait + Sync>(
    rt: &Rt,
    alloc: Global,
    shares: Shares,
    seats: Vec<Seat>,
) -> Result<(Vec<u64>, Vec<Range<usize>>, Counts), Fault>
    requires { AreSeatsOf shares seats.items }
{
    let driven = drive_all(rt, alloc, &shares, seats)?;
    let (seats, claims, counts) = gather(alloc, driven)?;
    let words = shares.close(seats);
    Ok((words, claims, counts))
}

// What the threads give back, one for each seat.
fn drive_all<Rt: Threads + Wait + Sync>(
    rt: &Rt,
    alloc: Global,
    shares: &Shares,
    seats: Vec<Seat>,
) -> Result<Vec<Driven>, Fault>
    requires { AreSeatsOf shares.now seats.items }
    ensures { IfOk result (λ driven. AreSeatsOf shares.now (map seat_of driven.items)) }
{
    let driven = thread::map_vec(
        rt,
        seats,
        &|seat: Seat| -> Driven
            requires { IsSeatOf shares.now seat }
            ensures { IsSeatOf shares.entry.now (seat_of result)
                × (index_of (seat_of result) ≡ index_of seat) }
        { drive(rt, alloc, shares, seat) },
    )?;
    Ok(driven)
}

// Steps of one seat, until its own share is empty and no split of another pays.
fn drive<Rt: Wait>(rt: &Rt, alloc: Global, shares: &Shares, seat: Seat) -> Driven
    requires { IsSeatOf shares.now seat }
    ensures seat { IsSeatOf shares.now (seat_of result) }
    ensures index { index_of (seat_of result) ≡ index_of seat }
{
    let mut seat = seat;
    let mut counts = Counts::default();
    let claims = claim_all(rt, alloc, shares, &mut seat, &mut counts);
    Driven {
        seat,
        claims,
        counts,
    }
}

// The claims of all steps of a seat.
fn claim_all<Rt: Wait>(
    rt: &Rt,
    alloc: Global,
    shares: &Shares,
    seat: &mut Seat,
    counts: &mut Counts,
) -> Result<Vec<Range<usize>>, AllocError>
    requires { IsSeatOf shares.now seat.old }
    ensures seat { IsSeatOf shares.now seat.new }
    ensures index { index_of seat.new ≡ index_of seat.old }
{
    let mut claims = Vec::new(alloc);
    for _ in rt.forever() {
        match step(shares, seat, counts) {
            Tried::Claimed(cells) => claims.push(cells)?,
            Tried::Nothing => return Ok(claims),
            _ => {}
        }
    }
    unreachable!()
}

// One try of a seat: to steal where it has seen its own share empty, and else to claim. What it has
// in transit is put down first.
fn step(shares: &Shares, seat: &mut Seat, counts: &mut Counts) -> Tried
    requires { IsSeatOf shares.now seat.old }
    ensures seat { IsSeatOf shares.now seat.new }
    ensures index { index_of seat.new ≡ index_of seat.old }
{
    settle(shares, seat, counts);
    if seat.own_empty() {
        let tried = shares.try_steal(seat);
        counts.count(&tried, true);
        return tried;
    }
    let tried = shares.try_claim(seat);
    counts.count(&tried, false);
    tried
}

// Puts down what a seat has in transit, if anything.
fn settle(shares: &Shares, seat: &mut Seat, counts: &mut Counts)
    requires { IsSeatOf shares.now seat.old }
    ensures seat { IsSeatOf shares.now seat.new }
    ensures index { index_of seat.new ≡ index_of seat.old }
    ensures transit { transit_of seat.new ≡ None }
{
    if seat.in_transit().is_some() {
        shares.refill(seat);
        counts.steps = counts.steps.wrapping_add(1);
    }
}

// The seats in their order, all of their claims, and what they counted.
fn gather(
    alloc: Global,
    driven: Vec<Driven>,
) -> Result<(Vec<Seat>, Vec<Range<usize>>, Counts), Fault>
    ensures { IfOk result (λ r. r.0.items ≡ map seat_of driven.items) }
{
    let mut seats = Vec::with_capacity(alloc, driven.len())?;
    let mut claims = Vec::new(alloc);
    let mut counts = Counts::default();
    for part in driven {
        let seat = add(&mut claims, &mut counts, part)?;
        seats.push(seat)?;
    }
    Ok((seats, claims, counts))
}

// The seat, when its claims and counts stand with those that are there.
fn add(
    claims: &mut Vec<Range<usize>>,
    counts: &mut Counts,
    driven: Driven,
) -> Result<Seat, AllocError>
    ensures { IfOk result (λ seat. seat ≡ seat_of driven) }
{
    counts.add(driven.counts);
    let mut gained = driven.claims?;
    claims.append(&mut gained)?;
    Ok(driven.seat)
}

// Whether no word has units left: each starts where it ends.
fn are_empty(words: &[u64]) -> bool {
    words.iter().all(|word| *word / 65_536 == *word % 65_536)
}

// Whether the claims, in their order, are the cells from 0 up to `cells` without a gap.
fn is_each_once(claims: Vec<Range<usize>>, cells: usize) -> Result<bool, AllocError> {
    let mut claims = claims;
    claims.sort_by(|left, right| left.start.cmp(&right.start))?;
    let mut next = 0;
    for Range { start, end } in claims {
        if start != next || end <= start {
            return Ok(false);
        }
        next = end;
    }
    Ok(next == cells)
}
