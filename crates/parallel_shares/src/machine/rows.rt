//! The words, and the seats and their claims, with the plan that they were made for.
ghost use Rattle.std.specs.Prelude.{◌≡◌, ◌<◌, ◌↔◌, ◌++◌, [], ◌∷◌, length, replicate, IfOk, OnErr, IsSome, IsTrue};
ghost use Rattle.parallel_shares.specs.Sizes.{shares_of, IsSound};
ghost use Rattle.parallel_shares.specs.Machine.{opening_words, fresh};
ghost use Rattle.parallel_fault.specs.Trouble.{IsMemoryOnErr};

use super::plan::Plan;
use crate::word::pack;
use parallel_fault::Fault;
use std::alloc::Global;
use std::marker::Model;
use std::ops::Range;

/// A load that a seat remembers: the share, and the word that was there.
#[derive(Clone, Copy)]
pub struct Remembered {
    /// The share that was loaded.
    pub share: usize,
    /// The word that was found there.
    pub word: u64,
}

/// The ranges of cells that a seat has claimed, in order.
#[derive(Drop)]
pub struct ClaimedCells {
    ranges: Vec<Range<usize>>,
}

impl Model for ClaimedCells {
    ghost use Rattle.std.specs.Prelude.{ℕ, List};
    ghost use Rattle.std.specs.declared.ops.Range.{Range};

    ghost Value = { List (Range ℕ) };

    ghost view = { λ c. c.ranges.items };
}

impl ClaimedCells {
    fn new(alloc: Global) -> ClaimedCells
        ensures { result ≡ [] }
    {
        ClaimedCells {
            ranges: Vec::new(alloc),
        }
    }

    fn as_slice(&self) -> &[Range<usize>]
        ensures { result.now ≡ self.now }
    {
        &self.ranges
    }

    fn push(&mut self, cells: Range<usize>) -> Result<(), Fault>
        ensures pushed { IfOk result (λ _. self.new ≡ self.old ++ cells ∷ []) }
        ensures unchanged { OnErr result (self.new ≡ self.old) }
        ensures fault { IsMemoryOnErr result }
    {
        self.ranges.push(cells)?;
        Ok(())
    }
}

/// What a seat remembers, carries and has claimed.
#[derive(Drop)]
pub struct SeatRow {
    /// The load that the seat remembers.
    pub remembered: Option<Remembered>,
    /// The units that the seat has in transit.
    pub transit: Option<Range<usize>>,
    /// The cells that the seat has claimed.
    pub claims: ClaimedCells,
}

/// A plan, the words of all its shares, and what each seat remembers, carries and has claimed.
#[derive(Drop)]
pub struct Rows {
    plan: Plan,
    words: Vec<u64>,
    seat_rows: Vec<SeatRow>,
}

impl Model for Rows {
    ghost use Rattle.parallel_shares.specs.Machine.{Machine};

    ghost Value = { Machine };

    ghost view = { λ r. record {
      plan = r.plan;
      words = r.words.items;
      seat_rows = r.seat_rows.items;
    } };
}

impl Rows {
    ghost use Rattle.parallel_shares.specs.Machine.{word_at, row_at, with_word, remembers, forgets, gains, carries, opening};

    /// The words and the seats of a plan before any event.
    ///
    /// # Errors
    ///
    /// `Fault::Memory` if an allocation fails.
    pub(super) fn new(alloc: Global, plan: &Plan) -> Result<Rows, Fault>
        ensures opening { IfOk result (λ rows. rows ≡ opening plan.now) }
        ensures sound { IfOk result (λ _. IsSound plan.now) }
        ensures fault { IsMemoryOnErr result }
    {
        let words = opening_words(alloc, plan)?;
        let seat_rows = fresh_seat_rows(alloc, plan.workers())?;
        Ok(Rows {
            plan: plan.copied(),
            words,
            seat_rows,
        })
    }

    /// Whether these are the plan's.
    pub(super) fn is_of(&self, plan: &Plan) -> bool
        ensures { IsTrue result ↔ self.now.plan ≡ plan.now }
    {
        self.plan.is(plan)
    }

    /// The words of all shares.
    pub(super) fn words(&self) -> &[u64]
        ensures { result.now ≡ self.now.words }
    {
        &self.words
    }

    /// The cells that a seat has claimed, in order.
    pub(super) fn claims(&self, seat: usize) -> &[Range<usize>]
        requires { seat < length self.now.seat_rows }
        ensures { result.now ≡ (row_at self.now seat).claims }
    {
        self.seat_rows[seat].claims.as_slice()
    }

    /// The number of shares.
    pub(super) fn shares(&self) -> usize
        ensures { result ≡ length self.now.words }
    {
        self.words.len()
    }

    /// The number of seats.
    pub(super) fn seats(&self) -> usize
        ensures { result ≡ length self.now.seat_rows }
    {
        self.seat_rows.len()
    }

    /// The word of a share.
    pub(super) fn word(&self, share: usize) -> u64
        requires { share < length self.now.words }
        ensures { result ≡ word_at self.now share }
    {
        self.words[share]
    }

    /// The load that a seat remembers; a seat that does not exist remembers none.
    pub(super) fn remembered(&self, seat: usize) -> Option<Remembered>
        ensures load { result ≡ (row_at self.now seat).remembered }
        ensures exists { IsSome result → seat < length self.now.seat_rows }
    {
        if seat < self.seat_rows.len() {
            self.seat_rows[seat].remembered
        } else {
            None
        }
    }

    /// The units that a seat carries; a seat that does not exist carries none.
    pub(super) fn carried(&self, seat: usize) -> Option<Range<usize>>
        ensures units { result ≡ (row_at self.now seat).transit }
        ensures exists { IsSome result → seat < length self.now.seat_rows }
    {
        if seat < self.seat_rows.len() {
            match &self.seat_rows[seat].transit {
                Some(units) => Some(units.start..units.end),
                None => None,
            }
        } else {
            None
        }
    }

    /// Lets a seat remember a load.
    pub(super) fn remember(&mut self, seat: usize, load: Remembered)
        requires { seat < length self.old.seat_rows }
        ensures { self.new ≡ remembers self.old seat load }
    {
        let row = &mut self.seat_rows[seat];
        row.remembered = Some(load);
    }

    /// Lets a seat forget what it loaded.
    pub(super) fn forget(&mut self, seat: usize)
        requires { seat < length self.old.seat_rows }
        ensures { self.new ≡ forgets self.old seat }
    {
        let row = &mut self.seat_rows[seat];
        row.remembered = None;
    }

    /// Sets what a seat has in transit.
    pub(super) fn carry(&mut self, seat: usize, units: Option<Range<usize>>)
        requires { seat < length self.old.seat_rows }
        ensures { self.new ≡ carries self.old seat units }
    {
        let row = &mut self.seat_rows[seat];
        row.transit = units;
    }

    /// Adds to what a seat has claimed.
    ///
    /// # Errors
    ///
    /// `Fault::Memory` if an allocation fails; the state is then as it was.
    pub(super) fn gain(&mut self, seat: usize, cells: Range<usize>) -> Result<(), Fault>
        requires { seat < length self.old.seat_rows }
        ensures gained { IfOk result (λ _. self.new ≡ gains self.old seat cells) }
        ensures unchanged { OnErr result (self.new ≡ self.old) }
        ensures fault { IsMemoryOnErr result }
    {
        let row = &mut self.seat_rows[seat];
        row.claims.push(cells)
    }

    /// Stores a word into a share.
    pub(super) fn store(&mut self, share: usize, word: u64)
        requires { share < length self.old.words }
        ensures { self.new ≡ with_word self.old share word }
    {
        self.words[share] = word;
    }
}

/// The words of a plan's shares before any event.
///
/// # Errors
///
/// `Fault::Memory` if an allocation fails.
pub(crate) fn opening_words(alloc: Global, plan: &Plan) -> Result<Vec<u64>, Fault>
    ensures words { IfOk result (λ words. words.items ≡ opening_words plan.now
        (shares_of plan.now)) }
    ensures sound { IsSound plan.now }
    ensures fault { IsMemoryOnErr result }
{
    let shares = plan.shares();
    let mut words = Vec::with_capacity(alloc, shares)?;
    let mut start = 0;
    for share in 0..shares {
        let end = start + plan.opening_size(share);
        words.push(pack(start, end))?;
        start = end;
    }
    Ok(words)
}

/// The records of `seats` seats for which nothing was loaded, taken or claimed.
///
/// # Errors
///
/// `Fault::Memory` if an allocation fails.
fn fresh_seat_rows(alloc: Global, seats: usize) -> Result<Vec<SeatRow>, Fault>
    ensures rows { IfOk result (λ rows. rows.items ≡ replicate seats fresh) }
    ensures fault { IsMemoryOnErr result }
{
    let mut rows = Vec::with_capacity(alloc, seats)?;
    for _seat in 0..seats {
        rows.push(SeatRow {
            remembered: None,
            transit: None,
            claims: ClaimedCells::new(alloc),
        })?;
    }
    Ok(rows)
}
