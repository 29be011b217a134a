//! How a grid is cut into units, claims and shares.
ghost use Rattle.std.specs.Prelude.{◌≡◌, ◌≢◌, ◌+◌, ◌*◌, ◌/◌, ◌%◌, ◌^◌, ◌<◌, ◌≤◌, ◌-◌, ◌↔◌, IfSome, IfNone, IsFalse, IsTrue};
ghost use Rattle.std.specs.Int.NonZero.{non_zero_usize_get};

use crate::word::{back, front, is_empty, unpack};
use std::marker::Model;
use std::num::NonZeroUsize;
use std::ops::Range;

/// The most units of a plan, so that both ends of a range fit half a word.
const MOST_UNITS: usize = 65535;

/// How a grid is cut into units, claims and shares.
#[derive(Drop)]
pub struct Plan {
    cells: usize,
    unit: usize,
    claim: usize,
    units: usize,
    workers: usize,
    split_cost: usize,
    whole: bool,
}

impl Model for Plan {
    ghost use Rattle.parallel_shares.specs.Sizes.{Sizes, IsSound};

    ghost Value = { Sizes };

    ghost view = { λ p. record {
      cells = p.cells;
      unit = p.unit;
      claim = p.claim;
      units = p.units;
      workers = p.workers;
      split_cost = p.split_cost;
      whole = p.whole;
    } };

    ghost invariant = { λ p. IsSound
        (record {
          cells = p.cells;
          unit = p.unit;
          claim = p.claim;
          units = p.units;
          workers = p.workers;
          split_cost = p.split_cost;
          whole = p.whole;
        }) };
}

impl Plan {
    ghost use Rattle.parallel_shares.specs.Sizes.{Sizes, sizes_for, shares_of, share_of, cells_to, opening_size, IsSound};
    ghost use Rattle.parallel_shares.specs.Words.{start_of, end_of, packed, IsWithin, IsEmptyWord};
    ghost use Rattle.parallel_shares.specs.Answers.{claim_stop, claim_cells, cells_in, middle_of, Pays};

    /// The plan for `rows` rows of `len` cells each, where a tile costs `tile_cost` cells and there
    /// are at most `workers` workers.
    ///
    /// A whole plan hands out whole rows from one share. A plan that cuts rows gives each worker a
    /// share of cells, and asks for rows of at least twice as many cells as a tile costs. The
    /// numbers are those of `sizes_of`, and `IsSound` says what holds of them: the units cover the
    /// cells, there are at most 65535 of them, and there is a claim for each worker.
    pub fn new(
        rows: usize,
        len: usize,
        tile_cost: NonZeroUsize,
        workers: NonZeroUsize,
        whole: bool,
    ) -> Plan
        requires some_rows { rows ≢ 0 }
        requires some_cells { len ≢ 0 }
        requires cells_fit { rows * len < 2 ^ 64 }
        requires cut_pays { IsFalse whole → 2 * non_zero_usize_get tile_cost ≤ len }
        ensures sizes { result ≡ sizes_for rows len (non_zero_usize_get tile_cost)
            (non_zero_usize_get workers) whole }
        ensures sound { IsSound result }
    {
        let cells = rows * len;
        let unit = if whole {
            len * rows.div_ceil(MOST_UNITS)
        } else {
            cells.div_ceil(MOST_UNITS)
        };
        let claim = if whole {
            1
        } else {
            tile_cost.get().div_ceil(unit)
        };
        let units = cells.div_ceil(unit);
        Plan {
            cells,
            unit,
            claim,
            units,
            workers: workers.get().min(units / claim),
            split_cost: if whole { 0 } else { tile_cost.get() },
            whole,
        }
    }

    /// The number of workers, and so of seats.
    pub fn workers(&self) -> usize
        ensures { result ≡ self.now.workers }
    {
        self.workers
    }

    /// The number of cells in a unit; the last unit may have fewer.
    pub fn unit(&self) -> usize
        ensures { result ≡ self.now.unit }
    {
        self.unit
    }

    /// The greatest number of units in a claim.
    pub fn claim(&self) -> usize
        ensures { result ≡ self.now.claim }
    {
        self.claim
    }

    /// The number of cells.
    pub fn cells(&self) -> usize
        ensures { result ≡ self.now.cells }
    {
        self.cells
    }

    /// The number of units that cover the cells, at most 65535.
    pub fn units(&self) -> usize
        ensures units { result ≡ self.now.units }
        ensures sound { IsSound self.now }
    {
        self.units
    }

    /// A plan of the same numbers.
    pub(super) fn copied(&self) -> Plan
        ensures { result ≡ self.now }
    {
        Plan {
            cells: self.cells,
            unit: self.unit,
            claim: self.claim,
            units: self.units,
            workers: self.workers,
            split_cost: self.split_cost,
            whole: self.whole,
        }
    }

    /// Whether another plan has the same numbers.
    pub(super) fn is(&self, other: &Plan) -> bool
        ensures { IsTrue result ↔ self.now ≡ other.now }
    {
        self.cells == other.cells
            && self.unit == other.unit
            && self.claim == other.claim
            && self.units == other.units
            && self.workers == other.workers
            && self.split_cost == other.split_cost
            && self.whole == other.whole
    }

    /// The number of shares.
    pub(crate) fn shares(&self) -> usize
        ensures shares { result ≡ shares_of self.now }
        ensures sound { IsSound self.now }
    {
        if self.whole { 1 } else { self.workers }
    }

    /// The share that a seat claims from.
    pub(crate) fn share_of(&self, seat: usize) -> usize
        ensures { result ≡ share_of self.now seat }
    {
        if self.whole { 0 } else { seat }
    }

    /// How many units the share at a place opens with.
    pub(super) fn opening_size(&self, share: usize) -> usize
        ensures { result ≡ opening_size self.now share }
    {
        let shares = self.shares();
        self.units / shares + usize::from(share < self.units % shares)
    }

    /// The cells of the units from `start` up to `stop`.
    pub(crate) fn cells_of(&self, start: usize, stop: usize) -> Range<usize>
        requires { start < self.now.units }
        ensures cells { result ≡ record {
          start = start * self.now.unit;
          end = cells_to self.now stop;
        } }
        ensures in_order { start ≤ stop → result.start ≤ result.end }
    {
        start * self.unit..stop.saturating_mul(self.unit).min(self.cells)
    }

    /// The number of cells of a word that isn't empty.
    pub(crate) fn cells_in(&self, word: u64) -> usize
        requires within { IsWithin self.now.units word }
        requires some { ¬ IsEmptyWord word }
        ensures { result ≡ cells_in self.now word }
    {
        let (start, end) = unpack(word);
        let cells = self.cells_of(start, end);
        cells.end - cells.start
    }

    /// The cells that a claim takes of a word, and the word that it leaves, or None where no unit
    /// is left.
    pub(crate) fn claim_from(&self, word: u64) -> Option<(Range<usize>, u64)>
        requires { IsWithin self.now.units word }
        ensures some { IfSome result (λ taken. (¬ IsEmptyWord word)
            × (taken.0 ≡ claim_cells self.now word)
            × (taken.1 ≡ packed (claim_stop self.now word) (end_of word))) }
        ensures none { IfNone result (IsEmptyWord word) }
    {
        if is_empty(word) {
            return None;
        }
        let (units, left) = front(word, self.claim);
        Some((self.cells_of(units.start, units.end), left))
    }

    /// The units that a steal takes of a word, and the word that it leaves, or None where the
    /// word's split does not pay.
    pub(crate) fn steal_from(&self, word: u64) -> Option<(Range<usize>, u64)>
        requires { IsWithin self.now.units word }
        ensures some { IfSome result (λ taken. Pays self.now word
            × (taken.0 ≡ record { start = middle_of word; end = end_of word })
            × (taken.1 ≡ packed (start_of word) (middle_of word))) }
        ensures none { IfNone result (¬ Pays self.now word) }
    {
        let (start, end) = unpack(word);
        if end - start < 2 {
            return None;
        }
        let (units, left) = back(word);
        let cells = self.cells_of(units.start, units.end);
        if cells.end - cells.start > self.split_cost {
            Some((units, left))
        } else {
            None
        }
    }
}
