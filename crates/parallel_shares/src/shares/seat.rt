//! A worker's right to claim, and what a single try came to.
ghost use Rattle.std.specs.Prelude.{◌≡◌, [], ◌∷◌, cond, true, false};
ghost use Rattle.parallel_shares.specs.Sharing.{ranges_of};

use super::rule::View;
use std::ops::Range;

/// One worker's right to claim from its shares. It is made by `Shares::new`, and `known` says what
/// it knows.
#[derive(Drop)]
pub struct Seat {
    pub(super) seat: atomic_table::Seat<(), View>,
    pub(super) index: usize,
    pub(super) own_empty: bool,
    pub(super) transit: Option<Range<usize>>,
    ghost owns: { seat.me.0.owns ≡ index ∷ [] },
    ghost empties: { seat.me.0.empties ≡ cond own_empty (index ∷ []) [] },
    ghost carries: { seat.me.0.transit ≡ ranges_of transit },
    ghost no_slots: { seat.me.1 ≡ [] },
}

/// What a single try came to.
#[derive(Clone, Debug, PartialEq, Eq, Drop)]
pub enum Tried {
    /// The cells that were claimed.
    Claimed(Range<usize>),
    /// The seat's own word was empty.
    Empty,
    /// The word was no longer the one that was loaded, and was left as it was.
    Lost,
    /// Units went into transit.
    Taken,
    /// No split of another share pays.
    Nothing,
}

impl Seat {
    ghost use Rattle.std.specs.Prelude.{ℕ};
    ghost use Rattle.parallel_shares.specs.Seats.{index_of, has_emptied, transit_of};

    /// The seat's number: seats are counted from 0.
    pub fn index(&self) -> usize
        ensures { result ≡ index_of self.now }
    {
        self.index
    }

    /// Whether the seat has seen its own word empty, and has not filled it since.
    pub fn own_empty(&self) -> bool
        ensures { result ≡ has_emptied self.now }
    {
        self.own_empty
    }

    /// The units that the seat has taken from another share and not yet put into its own.
    pub fn in_transit(&self) -> Option<Range<usize>>
        ensures { result ≡ transit_of self.now }
    {
        match &self.transit {
            Some(units) => Some(units.start..units.end),
            None => None,
        }
    }
}
