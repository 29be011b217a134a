//! What the words and the seats keep together, and what each step on a word tells its seat.

use crate::machine::Plan;
use atomic_table::{Join, Play, Split, TableRule};
use std::collections::LinkedList;
use std::ops::Range;

/// What a seat knows. Contracts speak of it, and no value of it is made.
pub struct View {
    /// The seat's number. Seats that were taken in add theirs.
    pub owns: LinkedList<usize>,
    /// The cells that the seat has claimed, in order.
    pub claims: LinkedList<Range<usize>>,
    /// The units that the seat has in transit.
    pub transit: LinkedList<Range<usize>>,
    /// The seat's number where it has seen its own word empty and has not filled it since.
    pub empties: LinkedList<usize>,
    /// The word that was loaded last at each share.
    pub words: LinkedList<u64>,
    /// How often each share was loaded.
    pub loads: LinkedList<u64>,
    /// The other shares that were loaded since the seat's own was loaded last, in order.
    pub since: LinkedList<usize>,
    /// The word that the last exchange found.
    pub met: u64,
    /// The share at whose word the last exchange was tried.
    pub met_at: usize,
    /// The number of exchanges that were tried.
    pub exchanges: u64,
    /// The number of steps that changed a word.
    pub changes: u64,
    /// The plan of the shares.
    pub plan: Plan,
}

/// Each cell is in one place: in a word, in transit or in a claim. `IsSharingOf` says it whole, of
/// the words that are used (`Spaced`).
pub struct Partition;

impl TableRule<(), View, Plan> for Partition {
    ghost use Rattle.parallel_shares.specs.Sharing.{IsSharingOf, undealt};
    ghost use Rattle.parallel_shares.specs.Spaced.{Spaced};

    ghost holds = { λ sizes. Spaced (IsSharingOf sizes) };

    ghost first = { λ sizes. undealt sizes 0 };
}

/// A load of the word of the seat's own share. No other one was loaded since.
pub struct LookOwn;

impl Play<(), View> for LookOwn {
    ghost use Rattle.parallel_shares.specs.Sharing.{LooksOwn};

    ghost then = { LooksOwn };
}

/// An exchange that claims the front of a word.
pub struct TakeFront;

impl Play<(), View> for TakeFront {
    ghost use Rattle.parallel_shares.specs.Sharing.{TakesFront};

    ghost then = { TakesFront };
}

/// A load of the word of another seat's share.
pub struct LookAt;

impl Play<(), View> for LookAt {
    ghost use Rattle.parallel_shares.specs.Sharing.{LooksAt};

    ghost then = { LooksAt };
}

/// An exchange that takes the back half of a word into transit.
pub struct TakeBack;

impl Play<(), View> for TakeBack {
    ghost use Rattle.parallel_shares.specs.Sharing.{TakesBack};

    ghost then = { TakesBack };
}

/// A store of what is in transit into the seat's own share.
pub struct PutDown;

impl Play<(), View> for PutDown {
    ghost use Rattle.parallel_shares.specs.Sharing.{PutsDown};

    ghost then = { PutsDown };
}

/// The first of several seats goes to a view of its own.
pub struct Deal;

impl Split<View> for Deal {
    ghost use Rattle.parallel_shares.specs.Sharing.{dealt_from, dealt};

    ghost left = { dealt_from };

    ghost right = { dealt };
}

/// A seat takes in what another has.
pub struct Gather;

impl Join<View> for Gather {
    ghost use Rattle.parallel_shares.specs.Sharing.{gathered, spent};

    ghost both = { gathered };

    ghost spent = { spent };
}
