//! A share of a count latch, the rule that the latch and its shares keep, and what each step tells.
use atomic_table::{Join, Play, Seat, Split, TableRule};
use std::collections::LinkedList;

/// What a share knows of its count latch. No value of it is made.
pub struct ShareView {
    /// How many gives it may make: one, or none once it is spent.
    pub unspent: u64,
    /// How many shares the latch was made of.
    pub of: u64,
    /// The shares that it has seen given, by their numbers, in the order of the gives.
    pub seen: LinkedList<u64>,
    /// What another share has seen given, while it is being told.
    pub heard: LinkedList<u64>,
}

/// A share of a count latch, which may be given once. It takes no bytes, and goes to any thread.
///
/// Contracts name whether it may still be given by `unspent`, and the gives that it has seen by
/// `gives_seen`.
#[derive(Drop)]
pub struct CountShare {
    pub(crate) seat: Seat<(), ShareView>,
}

/// The rule: there is one history of gives, each share stands in it at most once, and the word is
/// the number of shares that are not in it.
pub struct EachOnce;

impl TableRule<(), ShareView, u64> for EachOnce {
    ghost use Rattle.parallel_pool.specs.CountHistory.{IsCountOf, founder};

    ghost holds = { λ n s. IsCountOf n s.words s.views };

    ghost first = { λ n. founder n };
}

/// One share is cut off those that the first seat holds.
pub(crate) struct Sharing;

impl Split<ShareView> for Sharing {
    ghost use Rattle.parallel_pool.specs.CountHistory.{one_less, one_share};

    ghost left = { one_less };

    ghost right = { one_share };
}

/// A new seat tells which gives a share has seen.
pub(crate) struct Telling;

impl Split<ShareView> for Telling {
    ghost use Rattle.parallel_pool.specs.CountHistory.{telling_gives};

    ghost left = { λ v. v };

    ghost right = { telling_gives };
}

/// A share hears which gives another has seen, which is dropped.
pub(crate) struct Hearing;

impl Join<ShareView> for Hearing {
    ghost use Rattle.parallel_pool.specs.CountHistory.{hearing_gives, stranger};

    ghost both = { hearing_gives };

    ghost spent = { stranger };
}

/// The last step of `learn`.
pub(crate) struct Learning;

impl Play<(), ShareView> for Learning {
    ghost use Rattle.std.specs.Prelude.{◌≡◌};
    ghost use Rattle.parallel_pool.specs.CountHistory.{SameShare};
    ghost use Rattle.parallel_pool.specs.Histories.{Longer};

    ghost then = { λ _ me found after. Longer me.0.seen me.0.heard after.0.seen
        × SameShare me.0 after.0 × (after.1 ≡ me.1) };
}

/// The step of `give`.
pub(crate) struct CountsDown;

impl Play<(), ShareView> for CountsDown {
    ghost use Rattle.std.specs.Prelude.{◌≡◌};
    ghost use Rattle.parallel_pool.specs.CountHistory.{CountsFrom};

    ghost then = { λ _ me found after. CountsFrom found me.0 after.0 × (after.1 ≡ me.1) };
}

/// The step of `wait`.
pub(crate) struct SeesCount;

impl Play<(), ShareView> for SeesCount {
    ghost use Rattle.std.specs.Prelude.{◌≡◌};
    ghost use Rattle.parallel_pool.specs.CountHistory.{Sees};

    ghost then = { λ _ me found after. Sees found me.0 after.0 };
}
