//! The steps of a seat, and what they come to.
use std::ops::Range;

/// One step of a seat: it touches at most one word.
#[derive(Clone, Copy, Debug, PartialEq, Eq)]
pub enum Event {
    /// The seat reads the word of a share and remembers it.
    Load { seat: usize, share: usize },
    /// The seat tries to take a claim from the front of the share that it claims from.
    Claim { seat: usize },
    /// The seat tries to take the back half of another share into transit.
    Steal { seat: usize },
    /// The seat stores what it has in transit into its own empty share.
    Refill { seat: usize },
}

/// What an event came to.
#[derive(Clone, Debug, PartialEq, Eq, Drop)]
pub enum Outcome {
    /// The word that was loaded.
    Loaded(u64),
    /// The remembered word had no unit left to claim.
    Empty,
    /// The word was no longer the remembered one, and was left as it was.
    Lost,
    /// The cells that were claimed.
    Claimed(Range<usize>),
    /// The remembered word's split does not pay.
    Nothing,
    /// The units that went into transit.
    Taken(Range<usize>),
    /// The word that was stored.
    Refilled(u64),
    /// What the event needs was not there, and nothing was changed.
    Refused,
}
