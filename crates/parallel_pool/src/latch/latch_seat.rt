//! A seat of a core latch, the rule that the latch and its seats keep, and what each step tells.
use crate::latch::history::View;
use atomic_table::{Join, Play, Seat, Split, TableRule};

/// What one caller of a core latch has seen of it. It takes no bytes, and goes to any thread.
///
/// Contracts name what it knows by `known`.
#[derive(Drop)]
pub struct LatchSeat {
    pub(crate) seat: Seat<(), View>,
}

/// The rule: one history leads to the phase that the word stands for, and each seat has seen a
/// beginning of it.
pub struct OneHistory;

impl TableRule<(), View, ()> for OneHistory {
    ghost use Rattle.parallel_pool.specs.LatchHistory.{IsHistoryOf, newcomer};

    ghost holds = { λ _ s. IsHistoryOf s.words s.views };

    ghost first = { λ _. newcomer };
}

/// A new seat has seen nothing.
pub(crate) struct Seating;

impl Split<View> for Seating {
    ghost use Rattle.parallel_pool.specs.LatchHistory.{newcomer};

    ghost left = { λ v. v };

    ghost right = { λ _. newcomer };
}

/// A new seat tells what a seat has seen.
pub(crate) struct Telling;

impl Split<View> for Telling {
    ghost use Rattle.parallel_pool.specs.LatchHistory.{telling};

    ghost left = { λ v. v };

    ghost right = { telling };
}

/// A seat hears what another has seen, which is dropped.
pub(crate) struct Hearing;

impl Join<View> for Hearing {
    ghost use Rattle.parallel_pool.specs.LatchHistory.{newcomer, hearing};

    ghost both = { hearing };

    ghost spent = { newcomer };
}

/// The last step of `learn`.
pub(crate) struct Learning;

impl Play<(), View> for Learning {
    ghost use Rattle.std.specs.Prelude.{◌≡◌};
    ghost use Rattle.parallel_pool.specs.Histories.{Longer};

    ghost then = { λ _ me found after. Longer me.0.seen me.0.heard after.0.seen
        × (after.0.own ≡ me.0.own) × (after.1 ≡ me.1) };
}

/// A new seat has seen nothing, whatever the latch is.
pub(crate) struct Enters;

impl Play<(), View> for Enters {
    ghost use Rattle.std.specs.Prelude.{◌≡◌};
    ghost use Rattle.parallel_pool.specs.LatchHistory.{newcomer};

    ghost then = { λ _ _ _ after. after.0 ≡ newcomer };
}

/// The step of `get_sleepy`.
pub(crate) struct GetsSleepy;

impl Play<(), View> for GetsSleepy {
    ghost use Rattle.std.specs.Prelude.{◌≡◌};
    ghost use Rattle.parallel_pool.specs.LatchMoves.{word_of};
    ghost use Rattle.parallel_pool.specs.LatchHistory.{Called};
    ghost use Rattle.parallel_pool.specs.declared.latch.history.Act.TheVariants.{GetSleepy};

    ghost then = { λ _ me found after. Called GetSleepy
        (λ phase. found ≡ word_of phase) me.0 after.0 × (after.1 ≡ me.1) };
}

/// The step of `fall_asleep`.
pub(crate) struct FallsAsleep;

impl Play<(), View> for FallsAsleep {
    ghost use Rattle.std.specs.Prelude.{◌≡◌};
    ghost use Rattle.parallel_pool.specs.LatchMoves.{word_of};
    ghost use Rattle.parallel_pool.specs.LatchHistory.{Called};
    ghost use Rattle.parallel_pool.specs.declared.latch.history.Act.TheVariants.{FallAsleep};

    ghost then = { λ _ me found after. Called FallAsleep
        (λ phase. found ≡ word_of phase) me.0 after.0 × (after.1 ≡ me.1) };
}

/// The step of `wake_up`.
pub(crate) struct WakesUp;

impl Play<(), View> for WakesUp {
    ghost use Rattle.std.specs.Prelude.{◌≡◌};
    ghost use Rattle.parallel_pool.specs.LatchMoves.{word_of};
    ghost use Rattle.parallel_pool.specs.LatchHistory.{Called};
    ghost use Rattle.parallel_pool.specs.declared.latch.history.Act.TheVariants.{WakeUp};

    ghost then = { λ _ me found after. Called WakeUp (λ phase. found ≡ word_of phase) me.0 after.0
        × (after.1 ≡ me.1) };
}

/// The step of `set`.
pub(crate) struct Sets;

impl Play<(), View> for Sets {
    ghost use Rattle.std.specs.Prelude.{◌≡◌};
    ghost use Rattle.parallel_pool.specs.LatchMoves.{word_of};
    ghost use Rattle.parallel_pool.specs.LatchHistory.{Called};
    ghost use Rattle.parallel_pool.specs.declared.latch.history.Act.TheVariants.{Set};

    ghost then = { λ _ me found after. Called Set (λ phase. found ≡ word_of phase) me.0 after.0
        × (after.1 ≡ me.1) };
}

/// The step of `probe`.
pub(crate) struct Probes;

impl Play<(), View> for Probes {
    ghost use Rattle.std.specs.Prelude.{◌≡◌};
    ghost use Rattle.parallel_pool.specs.LatchMoves.{word_of};
    ghost use Rattle.parallel_pool.specs.LatchHistory.{Called};
    ghost use Rattle.parallel_pool.specs.declared.latch.history.Act.TheVariants.{Probe};

    ghost then = { λ _ me found after. Called Probe (λ phase. found ≡ word_of phase) me.0 after.0
        × (after.1 ≡ me.1) };
}
