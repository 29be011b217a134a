//! A seat of a gate, the rule that the gate and its seats keep, and what each step tells.
use atomic_table::{Join, Play, Seat, Split, TableRule};
use std::collections::LinkedList;

/// What a seat knows of its gate. Contracts speak of it, and no value of it is made.
pub struct GateView {
    /// How many of the gate's seats it stands for.
    pub seats: u64,
    /// The starts that it told, in order. A seat that took in others has theirs after its own.
    pub told: LinkedList<u64>,
    /// The least word that it saw, and the greatest number where it saw none.
    pub least: u64,
    /// How often it looked.
    pub looks: u64,
}

/// A seat of a gate. It takes no bytes, and goes to any thread.
///
/// Contracts name what it knows by `known`, and how many seats it stands for by `stands_for`.
#[derive(Drop)]
pub struct GateSeat {
    pub(crate) seat: Seat<(), GateView>,
}

/// The rule: the word is the greatest number or a start that some seat told, and no seat told a
/// lesser one.
pub struct LeastTold;

impl TableRule<(), GateView, u64> for LeastTold {
    ghost use Rattle.parallel_bridge.specs.GateRule.{IsGateOf, newcomer};

    ghost holds = { λ n s. IsGateOf n s.words s.views };

    ghost first = { λ n. newcomer n };
}

/// One seat is cut off those that the first one stands for.
pub(crate) struct Seating;

impl Split<GateView> for Seating {
    ghost use Rattle.parallel_bridge.specs.GateRule.{newcomer, one_less};

    ghost left = { one_less };

    ghost right = { λ _. newcomer 1 };
}

/// Half of the seats that a seat stands for go to a new one.
pub(crate) struct Halving;

impl Split<GateView> for Halving {
    ghost use Rattle.parallel_bridge.specs.GateRule.{back_half, front_half};

    ghost left = { front_half };

    ghost right = { back_half };
}

/// A seat takes in another, with what that one told and saw.
pub(crate) struct Gathering;

impl Join<GateView> for Gathering {
    ghost use Rattle.parallel_bridge.specs.GateRule.{gathered, newcomer};

    ghost both = { gathered };

    ghost spent = { newcomer 0 };
}

/// The step of `tell`.
pub(crate) struct Tells;

impl Play<(), GateView> for Tells {
    ghost use Rattle.std.specs.Prelude.{◌≡◌};
    ghost use Rattle.parallel_bridge.specs.GateRule.{telling};

    ghost then = { λ step me found after. (after.0 ≡ telling me.0 found step.first)
        × (after.1 ≡ me.1) };
}

/// The step of `stopped`.
pub(crate) struct Looks;

impl Play<(), GateView> for Looks {
    ghost use Rattle.std.specs.Prelude.{◌≡◌};
    ghost use Rattle.parallel_bridge.specs.GateRule.{looking};

    ghost then = { λ step me found after. (after.0 ≡ looking me.0 found) × (after.1 ≡ me.1) };
}
