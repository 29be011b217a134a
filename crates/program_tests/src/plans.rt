//! Grids, and the pure machine of shares on whole plans.
use commonware_parallel::shares::machine::{Event, Outcome, Plan, State, replay, step};
use commonware_parallel::{Fault, Grid};
use std::alloc::Global;
use std::num::NonZeroUsize;
use std::process::Abort;
use test_support::{holds, number, same};

// ---- grids

fn grid_of(rows: usize) -> Grid {
    Grid {
        rows,
        tile_cost: NonZeroUsize::MIN,
    }
}

#[test]
fn grids_fit_where_their_indices_can_be_counted(rt: HostRuntime) {
    holds!(&rt, !Grid::fits(&[], 1));
    holds!(&rt, Grid::fits(&[grid_of(0)], usize::MAX));
    holds!(&rt, Grid::fits(&[grid_of(4_294_967_295)], 4_294_967_297));
    holds!(&rt, !Grid::fits(&[grid_of(2)], 9_223_372_036_854_775_808));
    holds!(&rt, !Grid::fits(&[grid_of(usize::MAX)], usize::MAX));
}

// ---- the machine

const LOOK_0: Event = Event::Load { seat: 0, share: 0 };

const LOOK_1: Event = Event::Load { seat: 1, share: 0 };

const LOOK_2: Event = Event::Load { seat: 2, share: 0 };

const CLAIM_0: Event = Event::Claim { seat: 0 };

const CLAIM_1: Event = Event::Claim { seat: 1 };

const STEAL_0: Event = Event::Steal { seat: 0 };

// Two seats that load before either claims: the second one's claim is lost.
const EVENTS: [Event; 13] = [
    LOOK_0, LOOK_1, CLAIM_0, CLAIM_1, CLAIM_1, LOOK_1, CLAIM_1, LOOK_0, CLAIM_0, LOOK_1, CLAIM_1,
    STEAL_0, LOOK_2,
];

#[test]
fn a_stale_claim_is_lost(rt: HostRuntime) {
    let plan = Plan::new(3, 2, number(1), number(2), true);
    same!(&rt, (plan.workers(), plan.unit(), plan.claim()), (2, 2, 1));
    same!(&rt, (plan.cells(), plan.units()), (6, 3));
    // A unit has several rows where there are many.
    let many = Plan::new(65_536, 3, number(1), number(4), true);
    same!(
        &rt,
        (many.unit(), many.workers(), many.units()),
        (6, 4, 32_768)
    );
    let (state, outcomes) = replay(rt.alloc(), &plan, &EVENTS).expect(&rt, "memory");
    let expected = [
        Outcome::Loaded(3),
        Outcome::Loaded(3),
        Outcome::Claimed(0..2),
        Outcome::Lost,
        Outcome::Refused,
        Outcome::Loaded(65_539),
        Outcome::Claimed(2..4),
        Outcome::Loaded(131_075),
        Outcome::Claimed(4..6),
        Outcome::Loaded(196_611),
        Outcome::Empty,
        Outcome::Refused,
        Outcome::Refused,
    ];
    same!(&rt, outcomes.as_slice(), expected.as_slice());
    same!(&rt, state.words(), [196_611].as_slice());
    same!(&rt, state.claims(0), [0..2, 4..6].as_slice());
    same!(&rt, state.claims(1), [2..4].as_slice());
    same!(&rt, state.in_transit(1), None);
}

// A replay, and one claim by steps, return what they always do, or `Memory`. Run with each
// allocation failing in turn.
fn replay_or_refusal(rt: &impl Abort, alloc: Global) {
    let plan = Plan::new(3, 2, number(1), number(2), true);
    match replay(alloc, &plan, &EVENTS) {
        Ok((state, outcomes)) => {
            same!(rt, state.words(), [196_611].as_slice());
            same!(rt, outcomes.len(), EVENTS.len());
        }
        Err(fault) => same!(rt, fault, Fault::Memory),
    }
    let Ok(mut state) = State::new(alloc, &plan) else {
        return;
    };
    let loaded = step(&plan, &mut state, LOOK_0);
    same!(rt, loaded, Ok(Outcome::Loaded(3)));
    match step(&plan, &mut state, CLAIM_0) {
        Ok(outcome) => {
            same!(rt, outcome, Outcome::Claimed(0..2));
            same!(rt, state.words(), [65_539].as_slice());
        }
        Err(fault) => {
            same!(rt, fault, Fault::Memory);
            same!(rt, state.words(), [3].as_slice());
        }
    }
}

#[test]
fn a_refused_growth_leaves_the_machine_as_it_was(rt: HostRuntime) {
    replay_or_refusal(&rt, rt.alloc());
}
