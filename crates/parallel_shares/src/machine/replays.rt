//! Lists of events, taken from the opening state of a plan.
ghost use Rattle.std.specs.Prelude.{◌≡◌, length, IfOk};
ghost use Rattle.parallel_shares.specs.Machine.{opening, IsStateOf};
ghost use Rattle.parallel_shares.specs.Answers.{Replays};
ghost use Rattle.parallel_shares.specs.Holders.{Reached};
ghost use Rattle.parallel_fault.specs.Trouble.{IsMemoryOnErr};

use super::event::{Event, Outcome};
use super::plan::Plan;
use super::state::State;
use super::steps::step;
use parallel_fault::Fault;
use std::alloc::Global;

/// Takes a list of events, in order, from the opening state of a plan: the state after them and an
/// outcome for each (`Replays`).
///
/// Each unit has exactly one holder then: a share where it is pending, a seat that carries it, or a
/// seat that has claimed its cells (`Reached`).
///
/// # Errors
///
/// `Fault::Memory` where a list could not be grown.
pub fn replay(alloc: Global, plan: &Plan, events: &[Event]) -> Result<(State, Vec<Outcome>), Fault>
    ensures outcomes { IfOk result
        (λ r. Replays plan.now (opening plan.now) events.now r.1.items r.0) }
    ensures run { IfOk result (λ r. Reached plan.now r.0) }
    ensures belongs { IfOk result (λ r. IsStateOf plan.now r.0) }
    ensures one_each { IfOk result (λ r. length r.1.items ≡ length events.now) }
    ensures fault { IsMemoryOnErr result }
{
    let mut state = State::new(alloc, plan)?;
    let mut outcomes = Vec::with_capacity(alloc, events.len())?;
    for event in events {
        outcomes.push(step(plan, &mut state, *event)?)?;
    }
    Ok((state, outcomes))
}
