//! One event on a state: what it returns, and what it changes.
ghost use Rattle.std.specs.Prelude.{◌≡◌, Ok, IfOk, OnErr};
ghost use Rattle.parallel_shares.specs.Machine.{IsStateOf};
ghost use Rattle.parallel_shares.specs.Answers.{Answers, AddsClaim, LoadAnswers, ClaimAnswers, StealAnswers, RefillAnswers};
ghost use Rattle.parallel_shares.specs.Holders.{StepsByMoves};
ghost use Rattle.parallel_shares.specs.declared.machine.event.Event.TheVariants.{Claim};
ghost use Rattle.parallel_shares.specs.declared.machine.event.Outcome.TheVariants.{Refused};
ghost use Rattle.parallel_fault.specs.Trouble.{IsMemoryOnErr};

use super::event::{Event, Outcome};
use super::plan::Plan;
use super::rows::{Remembered, Rows};
use super::state::State;
use crate::word::{is_empty, pack};
use parallel_fault::Fault;

/// Takes one event on a state, which keeps the plan that it was made for (`Answers`,
/// `StepsByMoves`). Where its need is not met it is `Refused` and changes nothing, and so is every
/// event on a state of another plan.
///
/// # Errors
///
/// `Fault::Memory` where the list of a seat's claims could not be grown (`AddsClaim`); the state is
/// then as it was.
pub fn step(plan: &Plan, state: &mut State, event: Event) -> Result<Outcome, Fault>
    ensures answers { IsStateOf plan.now state.old
        → IfOk result (λ outcome. Answers plan.now state.old event outcome state.new) }
    ensures moves { StepsByMoves plan.now state.old state.new }
    ensures belongs { IsStateOf plan.now state.old → IsStateOf plan.now state.new }
    ensures other_plan { ¬ IsStateOf plan.now state.old
        → (result ≡ Ok Refused) × (state.new ≡ state.old) }
    ensures unchanged { OnErr result (state.new ≡ state.old) }
    ensures refused { OnErr result (AddsClaim plan.now state.old event) }
    ensures fault { IsMemoryOnErr result }
{
    if !state.rows.is_of(plan) {
        return Ok(Outcome::Refused);
    }
    take(plan, &mut state.rows, event)
}

/// Takes one event on the words and the seats of this plan.
///
/// # Errors
///
/// `Fault::Memory` if an allocation fails.
fn take(plan: &Plan, rows: &mut Rows, event: Event) -> Result<Outcome, Fault>
    requires { IsStateOf plan.now rows.old }
    ensures answers { IfOk result (λ outcome. Answers plan.now rows.old event outcome rows.new) }
    ensures moves { StepsByMoves plan.now rows.old rows.new }
    ensures belongs { IsStateOf plan.now rows.new }
    ensures unchanged { OnErr result (rows.new ≡ rows.old) }
    ensures refused { OnErr result (AddsClaim plan.now rows.old event) }
    ensures fault { IsMemoryOnErr result }
{
    match event {
        Event::Load { seat, share } => Ok(load(rows, seat, share)),
        Event::Claim { seat } => claim(plan, rows, seat),
        Event::Steal { seat } => Ok(steal(plan, rows, seat)),
        Event::Refill { seat } => Ok(refill(plan, rows, seat)),
    }
}

/// A seat reads the word of a share, and remembers it.
fn load(rows: &mut Rows, seat: usize, share: usize) -> Outcome
    ensures { LoadAnswers rows.old seat share result rows.new }
{
    if seat >= rows.seats() || share >= rows.shares() {
        return Outcome::Refused;
    }
    let word = rows.word(share);
    rows.remember(seat, Remembered { share, word });
    Outcome::Loaded(word)
}

/// A seat takes a claim from the front of the share that it claims from.
///
/// # Errors
///
/// `Fault::Memory` if an allocation fails.
fn claim(plan: &Plan, rows: &mut Rows, seat: usize) -> Result<Outcome, Fault>
    requires { IsStateOf plan.now rows.old }
    ensures answers { IfOk result (λ outcome. ClaimAnswers plan.now rows.old seat outcome
        rows.new) }
    ensures unchanged { OnErr result (rows.new ≡ rows.old) }
    ensures refused { OnErr result (AddsClaim plan.now rows.old (Claim seat)) }
    ensures fault { IsMemoryOnErr result }
{
    let own = plan.share_of(seat);
    let Some(load) = rows.remembered(seat) else {
        return Ok(Outcome::Refused);
    };
    if load.share != own {
        return Ok(Outcome::Refused);
    }
    let Some((cells, left)) = plan.claim_from(load.word) else {
        rows.forget(seat);
        return Ok(Outcome::Empty);
    };
    if rows.word(own) != load.word {
        rows.forget(seat);
        return Ok(Outcome::Lost);
    }
    rows.gain(seat, cells.start..cells.end)?;
    rows.forget(seat);
    rows.store(own, left);
    Ok(Outcome::Claimed(cells))
}

/// A seat takes the back half of another share into transit.
fn steal(plan: &Plan, rows: &mut Rows, seat: usize) -> Outcome
    requires { IsStateOf plan.now rows.old }
    ensures { StealAnswers plan.now rows.old seat result rows.new }
{
    let own = plan.share_of(seat);
    let Some(load) = rows.remembered(seat) else {
        return Outcome::Refused;
    };
    if load.share == own || rows.carried(seat).is_some() || !is_empty(rows.word(own)) {
        return Outcome::Refused;
    }
    let Some((units, left)) = plan.steal_from(load.word) else {
        rows.forget(seat);
        return Outcome::Nothing;
    };
    if rows.word(load.share) != load.word {
        rows.forget(seat);
        return Outcome::Lost;
    }
    rows.forget(seat);
    rows.carry(seat, Some(units.start..units.end));
    rows.store(load.share, left);
    Outcome::Taken(units)
}

/// A seat stores what it has in transit into its own empty share.
fn refill(plan: &Plan, rows: &mut Rows, seat: usize) -> Outcome
    requires { IsStateOf plan.now rows.old }
    ensures { RefillAnswers plan.now rows.old seat result rows.new }
{
    let own = plan.share_of(seat);
    let Some(units) = rows.carried(seat) else {
        return Outcome::Refused;
    };
    if !is_empty(rows.word(own)) {
        return Outcome::Refused;
    }
    let word = pack(units.start, units.end);
    rows.carry(seat, None);
    rows.store(own, word);
    Outcome::Refilled(word)
}
