//! What the words, the seats and their claims are between two events.
ghost use Rattle.std.specs.Prelude.{◌≡◌, ◌<◌, length, IfOk};
ghost use Rattle.parallel_fault.specs.Trouble.{IsMemoryOnErr};

use super::plan::Plan;
use super::rows::Rows;
use parallel_fault::Fault;
use std::alloc::Global;
use std::marker::Model;
use std::ops::Range;

/// The words of all shares, what each seat remembers, carries and has claimed, and the plan that
/// all of this belongs to.
#[derive(Drop)]
pub struct State {
    pub(super) rows: Rows,
}

impl Model for State {
    ghost use Rattle.parallel_shares.specs.Machine.{Machine, IsStateOf};

    ghost Value = { Machine };

    ghost view = { λ s. s.rows };

    ghost invariant = { λ s. IsStateOf s.rows.plan s.rows };
}

impl State {
    ghost use Rattle.std.specs.Prelude.{map};
    ghost use Rattle.parallel_shares.specs.Cut.{BalancedCut};
    ghost use Rattle.parallel_shares.specs.Words.{range_of};
    ghost use Rattle.parallel_shares.specs.Machine.{row_at, opening, IsStateOf};
    ghost use Rattle.parallel_shares.specs.Holders.{Holders, IsOpening, Shows};

    /// The state before any event, `opening`: nothing is remembered, carried or claimed.
    ///
    /// The shares hold a balanced cut of the units, and each unit is pending at the share that
    /// holds it, as `IsOpening` and `Shows` say. Such a state belongs to its plan, as `IsStateOf`
    /// says.
    ///
    /// # Errors
    ///
    /// `Fault::Memory` where the lists could not be grown.
    pub fn new(alloc: Global, plan: &Plan) -> Result<State, Fault>
        ensures opening { IfOk result (λ state. state ≡ opening plan.now) }
        ensures belongs { IfOk result (λ state. IsStateOf plan.now state) }
        ensures balanced { IfOk result
            (λ state. BalancedCut plan.now.units (map range_of state.words)) }
        ensures shows { IfOk result (λ state. (holders : Holders) × IsOpening plan.now holders
            × Shows plan.now state holders) }
        ensures fault { IsMemoryOnErr result }
    {
        let rows = Rows::new(alloc, plan)?;
        Ok(State { rows })
    }

    /// The words of all shares.
    pub fn words(&self) -> &[u64]
        ensures { result.now ≡ self.now.words }
    {
        self.rows.words()
    }

    /// The cells that a seat has claimed, in order.
    pub fn claims(&self, seat: usize) -> &[Range<usize>]
        requires { seat < length self.now.seat_rows }
        ensures { result.now ≡ (row_at self.now seat).claims }
    {
        self.rows.claims(seat)
    }

    /// The units that a seat has in transit.
    pub fn in_transit(&self, seat: usize) -> Option<Range<usize>>
        requires { seat < length self.now.seat_rows }
        ensures { result ≡ (row_at self.now seat).transit }
    {
        self.rows.carried(seat)
    }
}
