//! A segment's view of the gate: what it looks at, and what it tells.
ghost use Rattle.std.specs.Prelude.{◌≡◌, ◌+◌, ◌-◌, ◌<◌, ◌≤◌, ◌++◌, ◌∷◌, ◌↔◌, ℕ, [], IsTrue, false};
ghost use Rattle.std.specs.NonZero.{non_zero_usize_get};
ghost use Rattle.parallel_bridge.specs.GateRule.{back_half, front_half, greatest, looking};
ghost use Rattle.parallel_bridge.specs.Gates.{IsWatching, MayWatch, SameWatch, known, stands_for};
ghost use Rattle.parallel_bridge.specs.Endings.{Goes, HasLooked, LooksOnce, WatchEnds, WatchesJoin, WatchesMeet, failing, stopping, well};
ghost use Rattle.parallel_bridge.specs.WatchLaws.{watch_begins, watch_refused, watch_unlooked};

use crate::gate::{Gate, GateSeat};
use crate::watch::Watch;
use std::num::NonZeroUsize;

/// A part of a list that knows where it starts, with a seat of the gate by which it tells of an
/// error and is stopped.
#[derive(Drop)]
pub struct GateWatch<'g> {
    /// The gate.
    pub gate: &'g Gate,
    /// The part's seat, which stands for at least as many seats as the part has items.
    pub seat: GateSeat,
    /// The place of the part's first item in the whole list.
    pub start: usize,
}

impl<'g> GateWatch<'g> {
    /// The watches of the first `index` items and of the rest.
    pub fn split(self, index: usize) -> (GateWatch<'g>, GateWatch<'g>)
        requires watching { IsWatching self }
        requires two { 2 ≤ stands_for self.seat }
        requires within { self.start + index ≤ greatest }
        ensures gate { (result.0.gate ≡ self.entry.gate) × (result.1.gate ≡ self.entry.gate) }
        ensures watching { IsWatching result.0 × IsWatching result.1 }
        ensures front { known result.0.seat ≡ front_half (known self.entry.seat) }
        ensures back { known result.1.seat ≡ back_half (known self.entry.seat) }
        ensures start { (result.0.start ≡ self.entry.start)
            × (result.1.start ≡ self.entry.start + index) }
    {
        let GateWatch { gate, seat, start } = self;
        let mut front = seat;
        let back = gate.split(&mut front);
        let first = GateWatch {
            gate,
            seat: front,
            start,
        };
        let second = GateWatch {
            gate,
            seat: back,
            start: start + index,
        };
        (first, second)
    }
}

impl<'g> Watch for GateWatch<'g> {
    ghost may = { λ watch count. MayWatch watch count };

    ghost ends = { λ first count last how. WatchEnds first count last how };

    ghost looked = { λ first count last. HasLooked first count last };

    ghost meets = { λ left right. WatchesMeet left right };

    ghost joins = { λ left right both. WatchesJoin left right both };

    ghost begins = { watch_begins };

    ghost unlooked = { watch_unlooked };

    ghost refused = { watch_refused };

    fn halve(self, len: usize) -> (GateWatch<'g>, GateWatch<'g>) {
        self.split(len / 2)
    }

    /// Whether the part is to stop, since a part with a lesser start has failed: one look.
    fn stopped(&mut self) -> bool
        requires { IsWatching self.old }
        ensures same { SameWatch self.old self.new }
        ensures watching { IsWatching self.new }
        ensures told { (known self.new.seat).told ≡ (known self.old.seat).told }
        ensures less { IsTrue result → (known self.new.seat).least < self.old.start }
        ensures goes { result ≡ false → Goes WatchEnds self.old self.new well }
        ensures stops { IsTrue result → Goes WatchEnds self.old self.new stopping }
        ensures sees { (word : ℕ) × (known self.new.seat ≡ looking (known self.old.seat) word)
            × (IsTrue result ↔ (word < self.old.start)) }
        ensures looks { LooksOnce HasLooked self.old self.new }
    {
        self.gate.stopped(&mut self.seat, self.start)
    }

    /// Tells the gate the part's start, since the part has failed.
    fn failed(&mut self)
        requires watching { IsWatching self.old }
        requires stands { 0 < stands_for self.old.seat }
        ensures same { SameWatch self.old self.new }
        ensures watching { IsWatching self.new }
        ensures told { (known self.new.seat).told
            ≡ (known self.old.seat).told ++ self.old.start ∷ [] }
        ensures goes { Goes WatchEnds self.old self.new failing }
    {
        self.gate.tell(&mut self.seat, self.start);
    }

    fn join(mut self, right: GateWatch<'g>) -> GateWatch<'g> {
        self.gate.join(&mut self.seat, right.seat);
        self
    }
}

/// How many seats a gate is opened for, by which a list of that many items is cut.
pub(crate) fn seats_for(len: usize) -> NonZeroUsize
    ensures { (len ≤ non_zero_usize_get result) × (0 < non_zero_usize_get result) }
{
    match NonZeroUsize::new(len) {
        Some(seats) => seats,
        None => NonZeroUsize::MIN,
    }
}
