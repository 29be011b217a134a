//! A seat whose own share is empty takes the back half of another's, and puts it into its own.
ghost use Rattle.std.specs.Prelude.{◌≡◌, ◌≢◌, ◌<◌, true, false, None, IfSome, IsSome, MatchBool};
ghost use Rattle.parallel_shares.specs.Sizes.{shares_of};
ghost use Rattle.parallel_shares.specs.Words.{IsWithin, packed};
ghost use Rattle.parallel_shares.specs.Answers.{Pays};
ghost use Rattle.parallel_shares.specs.Steals.{IsBetter, IsNoBetter};

use super::Shares;
use super::rule::{LookAt, PutDown, TakeBack};
use super::seat::{Seat, Tried};
use crate::machine::Plan;
use crate::word::{back, pack};

/// A share, and the word that was loaded there.
#[derive(Clone, Copy)]
pub struct Victim {
    /// The share.
    pub share: usize,
    /// The word that was loaded.
    pub word: u64,
}

impl Shares {
    ghost use Rattle.parallel_shares.specs.Sharing.{SomeSplitPays, looked};
    ghost use Rattle.parallel_shares.specs.Seats.{plan_of, known, index_of, claims_of, has_emptied, transit_of, own_share, own_word, IsSeatOf, IsSameSeat, CountsSteps};
    ghost use Rattle.parallel_shares.specs.Steals.{LoadsOthers, IsBest, OnlyLooks, MeetsBack, TriesSteal, NeverSplits};
    ghost use Rattle.parallel_shares.specs.declared.shares.seat.Tried.TheVariants.{Nothing};

    /// Tries once to take the back half of another share into transit: one load of each other
    /// share's word, and at most one exchange, on the loaded word with the most cells of those
    /// whose split pays, the last of equals (`TriesSteal`).
    ///
    /// The seat has seen its own word empty, and has nothing in transit. A plan of whole rows has
    /// no other share. No memory is taken, and nothing is waited for.
    #[cold]
    #[inline(never)]
    pub fn try_steal(&self, seat: &mut Seat) -> Tried
        requires belongs { IsSeatOf self.now seat.old }
        requires own_empty { has_emptied seat.old ≡ true }
        requires empty_handed { transit_of seat.old ≡ None }
        ensures seat { IsSeatOf self.now seat.new }
        ensures index { index_of seat.new ≡ index_of seat.old }
        ensures own_empty { has_emptied seat.new ≡ true }
        ensures claims { claims_of seat.new ≡ claims_of seat.old }
        ensures looks { LoadsOthers self.now seat.old seat.new }
        ensures answer { TriesSteal (plan_of self.now) seat.old result seat.new }
        ensures never { NeverSplits (plan_of self.now) → result ≡ Nothing }
    {
        let Some(victim) = self.find_victim(seat) else {
            return Tried::Nothing;
        };
        if self.take_back(seat, victim) == victim.word {
            Tried::Taken
        } else {
            Tried::Lost
        }
    }

    /// Puts what the seat has in transit into its own share, which is empty: one store.
    ///
    /// The units become the seat's own word, and the claims stay. Something has to be in transit.
    /// No memory is taken, and nothing is waited for.
    #[cold]
    #[inline(never)]
    pub fn refill(&self, seat: &mut Seat)
        requires belongs { IsSeatOf self.now seat.old }
        requires carries { IsSome (transit_of seat.old) }
        ensures seat { IsSeatOf self.now seat.new }
        ensures index { index_of seat.new ≡ index_of seat.old }
        ensures own_empty { has_emptied seat.new ≡ false }
        ensures transit { transit_of seat.new ≡ None }
        ensures claims { claims_of seat.new ≡ claims_of seat.old }
        ensures stored { IfSome (transit_of seat.old)
            (λ units. own_word self.now seat.new ≡ packed units.start units.end) }
        ensures loads { (known seat.new).loads ≡ (known seat.old).loads }
        ensures steps { CountsSteps 0 1 seat.old seat.new }
    {
        let Some(units) = seat.in_transit() else {
            unreachable!()
        };
        let place = self.own_place(seat);
        let word = pack(units.start, units.end);
        self.table
            .shared
            .store::<PutDown>(&mut seat.seat, place, word);
        seat.transit = None;
        seat.own_empty = false;
    }

    // Loads each other share's word once, and returns the victim.
    fn find_victim(&self, seat: &mut Seat) -> Option<Victim>
        requires { IsSeatOf self.now seat.old }
        ensures seat { IsSeatOf self.now seat.new }
        ensures same { IsSameSeat seat.old seat.new }
        ensures emptied { has_emptied seat.new ≡ has_emptied seat.old }
        ensures only { OnlyLooks (known seat.old) (known seat.new) }
        ensures looks { LoadsOthers self.now seat.old seat.new }
        ensures best { IsBest (plan_of self.now) (own_share self.now seat.old)
            (shares_of (plan_of self.now)) (known seat.new) result }
    {
        let own = self.plan.share_of(seat.index);
        let mut best = None;
        for share in 0..self.plan.shares() {
            if share != own {
                let word = self.look_at(seat, share);
                if is_better(&self.plan, &best, word) {
                    best = Some(Victim { share, word });
                }
            }
        }
        best
    }

    // Loads the word of another share.
    fn look_at(&self, seat: &mut Seat, share: usize) -> u64
        requires belongs { IsSeatOf self.now seat.old }
        requires exists { share < shares_of (plan_of self.now) }
        ensures seat { IsSeatOf self.now seat.new }
        ensures same { IsSameSeat seat.old seat.new }
        ensures emptied { has_emptied seat.new ≡ has_emptied seat.old }
        ensures within { IsWithin (plan_of self.now).units result }
        ensures splits { Pays (plan_of self.now) result → SomeSplitPays (plan_of self.now) }
        ensures view { known seat.new ≡ looked (known seat.old) share result }
    {
        let place = self.place(share);
        self.table.shared.load::<LookAt>(&mut seat.seat, place)
    }

    // Tries to exchange the victim's word for its front half, and returns the word that was met.
    fn take_back(&self, seat: &mut Seat, victim: Victim) -> u64
        requires belongs { IsSeatOf self.now seat.old }
        requires own_empty { has_emptied seat.old ≡ true }
        requires empty_handed { transit_of seat.old ≡ None }
        requires exists { victim.share < shares_of (plan_of self.now) }
        requires other { victim.share ≢ own_share self.now seat.old }
        requires within { IsWithin (plan_of self.now).units victim.word }
        requires pays { Pays (plan_of self.now) victim.word }
        ensures seat { IsSeatOf self.now seat.new }
        ensures index { index_of seat.new ≡ index_of seat.old }
        ensures emptied { has_emptied seat.new ≡ has_emptied seat.old }
        ensures met { MeetsBack victim seat.old result seat.new }
    {
        let (units, next) = back(victim.word);
        let place = self.place(victim.share);
        let found = self
            .table
            .shared
            .compare_exchange::<TakeBack>(&mut seat.seat, place, victim.word, next);
        if found == victim.word {
            seat.transit = Some(units);
        }
        found
    }
}

// Whether a word's split pays, and the word has no fewer cells than the best so far.
fn is_better(plan: &Plan, best: &Option<Victim>, word: u64) -> bool
    requires within { IsWithin plan.now.units word }
    requires best { IfSome best.now (λ victim. IsWithin plan.now.units victim.word
        × Pays plan.now victim.word) }
    ensures { MatchBool result (IsBetter plan.now best.now word)
        (IsNoBetter plan.now best.now word) }
{
    if plan.steal_from(word).is_none() {
        return false;
    }
    match best {
        Some(victim) => plan.cells_in(victim.word) <= plan.cells_in(word),
        None => true,
    }
}
