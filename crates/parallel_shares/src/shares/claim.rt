//! Claims that are tried until one wins or nothing is left that pays.
ghost use Rattle.std.specs.Prelude.{◌≡◌, None};

use super::Shares;
use super::seat::{Seat, Tried};
use std::ops::Range;
use std::sync::Wait;

impl Shares {
    ghost use Rattle.parallel_shares.specs.Seats.{index_of, claims_of, transit_of, IsSeatOf, LoadsGrow};
    ghost use Rattle.parallel_shares.specs.Steals.{GainsClaim, GainsTry};

    /// Claims the front of the share that the seat claims from; where that is empty, takes the back
    /// half of another share and goes on there.
    ///
    /// It tries until an exchange wins a claim (`GainsClaim`), or the seat has loaded its own word
    /// and found it empty, and then loaded each other word once and found none whose split pays
    /// (`FoundNothing`). `Some` has the cells that the seat's claims gained. `rt` is the right to
    /// go on trying; no memory is taken.
    #[inline(always)]
    pub fn claim<R: Wait>(&self, rt: &R, seat: &mut Seat) -> Option<Range<usize>>
        requires { IsSeatOf self.now seat.old }
        ensures seat { IsSeatOf self.now seat.new }
        ensures index { index_of seat.new ≡ index_of seat.old }
        ensures transit { transit_of seat.new ≡ None }
        ensures loads { LoadsGrow seat.old seat.new }
        ensures answer { GainsClaim self.now seat.old result seat.new }
    {
        for _ in rt.forever() {
            self.settle(seat);
            match self.try_each(seat) {
                Tried::Claimed(cells) => return Some(cells),
                Tried::Nothing => return None,
                _ => {}
            }
        }
        unreachable!()
    }

    // Tries once to claim, and if its own word was empty, once to steal.
    #[inline(always)]
    fn try_each(&self, seat: &mut Seat) -> Tried
        requires belongs { IsSeatOf self.now seat.old }
        requires empty_handed { transit_of seat.old ≡ None }
        ensures seat { IsSeatOf self.now seat.new }
        ensures index { index_of seat.new ≡ index_of seat.old }
        ensures loads { LoadsGrow seat.old seat.new }
        ensures answer { GainsTry self.now seat.old result seat.new }
    {
        match self.try_claim(seat) {
            Tried::Empty => self.try_steal(seat),
            tried => tried,
        }
    }

    // Puts what the seat has in transit, if anything, into its own share.
    fn settle(&self, seat: &mut Seat)
        requires { IsSeatOf self.now seat.old }
        ensures seat { IsSeatOf self.now seat.new }
        ensures index { index_of seat.new ≡ index_of seat.old }
        ensures transit { transit_of seat.new ≡ None }
        ensures claims { claims_of seat.new ≡ claims_of seat.old }
        ensures loads { LoadsGrow seat.old seat.new }
    {
        if seat.transit.is_some() {
            self.refill(seat);
        }
    }
}
