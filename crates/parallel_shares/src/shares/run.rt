//! A worker's run over its share: it claims until nothing is left that pays, and fills and finishes
//! the stretches of its claims.
ghost use Rattle.std.specs.Prelude.{◌≡◌, ◌≢◌, ◌<◌, ◌-◌, ◌+◌, ℕ, None, Some, IfOk, IfSome};
ghost use Rattle.std.specs.Borrow.{MutBor};
ghost use Rattle.std.specs.declared.ops.Range.{Range};
ghost use Rattle.parallel_shares.specs.Stretches.{IsPartOfRow, StartsBelow, range_cells, stretch_of};
ghost use Rattle.parallel_shares.specs.Fillings.{Fills, Ends, Closes, GoesOn, GoesOnByPiece, Worked};
ghost use Rattle.parallel_fault.specs.Trouble.{IsMemoryOnErr};

use super::Shares;
use super::seat::Seat;
use super::stretch::{Piece, Stretch, front, grown};
use parallel_fault::Fault;
use std::alloc::Global;
use std::ops::Range;
use std::sync::Wait;

impl Shares {
    ghost use Rattle.parallel_shares.specs.Seats.{plan_of, index_of, claims_of, transit_of, IsSeatOf};
    ghost use Rattle.parallel_shares.specs.Steals.{FoundNothing};

    /// Claims until nothing is left that pays, on rows of `len` cells, and returns a result for
    /// each stretch of what it claimed, in order (`Worked`).
    ///
    /// Each stretch is filled by calls of `fill` with its row and neighbouring columns, and then
    /// `finish`, which is handed its row or all of it (`Part`), returns its result; all calls are
    /// lent one state, which begins as the one handed in (`Finished`). The seat ends as after a
    /// `claim` that returns `None`. `rt` is the right to go on trying.
    ///
    /// # Errors
    ///
    /// `Fault::Memory` where the list of results could not grow: the seat is still one of these
    /// shares, its claims have grown by what was claimed, and some of that has no result.
    pub fn run<
        W: Wait,
        T,
        P: Part,
        R: Drop,
        L: Fn(&mut T, usize, Range<usize>),
        N: Fn(&mut T, P) -> R,
    >(
        &self,
        rt: &W,
        alloc: Global,
        seat: &mut Seat,
        len: usize,
        state: &mut T,
        fill: &L,
        finish: &N,
    ) -> Result<Vec<R>, Fault>
        requires belongs { IsSeatOf self.now seat.old }
        requires some_cells { len ≢ 0 }
        requires fill_accepts { (state : MutBor T) (row : ℕ) (columns : Range ℕ)
            → IsPartOfRow (plan_of self.now).cells len row columns
            → L.pre fill.now state row columns }
        requires finish_accepts { (state : MutBor T) (stretch : Stretch)
            → StartsBelow (plan_of self.now).cells len stretch.row
            → N.pre finish.now state (P.part_of stretch) }
        ensures seat { IsSeatOf self.now seat.new }
        ensures index { index_of seat.new ≡ index_of seat.old }
        ensures transit { transit_of seat.new ≡ None }
        ensures done { IfOk result (λ _. FoundNothing self.now seat.old seat.new) }
        ensures chain { IfOk result (λ results.
            Worked (Fills (L.post fill.now)) (Ends P.part_of (N.post finish.now)) (plan_of self.now) len
            (claims_of seat.old) state.old (claims_of seat.new) results.items state.new) }
        ensures fault { IsMemoryOnErr result }
    {
        let mut results = Vec::new(alloc);
        let mut opened = None;
        for _ in rt.forever() {
            let Some(claim) = self.claim(rt, seat) else {
                finish_open(&mut results, opened, state, finish)?;
                return Ok(results);
            };
            opened = fill_claim(&mut results, opened, claim, len, state, fill, finish)?;
        }
        unreachable!()
    }
}

/// What of a stretch a finish is handed: its row, or all of it.
pub trait Part {
    ghost use Rattle.parallel_shares.specs.declared.shares.stretch.Stretch.{Stretch};

    ghost part_of: { Stretch → Self };

    /// The part.
    fn of(stretch: Stretch) -> Self
        ensures { result ≡ part_of stretch };
}

impl Part for usize {
    ghost part_of = { λ stretch. stretch.row };

    fn of(stretch: Stretch) -> usize {
        stretch.row
    }
}

impl Part for Stretch {
    ghost part_of = { λ stretch. stretch };

    fn of(stretch: Stretch) -> Stretch {
        stretch
    }
}

// Fills the cells of a claim, and returns the stretch that is open then.
pub(super) fn fill_claim<
    T,
    P: Part,
    R: Drop,
    L: Fn(&mut T, usize, Range<usize>),
    N: Fn(&mut T, P) -> R,
>(
    results: &mut Vec<R>,
    opened: Option<Piece>,
    claim: Range<usize>,
    len: usize,
    state: &mut T,
    fill: &L,
    finish: &N,
) -> Result<Option<Piece>, Fault>
    requires some_cells { len ≢ 0 }
    requires fill_accepts { (state : MutBor T) (row : ℕ) (columns : Range ℕ)
        → IsPartOfRow claim.end len row columns → L.pre fill.now state row columns }
    requires finish_accepts { (state : MutBor T) (stretch : Stretch)
        → StartsBelow claim.end len stretch.row → N.pre finish.now state (P.part_of stretch) }
    requires open_accepts { IfSome opened (λ piece. (state : MutBor T)
        → N.pre finish.now state (P.part_of (stretch_of piece))) }
    ensures open_accepts { IfOk result (λ next. IfSome next (λ piece. (state : MutBor T)
        → N.pre finish.now state (P.part_of (stretch_of piece)))) }
    ensures chain { IfOk result (λ next.
        GoesOn (Fills (L.post fill.now)) (Ends P.part_of (N.post finish.now)) len (range_cells claim)
        opened results.old.items state.old next results.new.items state.new) }
    ensures fault { IsMemoryOnErr result }
{
    let mut opened = opened;
    let mut at = claim.start;
    while at < claim.end {
        let piece = front(opened, at, claim.end, len);
        opened = Some(fill_piece(results, opened, piece, state, fill, finish)?);
        at += piece.end - piece.start;
    }
    Ok(opened)
}

// Fills a tile, and returns the stretch that is open then: the one that was, where the tile goes
// on there; else that one is finished first.
fn fill_piece<T, P: Part, R: Drop, L: Fn(&mut T, usize, Range<usize>), N: Fn(&mut T, P) -> R>(
    results: &mut Vec<R>,
    opened: Option<Piece>,
    piece: Piece,
    state: &mut T,
    fill: &L,
    finish: &N,
) -> Result<Piece, Fault>
    requires fill_accepts { (state : MutBor T) → L.pre fill.now state piece.row
        (record { start = piece.start; end = piece.end }) }
    requires open_accepts { IfSome opened (λ before. (state : MutBor T)
        → N.pre finish.now state (P.part_of (stretch_of before))) }
    ensures row { IfOk result (λ next. next.row ≡ piece.row) }
    ensures chain { IfOk result (λ next.
        GoesOnByPiece (Fills (L.post fill.now)) (Ends P.part_of (N.post finish.now)) piece
        opened results.old.items state.old (Some next) results.new.items state.new) }
    ensures fault { IsMemoryOnErr result }
{
    if let Some(longer) = grown(opened, piece) {
        fill(state, piece.row, piece.start..piece.end);
        return Ok(longer);
    }
    finish_open(results, opened, state, finish)?;
    fill(state, piece.row, piece.start..piece.end);
    Ok(piece)
}

// Finishes the stretch that is open, if one is. Out of line, as are a steal and a refill, so that
// the loop over claims keeps its numbers in registers.
#[cold]
#[inline(never)]
pub(super) fn finish_open<T, P: Part, R: Drop, N: Fn(&mut T, P) -> R>(
    results: &mut Vec<R>,
    opened: Option<Piece>,
    state: &mut T,
    finish: &N,
) -> Result<(), Fault>
    requires { IfSome opened (λ piece. (state : MutBor T) → N.pre finish.now state (P.part_of (stretch_of piece))) }
    ensures closes { IfOk result (λ _. Closes
        (Ends P.part_of (N.post finish.now)) opened state.old results.old.items state.new
        results.new.items) }
    ensures fault { IsMemoryOnErr result }
{
    if let Some(Piece { row, start, end }) = opened {
        let columns = start..end;
        results.push(finish(state, P::of(Stretch { row, columns })))?;
    }
    Ok(())
}
