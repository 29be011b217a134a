//! Claimed cells, cut at the ends of the rows.
ghost use Rattle.std.specs.Prelude.{◌≡◌, ◌≢◌, ◌+◌, ◌*◌, ◌-◌, ◌<◌, ◌≤◌, IfOk};
ghost use Rattle.std.specs.Borrow.{MutBor};
ghost use Rattle.parallel_shares.specs.Stretches.{Cutting, IsPiece, Grown};
ghost use Rattle.parallel_fault.specs.Trouble.{IsMemoryOnErr};

use super::run::{fill_claim, finish_open};
use parallel_fault::Fault;
use std::alloc::Global;
use std::ops::Range;

/// A tile: neighbouring cells of one row.
#[derive(Clone, Debug, PartialEq, Eq, Drop)]
pub struct Stretch {
    /// The row.
    pub row: usize,
    /// The columns of its cells.
    pub columns: Range<usize>,
}

/// A stretch that may still grow: its row, and where its columns start and end.
#[derive(Clone, Copy)]
pub struct Piece {
    pub(super) row: usize,
    pub(super) start: usize,
    pub(super) end: usize,
}

/// The stretches that a list of claims is cut into, on rows of `len` cells.
///
/// `Cutting` says what they are: their cells, one after another, are those of the claims, each is
/// nonempty and in one row, and none begins in the row and column where the one before it ended. A
/// range without cells adds nothing.
///
/// # Errors
///
/// `Fault::Memory` if an allocation fails.
pub fn stretches(alloc: Global, claims: &[Range<usize>], len: usize) -> Result<Vec<Stretch>, Fault>
    requires { len ≢ 0 }
    ensures cutting { IfOk result (λ found. Cutting claims.now len found.items) }
    ensures fault { IsMemoryOnErr result }
{
    let fill = |_: &mut (), _: usize, _: Range<usize>| {};
    let whole = |_: &mut (), stretch: Stretch| stretch;
    cut_all(alloc, claims, len, &fill, &whole)
}

// Cuts claims by a run that fills nothing, and whose stretches are their own results.
fn cut_all<L: Fn(&mut (), usize, Range<usize>), N: Fn(&mut (), Stretch) -> Stretch>(
    alloc: Global,
    claims: &[Range<usize>],
    len: usize,
    fill: &L,
    whole: &N,
) -> Result<Vec<Stretch>, Fault>
    requires some_cells { len ≢ 0 }
    requires fill_accepts { L.IsAlwaysCallable fill.now }
    requires whole_accepts { N.IsAlwaysCallable whole.now }
    requires whole { (s t : MutBor (Unit {0})) (stretch found : Stretch)
        → N.post whole.now s stretch found t → found ≡ stretch }
    ensures cutting { IfOk result (λ found. Cutting claims.now len found.items) }
    ensures fault { IsMemoryOnErr result }
{
    let mut found = Vec::new(alloc);
    let mut opened = None;
    for claim in claims {
        let claim = claim.start..claim.end;
        opened = fill_claim(&mut found, opened, claim, len, &mut (), fill, whole)?;
    }
    finish_open(&mut found, opened, &mut (), whole)?;
    Ok(found)
}

/// The cells from `start` up to `end`, as far as the row goes on in which they start.
pub(super) fn front(opened: Option<Piece>, start: usize, end: usize, len: usize) -> Piece
    requires some { start < end }
    requires wide { len ≢ 0 }
    ensures piece { IsPiece len result }
    ensures start { result.row * len + result.start ≡ start }
    ensures within { result.end - result.start ≤ end - start }
{
    let (row, column) = row_and_column(opened, start, len);
    let width = (len - column).min(end - start);
    Piece {
        row,
        start: column,
        end: column + width,
    }
}

// The row and the column of a cell: where the open stretch ends, if that is there, else by
// division.
fn row_and_column(opened: Option<Piece>, cell: usize, len: usize) -> (usize, usize)
    requires { len ≢ 0 }
    ensures column { result.1 < len }
    ensures cell { result.0 * len + result.1 ≡ cell }
{
    if let Some(open) = opened
        && open.end < len
        && open.end <= cell
        && open.row.checked_mul(len) == Some(cell - open.end)
    {
        return (open.row, open.end);
    }
    (cell / len, cell % len)
}

/// The open stretch with the tile after it, where the tile goes on in the row and column at which
/// the stretch ends.
pub(super) fn grown(opened: Option<Piece>, piece: Piece) -> Option<Piece>
    ensures { Grown opened piece result }
{
    match opened {
        Some(Piece { row, start, end }) => {
            if row == piece.row && end == piece.start {
                Some(Piece {
                    row,
                    start,
                    end: piece.end,
                })
            } else {
                None
            }
        }
        None => None,
    }
}
