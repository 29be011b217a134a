//! A serial plan: each row whole, one after another.
ghost use Rattle.std.specs.Prelude.{◌≡◌, ◌<◌, ℕ, IfOk};
ghost use Rattle.std.specs.Borrow.{MutBor};
ghost use Rattle.parallel_fault.specs.Trouble.{IsMemoryOnErr};
ghost use Rattle.parallel_shares.specs.Fillings.{Ends, Fills};
ghost use Rattle.commonware_parallel.specs.Chains.{WholeRows};
ghost use Rattle.commonware_parallel.specs.Rectangles.{whole_row};

use parallel_fault::Fault;
use parallel_shares::{Part, Stretch};
use std::alloc::Global;
use std::ops::Range;

/// The results of all rows of `len` columns, each filled by one call, with one state that goes from
/// row to row.
///
/// # Errors
///
/// `Fault::Memory` if an allocation fails.
pub(crate) fn fill_rows<
    T,
    Q: Part,
    R: Drop,
    L: Fn(&mut T, usize, Range<usize>),
    F: Fn(&mut T, Q) -> R,
>(
    alloc: Global,
    rows: usize,
    len: usize,
    state: &mut T,
    fill: &L,
    finish: &F,
) -> Result<Vec<R>, Fault>
    requires fill_accepts { (lent : MutBor T) (row : ℕ) → row < rows
        → L.pre fill.now lent row (record { start = 0; end = len }) }
    requires finish_accepts { (lent : MutBor T) (row : ℕ) → row < rows
        → F.pre finish.now lent (Q.part_of (whole_row len row)) }
    ensures chain { IfOk result (λ results. WholeRows (Fills (L.post fill.now))
        (Ends Q.part_of (F.post finish.now)) len state.old rows results.items state.new) }
    ensures fault { IsMemoryOnErr result }
{
    let mut results = Vec::with_capacity(alloc, rows)?;
    for row in 0..rows {
        fill(state, row, 0..len);
        let columns = 0..len;
        results.push(finish(state, Q::of(Stretch { row, columns })))?;
    }
    Ok(results)
}
