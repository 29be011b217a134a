//! A kernel by row: its values of a row's parts are merged, so that each row has one.
ghost use Rattle.std.specs.Prelude.{◌≡◌, ◌<◌, ℕ, None, IfOk};
ghost use Rattle.std.specs.List.{range_with_len};
ghost use Rattle.std.specs.declared.ops.Range.{Range};
ghost use Rattle.parallel_bridge.specs.Lists.{MapOf};
ghost use Rattle.parallel_fault.specs.Trouble.{IsMemoryOnErr};
ghost use Rattle.commonware_parallel.specs.MergedRows.{Names};
ghost use Rattle.commonware_parallel.specs.RowFolds.{EndsFold, FoldsOn, FoldsRows, IsPartOfRows};
ghost use Rattle.commonware_parallel.specs.Tiles.{columns_of, rows_of};

use super::Tiles;
use super::merged::{joined, merge_sorted};
use crate::strategy::Strategy;
use parallel_fault::Fault;
use parallel_policy::Place;
use parallel_shares::Stretch;
use std::alloc::Global;
use std::ops::Range;
use std::sync::Wait;
use std::thread::Threads;

/// A value for each row of the tiles, also where rows have no columns: what `kernel` gives of the
/// row's parts, merged from left to right.
///
/// # Errors
///
/// `Fault::Memory` if an allocation fails.
pub(crate) fn fold_tiles<
    S: Strategy,
    P: Place,
    Rt: Threads + Wait + Sync,
    R: Send + Drop,
    K: Fn(usize, Range<usize>) -> R + Send + Sync + Drop,
    M: Fn(R, R) -> R + Send + Sync + Drop,
>(tiles: Tiles<'_, S, P>, rt: &Rt, alloc: Global, kernel: &K, merge: &M) -> Result<Vec<R>, Fault>
    requires kernel_accepts { (row : ℕ) (columns : Range ℕ)
        → IsPartOfRows (rows_of tiles) (columns_of tiles) row columns
        → K.pre kernel.now row columns }
    requires merge_accepts { M.IsAlwaysCallable merge.now }
    ensures folds { IfOk result (λ values. FoldsRows (K.post kernel.now) (M.post merge.now)
        (rows_of tiles.entry) (columns_of tiles.entry) values.items) }
    ensures fault { IsMemoryOnErr result }
{
    if tiles.len == 0 {
        return rows_without_columns(alloc, tiles.rows, kernel);
    }
    let begin = || -> Option<R>
        ensures { result ≡ None }
    { None };
    let fill = move |so_far: &mut Option<R>, row: usize, columns: Range<usize>|
        requires kernel_accepts { K.pre kernel.now row columns }
        requires merge_accepts { M.IsAlwaysCallable merge.now }
        ensures { FoldsOn (K.post kernel.entry.now) (M.post merge.entry.now) so_far.old row columns
            so_far.new }
    { fold_on(so_far, row, columns, kernel, merge) };
    let finish = move |so_far: &mut Option<R>, stretch: Stretch| -> (Stretch, R)
        requires { K.pre kernel.now stretch.row (record { start = 0; end = 0 }) }
        ensures { Names EndsFold so_far.old stretch result so_far.new }
    { end_fold(so_far, stretch, kernel) };
    let (rows, len) = (tiles.rows, tiles.len);
    let parts = tiles.fill_stretches(rt, alloc, begin, fill, finish)?;
    let values = merge_sorted(alloc, rows, len, parts, merge)?;
    Ok(values)
}

// A value for each row of no columns.
fn rows_without_columns<R: Drop, K: Fn(usize, Range<usize>) -> R>(
    alloc: Global,
    rows: usize,
    kernel: &K,
) -> Result<Vec<R>, Fault>
    requires { (row : ℕ) → row < rows → K.pre kernel.now row (record { start = 0; end = 0 }) }
    ensures values { IfOk result
        (λ values. MapOf (λ row. K.post kernel.now row (record { start = 0; end = 0 }))
        (range_with_len 0 rows) values.items) }
    ensures fault { IsMemoryOnErr result }
{
    let mut values = Vec::with_capacity(alloc, rows)?;
    for row in 0..rows {
        values.push(kernel(row, 0..0))?;
    }
    Ok(values)
}

// More columns of a row: their value, merged with what came so far of the row.
fn fold_on<R: Drop, K: Fn(usize, Range<usize>) -> R, M: Fn(R, R) -> R>(
    so_far: &mut Option<R>,
    row: usize,
    columns: Range<usize>,
    kernel: &K,
    merge: &M,
)
    requires kernel_accepts { K.pre kernel.now row columns }
    requires merge_accepts { M.IsAlwaysCallable merge.now }
    ensures { FoldsOn (K.post kernel.now) (M.post merge.now) so_far.old row columns so_far.new }
{
    let next = kernel(row, columns);
    let value = joined(so_far.take(), next, merge);
    *so_far = Some(value);
}

// A stretch with what came of it. Something always came of one that has columns.
fn end_fold<R, K: Fn(usize, Range<usize>) -> R>(
    so_far: &mut Option<R>,
    stretch: Stretch,
    kernel: &K,
) -> (Stretch, R)
    requires { K.pre kernel.now stretch.row (record { start = 0; end = 0 }) }
    ensures { Names EndsFold so_far.old stretch result so_far.new }
{
    let Some(value) = so_far.take() else {
        let value = kernel(stretch.row, 0..0);
        return (stretch, value);
    };
    (stretch, value)
}
