//! Results that name their stretches, put in order and merged row by row.
ghost use Rattle.std.specs.Prelude.{◌≡◌, ◌*◌, ◌^◌, ◌<◌, All, IfOk};
ghost use Rattle.parallel_fault.specs.Trouble.{IsMemoryOnErr};
ghost use Rattle.commonware_parallel.specs.MergedRows.{Follows, IsThere, Joins, MergesRows, Placed, RowValues, stretches_in, wrapped_place};
ghost use Rattle.commonware_parallel.specs.Rectangles.{CutsRectangle};

use parallel_fault::Fault;
use parallel_shares::Stretch;
use std::alloc::Global;

/// The results of each row's stretches, merged from left to right.
///
/// # Errors
///
/// `Fault::Memory` if an allocation fails.
pub(crate) fn merge_sorted<R: Drop, M: Fn(R, R) -> R>(
    alloc: Global,
    rows: usize,
    len: usize,
    parts: Vec<(Stretch, R)>,
    merge: &M,
) -> Result<Vec<R>, Fault>
    requires some_columns { 0 < len }
    requires fits { rows * len < 2 ^ 64 }
    requires merge_accepts { M.IsAlwaysCallable merge.now }
    requires cut { CutsRectangle rows len (stretches_in parts.items) }
    ensures merges { IfOk result (λ values. MergesRows (M.post merge.now) rows len
        parts.items values.items) }
    ensures fault { IsMemoryOnErr result }
{
    let mut ordered = parts;
    ordered.sort_unstable_by_key(|part| place_of(&part.0, len));
    let values = merge_ordered(alloc, rows, len, ordered, merge)?;
    Ok(values)
}

// Where a stretch begins among the cells, row after row. It wraps around for none of a grid.
fn place_of(stretch: &Stretch, len: usize) -> usize
    ensures { result ≡ wrapped_place len stretch.now }
{
    stretch
        .row
        .wrapping_mul(len)
        .wrapping_add(stretch.columns.start)
}

// The same of stretches that follow one another.
fn merge_ordered<R: Drop, M: Fn(R, R) -> R>(
    alloc: Global,
    rows: usize,
    len: usize,
    parts: Vec<(Stretch, R)>,
    merge: &M,
) -> Result<Vec<R>, Fault>
    requires some_columns { 0 < len }
    requires merge_accepts { M.IsAlwaysCallable merge.now }
    requires there { All (IsThere rows len) parts.items }
    requires follow { Follows len 0 (rows * len) parts.items }
    ensures values { IfOk result (λ values. RowValues (M.post merge.now) len rows
        parts.items values.items) }
    ensures fault { IsMemoryOnErr result }
{
    let mut values = Vec::with_capacity(alloc, rows)?;
    let mut held = None;
    for part in parts {
        let (stretch, result) = part;
        let value = joined(held, result, merge);
        held = place(&mut values, stretch.columns.end, len, value)?;
    }
    Ok(values)
}

/// What came so far of a row with its next result.
pub(super) fn joined<R: Drop, M: Fn(R, R) -> R>(held: Option<R>, next: R, merge: &M) -> R
    requires { M.IsAlwaysCallable merge.now }
    ensures { Joins (M.post merge.now) held next result }
{
    match held {
        Some(so_far) => merge(so_far, next),
        None => next,
    }
}

// Puts the value of a row that ends after the others, and returns that of one that goes on.
fn place<R: Drop>(values: &mut Vec<R>, end: usize, len: usize, value: R) -> Result<Option<R>, Fault>
    ensures placed { IfOk result (λ held. Placed len end value values.old.items values.new.items
        held) }
    ensures fault { IsMemoryOnErr result }
{
    if end != len {
        return Ok(Some(value));
    }
    values.push(value)?;
    Ok(None)
}
