//! Balanced ranges of indices.
ghost use Rattle.std.specs.Prelude.{◌≡◌, vec_len, IfOk};
ghost use Rattle.std.specs.Int.NonZero.{non_zero_usize_get};
ghost use Rattle.parallel_shares.specs.Cut.{BalancedCut};
ghost use Rattle.parallel_fault.specs.Trouble.{IsMemoryOnErr};

use parallel_fault::Fault;
use std::alloc::Global;
use std::num::NonZeroUsize;
use std::ops::Range;

/// Cuts the indices from 0 up to `len` into `count` ranges, in order and without a gap.
///
/// The lengths of the ranges differ by at most one, and the longer ones come first, as
/// `BalancedCut` says. Where `count` is above `len` the last ranges are empty.
///
/// # Errors
///
/// `Fault::Memory` where the list could not be reserved.
pub fn cut(alloc: Global, len: usize, count: NonZeroUsize) -> Result<Vec<Range<usize>>, Fault>
    ensures balanced { IfOk result (λ ranges. BalancedCut len ranges.items) }
    ensures count { IfOk result (λ ranges. vec_len ranges ≡ non_zero_usize_get count) }
    ensures fault { IsMemoryOnErr result }
{
    let shorter = len / count;
    let longer_ranges = len % count;
    let mut ranges = Vec::with_capacity(alloc, count.get())?;
    let mut start = 0;
    for index in 0..count.get() {
        let end = start + shorter + usize::from(index < longer_ranges);
        ranges.push(start..end)?;
        start = end;
    }
    Ok(ranges)
}
