//! A batch whose closure writes into parts of a list that the caller lends.
//!
//! `prepare` cuts the list by the batch's ranges, and hands out a `Vec` of its parts. Of the list
//! afterwards clauses say its length alone: what is known of a map's closure is a relation of an
//! item and a result, which has no place for what a `&mut` item is left at, and no word says of a
//! `Vec` of parts that their list is left as they are. `Batches::for_each_mut` cuts the list
//! itself, and its clauses say what becomes of each part; it returns nothing for a part.
ghost use Rattle.std.specs.Prelude.{◌≡◌, length};
ghost use Rattle.parallel_fault.specs.Trouble.{IsMemoryOnErr};
ghost use Rattle.parallel_shares.specs.Cut.{BalancedCut, CutsFrom};
ghost use Rattle.commonware_parallel.specs.Batches.{ranges_of};

use commonware_parallel::{Batches, Fault, Place, Strategy, flat};
use std::alloc::Global;
use std::num::NonZeroUsize;
use std::ops::Range;
use std::sync::Wait;
use std::thread::Threads;

/// Puts each number's square, which wraps around at 2 to the power of 64, in the number's place,
/// and returns how long the ranges were by which it went.
///
/// # Errors
///
/// `Fault::Memory` alone. Each number is then as it was, or squared.
pub fn square_in_place<Rt: Threads + Wait + Sync, P: Place, S: Strategy>(
    rt: &Rt,
    alloc: Global,
    strategy: &S,
    site: P,
    numbers: &mut [u64],
) -> Result<Vec<usize>, Fault>
    ensures length { length numbers.new ≡ length numbers.old }
    ensures fault { IsMemoryOnErr result }
{
    let len = numbers.len();
    // By names of their own the list is moved into the closures: a reborrow wouldn't live on.
    let whole = numbers;
    let run = move |batches: Batches<'_, S, P>| -> Result<Vec<usize>, Fault>
        requires { BalancedCut (length whole.now) (ranges_of batches) }
        ensures { IsMemoryOnErr result }
    {
        let prepare = move |ranges: &[Range<usize>]|
            requires { CutsFrom 0 ranges.now (length whole.now) }
            ensures { IsMemoryOnErr result }
        {
            let list = whole;
            parts_of(alloc, list, ranges)
        };
        batches.map_collect_vec(rt, alloc, prepare, |part: &mut [u64]| square_each(part))
    };
    flat(strategy.try_run_batches(rt, alloc, site, len, NonZeroUsize::MIN, 1, run))
}

// The parts of a list, which the ranges cut.
fn parts_of<'a>(
    alloc: Global,
    list: &'a mut [u64],
    ranges: &[Range<usize>],
) -> Result<Vec<&'a mut [u64]>, Fault>
    requires { CutsFrom 0 ranges.now (length list.old) }
    ensures { IsMemoryOnErr result }
{
    let mut parts = Vec::with_capacity(alloc, ranges.len())?;
    let mut rest = list;
    for range in ranges {
        let (part, behind) = rest.split_at_mut(range.end - range.start);
        parts.push(part)?;
        rest = behind;
    }
    Ok(parts)
}

// Squares each number of a part, and returns how many there are.
fn square_each(part: &mut [u64]) -> usize {
    for number in part.iter_mut() {
        *number = number.wrapping_mul(*number);
    }
    part.len()
}
