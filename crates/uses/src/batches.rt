//! Batches: a closure that is handed balanced ranges, and looks into a list by them, and one that
//! is handed the ranges' parts of a list that the caller lends.
ghost use Rattle.std.specs.Prelude.{◌≡◌, ◌≤◌, ◌+◌, All, count_by, length, max, slice_range, IfErr, IfOk, OnOk};
ghost use Rattle.std.specs.Int.NonZero.{non_zero_usize_get};
ghost use Rattle.parallel_fault.specs.Trouble.{IsMemoryOnErr};
ghost use Rattle.parallel_shares.specs.Cut.{BalancedCut, CutsFrom, range_length};
ghost use Rattle.commonware_parallel.specs.Batches.{ranges_of};
ghost use Rattle.uses.specs.Batches.{CoversOnce, digests_of};

use crate::runs::count_in_one;
use commonware_parallel::{Batches, Fault, Place, Strategy, flat};
use sha2::{Digest as _, Sha256};
use std::alloc::Global;
use std::num::NonZeroUsize;
use std::ops::Range;
use std::sync::Wait;
use std::thread::Threads;

/// The ranges that the strategy runs a batch of `len` indices over, where no range of several is
/// to be shorter than `minimum`.
///
/// # Errors
///
/// `Fault::Memory` if an allocation fails.
pub fn batch_ranges<Rt: Wait, P: Place, S: Strategy>(
    rt: &Rt,
    alloc: Global,
    strategy: &S,
    site: P,
    len: usize,
    minimum: NonZeroUsize,
) -> Result<Vec<Range<usize>>, Fault>
    ensures each_once { IfOk result (λ ranges. CoversOnce len ranges.items) }
    ensures planned { IfOk result (λ ranges. length ranges.items ≤ max 1 (S.plans strategy.now)) }
    ensures minimum { IfOk result (λ ranges. 2 ≤ length ranges.items
        → All (λ range. non_zero_usize_get minimum ≤ range_length range) ranges.items) }
    ensures fault { IsMemoryOnErr result }
{
    let list = |batches: Batches<'_, S, P>| -> Result<Vec<Range<usize>>, Fault>
        ensures ranges { IfOk result (λ ranges. ranges.items ≡ ranges_of batches.entry) }
        ensures fault { IsMemoryOnErr result }
    {
        let ranges = batches.ranges().to_vec(alloc)?;
        Ok(ranges)
    };
    flat(strategy.try_run_batches(rt, alloc, site, len, minimum, 1, list))
}

/// How many of the flags are set, counted range by range. The closure is asked for balanced ranges
/// of the list's indices alone, so each of them may be cut out of the list.
///
/// # Errors
///
/// `Fault::Memory` if an allocation fails.
pub fn count_by_ranges<Rt: Wait, P: Place, S: Strategy>(
    rt: &Rt,
    alloc: Global,
    strategy: &S,
    site: P,
    flags: &[bool],
) -> Result<usize, Fault>
    ensures counted { IfOk result (λ count. count ≡ count_by (λ flag. flag) flags.now) }
    ensures fault { IsMemoryOnErr result }
{
    let count = |batches: Batches<'_, S, P>| -> usize
        requires { BalancedCut (length flags.now) (ranges_of batches) }
        ensures { result ≡ count_by (λ flag. flag) flags.entry.now }
    { count_ranges(flags, batches.ranges()) };
    strategy.run_batches(rt, alloc, site, flags.len(), NonZeroUsize::MIN, 1, count)
}

// The set flags in each of the ranges, which cut the list's indices.
fn count_ranges(flags: &[bool], ranges: &[Range<usize>]) -> usize
    requires { CutsFrom 0 ranges.now (length flags.now) }
    ensures { result ≡ count_by (λ flag. flag) flags.now }
{
    let mut count = 0;
    for range in ranges {
        count += count_in_one(&flags[range.start..range.end]);
    }
    count
}

/// The SHA-256 digests of the messages (`digests_of`), written into a list that the caller lends,
/// by as many ranges as the strategy is planned for.
///
/// # Errors
///
/// `Fault::Memory` alone; the list is then as it was.
pub fn digests_by_ranges<Rt: Threads + Wait + Sync, P: Place, S: Strategy>(
    rt: &Rt,
    alloc: Global,
    strategy: &S,
    site: P,
    messages: &[&[u8]],
    digests: &mut [[u8; 32]],
) -> Result<(), Fault>
    requires { length digests.old ≡ length messages.now }
    ensures digests { OnOk result (digests.new ≡ digests_of messages.now) }
    ensures unchanged { IfErr result (λ _. digests.new ≡ digests.old) }
    ensures fault { IsMemoryOnErr result }
{
    let count = strategy.planning();
    let batches = Batches::balanced(alloc, strategy, site, digests.len(), count)?;
    let digest_part = |from: usize, part: &mut [[u8; 32]]|
        requires { from + length part.now ≤ length messages.now }
        ensures { part.exit.now ≡ digests_of
            (slice_range messages.entry.now from (from + length part.entry.now)) }
    { digest_each(&messages[from..from + part.len()], part) };
    batches.for_each_mut(rt, alloc, digests, digest_part)
}

// The digests of the messages, written into a list of as many.
fn digest_each(messages: &[&[u8]], digests: &mut [[u8; 32]])
    requires { length digests.old ≡ length messages.now }
    ensures { digests.new ≡ digests_of messages.now }
{
    for k in 0..digests.len() {
        digests[k] = Sha256::digest(messages[k]);
    }
}
