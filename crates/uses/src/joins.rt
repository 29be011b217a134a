//! Joins: two closures, side by side or one after the other.
ghost use Rattle.std.specs.Prelude.{◌≡◌, count_by, length, IfOk};
ghost use Rattle.parallel_fault.specs.Trouble.{IsMemoryOnErr};
ghost use Rattle.uses.specs.Joins.{is_even, is_odd};

use commonware_parallel::{Fault, Place, Strategy};
use std::alloc::Global;
use std::sync::Wait;
use std::thread::Threads;

/// How many of the numbers are even, and how many are odd.
///
/// # Errors
///
/// `Fault::Memory` alone.
pub fn count_parities<Rt: Threads + Wait + Sync, P: Place, S: Strategy>(
    rt: &Rt,
    alloc: Global,
    strategy: &S,
    site: P,
    numbers: &[u64],
) -> Result<(usize, usize), Fault>
    ensures counted { IfOk result (λ counts. (counts.0 ≡ count_by is_even numbers.now)
        × (counts.1 ≡ count_by is_odd numbers.now)) }
    ensures fault { IsMemoryOnErr result }
{
    let evens = || -> usize
        ensures { result ≡ count_by is_even numbers.entry.now }
    { numbers.iter().filter(|number| **number % 2 == 0).count() };
    let odds = || -> usize
        ensures { result ≡ count_by is_odd numbers.entry.now }
    { numbers.iter().filter(|number| **number % 2 == 1).count() };
    strategy.join(rt, alloc, site, evens, odds)
}
