//! A closure whose result the shape of a run doesn't change, and one whose result it does, told
//! apart by a search through the rules.
ghost use Rattle.std.specs.Prelude.{◌≡◌, IfOk};
ghost use Rattle.parallel_fault.specs.Trouble.{IsMemoryOnErr};
ghost use Rattle.commonware_parallel.specs.declared.mocks.rule.Rule.TheVariants.{Serial};

use commonware_parallel::mocks::{ExploreError, Explorer, explore};
use commonware_parallel::{Fault, Indices, Site, Strategy};
use std::alloc::Global;
use std::sync::Wait;
use std::thread::Threads;

// The call site of the sums.
const SITE: Site = Site {
    file: "uses/src/explored.rt",
    line: 14,
    column: 1,
};

/// What a search says of the sum of the numbers below 100 from 0 on: nothing is added to a segment
/// by where it begins, so every run that isn't refused has the list's own sum.
///
/// # Errors
///
/// `Fault::Memory` if an allocation fails.
pub fn explore_from_zero<Rt: Threads + Wait + Sync>(
    rt: &Rt,
    alloc: Global,
) -> Result<Result<usize, Fault>, ExploreError>
    ensures sum { IfOk result (λ told. IfOk told (λ sum. sum ≡ 4950)) }
    ensures fault { IfOk result (λ told. IsMemoryOnErr told) }
{
    let run = |explorer: &Explorer| -> Result<usize, Fault>
        ensures sum { IfOk result (λ sum. sum ≡ 4950) }
        ensures fault { IsMemoryOnErr result }
    { sum_from(rt, alloc, explorer, 0) };
    explore_equal(rt, alloc, run)
}

/// What a search says of that sum from 10 on: each segment begins from 10, so the parallel run has
/// a greater sum than the serial one, and `ExploreError::Differs` tells of it.
///
/// # Errors
///
/// `Fault::Memory` if an allocation fails.
pub fn explore_from_ten<Rt: Threads + Wait + Sync>(
    rt: &Rt,
    alloc: Global,
) -> Result<Result<usize, Fault>, ExploreError>
    ensures sum { IfOk result (λ told. IfOk told (λ sum. sum ≡ 4960)) }
    ensures fault { IfOk result (λ told. IsMemoryOnErr told) }
{
    let run = |explorer: &Explorer| -> Result<usize, Fault>
        ensures sum { explorer.now.rule ≡ Serial → IfOk result (λ sum. sum ≡ 4960) }
        ensures fault { IsMemoryOnErr result }
    { sum_from(rt, alloc, explorer, 10) };
    explore_unequal(rt, alloc, run)
}

// The search's result where each run's sum is 4950.
fn explore_equal<Rt: Threads, F: FnMut(&Explorer) -> Result<usize, Fault>>(
    rt: &Rt,
    alloc: Global,
    run: F,
) -> Result<Result<usize, Fault>, ExploreError>
    requires callable { F.IsAlwaysCallable run }
    requires sums { (f g : F) (explorer : _) (out : _) → F.step f explorer out g
        → IfOk out (λ sum. sum ≡ 4950) }
    requires faults { (f g : F) (explorer : _) (out : _) → F.step f explorer out g
        → IsMemoryOnErr out }
    ensures sum { IfOk result (λ told. IfOk told (λ sum. sum ≡ 4950)) }
    ensures fault { IfOk result (λ told. IsMemoryOnErr told) }
{
    explore(rt, alloc, run)
}

// The search's result where the serial run's sum is 4960.
fn explore_unequal<Rt: Threads, F: FnMut(&Explorer) -> Result<usize, Fault>>(
    rt: &Rt,
    alloc: Global,
    run: F,
) -> Result<Result<usize, Fault>, ExploreError>
    requires callable { F.IsAlwaysCallable run }
    requires sums { (f g : F) (explorer : _) (out : _) → F.step f explorer out g
        → explorer.now.rule ≡ Serial → IfOk out (λ sum. sum ≡ 4960) }
    requires faults { (f g : F) (explorer : _) (out : _) → F.step f explorer out g
        → IsMemoryOnErr out }
    ensures sum { IfOk result (λ told. IfOk told (λ sum. sum ≡ 4960)) }
    ensures fault { IfOk result (λ told. IsMemoryOnErr told) }
{
    explore(rt, alloc, run)
}

// The sum of the numbers below 100 through an explorer, each segment from a number on.
fn sum_from<Rt: Threads + Wait + Sync>(
    rt: &Rt,
    alloc: Global,
    explorer: &Explorer,
    identity: usize,
) -> Result<usize, Fault>
    ensures neutral { identity ≡ 0 → IfOk result (λ sum. sum ≡ 4950) }
    ensures serial { identity ≡ 10 → explorer.now.rule ≡ Serial
        → IfOk result (λ sum. sum ≡ 4960) }
    ensures fault { IsMemoryOnErr result }
{
    explorer.fold(
        rt,
        alloc,
        SITE,
        Indices { start: 0, end: 100 },
        move || identity,
        |sum: usize, number: usize| sum.wrapping_add(number),
        |left: usize, right: usize| left.wrapping_add(right),
    )
}
