//! A sum that stops at the first number above a limit.
ghost use Rattle.std.specs.Prelude.{◌≡◌, ℕ, ◌≤◌, ◌%◌, ◌^◌, All, sum, Result, IfOk, IfErr};
ghost use Rattle.parallel_fault.specs.Trouble.{IfClosure, IsMemoryOnFault};
ghost use Rattle.batch_verifier.specs.Verdicts.{AddsWithin, IsFirstOver};

use commonware_parallel::{Copies, Place, Strategy, Trouble};
use std::alloc::Global;
use std::sync::Wait;
use std::thread::Threads;

/// The sum of the numbers, which wraps around at 2 to the power of 64, where none is above `limit`.
///
/// # Errors
///
/// `Trouble::Closure` with the first number above the limit, whichever was looked at first.
/// `Trouble::Fault` with `Fault::Memory` alone.
pub fn sum_within<Rt: Threads + Wait + Sync, P: Place, S: Strategy>(
    rt: &Rt,
    alloc: Global,
    strategy: &S,
    site: P,
    numbers: &[u64],
    limit: u64,
) -> Result<u64, Trouble<u64>>
    ensures within { IfOk result (λ _. All (λ x. x ≤ limit) numbers.now) }
    ensures sum { IfOk result (λ total. total ≡ sum numbers.now % 2 ^ 64) }
    ensures first { IfErr result (λ trouble. IfClosure trouble (IsFirstOver limit numbers.now)) }
    ensures fault { IsMemoryOnFault result }
{
    let step = |total: u64, number: u64| -> Result<u64, u64>
        ensures { AddsWithin limit total number result }
    {
        if number > limit {
            Err(number)
        } else {
            Ok(total.wrapping_add(number))
        }
    };
    add_all(rt, alloc, strategy, site, numbers, limit, step)
}

// The numbers added up by a step that stops at a number above the limit.
fn add_all<
    Rt: Threads + Wait + Sync,
    P: Place,
    S: Strategy,
    F: Fn(u64, u64) -> Result<u64, u64> + Send + Sync + Drop,
>(
    rt: &Rt,
    alloc: Global,
    strategy: &S,
    site: P,
    numbers: &[u64],
    limit: u64,
    step: F,
) -> Result<u64, Trouble<u64>>
    requires accepts { F.IsAlwaysCallable step }
    requires adds { (total number : ℕ) (out : Result ℕ ℕ)
        → F.post step total number out → AddsWithin limit total number out }
    ensures within { IfOk result (λ _. All (λ x. x ≤ limit) numbers.now) }
    ensures sum { IfOk result (λ total. total ≡ sum numbers.now % 2 ^ 64) }
    ensures first { IfErr result (λ trouble. IfClosure trouble (IsFirstOver limit numbers.now)) }
    ensures fault { IsMemoryOnFault result }
{
    let _ = limit;
    strategy.try_fold(
        rt,
        alloc,
        site,
        Copies { slice: numbers },
        || 0,
        step,
        |left: u64, right: u64| left.wrapping_add(right),
    )
}
