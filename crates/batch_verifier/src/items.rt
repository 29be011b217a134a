//! The first item of a list that fails a check.
ghost use Rattle.std.specs.Prelude.{◌≡◌, ℕ, ◌<◌, true, All, length, Result, IfOk, IfErr, ⊤};
ghost use Rattle.parallel_fault.specs.Trouble.{IfClosure, IsMemoryOnFault};
ghost use Rattle.batch_verifier.specs.Verdicts.{IsFirstFailing, Judges};

use commonware_parallel::{Indices, Place, Strategy, Trouble};
use std::alloc::Global;
use std::sync::Wait;
use std::thread::Threads;

/// Checks each item, as a batch verifier does, and returns the index of the first one that fails.
///
/// # Errors
///
/// `Trouble::Closure` with the index of an item that fails, before which each item passes,
/// whichever was looked at first. `Trouble::Fault` with `Fault::Memory` alone.
pub fn verify_all<
    Rt: Threads + Wait + Sync,
    P: Place,
    S: Strategy,
    T: Copy + Send + Sync + Drop,
    F: Fn(T) -> bool + Send + Sync + Drop,
>(
    rt: &Rt,
    alloc: Global,
    strategy: &S,
    site: P,
    items: &[T],
    check: F,
) -> Result<(), Trouble<usize>>
    requires { F.IsAlwaysCallable check }
    ensures each { IfOk result (λ _. All (λ x. F.post check x true) items.now) }
    ensures first { IfErr result
        (λ trouble. IfClosure trouble (IsFirstFailing (F.post check) items.now)) }
    ensures fault { IsMemoryOnFault result }
{
    let verdict = |index: usize| -> Result<(), usize>
        requires { F.IsAlwaysCallable check × (index < length items.now) }
        ensures { Judges (F.post check) items.entry.now index result }
    {
        if check(items[index]) {
            Ok(())
        } else {
            Err(index)
        }
    };
    match judge_all(rt, alloc, strategy, site, items, &check, verdict) {
        Ok(_) => Ok(()),
        Err(trouble) => Err(trouble),
    }
}

// The verdicts on the items, by a closure that judges the item at an index as the check does.
fn judge_all<
    Rt: Threads + Wait + Sync,
    P: Place,
    S: Strategy,
    T: Copy + Send + Sync + Drop,
    C: Fn(T) -> bool,
    F: Fn(usize) -> Result<(), usize> + Send + Sync + Drop,
>(
    rt: &Rt,
    alloc: Global,
    strategy: &S,
    site: P,
    items: &[T],
    check: &C,
    verdict: F,
) -> Result<Vec<()>, Trouble<usize>>
    requires accepts { (index : ℕ) → index < length items.now → F.pre verdict index }
    requires judges { (index : ℕ) (out : Result ⊤ ℕ) → F.post verdict index out
        → Judges (C.post check.now) items.now index out }
    ensures each { IfOk result (λ _. All (λ x. C.post check.now x true) items.now) }
    ensures first { IfErr result
        (λ trouble. IfClosure trouble (IsFirstFailing (C.post check.now) items.now)) }
    ensures fault { IsMemoryOnFault result }
{
    let _ = check;
    let indices = Indices {
        start: 0,
        end: items.len(),
    };
    strategy.try_map_collect_vec(rt, alloc, site, indices, verdict)
}
