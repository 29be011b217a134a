//! Searches through the rules of an explorer: for the sum of a list, and for a body that differs.
ghost use Rattle.std.specs.Prelude.{◌≡◌, Bool, true, false, IfOk, IfErr};
ghost use Rattle.commonware_parallel.specs.declared.mocks.rule.Rule.TheVariants.{Parallel, Serial};
ghost use Rattle.shapes_command.specs.Answer.{EndsAtParallel};

use commonware_parallel::mocks::{ExploreError, Explorer, Rule, explore};
use commonware_parallel::{Indices, Strategy};
use parallel_fault::Fault;
use parallel_policy::Site;
use std::alloc::Global;
use std::sync::Wait;
use std::thread::Threads;

// The call site of both searches.
const SITE: Site = Site {
    file: "shapes_command/src/search.rt",
    line: 15,
    column: 1,
};

/// The sum of the numbers below 100, which comes by every rule.
///
/// # Errors
///
/// `Fault::Memory` where the pool, or a run of the search, was refused memory.
pub fn explored_sum<R: Threads + Wait + Sync>(rt: &R, alloc: Global) -> Result<usize, Fault>
    ensures sum { IfOk result (λ sum. sum ≡ 4950) }
    ensures fault { IfErr result (λ refusal. refusal ≡ Fault.Memory) }
{
    let run = |explorer: &Explorer| -> Result<usize, Fault>
        ensures { IfOk result (λ sum. sum ≡ 4950) }
    { sum_below_100(rt, alloc, explorer) };
    known_sum(rt, alloc, run)
}

// What a search finds where each run's sum is 4950.
fn known_sum<R: Threads, F: FnMut(&Explorer) -> Result<usize, Fault>>(
    rt: &R,
    alloc: Global,
    run: F,
) -> Result<usize, Fault>
    requires callable { F.IsAlwaysCallable run }
    requires sums { (f g : F) (explorer : _) (out : _) → F.step f explorer out g
        → IfOk out (λ sum. sum ≡ 4950) }
    ensures sum { IfOk result (λ sum. sum ≡ 4950) }
    ensures fault { IfErr result (λ refusal. refusal ≡ Fault.Memory) }
{
    match explore(rt, alloc, run) {
        Ok(Ok(sum)) => Ok(sum),
        Ok(Err(_)) | Err(_) => Err(Fault::Memory),
    }
}

// The sum of the numbers below 100 from 0 on, through an explorer.
fn sum_below_100<R: Threads + Wait + Sync>(
    rt: &R,
    alloc: Global,
    explorer: &Explorer,
) -> Result<usize, Fault>
    ensures { IfOk result (λ sum. sum ≡ 4950) }
{
    explorer.fold(
        rt,
        alloc,
        SITE,
        Indices { start: 0, end: 100 },
        || 0,
        |sum: usize, number: usize| sum.wrapping_add(number),
        |left: usize, right: usize| left.wrapping_add(right),
    )
}

/// The first rule by which a run over 64 items takes another body than the serial run.
///
/// # Errors
///
/// `Fault::Memory` where the pool, or a handle of it, was refused memory.
pub fn differing_rule<R: Threads + Wait>(rt: &R, alloc: Global) -> Result<Rule, Fault>
    ensures rule { IfOk result (λ rule. rule ≡ Parallel) }
    ensures fault { IfErr result (λ refusal. refusal ≡ Fault.Memory) }
{
    let run = |explorer: &Explorer| -> bool
        ensures serial { explorer.now.rule ≡ Serial → result ≡ false }
        ensures parallel { explorer.now.planning ≡ 8 → explorer.now.rule ≡ Parallel
            → result ≡ true }
    { takes_parallel_body(rt, alloc, explorer) };
    match searched(rt, alloc, run) {
        Err(ExploreError::Differs(rule)) => Ok(rule),
        Ok(_) | Err(ExploreError::Build(_)) => Err(Fault::Memory),
    }
}

// A search by a closure whose serial run and parallel run differ.
fn searched<R: Threads, F: FnMut(&Explorer) -> bool>(
    rt: &R,
    alloc: Global,
    run: F,
) -> Result<bool, ExploreError>
    requires callable { F.IsAlwaysCallable run }
    requires serial { (f g : F) (explorer : _) (out : Bool) → F.step f explorer out g
        → explorer.now.rule ≡ Serial → out ≡ false }
    requires parallel { (f g : F) (explorer : _) (out : Bool) → F.step f explorer out g
        → explorer.now.planning ≡ 8 → explorer.now.rule ≡ Parallel → out ≡ true }
    ensures { IfErr result EndsAtParallel }
{
    explore(rt, alloc, run)
}

// Whether a run over 64 items takes its parallel body, which an explorer's is never refused.
fn takes_parallel_body<R: Wait>(rt: &R, alloc: Global, explorer: &Explorer) -> bool
    ensures serial { explorer.now.rule ≡ Serial → result ≡ false }
    ensures parallel { explorer.now.planning ≡ 8 → explorer.now.rule ≡ Parallel → result ≡ true }
{
    match explorer.run(rt, alloc, SITE, 64, || false, || true) {
        Ok(is_parallel) => is_parallel,
        Err(_) => false,
    }
}
