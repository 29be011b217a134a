//! Folds that are the plain fold from the left, since their closures keep the laws that `FoldLaws`
//! names.
ghost use Rattle.std.specs.Prelude.{◌≡◌, ◌*◌, ◌+◌, ◌%◌, ◌^◌, ◌<◌, All, fold, length, sum_by, IfOk};
ghost use Rattle.std.specs.List.{slice_index};
ghost use Rattle.parallel_fault.specs.Trouble.{IsMemoryOnErr};
ghost use Rattle.parallel_bridge.specs.Folds.{IsPlainFold};
ghost use Rattle.parallel_bridge.specs.Sources.{GivesSome};

use commonware_parallel::bridge::fold_law;
use commonware_parallel::{Copies, Fault, Place, Source, Strategy};
use std::alloc::Global;
use std::sync::Wait;
use std::thread::Threads;

/// The sum of the numbers' squares, which wraps around at 2 to the power of 32.
///
/// # Errors
///
/// `Fault::Memory` if an allocation fails.
pub fn sum_of_squares<Rt: Threads + Wait + Sync, P: Place, S: Strategy>(
    rt: &Rt,
    alloc: Global,
    strategy: &S,
    site: P,
    numbers: &[u32],
) -> Result<u32, Fault>
    ensures sum { IfOk result (λ sum. sum ≡ sum_by (λ x. x * x) numbers.now % 2 ^ 32) }
    ensures fault { IsMemoryOnErr result }
{
    strategy.fold(
        rt,
        alloc,
        site,
        Copies { slice: numbers },
        || 0,
        |sum: u32, number: u32| sum.wrapping_add(number.wrapping_mul(number)),
        |left: u32, right: u32| left.wrapping_add(right),
    )
}

/// The entries of a table at the places, added up; the sum wraps around at 2 to the power of 64.
/// The step is asked for the places alone, each of which the table has, so it looks into the table
/// with no test.
///
/// # Errors
///
/// `Fault::Memory` if an allocation fails.
pub fn sum_of_entries<Rt: Threads + Wait + Sync, P: Place, S: Strategy>(
    rt: &Rt,
    alloc: Global,
    strategy: &S,
    site: P,
    table: &[u64],
    places: &[usize],
) -> Result<u64, Fault>
    requires inside { All (λ place. place < length table.now) places.now }
    ensures sum { IfOk result (λ sum.
        sum ≡ sum_by (λ place. slice_index table.now place) places.now % 2 ^ 64) }
    ensures fault { IsMemoryOnErr result }
{
    let step = |sum: u64, place: usize| -> u64
        requires { place < length table.now }
        ensures { result ≡ (sum + slice_index table.entry.now place) % 2 ^ 64 }
    { sum.wrapping_add(table[place]) };
    strategy.fold(
        rt,
        alloc,
        site,
        Copies { slice: places },
        || 0,
        step,
        |left: u64, right: u64| left.wrapping_add(right),
    )
}

/// A fold through any strategy, which is the plain fold from the left wherever its closures keep
/// the laws that `FoldLaws` names.
///
/// # Errors
///
/// `Fault::Memory` if an allocation fails.
pub fn plain_fold<
    Rt: Threads + Wait + Sync,
    P: Place,
    S: Strategy,
    M,
    I: Source<M>,
    R: Send + Drop,
    ID: Fn() -> R + Send + Sync + Drop,
    F: Fn(R, I::Item) -> R + Send + Sync + Drop,
    G: Fn(R, R) -> R + Send + Sync + Drop,
>(
    rt: &Rt,
    alloc: Global,
    strategy: &S,
    site: P,
    source: I,
    identity: ID,
    fold_op: F,
    reduce_op: G,
) -> Result<R, Fault>
    requires can { I.can source }
    requires identity_accepts { ID.IsAlwaysCallable identity }
    requires fold_accepts { F.IsAlwaysCallable fold_op }
    requires reduce_accepts { G.IsAlwaysCallable reduce_op }
    ensures plain { IfOk result (λ r. GivesSome I.gives source
        (λ xs. IsPlainFold (ID.post identity) (F.post fold_op)
        (G.post reduce_op) xs r)) }
    ensures fault { IsMemoryOnErr result }
{
    fold_law(&identity, &fold_op, &reduce_op);
    strategy.fold(rt, alloc, site, source, identity, fold_op, reduce_op)
}
