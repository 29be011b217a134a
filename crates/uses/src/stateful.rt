//! Maps and folds with a state at hand, and sorts.
ghost use Rattle.std.specs.Prelude.{◌≡◌, ℕ, ◌⊎◌, Some, None, IfOk};
ghost use Rattle.std.specs.List.Sorted.{IsNonDecreasingBy, IsPermutation, IsStableByKey};
ghost use Rattle.std.specs.Ordering.{nat_cmp};
ghost use Rattle.parallel_fault.specs.Trouble.{IsMemoryOnErr};
ghost use Rattle.parallel_bridge.specs.Folds.{IsPlainFold};
ghost use Rattle.parallel_bridge.specs.Sources.{GivesSome};
ghost use Rattle.parallel_bridge.specs.States.{AnyState, FoldStep};
ghost use Rattle.uses.specs.Repeats.{filled};

use commonware_parallel::bridge::fold_init_law;
use commonware_parallel::{Copies, Fault, Place, Source, Strategy};
use std::alloc::Global;
use std::cmp::Ordering;
use std::sync::Wait;
use std::thread::Threads;

/// The numbers, with a gap where a number repeats the one before it. Where a part of the list
/// begins anew a repeated number is written out; the numbers can be told from the result in any
/// case.
///
/// # Errors
///
/// `Fault::Memory` if an allocation fails.
pub fn leave_out_repeats<Rt: Threads + Wait + Sync, P: Place, S: Strategy>(
    rt: &Rt,
    alloc: Global,
    strategy: &S,
    site: P,
    numbers: &[u32],
) -> Result<Vec<Option<u32>>, Fault>
    ensures told { IfOk result (λ entries. (last : ℕ) → filled last entries.items ≡ numbers.now) }
    ensures fault { IsMemoryOnErr result }
{
    let entry = |last: &mut Option<u32>, number: u32| -> Option<u32>
        ensures { (last.new ≡ Some number)
            × ((result ≡ Some number) ⊎ ((result ≡ None) × (last.old ≡ Some number))) }
    {
        if *last == Some(number) {
            None
        } else {
            *last = Some(number);
            Some(number)
        }
    };
    let source = Copies { slice: numbers };
    strategy.map_init_collect_vec(rt, alloc, site, source, || None, entry)
}

/// A fold with a state at hand, which is the plain fold from the left wherever its closures keep
/// the laws that `FoldLaws` names at every state.
///
/// # Errors
///
/// `Fault::Memory` if an allocation fails.
pub fn plain_fold_init<
    Rt: Threads + Wait + Sync,
    P: Place,
    S: Strategy,
    M,
    I: Source<M>,
    W: Send + Drop,
    R: Send + Drop,
    N: Fn() -> W + Send + Sync + Drop,
    ID: Fn() -> R + Send + Sync + Drop,
    F: Fn(R, &mut W, I::Item) -> R + Send + Sync + Drop,
    G: Fn(R, R) -> R + Send + Sync + Drop,
>(
    rt: &Rt,
    alloc: Global,
    strategy: &S,
    site: P,
    source: I,
    init: N,
    identity: ID,
    fold_op: F,
    reduce_op: G,
) -> Result<R, Fault>
    requires can { I.can source }
    requires init_accepts { N.IsAlwaysCallable init }
    requires identity_accepts { ID.IsAlwaysCallable identity }
    requires fold_accepts { F.IsAlwaysCallable fold_op }
    requires reduce_accepts { G.IsAlwaysCallable reduce_op }
    ensures plain { IfOk result (λ r. GivesSome I.gives source
        (λ xs. IsPlainFold (ID.post identity)
        (AnyState (FoldStep (F.post fold_op)))
        (G.post reduce_op) xs r)) }
    ensures fault { IsMemoryOnErr result }
{
    fold_init_law(&init, &identity, &fold_op, &reduce_op);
    strategy.fold_init(rt, alloc, site, source, init, identity, fold_op, reduce_op)
}

/// Sorts the pairs by their first parts; pairs with the same first part keep their order.
///
/// # Errors
///
/// `Fault::Memory` alone; the pairs are then a permutation of what they were.
pub fn sort_by_first<Rt: Threads + Wait + Sync, P: Place, S: Strategy>(
    rt: &Rt,
    alloc: Global,
    strategy: &S,
    site: P,
    pairs: &mut [(u32, u32)],
) -> Result<(), Fault>
    ensures permutation { IsPermutation pairs.old pairs.new }
    ensures sorted { IfOk result (λ _. IsNonDecreasingBy (λ pair. pair.0) pairs.new) }
    ensures stable { IfOk result (λ _. IsStableByKey (λ pair. pair.0) nat_cmp pairs.old pairs.new) }
    ensures fault { IsMemoryOnErr result }
{
    let answer = strategy.sort_by(
        rt,
        alloc,
        site,
        pairs,
        |left: &(u32, u32), right: &(u32, u32)| left.0.cmp(&right.0),
    )?;
    Ok(answer)
}
