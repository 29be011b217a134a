//! The items that pass a check, and those that fail it.
ghost use Rattle.std.specs.Prelude.{◌≡◌, ◌+◌, Bool, true, false, All, not, length, IfOk};
ghost use Rattle.std.specs.List.{filter};
ghost use Rattle.parallel_fault.specs.Trouble.{IsMemoryOnErr};
ghost use Rattle.batch_verifier.specs.Verdicts.{GoesByTest, IsSortedOut};

use commonware_parallel::{Copies, Fault, Place, Strategy};
use std::alloc::Global;
use std::sync::Wait;
use std::thread::Threads;

/// The items that pass a check and those that fail it, both in the items' order.
///
/// # Errors
///
/// `Fault::Memory` alone.
pub fn split_by_check<
    Rt: Threads + Wait + Sync,
    P: Place,
    S: Strategy,
    T: Copy + Send + Sync + Drop,
    F: Fn(T) -> bool + Send + Sync + Drop,
>(
    rt: &Rt,
    alloc: Global,
    strategy: &S,
    site: P,
    items: &[T],
    check: F,
) -> Result<(Vec<T>, Vec<T>), Fault>
    requires { F.IsAlwaysCallable check }
    ensures pass { IfOk result (λ parts. All (λ x. F.post check x true) parts.0.items) }
    ensures fail { IfOk result (λ parts. All (λ x. F.post check x false) parts.1.items) }
    ensures number { IfOk result
        (λ parts. length parts.0.items + length parts.1.items ≡ length items.now) }
    ensures ordered { IfOk result (λ parts. (passes : T → Bool)
        → GoesByTest (F.post check) passes → (parts.0.items ≡ filter passes items.now)
        × (parts.1.items ≡ filter (λ x. not (passes x)) items.now)) }
    ensures fault { IsMemoryOnErr result }
{
    let sorted_out = |item: T| -> (T, Option<T>)
        requires { F.IsAlwaysCallable check }
        ensures { IsSortedOut (F.post check) item result }
    {
        if check(item) {
            (item, Some(item))
        } else {
            (item, None)
        }
    };
    strategy.map_partition_collect_vec(rt, alloc, site, Copies { slice: items }, sorted_out)
}
