//! Partitions.
ghost use Rattle.std.specs.Prelude.{IfOk, List};
ghost use Rattle.std.specs.Iterator.{Drains, HoldsAlong, IsFinite};
ghost use Rattle.std.specs.List.{All};
ghost use Rattle.parallel_fault.specs.Trouble.{IsMemoryOnErr};
ghost use Rattle.parallel_bridge.specs.Parts.{PartitionOf};
ghost use Rattle.parallel_bridge.specs.Sources.{GivesSome};

use crate::bridge::bridge;
use crate::consumer::partition::PartitionConsumer;
use crate::list::moving::put_in_lists;
use crate::parts::Parts;
use crate::room::{keep_pages_of, places_for, second_places_for, with_places};
use crate::troubles::unfailing;
use parallel_fault::Fault;
use std::alloc::Global;
use std::num::NonZeroUsize;
use std::thread::Threads;

/// The values that `map_op` returns for the items that an iterator gives, and the keys of those for
/// which it returns none, as they come and in their order, on the caller's thread.
///
/// # Errors
///
/// `Fault::Memory` if an allocation fails.
pub fn partition_iter<I: Iterator, K: Drop, U: Drop, F: Fn(I::Item) -> (K, Option<U>)>(
    alloc: Global,
    iter: I,
    map_op: &F,
) -> Result<(Vec<U>, Vec<K>), Fault>
    requires can { I.can_next iter }
    requires ends { IsFinite (I.remaining iter) }
    requires accepts { HoldsAlong I.next_gives iter (All (F.pre map_op.now)) }
    ensures parts { IfOk result (λ r. GivesSome (Drains I.next_gives) iter
        (λ xs. PartitionOf (F.post map_op.now) xs r.0.items r.1.items)) }
    ensures fault { IsMemoryOnErr result }
{
    let hint = iter.size_hint().0;
    let mut values = with_places(alloc, places_for(hint));
    let mut keys = with_places(alloc, second_places_for(hint));
    for item in iter {
        let (key, value) = map_op(item);
        match value {
            Some(value) => values.push(value)?,
            None => keys.push(key)?,
        }
    }
    Ok((values, keys))
}

/// The values and the keys of the items of a list, in their order, where the segments of the list's
/// shape for that many threads run side by side.
///
/// # Errors
///
/// `Fault::Memory` if an allocation fails.
pub fn partition_parallel<
    Rt: Threads + Sync,
    P: Parts,
    K: Send + Drop,
    U: Send + Drop,
    F: Fn(P::Item) -> (K, Option<U>) + Send + Sync,
>(
    rt: &Rt,
    alloc: Global,
    threads: NonZeroUsize,
    parts: P,
    map_op: &F,
) -> Result<(Vec<U>, Vec<K>), Fault>
    requires accepts { (x : P.Item) → P.may parts x → F.pre map_op.now x }
    ensures parts { IfOk result (λ r. GivesSome P.gives parts
        (λ xs. PartitionOf (F.post map_op.now) xs r.0.items r.1.items)) }
    ensures fault { IsMemoryOnErr result }
{
    let items = parts.len();
    keep_pages_of::<(U, K)>(alloc, items / 2);
    let consumer = PartitionConsumer { map_op, items };
    let lists = unfailing(bridge(rt, alloc, threads, parts, consumer))?;
    put_in_lists(rt, alloc, threads, items, lists)
}
