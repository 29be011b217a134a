//! Maps.
ghost use Rattle.std.specs.Prelude.{◌≡◌, IfOk, List};
ghost use Rattle.std.specs.Iterator.{Drains, HoldsAlong, IsFinite};
ghost use Rattle.std.specs.List.{All};
ghost use Rattle.parallel_fault.specs.Trouble.{IsMemoryOnErr};
ghost use Rattle.parallel_bridge.specs.Lists.{MapOf};
ghost use Rattle.parallel_bridge.specs.Sources.{GivesSome};

use crate::fill::fill;
use crate::fill::writer::MapWriter;
use crate::parts::Parts;
use crate::troubles::unfailing;
use crate::window::home::Home;
use parallel_fault::Fault;
use std::alloc::Global;
use std::num::NonZeroUsize;
use std::thread::Threads;

/// The results of `map_op` for the items that an iterator gives, as they come and in their order,
/// on the caller's thread. The results alone are gathered, not the items.
///
/// # Errors
///
/// `Fault::Memory` if an allocation fails.
pub fn map_iter<I: Iterator, T: Drop, F: Fn(I::Item) -> T>(
    alloc: Global,
    iter: I,
    map_op: &F,
) -> Result<Vec<T>, Fault>
    requires can { I.can_next iter }
    requires ends { IsFinite (I.remaining iter) }
    requires accepts { HoldsAlong I.next_gives iter (All (F.pre map_op.now)) }
    ensures maps { IfOk result (λ ys. GivesSome (Drains I.next_gives) iter
        (λ xs. MapOf (F.post map_op.now) xs ys.items)) }
    ensures fault { IsMemoryOnErr result }
{
    let answer = |item: I::Item| -> T
        requires { F.pre map_op.now item }
        ensures { F.post map_op.entry.now item result }
    { map_op(item) };
    Ok(iter.map(answer).collect(alloc)?)
}

/// The results of `map_op` for the items of a list, in their order, where the segments of the
/// list's shape for that many threads run side by side. Memory for the results is reserved
/// once, before any segment starts, and each result is written where it stays.
///
/// # Errors
///
/// `Fault::Memory` if an allocation fails.
pub fn map_parallel<
    Rt: Threads + Sync,
    P: Parts,
    T: Send + Drop,
    F: Fn(P::Item) -> T + Send + Sync,
>(rt: &Rt, alloc: Global, threads: NonZeroUsize, parts: P, map_op: &F) -> Result<Vec<T>, Fault>
    requires accepts { (x : P.Item) → P.may parts x → F.pre map_op.now x }
    ensures maps { IfOk result (λ ys. GivesSome P.gives parts
        (λ xs. MapOf (F.post map_op.now) xs ys.items)) }
    ensures fault { IsMemoryOnErr result }
{
    let len = parts.len();
    let (room, home) = Home::reserve(alloc, len)?;
    let writer = MapWriter { map_op };
    let (answers, done) = fill(rt, alloc, threads, parts, &writer, room);
    match unfailing(done) {
        Ok(()) => Ok(answers.into_vec(home)),
        Err(fault) => {
            home.free(answers);
            Err(fault)
        }
    }
}
