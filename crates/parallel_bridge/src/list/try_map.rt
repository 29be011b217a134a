//! Maps by closures that may fail.
ghost use Rattle.std.specs.Prelude.{◌∷◌, [], Err, IfOk, List, Ok};
ghost use Rattle.std.specs.Iterator.{Drains, HoldsAlong, IsFinite};
ghost use Rattle.std.specs.List.{All};
ghost use Rattle.parallel_fault.specs.Trouble.{IsMemoryOnErr};
ghost use Rattle.parallel_bridge.specs.Onto.{TryMapBehind};
ghost use Rattle.parallel_bridge.specs.Outcomes.{UnlessRefused, ended, listed};
ghost use Rattle.parallel_bridge.specs.Sources.{GivesSome};
ghost use Rattle.parallel_bridge.specs.Tries.{TryMapOf};

use crate::fill::fill_watched;
use crate::fill::writer::TryMapWriter;
use crate::gate::watch::seats_for;
use crate::gate::{Gate, GateWatch};
use crate::parts::Parts;
use crate::room::with_places;
use crate::troubles::unhalt;
use crate::window::home::Home;
use parallel_fault::{Fault, Trouble};
use std::alloc::Global;
use std::num::NonZeroUsize;
use std::thread::Threads;

/// The values that `map_op` returns for the items that an iterator gives, as they come and in their
/// order, on the caller's thread; or the error of the first item that fails, after which the other
/// items are passed over and the closure isn't called.
///
/// # Errors
///
/// `Trouble::Closure` with the closure's error; `Trouble::Fault` with `Fault::Memory` if an
/// allocation fails.
pub fn try_map_iter<I: Iterator, T: Drop, E: Drop, F: Fn(I::Item) -> Result<T, E>>(
    alloc: Global,
    iter: I,
    map_op: &F,
) -> Result<Vec<T>, Trouble<E>>
where
    I::Item: Drop,
    requires can { I.can_next iter }
    requires ends { IsFinite (I.remaining iter) }
    requires accepts { HoldsAlong I.next_gives iter (All (F.pre map_op.now)) }
    ensures maps { UnlessRefused result (λ out. GivesSome (Drains I.next_gives) iter
        (λ xs. TryMapOf (F.post map_op.now) xs (listed out))) }
{
    let mut values = with_places(alloc, iter.size_hint().0);
    let mut failed = None;
    for item in iter {
        try_map_step(&mut values, &mut failed, item, map_op)?;
    }
    match failed {
        None => Ok(values),
        Some(error) => Err(Trouble::Closure(error)),
    }
}

/// The values that `map_op` returns for the items of a list, in their order, where the segments of
/// the list's shape for that many threads run side by side; or the error of the first item
/// that fails, whichever segment ends first. A segment stops at its own first error, and at that of
/// a segment to its left: then the closure isn't called for its other items. Memory for the values
/// is reserved once, before any segment starts, and each value is written where it stays.
///
/// # Errors
///
/// `Trouble::Closure` with the closure's error; `Trouble::Fault` with `Fault::Memory` if an
/// allocation fails.
pub fn try_map_parallel<
    Rt: Threads + Sync,
    P: Parts,
    T: Send + Drop,
    E: Send + Drop,
    F: Fn(P::Item) -> Result<T, E> + Send + Sync,
>(rt: &Rt, alloc: Global, threads: NonZeroUsize, parts: P, map_op: &F) -> Result<Vec<T>, Trouble<E>>
    requires accepts { (x : P.Item) → P.may parts x → F.pre map_op.now x }
    ensures maps { UnlessRefused result (λ out. GivesSome P.gives parts
        (λ xs. TryMapOf (F.post map_op.now) xs (listed out))) }
{
    let len = parts.len();
    let (gate, seat) = Gate::open(alloc, seats_for(len))?;
    let (room, home) = Home::reserve(alloc, len)?;
    let writer = TryMapWriter { map_op };
    let watch = GateWatch {
        gate: &gate,
        seat,
        start: 0,
    };
    let (values, done, watch) = fill_watched(rt, alloc, threads, parts, &writer, room, watch);
    let seat = watch.seat;
    gate.close_joined(seat);
    match unhalt(done) {
        Ok(()) => Ok(values.into_vec(home)),
        Err(trouble) => {
            home.free(values);
            Err(trouble)
        }
    }
}

// Puts the value of an item after those that are there, or its error down. Where an error is there,
// the item is passed over and the closure isn't called.
fn try_map_step<X: Drop, T: Drop, E: Drop, F: Fn(X) -> Result<T, E>>(
    values: &mut Vec<T>,
    failed: &mut Option<E>,
    item: X,
    map_op: &F,
) -> Result<(), Fault>
    requires { F.pre map_op.now item }
    ensures gives { IfOk result (λ _. TryMapBehind (F.post map_op.now)
        (ended values.old.items failed.old) (item ∷ []) (ended values.new.items failed.new)) }
    ensures fault { IsMemoryOnErr result }
{
    if failed.is_some() {
        return Ok(());
    }
    match map_op(item) {
        Ok(value) => values.push(value)?,
        Err(error) => *failed = Some(error),
    }
    Ok(())
}
