//! Maps with a state at hand.
ghost use Rattle.std.specs.Prelude.{IfOk, List};
ghost use Rattle.std.specs.Borrow.{MutBor};
ghost use Rattle.std.specs.Iterator.{Drains, HoldsAlong, IsFinite};
ghost use Rattle.std.specs.List.{All};
ghost use Rattle.parallel_fault.specs.Trouble.{IsMemoryOnErr};
ghost use Rattle.parallel_bridge.specs.Shapes.{Shape, levels};
ghost use Rattle.parallel_bridge.specs.Sources.{GivesSome};
ghost use Rattle.parallel_bridge.specs.States.{MapStep, StateSegment, StatesAlong};

use crate::fill::fill;
use crate::fill::writer::MapInitWriter;
use crate::parts::Parts;
use crate::room::with_places;
use crate::troubles::unfailing;
use crate::window::home::Home;
use parallel_fault::Fault;
use std::alloc::Global;
use std::num::NonZeroUsize;
use std::thread::Threads;

/// The results of `map_op` for the items that an iterator gives, as they come and in their order,
/// with one state that `init` makes and that goes from item to item, on the caller's thread.
///
/// # Errors
///
/// `Fault::Memory` if an allocation fails.
pub fn map_init_iter<I: Iterator, S: Drop, T: Drop, N: Fn() -> S, F: Fn(&mut S, I::Item) -> T>(
    alloc: Global,
    iter: I,
    init: &N,
    map_op: &F,
) -> Result<Vec<T>, Fault>
    requires can { I.can_next iter }
    requires ends { IsFinite (I.remaining iter) }
    requires init_accepts { N.IsAlwaysCallable init.now }
    requires map_accepts { HoldsAlong I.next_gives iter
        (All (λ x. (state : MutBor S) → F.pre map_op.now state x)) }
    ensures one_state { IfOk result (λ ys. GivesSome (Drains I.next_gives) iter
        (λ xs. StateSegment (N.post init.now) (MapStep (λ p x y q. F.post map_op.now p x y q))
        xs ys.items)) }
    ensures fault { IsMemoryOnErr result }
{
    let mut state = init();
    let mut answers = with_places(alloc, iter.size_hint().0);
    for item in iter {
        answers.push(map_op(&mut state, item))?;
    }
    Ok(answers)
}

/// The results of `map_op` for the items of a list, in their order, where the segments of the
/// list's shape for that many threads run side by side. Each segment has a fresh state,
/// which goes from item to item. Memory for the results is reserved once, before any segment
/// starts, and each result is written where it stays.
///
/// # Errors
///
/// `Fault::Memory` if an allocation fails.
pub fn map_init_parallel<
    Rt: Threads + Sync,
    P: Parts,
    S: Send + Drop,
    T: Send + Drop,
    N: Fn() -> S + Send + Sync,
    F: Fn(&mut S, P::Item) -> T + Send + Sync,
>(
    rt: &Rt,
    alloc: Global,
    threads: NonZeroUsize,
    parts: P,
    init: &N,
    map_op: &F,
) -> Result<Vec<T>, Fault>
    requires init_accepts { N.IsAlwaysCallable init.now }
    requires map_accepts { (x : P.Item) → P.may parts x
        → (state : MutBor S) → F.pre map_op.now state x }
    ensures along { IfOk result (λ ys. GivesSome P.gives parts
        (λ xs. StatesAlong (N.post init.now) (MapStep (λ p x y q. F.post map_op.now p x y q))
        (Shape (levels threads) xs) ys.items)) }
    ensures fault { IsMemoryOnErr result }
{
    let len = parts.len();
    let (room, home) = Home::reserve(alloc, len)?;
    let writer = MapInitWriter { init, map_op };
    let (answers, done) = fill(rt, alloc, threads, parts, &writer, room);
    match unfailing(done) {
        Ok(()) => Ok(answers.into_vec(home)),
        Err(fault) => {
            home.free(answers);
            Err(fault)
        }
    }
}
