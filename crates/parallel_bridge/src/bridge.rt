//! Lists handed to a consumer, split along their shape.
ghost use Rattle.std.specs.Prelude.{◌≡◌, ◌*◌, ◌<◌, ◌≤◌, ◌⊎◌, List, Ok, Result, length};
ghost use Rattle.std.specs.Int.NonZero.{non_zero_usize_get};
ghost use Rattle.parallel_bridge.specs.Endings.{IsUnderway, JoinsTo, ending_of, well};
ghost use Rattle.parallel_bridge.specs.Halting.{halting, unstopped};
ghost use Rattle.parallel_bridge.specs.Outcomes.{PutTogether};
ghost use Rattle.parallel_bridge.specs.Shapes.{cutdepth, Shape, leaf_lengths};
ghost use Rattle.parallel_bridge.specs.Sources.{Driven, Suits};

use crate::bridge::feed::feed_items;
use crate::cursor::Cursor;
use crate::drive::{Task, drive};
use crate::halt::Halt;
use crate::parts::Parts;
use crate::plumbing::{Consumer, Reducer};
use crate::segment::Segment;
use crate::troubles::{put_together, unhalt};
use crate::watch::{Unwatched, Watch};
use crate::watched::Watched;
use parallel_fault::Trouble;
use std::alloc::Global;
use std::marker::PhantomData;
use std::num::NonZeroUsize;
use std::thread::Threads;

pub mod feed;

/// Hands a list to the consumer, split along its shape for that many threads, of which the caller's
/// is one. Where several segments fail, the leftmost one's error is returned; a refusal of memory
/// may stand in its place.
///
/// # Errors
///
/// `Trouble::Closure` with the closure's error; `Trouble::Fault` with `Fault::Memory` if an
/// allocation fails.
pub fn bridge<Rt: Threads + Sync, P: Parts, C: Consumer<P::Item> + Send>(
    rt: &Rt,
    alloc: Global,
    threads: NonZeroUsize,
    parts: P,
    consumer: C,
) -> Result<C::Result, Trouble<C::Error>>
    requires ready { C.ready consumer }
    requires items { (x : P.Item) → P.may parts x → C.takes consumer x }
    ensures along { Driven P.gives parts (C.leaf_gives consumer) (C.node_gives consumer)
        (cutdepth (non_zero_usize_get threads)) result }
    ensures by_threads { (xs : List P.Item)
        → length (leaf_lengths (Shape (cutdepth (non_zero_usize_get threads)) xs))
        ≤ 2 * non_zero_usize_get threads }
    ensures by_items { (xs : List P.Item) → 0 < length xs
        → length (leaf_lengths (Shape (cutdepth (non_zero_usize_get threads)) xs)) ≤ length xs }
{
    let (done, _) = bridge_watched(rt, alloc, threads, parts, consumer, Unwatched);
    unhalt(done)
}

/// What `bridge` does under a watch, which looks before the first item of each segment and after
/// each item, and is told where a segment fails. It comes back as the watch of the whole list.
pub fn bridge_watched<Rt: Threads + Sync, P: Parts, C: Consumer<P::Item> + Send, G: Watch + Send>(
    rt: &Rt,
    alloc: Global,
    threads: NonZeroUsize,
    parts: P,
    consumer: C,
    watch: G,
) -> (Result<C::Result, Trouble<Halt<C::Error>>>, G)
    requires ready { C.ready consumer }
    requires items { (x : P.Item) → P.may parts x → C.takes consumer x }
    requires watch { G.may watch (P.count parts) }
    ensures along { Driven P.gives parts (halting (C.leaf_gives consumer))
        (λ a. unstopped (C.node_gives consumer a)) (cutdepth (non_zero_usize_get threads)) result.0 }
    ensures ends { G.ends watch (P.count parts) result.1 (ending_of result.0) }
{
    let (segment, home) = match parts.into_segment(alloc) {
        Ok(made) => made,
        Err(fault) => return (Err(Trouble::Fault(fault)), watch),
    };
    let handing = Handing {
        parts: segment,
        consumer,
        watch,
        items: PhantomData,
    };
    let (answer, rest, watch) = drive(rt, alloc, threads, handing);
    P::put_away(home, rest);
    (answer, watch)
}

// A part of a list with the consumer that it is handed to, and its watch.
#[derive(Drop)]
struct Handing<X: Send + Drop, S: Segment<X>, C: Consumer<X>, G> {
    parts: S,
    consumer: C,
    watch: G,
    items: PhantomData<X>,
}

impl<X: Send + Drop, S: Segment<X>, C: Consumer<X> + Send, G: Watch + Send> Task
    for Handing<X, S, C, G> {
    type Done = (Result<C::Result, Trouble<Halt<C::Error>>>, S::Rest, G);

    type Seam = C::Reducer;

    ghost ready = { λ s. S.ready s.parts
        × Suits C.ready C.takes S.may s.parts s.consumer
        × G.may s.watch (S.count s.parts) };

    ghost long = { λ s. 2 ≤ S.count s.parts };

    ghost short = { λ depth s. (xs : List X) → S.gives s.parts xs → (depth ≡ 0) ⊎ (length xs < 2) };

    ghost ends = { λ depth s d. Driven S.gives s.parts (halting (C.leaf_gives s.consumer))
        (λ a. unstopped (C.node_gives s.consumer a)) depth d.0 × S.leaves s.parts d.1
        × G.ends s.watch (S.count s.parts) d.2 (ending_of d.0) };

    ghost meet = { λ seam a b. ((p q : C.Result) → a.0 ≡ Ok p → b.0 ≡ Ok q
        → C.Reducer.can_reduce seam p q)
        × ((whole : S) × S.meets whole a.1 b.1) × G.meets a.2 b.2
        × ((both : G) → G.joins a.2 b.2 both → ending_of a.0 ≡ well → ending_of b.0 ≡ well
        → IsUnderway G.ends both) };

    ghost together = { λ seam a b c. PutTogether
        (λ p. unstopped (C.Reducer.reduce_gives seam p)) a.0 b.0 c.0
        × ((whole : S) → S.meets whole a.1 b.1 → S.leaves whole c.1)
        × JoinsTo G.ends G.joins a.2 b.2 c.2 (ending_of a.0) (ending_of b.0) (ending_of c.0) };

    fn is_leaf(&self, depth: usize) -> bool {
        depth == 0 || self.parts.len() < 2
    }

    fn split(self, alloc: Global) -> Result<(Self, Self, C::Reducer), Self::Done> {
        let len = self.parts.len();
        let (left, right, reducer) = match self.consumer.split_at(len / 2) {
            Ok(consumers) => consumers,
            Err(fault) => {
                let rest = self.parts.into_items().rest();
                return Err((Err(Trouble::Fault(fault)), rest, self.watch));
            }
        };
        let (front, back) = match self.parts.split_at(alloc, len / 2) {
            Ok(halves) => halves,
            Err((rest, fault)) => return Err((Err(Trouble::Fault(fault)), rest, self.watch)),
        };
        let (left_watch, right_watch) = self.watch.halve(len);
        let first = Handing {
            parts: front,
            consumer: left,
            watch: left_watch,
            items: PhantomData,
        };
        let second = Handing {
            parts: back,
            consumer: right,
            watch: right_watch,
            items: PhantomData,
        };
        Ok((first, second, reducer))
    }

    fn run(self, alloc: Global) -> Self::Done {
        let items = Watched::new(self.parts.into_items(), self.watch);
        let leave = match items.look() {
            Ok(leave) => leave,
            Err(held) => {
                let (rest, watch) = held.rest();
                return (Err(Trouble::Closure(Halt::Stopped)), rest, watch);
            }
        };
        let folder = match self.consumer.into_folder(alloc) {
            Ok(folder) => folder,
            Err(fault) => {
                let (rest, watch) = leave.unused().rest();
                return (Err(Trouble::Fault(fault)), rest, watch);
            }
        };
        feed_items(alloc, leave, folder)
    }

    fn join(seam: C::Reducer, left: Self::Done, right: Self::Done) -> Self::Done {
        let rest = S::join(left.1, right.1);
        let (answer, watch) = put_together((left.0, left.2), (right.0, right.2), seam);
        (answer, rest, watch)
    }
}
