//! Lists whose results are written where they stay, in memory that is reserved before any segment
//! starts.
ghost use Rattle.std.specs.Prelude.{◌≡◌, ◌+◌, ◌<◌, ◌≤◌, ◌⊎◌, List, IfOk, length};
ghost use Rattle.std.specs.Int.NonZero.{non_zero_usize_get};
ghost use Rattle.std.specs.List.{Contains};
ghost use Rattle.std.specs.Vec.Ownership.{FitsInBlock};
ghost use Rattle.parallel_bridge.specs.Endings.{ending_of};
ghost use Rattle.parallel_bridge.specs.Fills.{Answered, Fillable, Filled, IsFull, OneAfterAnother, written};
ghost use Rattle.parallel_bridge.specs.Halting.{halting};
ghost use Rattle.parallel_bridge.specs.Outcomes.{PutTogether};
ghost use Rattle.parallel_bridge.specs.Shapes.{cutdepth};
ghost use Rattle.parallel_bridge.specs.Windows.{Follows};

use crate::drive::{Task, drive};
use crate::fill::writer::{Writer, write_items};
use crate::halt::Halt;
use crate::parts::Parts;
use crate::segment::Segment;
use crate::troubles::unhalt;
use crate::watch::{Unwatched, Watch};
use crate::watched::Watched;
use crate::window::part::Window;
use parallel_fault::Trouble;
use std::alloc::Global;
use std::marker::PhantomData;
use std::num::NonZeroUsize;
use std::thread::Threads;

pub mod writer;

/// Writes the results for the items of a list into the room for them, where the segments of the
/// list's shape for that many threads run side by side. Where several segments fail, the leftmost
/// one's error is returned; a refusal of memory may stand in its place.
pub fn fill<Rt: Threads + Sync, P: Parts, W: Writer<P::Item> + Sync>(
    rt: &Rt,
    alloc: Global,
    threads: NonZeroUsize,
    parts: P,
    writer: &W,
    room: Window<W::Answer>,
) -> (Window<W::Answer>, Result<(), Trouble<W::Error>>)
where
    W::Answer: Send,
    W::Error: Send,
    W::State: Send,
    requires ready { W.ready writer.now }
    requires fits { Fillable W.Answer.row P.count P.may (W.takes writer.now) parts room }
    ensures { Filled P.gives parts (Answered (W.so_far writer.now) (W.fails writer.now))
        (cutdepth (non_zero_usize_get threads)) room result.0 result.1 }
{
    let (room, done, _) = fill_watched(rt, alloc, threads, parts, writer, room, Unwatched);
    (room, unhalt(done))
}

/// What `fill` does under a watch, which looks before the first item of each segment and after each
/// item, and is told where a segment fails. It comes back as the watch of the whole list.
pub fn fill_watched<Rt: Threads + Sync, P: Parts, W: Writer<P::Item> + Sync, G: Watch + Send>(
    rt: &Rt,
    alloc: Global,
    threads: NonZeroUsize,
    parts: P,
    writer: &W,
    room: Window<W::Answer>,
    watch: G,
) -> (Window<W::Answer>, Result<(), Trouble<Halt<W::Error>>>, G)
where
    W::Answer: Send,
    W::Error: Send,
    W::State: Send,
    requires ready { W.ready writer.now }
    requires fits { Fillable W.Answer.row P.count P.may (W.takes writer.now) parts room }
    requires watch { G.may watch (P.count parts) }
    ensures filled { Filled P.gives parts (halting
        (Answered (W.so_far writer.now) (W.fails writer.now))) (cutdepth (non_zero_usize_get threads)) room
        result.0 result.1 }
    ensures ends { G.ends watch (P.count parts) result.2 (ending_of result.1) }
{
    let (segment, home) = match parts.into_segment(alloc) {
        Ok(made) => made,
        Err(fault) => return (room, Err(Trouble::Fault(fault)), watch),
    };
    let filling = Filling {
        parts: segment,
        writer,
        room,
        watch,
        items: PhantomData,
    };
    let (room, done, rest, watch) = drive(rt, alloc, threads, filling);
    P::put_away(home, rest);
    (room, done, watch)
}

// A part of a list with what gives its results, the room for the results, and its watch.
#[derive(Drop)]
struct Filling<'w, X: Send + Drop, S: Segment<X>, W: Writer<X>, G> {
    parts: S,
    writer: &'w W,
    room: Window<W::Answer>,
    watch: G,
    items: PhantomData<X>,
}

impl<'w, X: Send + Drop, S: Segment<X>, W: Writer<X> + Sync, G: Watch + Send> Task
    for Filling<'w, X, S, W, G>
where
    W::Answer: Send,
    W::Error: Send,
    W::State: Send,
{
    type Done = (
        Window<W::Answer>,
        Result<(), Trouble<Halt<W::Error>>>,
        S::Rest,
        G,
    );

    type Seam = ();

    ghost ready = { λ s. S.ready s.parts × W.ready s.writer.now
        × Fillable W.Answer.row S.count S.may (W.takes s.writer.now) s.parts s.room
        × G.may s.watch (S.count s.parts) };

    ghost long = { λ s. 2 ≤ S.count s.parts };

    ghost short = { λ depth s. (xs : List X) → S.gives s.parts xs → (depth ≡ 0) ⊎ (length xs < 2) };

    ghost ends = { λ depth s d. Filled S.gives s.parts (halting
        (Answered (W.so_far s.writer.now) (W.fails s.writer.now))) depth s.room d.0 d.1
        × S.leaves s.parts d.2 × G.ends s.watch (S.count s.parts) d.3 (ending_of d.1) };

    ghost meet = { λ seam a b. Follows W.Answer.row a.0 b.0
        × FitsInBlock W.Answer.row (a.0.room + b.0.room)
        × IfOk a.1 (λ _. IsFull a.0) × IfOk b.1 (λ _. IsFull b.0)
        × ((whole : S) × S.meets whole a.2 b.2) × G.meets a.3 b.3 };

    ghost together = { λ seam a b c. (c.0.start ≡ a.0.start) × (c.0.room ≡ a.0.room + b.0.room)
        × IfOk c.1 (λ _. IsFull c.0)
        × PutTogether OneAfterAnother (written a.0 a.1) (written b.0 b.1) (written c.0 c.1)
        × ((whole : S) → S.meets whole a.2 b.2 → S.leaves whole c.2)
        × G.joins a.3 b.3 c.3 };

    fn is_leaf(&self, depth: usize) -> bool {
        depth == 0 || self.parts.len() < 2
    }

    fn split(self, alloc: Global) -> Result<(Self, Self, ()), Self::Done> {
        let len = self.parts.len();
        let (room, watch) = (self.room, self.watch);
        let (front, back) = match self.parts.split_at(alloc, len / 2) {
            Ok(halves) => halves,
            Err((rest, fault)) => return Err((room, Err(Trouble::Fault(fault)), rest, watch)),
        };
        let (left, right) = room.split(len / 2);
        let (left_watch, right_watch) = watch.halve(len);
        let first = Filling {
            parts: front,
            writer: self.writer,
            room: left,
            watch: left_watch,
            items: PhantomData,
        };
        let second = Filling {
            parts: back,
            writer: self.writer,
            room: right,
            watch: right_watch,
            items: PhantomData,
        };
        Ok((first, second, ()))
    }

    fn run(self, _alloc: Global) -> Self::Done {
        let mut room = self.room;
        // (asked for the proof: its clause is the one that says how many items come)
        let _len = self.parts.len();
        let items = Watched::new(self.parts.into_items(), self.watch);
        let (done, rest, watch) = write_items(self.writer, items, &mut room);
        match done {
            Ok(()) => (room, Ok(()), rest, watch),
            Err(halt) => (room, Err(Trouble::Closure(halt)), rest, watch),
        }
    }

    fn join(_seam: (), left: Self::Done, right: Self::Done) -> Self::Done {
        let (first_room, first, first_rest, first_watch) = left;
        let (second_room, second, second_rest, second_watch) = right;
        let (room, done) = put_together((first_room, first), (second_room, second));
        let rest = S::join(first_rest, second_rest);
        (room, done, rest, first_watch.join(second_watch))
    }
}

/// Two neighbours as one, and the left one's trouble first.
pub(crate) fn put_together<T: Drop, E: Drop>(
    left: (Window<T>, Result<(), Trouble<E>>),
    right: (Window<T>, Result<(), Trouble<E>>),
) -> (Window<T>, Result<(), Trouble<E>>)
    requires follows { Follows T.row left.0 right.0 }
    requires fits { FitsInBlock T.row (left.0.room + right.0.room) }
    requires left { IfOk left.1 (λ _. IsFull left.0) }
    requires right { IfOk right.1 (λ _. IsFull right.0) }
    ensures place { (result.0.start ≡ left.0.start) × (result.0.room ≡ left.0.room + right.0.room) }
    ensures full { IfOk result.1 (λ _. IsFull result.0) }
    ensures outcome { PutTogether OneAfterAnother (written left.0 left.1) (written right.0 right.1)
        (written result.0 result.1) }
{
    let (front, first) = left;
    let (mut back, second) = right;
    if first.is_ok() && second.is_ok() {
        return (front.join(back), second);
    }
    back.clear();
    let whole = front.join(back);
    match first {
        Ok(()) => (whole, second),
        Err(trouble) => (whole, Err(trouble)),
    }
}
