//! Items that are brought down to the tops of their leaves' blocks, each block by one thread.
ghost use Rattle.std.specs.Prelude.{◌≡◌, ◌+◌, ◌*◌, ◌<◌, ◌≤◌, ◌++◌, Ok, IfOk, List, length};
ghost use Rattle.std.specs.Int.NonZero.{non_zero_usize_get};
ghost use Rattle.std.specs.Vec.Ownership.{FitsInBlock};
ghost use Rattle.parallel_bridge.specs.Fills.{IsFull, IsRoom, SamePlaces};
ghost use Rattle.parallel_bridge.specs.Sources.{GivesSome};
ghost use Rattle.parallel_bridge.specs.Windows.{Follows};
ghost use Rattle.parallel_fault.specs.Trouble.{IsMemoryOnErr};
ghost use Rattle.commonware_parallel.specs.MerkleBlocks.{AreBlocks, AreTopsOf, ComesDown, HasGiven, HasItems, IsBlockSize};

use crate::merkle::tops::next_top;
use parallel_bridge::drive::drive;
use parallel_bridge::{Cursor, Home, Parts, Segment, Task, Window};
use parallel_fault::Fault;
use std::alloc::Global;
use std::marker::PhantomData;
use std::num::NonZeroUsize;
use std::thread::Threads;

// How many blocks each thread has at least. Fewer would leave a thread idle for longer at the end;
// more leave more tops to levels that start threads anew.
const BLOCKS: usize = 8;

/// How many leaves a block has: a power of two, by which each thread has that many blocks or up to
/// twice as many; 1 where there are too few leaves for that.
pub(crate) fn block_size(len: usize, threads: NonZeroUsize) -> usize
    ensures size { IsBlockSize result }
    ensures several { 16 * non_zero_usize_get threads ≤ len → 1 < result }
{
    let share = len / BLOCKS / threads.get();
    let mut size = 1;
    while size <= share / 2 {
        size += size;
    }
    size
}

/// The tops of the blocks of `size` of the items' leaves, in their order, the last block maybe not
/// full. The blocks are brought down side by side, on at most `threads` threads, of which the
/// caller's is one. Each leaf is made as its block is brought down; there is memory for the tops
/// alone.
///
/// # Errors
///
/// `Fault::Memory` alone; the items are then gone.
pub(crate) fn descend<
    Rt: Threads + Sync,
    P: Parts,
    T: Send + Drop,
    L: Fn(P::Item) -> T + Send + Sync,
    F: Fn(T, T) -> T + Send + Sync,
>(
    rt: &Rt,
    alloc: Global,
    threads: NonZeroUsize,
    size: usize,
    parts: P,
    leaf: &L,
    combine: &F,
) -> Result<Vec<T>, Fault>
    requires leaf_accepts { (x : P.Item) → P.may parts x → L.pre leaf.now x }
    requires accepts { F.IsAlwaysCallable combine.now }
    requires size { IsBlockSize size }
    ensures tops { IfOk result (λ tops. GivesSome P.gives parts (λ xs. AreTopsOf
        (L.post leaf.now) (F.post combine.now) size xs tops.items)) }
    ensures fault { IsMemoryOnErr result }
{
    let blocks = parts.len().div_ceil(size);
    let (room, home) = Home::reserve(alloc, blocks)?;
    let (tops, done) = descend_into(rt, alloc, threads, size, parts, leaf, combine, room);
    match done {
        Ok(()) => Ok(tops.into_vec(home)),
        Err(fault) => {
            home.free(tops);
            Err(fault)
        }
    }
}

// The same into the room for the tops, which comes back.
fn descend_into<
    Rt: Threads + Sync,
    P: Parts,
    T: Send + Drop,
    L: Fn(P::Item) -> T + Send + Sync,
    F: Fn(T, T) -> T + Send + Sync,
>(
    rt: &Rt,
    alloc: Global,
    threads: NonZeroUsize,
    size: usize,
    parts: P,
    leaf: &L,
    combine: &F,
    room: Window<T>,
) -> (Window<T>, Result<(), Fault>)
    requires leaf_accepts { (x : P.Item) → P.may parts x → L.pre leaf.now x }
    requires accepts { F.IsAlwaysCallable combine.now }
    requires size { IsBlockSize size }
    requires room { IsRoom room }
    requires fits { FitsInBlock T.row room.room }
    requires blocks { AreBlocks size (P.count parts) room.room }
    ensures places { SamePlaces room result.0 }
    ensures tops { IfOk result.1 (λ _. IsFull result.0 × GivesSome P.gives parts (λ xs. AreTopsOf
        (L.post leaf.now) (F.post combine.now) size xs result.0.items)) }
    ensures fault { IsMemoryOnErr result.1 }
{
    let (segment, site) = match parts.into_segment(alloc) {
        Ok(made) => made,
        Err(fault) => return (room, Err(fault)),
    };
    let whole = Descent {
        parts: segment,
        tops: room,
        size,
        leaf,
        combine,
        items: PhantomData,
    };
    let (tops, done, rest) = drive(rt, alloc, threads, whole);
    P::put_away(site, rest);
    (tops, done)
}

// A part of the items, with a slot for the top of each block of their leaves.
#[derive(Drop)]
struct Descent<'f, X: Send + Drop, S: Segment<X>, T, L, F> {
    parts: S,
    tops: Window<T>,
    size: usize,
    leaf: &'f L,
    combine: &'f F,
    items: PhantomData<X>,
}

impl<
    'f,
    X: Send + Drop,
    S: Segment<X>,
    T: Send + Drop,
    L: Fn(X) -> T + Send + Sync,
    F: Fn(T, T) -> T + Send + Sync,
> Task for Descent<'f, X, S, T, L, F> {
    type Done = (Window<T>, Result<(), Fault>, S::Rest);

    type Seam = ();

    ghost ready = { λ s. S.ready s.parts × ((x : X) → S.may s.parts x → L.pre s.leaf.now x)
        × F.IsAlwaysCallable s.combine.now × IsBlockSize s.size × IsRoom s.tops
        × FitsInBlock T.row s.tops.room × AreBlocks s.size (S.count s.parts) s.tops.room };

    ghost long = { λ s. 2 ≤ s.tops.room };

    ghost short = { λ depth s. Unit {0} };

    ghost ends = { λ depth s d. SamePlaces s.tops d.0
        × IfOk d.1 (λ _. IsFull d.0 × GivesSome S.gives s.parts (λ xs. AreTopsOf
        (L.post s.leaf.now) (F.post s.combine.now) s.size xs d.0.items))
        × IsMemoryOnErr d.1 × S.leaves s.parts d.2 };

    ghost meet = { λ seam a b. Follows T.row a.0 b.0 × FitsInBlock T.row (a.0.room + b.0.room)
        × IfOk a.1 (λ _. IsFull a.0) × IfOk b.1 (λ _. IsFull b.0)
        × ((whole : S) × S.meets whole a.2 b.2) };

    ghost together = { λ seam a b c. (c.0.start ≡ a.0.start) × (c.0.room ≡ a.0.room + b.0.room)
        × IfOk c.1 (λ _. (a.1 ≡ Ok tt) × (b.1 ≡ Ok tt) × IsFull c.0
        × (c.0.items ≡ a.0.items ++ b.0.items))
        × (IsMemoryOnErr a.1 → IsMemoryOnErr b.1 → IsMemoryOnErr c.1)
        × ((whole : S) → S.meets whole a.2 b.2 → S.leaves whole c.2) };

    fn is_leaf(&self, depth: usize) -> bool {
        depth == 0 || self.tops.room() < 2
    }

    fn split(self, alloc: Global) -> Result<(Self, Self, ()), Self::Done> {
        // (asked for the proof: its clause is the one that says how many items come)
        let _len = self.parts.len();
        let blocks = self.tops.room() / 2;
        let (front, back) = match self.parts.split_at(alloc, blocks * self.size) {
            Ok(halves) => halves,
            Err((rest, fault)) => return Err((self.tops, Err(fault), rest)),
        };
        let (front_tops, back_tops) = self.tops.split(blocks);
        let first = Descent {
            parts: front,
            tops: front_tops,
            size: self.size,
            leaf: self.leaf,
            combine: self.combine,
            items: PhantomData,
        };
        let second = Descent {
            parts: back,
            tops: back_tops,
            size: self.size,
            leaf: self.leaf,
            combine: self.combine,
            items: PhantomData,
        };
        Ok((first, second, ()))
    }

    fn run(self, _alloc: Global) -> Self::Done {
        let count = self.parts.len();
        let (size, leaf, combine) = (self.size, self.leaf, self.combine);
        let mut tops = self.tops;
        let mut items = self.parts.into_items();
        descend_in_turn(&mut items, &mut tops, count, size, leaf, combine);
        (tops, Ok(()), items.rest())
    }

    fn join(_seam: (), left: Self::Done, right: Self::Done) -> Self::Done {
        let (front, first, front_rest) = left;
        let (mut back, second, back_rest) = right;
        let rest = S::join(front_rest, back_rest);
        if first.is_ok() && second.is_ok() {
            return (front.join(back), Ok(()), rest);
        }
        back.clear();
        let tops = front.join(back);
        match first {
            Ok(()) => (tops, second, rest),
            Err(fault) => (tops, Err(fault), rest),
        }
    }
}

// One block after another.
fn descend_in_turn<X: Drop, R, C: Cursor<X, R>, T, L: Fn(X) -> T, F: Fn(T, T) -> T>(
    items: &mut C,
    tops: &mut Window<T>,
    count: usize,
    size: usize,
    leaf: &L,
    combine: &F,
)
    requires items { HasItems C.ready C.gives C.may (L.pre leaf.now) count items.old }
    requires accepts { F.IsAlwaysCallable combine.now }
    requires size { IsBlockSize size }
    requires room { IsRoom tops.old }
    requires blocks { AreBlocks size count tops.old.room }
    ensures tops { ComesDown
        (λ xs. HasGiven C.ready C.gives C.may C.leaves items.old xs items.new)
        (L.post leaf.now) (F.post combine.now) size count tops.new.items }
    ensures full { IsFull tops.new }
    ensures places { SamePlaces tops.old tops.new }
{
    let mut left = count;
    while tops.len() < tops.room() {
        let block = left.min(size);
        tops.put(next_top(items, size, block, leaf, combine));
        left -= block;
    }
}
