//! The top of one block: the node that the leaves of its items come down to.
ghost use Rattle.std.specs.Prelude.{◌<◌, ◌≤◌, ◌∷◌, [], ℕ, suc};
ghost use Rattle.commonware_parallel.specs.MerkleBlocks.{ComesDown, HasGiven, HasItems, IsBlockSize, leaves_below};

use parallel_bridge::Cursor;
use std::marker::PhantomData;

/// The top of the leaves of the next `count` items, in a block of `size`. A node without a partner
/// goes up unchanged. It takes no memory.
// (the blocks of a first level are pairs, and a call for each would take as long as its node)
#[inline(always)]
pub(crate) fn next_top<X: Drop, R, C: Cursor<X, R>, T, L: Fn(X) -> T, F: Fn(T, T) -> T>(
    items: &mut C,
    size: usize,
    count: usize,
    leaf: &L,
    combine: &F,
) -> T
    requires items { HasItems C.ready C.gives C.may (L.pre leaf.now) count items.old }
    requires accepts { F.IsAlwaysCallable combine.now }
    requires size { IsBlockSize size }
    requires some { 0 < count }
    requires within { count ≤ size }
    ensures top { ComesDown
        (λ xs. HasGiven C.ready C.gives C.may C.leaves items.old xs items.new)
        (L.post leaf.now) (F.post combine.now) size count (result ∷ []) }
{
    if count == size && size == 2 {
        return Pair::top(items, leaf, combine);
    }
    top_by_halves(items, size, count, leaf, combine)
}

// The same, by calls for the halves.
fn top_by_halves<X: Drop, R, C: Cursor<X, R>, T, L: Fn(X) -> T, F: Fn(T, T) -> T>(
    items: &mut C,
    size: usize,
    count: usize,
    leaf: &L,
    combine: &F,
) -> T
    requires items { HasItems C.ready C.gives C.may (L.pre leaf.now) count items.old }
    requires accepts { F.IsAlwaysCallable combine.now }
    requires size { IsBlockSize size }
    requires some { 0 < count }
    requires within { count ≤ size }
    ensures top { ComesDown
        (λ xs. HasGiven C.ready C.gives C.may C.leaves items.old xs items.new)
        (L.post leaf.now) (F.post combine.now) size count (result ∷ []) }
{
    if count == size {
        return full_top(items, size, leaf, combine);
    }
    let half = size / 2;
    if count <= half {
        return top_by_halves(items, half, count, leaf, combine);
    }
    let left = full_top(items, half, leaf, combine);
    let right = top_by_halves(items, half, count - half, leaf, combine);
    combine(left, right)
}

// The top of a full block.
fn full_top<X: Drop, R, C: Cursor<X, R>, T, L: Fn(X) -> T, F: Fn(T, T) -> T>(
    items: &mut C,
    size: usize,
    leaf: &L,
    combine: &F,
) -> T
    requires items { HasItems C.ready C.gives C.may (L.pre leaf.now) size items.old }
    requires accepts { F.IsAlwaysCallable combine.now }
    requires size { IsBlockSize size }
    ensures top { ComesDown
        (λ xs. HasGiven C.ready C.gives C.may C.leaves items.old xs items.new)
        (L.post leaf.now) (F.post combine.now) size size (result ∷ []) }
{
    if size == 16 {
        return Sixteen::top(items, leaf, combine);
    }
    if size == 2 {
        return Pair::top(items, leaf, combine);
    }
    if size < 2 {
        return One::top(items, leaf, combine);
    }
    let half = size / 2;
    let left = full_top(items, half, leaf, combine);
    let right = full_top(items, half, leaf, combine);
    combine(left, right)
}

// A full block whose size the compiler knows: it is brought down with no call of its own, since a
// call takes as long as a light node.
trait KnownBlock {
    // How many levels its top is above the leaves.
    ghost levels: { ℕ };

    // The top of the block.
    fn top<X: Drop, R, C: Cursor<X, R>, T, L: Fn(X) -> T, F: Fn(T, T) -> T>(
        items: &mut C,
        leaf: &L,
        combine: &F,
    ) -> T
        requires items { HasItems C.ready C.gives C.may (L.pre leaf.now) (leaves_below levels)
            items.old }
        requires accepts { F.IsAlwaysCallable combine.now }
        ensures top { ComesDown
            (λ xs. HasGiven C.ready C.gives C.may C.leaves items.old xs items.new)
            (L.post leaf.now) (F.post combine.now) (leaves_below levels) (leaves_below levels)
            (result ∷ []) };
}

// One item.
struct One;

// Two blocks side by side.
struct Twice<B> {
    half: PhantomData<B>,
}

type Pair = Twice<One>;

type Sixteen = Twice<Twice<Twice<Pair>>>;

impl KnownBlock for One {
    ghost levels = { 0 };

    #[inline(always)]
    fn top<X: Drop, R, C: Cursor<X, R>, T, L: Fn(X) -> T, F: Fn(T, T) -> T>(
        items: &mut C,
        leaf: &L,
        _combine: &F,
    ) -> T {
        match items.next() {
            Some(item) => leaf(item),
            None => unreachable!(),
        }
    }
}

impl<B: KnownBlock> KnownBlock for Twice<B> {
    ghost levels = { suc B.levels };

    #[inline(always)]
    fn top<X: Drop, R, C: Cursor<X, R>, T, L: Fn(X) -> T, F: Fn(T, T) -> T>(
        items: &mut C,
        leaf: &L,
        combine: &F,
    ) -> T {
        let left = B::top(items, leaf, combine);
        let right = B::top(items, leaf, combine);
        combine(left, right)
    }
}
