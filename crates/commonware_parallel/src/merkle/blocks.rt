//! The root of a tree by blocks of its leaves, which need nothing of one another.
ghost use Rattle.std.specs.Prelude.{◌≡◌, IfOk};
ghost use Rattle.parallel_bridge.specs.Sources.{GivesSome};
ghost use Rattle.parallel_fault.specs.Trouble.{IsMemoryOnErr};
ghost use Rattle.commonware_parallel.specs.Merkle.{MerkleRoot, RootOf};
ghost use Rattle.commonware_parallel.specs.MerkleBlocks.{IsBlockSize};

use crate::call::Call;
use crate::chosen::{begin_path, threads_by};
use crate::merkle::descent::{block_size, descend};
use crate::merkle::plain::plain_root_of;
use crate::merkle::{plain_root, root};
use crate::running::end_run;
use crate::strategy::Strategy;
use parallel_bridge::{DrainProducer, Parts, Source};
use parallel_fault::Fault;
use parallel_policy::Place;
use std::alloc::Global;
use std::sync::Wait;
use std::thread::Threads;

// Tops that are so few beside the leaves are combined on the caller's thread: that is at most a
// 64th of what each thread did for the leaves, and less than threads that are started for it.
const FEW: usize = 128;

// The block of a first level.
const PAIR: usize = 2;

/// The root of the leaves (`MerkleRoot`), through a strategy: it is the root that
/// `merkle::root` gives, for any `combine`.
///
/// The leaves are cut into blocks of a power of two, of which each thread has eight or up to twice
/// as many. One call brings each block down to its top, which a policy knows by about the number of
/// leaves; the tops are then combined level by level, as by `merkle::root`, or on the caller's
/// thread where a block has 128 leaves for each thread. Fewer than 16 leaves a thread are no
/// blocks, and go by levels alone. There is memory for the tops, and none for a level
/// of the leaves.
///
/// ```text
/// let root = root_by_blocks(rt, alloc, strategy, SITE, digests, |left, right| node(left, right))?;
/// ```
///
/// # Errors
///
/// `Fault::Memory` alone; the leaves are then gone.
pub fn root_by_blocks<
    Rt: Threads + Wait + Sync,
    P: Place,
    S: Strategy,
    T: Send + Drop,
    F: Fn(T, T) -> T + Send + Sync + Drop,
>(
    rt: &Rt,
    alloc: Global,
    strategy: &S,
    site: P,
    leaves: Vec<T>,
    combine: F,
) -> Result<Option<T>, Fault>
    requires accepts { F.IsAlwaysCallable combine }
    ensures root { IfOk result (MerkleRoot (F.post combine) leaves.items) }
    ensures fault { IsMemoryOnErr result }
{
    let size = block_size(leaves.len(), strategy.thread_number());
    if size < 2 {
        return root(rt, alloc, strategy, site, leaves, combine);
    }
    let same = |leaf: T| -> T
        ensures { result ≡ leaf }
    { leaf };
    let parts = DrainProducer::from_vec(leaves);
    root_of_parts(rt, alloc, strategy, site, size, parts, &same, combine)
}

/// The root of the leaves that `leaf` makes of the items (`RootOf`), through a strategy, by blocks
/// as `root_by_blocks`.
///
/// Each thread makes its leaves as it brings them down: nothing is copied of a list that is one
/// already, and there is memory for the tops, and none for the leaves. An iterator's items are
/// gathered where the strategy has to be asked by their number. Fewer than 16 items a thread are
/// blocks of one leaf each. A strategy that runs every such call serially isn't asked: the items
/// are then gone over as they come, and there is memory for the nodes of their leaves' pairs.
///
/// `root_law` says when leaves have one root.
///
/// ```text
/// let root = root_of_leaves(
///     rt,
///     alloc,
///     strategy,
///     SITE,
///     texts.as_slice(),
///     |text: &Vec<u8>| digest(text),
///     |left, right| node(left, right),
/// )?;
/// ```
///
/// # Errors
///
/// `Fault::Memory` alone; the items are then gone.
pub fn root_of_leaves<
    Rt: Threads + Wait + Sync,
    P: Place,
    S: Strategy,
    M,
    I: Source<M>,
    T: Send + Drop,
    L: Fn(I::Item) -> T + Send + Sync + Drop,
    F: Fn(T, T) -> T + Send + Sync + Drop,
>(
    rt: &Rt,
    alloc: Global,
    strategy: &S,
    site: P,
    source: I,
    leaf: L,
    combine: F,
) -> Result<Option<T>, Fault>
    requires can { I.can source }
    requires leaf_accepts { (x : I.Item) → I.may source x → L.pre leaf x }
    requires accepts { F.IsAlwaysCallable combine }
    ensures root { IfOk result (λ root. GivesSome I.gives source (λ xs. RootOf (L.post leaf)
        (F.post combine) xs root)) }
    ensures fault { IsMemoryOnErr result }
{
    if strategy.is_serial() {
        return plain_root_of(alloc, source.into_items(), &leaf, &combine);
    }
    let parts = source.into_parts(alloc)?;
    let size = block_size(parts.len(), strategy.thread_number());
    root_of_parts(rt, alloc, strategy, site, size, parts, &leaf, combine)
}

/// The root of the leaves that `leaf` makes of the items (`RootOf`), through a strategy, by levels
/// as `merkle::root`.
///
/// The first level is one call that makes the leaves of each pair of items and combines them, and
/// which a policy knows by about the number of leaves. So nothing is copied of a list that is one
/// already, and there is memory for the levels above the leaves, and none for the leaves. Each
/// further level is one map over pairs, as of `merkle::root`. Of an iterator's items, and of a
/// strategy that runs every such call serially, the same holds as of `root_of_leaves`.
///
/// # Errors
///
/// `Fault::Memory` alone; the items are then gone.
pub fn root_of_leaves_by_levels<
    Rt: Threads + Wait + Sync,
    P: Place,
    S: Strategy,
    M,
    I: Source<M>,
    T: Send + Drop,
    L: Fn(I::Item) -> T + Send + Sync + Drop,
    F: Fn(T, T) -> T + Send + Sync + Drop,
>(
    rt: &Rt,
    alloc: Global,
    strategy: &S,
    site: P,
    source: I,
    leaf: L,
    combine: F,
) -> Result<Option<T>, Fault>
    requires can { I.can source }
    requires leaf_accepts { (x : I.Item) → I.may source x → L.pre leaf x }
    requires accepts { F.IsAlwaysCallable combine }
    ensures root { IfOk result (λ root. GivesSome I.gives source (λ xs. RootOf (L.post leaf)
        (F.post combine) xs root)) }
    ensures fault { IsMemoryOnErr result }
{
    if strategy.is_serial() {
        return plain_root_of(alloc, source.into_items(), &leaf, &combine);
    }
    let parts = source.into_parts(alloc)?;
    root_of_parts(rt, alloc, strategy, site, PAIR, parts, &leaf, combine)
}

// The root of the items' leaves by blocks of `size`: the tops of the blocks, by the path that the
// strategy takes for as many, each of which stands for the work of its leaves; then their root,
// through the strategy or on the caller's thread.
fn root_of_parts<
    Rt: Threads + Wait + Sync,
    P: Place,
    S: Strategy,
    Q: Parts,
    T: Send + Drop,
    L: Fn(Q::Item) -> T + Send + Sync,
    F: Fn(T, T) -> T + Send + Sync + Drop,
>(
    rt: &Rt,
    alloc: Global,
    strategy: &S,
    site: P,
    size: usize,
    parts: Q,
    leaf: &L,
    combine: F,
) -> Result<Option<T>, Fault>
    requires leaf_accepts { (x : Q.Item) → Q.may parts x → L.pre leaf.now x }
    requires accepts { F.IsAlwaysCallable combine }
    requires size { IsBlockSize size }
    ensures root { IfOk result (λ root. GivesSome Q.gives parts (λ xs. RootOf (L.post leaf.now)
        (F.post combine) xs root)) }
    ensures fault { IsMemoryOnErr result }
{
    let call = Call::body_with_multiplier(parts.len().div_ceil(size), size);
    let (path, running) = begin_path(strategy, rt, alloc, site, call)?;
    let threads = threads_by(strategy, path);
    let tops = descend(rt, alloc, threads, size, parts, leaf, &combine);
    end_run(strategy, rt, running, tops.is_ok());
    let tops = tops?;
    if size / FEW >= strategy.thread_number().get() {
        return plain_root(alloc, tops, &combine);
    }
    root(rt, alloc, strategy, site, tops, combine)
}
