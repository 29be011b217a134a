//! The root of a Merkle tree: neighbours combined level by level, through any strategy.
//!
//! `root` goes level by level over all threads, and `root_by_blocks` gives each thread subtrees of
//! its own. `root_of_leaves_by_levels` and `root_of_leaves` do so over a source, of whose items a
//! closure makes the leaves.
//!
//! An odd last node goes up unchanged, one leaf is its own root, and no leaf gives None
//! (`MerkleRoot`).
//!
//! `combine` isn't told leaves from nodes, and a root says nothing of how many leaves there were:
//! before membership is checked against it, hash leaves and nodes after different bytes, and
//! publish a digest of the number of leaves and the root, as the crate `merkle_tree` does.
ghost use Rattle.std.specs.Prelude.{IfOk};
ghost use Rattle.parallel_fault.specs.Trouble.{IsMemoryOnErr};
ghost use Rattle.commonware_parallel.specs.Merkle.{MerkleRoot, NextLevel};

mod blocks;
mod descent;
mod law;
mod plain;
mod tops;

use crate::strategy::Strategy;
pub use blocks::{root_by_blocks, root_of_leaves, root_of_leaves_by_levels};
pub use law::root_law;
use parallel_bridge::Pairs;
use parallel_fault::Fault;
use parallel_policy::Place;
pub use plain::plain_root;
use std::alloc::Global;
use std::sync::Wait;
use std::thread::Threads;

/// The root of the leaves (`MerkleRoot`), through a strategy: each level is one map over the
/// neighbours of the level below, which a policy knows by their number.
///
/// # Errors
///
/// `Fault::Memory` alone; the leaves are then gone.
pub fn root<
    Rt: Threads + Wait + Sync,
    P: Place,
    S: Strategy,
    T: Send + Drop,
    F: Fn(T, T) -> T + Send + Sync + Drop,
>(
    rt: &Rt,
    alloc: Global,
    strategy: &S,
    site: P,
    leaves: Vec<T>,
    combine: F,
) -> Result<Option<T>, Fault>
    requires accepts { F.IsAlwaysCallable combine }
    ensures root { IfOk result (MerkleRoot (F.post combine) leaves.items) }
    ensures fault { IsMemoryOnErr result }
{
    let mut level = leaves;
    'levels: while level.len() > 1 {
        level = next_level(rt, alloc, strategy, site, level, &combine)?;
    }
    Ok(level.pop())
}

// The next level: the results for the pairs, and after them an odd last node, for which a map's
// results mostly have a slot to spare.
fn next_level<
    Rt: Threads + Wait + Sync,
    P: Place,
    S: Strategy,
    T: Send + Drop,
    F: Fn(T, T) -> T + Send + Sync,
>(
    rt: &Rt,
    alloc: Global,
    strategy: &S,
    site: P,
    level: Vec<T>,
    combine: &F,
) -> Result<Vec<T>, Fault>
    requires accepts { F.IsAlwaysCallable combine.now }
    ensures next { IfOk result (λ nodes. NextLevel (F.post combine.now)
        level.items nodes.items) }
    ensures fault { IsMemoryOnErr result }
{
    let (pairs, odd) = Pairs::new(level);
    let node = |pair: (T, T)| -> T
        requires { F.IsAlwaysCallable combine.now }
        ensures { F.post combine.entry.now pair.0 pair.1 result }
    {
        let (left, right) = pair;
        combine(left, right)
    };
    let mut nodes = strategy.map_collect_vec(rt, alloc, site, pairs, node)?;
    if let Some(last) = odd {
        nodes.push(last)?;
    }
    Ok(nodes)
}
