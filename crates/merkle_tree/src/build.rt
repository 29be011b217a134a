//! Roots and levels of trees, through a strategy.
ghost use Rattle.std.specs.Prelude.{◌≡◌, ◌*◌, ◌<◌, IfOk, length};
ghost use Rattle.parallel_fault.specs.Trouble.{IsMemoryOnErr};
ghost use Rattle.merkle_tree.specs.Merkle.{leaf_digest, leaf_digests, merkle_root, next_level, node_at, node_digest, tree_commitment};

use crate::digest::{Digest, commitment_digest, leaf_digest, node_digest};
use commonware_parallel::{Copies, Fault, Indices, Place, Strategy, merkle};
use std::alloc::Global;
use std::sync::Wait;
use std::thread::Threads;

/// The commitment to the tree over the leaves, of which no level is kept, nor a list of their
/// digests. It is what a proof is checked against, and what is published of a tree.
///
/// # Errors
///
/// `Fault::Memory` alone.
pub fn commitment<Rt: Threads + Wait + Sync, P: Place, S: Strategy>(
    rt: &Rt,
    alloc: Global,
    strategy: &S,
    site: P,
    leaves: &[&[u8]],
) -> Result<Digest, Fault>
    ensures commitment { IfOk result
        (λ commitment. commitment ≡ tree_commitment (leaf_digests leaves.now)) }
    ensures fault { IsMemoryOnErr result }
{
    let root = root(rt, alloc, strategy, site, leaves)?;
    Ok(commitment_digest(leaves.len(), &root))
}

/// The root of the leaves; None where there is no leaf. Each leaf is hashed as the block that it is
/// in is brought down (`merkle::root_of_leaves`), so that no list of digests is kept of the leaves.
/// A root says nothing of how many leaves there are: what is published is `commitment`.
///
/// # Errors
///
/// `Fault::Memory` alone.
pub fn root<Rt: Threads + Wait + Sync, P: Place, S: Strategy>(
    rt: &Rt,
    alloc: Global,
    strategy: &S,
    site: P,
    leaves: &[&[u8]],
) -> Result<Option<Digest>, Fault>
    ensures root { IfOk result (λ root. root ≡ merkle_root node_digest (leaf_digests leaves.now)) }
    ensures fault { IsMemoryOnErr result }
{
    let leaf = |leaf: &[u8]| -> Digest
        ensures { result ≡ leaf_digest leaf.now }
    { leaf_digest(leaf) };
    let node = |left: Digest, right: Digest| -> Digest
        ensures { result ≡ node_digest left right }
    { node_digest(&left, &right) };
    let leaves = Copies { slice: leaves };
    merkle::root_of_leaves(rt, alloc, strategy, site, leaves, leaf, node)
}

/// The digests of the leaves, in their order.
///
/// # Errors
///
/// `Fault::Memory` if an allocation fails.
pub(crate) fn leaf_digests<Rt: Threads + Wait + Sync, P: Place, S: Strategy>(
    rt: &Rt,
    alloc: Global,
    strategy: &S,
    site: P,
    leaves: &[&[u8]],
) -> Result<Vec<Digest>, Fault>
    ensures digests { IfOk result (λ digests. digests.items ≡ leaf_digests leaves.now) }
    ensures fault { IsMemoryOnErr result }
{
    let digest = |leaf: &[u8]| -> Digest
        ensures { result ≡ leaf_digest leaf.now }
    { leaf_digest(leaf) };
    strategy.map_collect_vec(rt, alloc, site, Copies { slice: leaves }, digest)
}

/// The next level of a tree, which a policy knows by its length.
///
/// # Errors
///
/// `Fault::Memory` if an allocation fails.
pub(crate) fn next_level<Rt: Threads + Wait + Sync, P: Place, S: Strategy>(
    rt: &Rt,
    alloc: Global,
    strategy: &S,
    site: P,
    below: &[Digest],
) -> Result<Vec<Digest>, Fault>
    ensures next { IfOk result (λ level. level.items ≡ next_level node_digest below.now) }
    ensures fault { IsMemoryOnErr result }
{
    let places = Indices {
        start: 0,
        end: below.len().div_ceil(2),
    };
    let node = |place: usize| -> Digest
        requires { 2 * place < length below.now }
        ensures { result ≡ node_at (next_level node_digest below.entry.now) place }
    { node_above(below, place) };
    strategy.map_collect_vec(rt, alloc, site, places, node)
}

// The node above the two at twice the place; an odd last node is the one above itself.
fn node_above(below: &[Digest], place: usize) -> Digest
    requires { 2 * place < length below.now }
    ensures { result ≡ node_at (next_level node_digest below.now) place }
{
    let left = 2 * place;
    if left + 1 < below.len() {
        node_digest(&below[left], &below[left + 1])
    } else {
        below[left]
    }
}
