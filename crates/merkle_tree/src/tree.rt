//! The levels of a tree, and the proofs that they give.
ghost use Rattle.std.specs.Prelude.{◌≡◌, ℕ, ◌<◌, ◌≤◌, ◌/◌, List, IfNone, IfOk, IfSome, IsTrue, ◌↔◌, Some, length};
ghost use Rattle.parallel_fault.specs.Trouble.{IsMemoryOnErr};
ghost use Rattle.merkle_tree.specs.Collisions.{IsCollision};
ghost use Rattle.merkle_tree.specs.Merkle.{Accepts, IsLeafAt, IsTree, climb, leaf_digest, leaf_digests, level_above, levels_of, lowest, merkle_root, next_level, node_at, node_digest, one_up, tree_commitment};

use crate::build::{leaf_digests, next_level};
use crate::collision::{
    Collision, Committed, colliding_commitments, colliding_leaves, colliding_nodes,
};
use crate::digest::{Digest, commitment_digest, leaf_digest};
use crate::proof::{climb, has_sibling};
use commonware_parallel::{Fault, Place, Strategy};
use std::alloc::Global;
use std::marker::Model;
use std::sync::Wait;
use std::thread::Threads;

/// A tree over leaves, with all its levels. It is seen as the list of the leaves' digests.
#[derive(Debug, Drop)]
pub struct Tree {
    // The leaves' digests first, and each level below its next.
    levels: Vec<Vec<Digest>>,
}

impl Model for Tree {
    ghost Value = { List (List ℕ) };

    ghost view = { λ tree. lowest (levels_of tree.levels.items) };

    ghost invariant = { λ tree. IsTree (levels_of tree.levels.items) };
}

impl Tree {
    /// The tree over the leaves.
    ///
    /// # Errors
    ///
    /// `Fault::Memory` alone.
    pub fn build<Rt: Threads + Wait + Sync, P: Place, S: Strategy>(
        rt: &Rt,
        alloc: Global,
        strategy: &S,
        site: P,
        leaves: &[&[u8]],
    ) -> Result<Tree, Fault>
        ensures tree { IfOk result (λ tree. tree ≡ leaf_digests leaves.now) }
        ensures fault { IsMemoryOnErr result }
    {
        let digests = leaf_digests(rt, alloc, strategy, site, leaves)?;
        Tree::over(rt, alloc, strategy, site, digests)
    }

    /// The tree over leaves whose digests these are. Each level is a map over the places of its
    /// nodes.
    ///
    /// # Errors
    ///
    /// `Fault::Memory` alone.
    pub fn over<Rt: Threads + Wait + Sync, P: Place, S: Strategy>(
        rt: &Rt,
        alloc: Global,
        strategy: &S,
        site: P,
        leaves: Vec<Digest>,
    ) -> Result<Tree, Fault>
        ensures tree { IfOk result (λ tree. tree ≡ leaves.items) }
        ensures fault { IsMemoryOnErr result }
    {
        let mut levels = Vec::new(alloc);
        let mut level = leaves;
        'levels: while level.len() > 1 {
            let next = next_level(rt, alloc, strategy, site, &level)?;
            levels.push(level)?;
            level = next;
        }
        levels.push(level)?;
        Ok(Tree { levels })
    }

    /// How many leaves the tree has.
    pub fn leaf_count(&self) -> usize
        ensures { result ≡ length self.now }
    {
        self.levels[0].len()
    }

    /// Whether the leaf is the tree's at the index, by its digest.
    pub fn has_leaf(&self, index: usize, leaf: &[u8]) -> bool
        ensures { IsTrue result
            ↔ ((index < length self.now) × (leaf_digest leaf.now ≡ node_at self.now index)) }
    {
        is_at(lowest_of(&self.levels), index, &leaf_digest(leaf))
    }

    /// The tree's commitment, to the number of its leaves and to its root: what is published of it,
    /// and what a proof is checked against.
    pub fn commitment(&self) -> Digest
        ensures { result ≡ tree_commitment self.now }
    {
        commitment_digest(self.leaf_count(), &self.root())
    }

    /// The tree's root, and None where it has no leaf. It says nothing of how many leaves there
    /// are, so it isn't what is published.
    pub fn root(&self) -> Option<Digest>
        ensures { result ≡ merkle_root node_digest self.now }
    {
        top_of(&self.levels)
    }

    /// A proof that the leaf at the index stands there: the node's sibling on each level below the
    /// root, from the leaf up, and None where the node is an odd last one.
    ///
    /// # Errors
    ///
    /// `Fault::Memory` alone.
    pub fn proof(&self, alloc: Global, index: usize) -> Result<Vec<Option<Digest>>, Fault>
        requires { index < length self.now }
        ensures accepted { IfOk result (λ proof. (leaf : List ℕ)
            → leaf_digest leaf ≡ node_at self.now index
            → Accepts (tree_commitment self.now) (length self.now) index leaf proof.items) }
        ensures fault { IsMemoryOnErr result }
    {
        proof_in(alloc, &self.levels, index)
    }

    /// Two different inputs with one digest, where a claim is accepted against the tree's
    /// commitment and isn't true of the tree. The claim is that the leaf stands at the index of
    /// `count` leaves, and `own` is the tree's leaf there, where the caller has it. None where the
    /// claim isn't accepted, and where it is true: the tree has that many leaves, and the leaf at
    /// the index, by its digest and, with `own`, by its bytes (`IsLeafAt`). So whoever gets any
    /// other claim accepted has found a collision of the hash.
    pub fn collision<'a>(
        &self,
        count: usize,
        index: usize,
        leaf: &'a [u8],
        proof: &[Option<Digest>],
        own: Option<&'a [u8]>,
    ) -> Option<Collision<'a>>
        ensures collision { IfSome result IsCollision }
        ensures found { Accepts (tree_commitment self.now) count index leaf.now proof.now
            → IfNone result ((count ≡ length self.now)
            × IsLeafAt self.now index own.entry leaf.now) }
    {
        if count <= index {
            return None;
        }
        let root = Some(climb(count, index, leaf_digest(leaf), proof)?);
        let tree = Committed {
            count: self.leaf_count(),
            root: self.root(),
        };
        if count != tree.count || root != tree.root {
            return colliding_commitments(tree, Committed { count, root });
        }
        if self.has_leaf(index, leaf) {
            return colliding_leaves(own?, leaf);
        }
        let (first, second) = colliding_nodes(&self.levels, index, leaf_digest(leaf), proof)?;
        Some(Collision::Nodes(first, second))
    }
}

// The root of the tree whose levels these are.
fn top_of(levels: &[Vec<Digest>]) -> Option<Digest>
    requires { IsTree (levels_of levels.now) }
    ensures { result ≡ merkle_root node_digest (lowest (levels_of levels.now)) }
{
    levels[levels.len() - 1].first().copied()
}

// The steps from a leaf of the tree, whose levels these are, to the root.
fn proof_in(
    alloc: Global,
    levels: &[Vec<Digest>],
    index: usize,
) -> Result<Vec<Option<Digest>>, Fault>
    requires tree { IsTree (levels_of levels.now) }
    requires inside { index < length (lowest (levels_of levels.now)) }
    ensures leads { IfOk result (λ proof. let leaves = lowest (levels_of levels.now) in
        climb node_digest (length leaves) index (node_at leaves index) proof.items
        ≡ merkle_root node_digest leaves) }
    ensures fault { IsMemoryOnErr result }
{
    let mut proof = Vec::new(alloc);
    let mut place = index;
    for number in 0..levels.len() - 1 {
        proof.push(sibling(&levels[number], place))?;
        place /= 2;
    }
    Ok(proof)
}

// The lowest of the levels.
fn lowest_of(levels: &[Vec<Digest>]) -> &[Digest]
    requires { 1 ≤ length levels.now }
    ensures { result.now ≡ lowest (levels_of levels.now) }
{
    levels[0].as_slice()
}

// Whether a level has the node at the index.
fn is_at(level: &[Digest], index: usize, node: &Digest) -> bool
    ensures { IsTrue result ↔ ((index < length level.now) × (node.now ≡ node_at level.now index)) }
{
    if level.len() <= index {
        return false;
    }
    *node == level[index]
}

/// One of the levels of a tree.
pub(crate) fn level_at(levels: &[Vec<Digest>], number: usize) -> &[Digest]
    requires tree { IsTree (levels_of levels.now) }
    requires there { number < length levels.now }
    ensures { result.now ≡ level_above node_digest number (lowest (levels_of levels.now)) }
{
    levels[number].as_slice()
}

/// The sibling of a node, and None where the node is an odd last one.
pub(crate) fn sibling(level: &[Digest], index: usize) -> Option<Digest>
    requires { index < length level.now }
    ensures { one_up node_digest (length level.now) index (node_at level.now index) result
        ≡ Some (node_at (next_level node_digest level.now) (index / 2)) }
{
    if !has_sibling(level.len(), index) {
        None
    } else if index % 2 == 1 {
        Some(level[index - 1])
    } else {
        Some(level[index + 1])
    }
}
