//! What a false claim that is accepted gives: two different inputs with one digest.
ghost use Rattle.std.specs.Prelude.{◌≡◌, ◌≢◌, ℕ, ◌<◌, List, IfNone, IfSome, IsSomeAnd, MatchOption, Some, length};
ghost use Rattle.merkle_tree.specs.Collisions.{IsCollision, NodesCollide, children_of};
ghost use Rattle.merkle_tree.specs.Merkle.{IsTree, climb, commitment, committed_bytes, leaf_digest, levels_of, lowest, merkle_root, node_at, node_digest, one_up};

use crate::digest::{Digest, commitment_digest, leaf_digest};
use crate::proof::one_up;
use crate::tree::{level_at, sibling};

/// The two nodes below an inner node.
#[derive(Clone, Copy, Debug, PartialEq, Eq)]
pub struct Children {
    /// The left one.
    pub left: Digest,
    /// The right one.
    pub right: Digest,
}

/// What a commitment is to: a number of leaves and a root.
#[derive(Clone, Copy, Debug, PartialEq, Eq)]
pub struct Committed {
    /// The number of leaves.
    pub count: usize,
    /// The root, and None where there is no leaf.
    pub root: Option<Digest>,
}

/// Two different inputs with one digest.
#[derive(Clone, Copy, Debug, PartialEq, Eq)]
pub enum Collision<'a> {
    /// Two leaves.
    Leaves(&'a [u8], &'a [u8]),
    /// The nodes below an inner node, and the nodes below another.
    Nodes(Children, Children),
    /// A tree's number of leaves and its root, and others with the same commitment.
    Commitments(Committed, Committed),
}

// Two leaves that collide, where they differ and have one digest.
pub(crate) fn colliding_leaves<'a>(own: &'a [u8], leaf: &'a [u8]) -> Option<Collision<'a>>
    ensures collision { IfSome result IsCollision }
    ensures found { leaf_digest leaf.now ≡ leaf_digest own.now
        → IfNone result (leaf.now ≡ own.now) }
{
    if own != leaf && leaf_digest(own) == leaf_digest(leaf) {
        Some(Collision::Leaves(own, leaf))
    } else {
        None
    }
}

// Two trees' commitments that collide, where what is hashed of the trees differs.
pub(crate) fn colliding_commitments<'a>(own: Committed, other: Committed) -> Option<Collision<'a>>
    requires { committed_bytes own.count own.root ≢ committed_bytes other.count other.root }
    ensures collision { IfSome result IsCollision }
    ensures found { IfNone result
        (commitment other.count other.root ≢ commitment own.count own.root) }
{
    let digest = commitment_digest(own.count, &own.root);
    if digest == commitment_digest(other.count, &other.root) {
        Some(Collision::Commitments(own, other))
    } else {
        None
    }
}

// Two pairs of nodes that collide, where the steps lead from another node than the tree has at the
// index to the tree's root.
pub(crate) fn colliding_nodes(
    levels: &[Vec<Digest>],
    index: usize,
    digest: Digest,
    proof: &[Option<Digest>],
) -> Option<(Children, Children)>
    requires tree { IsTree (levels_of levels.now) }
    requires inside { index < length (lowest (levels_of levels.now)) }
    requires other { digest ≢ node_at (lowest (levels_of levels.now)) index }
    ensures { let leaves = lowest (levels_of levels.now) in MatchOption result
        (climb node_digest (length leaves) index digest proof.now ≢ merkle_root node_digest leaves)
        (λ two. NodesCollide two.0 two.1) }
{
    let mut place = index;
    let mut reached = digest;
    for number in 0..levels.len() - 1 {
        if proof.len() <= number {
            return None;
        }
        let level = level_at(levels, number);
        let next = level_at(levels, number + 1);
        let above = one_up(level.len(), place, &reached, &proof[number])?;
        if above == next[place / 2] {
            let own = sibling(level, place);
            return pairs(place, &reached, &proof[number], &level[place], &own);
        }
        reached = above;
        place /= 2;
    }
    None
}

// The children of the inner node above one node and above another, by steps that lead from both to
// one digest.
fn pairs(
    index: usize,
    one: &Digest,
    one_step: &Option<Digest>,
    other: &Digest,
    other_step: &Option<Digest>,
) -> Option<(Children, Children)>
    requires different { one.now ≢ other.now }
    requires meet { (count : ℕ) × (above : List ℕ)
        × (one_up node_digest count index one.now one_step.now ≡ Some above)
        × (one_up node_digest count index other.now other_step.now ≡ Some above) }
    ensures { IsSomeAnd result (λ two. NodesCollide two.0 two.1) }
{
    match (one_step, other_step) {
        (Some(first), Some(second)) => {
            Some((in_order(index, one, first), in_order(index, other, second)))
        }
        _ => None,
    }
}

// A node at an index and its sibling.
fn in_order(index: usize, own: &Digest, sibling: &Digest) -> Children
    ensures { result ≡ children_of index own.now sibling.now }
{
    if index % 2 == 1 {
        Children {
            left: *sibling,
            right: *own,
        }
    } else {
        Children {
            left: *own,
            right: *sibling,
        }
    }
}
