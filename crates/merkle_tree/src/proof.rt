//! The check of a proof that a leaf stands at an index.
ghost use Rattle.std.specs.Prelude.{◌≡◌, ◌<◌, ◌↔◌, IsTrue, Some};
ghost use Rattle.merkle_tree.specs.Merkle.{Accepts, climb, commitment, has_sibling, joined, leaf_digest, node_digest, one_up};

use crate::digest::{Digest, commitment_digest, leaf_digest, node_digest};

/// Whether a proof shows that the leaf stands at the index of a tree of `count` leaves that has the
/// commitment (`Accepts`). The proof has a step for each level below the root: the node's sibling
/// there, and None where the node is an odd last one, which goes up unchanged.
///
/// Whatever count, index, leaf and proof a stranger hands in: what is accepted is the tree's own
/// leaf at that index and the number of its leaves, or two different inputs with one digest are at
/// hand (`Tree::collision`). Digests are compared with `==`, which isn't constant in time; none of
/// them is a secret here.
pub fn is_member(
    commitment: &Digest,
    count: usize,
    index: usize,
    leaf: &[u8],
    proof: &[Option<Digest>],
) -> bool
    ensures { IsTrue result ↔ Accepts commitment.now count index leaf.now proof.now }
{
    if count <= index {
        return false;
    }
    match climb(count, index, leaf_digest(leaf), proof) {
        Some(root) => commitment_digest(count, &Some(root)) == *commitment,
        None => false,
    }
}

/// Where the steps lead from a node of a level of `count` nodes.
pub(crate) fn climb(
    count: usize,
    index: usize,
    own: Digest,
    steps: &[Option<Digest>],
) -> Option<Digest>
    requires { index < count }
    ensures { result ≡ climb node_digest count index own steps.now }
{
    let mut nodes = count;
    let mut place = index;
    let mut reached = own;
    for step in steps {
        if nodes <= 1 {
            return None;
        }
        reached = one_up(nodes, place, &reached, step)?;
        nodes = nodes.div_ceil(2);
        place /= 2;
    }
    if nodes <= 1 { Some(reached) } else { None }
}

/// The node above one, by a step of a proof, and None where the step doesn't fit.
pub(crate) fn one_up(
    count: usize,
    index: usize,
    own: &Digest,
    step: &Option<Digest>,
) -> Option<Digest>
    requires { index < count }
    ensures { result ≡ one_up node_digest count index own.now step.now }
{
    match (step, has_sibling(count, index)) {
        (Some(sibling), true) => Some(joined(index, own, sibling)),
        (None, false) => Some(*own),
        _ => None,
    }
}

// Whether a node has a sibling: each but an odd last one.
pub(crate) fn has_sibling(count: usize, index: usize) -> bool
    requires { index < count }
    ensures { result ≡ has_sibling count index }
{
    index % 2 == 1 || index + 1 < count
}

// The node above a node and its sibling.
fn joined(index: usize, own: &Digest, sibling: &Digest) -> Digest
    ensures { result ≡ joined node_digest index own.now sibling.now }
{
    if index % 2 == 1 {
        node_digest(sibling, own)
    } else {
        node_digest(own, sibling)
    }
}
