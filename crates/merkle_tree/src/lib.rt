//! A Merkle tree over byte strings, by SHA-256: roots, levels, membership proofs and commitments.
//!
//! A leaf is hashed after the byte 0, an inner node after the byte 1. What is published of a tree
//! is its commitment: the digest of the byte 2, of the number of leaves and of the root. So a root
//! alone, by which nobody can tell trees of two and of three leaves apart, is never what a proof is
//! checked against. `commonware_parallel::merkle::root` leaves all of this to its caller: its
//! `combine` isn't told leaves from nodes, and its result says nothing of how many leaves there
//! were.
//!
//! Whoever has the leaves publishes `commitment`, or builds a `Tree`, which has the same one, and
//! hands out a `proof` of each leaf. Whoever has the commitment checks a claim with `is_member`: a
//! leaf, its index, the number of leaves, and a proof. The tree's own claims are accepted. Of a
//! claim that is accepted and isn't true of the tree, `Tree::collision` makes two different inputs
//! with one digest; so nothing is assumed of the hash.
//!
//! What goes through a strategy is refused with `Fault::Memory` alone, and then there is no tree.
#![tactic(auto)]

mod build;
mod collision;
mod digest;
mod proof;
mod tree;

pub use build::{commitment, root};
pub use collision::{Children, Collision, Committed};
pub use digest::{Digest, commitment_digest, leaf_digest, node_digest};
pub use proof::is_member;
pub use tree::Tree;
