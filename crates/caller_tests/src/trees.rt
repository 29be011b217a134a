//! The Merkle tree over SHA-256 of `merkle_tree`. Its roots and commitments were computed by
//! another program, from what the digest of a leaf, of a node and of a whole tree is said to be.
use crate::checks::{Of, row};
use commonware_parallel::{Fault, Sequential, Strategy};
use merkle_tree::{
    Digest, Tree, commitment, commitment_digest, is_member, leaf_digest, node_digest, root,
};
use std::alloc::Global;
use std::process::Abort;
use std::sync::Wait;
use std::thread::Threads;
use test_strategies::{SITE, pool};
use test_support::holds;

// The leaves of the greatest tree. A smaller one has the first of them.
fn all_leaves() -> [&'static [u8]; 9] {
    [
        b"",
        b"a",
        b"ab",
        b"abc",
        b"abcd",
        b"abcde",
        b"abcdef",
        b"abcdefg",
        b"abcdefgh",
    ]
}

// The root of that many leaves, the first ones, in hexadecimal digits.
fn known_root(count: usize) -> &'static str {
    match count {
        1 => "6e340b9cffb37a989ca544e6bb780a2c78901d3fb33738768511a30617afa01d",
        2 => "688dc6244b041199e7ab4990df6340ce3dc14caa5cd5a0e1131addaa1209e1a6",
        3 => "383e04b3c7a704f3c74bf0bdd1e1bc1b645cc4cd3a65623f3bd7ae331aea6a31",
        4 => "8f81aec6982163362cc8ce0c08da70bfbaa97b5b6e54817a88c7f632089f0784",
        5 => "eed92cb74de86bbba60dd0be941565d235d373ee576bc9033f0b0846d91b663b",
        7 => "064e85ca5dfb6c2571523dc2f66965d4f259726eea488d00975eec3ae155cbc0",
        8 => "c73c83f393c6b07b1f589d42afc6e706b80f93b7abfe8ebfbbb7c17f414b2f7e",
        9 => "00478de74de95bb18f261546f440b8ca2d0904f22d3bc5fed1ff536383039242",
        _ => "",
    }
}

// The commitment to the tree of that many leaves, the first ones, in hexadecimal digits: in Python,
// hashlib.sha256(bytes([2]) + count.to_bytes(8, "big") + root).hexdigest(), where root is the 32
// bytes of the root, and empty where there is no leaf.
fn known_commitment(count: usize) -> &'static str {
    match count {
        0 => "4322fd2bc0a137d1375b37b3b2e2b4715b3d3dd7ca9682438d4fea0f8437fad3",
        1 => "5cc26cdeaf1949b023361937a0119ed5d1f0cd9fba7d5577f2da20280f29cc64",
        2 => "673ff2bef585b2f447f7c4642f64deada26f25f67853698f4e3701e9aab57f9b",
        3 => "220e38d7a8caf2470ca69b423d33e0e30e4e8a4c80fb3335e545aa2419eea7d2",
        4 => "1821c544557775aafc39f671057e8a6db15047c80e55247a9c13ca82fb3d955a",
        5 => "40369431aa795b32ca5ea1babff00e461345b6fb129907113e6d74060f8eaf14",
        7 => "a3feb799934007d70b184d47946a98922a73fe65c63db5d874e5c1b87daedf2d",
        8 => "f7415e6f77fca04d021c96734e4b5287f4cf310ffc8edf94e615cb1e62c17a6b",
        9 => "57f4d995cab8bd8321e366a302ce3387959abfacd98b546ca4f563d89e84b76f",
        _ => "",
    }
}

// Whether a digest is written so.
fn is_written(digest: &Digest, text: &str) -> bool {
    let mut digits = text.chars();
    for byte in digest {
        let (Some(high), Some(low)) = (digits.next(), digits.next()) else {
            return false;
        };
        let (Some(high), Some(low)) = (high.to_digit(16), low.to_digit(16)) else {
            return false;
        };
        if u32::from(*byte) != high.wrapping_mul(16).wrapping_add(low) {
            return false;
        }
    }
    digits.next().is_none()
}

// Whether the root and the commitment of the leaves are those that are known, also by the tree with
// all its levels.
fn is_known<Rt: Threads + Wait + Sync, S: Strategy>(
    rt: &Rt,
    alloc: Global,
    strategy: &S,
    leaves: &[&[u8]],
) -> Result<bool, Fault> {
    let own = root(rt, alloc, strategy, SITE, leaves)?;
    let committed = commitment(rt, alloc, strategy, SITE, leaves)?;
    let tree = Tree::build(rt, alloc, strategy, SITE, leaves)?;
    let is_one = own == tree.root() && committed == tree.commitment();
    let is_root = match own {
        Some(digest) => is_written(&digest, known_root(leaves.len())),
        None => leaves.is_empty(),
    };
    let is_committed = is_written(&committed, known_commitment(leaves.len()));
    Ok(is_one && is_root && is_committed && tree.leaf_count() == leaves.len())
}

#[test]
fn roots_are_those_of_another_program(rt: HostRuntime) {
    let alloc = rt.alloc();
    let leaves = all_leaves();
    let four = pool(&rt, alloc, 4, 4).expect(&rt, "a pool");
    for count in [0usize, 1, 2, 3, 4, 5, 7, 8, 9] {
        let first = leaves.get(..count).expect(&rt, "as many leaves");
        let found = is_known(&rt, alloc, &Sequential, first);
        row(&rt, ("SHA-256", "Sequential", count), found, Ok(true));
        let found = is_known(&rt, alloc, &four, first);
        row(&rt, ("SHA-256", "a pool", count), found, Ok(true));
    }
}

// With how many of its steps taken away, or put in where there was none, the proof is accepted.
fn other_steps(
    alloc: Global,
    commitment: &Digest,
    (count, at): (usize, usize),
    leaf: &[u8],
    proof: &[Option<Digest>],
) -> Result<u64, Fault> {
    let mut accepted = 0u64;
    for place in 0..proof.len() {
        let mut forged = Vec::from_slice(alloc, proof)?;
        if let Some(step) = forged.get_mut(place) {
            *step = if step.is_some() {
                None
            } else {
                Some(*commitment)
            };
        }
        let is_accepted = is_member(commitment, count, at, leaf, &forged);
        accepted = accepted.saturating_add(u64::from(is_accepted));
    }
    Ok(accepted)
}

// Whether a claim is accepted of another leaf, or with the tree's root in place of its commitment,
// and whether two inputs with one digest come of it.
fn is_deceived(tree: &Tree, at: usize, leaf: &[u8], proof: &[Option<Digest>]) -> bool {
    let (count, commitment) = (tree.leaf_count(), tree.commitment());
    let root = tree.root().unwrap_or(commitment);
    is_member(&root, count, at, leaf, proof)
        || is_member(&commitment, count, at, b"another", proof)
        || tree.has_leaf(at, b"another")
        || tree
            .collision(count, at, b"another", proof, Some(leaf))
            .is_some()
        || tree.collision(count, at, leaf, proof, Some(leaf)).is_some()
}

// For how many numbers of leaves below 12 and how many places below 12 the proof is accepted.
fn places(commitment: &Digest, leaf: &[u8], proof: &[Option<Digest>]) -> u64 {
    let mut accepted = 0u64;
    for both in 0..144usize {
        let is_accepted = is_member(commitment, both / 12, both % 12, leaf, proof);
        accepted = accepted.saturating_add(u64::from(is_accepted));
    }
    accepted
}

// Each leaf's proof is accepted for it alone, and no two inputs with one digest come of it.
fn proofs_hold(rt: &impl Abort, alloc: Global, tree: &Tree, leaves: &[&[u8]]) {
    let (commitment, count) = (tree.commitment(), tree.leaf_count());
    for at in 0..count {
        let of: Of = ("proof", "leaf", at);
        let leaf = *leaves.get(at).expect(rt, "its leaf");
        let proof = tree.proof(alloc, at).expect(rt, "memory");
        let is_accepted = is_member(&commitment, count, at, leaf, &proof);
        row(rt, of, is_accepted && tree.has_leaf(at, leaf), true);
        row(rt, of, places(&commitment, leaf, &proof), 1);
        let others = other_steps(alloc, &commitment, (count, at), leaf, &proof);
        row(rt, of, others, Ok(0));
        row(rt, of, is_deceived(tree, at, leaf, &proof), false);
    }
}

#[test]
fn a_proof_is_accepted_for_its_leaf_alone(rt: HostRuntime) {
    let alloc = rt.alloc();
    let leaves = all_leaves();
    for count in 1..10usize {
        let first = leaves.get(..count).expect(&rt, "as many leaves");
        let tree = Tree::build(&rt, alloc, &Sequential, SITE, first).expect(&rt, "memory");
        proofs_hold(&rt, alloc, &tree, first);
    }
}

// The tree of three leaves has the same root as one of two, of which the left one's digest would be
// that of the two first leaves' node.
#[test]
fn another_number_of_leaves_is_refused(rt: HostRuntime) {
    let alloc = rt.alloc();
    let leaves: [&[u8]; 3] = [b"a", b"b", b"c"];
    let tree = Tree::build(&rt, alloc, &Sequential, SITE, &leaves).expect(&rt, "memory");
    let commitment = tree.commitment();
    let pair = Some(node_digest(&leaf_digest(b"a"), &leaf_digest(b"b")));
    let of_two = commitment_digest(2, &tree.root());
    let honest = [None, pair];
    holds!(&rt, is_member(&commitment, 3, 2, b"c", &honest));
    holds!(&rt, is_member(&of_two, 2, 1, b"c", &[pair]));
    holds!(&rt, !is_member(&commitment, 2, 1, b"c", &[pair]));
    holds!(&rt, tree.collision(2, 1, b"c", &[pair], None).is_none());
}
