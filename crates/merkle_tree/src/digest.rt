//! The digests of leaves, of inner nodes and of whole trees.
ghost use Rattle.std.specs.Prelude.{◌≡◌};
ghost use Rattle.merkle_tree.specs.Merkle.{commitment, leaf_digest, node_digest};

use sha2::{Digest as _, Sha256};

/// A node of a tree, or the commitment to one. `==` on digests isn't constant in time: it is for
/// digests that are public, as all of a tree's are, and not for one that is to be kept secret.
pub type Digest = [u8; 32];

/// The digest of a leaf: of the byte 0 and the leaf.
pub fn leaf_digest(leaf: &[u8]) -> Digest
    ensures { result ≡ leaf_digest leaf.now }
{
    let mut hasher = Sha256::new();
    hasher.update(&[0]);
    hasher.update(leaf);
    hasher.finalize()
}

/// The digest of an inner node: of the byte 1 and the two nodes below it, left before right.
pub fn node_digest(left: &Digest, right: &Digest) -> Digest
    ensures { result ≡ node_digest left.now right.now }
{
    let mut hasher = Sha256::new();
    hasher.update(&[1]);
    hasher.update(left);
    hasher.update(right);
    hasher.finalize()
}

/// The commitment to a tree: the digest of the byte 2, the number of its leaves as 8 bytes, the
/// highest first, and its root, of which there is none where there is no leaf.
pub fn commitment_digest(count: usize, root: &Option<Digest>) -> Digest
    ensures { result ≡ commitment count root.now }
{
    let mut hasher = Sha256::new();
    hasher.update(&[2]);
    hasher.update(&count.to_be_bytes());
    if let Some(top) = root {
        hasher.update(top);
    }
    hasher.finalize()
}
