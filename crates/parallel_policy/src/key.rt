//! By what the policy tells calls apart.
ghost use Rattle.std.specs.Prelude.{◌≡◌};

use crate::bucket::len_bucket;
use crate::site::Site;
use std::hash::{Hash, Hasher};

/// By what a policy tells calls apart: the call site, the number of items and the work that they
/// stand for, each by its binary digits, and the number of threads that the call is planned for.
///
/// Two keys are equal where all of these are, the name of the file by its bytes (`same_key`).
#[derive(Clone, Copy, Debug, PartialEq, Eq)]
pub struct Key {
    file: &'static str,
    line: u32,
    column: u32,
    len_bucket: u8,
    work_bucket: u8,
    parallelism: usize,
}

impl Key {
    ghost use Rattle.parallel_policy.specs.Keys.{key_of};

    /// The key of a call at `site` over `len` items that stand for `work`, planned for
    /// `parallelism` threads.
    pub fn new(site: Site, len: usize, work: usize, parallelism: usize) -> Key
        ensures { result ≡ key_of site len work parallelism }
    {
        Key {
            file: site.file,
            line: site.line,
            column: site.column,
            len_bucket: len_bucket(len),
            work_bucket: len_bucket(work),
            parallelism,
        }
    }
}

/// A key is hashed in one write, of its numbers alone (`key_number`). Keys that differ in nothing
/// but the name of the file have one hash, and `==` tells them apart.
impl Hash for Key {
    ghost use Rattle.std.specs.Hash as fed;
    ghost use Rattle.std.specs.Cmp.Rules.{hashing};
    ghost use Rattle.std.proofs.Common.{rules};
    ghost use Rattle.parallel_policy.specs.Keys.{key_number};

    ghost hash_input = { λ k. fed.u128 (key_number k) };

    ghost respects_eq = { Prim.search (hashing, rules) };

    fn hash<H: Hasher>(&self, state: &mut H) {
        let place = self.line as u128 + self.column as u128 * 0x1_0000_0000;
        let buckets = self.len_bucket as u64 * 0x100 + self.work_bucket as u64;
        let size = self.parallelism as u64 ^ buckets * 0x1_0000_0000_0000;
        state.write_u128(place + size as u128 * 0x1_0000_0000_0000_0000);
    }
}
