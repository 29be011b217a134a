//! A hash of a seed, a call site and a length that is the same on every machine and in every run.
ghost use Rattle.std.specs.Prelude.{◌≡◌, ◌<◌};
ghost use Rattle.commonware_parallel.specs.Mixes.{mixed_in, mix_of};

use parallel_policy::Site;

// What the hash stays below, a prime.
const MODULUS: u64 = 2_147_483_647;

// What the hash is multiplied by at each value.
const MULTIPLIER: u64 = 16_807;

/// A hash of a seed, a call site and a length, below 2147483647.
///
/// It is made of the seed, the number of bytes of the file's name, those bytes, the line, the
/// column and the length, in that order (`mix_of`).
pub fn mix(seed: u64, site: Site, len: usize) -> u64
    ensures hash { result ≡ mix_of seed site len }
    ensures below { result < 2147483647 }
{
    let seeded = mixed_in(1, seed);
    let mut hash = mixed_in(seeded, site.file.len() as u64);
    for byte in site.file.as_bytes() {
        hash = mixed_in(hash, u64::from(*byte));
    }
    let lined = mixed_in(hash, u64::from(site.line));
    let placed = mixed_in(lined, u64::from(site.column));
    mixed_in(placed, len as u64)
}

// The hash with one value more.
fn mixed_in(hash: u64, value: u64) -> u64
    requires { hash < 2147483647 }
    ensures hash { result ≡ mixed_in hash value }
    ensures below { result < 2147483647 }
{
    (hash * MULTIPLIER + value % MODULUS + 1) % MODULUS
}
