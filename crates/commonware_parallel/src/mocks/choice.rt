//! The pick that a rule gives.
ghost use Rattle.std.specs.Prelude.{◌≡◌, ◌<◌};
ghost use Rattle.std.specs.Int.NonZero.{non_zero_usize_get};
ghost use Rattle.commonware_parallel.specs.Mixes.{pick_of};

use crate::mocks::hash::mix;
use crate::mocks::rule::Rule;
use parallel_policy::Site;
use std::num::NonZeroUsize;

/// Which pick a rule gives a call of that many options at a site, over that many items, by how many
/// picks are before it (`pick_of`).
pub fn pick(rule: Rule, site: Site, len: usize, options: NonZeroUsize) -> usize
    ensures pick { result ≡ pick_of rule site len (non_zero_usize_get options) }
    ensures below { result < non_zero_usize_get options }
{
    let count = options.get();
    match rule {
        Rule::Serial => 0,
        Rule::Parallel => count - 1,
        Rule::Seeded(seed) => (mix(seed, site, len) % count as u64) as usize,
    }
}
