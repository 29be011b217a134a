//! Lengths that count as one.
ghost use Rattle.std.specs.Prelude.{◌≡◌, ◌-◌, ◌^◌, ◌<◌, ◌≤◌};
ghost use Rattle.parallel_policy.specs.Keys.{binary_digits};

/// The number of binary digits of `len`, and 0 for 0.
///
/// Lengths with equally many digits share an entry of the policy, so that entries stay few and a
/// small difference of lengths teaches nothing new.
pub fn len_bucket(len: usize) -> u8
    ensures digits { result ≡ binary_digits len }
    ensures below { len < 2 ^ result }
    ensures least { 0 < len → 2 ^ (result - 1) ≤ len }
    ensures most { result ≤ 64 }
{
    (usize::BITS - len.leading_zeros()) as u8
}
