//! Where the words of shares lie: each in the middle of 16, on a cache line of its own.
//!
//! Words side by side are eight to a line of 64 bytes, and each exchange then takes the line from
//! the thread that stepped on a neighbour. A processor may fetch lines in pairs, so a share has 128
//! bytes.
ghost use Rattle.std.specs.Prelude.{◌≡◌, ◌<◌, ◌≤◌, length, IfOk};
ghost use Rattle.parallel_shares.specs.Sizes.{shares_of};
ghost use Rattle.parallel_shares.specs.Spaced.{spaced, place_of};
ghost use Rattle.parallel_fault.specs.Trouble.{IsMemoryOnErr};

use super::Shares;
use super::seat::Seat;
use parallel_fault::Fault;
use std::alloc::Global;

impl Shares {
    ghost use Rattle.parallel_shares.specs.Seats.{plan_of, own_share, IsSeatOf};

    /// The place of the word of the share that a seat claims from.
    pub(super) fn own_place(&self, seat: &Seat) -> usize
        requires { IsSeatOf self.now seat.now }
        ensures { result ≡ place_of (own_share self.now seat.now) }
    {
        self.place(self.plan.share_of(seat.index))
    }

    /// The place of a share's word in the table.
    pub(super) fn place(&self, share: usize) -> usize
        requires { share < shares_of (plan_of self.now) }
        ensures { result ≡ place_of share }
    {
        place_of(share)
    }
}

/// The place of a share's word in a table.
pub(super) fn place_of(share: usize) -> usize
    requires { share ≤ 65535 }
    ensures { result ≡ place_of share }
{
    share * 16 + 8
}

/// The words of the table in which these are used.
///
/// # Errors
///
/// `Fault::Memory` if an allocation fails.
pub(super) fn spaced_words(alloc: Global, words: &[u64]) -> Result<Vec<u64>, Fault>
    requires { length words.now ≤ 65535 }
    ensures words { IfOk result (λ all. all.items ≡ spaced words.now) }
    ensures fault { IsMemoryOnErr result }
{
    let mut all = Vec::with_capacity(alloc, words.len() * 16)?;
    for word in words {
        all.extend_from_slice(&[0, 0, 0, 0, 0, 0, 0, 0, *word, 0, 0, 0, 0, 0, 0, 0])?;
    }
    Ok(all)
}
