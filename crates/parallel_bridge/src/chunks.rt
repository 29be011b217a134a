//! A slice in neighbouring chunks of one length.
ghost use Rattle.std.specs.Prelude.{◌≡◌, ◌*◌, ◌<◌, length, map, min};
ghost use Rattle.std.specs.Int.{div_ceil};
ghost use Rattle.std.specs.Int.NonZero.{non_zero_usize_get};
ghost use Rattle.std.specs.List.{Contains};
ghost use Rattle.parallel_bridge.specs.Chunks.{chunks_of};

use crate::producer::Producer;
use parallel_fault::Fault;
use std::alloc::Global;
use std::num::NonZeroUsize;

/// A slice in neighbouring chunks of `size` items, in order: what comes are the chunks, as by
/// `slice::chunks`. The last one has what is left, which may be fewer items. An empty slice has no
/// chunks.
#[derive(Clone, Copy, Debug)]
pub struct Chunks<'a, T> {
    /// The items.
    pub slice: &'a [T],
    /// How many items a chunk has, but for the last one.
    pub size: NonZeroUsize,
}

impl<'a, T: Sync> Producer for Chunks<'a, T> {
    type Item = &'a [T];

    type Iter = std::slice::Chunks<'a, T>;

    ghost gives = { λ s xs. map (λ x. x.now) xs
        ≡ chunks_of (non_zero_usize_get s.size) s.slice.now };

    ghost may = { λ s x. Contains (chunks_of (non_zero_usize_get s.size) s.slice.now) x.now };

    ghost count = { λ s. div_ceil (length s.slice.now) (non_zero_usize_get s.size) };

    fn len(&self) -> usize {
        self.slice.len().div_ceil(self.size.get())
    }

    #[tactic(auto, using(crate::proofs::Pieces::chunks_joined, crate::proofs::Pieces::front_long))]
    fn split_at(self, _alloc: Global, index: usize) -> Result<(Self, Self), Fault> {
        let size = self.size;
        let middle = middle_of(self.slice.len(), size, index);
        let front = Chunks {
            slice: &self.slice[..middle],
            size,
        };
        let back = Chunks {
            slice: &self.slice[middle..],
            size,
        };
        Ok((front, back))
    }

    fn into_front(self, index: usize) -> Self {
        let size = self.size;
        let middle = middle_of(self.slice.len(), size, index);
        Chunks {
            slice: &self.slice[..middle],
            size,
        }
    }

    fn into_items(self) -> std::slice::Chunks<'a, T> {
        let size = self.size.get();
        self.slice.chunks(size)
    }
}

// Where a list of that many items is cut after that many whole chunks, or at its end.
fn middle_of(len: usize, size: NonZeroUsize, index: usize) -> usize
    ensures cut { result ≡ min (index * non_zero_usize_get size) len }
    ensures some { 0 < non_zero_usize_get size }
{
    index.saturating_mul(size.get()).min(len)
}
