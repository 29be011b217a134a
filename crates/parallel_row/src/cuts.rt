//! Where a list is cut into parts that lie one after another.
ghost use Rattle.std.specs.Prelude.{◌≡◌, ◌*◌, ℕ, min};
ghost use Rattle.parallel_row.specs.Cut.{place_in};

use std::ops::Range;

/// Where the parts of a list begin, which are numbered from 0.
pub trait Cuts: Sync {
    ghost place: { Self → ℕ → ℕ };

    /// Where the part of that number begins. The one before it ends there.
    fn place(&self, number: usize) -> usize
        ensures { result ≡ place self.now number };
}

/// The parts are those of ranges without a gap, the first of which begins at 0.
#[derive(Drop)]
pub struct Along<'a> {
    /// The ranges.
    pub ranges: &'a [Range<usize>],
}

impl Cuts for Along<'_> {
    ghost place = { λ s number. place_in 0 s.ranges.now number };

    fn place(&self, number: usize) -> usize {
        let before = number.min(self.ranges.len());
        if before == 0 {
            return 0;
        }
        self.ranges[before - 1].end
    }
}

/// The parts are chunks of `size` items of a list of `len`, the last one maybe shorter.
#[derive(Drop)]
pub struct Even {
    /// How many items a chunk has.
    pub size: usize,
    /// How many items there are.
    pub len: usize,
}

impl Cuts for Even {
    ghost place = { λ s number. min (number * s.size) s.len };

    fn place(&self, number: usize) -> usize {
        number.saturating_mul(self.size).min(self.len)
    }
}
