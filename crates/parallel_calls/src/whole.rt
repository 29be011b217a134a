//! The numbers that are added up and multiplied.
ghost use Rattle.std.specs.Prelude.{◌≡◌, ℕ, ◌+◌, ◌*◌, ◌%◌, ◌^◌, ◌≤◌, MatchOption};

/// A whole number below 2 to the power of 64.
pub trait Whole: Copy + Send + Sync + Drop {
    /// Which one it is.
    ghost value: { Self → ℕ };

    /// Nothing.
    fn zero() -> Self
        ensures { value result ≡ 0 };

    /// One.
    fn one() -> Self
        ensures { value result ≡ 1 };

    /// The sum, which wraps around.
    fn plus(self, other: Self) -> Self
        ensures { value result ≡ (value self + value other) % 2 ^ 64 };

    /// The product, which wraps around.
    fn times(self, other: Self) -> Self
        ensures { value result ≡ (value self * value other) % 2 ^ 64 };

    /// The sum, where it fits.
    fn plus_if_fits(self, other: Self) -> Option<Self>
        ensures { MatchOption result (2 ^ 64 ≤ value self + value other)
            (λ sum. value sum ≡ value self + value other) };
}

impl Whole for u64 {
    ghost value = { λ x. x };

    fn zero() -> u64 {
        0
    }

    fn one() -> u64 {
        1
    }

    fn plus(self, other: u64) -> u64 {
        self.wrapping_add(other)
    }

    fn times(self, other: u64) -> u64 {
        self.wrapping_mul(other)
    }

    fn plus_if_fits(self, other: u64) -> Option<u64> {
        self.checked_add(other)
    }
}

impl Whole for usize {
    ghost value = { λ x. x };

    fn zero() -> usize {
        0
    }

    fn one() -> usize {
        1
    }

    fn plus(self, other: usize) -> usize {
        self.wrapping_add(other)
    }

    fn times(self, other: usize) -> usize {
        self.wrapping_mul(other)
    }

    fn plus_if_fits(self, other: usize) -> Option<usize> {
        self.checked_add(other)
    }
}
