//! Lists of small random numbers, among which many are the same.
use commonware_parallel::Fault;
use std::alloc::Global;

/// What the next number comes from.
#[derive(Clone, Copy, Debug)]
pub struct Random {
    state: u64,
}

impl Random {
    /// Numbers that a seed begins, which isn't 0.
    pub fn new(seed: u64) -> Random {
        Random { state: seed }
    }

    /// A number below another, which isn't 0.
    pub fn below(&mut self, most: u64) -> u64 {
        let mut next = self.state;
        next ^= next << 13;
        next ^= next >> 7;
        next ^= next << 17;
        self.state = next;
        next.checked_rem(most).unwrap_or(0)
    }

    /// A list of fewer than that many numbers below that one.
    pub fn list(&mut self, alloc: Global, len: u64, most: u64) -> Result<Vec<u64>, Fault> {
        let len = self.below(len);
        let mut numbers = Vec::new(alloc);
        for _ in 0..len {
            numbers.push(self.below(most))?;
        }
        Ok(numbers)
    }
}
