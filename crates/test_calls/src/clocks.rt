//! Clocks that are told what to read.
use commonware_parallel::{Clock, Fault};
use std::alloc::Global;
use std::sync::Arc;
use std::sync::atomic::{AtomicU64, Ordering};

/// A clock that goes on by `step` at each reading, or back where `step` is near 2 to the power of
/// 64. Whoever has its reading may move it on.
#[derive(Clone, Debug, Drop)]
pub struct Stepping {
    pub reading: Arc<AtomicU64, Global>,
    step: u64,
    // Whether the readings are the squares of so many whole milliseconds.
    is_squared: bool,
}

impl Stepping {
    /// One whose next nanosecond changes each bit of its reading.
    pub fn new(alloc: Global, step: u64) -> Result<Stepping, Fault> {
        let start = AtomicU64::new(u64::MAX / 2);
        Ok(Stepping {
            reading: Arc::new(alloc, start)?,
            step,
            is_squared: false,
        })
    }

    /// One whose readings are the squares of 0, 1, 2 .. milliseconds, so that the time between two
    /// of them tells which two they were.
    pub fn squares(alloc: Global) -> Result<Stepping, Fault> {
        Ok(Stepping {
            reading: Arc::new(alloc, AtomicU64::new(0))?,
            step: 1,
            is_squared: true,
        })
    }
}

impl Clock for Stepping {
    fn now(&self) -> u64 {
        let reading = self.reading.fetch_add(self.step, Ordering::SeqCst);
        if self.is_squared {
            reading.wrapping_mul(reading).wrapping_mul(1_000_000)
        } else {
            reading
        }
    }
}
