//! The clock that measures how long a body ran.
ghost use Rattle.std.specs.Prelude.{◌≡◌, ◌-◌, ◌^◌, min};
ghost use Rattle.std.specs.Duration.{as_nanos};

use std::fmt::Debug;
use std::time::{Duration, Instant};
use std::{io, time};

/// Tells the time in nanoseconds since a start of its own.
///
/// Nothing is claimed of the readings: a clock may stand still or go back, and whoever takes the
/// difference of two readings takes 0 where the later one is the smaller.
pub trait Clock: Clone + Send + Sync + Debug + 'static {
    /// The time now, in nanoseconds.
    fn now(&self) -> u64;
}

/// The runtime's monotonic clock, read in nanoseconds since this clock was made.
///
/// A clone has the same start. A reading past the greatest `u64` is the greatest `u64`, which is
/// reached after 584 years.
#[derive(Clone, Debug, Drop)]
pub struct MonotonicClock<R> {
    runtime: R,
    start: Instant,
}

impl<R: time::Clock + Drop> MonotonicClock<R> {
    /// A clock that starts now.
    ///
    /// # Errors
    ///
    /// The runtime's error where its monotonic clock can't be read.
    pub fn new(runtime: R) -> io::Result<MonotonicClock<R>> {
        let start = Instant::now(&runtime)?;
        Ok(MonotonicClock { runtime, start })
    }
}

impl<R: time::Clock + Clone + Send + Sync + Debug + 'static> Clock for MonotonicClock<R> {
    /// The nanoseconds since the clock was made, and 0 where the runtime's clock can't be read or
    /// went back after the start.
    fn now(&self) -> u64 {
        match self.start.elapsed(&self.runtime) {
            Ok(elapsed) => nanoseconds(elapsed),
            Err(_) => 0,
        }
    }
}

// The whole duration in nanoseconds, or the greatest `u64` where it is longer.
fn nanoseconds(duration: Duration) -> u64
    ensures { result ≡ min (as_nanos duration) (2 ^ 64 - 1) }
{
    u64::try_from(duration.as_nanos()).unwrap_or(u64::MAX)
}
