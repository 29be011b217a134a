//! That a clock tells the time.
use crate::checks::equal;
use commonware_parallel::{Clock, MonotonicClock};
use std::thread;
use std::time::{Duration, Instant};

// Between two readings are the nanoseconds that were waited, and no more than between two others
// that are round them.
#[test]
fn a_monotonic_clock_tells_nanoseconds(rt: HostRuntime) {
    let clock = MonotonicClock::new(rt).expect(&rt, "a clock");
    let before = Instant::now(&rt).expect(&rt, "a time");
    for waited in [1u64, 5, 20] {
        let first = clock.now();
        thread::sleep(&rt, Duration::from_millis(waited));
        let passed = u128::from(clock.now().saturating_sub(first));
        let least = u128::from(waited).wrapping_mul(1_000_000);
        let most = before.elapsed(&rt).expect(&rt, "a time").as_nanos();
        equal(&rt, "what was waited", passed.min(least), least);
        equal(&rt, "what another clock tells", passed.max(most), most);
    }
}
