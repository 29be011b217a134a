//! That the segments of a list stop that stand right of a known error.
use parallel_bridge::list::try_map::try_map_parallel;
use parallel_bridge::parts::ProducerParts;
use parallel_bridge::producer::Indices;
use parallel_fault::Trouble;
use std::sync::atomic::{AtomicU64, Ordering};
use std::thread;
use test_support::{holds, number, same};

// Waits for an error that another segment makes, but not for ever.
fn await_error(failed: &AtomicU64) {
    for _ in 0..1_000_000 {
        if failed.load(Ordering::SeqCst) > 0 {
            return;
        }
        thread::yield_now();
    }
}

// 64 segments of 1000 numbers each, of which the first fails, and the others wait for that.
#[test]
fn segments_right_of_a_known_error_stop_early(rt: HostRuntime) {
    let (failed, calls) = (AtomicU64::new(0), AtomicU64::new(0));
    let answer = |place: usize| {
        calls.fetch_add(1, Ordering::SeqCst);
        if place == 0 {
            failed.store(1, Ordering::SeqCst);
            return Err(place);
        }
        await_error(&failed);
        thread::yield_now();
        Ok(place)
    };
    let (start, end) = (0, 64_000);
    let list = Indices { start, end };
    let parts = ProducerParts { list };
    let told = try_map_parallel(&rt, rt.alloc(), number(32), parts, &answer);
    same!(&rt, told.err(), Some(Trouble::Closure(0)));
    holds!(&rt, calls.load(Ordering::SeqCst) < 16_000);
}
