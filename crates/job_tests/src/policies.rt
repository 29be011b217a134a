//! What a policy learns, through the calls of a pool.
use crate::checks::row;
use commonware_parallel::{Clock, Rayon, Strategy};
use std::alloc::Global;
use std::process::Abort;
use std::sync::atomic::{AtomicU64, Ordering};
use std::sync::{Arc, Wait};
use std::thread::Threads;
use test_strategies::{SITE, learning, parallel, serial};
use test_support::number;

// A clock that goes on by `step` at each reading, or back where `step` is near 2 to the power of
// 64.
#[derive(Clone, Debug, Drop)]
struct Stepping {
    reading: Arc<AtomicU64, Global>,
    step: u64,
}

impl Clock for Stepping {
    fn now(&self) -> u64 {
        self.reading.fetch_add(self.step, Ordering::SeqCst)
    }
}

// Stops the test where runs over 64 items don't take these bodies, one after the other.
fn takes<Rt: Wait + Abort>(
    rt: &Rt,
    alloc: Global,
    strategy: &Rayon<Stepping>,
    bodies: &[&'static str],
) {
    for (turn, body) in bodies.iter().enumerate() {
        let taken = strategy.run(rt, alloc, SITE, 64, serial, parallel);
        row(rt, ("run", "its number", turn), taken, Ok(*body));
    }
}

// A pool that learns by a clock which goes on by so much at each reading.
fn by_steps<Rt: Threads + Abort>(rt: &Rt, alloc: Global, step: u64) -> Rayon<Stepping> {
    let start = AtomicU64::new(1_000_000_000_000);
    let reading = Arc::new(alloc, start).expect(rt, "memory");
    learning(rt, alloc, 4, Stepping { reading, step }).expect(rt, "a pool")
}

#[test]
fn a_short_parallel_run_is_followed_by_serial_ones(rt: HostRuntime) {
    let alloc = rt.alloc();
    // A clock that goes back counts as no time, and a run of the whole budget stays parallel.
    for (step, bodies) in [
        (100_000, ["parallel", "serial", "serial"].as_slice()),
        (u64::MAX - 99_999, ["parallel", "serial"].as_slice()),
        (2_500_000, ["parallel", "parallel"].as_slice()),
    ] {
        takes(&rt, alloc, &by_steps(&rt, alloc, step), bodies);
    }
}

#[test]
fn a_clone_has_the_same_policy(rt: HostRuntime) {
    let alloc = rt.alloc();
    let strategy = by_steps(&rt, alloc, 100_000);
    let clone = strategy.clone().expect(&rt, "memory");
    takes(&rt, alloc, &strategy, &["parallel"]);
    takes(&rt, alloc, &clone, &["serial"]);
    let fixed = strategy.without_policy().expect(&rt, "memory");
    takes(&rt, alloc, &fixed, &["parallel"]);
    let planned = strategy.with_parallelism(number(8));
    takes(&rt, alloc, &planned, &["parallel", "serial"]);
    let two = planned.with_parallelism(number(2));
    takes(&rt, alloc, &two, &["parallel", "serial"]);
}
