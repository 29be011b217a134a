//! What the tests of the strategies make these of, and the two bodies of a run.
#![tactic(auto)]

use commonware_parallel::{Clock, Fault, Rayon, Site};
use std::alloc::Global;
use std::thread::Threads;
use test_support::number;

/// The call site of the tests.
pub const SITE: Site = Site {
    file: "tests",
    line: 1,
    column: 1,
};

/// A clock that stands still.
#[derive(Clone, Copy, Debug)]
pub struct Stopped;

impl Clock for Stopped {
    fn now(&self) -> u64 {
        0
    }
}

/// A pool of that many threads with a fresh policy, which learns by that clock.
pub fn learning<Rt: Threads, C: Clock>(
    rt: &Rt,
    alloc: Global,
    threads: usize,
    clock: C,
) -> Result<Rayon<C>, Fault> {
    match Rayon::new(rt, alloc, number(threads), clock) {
        Ok(strategy) => Ok(strategy),
        Err(_) => Err(Fault::Memory),
    }
}

/// A pool of that many threads, planned for that many, for which no policy chooses.
pub fn pool<Rt: Threads>(
    rt: &Rt,
    alloc: Global,
    threads: usize,
    planned: usize,
) -> Result<Rayon<Stopped>, Fault> {
    let strategy = learning(rt, alloc, threads, Stopped)?;
    strategy.with_parallelism(number(planned)).without_policy()
}

/// The body of a run that goes serially.
pub fn serial() -> &'static str {
    "serial"
}

/// That of one that goes in parallel.
pub fn parallel() -> &'static str {
    "parallel"
}
