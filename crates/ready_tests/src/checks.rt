//! A function that stops a test, and the calls through a strategy.
use commonware_parallel::Site;
use parallel_calls::On;
use std::alloc::Global;
use std::fmt::Debug;
use std::process::Abort;
use std::sync::Wait;
use std::thread::Threads;
use test_strategies::SITE;

/// What a call and its test may do.
pub trait Host: Threads + Wait + Sync + Abort {}

impl<Rt: Threads + Wait + Sync + Abort> Host for Rt {}

/// A call, and the numbers that it goes over.
pub type Of<'a> = (&'a str, &'a [u64]);

/// Stops the test where the two differ, and prints both and of which call they are, through which
/// strategy.
pub fn row<Rt: Abort, S: Debug, T: PartialEq + Debug + Drop>(
    on: &On<'_, Rt, S, Site>,
    of: Of<'_>,
    found: T,
    wanted: T,
) {
    let through = on.strategy;
    assert_eq!(on.rt; found, wanted, "{of:?} through {through:?}");
}

/// The calls through a strategy.
pub fn calls_of<'s, Rt, S>(rt: &'s Rt, alloc: Global, strategy: &'s S) -> On<'s, Rt, S, Site> {
    On {
        rt,
        alloc,
        strategy,
        site: SITE,
    }
}
