//! Functions that stop a test. A call of these costs a tenth of an `assert_eq!` or an `assert!` in
//! its place to prove.
use std::fmt::Debug;
use std::process::Abort;
use test_calls::every_call::{Act, Host, acts};
use test_calls::logs::{Line, Log};
use test_calls::sources::LOST;
use test_calls::ways::{Row, Through, Way};

/// The runtime of a test. One that reads files or prints says so beside it: each test proves anew
/// what its bounds ask for.
pub trait Test: Host + Abort {}

impl<Rt: Host + Abort> Test for Rt {}

/// Stops the test where that doesn't hold, and prints its text.
pub fn held(rt: &impl Abort, text: &str, is_so: bool) {
    assert!(rt; is_so, "{text}");
}

/// Stops the test where the two differ, and prints both and what the first one is.
pub fn equal<T: PartialEq + Debug + Drop>(rt: &impl Abort, text: &str, found: T, wanted: T) {
    assert_eq!(rt; found, wanted, "{text}");
}

/// Stops the test where the two differ, and prints both and their row.
pub fn row<T: PartialEq + Debug + Drop>(rt: &impl Abort, row: Row, found: T, wanted: T) {
    assert_eq!(rt;
        found,
        wanted,
        "{row:?} (Closure(7): a closure failed, Closure({LOST}): an item wasn't let go once)"
    );
}

/// Stops the test where a log has other lines than these.
pub fn has(rt: &impl Test, log: &Log, of: Row, wanted: &[Line]) {
    row(rt, of, log.lines(rt).as_slice(), wanted);
}

/// All calls.
pub fn all_acts(rt: &impl Test) -> Vec<Act> {
    acts(rt.alloc()).expect(rt, "memory for a table")
}

/// Such a strategy.
pub fn through(rt: &impl Test, way: Way) -> Through {
    Through::of(rt, way).expect(rt, "memory for a strategy")
}
