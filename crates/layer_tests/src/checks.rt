//! Functions that stop a test. A call of these costs a tenth of an `assert_eq!` or an `assert!` in
//! its place to prove.
use std::fmt::Debug;
use std::process::Abort;

/// Stops the test where that doesn't hold, and prints its text.
pub fn held(rt: &impl Abort, text: &str, is_so: bool) {
    assert!(rt; is_so, "{text}");
}

/// Stops the test where the two differ, and prints both and what the first one is.
pub fn equal<T: PartialEq + Debug + Drop>(rt: &impl Abort, text: &str, found: T, wanted: T) {
    assert_eq!(rt; found, wanted, "{text}");
}

/// Stops the test where the two differ, and prints both and their row.
pub fn row<L: Debug + Drop, T: PartialEq + Debug + Drop>(
    rt: &impl Abort,
    row: L,
    found: T,
    wanted: T,
) {
    assert_eq!(rt; found, wanted, "row {row:?}");
}

/// The same of a call that returns a list.
pub fn lists<R: Abort, T: PartialEq + Debug + Drop, E: Debug + Drop>(
    rt: &R,
    of: &str,
    found: Result<Vec<T>, E>,
    wanted: &[T],
) {
    match found {
        Ok(list) => row(rt, of, list.as_slice(), wanted),
        Err(error) => panic!(rt; "row {of}: {error:?} in the place of {wanted:?}"),
    }
}
