//! Functions that stop a test. A call of these costs a tenth of an `assert_eq!` or an `assert!` in
//! its place to prove.
use std::alloc::Global;
use std::fmt::{Debug, Display};
use std::process::Abort;

/// Stops the test where that doesn't hold, and prints its text.
pub fn held(rt: &impl Abort, text: &str, is_so: bool) {
    assert!(rt; is_so, "{text}");
}

/// Stops the test where the two differ, and prints both and what the first one is, or its row.
pub fn equal<T: PartialEq + Debug + Drop>(rt: &impl Abort, text: &str, found: T, wanted: T) {
    assert_eq!(rt; found, wanted, "{text}");
}

/// Stops the test where the value isn't written as the text.
pub fn says<T: Display>(rt: &impl Abort, alloc: Global, value: &T, text: &str) {
    let written = format!(in alloc; "{value}").expect(rt, "memory");
    equal(rt, "written", written.as_str(), text);
}

/// Stops the test where the value isn't printed as the text.
pub fn prints<T: Debug>(rt: &impl Abort, alloc: Global, value: &T, text: &str) {
    let printed = format!(in alloc; "{value:?}").expect(rt, "memory");
    equal(rt, "printed", printed.as_str(), text);
}
