//! What the crates of tests have in common and what needs no crate of the repository: a machine
//! without memory, the numbers of threads, counted items, and the macros `holds` and `same`.
//!
//! The functions that stop a test stand in each crate of tests, in its module `checks`: a library
//! can't take the handle that stops a program, and a macro writes no function.
#![tactic(auto)]

ghost use Rattle.std.specs.Prelude.{◌≡◌, ◌≢◌};
ghost use Rattle.std.specs.Int.NonZero.{non_zero_usize_get};

use std::num::NonZeroUsize;

pub mod counted;
pub mod no_memory;
pub mod processes;

/// A number that isn't 0: 1 in the place of 0.
pub fn number(value: usize) -> NonZeroUsize
    ensures { value ≢ 0 → non_zero_usize_get result ≡ value }
{
    NonZeroUsize::MIN.saturating_add(value.saturating_sub(1))
}

/// Stops the test where that doesn't hold, and prints it with its module.
#[macro_export]
macro_rules! holds {
    ($rt:expr, $is_so:expr $(,)?) => {
        crate::checks::held($rt, concat!(module_path!(), ": ", stringify!($is_so)), $is_so)
    };
}

/// Stops the test where the two differ, and prints both, the first one's text and its module.
#[macro_export]
macro_rules! same {
    ($rt:expr, $found:expr, $wanted:expr $(,)?) => {
        crate::checks::equal(
            $rt,
            concat!(module_path!(), ": ", stringify!($found)),
            $found,
            $wanted,
        )
    };
}
