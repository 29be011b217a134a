//! Checks of many items, on as many threads as a strategy gives them.
//!
//! `verify_all` names the first item that fails a check, `verify_digests` the first message whose
//! SHA-256 isn't the digest that it is given with, and `sum_within` the first number above a limit.
//! Each names the first in the list, whichever thread was first, and may leave later items
//! unchecked. `split_by_check` checks all items, and returns those that pass and those that fail.
//!
//! What each returns is the same for every strategy, number of threads and schedule, if the check's
//! result depends on its item alone. An error is `Trouble::Closure` with what was named, or
//! `Trouble::Fault` with a refusal, which is `Fault::Memory`.
#![tactic(auto)]

mod digests;
mod items;
mod split;
mod sums;

pub use digests::{Digest, verify_digests};
pub use items::verify_all;
pub use split::split_by_check;
pub use sums::sum_within;
