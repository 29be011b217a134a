//! Ready calls through any strategy, by the names that std's and rayon's iterators give them: what
//! some item satisfies, which is the first or the least one, how many there are, what a list is
//! filtered to, and what it adds up to, at its end and at each place.
//!
//! All are methods of `On`, which has what the calls at a site have in common.
#![tactic(auto)]

mod any;
mod by_key;
mod count;
mod dedup;
mod extremes;
mod filter;
mod find;
mod first_stop;
mod flat_map;
mod for_each;
mod on;
mod order;
mod passes;
mod reduce;
mod scan;
mod sorts;
mod sum;
mod whole;

pub use on::On;
pub use whole::Whole;
