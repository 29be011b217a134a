//! The ready calls, against what std's iterators say of the same lists.
#![tactic(auto)]

#[cfg(test)]
mod checks;
#[cfg(test)]
mod lists;
#[cfg(test)]
mod random;
#[cfg(test)]
mod scans;
