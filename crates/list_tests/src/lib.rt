//! The calls of the strategies, at concrete types. Expected values stand in the tests.
#![tactic(auto)]

#[cfg(test)]
mod batches;
#[cfg(test)]
mod checks;
#[cfg(test)]
mod errors;
#[cfg(test)]
mod explorers;
#[cfg(test)]
mod lists;
#[cfg(test)]
mod sorts_and_joins;
#[cfg(test)]
mod tiles;
#[cfg(test)]
mod trees;
#[cfg(test)]
mod ways;
