//! The callers that others may read. Expected values stand in the tests.
#![tactic(auto)]

#[cfg(test)]
mod callers;
#[cfg(test)]
mod checks;
#[cfg(test)]
mod each_caller;
#[cfg(test)]
mod transforms;
#[cfg(test)]
mod trees;
#[cfg(test)]
mod watched;
