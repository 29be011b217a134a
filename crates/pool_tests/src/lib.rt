//! The tests of pools, of what comes to them and of their latches and sleep: worked values, each
//! call on its happy path, and waits across threads. Expected values stand in the tests.
#![tactic(auto)]

#[cfg(test)]
mod brought;
#[cfg(test)]
mod checks;
#[cfg(test)]
mod histories;
#[cfg(test)]
mod latches;
#[cfg(test)]
mod pools;
#[cfg(test)]
mod queues;
#[cfg(test)]
mod quiet;
#[cfg(test)]
mod races;
#[cfg(test)]
mod refused;
#[cfg(test)]
mod sleepers;
#[cfg(test)]
mod sleeps;
#[cfg(test)]
mod tally;
