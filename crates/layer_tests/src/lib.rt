//! The tests of shares, policies and the bridge, and of what all crates below the strategies do
//! with memory, at concrete types. Expected values stand in the tests.
#![tactic(auto)]

#[cfg(test)]
mod checks;
#[cfg(test)]
mod claims;
#[cfg(test)]
mod consumers;
#[cfg(test)]
mod entries;
#[cfg(test)]
mod gate_seats;
#[cfg(test)]
mod memory;
#[cfg(test)]
mod producers;
#[cfg(test)]
mod tables;
#[cfg(test)]
mod troubles;
#[cfg(test)]
mod windows;
