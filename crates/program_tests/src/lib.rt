//! The program's commands, and values and texts that need no strategy's calls. Expected values
//! stand in the tests.
#![tactic(auto)]

#[cfg(test)]
mod checks;
#[cfg(test)]
mod clocks;
#[cfg(test)]
mod commands;
#[cfg(test)]
mod plans;
#[cfg(test)]
mod printed;
#[cfg(test)]
mod writers;
