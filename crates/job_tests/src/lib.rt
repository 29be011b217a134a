//! Runs, jobs and policies, at concrete types. Expected values stand in the tests.
#![tactic(auto)]

#[cfg(test)]
mod checks;
#[cfg(test)]
mod ends;
#[cfg(test)]
mod policies;
#[cfg(test)]
mod runs;
#[cfg(test)]
mod spawns;
