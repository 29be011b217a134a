//! One list of calls, one of sources and one of strategies for the tests, and what the closures of
//! a call do.
#![tactic(auto)]

pub mod calls;
pub mod clocks;
pub mod every_call;
pub mod logs;
pub mod meetings;
pub mod noting;
pub mod others;
pub mod own_part;
pub mod ready;
pub mod sources;
pub mod steps;
pub mod visits;
pub mod ways;
