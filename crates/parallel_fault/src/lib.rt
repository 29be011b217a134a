//! The refusals that the other crates return.
#![tactic(auto)]

pub mod fault;

pub use fault::{Fault, Trouble, stopped};
