//! That each call does what it has to, whatever its source and its strategy: each probe goes over
//! one list of calls.
#![tactic(auto)]

#[cfg(test)]
mod asks;
#[cfg(test)]
mod blocks;
#[cfg(test)]
mod checks;
#[cfg(test)]
mod entries;
#[cfg(test)]
mod jobs;
#[cfg(test)]
mod looks;
#[cfg(test)]
mod meets;
#[cfg(test)]
mod records;
#[cfg(test)]
mod refusals;
#[cfg(test)]
mod requests;
#[cfg(test)]
mod starts;
