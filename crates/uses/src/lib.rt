//! What a program writes over the strategies: callers to copy from, each proved from the public
//! clauses alone.
#![tactic(auto)]

pub mod batches;
pub mod explored;
pub mod folds;
pub mod in_place;
pub mod joins;
pub mod least;
pub mod long_lists;
pub mod maps;
pub mod one_place;
pub mod outputs;
pub mod own_lists;
pub mod progress;
pub mod ready;
pub mod runs;
pub mod spawned_jobs;
pub mod squares;
pub mod stateful;
pub mod stopping;
pub mod tile_rows;
pub mod words;
