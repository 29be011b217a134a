//! What a list call does with its list: a file for each call, with its forms over an iterator as it
//! comes and in parallel.
pub mod fold;
pub mod fold_init;
pub mod map;
pub mod map_init;
mod moving;
pub mod partition;
pub mod sort;
pub mod try_fold;
pub mod try_map;
