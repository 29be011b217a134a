//! What a list may be handed to: a file for each consumer, with its folder and its reducer.
pub mod collect;
pub mod fold;
pub mod fold_init;
pub mod list_vec;
pub mod map;
pub mod map_init;
pub mod partition;
pub mod reduce;
pub mod try_fold;
pub mod try_reduce;
pub mod while_some;
