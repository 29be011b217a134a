//! Lists whose parts are changed at the same time, each where it lies, in threads that one thread,
//! the caller's, starts one after another.
#![tactic(auto)]

pub mod cuts;
pub mod row;

pub use cuts::{Along, Cuts, Even};
pub use row::{
    ROW, each_chunk, each_chunk_in_turn, each_item, each_item_in_turn, parts_in_row, parts_in_turn,
};
