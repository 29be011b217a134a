//! How work is cut: balanced ranges, grids of tiles, and the words that share units among seats.
#![tactic(auto)]

mod balanced;
pub mod grid;
pub mod machine;
pub mod shares;
mod word;

pub use balanced::cut;
pub use grid::Grid;
pub use shares::{Part, Seat, Shares, Stretch, Tried, stretches};
pub use word::{pack, unpack};
