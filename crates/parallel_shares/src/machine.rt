//! The pure machine of shares: one event is one load, one exchange or one store of one word.
//!
//! It has no thread, lock or atomic word. `replay` runs any list of events on a plan, and its
//! contract says that words, ranges in transit and claimed cells are those of a run in which each
//! unit has exactly one holder.

mod event;
mod plan;
mod replays;
mod rows;
mod state;
mod steps;

pub use event::{Event, Outcome};
pub use plan::Plan;
pub use replays::replay;
pub(crate) use rows::opening_words;
pub use state::State;
pub use steps::step;
