//! Many parallel shapes, for tests: a strategy that picks by a rule, and a search through the
//! rules.
mod choice;
mod explore_error;
mod explorer;
mod hash;
mod pools;
mod rule;
mod search;

pub use choice::pick;
pub use explore_error::ExploreError;
pub use explorer::Explorer;
pub use hash::mix;
pub use pools::{inline, pending, pooled};
pub use rule::Rule;
pub use search::{TASKS, WORKERS, explore, tasks, workers};
