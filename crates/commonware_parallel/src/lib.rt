//! Folds, maps, joins, sorts, batches and tiles that are written once and run through any strategy.
//!
//! A program is written over `S: Strategy` and run through `Sequential`, on the caller's thread, or
//! through `Rayon`, on several threads. Whatever the strategy, the number of its threads and the
//! order in which they end, a call that returns and isn't refused gives a result that its contract
//! allows: a map the results in input order, a fallible one the first failing item's error, a fold
//! a reduction of neighbouring segments, a batch each index once.
#![tactic(auto)]

mod batches;
mod call;
mod chooser;
mod chosen;
mod in_place;
mod list;
pub mod merkle;
mod meter;
pub mod mocks;
mod outcome;
mod rayon_strategy;
mod running;
mod runtime;
mod sequential;
mod spawned;
mod strategy;
mod tiles;

pub use batches::Batches;
pub use call::{Call, Kind, Pick};
pub use chooser::Chooser;
pub use chosen::begin_path;
pub use meter::{Learns, Measured, Meter, Unmeasured};
pub use outcome::flat;
pub use parallel_bridge as bridge;
pub use parallel_bridge::{
    Chunks, Copies, Counted, Enumerated, ExactSize, Indices, Pairs, Parts, Path, Producer, Source,
    Zipped, gate,
};
pub use parallel_fault::{Fault, Trouble};
pub use parallel_policy as policy;
pub use parallel_policy::{Clock, MonotonicClock, Place, Policy, Site};
pub use parallel_pool::{ThreadPool, latch, rayon, sleep};
pub use parallel_shares as shares;
pub use parallel_shares::{Grid, cut};
pub use rayon_strategy::Rayon;
pub use running::{Running, end_run};
pub use runtime::Runtime;
pub use sequential::Sequential;
pub use spawned::{Closure, Job, Spawned};
pub use strategy::Strategy;
pub use tiles::Tiles;
