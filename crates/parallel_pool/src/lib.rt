//! A pool's number of threads, by which the calls of a strategy start scoped ones; the workers and
//! queues of a pool that is built; latches, and the sleep of idle workers.
#![tactic(auto)]

pub mod latch;
pub mod rayon;
pub mod sleep;

pub use rayon::ThreadPool;
