//! A core latch that wakes one worker, once.
use crate::latch::worker_latch::WorkerLatch;

/// The kind of a latch on which its worker sleeps.
#[derive(Drop)]
pub struct Once;

/// A core latch and the index of the one worker that it wakes.
pub type OnceLatch = WorkerLatch<Once>;
