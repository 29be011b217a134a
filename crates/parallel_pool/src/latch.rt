//! Latches: what one thread waits on until another has set it.
pub mod core_latch;
pub mod count_latch;
pub mod count_share;
pub mod history;
pub mod latch_seat;
pub mod lock_latch;
pub mod once_latch;
pub mod spin_latch;
pub mod worker_latch;

pub use core_latch::CoreLatch;
pub use count_latch::CountLatch;
pub use count_share::CountShare;
pub use latch_seat::LatchSeat;
pub use lock_latch::LockLatch;
pub use once_latch::OnceLatch;
pub use spin_latch::SpinLatch;
pub use worker_latch::WorkerLatch;
