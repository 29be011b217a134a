//! The rights that a call asks for, in one word.
use std::sync::Wait;
use std::thread::Threads;

/// The rights to start threads and to wait, in a value that threads may share: what a call that may
/// go parallel takes first. Whatever has them is one, so a function of one's own can ask
/// `Rt: Runtime` and hand its runtime on.
pub trait Runtime: Threads + Wait + Sync {}

impl<Rt: Threads + Wait + Sync> Runtime for Rt {}
