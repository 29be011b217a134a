//! What is known of a latch: the calls that were made of it, one after another.
use std::collections::LinkedList;

/// What a call does to a core latch.
#[derive(Clone, Copy, Debug)]
pub enum Act {
    GetSleepy,
    FallAsleep,
    WakeUp,
    Set,
    Probe,
}

/// One call in the history of a core latch, and the number of the seat that made it. No value of it
/// is made.
pub struct Call {
    pub by: u64,
    pub act: Act,
}

/// What a seat knows of its core latch. No value of it is made.
pub struct View {
    /// The history, as far as the seat has seen it.
    pub seen: LinkedList<Call>,
    /// The acts in it that are the seat's own.
    pub own: LinkedList<Act>,
    /// What another seat has seen of the history, while it is being told.
    pub heard: LinkedList<Call>,
}
