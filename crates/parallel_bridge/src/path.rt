//! The two ways of a list call.

/// The way that a list goes.
#[derive(Clone, Copy, Debug, PartialEq, Eq, Hash)]
pub enum Path {
    /// As it comes, in one segment, on the caller's thread.
    Serial,
    /// Along its shape, in segments, on threads.
    Parallel,
}
