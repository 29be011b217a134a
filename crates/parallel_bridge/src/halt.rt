//! Why a segment of a list ends before its last item.

/// Why a segment ended early: it failed by an error of its own, or a gate stopped it, since a
/// segment to its left had failed.
#[derive(Debug, PartialEq, Eq, Drop)]
pub enum Halt<E> {
    /// The error that a closure returned for an item of the segment.
    Failed(E),
    /// The gate had been told of a lesser start.
    Stopped,
}
