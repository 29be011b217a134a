//! What a yield did.
/// What a yield did.
#[derive(Clone, Copy, Debug, PartialEq, Eq)]
pub enum Yield {
    /// A job was called.
    Executed,
    /// No job was found.
    Idle,
}
