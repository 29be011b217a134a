//! By what an explorer picks.
/// By what an explorer picks.
#[derive(Clone, Copy, Debug, PartialEq, Eq)]
pub enum Rule {
    /// The first option of each call.
    Serial,
    /// The last option of each call.
    Parallel,
    /// An option by a hash of the seed, the call's site and its length.
    Seeded(u64),
}
