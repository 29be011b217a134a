//! Which values a fold stays among.
use std::marker::Brand;

/// The values among which a fold stays, for its proof alone: its closures accept each of them, and
/// return none but these. A call picks them where it passes `Brand`.
pub trait Domain<R> {
    /// Whether the value is one of them.
    ghost has: { R → Type 0 };
}

impl<R> Domain<R> for Brand {
    ghost has = { λ _. Unit {0} };
}
