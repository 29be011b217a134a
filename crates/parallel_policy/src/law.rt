//! What holds of every history.
ghost use Rattle.parallel_policy.specs.Laws.{MeasuresOneOfTen};

/// The law of measuring: of any ten consecutive choices of a `RunEntry`, whatever it was recorded
/// before and between them, one is measured. It does nothing.
pub fn measuring_law()
    ensures { MeasuresOneOfTen }
{}
