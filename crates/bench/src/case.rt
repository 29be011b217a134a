//! The cases that are timed, and their names.
use crate::ready::Ready;

/// What a call does with its items or its cells.
#[derive(Clone, Copy)]
pub enum Case {
    /// A map by a closure of that cost.
    Map(Cost),
    /// A fold by a step of that cost.
    Fold(Cost),
    /// A light fold with a state at hand.
    FoldInit,
    /// A light map by a closure that may fail and never does.
    TryMapLight,
    /// A heavy map by a closure that fails early in the list.
    TryMapEarly,
    /// A light map whose results are values for every other item, and keys for the rest.
    PartitionLight,
    /// The same by a heavy closure.
    PartitionHeavy,
    /// A sort of a copy.
    Sort,
    /// A list of its own that is changed where it lies, by a function of that cost.
    Each(Cost),
    /// A sum over the items as the cells of a grid.
    Tiles(Rows, Cost),
    /// The root of a tree over the items as its leaves, of light or of heavy nodes.
    TreeLight,
    TreeHeavy,
    /// The same root by blocks of leaves.
    BlocksLight,
    BlocksHeavy,
    /// The bytes of a matrix above a threshold, counted by row.
    RowsAbove,
    /// Messages that are checked against their digests.
    Digests,
    Ready(Ready),
}

/// What a closure costs: a nanosecond or less, about a microsecond (a cell: 30 nanoseconds), or the
/// more the later its item or its cell's row comes.
#[derive(Clone, Copy)]
pub enum Cost {
    Light,
    Heavy,
    Rising,
}

/// The rows of a grid: many that are kept whole, or few that are cut.
#[derive(Clone, Copy)]
pub enum Rows {
    Whole,
    Cut,
}

/// Every case with the name by which the command line asks for it.
pub const CASES: [(&str, Case); 32] = [
    ("map-light", Case::Map(Cost::Light)),
    ("map-heavy", Case::Map(Cost::Heavy)),
    ("map-rising", Case::Map(Cost::Rising)),
    ("fold-light", Case::Fold(Cost::Light)),
    ("fold-heavy", Case::Fold(Cost::Heavy)),
    ("fold-rising", Case::Fold(Cost::Rising)),
    ("try-map-light", Case::TryMapLight),
    ("try-map-early", Case::TryMapEarly),
    ("fold-init", Case::FoldInit),
    ("partition", Case::PartitionLight),
    ("partition-heavy", Case::PartitionHeavy),
    ("sort", Case::Sort),
    ("each-light", Case::Each(Cost::Light)),
    ("each-heavy", Case::Each(Cost::Heavy)),
    ("tiles-rows-light", Case::Tiles(Rows::Whole, Cost::Light)),
    ("tiles-rows-heavy", Case::Tiles(Rows::Whole, Cost::Heavy)),
    ("tiles-cut-light", Case::Tiles(Rows::Cut, Cost::Light)),
    ("tiles-cut-heavy", Case::Tiles(Rows::Cut, Cost::Heavy)),
    ("tiles-uneven", Case::Tiles(Rows::Whole, Cost::Rising)),
    ("merkle-light", Case::TreeLight),
    ("merkle-heavy", Case::TreeHeavy),
    ("merkle-blocks-light", Case::BlocksLight),
    ("merkle-blocks-heavy", Case::BlocksHeavy),
    ("rows-above", Case::RowsAbove),
    ("digests", Case::Digests),
    ("find", Case::Ready(Ready::Find)),
    ("filter", Case::Ready(Ready::Filter)),
    ("count", Case::Ready(Ready::Count)),
    ("sum", Case::Ready(Ready::Sum)),
    ("scan", Case::Ready(Ready::Scan)),
    ("min-light", Case::Ready(Ready::Least)),
    ("min-heavy", Case::Ready(Ready::LeastHeavy)),
];

impl Case {
    /// The case of that name, if there is one.
    pub fn named(name: &str) -> Option<Case> {
        for (known, case) in CASES {
            if known == name {
                return Some(case);
            }
        }
        None
    }

    /// Whether item i is the number i, and not one of a shuffled list.
    pub fn is_rising(self) -> bool {
        matches!(self, Case::Map(Cost::Rising) | Case::Fold(Cost::Rising))
    }

    /// Whether the case takes its items from any source.
    pub fn takes_source(self) -> bool {
        matches!(
            self,
            Case::Map(_)
                | Case::Fold(_)
                | Case::FoldInit
                | Case::TryMapLight
                | Case::TryMapEarly
                | Case::PartitionLight
                | Case::PartitionHeavy
        )
    }

    /// Whether the case changes a list of its own where it lies, which each call takes.
    pub fn is_in_place(self) -> bool {
        matches!(self, Case::Each(_))
    }

    /// Whether the kit's `rayon` has the call.
    pub fn suits_kit(self) -> bool {
        match self {
            Case::Ready(ready) => ready.suits_kit(),
            _ => matches!(self, Case::Map(_) | Case::Fold(_) | Case::Sort),
        }
    }
}
