//! What a command line asks for.
ghost use Rattle.std.specs.Prelude.{◌≡◌, ◌↔◌, IsTrue, MatchOption, codes};
ghost use Rattle.shapes_command.specs.Request.{IsExploreLine, SaysExploreSum, IsBodiesLine};
ghost use Rattle.shapes_command.specs.Request.{IsRequestLine, Says, IsUnasked, IsLineOfWords, SaysInWords, IsShareLine, SaysShare, IsListLine, SaysList};
ghost use Rattle.shapes_command.specs.Request.{IsDrainLine, SaysDrain, IsBatchesLine, SaysBatches, IsGridLine, SaysGrid};
ghost use Rattle.shapes_command.specs.Request.{IsSegmentsLine, SaysSegments, AreItems, IsFoldLine, SaysFold, IsThreadsLine, SaysThreads};
ghost use Rattle.shapes_command.specs.Request.{IsMixLine, SaysMix, SaysFoldParallel, IsExplorerLine, SaysExplorer, IsCallLine, SaysCall};
ghost use Rattle.shapes_command.specs.Request.{IsRootLine, SaysRoot, IsSearchLine, SaysSearch};

use crate::number::{
    count, count_or_none, number, number_of_32_bits, number_of_64_bits, text_or_none,
};
use parallel_shares::Grid;
use std::num::NonZeroUsize;

/// The most rows that `drain` takes.
pub const MOST_ROWS: usize = 65_535;

/// The most workers that `drain` takes.
pub const MOST_WORKERS: usize = 16;

/// The most ranges that `batches` makes.
pub const MOST_RANGES: usize = 65_535;

/// The most threads that `segments` takes.
pub const MOST_THREADS: usize = 65_535;

/// The most items that `fold` and `root` take.
pub const MOST_ITEMS: usize = 1_000;

/// The greatest number that `fold` takes, as its identity or an item, and `root` as an item.
pub const MOST_NUMBER: usize = 1_000_000;

/// A command with its arguments.
#[derive(Debug, PartialEq, Eq, Drop)]
pub enum Request<'a> {
    /// `drain ROWS WORKERS`: the rows that the workers claim from one queue of whole rows.
    Drain {
        /// The number of rows, at most 65535.
        rows: usize,
        /// The number of workers, at most 16.
        workers: NonZeroUsize,
    },
    /// `batches LEN COUNT`: the balanced ranges of the indices below a length.
    Batches {
        /// The number of indices.
        len: usize,
        /// The number of ranges, at most 65535.
        count: NonZeroUsize,
    },
    /// `grid ROWS COST LEN WORKERS`: the cost of a grid, and whether its rows stay whole.
    Grid {
        /// The grid, of that many rows and such a tile cost.
        grid: Grid,
        /// The number of columns of each row.
        len: usize,
        /// The number of workers.
        workers: NonZeroUsize,
    },
    /// `segments N LEN`: the lengths of the segments of a list over a number of threads.
    Segments {
        /// The number of threads, at most 65535.
        threads: NonZeroUsize,
        /// The number of items in the list.
        len: usize,
    },
    /// `fold serial IDENTITY ITEM..`: the sum of the items from the identity.
    Fold {
        /// The number that the sum starts from, at most 1000000.
        identity: usize,
        /// The words of the items: at most 1000, and each a number that is at most 1000000.
        items: &'a [String],
    },
    /// `fold parallel IDENTITY ITEM..`: the sum of the items along their shape for two threads.
    FoldParallel {
        /// The number that the sum of each segment starts from, at most 1000000.
        identity: usize,
        /// The words of the items: at most 1000, and each a number that is at most 1000000.
        items: &'a [String],
    },
    /// `threads SET NUM CPUS MACHINE`: for how many threads a pool is planned.
    Threads {
        /// The number that is set, where 0 is none.
        set: usize,
        /// The text of the variable `RAYON_NUM_THREADS`.
        num_threads: Option<&'a str>,
        /// The text of the variable `RAYON_RS_NUM_CPUS`.
        num_cpus: Option<&'a str>,
        /// How many threads the machine runs at a time.
        machine: Option<NonZeroUsize>,
    },
    /// `mix SEED LINE COLUMN LEN`: the hash by which a seeded explorer picks.
    Mix {
        /// The seed.
        seed: u64,
        /// The line of the call's site, which is in the file `a`.
        line: u32,
        /// The column of the call's site.
        column: u32,
        /// The number of items.
        len: usize,
    },
    /// `explore sum`: the sum of the numbers below 100, by each rule of a search.
    ExploreSum,
    /// `root ITEM..`: the root of a tree over the items, by each rule of a search.
    Root {
        /// The words of the items: at most 1000, and each a number that is at most 1000000.
        items: &'a [String],
    },
}

/// The request that the words say, and None where they say none.
///
/// No words say `drain 4 2`. `explore bodies`, which has no answer, is none (`is_bodies`).
pub fn parse(words: &[String]) -> Option<Request<'_>>
    ensures { MatchOption result (¬ (IsRequestLine words.now)) (Says words.now) }
{
    if words.is_empty() {
        return Some(unasked());
    }
    with_words(words)
}

// The request of a line that has words.
fn with_words(words: &[String]) -> Option<Request<'_>>
    ensures { MatchOption result (¬ (IsLineOfWords words.now)) (SaysInWords words.now) }
{
    about_shares(words).or(about_calls(words))
}

// The request of a line about work that is shared out.
fn about_shares(words: &[String]) -> Option<Request<'_>>
    ensures { MatchOption result (¬ (IsShareLine words.now)) (SaysShare words.now) }
{
    drain(words).or(batches(words)).or(grid(words))
}

// The request of a line about lists, or about explorers.
fn about_calls(words: &[String]) -> Option<Request<'_>>
    ensures { MatchOption result (¬ (IsCallLine words.now)) (SaysCall words.now) }
{
    about_lists(words).or(about_explorers(words))
}

// The request of a line about lists and about the threads for them.
fn about_lists(words: &[String]) -> Option<Request<'_>>
    ensures { MatchOption result (¬ (IsListLine words.now)) (SaysList words.now) }
{
    segments(words).or(fold(words)).or(threads(words))
}

// The request of a line about explorers.
fn about_explorers(words: &[String]) -> Option<Request<'_>>
    ensures { MatchOption result (¬ (IsExplorerLine words.now)) (SaysExplorer words.now) }
{
    mix(words).or(fold_parallel(words)).or(searches(words))
}

// The request of a line that asks for a search.
fn searches(words: &[String]) -> Option<Request<'_>>
    ensures { MatchOption result (¬ (IsSearchLine words.now)) (SaysSearch words.now) }
{
    explore_sum(words).or(root(words))
}

// What the program does without words: `drain 4 2`.
fn unasked() -> Request<'static>
    ensures { IsUnasked result }
{
    Request::Drain {
        rows: 4,
        workers: NonZeroUsize::MIN.saturating_add(1),
    }
}

// The request of a line `drain ROWS WORKERS`.
fn drain(words: &[String]) -> Option<Request<'_>>
    ensures { MatchOption result (¬ (IsDrainLine words.now)) (SaysDrain words.now) }
{
    match words {
        [name, rows, workers] if name.as_str() == "drain" => Some(Request::Drain {
            rows: number(rows, MOST_ROWS)?,
            workers: count(workers, MOST_WORKERS)?,
        }),
        _ => None,
    }
}

// The request of a line `batches LEN COUNT`.
fn batches(words: &[String]) -> Option<Request<'_>>
    ensures { MatchOption result (¬ (IsBatchesLine words.now)) (SaysBatches words.now) }
{
    match words {
        [name, len, ranges] if name.as_str() == "batches" => Some(Request::Batches {
            len: number(len, usize::MAX)?,
            count: count(ranges, MOST_RANGES)?,
        }),
        _ => None,
    }
}

// The request of a line `grid ROWS COST LEN WORKERS`.
fn grid(words: &[String]) -> Option<Request<'_>>
    ensures { MatchOption result (¬ (IsGridLine words.now)) (SaysGrid words.now) }
{
    match words {
        [name, rows, cost, len, workers] if name.as_str() == "grid" => Some(Request::Grid {
            grid: Grid {
                rows: number(rows, usize::MAX)?,
                tile_cost: count(cost, usize::MAX)?,
            },
            len: number(len, usize::MAX)?,
            workers: count(workers, usize::MAX)?,
        }),
        _ => None,
    }
}

// The request of a line `segments N LEN`.
fn segments(words: &[String]) -> Option<Request<'_>>
    ensures { MatchOption result (¬ (IsSegmentsLine words.now)) (SaysSegments words.now) }
{
    match words {
        [name, threads, len] if name.as_str() == "segments" => Some(Request::Segments {
            threads: count(threads, MOST_THREADS)?,
            len: number(len, usize::MAX)?,
        }),
        _ => None,
    }
}

// The request of a line `fold serial IDENTITY ITEM..`.
fn fold(words: &[String]) -> Option<Request<'_>>
    ensures { MatchOption result (¬ (IsFoldLine (codes "serial") words.now)) (SaysFold words.now) }
{
    match words {
        [name, through, identity, items @ ..]
            if name.as_str() == "fold" && through.as_str() == "serial" && are_items(items) => {
            Some(Request::Fold {
                identity: number(identity, MOST_NUMBER)?,
                items,
            })
        }
        _ => None,
    }
}

// The request of a line `fold parallel IDENTITY ITEM..`.
fn fold_parallel(words: &[String]) -> Option<Request<'_>>
    ensures { MatchOption result (¬ (IsFoldLine (codes "parallel") words.now))
        (SaysFoldParallel words.now) }
{
    match words {
        [name, through, identity, items @ ..]
            if name.as_str() == "fold" && through.as_str() == "parallel" && are_items(items) => {
            Some(Request::FoldParallel {
                identity: number(identity, MOST_NUMBER)?,
                items,
            })
        }
        _ => None,
    }
}

// The request of a line `threads SET NUM CPUS MACHINE`.
fn threads(words: &[String]) -> Option<Request<'_>>
    ensures { MatchOption result (¬ (IsThreadsLine words.now)) (SaysThreads words.now) }
{
    match words {
        [name, set, num_threads, num_cpus, machine] if name.as_str() == "threads" => {
            Some(Request::Threads {
                set: number(set, usize::MAX)?,
                num_threads: text_or_none(num_threads),
                num_cpus: text_or_none(num_cpus),
                machine: count_or_none(machine, usize::MAX)?,
            })
        }
        _ => None,
    }
}

// The request of a line `mix SEED LINE COLUMN LEN`.
fn mix(words: &[String]) -> Option<Request<'_>>
    ensures { MatchOption result (¬ (IsMixLine words.now)) (SaysMix words.now) }
{
    match words {
        [name, seed, line, column, len] if name.as_str() == "mix" => Some(Request::Mix {
            seed: number_of_64_bits(seed)?,
            line: number_of_32_bits(line)?,
            column: number_of_32_bits(column)?,
            len: number(len, usize::MAX)?,
        }),
        _ => None,
    }
}

// The request of a line `explore sum`.
fn explore_sum(words: &[String]) -> Option<Request<'_>>
    ensures { MatchOption result (¬ (IsExploreLine (codes "sum") words.now))
        (SaysExploreSum words.now) }
{
    match words {
        [name, what] if name.as_str() == "explore" && what.as_str() == "sum" => {
            Some(Request::ExploreSum)
        }
        _ => None,
    }
}

// The request of a line `root ITEM..`.
fn root(words: &[String]) -> Option<Request<'_>>
    ensures { MatchOption result (¬ (IsRootLine words.now)) (SaysRoot words.now) }
{
    match words {
        [name, items @ ..] if name.as_str() == "root" && are_items(items) => {
            Some(Request::Root { items })
        }
        _ => None,
    }
}

/// Whether the words are `explore bodies`.
pub fn is_bodies(words: &[String]) -> bool
    ensures { IsTrue result ↔ IsBodiesLine words.now }
{
    match explore_bodies(words) {
        Some(()) => true,
        None => false,
    }
}

// Something for a line `explore bodies`.
fn explore_bodies(words: &[String]) -> Option<()>
    ensures { MatchOption result (¬ (IsBodiesLine words.now)) (λ _. IsBodiesLine words.now) }
{
    match words {
        [name, what] if name.as_str() == "explore" && what.as_str() == "bodies" => Some(()),
        _ => None,
    }
}

// Whether the words are items of a fold or a tree: not too many, and each a number that is not too
// great.
fn are_items(words: &[String]) -> bool
    ensures { IsTrue result ↔ AreItems words.now }
{
    words.len() <= MOST_ITEMS && words.iter().all(|word| number(word, MOST_NUMBER).is_some())
}
