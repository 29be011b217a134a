//! What a strategy is asked, and what it returns: calls and picks.
ghost use Rattle.std.specs.Prelude.{◌≡◌, ◌<◌, ◌≤◌, false, true};
ghost use Rattle.std.specs.Int.NonZero.{non_zero_usize_get};
ghost use Rattle.commonware_parallel.specs.Calls.{HasPick, batches_call, body_call, first_pick, goes_by_path, join_call, last_pick, multiplied_call, nth_pick};
ghost use Rattle.commonware_parallel.specs.Calls.{options_of, spawn_call, tiles_call, work_of};

use parallel_bridge::Path;
use std::num::NonZeroUsize;

/// What a call runs, and so which picks it has.
#[derive(Clone, Copy, Debug, PartialEq, Eq, Hash)]
pub enum Kind {
    /// By a path, a serial body or a parallel one: `run`, folds, maps and sorts.
    Body,
    /// In a number of ranges.
    Batches,
    /// For a number of workers.
    Tiles,
    /// By a path: serially run at once, in parallel handed off.
    Spawn,
    /// By a path: serially one after the other, in parallel side by side.
    Join,
}

/// What a strategy picks for a call, and what the call's body is told.
#[derive(Clone, Copy, Debug, PartialEq, Eq, Hash)]
pub enum Pick {
    /// Of a body, a join or a job: its path.
    By(Path),
    /// Of batches the number of ranges, of tiles that of workers; at least 1.
    Into(usize),
}

/// A call that a strategy is asked to choose for.
#[derive(Clone, Copy, Debug, PartialEq, Eq, Hash)]
pub struct Call {
    pub kind: Kind,
    /// The number of items.
    pub len: usize,
    /// The work that the items stand for, by which a policy tells calls apart.
    pub work: usize,
    /// How many ranges or workers there may be at most; 1 for a call that goes by a path.
    pub max_parts: usize,
}

// The work of `len` items that each stand for `multiplier`, or the greatest `usize`.
fn total_work(len: usize, multiplier: usize) -> usize
    ensures { result ≡ work_of len multiplier }
{
    len.saturating_mul(multiplier)
}

impl Kind {
    // Whether its calls go by a path.
    fn goes_by_path(self) -> bool
        ensures { result ≡ goes_by_path self }
    {
        match self {
            Kind::Body | Kind::Spawn | Kind::Join => true,
            Kind::Batches | Kind::Tiles => false,
        }
    }
}

impl Call {
    /// The choice between a serial and a parallel body over `len` items.
    pub fn body(len: usize) -> Call
        ensures { result ≡ body_call len }
    {
        Call {
            kind: Kind::Body,
            len,
            work: len,
            max_parts: 1,
        }
    }

    /// The choice between a serial and a parallel body over `len` items that stand for more work
    /// than one each. The work is `len * multiplier`, which stops at the greatest `usize`.
    pub fn body_with_multiplier(len: usize, multiplier: usize) -> Call
        ensures { result ≡ multiplied_call len multiplier }
    {
        Call {
            kind: Kind::Body,
            len,
            work: total_work(len, multiplier),
            max_parts: 1,
        }
    }

    /// The choice between two closures one after the other and side by side.
    pub fn join() -> Call
        ensures { result ≡ join_call }
    {
        Call {
            kind: Kind::Join,
            len: 2,
            work: 2,
            max_parts: 1,
        }
    }

    /// The choice between a job over `len` items that is run at once and one that is handed off.
    pub fn spawn(len: usize) -> Call
        ensures { result ≡ spawn_call len }
    {
        Call {
            kind: Kind::Spawn,
            len,
            work: len,
            max_parts: 1,
        }
    }

    /// The choice among numbers of ranges of `0..len` for a strategy planned for `parallelism`: no
    /// range is to be shorter than `minimum`, and there is one range at least. The work is `len *
    /// multiplier`, which stops at the greatest `usize`.
    pub fn batches(
        parallelism: NonZeroUsize,
        len: usize,
        minimum: NonZeroUsize,
        multiplier: usize,
    ) -> Call
        ensures { result ≡ batches_call (non_zero_usize_get parallelism) len
            (non_zero_usize_get minimum) multiplier }
    {
        Call {
            kind: Kind::Batches,
            len,
            work: total_work(len, multiplier),
            max_parts: parallelism.get().min(len / minimum).max(1),
        }
    }

    /// The choice among numbers of workers for a strategy planned for `parallelism`, on rows of
    /// `len` columns. The work is `cost * multiplier`, which stops at the greatest `usize`.
    pub fn tiles(parallelism: NonZeroUsize, len: usize, cost: usize, multiplier: usize) -> Call
        ensures { result ≡ tiles_call (non_zero_usize_get parallelism) len cost multiplier }
    {
        Call {
            kind: Kind::Tiles,
            len,
            work: total_work(cost, multiplier),
            max_parts: parallelism.get(),
        }
    }

    /// The first pick: serially, or in one part.
    pub fn first(self) -> Pick
        ensures first { result ≡ first_pick self }
        ensures has { 0 < self.max_parts → HasPick self result }
    {
        if self.kind.goes_by_path() {
            Pick::By(Path::Serial)
        } else {
            Pick::Into(1)
        }
    }

    /// The last pick: in parallel, or in as many parts as there may be.
    pub fn last(self) -> Pick
        ensures last { result ≡ last_pick self }
        ensures has { 0 < self.max_parts → HasPick self result }
    {
        if self.kind.goes_by_path() {
            Pick::By(Path::Parallel)
        } else {
            Pick::Into(self.max_parts)
        }
    }

    /// How many picks there are: two paths, or as many as there may be parts.
    pub fn options(self) -> usize
        ensures options { result ≡ options_of self }
        ensures some { 0 < self.max_parts → 0 < result }
    {
        if self.kind.goes_by_path() {
            2
        } else {
            self.max_parts
        }
    }

    /// The pick that has that many before it: 0 is the first.
    pub fn nth(self, index: usize) -> Pick
        requires { index < options_of self }
        ensures pick { result ≡ nth_pick self index }
        ensures has { HasPick self result }
    {
        if !self.kind.goes_by_path() {
            return Pick::Into(index + 1);
        }
        match index {
            0 => Pick::By(Path::Serial),
            _ => Pick::By(Path::Parallel),
        }
    }

    /// The path that a pick is, of a call that goes by one.
    pub(crate) fn path(self, pick: Pick) -> Path
        requires has { HasPick self pick }
        requires by_path { goes_by_path self.kind ≡ true }
        ensures { pick ≡ Pick.By result }
    {
        match pick {
            Pick::By(path) => path,
            Pick::Into(_) => unreachable!(),
        }
    }

    /// The number of parts that a pick is, of a call that is made in parts.
    pub(crate) fn parts(self, pick: Pick) -> usize
        requires has { HasPick self pick }
        requires in_parts { goes_by_path self.kind ≡ false }
        ensures pick { pick ≡ Pick.Into result }
        ensures some { 0 < result }
        ensures fit { result ≤ self.max_parts }
    {
        match pick {
            Pick::Into(parts) => parts,
            Pick::By(_) => unreachable!(),
        }
    }
}
