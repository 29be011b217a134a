//! The parts of a list that is cut, each changed where it lies, at the same time.
ghost use Rattle.std.specs.Prelude.{length};
ghost use Rattle.commonware_parallel.specs.InPlace.{AcceptsParts, ChangesParts};
ghost use Rattle.parallel_shares.specs.Cut.{CutsFrom};

use parallel_row::{Along, parts_in_row};
use std::num::NonZeroUsize;
use std::ops::Range;
use std::thread::Threads;

/// Calls `op` with each range's part of the list and the index at which it begins. The parts are
/// split among at most `threads` threads, of which the caller's is one.
pub(crate) fn each_part<Rt: Threads + Sync, T: Send, F: Fn(usize, &mut [T]) + Sync>(
    rt: &Rt,
    threads: NonZeroUsize,
    ranges: &[Range<usize>],
    items: &mut [T],
    op: &F,
)
    requires cut { CutsFrom 0 ranges.now (length items.old) }
    requires accepts { AcceptsParts F.Fn op.now ranges.now items.old }
    ensures { ChangesParts F.Fn op.now ranges.now items.old items.new }
{
    parts_in_row(
        rt,
        threads.get(),
        &Along { ranges },
        ranges.len(),
        items,
        op,
    );
}
