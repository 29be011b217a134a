//! What a grid costs one worker.
ghost use Rattle.commonware_parallel.specs.Words.{Fits, IsSerialCost};

use parallel_shares::Grid;
use std::num::NonZeroUsize;

/// The least cost of the grids for one worker.
pub(crate) fn serial_cost(grids: &[Grid], len: usize) -> usize
    requires { Fits grids.now len }
    ensures { IsSerialCost grids.now len result }
{
    let (_, cost, _) = Grid::choose(grids, len, NonZeroUsize::MIN);
    cost
}
