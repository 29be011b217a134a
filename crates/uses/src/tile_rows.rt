//! A kernel over the rows of a matrix, which a strategy cuts as it likes, and one whose rows have
//! to stay whole.
ghost use Rattle.std.specs.Prelude.{◌≡◌, ◌+◌, ◌*◌, ◌<◌, ◌≤◌, ◌%◌, ◌^◌, IfOk, length};
ghost use Rattle.parallel_fault.specs.Trouble.{IsMemoryOnErr, IsMemoryOnFault};
ghost use Rattle.commonware_parallel.specs.Tiles.{workers_of};
ghost use Rattle.uses.specs.Tiles.{is_above, number_of, numbers_by_row, row_cells};

use commonware_parallel::{Fault, Grid, Place, Strategy, Tiles, Trouble};
use std::alloc::Global;
use std::num::NonZeroUsize;
use std::ops::Range;
use std::sync::Wait;
use std::thread::Threads;

// What it costs to begin a part of a row, in cells: rows of at least twice as many may be cut.
const TILE_COST: usize = 64;

/// How many cells of each row of a matrix are above a threshold. The rows stand one after another,
/// each of `len` cells, and there is nothing else in the matrix.
///
/// The strategy cuts the rows as it likes, and each of them has one count. The kernel is asked for
/// columns of the matrix's own rows alone, so it looks at its cells with no test.
///
/// # Errors
///
/// `Fault::Memory` alone.
pub fn above_by_row<Rt: Threads + Wait + Sync, P: Place, S: Strategy>(
    rt: &Rt,
    alloc: Global,
    strategy: &S,
    site: P,
    matrix: &[u8],
    rows: usize,
    len: usize,
    threshold: u8,
) -> Result<Vec<usize>, Fault>
    requires { rows * len ≡ length matrix.now }
    ensures counted { IfOk result
        (λ counts. counts.items ≡ numbers_by_row (is_above threshold) matrix.now rows len) }
    ensures fault { IsMemoryOnErr result }
{
    let kernel = |row: usize, columns: Range<usize>| -> usize
        requires { (columns.start ≤ columns.end)
            × (row * len + columns.end ≤ length matrix.now) }
        ensures { result ≡ number_of (is_above threshold)
            (row_cells matrix.entry.now len row columns.start columns.end) }
    {
        let first = row * len;
        count_above(
            &matrix[first + columns.start..first + columns.end],
            threshold,
        )
    };
    let add = |left: usize, right: usize| -> usize
        ensures { result ≡ (left + right) % 2 ^ 64 }
    { left.wrapping_add(right) };
    let tile_cost = NonZeroUsize::MIN.saturating_add(TILE_COST - 1);
    strategy.fold_rows(rt, alloc, site, rows, len, tile_cost, kernel, add)
}

// How many cells are above the threshold.
fn count_above(cells: &[u8], threshold: u8) -> usize
    ensures { result ≡ number_of (is_above threshold) cells.now }
{
    cells.iter().filter(|cell| **cell > threshold).count()
}

/// The error of a kernel whose rows have to stay whole, and would be cut.
#[derive(Clone, Copy, Debug, PartialEq, Eq)]
pub struct RowsAreCut;

/// For how many workers a strategy plans a kernel whose rows have to stay whole.
///
/// # Errors
///
/// `Trouble::Closure` with `RowsAreCut` where the strategy would cut the rows: its policy is told
/// nothing of that run. `Trouble::Fault` with `Fault::Memory` alone.
pub fn workers_on_whole_rows<Rt: Wait, P: Place, S: Strategy>(
    rt: &Rt,
    alloc: Global,
    strategy: &S,
    site: P,
    rows: usize,
    len: usize,
) -> Result<usize, Trouble<RowsAreCut>>
    requires { rows * len < 2 ^ 64 }
    ensures some { IfOk result (λ workers. 0 < workers) }
    ensures planned { IfOk result (λ workers. workers ≤ S.plans strategy.now) }
    ensures fault { IsMemoryOnFault result }
{
    let tile_cost = NonZeroUsize::MIN.saturating_add(TILE_COST - 1);
    let grids = [Grid { rows, tile_cost }];
    let plan = |tiles: Tiles<'_, S, P>| -> Result<usize, RowsAreCut>
        ensures { IfOk result (λ workers. workers ≡ workers_of tiles.entry) }
    {
        if tiles.is_cut() {
            return Err(RowsAreCut);
        }
        Ok(tiles.workers().get())
    };
    strategy.try_run_tiles(rt, alloc, site, len, &grids, 1, plan)
}
