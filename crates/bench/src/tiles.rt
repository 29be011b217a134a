//! The cells of a grid, added up: each is an item of the list, which is laid out as rows.
use crate::calls::SITE;
use crate::case::{Cost, Rows};
use crate::loops::folded;
use crate::work::{add, mixed, zero};
use commonware_parallel::{Fault, Grid, Runtime, Strategy};
use std::alloc::Global;
use std::num::NonZeroUsize;
use std::ops::Range;

/// How many rows there are where they are many.
const MANY_ROWS: usize = 1000;

/// How many rows there are where they are few.
const FEW_ROWS: usize = 3;

/// What a tile costs where rows are cut, counted in cells.
const CUT_COST: usize = 64;

/// How often the number of a heavy cell is mixed, which takes about 30 ns.
const CELL_ROUNDS: u64 = 16;

/// How many rows each round of a rising cell stands for: row i's cells are mixed i / 16 times.
const ROWS_A_ROUND: usize = 16;

/// How a list is laid out as rows, and what its cells cost. Items that fill no row are left out.
#[derive(Clone, Copy)]
pub struct Tiling {
    grid: Grid,
    /// How many cells a row has.
    len: usize,
    cost: Cost,
}

impl Tiling {
    /// The layout of a list of that many items. Rows that are to be kept whole have a tile cost of
    /// as many cells as they have, so that no number of workers cuts them.
    pub fn of(rows: Rows, cost: Cost, items: usize) -> Tiling {
        let number = match rows {
            Rows::Whole => MANY_ROWS,
            Rows::Cut => FEW_ROWS,
        };
        let len = items / number;
        let tile_cost = match rows {
            Rows::Whole => len,
            Rows::Cut => CUT_COST,
        };
        let tile_cost = NonZeroUsize::new(tile_cost).unwrap_or(NonZeroUsize::MIN);
        let grid = Grid {
            rows: number,
            tile_cost,
        };
        Tiling { grid, len, cost }
    }

    /// The sum over all cells, row after row.
    pub fn sum(self, items: &[u64]) -> u64 {
        let mut total = 0u64;
        for row in 0..self.grid.rows {
            total = total.wrapping_add(self.sum_of(items, row, 0..self.len));
        }
        total
    }

    // The sum over neighbouring cells of a row.
    fn sum_of(self, items: &[u64], row: usize, columns: Range<usize>) -> u64 {
        let first = row.saturating_mul(self.len);
        let start = first.saturating_add(columns.start);
        let end = first.saturating_add(columns.end);
        let Some(cells) = items.get(start..end) else {
            return 0;
        };
        match self.cost {
            Cost::Light => folded(cells, add),
            Cost::Heavy => sum_mixed(cells, CELL_ROUNDS),
            Cost::Rising => sum_mixed(cells, (row / ROWS_A_ROUND) as u64),
        }
    }
}

// The sum of what `rounds` rounds make of each cell.
#[inline(never)]
fn sum_mixed(cells: &[u64], rounds: u64) -> u64 {
    let mut total = 0u64;
    for cell in cells {
        total = total.wrapping_add(mixed(*cell, rounds));
    }
    total
}

/// The sum over all cells by the tiles of a strategy, each of which adds up its own.
///
/// # Errors
///
/// What was refused.
pub fn sum_of_tiles<Rt: Runtime, S: Strategy>(
    rt: &Rt,
    alloc: Global,
    strategy: &S,
    tiling: Tiling,
    items: &[u64],
) -> Result<u64, Fault> {
    let grids = [tiling.grid];
    if !Grid::fits(&grids, tiling.len) {
        return Ok(0);
    }
    let fill = |sum: &mut u64, row: usize, columns: Range<usize>| {
        *sum = sum.wrapping_add(tiling.sum_of(items, row, columns));
    };
    let sums = strategy.run_tiles(rt, alloc, SITE, tiling.len, &grids, 1, |tiles| {
        tiles.fill_collect_vec(rt, alloc, zero, fill, row_done)
    })??;
    Ok(folded(sums.as_slice(), add))
}

// The sum of a row, of which the next one has none yet.
fn row_done(sum: &mut u64, _row: usize) -> u64 {
    let total = *sum;
    *sum = 0;
    total
}
