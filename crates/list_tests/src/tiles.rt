//! Tiles and kernels by row: which cells are filled, for how many workers, and what is returned for
//! each row.
use crate::checks::{Of, lists, row};
use commonware_parallel::{Fault, Grid, Sequential, Site, Strategy, Tiles};
use std::alloc::Global;
use std::ops::Range;
use std::process::Abort;
use std::sync::Wait;
use std::sync::atomic::{AtomicU64, Ordering};
use std::thread::Threads;
use test_strategies::{SITE, pool};
use test_support::{holds, number, same};

// ---- tiles

// The columns that were filled for a result: how many, and the sum of their numbers.
type Filled = (usize, usize);

// What tiles returned: the grid, the workers, whether rows may be cut, and each result's row and
// columns.
type Told = ((usize, usize, bool), Vec<(usize, Filled)>);

fn grid(rt: &impl Abort, rows: usize, tile_cost: usize) -> Grid {
    Grid {
        rows,
        tile_cost: number(tile_cost),
    }
}

fn nothing() -> Filled {
    (0, 0)
}

fn fill_columns(filled: &mut Filled, _row: usize, columns: Range<usize>) {
    for column in columns {
        *filled = (filled.0.wrapping_add(1), filled.1.wrapping_add(column));
    }
}

// The row and its columns, of which the next row has none yet.
fn row_and_columns(filled: &mut Filled, row: usize) -> (usize, Filled) {
    let columns = *filled;
    *filled = nothing();
    (row, columns)
}

// What tiles return.
fn fill_tiles<Rt: Threads + Wait + Sync, S: Strategy>(
    rt: &Rt,
    alloc: Global,
    tiles: Tiles<'_, S, Site>,
) -> Result<Told, Fault> {
    let plan = (tiles.grid(), tiles.workers().get(), tiles.is_cut());
    let results = tiles.fill_collect_vec(rt, alloc, nothing, fill_columns, row_and_columns)?;
    Ok((plan, results))
}

// Fills the grids, whose rows have that many columns.
fn fill<Rt: Threads + Wait + Abort + Sync, S: Strategy>(
    rt: &Rt,
    alloc: Global,
    strategy: &S,
    len: usize,
    grids: &[Grid],
) -> Told {
    assert!(rt; Grid::fits(grids, len));
    let filled = strategy.run_tiles(rt, alloc, SITE, len, grids, 1, |tiles| {
        fill_tiles(rt, alloc, tiles)
    });
    filled.expect(rt, "tiles").expect(rt, "memory")
}

// The columns that one row's results say were filled.
fn columns_of(results: &[(usize, Filled)], at: usize) -> Filled {
    let mut filled = nothing();
    for (row, more) in results {
        if *row == at {
            filled = (filled.0.wrapping_add(more.0), filled.1.wrapping_add(more.1));
        }
    }
    filled
}

// Each row's results have all of its columns: the plan.
fn covers<Rt: Threads + Wait + Abort + Sync, S: Strategy>(
    rt: &Rt,
    alloc: Global,
    strategy: &S,
    (rows, len, tile_cost): (usize, usize, usize),
) -> (usize, usize, bool) {
    let grids = [grid(rt, rows, tile_cost)];
    let (plan, results) = fill(rt, alloc, strategy, len, &grids);
    let all = (len, len.wrapping_mul(len.wrapping_sub(1)) / 2);
    for at in 0..rows {
        let of: Of = ("columns of a row", "rows of that length", len);
        row(rt, of, columns_of(&results, at), all);
    }
    plan
}

#[test]
fn a_serial_plan_fills_each_row_whole(rt: HostRuntime) {
    let alloc = rt.alloc();
    let grids = [grid(&rt, 2, 1), grid(&rt, 1, 9)];
    assert!(rt; Grid::fits(&grids, 5));
    let own = Sequential.run_tiles(SITE, 5, &grids, usize::MAX, |tiles| {
        fill_tiles(&rt, alloc, tiles)
    });
    for told in [
        fill(&rt, alloc, &Sequential, 5, &grids),
        own.expect(&rt, "memory"),
    ] {
        same!(&rt, told.0, (0, 1, false));
        same!(
            &rt,
            told.1.as_slice(),
            [(0, (5, 10)), (1, (5, 10))].as_slice()
        );
    }
}

#[test]
fn two_workers_take_whole_rows_and_eight_cut_them(rt: HostRuntime) {
    let alloc = rt.alloc();
    for (threads, planned, is_cut) in [(2, 2, false), (1, 8, true), (2, 8, true), (4, 8, true)] {
        let strategy = pool(&rt, alloc, threads, planned).expect(&rt, "a pool");
        let plan = covers(&rt, alloc, &strategy, (4, 64, 1));
        let of: Of = ("tiles", "a pool of threads", threads);
        row(&rt, of, plan, (0, planned, is_cut));
    }
}

// How many results tiles have of a grid without cells. Counts the states that are made.
fn results_of_nothing<Rt: Threads + Wait + Abort + Sync, S: Strategy>(
    rt: &Rt,
    alloc: Global,
    strategy: &S,
    (rows, len): (usize, usize),
    made: &AtomicU64,
) -> Result<usize, Fault> {
    let grids = [grid(rt, rows, 3)];
    assert!(rt; Grid::fits(&grids, len));
    let results = strategy.run_tiles(rt, alloc, SITE, len, &grids, usize::MAX, |tiles| {
        let init = || {
            made.fetch_add(1, Ordering::SeqCst);
            nothing()
        };
        tiles.fill_collect_vec(rt, alloc, init, fill_columns, row_and_columns)
    })??;
    Ok(results.len())
}

// A grid without cells, of as many columns as there may be: no result, and no state.
#[test]
fn a_grid_without_cells_has_no_results(rt: HostRuntime) {
    let alloc = rt.alloc();
    let two = pool(&rt, alloc, 2, 2).expect(&rt, "a pool");
    let made = AtomicU64::new(0);
    for shape in [(0, usize::MAX), (7, 0), (0, 0)] {
        let count = results_of_nothing(&rt, alloc, &two, shape, &made);
        row(&rt, ("tiles", "no cells", shape.0), count, Ok(0));
    }
    same!(&rt, made.load(Ordering::SeqCst), 0);
}

// ---- kernels by row

// Columns of a row, from the first one up to the second, and the sum of their cells.
type Part = (usize, usize, usize, usize);

// The part, whose cell of a column is three times the column, and the row.
fn part_of(row: usize, columns: Range<usize>) -> Part {
    let (first, end) = (columns.start, columns.end);
    let mut sum = 0usize;
    for column in columns {
        sum = sum.wrapping_add(column.wrapping_mul(3).wrapping_add(row));
    }
    (row, first, end, sum)
}

// Two neighbouring parts of a row as one. Any others, or the two the wrong way round, are no part.
fn both_parts(left: Part, right: Part) -> Part {
    if left.0 != right.0 || left.2 != right.1 {
        return (usize::MAX, 0, 0, 0);
    }
    (left.0, left.1, right.2, left.3.wrapping_add(right.3))
}

#[test]
fn rows_of_three_columns_by_hand(rt: HostRuntime) {
    let alloc = rt.alloc();
    let two = pool(&rt, alloc, 2, 2).expect(&rt, "a pool");
    let cost = number(1);
    let values = two.fold_rows(&rt, alloc, SITE, 2, 3, cost, part_of, both_parts);
    let of: Of = ("kernel by row", "a pool", 3);
    lists(&rt, of, values, &[(0, 0, 3, 9), (1, 0, 3, 12)]);
    let values = two.fold_rows(&rt, alloc, SITE, 2, 0, cost, part_of, both_parts);
    let of: Of = ("kernel by row", "a pool", 0);
    lists(&rt, of, values, &[(0, 0, 0, 0), (1, 0, 0, 0)]);
}

// How many parts the kernel was called with, of one row of that many columns, each of which is in
// one part.
fn parts_of_a_row<Rt: Threads + Wait + Abort + Sync, S: Strategy>(
    rt: &Rt,
    alloc: Global,
    strategy: &S,
    len: usize,
    tile_cost: usize,
) -> u64 {
    let (called, cells) = (AtomicU64::new(0), AtomicU64::new(0));
    let kernel = |_row: usize, columns: Range<usize>| {
        cells.fetch_add(columns.len() as u64, Ordering::SeqCst);
        called.fetch_add(1, Ordering::SeqCst)
    };
    assert!(rt; 1usize.checked_mul(len).is_some());
    let cost = number(tile_cost);
    let values = strategy.fold_rows(rt, alloc, SITE, 1, len, cost, kernel, u64::wrapping_add);
    same!(rt, values.expect(rt, "memory").len(), 1);
    same!(rt, cells.load(Ordering::SeqCst), len as u64);
    called.load(Ordering::SeqCst)
}

#[test]
fn a_row_of_two_tiles_is_cut_and_a_shorter_one_is_not(rt: HostRuntime) {
    let alloc = rt.alloc();
    let four = pool(&rt, alloc, 4, 4).expect(&rt, "a pool");
    holds!(&rt, parts_of_a_row(&rt, alloc, &four, 640, 1) > 1);
    for (len, cost) in [(15, 8), (0, 1)] {
        let parts = parts_of_a_row(&rt, alloc, &four, len, cost);
        row(&rt, ("kernel by row", "a pool", len), parts, 1);
    }
    same!(&rt, parts_of_a_row(&rt, alloc, &Sequential, 640, 1), 1);
}
