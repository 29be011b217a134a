//! Tiles: a grid's cells, filled by stretches of rows.
ghost use Rattle.std.specs.Prelude.{◌≡◌, ◌≢◌, ◌*◌, ◌+◌, ◌-◌, ◌≤◌, ◌<◌, ◌^◌, ◌⊎◌, ◌↔◌, ℕ, [], IfOk, IsFalse, IsTrue, not, MatchResult, length};
ghost use Rattle.std.specs.Borrow.{MutBor};
ghost use Rattle.std.specs.Int.NonZero.{non_zero_usize_get};
ghost use Rattle.std.specs.declared.ops.Range.{Range};
ghost use Rattle.parallel_fault.specs.Trouble.{IsMemoryOnErr};
ghost use Rattle.parallel_shares.specs.Fillings.{Ends, Fills, Gives};
ghost use Rattle.parallel_shares.specs.Grid.{Fits};
ghost use Rattle.commonware_parallel.specs.Chains.{OneChain, WholeRows};
ghost use Rattle.commonware_parallel.specs.MergedRows.{FillsCut, FillsSome};
ghost use Rattle.commonware_parallel.specs.Rectangles.{IsInGrid};

mod cost;
mod folded;
mod merged;
mod rows;
mod seats;

use crate::strategy::Strategy;
pub(crate) use cost::serial_cost;
pub(crate) use folded::fold_tiles;
use parallel_fault::Fault;
use parallel_policy::Place;
use parallel_shares::{Grid, Part, Shares, Stretch};
use rows::fill_rows;
use seats::fill_shared;
use std::alloc::Global;
use std::num::NonZeroUsize;
use std::ops::Range;
use std::sync::Wait;
use std::thread::Threads;

/// A grid of rows of equal length, planned for a number of workers, with the strategy and the call
/// site that fill it.
///
/// Planned for one worker its rows are filled one after another by the caller's thread, each whole.
/// Planned for more, workers claim rows or parts of rows, and one that has none left takes some of
/// another's.
#[derive(Debug, Drop)]
pub struct Tiles<'scope, S, P> {
    strategy: &'scope S,
    site: P,
    grid: usize,
    rows: usize,
    len: usize,
    tile_cost: NonZeroUsize,
    workers: NonZeroUsize,
    whole: bool,
    ghost cells_fit: { rows * len < 2 ^ 64 },
    ghost cut_pays: { IsFalse whole → 2 * non_zero_usize_get tile_cost ≤ len },
}

impl<'scope, S: Strategy, P: Place> Tiles<'scope, S, P> {
    ghost use Rattle.commonware_parallel.specs.Tiles.{IfSerialTiles, IsTiling, columns_of, grid_of, keeps_rows, rows_of, tiles_place, tiles_strategy, workers_of};

    /// The index of the grid that was chosen in the list that was handed in.
    pub fn grid(&self) -> usize
        ensures { result ≡ grid_of self.now }
    {
        self.grid
    }

    /// The number of workers that the tiles are planned for: 1 for a serial plan.
    pub fn workers(&self) -> NonZeroUsize
        ensures { non_zero_usize_get result ≡ workers_of self.now }
    {
        self.workers
    }

    /// Whether rows may be cut: whether parts of one row may go to several workers.
    pub fn is_cut(&self) -> bool
        ensures { result ≡ not (keeps_rows self.now) }
    {
        !self.whole
    }

    // Tiles of the grid of least cost for that many workers.
    pub(crate) fn for_workers(
        strategy: &'scope S,
        site: P,
        grids: &[Grid],
        len: usize,
        workers: usize,
    ) -> Tiles<'scope, S, P>
        requires fits { Fits grids.now len }
        requires some { 0 < workers }
        ensures strategy { tiles_strategy result ≡ strategy.now }
        ensures place { tiles_place result ≡ site }
        ensures tiling { IsTiling grids.now len workers result }
    {
        let workers = NonZeroUsize::MIN.saturating_add(workers - 1);
        let (grid, _, whole) = Grid::choose(grids, len, workers);
        let Grid { rows, tile_cost } = grids[grid];
        Tiles {
            strategy,
            site,
            grid,
            rows,
            len,
            tile_cost,
            workers,
            whole,
        }
    }

    // Whether there is no cell.
    fn is_empty(&self) -> bool
        ensures empty { IsTrue result → (rows_of self.now ≡ 0) ⊎ (columns_of self.now ≡ 0) }
        ensures some_rows { IsFalse result → rows_of self.now ≢ 0 }
        ensures some_columns { IsFalse result → columns_of self.now ≢ 0 }
    {
        self.rows == 0 || self.len == 0
    }

    // Whether the tiles are planned for the caller's thread alone.
    fn is_serial(&self) -> bool
        ensures { IsTrue result ↔ workers_of self.now ≡ 1 }
    {
        self.workers.get() == 1
    }

    /// A result for each stretch of the grid: `fill` is lent a state with a row and neighbouring
    /// columns of it, until the stretch is filled, and then `finish` gives its result.
    ///
    /// Each cell is in just one stretch (`CutsRectangle`); where rows aren't cut each stretch is a
    /// whole row. Stretches and results fall into chains (`Chains`), each from a state that `init`
    /// makes; their order is open. A serial plan has one chain, over the rows in order, and fills
    /// each row by one call (`OneChain`). A grid of no cells has no results; `init` isn't called.
    ///
    /// # Errors
    ///
    /// `Fault::Memory` alone. Any number of the closures may have been called then.
    pub fn fill_collect_vec<
        Rt: Threads + Wait + Sync,
        T: Send + Drop,
        R: Send + Drop,
        N: Fn() -> T + Send + Sync + Drop,
        L: Fn(&mut T, usize, Range<usize>) + Send + Sync + Drop,
        F: Fn(&mut T, usize) -> R + Send + Sync + Drop,
    >(self, rt: &Rt, alloc: Global, init: N, fill: L, finish: F) -> Result<Vec<R>, Fault>
        requires init_accepts { N.IsAlwaysCallable init }
        requires fill_accepts { (state : MutBor T) (row : ℕ) (columns : Range ℕ)
            → IsInGrid (rows_of self) (columns_of self) row columns
            → L.pre fill state row columns }
        requires finish_accepts { (state : MutBor T) (row : ℕ) → row < rows_of self
            → F.pre finish state row }
        ensures fills { IfOk result (λ results. FillsCut (N.post init) (Fills (L.post fill))
            (Gives (F.post finish)) (rows_of self.entry) (columns_of self.entry)
            (keeps_rows self.entry) results.items) }
        ensures serial { IfSerialTiles self.entry
            (IfOk result (λ results. OneChain (N.post init) (Fills (L.post fill))
            (Gives (F.post finish)) (rows_of self.entry) (columns_of self.entry) results.items)) }
        ensures empty { (rows_of self.entry ≡ 0) ⊎ (columns_of self.entry ≡ 0)
            → MatchResult result (λ results. results.items ≡ []) (λ _. ⊥) }
        ensures fault { IsMemoryOnErr result }
    {
        let results = self.fill_stretches(rt, alloc, init, fill, finish)?;
        Ok(results)
    }

    /// The same, where `finish` is handed the row of its stretch, or all of it.
    ///
    /// # Errors
    ///
    /// `Fault::Memory` if an allocation fails.
    fn fill_stretches<
        Rt: Threads + Wait + Sync,
        T: Send + Drop,
        Q: Part + Send,
        R: Send + Drop,
        N: Fn() -> T + Send + Sync + Drop,
        L: Fn(&mut T, usize, Range<usize>) + Send + Sync + Drop,
        F: Fn(&mut T, Q) -> R + Send + Sync + Drop,
    >(self, rt: &Rt, alloc: Global, init: N, fill: L, finish: F) -> Result<Vec<R>, Fault>
        requires init_accepts { N.IsAlwaysCallable init }
        requires fill_accepts { (state : MutBor T) (row : ℕ) (columns : Range ℕ)
            → IsInGrid (rows_of self) (columns_of self) row columns
            → L.pre fill state row columns }
        requires finish_accepts { (state : MutBor T) (stretch : Stretch)
            → stretch.row < rows_of self → F.pre finish state (Q.part_of stretch) }
        ensures fills { IfOk result (λ results. FillsSome (N.post init) (Fills (L.post fill))
            (Ends Q.part_of (F.post finish)) (rows_of self.entry) (columns_of self.entry)
            (keeps_rows self.entry) results.items) }
        ensures serial { IfSerialTiles self.entry (IfOk result (λ results. (s t : T) × N.post init s
            × WholeRows (Fills (L.post fill)) (Ends Q.part_of (F.post finish))
            (columns_of self.entry) s (rows_of self.entry) results.items t)) }
        ensures empty { (rows_of self.entry ≡ 0) ⊎ (columns_of self.entry ≡ 0)
            → MatchResult result (λ results. results.items ≡ []) (λ _. ⊥) }
        ensures fault { IsMemoryOnErr result }
    {
        if self.is_empty() {
            return Ok(Vec::new(alloc));
        }
        if self.is_serial() {
            let mut state = init();
            let whole = fill_rows(alloc, self.rows, self.len, &mut state, &fill, &finish)?;
            return Ok(whole);
        }
        let (rows, len, workers) = (self.rows, self.len, self.workers);
        let (shares, seats) = Shares::new(alloc, rows, len, self.tile_cost, workers, self.whole)?;
        let (strategy, site) = (self.strategy, self.site);
        let results = fill_shared(
            strategy, rt, alloc, site, shares, seats, len, init, &fill, &finish,
        )?;
        Ok(results)
    }
}
