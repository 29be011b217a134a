//! Grids of tiles: what they cost, and which of several is chosen.
ghost use Rattle.std.specs.Prelude.{◌≡◌, ◌↔◌, ◌<◌, ◌≤◌, ◌*◌, length, IsTrue, IsFalse, HoldsAt};
ghost use Rattle.std.specs.Int.NonZero.{non_zero_usize_get};

use std::num::NonZeroUsize;

/// A way to lay work out as rows of columns, as many in each, of which workers fill tiles.
///
/// A tile is some neighbouring columns of one row. To begin one costs `tile_cost` columns.
#[derive(Clone, Copy, Debug, PartialEq, Eq)]
pub struct Grid {
    /// The number of rows.
    pub rows: usize,
    /// What a tile costs besides its columns, in columns.
    pub tile_cost: NonZeroUsize,
}

impl Grid {
    ghost use Rattle.parallel_shares.specs.Grid.{critical_cost, stays_whole, Fits, IsChosenGrid};

    /// What the longest chain of work costs on rows of `len` columns among `workers` workers, and
    /// whether rows stay whole.
    ///
    /// Costs are counted in columns, and each sum and product stops at the greatest `usize`. The
    /// number is `critical_cost` and the flag `stays_whole`. Rows are cut only where that is
    /// cheaper, and only where a row has at least twice as many columns as a tile costs.
    pub fn critical_path(&self, len: usize, workers: NonZeroUsize) -> (usize, bool)
        ensures cost { result.0 ≡ critical_cost self.now len (non_zero_usize_get workers) }
        ensures whole { result.1 ≡ stays_whole self.now len (non_zero_usize_get workers) }
        ensures cut_pays { IsFalse result.1 → 2 * non_zero_usize_get self.now.tile_cost ≤ len }
    {
        let tile_cost = self.tile_cost.get();
        let row = len.saturating_add(tile_cost);
        let whole = self.rows.div_ceil(workers.get()).saturating_mul(row);
        if len < tile_cost.saturating_mul(2) {
            return (whole, true);
        }
        let shared = self.rows.saturating_mul(row) / workers;
        let cut = shared.saturating_add(tile_cost.saturating_mul(3));
        if cut < whole {
            (cut, false)
        } else {
            (whole, true)
        }
    }

    /// The first grid of least cost for rows of `len` columns and `workers` workers: its index, and
    /// the number and the flag of its `critical_path`.
    ///
    /// `IsChosenGrid` says which one that is. There has to be a grid.
    pub fn choose(grids: &[Grid], len: usize, workers: NonZeroUsize) -> (usize, usize, bool)
        requires { 0 < length grids.now }
        ensures chosen { IsChosenGrid grids.now len (non_zero_usize_get workers) result.0 }
        ensures cost { HoldsAt
            (λ grid. result.1 ≡ critical_cost grid len (non_zero_usize_get workers)) grids.now
            result.0 }
        ensures whole { HoldsAt
            (λ grid. result.2 ≡ stays_whole grid len (non_zero_usize_get workers)) grids.now
            result.0 }
    {
        let mut chosen = 0;
        let (mut cost, mut whole) = grids[0].critical_path(len, workers);
        for index in 1..grids.len() {
            let (next_cost, next_whole) = grids[index].critical_path(len, workers);
            if next_cost < cost {
                chosen = index;
                cost = next_cost;
                whole = next_whole;
            }
        }
        (chosen, cost, whole)
    }

    /// Whether there is a grid, and the cells of each can be counted, on rows of `len` columns:
    /// `rows * len` is at most the greatest `usize`, as `Fits` says.
    pub fn fits(grids: &[Grid], len: usize) -> bool
        ensures { IsTrue result ↔ Fits grids.now len }
    {
        !grids.is_empty()
            && grids
                .iter()
                .all(|grid| grid.rows.checked_mul(len).is_some())
    }
}
