//! Batches and tiles on the caller's thread: one whole range, and a plan for one worker.
ghost use Rattle.std.specs.Prelude.{IfOk};
ghost use Rattle.parallel_bridge.specs.Outcomes.{UnlessRefused};
ghost use Rattle.parallel_fault.specs.Trouble.{IsMemoryOnErr};
ghost use Rattle.parallel_shares.specs.Grid.{Fits};
ghost use Rattle.commonware_parallel.specs.declared.batches.Batches.{Batches};
ghost use Rattle.commonware_parallel.specs.declared.tiles.Tiles.{Tiles};

use super::Sequential;
use crate::batches::Batches;
use crate::tiles::Tiles;
use parallel_fault::{Fault, Trouble};
use parallel_policy::Place;
use parallel_shares::Grid;
use std::alloc::Global;
use std::num::NonZeroUsize;

impl Sequential {
    ghost use Rattle.commonware_parallel.specs.Batches.{IsWholeBatch};
    ghost use Rattle.commonware_parallel.specs.Tiles.{IsSerialTiling};

    /// A result of `run` over the whole batch of `0..len`, which is one range, whatever the
    /// minimum and the multiplier. The batch goes through this strategy and has the call's site
    /// (`IsWholeBatch`), and the closure has to accept that batch alone.
    ///
    /// # Errors
    ///
    /// `Fault::Memory` alone, of the batch's list; the closure wasn't called then.
    pub fn run_batches<P: Place, R, F: FnOnce(Batches<'_, Sequential, P>) -> R + Drop>(
        &self,
        alloc: Global,
        site: P,
        len: usize,
        _minimum: NonZeroUsize,
        _multiplier: usize,
        run: F,
    ) -> Result<R, Fault>
        requires { (batches : Batches Sequential P) → IsWholeBatch self.now site len batches
            → F.pre run batches }
        ensures answers { IfOk result (λ answer. (batches : Batches Sequential P)
            × IsWholeBatch self.now site len batches × F.post run batches answer) }
        ensures fault { IsMemoryOnErr result }
    {
        let batches = Batches::whole(alloc, self, site, len)?;
        Ok(run(batches))
    }

    /// As `run_batches`, with a closure that may fail by an error of its own.
    ///
    /// # Errors
    ///
    /// `Trouble::Closure` with the closure's error. `Trouble::Fault` with `Fault::Memory` alone, of
    /// the batch's list; the closure wasn't called then.
    pub fn try_run_batches<
        P: Place,
        R,
        E,
        F: FnOnce(Batches<'_, Sequential, P>) -> Result<R, E> + Drop,
    >(
        &self,
        alloc: Global,
        site: P,
        len: usize,
        _minimum: NonZeroUsize,
        _multiplier: usize,
        run: F,
    ) -> Result<R, Trouble<E>>
        requires { (batches : Batches Sequential P) → IsWholeBatch self.now site len batches
            → F.pre run batches }
        ensures { UnlessRefused result (λ out. (batches : Batches Sequential P)
            × IsWholeBatch self.now site len batches × F.post run batches out) }
    {
        let batches = Batches::whole(alloc, self, site, len)?;
        match run(batches) {
            Ok(answer) => Ok(answer),
            Err(error) => Err(Trouble::Closure(error)),
        }
    }

    /// A result of `run` over tiles of the first one of `grids` of least cost for one worker, on
    /// rows of `len` columns: a serial plan, which fills its rows whole and in order, whatever the
    /// multiplier. The tiles go through this strategy and have the call's site (`IsSerialTiling`),
    /// and the closure has to accept such tiles alone. Takes no memory.
    ///
    /// There has to be a grid, and the cells of each have to be countable (`Grid::fits`).
    pub fn run_tiles<P: Place, R, F: FnOnce(Tiles<'_, Sequential, P>) -> R + Drop>(
        &self,
        site: P,
        len: usize,
        grids: &[Grid],
        _multiplier: usize,
        run: F,
    ) -> R
        requires fits { Fits grids.now len }
        requires accepts { (tiles : Tiles Sequential P)
            → IsSerialTiling self.now site grids.now len tiles → F.pre run tiles }
        ensures { (tiles : Tiles Sequential P) × IsSerialTiling self.now site grids.now len tiles
            × F.post run tiles result }
    {
        run(Tiles::for_workers(self, site, grids, len, 1))
    }

    /// As `run_tiles`, with a closure that may fail by an error of its own. Takes no memory.
    ///
    /// # Errors
    ///
    /// The closure's error.
    pub fn try_run_tiles<
        P: Place,
        R,
        E,
        F: FnOnce(Tiles<'_, Sequential, P>) -> Result<R, E> + Drop,
    >(&self, site: P, len: usize, grids: &[Grid], multiplier: usize, run: F) -> Result<R, E>
        requires fits { Fits grids.now len }
        requires accepts { (tiles : Tiles Sequential P)
            → IsSerialTiling self.now site grids.now len tiles → F.pre run tiles }
        ensures { (tiles : Tiles Sequential P) × IsSerialTiling self.now site grids.now len tiles
            × F.post run tiles result }
    {
        self.run_tiles(site, len, grids, multiplier, run)
    }
}
