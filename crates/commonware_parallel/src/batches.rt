//! Batches: balanced ranges of the indices of a list, and the calls that go over them.
ghost use Rattle.std.specs.Prelude.{◌≡◌, ◌≢◌, ◌↔◌, ◌+◌, ◌/◌, ◌<◌, ◌≤◌, [], ◌∷◌, Vec, length, All, IfErr, IfOk, IsTrue, Ok, OnOk, max};
ghost use Rattle.std.specs.Fn.{FnOnceReturnsAt, FnOnceTakesAt};
ghost use Rattle.std.specs.List.{Contains};
ghost use Rattle.parallel_bridge.specs.Lists.{MapOf};
ghost use Rattle.parallel_bridge.specs.Outcomes.{listed};
ghost use Rattle.parallel_bridge.specs.Tries.{TryMapOf};
ghost use Rattle.std.specs.Int.NonZero.{non_zero_usize_get};
ghost use Rattle.parallel_fault.specs.Trouble.{IsMemoryOnErr};
ghost use Rattle.parallel_shares.specs.Cut.{BalancedCut, CutsFrom, range_length};

use crate::call::Call;
use crate::chosen::{begin_path, threads_by};
use crate::in_place::each_part;
use crate::running::end_run;
use crate::sequential::Sequential;
use crate::strategy::Strategy;
use parallel_fault::{Fault, Trouble};
use parallel_policy::Place;
use parallel_shares::cut;
use std::alloc::Global;
use std::num::NonZeroUsize;
use std::ops::Range;
use std::sync::Wait;
use std::thread::Threads;

/// The ranges of indices that a batch is run over, with the strategy and the call site that run it.
#[derive(Debug, Drop)]
pub struct Batches<'scope, S, P> {
    strategy: &'scope S,
    site: P,
    ranges: Vec<Range<usize>>,
}

impl<'scope, S: Strategy, P: Place> Batches<'scope, S, P> {
    ghost use Rattle.commonware_parallel.specs.Batches.{AnswersPrepared, FailsPrepared, IsBatch, place_of, ranges_of, strategy_of};
    ghost use Rattle.commonware_parallel.specs.Words.{AcceptsParts, Asked, ChangesParts, body_call};

    /// One range, `0..len`. An empty input has one range too, which is `0..0`.
    ///
    /// # Errors
    ///
    /// `Fault::Memory` if an allocation fails.
    pub fn whole(
        alloc: Global,
        strategy: &'scope S,
        site: P,
        len: usize,
    ) -> Result<Batches<'scope, S, P>, Fault>
        ensures strategy { IfOk result (λ batches. strategy_of batches ≡ strategy.now) }
        ensures place { IfOk result (λ batches. place_of batches ≡ site) }
        ensures one { IfOk result (λ batches. ranges_of
            batches ≡ record { start = 0; end = len } ∷ []) }
        ensures fault { IsMemoryOnErr result }
    {
        let mut ranges = Vec::with_capacity(alloc, 1)?;
        ranges.push(0..len)?;
        Ok(Batches {
            strategy,
            site,
            ranges,
        })
    }

    /// The balanced ranges of `0..len`, `count` of them.
    ///
    /// # Errors
    ///
    /// `Fault::Memory` if an allocation fails.
    pub fn balanced(
        alloc: Global,
        strategy: &'scope S,
        site: P,
        len: usize,
        count: NonZeroUsize,
    ) -> Result<Batches<'scope, S, P>, Fault>
        ensures strategy { IfOk result (λ batches. strategy_of batches ≡ strategy.now) }
        ensures place { IfOk result (λ batches. place_of batches ≡ site) }
        ensures balanced { IfOk result (λ batches. BalancedCut len (ranges_of batches)) }
        ensures count { IfOk result (λ batches. length
            (ranges_of batches) ≡ non_zero_usize_get count) }
        ensures least { IfOk result (λ batches.
            All (λ range. len / non_zero_usize_get count ≤ range_length range)
            (ranges_of batches)) }
        ensures fault { IsMemoryOnErr result }
    {
        let ranges = cut(alloc, len, count)?;
        Ok(Batches {
            strategy,
            site,
            ranges,
        })
    }

    /// The strategy that the parts of the batch go through.
    pub fn strategy(&self) -> &'scope S
        ensures { result.now ≡ strategy_of self.now }
    {
        self.strategy
    }

    /// The site of the call that made the batch.
    pub fn site(&self) -> P
        ensures { result ≡ place_of self.now }
    {
        self.site
    }

    /// The ranges, in order and without a gap.
    pub fn ranges(&self) -> &[Range<usize>]
        ensures { result.now ≡ ranges_of self.now }
    {
        self.ranges.as_slice()
    }

    /// Whether there is one range alone, as an empty input has it too.
    pub fn is_whole(&self) -> bool
        ensures { IsTrue result ↔ (length (ranges_of self.now) ≡ 1) }
    {
        self.ranges.len() == 1
    }

    /// The results of `map_op` for the items that `prepare` makes of the ranges, in the items'
    /// order (`MapOf`). A whole batch is mapped on the caller's thread, and any other is handed to
    /// the batch's strategy with the batch's site. By which of the two it went no clause says: a
    /// test counts how often the strategy is asked.
    ///
    /// # Errors
    ///
    /// The refusal that `prepare` returns, and `map_op` isn't called then; or `Fault::Memory` of
    /// the map's own, after items were prepared.
    pub fn map_collect_vec<
        Rt: Threads + Wait + Sync,
        T: Send + Drop,
        R: Send + Drop,
        G: FnOnce(&[Range<usize>]) -> Result<Vec<T>, Fault>,
        F: Fn(T) -> R + Send + Sync + Drop,
    >(self, rt: &Rt, alloc: Global, prepare: G, map_op: F) -> Result<Vec<R>, Fault>
        requires prepares { FnOnceTakesAt G.FnOnce prepare (ranges_of self) }
        requires accepts { (items : Vec T Global)
            → FnOnceReturnsAt G.FnOnce prepare (ranges_of self) (Ok items)
            → (x : T) → Contains items.items x → F.pre map_op x }
        ensures maps { IfOk result (λ answers. (items : Vec T Global)
            × FnOnceReturnsAt G.FnOnce prepare (ranges_of self.entry) (Ok items)
            × MapOf (F.post map_op) items.items answers.items) }
        ensures fault { IfErr result
            (FailsPrepared (FnOnceReturnsAt G.FnOnce prepare (ranges_of self.entry))) }
    {
        let is_whole = self.is_whole();
        let items = prepare(self.ranges.as_slice())?;
        if is_whole {
            Strategy::map_collect_vec(&Sequential, rt, alloc, self.site, items, map_op)
        } else {
            Strategy::map_collect_vec(self.strategy, rt, alloc, self.site, items, map_op)
        }
    }

    /// The same with a closure that may fail: the results, or the error of the first item in the
    /// list that fails (`TryMapOf`), whichever thread was first.
    ///
    /// # Errors
    ///
    /// `Trouble::Closure` with that error. `Trouble::Fault` with the refusal that `prepare`
    /// returns, and `map_op` isn't called then; or with `Fault::Memory` of the map's own, after
    /// items were prepared.
    pub fn try_map_collect_vec<
        Rt: Threads + Wait + Sync,
        T: Send + Drop,
        R: Send + Drop,
        E: Send + Drop,
        G: FnOnce(&[Range<usize>]) -> Result<Vec<T>, Fault>,
        F: Fn(T) -> Result<R, E> + Send + Sync + Drop,
    >(self, rt: &Rt, alloc: Global, prepare: G, map_op: F) -> Result<Vec<R>, Trouble<E>>
        requires prepares { FnOnceTakesAt G.FnOnce prepare (ranges_of self) }
        requires accepts { (items : Vec T Global)
            → FnOnceReturnsAt G.FnOnce prepare (ranges_of self) (Ok items)
            → (x : T) → Contains items.items x → F.pre map_op x }
        ensures { AnswersPrepared (FnOnceReturnsAt G.FnOnce prepare (ranges_of self.entry))
            (λ items out. TryMapOf (F.post map_op) items.items (listed out)) result }
    {
        let is_whole = self.is_whole();
        let items = prepare(self.ranges.as_slice())?;
        if is_whole {
            Strategy::try_map_collect_vec(&Sequential, rt, alloc, self.site, items, map_op)
        } else {
            Strategy::try_map_collect_vec(self.strategy, rt, alloc, self.site, items, map_op)
        }
    }

    /// Changes each range's part of the items where it lies: `op` is called with the index at which
    /// it begins and the part (`ChangesParts`). The items are as many as the batch's indices. A
    /// whole batch is changed on the caller's thread. Of any other the strategy is asked by the
    /// number of ranges (`asked`); in parallel its parts are split among the strategy's threads.
    ///
    /// ```text
    /// let batch = |batches: Batches<'_, S, P>| {
    ///     batches.for_each_mut(rt, alloc, list, |from: usize, part: &mut [u64]| fill(from, part))
    /// };
    /// flat(strategy.try_run_batches(rt, alloc, SITE, len, minimum, 1, batch))?;
    /// ```
    ///
    /// # Errors
    ///
    /// `Fault::Memory` alone, and only what `refuses` allows, before `op` is called; the list is as
    /// it was.
    pub fn for_each_mut<
        Rt: Threads + Wait + Sync,
        T: Send,
        F: Fn(usize, &mut [T]) + Send + Sync + Drop,
    >(self, rt: &Rt, alloc: Global, items: &mut [T], op: F) -> Result<(), Fault>
        requires cut { CutsFrom 0 (ranges_of self) (length items.old) }
        requires accepts { AcceptsParts F.Fn op (ranges_of self) items.old }
        ensures changes { OnOk result
            (ChangesParts F.Fn op (ranges_of self.entry) items.old items.new) }
        ensures unchanged { IfErr result (λ _. items.new ≡ items.old) }
        ensures asked { OnOk result (length (ranges_of self.entry) ≢ 1
            → Asked (S.takes (strategy_of self.entry) (P.site_of (place_of self.entry))
            (body_call (length (ranges_of self.entry))))) }
        ensures refused { IfErr result
            (S.refuses (strategy_of self.entry) (P.site_of (place_of self.entry))
            (body_call (length (ranges_of self.entry)))) }
        ensures fault { IsMemoryOnErr result }
    {
        let ranges = self.ranges.as_slice();
        if ranges.len() == 1 {
            each_part(rt, NonZeroUsize::MIN, ranges, items, &op);
            return Ok(());
        }
        let strategy = self.strategy;
        let call = Call::body(ranges.len());
        let (path, running) = begin_path(strategy, rt, alloc, self.site, call)?;
        each_part(rt, threads_by(strategy, path), ranges, items, &op);
        end_run(strategy, rt, running, true);
        Ok(())
    }

    // The batch of that many ranges, of which of two or more none is shorter than the minimum.
    pub(crate) fn in_parts(
        alloc: Global,
        strategy: &'scope S,
        site: P,
        len: usize,
        parts: usize,
        minimum: NonZeroUsize,
    ) -> Result<Batches<'scope, S, P>, Fault>
        requires some { 0 < parts }
        requires fit { parts ≤ max 1 (len / non_zero_usize_get minimum) }
        ensures strategy { IfOk result (λ batches. strategy_of batches ≡ strategy.now) }
        ensures place { IfOk result (λ batches. place_of batches ≡ site) }
        ensures batch { IfOk result (λ batches.
            IsBatch len parts (non_zero_usize_get minimum) (ranges_of batches)) }
        ensures fault { IsMemoryOnErr result }
    {
        let count = NonZeroUsize::MIN.saturating_add(parts - 1);
        let batches = Batches::balanced(alloc, strategy, site, len, count)?;
        Ok(batches)
    }
}
