//! Scans: the items up to each place, or before each place, put together.
ghost use Rattle.std.specs.Prelude.{◌≡◌, IfErr, IfOk, OnOk, length};
ghost use Rattle.commonware_parallel.specs.Words.{Asked, GivesSome, IsMemoryOnErr, body_call, non_zero_usize_get};
ghost use Rattle.parallel_calls.specs.OnePlace.{RefusesOrForks};
ghost use Rattle.parallel_calls.specs.Reductions.{IsAssociative};
ghost use Rattle.parallel_calls.specs.Scans.{IsExclusiveScan, IsInclusiveScan, exclusive_scan_of, inclusive_scan_of};

use crate::on::On;
use crate::passes::{Form, scan_from, scan_items};
use commonware_parallel::{Call, Fault, Path, Place, Source, Strategy, begin_path, end_run};
use std::num::NonZeroUsize;
use std::sync::Wait;
use std::thread::Threads;

impl<'s, Rt: Threads + Wait + Sync, S: Strategy, P: Place> On<'s, Rt, S, P> {
    /// Puts each item, where it lies, together with all before it (`IsInclusiveScan`). Brackets
    /// stand where the list is cut, so one result is certain for an associative operation alone:
    /// that of one pass from the left (`inclusive_scan_of`).
    ///
    /// Serially it is one pass. In parallel there is a chunk for each thread, and the operation is
    /// called twice as often: first each chunk's items are put together, and then each chunk is
    /// scanned from what stands before it.
    ///
    /// # Errors
    ///
    /// `Fault::Memory`, where the strategy refuses the call, or where it may go in parallel and the
    /// chunks' totals find no memory (`RefusesOrForks`); the items are then as they were.
    pub fn inclusive_scan_in_place<T: Copy + Send + Sync, G: Fn(T, T) -> T + Send + Sync + Drop>(
        &self,
        items: &mut [T],
        op: G,
    ) -> Result<(), Fault>
        requires accepts { G.IsAlwaysCallable op }
        ensures scanned { OnOk result (IsInclusiveScan (G.post op) items.old items.new) }
        ensures plain { (g : T → T → T) → IsAssociative (G.post op) g
            → OnOk result (items.new ≡ inclusive_scan_of g items.old) }
        ensures unchanged { IfErr result (λ _. items.new ≡ items.old) }
        ensures asked { OnOk result (Asked (S.takes self.now.strategy.now
            (P.site_of self.now.site) (body_call (length items.old)))) }
        ensures refused { IfErr result (RefusesOrForks
            (S.refuses self.now.strategy.now (P.site_of self.now.site)
            (body_call (length items.old)))
            (S.takes self.now.strategy.now (P.site_of self.now.site)
            (body_call (length items.old)))) }
        ensures fault { IsMemoryOnErr result }
    {
        let call = Call::body(items.len());
        let (path, running) = begin_path(self.strategy, self.rt, self.alloc, self.site, call)?;
        let threads = threads_by(self.strategy, path);
        let scanned = scan_items(self.rt, self.alloc, threads, items, &op);
        end_run(self.strategy, self.rt, running, scanned.is_ok());
        scanned
    }

    /// Leaves in each item's place the start and all items before it, put together
    /// (`IsExclusiveScan`), as `inclusive_scan_in_place` does. For an associative operation it is
    /// what one pass from the left leaves (`exclusive_scan_of`).
    ///
    /// # Errors
    ///
    /// `Fault::Memory`, where the strategy refuses the call, or where it may go in parallel and the
    /// chunks' totals find no memory (`RefusesOrForks`); the items are then as they were.
    pub fn exclusive_scan_in_place<T: Copy + Send + Sync, G: Fn(T, T) -> T + Send + Sync + Drop>(
        &self,
        items: &mut [T],
        start: T,
        op: G,
    ) -> Result<(), Fault>
        requires accepts { G.IsAlwaysCallable op }
        ensures scanned { OnOk result (IsExclusiveScan (G.post op) start items.old items.new) }
        ensures plain { (g : T → T → T) → IsAssociative (G.post op) g
            → OnOk result (items.new ≡ exclusive_scan_of g start items.old) }
        ensures unchanged { IfErr result (λ _. items.new ≡ items.old) }
        ensures asked { OnOk result (Asked (S.takes self.now.strategy.now
            (P.site_of self.now.site) (body_call (length items.old)))) }
        ensures refused { IfErr result (RefusesOrForks
            (S.refuses self.now.strategy.now (P.site_of self.now.site)
            (body_call (length items.old)))
            (S.takes self.now.strategy.now (P.site_of self.now.site)
            (body_call (length items.old)))) }
        ensures fault { IsMemoryOnErr result }
    {
        let call = Call::body(items.len());
        let (path, running) = begin_path(self.strategy, self.rt, self.alloc, self.site, call)?;
        let threads = threads_by(self.strategy, path);
        let scanned = scan_from(
            self.rt,
            self.alloc,
            threads,
            Form::Exclusive,
            start,
            items,
            &op,
        );
        end_run(self.strategy, self.rt, running, scanned.is_ok());
        scanned
    }

    /// Each item put together with all before it: the items are gathered, and then scanned as by
    /// `inclusive_scan_in_place`. The strategy is asked about each of the two.
    ///
    /// # Errors
    ///
    /// `Fault::Memory` if an allocation fails.
    pub fn inclusive_scan<M, I: Source<M>, G: Fn(I::Item, I::Item) -> I::Item + Send + Sync + Drop>(
        &self,
        source: I,
        op: G,
    ) -> Result<Vec<I::Item>, Fault>
    where
        I::Item: Copy + Send + Sync,
        requires can { I.can source }
        requires accepts { G.IsAlwaysCallable op }
        ensures scanned { IfOk result (λ ys. GivesSome I.gives source
            (λ xs. IsInclusiveScan (G.post op) xs ys.items)) }
        ensures plain { (g : I.Item → I.Item → I.Item) → IsAssociative (G.post op) g
            → IfOk result (λ ys. GivesSome I.gives source
            (λ xs. ys.items ≡ inclusive_scan_of g xs)) }
        ensures fault { IsMemoryOnErr result }
    {
        let mut items = self.map(source, |item: I::Item| item)?;
        self.inclusive_scan_in_place(&mut items, op)?;
        Ok(items)
    }

    /// For each item the start and all items before it, put together: the items are gathered, and
    /// then scanned as by `exclusive_scan_in_place`. The strategy is asked about each of the two.
    ///
    /// # Errors
    ///
    /// `Fault::Memory` if an allocation fails.
    pub fn exclusive_scan<M, I: Source<M>, G: Fn(I::Item, I::Item) -> I::Item + Send + Sync + Drop>(
        &self,
        source: I,
        start: I::Item,
        op: G,
    ) -> Result<Vec<I::Item>, Fault>
    where
        I::Item: Copy + Send + Sync,
        requires can { I.can source }
        requires accepts { G.IsAlwaysCallable op }
        ensures scanned { IfOk result (λ ys. GivesSome I.gives source
            (λ xs. IsExclusiveScan (G.post op) start xs ys.items)) }
        ensures plain { (g : I.Item → I.Item → I.Item) → IsAssociative (G.post op) g
            → IfOk result (λ ys. GivesSome I.gives source
            (λ xs. ys.items ≡ exclusive_scan_of g start xs)) }
        ensures fault { IsMemoryOnErr result }
    {
        let mut items = self.map(source, |item: I::Item| item)?;
        self.exclusive_scan_in_place(&mut items, start, op)?;
        Ok(items)
    }
}

// How many threads a scan has by that path.
fn threads_by<S: Strategy>(strategy: &S, path: Path) -> NonZeroUsize
    ensures { path ≡ Path.Serial → non_zero_usize_get result ≡ 1 }
{
    match path {
        Path::Serial => NonZeroUsize::MIN,
        Path::Parallel => strategy.thread_number(),
    }
}
