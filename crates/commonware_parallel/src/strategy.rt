//! What a program calls: maps, folds, joins, sorts, batches, tiles and jobs through any strategy.
ghost use Rattle.std.specs.Prelude.{◌<◌, ◌≡◌, ◌*◌, ◌^◌, IfErr, IfOk, OnOk, length, ℕ};
ghost use Rattle.std.specs.declared.ops.Range.{Range};
ghost use Rattle.commonware_parallel.specs.Words.{AnswersAs, AnyState, Asked, AskedOver, AtSomePath, Batches, BeginsAs, Bracketing, Brackets, By, Comes, FailsToSpawn, FoldInitSegment, FoldStep};
ghost use Rattle.commonware_parallel.specs.Words.{Fits, FoldedAs, FoldedInitAs, GivesSome, GoesByLength, IsBatch, IsMemoryOnErr, IsMemoryOnFault, IsPermutation, IsSortedByClosure};
ghost use Rattle.commonware_parallel.specs.Words.{IsStableByClosure, IsTiling, MapOf, MapStep, MappedInitAs, MutBor, OfOne, OkStep, OnSomeBatch, OnSomeTiles, OneOf, PartitionOf, Stateful, Tiles};
ghost use Rattle.commonware_parallel.specs.Words.{TryBracketing, TryFoldedAs, TryMapOf, UnlessRefused, body_call, gives_answer, join_call, listed, multiplied_call, non_zero_usize_get};
ghost use Rattle.commonware_parallel.specs.Words.{AskedByRow, FoldsRows, GivesRows, IsAdditive, IsPartOfRows};
ghost use Rattle.commonware_parallel.specs.Words.{AcceptsChunksMut, AcceptsEach, ChangesChunks, ChangesEach, div_ceil, ranges_of, spawn_call};

use crate::batches::Batches;
use crate::call::Call;
use crate::chooser::Chooser;
use crate::chosen::{begin_path, choose_parts, choose_path, threads_by};
use crate::list::{
    body_over, fold_init_iter, fold_init_parallel, fold_iter, fold_parallel, map_init_source,
    map_source, partition_iter, partition_parallel, try_fold_as_it_comes, try_fold_parallel,
    try_map_iter, try_map_parallel,
};
use crate::running::{Running, end_as, end_run, end_with};
use crate::spawned::{Job, Spawned, begin};
use crate::tiles::{Tiles, fold_tiles, serial_cost};
use parallel_bridge::list::sort::sort_parallel;
use parallel_bridge::{Parts, Path, Source};
use parallel_fault::{Fault, Trouble};
use parallel_policy::Place;
use parallel_row::{each_chunk, each_item};
use parallel_shares::Grid;
use std::alloc::Global;
use std::cmp::Ordering;
use std::num::NonZeroUsize;
use std::ops::Range;
use std::sync::Wait;
use std::thread::{self, Threads};

/// Runs a program's folds, maps, joins, sorts, batches and tiles, which are written once for all
/// strategies.
///
/// A strategy implements `Chooser`, and is a `Strategy` by that: asked about a `Call`, it returns a
/// `Pick` that the call has. What the call then does is one of the `final` functions below, which
/// no implementation can break. Code that is generic over `S: Strategy` may rest on the clauses
/// here alone; code at one strategy sees through its ghost members, and so learns from a clause
/// `along` in which segments a call went.
///
/// A clause `asked` says that the strategy may take some path for a call of that length and work.
/// It makes code that is generic in the strategy ask, as the functions here do. Of a strategy that
/// has a pick for every call it says nothing: what a policy is asked, and told, is tested.
///
/// Every call takes the runtime, then the allocator, then the call site. A list call takes a
/// source, and its list is one that the source gives (`Source::gives`). A list that is one already
/// is neither gathered nor copied; an iterator's items are gathered where the strategy has to be
/// asked by their number. A map's closure and a fold's step have to accept the items that may come
/// (`Source::may`), at every state where they have one; a step and `reduce_op` also the values that
/// the fold's own closures may return for such items (`Comes`); `identity`, `init` and `compare`
/// every value of their arguments' types.
pub trait Strategy: Chooser {
    /// A result of one of two bodies, by the path that the strategy takes. `len` is the number of
    /// items that the bodies stand for, by which a policy tells calls apart. A run that returns is
    /// told as a success, whatever it returns: bodies that may fail go by `try_run`.
    ///
    /// ```text
    /// let sum = strategy.run(rt, alloc, SITE, it.len(), || in_one(it), || in_halves(it))?;
    /// ```
    ///
    /// # Errors
    ///
    /// `Fault::Memory` alone, and only what `refuses` allows: a strategy without a policy refuses
    /// no run.
    final fn run<Rt: Wait, P: Place, R, A: FnOnce() -> R + Drop, B: FnOnce() -> R + Drop>(
        &self,
        rt: &Rt,
        alloc: Global,
        site: P,
        len: usize,
        serial: A,
        parallel: B,
    ) -> Result<R, Fault>
        requires serial_runs { A.pre serial }
        requires parallel_runs { B.pre parallel }
        ensures answers { IfOk result (λ answer. AtSomePath (Self.takes self.now (P.site_of site)
            (body_call len)) (λ path. OneOf (A.post serial answer) (B.post parallel answer) path)) }
        ensures refused { IfErr result (Self.refuses self.now (P.site_of site) (body_call len)) }
        ensures fault { IsMemoryOnErr result }
    {
        let (path, running) = begin_path(self, rt, alloc, site, Call::body(len))?;
        let answer = match path {
            Path::Serial => serial(),
            Path::Parallel => parallel(),
        };
        end_run(self, rt, running, true);
        Ok(answer)
    }

    /// As `run`, of two bodies that may fail by an error of their own (`AnswersAs`, `OneOf`).
    ///
    /// ```text
    /// let sum = strategy.try_run(rt, alloc, SITE, len, || check(it), || check_halves(it))?;
    /// ```
    ///
    /// # Errors
    ///
    /// `Trouble::Closure` with the error of the body that was run. `Trouble::Fault` with
    /// `Fault::Memory` alone, and only where `refuses` allows it: a strategy without a policy
    /// refuses no run.
    final fn try_run<Rt: Wait, P: Place, R, E, A, B>(
        &self,
        rt: &Rt,
        alloc: Global,
        site: P,
        len: usize,
        serial: A,
        parallel: B,
    ) -> Result<R, Trouble<E>>
    where
        A: FnOnce() -> Result<R, E> + Drop,
        B: FnOnce() -> Result<R, E> + Drop,
        requires serial_runs { A.pre serial }
        requires parallel_runs { B.pre parallel }
        ensures answers { AnswersAs
            (λ path. Self.takes self.now (P.site_of site) (body_call len) (By path))
            (Self.refuses self.now (P.site_of site) (body_call len))
            (OfOne (A.post serial) (B.post parallel)) result }
        ensures fault { IsMemoryOnFault result }
    {
        let (path, running) = begin_path(self, rt, alloc, site, Call::body(len))?;
        let outcome = match path {
            Path::Serial => serial(),
            Path::Parallel => parallel(),
        };
        end_with(self, rt, running, outcome)
    }

    /// A result of each of two closures, which are run serially one after the other, and in
    /// parallel side by side, one of them on the caller's thread.
    ///
    /// ```text
    /// let (left, right) = strategy.join(rt, alloc, SITE, || count(front), || count(back))?;
    /// ```
    ///
    /// # Errors
    ///
    /// `Fault::Memory` alone, and only where `refuses` allows it: `Sequential` and `Rayon` refuse
    /// no join, whatever is chosen for their other calls.
    final fn join<
        Rt: Threads + Wait + Sync,
        P: Place,
        A: FnOnce() -> RA + Send + Drop,
        B: FnOnce() -> RB + Send + Drop,
        RA: Send + Drop,
        RB: Send + Drop,
    >(&self, rt: &Rt, alloc: Global, site: P, a: A, b: B) -> Result<(RA, RB), Fault>
        requires first_runs { A.pre a }
        requires second_runs { B.pre b }
        ensures answers { IfOk result (λ answers. A.post a answers.0 × B.post b answers.1) }
        ensures refused { IfErr result (Self.refuses self.now (P.site_of site) join_call) }
        ensures fault { IsMemoryOnErr result }
    {
        let (path, running) = begin_path(self, rt, alloc, site, Call::join())?;
        let answers = match path {
            Path::Serial => (a(), b()),
            Path::Parallel => thread::join(rt, a, b),
        };
        end_run(self, rt, running, true);
        Ok(answers)
    }

    /// A job, run on a clone of this strategy: serially at once, and in parallel on a worker of its
    /// own. In parallel, where workers aren't started, it is dropped and stays pending
    /// (`BeginsAs`).
    ///
    /// Whatever it returns is a result that the job allows on a clone (`gives`). `len` is the
    /// number of items that the job stands for, by which a policy tells calls apart.
    ///
    /// ```text
    /// let job = Closure(move |_own: S| count(items.as_slice()));
    /// let spawned = strategy.spawn(rt, alloc, SITE, len, job)?;
    /// let counted = block_on(rt, spawned)?;
    /// ```
    ///
    /// # Errors
    ///
    /// What the strategy refuses; `Fault::Memory`; in parallel `Fault::Worker` where the worker's
    /// start was refused (`FailsToSpawn`). The job is then dropped.
    final fn spawn<Rt, P: Place, F, T: Send + Drop + 'static>(
        &self,
        rt: &Rt,
        alloc: Global,
        site: P,
        len: usize,
        job: F,
    ) -> Result<Spawned<Rt, Self, F, T>, Fault>
    where
        Rt: Threads + Wait + Copy + Send + 'static,
        F: Job<Self, T> + Send + Drop + 'static,
        requires { (clone : Self) → Self.is_clone self.now clone → F.may_run job clone }
        ensures gives { IfOk result (λ spawned. (clone : Self) × Self.is_clone self.now clone
            × ((answer : T) → gives_answer F.may_answer spawned answer
            → F.may_answer job clone answer)) }
        ensures form { IfOk result (λ spawned. AtSomePath (Self.takes self.now (P.site_of site)
            (spawn_call len)) (λ path. BeginsAs (Self.starts self.now) path spawned)) }
        ensures refused { IfErr result
            (FailsToSpawn (Self.takes self.now (P.site_of site) (spawn_call len))
            (Self.refuses self.now (P.site_of site) (spawn_call len)) (Self.starts self.now)) }
    {
        let (path, measure) = choose_path(self, rt, alloc, site, Call::spawn(len))?;
        let own = self.clone()?;
        begin(*rt, alloc, path, self.starts_workers(), measure, own, job)
    }

    /// Sorts the items by an order; items that tie keep their order. Serially the caller's thread
    /// sorts them; in parallel at most as many parts as the pool has threads are sorted first, at
    /// the same time, if they are long enough to gain.
    ///
    /// `compare` has to follow a strict weak order; whatever it returns, the items are those that
    /// were there before. The strategy is asked as for a body over the items (`asked`).
    ///
    /// ```text
    /// strategy.sort_by(rt, alloc, SITE, items, |a: &u32, b: &u32| a.cmp(b))?;
    /// ```
    ///
    /// # Errors
    ///
    /// `Fault::Memory` alone, where the strategy or the sort's buffer was refused memory; the items
    /// are then a permutation of what they were.
    final fn sort_by<
        Rt: Threads + Wait + Sync,
        P: Place,
        T: Send,
        C: Fn(&T, &T) -> Ordering + Send + Sync + Drop,
    >(&self, rt: &Rt, alloc: Global, site: P, items: &mut [T], compare: C) -> Result<(), Fault>
        requires { C.IsAlwaysCallable compare }
        ensures permutation { IsPermutation items.old items.new }
        ensures sorted { OnOk result (IsSortedByClosure C.FnMut compare items.new) }
        ensures stable { IsStableByClosure C.FnMut compare items.old items.new }
        ensures asked { OnOk result
            (Asked (Self.takes self.now (P.site_of site) (body_call (length items.old)))) }
        ensures fault { IsMemoryOnErr result }
    {
        let (path, running) = begin_path(self, rt, alloc, site, Call::body(items.len()))?;
        let threads = threads_by(self, path);
        let sorted = sort_parallel(rt, alloc, threads, items, &compare);
        end_run(self, rt, running, sorted.is_ok());
        sorted
    }

    /// Sorts the items by an order, as `sort_by` does; items that tie may change places.
    ///
    /// ```text
    /// strategy.sort_unstable_by(rt, alloc, SITE, items, |a: &u32, b: &u32| b.cmp(a))?;
    /// ```
    ///
    /// # Errors
    ///
    /// `Fault::Memory` alone, as there; the items are then a permutation of what they were.
    final fn sort_unstable_by<
        Rt: Threads + Wait + Sync,
        P: Place,
        T: Send,
        C: Fn(&T, &T) -> Ordering + Send + Sync + Drop,
    >(&self, rt: &Rt, alloc: Global, site: P, items: &mut [T], compare: C) -> Result<(), Fault>
        requires { C.IsAlwaysCallable compare }
        ensures permutation { IsPermutation items.old items.new }
        ensures sorted { OnOk result (IsSortedByClosure C.FnMut compare items.new) }
        ensures asked { OnOk result
            (Asked (Self.takes self.now (P.site_of site) (body_call (length items.old)))) }
        ensures fault { IsMemoryOnErr result }
    {
        self.sort_by(rt, alloc, site, items, compare)
    }

    /// Changes each item where it lies: `op` is called with its index and the item (`ChangesEach`).
    /// Serially the caller's thread goes through the list; in parallel it is split into parts, one
    /// for each thread. The strategy is asked by the number of items (`asked`).
    ///
    /// # Errors
    ///
    /// `Fault::Memory` alone, and only what `refuses` allows, before `op` is called; the list is as
    /// it was. The call itself takes no memory.
    final fn for_each_mut<
        Rt: Threads + Wait + Sync,
        P: Place,
        T: Send,
        F: Fn(usize, &mut T) + Send + Sync + Drop,
    >(&self, rt: &Rt, alloc: Global, site: P, items: &mut [T], op: F) -> Result<(), Fault>
        requires accepts { AcceptsEach F.Fn op items.old }
        ensures changes { OnOk result (ChangesEach F.Fn op items.old items.new) }
        ensures unchanged { IfErr result (λ _. items.new ≡ items.old) }
        ensures asked { OnOk result
            (Asked (Self.takes self.now (P.site_of site) (body_call (length items.old)))) }
        ensures refused { IfErr result
            (Self.refuses self.now (P.site_of site) (body_call (length items.old))) }
        ensures fault { IsMemoryOnErr result }
    {
        let call = Call::body(items.len());
        let (path, running) = begin_path(self, rt, alloc, site, call)?;
        each_item(rt, threads_by(self, path), items, &op);
        end_run(self, rt, running, true);
        Ok(())
    }

    /// Changes each chunk of `size` items where it lies, the last one maybe shorter: `op` is called
    /// with the index at which it begins and the chunk (`ChangesChunks`). In parallel each thread
    /// has one part of the list, of whole chunks. The strategy is asked by the number of chunks.
    ///
    /// # Errors
    ///
    /// `Fault::Memory` alone, as `for_each_mut`; the list is then as it was.
    final fn for_each_chunk_mut<
        Rt: Threads + Wait + Sync,
        P: Place,
        T: Send,
        F: Fn(usize, &mut [T]) + Send + Sync + Drop,
    >(
        &self,
        rt: &Rt,
        alloc: Global,
        site: P,
        items: &mut [T],
        size: NonZeroUsize,
        op: F,
    ) -> Result<(), Fault>
        requires accepts { AcceptsChunksMut F.Fn op (non_zero_usize_get size) items.old }
        ensures changes { OnOk result
            (ChangesChunks F.Fn op (non_zero_usize_get size) items.old items.new) }
        ensures unchanged { IfErr result (λ _. items.new ≡ items.old) }
        ensures asked { OnOk result (Asked (Self.takes self.now (P.site_of site)
            (body_call (div_ceil (length items.old) (non_zero_usize_get size))))) }
        ensures refused { IfErr result (Self.refuses self.now (P.site_of site)
            (body_call (div_ceil (length items.old) (non_zero_usize_get size)))) }
        ensures fault { IsMemoryOnErr result }
    {
        let call = Call::body(items.len().div_ceil(size.get()));
        let (path, running) = begin_path(self, rt, alloc, site, call)?;
        each_chunk(rt, threads_by(self, path), size, items, &op);
        end_run(self, rt, running, true);
        Ok(())
    }

    /// The results of `map_op` for the items, in the items' order (`MapOf`). The strategy is asked
    /// by the number of items (`asked`).
    ///
    /// ```text
    /// let numbers = Copies { slice: &[3, 1, 4] };
    /// let halves = strategy.map_collect_vec(rt, alloc, SITE, numbers, |x: u64| x / 2)?;
    /// ```
    ///
    /// # Errors
    ///
    /// `Fault::Memory` alone; the items are then gone. Where a strategy that isn't serial could not
    /// gather the items of an iterator no closure was called.
    final fn map_collect_vec<
        Rt: Threads + Wait + Sync,
        P: Place,
        M,
        I: Source<M>,
        T: Send + Drop,
        F: Fn(I::Item) -> T + Send + Sync + Drop,
    >(&self, rt: &Rt, alloc: Global, site: P, source: I, map_op: F) -> Result<Vec<T>, Fault>
        requires can { I.can source }
        requires accepts { (x : I.Item) → I.may source x → F.pre map_op x }
        ensures answers { IfOk result (λ ys. GivesSome I.gives source
            (λ xs. MapOf (F.post map_op) xs ys.items)) }
        ensures asked { OnOk result
            (AskedOver I.gives source (Self.takes self.now (P.site_of site)) body_call) }
        ensures fault { IsMemoryOnErr result }
    {
        map_source(self, rt, alloc, site, source, None, &map_op)
    }

    /// As `map_collect_vec`, for items that each stand for the work of `multiplier`: a policy tells
    /// calls apart by `len * multiplier`, which stops at the greatest `usize`.
    ///
    /// ```text
    /// // each text counts as 64 items
    /// let digests = strategy
    ///     .map_collect_vec_with_multiplier(rt, alloc, SITE, texts, 64, |it: &[u8]| digest(it))?;
    /// ```
    ///
    /// # Errors
    ///
    /// `Fault::Memory` alone, as there.
    final fn map_collect_vec_with_multiplier<Rt, P: Place, M, I: Source<M>, T: Send + Drop, F>(
        &self,
        rt: &Rt,
        alloc: Global,
        site: P,
        source: I,
        multiplier: usize,
        map_op: F,
    ) -> Result<Vec<T>, Fault>
    where
        Rt: Threads + Wait + Sync,
        F: Fn(I::Item) -> T + Send + Sync + Drop,
        requires can { I.can source }
        requires accepts { (x : I.Item) → I.may source x → F.pre map_op x }
        ensures answers { IfOk result (λ ys. GivesSome I.gives source
            (λ xs. MapOf (F.post map_op) xs ys.items)) }
        ensures asked { OnOk result (AskedOver I.gives source
            (Self.takes self.now (P.site_of site)) (λ n. multiplied_call n multiplier)) }
        ensures fault { IsMemoryOnErr result }
    {
        map_source(self, rt, alloc, site, source, Some(multiplier), &map_op)
    }

    /// The items folded in neighbouring segments, each from an identity of its own, and the
    /// segments' results reduced, left before right (`Bracketing`).
    ///
    /// Serially the list is one segment and nothing is reduced. In parallel it goes along the
    /// list's shape for the pool's thread number, and each leaf is reduced after a further
    /// identity (`FoldedAs`). `parallel_bridge::fold_law` says when every such result is the plain
    /// fold from the left.
    ///
    /// ```text
    /// let add = |left: u64, right: u64| left.wrapping_add(right);
    /// let sum = strategy.fold(rt, alloc, SITE, Copies { slice: numbers }, || 0, add, add)?;
    /// ```
    ///
    /// # Errors
    ///
    /// `Fault::Memory` alone; the items are then gone.
    final fn fold<Rt: Threads + Wait + Sync, P: Place, M, I: Source<M>, R: Send + Drop, ID, F, G>(
        &self,
        rt: &Rt,
        alloc: Global,
        site: P,
        source: I,
        identity: ID,
        fold_op: F,
        reduce_op: G,
    ) -> Result<R, Fault>
    where
        ID: Fn() -> R + Send + Sync + Drop,
        F: Fn(R, I::Item) -> R + Send + Sync + Drop,
        G: Fn(R, R) -> R + Send + Sync + Drop,
        requires can { I.can source }
        requires identity_accepts { ID.IsAlwaysCallable identity }
        requires fold_accepts { (x : I.Item) → I.may source x → (value : R)
            → Comes (ID.post identity) (F.post fold_op) (G.post reduce_op) (I.may source) value
            → F.pre fold_op value x }
        requires reduce_accepts { (a b : R)
            → Comes (ID.post identity) (F.post fold_op) (G.post reduce_op) (I.may source) a
            → Comes (ID.post identity) (F.post fold_op) (G.post reduce_op) (I.may source) b
            → G.pre reduce_op a b }
        ensures brackets { IfOk result (λ r. GivesSome I.gives source
            (λ xs. Bracketing (ID.post identity) (F.post fold_op) (G.post reduce_op) xs r)) }
        ensures along { IfOk result
            (GoesByLength I.gives source Self.takes Self.threads self.now (P.site_of site) body_call
            (FoldedAs (ID.post identity) (F.post fold_op) (G.post reduce_op))) }
        ensures fault { IsMemoryOnErr result }
    {
        if self.is_serial() {
            return Ok(fold_iter(source.into_items(), &identity, &fold_op));
        }
        let parts = source.into_parts(alloc)?;
        let (path, running) = begin_path(self, rt, alloc, site, body_over(&parts))?;
        let threads = self.thread_number();
        let folded = match path {
            Path::Serial => Ok(fold_iter(parts.into_items(), &identity, &fold_op)),
            Path::Parallel => {
                fold_parallel(rt, alloc, threads, parts, &identity, &fold_op, &reduce_op)
            }
        };
        end_as(self, rt, running, folded)
    }

    /// The items folded as by `fold`, with a state at hand that goes from item to item of a segment
    /// and begins there as a value of `init` (`FoldInitSegment`).
    ///
    /// ```text
    /// let begin = || Scratch::new();
    /// let weigh = |sum: u64, it: &mut Scratch, x: u64| sum.wrapping_add(it.weigh(x));
    /// let add = |left: u64, right: u64| left.wrapping_add(right);
    /// let sum = strategy.fold_init(rt, alloc, SITE, items, begin, || 0, weigh, add)?;
    /// ```
    ///
    /// # Errors
    ///
    /// `Fault::Memory` alone; the items are then gone.
    final fn fold_init<Rt: Threads + Wait + Sync, P: Place, M, I: Source<M>, S, R, N, ID, F, G>(
        &self,
        rt: &Rt,
        alloc: Global,
        site: P,
        source: I,
        init: N,
        identity: ID,
        fold_op: F,
        reduce_op: G,
    ) -> Result<R, Fault>
    where
        S: Send + Drop,
        R: Send + Drop,
        N: Fn() -> S + Send + Sync + Drop,
        ID: Fn() -> R + Send + Sync + Drop,
        F: Fn(R, &mut S, I::Item) -> R + Send + Sync + Drop,
        G: Fn(R, R) -> R + Send + Sync + Drop,
        requires can { I.can source }
        requires init_accepts { N.IsAlwaysCallable init }
        requires identity_accepts { ID.IsAlwaysCallable identity }
        requires fold_accepts { (x : I.Item) → I.may source x → (value : R)
            → Comes (ID.post identity) (AnyState (FoldStep (F.post fold_op))) (G.post reduce_op)
            (I.may source) value → (state : MutBor S) → F.pre fold_op value state x }
        requires reduce_accepts { (a b : R)
            → Comes (ID.post identity) (AnyState (FoldStep (F.post fold_op))) (G.post reduce_op)
            (I.may source) a
            → Comes (ID.post identity) (AnyState (FoldStep (F.post fold_op))) (G.post reduce_op)
            (I.may source) b → G.pre reduce_op a b }
        ensures brackets { IfOk result (λ r. GivesSome I.gives source
            (λ xs. Brackets (FoldInitSegment (N.post init) (ID.post identity)
            (FoldStep (F.post fold_op))) (G.post reduce_op) xs r)) }
        ensures along { IfOk result
            (GoesByLength I.gives source Self.takes Self.threads self.now (P.site_of site) body_call
            (FoldedInitAs (N.post init) (ID.post identity) (FoldStep (F.post fold_op))
            (G.post reduce_op))) }
        ensures fault { IsMemoryOnErr result }
    {
        if self.is_serial() {
            return Ok(fold_init_iter(source.into_items(), &init, &identity, &fold_op));
        }
        let parts = source.into_parts(alloc)?;
        let (path, running) = begin_path(self, rt, alloc, site, body_over(&parts))?;
        let folded = match path {
            Path::Serial => Ok(fold_init_iter(parts.into_items(), &init, &identity, &fold_op)),
            Path::Parallel => fold_init_parallel(
                rt,
                alloc,
                self.thread_number(),
                parts,
                &init,
                &identity,
                &fold_op,
                &reduce_op,
            ),
        };
        end_as(self, rt, running, folded)
    }

    /// The items folded up to the first step that fails, in neighbouring segments, each from an
    /// identity of its own, and the segments' values reduced, left before right (`TryBracketing`).
    ///
    /// A segment ends at its own first error, and of several the leftmost is returned, whichever
    /// segment ended first. Where a segment has failed, the closures may go uncalled for the items
    /// to the right of it. The forms of the segments are those of `fold` (`TryFoldedAs`).
    ///
    /// ```text
    /// let check = |sum: u64, x: u64| if x <= LIMIT { Ok(sum.wrapping_add(x)) } else { Err(x) };
    /// let add = |left: u64, right: u64| left.wrapping_add(right);
    /// let sum = strategy.try_fold(rt, alloc, SITE, numbers, || 0, check, add)?;
    /// ```
    ///
    /// # Errors
    ///
    /// `Trouble::Closure` with the error of the step that failed. `Trouble::Fault` with
    /// `Fault::Memory` alone. The items are then gone.
    final fn try_fold<Rt: Threads + Wait + Sync, P: Place, M, I: Source<M>, R, E, ID, F, G>(
        &self,
        rt: &Rt,
        alloc: Global,
        site: P,
        source: I,
        identity: ID,
        fold_op: F,
        reduce_op: G,
    ) -> Result<R, Trouble<E>>
    where
        R: Send + Drop,
        E: Send + Drop,
        ID: Fn() -> R + Send + Sync + Drop,
        F: Fn(R, I::Item) -> Result<R, E> + Send + Sync + Drop,
        G: Fn(R, R) -> R + Send + Sync + Drop,
        requires can { I.can source }
        requires identity_accepts { ID.IsAlwaysCallable identity }
        requires fold_accepts { (x : I.Item) → I.may source x → (value : R)
            → Comes (ID.post identity) (OkStep (F.post fold_op)) (G.post reduce_op) (I.may source)
            value → F.pre fold_op value x }
        requires reduce_accepts { (a b : R)
            → Comes (ID.post identity) (OkStep (F.post fold_op)) (G.post reduce_op) (I.may source) a
            → Comes (ID.post identity) (OkStep (F.post fold_op)) (G.post reduce_op) (I.may source) b
            → G.pre reduce_op a b }
        ensures brackets { UnlessRefused result (λ out. GivesSome I.gives source
            (λ xs. TryBracketing (ID.post identity) (F.post fold_op) (G.post reduce_op) xs out)) }
        ensures along { UnlessRefused result
            (GoesByLength I.gives source Self.takes Self.threads self.now (P.site_of site) body_call
            (TryFoldedAs (ID.post identity) (F.post fold_op) (G.post reduce_op))) }
        ensures fault { IsMemoryOnFault result }
    {
        if self.is_serial() {
            return try_fold_as_it_comes(source.into_items(), &identity, &fold_op);
        }
        let parts = source.into_parts(alloc)?;
        let (path, running) = begin_path(self, rt, alloc, site, body_over(&parts))?;
        let threads = self.thread_number();
        let outcome = match path {
            Path::Serial => try_fold_as_it_comes(parts.into_items(), &identity, &fold_op),
            Path::Parallel => {
                try_fold_parallel(rt, alloc, threads, parts, &identity, &fold_op, &reduce_op)
            }
        };
        end_as(self, rt, running, outcome)
    }

    /// The values that `map_op` returns for the items, in the items' order, or the error of the
    /// first item that fails, whichever part of the list ended first (`TryMapOf`). After an item
    /// that fails the closure may go uncalled.
    ///
    /// ```text
    /// let indices = Indices { start: 0, end: len };
    /// let check = |index: usize| if is_good(index) { Ok(()) } else { Err(index) };
    /// let all_good = strategy.try_map_collect_vec(rt, alloc, SITE, indices, check)?;
    /// ```
    ///
    /// # Errors
    ///
    /// `Trouble::Closure` with the first failing item's error. `Trouble::Fault` with
    /// `Fault::Memory` alone. The items are then gone.
    final fn try_map_collect_vec<
        Rt: Threads + Wait + Sync,
        P: Place,
        M,
        I: Source<M>,
        T: Send + Drop,
        E: Send + Drop,
        F: Fn(I::Item) -> Result<T, E> + Send + Sync + Drop,
    >(&self, rt: &Rt, alloc: Global, site: P, source: I, map_op: F) -> Result<Vec<T>, Trouble<E>>
        requires can { I.can source }
        requires accepts { (x : I.Item) → I.may source x → F.pre map_op x }
        ensures answers { UnlessRefused result (λ out. GivesSome I.gives source
            (λ xs. TryMapOf (F.post map_op) xs (listed out))) }
        ensures asked { UnlessRefused result
            (λ _. AskedOver I.gives source (Self.takes self.now (P.site_of site)) body_call) }
        ensures fault { IsMemoryOnFault result }
    {
        if self.is_serial() {
            return try_map_iter(alloc, source.into_items(), &map_op);
        }
        let parts = source.into_parts(alloc)?;
        let (path, running) = begin_path(self, rt, alloc, site, body_over(&parts))?;
        match path {
            Path::Serial => {
                let outcome = try_map_iter(alloc, parts.into_items(), &map_op);
                end_as(self, rt, running, outcome)
            }
            Path::Parallel => {
                let outcome = try_map_parallel(rt, alloc, self.thread_number(), parts, &map_op);
                end_as(self, rt, running, outcome)
            }
        }
    }

    /// The results of `map_op` for the items, in the items' order, with a state at hand that goes
    /// from item to item of a segment and begins there as a value of `init` (`Stateful`).
    ///
    /// Serially the list is one segment with one state. In parallel the states change at the
    /// segments of the list's shape for the pool's thread number (`MappedInitAs`).
    ///
    /// ```text
    /// let begin = || Scratch::new();
    /// let hash = |scratch: &mut Scratch, message: &[u8]| scratch.hash(message);
    /// let hashes = strategy.map_init_collect_vec(rt, alloc, SITE, messages, begin, hash)?;
    /// ```
    ///
    /// # Errors
    ///
    /// `Fault::Memory` alone; the items are then gone.
    final fn map_init_collect_vec<Rt: Threads + Wait + Sync, P: Place, M, I: Source<M>, S, T, N, F>(
        &self,
        rt: &Rt,
        alloc: Global,
        site: P,
        source: I,
        init: N,
        map_op: F,
    ) -> Result<Vec<T>, Fault>
    where
        S: Send + Drop,
        T: Send + Drop,
        N: Fn() -> S + Send + Sync + Drop,
        F: Fn(&mut S, I::Item) -> T + Send + Sync + Drop,
        requires can { I.can source }
        requires init_accepts { N.IsAlwaysCallable init }
        requires map_accepts { (x : I.Item) → I.may source x
            → (state : MutBor S) → F.pre map_op state x }
        ensures stateful { IfOk result (λ ys. GivesSome I.gives source
            (λ xs. Stateful (N.post init) (MapStep (F.post map_op)) xs ys.items)) }
        ensures along { IfOk result (λ ys.
            GoesByLength I.gives source Self.takes Self.threads self.now (P.site_of site) body_call
            (MappedInitAs (N.post init) (MapStep (F.post map_op))) ys.items) }
        ensures fault { IsMemoryOnErr result }
    {
        map_init_source(self, rt, alloc, site, source, None, &init, &map_op)
    }

    /// As `map_init_collect_vec`, for items that each stand for the work of `multiplier`: a policy
    /// tells calls apart by `len * multiplier`, which stops at the greatest `usize`.
    ///
    /// # Errors
    ///
    /// `Fault::Memory` alone; the items are then gone.
    final fn map_init_collect_vec_with_multiplier<Rt, P: Place, M, I: Source<M>, S, T, N, F>(
        &self,
        rt: &Rt,
        alloc: Global,
        site: P,
        source: I,
        multiplier: usize,
        init: N,
        map_op: F,
    ) -> Result<Vec<T>, Fault>
    where
        Rt: Threads + Wait + Sync,
        S: Send + Drop,
        T: Send + Drop,
        N: Fn() -> S + Send + Sync + Drop,
        F: Fn(&mut S, I::Item) -> T + Send + Sync + Drop,
        requires can { I.can source }
        requires init_accepts { N.IsAlwaysCallable init }
        requires map_accepts { (x : I.Item) → I.may source x
            → (state : MutBor S) → F.pre map_op state x }
        ensures stateful { IfOk result (λ ys. GivesSome I.gives source
            (λ xs. Stateful (N.post init) (MapStep (F.post map_op)) xs ys.items)) }
        ensures along { IfOk result (λ ys.
            GoesByLength I.gives source Self.takes Self.threads self.now (P.site_of site)
            (λ n. multiplied_call n multiplier)
            (MappedInitAs (N.post init) (MapStep (F.post map_op))) ys.items) }
        ensures fault { IsMemoryOnErr result }
    {
        map_init_source(
            self,
            rt,
            alloc,
            site,
            source,
            Some(multiplier),
            &init,
            &map_op,
        )
    }

    /// The values that `map_op` returns, and the keys of the items for which it returns none, both
    /// in the items' order (`PartitionOf`).
    ///
    /// ```text
    /// let sort_out = |x: u64| if x % 2 == 0 { (x, Some(x)) } else { (x, None) };
    /// let (evens, odds) = strategy.map_partition_collect_vec(rt, alloc, SITE, numbers, sort_out)?;
    /// ```
    ///
    /// # Errors
    ///
    /// `Fault::Memory` alone; the items are then gone.
    final fn map_partition_collect_vec<Rt, P: Place, M, I: Source<M>, K, U, F>(
        &self,
        rt: &Rt,
        alloc: Global,
        site: P,
        source: I,
        map_op: F,
    ) -> Result<(Vec<U>, Vec<K>), Fault>
    where
        Rt: Threads + Wait + Sync,
        K: Send + Drop,
        U: Send + Drop,
        F: Fn(I::Item) -> (K, Option<U>) + Send + Sync + Drop,
        requires can { I.can source }
        requires accepts { (x : I.Item) → I.may source x → F.pre map_op x }
        ensures answers { IfOk result (λ parts. GivesSome I.gives source
            (λ xs. PartitionOf (F.post map_op) xs parts.0.items parts.1.items)) }
        ensures asked { OnOk result
            (AskedOver I.gives source (Self.takes self.now (P.site_of site)) body_call) }
        ensures fault { IsMemoryOnErr result }
    {
        if self.is_serial() {
            return partition_iter(alloc, source.into_items(), &map_op);
        }
        let parts = source.into_parts(alloc)?;
        let (path, running) = begin_path(self, rt, alloc, site, body_over(&parts))?;
        match path {
            Path::Serial => {
                let sides = partition_iter(alloc, parts.into_items(), &map_op);
                end_as(self, rt, running, sides)
            }
            Path::Parallel => {
                let sides = partition_parallel(rt, alloc, self.thread_number(), parts, &map_op);
                end_as(self, rt, running, sides)
            }
        }
    }

    /// A result of `run` over a batch of `0..len`: balanced ranges, as many as the strategy picks.
    /// Of two or more none is shorter than `minimum` (`IsBatch`); a whole one may be.
    ///
    /// The work, by which a policy tells calls apart, is `len * multiplier`, which stops at the
    /// greatest `usize`. The batch goes through the strategy's `inner` and has the call's site.
    /// Whatever the closure returns, its run is told as a success: one that may fail goes by
    /// `try_run_batches`.
    ///
    /// ```text
    /// let count = strategy.run_batches(rt, alloc, SITE, len, minimum, 1, |batches| {
    ///     count_ranges(flags, batches.ranges())
    /// })?;
    /// ```
    ///
    /// # Errors
    ///
    /// `Fault::Memory` alone.
    final fn run_batches<Rt: Wait, P: Place, R, F: FnOnce(Batches<'_, Self, P>) -> R + Drop>(
        &self,
        rt: &Rt,
        alloc: Global,
        site: P,
        len: usize,
        minimum: NonZeroUsize,
        multiplier: usize,
        run: F,
    ) -> Result<R, Fault>
        requires { (batches : Batches Self P) (count : ℕ) → IsBatch len count
            (non_zero_usize_get minimum) (ranges_of batches) → F.pre run batches }
        ensures answers { IfOk result (λ answer. OnSomeBatch Self.takes Self.refuses Self.plans
            Self.threads Self.starts P.site_of self.now site len minimum multiplier
            (λ batches. F.post run batches answer)) }
        ensures fault { IsMemoryOnErr result }
    {
        let inner = self.inner()?;
        let call = Call::batches(self.planning(), len, minimum, multiplier);
        let (parts, measure) = choose_parts(self, rt, alloc, site, call)?;
        let batches = Batches::in_parts(alloc, &inner, site, len, parts, minimum)?;
        let running = Running::begun(measure);
        let answer = run(batches);
        end_run(self, rt, running, true);
        Ok(answer)
    }

    /// As `run_batches`, with a closure that may fail by an error of its own. A policy is told
    /// nothing of a batch that fails.
    ///
    /// ```text
    /// let sums = strategy.try_run_batches(rt, alloc, SITE, len, minimum, 1, |batches| {
    ///     sums_of(rt, alloc, batches)
    /// })?;
    /// ```
    ///
    /// # Errors
    ///
    /// `Trouble::Closure` with the closure's error. `Trouble::Fault` with `Fault::Memory` alone.
    final fn try_run_batches<Rt: Wait, P: Place, R, E, F>(
        &self,
        rt: &Rt,
        alloc: Global,
        site: P,
        len: usize,
        minimum: NonZeroUsize,
        multiplier: usize,
        run: F,
    ) -> Result<R, Trouble<E>>
    where
        F: FnOnce(Batches<'_, Self, P>) -> Result<R, E> + Drop,
        requires { (batches : Batches Self P) (count : ℕ) → IsBatch len count
            (non_zero_usize_get minimum) (ranges_of batches) → F.pre run batches }
        ensures { UnlessRefused result (λ out. OnSomeBatch Self.takes Self.refuses Self.plans
            Self.threads Self.starts P.site_of self.now site len minimum multiplier
            (λ batches. F.post run batches out)) }
    {
        let inner = self.inner()?;
        let call = Call::batches(self.planning(), len, minimum, multiplier);
        let (parts, measure) = choose_parts(self, rt, alloc, site, call)?;
        let batches = Batches::in_parts(alloc, &inner, site, len, parts, minimum)?;
        let running = Running::begun(measure);
        let outcome = run(batches);
        end_with(self, rt, running, outcome)
    }

    /// A result of `run` over tiles of one of `grids`, on rows of `len` columns: of the first one
    /// of least cost for as many workers as the strategy picks (`IsTiling`).
    ///
    /// The work, by which a policy tells calls apart, is the least cost for one worker times
    /// `multiplier`, which stops at the greatest `usize`. The tiles go through the strategy's
    /// `inner` and have the call's site. Whatever the closure returns, its run is told as a
    /// success: a kernel that may fail goes by `try_run_tiles`.
    ///
    /// ```text
    /// let planned = |tiles: Tiles<'_, S, P>| (tiles.workers(), tiles.is_cut());
    /// let grids = [Grid { rows, tile_cost }];
    /// let (workers, is_cut) = strategy.run_tiles(rt, alloc, SITE, len, &grids, 1, planned)?;
    /// ```
    ///
    /// # Errors
    ///
    /// `Fault::Memory` alone.
    final fn run_tiles<Rt: Wait, P: Place, R, F: FnOnce(Tiles<'_, Self, P>) -> R + Drop>(
        &self,
        rt: &Rt,
        alloc: Global,
        site: P,
        len: usize,
        grids: &[Grid],
        multiplier: usize,
        run: F,
    ) -> Result<R, Fault>
        requires fits { Fits grids.now len }
        requires accepts { (tiles : Tiles Self P) (workers : ℕ)
            → IsTiling grids.now len workers tiles → F.pre run tiles }
        ensures answers { IfOk result (λ answer. OnSomeTiles Self.takes Self.refuses Self.plans
            Self.threads Self.starts P.site_of self.now site grids.now len multiplier
            (λ tiles. F.post run tiles answer)) }
        ensures fault { IsMemoryOnErr result }
    {
        let inner = self.inner()?;
        let cost = serial_cost(grids, len);
        let call = Call::tiles(self.planning(), len, cost, multiplier);
        let (workers, measure) = choose_parts(self, rt, alloc, site, call)?;
        let tiles = Tiles::for_workers(&inner, site, grids, len, workers);
        let running = Running::begun(measure);
        let answer = run(tiles);
        end_run(self, rt, running, true);
        Ok(answer)
    }

    /// As `run_tiles`, with a closure that may fail by an error of its own. A policy is told nothing
    /// of a kernel that fails.
    ///
    /// ```text
    /// let kernel = |tiles: Tiles<'_, S, P>| count_rows(rt, alloc, tiles, matrix);
    /// let grids = [Grid { rows, tile_cost }];
    /// let counts = flat(strategy.try_run_tiles(rt, alloc, SITE, len, &grids, 1, kernel))?;
    /// ```
    ///
    /// # Errors
    ///
    /// `Trouble::Closure` with the closure's error. `Trouble::Fault` with `Fault::Memory` alone.
    final fn try_run_tiles<Rt: Wait, P: Place, R, E, F>(
        &self,
        rt: &Rt,
        alloc: Global,
        site: P,
        len: usize,
        grids: &[Grid],
        multiplier: usize,
        run: F,
    ) -> Result<R, Trouble<E>>
    where
        F: FnOnce(Tiles<'_, Self, P>) -> Result<R, E> + Drop,
        requires fits { Fits grids.now len }
        requires accepts { (tiles : Tiles Self P) (workers : ℕ)
            → IsTiling grids.now len workers tiles → F.pre run tiles }
        ensures { UnlessRefused result (λ out. OnSomeTiles Self.takes Self.refuses Self.plans
            Self.threads Self.starts P.site_of self.now site grids.now len multiplier
            (λ tiles. F.post run tiles out)) }
    {
        let inner = self.inner()?;
        let cost = serial_cost(grids, len);
        let call = Call::tiles(self.planning(), len, cost, multiplier);
        let (workers, measure) = choose_parts(self, rt, alloc, site, call)?;
        let tiles = Tiles::for_workers(&inner, site, grids, len, workers);
        let running = Running::begun(measure);
        let outcome = run(tiles);
        end_with(self, rt, running, outcome)
    }

    /// A value for each row, of a kernel over parts of rows: `kernel` is called with a row and
    /// neighbouring columns of it, and `merge` with the values of neighbouring columns, left before
    /// right (`FoldsRows`). A row of no columns has the value of none, `0..0`.
    ///
    /// Where merged values are values of all their columns (`IsAdditive`), each is one that
    /// `kernel` may give of its whole row (`whole`): sums, counts, the least column.
    ///
    /// `tile_cost` is what a part of a row costs besides its columns, counted in columns. A kernel
    /// that takes 2 ns a column, and 100 ns to begin, has 50. Rows of fewer than twice as many
    /// columns stay whole; others are cut if the longest chain of work gets shorter by it. The
    /// work, by which a policy tells calls apart, is `rows * (len + tile_cost)`.
    ///
    /// ```text
    /// // how many cells of each row are set
    /// let kernel = |row: usize, columns: Range<usize>| {
    ///     count(&cells[row * len + columns.start..row * len + columns.end])
    /// };
    /// let tile_cost = NonZeroUsize::MIN.saturating_add(49);
    /// let add = |left: usize, right: usize| left.wrapping_add(right);
    /// let counts = strategy.fold_rows(rt, alloc, SITE, rows, len, tile_cost, kernel, add)?;
    /// ```
    ///
    /// # Errors
    ///
    /// `Fault::Memory` alone. Any number of the closures may have been called then.
    final fn fold_rows<Rt: Threads + Wait + Sync, P: Place, R: Send + Drop, K, M>(
        &self,
        rt: &Rt,
        alloc: Global,
        site: P,
        rows: usize,
        len: usize,
        tile_cost: NonZeroUsize,
        kernel: K,
        merge: M,
    ) -> Result<Vec<R>, Fault>
    where
        K: Fn(usize, Range<usize>) -> R + Send + Sync + Drop,
        M: Fn(R, R) -> R + Send + Sync + Drop,
        requires fits { rows * len < 2 ^ 64 }
        requires kernel_accepts { (row : ℕ) (columns : Range ℕ)
            → IsPartOfRows rows len row columns → K.pre kernel row columns }
        requires merge_accepts { M.IsAlwaysCallable merge }
        ensures whole { IsAdditive (K.post kernel) (M.post merge) rows len
            → IfOk result (λ values. GivesRows (K.post kernel) rows len values.items) }
        ensures folds { IfOk result
            (λ values. FoldsRows (K.post kernel) (M.post merge) rows len values.items) }
        ensures asked { OnOk result (AskedByRow Self.takes Self.plans self.now (P.site_of site)
            (record { rows = rows; tile_cost = tile_cost }) len) }
        ensures fault { IsMemoryOnErr result }
    {
        let grids = [Grid { rows, tile_cost }];
        let inner = self.inner()?;
        let cost = serial_cost(&grids, len);
        let call = Call::tiles(self.planning(), len, cost, 1);
        let (workers, measure) = choose_parts(self, rt, alloc, site, call)?;
        let tiles = Tiles::for_workers(&inner, site, &grids, len, workers);
        let running = Running::begun(measure);
        let folded = fold_tiles(tiles, rt, alloc, &kernel, &merge);
        end_as(self, rt, running, folded)
    }
}

impl<C: Chooser> Strategy for C {}
