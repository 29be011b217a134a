//! The calls at one site, with what they have in common written once.
ghost use Rattle.std.specs.Prelude.{◌≡◌, Bool, IfErr, IfOk, List, OnOk, Option, Result, fold, length, map};
ghost use Rattle.parallel_bridge.specs.Folds.{FoldLaws};
ghost use Rattle.parallel_bridge.specs.Parts.{keys_of, values_of};
ghost use Rattle.commonware_parallel.specs.Words.{AnyState, Asked, Bracketing, Brackets, Comes, FoldInitSegment, FoldStep, FoldedAs, FoldedInitAs, GivesSome, IsMemoryOnErr, IsMemoryOnFault, IsPermutation};
ghost use Rattle.commonware_parallel.specs.Words.{IsSortedByClosure, IsStableByClosure, MapOf, MapStep, MappedInitAs, MutBor, OkStep, PartitionOf, Stateful, TryBracketing, TryFoldedAs, TryMapOf};
ghost use Rattle.commonware_parallel.specs.Words.{AcceptsChunksMut, AcceptsEach, ChangesChunks, ChangesEach, UnlessRefused, body_call, div_ceil, join_call, listed, non_zero_usize_get};
ghost use Rattle.parallel_calls.specs.Functions.{GoesBy, try_map};
ghost use Rattle.parallel_calls.specs.OnePlace.{AskedOn, GoesOn};

use commonware_parallel::{Fault, Place, Source, Strategy, Trouble};
use std::alloc::Global;
use std::cmp::Ordering;
use std::num::NonZeroUsize;
use std::sync::Wait;
use std::thread::Threads;

/// What the calls at a site have in common: the runtime, the allocator, the strategy and the
/// place.
///
/// A function makes one at its beginning, `let on = On { rt, alloc, strategy, site };`, and then
/// writes `on.map(items, f)`. Each method is the strategy's call of the name in its comment, with
/// that call's clauses and errors. A clause `plain` says what a call comes to where its closure
/// answers by a function.
#[derive(Drop)]
pub struct On<'s, Rt, S, P> {
    /// The runtime.
    pub rt: &'s Rt,
    /// What memory is taken from.
    pub alloc: Global,
    /// The strategy that the calls go through.
    pub strategy: &'s S,
    /// The call site, by which a policy tells them apart.
    pub site: P,
}

impl<'s, Rt: Threads + Wait + Sync, S: Strategy, P: Place> On<'s, Rt, S, P> {
    /// A result of each of two closures: `Strategy::join`.
    ///
    /// # Errors
    ///
    /// `Fault::Memory` if an allocation fails.
    pub fn join<
        A: FnOnce() -> RA + Send + Drop,
        B: FnOnce() -> RB + Send + Drop,
        RA: Send + Drop,
        RB: Send + Drop,
    >(&self, a: A, b: B) -> Result<(RA, RB), Fault>
        requires first_runs { A.pre a }
        requires second_runs { B.pre b }
        ensures answers { IfOk result (λ answers. A.post a answers.0 × B.post b answers.1) }
        ensures refused { IfErr result
            (S.refuses self.now.strategy.now (P.site_of self.now.site) join_call) }
        ensures fault { IsMemoryOnErr result }
    {
        self.strategy.join(self.rt, self.alloc, self.site, a, b)
    }

    /// Sorts the items, those that tie in their order: `Strategy::sort_by`.
    ///
    /// # Errors
    ///
    /// `Fault::Memory` if an allocation fails; the items are then a permutation of what they were.
    pub fn sort_by<T: Send, C: Fn(&T, &T) -> Ordering + Send + Sync + Drop>(
        &self,
        items: &mut [T],
        compare: C,
    ) -> Result<(), Fault>
        requires { C.IsAlwaysCallable compare }
        ensures permutation { IsPermutation items.old items.new }
        ensures sorted { OnOk result (IsSortedByClosure C.FnMut compare items.new) }
        ensures stable { IsStableByClosure C.FnMut compare items.old items.new }
        ensures asked { OnOk result (Asked (S.takes self.now.strategy.now
            (P.site_of self.now.site) (body_call (length items.old)))) }
        ensures fault { IsMemoryOnErr result }
    {
        self.strategy
            .sort_by(self.rt, self.alloc, self.site, items, compare)
    }

    /// Sorts the items: `Strategy::sort_unstable_by`.
    ///
    /// # Errors
    ///
    /// `Fault::Memory` if an allocation fails; the items are then a permutation of what they were.
    pub fn sort_unstable_by<T: Send, C: Fn(&T, &T) -> Ordering + Send + Sync + Drop>(
        &self,
        items: &mut [T],
        compare: C,
    ) -> Result<(), Fault>
        requires { C.IsAlwaysCallable compare }
        ensures permutation { IsPermutation items.old items.new }
        ensures sorted { OnOk result (IsSortedByClosure C.FnMut compare items.new) }
        ensures asked { OnOk result (Asked (S.takes self.now.strategy.now
            (P.site_of self.now.site) (body_call (length items.old)))) }
        ensures fault { IsMemoryOnErr result }
    {
        self.strategy
            .sort_unstable_by(self.rt, self.alloc, self.site, items, compare)
    }

    /// Each item changed where it lies: `Strategy::for_each_mut`.
    pub fn for_each_mut<T: Send, F: Fn(usize, &mut T) + Send + Sync + Drop>(
        &self,
        items: &mut [T],
        op: F,
    ) -> Result<(), Fault>
        requires accepts { AcceptsEach F.Fn op items.old }
        ensures changes { OnOk result (ChangesEach F.Fn op items.old items.new) }
        ensures unchanged { IfErr result (λ _. items.new ≡ items.old) }
        ensures asked { OnOk result (Asked (S.takes self.now.strategy.now
            (P.site_of self.now.site) (body_call (length items.old)))) }
        ensures refused { IfErr result (S.refuses self.now.strategy.now
            (P.site_of self.now.site) (body_call (length items.old))) }
        ensures fault { IsMemoryOnErr result }
    {
        self.strategy
            .for_each_mut(self.rt, self.alloc, self.site, items, op)
    }

    /// Each chunk changed where it lies: `Strategy::for_each_chunk_mut`.
    pub fn for_each_chunk_mut<T: Send, F: Fn(usize, &mut [T]) + Send + Sync + Drop>(
        &self,
        items: &mut [T],
        size: NonZeroUsize,
        op: F,
    ) -> Result<(), Fault>
        requires accepts { AcceptsChunksMut F.Fn op (non_zero_usize_get size) items.old }
        ensures changes { OnOk result
            (ChangesChunks F.Fn op (non_zero_usize_get size) items.old items.new) }
        ensures unchanged { IfErr result (λ _. items.new ≡ items.old) }
        ensures asked { OnOk result (Asked (S.takes self.now.strategy.now
            (P.site_of self.now.site)
            (body_call (div_ceil (length items.old) (non_zero_usize_get size))))) }
        ensures refused { IfErr result (S.refuses self.now.strategy.now
            (P.site_of self.now.site)
            (body_call (div_ceil (length items.old) (non_zero_usize_get size)))) }
        ensures fault { IsMemoryOnErr result }
    {
        self.strategy
            .for_each_chunk_mut(self.rt, self.alloc, self.site, items, size, op)
    }

    /// The results for the items, in their order: `Strategy::map_collect_vec`.
    ///
    /// # Errors
    ///
    /// `Fault::Memory` if an allocation fails.
    pub fn map<M, I: Source<M>, T: Send + Drop, F: Fn(I::Item) -> T + Send + Sync + Drop>(
        &self,
        source: I,
        map_op: F,
    ) -> Result<Vec<T>, Fault>
        requires can { I.can source }
        requires accepts { (x : I.Item) → I.may source x → F.pre map_op x }
        ensures answers { IfOk result (λ ys. GivesSome I.gives source
            (λ xs. MapOf (F.post map_op) xs ys.items)) }
        ensures plain { (f : I.Item → T) → GoesBy (F.post map_op) f
            → IfOk result (λ ys. GivesSome I.gives source (λ xs. ys.items ≡ map f xs)) }
        ensures asked { OnOk result (AskedOn I.gives source S.takes P.site_of self.now) }
        ensures fault { IsMemoryOnErr result }
    {
        self.strategy
            .map_collect_vec(self.rt, self.alloc, self.site, source, map_op)
    }

    /// The items folded: `Strategy::fold`. Where the closures keep the laws that `FoldLaws` names,
    /// over each list that the source may give, it is the plain fold from the left.
    ///
    /// # Errors
    ///
    /// `Fault::Memory` if an allocation fails.
    pub fn fold<
        M,
        I: Source<M>,
        R: Send + Drop,
        ID: Fn() -> R + Send + Sync + Drop,
        F: Fn(R, I::Item) -> R + Send + Sync + Drop,
        G: Fn(R, R) -> R + Send + Sync + Drop,
    >(&self, source: I, identity: ID, fold_op: F, reduce_op: G) -> Result<R, Fault>
        requires can { I.can source }
        requires identity_accepts { ID.IsAlwaysCallable identity }
        requires fold_accepts { (x : I.Item) → I.may source x → (value : R)
            → Comes (ID.post identity) (F.post fold_op) (G.post reduce_op) (I.may source) value
            → F.pre fold_op value x }
        requires reduce_accepts { (a b : R)
            → Comes (ID.post identity) (F.post fold_op) (G.post reduce_op) (I.may source) a
            → Comes (ID.post identity) (F.post fold_op) (G.post reduce_op) (I.may source) b
            → G.pre reduce_op a b }
        ensures brackets { IfOk result (λ r. GivesSome I.gives source
            (λ xs. Bracketing (ID.post identity) (F.post fold_op) (G.post reduce_op) xs r)) }
        ensures along { IfOk result
            (GoesOn I.gives source S.takes S.threads P.site_of self.now
            (FoldedAs (ID.post identity) (F.post fold_op) (G.post reduce_op))) }
        ensures plain { (unit : R) (f : R → I.Item → R) (g : R → R → R) (good : R → Bool)
            → ((xs : List I.Item) → I.gives source xs → FoldLaws (ID.post identity)
            (F.post fold_op) (G.post reduce_op) unit f g good xs)
            → IfOk result (λ r. GivesSome I.gives source (λ xs. r ≡ fold f unit xs)) }
        ensures fault { IsMemoryOnErr result }
    {
        self.strategy.fold(
            self.rt, self.alloc, self.site, source, identity, fold_op, reduce_op,
        )
    }

    /// The items folded with a state at hand: `Strategy::fold_init`.
    ///
    /// # Errors
    ///
    /// `Fault::Memory` if an allocation fails.
    pub fn fold_init<
        M,
        I: Source<M>,
        V: Send + Drop,
        R: Send + Drop,
        N: Fn() -> V + Send + Sync + Drop,
        ID: Fn() -> R + Send + Sync + Drop,
        F: Fn(R, &mut V, I::Item) -> R + Send + Sync + Drop,
        G: Fn(R, R) -> R + Send + Sync + Drop,
    >(&self, source: I, init: N, identity: ID, fold_op: F, reduce_op: G) -> Result<R, Fault>
        requires can { I.can source }
        requires init_accepts { N.IsAlwaysCallable init }
        requires identity_accepts { ID.IsAlwaysCallable identity }
        requires fold_accepts { (x : I.Item) → I.may source x → (value : R)
            → Comes (ID.post identity) (AnyState (FoldStep (F.post fold_op))) (G.post reduce_op)
            (I.may source) value → (state : MutBor V) → F.pre fold_op value state x }
        requires reduce_accepts { (a b : R)
            → Comes (ID.post identity) (AnyState (FoldStep (F.post fold_op))) (G.post reduce_op)
            (I.may source) a
            → Comes (ID.post identity) (AnyState (FoldStep (F.post fold_op))) (G.post reduce_op)
            (I.may source) b → G.pre reduce_op a b }
        ensures brackets { IfOk result (λ r. GivesSome I.gives source
            (λ xs. Brackets (FoldInitSegment (N.post init) (ID.post identity)
            (FoldStep (F.post fold_op))) (G.post reduce_op) xs r)) }
        ensures along { IfOk result
            (GoesOn I.gives source S.takes S.threads P.site_of self.now
            (FoldedInitAs (N.post init) (ID.post identity) (FoldStep (F.post fold_op))
            (G.post reduce_op))) }
        ensures fault { IsMemoryOnErr result }
    {
        self.strategy.fold_init(
            self.rt, self.alloc, self.site, source, init, identity, fold_op, reduce_op,
        )
    }

    /// The items folded by steps that may fail: `Strategy::try_fold`.
    ///
    /// # Errors
    ///
    /// `Trouble::Closure` with the closure's error; `Trouble::Fault` with `Fault::Memory` if an
    /// allocation fails.
    pub fn try_fold<
        M,
        I: Source<M>,
        R: Send + Drop,
        E: Send + Drop,
        ID: Fn() -> R + Send + Sync + Drop,
        F: Fn(R, I::Item) -> Result<R, E> + Send + Sync + Drop,
        G: Fn(R, R) -> R + Send + Sync + Drop,
    >(&self, source: I, identity: ID, fold_op: F, reduce_op: G) -> Result<R, Trouble<E>>
        requires can { I.can source }
        requires identity_accepts { ID.IsAlwaysCallable identity }
        requires fold_accepts { (x : I.Item) → I.may source x → (value : R)
            → Comes (ID.post identity) (OkStep (F.post fold_op)) (G.post reduce_op) (I.may source)
            value → F.pre fold_op value x }
        requires reduce_accepts { (a b : R)
            → Comes (ID.post identity) (OkStep (F.post fold_op)) (G.post reduce_op) (I.may source) a
            → Comes (ID.post identity) (OkStep (F.post fold_op)) (G.post reduce_op) (I.may source) b
            → G.pre reduce_op a b }
        ensures brackets { UnlessRefused result (λ out. GivesSome I.gives source
            (λ xs. TryBracketing (ID.post identity) (F.post fold_op) (G.post reduce_op) xs out)) }
        ensures along { UnlessRefused result
            (GoesOn I.gives source S.takes S.threads P.site_of self.now
            (TryFoldedAs (ID.post identity) (F.post fold_op) (G.post reduce_op))) }
        ensures fault { IsMemoryOnFault result }
    {
        self.strategy.try_fold(
            self.rt, self.alloc, self.site, source, identity, fold_op, reduce_op,
        )
    }

    /// The results, or the first failing item's error: `Strategy::try_map_collect_vec`.
    ///
    /// # Errors
    ///
    /// `Trouble::Closure` with the closure's error; `Trouble::Fault` with `Fault::Memory` if an
    /// allocation fails.
    pub fn try_map<
        M,
        I: Source<M>,
        T: Send + Drop,
        E: Send + Drop,
        F: Fn(I::Item) -> Result<T, E> + Send + Sync + Drop,
    >(&self, source: I, map_op: F) -> Result<Vec<T>, Trouble<E>>
        requires can { I.can source }
        requires accepts { (x : I.Item) → I.may source x → F.pre map_op x }
        ensures answers { UnlessRefused result (λ out. GivesSome I.gives source
            (λ xs. TryMapOf (F.post map_op) xs (listed out))) }
        ensures plain { (f : I.Item → Result T E) → GoesBy (F.post map_op) f
            → UnlessRefused result (λ out. GivesSome I.gives source
            (λ xs. listed out ≡ try_map f xs)) }
        ensures asked { UnlessRefused result
            (λ _. AskedOn I.gives source S.takes P.site_of self.now) }
        ensures fault { IsMemoryOnFault result }
    {
        self.strategy
            .try_map_collect_vec(self.rt, self.alloc, self.site, source, map_op)
    }

    /// The results with a state at hand: `Strategy::map_init_collect_vec`.
    ///
    /// # Errors
    ///
    /// `Fault::Memory` if an allocation fails.
    pub fn map_init<
        M,
        I: Source<M>,
        V: Send + Drop,
        T: Send + Drop,
        N: Fn() -> V + Send + Sync + Drop,
        F: Fn(&mut V, I::Item) -> T + Send + Sync + Drop,
    >(&self, source: I, init: N, map_op: F) -> Result<Vec<T>, Fault>
        requires can { I.can source }
        requires init_accepts { N.IsAlwaysCallable init }
        requires map_accepts { (x : I.Item) → I.may source x
            → (state : MutBor V) → F.pre map_op state x }
        ensures stateful { IfOk result (λ ys. GivesSome I.gives source
            (λ xs. Stateful (N.post init) (MapStep (F.post map_op)) xs ys.items)) }
        ensures along { IfOk result (λ ys.
            GoesOn I.gives source S.takes S.threads P.site_of self.now
            (MappedInitAs (N.post init) (MapStep (F.post map_op))) ys.items) }
        ensures fault { IsMemoryOnErr result }
    {
        self.strategy
            .map_init_collect_vec(self.rt, self.alloc, self.site, source, init, map_op)
    }

    /// Values, and the keys of items without one: `Strategy::map_partition_collect_vec`.
    ///
    /// # Errors
    ///
    /// `Fault::Memory` if an allocation fails.
    pub fn map_partition<
        M,
        I: Source<M>,
        K: Send + Drop,
        U: Send + Drop,
        F: Fn(I::Item) -> (K, Option<U>) + Send + Sync + Drop,
    >(&self, source: I, map_op: F) -> Result<(Vec<U>, Vec<K>), Fault>
        requires can { I.can source }
        requires accepts { (x : I.Item) → I.may source x → F.pre map_op x }
        ensures answers { IfOk result (λ parts. GivesSome I.gives source
            (λ xs. PartitionOf (F.post map_op) xs parts.0.items parts.1.items)) }
        ensures plain { (f : I.Item → K × Option U) → GoesBy (F.post map_op) f
            → IfOk result (λ parts. GivesSome I.gives source
            (λ xs. (parts.0.items ≡ values_of (map f xs))
            × (parts.1.items ≡ keys_of (map f xs)))) }
        ensures asked { OnOk result (AskedOn I.gives source S.takes P.site_of self.now) }
        ensures fault { IsMemoryOnErr result }
    {
        self.strategy
            .map_partition_collect_vec(self.rt, self.alloc, self.site, source, map_op)
    }
}
