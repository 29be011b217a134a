//! The strategy on the caller's thread.
ghost use Rattle.std.specs.Prelude.{◌≡◌, All, true, IfOk, OnOk};
ghost use Rattle.std.specs.Borrow.{MutBor};
ghost use Rattle.std.specs.Fork.{AcceptsChunksMut, AcceptsEach, ChangesChunks, ChangesEach};
ghost use Rattle.std.specs.Int.NonZero.{non_zero_usize_get};
ghost use Rattle.std.specs.Iterator.{IsFinite, Drains, HoldsAlong};
ghost use Rattle.std.specs.List.Sorted.{IsPermutation, IsSortedByClosure, IsStableByClosure};
ghost use Rattle.parallel_bridge.specs.Comes.{ComesSerially, OkStep};
ghost use Rattle.parallel_bridge.specs.Sources.{GivesSome, MayCome};
ghost use Rattle.parallel_fault.specs.Trouble.{IsMemoryOnErr};
ghost use Rattle.parallel_bridge.specs.Lists.{FoldSegment, MapOf};
ghost use Rattle.parallel_bridge.specs.Outcomes.{UnlessRefused, listed};
ghost use Rattle.parallel_bridge.specs.Parts.{PartitionOf};
ghost use Rattle.parallel_bridge.specs.States.{AnyState, FoldInitSegment, FoldStep, MapStep, StateSegment};
ghost use Rattle.parallel_bridge.specs.Tries.{TryFoldSegment, TryMapOf};
ghost use Rattle.parallel_bridge.specs.declared.path.Path.TheVariants.{Serial};

mod parts;

use crate::call::{Call, Pick};
use crate::chooser::Chooser;
use crate::meter::Unmeasured;
use crate::spawned::{Job, Spawned, Stage};
use parallel_bridge::list::fold::fold_iter;
use parallel_bridge::list::fold_init::fold_init_iter;
use parallel_bridge::list::map::map_iter;
use parallel_bridge::list::map_init::map_init_iter;
use parallel_bridge::list::partition::partition_iter;
use parallel_bridge::list::try_fold::try_fold_iter;
use parallel_bridge::list::try_map::try_map_iter;
use parallel_fault::{Fault, Trouble};
use parallel_policy::Place;
use parallel_row::{each_chunk_in_turn, each_item_in_turn};
use std::alloc::Global;
use std::cmp::Ordering;
use std::num::NonZeroUsize;
use std::sync::Wait;

/// Runs each call on the caller's own thread, in one piece.
///
/// Its own functions have the names of the trait's, take no right to wait or to start threads, and
/// say the one result that there is. In code that is generic over `Strategy` the trait's are
/// called.
#[derive(Clone, Copy, Debug, Default)]
pub struct Sequential;

impl Sequential {
    ghost use Rattle.commonware_parallel.specs.Spawned.{BeginsAs, gives_answer};

    /// A result of the serial body. The parallel one isn't called. Takes no memory.
    pub fn run<P: Place, R, A: FnOnce() -> R, B: FnOnce() -> R + Drop>(
        &self,
        _site: P,
        _len: usize,
        serial: A,
        _parallel: B,
    ) -> R
        requires { A.pre serial }
        ensures { A.post serial result }
    {
        serial()
    }

    /// A result of the serial body, or its error. The parallel one isn't called. Takes no memory.
    ///
    /// # Errors
    ///
    /// The serial body's error.
    pub fn try_run<P: Place, R, E, A: FnOnce() -> Result<R, E>, B: FnOnce() -> Result<R, E> + Drop>(
        &self,
        _site: P,
        _len: usize,
        serial: A,
        _parallel: B,
    ) -> Result<R, E>
        requires { A.pre serial }
        ensures { A.post serial result }
    {
        serial()
    }

    /// The results of `map_op` for the items as they come, in their order. Its list alone is
    /// gathered.
    ///
    /// # Errors
    ///
    /// `Fault::Memory` if an allocation fails; the items are then gone.
    pub fn map_collect_vec<P: Place, I: Iterator, T: Drop, F: Fn(I::Item) -> T + Drop>(
        &self,
        alloc: Global,
        _site: P,
        iter: I,
        map_op: F,
    ) -> Result<Vec<T>, Fault>
    where
        I::Item: Drop,
        requires can { I.can_next iter }
        requires ends { IsFinite (I.remaining iter) }
        requires accepts { HoldsAlong I.next_gives iter (All (F.pre map_op)) }
        ensures answers { IfOk result (λ ys. GivesSome (Drains I.next_gives) iter
            (λ xs. MapOf (F.post map_op) xs ys.items)) }
        ensures fault { IsMemoryOnErr result }
    {
        map_iter(alloc, iter, &map_op)
    }

    /// As `map_collect_vec`: no policy is told of the work.
    ///
    /// # Errors
    ///
    /// `Fault::Memory` if an allocation fails.
    pub fn map_collect_vec_with_multiplier<
        P: Place,
        I: Iterator,
        T: Drop,
        F: Fn(I::Item) -> T + Drop,
    >(
        &self,
        alloc: Global,
        site: P,
        iter: I,
        _multiplier: usize,
        map_op: F,
    ) -> Result<Vec<T>, Fault>
    where
        I::Item: Drop,
        requires can { I.can_next iter }
        requires ends { IsFinite (I.remaining iter) }
        requires accepts { HoldsAlong I.next_gives iter (All (F.pre map_op)) }
        ensures answers { IfOk result (λ ys. GivesSome (Drains I.next_gives) iter
            (λ xs. MapOf (F.post map_op) xs ys.items)) }
        ensures fault { IsMemoryOnErr result }
    {
        self.map_collect_vec(alloc, site, iter, map_op)
    }

    /// The items folded from an identity as they come, from left to right, in one segment
    /// (`FoldSegment`). Nothing is gathered and nothing is reduced, so it takes no memory.
    pub fn fold<
        P: Place,
        I: Iterator,
        R: Drop,
        ID: Fn() -> R + Drop,
        F: Fn(R, I::Item) -> R + Drop,
        G: Fn(R, R) -> R + Drop,
    >(&self, _site: P, iter: I, identity: ID, fold_op: F, _reduce_op: G) -> R
        requires can { I.can_next iter }
        requires ends { IsFinite (I.remaining iter) }
        requires identity_accepts { ID.IsAlwaysCallable identity }
        requires fold_accepts { HoldsAlong I.next_gives iter
            (All (λ x. (value : R)
            → ComesSerially (ID.post identity) (F.post fold_op) (MayCome I.next_gives iter) value
            → F.pre fold_op value x)) }
        ensures { GivesSome (Drains I.next_gives) iter
            (λ xs. FoldSegment (ID.post identity) (F.post fold_op) xs result) }
    {
        fold_iter(iter, &identity, &fold_op)
    }

    /// The items folded from an identity as they come, from left to right, in one segment with one
    /// state at hand that `init` makes and that goes from item to item (`FoldInitSegment`). Nothing
    /// is gathered and nothing is reduced, so it takes no memory.
    pub fn fold_init<
        P: Place,
        I: Iterator,
        S: Drop,
        R: Drop,
        N: Fn() -> S + Drop,
        ID: Fn() -> R + Drop,
        F: Fn(R, &mut S, I::Item) -> R + Drop,
        G: Fn(R, R) -> R + Drop,
    >(&self, _site: P, iter: I, init: N, identity: ID, fold_op: F, _reduce_op: G) -> R
        requires can { I.can_next iter }
        requires ends { IsFinite (I.remaining iter) }
        requires init_accepts { N.IsAlwaysCallable init }
        requires identity_accepts { ID.IsAlwaysCallable identity }
        requires fold_accepts { HoldsAlong I.next_gives iter
            (All (λ x. (value : R)
            → ComesSerially (ID.post identity) (AnyState (FoldStep (F.post fold_op)))
            (MayCome I.next_gives iter) value → (state : MutBor S) → F.pre fold_op value state x)) }
        ensures { GivesSome (Drains I.next_gives) iter
            (λ xs. FoldInitSegment (N.post init) (ID.post identity)
            (FoldStep (F.post fold_op)) xs result) }
    {
        fold_init_iter(iter, &init, &identity, &fold_op)
    }

    /// The items folded from an identity as they come, up to the first step that fails, in one
    /// segment (`TryFoldSegment`). Nothing is gathered and nothing is reduced, so it takes no
    /// memory.
    ///
    /// # Errors
    ///
    /// The error of the first step that fails, after which the other items are passed over.
    pub fn try_fold<
        P: Place,
        I: Iterator,
        R: Drop,
        E: Drop,
        ID: Fn() -> R + Drop,
        F: Fn(R, I::Item) -> Result<R, E> + Drop,
        G: Fn(R, R) -> R + Drop,
    >(&self, _site: P, iter: I, identity: ID, fold_op: F, _reduce_op: G) -> Result<R, E>
    where
        I::Item: Drop,
        requires can { I.can_next iter }
        requires ends { IsFinite (I.remaining iter) }
        requires identity_accepts { ID.IsAlwaysCallable identity }
        requires fold_accepts { HoldsAlong I.next_gives iter
            (All (λ x. (value : R) → ComesSerially (ID.post identity) (OkStep (F.post fold_op))
            (MayCome I.next_gives iter) value → F.pre fold_op value x)) }
        ensures { GivesSome (Drains I.next_gives) iter
            (λ xs. TryFoldSegment (ID.post identity) (F.post fold_op) xs result) }
    {
        try_fold_iter(iter, &identity, &fold_op)
    }

    /// The values that `map_op` returns for the items, in their order, or the error of the first
    /// item that fails (`TryMapOf`), after which the other items are passed over.
    ///
    /// # Errors
    ///
    /// `Trouble::Closure` with the first failing item's error. `Trouble::Fault` with
    /// `Fault::Memory` alone. The items are then gone.
    pub fn try_map_collect_vec<
        P: Place,
        I: Iterator,
        T: Drop,
        E: Drop,
        F: Fn(I::Item) -> Result<T, E> + Drop,
    >(&self, alloc: Global, _site: P, iter: I, map_op: F) -> Result<Vec<T>, Trouble<E>>
    where
        I::Item: Drop,
        requires can { I.can_next iter }
        requires ends { IsFinite (I.remaining iter) }
        requires accepts { HoldsAlong I.next_gives iter (All (F.pre map_op)) }
        ensures answers { UnlessRefused result (λ out. GivesSome (Drains I.next_gives) iter
            (λ xs. TryMapOf (F.post map_op) xs (listed out))) }
    {
        try_map_iter(alloc, iter, &map_op)
    }

    /// The results of `map_op` for the items, in their order, with one state at hand that `init`
    /// makes and that goes from item to item (`StateSegment`).
    ///
    /// # Errors
    ///
    /// `Fault::Memory` alone; the items are then gone.
    pub fn map_init_collect_vec<
        P: Place,
        I: Iterator,
        S: Drop,
        T: Drop,
        N: Fn() -> S + Drop,
        F: Fn(&mut S, I::Item) -> T + Drop,
    >(&self, alloc: Global, _site: P, iter: I, init: N, map_op: F) -> Result<Vec<T>, Fault>
    where
        I::Item: Drop,
        requires can { I.can_next iter }
        requires ends { IsFinite (I.remaining iter) }
        requires init_accepts { N.IsAlwaysCallable init }
        requires map_accepts { HoldsAlong I.next_gives iter
            (All (λ x. (state : MutBor S) → F.pre map_op state x)) }
        ensures one_state { IfOk result (λ ys. GivesSome (Drains I.next_gives) iter
            (λ xs. StateSegment (N.post init)
            (MapStep (F.post map_op)) xs ys.items)) }
        ensures fault { IsMemoryOnErr result }
    {
        let answers = map_init_iter(alloc, iter, &init, &map_op)?;
        Ok(answers)
    }

    /// As `map_init_collect_vec`: no policy is told of the work.
    ///
    /// # Errors
    ///
    /// `Fault::Memory` alone; the items are then gone.
    pub fn map_init_collect_vec_with_multiplier<
        P: Place,
        I: Iterator,
        S: Drop,
        T: Drop,
        N: Fn() -> S + Drop,
        F: Fn(&mut S, I::Item) -> T + Drop,
    >(
        &self,
        alloc: Global,
        site: P,
        iter: I,
        _multiplier: usize,
        init: N,
        map_op: F,
    ) -> Result<Vec<T>, Fault>
    where
        I::Item: Drop,
        requires can { I.can_next iter }
        requires ends { IsFinite (I.remaining iter) }
        requires init_accepts { N.IsAlwaysCallable init }
        requires map_accepts { HoldsAlong I.next_gives iter
            (All (λ x. (state : MutBor S) → F.pre map_op state x)) }
        ensures one_state { IfOk result (λ ys. GivesSome (Drains I.next_gives) iter
            (λ xs. StateSegment (N.post init)
            (MapStep (F.post map_op)) xs ys.items)) }
        ensures fault { IsMemoryOnErr result }
    {
        self.map_init_collect_vec(alloc, site, iter, init, map_op)
    }

    /// The values that `map_op` returns, and the keys of the items for which it returns none, both
    /// in the items' order (`PartitionOf`).
    ///
    /// # Errors
    ///
    /// `Fault::Memory` alone; the items are then gone.
    pub fn map_partition_collect_vec<
        P: Place,
        I: Iterator,
        K: Drop,
        U: Drop,
        F: Fn(I::Item) -> (K, Option<U>) + Drop,
    >(&self, alloc: Global, _site: P, iter: I, map_op: F) -> Result<(Vec<U>, Vec<K>), Fault>
    where
        I::Item: Drop,
        requires can { I.can_next iter }
        requires ends { IsFinite (I.remaining iter) }
        requires accepts { HoldsAlong I.next_gives iter (All (F.pre map_op)) }
        ensures answers { IfOk result (λ parts. GivesSome (Drains I.next_gives) iter
            (λ xs. PartitionOf (F.post map_op) xs parts.0.items parts.1.items)) }
        ensures fault { IsMemoryOnErr result }
    {
        let parts = partition_iter(alloc, iter, &map_op)?;
        Ok(parts)
    }

    /// A result of each closure, the first one run first. Takes no memory.
    pub fn join<P: Place, A: FnOnce() -> RA, B: FnOnce() -> RB, RA, RB>(
        &self,
        _site: P,
        a: A,
        b: B,
    ) -> (RA, RB)
        requires first_runs { A.pre a }
        requires second_runs { B.pre b }
        ensures { A.post a result.0 × B.post b result.1 }
    {
        (a(), b())
    }

    /// Sorts the items by a lawful order; items that tie keep their order.
    ///
    /// # Errors
    ///
    /// `Fault::Memory` if the sort's buffer can't be allocated; the items are then a permutation of
    /// what they were.
    pub fn sort_by<P: Place, T, C: Fn(&T, &T) -> Ordering>(
        &self,
        alloc: Global,
        _site: P,
        items: &mut [T],
        compare: C,
    ) -> Result<(), Fault>
        requires { C.IsAlwaysCallable compare }
        ensures permutation { IsPermutation items.old items.new }
        ensures sorted { OnOk result (IsSortedByClosure C.FnMut compare items.new) }
        ensures stable { IsStableByClosure C.FnMut compare items.old items.new }
        ensures fault { IsMemoryOnErr result }
    {
        items.sort_by(alloc, compare)?;
        Ok(())
    }

    /// Sorts the items by a lawful order; items that tie may change places. Takes no memory.
    pub fn sort_unstable_by<P: Place, T, C: Fn(&T, &T) -> Ordering>(
        &self,
        _site: P,
        items: &mut [T],
        compare: C,
    )
        requires { C.IsAlwaysCallable compare }
        ensures permutation { IsPermutation items.old items.new }
        ensures sorted { IsSortedByClosure C.FnMut compare items.new }
    {
        items.sort_unstable_by(compare);
    }

    /// Changes each item where it lies, from the first to the last: `op` is called with its index
    /// and the item. Takes no memory.
    pub fn for_each_mut<P: Place, T, F: Fn(usize, &mut T) + Drop>(
        &self,
        _site: P,
        items: &mut [T],
        op: F,
    )
        requires accepts { AcceptsEach F.Fn op items.old }
        ensures { ChangesEach F.Fn op items.old items.new }
    {
        each_item_in_turn(items, &op);
    }

    /// Changes each chunk of `size` items where it lies, the last one maybe shorter, from the first
    /// to the last: `op` is called with the index at which it begins and the chunk. Takes no
    /// memory.
    pub fn for_each_chunk_mut<P: Place, T, F: Fn(usize, &mut [T]) + Drop>(
        &self,
        _site: P,
        items: &mut [T],
        size: NonZeroUsize,
        op: F,
    )
        requires accepts { AcceptsChunksMut F.Fn op (non_zero_usize_get size) items.old }
        ensures { ChangesChunks F.Fn op (non_zero_usize_get size) items.old items.new }
    {
        each_chunk_in_turn(size, items, &op);
    }

    /// A job, run at once on this strategy: its result is there, so that the first poll gives it.
    ///
    /// `rt` is what a later poll needs, and is looked at by none before. The length tells no policy
    /// anything. Takes no memory.
    pub fn spawn<Rt, P: Place, F: Job<Sequential, T>, T>(
        &self,
        rt: Rt,
        _site: P,
        _len: usize,
        job: F,
    ) -> Spawned<Rt, Sequential, F, T>
        requires { F.may_run job self.now }
        ensures gives { (answer : T) → gives_answer F.may_answer result answer
            → F.may_answer job self.now answer }
        ensures form { BeginsAs true Serial result }
    {
        Spawned::at(rt, Stage::Ready(job.run_on(*self)))
    }
}

impl Chooser for Sequential {
    ghost use Rattle.commonware_parallel.specs.Calls.{first_pick};

    ghost takes = { λ _ _ call pick. pick ≡ first_pick call };

    ghost refuses = { λ _ _ _ _. ⊥ };

    ghost plans = { λ _. 1 };

    ghost threads = { λ _. 1 };

    ghost starts = { λ _. true };

    ghost unasked = { λ _. true };

    type Measure = Unmeasured;

    fn planning(&self) -> NonZeroUsize {
        NonZeroUsize::MIN
    }

    fn thread_number(&self) -> NonZeroUsize {
        NonZeroUsize::MIN
    }

    fn starts_workers(&self) -> bool {
        true
    }

    fn is_serial(&self) -> bool {
        true
    }

    fn inner(&self) -> Result<Sequential, Fault> {
        Ok(Sequential)
    }

    fn choose<Rt: Wait, P: Place>(
        &self,
        _rt: &Rt,
        _alloc: Global,
        _site: P,
        call: Call,
    ) -> Result<(Pick, Unmeasured), Fault> {
        Ok((call.first(), Unmeasured))
    }
}
