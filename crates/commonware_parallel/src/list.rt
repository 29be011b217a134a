//! What the list calls of a strategy stand on: what it is asked about a list, and the calls over a
//! list as it comes and in parallel.
ghost use Rattle.std.specs.Prelude.{◌≡◌, All, IfOk, List, OnOk, length};
ghost use Rattle.commonware_parallel.specs.ListCalls.{call_over};
ghost use Rattle.commonware_parallel.specs.Words.{AskedOver, Body, ComesSerially, Drains, GivesSome, GoesByLength, HoldsAlong, IsFinite, IsMemoryOnErr, MapOf, MapStep, MappedInitAs, MayCome, MutBor};
ghost use Rattle.commonware_parallel.specs.Words.{OkStep, Stateful, TryFoldSegment, UnlessRefused, body_call};

use crate::call::Call;
use crate::chooser::Chooser;
use crate::chosen::begin_path;
use crate::running::end_as;
pub(crate) use parallel_bridge::list::fold::{fold_iter, fold_parallel};
pub(crate) use parallel_bridge::list::fold_init::{fold_init_iter, fold_init_parallel};
use parallel_bridge::list::map::{map_iter, map_parallel};
use parallel_bridge::list::map_init::{map_init_iter, map_init_parallel};
pub(crate) use parallel_bridge::list::partition::{partition_iter, partition_parallel};
use parallel_bridge::list::try_fold::try_fold_iter;
pub(crate) use parallel_bridge::list::try_fold::try_fold_parallel;
pub(crate) use parallel_bridge::list::try_map::{try_map_iter, try_map_parallel};
use parallel_bridge::{Parts, Path, Source};
use parallel_fault::{Fault, Trouble};
use parallel_policy::Place;
use std::alloc::Global;
use std::sync::Wait;
use std::thread::Threads;

/// The choice between a serial and a parallel body over a list.
pub(crate) fn body_over<Q: Parts>(parts: &Q) -> Call
    ensures counted { (xs : List Q.Item) → Q.gives parts.now xs → result ≡ body_call (length xs) }
    ensures kind { result.kind ≡ Body }
    ensures parts { result.max_parts ≡ 1 }
{
    Call::body(parts.len())
}

// The same, for items that each stand for the work of the multiplier, where there is one.
fn call_of<Q: Parts>(parts: &Q, multiplier: Option<usize>) -> Call
    ensures counted { (xs : List Q.Item) → Q.gives parts.now xs
        → result ≡ call_over multiplier (length xs) }
    ensures kind { result.kind ≡ Body }
    ensures parts { result.max_parts ≡ 1 }
{
    match multiplier {
        None => body_over(parts),
        Some(multiplier) => Call::body_with_multiplier(parts.len(), multiplier),
    }
}

/// The results of `map_op` for the items that a source gives, in their order: by the path that the
/// strategy takes for their number, or for the work of the multiplier each.
///
/// # Errors
///
/// `Fault::Memory` alone; the items are then gone.
pub(crate) fn map_source<S: Chooser, Rt, P: Place, M, I: Source<M>, T: Send + Drop, F>(
    strategy: &S,
    rt: &Rt,
    alloc: Global,
    site: P,
    source: I,
    multiplier: Option<usize>,
    map_op: &F,
) -> Result<Vec<T>, Fault>
where
    Rt: Threads + Wait + Sync,
    F: Fn(I::Item) -> T + Send + Sync,
    requires can { I.can source }
    requires accepts { (x : I.Item) → I.may source x → F.pre map_op.now x }
    ensures answers { IfOk result (λ ys. GivesSome I.gives source
        (λ xs. MapOf (F.post map_op.now) xs ys.items)) }
    ensures asked { OnOk result (AskedOver I.gives source
        (S.takes strategy.now (P.site_of site)) (call_over multiplier)) }
    ensures fault { IsMemoryOnErr result }
{
    if strategy.is_serial() {
        return map_iter(alloc, source.into_items(), map_op);
    }
    let parts = source.into_parts(alloc)?;
    let call = call_of(&parts, multiplier);
    let (path, running) = begin_path(strategy, rt, alloc, site, call)?;
    match path {
        Path::Serial => {
            let answers = map_iter(alloc, parts.into_items(), map_op);
            end_as(strategy, rt, running, answers)
        }
        Path::Parallel => {
            let answers = map_parallel(rt, alloc, strategy.thread_number(), parts, map_op);
            end_as(strategy, rt, running, answers)
        }
    }
}

/// The same with a state at hand that `init` makes for each segment.
///
/// # Errors
///
/// `Fault::Memory` alone; the items are then gone.
pub(crate) fn map_init_source<S: Chooser, Rt, P: Place, M, I: Source<M>, W, T, N, F>(
    strategy: &S,
    rt: &Rt,
    alloc: Global,
    site: P,
    source: I,
    multiplier: Option<usize>,
    init: &N,
    map_op: &F,
) -> Result<Vec<T>, Fault>
where
    Rt: Threads + Wait + Sync,
    W: Send + Drop,
    T: Send + Drop,
    N: Fn() -> W + Send + Sync,
    F: Fn(&mut W, I::Item) -> T + Send + Sync,
    requires can { I.can source }
    requires init_accepts { N.IsAlwaysCallable init.now }
    requires map_accepts { (x : I.Item) → I.may source x
        → (state : MutBor W) → F.pre map_op.now state x }
    ensures stateful { IfOk result (λ ys. GivesSome I.gives source
        (λ xs. Stateful (N.post init.now) (MapStep (F.post map_op.now)) xs ys.items)) }
    ensures along { IfOk result (λ ys.
        GoesByLength I.gives source S.takes S.threads strategy.now (P.site_of site)
        (call_over multiplier)
        (MappedInitAs (N.post init.now) (MapStep (F.post map_op.now))) ys.items) }
    ensures fault { IsMemoryOnErr result }
{
    if strategy.is_serial() {
        return map_init_iter(alloc, source.into_items(), init, map_op);
    }
    let parts = source.into_parts(alloc)?;
    let call = call_of(&parts, multiplier);
    let (path, running) = begin_path(strategy, rt, alloc, site, call)?;
    let threads = strategy.thread_number();
    let results = match path {
        Path::Serial => map_init_iter(alloc, parts.into_items(), init, map_op),
        Path::Parallel => map_init_parallel(rt, alloc, threads, parts, init, map_op),
    };
    end_as(strategy, rt, running, results)
}

/// A fold by steps that may fail over the items that an iterator gives, as they come.
///
/// # Errors
///
/// `Trouble::Closure` with the closure's error; `Trouble::Fault` with `Fault::Memory` if an
/// allocation fails.
pub(crate) fn try_fold_as_it_comes<
    I: Iterator,
    R: Drop,
    E: Drop,
    ID: Fn() -> R,
    F: Fn(R, I::Item) -> Result<R, E>,
>(iter: I, identity: &ID, fold_op: &F) -> Result<R, Trouble<E>>
where
    I::Item: Drop,
    requires can { I.can_next iter }
    requires ends { IsFinite (I.remaining iter) }
    requires identity_accepts { ID.IsAlwaysCallable identity.now }
    requires fold_accepts { HoldsAlong I.next_gives iter
        (All (λ x. (value : R) → ComesSerially (ID.post identity.now) (OkStep (F.post fold_op.now))
        (MayCome I.next_gives iter) value → F.pre fold_op.now value x)) }
    ensures { UnlessRefused result (λ out. GivesSome (Drains I.next_gives) iter
        (λ xs. TryFoldSegment (ID.post identity.now) (F.post fold_op.now) xs out)) }
{
    match try_fold_iter(iter, identity, fold_op) {
        Ok(value) => Ok(value),
        Err(error) => Err(Trouble::Closure(error)),
    }
}
