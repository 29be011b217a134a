//! A strategy of a user's own, and what calls through it are known to return.
ghost use Rattle.std.specs.Prelude.{◌≡◌, ◌*◌, ◌<◌, ◌≤◌, false, true, length, map, IfOk};
ghost use Rattle.std.specs.Int.NonZero.{non_zero_usize_get};
ghost use Rattle.parallel_fault.specs.Trouble.{IsMemoryOnErr};
ghost use Rattle.parallel_bridge.specs.Lists.{FoldSegment};
ghost use Rattle.parallel_bridge.specs.Shapes.{Along};
ghost use Rattle.parallel_bridge.specs.Sources.{GivesSome};
ghost use Rattle.uses.specs.LongLists.{from_of, shape_of};

use crate::squares::squares;
use commonware_parallel::{Call, Chooser, Fault, Pick, Place, Source, Strategy, Unmeasured};
use parallel_calls::On;
use std::alloc::Global;
use std::num::NonZeroUsize;
use std::sync::Wait;
use std::thread::Threads;

/// Runs a call over few items on the caller's thread and any longer one in parallel.
///
/// It shows all that a strategy of one's own takes. `choose` chooses a pick, which is a path or a
/// number of parts, and the other functions hand out two numbers; the ghost members say which picks
/// are taken. Maps, folds, runs and batches come from the trait, with their contracts proved once
/// for every strategy, so nothing here can break them.
#[derive(Clone, Copy, Debug, PartialEq, Eq)]
pub struct LongLists {
    threads: NonZeroUsize,
    from: usize,
}

impl LongLists {
    ghost use Rattle.uses.specs.LongLists.{from_of, thread_number_of};

    /// A strategy that runs calls over `from` items and more in parallel, in as many parts as
    /// `threads` threads ask for.
    pub fn new(threads: NonZeroUsize, from: usize) -> LongLists
        ensures threads { thread_number_of result ≡ non_zero_usize_get threads }
        ensures from { from_of result ≡ from }
    {
        LongLists { threads, from }
    }
}

impl Chooser for LongLists {
    ghost use Rattle.uses.specs.LongLists.{from_of, thread_number_of, TakesByLength};

    // The pick goes by the number of items alone, wherever the call stands.
    ghost takes = { λ strategy _ call pick. TakesByLength (from_of strategy) call pick };

    // To choose takes no memory and asks nobody, so no call is refused before its body.
    ghost refuses = { λ _ _ _ _. ⊥ };

    ghost plans = { thread_number_of };

    ghost threads = { thread_number_of };

    ghost starts = { λ _. true };

    // It is asked about every call.
    ghost unasked = { λ _. false };

    // How long a call ran is of no use to this strategy.
    type Measure = Unmeasured;

    fn planning(&self) -> NonZeroUsize {
        self.threads
    }

    fn thread_number(&self) -> NonZeroUsize {
        self.threads
    }

    // A long list takes another pick than the first, so each call has to ask.
    fn is_serial(&self) -> bool {
        false
    }

    fn starts_workers(&self) -> bool {
        true
    }

    // It has no policy, so the strategy without one is a copy of it.
    fn inner(&self) -> Result<LongLists, Fault> {
        Ok(*self)
    }

    fn choose<Rt: Wait, P: Place>(
        &self,
        _rt: &Rt,
        _alloc: Global,
        _site: P,
        call: Call,
    ) -> Result<(Pick, Unmeasured), Fault> {
        // The one decision: the first pick is the serial one, and the last one splits most.
        let pick = if call.len < self.from {
            call.first()
        } else {
            call.last()
        };
        Ok((pick, Unmeasured))
    }
}

/// The squares of the numbers in their order, through a caller that was written for any strategy: a
/// map's results are no business of the strategy.
///
/// # Errors
///
/// `Fault::Memory` if an allocation fails.
pub fn squares_by_length<Rt: Threads + Wait + Sync, P: Place>(
    rt: &Rt,
    alloc: Global,
    strategy: &LongLists,
    site: P,
    numbers: &[u32],
) -> Result<Vec<u64>, Fault>
    ensures squares { IfOk result (λ answers. answers.items ≡ map (λ x. x * x) numbers.now) }
    ensures fault { IsMemoryOnErr result }
{
    let on = On {
        rt,
        alloc,
        strategy,
        site,
    };
    squares(&on, numbers)
}

/// A fold that goes in one segment where the list is short, and along the list's shape for the
/// thread number exactly where it is long. Both come from the trait's clause on folds and from what
/// `LongLists` says that it takes.
///
/// # Errors
///
/// `Fault::Memory` if an allocation fails.
pub fn fold_by_length<
    Rt: Threads + Wait + Sync,
    P: Place,
    M,
    I: Source<M>,
    R: Send + Drop,
    ID: Fn() -> R + Send + Sync + Drop,
    F: Fn(R, I::Item) -> R + Send + Sync + Drop,
    G: Fn(R, R) -> R + Send + Sync + Drop,
>(
    rt: &Rt,
    alloc: Global,
    strategy: &LongLists,
    site: P,
    source: I,
    identity: ID,
    fold_op: F,
    reduce_op: G,
) -> Result<R, Fault>
    requires can { I.can source }
    requires identity_accepts { ID.IsAlwaysCallable identity }
    requires fold_accepts { F.IsAlwaysCallable fold_op }
    requires reduce_accepts { G.IsAlwaysCallable reduce_op }
    ensures short { IfOk result (λ r. GivesSome I.gives source
        (λ xs. length xs < from_of strategy.now
        → FoldSegment (ID.post identity) (F.post fold_op) xs r)) }
    ensures long { IfOk result (λ r. GivesSome I.gives source
        (λ xs. from_of strategy.now ≤ length xs
        → Along (ID.post identity) (F.post fold_op) (G.post reduce_op)
        (shape_of strategy.now xs) r)) }
    ensures fault { IsMemoryOnErr result }
{
    strategy.fold(rt, alloc, site, source, identity, fold_op, reduce_op)
}
