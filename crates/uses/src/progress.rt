//! A map that another thread watches, and tells how far it has come.
ghost use Rattle.std.specs.Prelude.{IfOk};
ghost use Rattle.parallel_bridge.specs.Lists.{MapOf};
ghost use Rattle.parallel_fault.specs.Trouble.{IsMemoryOnErr};

use commonware_parallel::{Copies, Fault, Place, Strategy};
use std::alloc::Global;
use std::sync::Wait;
use std::sync::atomic::{AtomicU64, AtomicUsize, Ordering};
use std::thread;
use std::thread::Threads;
use std::time::Duration;

/// What the closure returns for each item, in the items' order. Meanwhile a thread calls `tell`
/// with how many items are done, each time that the pause is over and there are more, and once more
/// at the end. Where the system starts no thread for it, it is called at the end alone.
///
/// # Errors
///
/// `Fault::Memory` alone.
pub fn map_and_tell<
    Rt: Threads + Wait + Sync,
    P: Place,
    S: Strategy,
    T: Copy + Send + Sync + Drop,
    U: Send + Drop,
    F: Fn(T) -> U + Send + Sync + Drop,
    G: Fn(usize) + Sync,
>(
    rt: &Rt,
    alloc: Global,
    strategy: &S,
    site: P,
    items: &[T],
    work: F,
    pause: Duration,
    tell: G,
) -> Result<Vec<U>, Fault>
    requires works { F.IsAlwaysCallable work }
    requires tells { G.IsAlwaysCallable tell }
    ensures answers { IfOk result (λ answers. MapOf (F.post work) items.now answers.items) }
    ensures fault { IsMemoryOnErr result }
{
    let done = AtomicUsize::new(0);
    let ended = AtomicU64::new(0);
    let watch = || tell_until_ended(rt, &done, &ended, pause, &tell);
    let map = || -> Result<Vec<U>, Fault>
        requires { F.IsAlwaysCallable work }
    {
        let answers = map_counted(rt, alloc, strategy, site, items, &work, &done);
        ended.store(1, Ordering::SeqCst);
        ended.wake_all();
        answers
    };
    thread::join(rt, watch, map).1
}

// The map, in which each item is counted as it is done.
fn map_counted<
    Rt: Threads + Wait + Sync,
    P: Place,
    S: Strategy,
    T: Copy + Send + Sync + Drop,
    U: Send + Drop,
    F: Fn(T) -> U + Send + Sync + Drop,
>(
    rt: &Rt,
    alloc: Global,
    strategy: &S,
    site: P,
    items: &[T],
    work: &F,
    done: &AtomicUsize,
) -> Result<Vec<U>, Fault>
    requires { F.IsAlwaysCallable work.now }
    ensures answers { IfOk result (λ answers. MapOf (F.post work.now) items.now answers.items) }
    ensures fault { IsMemoryOnErr result }
{
    let counted = |item: T| -> U
        requires { F.IsAlwaysCallable work.now }
        ensures { F.post work.entry.now item result }
    {
        let answer = work(item);
        done.fetch_add(1, Ordering::Relaxed);
        answer
    };
    strategy.map_collect_vec(rt, alloc, site, Copies { slice: items }, counted)
}

// Tells the count where it has grown, with pauses, until the end, which ends a pause.
fn tell_until_ended<Rt: Wait, G: Fn(usize)>(
    rt: &Rt,
    done: &AtomicUsize,
    ended: &AtomicU64,
    pause: Duration,
    tell: &G,
)
    requires { G.IsAlwaysCallable tell.now }
{
    let mut told = 0;
    for _ in rt.forever() {
        let is_last = ended.load(Ordering::SeqCst) != 0;
        let count = done.load(Ordering::SeqCst);
        if count != told {
            tell(count);
            told = count;
        }
        if is_last {
            return;
        }
        ended.park_timeout(rt, 0, pause);
    }
}
