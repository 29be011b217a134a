//! A map that another thread can stop: its closure looks at a flag before each item.
ghost use Rattle.std.specs.Prelude.{IfOk};
ghost use Rattle.parallel_bridge.specs.Lists.{MapOf};
ghost use Rattle.parallel_fault.specs.Trouble.{IsMemoryOnFault};

use commonware_parallel::{Copies, Place, Strategy, Trouble};
use std::alloc::Global;
use std::sync::Wait;
use std::sync::atomic::{AtomicBool, Ordering};
use std::thread::Threads;

/// The flag was raised before all items were done.
#[derive(Clone, Copy, Debug, PartialEq, Eq)]
pub struct Stopped;

/// What the closure returns for each item, in the items' order, unless the flag is raised
/// meanwhile. An item that was begun is finished, so a stop comes as soon as the closure has
/// returned on each thread.
///
/// # Errors
///
/// `Trouble::Closure(Stopped)` if the flag was seen before an item, and then the results are gone.
/// `Trouble::Fault` with `Fault::Memory` alone.
pub fn map_unless_stopped<
    Rt: Threads + Wait + Sync,
    P: Place,
    S: Strategy,
    T: Copy + Send + Sync + Drop,
    U: Send + Drop,
    F: Fn(T) -> U + Send + Sync + Drop,
>(
    rt: &Rt,
    alloc: Global,
    strategy: &S,
    site: P,
    items: &[T],
    stop: &AtomicBool,
    work: F,
) -> Result<Vec<U>, Trouble<Stopped>>
    requires { F.IsAlwaysCallable work }
    ensures answers { IfOk result (λ answers. MapOf (F.post work) items.now answers.items) }
    ensures fault { IsMemoryOnFault result }
{
    let unless_stopped = |item: T| -> Result<U, Stopped>
        requires { F.IsAlwaysCallable work }
        ensures { IfOk result (λ answer. F.post work item answer) }
    {
        if stop.load(Ordering::Relaxed) {
            Err(Stopped)
        } else {
            Ok(work(item))
        }
    };
    strategy.try_map_collect_vec(rt, alloc, site, Copies { slice: items }, unless_stopped)
}
