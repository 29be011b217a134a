//! The loop that hands a segment's items to a folder.
ghost use Rattle.std.specs.Prelude.{◌≡◌, [], IfOk, List, Result};
ghost use Rattle.parallel_bridge.specs.Endings.{Goes, IsUnderway, LooksAlong, ending_of};
ghost use Rattle.parallel_bridge.specs.Halting.{halting};
ghost use Rattle.parallel_bridge.specs.Outcomes.{UnlessRefused};
ghost use Rattle.parallel_bridge.specs.Sources.{GivesSome};
ghost use Rattle.parallel_bridge.specs.Watched.{granted, items_of, watch_of};

use crate::cursor::Cursor;
use crate::halt::Halt;
use crate::plumbing::Folder;
use crate::watch::Watch;
use crate::watched::{Leave, Watched};
use parallel_fault::Trouble;
use std::alloc::Global;

/// Hands items to a folder, in order, up to the one after which the others make no difference, or
/// to the look that stops them. It has leave for the first item; it looks after each item, and
/// tells the watch of an error before it drops the items that are left.
pub fn feed_items<X: Drop, L, C: Cursor<X, L>, R: Drop, E: Drop, F: Folder<X, R, E>, G: Watch>(
    alloc: Global,
    leave: Leave<C, G>,
    folder: F,
) -> (Result<R, Trouble<Halt<E>>>, L, G)
    requires items { C.ready (items_of (granted leave)) }
    requires ready { F.ready folder }
    requires takes { (x : X) → C.may (items_of (granted leave)) x → F.takes folder x }
    requires watch { IsUnderway G.ends (watch_of (granted leave)) }
    ensures gives { UnlessRefused result.0
        (λ out. GivesSome C.gives (items_of (granted leave))
        (λ xs. halting (F.gives folder) xs out)) }
    ensures leaves { C.leaves (items_of (granted leave)) result.1 }
    ensures goes { Goes G.ends (watch_of (granted leave)) result.2 (ending_of result.0) }
    ensures looks { IfOk result.0 (λ r. LooksAlong G.looked (watch_of (granted leave)) result.2
        C.gives (items_of (granted leave)) (λ xs. F.gives folder xs (Ok r))) }
{
    let mut leave = leave;
    let mut folder = folder;
    'feeding: loop {
        let coming = match leave.next() {
            Ok(coming) => coming,
            Err(held) => {
                let (done, held) = complete(alloc, folder, held);
                let (rest, watch) = held.end();
                return (done, rest, watch);
            }
        };
        let (taken, others) = coming.consume(alloc, folder);
        folder = match taken {
            Ok(folder) => folder,
            Err(fault) => {
                let (rest, watch) = others.rest();
                return (Err(Trouble::Fault(fault)), rest, watch);
            }
        };
        if folder.full() {
            let (done, held) = complete(alloc, folder, others);
            let (rest, watch) = held.rest();
            return (done, rest, watch);
        }
        leave = match others.look() {
            Ok(leave) => leave,
            Err(held) => {
                let (rest, watch) = held.rest();
                return (Err(Trouble::Closure(Halt::Stopped)), rest, watch);
            }
        };
    }
}

// What a folder comes to. Its error is told to the watch of the items that are left.
fn complete<X: Drop, R: Drop, E: Drop, F: Folder<X, R, E>, C: Drop, G: Watch>(
    alloc: Global,
    folder: F,
    items: Watched<C, G>,
) -> (Result<R, Trouble<Halt<E>>>, Watched<C, G>)
    requires ready { F.ready folder }
    requires watch { IsUnderway G.ends (watch_of items) }
    ensures gives { UnlessRefused result.0 (λ out. halting (F.gives folder) [] out) }
    ensures items { items_of result.1 ≡ items_of items }
    ensures goes { Goes G.ends (watch_of items) (watch_of result.1) (ending_of result.0) }
    ensures same { IfOk result.0 (λ _. watch_of result.1 ≡ watch_of items) }
{
    let mut items = items;
    match folder.complete(alloc) {
        Ok(value) => (Ok(value), items),
        Err(Trouble::Closure(error)) => {
            items.failed();
            (Err(Trouble::Closure(Halt::Failed(error))), items)
        }
        Err(Trouble::Fault(fault)) => (Err(Trouble::Fault(fault)), items),
    }
}
