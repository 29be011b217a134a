//! The fold of a command line's items.
ghost use Rattle.std.specs.Prelude.{◌≡◌, ◌+◌, ◌≤◌, IfOk, IfErr, sum_by};
ghost use Rattle.parallel_bridge.specs.Shapes.{Shape, cutdepth};
ghost use Rattle.shapes_command.specs.Answer.{SumsAlong, over_two};
ghost use Rattle.shapes_command.specs.Request.{AreItems, number_of};

use crate::number::number;
use crate::request::MOST_NUMBER;
use commonware_parallel::mocks::{Explorer, pooled};
use commonware_parallel::{Sequential, Strategy};
use parallel_fault::Fault;
use parallel_policy::{Clock, Site};
use std::alloc::Global;
use std::num::NonZeroUsize;
use std::sync::Wait;
use std::thread::Threads;

// The call site of the fold, by which a strategy tells calls apart.
const SITE: Site = Site {
    file: "shapes_command/src/sum.rt",
    line: 37,
    column: 5,
};

/// The sum of the numbers that the words write, from the identity on, through `Sequential`.
///
/// # Errors
///
/// `Fault::Memory` where the words could not be gathered.
pub fn serial_sum<R: Threads + Wait + Sync>(
    rt: &R,
    alloc: Global,
    identity: usize,
    items: &[String],
) -> Result<usize, Fault>
    requires identity { identity ≤ 1000000 }
    requires items { AreItems items.now }
    ensures sum { IfOk result (λ sum. sum ≡ identity + sum_by number_of items.now) }
    ensures fault { IfErr result (λ refusal. refusal ≡ Fault.Memory) }
{
    Strategy::fold(
        &Sequential,
        rt,
        alloc,
        SITE,
        items.iter(),
        move || identity,
        |sum: usize, item: &String| sum.wrapping_add(number(item, MOST_NUMBER).unwrap_or(0)),
        |left: usize, right: usize| left.wrapping_add(right),
    )
}

/// The sum of the numbers that the words write through a parallel explorer over two threads: each
/// segment of the list begins from the identity anew.
///
/// # Errors
///
/// `Fault::Memory` where the pool or the list of words was refused memory.
pub fn parallel_sum<R: Threads + Wait + Sync>(
    rt: &R,
    alloc: Global,
    identity: usize,
    items: &[String],
) -> Result<usize, Fault>
    requires identity { identity ≤ 1000000 }
    requires items { AreItems items.now }
    ensures sum { IfOk result (SumsAlong identity (Shape (cutdepth 2) items.now)) }
    ensures fault { IfErr result (λ refusal. refusal ≡ Fault.Memory) }
{
    let explorer = parallel_explorer(rt, alloc)?;
    sum_along(&explorer, rt, alloc, identity, items)
}

// A clock that stands still: an explorer measures nothing.
#[derive(Clone, Copy, Debug)]
struct Still;

impl Clock for Still {
    fn now(&self) -> u64 {
        0
    }
}

// The parallel explorer over two threads, planned for three.
fn parallel_explorer<R: Threads>(rt: &R, alloc: Global) -> Result<Explorer, Fault>
    ensures over_two { IfOk result (λ explorer. explorer ≡ over_two) }
    ensures fault { IfErr result (λ refusal. refusal ≡ Fault.Memory) }
{
    let two = NonZeroUsize::MIN.saturating_add(1);
    let three = NonZeroUsize::MIN.saturating_add(2);
    let Ok(strategy) = pooled(rt, alloc, two, three, Still) else {
        return Err(Fault::Memory);
    };
    Explorer::parallel(&strategy)
}

// The sum along the list's shape.
fn sum_along<R: Threads + Wait + Sync>(
    explorer: &Explorer,
    rt: &R,
    alloc: Global,
    identity: usize,
    items: &[String],
) -> Result<usize, Fault>
    requires over_two { explorer.now ≡ over_two }
    requires identity { identity ≤ 1000000 }
    requires items { AreItems items.now }
    ensures sum { IfOk result (SumsAlong identity (Shape (cutdepth 2) items.now)) }
    ensures fault { IfErr result (λ refusal. refusal ≡ Fault.Memory) }
{
    explorer.fold(
        rt,
        alloc,
        SITE,
        items.iter(),
        move || identity,
        |total: usize, word: &String| total.wrapping_add(number(word, MOST_NUMBER).unwrap_or(0)),
        |first: usize, second: usize| first.wrapping_add(second),
    )
}
