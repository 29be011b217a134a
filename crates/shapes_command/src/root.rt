//! The root of a tree over a command line's items, by each rule of a search.
ghost use Rattle.std.specs.Prelude.{◌≡◌, IfOk, IfErr};
ghost use Rattle.shapes_command.specs.Answer.{IsRootOf, combined};
ghost use Rattle.shapes_command.specs.Request.{AreItems, IsItem, number_of};

use crate::number::number;
use crate::request::MOST_NUMBER;
use commonware_parallel::merkle;
use commonware_parallel::mocks::{Explorer, explore};
use parallel_fault::Fault;
use parallel_policy::Site;
use std::alloc::Global;
use std::sync::Wait;
use std::thread::Threads;

// The call site of the levels' maps, by which a strategy tells calls apart.
const SITE: Site = Site {
    file: "shapes_command/src/root.rt",
    line: 17,
    column: 1,
};

// What the nodes of a tree are taken modulo.
const MODULUS: usize = 1_000_003;

/// The root of the tree over the numbers that the words write, which comes by every rule.
///
/// # Errors
///
/// `Fault::Memory` where the pool, or a run of the search, was refused memory.
pub fn explored_root<R: Threads + Wait + Sync>(
    rt: &R,
    alloc: Global,
    items: &[String],
) -> Result<Option<usize>, Fault>
    requires items { AreItems items.now }
    ensures root { IfOk result (IsRootOf items.now) }
    ensures fault { IfErr result (λ refusal. refusal ≡ Fault.Memory) }
{
    let run = |explorer: &Explorer| -> Result<Option<usize>, Fault>
        requires { AreItems items.now }
        ensures { IfOk result (IsRootOf items.entry.now) }
    { root_through(rt, alloc, explorer, items) };
    known_root(rt, alloc, items, run)
}

// What a search finds where the root of each first run is that of the items.
fn known_root<R: Threads, F: FnMut(&Explorer) -> Result<Option<usize>, Fault>>(
    rt: &R,
    alloc: Global,
    items: &[String],
    run: F,
) -> Result<Option<usize>, Fault>
    requires callable { F.IsAlwaysCallable run }
    requires roots { (g : F) (explorer : _) (out : _) → F.step run explorer out g
        → IfOk out (IsRootOf items.now) }
    ensures root { IfOk result (IsRootOf items.now) }
    ensures fault { IfErr result (λ refusal. refusal ≡ Fault.Memory) }
{
    let _ = items;
    match explore(rt, alloc, run) {
        Ok(Ok(root)) => Ok(root),
        Ok(Err(_)) | Err(_) => Err(Fault::Memory),
    }
}

// The root through an explorer.
fn root_through<R: Threads + Wait + Sync>(
    rt: &R,
    alloc: Global,
    explorer: &Explorer,
    items: &[String],
) -> Result<Option<usize>, Fault>
    requires items { AreItems items.now }
    ensures { IfOk result (IsRootOf items.now) }
{
    let leaf = |item: &String| -> usize
        ensures { IsItem item.now → result ≡ number_of item.now }
    { number(item, MOST_NUMBER).unwrap_or(0) };
    let node = |left: usize, right: usize| -> usize
        ensures { result ≡ combined left right }
    { combined(left, right) };
    merkle::root_of_leaves_by_levels(rt, alloc, explorer, SITE, items, leaf, node)
}

// The node above two neighbours.
fn combined(left: usize, right: usize) -> usize
    ensures { result ≡ combined left right }
{
    (2 * (left % MODULUS) + 3 * (right % MODULUS)) % MODULUS
}
