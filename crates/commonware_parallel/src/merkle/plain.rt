//! The root of a tree on the caller's thread, by plain loops.
ghost use Rattle.std.specs.Prelude.{◌≡◌, ◌<◌, IfOk, List};
ghost use Rattle.std.specs.Iterator.{Drains, HoldsAlong, IsFinite};
ghost use Rattle.std.specs.List.{All};
ghost use Rattle.parallel_bridge.specs.Lists.{MapOf};
ghost use Rattle.parallel_bridge.specs.Sources.{GivesSome};
ghost use Rattle.parallel_fault.specs.Trouble.{IsMemoryOnErr};
ghost use Rattle.commonware_parallel.specs.Merkle.{MerkleRoot, NextLevel, RootOf};

use parallel_fault::Fault;
use std::alloc::Global;

/// The root of the leaves (`MerkleRoot`) on the caller's thread, one level after another, each in a
/// list of its own. It is what `root` is compared with.
///
/// # Errors
///
/// `Fault::Memory` alone; the leaves are then gone.
pub fn plain_root<T: Drop, F: Fn(T, T) -> T>(
    alloc: Global,
    leaves: Vec<T>,
    combine: &F,
) -> Result<Option<T>, Fault>
    requires accepts { F.IsAlwaysCallable combine.now }
    ensures root { IfOk result (λ root. MerkleRoot (F.post combine.now)
        leaves.items root) }
    ensures fault { IsMemoryOnErr result }
{
    let same = |leaf: T| -> T
        ensures { result ≡ leaf }
    { leaf };
    let mut level = leaves;
    'levels: while level.len() > 1 {
        level = first_level(alloc, level.into_iter(), &same, combine)?;
    }
    Ok(level.pop())
}

/// The root of the leaves that `leaf` makes of the items (`RootOf`), as they come, on the caller's
/// thread.
///
/// # Errors
///
/// `Fault::Memory` alone; the items are then gone.
pub(crate) fn plain_root_of<I: Iterator, T: Drop, L: Fn(I::Item) -> T, F: Fn(T, T) -> T>(
    alloc: Global,
    items: I,
    leaf: &L,
    combine: &F,
) -> Result<Option<T>, Fault>
    requires can { I.can_next items }
    requires ends { IsFinite (I.remaining items) }
    requires leaf_accepts { HoldsAlong I.next_gives items (All (L.pre leaf.now)) }
    requires accepts { F.IsAlwaysCallable combine.now }
    ensures root { IfOk result (λ root. GivesSome (Drains I.next_gives) items
        (λ xs. RootOf (L.post leaf.now) (F.post combine.now) xs root)) }
    ensures fault { IsMemoryOnErr result }
{
    let level = first_level(alloc, items, leaf, combine)?;
    plain_root(alloc, level, combine)
}

// The level above the leaves that `leaf` makes of the items. Memory for it is taken before the
// first leaf is made, where the items know their number.
fn first_level<I: Iterator, T: Drop, L: Fn(I::Item) -> T, F: Fn(T, T) -> T>(
    alloc: Global,
    items: I,
    leaf: &L,
    combine: &F,
) -> Result<Vec<T>, Fault>
    requires can { I.can_next items }
    requires ends { IsFinite (I.remaining items) }
    requires leaf_accepts { HoldsAlong I.next_gives items (All (L.pre leaf.now)) }
    requires accepts { F.IsAlwaysCallable combine.now }
    ensures level { IfOk result (λ nodes. GivesSome (Drains I.next_gives) items
        (λ xs. (leaves : List T) × MapOf (L.post leaf.now) xs leaves
        × NextLevel (F.post combine.now) leaves nodes.items)) }
    ensures fault { IsMemoryOnErr result }
{
    let mut nodes = Vec::with_capacity(alloc, items.size_hint().0.div_ceil(2))?;
    let mut odd = None;
    for item in items {
        let node = leaf(item);
        odd = match odd {
            Some(left) => {
                nodes.push(combine(left, node))?;
                None
            }
            None => Some(node),
        };
    }
    if let Some(last) = odd {
        nodes.push(last)?;
    }
    Ok(nodes)
}
