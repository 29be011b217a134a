//! The values and the keys of a partition.
ghost use Rattle.std.specs.Prelude.{◌≡◌, ◌++◌, ◌∷◌, [], IfOk, List, Option, Result, false};
ghost use Rattle.parallel_fault.specs.Trouble.{IsMemoryOnErr};
ghost use Rattle.parallel_bridge.specs.Onto.{PartitionOnto};
ghost use Rattle.parallel_bridge.specs.Parts.{PartitionOf, keys_in, values_in};
ghost use Rattle.parallel_bridge.specs.Tries.{OnlyOk};

use crate::plumbing::{Consumer, Folder, Reducer};
use crate::room::with_places;
use parallel_fault::{Fault, Trouble};
use std::alloc::Global;
use std::convert::Infallible;
use std::mem::replace;

// How many places each of a segment's lists has at most.
const PLACES: usize = 4_096;

/// Maps each item by a closure, and gives a list of the values and one of the keys of the items
/// without one for each segment, both in the items' order.
#[derive(Drop)]
pub struct PartitionConsumer<'f, F> {
    /// The closure that maps an item.
    pub map_op: &'f F,
    /// How many items are expected.
    pub items: usize,
}

/// The values and the keys of a segment so far, in order. A list that is full stays where it lies,
/// and the next one is as long, so that for what is still to come little more is asked for than it
/// takes.
#[derive(Drop)]
pub struct PartitionFolder<'f, U, K, F> {
    /// The lists that are full.
    pub filled: Vec<(Vec<U>, Vec<K>)>,
    /// The values after those.
    pub values: Vec<U>,
    /// The keys, of the items without a value, after those.
    pub keys: Vec<K>,
    /// The closure that maps an item.
    pub map_op: &'f F,
}

/// Puts the lists of two parts one after another, the left ones first. Values and keys stay where
/// they lie.
#[derive(Drop)]
pub struct PartitionReducer;

impl<U: Drop, K: Drop> Reducer<Vec<(Vec<U>, Vec<K>)>, Infallible> for PartitionReducer {
    ghost can_reduce = { λ _ _ _. Unit {0} };

    ghost reduce_gives = { λ _ left right out. OnlyOk
        (λ all. (values_in all.items ≡ values_in left.items ++ values_in right.items)
        × (keys_in all.items ≡ keys_in left.items ++ keys_in right.items)) out };

    fn reduce(
        self,
        mut left: Vec<(Vec<U>, Vec<K>)>,
        mut right: Vec<(Vec<U>, Vec<K>)>,
    ) -> Result<Vec<(Vec<U>, Vec<K>)>, Trouble<Infallible>> {
        left.append(&mut right)?;
        Ok(left)
    }
}

impl<'f, X: Drop, U: Drop, K: Drop, F: Fn(X) -> (K, Option<U>)> Folder<
    X,
    Vec<(Vec<U>, Vec<K>)>,
    Infallible,
> for PartitionFolder<'f, U, K, F> {
    ghost ready = { λ _. Unit {0} };

    ghost takes = { λ s x. F.pre s.map_op.now x };

    ghost gives = { λ s xs out. OnlyOk
        (λ r. PartitionOnto (F.post s.map_op.now) (values_in s.filled.items ++ s.values.items)
        (keys_in s.filled.items ++ s.keys.items) xs (values_in r.items) (keys_in r.items)) out };

    ghost may_fill = { false };

    // (as a call of its own it would move the folder through memory for each item)
    #[inline(always)]
    fn consume(self, alloc: Global, item: X) -> Result<Self, Fault> {
        let PartitionFolder {
            filled,
            values,
            keys,
            map_op,
        } = self;
        let (key, value) = map_op(item);
        match value {
            Some(value) => {
                let (filled, values) = put_value(alloc, filled, values, value)?;
                Ok(PartitionFolder {
                    filled,
                    values,
                    keys,
                    map_op,
                })
            }
            None => {
                let (filled, keys) = put_key(alloc, filled, keys, key)?;
                Ok(PartitionFolder {
                    filled,
                    values,
                    keys,
                    map_op,
                })
            }
        }
    }

    fn complete(self, _alloc: Global) -> Result<Vec<(Vec<U>, Vec<K>)>, Trouble<Infallible>> {
        let mut lists = self.filled;
        lists.push((self.values, self.keys))?;
        Ok(lists)
    }

    fn full(&self) -> bool {
        false
    }
}

impl<'f, X: Drop, U: Send + Drop, K: Send + Drop, F: Fn(X) -> (K, Option<U>) + Sync> Consumer<X>
    for PartitionConsumer<'f, F> {
    type Result = Vec<(Vec<U>, Vec<K>)>;

    type Error = Infallible;

    type Folder = PartitionFolder<'f, U, K, F>;

    type Reducer = PartitionReducer;

    ghost ready = { λ _. Unit {0} };

    ghost takes = { λ s x. F.pre s.map_op.now x };

    ghost leaf_gives = { λ s xs out. OnlyOk
        (λ r. PartitionOf (F.post s.map_op.now) xs (values_in r.items) (keys_in r.items)) out };

    ghost node_gives = { λ _ left right out. OnlyOk
        (λ all. (values_in all.items ≡ values_in left.items ++ values_in right.items)
        × (keys_in all.items ≡ keys_in left.items ++ keys_in right.items)) out };

    fn split_at(self, index: usize) -> Result<(Self, Self, PartitionReducer), Fault> {
        let left = PartitionConsumer {
            map_op: self.map_op,
            items: index,
        };
        let right = PartitionConsumer {
            map_op: self.map_op,
            items: self.items.saturating_sub(index),
        };
        Ok((left, right, PartitionReducer))
    }

    fn into_folder(self, alloc: Global) -> Result<PartitionFolder<'f, U, K, F>, Fault> {
        let places = self.items.min(PLACES);
        Ok(PartitionFolder {
            filled: Vec::new(alloc),
            values: with_places(alloc, places),
            keys: with_places(alloc, places),
            map_op: self.map_op,
        })
    }
}

/// The full lists and the values after them, with one value more. A list that has room is lent to
/// nothing that is called, so that a loop has it in registers. One that is full is lent, and not
/// handed back with a result, whose place would be cleared for each item.
///
/// # Errors
///
/// `Fault::Memory` if an allocation fails.
#[inline(always)]
fn put_value<U: Drop, K: Drop>(
    alloc: Global,
    filled: Vec<(Vec<U>, Vec<K>)>,
    mut values: Vec<U>,
    value: U,
) -> Result<(Vec<(Vec<U>, Vec<K>)>, Vec<U>), Fault>
    ensures values { IfOk result (λ r. values_in r.0.items ++ r.1.items
        ≡ (values_in filled.items ++ values.items) ++ value ∷ []) }
    ensures keys { IfOk result (λ r. keys_in r.0.items ≡ keys_in filled.items) }
    ensures fault { IsMemoryOnErr result }
{
    if values.len() == values.capacity() {
        let mut lists = (filled, values);
        begin_values(alloc, &mut lists)?;
        let (filled, mut next) = lists;
        next.push(value)?;
        return Ok((filled, next));
    }
    values.push(value)?;
    Ok((filled, values))
}

/// Puts the values to the full lists, and begins a list as long.
///
/// # Errors
///
/// `Fault::Memory` if an allocation fails.
#[cold]
#[inline(never)]
fn begin_values<U: Drop, K: Drop>(
    alloc: Global,
    lists: &mut (Vec<(Vec<U>, Vec<K>)>, Vec<U>),
) -> Result<(), Fault>
    ensures values { IfOk result (λ _. values_in lists.new.0.items
        ≡ values_in lists.old.0.items ++ lists.old.1.items) }
    ensures keys { IfOk result (λ _. keys_in lists.new.0.items ≡ keys_in lists.old.0.items) }
    ensures next { IfOk result (λ _. lists.new.1.items ≡ []) }
    ensures fault { IsMemoryOnErr result }
{
    let values = replace(&mut lists.1, with_places(alloc, PLACES));
    lists.0.push((values, Vec::new(alloc)))?;
    Ok(())
}

/// The full lists and the keys after them, with one key more, as `put_value` does it.
///
/// # Errors
///
/// `Fault::Memory` if an allocation fails.
#[inline(always)]
fn put_key<U: Drop, K: Drop>(
    alloc: Global,
    filled: Vec<(Vec<U>, Vec<K>)>,
    mut keys: Vec<K>,
    key: K,
) -> Result<(Vec<(Vec<U>, Vec<K>)>, Vec<K>), Fault>
    ensures values { IfOk result (λ r. values_in r.0.items ≡ values_in filled.items) }
    ensures keys { IfOk result (λ r. keys_in r.0.items ++ r.1.items
        ≡ (keys_in filled.items ++ keys.items) ++ key ∷ []) }
    ensures fault { IsMemoryOnErr result }
{
    if keys.len() == keys.capacity() {
        let mut lists = (filled, keys);
        begin_keys(alloc, &mut lists)?;
        let (filled, mut next) = lists;
        next.push(key)?;
        return Ok((filled, next));
    }
    keys.push(key)?;
    Ok((filled, keys))
}

/// The same of the keys.
///
/// # Errors
///
/// `Fault::Memory` if an allocation fails.
#[cold]
#[inline(never)]
fn begin_keys<U: Drop, K: Drop>(
    alloc: Global,
    lists: &mut (Vec<(Vec<U>, Vec<K>)>, Vec<K>),
) -> Result<(), Fault>
    ensures values { IfOk result (λ _. values_in lists.new.0.items ≡ values_in lists.old.0.items) }
    ensures keys { IfOk result (λ _. keys_in lists.new.0.items
        ≡ keys_in lists.old.0.items ++ lists.old.1.items) }
    ensures next { IfOk result (λ _. lists.new.1.items ≡ []) }
    ensures fault { IsMemoryOnErr result }
{
    let keys = replace(&mut lists.1, with_places(alloc, PLACES));
    lists.0.push((Vec::new(alloc), keys))?;
    Ok(())
}
