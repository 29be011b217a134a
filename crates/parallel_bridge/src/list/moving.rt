//! Lists of segments that are moved into two lists of exact length, side by side.
ghost use Rattle.std.specs.Prelude.{◌≡◌, ◌+◌, ◌≤◌, ◌++◌, IfOk, IfSome, length};
ghost use Rattle.parallel_fault.specs.Trouble.{IsMemoryOnErr};
ghost use Rattle.parallel_bridge.specs.Moves.{IsRoomFor, Joinable, holding, side_by_side};
ghost use Rattle.parallel_bridge.specs.Parts.{keys_in, values_in};
ghost use Rattle.parallel_bridge.specs.Windows.{part};

use crate::drive::{Task, drive};
use crate::window::block::Block;
use crate::window::home::Home;
use crate::window::part::Window;
use parallel_fault::Fault;
use std::alloc::Global;
use std::num::NonZeroUsize;
use std::thread::Threads;

// The segments' lists of so many items are shared by all threads; those of fewer the caller moves
// alone, in less time than it takes to start the others once more.
const LONG: usize = 131_072;

/// The values and the keys of the segments of so many items, one after another, in two lists with
/// as many slots. Each thread moves the items of its segments to where they belong.
///
/// # Errors
///
/// `Fault::Memory` if an allocation fails.
pub(crate) fn put_in_lists<Rt: Threads + Sync, U: Send + Drop, K: Send + Drop>(
    rt: &Rt,
    alloc: Global,
    threads: NonZeroUsize,
    items: usize,
    lists: Vec<(Vec<U>, Vec<K>)>,
) -> Result<(Vec<U>, Vec<K>), Fault>
    ensures values { IfOk result (λ r. r.0.items ≡ values_in lists.items) }
    ensures keys { IfOk result (λ r. r.1.items ≡ keys_in lists.items) }
    ensures fault { IsMemoryOnErr result }
{
    let Some((value_count, key_count)) = numbers_in(lists.as_slice()) else {
        return Err(Fault::Memory);
    };
    let (values, value_home) = Home::reserve_exact(alloc, value_count)?;
    let (keys, key_home) = match Home::reserve_exact(alloc, key_count) {
        Ok(reserved) => reserved,
        Err(_) => {
            value_home.free(values);
            return Err(Fault::Memory);
        }
    };
    let moving = Moving {
        lists,
        values,
        keys,
    };
    let (values, keys) = drive(rt, alloc, sharing(threads, items), moving);
    Ok((values.into_vec(value_home), keys.into_vec(key_home)))
}

// How many threads share the segments' lists.
fn sharing(threads: NonZeroUsize, items: usize) -> NonZeroUsize {
    if items < LONG {
        NonZeroUsize::MIN
    } else {
        threads
    }
}

// Lists of segments, with the room for all their values and that for their keys.
#[derive(Drop)]
struct Moving<U: Drop, K: Drop> {
    lists: Vec<(Vec<U>, Vec<K>)>,
    values: Window<U>,
    keys: Window<K>,
}

impl<U: Send + Drop, K: Send + Drop> Task for Moving<U, K> {
    type Done = (Window<U>, Window<K>);

    type Seam = ();

    ghost ready = { λ s. IsRoomFor U.row s.values (values_in s.lists.items)
        × IsRoomFor K.row s.keys (keys_in s.lists.items) };

    ghost long = { λ s. Unit {0} };

    ghost short = { λ depth s. Unit {0} };

    ghost ends = { λ depth s d. (d.0 ≡ holding s.values (values_in s.lists.items))
        × (d.1 ≡ holding s.keys (keys_in s.lists.items)) };

    ghost meet = { λ seam a b. Joinable U.row a.0 b.0 × Joinable K.row a.1 b.1 };

    ghost together = { λ seam a b c. (c.0 ≡ side_by_side a.0 b.0)
        × (c.1 ≡ side_by_side a.1 b.1) };

    fn is_leaf(&self, depth: usize) -> bool {
        depth == 0 || self.lists.len() < 2
    }

    // (where it can't be split, the caller moves all of it)
    fn split(self, _alloc: Global) -> Result<(Self, Self, ()), Self::Done> {
        let Moving {
            mut lists,
            values,
            keys,
        } = self;
        let half = lists.len() / 2;
        let Some((value_count, key_count)) = numbers_in(&lists.as_slice()[..half]) else {
            return Err(moved(lists, values, keys));
        };
        let others = match lists.split_off(half) {
            Ok(others) => others,
            Err(_) => return Err(moved(lists, values, keys)),
        };
        let (first_values, other_values) = values.split(value_count);
        let (first_keys, other_keys) = keys.split(key_count);
        let first = Moving {
            lists,
            values: first_values,
            keys: first_keys,
        };
        let second = Moving {
            lists: others,
            values: other_values,
            keys: other_keys,
        };
        Ok((first, second, ()))
    }

    fn run(self, _alloc: Global) -> Self::Done {
        moved(self.lists, self.values, self.keys)
    }

    fn join(_seam: (), left: Self::Done, right: Self::Done) -> Self::Done {
        (left.0.join(right.0), left.1.join(right.1))
    }
}

// How many values and how many keys there are, unless that is no number.
fn numbers_in<U, K>(lists: &[(Vec<U>, Vec<K>)]) -> Option<(usize, usize)>
    ensures values { IfSome result (λ r. r.0 ≡ length (values_in lists.now)) }
    ensures keys { IfSome result (λ r. r.1 ≡ length (keys_in lists.now)) }
{
    let mut values = 0usize;
    let mut keys = 0usize;
    for pair in lists {
        values = values.checked_add(pair.0.len())?;
        keys = keys.checked_add(pair.1.len())?;
    }
    Some((values, keys))
}

// The rooms with the items of the lists.
fn moved<U: Drop, K: Drop>(
    lists: Vec<(Vec<U>, Vec<K>)>,
    values: Window<U>,
    keys: Window<K>,
) -> (Window<U>, Window<K>)
    requires values { IsRoomFor U.row values (values_in lists.items) }
    requires keys { IsRoomFor K.row keys (keys_in lists.items) }
    ensures values { result.0 ≡ holding values (values_in lists.items) }
    ensures keys { result.1 ≡ holding keys (keys_in lists.items) }
{
    let mut pairs = Block::from_vec(lists);
    let mut values = values;
    let mut keys = keys;
    while pairs.len() > 0 {
        let (more_values, more_keys) = pairs.take();
        values = put_all(values, more_values);
        keys = put_all(keys, more_keys);
    }
    (values, keys)
}

// The window with the list's items after its own.
fn put_all<T: Drop>(room: Window<T>, items: Vec<T>) -> Window<T>
    requires { room.before + (length room.items + length items.items) ≤ room.room }
    ensures { result ≡ part room.start room.room room.before (room.items ++ items.items) }
{
    let mut room = room;
    let mut items = Block::from_vec(items);
    while items.len() > 0 {
        room.put(items.take());
    }
    room
}
