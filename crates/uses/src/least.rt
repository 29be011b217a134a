//! The place of a table's least number, by closures that look into the table.
ghost use Rattle.std.specs.Prelude.{◌≡◌, ◌<◌, [], IfOk, MatchOption, length};
ghost use Rattle.std.specs.List.{slice_index};
ghost use Rattle.std.specs.Ordering.{nat_cmp};
ghost use Rattle.parallel_fault.specs.Trouble.{IsMemoryOnErr};
ghost use Rattle.uses.specs.LeastPlaces.{IsLeastPlace};

use commonware_parallel::{Fault, Indices, Place, Strategy};
use parallel_calls::On;
use std::cmp::Ordering;
use std::sync::Wait;
use std::thread::Threads;

/// The first place of the table's least number (`IsLeastPlace`), and none of an empty table. The
/// closure is asked for places that the table has, so it looks into the table with no test.
///
/// # Errors
///
/// `Fault::Memory` if an allocation fails.
pub fn least_of_table<Rt: Threads + Wait + Sync, S: Strategy, P: Place>(
    on: &On<'_, Rt, S, P>,
    table: &[u64],
) -> Result<Option<usize>, Fault>
    ensures least { IfOk result (λ found.
        MatchOption found (table.now ≡ []) (IsLeastPlace table.now)) }
    ensures fault { IsMemoryOnErr result }
{
    let compare = |left: &usize, right: &usize| -> Ordering
        requires left { left.now < length table.now }
        requires right { right.now < length table.now }
        ensures { result ≡ nat_cmp (slice_index table.entry.now left.now)
            (slice_index table.entry.now right.now) }
    { table[*left].cmp(&table[*right]) };
    let places = Indices {
        start: 0,
        end: table.len(),
    };
    on.min_by(places, compare)
}

/// The same place, by a key: the number that stands there. The closure is called twice at each
/// comparison, so it suits a key that is only read.
///
/// # Errors
///
/// `Fault::Memory` if an allocation fails.
pub fn least_by_key<Rt: Threads + Wait + Sync, S: Strategy, P: Place>(
    on: &On<'_, Rt, S, P>,
    table: &[u64],
) -> Result<Option<usize>, Fault>
    ensures least { IfOk result (λ found.
        MatchOption found (table.now ≡ []) (IsLeastPlace table.now)) }
    ensures fault { IsMemoryOnErr result }
{
    let key = |place: &usize| -> u64
        requires { place.now < length table.now }
        ensures { result ≡ slice_index table.entry.now place.now }
    { table[*place] };
    let places = Indices {
        start: 0,
        end: table.len(),
    };
    on.min_by_key(places, key)
}
