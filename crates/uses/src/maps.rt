//! Further maps: over borrowed items, over indices, by a closure that looks into a table or asks
//! something of its item, and over an iterator.
ghost use Rattle.std.specs.Prelude.{◌≡◌, ◌*◌, ◌-◌, ◌%◌, ◌^◌, ◌<◌, ◌++◌, map, length, All, IfOk};
ghost use Rattle.std.specs.List.{range_with_len, slice_index};
ghost use Rattle.parallel_fault.specs.Trouble.{IsMemoryOnErr};

use commonware_parallel::{Copies, Fault, Indices, Place, Strategy};
use std::alloc::Global;
use std::sync::Wait;
use std::thread::Threads;

/// The squares of the numbers, which the closure borrows.
///
/// # Errors
///
/// `Fault::Memory` if an allocation fails.
pub fn borrowed_squares<Rt: Threads + Wait + Sync, P: Place, S: Strategy>(
    rt: &Rt,
    alloc: Global,
    strategy: &S,
    site: P,
    numbers: &[u32],
) -> Result<Vec<u64>, Fault>
    ensures squares { IfOk result (λ answers. answers.items ≡ map (λ x. x * x) numbers.now) }
    ensures fault { IsMemoryOnErr result }
{
    strategy.map_collect_vec(rt, alloc, site, numbers, |number: &u32| {
        u64::from(*number) * u64::from(*number)
    })
}

/// The squares of the numbers below `count`, from 0 up, each of which wraps around at 2 to the
/// power of 64.
///
/// # Errors
///
/// `Fault::Memory` if an allocation fails.
pub fn first_squares<Rt: Threads + Wait + Sync, P: Place, S: Strategy>(
    rt: &Rt,
    alloc: Global,
    strategy: &S,
    site: P,
    count: usize,
) -> Result<Vec<usize>, Fault>
    ensures squares { IfOk result (λ answers.
        answers.items ≡ map (λ x. (x * x) % 2 ^ 64) (range_with_len 0 (count - 0))) }
    ensures fault { IsMemoryOnErr result }
{
    let indices = Indices {
        start: 0,
        end: count,
    };
    strategy.map_collect_vec(rt, alloc, site, indices, |index: usize| {
        index.wrapping_mul(index)
    })
}

/// The entries of a table at its first `count` indices, from the table's last entry back. The
/// closure looks into the table at what its item says, which is in range for each index that may
/// come.
///
/// # Errors
///
/// `Fault::Memory` if an allocation fails.
pub fn last_entries<Rt: Threads + Wait + Sync, P: Place, S: Strategy>(
    rt: &Rt,
    alloc: Global,
    strategy: &S,
    site: P,
    table: &[u64],
    count: usize,
) -> Result<Vec<u64>, Fault>
    requires short { count < length table.now }
    ensures entries { IfOk result (λ answers. answers.items
        ≡ map (λ i. slice_index table.now (length table.now - 1 - i))
        (range_with_len 0 (count - 0))) }
    ensures fault { IsMemoryOnErr result }
{
    let indices = Indices {
        start: 0,
        end: count,
    };
    let entry = |index: usize| -> u64
        requires { index < length table.now }
        ensures { result ≡ slice_index table.entry.now (length table.entry.now - 1 - index) }
    { table[table.len() - 1 - index] };
    strategy.map_collect_vec(rt, alloc, site, indices, entry)
}

/// The squares of two lists' numbers, of the front's first, over an iterator. An iterator's items
/// are gathered where the strategy is asked by their number.
///
/// # Errors
///
/// `Fault::Memory` if an allocation fails.
pub fn squares_of_both<Rt: Threads + Wait + Sync, P: Place, S: Strategy>(
    rt: &Rt,
    alloc: Global,
    strategy: &S,
    site: P,
    front: &[u32],
    back: &[u32],
) -> Result<Vec<u64>, Fault>
    ensures squares { IfOk result (λ answers.
        answers.items ≡ map (λ x. x * x) (front.now ++ back.now)) }
    ensures fault { IsMemoryOnErr result }
{
    let numbers = front.iter().copied().chain(back.iter().copied());
    strategy.map_collect_vec(rt, alloc, site, numbers, |number| {
        u64::from(number) * u64::from(number)
    })
}

/// The doubles of numbers below 2 to the power of 31, in the numbers' order. The closure accepts no
/// greater number, and a map asks it for the list's own items alone.
///
/// # Errors
///
/// `Fault::Memory` if an allocation fails.
pub fn doubles<Rt: Threads + Wait + Sync, P: Place, S: Strategy>(
    rt: &Rt,
    alloc: Global,
    strategy: &S,
    site: P,
    numbers: &[u32],
) -> Result<Vec<u32>, Fault>
    requires small { All (λ x. x < 2 ^ 31) numbers.now }
    ensures doubles { IfOk result (λ answers. answers.items ≡ map (λ x. 2 * x) numbers.now) }
    ensures fault { IsMemoryOnErr result }
{
    let double = |number: u32| -> u32
        requires { number < 2 ^ 31 }
        ensures { result ≡ 2 * number }
    { 2 * number };
    strategy.map_collect_vec(rt, alloc, site, Copies { slice: numbers }, double)
}
