//! Ready calls: what each comes to, in std's own word for it.
ghost use Rattle.std.specs.Prelude.{◌≡◌, ◌==◌, ◌%◌, IfOk, count_by, fold, map, max, nat_lt};
ghost use Rattle.std.specs.List.{filter, find};
ghost use Rattle.parallel_fault.specs.Trouble.{IsMemoryOnErr, IsMemoryOnFault};
ghost use Rattle.parallel_bridge.specs.Outcomes.{UnlessRefused, listed};
ghost use Rattle.parallel_bridge.specs.Parts.{keys_of, values_of};
ghost use Rattle.parallel_calls.specs.Extremes.{LeastOf};
ghost use Rattle.parallel_calls.specs.Functions.{try_map};
ghost use Rattle.uses.specs.Ready.{even_of, half_of};

use commonware_parallel::{Copies, Fault, Place, Strategy, Trouble};
use parallel_calls::On;
use std::sync::Wait;
use std::thread::Threads;

/// The first even number, and none where there is none.
///
/// # Errors
///
/// `Fault::Memory` if an allocation fails.
pub fn first_even<Rt: Threads + Wait + Sync, S: Strategy, P: Place>(
    on: &On<'_, Rt, S, P>,
    numbers: &[u64],
) -> Result<Option<u64>, Fault>
    ensures first { IfOk result (λ found. found ≡ find (λ x. x % 2 == 0) numbers.now) }
    ensures fault { IsMemoryOnErr result }
{
    on.find_first(Copies { slice: numbers }, |number: &u64| *number % 2 == 0)
}

/// How many numbers are even.
///
/// # Errors
///
/// `Fault::Memory` if an allocation fails.
pub fn count_even<Rt: Threads + Wait + Sync, S: Strategy, P: Place>(
    on: &On<'_, Rt, S, P>,
    numbers: &[u64],
) -> Result<usize, Fault>
    ensures counted { IfOk result (λ count. count ≡ count_by (λ x. x % 2 == 0) numbers.now) }
    ensures fault { IsMemoryOnErr result }
{
    on.count(Copies { slice: numbers }, |number: u64| number % 2 == 0)
}

/// The first of the least numbers, and none where there is no number.
///
/// # Errors
///
/// `Fault::Memory` if an allocation fails.
pub fn least<Rt: Threads + Wait + Sync, S: Strategy, P: Place>(
    on: &On<'_, Rt, S, P>,
    numbers: &[u64],
) -> Result<Option<u64>, Fault>
    ensures least { IfOk result (LeastOf nat_lt numbers.now) }
    ensures fault { IsMemoryOnErr result }
{
    on.min_by(
        Copies { slice: numbers },
        |left: &u64, right: &u64| left.cmp(right),
    )
}

/// The greatest number, and 0 where there is no number.
///
/// # Errors
///
/// `Fault::Memory` if an allocation fails.
pub fn greatest<Rt: Threads + Wait + Sync, S: Strategy, P: Place>(
    on: &On<'_, Rt, S, P>,
    numbers: &[u64],
) -> Result<u64, Fault>
    ensures greatest { IfOk result (λ greatest. greatest ≡ fold max 0 numbers.now) }
    ensures fault { IsMemoryOnErr result }
{
    on.fold(
        Copies { slice: numbers },
        || 0,
        |so_far: u64, number: u64| so_far.max(number),
        |left: u64, right: u64| left.max(right),
    )
}

/// The even numbers, in their order.
///
/// # Errors
///
/// `Fault::Memory` if an allocation fails.
pub fn even_numbers<Rt: Threads + Wait + Sync, S: Strategy, P: Place>(
    on: &On<'_, Rt, S, P>,
    numbers: &[u64],
) -> Result<Vec<u64>, Fault>
    ensures kept { IfOk result (λ kept. kept.items ≡ filter (λ x. x % 2 == 0) numbers.now) }
    ensures fault { IsMemoryOnErr result }
{
    on.filter(Copies { slice: numbers }, |number: &u64| *number % 2 == 0)
}

/// Half of each number, or the first odd one.
///
/// # Errors
///
/// `Trouble::Closure` with an odd number, before which each is even; `Trouble::Fault` with
/// `Fault::Memory` if an allocation fails.
pub fn halves<Rt: Threads + Wait + Sync, S: Strategy, P: Place>(
    on: &On<'_, Rt, S, P>,
    numbers: &[u64],
) -> Result<Vec<u64>, Trouble<u64>>
    ensures halves { UnlessRefused result (λ out. listed out ≡ try_map half_of numbers.now) }
    ensures fault { IsMemoryOnFault result }
{
    let half = |number: u64| -> Result<u64, u64>
        ensures { result ≡ half_of number }
    {
        if number % 2 == 0 {
            Ok(number / 2)
        } else {
            Err(number)
        }
    };
    on.try_map(Copies { slice: numbers }, half)
}

/// The even numbers and the odd ones, each in their order.
///
/// # Errors
///
/// `Fault::Memory` if an allocation fails.
pub fn evens_and_odds<Rt: Threads + Wait + Sync, S: Strategy, P: Place>(
    on: &On<'_, Rt, S, P>,
    numbers: &[u64],
) -> Result<(Vec<u64>, Vec<u64>), Fault>
    ensures evens { IfOk result (λ parts. parts.0.items ≡ values_of (map even_of numbers.now)) }
    ensures odds { IfOk result (λ parts. parts.1.items ≡ keys_of (map even_of numbers.now)) }
    ensures fault { IsMemoryOnErr result }
{
    let even = |number: u64| -> (u64, Option<u64>)
        ensures { result ≡ even_of number }
    {
        if number % 2 == 0 {
            (number, Some(number))
        } else {
            (number, None)
        }
    };
    on.map_partition(Copies { slice: numbers }, even)
}
