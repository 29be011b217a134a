//! Several calls at one site: what they have in common is written once.
ghost use Rattle.std.specs.Prelude.{◌≡◌, ◌*◌, map, IfOk};
ghost use Rattle.parallel_fault.specs.Trouble.{IsMemoryOnErr};

use commonware_parallel::{Copies, Fault, Place, Strategy};
use parallel_calls::On;
use std::alloc::Global;
use std::sync::Wait;
use std::thread::Threads;

/// The squares of the numbers, in the numbers' order, and their sum, wrapped around.
///
/// # Errors
///
/// `Fault::Memory` if an allocation fails.
pub fn squares_and_sum<Rt: Threads + Wait + Sync, P: Place, S: Strategy>(
    rt: &Rt,
    alloc: Global,
    strategy: &S,
    site: P,
    numbers: &[u32],
) -> Result<(Vec<u64>, u64), Fault>
    ensures squares { IfOk result (λ both. both.0.items ≡ map (λ x. x * x) numbers.now) }
    ensures fault { IsMemoryOnErr result }
{
    let on = On {
        rt,
        alloc,
        strategy,
        site,
    };
    let squares = on.map(Copies { slice: numbers }, |number| {
        u64::from(number) * u64::from(number)
    })?;
    let items = Copies {
        slice: squares.as_slice(),
    };
    let sum = on.fold(
        items,
        || 0,
        |sum: u64, square| sum.wrapping_add(square),
        |left: u64, right| left.wrapping_add(right),
    )?;
    Ok((squares, sum))
}
