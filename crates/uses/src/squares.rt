//! The shortest caller: a map over a list, through whichever strategy the program runs.
ghost use Rattle.std.specs.Prelude.{◌≡◌, ◌*◌, map, IfOk};
ghost use Rattle.parallel_fault.specs.Trouble.{IsMemoryOnErr};

use commonware_parallel::{Copies, Fault, Place, Runtime, Strategy};
use parallel_calls::On;

/// The squares of the numbers, in the numbers' order.
///
/// # Errors
///
/// `Fault::Memory` if an allocation fails.
pub fn squares<Rt: Runtime, S: Strategy, P: Place>(
    on: &On<'_, Rt, S, P>,
    numbers: &[u32],
) -> Result<Vec<u64>, Fault>
    ensures squares { IfOk result (λ answers. answers.items ≡ map (λ x. x * x) numbers.now) }
    ensures fault { IsMemoryOnErr result }
{
    on.map(Copies { slice: numbers }, |n| u64::from(n) * u64::from(n))
}
