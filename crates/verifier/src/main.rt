//! Checks a batch on the machine's cores, and names the first bad index.
#![tactic(auto)]

ghost use Rattle.std.specs.Prelude.{◌≡◌, ◌-◌, ◌<◌, ℕ, List, MatchResult, length, ⊤};
ghost use Rattle.std.specs.List.{range_with_len};
ghost use Rattle.parallel_bridge.specs.Outcomes.{UnlessRefused, listed};
ghost use Rattle.parallel_bridge.specs.Tries.{TryMapOf};

use commonware_parallel::{Indices, Place, Rayon, Runtime, Site, Strategy, Trouble};
use parallel_calls::On;
use std::io;
use std::num::NonZeroUsize;
use std::process::ExitCode;

/// The call site, by which a policy tells calls apart.
const SITE: Site = Site {
    file: "verifier/src/main.rt",
    line: 1,
    column: 1,
};

/// The greatest good number.
const LIMIT: u64 = 5;

/// Checks each index below `count`: an Ok for each of them, or the error of the first that fails,
/// whichever thread was first.
fn first_failing<
    Rt: Runtime,
    P: Place,
    S: Strategy,
    F: Fn(usize) -> Result<(), usize> + Send + Sync + Drop,
>(on: &On<'_, Rt, S, P>, count: usize, check: F) -> Result<Vec<()>, Trouble<usize>>
    requires accepts { (index : ℕ) → index < count → F.pre check index }
    ensures first { UnlessRefused result (λ out. (xs : List ℕ)
        × (xs ≡ range_with_len 0 (count - 0)) × TryMapOf (F.post check) xs (listed out)) }
{
    let indices = Indices {
        start: 0,
        end: count,
    };
    on.try_map(indices, check)
}

/// Checks that no number is above the limit.
fn verify<Rt: Runtime, S: Strategy, P: Place>(
    on: &On<'_, Rt, S, P>,
    numbers: &[u64],
) -> Result<Vec<()>, Trouble<usize>> {
    let check = move |index: usize| -> Result<(), usize>
        requires { index < length numbers.now }
        ensures { MatchResult result (λ _. ⊤) (λ bad. bad ≡ index) }
    {
        if numbers[index] <= LIMIT {
            Ok(())
        } else {
            Err(index)
        }
    };
    first_failing(on, numbers.len(), check)
}

fn main(rt: HostRuntime) -> io::Result<ExitCode> {
    let (rt, alloc) = (&rt, rt.alloc());
    let strategy = &Rayon::of_machine(rt, alloc, NonZeroUsize::MIN)?;
    let on = On {
        rt,
        alloc,
        strategy,
        site: SITE,
    };
    match verify(&on, &[3, 1, 4, 1, 5, 9, 2, 6]) {
        Ok(_) => println!(rt; "all are good")?,
        Err(Trouble::Closure(index)) => println!(rt; "the first bad one is number {index}")?,
        Err(Trouble::Fault(fault)) => {
            eprintln!(rt; "verifier: {fault}")?;
            return Ok(ExitCode::FAILURE);
        }
    }
    Ok(ExitCode::SUCCESS)
}
