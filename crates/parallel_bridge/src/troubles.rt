//! What parts of a list came to, as what the list came to: two neighbours' results put together,
//! and the whole's without what stands for none of its errors.
ghost use Rattle.std.specs.Prelude.{◌≡◌, IfOk, Ok};
ghost use Rattle.parallel_fault.specs.Trouble.{IsMemoryOnErr};
ghost use Rattle.parallel_bridge.specs.Endings.{IsUnderway, JoinsTo, ending_of, well};
ghost use Rattle.parallel_bridge.specs.Halting.{IsUnhalted, NotStopped, unstopped};
ghost use Rattle.parallel_bridge.specs.Outcomes.{PutTogether, UnlessRefused};

use crate::halt::Halt;
use crate::plumbing::Reducer;
use crate::watch::Watch;
use parallel_fault::{Fault, Trouble};
use std::convert::Infallible;

/// The results of two neighbouring parts put together, and so are their watches. The watch of
/// both is told where the reducer fails.
///
/// # Errors
///
/// The left one's trouble, or else the right one's, or else the reducer's.
pub(crate) fn put_together<R: Drop, E: Drop, T: Reducer<R, E>, G: Watch>(
    first: (Result<R, Trouble<Halt<E>>>, G),
    second: (Result<R, Trouble<Halt<E>>>, G),
    reducer: T,
) -> (Result<R, Trouble<Halt<E>>>, G)
    requires can { (a b : R) → first.0 ≡ Ok a → second.0 ≡ Ok b → T.can_reduce reducer a b }
    requires meet { G.meets first.1 second.1 }
    requires underway { (both : G) → G.joins first.1 second.1 both → ending_of first.0 ≡ well
        → ending_of second.0 ≡ well → IsUnderway G.ends both }
    ensures outcome { PutTogether (λ a. unstopped (T.reduce_gives reducer a)) first.0 second.0
        result.0 }
    ensures watch { JoinsTo G.ends G.joins first.1 second.1 result.1 (ending_of first.0)
        (ending_of second.0) (ending_of result.0) }
{
    let mut watch = first.1.join(second.1);
    let left = match first.0 {
        Ok(left) => left,
        Err(trouble) => return (Err(trouble), watch),
    };
    let right = match second.0 {
        Ok(right) => right,
        Err(trouble) => return (Err(trouble), watch),
    };
    let answer = reducer.reduce(left, right);
    match answer {
        Ok(value) => (Ok(value), watch),
        Err(Trouble::Closure(error)) => {
            watch.failed();
            (Err(Trouble::Closure(Halt::Failed(error))), watch)
        }
        Err(Trouble::Fault(fault)) => (Err(Trouble::Fault(fault)), watch),
    }
}

/// The outcome of a whole list, in which the leftmost trouble stands. That is no stop, since a
/// segment that stops lies right of one that failed.
///
/// # Errors
///
/// The outcome's own error or refusal.
pub(crate) fn unhalt<R: Drop, E: Drop>(
    outcome: Result<R, Trouble<Halt<E>>>,
) -> Result<R, Trouble<E>>
    requires { NotStopped outcome }
    ensures { IsUnhalted outcome result }
{
    match outcome {
        Ok(value) => Ok(value),
        Err(Trouble::Fault(fault)) => Err(Trouble::Fault(fault)),
        Err(Trouble::Closure(Halt::Failed(error))) => Err(Trouble::Closure(error)),
        Err(Trouble::Closure(Halt::Stopped)) => unreachable!(),
    }
}

/// The result of a call whose closures have no error of their own.
///
/// # Errors
///
/// The refusal, as it was.
pub(crate) fn unfailing<R: Drop>(answer: Result<R, Trouble<Infallible>>) -> Result<R, Fault>
    ensures same { IfOk result (λ r. answer ≡ Ok r) }
    ensures fault { UnlessRefused answer (λ _. Unit {0}) → IsMemoryOnErr result }
{
    match answer {
        Ok(value) => Ok(value),
        Err(Trouble::Fault(fault)) => Err(fault),
        Err(Trouble::Closure(never)) => match never {},
    }
}
