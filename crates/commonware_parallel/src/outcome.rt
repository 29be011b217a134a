//! The outcome of a call whose closure may be refused.
ghost use Rattle.std.specs.Prelude.{◌≡◌};
ghost use Rattle.commonware_parallel.specs.Answers.{flat_outcome};

use parallel_fault::{Fault, Trouble};

/// The outcome of a call whose closure's own error is a refusal, as that of a batch whose closure
/// maps its ranges: the closure's refusal and the call's become one (`flat_outcome`).
///
/// # Errors
///
/// The closure's refusal, or else the call's own.
pub fn flat<R>(outcome: Result<R, Trouble<Fault>>) -> Result<R, Fault>
    ensures { result ≡ flat_outcome outcome }
{
    match outcome {
        Ok(answer) => Ok(answer),
        Err(Trouble::Closure(fault)) => Err(fault),
        Err(Trouble::Fault(fault)) => Err(fault),
    }
}
