//! A run from its beginning to its end.
ghost use Rattle.std.specs.Prelude.{◌≡◌, Err, MatchResult, Ok};

use crate::chooser::Chooser;
use crate::meter::{Learns, Meter};
use parallel_fault::Trouble;
use std::sync::Wait;

/// A run that has begun, with its measure.
///
/// It can't be dropped: who begins a run has to say that it has ended, and how, and a strategy that
/// is told of one has to end it, or to take its measure where it learns from it. A function that
/// leaves this out on one of its ways doesn't compile.
pub struct Running<M> {
    measure: M,
}

impl<M: Meter> Running<M> {
    // The run begins.
    pub(crate) fn begun(measure: M) -> Running<M> {
        let mut measure = measure;
        measure.begin();
        Running { measure }
    }

    /// The run has ended, and its measure is told so.
    pub fn ended<Rt: Wait>(self, rt: &Rt) {
        let Running { measure } = self;
        measure.end(rt);
    }
}

impl<M: Learns> Running<M> {
    /// The measure of the run, which has ended, for the strategy that learns from it.
    pub fn into_measure(self) -> M {
        let Running { measure } = self;
        measure
    }
}

/// The run has ended. Its strategy is told where it has answered: of an error nothing is told.
pub fn end_run<S: Chooser, Rt: Wait>(
    strategy: &S,
    rt: &Rt,
    running: Running<S::Measure>,
    has_answered: bool,
) {
    if has_answered {
        strategy.tell(rt, running);
    } else {
        let Running { measure: _ } = running;
    }
}

/// The run has ended with that outcome.
pub(crate) fn end_as<S: Chooser, Rt: Wait, R, E>(
    strategy: &S,
    rt: &Rt,
    running: Running<S::Measure>,
    outcome: Result<R, E>,
) -> Result<R, E>
    ensures { result ≡ outcome }
{
    end_run(strategy, rt, running, outcome.is_ok());
    outcome
}

/// The run has ended with the outcome of a body that may fail, whose error is the closure's.
///
/// # Errors
///
/// `Trouble::Closure` with the body's error.
pub(crate) fn end_with<S: Chooser, Rt: Wait, R, E>(
    strategy: &S,
    rt: &Rt,
    running: Running<S::Measure>,
    outcome: Result<R, E>,
) -> Result<R, Trouble<E>>
    ensures { MatchResult outcome (λ answer. result ≡ Ok answer)
        (λ error. result ≡ Err (Trouble.Closure error)) }
{
    end_run(strategy, rt, running, outcome.is_ok());
    match outcome {
        Ok(answer) => Ok(answer),
        Err(error) => Err(Trouble::Closure(error)),
    }
}
