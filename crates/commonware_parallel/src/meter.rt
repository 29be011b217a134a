//! How a run is measured from its choice to its end.
ghost use Rattle.std.specs.Prelude.{◌≡◌};
ghost use Rattle.commonware_parallel.specs.Measures.{recorded_as};

use parallel_policy::{Clock, Key, Policy, SpawnExecution, Ticket};
use std::sync::Wait;

/// Measures a run that a strategy chose for, from its beginning to its end.
///
/// Nothing is claimed of what it measures. A run that fails or is given up isn't ended, so nothing
/// is recorded of it.
pub trait Meter: Drop {
    /// The run begins.
    fn begin(&mut self);

    /// The run has ended.
    fn end<Rt: Wait>(self, rt: &Rt);
}

/// A measure from which its strategy learns: one that is taken out of a run that has ended
/// (`Running::into_measure`). Any other is ended with its run.
pub trait Learns: Meter {}

/// Measures nothing: the meter of a strategy that no policy chooses for.
#[derive(Clone, Copy, Debug, PartialEq, Eq)]
pub struct Unmeasured;

impl Meter for Unmeasured {
    fn begin(&mut self) {}

    fn end<Rt: Wait>(self, _rt: &Rt) {}
}

/// Measures a run of a `Rayon`, where its policy asked for it.
///
/// A run's time is from its choice until the strategy is told that it has ended, and takes no
/// memory. A job ends away from its strategy, so its meter has handles of its own, and its time is
/// from `begin` to `end`. Either is 0 where the clock went back. What there is no memory to
/// record is left out.
#[derive(Debug, Drop)]
pub struct Measured<C> {
    pub(crate) sample: Sample<C>,
}

/// What is measured.
#[derive(Debug, Drop)]
pub(crate) enum Sample<C> {
    Nothing,
    // A run, of which the strategy is told.
    Run(Key, Ticket),
    Job(Told<C>),
}

/// What a measured job is recorded by.
#[derive(Debug, Drop)]
pub(crate) struct Told<C> {
    pub(crate) policy: Policy,
    pub(crate) clock: C,
    pub(crate) key: Key,
    pub(crate) execution: SpawnExecution,
    // The clock's reading when the pick was handed out, and when the job began.
    pub(crate) chosen: u64,
    pub(crate) begun: u64,
}

/// What a job that has ended is recorded as, in nanoseconds.
#[derive(Clone, Copy, Debug, PartialEq, Eq)]
pub(crate) enum Recorded {
    Inline(u64),
    // Of a job on a worker the time until its end beyond its own time is recorded too.
    Offloaded { job: u64, overhead: u64 },
}

impl Recorded {
    // What is recorded of a job that was chosen, begun and stopped at these readings of the clock.
    fn of_job(execution: SpawnExecution, chosen: u64, begun: u64, stopped: u64) -> Recorded
        ensures { result ≡ recorded_as execution chosen begun stopped }
    {
        let time = stopped.saturating_sub(begun);
        match execution {
            SpawnExecution::Inline => Recorded::Inline(time),
            SpawnExecution::Offload => Recorded::Offloaded {
                job: time,
                overhead: stopped.saturating_sub(chosen).saturating_sub(time),
            },
        }
    }
}

impl<C> Measured<C> {
    pub(crate) fn nothing() -> Measured<C> {
        Measured {
            sample: Sample::Nothing,
        }
    }

    pub(crate) fn run(key: Key, ticket: Ticket) -> Measured<C> {
        Measured {
            sample: Sample::Run(key, ticket),
        }
    }

    pub(crate) fn job(told: Told<C>) -> Measured<C> {
        Measured {
            sample: Sample::Job(told),
        }
    }
}

impl<C: Clock> Learns for Measured<C> {}

impl<C: Clock> Meter for Measured<C> {
    fn begin(&mut self) {
        if let Sample::Job(told) = &mut self.sample {
            told.begun = told.clock.now();
        }
    }

    fn end<Rt: Wait>(self, rt: &Rt) {
        let Sample::Job(told) = self.sample else {
            return;
        };
        let (policy, key) = (told.policy, told.key);
        let stopped = told.clock.now();
        let _ = match Recorded::of_job(told.execution, told.chosen, told.begun, stopped) {
            Recorded::Inline(time) => policy.record_spawn_inline(rt, key, time),
            Recorded::Offloaded { job, overhead } => {
                let _ = policy.record_spawn_job(rt, key, job);
                policy.record_spawn_overhead(rt, key, overhead)
            }
        };
    }
}
