//! What the policy keeps for one key of spawned jobs.
ghost use Rattle.std.specs.Prelude.{◌≡◌, ◌⊎◌, ◌∷◌, true, None};
ghost use Rattle.parallel_policy.specs.Arbitration.{IsCount};
ghost use Rattle.parallel_policy.specs.Spawns.{SpawnHistory, SpawnState, HoldsSpawn, fresh_spawn, spawn_choice, spawn_answer, spawn_count_after, with_spawn_sample, spawn_time};
ghost use Rattle.parallel_policy.specs.declared.history.SpawnEvent.{SpawnEvent};
ghost use Rattle.parallel_policy.specs.declared.history.SpawnSample.{SpawnSample};

use crate::execution::SpawnExecution;
use crate::history::SpawnSample;
use crate::run::{Cadence, Estimate};
use std::marker::Model;

/// What a policy keeps for one key of spawned jobs: how long a job takes inline and on a worker,
/// how much longer a handed-off job takes than the job itself, and how many choices there were
/// since the last probe.
///
/// Its results are those of its history, the list of choices and samples since it was a default
/// entry (`spawn_choice`), of which it keeps the three estimates and the count (`HoldsSpawn`). A
/// contract sees it as those four (`SpawnState`).
#[derive(Clone, Copy, Debug, PartialEq, Eq)]
pub struct SpawnEntry {
    inline: Estimate,
    job: Estimate,
    overhead: Estimate,
    cadence: Cadence,
}

impl Model for SpawnEntry {
    ghost Value = { SpawnState };

    ghost view = { λ e. record {
      inline = e.inline;
      job = e.job;
      overhead = e.overhead;
      count = e.cadence;
    } };

    ghost inverse = { λ v. record {
      inline = v.inline;
      job = v.job;
      overhead = v.overhead;
      cadence = v.count;
    } };
}

/// A default entry holds the empty history.
impl Default for SpawnEntry {
    ghost is_default = { λ e. e ≡ fresh_spawn };

    fn default() -> SpawnEntry {
        SpawnEntry {
            inline: Estimate::default(),
            job: Estimate::default(),
            overhead: Estimate::default(),
            cadence: Cadence::default(),
        }
    }
}

impl SpawnEntry {
    /// Chooses where a job is to run, and says whether the run is to be measured and recorded.
    ///
    /// A job is run inline where it takes its caller no longer than the hand-off costs, and than
    /// `budget`, in nanoseconds. Without an estimate of the overhead and of the job on a worker it
    /// is handed off, measured.
    pub fn choose(&mut self, budget: u64) -> (SpawnExecution, bool)
        ensures answer { (history : SpawnHistory) → HoldsSpawn self.old history
            → result ≡ spawn_choice history budget }
        ensures holds { (history : SpawnHistory) → HoldsSpawn self.old history
            → HoldsSpawn self.new (SpawnEvent.Chosen budget ∷ history) }
        ensures unmeasured { (self.old.overhead ≡ None) ⊎ (self.old.job ≡ None)
            → result ≡ (SpawnExecution.Offload, true) }
        ensures count { IsCount self.new.count }
        ensures kept { self.new ≡ record self.old {
          count = spawn_count_after self.old.overhead self.old.job self.old.inline
              self.old.count budget;
        } }
        ensures by_state { result ≡ spawn_answer self.old.overhead self.old.job self.old.inline
            self.old.count budget }
    {
        let (Some(overhead), Some(job)) = (self.overhead.get(), self.job.get()) else {
            self.cadence.saturate();
            return (SpawnExecution::Offload, true);
        };
        let bound = self.inline.get().unwrap_or(job);
        let threshold = overhead.min(budget);
        if bound > threshold {
            self.cadence.arbitrate(
                SpawnExecution::Offload,
                SpawnExecution::Inline,
                threshold,
                bound,
                job < budget,
            )
        } else {
            self.cadence.arbitrate(
                SpawnExecution::Inline,
                SpawnExecution::Offload,
                bound,
                threshold,
                true,
            )
        }
    }

    /// What the samples of that kind say, in nanoseconds, if one was recorded.
    pub fn estimate(&self, kind: SpawnSample) -> Option<u64>
        ensures { result ≡ spawn_time self.now kind }
    {
        match kind {
            SpawnSample::InlineRun => self.inline.get(),
            SpawnSample::Job => self.job.get(),
            SpawnSample::Overhead => self.overhead.get(),
        }
    }

    /// Records how long an inline run took, in nanoseconds.
    pub fn record_inline(&mut self, nanoseconds: u64)
        ensures holds { (history : SpawnHistory) → HoldsSpawn self.old history
            → HoldsSpawn self.new (SpawnEvent.Sampled SpawnSample.InlineRun nanoseconds ∷ history) }
        ensures kept { self.new ≡ with_spawn_sample self.old SpawnSample.InlineRun nanoseconds }
    {
        self.inline.record(nanoseconds);
    }

    /// Records how long a handed-off job took by itself, in nanoseconds.
    pub fn record_job(&mut self, nanoseconds: u64)
        ensures holds { (history : SpawnHistory) → HoldsSpawn self.old history
            → HoldsSpawn self.new (SpawnEvent.Sampled SpawnSample.Job nanoseconds ∷ history) }
        ensures kept { self.new ≡ with_spawn_sample self.old SpawnSample.Job nanoseconds }
    {
        self.job.record(nanoseconds);
    }

    /// Records how much longer a handed-off job took than the job itself, in nanoseconds.
    pub fn record_overhead(&mut self, nanoseconds: u64)
        ensures holds { (history : SpawnHistory) → HoldsSpawn self.old history
            → HoldsSpawn self.new (SpawnEvent.Sampled SpawnSample.Overhead nanoseconds ∷ history) }
        ensures kept { self.new ≡ with_spawn_sample self.old SpawnSample.Overhead nanoseconds }
    {
        self.overhead.record(nanoseconds);
    }
}
