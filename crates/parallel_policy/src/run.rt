//! What the policy keeps for one key of runs: how long a run takes by its samples, and how often a
//! path is measured and the other one is probed.
ghost use Rattle.std.specs.Prelude.{◌≡◌, ℕ, ◌*◌, ◌<◌, ◌≤◌, ◌∷◌, Bool, true, min, max, Option, None, Some, IfSome, IsSomeAnd, nat_lt};
ghost use Rattle.parallel_policy.specs.Estimates.{mean, blended};
ghost use Rattle.parallel_policy.specs.Arbitration.{contest_of, doublings_of, interval_of, arbitrated, count_after, IsCount};
ghost use Rattle.parallel_policy.specs.Runs.{RunHistory, RunState, HoldsRun, fresh_run, run_choice, run_answer, run_count_after, with_sample, run_time, projection, prefers_parallel};
ghost use Rattle.parallel_policy.specs.declared.history.RunEvent.{RunEvent};

use crate::execution::RunExecution;
use std::marker::Model;

// A serial run is tried, or preferred, only where it is known to take less than this.
const SERIAL_SAMPLE_BUDGET: u64 = 10_000_000;
// A preferred path is measured this often.
const PREFERRED_SAMPLE_INTERVAL: u32 = 10;
// A path that loses by less than twice the time is probed this often.
const RESAMPLE_INTERVAL: u32 = 100;
// So often the interval of a slower path is doubled at most.
const MAX_RESAMPLE_SHIFT: u64 = 5;

/// What a policy keeps for one key of runs: how long a serial and a parallel run take, and how many
/// choices there were since the last probe.
///
/// Its results are those of its history, the list of choices and samples since it was a default
/// entry (`run_choice`), of which it keeps the two estimates and the count (`HoldsRun`). A contract
/// sees it as those three (`RunState`).
#[derive(Clone, Copy, Debug, PartialEq, Eq)]
pub struct RunEntry {
    serial: Estimate,
    parallel: Estimate,
    cadence: Cadence,
}

impl Model for RunEntry {
    ghost Value = { RunState };

    ghost view = { λ e. record { serial = e.serial; parallel = e.parallel; count = e.cadence } };

    ghost inverse = { λ v. record { serial = v.serial; parallel = v.parallel; cadence = v.count } };
}

/// A default entry holds the empty history.
impl Default for RunEntry {
    ghost is_default = { λ e. e ≡ fresh_run };

    fn default() -> RunEntry {
        RunEntry {
            serial: Estimate::default(),
            parallel: Estimate::default(),
            cadence: Cadence::default(),
        }
    }
}

impl RunEntry {
    /// Chooses how a call planned for `parallelism` threads is to run, and says whether the run is
    /// to be measured and recorded.
    ///
    /// Without a parallel estimate the run is parallel and measured. Serial is chosen only where
    /// the parallel time on each thread in turn is under ten milliseconds.
    pub fn choose(&mut self, parallelism: usize) -> (RunExecution, bool)
        ensures answer { (history : RunHistory) → HoldsRun self.old history
            → result ≡ run_choice history parallelism }
        ensures holds { (history : RunHistory) → HoldsRun self.old history
            → HoldsRun self.new (RunEvent.Chosen parallelism ∷ history) }
        ensures serial { result.0 ≡ RunExecution.Serial
            → IsSomeAnd self.old.parallel (λ parallel. parallel * parallelism < 10000000) }
        ensures unmeasured { self.old.parallel ≡ None → result ≡ (RunExecution.Parallel, true) }
        ensures count { IsCount self.new.count }
        ensures kept { self.new ≡ record self.old {
          count = run_count_after self.old.parallel self.old.serial self.old.count
              parallelism;
        } }
        ensures by_state { result ≡ run_answer self.old.parallel self.old.serial self.old.count
            parallelism }
    {
        let Some(parallel) = self.parallel.get() else {
            self.cadence.saturate();
            return (RunExecution::Parallel, true);
        };
        let affordable = projected_serial(parallel, parallelism) < SERIAL_SAMPLE_BUDGET;
        let (preferred, loser, winner_time, loser_time) = match self.serial.get() {
            Some(serial) if affordable && serial < SERIAL_SAMPLE_BUDGET && serial <= parallel => {
                (
                    RunExecution::Serial,
                    RunExecution::Parallel,
                    serial,
                    parallel,
                )
            }
            Some(serial) => (
                RunExecution::Parallel,
                RunExecution::Serial,
                parallel,
                serial,
            ),
            None => (
                RunExecution::Parallel,
                RunExecution::Serial,
                parallel,
                parallel,
            ),
        };
        self.cadence
            .arbitrate(preferred, loser, winner_time, loser_time, affordable)
    }

    /// How long a run of that kind takes, in nanoseconds, if one was recorded.
    pub fn estimate(&self, execution: RunExecution) -> Option<u64>
        ensures { result ≡ run_time self.now execution }
    {
        match execution {
            RunExecution::Serial => self.serial.get(),
            RunExecution::Parallel => self.parallel.get(),
        }
    }

    /// Records that a run of that kind took that many nanoseconds.
    pub fn record(&mut self, execution: RunExecution, nanoseconds: u64)
        ensures holds { (history : RunHistory) → HoldsRun self.old history
            → HoldsRun self.new (RunEvent.Sampled execution nanoseconds ∷ history) }
        ensures kept { self.new ≡ with_sample self.old execution nanoseconds }
    {
        match execution {
            RunExecution::Serial => self.serial.record(nanoseconds),
            RunExecution::Parallel => self.parallel.record(nanoseconds),
        }
    }
}

// What a serial run may take: the parallel time on each thread in turn.
fn projected_serial(parallel: u64, parallelism: usize) -> u64
    ensures { result ≡ projection parallel parallelism }
{
    parallel.saturating_mul(parallelism as u64)
}

/// How long one kind of run takes, in nanoseconds: none before the first sample.
///
/// The first sample is the estimate; each later one moves it by a fifth of the way (`blended`). A
/// contract sees it as an `Option` of a number.
#[derive(Clone, Copy, Debug, PartialEq, Eq)]
pub struct Estimate(Option<u64>);

impl Model for Estimate {
    ghost Value = { Option ℕ };

    ghost view = { λ e. e.0 };

    ghost inverse = { λ v. record { 0 = v } };
}

impl Default for Estimate {
    ghost is_default = { λ e. e ≡ None };

    fn default() -> Estimate {
        Estimate(None)
    }
}

impl Estimate {
    /// The estimate in nanoseconds, if there was a sample.
    pub fn get(&self) -> Option<u64>
        ensures { result ≡ self.now }
    {
        self.0
    }

    /// Blends `sample`, in nanoseconds, into the estimate, which stays between the two.
    pub fn record(&mut self, sample: u64)
        ensures blended { self.new ≡ blended self.old sample }
        ensures between { (old : ℕ) → self.old ≡ Some old
            → IfSome self.new (λ new. (min old sample ≤ new) × (new ≤ max old sample)) }
    {
        self.0 = match self.0 {
            None => Some(sample),
            Some(old) => Some(blend(old, sample)),
        };
    }
}

// The old estimate and a sample, weighed four to one. The sum has 128 bits.
fn blend(old: u64, sample: u64) -> u64
    ensures value { result ≡ mean old sample }
    ensures low { min old sample ≤ result }
    ensures high { result ≤ max old sample }
{
    let weighed = 4 * u128::from(old) + u128::from(sample);
    (weighed / 5) as u64
}

/// How many choices an entry has made since its last probe.
///
/// A contract sees it as that number, which is under 3200 or 4294967295 (`IsCount`).
#[derive(Clone, Copy, Debug, PartialEq, Eq)]
pub struct Cadence {
    since_probe: u32,
}

impl Model for Cadence {
    ghost Value = { ℕ };

    ghost view = { λ c. c.since_probe };

    ghost invariant = { λ c. IsCount c.since_probe };

    ghost inverse = { λ n. record { since_probe = n } };
}

impl Default for Cadence {
    ghost is_default = { λ c. c ≡ 0 };

    fn default() -> Cadence {
        Cadence { since_probe: 0 }
    }
}

impl Cadence {
    /// Makes the next choice reach its interval, whatever that is.
    pub fn saturate(&mut self)
        ensures count { self.new ≡ 4294967295 }
        ensures in_range { IsCount self.new }
    {
        self.since_probe = u32::MAX;
    }

    /// Chooses between two paths, and says whether the run is to be measured.
    ///
    /// The times are nanoseconds. After a number of choices, which is the greater the slower the
    /// loser is, the loser runs, measured, where `probe_allowed`, and the count begins anew; where
    /// it isn't, the preferred path is measured in its place. In between the preferred path runs,
    /// and each tenth is measured (`arbitrated`, `count_after`).
    pub fn arbitrate<P: Copy>(
        &mut self,
        preferred: P,
        loser: P,
        winner_time: u64,
        loser_time: u64,
        probe_allowed: bool,
    ) -> (P, bool)
        ensures answer { result ≡ arbitrated
            (contest_of preferred loser winner_time loser_time probe_allowed) self.old }
        ensures count { self.new ≡ count_after
            (contest_of preferred loser winner_time loser_time probe_allowed) self.old }
        ensures in_range { IsCount self.new }
    {
        let interval = interval(winner_time, loser_time);
        let count = self.since_probe.saturating_add(1);
        if count >= interval {
            self.since_probe = 0;
            return (if probe_allowed { loser } else { preferred }, true);
        }
        self.since_probe = count;
        (preferred, count.is_multiple_of(PREFERRED_SAMPLE_INTERVAL))
    }
}

// How many choices lie between two probes of the loser.
fn interval(winner_time: u64, loser_time: u64) -> u32
    ensures value { result ≡ interval_of winner_time loser_time }
    ensures most { result ≤ 3200 }
{
    RESAMPLE_INTERVAL << doublings(winner_time, loser_time)
}

// How often the interval is doubled. Both ends, which are what most choices come to, are found by
// divisions by constants, which are cheaper than one by a time.
fn doublings(winner_time: u64, loser_time: u64) -> u32
    ensures value { result ≡ doublings_of winner_time loser_time }
    ensures most { result ≤ 5 }
{
    let winner = winner_time.max(1);
    if loser_time / 2 < winner {
        return 0;
    }
    if loser_time / (MAX_RESAMPLE_SHIFT + 1) >= winner {
        return MAX_RESAMPLE_SHIFT as u32;
    }
    let slowdown = loser_time / winner;
    slowdown.saturating_sub(1).min(MAX_RESAMPLE_SHIFT) as u32
}
