//! Rounds of choices by keys that are known: what a choice with its record takes, by a table alone
//! and by a shared policy under its lock.
use crate::race::rounds_of;
use crate::request::Pair;
use crate::times::{Decimal, Times};
use anyhow::{Context, Result};
use commonware_parallel::{Clock, Fault, MonotonicClock};
use parallel_policy::{Key, Policy, Site, Table};
use std::alloc::{AllocError, Global};
use std::fmt::Debug;
use std::sync::Wait;
use std::time;

/// How many call sites there are among the keys.
const SITES: u32 = 8;

/// How many lengths there are among the keys of a site, each of another number of binary digits.
const LENGTHS: u32 = 8;

/// Choices for keys that are planned for that many threads. Those that are to be measured are
/// recorded, or all of them.
#[derive(Drop)]
struct Choices<'a> {
    keys: &'a [Key],
    threads: usize,
    records_all: bool,
}

/// What chooses for a key, and takes a record of it.
trait Learner {
    /// Asks for a choice, and records `nanoseconds` for it where it is to be recorded.
    ///
    /// # Errors
    ///
    /// What was refused.
    fn ask(&mut self, key: Key, choices: &Choices<'_>, nanoseconds: u64) -> Result<(), Fault>;
}

impl Learner for Table {
    fn ask(&mut self, key: Key, choices: &Choices<'_>, nanoseconds: u64) -> Result<(), Fault> {
        let (execution, measured) = self.choose_run(key, choices.threads)?;
        if measured || choices.records_all {
            self.record_run(key, execution, nanoseconds)?;
        }
        Ok(())
    }
}

/// A policy that other threads may share: each choice and each record takes its lock.
#[derive(Drop)]
struct Shared<'a, Rt> {
    rt: &'a Rt,
    policy: &'a Policy,
}

impl<Rt: Wait> Learner for Shared<'_, Rt> {
    fn ask(&mut self, key: Key, choices: &Choices<'_>, nanoseconds: u64) -> Result<(), Fault> {
        let (execution, measured) = self.policy.choose_run(self.rt, key, choices.threads)?;
        if measured || choices.records_all {
            self.policy
                .record_run(self.rt, key, execution, nanoseconds)?;
        }
        Ok(())
    }
}

/// Times rounds of `first` choices, planned for `second` threads, and prints a line for each way
/// and recording.
///
/// # Errors
///
/// What was refused, or the error of a write.
pub fn race_choices<Rt>(rt: &Rt, trial: Pair) -> Result<()>
where
    Rt: time::Clock + Print + AllocGlobal + Wait + Copy + Drop + Send + Sync + Debug + 'static,
{
    let alloc = rt.alloc();
    let clock = MonotonicClock::new(*rt)?;
    let keys = keys_of(alloc, trial.second)?;
    let mut table = Table::new(alloc);
    let policy = Policy::new(alloc)?;
    let mut shared = Shared {
        rt,
        policy: &policy,
    };
    for records_all in [false, true] {
        let choices = Choices {
            keys: keys.as_slice(),
            threads: trial.second,
            records_all,
        };
        let times = time_rounds(alloc, &clock, &mut table, &choices, trial.first)?;
        report(rt, "Table", records_all, times, trial.first)?;
        let times = time_rounds(alloc, &clock, &mut shared, &choices, trial.first)?;
        report(rt, "Policy", records_all, times, trial.first)?;
    }
    Ok(())
}

// The keys that are chosen for: each site with each length.
fn keys_of(alloc: Global, threads: usize) -> Result<Vec<Key>, AllocError> {
    let mut keys = Vec::new(alloc);
    for number in 0..SITES * LENGTHS {
        let site = Site {
            file: "bench",
            line: number % SITES + 1,
            column: 1,
        };
        let len = 1 << (number / SITES);
        keys.push(Key::new(site, len, len, threads))?;
    }
    Ok(keys)
}

// What rounds of `len` choices took, in nanoseconds. Each is run once untimed before it is timed,
// and before the first one each key was recorded.
fn time_rounds<C: Clock, L: Learner>(
    alloc: Global,
    clock: &C,
    learner: &mut L,
    choices: &Choices<'_>,
    len: usize,
) -> Result<Times> {
    let known = Choices {
        records_all: true,
        ..*choices
    };
    ask_all(learner, &known, choices.keys.len())?;
    let mut readings = Vec::new(alloc);
    for _ in 0..rounds_of(len) {
        ask_all(learner, choices, len)?;
        let start = clock.now();
        ask_all(learner, choices, len)?;
        let end = clock.now();
        readings.push(end.saturating_sub(start))?;
    }
    Times::of(readings)
}

// `len` choices one after the other, over the keys in turn. Each is said to have taken half a
// millisecond, and up to a microsecond more.
fn ask_all<L: Learner>(learner: &mut L, choices: &Choices<'_>, len: usize) -> Result<(), Fault> {
    for number in 0..len {
        let Some(key) = choices.keys.get(number % choices.keys.len().max(1)) else {
            return Ok(());
        };
        learner.ask(*key, choices, 500_000 + (number % 1024) as u64)?;
    }
    Ok(())
}

// Prints what a choice with its record takes, in nanoseconds.
fn report(rt: &impl Print, way: &str, records_all: bool, times: Times, len: usize) -> Result<()> {
    let recorded = if records_all {
        "each recorded"
    } else {
        "recorded where measured"
    };
    let best = Decimal::ratio(times.best, len as u64).context("no choice was timed")?;
    let median = Decimal::ratio(times.median, len as u64).context("no choice was timed")?;
    println!(rt; "{way}, {recorded}: best {best} ns, median {median} ns a choice")?;
    Ok(())
}
