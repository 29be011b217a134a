//! Rounds in which the ways of a case run one after the other.
use crate::callers::{Extras, bytes_of, digests_of, messages_of};
use crate::calls::by_strategy;
use crate::case::{Case, Cost};
use crate::in_place::{change_by_loop, change_by_strategy};
use crate::kit::by_kit;
use crate::loops::by_loop;
use crate::request::Trial;
use crate::times::{Decimal, Times};
use crate::ways::{Answer, Items, WAYS, Way};
use crate::work::items_of;
use anyhow::{Context, Result, ensure};
use commonware_parallel::{Clock, Fault, MonotonicClock, Rayon, Runtime, Sequential};
use std::alloc::Global;
use std::fmt::Debug;
use std::sync::Wait;
use std::thread::Threads;
use std::time;

/// The order of the ways in every other round, from the first on.
const FORTH: [Way; 5] = [
    Way::Loop,
    Way::Sequential,
    Way::Rayon,
    Way::Policy,
    Way::Kit,
];

/// Their order in the rounds between, so that no way always comes after the same other one.
const BACK: [Way; 5] = [
    Way::Kit,
    Way::Policy,
    Way::Rayon,
    Way::Sequential,
    Way::Loop,
];

/// How many calls a policy sees before the first round, at most.
const WARM_UP: usize = 50_000;

/// After how many nanoseconds no more such calls are made.
const WARM_UP_TIME: u64 = 3_000_000_000;

/// What the calls of a trial are made with.
#[derive(Drop)]
struct Bench<'a, Rt, C> {
    rt: &'a Rt,
    alloc: Global,
    clock: &'a C,
    /// The strategy without a policy.
    parallel: &'a Rayon<C>,
    /// The one with its policy.
    learning: &'a Rayon<C>,
    trial: Trial,
    extras: Extras<'a>,
}

/// What a way took in a round, in nanoseconds.
#[derive(Clone, Copy)]
struct Reading {
    way: Way,
    time: u64,
}

/// Times a trial and prints a line for each way, or calls one way of it once and prints its
/// result's checksum, for whoever measures the whole program.
///
/// # Errors
///
/// A refusal of a way, and `the answers differ` where the ways' results do.
pub fn race<Rt>(rt: &Rt, trial: Trial) -> Result<()>
where
    Rt: time::Clock
        + Print
        + AllocGlobal
        + Threads
        + Wait
        + Copy
        + Drop
        + Send
        + Sync
        + Debug
        + 'static,
{
    let alloc = rt.alloc();
    let clock = MonotonicClock::new(*rt)?;
    let learning = Rayon::new(rt, alloc, trial.threads, clock.clone()?)?;
    let parallel = learning.without_policy()?;
    prepare(rt, alloc, &clock, &parallel, &learning, trial)
}

/// Makes what the calls of a trial take, and makes them.
///
/// # Errors
///
/// What was refused, the error of a write, or that the results differ.
fn prepare<Rt: Print + Runtime, C: Clock>(
    rt: &Rt,
    alloc: Global,
    clock: &C,
    parallel: &Rayon<C>,
    learning: &Rayon<C>,
    trial: Trial,
) -> Result<()> {
    let items = items_of(alloc, trial.case, trial.len)?;
    let bytes = bytes_of(alloc, trial.case, items.as_slice())?;
    let messages = messages_of(alloc, trial.case, bytes.as_slice())?;
    let digests = digests_of(alloc, messages.as_slice())?;
    let extras = Extras {
        bytes: bytes.as_slice(),
        messages: messages.as_slice(),
        digests: digests.as_slice(),
    };
    measure(rt, alloc, clock, parallel, learning, trial, extras, items)
}

/// Makes the calls of a trial.
///
/// # Errors
///
/// What was refused, the error of a write, or that the results differ.
fn measure<'a, Rt: Print + Runtime, C: Clock>(
    rt: &'a Rt,
    alloc: Global,
    clock: &'a C,
    parallel: &'a Rayon<C>,
    learning: &'a Rayon<C>,
    trial: Trial,
    extras: Extras<'a>,
    items: Vec<u64>,
) -> Result<()> {
    let bench = Bench {
        rt,
        alloc,
        clock,
        parallel,
        learning,
        trial,
        extras,
    };
    match trial.once {
        Some(way) => bench.print_checksum(way, items.as_slice()),
        None => bench.run_rounds(items),
    }
}

/// An odd number of rounds: 7 for a long list, and up to 1001 for a short one.
pub fn rounds_of(len: usize) -> u64 {
    let pairs = 10_000 / len.max(1);
    pairs.clamp(3, 500) as u64 * 2 + 1
}

impl<Rt: Print + Runtime, C: Clock> Bench<'_, Rt, C> {
    fn print_checksum(&self, way: Way, items: &[u64]) -> Result<()> {
        let checksum = self.call(way, items)?.checksum();
        println!(self.rt; "{checksum}")?;
        Ok(())
    }

    // Runs the rounds, and prints what was read of them. The first item is another one in each, so
    // that no round's result serves for the next.
    fn run_rounds(&self, items: Vec<u64>) -> Result<()> {
        let mut items = items;
        self.warm_up(items.as_slice())?;
        let mut readings = Vec::new(self.alloc);
        let mut kept = Vec::new(self.alloc);
        for number in 0..rounds_of(self.trial.len) {
            if let Some(first) = items.first_mut() {
                *first = number;
            }
            let order = if number % 2 == 0 { FORTH } else { BACK };
            self.run_round(order, items.as_slice(), &mut readings, &mut kept)?;
        }
        drop(kept);
        self.report(readings.as_slice())
    }

    // Calls the strategy that has a policy, until the policy has settled: 50,000 times, or for
    // three seconds.
    fn warm_up(&self, items: &[u64]) -> Result<()> {
        let start = self.clock.now();
        for _ in 0..WARM_UP {
            if self.clock.now().saturating_sub(start) > WARM_UP_TIME {
                return Ok(());
            }
            let _ = self.call(Way::Policy, items)?;
        }
        Ok(())
    }

    // One call of each way, whose results have to be one.
    fn run_round(
        &self,
        order: [Way; 5],
        items: &[u64],
        readings: &mut Vec<Reading>,
        kept: &mut Vec<Answer>,
    ) -> Result<()> {
        let mut expected = None;
        for way in order {
            if self.trial.includes(way) {
                let (time, checksum) = self.time_call(way, items, kept)?;
                let known = *expected.get_or_insert(checksum);
                ensure!(known == checksum, "the answers differ");
                readings.push(Reading { way, time })?;
            }
        }
        Ok(())
    }

    // What a call took, in nanoseconds, and its result's checksum.
    //
    // The call is made once before the clock is read, so that it meets the caches and the allocator
    // as it leaves them itself, and not as another way left them. Where the memory is to be fresh
    // the results of both calls are kept, so that no later call gets their memory. A list that a
    // call takes is made before the clock is read.
    fn time_call(&self, way: Way, items: &[u64], kept: &mut Vec<Answer>) -> Result<(u64, u64)> {
        let before = self.call(way, items)?;
        self.keep(kept, before)?;
        let input = Items::of(self.alloc, self.trial.form, items)?;
        let start = self.clock.now();
        let answer = self.call_on(way, input);
        let end = self.clock.now();
        let answer = answer?;
        let checksum = answer.checksum();
        self.keep(kept, answer)?;
        Ok((end.saturating_sub(start), checksum))
    }

    fn keep(&self, kept: &mut Vec<Answer>, answer: Answer) -> Result<()> {
        if self.trial.is_fresh {
            kept.push(answer)?;
        }
        Ok(())
    }

    fn call(&self, way: Way, items: &[u64]) -> Result<Answer, Fault> {
        let input = Items::of(self.alloc, self.trial.form, items)?;
        self.call_on(way, input)
    }

    // The case's result in a way.
    #[inline(never)]
    fn call_on(&self, way: Way, items: Items<'_>) -> Result<Answer, Fault> {
        let (rt, alloc, case, extras) = (self.rt, self.alloc, self.trial.case, self.extras);
        let items = match (case, items) {
            (Case::Each(cost), Items::Owned(items)) => return self.change(way, cost, items),
            (_, items) => items,
        };
        match way {
            Way::Loop => by_loop(alloc, case, items.as_slice(), extras),
            Way::Sequential => by_strategy(rt, alloc, &Sequential, case, items, extras),
            Way::Rayon => by_strategy(rt, alloc, self.parallel, case, items, extras),
            Way::Policy => by_strategy(rt, alloc, self.learning, case, items, extras),
            Way::Kit => by_kit(rt, alloc, case, items.as_slice()),
        }
    }

    // The items of a list after a way has changed each.
    fn change(&self, way: Way, cost: Cost, items: Vec<u64>) -> Result<Answer, Fault> {
        let mut items = items;
        let (rt, alloc, list) = (self.rt, self.alloc, items.as_mut_slice());
        match way {
            Way::Loop | Way::Kit => change_by_loop(cost, list),
            Way::Sequential => change_by_strategy(rt, alloc, &Sequential, cost, list)?,
            Way::Rayon => change_by_strategy(rt, alloc, self.parallel, cost, list)?,
            Way::Policy => change_by_strategy(rt, alloc, self.learning, cost, list)?,
        }
        Ok(Answer::Numbers(items))
    }

    // Prints a line for each way: its times in microseconds, and how many times the loop's they
    // are.
    fn report(&self, readings: &[Reading]) -> Result<()> {
        let base = Times::of(times_of(self.alloc, readings, Way::Loop)?)?;
        for (label, way) in WAYS {
            if self.trial.includes(way) {
                let times = Times::of(times_of(self.alloc, readings, way)?)?;
                report(self.rt, label, times, base)?;
            }
        }
        Ok(())
    }
}

// What a way took in each round.
fn times_of(alloc: Global, readings: &[Reading], way: Way) -> Result<Vec<u64>> {
    let mut times = Vec::new(alloc);
    for reading in readings {
        if reading.way == way {
            times.push(reading.time)?;
        }
    }
    Ok(times)
}

fn report(rt: &impl Print, label: &str, times: Times, base: Times) -> Result<()> {
    let best = Decimal::microseconds(times.best);
    let median = Decimal::microseconds(times.median);
    let best_ratio = Decimal::ratio(times.best, base.best).context("the clock stands still")?;
    let median_ratio = Decimal::ratio(times.median, base.median).context("the clock stands still")?;
    println!(rt;
        "{label}: best {best} us, median {median} us, {best_ratio} and {median_ratio} of the loop"
    )?;
    Ok(())
}
