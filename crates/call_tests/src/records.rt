//! What a policy keeps of each call through a pool: one entry, at the call's own key, with the time
//! between two readings of the clock recorded once.
//!
//! The clock's readings are the squares of whole milliseconds, so that the time between two of them
//! tells which two they were. Each call is made until a further time has moved its entry by a
//! fifth, so that one recorded twice shows.
ghost use Rattle.std.specs.Prelude.{⊤};

use crate::checks::{Test, all_acts, equal, row};
use crate::entries::job_times;
use commonware_parallel::policy::{Key, RunExecution};
use commonware_parallel::{Job, Policy, Rayon, Strategy, Trouble};
use futures::executor::block_on;
use std::alloc::Global;
use std::random::RandomSource;
use std::sync::Arc;
use std::sync::atomic::{AtomicU64, Ordering};
use test_calls::calls::Outcome;
use test_calls::clocks::Stepping;
use test_calls::every_call::{Act, does};
use test_calls::others::Rooted;
use test_calls::visits::{Times, Visitor};
use test_calls::ways::{Row, Way};
use test_strategies::{SITE, learning};
use test_support::number;

const MILLISECOND: u64 = 1_000_000;

/// A policy, the clock that it reads, and a pool of four threads that asks it.
#[derive(Drop)]
struct Asked {
    policy: Policy,
    // One that is asked and told the same, by hand.
    twin: Policy,
    readings: Arc<AtomicU64, Global>,
    pool: Rayon<Stepping>,
}

// A fresh policy, and a pool planned for that many.
fn planned(rt: &impl Test, planned: usize) -> Asked {
    let alloc = rt.alloc();
    let clock = Stepping::squares(alloc).expect(rt, "a clock");
    let readings = Arc::try_clone(&clock.reading).expect(rt, "a handle");
    let pool = learning(rt, alloc, 4, clock).expect(rt, "a pool");
    let policy = Policy::new(alloc).expect(rt, "memory for a policy");
    let own = policy.clone().expect(rt, "a handle");
    Asked {
        policy,
        twin: Policy::new(alloc).expect(rt, "memory for a policy"),
        readings,
        pool: pool.with_parallelism(number(planned)).with_policy(own),
    }
}

// A row of a pool by that clock.
fn row_of(act: Act, len: usize) -> Row {
    Row::of(Way::Learning(4, 1), act, len)
}

// The key of a call, planned for four.
fn key_of(act: Act, len: usize) -> Key {
    let call = act.question(len, 4);
    Key::new(SITE, call.len, call.work, 4)
}

impl Asked {
    // The twin is asked about such a run, and told the time between the clock's next two readings
    // where that is to be measured: how often the clock has been read then.
    fn follows(&self, rt: &impl Test, key: Key, readings: u64) -> u64 {
        let chosen = self.twin.choose_run(rt, key, 4);
        let (execution, is_measured) = chosen.expect(rt, "a choice");
        if !is_measured {
            return readings;
        }
        let milliseconds = readings.wrapping_mul(2).wrapping_add(1);
        let time = milliseconds.wrapping_mul(MILLISECOND);
        let told = self.twin.record_run(rt, key, execution, time);
        equal(rt, "told", told, Ok(()));
        readings.wrapping_add(2)
    }

    // The outcome of such a call through the pool.
    fn make(&self, rt: &impl Test, of: Row, visited: Visitor<'_>) -> Outcome {
        does(rt, &self.pool, of.act, of.len, visited)
    }

    fn readings(&self) -> u64 {
        self.readings.load(Ordering::SeqCst)
    }

    // Stops the test where the policy has other entries than these, which are of runs.
    fn has_runs(&self, rt: &impl Test, of: Row, runs: &str) {
        let alloc = rt.alloc();
        let written = format!(in alloc; "{:?}", self.policy).expect(rt, "memory");
        let begins = "Policy { table: Mutex { data: Table { runs: {";
        let ends = "}, spawns: {} }, poisoned: false, .. } }";
        let whole = format!(in alloc; "{begins}{runs}{ends}").expect(rt, "memory");
        row(rt, of, written.as_str(), whole.as_str());
    }

    // The time of runs in parallel that is kept at a key, where there is an entry.
    fn parallel_time(&self, rt: &impl Test, key: Key) -> Option<Option<u64>> {
        let entry = self.policy.run_entry(rt, key)?;
        Some(entry.estimate(RunExecution::Parallel))
    }
}

// Stops the test where a call that is made over and over leaves another entry than that of its key,
// which is the twin's, or where it reads the clock more or less often. It goes in parallel, then
// serially, and then in parallel again, of which the last but one is measured.
fn records(rt: &impl Test, act: Act) {
    let asked = planned(rt, 4);
    let (of, key) = (row_of(act, 16), key_of(act, 16));
    let mut readings = 0u64;
    for _ in 0..13u32 {
        let made = asked.make(rt, of, Visitor::Passes);
        readings = asked.follows(rt, key, readings);
        row(rt, of, (made, asked.readings()), (Ok(()), readings));
        let entry = asked.twin.run_entry(rt, key).expect(rt, "the twin's entry");
        let alone = format!(in rt.alloc(); "{key:?}: {entry:?}").expect(rt, "memory");
        asked.has_runs(rt, of, alone.as_str());
    }
    row(rt, of, readings, 6);
}

// A join has nothing to choose, a tree has an entry for each level, and a scan over a source is
// recorded twice.
#[test]
fn each_call_records_one_time_at_its_key(rt: HostRuntime) {
    for act in all_acts(&rt) {
        if !matches!(act, Act::Join | Act::Tree(_)) && !act.asks_twice() {
            records(&rt, act);
        }
    }
}

// Stops the test where a call through such a strategy isn't made, leaves an entry or reads the
// clock.
fn leaves_nothing(rt: &impl Test, asked: &Asked, strategy: &Rayon<Stepping>) {
    for act in all_acts(rt) {
        let of = row_of(act, 16);
        let made = does(rt, strategy, act, 16, Visitor::Passes);
        row(rt, of, (made, asked.readings()), (Ok(()), 0));
        asked.has_runs(rt, of, "");
    }
}

// Planned for one, a call has nothing to choose either, and a join never has.
#[test]
fn what_has_no_policy_leaves_no_entry(rt: HostRuntime) {
    let asked = planned(&rt, 4);
    let fixed = asked.pool.without_policy().expect(&rt, "memory");
    leaves_nothing(&rt, &asked, &fixed);
    let one = planned(&rt, 1);
    leaves_nothing(&rt, &one, &one.pool);
    let join = planned(&rt, 4);
    let of = row_of(Act::Join, 2);
    let made = join.make(&rt, of, Visitor::Passes);
    row(&rt, of, (made, join.readings()), (Ok(()), 0));
    join.has_runs(&rt, of, "");
}

// It was to be measured, and the clock was read before it. (A batch in which a map fails is told,
// where its closure can't fail.)
#[test]
fn a_call_that_fails_records_nothing(rt: HostRuntime) {
    for act in all_acts(&rt) {
        if act.may_fail() && !matches!(act, Act::Batch(..)) {
            let (asked, times, of) = (planned(&rt, 4), Times::new(), row_of(act, 16));
            let made = asked.make(&rt, of, Visitor::FailsAt(&times, 0));
            let kept = asked.parallel_time(&rt, key_of(act, 16));
            let found = (made, asked.readings(), kept);
            row(&rt, of, found, (Err(Trouble::Closure(7)), 1, Some(None)));
        }
    }
}

// Stops the test where a tree records otherwise than of calls of these lengths and works. Between
// the readings of each call were 1, 5, 9 milliseconds, and so on.
fn tree_records(rt: &impl Test, rooted: Rooted, count: usize, calls: &[(usize, usize)]) {
    let (asked, of) = (planned(rt, 4), row_of(Act::Tree(rooted), count));
    let made = asked.make(rt, of, Visitor::Passes);
    let twice = (calls.len() as u64).wrapping_mul(2);
    row(rt, of, (made, asked.readings()), (Ok(()), twice));
    let mut milliseconds = 1u64;
    for (len, work) in calls {
        let kept = asked.parallel_time(rt, Key::new(SITE, *len, *work, 4));
        let wanted = Some(Some(milliseconds.wrapping_mul(MILLISECOND)));
        row(rt, of, (len, work, kept), (len, work, wanted));
        milliseconds = milliseconds.wrapping_add(4);
    }
}

#[test]
fn a_tree_records_one_time_of_its_blocks_and_of_each_level(rt: HostRuntime) {
    let levels = [(4, 4), (2, 2), (1, 1)];
    tree_records(&rt, Rooted::ByLevels, 8, &levels);
    let of_leaves = [(4, 8), (2, 2), (1, 1)];
    tree_records(&rt, Rooted::OfLeavesByLevels, 8, &of_leaves);
    let blocks = [(32, 64), (16, 16), (8, 8), (4, 4), (2, 2), (1, 1)];
    for rooted in [Rooted::ByBlocks, Rooted::OfLeaves] {
        tree_records(&rt, rooted, 64, &blocks);
    }
}

impl Asked {
    // What the next job of that key is known to take, so that it is handed off, measured.
    fn knows_job(&self, rt: &impl Test, key: Key) {
        let first = self.policy.choose_spawn(rt, key, MILLISECOND);
        equal(rt, "first", first.is_ok(), true);
        let job = self.policy.record_spawn_job(rt, key, 50 * MILLISECOND);
        let overhead = self.policy.record_spawn_overhead(rt, key, 10 * MILLISECOND);
        equal(rt, "known", (job, overhead), (Ok(()), Ok(())));
    }
}

// A job that reads the clock, and returns how often it had been read.
#[derive(Drop)]
struct Reads {
    readings: Arc<AtomicU64, Global>,
}

impl<S: Drop> Job<S, u64> for Reads {
    ghost may_run = { λ _ _. ⊤ };

    ghost may_answer = { λ _ _ _. ⊤ };

    fn run_on(self, _strategy: S) -> u64 {
        self.readings.fetch_add(1, Ordering::SeqCst)
    }
}

// What such a job returns, once it has ended.
fn read_by_a_job(rt: &(impl Test + RandomSource), asked: &Asked) -> u64 {
    let readings = Arc::try_clone(&asked.readings).expect(rt, "a handle");
    let (pool, job) = (&asked.pool, Reads { readings });
    let spawned = pool.spawn(rt, rt.alloc(), SITE, 1, job);
    block_on(rt, spawned.expect(rt, "a job")).expect(rt, "a queue")
}

#[test]
fn a_job_records_its_own_time_and_its_hand_off_once(rt: HostRuntime) {
    let asked = planned(&rt, 7);
    // A job is keyed by the pool's number of threads, and not by the planning number.
    let key = Key::new(SITE, 1, 1, 4);
    asked.knows_job(&rt, key);
    equal(&rt, "read before a job", read_by_a_job(&rt, &asked), 2);
    // Chosen at 0, begun at 1 and ended at 9 milliseconds: the job took 8, and its hand-off 1.
    let times = job_times(&rt, &asked.policy, key);
    let known = [Some(41_600_000), Some(8_200_000), None];
    equal(&rt, "times", times, Some(known));
    equal(&rt, "readings", asked.readings(), 4);
    let of_runs = asked.policy.run_entry(&rt, key);
    equal(&rt, "runs", of_runs.is_none(), true);
}

#[test]
fn a_job_that_runs_inline_records_its_own_time_alone(rt: HostRuntime) {
    let asked = planned(&rt, 4);
    let key = Key::new(SITE, 1, 1, 4);
    asked.knows_job(&rt, key);
    // The choice that follows tries the other way; of those after it each tenth is measured.
    let known = asked.policy.record_spawn_inline(&rt, key, MILLISECOND / 2);
    equal(&rt, "known", known, Ok(()));
    for choice in 0..10u32 {
        let chosen = asked.policy.choose_spawn(&rt, key, MILLISECOND);
        equal(&rt, "a choice", (choice, chosen.is_ok()), (choice, true));
    }
    equal(&rt, "read before a job", read_by_a_job(&rt, &asked), 2);
    // Begun at 1 and ended at 9 milliseconds.
    let times = job_times(&rt, &asked.policy, key);
    let known = [Some(50_000_000), Some(10_000_000), Some(2_000_000)];
    equal(&rt, "times", times, Some(known));
    equal(&rt, "readings", asked.readings(), 4);
}
