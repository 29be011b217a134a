//! What a policy has of the calls of strategies that it was handed to: at which keys there are
//! entries, and the times that they keep; of a call that is refused that it was asked, where it
//! was, and no time. Each measured run takes as long as the clock goes on by at each reading.
use crate::blocks::wait_for_job;
use crate::checks::{Test, equal, held, row};
use crate::requests::{Fate, Path, all_but_one, bare_acts, fate_of, laden_acts, len_of};
use commonware_parallel::policy::{Key, RunExecution, SpawnExecution, SpawnSample};
use commonware_parallel::{Batches, Clock, Fault, Policy, Rayon, Site, Strategy, Trouble};
use std::num::NonZeroUsize;
use test_calls::clocks::Stepping;
use test_calls::every_call::{Act, does};
use test_calls::steps::Gives;
use test_calls::visits::{self, Visitor};
use test_calls::ways::{Row, Way};
use test_strategies::{SITE, learning, parallel, serial};
use test_support::no_memory::{all_memory, all_places};
use test_support::number;

/// The times of runs in parallel and of serial ones, where there is an entry.
pub type Times = Option<(Option<u64>, Option<u64>)>;

/// What a policy keeps of a call site, for a length and a work, planned for four threads.
pub fn times(rt: &impl Test, policy: &Policy, site: Site, len: usize, work: usize) -> Times {
    let entry = policy.run_entry(rt, Key::new(site, len, work, 4))?;
    let parallel = entry.estimate(RunExecution::Parallel);
    Some((parallel, entry.estimate(RunExecution::Serial)))
}

// By how much the clocks go on.
const STEP: u64 = 100_000;

// One measured run in parallel.
const ONCE: Times = Some((Some(100_000), None));

// One measured run each way.
const BOTH: Times = Some((Some(100_000), Some(100_000)));

fn fresh(rt: &impl Test) -> Policy {
    Policy::new(rt.alloc()).expect(rt, "memory for a policy")
}

// A pool of four threads with a policy of its own, by a clock that goes on by so much at each
// reading.
fn by_step(rt: &impl Test, step: u64) -> Rayon<Stepping> {
    let clock = Stepping::new(rt.alloc(), step).expect(rt, "a clock");
    learning(rt, rt.alloc(), 4, clock).expect(rt, "a pool")
}

/// The same, for which that policy chooses.
pub fn by_policy(rt: &impl Test, policy: &Policy, step: u64) -> Rayon<Stepping> {
    by_step(rt, step).with_policy(policy.clone().expect(rt, "a handle"))
}

// Stops the test where a run over 16 items doesn't take that body, or where the policy then keeps
// other times of it.
fn takes(
    rt: &impl Test,
    strategy: &Rayon<Stepping>,
    policy: &Policy,
    (turn, body, kept): (u32, &'static str, Times),
) {
    let taken = strategy.run(rt, rt.alloc(), SITE, 16, serial, parallel);
    let found = (turn, taken, times(rt, policy, SITE, 16, 16));
    equal(rt, "a run", found, (turn, Ok(body), kept));
}

#[test]
fn strategies_over_one_policy_learn_from_each_other(rt: HostRuntime) {
    let policy = fresh(&rt);
    let first = by_policy(&rt, &policy, STEP);
    let second = by_policy(&rt, &policy, STEP);
    takes(&rt, &first, &policy, (1, "parallel", ONCE));
    takes(&rt, &second, &policy, (2, "serial", BOTH));
    takes(&rt, &first, &policy, (3, "serial", BOTH));
    // A strategy with a policy of its own has learnt nothing, and tells them nothing.
    let other = by_step(&rt, STEP);
    let own = other.policy().expect(&rt, "a policy");
    equal(&rt, "its own", times(&rt, own, SITE, 16, 16), None);
    takes(&rt, &other, own, (5, "parallel", ONCE));
    equal(&rt, "theirs", times(&rt, &policy, SITE, 16, 16), BOTH);
}

// Stops the test where a batch hasn't so many ranges, or the policy then other times of it.
fn ranges(
    rt: &impl Test,
    strategy: &Rayon<Stepping>,
    policy: &Policy,
    (len, minimum): (usize, NonZeroUsize),
    (wanted, kept): (usize, Times),
) {
    let count = |batches: Batches<'_, Rayon<Stepping>, Site>| batches.ranges().len();
    let ranges = strategy.run_batches(rt, rt.alloc(), SITE, len, minimum, 1, count);
    let found = (len, ranges, times(rt, policy, SITE, len, len));
    equal(rt, "a batch", found, (len, Ok(wanted), kept));
}

// One that may be cut is, or is whole, as its policy chooses.
#[test]
fn a_batch_that_is_too_short_to_be_cut_has_no_entry(rt: HostRuntime) {
    let policy = fresh(&rt);
    let strategy = by_policy(&rt, &policy, STEP);
    let eight = number(8);
    for len in [0usize, 1, 7, 8, 15] {
        ranges(&rt, &strategy, &policy, (len, eight), (1, None));
    }
    let most = (usize::MAX, NonZeroUsize::MAX);
    ranges(&rt, &strategy, &policy, most, (1, None));
    ranges(&rt, &strategy, &policy, (16, eight), (2, ONCE));
    ranges(&rt, &strategy, &policy, (16, eight), (1, BOTH));
}

#[test]
fn a_run_is_kept_by_its_length_and_its_work(rt: HostRuntime) {
    let policy = fresh(&rt);
    let clock = Stepping::new(rt.alloc(), STEP).expect(&rt, "a clock");
    let now = || clock.now();
    let takes = |path: RunExecution| -> Result<RunExecution, u32> { Ok(path) };
    let ran = policy.try_run(&rt, SITE, 16, 80, 4, &now, takes);
    equal(&rt, "ran", ran, Ok(RunExecution::Parallel));
    for (len, work, kept) in [
        (16, 80, ONCE),
        (80, 16, None),
        (16, 16, None),
        (80, 80, None),
    ] {
        let found = (len, work, times(&rt, &policy, SITE, len, work));
        equal(&rt, "kept", found, (len, work, kept));
    }
}

// A job is handed off twice; each tenth time after that it is measured inline, where it is short.
#[test]
fn each_time_is_kept_as_it_is(rt: HostRuntime) {
    for step in [0, 1, 50, 999_999_999, 1_000_000_001, 3_600_000_000_000] {
        let policy = fresh(&rt);
        let strategy = by_policy(&rt, &policy, step);
        let once = Some((Some(step), None));
        takes(&rt, &strategy, &policy, (1, "parallel", once));
        for _ in 0..12u32 {
            wait_for_job(&rt, &strategy);
        }
        let jobs = job_times(&rt, &policy, Key::new(SITE, 1, 1, 4));
        let inline = if step > 50 { None } else { Some(step) };
        equal(&rt, "jobs", jobs, Some([Some(step), Some(step), inline]));
    }
}

const SECOND: u64 = 1_000_000_000;

const SERIAL: RunExecution = RunExecution::Serial;

// What is known before each call.
const KNOWN: Times = Some((Some(100_000), Some(95_000)));

// A policy that knows a parallel run of 100000 nanoseconds and a serial one of 95000, and has then
// made nine choices for four threads. The tenth one is to be serial and measured.
fn after_nine_choices(rt: &impl Test, key: Key) -> Policy {
    let policy = Policy::new(rt.alloc()).expect(rt, "memory for a policy");
    let first = policy.record_run(rt, key, RunExecution::Parallel, 100_000);
    let second = policy.record_run(rt, key, SERIAL, 95_000);
    equal(rt, "records", (first, second), (Ok(()), Ok(())));
    for _ in 1..10u32 {
        let chosen = policy.choose_run(rt, key, 4);
        equal(rt, "a choice", chosen, Ok((SERIAL, false)));
    }
    policy
}

// Stops the test where a call that is refused is recorded, or is counted as a choice where it is
// refused unasked.
fn is_unrecorded(rt: &impl Test, act: Act, starves: bool) {
    let len = len_of(act);
    let call = act.question(len, 4);
    let key = Key::new(SITE, call.len, call.work, 4);
    let policy = after_nine_choices(rt, key);
    let strategy = by_policy(rt, &policy, SECOND);
    let calls = visits::Times::new();
    let visited = if starves {
        Visitor::Starves(&calls)
    } else {
        Visitor::Counts(&calls)
    };
    let made = does(rt, &strategy, act, len, visited);
    let way = Way::Learning(4, SECOND);
    let of = Row { way, act, len };
    let known = times(rt, &policy, SITE, call.len, call.work);
    let refused = Err(Trouble::Fault(Fault::Memory));
    row(rt, of, (made, known), (refused, KNOWN));
    let is_next = fate_of(act, Path::Serial) == Fate::RefusedUnasked;
    row(rt, of, policy.choose_run(rt, key, 4), Ok((SERIAL, is_next)));
}

// Whether such a call is refused. (Of a tree each level has an entry, and tiles are asked about by
// their work.)
fn is_refused(act: Act) -> bool {
    fate_of(act, Path::Serial) != Fate::Succeeds && !matches!(act, Act::Tree(_) | Act::Fill(..))
}

#[test]
fn a_run_that_is_refused_is_not_recorded(rt: HostRuntime) {
    let (bare, laden) = (bare_acts(&rt), laden_acts(&rt));
    let all = all_places(rt.alloc()).expect(&rt, "places that have an end");
    for act in bare.iter() {
        if is_refused(*act) {
            is_unrecorded(&rt, *act, false);
        }
    }
    let all = all_but_one(all);
    for act in laden.iter() {
        if is_refused(*act) {
            is_unrecorded(&rt, *act, true);
        }
    }
    drop(all);
}

// Spawns jobs with more and more memory until a worker is refused: how often memory was, before
// that.
fn refused_jobs(rt: &impl Test, strategy: &Rayon<Stepping>) -> u64 {
    let (alloc, mut refused) = (rt.alloc(), 0u64);
    for step in 0..60usize {
        let taken = 4_096usize.saturating_sub(step.saturating_mul(16));
        let plug = Vec::<u8>::with_capacity(alloc, taken).expect(rt, "room for the rest");
        match strategy.spawn(rt, alloc, SITE, 1, Gives(7)) {
            Err(Fault::Memory) => refused = refused.saturating_add(1),
            Err(fault) => {
                equal(rt, "a refused job", fault, Fault::Worker);
                return refused;
            }
            Ok(_) => panic!(rt; "a job was handed off with {taken} bytes taken"),
        }
        drop(plug);
    }
    panic!(rt; "no worker was refused")
}

/// What a policy's samples of a key's jobs, of their hand-offs and of inline runs say.
pub fn job_times(rt: &impl Test, policy: &Policy, key: Key) -> Option<[Option<u64>; 3]> {
    let entry = policy.spawn_entry(rt, key)?;
    let job = entry.estimate(SpawnSample::Job);
    let overhead = entry.estimate(SpawnSample::Overhead);
    Some([job, overhead, entry.estimate(SpawnSample::InlineRun)])
}

#[test]
fn a_spawn_that_is_refused_is_not_recorded(rt: HostRuntime) {
    let policy = Policy::new(rt.alloc()).expect(&rt, "memory");
    let strategy = by_policy(&rt, &policy, SECOND);
    let key = Key::new(SITE, 1, 1, 4);
    let wanted = Ok((SpawnExecution::Offload, true));
    let first = policy.choose_spawn(&rt, key, 1_000_000);
    equal(&rt, "first", first, wanted);
    let room = Vec::<u8>::with_capacity(rt.alloc(), 4_096).expect(&rt, "memory");
    if let Some(all) = all_memory(rt.alloc()) {
        drop(room);
        let refused = refused_jobs(&rt, &strategy);
        drop(all);
        held(&rt, "some jobs are refused", refused > 0);
    }
    let known = job_times(&rt, &policy, key);
    equal(&rt, "times", known, Some([None, None, None]));
    let of_runs = policy.run_entry(&rt, key);
    held(&rt, "no entry of a run", of_runs.is_none());
    let next = policy.choose_spawn(&rt, key, 1_000_000);
    equal(&rt, "next", next, wanted);
}
