//! Policies and their keys: which key a result goes by, and what each call tells its policy.
use crate::checks::row;
use parallel_fault::{Fault, Trouble};
use parallel_policy::execution::{RunExecution, SpawnExecution};
use parallel_policy::history::SpawnSample;
use parallel_policy::key::Key;
use parallel_policy::policy::{INLINE_BUDGET, Policy};
use parallel_policy::site::Site;
use std::alloc::Global;
use std::collections::HashSet;
use std::process::Abort;
use std::sync::Wait;
use std::sync::atomic::{AtomicU64, Ordering};
use test_support::{holds, same};

/// A site of calls.
pub(crate) const SITE: Site = Site {
    file: "tests",
    line: 1,
    column: 1,
};

const P: RunExecution = RunExecution::Parallel;

const S: RunExecution = RunExecution::Serial;

fn fresh(rt: &impl Abort, alloc: Global) -> Policy {
    Policy::new(alloc).expect(rt, "memory")
}

fn handle(rt: &impl Abort, policy: &Policy) -> Policy {
    policy.clone().expect(rt, "memory")
}

// The same of a policy.
fn estimates_of(rt: &impl Wait, policy: &Policy, key: Key) -> Option<[Option<u64>; 2]> {
    let entry = policy.run_entry(rt, key)?;
    Some([entry.estimate(P), entry.estimate(S)])
}

#[test]
fn a_policy_records_the_run_that_it_is_told(rt: HostRuntime) {
    let key = Key::new(SITE, 64, 64, 4);
    let policy = fresh(&rt, rt.alloc());
    let shared = handle(&rt, &policy);
    for (at, path, measured, sample) in [
        (1, P, true, 100_000),
        (2, S, true, 95_001),
        (3, S, false, 95_001),
    ] {
        let choice = policy.choose_run(&rt, key, 4);
        row(&rt, at, choice, Ok((path, measured)));
        row(&rt, at, shared.record_run(&rt, key, path, sample), Ok(()));
    }
    let estimates = estimates_of(&rt, &policy, key);
    same!(&rt, estimates, Some([Some(100_000), Some(95_001)]));
    holds!(&rt, policy.spawn_entry(&rt, key).is_none());
}

// What a policy's samples of a key's jobs say, of their overhead and of their inline runs.
fn estimates_of_jobs(rt: &impl Wait, policy: &Policy, key: Key) -> Option<[Option<u64>; 3]> {
    let entry = policy.spawn_entry(rt, key)?;
    let job = entry.estimate(SpawnSample::Job);
    let overhead = entry.estimate(SpawnSample::Overhead);
    Some([job, overhead, entry.estimate(SpawnSample::InlineRun)])
}

// A job may keep its caller for a millisecond.
#[test]
fn records_of_jobs_feed_their_choices(rt: HostRuntime) {
    same!(&rt, INLINE_BUDGET, 1_000_000);
    let key = Key::new(SITE, 64, 64, 4);
    let other = Key::new(SITE, 64, 64, 5);
    let policy = fresh(&rt, rt.alloc());
    let shared = handle(&rt, &policy);
    let (inline, offload) = (SpawnExecution::Inline, SpawnExecution::Offload);
    for (at, key, way, measured) in [
        (1, key, offload, true),
        (2, key, inline, true),
        (3, key, inline, false),
        (4, other, offload, true),
    ] {
        let choice = policy.choose_spawn(&rt, key, INLINE_BUDGET);
        row(&rt, at, choice, Ok((way, measured)));
        let told = match at {
            1 => [
                shared.record_spawn_job(&rt, key, 25_003),
                policy.record_spawn_overhead(&rt, key, 10_002),
            ],
            2 => [shared.record_spawn_inline(&rt, key, 8_001), Ok(())],
            _ => [Ok(()), Ok(())],
        };
        row(&rt, at, told, [Ok(()), Ok(())]);
    }
    let estimates = estimates_of_jobs(&rt, &policy, key);
    let wanted = [Some(25_003), Some(10_002), Some(8_001)];
    same!(&rt, estimates, Some(wanted));
    same!(&rt, estimates_of_jobs(&rt, &policy, other), Some([None; 3]));
    holds!(&rt, policy.run_entry(&rt, key).is_none());
}

// A run over ten items planned for so many, by a clock that goes on by a step at each reading and
// by another one in each body. It returns its path, or fails by 57 where it is the one that fails.
fn run_of_ten<Rt: Wait>(
    rt: &Rt,
    policy: &Policy,
    planned: usize,
    (reading, body): (u64, u64),
    fails: Option<RunExecution>,
) -> Result<RunExecution, Trouble<u8>> {
    let told = AtomicU64::new(0);
    let ticks = &told;
    let now = move || ticks.fetch_add(reading, Ordering::SeqCst);
    policy.try_run(
        rt,
        SITE,
        10,
        10,
        planned,
        &now,
        move |path: RunExecution| -> Result<RunExecution, u8> {
            let _before = ticks.fetch_add(body, Ordering::SeqCst);
            if fails == Some(path) {
                Err(57)
            } else {
                Ok(path)
            }
        },
    )
}

#[test]
fn success_is_recorded_and_errors_are_not(rt: HostRuntime) {
    let policy = fresh(&rt, rt.alloc());
    let key = Key::new(SITE, 10, 10, 4);
    for (path, fails, estimates) in [
        (Err(Trouble::Closure(57)), Some(P), [None, None]),
        (Ok(P), None, [Some(1_200), None]),
        (Err(Trouble::Closure(57)), Some(S), [Some(1_200), None]),
    ] {
        let found = run_of_ten(&rt, &policy, 4, (1_000, 200), fails);
        row(&rt, fails, found, path);
        row(&rt, fails, estimates_of(&rt, &policy, key), Some(estimates));
    }
    for _ in 0..200 {
        let path = run_of_ten(&rt, &policy, 4, (1_000, 200), None);
        holds!(&rt, path.is_ok());
    }
    let estimates = estimates_of(&rt, &policy, key);
    same!(&rt, estimates, Some([Some(1_200), Some(1_200)]));
}

// A body and a clock that ask the same policy would wait forever if the policy's lock were held.
#[test]
fn a_body_runs_without_the_lock(rt: HostRuntime) {
    let policy = fresh(&rt, rt.alloc());
    let inner = handle(&rt, &policy);
    let body = move |path: RunExecution| -> Result<RunExecution, Fault> {
        let key = Key::new(SITE, 1, 1, 2);
        inner.record_run(&rt, key, path, 5)?;
        Ok(path)
    };
    let asked = handle(&rt, &policy);
    let now = move || {
        let _entry = asked.run_entry(&rt, Key::new(SITE, 1, 1, 2));
        0
    };
    let answer = policy.try_run(&rt, SITE, 64, 64, 4, &now, body);
    same!(&rt, answer, Ok(P));
    let estimates = estimates_of(&rt, &policy, Key::new(SITE, 1, 1, 2));
    same!(&rt, estimates, Some([Some(5), None]));
}

// How many of the keys differ from the first one and from each other, by their hashes and by `==`.
#[test]
fn keys_are_told_apart_by_each_part(rt: HostRuntime) {
    let mut all = HashSet::new(rt.alloc());
    for (file, line, column, len, work, parallelism, count) in [
        ("tests", 3, 5, 64, 64, 4, 1),
        ("others", 3, 5, 64, 64, 4, 2),
        ("tests", 4, 5, 64, 64, 4, 3),
        ("tests", 3, 6, 64, 64, 4, 4),
        ("tests", 3, 5, 63, 64, 4, 5),
        ("tests", 3, 5, 64, 128, 4, 6),
        ("tests", 3, 5, 64, 64, 5, 7),
        ("tests", 3, 5, 127, 100, 4, 7),
        ("tests", 3, 5, 1, 1, 4, 8),
        ("tests", 3, 5, 2, 2, 4, 9),
        ("tests", 3, 5, 3, 3, 4, 9),
    ] {
        let site = Site { file, line, column };
        let key = Key::new(site, len, work, parallelism);
        all.insert(key).expect(&rt, "memory");
        row(&rt, (line, column, len, work), all.len(), count);
    }
}
