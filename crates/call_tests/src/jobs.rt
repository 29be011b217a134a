//! Jobs: that they go on beside their caller and each other, and what a strategy is asked and told
//! of one.
use crate::asks::asked;
use crate::checks::{Test, equal, has};
use commonware_parallel::mocks::{Explorer, Rule};
use commonware_parallel::{Call, Strategy};
use futures::executor::block_on;
use std::sync::Arc;
use test_calls::clocks::Stepping;
use test_calls::every_call::Act;
use test_calls::logs::{self, OUTER, RAN};
use test_calls::meetings::Meeting;
use test_calls::noting::Noting;
use test_calls::steps::Does;
use test_calls::ways::{Row, THREADS, Way};
use test_strategies::{SITE, learning};

// Stops the test where jobs, each handed off after the one before, don't meet their caller.
fn jobs_meet_their_caller<S: Strategy>(rt: &impl Test, strategy: &S) {
    let alloc = rt.alloc();
    for jobs in [1usize, 2, 3] {
        let all = jobs.wrapping_add(1);
        let meeting = Arc::new(alloc, Meeting::of(all, 0)).expect(rt, "memory for a meeting");
        for job in 0..jobs {
            let shared = Arc::try_clone(&meeting).expect(rt, "a handle");
            let spawned = strategy.spawn(rt, alloc, SITE, 1, Does::Attends(shared));
            equal(rt, "a job", (job, spawned.is_ok()), (job, true));
        }
        meeting.attend();
        equal(rt, "jobs meet", meeting.most(), all);
    }
}

// A pool of one thread has its jobs run by who spawns them.
#[test]
fn jobs_meet_their_caller_whatever_the_number_of_threads(rt: HostRuntime) {
    let alloc = rt.alloc();
    for threads in &THREADS[1..] {
        let own = Noting::new(alloc, *threads).expect(&rt, "a log");
        own.log().hand_off();
        jobs_meet_their_caller(&rt, &own);
        // By this clock a job takes so long that its policy has it handed off.
        let clock = Stepping::new(alloc, 2_500_000).expect(&rt, "a clock");
        let pool = learning(&rt, alloc, *threads, clock).expect(&rt, "a pool");
        jobs_meet_their_caller(&rt, &pool);
        let explorer = Explorer::parallel(&pool).expect(&rt, "memory for a handle");
        jobs_meet_their_caller(&rt, &explorer);
    }
}

#[test]
fn a_job_is_asked_about_once_and_its_measure_begins_and_ends_aside(rt: HostRuntime) {
    let alloc = rt.alloc();
    let noting = Noting::new(alloc, 4).expect(&rt, "a log");
    let job = Does::Writes(noting.handle().expect(&rt, "a handle"));
    let spawned = noting.spawn(&rt, alloc, SITE, 5, job);
    noting.log().hand_off();
    let spawned = spawned.expect(&rt, "a job");
    let answer = block_on(&rt, spawned).expect(&rt, "a queue");
    equal(&rt, "a job", answer, 7);
    let of = Row::of(Way::Noting(4), Act::Rest, 5);
    let lines = [
        asked(Call::spawn(5)),
        (OUTER, logs::BEGUN, None),
        RAN,
        (OUTER, logs::ENDED, None),
    ];
    has(&rt, noting.log(), of, &lines);
}
