//! Entries of runs and of spawned jobs, by rows of what happens to a fresh one and what it returns.
use crate::checks::row;
use parallel_policy::execution::{RunExecution, SpawnExecution};
use parallel_policy::history::SpawnSample;
use parallel_policy::policy::INLINE_BUDGET;
use parallel_policy::run::RunEntry;
use parallel_policy::spawn::SpawnEntry;
use std::process::Abort;
use test_support::same;

// One step of a row of runs.
#[derive(Clone, Copy)]
enum Run {
    // A sample of a path, in nanoseconds.
    Took(RunExecution, u64),
    // One choice and its result.
    Says(RunExecution, bool),
    // So many choices: all but the last of one path, measured at each tenth; the last of another,
    // measured.
    Waits(RunExecution, u32, RunExecution),
    // What the samples of a path say.
    Keeps(RunExecution, Option<u64>),
}

use Run::{Keeps, Says, Took, Waits};

const P: RunExecution = RunExecution::Parallel;

const S: RunExecution = RunExecution::Serial;

// So many choices of `path` but for the last, which is of `last`.
fn wait(
    rt: &impl Abort,
    entry: &mut RunEntry,
    parallelism: usize,
    path: RunExecution,
    calls: u32,
    last: RunExecution,
) {
    for call in 1..calls {
        let answer = entry.choose(parallelism);
        row(rt, ("call", call), answer, (path, call % 10 == 0));
    }
    let answer = entry.choose(parallelism);
    row(rt, ("last", calls), answer, (last, true));
}

// A fresh entry goes through all steps.
fn play(rt: &impl Abort, name: &'static str, parallelism: usize, steps: &[Run]) {
    let mut entry = RunEntry::default();
    let mut at = 0u32;
    for step in steps {
        match *step {
            Took(path, sample) => entry.record(path, sample),
            Says(path, measured) => {
                row(rt, (name, at), entry.choose(parallelism), (path, measured));
            }
            Waits(path, calls, last) => wait(rt, &mut entry, parallelism, path, calls, last),
            Keeps(path, estimate) => row(rt, (name, at), entry.estimate(path), estimate),
        }
        at = at.wrapping_add(1);
    }
}

#[test]
fn a_fresh_entry_runs_in_parallel_and_then_tries_the_serial_path(rt: HostRuntime) {
    let steps = [
        Says(P, true),
        Took(P, 100_000),
        Says(S, true),
        Took(S, 95_000),
        Waits(S, 100, P),
    ];
    play(&rt, "seeds", 4, &steps);
    let steps = [
        Says(P, true),
        Took(P, 10_000_000),
        Says(P, true),
        Keeps(S, None),
        Waits(P, 100, P),
    ];
    play(&rt, "too dear to seed", 4, &steps);
    let steps = [
        Took(P, 250_000),
        Waits(P, 100, S),
        Waits(P, 100, S),
        Took(S, 1_000_000),
        Says(P, false),
    ];
    play(&rt, "a seed that isn't recorded", 4, &steps);
    let (long, short, waits) = (Took(P, 10_000_000), Took(P, 100_000), Waits(P, 100, S));
    let steps = [long, short, short, short, short, short, short, short, waits];
    play(&rt, "shrinks into the budget", 4, &steps);
}

#[test]
fn work_over_the_budget_never_runs_serially(rt: HostRuntime) {
    let waits = Waits(P, 100, P);
    let steps = [Took(P, 10_000_000), waits, waits, Keeps(S, None)];
    play(&rt, "projection over the budget", 4, &steps);
    let steps = [Took(P, 30_000_000), Took(S, 12_000_000), waits, waits];
    play(&rt, "both over the budget", 4, &steps);
    let steps = [Took(P, 25_000_000), Took(S, 8_000_000), waits, waits];
    play(&rt, "projection alone over the budget", 12, &steps);
    let steps = [Took(P, 2_500_000), Took(S, 1), waits];
    play(&rt, "projection at the budget", 4, &steps);
}

#[test]
fn the_faster_path_is_preferred_and_serial_on_a_tie(rt: HostRuntime) {
    for (parallel, serial, path) in [
        (100_000, 95_000, S),
        (100_000, 200_000, P),
        (100_000, 100_000, S),
        (2_499_999, 2_499_999, S),
    ] {
        let steps = [Took(P, parallel), Took(S, serial), Says(path, false)];
        play(&rt, "preferred", 4, &steps);
    }
}

#[test]
fn the_loser_is_probed_the_less_the_slower_it_is(rt: HostRuntime) {
    for (parallel, serial, path, calls, probe) in [
        (100_000, 80_000, S, 100, P),
        (100_000, 150_000, P, 100, S),
        (250_000, 100_000, S, 200, P),
        (100_000, 410_000, P, 800, S),
        (100_000, 900_000, P, 3200, S),
        (500_000, 15_000_000, P, 3200, S),
    ] {
        let (first, second) = (Took(P, parallel), Took(S, serial));
        play(
            &rt,
            "probed",
            4,
            &[first, second, Waits(path, calls, probe)],
        );
    }
}

#[test]
fn later_samples_move_an_estimate_by_a_fifth(rt: HostRuntime) {
    for (path, first, second, estimate) in [
        (P, 10_000_000, 20_000_000, 12_000_000),
        (S, 100, 200, 120),
        (P, 100, 200, 120),
        (S, 100_000_000, 5_000_000, 81_000_000),
        (S, 15_000_000, 300_000, 12_060_000),
        (S, 3_000_000, 20_000, 2_404_000),
        (S, u64::MAX, 0, 14_757_395_258_967_641_292),
    ] {
        let steps = [
            Took(path, first),
            Took(path, second),
            Keeps(path, Some(estimate)),
        ];
        play(&rt, "blended", 4, &steps);
    }
    let steps = [
        Took(P, 800_000),
        Took(S, 3_000_000),
        Says(P, false),
        Took(S, 20_000),
        Says(P, false),
    ];
    play(&rt, "one fast probe doesn't turn the preference", 4, &steps);
}

// A parallel estimate that was measured too long comes down by its probes: 2 ms, 1.7, 1.46, 1.268,
// 1.1144 and 0.99152, the first after 200 choices and the others after 100 each.
#[test]
fn an_estimate_recovers_by_its_probes(rt: HostRuntime) {
    let (long, serial, first) = (Took(P, 2_000_000), Took(S, 1_000_000), Waits(S, 200, P));
    let (probe, waits) = (Took(P, 500_000), Waits(S, 100, P));
    let (keeps, says) = (Keeps(P, Some(991_520)), Says(P, false));
    let steps = [
        long, serial, first, probe, waits, probe, waits, probe, waits, probe, waits, probe, keeps,
        says,
    ];
    play(&rt, "recovers", 4, &steps);
}

// One step of a row of jobs.
#[derive(Clone, Copy)]
enum Job {
    // A job on a worker and its overhead, in nanoseconds.
    HandsOff(u64, u64),
    // A job inline, in nanoseconds.
    RunsInline(u64),
    // One choice and its result.
    Answers(SpawnExecution, bool),
    // So many choices: all but the last of one way, measured at each tenth; the last of another,
    // measured.
    Goes(SpawnExecution, u32, SpawnExecution),
    // What the inline samples say.
    Has(u64),
}

use Job::{Answers, Goes, HandsOff, Has, RunsInline};

const INLINE: SpawnExecution = SpawnExecution::Inline;

const OFFLOAD: SpawnExecution = SpawnExecution::Offload;

// So many choices of `way` but for the last, which is of `last`.
fn go(
    rt: &impl Abort,
    entry: &mut SpawnEntry,
    way: SpawnExecution,
    calls: u32,
    last: SpawnExecution,
) {
    for call in 1..calls {
        let answer = entry.choose(INLINE_BUDGET);
        row(rt, ("call", call), answer, (way, call % 10 == 0));
    }
    let answer = entry.choose(INLINE_BUDGET);
    row(rt, ("last", calls), answer, (last, true));
}

// A fresh entry goes through all steps.
fn play_jobs(rt: &impl Abort, name: &'static str, steps: &[Job]) {
    let mut entry = SpawnEntry::default();
    let mut at = 0u32;
    for step in steps {
        match *step {
            HandsOff(job, overhead) => {
                entry.record_job(job);
                entry.record_overhead(overhead);
            }
            RunsInline(inline) => entry.record_inline(inline),
            Answers(way, measured) => {
                row(rt, (name, at), entry.choose(INLINE_BUDGET), (way, measured));
            }
            Goes(way, calls, last) => go(rt, &mut entry, way, calls, last),
            Has(inline) => {
                let estimate = entry.estimate(SpawnSample::InlineRun);
                row(rt, (name, at), estimate, Some(inline));
            }
        }
        at = at.wrapping_add(1);
    }
}

#[test]
fn a_fresh_entry_hands_off_and_then_looks_at_once(rt: HostRuntime) {
    let steps = [
        Answers(OFFLOAD, true),
        HandsOff(2_000, 50_000),
        Answers(OFFLOAD, true),
        HandsOff(2_000, 50_000),
        Answers(INLINE, false),
    ];
    play_jobs(&rt, "a job below the overhead", &steps);
    let steps = [
        Answers(OFFLOAD, true),
        HandsOff(50_000, 5_000),
        Answers(INLINE, true),
        RunsInline(50_000),
        Goes(OFFLOAD, 3200, INLINE),
    ];
    play_jobs(&rt, "a job above the overhead", &steps);
    let steps = [
        Answers(OFFLOAD, true),
        HandsOff(25_000, 10_000),
        Answers(INLINE, true),
        RunsInline(8_000),
        Answers(INLINE, false),
    ];
    play_jobs(&rt, "a job that is faster inline", &steps);
}

#[test]
fn the_budget_caps_inline_jobs(rt: HostRuntime) {
    let (hands, first) = (HandsOff(1_000_000, 2_000_000), Answers(OFFLOAD, true));
    let steps = [first, hands, first, Answers(INLINE, false)];
    play_jobs(&rt, "a job at the budget", &steps);
    let hands = HandsOff(1_000_001, 2_000_000);
    let steps = [first, hands, first, Goes(OFFLOAD, 100, OFFLOAD)];
    play_jobs(&rt, "a job over the budget", &steps);
    let hands = HandsOff(2_000_000, 50_000_000);
    let steps = [first, hands, first, Goes(OFFLOAD, 200, OFFLOAD)];
    play_jobs(&rt, "an overhead that is inflated", &steps);
}

#[test]
fn the_inline_estimate_decides_once_there_is_one(rt: HostRuntime) {
    let (short, inline) = (RunsInline(2_000), Answers(INLINE, false));
    let steps = [
        HandsOff(2_000, 50_000),
        short,
        inline,
        RunsInline(500_000),
        Has(101_600),
        Answers(OFFLOAD, false),
    ];
    play_jobs(&rt, "a job that grows", &steps);
    let steps = [
        HandsOff(2_000, 50_000),
        short,
        RunsInline(100_000),
        Has(21_600),
        inline,
    ];
    play_jobs(&rt, "one long run", &steps);
}

#[test]
fn a_hand_off_is_probed_the_less_the_slower_it_is(rt: HostRuntime) {
    let steps = [HandsOff(30_000, 50_000), Goes(INLINE, 100, OFFLOAD)];
    play_jobs(&rt, "less than twice the job", &steps);
    let steps = [HandsOff(2_000, 50_000), Goes(INLINE, 3200, OFFLOAD)];
    play_jobs(&rt, "25 times the job", &steps);
}

// An inline estimate that one long run spoiled comes down again by its probes.
#[test]
fn an_inline_estimate_recovers_by_its_probes(rt: HostRuntime) {
    let mut entry = SpawnEntry::default();
    entry.record_job(2_000);
    entry.record_overhead(50_000);
    entry.record_inline(15_000_000);
    let mut probes = 0u32;
    for _ in 0..100_000 {
        match entry.choose(INLINE_BUDGET) {
            (SpawnExecution::Inline, false) => break,
            (SpawnExecution::Inline, true) => {
                probes = probes.wrapping_add(1);
                entry.record_inline(2_000);
            }
            (SpawnExecution::Offload, _) => {}
        }
    }
    // (15 ms less a fifth, 26 times over, is below 50000 ns)
    same!(&rt, probes, 26);
}
