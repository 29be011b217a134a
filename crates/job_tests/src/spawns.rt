//! Spawned jobs: where they run, and what a policy learns of them.
use crate::checks::{Of, row};
use crate::ends::Gives;
use commonware_parallel::mocks::{Explorer, Rule, inline};
use commonware_parallel::{Clock, Rayon, Sequential, Site, Strategy};
use futures::executor::block_on;
use std::alloc::{AllocGlobal, Global};
use std::process::Abort;
use std::random::RandomSource;
use std::sync::atomic::{AtomicU64, Ordering};
use std::sync::{Arc, Wait};
use std::thread::Threads;
use test_strategies::{SITE, learning, pool};
use test_support::{holds, number, same};

// Whether a job was handed off. It is waited for, and returns 7.
fn is_handed_off<
    Rt: Threads + Wait + RandomSource + AllocGlobal + Abort + Copy + Send + 'static,
    S: Strategy,
>(rt: &Rt, strategy: &S, site: Site) -> bool {
    let spawned = strategy.spawn(rt, rt.alloc(), site, 1, Gives(7));
    let spawned = spawned.expect(rt, "a job");
    let is_ready = spawned.is_ready();
    same!(rt, block_on(rt, spawned).expect(rt, "a queue"), 7);
    !is_ready
}

#[test]
fn a_job_runs_at_once_or_on_a_worker(rt: HostRuntime) {
    let alloc = rt.alloc();
    holds!(&rt, !is_handed_off(&rt, &Sequential, SITE));
    // It goes by the pool's threads, whatever the strategy is planned for.
    for (threads, planned, is_aside) in [(1, 1, false), (4, 4, true), (4, 1, true), (1, 4, false)] {
        let strategy = pool(&rt, alloc, threads, planned).expect(&rt, "a pool");
        let found = is_handed_off(&rt, &strategy, SITE);
        row(&rt, ("job", "a pool of threads", threads), found, is_aside);
    }
    let single = pool(&rt, alloc, 1, 1)
        .expect(&rt, "a pool")
        .without_workers();
    holds!(&rt, !is_handed_off(&rt, &single, SITE));
}

#[test]
fn an_explorer_spawns_by_its_rule(rt: HostRuntime) {
    let alloc = rt.alloc();
    let place = Site { file: "a", ..SITE };
    let strategy = pool(&rt, alloc, 4, 1).expect(&rt, "a pool");
    for (at, rule, is_aside) in [
        (0, Rule::Seeded(0), true),
        (1, Rule::Seeded(1), false),
        (2, Rule::Seeded(2), true),
        (3, Rule::Seeded(3), true),
        (4, Rule::Parallel, true),
        (5, Rule::Serial, false),
    ] {
        let explorer = Explorer::by_rule(&strategy, rule).expect(&rt, "memory");
        let of: Of = ("job", "an explorer, by the rule of that place", at);
        row(&rt, of, is_handed_off(&rt, &explorer, place), is_aside);
    }
}

// A clock that is read three times for each measured run: when it is chosen, when it begins,
// `overhead` later, and when it has ended, `time` after that.
#[derive(Clone, Debug, Drop)]
struct Scripted {
    readings: Arc<AtomicU64, Global>,
    time: u64,
    overhead: u64,
}

impl Scripted {
    fn new(rt: &impl Abort, alloc: Global, time: u64, overhead: u64) -> Scripted {
        Scripted {
            readings: Arc::new(alloc, AtomicU64::new(0)).expect(rt, "memory"),
            time,
            overhead,
        }
    }
}

impl Clock for Scripted {
    fn now(&self) -> u64 {
        match self.readings.fetch_add(1, Ordering::SeqCst) % 3 {
            0 => 0,
            1 => self.overhead,
            _ => self.overhead.wrapping_add(self.time),
        }
    }
}

// Which of the next jobs are handed off, one for each.
fn hand_offs<Rt: Threads + Wait + RandomSource + AllocGlobal + Abort + Copy + Send + 'static>(
    rt: &Rt,
    strategy: &Rayon<Scripted>,
    of: Of,
    wanted: [bool; 4],
) {
    for is_aside in wanted {
        row(rt, of, is_handed_off(rt, strategy, SITE), is_aside);
    }
}

#[test]
fn a_policy_weighs_a_job_against_its_hand_off(rt: HostRuntime) {
    // The first job is handed off, and the next one is the dearer way, to see what it costs.
    for (time, overhead, then) in [
        (2_000, 50_000, [true, true, false, false]),
        (1_000_000, 2_000_000, [true, true, false, false]),
        (1_000_001, 2_000_000, [true, true, true, true]),
        (50_000, 5_000, [true, false, true, true]),
    ] {
        let clock = Scripted::new(&rt, rt.alloc(), time, overhead);
        let strategy = learning(&rt, rt.alloc(), 4, clock).expect(&rt, "a pool");
        let of: Of = ("jobs", "a policy, by their time", time as usize);
        hand_offs(&rt, &strategy, of, then);
    }
}

#[test]
fn a_pool_of_one_thread_measures_no_job(rt: HostRuntime) {
    let alloc = rt.alloc();
    let clock = Scripted::new(&rt, alloc, 50_000, 5_000);
    let readings = Arc::try_clone(&clock.readings).expect(&rt, "a handle");
    let one = inline(&rt, alloc, number(4), clock).expect(&rt, "memory");
    holds!(&rt, !is_handed_off(&rt, &one, SITE));
    same!(&rt, readings.load(Ordering::SeqCst), 0);
}
