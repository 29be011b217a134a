//! What the task of a spawned job sees of its end, and jobs that nobody waits for.
ghost use Rattle.std.specs.Prelude.{◌≡◌, ⊤};

use commonware_parallel::mocks::{Explorer, pending};
use commonware_parallel::{Fault, Job, Sequential, Spawned, Strategy};
use futures::task::Poll;
use futures::test::MockTask;
use std::alloc::{AllocGlobal, Global};
use std::process::Abort;
use std::random::RandomSource;
use std::sync::atomic::{AtomicBool, Ordering};
use std::sync::{Arc, Wait};
use std::thread::{Threads, yield_now};
use test_strategies::{SITE, Stopped, pool};
use test_support::{holds, number, same};

// Turns to wait for another thread.
const TURNS: u64 = 10_000_000;

// Whether the flag was seen within those turns.
fn is_raised(flag: &AtomicBool) -> bool {
    for _ in 0..TURNS {
        if flag.load(Ordering::SeqCst) {
            return true;
        }
        yield_now();
    }
    false
}

/// A job that returns its number.
#[derive(Drop)]
pub struct Gives(pub u64);

impl<S: Drop> Job<S, u64> for Gives {
    ghost may_run = { λ _ _. ⊤ };

    ghost may_answer = { λ job _ answer. answer ≡ job.0 };

    fn run_on(self, _strategy: S) -> u64 {
        self.0
    }
}

// Says that it began, and returns whether it then saw that it may end.
#[derive(Drop)]
struct Waits {
    begun: Arc<AtomicBool, Global>,
    may_end: Arc<AtomicBool, Global>,
}

impl<S: Drop> Job<S, bool> for Waits {
    ghost may_run = { λ _ _. ⊤ };

    ghost may_answer = { λ _ _ _. ⊤ };

    fn run_on(self, _strategy: S) -> bool {
        self.begun.store(true, Ordering::SeqCst);
        is_raised(&self.may_end)
    }
}

fn flag(rt: &impl Abort, alloc: Global) -> Arc<AtomicBool, Global> {
    Arc::new(alloc, AtomicBool::new(false)).expect(rt, "memory for a flag")
}

fn shared(rt: &impl Abort, flag: &Arc<AtomicBool, Global>) -> Arc<AtomicBool, Global> {
    Arc::try_clone(flag).expect(rt, "a handle")
}

#[test]
fn a_poll_before_a_jobs_end_is_pending_and_its_task_is_woken(rt: HostRuntime) {
    let alloc = rt.alloc();
    let two = pool(&rt, alloc, 2, 2).expect(&rt, "a pool");
    let (begun, may_end) = (flag(&rt, alloc), flag(&rt, alloc));
    let job = Waits {
        begun: shared(&rt, &begun),
        may_end: shared(&rt, &may_end),
    };
    let mut spawned = two.spawn(&rt, alloc, SITE, 1, job).expect(&rt, "a job");
    let task = MockTask::new(&rt).expect(&rt, "memory");
    holds!(&rt, is_raised(&begun));
    for _ in 0..3 {
        same!(&rt, task.poll(&mut spawned), Poll::Pending);
        holds!(&rt, !task.is_woken());
    }
    may_end.store(true, Ordering::SeqCst);
    for _ in 0..TURNS {
        if task.is_woken() {
            break;
        }
        yield_now();
    }
    holds!(&rt, task.is_woken());
    same!(&rt, task.poll(&mut spawned), Poll::Ready(true));
}

#[test]
fn a_job_that_nobody_waits_for_runs_all_the_same(rt: HostRuntime) {
    let alloc = rt.alloc();
    let two = pool(&rt, alloc, 2, 2).expect(&rt, "a pool");
    let (begun, may_end) = (flag(&rt, alloc), flag(&rt, alloc));
    may_end.store(true, Ordering::SeqCst);
    let job = Waits {
        begun: shared(&rt, &begun),
        may_end,
    };
    drop(two.spawn(&rt, alloc, SITE, 1, job).expect(&rt, "a job"));
    holds!(&rt, is_raised(&begun));
}

// Whether a job that is handed off gets no worker: it is pending, and was dropped.
fn is_never_run<
    Rt: Threads + Wait + RandomSource + AllocGlobal + Abort + Copy + Send + 'static,
    S: Strategy,
>(rt: &Rt, strategy: &S) -> bool {
    let begun = flag(rt, rt.alloc());
    let job = Waits {
        begun: shared(rt, &begun),
        may_end: flag(rt, rt.alloc()),
    };
    let spawned = strategy.spawn(rt, rt.alloc(), SITE, 1, job);
    let mut spawned = spawned.expect(rt, "a job");
    let is_waiting = !spawned.is_ready();
    let task = MockTask::new(rt).expect(rt, "memory");
    let is_pending = matches!(task.poll(&mut spawned), Poll::Pending);
    let is_gone = Arc::strong_count(&begun) == 1;
    is_waiting && is_pending && is_gone && !begun.load(Ordering::SeqCst)
}

#[test]
fn a_pool_without_workers_leaves_its_jobs_pending(rt: HostRuntime) {
    let alloc = rt.alloc();
    let idle = pending(&rt, alloc, number(2), Stopped).expect(&rt, "memory");
    holds!(&rt, is_never_run(&rt, &idle));
    let fixed = idle.without_policy().expect(&rt, "memory");
    holds!(&rt, is_never_run(&rt, &fixed));
    let explorer = Explorer::parallel(&idle).expect(&rt, "memory");
    holds!(&rt, is_never_run(&rt, &explorer));
    let single = Explorer::parallel(&pool(&rt, alloc, 1, 4).expect(&rt, "a pool"));
    let single = single.expect(&rt, "memory");
    let refused = single.spawn(&rt, alloc, SITE, 1, Gives(7));
    holds!(&rt, matches!(refused, Err(Fault::HandOff)));
}

#[test]
fn a_result_is_given_once(rt: HostRuntime) {
    let alloc = rt.alloc();
    let task = MockTask::new(&rt).expect(&rt, "memory");
    let ready = Strategy::spawn(&Sequential, &rt, alloc, SITE, 1, Gives(7));
    let mut ready = ready.expect(&rt, "memory");
    holds!(&rt, ready.is_ready());
    same!(&rt, task.poll(&mut ready), Poll::Ready(7));
    holds!(&rt, !ready.is_ready());
    same!(&rt, task.poll(&mut ready), Poll::Pending);
    same!(
        &rt,
        task.enter(|cx| Spawned::poll(&mut ready, cx)),
        Poll::Pending
    );
    let mut own = Sequential.spawn((), SITE, 1, Gives(7));
    holds!(&rt, own.is_ready());
    same!(&rt, own.take_ready(), Some(7));
    holds!(&rt, !own.is_ready());
    same!(&rt, own.take_ready(), None);
}
