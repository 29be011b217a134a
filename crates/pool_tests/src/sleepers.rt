//! Threads that sleep as a pool's workers do: each sleeps until it is woken, and no longer.
ghost use Rattle.std.specs.Prelude.{◌≡◌};
ghost use Rattle.parallel_pool.specs.Latch.{IsLatchSeatOf};

use crate::checks::row;
use crate::latches::core_latch;
use crate::quiet::nobody_works;
use crate::tally::{Host, TURNS, awaits, becomes, handle, let_it_sleep, read};
use crossbeam_utils::sync::Parker;
use parallel_pool::latch::{CoreLatch, LatchSeat};
use parallel_pool::sleep::Sleep;
use std::num::NonZeroUsize;
use std::sync::atomic::{AtomicU64, Ordering};
use std::sync::{Arc, Wait};
use std::thread::{self, join};

// The sleep of one worker, and its parker.
fn one_sleep<R: Host>(rt: &R) -> (Sleep, Parker) {
    let (sleep, mut parkers) = Sleep::new(rt.alloc(), NonZeroUsize::MIN).expect(rt, "memory");
    (sleep, parkers.pop().expect(rt, "a parker"))
}

// The one worker of a sleep is idle for so many rounds, and before one of them a job comes, or one
// is there all the time. It returns in which round it is then, and which events it has recorded.
fn idle_for<R: Host>(
    rt: &R,
    sleep: &Sleep,
    parker: &Parker,
    rounds: u32,
    comes: Option<u32>,
) -> Option<(u32, Option<u32>)> {
    let (latch, mut seat) = core_latch(rt);
    let mut idle = sleep.start_looking(rt, 0)?;
    let is_there = comes.is_none();
    for round in 0..rounds {
        if comes == Some(round) {
            sleep.new_internal_jobs(rt, 1, true);
        }
        sleep.no_work_found(rt, &mut idle, parker, &latch, &mut seat, || is_there);
    }
    Some((idle.rounds(), idle.recorded()))
}

// A job that comes once the worker has announced itself has it announce itself anew. A worker that
// sleeps here never ends.
#[test]
fn a_worker_with_a_job_stays_awake(rt: HostRuntime) {
    for (rounds, comes, wanted, events) in [
        (34, None, (0, None), 0),
        (34, Some(33), (32, None), 1),
        (35, Some(33), (33, Some(2)), 2),
    ] {
        let (sleep, parker) = one_sleep(&rt);
        let found = idle_for(&rt, &sleep, &parker, rounds, comes);
        row(&rt, rounds, found, Some(wanted));
        row(&rt, rounds, sleep.counters(&rt).events(), events);
    }
}

// A worker of an index is idle until it has slept and was woken, which it counts: how many rounds
// that took, and how often it asked for jobs.
fn idles<R: Wait>(
    rt: &R,
    sleep: &Sleep,
    index: usize,
    parker: &Parker,
    latch: &CoreLatch,
    mut seat: LatchSeat,
    back: &AtomicU64,
) -> Option<(u64, u64)>
    requires { IsLatchSeatOf latch.now seat }
{
    let mut idle = sleep.start_looking(rt, index)?;
    let asked = AtomicU64::new(0);
    let mut rounds = 0u64;
    for _ in 0..1000u32 {
        let before = idle.rounds();
        sleep.no_work_found(rt, &mut idle, parker, latch, &mut seat, || {
            asked.fetch_add(1, Ordering::SeqCst);
            false
        });
        rounds = rounds.wrapping_add(1);
        if before == 33 && idle.rounds() == 0 {
            back.fetch_add(1, Ordering::SeqCst);
            return Some((rounds, read(&asked)));
        }
    }
    None
}

// What wakes a sleeper.
#[derive(Clone, Copy, Debug, PartialEq, Eq)]
enum Waker {
    InjectedJobs,
    InternalJobs,
    Notice,
    Latch,
}

// Wakes one worker.
fn wakes<R: Wait>(rt: &R, sleep: &Sleep, latch: &CoreLatch, waker: Waker) {
    match waker {
        Waker::InjectedJobs => sleep.new_injected_jobs(rt, 1, true),
        Waker::InternalJobs => sleep.new_internal_jobs(rt, 1, false),
        Waker::Notice => sleep.notify_worker_latch_is_set(rt, 0),
        Waker::Latch => {
            latch.set(&mut latch.newcomer());
            sleep.unpark_worker(0);
        }
    }
}

// Waits until so many workers sleep, for so many turns at most, and returns whether they do.
fn are_asleep(rt: &impl Wait, sleep: &Sleep, count: u16) -> bool {
    for _ in 0..TURNS {
        if sleep.counters(rt).sleeping() == count {
            return true;
        }
        thread::yield_now();
    }
    false
}

// The one worker sleeps, also where it is unparked and nobody has woken it.
fn sleeps_on<R: Host>(rt: &R, sleep: &Sleep, waker: Waker, back: &AtomicU64) {
    row(rt, waker, are_asleep(rt, sleep, 1), true);
    for stray in 0..3u32 {
        let_it_sleep(rt);
        let found = (sleep.counters(rt).sleeping(), read(back));
        row(rt, (waker, stray), found, (1, 0));
        sleep.unpark_worker(0);
    }
    nobody_works(rt, "asleep");
}

fn sleeps_until<R: Host>(rt: &R, waker: Waker, word: u64) {
    let (sleep, parker) = one_sleep(rt);
    let (latch, seat) = core_latch(rt);
    let back = AtomicU64::new(0);
    let (asleep, until, told) = (&sleep, &latch, &back);
    let (idled, ()) = join(
        rt,
        move || idles(rt, asleep, 0, &parker, until, seat, told),
        || {
            sleeps_on(rt, asleep, waker, told);
            wakes(rt, asleep, until, waker);
        },
    );
    let found = (idled, sleep.counters(rt).word());
    row(rt, waker, found, (Some((34, 1)), word));
}

#[test]
fn a_sleeper_sleeps_until_it_is_woken(rt: HostRuntime) {
    for (waker, word) in [
        (Waker::InjectedJobs, 4_295_032_832),
        (Waker::InternalJobs, 4_295_032_832),
        (Waker::Notice, 65_536),
        (Waker::Latch, 65_536),
    ] {
        sleeps_until(&rt, waker, word);
    }
}

// A worker of an index, in a thread of its own.
fn falls_asleep<R: Host>(
    rt: &R,
    sleep: &Arc<Sleep>,
    index: usize,
    parker: Parker,
    back: &Arc<AtomicU64>,
) {
    let (theirs, flag) = (handle(rt, sleep), handle(rt, back));
    let own = *rt;
    thread::spawn(rt, move || {
        let (latch, seat) = core_latch(&own);
        let _idled = idles(&own, &theirs, index, &parker, &latch, seat, &flag);
    })
    .expect(rt, "memory");
}

// Three workers that sleep, each in a thread of its own, with the count of those that are back.
fn three_asleep<R: Host>(rt: &R) -> (Arc<Sleep>, Arc<AtomicU64>) {
    let three = NonZeroUsize::MIN.saturating_add(2);
    let (sleep, parkers) = Sleep::new(rt.alloc(), three).expect(rt, "memory");
    let sleep = Arc::new(rt.alloc(), sleep).expect(rt, "memory");
    let back = Arc::new(rt.alloc(), AtomicU64::new(0)).expect(rt, "memory");
    let mut count = 0u16;
    for parker in parkers {
        falls_asleep(rt, &sleep, usize::from(count), parker, &back);
        count = count.wrapping_add(1);
        row(rt, count, are_asleep(rt, &sleep, count), true);
    }
    (sleep, back)
}

#[test]
fn a_job_wakes_one_of_three_sleepers(rt: HostRuntime) {
    for waker in [Waker::InjectedJobs, Waker::InternalJobs, Waker::Notice] {
        let (sleep, back) = three_asleep(&rt);
        let (latch, _seat) = core_latch(&rt);
        wakes(&rt, &sleep, &latch, waker);
        let is_back = becomes(&back, 1);
        let_it_sleep(&rt);
        let found = (is_back, sleep.counters(&rt).sleeping(), read(&back));
        row(&rt, waker, found, (true, 2, 1));
        sleep.notify_worker_latch_is_set(&rt, 1);
        sleep.notify_worker_latch_is_set(&rt, 2);
        awaits(&rt, &back, 3, "all are woken in the end");
    }
}
