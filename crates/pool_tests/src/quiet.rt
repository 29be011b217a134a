//! That whoever waits takes no time of a processor: an idle worker, and whoever waits for a latch
//! or closes a pool.
ghost use Rattle.std.specs.Prelude.{◌≡◌};

use crate::brought::{ALL, leads};
use crate::checks::row;
use crate::latches::give_all;
use crate::tally::{
    Act, Host, Tally, added, awaits, becomes, built, empty_tally, handle, let_it_sleep, push_by,
    read,
};
use parallel_pool::latch::{CountLatch, LockLatch};
use parallel_pool::rayon::{Execute, Queue, ThreadPool, ThreadPoolBuilder, install};
use std::num::NonZeroUsize;
use std::process::Abort;
use std::sync::atomic::{AtomicU64, Ordering};
use std::sync::{Arc, Wait};
use std::thread::join;
use std::time::CpuClock;
use test_support::holds;

// For how long a wait goes on, and how much of that whoever waits may work, in nanoseconds: both
// are of a thread's own time, so that on a busy machine a wait is longer.
const LONG: u128 = 120_000_000;

const SHORT: u128 = 30_000_000;

// How much threads that sleep may work, but for a try or two: on a busy machine one that polls works
// but little.
const LITTLE: u128 = 200_000;

// The time that this thread has worked, in nanoseconds.
fn own_time(rt: &(impl CpuClock + Abort)) -> u128 {
    let time = rt.thread_cpu_time().expect(rt, "a time");
    time.as_nanos()
}

// Works for so long, and leaves the processor to nobody.
fn works(rt: &(impl CpuClock + Abort), long: u128) {
    let before = own_time(rt);
    for _ in 0..1_000_000_000u64 {
        if own_time(rt).saturating_sub(before) > long {
            break;
        }
    }
}

// The time that all other threads have worked.
fn worked(rt: &(impl CpuClock + Abort)) -> u128 {
    let time = rt.process_cpu_time().expect(rt, "a time");
    time.as_nanos().saturating_sub(own_time(rt))
}

/// Stops the test where the other threads of this process work on while they are to wait.
pub(crate) fn nobody_works<R: Host>(rt: &R, at: &str) {
    let mut least = LONG;
    for _ in 0..20 {
        let before = worked(rt);
        works(rt, LONG);
        least = least.min(worked(rt).saturating_sub(before));
        if least < LITTLE {
            return;
        }
    }
    row(rt, ("nanoseconds of others", at), least, 0);
}

#[test]
fn idle_workers_take_no_time(rt: HostRuntime) {
    let mut led = leads(&rt, 4);
    let_it_sleep(&rt);
    nobody_works(&rt, "before the first job");
    for brought in ALL {
        let wanted = read(&led.tally.called).wrapping_add(1);
        let came = led.brings(&rt, brought, 1, Act::Adds(1));
        let is_called = becomes(&led.tally.called, wanted);
        row(
            &rt,
            ("came, called", brought),
            (came, is_called),
            (true, true),
        );
        let_it_sleep(&rt);
        nobody_works(&rt, "after a job");
    }
    led.ends(&rt);
}

// A job that waits for a latch and takes no time meanwhile, once it has told a tally.
#[derive(Drop)]
struct Quiet<R: Wait + Drop> {
    rt: R,
    tally: Arc<Tally>,
    latch: Arc<LockLatch>,
}

impl<R: Wait + Drop> Execute for Quiet<R> {
    fn execute(self, _index: usize) {
        let Quiet { rt, tally, latch } = self;
        tally.entered.fetch_add(1, Ordering::SeqCst);
        latch.wait(&rt);
    }
}

// A latch for such jobs.
fn lock_latch<R: Host>(rt: &R) -> Arc<LockLatch> {
    Arc::new(rt.alloc(), LockLatch::new()).expect(rt, "memory")
}

// The fourth worker calls a short job, when one of the others is at work, and then two.
#[test]
fn idle_workers_take_no_time_while_others_are_at_work(rt: HostRuntime) {
    let tally = empty_tally(&rt);
    let (latch, open) = (lock_latch(&rt), lock_latch(&rt));
    open.set(&rt);
    let builder = ThreadPoolBuilder::new().num_threads(4).use_current_thread();
    let built = builder.build_for::<HostRuntime, Quiet<HostRuntime>>(&rt, rt.alloc());
    let (pool, current) = built.expect(&rt, "a pool");
    let mut worker = current.expect(&rt, "the current worker");
    let mut told = 0u64;
    for (index, its) in [(1usize, &latch), (3, &open), (2, &latch), (3, &open)] {
        let job = Quiet {
            rt,
            tally: handle(&rt, &tally),
            latch: handle(&rt, its),
        };
        holds!(&rt, push_by(&rt, &mut worker, Queue::Broadcast(index), job));
        told = told.wrapping_add(1);
        awaits(&rt, &tally.entered, told, "the worker is at work");
        let_it_sleep(&rt);
        nobody_works(&rt, "while others are at work");
    }
    latch.set(&rt);
    pool.close(&rt);
}

// Stops the test where a thread works while it waits, or doesn't wait until another one, which has
// worked for long, ends that.
fn waits_quietly<R: Host, W: FnOnce() + Send, E: FnOnce() + Send>(rt: &R, at: &str, wait: W, end: E)
    requires wait { W.IsAlwaysCallable wait }
    requires end { E.IsAlwaysCallable end }
{
    let passed = AtomicU64::new(0);
    join(
        rt,
        || {
            let before = own_time(rt);
            wait();
            let worked = own_time(rt).saturating_sub(before) / SHORT;
            let of = (at, "worked too long, ended by how many");
            row(rt, of, (worked, read(&passed)), (0, 1));
        },
        || {
            works(rt, LONG);
            passed.store(1, Ordering::SeqCst);
            end();
        },
    );
}

#[test]
fn a_lock_latch_waits_quietly(rt: HostRuntime) {
    for resets in [false, true] {
        let latch = LockLatch::new();
        let wait = || if resets {
            latch.wait_and_reset(&rt);
        } else {
            latch.wait(&rt);
        };
        waits_quietly(&rt, "a lock latch", wait, || latch.set(&rt));
    }
}

#[test]
fn a_count_latch_waits_quietly(rt: HostRuntime) {
    for more in [0usize, 1, 2, 40] {
        let count = NonZeroUsize::MIN.saturating_add(more);
        let (latch, shares) = CountLatch::with_count(rt.alloc(), count).expect(&rt, "memory");
        let wait = || {
            let _seen = latch.wait(&rt);
        };
        waits_quietly(&rt, "a count latch", wait, || give_all(&latch, shares));
    }
}

// The one started worker of the pool has a job that doesn't end yet.
#[test]
fn whoever_closes_a_pool_waits_quietly(rt: HostRuntime) {
    let mut led = leads(&rt, 2);
    let halted = led.halts(&rt, 1);
    let pool = led.pool;
    waits_quietly(&rt, "a close", || pool.close(&rt), || halted.opens());
}

// A builder of that many workers, of which one tells a tally that it waits as it starts.
fn one_starts_late<R: Host>(
    rt: &R,
    num_threads: usize,
    late: usize,
    tally: &Arc<Tally>,
) -> ThreadPoolBuilder {
    let theirs = handle(rt, tally);
    let handler = Box::new(rt.alloc(), move |index: usize| {
        if index == late {
            added(Act::Waits, &theirs, index);
        }
    });
    let builder = ThreadPoolBuilder::new().num_threads(num_threads);
    builder.start_handler(handler.expect(rt, "memory"))
}

#[test]
fn whoever_closes_a_pool_waits_for_each_worker(rt: HostRuntime) {
    for (num_threads, late) in [(1, 0), (2, 1), (4, 3), (4, 0)] {
        let tally = empty_tally(&rt);
        let pool = built(&rt, one_starts_late(&rt, num_threads, late, &tally));
        waits_quietly(&rt, "a late start", || pool.close(&rt), || tally.opens());
    }
}

#[test]
fn an_install_has_a_thread_of_its_own(rt: HostRuntime) {
    let pool = ThreadPool::new(NonZeroUsize::MIN);
    works(&rt, 40_000_000);
    let rt = &rt;
    let first = pool.install(rt, || own_time(rt));
    let second = install(rt, || own_time(rt));
    let less = (first < 20_000_000, second < 20_000_000);
    row(rt, "they have worked less", less, (true, true));
}
