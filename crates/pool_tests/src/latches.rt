//! The latches: that of a worker's state, those that say which worker to wake, and one that a
//! thread sleeps at.
ghost use Rattle.std.specs.Prelude.{◌≡◌, All};
ghost use Rattle.parallel_pool.specs.CountLatch.{IsShareOf, unspent};
ghost use Rattle.parallel_pool.specs.Latch.{IsLatchSeatOf};
ghost use Rattle.parallel_pool.specs.WorkerLatch.{core_of};

use crate::checks::row;
use crate::tally::{Host, awaits, handle, let_it_sleep, read};
use parallel_pool::latch::{
    CoreLatch, CountLatch, CountShare, LatchSeat, LockLatch, OnceLatch, SpinLatch,
};
use std::num::NonZeroUsize;
use std::process::Abort;
use std::sync::Arc;
use std::sync::atomic::{AtomicU64, Ordering};
use std::thread;

/// A latch with one seat.
pub(crate) fn core_latch<R: Host>(rt: &R) -> (CoreLatch, LatchSeat)
    ensures { IsLatchSeatOf result.0 result.1 }
{
    let (latch, mut seats) = CoreLatch::new(rt.alloc(), NonZeroUsize::MIN).expect(rt, "memory");
    let seat = seats.pop().expect(rt, "a seat");
    (latch, seat)
}

#[test]
fn a_latch_that_is_set_stays_set(rt: HostRuntime) {
    let (latch, mut seat) = core_latch(&rt);
    row(&rt, "it is unset", latch.probe(&mut seat), false);
    row(&rt, "awake", latch.fall_asleep(&mut seat), false);
    row(&rt, "sleepy", latch.get_sleepy(&mut seat), true);
    row(&rt, "twice", latch.get_sleepy(&mut seat), false);
    row(&rt, "asleep", latch.fall_asleep(&mut seat), true);
    row(&rt, "the worker slept", latch.set(&mut seat), true);
    row(&rt, "nobody slept", latch.set(&mut seat), false);
    latch.wake_up(&mut seat);
    row(&rt, "it stays set", latch.probe(&mut seat), true);
    row(&rt, "nobody sleeps", latch.get_sleepy(&mut seat), false);
}

// What latches say that are set, of the worker 7 that slept or not: one that is set twice, and one
// that is set once.
fn named_by<R: Host>(rt: &R, sleeps: bool) -> [Option<usize>; 3] {
    let made = SpinLatch::new(rt.alloc(), NonZeroUsize::MIN, 7);
    let (spin, mut seats) = made.expect(rt, "memory");
    let mut seat = seats.pop().expect(rt, "a seat");
    let made = OnceLatch::new(rt.alloc(), NonZeroUsize::MIN, 7);
    let (once, mut others) = made.expect(rt, "memory");
    let mut other = others.pop().expect(rt, "a seat");
    if sleeps {
        spin.as_core_latch().get_sleepy(&mut seat);
        spin.as_core_latch().fall_asleep(&mut seat);
        once.as_core_latch().get_sleepy(&mut other);
        once.as_core_latch().fall_asleep(&mut other);
    }
    let first = spin.set(&mut seat);
    [first, spin.set(&mut seat), once.set(&mut other)]
}

#[test]
fn a_latch_names_the_worker_that_slept(rt: HostRuntime) {
    for (sleeps, named) in [(true, Some(7)), (false, None)] {
        row(&rt, sleeps, named_by(&rt, sleeps), [named, None, named]);
    }
}

// Gives the last share of a list.
fn give_one(latch: &CountLatch, shares: &mut Vec<CountShare>)
    requires belong { All (IsShareOf latch.now) shares.old.items }
    requires unspent { All (λ share. unspent share ≡ 1) shares.old.items }
    ensures belong { All (IsShareOf latch.now) shares.new.items }
    ensures unspent { All (λ share. unspent share ≡ 1) shares.new.items }
{
    if let Some(mut share) = shares.pop() {
        latch.give(&mut share);
    }
}

/// Gives all shares.
pub(crate) fn give_all(latch: &CountLatch, mut shares: Vec<CountShare>)
    requires belong { All (IsShareOf latch.now) shares.items }
    requires unspent { All (λ share. unspent share ≡ 1) shares.items }
{
    for _ in 0..shares.len() {
        give_one(latch, &mut shares);
    }
}

#[test]
fn a_lock_latch_is_reset_and_wakes_who_sleeps(rt: HostRuntime) {
    let latch = Arc::new(rt.alloc(), LockLatch::new()).expect(&rt, "memory");
    latch.set(&rt);
    latch.wait_and_reset(&rt);
    let passed = Arc::new(rt.alloc(), AtomicU64::new(0)).expect(&rt, "memory");
    for _ in 0..2 {
        let (theirs, count) = (handle(&rt, &latch), handle(&rt, &passed));
        thread::spawn(&rt, move || {
            theirs.wait(&rt);
            count.fetch_add(1, Ordering::SeqCst);
        })
        .expect(&rt, "memory");
    }
    let_it_sleep(&rt);
    row(&rt, "the latch was reset", read(&passed), 0);
    latch.set(&rt);
    awaits(&rt, &passed, 2, "both waiters are woken");
}
