//! The state of the workers' sleep, by known words.
use crate::checks::row;
use parallel_pool::sleep::{Block, IdleState, SleepState};
use std::num::NonZeroUsize;
use std::process::Abort;
use test_support::same;

// A worker that had work looks for more, and announces that it is sleepy.
fn gets_sleepy(rt: &impl Abort, state: &mut SleepState, worker: usize) -> IdleState {
    assert!(rt; worker < state.workers() && !state.is_inactive(worker));
    let mut idle = state.start_looking(worker);
    row(rt, worker, state.announce_sleepy(&mut idle), 0);
    idle
}

// A worker that looks for work tries to sleep.
fn blocks(rt: &impl Abort, state: &mut SleepState, idle: &mut IdleState) -> Block {
    let worker = idle.worker_index();
    assert!(rt; state.is_inactive(worker) && !state.is_blocked(worker));
    state.try_block(idle, false)
}

// A worker that looks for work finds some.
fn finds(rt: &impl Abort, state: &mut SleepState, idle: IdleState) {
    let worker = idle.worker_index();
    assert!(rt; state.is_inactive(worker) && !state.is_blocked(worker));
    state.work_found(idle);
}

// Two of four workers sleep and a third looks for work, and two jobs come.
#[test]
fn workers_sleep_and_are_woken_from_the_lowest(rt: HostRuntime) {
    let four = NonZeroUsize::MIN.saturating_add(3);
    let mut state = SleepState::new(rt.alloc(), four, 0).expect(&rt, "memory");
    same!(&rt, state.workers(), 4);
    let mut first = gets_sleepy(&rt, &mut state, 0);
    let mut second = gets_sleepy(&rt, &mut state, 1);
    let mut third = gets_sleepy(&rt, &mut state, 2);
    let blocked = blocks(&rt, &mut state, &mut first);
    row(&rt, "first", blocked, Block::Blocked);
    let blocked = blocks(&rt, &mut state, &mut second);
    row(&rt, "second", blocked, Block::Blocked);
    row(&rt, "two sleep", state.counters().word(), 196_610);
    state.new_jobs(2, true);
    // (one worker looks for work already)
    row(&rt, "one is woken", state.woken(), [0].as_slice());
    row(&rt, "one sleeps", state.counters().word(), 4_295_163_905);
    let blocked = blocks(&rt, &mut state, &mut third);
    row(&rt, "third", blocked, Block::Changed);
    same!(&rt, (third.rounds(), third.recorded()), (32, None));
    finds(&rt, &mut state, third);
    row(&rt, "the other is woken", state.woken(), [1].as_slice());
    row(&rt, "no one sleeps", state.counters().word(), 4_295_098_368);
    row(&rt, "it is awake", state.wake(1), false);
}
