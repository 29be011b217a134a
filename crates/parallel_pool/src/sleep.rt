//! The sleep of idle workers: who looks for work, who sleeps, and who is woken when work comes.
ghost use Rattle.std.specs.Prelude.{◌≡◌, ◌≢◌, ◌⊎◌, ◌+◌, ◌<◌, ◌≤◌, ◌↔◌, true, IfOk, IfSome, IsSome, None, vec_len, ⊤};
ghost use Rattle.parallel_pool.specs.declared.sleep.sleep_state.Block.TheVariants.{Blocked};
ghost use Rattle.std.specs.NonZero.{non_zero_usize_get};
ghost use Rattle.parallel_pool.specs.Counters.{sleeping_of, inactive_of};
ghost use Rattle.parallel_pool.specs.IdleState.{worker_of, rounds_of, recorded_of};
ghost use Rattle.parallel_pool.specs.LatchHistory.{Called, HasSeenSet};
ghost use Rattle.parallel_pool.specs.declared.latch.history.Act.TheVariants.{Probe};
ghost use Rattle.parallel_pool.specs.Latch.{IsLatchSeatOf, known};
ghost use Rattle.parallel_pool.specs.SleepTries.{OnlyProbes, TriesToSleep};
ghost use Rattle.parallel_pool.specs.Standings.{is_blocked, standing_at};
ghost use Rattle.parallel_fault.specs.Trouble.{IsMemoryOnErr};

pub mod counters;
pub mod idle_state;
pub mod sleep_state;
pub mod standing;
pub(crate) mod wake;

use crate::latch::core_latch::CoreLatch;
use crate::latch::latch_seat::LatchSeat;
use crate::rayon::thread_pool::MAX_THREADS;
use crate::sleep::idle_state::{ROUNDS_UNTIL_SLEEPING, ROUNDS_UNTIL_SLEEPY};
pub use counters::Counters;
use crossbeam_utils::sync::{Parker, Unparker};
pub use idle_state::{Due, IdleState};
use parallel_fault::Fault;
pub use sleep_state::{Block, SleepState};
pub use standing::Standing;
use std::alloc::Global;
use std::num::NonZeroUsize;
use std::sync::{Mutex, Wait};
use std::thread;

/// The sleep of all workers of a pool: their state under one lock, and what wakes each of them.
///
/// What lies under the lock is known by its type alone: its counters agree with the standings. So
/// what a call asks of the state it looks up for itself.
#[derive(Drop)]
pub struct Sleep {
    state: Mutex<SleepState>,
    unparkers: Vec<Unparker>,
}

impl Sleep {
    /// The sleep of that many workers, who all have work, and a parker for each of them, in order.
    ///
    /// # Errors
    ///
    /// `Fault::Memory` if an allocation fails.
    pub fn new(alloc: Global, workers: NonZeroUsize) -> Result<(Sleep, Vec<Parker>), Fault>
        requires { non_zero_usize_get workers ≤ MAX_THREADS }
        ensures count { IfOk result (λ made. vec_len made.1 ≡ non_zero_usize_get workers) }
        ensures fault { IsMemoryOnErr result }
    {
        let state = SleepState::new(alloc, workers, 0)?;
        let mut parkers = Vec::new(alloc);
        let mut unparkers = Vec::new(alloc);
        for _ in 0..workers.get() {
            let parker = Parker::new(alloc)?;
            unparkers.push(parker.unparker().clone()?)?;
            parkers.push(parker)?;
        }
        let sleep = Sleep {
            state: Mutex::new(state),
            unparkers,
        };
        Ok((sleep, parkers))
    }

    /// The counters as they are now. No more workers sleep than are inactive.
    pub fn counters<R: Wait>(&self, rt: &R) -> Counters
        ensures { sleeping_of result ≤ inactive_of result }
    {
        self.state.lock(rt).counters()
    }

    /// A worker that had work looks for more. There is no result where there is no such worker, or
    /// it looks or sleeps already.
    pub fn start_looking<R: Wait>(&self, rt: &R, worker_index: usize) -> Option<IdleState>
        ensures worker { IfSome result (λ idle. worker_of idle ≡ worker_index) }
        ensures rounds { IfSome result (λ idle. rounds_of idle ≡ 0) }
        ensures recorded { IfSome result (λ idle. recorded_of idle ≡ None) }
    {
        let mut state = self.state.lock(rt);
        if state.workers() <= worker_index || state.is_inactive(worker_index) {
            return None;
        }
        Some(state.start_looking(worker_index))
    }

    /// The idle worker has found work, and up to two that sleep are woken. Nothing happens where
    /// the worker doesn't look for work.
    pub fn work_found<R: Wait>(&self, rt: &R, idle: IdleState) {
        let mut state = self.state.lock(rt);
        let worker_index = idle.worker_index();
        if state.is_inactive(worker_index) && !state.is_blocked(worker_index) {
            state.work_found(idle);
            self.unpark(state.woken());
        }
    }

    /// Jobs have come among the injected ones, and as many workers are woken as are needed.
    pub fn new_injected_jobs<R: Wait>(&self, rt: &R, jobs: u32, queue_was_empty: bool) {
        self.new_jobs(rt, jobs, queue_was_empty);
    }

    /// Jobs have come onto a worker's deque, and as many workers are woken as are needed.
    pub fn new_internal_jobs<R: Wait>(&self, rt: &R, jobs: u32, queue_was_empty: bool) {
        self.new_jobs(rt, jobs, queue_was_empty);
    }

    fn new_jobs<R: Wait>(&self, rt: &R, jobs: u32, queue_was_empty: bool) {
        let mut state = self.state.lock(rt);
        state.new_jobs(jobs, queue_was_empty);
        self.unpark(state.woken());
    }

    /// The latch of a worker was set while it slept: the worker is woken.
    pub fn notify_worker_latch_is_set<R: Wait>(&self, rt: &R, target_worker_index: usize) {
        let woken = self.state.lock(rt).wake(target_worker_index);
        if woken {
            self.unpark(&[target_worker_index]);
        }
    }

    fn unpark(&self, woken: &[usize]) {
        for worker_index in woken {
            self.unpark_worker(*worker_index);
        }
    }

    /// Lets a worker that sleeps look whether its latch is set, which wakes it. It takes no lock
    /// and never waits.
    pub fn unpark_worker(&self, worker_index: usize) {
        if let Some(unparker) = self.unparkers.get(worker_index) {
            unparker.unpark();
        }
    }

    /// The idle worker has found no work: it yields, announces that it is sleepy, or tries to
    /// sleep, by the round that it is in. It sleeps on its own parker, until it is woken.
    ///
    /// The latch is the one that the worker waits for, which keeps it from sleeping once set.
    /// `has_injected_jobs` says, just before the worker would sleep, whether a job is there for it;
    /// it is asked under the lock.
    pub fn no_work_found<R: Wait, F: FnOnce() -> bool>(
        &self,
        rt: &R,
        idle: &mut IdleState,
        parker: &Parker,
        latch: &CoreLatch,
        seat: &mut LatchSeat,
        has_injected_jobs: F,
    )
        requires seat { IsLatchSeatOf latch.now seat.old }
        requires callable { F.IsAlwaysCallable has_injected_jobs }
        ensures worker { worker_of idle.new ≡ worker_of idle.old }
        ensures yields { rounds_of idle.old < ROUNDS_UNTIL_SLEEPY
            → rounds_of idle.new ≡ rounds_of idle.old + 1 }
        ensures announces { rounds_of idle.old ≡ ROUNDS_UNTIL_SLEEPY
            → (rounds_of idle.new ≡ ROUNDS_UNTIL_SLEEPING) × IsSome (recorded_of idle.new) }
        ensures sleeps { ROUNDS_UNTIL_SLEEPING ≤ rounds_of idle.old
            → (idle.new ≡ idle.old) ⊎ ((recorded_of idle.new ≡ None)
            × ((rounds_of idle.new ≡ 0) ⊎ (rounds_of idle.new ≡ ROUNDS_UNTIL_SLEEPY))) }
        ensures awake { rounds_of idle.old < ROUNDS_UNTIL_SLEEPING
            → known seat.new ≡ known seat.old }
        ensures tries { ROUNDS_UNTIL_SLEEPING ≤ rounds_of idle.old
            → TriesToSleep (known seat.old) (known seat.new) }
        ensures seat { IsLatchSeatOf latch.now seat.new }
        ensures stays { HasSeenSet (known seat.old) → HasSeenSet (known seat.new) }
    {
        match idle.due() {
            Due::Yield => {
                idle.next_round();
                thread::yield_now();
            }
            Due::Announce => {
                self.state.lock(rt).announce_sleepy(idle);
                idle.next_round();
                thread::yield_now();
            }
            Due::Sleep => self.sleep(rt, idle, parker, latch, seat, has_injected_jobs),
        }
    }

    // The worker tries to sleep.
    fn sleep<R: Wait, F: FnOnce() -> bool>(
        &self,
        rt: &R,
        idle: &mut IdleState,
        parker: &Parker,
        latch: &CoreLatch,
        seat: &mut LatchSeat,
        has_injected_jobs: F,
    )
        requires seat { IsLatchSeatOf latch.now seat.old }
        requires callable { F.IsAlwaysCallable has_injected_jobs }
        ensures worker { worker_of idle.new ≡ worker_of idle.old }
        ensures rounds { (idle.new ≡ idle.old)
            ⊎ ((recorded_of idle.new ≡ None)
            × ((rounds_of idle.new ≡ 0) ⊎ (rounds_of idle.new ≡ ROUNDS_UNTIL_SLEEPY))) }
        ensures tries { TriesToSleep (known seat.old) (known seat.new) }
        ensures seat { IsLatchSeatOf latch.now seat.new }
        ensures stays { HasSeenSet (known seat.old) → HasSeenSet (known seat.new) }
    {
        if !latch.get_sleepy(seat) {
            return;
        }
        let mut state = self.state.lock(rt);
        if !latch.fall_asleep(seat) {
            idle.wake_fully();
            return;
        }
        let injected = has_injected_jobs();
        let block = block(&mut state, idle, injected);
        drop(state);
        self.sleep_if_blocked(rt, block, idle, parker, latch, seat);
        latch.wake_up(seat);
    }

    // A worker that is blocked sleeps until it is woken, and then starts again.
    fn sleep_if_blocked<R: Wait>(
        &self,
        rt: &R,
        block: Block,
        idle: &mut IdleState,
        parker: &Parker,
        latch: &CoreLatch,
        seat: &mut LatchSeat,
    )
        requires seat { IsLatchSeatOf latch.now seat.old }
        ensures worker { worker_of idle.new ≡ worker_of idle.old }
        ensures awake { block ≢ Blocked → idle.new ≡ idle.old }
        ensures blocked { block ≡ Blocked → (rounds_of idle.new ≡ 0)
            × (recorded_of idle.new ≡ None) }
        ensures probes { OnlyProbes (known seat.old) (known seat.new) }
        ensures seat { IsLatchSeatOf latch.now seat.new }
        ensures stays { HasSeenSet (known seat.old) → HasSeenSet (known seat.new) }
    {
        if block == Block::Blocked {
            self.park(rt, idle.worker_index(), parker, latch, seat);
            idle.wake_fully();
        }
    }

    // Sleeps until the worker was woken, or its latch was set.
    fn park<R: Wait>(
        &self,
        rt: &R,
        sleeper: usize,
        parker: &Parker,
        latch: &CoreLatch,
        seat: &mut LatchSeat,
    )
        requires seat { IsLatchSeatOf latch.now seat.old }
        ensures probes { OnlyProbes (known seat.old) (known seat.new) }
        ensures seat { IsLatchSeatOf latch.now seat.new }
        ensures stays { HasSeenSet (known seat.old) → HasSeenSet (known seat.new) }
    {
        for _ in rt.forever() {
            parker.park(rt);
            if self.is_awake(rt, sleeper, latch, seat) {
                return;
            }
        }
        unreachable!()
    }

    // Whether a sleeper was woken. One whose latch was set wakes itself.
    fn is_awake<R: Wait>(
        &self,
        rt: &R,
        sleeper: usize,
        latch: &CoreLatch,
        seat: &mut LatchSeat,
    ) -> bool
        requires seat { IsLatchSeatOf latch.now seat.old }
        ensures probe { Called Probe (λ _. ⊤) (known seat.old) (known seat.new) }
        ensures seat { IsLatchSeatOf latch.now seat.new }
        ensures stays { HasSeenSet (known seat.old) → HasSeenSet (known seat.new) }
    {
        let is_set = latch.probe(seat);
        let mut state = self.state.lock(rt);
        if is_set {
            state.wake(sleeper);
        }
        !state.is_blocked(sleeper)
    }
}

// The worker is blocked, or why it isn't. One that doesn't look for work starts again, awake.
fn block(state: &mut SleepState, idle: &mut IdleState, injected: bool) -> Block
    ensures worker { worker_of idle.new ≡ worker_of idle.old }
    ensures blocked { (result ≡ Blocked) ↔
        (is_blocked (standing_at state.new.workers (worker_of idle.old)) ≡ true) }
    ensures awake { result ≢ Blocked → (recorded_of idle.new ≡ None)
        × ((rounds_of idle.new ≡ 0) ⊎ (rounds_of idle.new ≡ ROUNDS_UNTIL_SLEEPY)) }
{
    let worker_index = idle.worker_index();
    if state.is_inactive(worker_index) && !state.is_blocked(worker_index) {
        state.try_block(idle, injected)
    } else {
        state.wake(worker_index);
        idle.wake_fully();
        Block::Injected
    }
}
