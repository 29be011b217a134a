//! The state of all workers' sleep, which lies under one lock.
ghost use Rattle.std.specs.Prelude.{◌≡◌, ◌≢◌, ◌↔◌, ◌-◌, ◌+◌, ◌%◌, ◌<◌, ◌≤◌, ◌∷◌, [], false, true, length, take, replicate, slice_set, vec_len, IfOk, IsTrue, Some, None, if◌then◌else◌};
ghost use Rattle.std.specs.NonZero.{non_zero_usize_get};
ghost use Rattle.parallel_pool.specs.Counters.{sleeping_of, inactive_of, events_of};
ghost use Rattle.parallel_pool.specs.IdleState.{worker_of, rounds_of, recorded_of};
ghost use Rattle.parallel_pool.specs.Standings.{is_blocked, is_inactive, standing_at, sleeping_in, inactive_in, looking_in, blocked_of, AreWoken, event_after, events_announced, events_of_jobs};
ghost use Rattle.parallel_pool.specs.Blocks.{state_after, rounds_after, recorded_after};
ghost use Rattle.parallel_pool.specs.declared.sleep.standing.Standing.TheVariants.{Working, Looking, Sleeping};
ghost use Rattle.parallel_pool.specs.declared.sleep.sleep_state.Block.TheVariants.{Changed, Injected, Blocked};
ghost use Rattle.parallel_fault.specs.Trouble.{IsMemoryOnErr};

use crate::rayon::thread_pool::MAX_THREADS;
use crate::sleep::counters::Counters;
use crate::sleep::idle_state::IdleState;
use crate::sleep::standing::Standing;
use crate::sleep::wake::wake_first;
use parallel_fault::Fault;
use std::alloc::Global;
use std::marker::Model;
use std::num::NonZeroUsize;

/// Whether a worker that tried to sleep does so.
#[derive(Clone, Copy, Debug, PartialEq, Eq)]
pub enum Block {
    /// Events have come since the worker announced itself, or it never did: it doesn't sleep.
    Changed,
    /// A job is there for it: it doesn't sleep.
    Injected,
    /// It sleeps until it is woken.
    Blocked,
}

/// Where each of 1 to 65535 workers stands, with the counters.
///
/// Contracts see it as `events`, the count of events; `workers`, the list of standings; and
/// `woken`, whom the last call woke of those that wake workers. The counters always agree with the
/// standings.
#[derive(Debug, Drop)]
pub struct SleepState {
    counters: Counters,
    standings: Vec<Standing>,
    woken: Vec<usize>,
}

impl Model for SleepState {
    ghost use Rattle.std.specs.Prelude.{◌≡◌, ◌≤◌, vec_len, vec_capacity};
    ghost use Rattle.parallel_pool.specs.Counters.{sleeping_of, inactive_of, events_of};
    ghost use Rattle.parallel_pool.specs.Standings.{sleeping_in, inactive_in};
    ghost use Rattle.parallel_pool.specs.Sleepers.{Sleepers};

    ghost Value = { Sleepers };

    ghost view = { λ s. record {
      events = events_of s.counters;
      workers = s.standings.items;
      woken = s.woken.items;
    } };

    ghost invariant = { λ s. (sleeping_of s.counters ≡ sleeping_in s.standings.items)
        × (inactive_of s.counters ≡ inactive_in s.standings.items)
        × (vec_len s.standings ≤ 65535)
        × (vec_len s.standings ≤ vec_capacity s.woken) };
}

impl SleepState {
    /// The state of that many workers, who all have work, with this count of events.
    ///
    /// # Errors
    ///
    /// `Fault::Memory` if an allocation fails.
    pub fn new(alloc: Global, workers: NonZeroUsize, events: u32) -> Result<SleepState, Fault>
        requires { non_zero_usize_get workers ≤ MAX_THREADS }
        ensures state { IfOk result (λ state. state ≡ record {
          events = events;
          workers = replicate (non_zero_usize_get workers) Working;
          woken = [];
        }) }
        ensures fault { IsMemoryOnErr result }
    {
        let standings = Vec::from_elem(alloc, Standing::Working, workers.get())?;
        let woken = Vec::with_capacity(alloc, workers.get())?;
        Ok(SleepState {
            counters: Counters::new(0, 0, events),
            standings,
            woken,
        })
    }

    /// How many workers there are.
    pub fn workers(&self) -> usize
        ensures count { result ≡ length self.now.workers }
        ensures at_most { result ≤ MAX_THREADS }
    {
        self.standings.len()
    }

    /// The counters, which agree with the standings: as many sleep as are blocked, and no more than
    /// are inactive.
    pub fn counters(&self) -> Counters
        ensures sleeping { sleeping_of result ≡ sleeping_in self.now.workers }
        ensures inactive { inactive_of result ≡ inactive_in self.now.workers }
        ensures at_most { sleeping_of result ≤ inactive_of result }
        ensures events { events_of result ≡ self.now.events }
    {
        self.counters
    }

    /// Whom the last call woke of those that wake workers, lowest index first.
    pub fn woken(&self) -> &[usize]
        ensures { result.now ≡ self.now.woken }
    {
        self.woken.as_slice()
    }

    /// Whether a worker looks for work or sleeps. One that doesn't exist does neither.
    pub fn is_inactive(&self, worker_index: usize) -> bool
        ensures { result ≡ is_inactive (standing_at self.now.workers worker_index) }
    {
        match self.standings.get(worker_index) {
            Some(standing) => standing.is_inactive(),
            None => false,
        }
    }

    /// Whether a worker sleeps. One that doesn't exist doesn't.
    pub fn is_blocked(&self, worker_index: usize) -> bool
        ensures { result ≡ is_blocked (standing_at self.now.workers worker_index) }
    {
        match self.standings.get(worker_index) {
            Some(standing) => standing.is_blocked(),
            None => false,
        }
    }

    /// A worker that had work looks for more. The result is its way to sleep, at round 0.
    pub fn start_looking(&mut self, worker_index: usize) -> IdleState
        requires exists { worker_index < length self.old.workers }
        requires active { is_inactive (standing_at self.old.workers worker_index) ≡ false }
        ensures state { self.new ≡ record self.old
            { workers = slice_set self.old.workers worker_index Looking } }
        ensures worker { worker_of result ≡ worker_index }
        ensures rounds { rounds_of result ≡ 0 }
        ensures recorded { recorded_of result ≡ None }
    {
        self.standings[worker_index] = Standing::Looking;
        self.counters = Counters::new(
            self.counters.sleeping(),
            self.counters.inactive() + 1,
            self.counters.events(),
        );
        IdleState::new(worker_index)
    }

    /// The idle worker has found work: it is active again, and up to two that sleep are woken,
    /// lowest index first.
    pub fn work_found(&mut self, idle: IdleState)
        requires inactive { is_inactive (standing_at self.old.workers (worker_of idle)) ≡ true }
        requires awake { is_blocked (standing_at self.old.workers (worker_of idle)) ≡ false }
        ensures woken { self.new.woken ≡ take 2
            (blocked_of (slice_set self.old.workers (worker_of idle) Working)) }
        ensures workers { AreWoken self.new.woken
            (slice_set self.old.workers (worker_of idle) Working) self.new.workers }
        ensures events { self.new.events ≡ self.old.events }
    {
        self.standings[idle.worker_index()] = Standing::Working;
        self.counters = Counters::new(
            self.counters.sleeping(),
            self.counters.inactive() - 1,
            self.counters.events(),
        );
        self.wake_any(2);
    }

    /// The idle worker announces that it is sleepy: from here on the events are even, and it keeps
    /// their count. The result is that count.
    pub fn announce_sleepy(&mut self, idle: &mut IdleState) -> u32
        ensures answer { result ≡ events_announced self.old.events }
        ensures even { result % 2 ≡ 0 }
        ensures state { self.new ≡ record self.old { events = result } }
        ensures recorded { recorded_of idle.new ≡ Some result }
        ensures worker { worker_of idle.new ≡ worker_of idle.old }
        ensures rounds { rounds_of idle.new ≡ rounds_of idle.old }
    {
        let mut events = self.counters.events();
        if events % 2 != 0 {
            events = next_event(events);
        }
        self.counters = Counters::new(self.counters.sleeping(), self.counters.inactive(), events);
        idle.record(events);
        events
    }

    /// The idle worker tries to sleep. `injected` says whether a job is there for it.
    ///
    /// Where events have come since it announced itself, or it never did, it goes back to round 32;
    /// else, where a job is there, to round 0; else it sleeps.
    pub fn try_block(&mut self, idle: &mut IdleState, injected: bool) -> Block
        requires inactive { is_inactive (standing_at self.old.workers (worker_of idle.old)) ≡ true }
        requires awake { is_blocked (standing_at self.old.workers (worker_of idle.old)) ≡ false }
        ensures changed { (result ≡ Changed) ↔ (recorded_of idle.old ≢ Some self.old.events) }
        ensures injected { (result ≡ Injected) ↔
            ((recorded_of idle.old ≡ Some self.old.events) × (injected ≡ true)) }
        ensures state { self.new ≡ state_after result (worker_of idle.old) self.old }
        ensures worker { worker_of idle.new ≡ worker_of idle.old }
        ensures rounds { rounds_of idle.new ≡ rounds_after result (rounds_of idle.old) }
        ensures recorded { recorded_of idle.new ≡ recorded_after result (recorded_of idle.old) }
    {
        if idle.recorded() != Some(self.counters.events()) {
            idle.wake_partly();
            Block::Changed
        } else if injected {
            idle.wake_fully();
            Block::Injected
        } else {
            self.standings[idle.worker_index()] = Standing::Sleeping;
            self.counters = Counters::new(
                self.counters.sleeping() + 1,
                self.counters.inactive(),
                self.counters.events(),
            );
            Block::Blocked
        }
    }

    /// Jobs have come: from here on the events are odd, and workers that sleep are woken, lowest
    /// index first. As many are woken as there are jobs; where the queue was empty, the workers
    /// that are awake and look for work take one job each first.
    pub fn new_jobs(&mut self, jobs: u32, queue_was_empty: bool)
        ensures events { self.new.events ≡ events_of_jobs self.old.events }
        ensures odd { self.new.events % 2 ≡ 1 }
        ensures woken { self.new.woken ≡ take
            (if queue_was_empty then jobs - looking_in self.old.workers else jobs)
            (blocked_of self.old.workers) }
        ensures workers { AreWoken self.new.woken self.old.workers self.new.workers }
    {
        let mut events = self.counters.events();
        if events % 2 == 0 {
            events = next_event(events);
        }
        let sleeping = self.counters.sleeping();
        let inactive = self.counters.inactive();
        self.counters = Counters::new(sleeping, inactive, events);
        let awake_but_idle = (inactive - sleeping) as u32;
        let most = if queue_was_empty {
            jobs.saturating_sub(awake_but_idle)
        } else {
            jobs
        };
        self.wake_any(most as usize);
    }

    // Wakes as many workers as sleep, but no more than `most`, from the lowest index.
    fn wake_any(&mut self, most: usize)
        ensures woken { self.new.woken ≡ take most (blocked_of self.old.workers) }
        ensures workers { AreWoken self.new.woken self.old.workers self.new.workers }
        ensures events { self.new.events ≡ self.old.events }
    {
        wake_first(self.standings.as_mut_slice(), most, &mut self.woken);
        self.counters = Counters::new(
            self.counters.sleeping() - self.woken.len() as u16,
            self.counters.inactive(),
            self.counters.events(),
        );
    }

    /// Wakes a worker that sleeps, and says whether it did. Any other stays as it is.
    pub fn wake(&mut self, worker_index: usize) -> bool
        ensures answer { result ≡ is_blocked (standing_at self.old.workers worker_index) }
        ensures state { self.new ≡ (if result
            then record self.old { workers = slice_set self.old.workers worker_index Looking }
            else self.old) }
    {
        if !self.is_blocked(worker_index) {
            return false;
        }
        self.standings[worker_index] = Standing::Looking;
        self.counters = Counters::new(
            self.counters.sleeping() - 1,
            self.counters.inactive(),
            self.counters.events(),
        );
        true
    }
}

// The count of events after one more.
fn next_event(events: u32) -> u32
    ensures { result ≡ event_after events }
{
    events.wrapping_add(1)
}
