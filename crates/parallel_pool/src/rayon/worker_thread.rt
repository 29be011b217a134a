//! A worker of a pool: where it looks for jobs, and what it does between two of them.
use crate::rayon::broadcast_context::BroadcastContext;
use crate::rayon::job_deque::JobDeque;
use crate::rayon::job_seat::JobSeat;
use crate::rayon::owned_job::{Execute, OwnedJob};
use crate::rayon::queue::Queue;
use crate::rayon::registry::Registry;
use crate::rayon::rest::Rest;
use crate::sleep::IdleState;
use parallel_fault::Fault;
use std::alloc::Global;
use std::marker::Model;
use std::sync::{Arc, Wait};
use std::thread;

/// A worker of a pool: a started thread has one, and the thread that built a pool with
/// `use_current_thread` is handed that of index 0.
///
/// Contracts see it as `index`, `label`, `own` and `jobs`: what it knows of its own deque, and its
/// seat's view of all queues. Of the jobs that it has taken some count as called, from the step on
/// that took them: `calls_of` says how many.
#[derive(Drop)]
pub struct WorkerThread<T: Drop = OwnedJob> {
    pub(crate) index: usize,
    pub(crate) label: u64,
    pub(crate) own: JobDeque<T>,
    pub(crate) jobs: JobSeat<T>,
    pub(crate) rest: Rest,
    pub(crate) registry: Arc<Registry, Global>,
}

impl<T: Drop> Model for WorkerThread<T> {
    ghost use Rattle.parallel_pool.specs.WorkerThread.{WorkerView};

    ghost Value = { WorkerView T };

    ghost view = { λ w. record { index = w.index; label = w.label; own = w.own; jobs = w.jobs } };
}

impl<T: Drop> WorkerThread<T> {
    ghost use Rattle.std.specs.Prelude.{◌≡◌, length, MatchOption, MatchResult};
    ghost use Rattle.std.specs.Borrow.{Lends, sem};
    ghost use Rattle.parallel_pool.specs.Broadcast.{context};
    ghost use Rattle.parallel_pool.specs.JobHistory.{HasPushed};
    ghost use Rattle.parallel_pool.specs.Rows.{seat_row};
    ghost use Rattle.parallel_pool.specs.WorkerThread.{CallsOne, PushesOwn, with_jobs};
    ghost use Rattle.parallel_pool.specs.contracts.rayon.worker_thread.WorkerThread.{the_row};

    /// The worker's index in its pool.
    pub fn index(&self) -> usize
        ensures { result ≡ self.now.index }
    {
        self.index
    }

    /// The label of its pool.
    pub fn label(&self) -> u64
        ensures { result ≡ self.now.label }
    {
        self.label
    }

    /// What a broadcast closure is told that stands for this worker.
    pub fn context(&self) -> BroadcastContext
        ensures { result ≡ context self.now.index (length self.now.jobs.broadcasts) }
    {
        BroadcastContext {
            index: self.index,
            num_threads: self.jobs.workers(),
        }
    }

    /// Its seat of the pool's queues. Whatever is pushed and taken by it, the worker keeps its
    /// index, its label and its own deque.
    pub fn jobs(&mut self) -> &mut JobSeat<T>
        ensures seat { result.now ≡ self.old.jobs }
        ensures* stays { sem 𝓛 (Lends (the_row T.row) (seat_row T.row) self.entry result
            (λ seat. with_jobs seat self.old)) }
    {
        &mut self.jobs
    }

    /// Pushes a job to its own deque.
    ///
    /// # Errors
    ///
    /// `Fault::Memory` with the job, if there is no memory for it.
    pub(crate) fn push<R: Wait>(&mut self, rt: &R, job: T) -> Result<(), (Fault, T)>
        ensures { MatchResult result (λ _. PushesOwn self.old job self.new)
            (λ refused. (refused ≡ (Fault.Memory, job)) × (self.new ≡ self.old)) }
    {
        let queue_was_empty = self.own.is_empty();
        self.registry.job_comes();
        match self.own.push(job) {
            Ok(()) => {
                self.registry
                    .sleep
                    .new_internal_jobs(rt, 1, queue_was_empty);
                Ok(())
            }
            Err(job) => {
                self.registry.one_less();
                Err((Fault::Memory, job))
            }
        }
    }

    /// Takes a job to call it: the last of its own deque, else the first that was broadcast to it,
    /// else the first of another worker's deque, from the next index round, else the first of the
    /// injected ones.
    pub(crate) fn find_work<R: Wait>(&mut self, rt: &R) -> Option<T>
        ensures { MatchOption result (self.new ≡ self.old) (λ job. CallsOne self.old job self.new) }
    {
        if let Some(job) = self.pop() {
            return Some(job);
        }
        if let Some(job) = self.take_from(rt, Queue::Broadcast(self.index)) {
            return Some(job);
        }
        if let Some(job) = self.steal(rt) {
            return Some(job);
        }
        self.take_from(rt, Queue::Injected)
    }

    // Takes the last job of its own deque.
    fn pop(&mut self) -> Option<T>
        ensures { MatchOption result (self.new ≡ self.old) (λ job. CallsOne self.old job self.new) }
    {
        self.own.pop_to_call()
    }

    // Takes the first job of another worker's deque.
    fn steal<R: Wait>(&mut self, rt: &R) -> Option<T>
        ensures { MatchOption result (self.new ≡ self.old) (λ job. CallsOne self.old job self.new) }
    {
        let workers = self.jobs.workers();
        let mut victim = self.index;
        for _ in 1..workers {
            victim = next_round(victim, workers);
            if let Some(job) = self.take_from(rt, Queue::Deque(victim)) {
                return Some(job);
            }
        }
        None
    }

    // Takes the first job of a queue.
    fn take_from<R: Wait>(&mut self, rt: &R, queue: Queue) -> Option<T>
        ensures { MatchOption result (self.new ≡ self.old) (λ job. CallsOne self.old job self.new) }
    {
        if !self.jobs.has(queue) {
            return None;
        }
        self.jobs.take_to_call(rt, queue)
    }

    // An idle worker, after it found no job: it starts to look for jobs, or goes on to its next
    // round.
    fn idle<R: Wait>(&mut self, rt: &R, idle: Option<IdleState>) -> Option<IdleState> {
        let Some(mut idle) = idle else {
            return self.registry.sleep.start_looking(rt, self.index);
        };
        let (jobs, index) = (&self.jobs, self.index);
        self.rest.idle(
            rt,
            &self.registry.sleep,
            &mut idle,
            || jobs.has_job_for(index),
        );
        Some(idle)
    }
}

// The next index, and 0 after the last one.
fn next_round(index: usize, workers: usize) -> usize {
    let next = index.wrapping_add(1);
    if next < workers { next } else { 0 }
}

impl<T: Execute> WorkerThread<T> {
    /// Calls jobs until the pool has come to its end.
    pub(crate) fn work<R: Wait>(&mut self, rt: &R) {
        let mut idle = None;
        for _ in rt.forever() {
            if self.rest.is_over() {
                break;
            }
            idle = self.next(rt, idle);
        }
        self.registry.worker_stops(rt, self.index);
    }

    // Calls a job, or is idle for a round.
    fn next<R: Wait>(&mut self, rt: &R, idle: Option<IdleState>) -> Option<IdleState> {
        let Some(job) = self.find_work(rt) else {
            return self.idle(rt, idle);
        };
        if let Some(idle) = idle {
            self.registry.sleep.work_found(rt, idle);
        }
        self.call(job);
        None
    }

    /// Calls a job that it took, which ends there.
    pub(crate) fn call(&self, job: T) {
        job.execute(self.index);
        self.registry.one_less();
    }
}
