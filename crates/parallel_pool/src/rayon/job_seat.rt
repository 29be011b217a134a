//! One thread's views of a pool's queues, by which it pushes and takes jobs.
use crate::rayon::inlet_port::InletPort;
use crate::rayon::job_history::{Purpose, ToCall, ToKeep};
use crate::rayon::owned_job::OwnedJob;
use crate::rayon::queue::Queue;
use crate::rayon::registry::Registry;
use crate::rayon::thief_port::ThiefPort;
use parallel_fault::Fault;
use std::alloc::Global;
use std::collections::VecDeque;
use std::marker::Model;
use std::sync::{Arc, Wait};

/// One thread's views of a pool's queues: what it has seen pushed and taken there, and what it
/// pushed and took itself (`injected`, `broadcasts` and `deques`).
///
/// A call says of one queue that its history, as far as this seat had seen it, goes on and ends
/// with the call. A job that is pushed by the seat of a pool has come to the pool, whose workers
/// don't end before it was called or taken by a seat, and wakes a worker as `ThreadPool::spawn`
/// does.
#[derive(Drop)]
pub struct JobSeat<T: Drop = OwnedJob> {
    pub(crate) injected: InletPort<T>,
    pub(crate) broadcasts: Vec<InletPort<T>>,
    pub(crate) deques: Vec<ThiefPort<T>>,
    // What the pool's threads share, where a pool stands over the queues.
    pub(crate) registry: Option<Arc<Registry, Global>>,
}

impl<T: Drop> Model for JobSeat<T> {
    ghost use Rattle.parallel_pool.specs.JobSeat.{SeatView};

    ghost Value = { SeatView T };

    ghost view = { λ s. record {
      injected = s.injected;
      broadcasts = s.broadcasts.items;
      deques = s.deques.items;
    } };
}

impl<T: Drop> JobSeat<T> {
    ghost use Rattle.std.specs.Prelude.{◌≡◌, ◌<◌, ◌≤◌, ◌↔◌, IsTrue, length, MatchOption, MatchResult, false, true};
    ghost use Rattle.parallel_pool.specs.JobHistory.{HasPushed, HasTaken};
    ghost use Rattle.parallel_pool.specs.JobSeat.{IsInlet, IsQueueOf, Does, PushesFrom, PushesSome};
    ghost use Rattle.parallel_pool.specs.declared.rayon.job_history.Deed.TheVariants.{TakeFirst};
    ghost use Rattle.parallel_pool.specs.declared.rayon.queue.Queue.TheVariants.{Injected, Broadcast, Deque};

    /// Pushes a job to a queue.
    ///
    /// # Errors
    ///
    /// `Fault::Memory`, with the same job, where there is no memory for it, and then it doesn't
    /// count as come.
    pub fn push<R: Wait>(&mut self, rt: &R, queue: Queue, job: T) -> Result<(), (Fault, T)>
        requires { IsInlet queue self.old }
        ensures { MatchResult result (λ _. Does queue (λ v w. HasPushed v job w) self.old self.new)
            (λ refused. (refused ≡ (Fault.Memory, job)) × (self.new ≡ self.old)) }
    {
        let queue_was_empty = !self.has_injected();
        let pushed = self.bring(rt, queue, job);
        if pushed.is_ok() {
            self.wake_for(rt, queue, queue_was_empty);
        }
        pushed
    }

    /// Pushes job 0 to the broadcast queue of worker 0, job 1 to that of worker 1, and so on.
    ///
    /// # Errors
    ///
    /// `Fault::Memory`, with the jobs that weren't pushed, in order, where there is no memory for
    /// one of them; those before it stay pushed, and those that come back don't count as come.
    pub fn push_each<R: Wait>(
        &mut self,
        rt: &R,
        jobs: VecDeque<T>,
    ) -> Result<(), (Fault, VecDeque<T>)>
        requires { length jobs.items ≤ length self.old.broadcasts }
        ensures { MatchResult result (λ _. PushesFrom 0 jobs.items self.old self.new)
            (λ refused. (refused.0 ≡ Fault.Memory)
            × PushesSome jobs.items refused.1.items self.old self.new) }
    {
        let workers = jobs.len();
        let pushed = self.bring_each(rt, jobs);
        for worker in 0..workers {
            self.wake_for(rt, Queue::Broadcast(worker), false);
        }
        pushed
    }

    /// Pushes a job to a queue, as `push` does, and wakes nobody.
    ///
    /// # Errors
    ///
    /// `Fault::Memory` with the same job, as of `push`.
    pub(crate) fn bring<R: Wait>(&mut self, rt: &R, queue: Queue, job: T) -> Result<(), (Fault, T)>
        requires { IsInlet queue self.old }
        ensures { MatchResult result (λ _. Does queue (λ v w. HasPushed v job w) self.old self.new)
            (λ refused. (refused ≡ (Fault.Memory, job)) × (self.new ≡ self.old)) }
    {
        let pushed = match queue {
            Queue::Injected => self.inject(rt, job),
            Queue::Broadcast(worker) => self.push_for(rt, worker, job),
            Queue::Deque(_) => Err(job),
        };
        match pushed {
            Ok(()) => Ok(()),
            Err(job) => Err((Fault::Memory, job)),
        }
    }

    /// Pushes a job to each worker's broadcast queue, as `push_each` does, and wakes nobody.
    ///
    /// # Errors
    ///
    /// `Fault::Memory` with the jobs that weren't pushed, as of `push_each`.
    pub(crate) fn bring_each<R: Wait>(
        &mut self,
        rt: &R,
        mut jobs: VecDeque<T>,
    ) -> Result<(), (Fault, VecDeque<T>)>
        requires { length jobs.items ≤ length self.old.broadcasts }
        ensures { MatchResult result (λ _. PushesFrom 0 jobs.items self.old self.new)
            (λ refused. (refused.0 ≡ Fault.Memory)
            × PushesSome jobs.items refused.1.items self.old self.new) }
    {
        for worker in 0..jobs.len() {
            let Some(job) = jobs.pop_front() else {
                break;
            };
            if let Err(job) = self.push_for(rt, worker, job) {
                jobs.push_front_reserved(job);
                return Err((Fault::Memory, jobs));
            }
        }
        Ok(())
    }

    // Pushes a job to the injected ones. It counts as come before a worker can call it.
    fn inject<R: Wait>(&mut self, rt: &R, job: T) -> Result<(), T>
        ensures { MatchResult result (λ _. Does Injected
            (λ v w. HasPushed v job w) self.old self.new)
            (λ back. (back ≡ job) × (self.new ≡ self.old)) }
    {
        self.job_comes();
        let pushed = self.put_injected(rt, job);
        if pushed.is_err() {
            self.one_less();
        }
        pushed
    }

    // Pushes a job to a worker's broadcast queue. It counts as come before the worker can call it.
    fn push_for<R: Wait>(&mut self, rt: &R, worker: usize, job: T) -> Result<(), T>
        requires { worker < length self.old.broadcasts }
        ensures { MatchResult result (λ _. Does (Broadcast worker)
            (λ v w. HasPushed v job w) self.old self.new)
            (λ back. (back ≡ job) × (self.new ≡ self.old)) }
    {
        self.job_comes();
        let pushed = self.put_for(rt, worker, job);
        if pushed.is_err() {
            self.one_less();
        }
        pushed
    }

    // Pushes a job to the injected ones, uncounted.
    fn put_injected<R: Wait>(&mut self, rt: &R, job: T) -> Result<(), T>
        ensures { MatchResult result (λ _. Does Injected
            (λ v w. HasPushed v job w) self.old self.new)
            (λ back. (back ≡ job) × (self.new ≡ self.old)) }
    {
        self.injected.push(rt, job)
    }

    // Pushes a job to a worker's broadcast queue, uncounted.
    fn put_for<R: Wait>(&mut self, rt: &R, worker: usize, job: T) -> Result<(), T>
        requires { worker < length self.old.broadcasts }
        ensures { MatchResult result (λ _. Does (Broadcast worker)
            (λ v w. HasPushed v job w) self.old self.new)
            (λ back. (back ≡ job) × (self.new ≡ self.old)) }
    {
        self.broadcasts[worker].push(rt, job)
    }

    // A job is about to come to the pool.
    fn job_comes(&self) {
        if let Some(registry) = &self.registry {
            registry.job_comes();
        }
    }

    // A job has left the pool, or didn't come after all.
    fn one_less(&self) {
        if let Some(registry) = &self.registry {
            registry.one_less();
        }
    }

    // Wakes who is to call a job that was pushed to this queue, where they sleep.
    fn wake_for<R: Wait>(&self, rt: &R, queue: Queue, queue_was_empty: bool) {
        let Some(registry) = &self.registry else {
            return;
        };
        match queue {
            Queue::Broadcast(worker) => registry.sleep.notify_worker_latch_is_set(rt, worker),
            Queue::Injected | Queue::Deque(_) => {
                registry.sleep.new_injected_jobs(rt, 1, queue_was_empty);
            }
        }
    }

    /// The same seat, whose jobs this pool counts.
    pub(crate) fn counted_by(self, registry: Arc<Registry, Global>) -> JobSeat<T>
        ensures { result ≡ self }
    {
        let mut seat = self;
        seat.registry = Some(registry);
        seat
    }

    /// How many workers the pool has: that many broadcast queues, and that many deques.
    pub fn workers(&self) -> usize
        ensures broadcasts { result ≡ length self.now.broadcasts }
    {
        self.broadcasts.len()
    }

    /// Whether the queue is one of the pool.
    pub fn has(&self, queue: Queue) -> bool
        ensures { IsTrue result ↔ IsQueueOf queue self.now }
    {
        match queue {
            Queue::Injected => true,
            Queue::Broadcast(worker) => worker < self.broadcasts.len(),
            Queue::Deque(worker) => worker < self.deques.len(),
        }
    }

    /// Whether a job is there that only this worker may call or that came from outside: one of the
    /// injected jobs, or of its broadcast queue, each at one moment of the call.
    pub(crate) fn has_job_for(&self, worker: usize) -> bool {
        if let Some(own) = self.broadcasts.get(worker)
            && !own.is_empty()
        {
            return true;
        }
        self.has_injected()
    }

    /// Whether there are injected jobs, at one moment of the call.
    pub(crate) fn has_injected(&self) -> bool {
        !self.injected.is_empty()
    }

    /// Takes the first job of a queue, where there is one. It has left the pool then.
    pub fn take<R: Wait>(&mut self, rt: &R, queue: Queue) -> Option<T>
        requires { IsQueueOf queue self.old }
        ensures { MatchOption result (self.new ≡ self.old)
            (λ job. Does queue (λ v w. HasTaken TakeFirst false v job w) self.old self.new) }
    {
        let taken = self.take_as::<ToKeep, R>(rt, queue);
        if taken.is_some() {
            self.one_less();
        }
        taken
    }

    /// Takes the first job of a queue, where there is one, to call it at once. It counts until it
    /// was called to its end (`WorkerThread::call`).
    pub(crate) fn take_to_call<R: Wait>(&mut self, rt: &R, queue: Queue) -> Option<T>
        requires { IsQueueOf queue self.old }
        ensures { MatchOption result (self.new ≡ self.old)
            (λ job. Does queue (λ v w. HasTaken TakeFirst true v job w) self.old self.new) }
    {
        self.take_as::<ToCall, R>(rt, queue)
    }

    // Takes the first job of a queue, for a purpose.
    fn take_as<U: Purpose, R: Wait>(&mut self, rt: &R, queue: Queue) -> Option<T>
        requires { IsQueueOf queue self.old }
        ensures { MatchOption result (self.new ≡ self.old)
            (λ job. Does queue (λ v w. HasTaken TakeFirst U.called v job w) self.old self.new) }
    {
        match queue {
            Queue::Injected => self.take_injected::<U, R>(rt),
            Queue::Broadcast(worker) => self.take_broadcast::<U, R>(rt, worker),
            Queue::Deque(worker) => self.steal::<U, R>(rt, worker),
        }
    }

    // Takes the first of the injected jobs.
    fn take_injected<U: Purpose, R: Wait>(&mut self, rt: &R) -> Option<T>
        ensures { MatchOption result (self.new ≡ self.old)
            (λ job. Does Injected (λ v w. HasTaken TakeFirst U.called v job w) self.old self.new) }
    {
        self.injected.take::<U, R>(rt)
    }

    // Takes the first job of a worker's broadcast queue.
    fn take_broadcast<U: Purpose, R: Wait>(&mut self, rt: &R, worker: usize) -> Option<T>
        requires { worker < length self.old.broadcasts }
        ensures { MatchOption result (self.new ≡ self.old)
            (λ job. Does (Broadcast worker)
            (λ v w. HasTaken TakeFirst U.called v job w) self.old self.new) }
    {
        self.broadcasts[worker].take::<U, R>(rt)
    }

    // Takes the first job of a worker's deque.
    fn steal<U: Purpose, R: Wait>(&mut self, rt: &R, worker: usize) -> Option<T>
        requires { worker < length self.old.deques }
        ensures { MatchOption result (self.new ≡ self.old)
            (λ job. Does (Deque worker) (λ v w. HasTaken TakeFirst U.called v job w) self.old
            self.new) }
    {
        self.deques[worker].take::<U, R>(rt)
    }
}
