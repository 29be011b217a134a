//! What serves a pool that was built: its queues, its workers, and the calls that bring
//! jobs.
ghost use Rattle.std.specs.Prelude.{◌≡◌, ◌≢◌, ◌≤◌, ◌<◌, ◌+◌, ◌↔◌, ℕ, ◌++◌, length, IfErr, IfSome, MatchOption, MatchResult, None, Some};
ghost use Rattle.parallel_pool.specs.JobHistory.{HasPushed};
ghost use Rattle.parallel_pool.specs.ThreadPool.{thread_count, label_of};
ghost use Rattle.parallel_pool.specs.WorkerThread.{CallsOne, PushesOwn, calls_of};
ghost use Rattle.parallel_pool.specs.declared.rayon.yields.Yield.TheVariants.{Executed, Idle};

use crate::rayon::job_seat::JobSeat;
use crate::rayon::owned_job::{Execute, OwnedJob};
use crate::rayon::queue::Queue;
use crate::rayon::registry::{Hold, Registry};
use crate::rayon::thread_pool::ThreadPool;
use crate::rayon::worker_thread::WorkerThread;
use crate::rayon::yields::Yield;
use parallel_fault::Fault;
use std::collections::VecDeque;
use std::fmt;
use std::fmt::{Debug, Formatter, Write};
use std::ops::Range;
use std::sync::{Mutex, Wait};

/// The queues and the workers of a pool that was built.
///
/// Dropped with its pool it lets the workers go: they end once each job that came was called.
#[derive(Drop)]
pub struct Staff<T: Drop = OwnedJob> {
    // The pool's own seat of its queues. What lies under the lock is known by its type alone.
    seat: Mutex<JobSeat<T>>,
    hold: Hold,
    // The indices of the workers that were started.
    started: Range<usize>,
}

impl<T: Drop> Staff<T> {
    /// Queues by their seat, and no worker that was started yet.
    pub(crate) fn new(seat: JobSeat<T>, hold: Hold) -> Staff<T> {
        Staff {
            seat: Mutex::new(seat),
            hold,
            started: 0..0,
        }
    }

    /// The same, with the workers of these indices started.
    pub(crate) fn with_started(self, started: Range<usize>) -> Staff<T> {
        let mut staff = self;
        staff.started = started;
        staff
    }

    fn registry(&self) -> &Registry {
        &self.hold.registry
    }

    // Pushes a job to the injected ones, and wakes a worker where one is needed.
    fn inject<R: Wait>(&self, rt: &R, job: T) -> Result<(), (Fault, T)>
        ensures { IfErr result (λ refused. refused ≡ (Fault.Memory, job)) }
    {
        let mut seat = self.seat.lock(rt);
        let queue_was_empty = !seat.has_injected();
        let pushed = seat.bring(rt, Queue::Injected, job);
        drop(seat);
        if pushed.is_ok() {
            self.registry()
                .sleep
                .new_injected_jobs(rt, 1, queue_was_empty);
        }
        pushed
    }

    // Pushes job i to the broadcast queue of worker i, and wakes each worker that has one.
    fn inject_each<R: Wait>(&self, rt: &R, jobs: VecDeque<T>) -> Result<(), (Fault, VecDeque<T>)>
        ensures { IfErr result (λ refused. (refused.0 ≡ Fault.Memory)
            × ((done : _) × (jobs.items ≡ done ++ refused.1.items))) }
    {
        let workers = jobs.len();
        let pushed = self.bring_each(rt, jobs);
        for worker_index in 0..workers {
            self.registry()
                .sleep
                .notify_worker_latch_is_set(rt, worker_index);
        }
        pushed
    }

    // The seat is one of the pool's queues, so there is one for each job.
    fn bring_each<R: Wait>(&self, rt: &R, jobs: VecDeque<T>) -> Result<(), (Fault, VecDeque<T>)>
        ensures { IfErr result (λ refused. (refused.0 ≡ Fault.Memory)
            × ((done : _) × (jobs.items ≡ done ++ refused.1.items))) }
    {
        let mut seat = self.seat.lock(rt);
        if seat.workers() < jobs.len() {
            return Err((Fault::Memory, jobs));
        }
        seat.bring_each(rt, jobs)
    }

    // Lets the workers go, and waits until each that was started has come to its end.
    fn close<R: Wait>(self, rt: &R) {
        let mut staff = self;
        staff.hold.release();
        for worker_index in staff.started.start..staff.started.end {
            staff.hold.registry.wait_until_stopped(rt, worker_index);
        }
    }
}

impl<T: Drop> Debug for ThreadPool<Staff<T>> {
    fn fmt<W: Write>(&self, f: &mut Formatter<W>) -> fmt::Result {
        f.debug_struct("ThreadPool")
            .field("num_threads", &self.current_num_threads())
            .field("id", &self.label())
            .finish()
    }
}

impl<T: Drop> ThreadPool<Staff<T>> {
    /// Puts a job among the injected ones: a worker will call it once.
    ///
    /// # Errors
    ///
    /// `Fault::Memory`, with the same job, where there is no memory for it.
    pub fn spawn<R: Wait>(&self, rt: &R, job: T) -> Result<(), (Fault, T)>
        ensures { IfErr result (λ refused. refused ≡ (Fault.Memory, job)) }
    {
        self.staff.inject(rt, job)
    }

    /// Puts a job onto the worker's own deque where it is one of this pool's, by their labels, and
    /// else among the injected jobs of this pool.
    ///
    /// # Errors
    ///
    /// `Fault::Memory`, with the same job, where there is no memory for it.
    pub fn spawn_from<R: Wait>(
        &self,
        rt: &R,
        worker: &mut WorkerThread<T>,
        job: T,
    ) -> Result<(), (Fault, T)>
        ensures own { worker.old.label ≡ label_of self.now
            → MatchResult result (λ _. PushesOwn worker.old job worker.new)
            (λ refused. (refused ≡ (Fault.Memory, job)) × (worker.new ≡ worker.old)) }
        ensures other { worker.old.label ≢ label_of self.now → worker.new ≡ worker.old }
        ensures refused { IfErr result (λ refused. refused ≡ (Fault.Memory, job)) }
    {
        if worker.label() == self.label() {
            worker.push(rt, job)
        } else {
            self.staff.inject(rt, job)
        }
    }

    /// Gives job i to worker i, for each of the pool's workers.
    ///
    /// # Errors
    ///
    /// `Fault::Memory`, with the jobs that weren't queued, in order, where there is no memory for
    /// one of them; those before it stay queued.
    pub fn spawn_broadcast<R: Wait>(
        &self,
        rt: &R,
        jobs: VecDeque<T>,
    ) -> Result<(), (Fault, VecDeque<T>)>
        requires { length jobs.items ≡ thread_count self.now }
        ensures { IfErr result (λ refused. (refused.0 ≡ Fault.Memory)
            × ((done : _) × (jobs.items ≡ done ++ refused.1.items))) }
    {
        self.staff.inject_each(rt, jobs)
    }

    /// The worker's index where it is one of this pool's, by their labels.
    pub fn current_thread_index(&self, worker: &WorkerThread<T>) -> Option<usize>
        ensures own { worker.now.label ≡ label_of self.now → result ≡ Some worker.now.index }
        ensures other { worker.now.label ≢ label_of self.now → result ≡ None }
    {
        if worker.label() == self.label() {
            Some(worker.index())
        } else {
            None
        }
    }

    /// Ends the pool: waits until each job that came was called and each started worker has come to
    /// its end. A pool that is dropped comes to the same end, and nobody waits for it.
    ///
    /// It never returns where a job came for a worker that wasn't started and doesn't yield.
    pub fn close<R: Wait>(self, rt: &R) {
        let ThreadPool { staff, .. } = self;
        staff.close(rt)
    }
}

impl<T: Execute> ThreadPool<Staff<T>> {
    /// Calls one job, where the worker is one of this pool's, by their labels, and finds one. It
    /// looks where a started worker does.
    pub fn yield_now<R: Wait>(&self, rt: &R, worker: &mut WorkerThread<T>) -> Option<Yield>
        ensures none { (result ≡ None) ↔ (worker.old.label ≢ label_of self.now) }
        ensures executed { (result ≡ Some Executed) ↔ (calls_of worker.old < calls_of worker.new) }
        ensures once { result ≡ Some Executed → (job : _) × CallsOne worker.old job worker.new
            × (calls_of worker.new ≡ calls_of worker.old + 1) }
        ensures idle { result ≢ Some Executed → worker.new ≡ worker.old }
    {
        if worker.label() != self.label() {
            return None;
        }
        match worker.find_work(rt) {
            Some(job) => {
                worker.call(job);
                Some(Yield::Executed)
            }
            None => Some(Yield::Idle),
        }
    }
}
