//! The ways in which a job comes to a pool, each of any number of workers, of which this thread is
//! the first.
use crate::checks::row;
use crate::tally::{Act, Host, Job, Tally, awaits, empty_tally, push_by, telling, told_to};
use parallel_fault::Fault;
use parallel_pool::rayon::{Queue, Staff, ThreadPool, ThreadPoolBuilder, WorkerThread, Yield};
use std::collections::VecDeque;
use std::process::Abort;
use std::sync::{Arc, Wait};

/// How a job comes.
#[derive(Clone, Copy, Debug, PartialEq, Eq)]
pub(crate) enum Brought {
    /// From outside.
    Spawned,
    /// Among the injected ones, by the first worker's seat.
    Injected,
    /// Onto the first worker's own deque.
    Own,
    /// To one worker, by the seat.
    ToOne,
    /// One to each worker, by the pool.
    ToEach,
    /// One to each worker, by the seat.
    ToEachBySeat,
    /// From a worker of another pool.
    Stranger,
}

/// All of them.
pub(crate) const ALL: [Brought; 7] = [
    Brought::Spawned,
    Brought::Injected,
    Brought::Own,
    Brought::ToOne,
    Brought::ToEach,
    Brought::ToEachBySeat,
    Brought::Stranger,
];

/// A job of so many words that a push of one takes as long as a worker takes for some rounds.
pub(crate) type Long = Job<4096>;

/// A pool of which this thread is the first worker, and that worker; with its tally, and a worker
/// of another pool.
#[derive(Drop)]
pub(crate) struct Led {
    pub(crate) pool: ThreadPool<Staff<Long>>,
    pub(crate) worker: WorkerThread<Long>,
    pub(crate) tally: Arc<Tally>,
    pub(crate) stranger: WorkerThread<Long>,
}

// A pool as a builder makes it of which this thread is the first worker, and that worker.
fn first_of<R: Host>(
    rt: &R,
    builder: ThreadPoolBuilder,
) -> (ThreadPool<Staff<Long>>, WorkerThread<Long>) {
    let builder = builder.use_current_thread();
    let built = builder.build_for::<R, Long>(rt, rt.alloc());
    let (pool, current) = built.expect(rt, "a pool");
    (pool, current.expect(rt, "the current worker"))
}

/// Such a pool of that many workers, the others of which are started. The pool of the stranger is
/// dropped.
pub(crate) fn leads<R: Host>(rt: &R, num_threads: usize) -> Led {
    let tally = empty_tally(rt);
    let builder = told_to(rt.alloc(), num_threads, &tally).expect(rt, "memory");
    let (pool, worker) = first_of(rt, builder);
    let others = ThreadPoolBuilder::new().num_threads(1).label(7);
    let (_theirs, stranger) = first_of(rt, others);
    Led {
        pool,
        worker,
        tally,
        stranger,
    }
}

impl Led {
    // A job for each worker: for one of them that one, and for the others such as count apart.
    fn one_each<R: Host>(&self, rt: &R, target: usize, act: Act) -> VecDeque<Long> {
        let mut jobs = VecDeque::new(rt.alloc());
        for worker in 0..self.pool.current_num_threads() {
            let its = if worker == target { act } else { Act::Counts };
            let job = telling(rt, &self.tally, its);
            jobs.push_back(job).expect(rt, "memory");
        }
        jobs
    }

    /// Brings a job to each worker by the pool, or by the seat, and returns those that are refused.
    pub(crate) fn brings_each(
        &mut self,
        rt: &impl Wait,
        jobs: VecDeque<Long>,
        by_pool: bool,
    ) -> Option<(Fault, VecDeque<Long>)> {
        if by_pool {
            return if jobs.len() == self.pool.current_num_threads() {
                self.pool.spawn_broadcast(rt, jobs).err()
            } else {
                None
            };
        }
        let seat = self.worker.jobs();
        if jobs.len() <= seat.workers() {
            seat.push_each(rt, jobs).err()
        } else {
            None
        }
    }

    /// Brings a job, which one worker is to call where it is for one, and returns whether it came.
    pub(crate) fn brings<R: Host>(
        &mut self,
        rt: &R,
        brought: Brought,
        target: usize,
        act: Act,
    ) -> bool {
        let by_pool = brought == Brought::ToEach;
        if by_pool || brought == Brought::ToEachBySeat {
            let jobs = self.one_each(rt, target, act);
            return self.brings_each(rt, jobs, by_pool).is_none();
        }
        let job = telling(rt, &self.tally, act);
        match brought {
            Brought::Own => self.pool.spawn_from(rt, &mut self.worker, job).is_ok(),
            Brought::ToOne => push_by(rt, &mut self.worker, Queue::Broadcast(target), job),
            Brought::Stranger => self.pool.spawn_from(rt, &mut self.stranger, job).is_ok(),
            Brought::Injected => push_by(rt, &mut self.worker, Queue::Injected, job),
            _ => self.pool.spawn(rt, job).is_ok(),
        }
    }

    /// The worker of an index calls a job that waits until the tally that is returned is opened.
    pub(crate) fn halts<R: Host>(&mut self, rt: &R, index: usize) -> Arc<Tally> {
        let tally = empty_tally(rt);
        let waits = telling(rt, &tally, Act::Waits);
        let came = push_by(rt, &mut self.worker, Queue::Broadcast(index), waits);
        row(rt, index, came, true);
        awaits(rt, &tally.entered, 1, "the worker waits");
        tally
    }

    /// This thread calls all jobs that it finds, and the pool is closed.
    pub(crate) fn ends(self, rt: &impl Wait) {
        let Led {
            pool,
            mut worker,
            tally: _,
            stranger: _,
        } = self;
        for _ in 0..100_000u32 {
            if pool.yield_now(rt, &mut worker) != Some(Yield::Executed) {
                break;
            }
        }
        pool.close(rt);
    }
}
