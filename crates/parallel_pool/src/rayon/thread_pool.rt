//! A pool that holds a number of threads, and the calls that run closures on scoped ones.
ghost use Rattle.std.specs.Prelude.{◌≡◌, ◌≤◌, ◌<◌, ℕ, min, vec_len, slice_index_or, IfOk};
ghost use Rattle.std.specs.List.{range_with_len};
ghost use Rattle.std.specs.NonZero.{non_zero_usize_get};
ghost use Rattle.parallel_fault.specs.Trouble.{IsMemoryOnErr};

use crate::rayon::broadcast_context::BroadcastContext;
use crate::rayon::in_row::map_in_row;
use parallel_fault::Fault;
use std::alloc::{AllocError, Global};
use std::fmt::{Debug, Formatter, Write};
use std::num::NonZeroUsize;
use std::thread::Threads;
use std::{fmt, thread};

/// The greatest number of threads that a pool has.
pub const MAX_THREADS: usize = 65_535;

/// A number of threads, 1 to `MAX_THREADS`, the calls that run closures on scoped workers, and what
/// serves them: `Staff`, the workers and the queues of a pool that was built, or nothing.
///
/// Contracts name the number by `thread_count` and the label by `label_of`.
#[derive(Drop)]
pub struct ThreadPool<W: Drop = Scoped> {
    num_threads: NonZeroUsize,
    label: u64,
    pub(crate) staff: W,
    pub ghost at_most: { non_zero_usize_get num_threads ≤ 65535 },
}

/// A pool that is nothing but its number: no thread is kept waiting, and each call that needs
/// a worker starts it and joins it.
#[derive(Debug, Drop)]
pub struct Scoped;

impl ThreadPool<Scoped> {
    ghost use Rattle.parallel_pool.specs.ThreadPool.{thread_count};

    /// A pool of `num_threads` threads, or of `MAX_THREADS` where that is fewer, of which none is
    /// started before a call needs it.
    pub fn new(num_threads: NonZeroUsize) -> ThreadPool<Scoped>
        ensures { thread_count result ≡ min (non_zero_usize_get num_threads) MAX_THREADS }
    {
        let most = NonZeroUsize::MIN.saturating_add(MAX_THREADS - 1);
        let num_threads = if num_threads.get() <= MAX_THREADS {
            num_threads
        } else {
            most
        };
        ThreadPool {
            num_threads,
            label: 0,
            staff: Scoped,
        }
    }
}

impl Debug for ThreadPool<Scoped> {
    fn fmt<W: Write>(&self, f: &mut Formatter<W>) -> fmt::Result {
        f.debug_struct("ThreadPool")
            .field("num_threads", &self.num_threads)
            .finish()
    }
}

impl<W: Drop> ThreadPool<W> {
    ghost use Rattle.parallel_pool.specs.ThreadPool.{thread_count, label_of};
    ghost use Rattle.parallel_pool.specs.Broadcast.{context};

    /// The pool of that many threads, with this label, and what serves it.
    pub(crate) fn over(num_threads: NonZeroUsize, label: u64, staff: W) -> ThreadPool<W>
        requires { non_zero_usize_get num_threads ≤ MAX_THREADS }
        ensures count { thread_count result ≡ non_zero_usize_get num_threads }
        ensures label { label_of result ≡ label }
    {
        ThreadPool {
            num_threads,
            label,
            staff,
        }
    }

    /// The pool's label, 0 where none was set: a worker belongs to the pool where it has the same.
    pub fn label(&self) -> u64
        ensures { result ≡ label_of self.now }
    {
        self.label
    }

    /// The number of the pool's threads.
    pub fn current_num_threads(&self) -> usize
        ensures count { result ≡ thread_count self.now }
        ensures at_least { 1 ≤ result }
        ensures at_most { result ≤ MAX_THREADS }
    {
        self.num_threads.get()
    }

    /// The number of the pool's threads, of which there is at least one.
    pub fn num_threads(&self) -> NonZeroUsize
        ensures count { non_zero_usize_get result ≡ thread_count self.now }
        ensures at_most { non_zero_usize_get result ≤ MAX_THREADS }
    {
        self.num_threads
    }

    /// Runs `op` on a worker and returns what it returned.
    ///
    /// The worker is a scoped one that ends with `op`; where the system makes no thread, `op` runs
    /// on the caller's. The call counts as one from outside the pool, also where `op` itself
    /// installs.
    pub fn install<R: Threads, T: Send, F: FnOnce() -> T + Send>(&self, rt: &R, op: F) -> T
        requires { F.pre op }
        ensures { F.post op result }
    {
        install(rt, op)
    }

    /// Runs `op` once for each of the pool's threads and lists the results, by index.
    ///
    /// The calls run at the same time, all but one each on a scoped worker where the system makes
    /// one; the caller starts these one after another (`map_in_row`).
    ///
    /// # Errors
    ///
    /// `Fault::Memory` where a list can't grow; `op` has not been called then.
    pub fn broadcast<R: Threads + Sync, T: Send + Drop, F: Fn(BroadcastContext) -> T + Sync>(
        &self,
        rt: &R,
        alloc: Global,
        op: &F,
    ) -> Result<Vec<T>, Fault>
        requires { (index : ℕ) → index < thread_count self.now
            → F.pre op.now (context index (thread_count self.now)) }
        ensures count { IfOk result (λ answers. vec_len answers ≡ thread_count self.now) }
        ensures each { IfOk result (λ answers. (index : ℕ) (other : _)
            → index < thread_count self.now
            → F.post op.now (context index (thread_count self.now))
            (slice_index_or answers.items index other)) }
        ensures fault { IsMemoryOnErr result }
    {
        let num_threads = self.current_num_threads();
        let indices = indices(alloc, num_threads)?;
        let answers = map_in_row(
            rt,
            alloc,
            indices,
            &|index: usize| -> T
                requires { F.pre op.now (context index num_threads) }
                ensures { F.post op.entry.now (context index num_threads) result }
            { op(BroadcastContext { index, num_threads }) },
        )?;
        Ok(answers)
    }
}

// The numbers below `count`, in order.
fn indices(alloc: Global, count: usize) -> Result<Vec<usize>, AllocError>
    ensures { IfOk result (λ indices. indices.items ≡ range_with_len 0 count) }
{
    (0..count).collect(alloc)
}

/// Runs `op` on a worker of its own and returns what it returned, as `ThreadPool::install` does,
/// for callers that have no pool at hand.
pub fn install<R: Threads, T: Send, F: FnOnce() -> T + Send>(rt: &R, op: F) -> T
    requires { F.pre op }
    ensures { F.post op result }
{
    thread::join(rt, op, || ()).0
}
