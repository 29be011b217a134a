//! What the threads of a pool share, and how its workers come to their end.
ghost use Rattle.std.specs.Prelude.{◌≤◌};
ghost use Rattle.std.specs.NonZero.{non_zero_usize_get};
ghost use Rattle.parallel_fault.specs.Trouble.{IsMemoryOnErr};

use crate::latch::lock_latch::LockLatch;
use crate::latch::once_latch::OnceLatch;
use crate::rayon::rest::Rest;
use crate::rayon::thread_pool::MAX_THREADS;
use crate::sleep::Sleep;
use crossbeam_utils::sync::Parker;
use parallel_fault::Fault;
use std::alloc::Global;
use std::num::NonZeroUsize;
use std::sync::atomic::{AtomicU64, Ordering};
use std::sync::{Arc, Wait};

/// What the threads of a pool share: the workers' sleep, and what ends them.
#[derive(Drop)]
pub(crate) struct Registry {
    pub(crate) sleep: Sleep,
    terminate: Vec<Arc<OnceLatch, Global>>,
    stopped: Vec<LockLatch>,
    // The pool while it stands, and its owned jobs that have come and weren't called to their end.
    remaining: AtomicU64,
}

impl Registry {
    /// The registry of that many workers, and what each rests by, in order.
    ///
    /// # Errors
    ///
    /// `Fault::Memory` if an allocation fails.
    pub(crate) fn new(alloc: Global, workers: NonZeroUsize) -> Result<(Registry, Vec<Rest>), Fault>
        requires { non_zero_usize_get workers ≤ MAX_THREADS }
        ensures fault { IsMemoryOnErr result }
    {
        let (sleep, parkers) = Sleep::new(alloc, workers)?;
        let rests = rests(alloc, parkers)?;
        let terminate = latches(alloc, rests.as_slice())?;
        let stopped = lock_latches(alloc, workers.get())?;
        let registry = Registry {
            sleep,
            terminate,
            stopped,
            remaining: AtomicU64::new(1),
        };
        Ok((registry, rests))
    }

    /// A job is about to come.
    pub(crate) fn job_comes(&self) {
        self.remaining.fetch_add(1, Ordering::SeqCst);
    }

    /// A job was called to its end, or didn't come after all; or the pool is dropped. The last of
    /// them ends the workers: it takes no lock and no memory.
    pub(crate) fn one_less(&self) {
        if self.remaining.fetch_sub(1, Ordering::SeqCst) == 1 {
            self.end_workers();
        }
    }

    /// A worker has come to its end: it calls no job any more.
    pub(crate) fn worker_stops<R: Wait>(&self, rt: &R, worker_index: usize) {
        if let Some(stopped) = self.stopped.get(worker_index) {
            stopped.set(rt);
        }
    }

    /// Waits until a worker that was started has come to its end.
    pub(crate) fn wait_until_stopped<R: Wait>(&self, rt: &R, worker_index: usize) {
        if let Some(stopped) = self.stopped.get(worker_index) {
            stopped.wait(rt);
        }
    }

    // Sets the latch of each worker, and unparks those that sleep.
    fn end_workers(&self) {
        for latch in self.terminate.iter() {
            let mut seat = latch.as_core_latch().newcomer();
            if let Some(worker_index) = latch.set(&mut seat) {
                self.sleep.unpark_worker(worker_index);
            }
        }
    }
}

// `count` latches that aren't set.
fn lock_latches(alloc: Global, count: usize) -> Result<Vec<LockLatch>, Fault>
    ensures fault { IsMemoryOnErr result }
{
    let mut all = Vec::new(alloc);
    for _ in 0..count {
        all.push(LockLatch::new())?;
    }
    Ok(all)
}

// What each worker rests by, on its parker.
fn rests(alloc: Global, parkers: Vec<Parker>) -> Result<Vec<Rest>, Fault>
    ensures fault { IsMemoryOnErr result }
{
    let mut all = Vec::new(alloc);
    for parker in parkers {
        all.push(Rest::new(alloc, all.len(), parker)?)?;
    }
    Ok(all)
}

// The latch of each worker.
fn latches(alloc: Global, rests: &[Rest]) -> Result<Vec<Arc<OnceLatch, Global>>, Fault>
    ensures fault { IsMemoryOnErr result }
{
    let mut all = Vec::new(alloc);
    for rest in rests {
        all.push(rest.latch()?)?;
    }
    Ok(all)
}

/// The pool's own part of what remains, until it is released. The workers end once it is and each
/// job was called.
pub(crate) struct Hold {
    pub(crate) registry: Arc<Registry, Global>,
    is_held: bool,
}

impl Hold {
    /// The part of a pool that stands.
    pub(crate) fn new(registry: Arc<Registry, Global>) -> Hold {
        Hold {
            registry,
            is_held: true,
        }
    }

    /// The pool has come to its end.
    pub(crate) fn release(&mut self) {
        if self.is_held {
            self.is_held = false;
            self.registry.one_less();
        }
    }
}

impl Drop for Hold {
    fn drop(self) {
        let Hold { registry, is_held } = self;
        if is_held {
            registry.one_less();
        }
    }
}
