//! The queues of a pool, and how a thread comes to its views of them.
ghost use Rattle.std.specs.Prelude.{◌≡◌, All, IfOk, length, vec_len};
ghost use Rattle.parallel_pool.specs.JobHistory.{new_pass};
ghost use Rattle.parallel_fault.specs.Trouble.{IsMemoryOnErr};

use crate::rayon::inlet_port::{Inlet, InletPort};
use crate::rayon::job_deque::JobDeque;
use crate::rayon::job_seat::JobSeat;
use crate::rayon::owned_job::OwnedJob;
use crate::rayon::thief_port::{Thief, ThiefPort};
use crossbeam_deque::Injector;
use parallel_fault::Fault;
use std::alloc::Global;
use std::num::NonZeroUsize;
use std::sync::Arc;

/// The queues of a pool: one for the injected jobs, and for each worker a broadcast queue and a
/// deque of its own. Each is numbered for itself. Contracts name the number of workers by
/// `worker_count`.
#[derive(Drop)]
pub struct JobQueues<T: Drop = OwnedJob> {
    injected: Arc<Inlet<T>, Global>,
    broadcasts: Vec<Arc<Inlet<T>, Global>>,
    deques: Vec<Thief<T>>,
    ghost as_many: { vec_len broadcasts ≡ vec_len deques },
}

// An empty queue.
fn open_inlet<T: Drop>(alloc: Global) -> Result<Arc<Inlet<T>, Global>, Fault>
    ensures { IsMemoryOnErr result }
{
    let (queue, _pass) = Injector::new_as(alloc)?;
    Ok(Arc::new(alloc, queue)?)
}

// `count` empty queues.
fn open_inlets<T: Drop>(alloc: Global, count: usize) -> Result<Vec<Arc<Inlet<T>, Global>>, Fault>
    ensures count { IfOk result (λ made. vec_len made ≡ count) }
    ensures fault { IsMemoryOnErr result }
{
    let mut all = Vec::new(alloc);
    for _ in 0..count {
        all.push(open_inlet(alloc)?)?;
    }
    Ok(all)
}

// `count` empty deques.
fn open_deques<T: Drop>(alloc: Global, count: usize) -> Result<Vec<JobDeque<T>>, Fault>
    ensures count { IfOk result (λ made. vec_len made ≡ count) }
    ensures fresh { IfOk result (λ made. All (λ view. view ≡ new_pass) made.items) }
    ensures fault { IsMemoryOnErr result }
{
    let mut all = Vec::new(alloc);
    for _ in 0..count {
        all.push(JobDeque::new(alloc)?)?;
    }
    Ok(all)
}

// What takes jobs from each deque.
fn thieves<T: Drop>(alloc: Global, deques: &[JobDeque<T>]) -> Result<Vec<Thief<T>>, Fault>
    ensures count { IfOk result (λ made. vec_len made ≡ length deques.now) }
    ensures fault { IsMemoryOnErr result }
{
    let mut all = Vec::new(alloc);
    for place in 0..deques.len() {
        all.push(deques[place].thief()?)?;
    }
    Ok(all)
}

// A pass of each queue.
fn passes<T: Drop>(
    alloc: Global,
    queues: &[Arc<Inlet<T>, Global>],
) -> Result<Vec<InletPort<T>>, Fault>
    ensures count { IfOk result (λ made. vec_len made ≡ length queues.now) }
    ensures fresh { IfOk result (λ made. All (λ view. view ≡ new_pass) made.items) }
    ensures fault { IsMemoryOnErr result }
{
    let mut all = Vec::new(alloc);
    for place in 0..queues.len() {
        all.push(InletPort::new(Arc::try_clone(&queues[place])?))?;
    }
    Ok(all)
}

// A thief's pass of each deque.
fn thief_passes<T: Drop>(alloc: Global, deques: &[Thief<T>]) -> Result<Vec<ThiefPort<T>>, Fault>
    ensures count { IfOk result (λ made. vec_len made ≡ length deques.now) }
    ensures fresh { IfOk result (λ made. All (λ view. view ≡ new_pass) made.items) }
    ensures fault { IsMemoryOnErr result }
{
    let mut all = Vec::new(alloc);
    for place in 0..deques.len() {
        all.push(ThiefPort::new(deques[place].clone()?))?;
    }
    Ok(all)
}

impl<T: Drop> JobQueues<T> {
    ghost use Rattle.std.specs.NonZero.{non_zero_usize_get};
    ghost use Rattle.parallel_pool.specs.JobQueues.{worker_count};
    ghost use Rattle.parallel_pool.specs.JobSeat.{IsFreshSeat};

    /// Empty queues for that many workers, and the workers' own deques, in order.
    ///
    /// # Errors
    ///
    /// `Fault::Memory` if an allocation fails.
    pub fn new(
        alloc: Global,
        workers: NonZeroUsize,
    ) -> Result<(JobQueues<T>, Vec<JobDeque<T>>), Fault>
        ensures workers { IfOk result (λ made. worker_count made.0 ≡ non_zero_usize_get workers) }
        ensures count { IfOk result (λ made. vec_len made.1 ≡ non_zero_usize_get workers) }
        ensures fresh { IfOk result (λ made. All (λ view. view ≡ new_pass) made.1.items) }
        ensures fault { IsMemoryOnErr result }
    {
        let injected = open_inlet(alloc)?;
        let broadcasts = open_inlets(alloc, workers.get())?;
        let owned = open_deques(alloc, workers.get())?;
        let deques = thieves(alloc, owned.as_slice())?;
        let queues = JobQueues {
            injected,
            broadcasts,
            deques,
        };
        Ok((queues, owned))
    }

    /// A seat for one thread, which has seen nothing yet. No pool stands over the queues, so
    /// nothing is counted and nobody woken.
    ///
    /// # Errors
    ///
    /// `Fault::Memory` if an allocation fails.
    pub fn seat(&self, alloc: Global) -> Result<JobSeat<T>, Fault>
        ensures seat { IfOk result (λ seat. IsFreshSeat (worker_count self.now) seat) }
        ensures fault { IsMemoryOnErr result }
    {
        let injected = InletPort::new(Arc::try_clone(&self.injected)?);
        let broadcasts = passes(alloc, self.broadcasts.as_slice())?;
        let deques = thief_passes(alloc, self.deques.as_slice())?;
        Ok(JobSeat {
            injected,
            broadcasts,
            deques,
            registry: None,
        })
    }
}
