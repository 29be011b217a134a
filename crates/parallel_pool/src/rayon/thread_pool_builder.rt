//! Building a pool.
ghost use Rattle.std.specs.Prelude.{◌≡◌, ◌≢◌, ◌≤◌, ℕ, IfOk, IfSome, IsTrue, MatchOption, None, Some, true, false};
ghost use Rattle.std.specs.NonZero.{non_zero_usize_get};
ghost use Rattle.parallel_pool.specs.PlannedThreads.{IsPlanned};
ghost use Rattle.parallel_pool.specs.ThreadPool.{thread_count, label_of};
ghost use Rattle.parallel_pool.specs.WorkerThread.{IsFirstWorker};

use crate::rayon::build_error::ThreadPoolBuildError;
use crate::rayon::environment::Environment;
use crate::rayon::handlers::{Names, StartHandler};
use crate::rayon::job_deque::JobDeque;
use crate::rayon::job_queues::JobQueues;
use crate::rayon::job_seat::JobSeat;
use crate::rayon::owned_job::{Execute, OwnedJob};
use crate::rayon::pool_plan::PoolPlan;
use crate::rayon::registry::{Hold, Registry};
use crate::rayon::rest::Rest;
use crate::rayon::staff::Staff;
use crate::rayon::start::{Starter, start_workers};
use crate::rayon::thread_pool::{MAX_THREADS, ThreadPool};
use crate::rayon::worker_thread::WorkerThread;
use parallel_fault::Fault;
use std::alloc::{AllocError, Global};
use std::fmt::{self, Debug, Formatter, Write};
use std::num::NonZeroUsize;
use std::sync::{Arc, Wait};
use std::thread::{JoinHandle, Threads};

/// What a pool is to be: its plan, and the closures that its workers call first and that name them.
#[derive(Drop)]
pub struct ThreadPoolBuilder {
    /// What is set, but for the closures.
    pub plan: PoolPlan,
    names: Option<Names>,
    start: Option<StartHandler>,
}

/// The builder of `new`.
impl Default for ThreadPoolBuilder {
    fn default() -> ThreadPoolBuilder {
        ThreadPoolBuilder::new()
    }
}

impl ThreadPoolBuilder {
    /// Nothing is set: as many threads as the environment says, which is empty and says 1.
    pub fn new() -> ThreadPoolBuilder
        ensures number { result.plan.num_threads ≡ 0 }
        ensures label { result.plan.label ≡ 0 }
        ensures current { result.plan.use_current_thread ≡ false }
        ensures unstarted { result.plan.unstarted_workers ≡ false }
    {
        ThreadPoolBuilder {
            plan: PoolPlan::default(),
            names: None,
            start: None,
        }
    }

    /// Sets the number of threads. At 0 the environment says it.
    pub fn num_threads(self, num_threads: usize) -> ThreadPoolBuilder
        ensures { result.plan ≡ record self.plan { num_threads = num_threads } }
    {
        let mut set = self;
        set.plan.num_threads = num_threads;
        set
    }

    /// The thread that builds the pool is its worker 0, and is handed it: no thread is started for
    /// that one, which works by `ThreadPool::yield_now` alone.
    pub fn use_current_thread(self) -> ThreadPoolBuilder
        ensures { result.plan ≡ record self.plan { use_current_thread = true } }
    {
        let mut set = self;
        set.plan.use_current_thread = true;
        set
    }

    /// Sets the size of each started worker's stack, in bytes.
    pub fn stack_size(self, stack_size: usize) -> ThreadPoolBuilder
        ensures { result.plan ≡ record self.plan { stack_size = Some stack_size } }
    {
        let mut set = self;
        set.plan.stack_size = Some(stack_size);
        set
    }

    /// Names each started worker by what the closure returns for its index. An Err of it counts as
    /// a refused growth.
    pub fn thread_name(
        self,
        name_of: Box<dyn FnMut(usize) -> Result<String, AllocError>>,
    ) -> ThreadPoolBuilder
        requires { IsAlwaysCallable name_of }
        ensures { result.plan ≡ self.plan }
    {
        let mut set = self;
        set.names = Some(Names::new(name_of));
        set
    }

    /// Each started worker calls the closure first, with its index.
    pub fn start_handler(self, start: Box<dyn Fn(usize) + Send + Sync>) -> ThreadPoolBuilder
        requires { (index : _) → pre start index }
        ensures { result.plan ≡ self.plan }
    {
        let mut set = self;
        set.start = Some(StartHandler::new(start));
        set
    }

    /// Sets where the number of threads is found that isn't set.
    pub fn environment(self, environment: Environment) -> ThreadPoolBuilder
        ensures { result.plan ≡ record self.plan { environment = environment } }
    {
        let mut set = self;
        set.plan.environment = environment;
        set
    }

    /// Sets the pool's label. A worker belongs to each pool of its label, so give each pool its
    /// own.
    pub fn label(self, label: u64) -> ThreadPoolBuilder
        ensures { result.plan ≡ record self.plan { label = label } }
    {
        let mut set = self;
        set.plan.label = label;
        set
    }

    /// No worker is started: the jobs that come to the pool never run, but for those that worker 0
    /// calls under `use_current_thread`.
    pub fn unstarted_workers(self) -> ThreadPoolBuilder
        ensures { result.plan ≡ record self.plan { unstarted_workers = true } }
    {
        let mut set = self;
        set.plan.unstarted_workers = true;
        set
    }

    /// Builds the pool and starts its workers, for boxed jobs. The second part is worker 0, under
    /// `use_current_thread` and not else.
    ///
    /// # Errors
    ///
    /// `ThreadPoolBuildError::Memory` where memory was refused, or a name; `Spawn` where the start
    /// of a thread was. No worker is left running then: those that were started have ended.
    pub fn build<R: Threads + Wait + Copy + Send + 'static>(
        self,
        rt: &R,
        alloc: Global,
    ) -> Result<(ThreadPool<Staff>, Option<WorkerThread>), ThreadPoolBuildError>
        ensures count { IfOk result (λ built. IsPlanned self.plan (thread_count built.0)) }
        ensures label { IfOk result (λ built. label_of built.0 ≡ self.plan.label) }
        ensures current { IfOk result (λ built. MatchOption built.1
            (self.plan.use_current_thread ≡ false)
            (λ worker. (self.plan.use_current_thread ≡ true)
            × IsFirstWorker self.plan.label (thread_count built.0) worker)) }
    {
        self.build_for::<R, OwnedJob>(rt, alloc)
    }

    /// Builds the pool for jobs of one's own type, as `build` does for boxed ones.
    ///
    /// # Errors
    ///
    /// As of `build`.
    pub fn build_for<R: Threads + Wait + Copy + Send + 'static, T: Execute + Send + 'static>(
        self,
        rt: &R,
        alloc: Global,
    ) -> Result<(ThreadPool<Staff<T>>, Option<WorkerThread<T>>), ThreadPoolBuildError>
        ensures count { IfOk result (λ built. IsPlanned self.plan (thread_count built.0)) }
        ensures label { IfOk result (λ built. label_of built.0 ≡ self.plan.label) }
        ensures current { IfOk result (λ built. MatchOption built.1
            (self.plan.use_current_thread ≡ false)
            (λ worker. (self.plan.use_current_thread ≡ true)
            × IsFirstWorker self.plan.label (thread_count built.0) worker)) }
    {
        let ThreadPoolBuilder { plan, names, start } = self;
        let num_threads = plan.planned_threads();
        let (staff, current) = staffed(rt, alloc, &plan, num_threads, names, start)?;
        Ok((ThreadPool::over(num_threads, plan.label, staff), current))
    }
}

impl Debug for ThreadPoolBuilder {
    fn fmt<W: Write>(&self, f: &mut Formatter<W>) -> fmt::Result {
        f.debug_struct("ThreadPoolBuilder")
            .field("num_threads", &self.plan.num_threads)
            .field("use_current_thread", &self.plan.use_current_thread)
            .field("thread_name", &placeholder(self.names.is_some()))
            .field("stack_size", &self.plan.stack_size)
            .field("start_handler", &placeholder(self.start.is_some()))
            .field("environment", &self.plan.environment)
            .field("label", &self.plan.label)
            .field("unstarted_workers", &self.plan.unstarted_workers)
            .finish()
    }
}

// Stands in a text for a closure.
#[derive(Drop)]
struct Closure;

impl Debug for Closure {
    fn fmt<W: Write>(&self, f: &mut Formatter<W>) -> fmt::Result {
        f.write_str("<closure>")
    }
}

fn placeholder(is_set: bool) -> Option<Closure> {
    if is_set { Some(Closure) } else { None }
}

// The staff, with its workers started; and the worker of the thread that builds the pool.
fn staffed<R: Threads + Wait + Copy + Send + 'static, T: Execute + Send + 'static>(
    rt: &R,
    alloc: Global,
    plan: &PoolPlan,
    num_threads: NonZeroUsize,
    names: Option<Names>,
    start: Option<StartHandler>,
) -> Result<(Staff<T>, Option<WorkerThread<T>>), ThreadPoolBuildError>
    requires { non_zero_usize_get num_threads ≤ MAX_THREADS }
    ensures { IfOk result (λ made. MatchOption made.1
        (plan.now.use_current_thread ≡ false)
        (λ worker. (plan.now.use_current_thread ≡ true)
        × IsFirstWorker plan.now.label (non_zero_usize_get num_threads) worker)) }
{
    let (staff, mut workers) = staff(alloc, num_threads, plan.label)?;
    let current = current(plan, num_threads, &mut workers)?;
    match run(rt, alloc, plan, names, start, staff, workers) {
        Ok(staff) => Ok((staff, current)),
        Err(error) => Err(error),
    }
}

// The staff, with those workers started.
fn run<R: Threads + Wait + Copy + Send + 'static, T: Execute + Send + 'static>(
    rt: &R,
    alloc: Global,
    plan: &PoolPlan,
    names: Option<Names>,
    start: Option<StartHandler>,
    staff: Staff<T>,
    workers: Vec<WorkerThread<T>>,
) -> Result<Staff<T>, ThreadPoolBuildError> {
    let named = named(alloc, plan, names, start, workers)?;
    started(rt, alloc, plan, staff, named)
}

// The queues of a pool, and its workers, in order, of which none is started.
fn staff<T: Execute>(
    alloc: Global,
    num_threads: NonZeroUsize,
    label: u64,
) -> Result<(Staff<T>, Vec<WorkerThread<T>>), ThreadPoolBuildError>
    requires { non_zero_usize_get num_threads ≤ MAX_THREADS }
{
    let (registry, rests) = registry(alloc, num_threads)?;
    let (seat, workers) = seated(alloc, num_threads, label, &registry, rests)?;
    Ok((Staff::new(seat, Hold::new(registry)), workers))
}

// What the threads of the pool share, and what each worker rests by.
fn registry(
    alloc: Global,
    num_threads: NonZeroUsize,
) -> Result<(Arc<Registry, Global>, Vec<Rest>), ThreadPoolBuildError>
    requires { non_zero_usize_get num_threads ≤ MAX_THREADS }
{
    let (registry, rests) = of_memory(Registry::new(alloc, num_threads))?;
    Ok((Arc::new(alloc, registry)?, rests))
}

// The pool's seat of its queues, and the workers.
fn seated<T: Execute>(
    alloc: Global,
    num_threads: NonZeroUsize,
    label: u64,
    registry: &Arc<Registry, Global>,
    rests: Vec<Rest>,
) -> Result<(JobSeat<T>, Vec<WorkerThread<T>>), ThreadPoolBuildError> {
    let (queues, deques) = of_memory(JobQueues::new(alloc, num_threads))?;
    let workers = workers(alloc, label, &queues, registry, deques, rests)?;
    Ok((seat(alloc, &queues, registry)?, workers))
}

// A refusal of the pool's lists and queues is one of memory.
fn of_memory<T>(made: Result<T, Fault>) -> Result<T, ThreadPoolBuildError> {
    match made {
        Ok(made) => Ok(made),
        Err(_) => Err(ThreadPoolBuildError::Memory),
    }
}

// A seat of the queues, whose jobs the pool counts.
fn seat<T: Execute>(
    alloc: Global,
    queues: &JobQueues<T>,
    registry: &Arc<Registry, Global>,
) -> Result<JobSeat<T>, ThreadPoolBuildError> {
    let registry = Arc::try_clone(registry)?;
    match queues.seat(alloc) {
        Ok(seat) => Ok(seat.counted_by(registry)),
        Err(_) => Err(ThreadPoolBuildError::Memory),
    }
}

// The workers, each over its own deque.
fn workers<T: Execute>(
    alloc: Global,
    label: u64,
    queues: &JobQueues<T>,
    registry: &Arc<Registry, Global>,
    deques: Vec<JobDeque<T>>,
    rests: Vec<Rest>,
) -> Result<Vec<WorkerThread<T>>, ThreadPoolBuildError> {
    let mut all = Vec::new(alloc);
    for (own, rest) in deques.into_iter().zip(rests) {
        let index = all.len();
        let made = worker(alloc, index, label, queues, registry, own, rest);
        listed(&mut all, made)?;
    }
    Ok(all)
}

// Adds what was made to a list.
fn listed<X: Drop>(
    all: &mut Vec<X>,
    made: Result<X, ThreadPoolBuildError>,
) -> Result<(), ThreadPoolBuildError> {
    all.push(made?)?;
    Ok(())
}

// The worker of an index.
fn worker<T: Execute>(
    alloc: Global,
    index: usize,
    label: u64,
    queues: &JobQueues<T>,
    registry: &Arc<Registry, Global>,
    own: JobDeque<T>,
    rest: Rest,
) -> Result<WorkerThread<T>, ThreadPoolBuildError> {
    match (seat(alloc, queues, registry), Arc::try_clone(registry)) {
        (Ok(jobs), Ok(registry)) => Ok(WorkerThread {
            index,
            label,
            own,
            jobs,
            rest,
            registry,
        }),
        _ => Err(ThreadPoolBuildError::Memory),
    }
}

// The worker of the thread that builds the pool, taken out of the list, whose first one it is.
fn current<T: Execute>(
    plan: &PoolPlan,
    num_threads: NonZeroUsize,
    workers: &mut Vec<WorkerThread<T>>,
) -> Result<Option<WorkerThread<T>>, ThreadPoolBuildError>
    ensures { IfOk result (λ found. MatchOption found
        (plan.now.use_current_thread ≡ false)
        (λ worker. (plan.now.use_current_thread ≡ true)
        × IsFirstWorker plan.now.label (non_zero_usize_get num_threads) worker)) }
{
    if !plan.use_current_thread {
        return Ok(None);
    }
    let Some(worker) = first_of(workers) else {
        return Err(ThreadPoolBuildError::Memory);
    };
    if is_first(&worker, plan.label, num_threads) {
        Ok(Some(worker))
    } else {
        Err(ThreadPoolBuildError::Memory)
    }
}

// Takes the first of a list.
fn first_of<X: Drop>(list: &mut Vec<X>) -> Option<X> {
    if list.is_empty() {
        None
    } else {
        Some(list.remove(0))
    }
}

// Whether a worker is the first of a pool of this label and of that many threads. The first that
// was made always is.
fn is_first<T: Execute>(worker: &WorkerThread<T>, label: u64, num_threads: NonZeroUsize) -> bool
    ensures { IsTrue result
        → IsFirstWorker label (non_zero_usize_get num_threads) worker.now }
{
    let context = worker.context();
    worker.index() == 0 && worker.label() == label && context.num_threads() == num_threads.get()
}

// The workers that are to be started, each with its name and what it calls first.
fn named<T: Execute>(
    alloc: Global,
    plan: &PoolPlan,
    names: Option<Names>,
    start: Option<StartHandler>,
    workers: Vec<WorkerThread<T>>,
) -> Result<Vec<(Option<String>, Starter<T>)>, ThreadPoolBuildError> {
    if plan.unstarted_workers {
        return Ok(Vec::new(alloc));
    }
    let start = shared(alloc, start)?;
    each_named(alloc, names, &start, workers)
}

// Each of the workers, so.
fn each_named<T: Execute>(
    alloc: Global,
    names: Option<Names>,
    start: &Option<Arc<StartHandler, Global>>,
    workers: Vec<WorkerThread<T>>,
) -> Result<Vec<(Option<String>, Starter<T>)>, ThreadPoolBuildError> {
    let mut names = names;
    let mut all = Vec::new(alloc);
    for worker in workers {
        let made = starter(&mut names, start, worker);
        listed(&mut all, made)?;
    }
    Ok(all)
}

// One of them.
fn starter<T: Execute>(
    names: &mut Option<Names>,
    start: &Option<Arc<StartHandler, Global>>,
    worker: WorkerThread<T>,
) -> Result<(Option<String>, Starter<T>), ThreadPoolBuildError> {
    match (name_of(names, worker.index()), again(start)) {
        (Ok(name), Ok(start)) => Ok((name, Starter { worker, start })),
        _ => Err(ThreadPoolBuildError::Memory),
    }
}

// The handler, for all workers.
fn shared(
    alloc: Global,
    start: Option<StartHandler>,
) -> Result<Option<Arc<StartHandler, Global>>, ThreadPoolBuildError> {
    match start {
        Some(start) => Ok(Some(Arc::new(alloc, start)?)),
        None => Ok(None),
    }
}

// The handler once more.
fn again(
    start: &Option<Arc<StartHandler, Global>>,
) -> Result<Option<Arc<StartHandler, Global>>, ThreadPoolBuildError> {
    match start {
        Some(start) => Ok(Some(Arc::try_clone(start)?)),
        None => Ok(None),
    }
}

fn name_of(names: &mut Option<Names>, index: usize) -> Result<Option<String>, AllocError> {
    match names {
        Some(names) => Ok(Some(names.name_of(index)?)),
        None => Ok(None),
    }
}

// The staff, with its workers started. Where a start is refused, those before it have ended.
fn started<R: Threads + Wait + Copy + Send + 'static, T: Execute + Send + 'static>(
    rt: &R,
    alloc: Global,
    plan: &PoolPlan,
    staff: Staff<T>,
    workers: Vec<(Option<String>, Starter<T>)>,
) -> Result<Staff<T>, ThreadPoolBuildError> {
    let first = usize::from(plan.use_current_thread);
    let last = first.saturating_add(workers.len());
    match start_workers(rt, alloc, plan.stack_size, workers) {
        Ok(()) => Ok(staff.with_started(first..last)),
        Err((error, handles)) => {
            drop(staff);
            join_all(rt, handles);
            Err(error)
        }
    }
}

fn join_all<R: Threads>(rt: &R, handles: Vec<JoinHandle<()>>) {
    for worker in handles {
        worker.join(rt);
    }
}
