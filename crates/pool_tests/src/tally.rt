//! What the workers and the jobs of a test's pool tell, and pools and jobs that do so, each made by
//! one function.
ghost use Rattle.std.specs.Prelude.{◌≡◌};

use crate::checks::row;
use parallel_pool::rayon::{
    Execute, OwnedJob, Queue, Staff, ThreadPool, ThreadPoolBuilder, WorkerThread,
};
use std::alloc::{AllocGlobal, Global};
use std::process::Abort;
use std::sync::atomic::{AtomicU64, Ordering};
use std::sync::{Arc, Wait};
use std::thread::{self, Threads};
use std::time::{Clock, CpuClock, Duration};
use test_support::holds;

/// What a test may do.
pub(crate) trait Host: Threads
    + Wait
    + Abort
    + Clock
    + CpuClock
    + AllocGlobal
    + Copy
    + Send
    + Sync
    + 'static {}

impl<R> Host for R
where
    R: Threads + Wait + Abort + Clock + CpuClock + AllocGlobal + Copy + Send + Sync + 'static,
{}

/// How many turns a test waits for another thread at most, each of which lets the others go on: so
/// that a busy machine takes longer, and no test fails by that.
pub(crate) const TURNS: u32 = 3_000_000;

/// Waits until a word is that much, for so many turns at most, and returns whether it is.
pub(crate) fn becomes(word: &AtomicU64, wanted: u64) -> bool {
    for _ in 0..TURNS {
        if read(word) == wanted {
            return true;
        }
        thread::yield_now();
    }
    false
}

/// Stops the test where a word isn't that much in time.
pub(crate) fn awaits(rt: &impl Abort, word: &AtomicU64, wanted: u64, what: &str) {
    let found = if becomes(word, wanted) {
        wanted
    } else {
        read(word)
    };
    row(rt, what, found, wanted);
}

/// By then a thread that was started sleeps where it is to wait: a worker yields 33 times before.
pub(crate) fn let_it_sleep(rt: &impl Clock) {
    for _ in 0..100u32 {
        thread::yield_now();
    }
    thread::sleep(rt, Duration::from_millis(30));
}

/// What is told by a word.
pub(crate) fn read(word: &AtomicU64) -> u64 {
    word.load(Ordering::SeqCst)
}

/// What the workers of a pool and the jobs that come to it have told.
#[derive(Drop)]
pub(crate) struct Tally {
    /// The sum of the bytes of those workers that have started.
    pub(crate) begun: AtomicU64,
    /// For how many builders all workers have ended that were started.
    pub(crate) ended: AtomicU64,
    /// What the jobs have added.
    pub(crate) called: AtomicU64,
    /// How many jobs were called that count apart from the others.
    pub(crate) others: AtomicU64,
    /// 1 once a job waits.
    pub(crate) entered: AtomicU64,
    /// 1 once the jobs that wait are to end.
    opened: AtomicU64,
}

impl Tally {
    /// Lets the jobs end that wait.
    pub(crate) fn opens(&self) {
        self.opened.store(1, Ordering::SeqCst);
    }
}

/// A tally in which nothing is told yet, where there is memory.
pub(crate) fn try_tally(alloc: Global) -> Option<Arc<Tally>> {
    let tally = Tally {
        begun: AtomicU64::new(0),
        ended: AtomicU64::new(0),
        called: AtomicU64::new(0),
        others: AtomicU64::new(0),
        entered: AtomicU64::new(0),
        opened: AtomicU64::new(0),
    };
    Arc::new(alloc, tally).ok()
}

/// A tally in which nothing is told yet.
pub(crate) fn empty_tally<R: Host>(rt: &R) -> Arc<Tally> {
    try_tally(rt.alloc()).expect(rt, "memory")
}

/// Another handle of the same.
pub(crate) fn handle<T>(rt: &impl Abort, one: &Arc<T>) -> Arc<T> {
    Arc::try_clone(one).expect(rt, "a handle")
}

// What the worker of an index adds to a tally as it starts: a byte of its own, of the first four.
fn byte_of(index: usize) -> u64 {
    match index {
        0 => 1,
        1 => 256,
        2 => 65_536,
        3 => 16_777_216,
        _ => 4_294_967_296,
    }
}

/// How often the worker of an index has started, of 255 times at most.
pub(crate) fn starts_of(tally: &Tally, index: usize) -> u64 {
    let bytes = read(&tally.begun).checked_div(byte_of(index));
    bytes.unwrap_or(0) % 256
}

// Tells a tally that all workers have ended, when it is dropped.
struct Bell {
    tally: Arc<Tally>,
}

impl Drop for Bell {
    fn drop(self) {
        let Bell { tally } = self;
        tally.ended.fetch_add(1, Ordering::SeqCst);
    }
}

impl Bell {
    // The worker of an index has started.
    fn begins(&self, index: usize) {
        self.tally.begun.fetch_add(byte_of(index), Ordering::SeqCst);
    }
}

/// A builder of that many workers, which tell a tally of their start and of their end.
pub(crate) fn told_to(
    alloc: Global,
    num_threads: usize,
    tally: &Arc<Tally>,
) -> Option<ThreadPoolBuilder> {
    let bell = Bell {
        tally: Arc::try_clone(tally).ok()?,
    };
    let handler = Box::new(alloc, move |index: usize| bell.begins(index)).ok()?;
    let builder = ThreadPoolBuilder::new().num_threads(num_threads);
    Some(builder.start_handler(handler))
}

/// A pool as a builder makes it.
pub(crate) fn built<R: Host>(rt: &R, builder: ThreadPoolBuilder) -> ThreadPool<Staff> {
    let (pool, none) = builder.build(rt, rt.alloc()).expect(rt, "a pool");
    row(rt, "no worker was asked for", none.is_none(), true);
    pool
}

/// What a job tells a tally where it is called.
#[derive(Clone, Copy)]
pub(crate) enum Act {
    // Adds that much.
    Adds(u64),
    // Writes a digit after those that were written.
    Writes(u64),
    // Adds 1 where the worker of that index calls it.
    AddsAt(usize),
    // Adds 1 where the worker that calls it has started.
    AddsOnceBegun,
    // Adds 1, after a while.
    AddsLate,
    // Counts apart.
    Counts,
    // Waits until the tally is opened.
    Waits,
}

// A while, in which the processor isn't left to others: on a busy machine that takes long.
fn linger(tally: &Tally) {
    for _ in 0..1_000_000u32 {
        read(&tally.opened);
    }
}

// Waits until a tally is opened, but not for ever.
fn wait_inside(tally: &Tally) {
    tally.entered.store(1, Ordering::SeqCst);
    for _ in 0..1_000_000_000u64 {
        if read(&tally.opened) == 1 {
            break;
        }
        thread::yield_now();
    }
}

/// What a job adds where the worker of an index calls it.
pub(crate) fn added(act: Act, tally: &Tally, index: usize) -> u64 {
    match act {
        Act::Adds(unit) => unit,
        Act::Writes(digit) => read(&tally.called).wrapping_mul(9).wrapping_add(digit),
        Act::AddsAt(worker) => u64::from(index == worker),
        Act::AddsOnceBegun => u64::from(starts_of(tally, index) == 1),
        Act::AddsLate => {
            linger(tally);
            1
        }
        Act::Counts => {
            tally.others.fetch_add(1, Ordering::SeqCst);
            0
        }
        Act::Waits => {
            wait_inside(tally);
            0
        }
    }
}

/// A job in a box that tells a tally.
pub(crate) fn boxed_job<R: Host>(rt: &R, tally: &Arc<Tally>, act: Act) -> OwnedJob {
    let theirs = handle(rt, tally);
    let body = Box::new(rt.alloc(), move |index: usize| {
        let unit = added(act, &theirs, index);
        theirs.called.fetch_add(unit, Ordering::SeqCst);
    });
    OwnedJob::new(body.expect(rt, "memory"))
}

/// Spawns a job in a box that tells a tally, which has to come.
pub(crate) fn spawn<R: Host>(rt: &R, pool: &ThreadPool<Staff>, tally: &Arc<Tally>, act: Act) {
    let came = pool.spawn(rt, boxed_job(rt, tally, act)).is_ok();
    holds!(rt, came);
}

/// A job of a type of its own, which tells a tally and has so many words beside.
#[derive(Drop)]
pub(crate) struct Job<const WORDS: usize> {
    tally: Arc<Tally>,
    act: Act,
    words: [u64; WORDS],
}

impl<const WORDS: usize> Execute for Job<WORDS> {
    fn execute(self, index: usize) {
        let Job {
            tally,
            act,
            words: _,
        } = self;
        let unit = added(act, &tally, index);
        tally.called.fetch_add(unit, Ordering::SeqCst);
    }
}

/// Such a job.
pub(crate) fn telling<const WORDS: usize>(
    rt: &impl Abort,
    tally: &Arc<Tally>,
    act: Act,
) -> Job<WORDS> {
    Job {
        tally: handle(rt, tally),
        act,
        words: [1; WORDS],
    }
}

/// Pushes a job by a worker's seat to one of the queues for that, and returns whether it came.
pub(crate) fn push_by<T: Drop>(
    rt: &impl Wait,
    worker: &mut WorkerThread<T>,
    queue: Queue,
    job: T,
) -> bool {
    let seat = worker.jobs();
    match queue {
        Queue::Injected => seat.push(rt, Queue::Injected, job).is_ok(),
        Queue::Broadcast(index) => {
            index < seat.workers() && seat.push(rt, Queue::Broadcast(index), job).is_ok()
        }
        Queue::Deque(_) => false,
    }
}
