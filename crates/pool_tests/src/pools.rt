//! Pools that were built: their workers, the jobs that come to them, and their end.
use crate::checks::{lists, prints, row};
use crate::tally::{
    Act, Host, Tally, awaits, becomes, boxed_job, built, empty_tally, handle, let_it_sleep, read,
    spawn, told_to,
};
use parallel_pool::rayon::{
    BroadcastContext, Execute, OwnedJob, Queue, Staff, ThreadPool, ThreadPoolBuilder, WorkerThread,
    Yield,
};
use std::alloc::{AllocError, AllocGlobal};
use std::fs;
use std::num::NonZeroUsize;
use std::rt::Files;
use std::sync::atomic::{AtomicU64, Ordering};
use std::sync::{Arc, Wait};
use test_support::{holds, same};

// A pool of which this thread is the first worker, and none other is started; and that worker.
fn with_this_thread<R: Host>(
    rt: &R,
    num_threads: usize,
    label: u64,
) -> (ThreadPool<Staff>, WorkerThread) {
    let builder = ThreadPoolBuilder::new().num_threads(num_threads);
    let builder = builder
        .unstarted_workers()
        .label(label)
        .use_current_thread();
    let (pool, current) = builder.build(rt, rt.alloc()).expect(rt, "a pool");
    (pool, current.expect(rt, "the current worker"))
}

// What a pool and that of a worker say when the worker yields, after it handed the pool a job.
fn yields_of_a_stranger(
    rt: &impl Wait,
    pool: &ThreadPool<Staff>,
    theirs: &ThreadPool<Staff>,
    stranger: &mut WorkerThread,
    job: OwnedJob,
) -> Option<(Option<Yield>, Option<Yield>)> {
    pool.spawn_from(rt, stranger, job).ok()?;
    Some((pool.yield_now(rt, stranger), theirs.yield_now(rt, stranger)))
}

#[test]
fn a_worker_of_another_pool_injects_its_job(rt: HostRuntime) {
    let tally = empty_tally(&rt);
    let job = boxed_job(&rt, &tally, Act::AddsAt(7));
    let (theirs, mut stranger) = with_this_thread(&rt, 1, 7);
    let (pool, mut worker) = with_this_thread(&rt, 1, 0);
    let yields = yields_of_a_stranger(&rt, &pool, &theirs, &mut stranger, job);
    same!(&rt, yields, Some((None, Some(Yield::Idle))));
    let taken = worker.jobs().take(&rt, Queue::Injected);
    taken.expect(&rt, "the job").call(7);
    same!(&rt, read(&tally.called), 1);
}

#[test]
fn a_worker_is_known_by_its_label(rt: HostRuntime) {
    let (pool, worker) = with_this_thread(&rt, 3, 9);
    let other = built(&rt, ThreadPoolBuilder::new());
    let counts = (pool.current_num_threads(), other.current_num_threads());
    same!(&rt, counts, (3, 1));
    row(&rt, "own", pool.current_thread_index(&worker), Some(0));
    row(&rt, "other", other.current_thread_index(&worker), None);
    same!(&rt, (worker.index(), worker.label()), (0, 9));
    let context = worker.context();
    same!(&rt, (context.index(), context.num_threads()), (0, 3));
    prints(&rt, &pool, "ThreadPool { num_threads: 3, id: 9 }");
    let text = "BroadcastContext { index: 0, num_threads: 3 }";
    prints(&rt, &context, text);
    prints(&rt, &other, "ThreadPool { num_threads: 1, id: 0 }");
}

fn nothing_first(_index: usize) {}

fn no_name(_index: usize) -> Result<String, AllocError> {
    Err(AllocError)
}

#[test]
fn a_builder_prints_its_closures_as_such(rt: HostRuntime) {
    let names = Box::new(rt.alloc(), no_name).expect(&rt, "memory");
    let handler = Box::new(rt.alloc(), nothing_first).expect(&rt, "memory");
    let builder = ThreadPoolBuilder::new().num_threads(5).stack_size(70_000);
    let wanted = "ThreadPoolBuilder { num_threads: 5, use_current_thread: false, \
        thread_name: Some(<closure>), stack_size: Some(70000), \
        start_handler: Some(<closure>), environment: Environment { num_threads: None, \
        num_cpus: None, machine: None }, label: 0, unstarted_workers: false }";
    let builder = builder.thread_name(names).start_handler(handler);
    prints(&rt, &builder, wanted);
}

fn five() -> u64 {
    5
}

fn index_and_threads(context: BroadcastContext) -> (usize, usize) {
    (context.index(), context.num_threads())
}

#[test]
fn a_pool_of_unstarted_workers_installs_and_broadcasts(rt: HostRuntime) {
    let tally = empty_tally(&rt);
    let builder = ThreadPoolBuilder::new().num_threads(2).unstarted_workers();
    let pool = built(&rt, builder);
    same!(&rt, pool.install(&rt, five), 5);
    let answers = pool.broadcast(&rt, rt.alloc(), &index_and_threads);
    lists(&rt, "started", answers, &[(0, 2), (1, 2)]);
    spawn(&rt, &pool, &tally, Act::Adds(1));
    let_it_sleep(&rt);
    row(&rt, "no worker was started", read(&tally.called), 0);
    let scoped = ThreadPool::new(NonZeroUsize::MIN.saturating_add(3));
    let answers = scoped.broadcast(&rt, rt.alloc(), &index_and_threads);
    lists(&rt, "scoped", answers, &[(0, 4), (1, 4), (2, 4), (3, 4)]);
}

#[test]
fn the_calls_of_a_broadcast_see_each_other(rt: HostRuntime) {
    let pool = ThreadPool::new(NonZeroUsize::MIN.saturating_add(2));
    let begun = AtomicU64::new(0);
    let sees = |_context| {
        begun.fetch_add(1, Ordering::SeqCst);
        becomes(&begun, 3)
    };
    let seen = pool.broadcast(&rt, rt.alloc(), &sees);
    lists(&rt, "seen", seen, &[true, true, true]);
}

#[test]
fn a_thousand_jobs_are_called_once_each_and_the_workers_end(rt: HostRuntime) {
    let tally = empty_tally(&rt);
    let builder = told_to(rt.alloc(), 4, &tally).expect(&rt, "memory");
    let pool = built(&rt, builder);
    for _ in 0..1000 {
        spawn(&rt, &pool, &tally, Act::AddsOnceBegun);
    }
    drop(pool);
    awaits(&rt, &tally.ended, 1, "each worker has ended");
    let called_begun = (read(&tally.called), read(&tally.begun));
    same!(&rt, called_begun, (1000, 16_843_009));
}

#[test]
fn a_pool_that_is_closed_has_called_each_job_to_its_end(rt: HostRuntime) {
    let tally = empty_tally(&rt);
    let pool = built(&rt, ThreadPoolBuilder::new().num_threads(2));
    for _ in 0..4 {
        spawn(&rt, &pool, &tally, Act::AddsLate);
    }
    pool.close(&rt);
    same!(&rt, read(&tally.called), 4);
}

#[test]
fn a_pool_without_jobs_is_closed(rt: HostRuntime) {
    let pool = built(&rt, ThreadPoolBuilder::new().num_threads(2));
    same!(&rt, pool.current_num_threads(), 2);
    pool.close(&rt);
}

fn first_or_second(index: usize) -> &'static str {
    if index == 0 { "first" } else { "second" }
}

// A job that adds 1 to a tally where the thread that calls it has the name of the worker's index.
#[derive(Drop)]
struct Named<R: Files + AllocGlobal + Drop> {
    rt: R,
    tally: Arc<Tally>,
}

impl<R: Files + AllocGlobal + Drop> Execute for Named<R> {
    fn execute(self, index: usize) {
        let Named { rt, tally } = self;
        if let Ok(name) = fs::read_to_string(&rt, "/proc/thread-self/comm") {
            let its = name.starts_with(first_or_second(index));
            tally.called.fetch_add(u64::from(its), Ordering::SeqCst);
        }
    }
}

#[test]
fn a_thread_has_the_name_of_its_worker(rt: HostRuntime) {
    let alloc = rt.alloc();
    let tally = empty_tally(&rt);
    let name_of = move |index: usize| String::from_str(alloc, first_or_second(index));
    let names = Box::new(alloc, name_of).expect(&rt, "memory");
    let builder = ThreadPoolBuilder::new().num_threads(2).thread_name(names);
    let built = builder.build_for::<HostRuntime, Named<HostRuntime>>(&rt, alloc);
    let (pool, _none) = built.expect(&rt, "a pool");
    for _ in 0..2 {
        let tally = handle(&rt, &tally);
        holds!(&rt, pool.spawn(&rt, Named { rt, tally }).is_ok());
    }
    pool.close(&rt);
    same!(&rt, read(&tally.called), 2);
}
