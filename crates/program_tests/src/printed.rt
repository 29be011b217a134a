//! What is printed.
use crate::checks::{prints, says};
use commonware_parallel::mocks::{ExploreError, Explorer, Rule};
use commonware_parallel::{Fault, Trouble};
use parallel_pool::rayon::{ThreadPoolBuildError, ThreadPoolBuilder};
use std::alloc::{AllocError, Global};
use std::error::Error;
use std::io;
use std::process::Abort;
use test_strategies::pool;

// Stops the test where an error isn't written as the text.
fn errs<E: Error>(rt: &impl Abort, alloc: Global, error: &E, text: &str) {
    says(rt, alloc, error, text);
}

#[test]
fn refusals_print_their_reason(rt: HostRuntime) {
    let alloc = rt.alloc();
    for (fault, text) in [
        (Fault::Memory, "out of memory"),
        (Fault::Worker, "a worker could not be started"),
        (
            Fault::HandOff,
            "a handed-off job needs a pool of two threads",
        ),
    ] {
        errs(&rt, alloc, &fault, text);
        let trouble: Trouble<u32> = Trouble::Fault(fault);
        says(&rt, alloc, &trouble, text);
        says(&rt, alloc, &io::Error::from(fault), text);
    }
    let trouble: Trouble<u32> = Trouble::Closure(57);
    says(&rt, alloc, &trouble, "57");
    errs(&rt, alloc, &ThreadPoolBuildError::Memory, "out of memory");
    let text = "a worker thread could not be started";
    errs(&rt, alloc, &ThreadPoolBuildError::Spawn, text);
    let refused = ExploreError::Build(ThreadPoolBuildError::Spawn);
    errs(&rt, alloc, &refused, text);
    let text = "the Seeded(2) run must return the serial run's output";
    errs(&rt, alloc, &ExploreError::Differs(Rule::Seeded(2)), text);
}

#[test]
fn strategies_print_their_parts(rt: HostRuntime) {
    let alloc = rt.alloc();
    let strategy = pool(&rt, alloc, 2, 3).expect(&rt, "a pool");
    let text = "Rayon { pool: ThreadPool { num_threads: 2 }, parallelism: 3, starts_workers: true, \
         clock: Stopped, policy: None }";
    prints(&rt, alloc, &strategy, text);
    let explorer = Explorer::seeded(&strategy, 7).expect(&rt, "memory");
    let text = "Explorer { pool: ThreadPool { num_threads: 2 }, parallelism: 3, \
         starts_workers: true, rule: Seeded(7) }";
    prints(&rt, alloc, &explorer, text);
}

fn no_name(_index: usize) -> Result<String, AllocError> {
    Err(AllocError)
}

#[test]
fn a_builder_prints_its_parts(rt: HostRuntime) {
    let alloc = rt.alloc();
    let names = Box::new(alloc, no_name).expect(&rt, "memory");
    let builder = ThreadPoolBuilder::new().num_threads(2).thread_name(names);
    let text = "ThreadPoolBuilder { num_threads: 2, use_current_thread: false, \
         thread_name: Some(<closure>), stack_size: None, start_handler: None, \
         environment: Environment { num_threads: None, num_cpus: None, machine: None }, label: 0, \
         unstarted_workers: false }";
    prints(&rt, alloc, &builder, text);
}
