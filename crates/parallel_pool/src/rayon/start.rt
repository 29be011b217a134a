//! Starting the workers of a pool.
ghost use Rattle.std.specs.Prelude.{◌≡◌};

use crate::rayon::build_error::ThreadPoolBuildError;
use crate::rayon::handlers::StartHandler;
use crate::rayon::owned_job::Execute;
use crate::rayon::worker_thread::WorkerThread;
use std::alloc::Global;
use std::sync::{Arc, Wait};
use std::thread;
use std::thread::{JoinHandle, Threads};

/// What a started thread does.
pub(crate) trait Work: Drop {
    fn run<R: Wait>(self, rt: &R);
}

/// A worker, and what it calls first.
#[derive(Drop)]
pub(crate) struct Starter<T: Execute> {
    pub(crate) worker: WorkerThread<T>,
    pub(crate) start: Option<Arc<StartHandler, Global>>,
}

impl<T: Execute> Work for Starter<T> {
    fn run<R: Wait>(self, rt: &R) {
        let Starter { mut worker, start } = self;
        if let Some(start) = &start {
            start.call(worker.index());
        }
        worker.work(rt);
    }
}

/// Starts each worker, with its name.
///
/// # Errors
///
/// An Err has the threads of those that were started before, which run:
/// `ThreadPoolBuildError::Memory` where there is no room to list them, of which there are none
/// then; `Spawn` where a start was refused.
pub(crate) fn start_workers<R: Threads + Wait + Copy + Send + 'static, T: Execute + Send + 'static>(
    rt: &R,
    alloc: Global,
    stack_size: Option<usize>,
    workers: Vec<(Option<String>, Starter<T>)>,
) -> Result<(), (ThreadPoolBuildError, Vec<JoinHandle<()>>)> {
    let Ok(mut started) = Vec::with_capacity(alloc, workers.len()) else {
        return Err((ThreadPoolBuildError::Memory, Vec::new(alloc)));
    };
    match start_all::<R, Starter<T>>(rt, stack_size, workers, &mut started) {
        Ok(()) => Ok(()),
        Err(error) => Err((error, started)),
    }
}

fn start_all<R: Threads + Wait + Copy + Send + 'static, W: Work + Send + 'static>(
    rt: &R,
    stack_size: Option<usize>,
    workers: Vec<(Option<String>, W)>,
    started: &mut Vec<JoinHandle<()>>,
) -> Result<(), ThreadPoolBuildError> {
    for (name, work) in workers {
        let handle = start(rt, stack_size, name, work)?;
        started.push(handle)?;
    }
    Ok(())
}

fn start<R: Threads + Wait + Copy + Send + 'static, W: Work + Send + 'static>(
    rt: &R,
    stack_size: Option<usize>,
    name: Option<String>,
    work: W,
) -> Result<JoinHandle<()>, ThreadPoolBuildError> {
    let theirs = *rt;
    match as_set(stack_size, name).spawn(rt, move || work.run(&theirs)) {
        Ok(handle) => Ok(handle),
        Err(_) => Err(ThreadPoolBuildError::Spawn),
    }
}

fn as_set(stack_size: Option<usize>, name: Option<String>) -> thread::Builder {
    let mut builder = thread::Builder::new();
    if let Some(size) = stack_size {
        builder = builder.stack_size(size);
    }
    if let Some(name) = name {
        builder = builder.name(name);
    }
    builder
}
