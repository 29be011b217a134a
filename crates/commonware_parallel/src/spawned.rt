//! Jobs that go on while their caller does, and their results.
ghost use Rattle.std.specs.Prelude.{◌≡◌, ◌≢◌, IfSome, IsSome, None, false, true};
ghost use Rattle.futures.specs.Poll.{IfReady, OnPending};
ghost use Rattle.futures.specs.Task.{Covers, Keeps};

mod ending;
mod job;
mod start;

use crate::spawned::ending::Ending;
use crate::spawned::job::Kept;
pub use crate::spawned::job::{Closure, Job};
pub(crate) use crate::spawned::start::begin;
use futures::Future;
use futures::task::{Context, Poll, Source, Waker};
use std::alloc::Global;
use std::mem;
use std::sync::{Arc, Wait};
use std::thread::{PromisedHandle, Threads};

// How far a job is.
#[derive(Drop)]
pub(crate) enum Stage<S, F: Job<S, T>, T> {
    // Its result is here.
    Ready(T),
    // It was handed off to a worker, which tells when it ends.
    Waiting(PromisedHandle<T, Kept<S, F>>, Arc<Ending, Global>),
    // There is no worker, and won't be one.
    Unstarted,
    // Its result was taken.
    Taken,
}

/// A job that was spawned: its result, or what waits for it.
///
/// It is ready at once, or waits for a worker. As a future it gives the job's result, once; a task
/// or `block_on` of `futures` waits for it, and `poll` asks by hand. Dropped before its job has
/// ended it leaves the job to run, and the result goes with it.
#[derive(Drop)]
pub struct Spawned<R, S, F: Job<S, T>, T> {
    rt: R,
    stage: Stage<S, F, T>,
    // What is waited for where nothing is to come. It never fires.
    never: Source,
    waker: Option<Waker>,
}

impl<R, S, F: Job<S, T>, T> Spawned<R, S, F, T> {
    ghost use Rattle.commonware_parallel.specs.Spawned.{is_ready_now, is_taken, stage_of};

    pub(crate) fn at(rt: R, stage: Stage<S, F, T>) -> Spawned<R, S, F, T>
        ensures { stage_of result ≡ stage }
    {
        Spawned {
            rt,
            stage,
            never: Source::new(),
            waker: None,
        }
    }

    /// Whether the result is here already, so that the next poll gives it without a wait.
    pub fn is_ready(&self) -> bool
        ensures { result ≡ is_ready_now self.now }
    {
        matches!(self.stage, Stage::Ready(_))
    }

    // Whether the result was taken.
    fn is_taken(&self) -> bool
        ensures { result ≡ is_taken self.now }
    {
        matches!(self.stage, Stage::Taken)
    }
}

impl<R, S: Drop, F: Job<S, T> + Drop, T: Drop> Spawned<R, S, F, T> {
    ghost use Rattle.commonware_parallel.specs.Spawned.{gives_answer, is_ready_now, is_taken, stage_of};

    /// The result, where it is here already: it is taken then, without a poll and so without the
    /// right to wait. Where it isn't here there is none, and nothing changes.
    pub fn take_ready(&mut self) -> Option<T>
        ensures value { IfSome result (gives_answer F.may_answer self.old) }
        ensures here { is_ready_now self.old ≡ true → IsSome result }
        ensures taken { IsSome result → is_taken self.new ≡ true }
        ensures not_here { is_ready_now self.old ≡ false → result ≡ None }
        ensures same { result ≡ None → stage_of self.new ≡ stage_of self.old }
    {
        let stage = mem::replace(&mut self.stage, Stage::Taken);
        match stage {
            Stage::Ready(answer) => Some(answer),
            Stage::Waiting(worker, ending) => {
                self.stage = Stage::Waiting(worker, ending);
                None
            }
            Stage::Unstarted => {
                self.stage = Stage::Unstarted;
                None
            }
            Stage::Taken => None,
        }
    }
}

impl<R: Threads + Wait, S: Drop, F: Job<S, T> + Drop, T: Drop> Spawned<R, S, F, T> {
    ghost use Rattle.commonware_parallel.specs.Spawned.{gives_answer, is_ready_now, is_taken, needs_of, stage_of};

    /// The result, once it is here.
    ///
    /// A pending poll has left its task's waker, which the job's end wakes; a poll that sees the
    /// end joins the worker. After the result was taken every poll is pending and leaves nothing.
    pub fn poll(&mut self, cx: &mut Context<'_>) -> Poll<T>
        ensures value { IfReady result (gives_answer F.may_answer self.old) }
        ensures taken { IfReady result (λ _. is_taken self.new ≡ true) }
        ensures same { OnPending result (stage_of self.new ≡ stage_of self.old) }
        ensures registered { OnPending result
            (is_taken self.old ≡ false → Covers cx.new (needs_of self.new)) }
        ensures pending { is_taken self.old ≡ true → result ≡ Poll.Pending }
        ensures left_alone { is_taken self.old ≡ true → cx.new ≡ cx.old }
        ensures ready { is_ready_now self.old ≡ true → result ≢ Poll.Pending }
        ensures kept { Keeps cx.old cx.new }
    {
        match mem::replace(&mut self.stage, Stage::Taken) {
            Stage::Ready(answer) => Poll::Ready(answer),
            Stage::Waiting(worker, ending) => match ending.poll(&self.rt, cx) {
                Poll::Ready(()) => Poll::Ready(worker.join(&self.rt)),
                Poll::Pending => {
                    self.stage = Stage::Waiting(worker, ending);
                    Poll::Pending
                }
            },
            Stage::Unstarted => {
                self.stage = Stage::Unstarted;
                cx.register(&self.never, &mut self.waker)
            }
            Stage::Taken => Poll::Pending,
        }
    }
}

impl<R: Threads + Wait + Drop, S: Drop, F: Job<S, T> + Drop, T: Drop> Future
    for Spawned<R, S, F, T> {
    ghost use Rattle.commonware_parallel.specs.Spawned.{gives_answer, needs_of};

    type Output = T;

    ghost needs = { λ spawned source. needs_of spawned source };

    ghost gives = { λ spawned answer. gives_answer F.may_answer spawned answer };

    fn poll(&mut self, cx: &mut Context<'_>) -> Poll<T> {
        if self.is_taken() {
            return cx.register(&self.never, &mut self.waker);
        }
        Spawned::poll(self, cx)
    }
}
