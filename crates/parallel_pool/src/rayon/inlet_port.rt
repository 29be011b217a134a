//! A pass of one queue that any thread may push to.
use crate::rayon::job_history::{JobView, Numbered, Purpose, Pushes, Takes};
use crossbeam_deque::{Injector, InjectorPass, Steal};
use std::alloc::Global;
use std::marker::Model;
use std::sync::{Arc, Wait};

/// A queue of jobs to which any thread may push, first one in first out.
pub(crate) type Inlet<T> = Injector<T, Global, JobView<T>, Numbered>;

/// One seat's pass of such a queue. Contracts see what it knows of the queue.
#[derive(Drop)]
pub(crate) struct InletPort<T: Drop> {
    queue: Arc<Inlet<T>, Global>,
    pass: InjectorPass<T, JobView<T>>,
}

impl<T: Drop> Model for InletPort<T> {
    ghost use Rattle.crossbeam_deque.specs.Injected.{injector_view, IsInjectorPassOf};
    ghost use Rattle.parallel_pool.specs.declared.rayon.job_history.JobView.{JobView};

    ghost Value = { JobView T };

    ghost view = { λ p. injector_view p.pass };

    ghost invariant = { λ p. IsInjectorPassOf p.queue.value p.pass };
}

impl<T: Drop> InletPort<T> {
    ghost use Rattle.std.specs.Prelude.{◌≡◌, MatchOption, MatchResult};
    ghost use Rattle.crossbeam_deque.specs.Steals.{MatchSteal};
    ghost use Rattle.parallel_pool.specs.JobHistory.{HasPushed, HasTaken, new_pass};
    ghost use Rattle.parallel_pool.specs.declared.rayon.job_history.Deed.TheVariants.{TakeFirst};

    /// A pass that has seen nothing of the queue.
    pub(crate) fn new(queue: Arc<Inlet<T>, Global>) -> InletPort<T>
        ensures { result ≡ new_pass }
    {
        let pass = queue.pass();
        InletPort { queue, pass }
    }

    /// Pushes a job after the others.
    ///
    /// # Errors
    ///
    /// The job itself, if there is no memory for it.
    pub(crate) fn push<R: Wait>(&mut self, rt: &R, job: T) -> Result<(), T>
        ensures { MatchResult result (λ _. HasPushed self.old job self.new)
            (λ back. (back ≡ job) × (self.new ≡ self.old)) }
    {
        self.queue.push_as::<Pushes, R>(rt, &mut self.pass, job)
    }

    /// Whether no job is there, at one moment of the call.
    pub(crate) fn is_empty(&self) -> bool {
        let mut pass = self.queue.pass();
        self.queue.is_empty_as::<Pushes>(&mut pass)
    }

    // One try to take the first job.
    fn try_take<U: Purpose, R: Wait>(&mut self, rt: &R) -> Steal<T>
        ensures { MatchSteal result (self.new ≡ self.old) (self.new ≡ self.old)
            (λ job. HasTaken TakeFirst U.called self.old job self.new) }
    {
        self.queue.steal_as::<Takes<U>, R>(rt, &mut self.pass)
    }

    /// Takes the first job.
    pub(crate) fn take<U: Purpose, R: Wait>(&mut self, rt: &R) -> Option<T>
        ensures { MatchOption result (self.new ≡ self.old)
            (λ job. HasTaken TakeFirst U.called self.old job self.new) }
    {
        for _ in rt.forever() {
            match self.try_take::<U, R>(rt) {
                Steal::Success(job) => return Some(job),
                Steal::Empty => return None,
                Steal::Retry => {}
            }
        }
        unreachable!()
    }
}
