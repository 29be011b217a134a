//! A worker's own deque.
use crate::rayon::job_history::{
    JobView, Looks, Numbered, Purpose, Pushes, TakesLast, ToCall, ToKeep,
};
use crate::rayon::owned_job::OwnedJob;
use crate::rayon::thief_port::Thief;
use crossbeam_deque::Worker;
use std::alloc::{AllocError, Global};
use std::marker::Model;

/// A worker's own deque: the job that was pushed last comes first. Contracts see what the worker
/// knows of the deque.
#[derive(Drop)]
pub struct JobDeque<T: Drop = OwnedJob> {
    own: Worker<T, Global, JobView<T>, Numbered>,
}

impl<T: Drop> Model for JobDeque<T> {
    ghost use Rattle.std.specs.Prelude.{◌≡◌};
    ghost use Rattle.crossbeam_deque.specs.Handles.{worker_flavor, worker_view};
    ghost use Rattle.parallel_pool.specs.declared.rayon.job_history.JobView.{JobView};

    ghost Value = { JobView T };

    ghost view = { λ p. worker_view p.own };

    ghost invariant = { λ p. worker_flavor p.own ≡ 1 };
}

impl<T: Drop> JobDeque<T> {
    ghost use Rattle.std.specs.Prelude.{◌≡◌, IfOk, MatchOption, MatchResult, false, true};
    ghost use Rattle.parallel_pool.specs.JobHistory.{HasPushed, HasTaken, new_pass};
    ghost use Rattle.parallel_pool.specs.declared.rayon.job_history.Deed.TheVariants.{TakeLast};

    /// A deque to which nothing was pushed yet, with room for 32 jobs before it has to grow.
    ///
    /// # Errors
    ///
    /// `AllocError` if an allocation fails.
    pub(crate) fn new(alloc: Global) -> Result<JobDeque<T>, AllocError>
        ensures { IfOk result (λ deque. deque ≡ new_pass) }
    {
        let own = Worker::lifo_as(alloc, 32)?;
        Ok(JobDeque { own })
    }

    /// What takes jobs at the front of the deque.
    ///
    /// # Errors
    ///
    /// `AllocError` if an allocation fails.
    pub(crate) fn thief(&self) -> Result<Thief<T>, AllocError> {
        self.own.stealer()
    }

    /// Pushes a job after the others.
    ///
    /// # Errors
    ///
    /// The job itself, if there is no memory for it.
    pub fn push(&mut self, job: T) -> Result<(), T>
        ensures { MatchResult result (λ _. HasPushed self.old job self.new)
            (λ back. (back ≡ job) × (self.new ≡ self.old)) }
    {
        self.own.push_as::<Pushes>(job)
    }

    /// Whether no job is there, at one moment of the call.
    pub fn is_empty(&mut self) -> bool
        ensures { self.new ≡ self.old }
    {
        self.own.len_as::<Looks>() == 0
    }

    /// Takes the last job, where there is one.
    pub fn pop(&mut self) -> Option<T>
        ensures { MatchOption result (self.new ≡ self.old)
            (λ job. HasTaken TakeLast false self.old job self.new) }
    {
        self.pop_as::<ToKeep>()
    }

    /// Takes the last job, where there is one, to call it at once.
    pub(crate) fn pop_to_call(&mut self) -> Option<T>
        ensures { MatchOption result (self.new ≡ self.old)
            (λ job. HasTaken TakeLast true self.old job self.new) }
    {
        self.pop_as::<ToCall>()
    }

    fn pop_as<U: Purpose>(&mut self) -> Option<T>
        ensures { MatchOption result (self.new ≡ self.old)
            (λ job. HasTaken TakeLast U.called self.old job self.new) }
    {
        self.own.pop_as::<TakesLast<U>>()
    }
}
