//! The history of a queue of jobs, the rule that the queue and its passes keep, and what each step
//! tells.
ghost use Rattle.std.specs.Prelude.{Bool};

use crossbeam_deque::protocol::{Lesson, Outcome, Protocol};
use std::collections::LinkedList;
use std::marker::PhantomData;

/// What is done to a queue of jobs.
#[derive(Clone, Copy, Debug)]
pub enum Deed {
    /// A job is pushed after the others.
    Push,
    /// The first job is taken.
    TakeFirst,
    /// The last job is taken.
    TakeLast,
}

/// One deed in the history of a queue of jobs. No value of it is made.
pub struct Event<T> {
    /// The number of the pass that did it.
    pub by: u64,
    pub deed: Deed,
    /// The job's number in this queue: its pushes are numbered from 0 on.
    pub number: u64,
    pub job: T,
    /// Whether the job was taken to be called at once.
    pub called: bool,
}

/// What a pass knows of its queue. No value of it is made.
pub struct JobView<T> {
    /// The history, as far as the pass has seen it.
    pub seen: LinkedList<Event<T>>,
    /// The deeds in it that are the pass's own.
    pub own: LinkedList<Event<T>>,
}

/// The rule: one history of pushes and takes leads to the jobs in the queue, and each pass has seen
/// a beginning of it.
pub struct Numbered;

impl<T> Protocol<T, JobView<T>> for Numbered {
    ghost use Rattle.parallel_pool.specs.JobHistory.{IsJobHistoryOf, new_pass};

    ghost holds = { IsJobHistoryOf };

    ghost first = { new_pass };

    ghost guest = { new_pass };
}

/// The step of a push.
pub(crate) struct Pushes;

impl<T> Outcome<T, JobView<T>> for Pushes {
    ghost use Rattle.std.specs.Prelude.{◌≡◌, [], ◌∷◌};
    ghost use Rattle.parallel_pool.specs.JobHistory.{HasPushed};

    ghost then = { λ v xs w. (x : _) → xs ≡ x ∷ [] → HasPushed v x w };
}

/// What becomes of a job that is taken.
pub(crate) trait Purpose {
    ghost called: { Bool };
}

/// The job is handed out.
pub(crate) struct ToKeep;

impl Purpose for ToKeep {
    ghost use Rattle.std.specs.Prelude.{false};

    ghost called = { false };
}

/// The job is called at once: it counts as called from this very step on.
pub(crate) struct ToCall;

impl Purpose for ToCall {
    ghost use Rattle.std.specs.Prelude.{true};

    ghost called = { true };
}

/// The step of a take of the first job.
pub(crate) struct Takes<U> {
    purpose: PhantomData<U>,
}

impl<T, U: Purpose> Outcome<T, JobView<T>> for Takes<U> {
    ghost use Rattle.std.specs.Prelude.{◌≡◌, [], ◌∷◌};
    ghost use Rattle.parallel_pool.specs.JobHistory.{HasTaken};
    ghost use Rattle.parallel_pool.specs.declared.rayon.job_history.Deed.TheVariants.{TakeFirst};

    ghost then = { λ v xs w. (x : _) → xs ≡ x ∷ [] → HasTaken TakeFirst U.called v x w };
}

/// The step of a take of the last job.
pub(crate) struct TakesLast<U> {
    purpose: PhantomData<U>,
}

impl<T, U: Purpose> Outcome<T, JobView<T>> for TakesLast<U> {
    ghost use Rattle.std.specs.Prelude.{◌≡◌, [], ◌∷◌};
    ghost use Rattle.parallel_pool.specs.JobHistory.{HasTaken};
    ghost use Rattle.parallel_pool.specs.declared.rayon.job_history.Deed.TheVariants.{TakeLast};

    ghost then = { λ v xs w. (x : _) → xs ≡ x ∷ [] → HasTaken TakeLast U.called v x w };
}

/// A look at how many jobs there are, of which nothing is to be known.
pub(crate) struct Looks;

impl<T> Lesson<T, JobView<T>> for Looks {
    ghost use Rattle.std.specs.Prelude.{⊤};

    ghost fact = { λ _ _. ⊤ };
}
