//! What is spawned, and the promise by which its result is known.
ghost use Rattle.std.specs.Prelude.{◌≡◌};

use std::snapshot::Snapshot;
use std::thread::Promise;

/// What can be spawned: it is run once, on a strategy of its own, and returns.
///
/// A closure is spawned as a `Closure`. A type of one's own is spawned where the type of its
/// `Spawned` has to be written out.
pub trait Job<S, T> {
    /// The strategies on which the job may be run.
    ghost may_run: { Self → S → Type 0 };

    /// The results that it may return on a strategy.
    ghost may_answer: { Self → S → T → Type 0 };

    /// Runs the job.
    fn run_on(self, strategy: S) -> T
        requires { may_run self strategy }
        ensures { may_answer self strategy result };
}

/// A closure as a job: `Closure(|strategy| ..)`.
#[derive(Drop)]
pub struct Closure<F>(pub F);

impl<S, T, F: FnOnce(S) -> T> Job<S, T> for Closure<F> {
    ghost may_run = { λ closure strategy. F.pre closure.0 strategy };

    ghost may_answer = { λ closure strategy answer. F.post closure.0 strategy answer };

    fn run_on(self, strategy: S) -> T {
        (self.0)(strategy)
    }
}

/// The promise of a worker: its result is one that the job allows on the strategy.
#[derive(Drop)]
pub(crate) struct Kept<S, F> {
    job: Snapshot<F>,
    strategy: Snapshot<S>,
}

impl<S, F> Kept<S, F> {
    pub(crate) fn of(job: &F, strategy: &S) -> Kept<S, F>
        ensures { (result.job.value ≡ job.now) × (result.strategy.value ≡ strategy.now) }
    {
        Kept {
            job: Snapshot::of(job),
            strategy: Snapshot::of(strategy),
        }
    }
}

impl<S, T, F: Job<S, T>> Promise<T> for Kept<S, F> {
    ghost kept_by = { λ kept answer. F.may_answer kept.job.value kept.strategy.value answer };
}
