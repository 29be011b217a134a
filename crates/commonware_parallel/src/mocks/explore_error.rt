//! Why a search through the rules gave no result.
ghost use Rattle.std.specs.Prelude.{◌≡◌};

use crate::mocks::rule::Rule;
use parallel_pool::rayon::ThreadPoolBuildError;
use std::alloc::{AllocError, AllocFailed};
use thiserror::Error;

/// Why `explore` gave no result.
#[derive(Debug, Drop, Error)]
pub enum ExploreError {
    /// The run by this rule differed from the serial run.
    #[error("the {0:?} run must return the serial run's output")]
    Differs(Rule),
    /// The pool could not be built.
    #[error(transparent)]
    Build(ThreadPoolBuildError),
}

/// A failed allocation is the pool's `Memory`.
impl From<AllocError> for ExploreError {
    ghost use Rattle.commonware_parallel.specs.declared.mocks.explore_error.ExploreError.TheVariants.{Build};
    ghost use Rattle.parallel_pool.specs.declared.rayon.build_error.ThreadPoolBuildError.TheVariants.{Memory};

    ghost from_gives = { λ _ error. error ≡ Build Memory };

    fn from(_error: AllocError) -> ExploreError {
        ExploreError::Build(ThreadPoolBuildError::Memory)
    }
}

/// One that hands a value back is the pool's `Memory`, and the value is dropped.
impl<T: Drop> From<AllocFailed<T>> for ExploreError {
    ghost use Rattle.commonware_parallel.specs.declared.mocks.explore_error.ExploreError.TheVariants.{Build};
    ghost use Rattle.parallel_pool.specs.declared.rayon.build_error.ThreadPoolBuildError.TheVariants.{Memory};

    ghost from_gives = { λ _ error. error ≡ Build Memory };

    fn from(_error: AllocFailed<T>) -> ExploreError {
        ExploreError::Build(ThreadPoolBuildError::Memory)
    }
}
