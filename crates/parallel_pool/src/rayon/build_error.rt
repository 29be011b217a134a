//! Why a pool could not be made.
ghost use Rattle.std.specs.Prelude.{◌≡◌};

use parallel_fault::Fault;
use std::alloc::{AllocError, AllocFailed};
use thiserror::Error;

/// Why a pool could not be built.
#[derive(Debug, Drop, Error)]
pub enum ThreadPoolBuildError {
    /// A growth of one of the pool's lists was refused.
    #[error("out of memory")]
    Memory,
    /// The start of a worker thread was refused.
    #[error("a worker thread could not be started")]
    Spawn,
}

/// A refused growth is `ThreadPoolBuildError::Memory`.
impl From<AllocError> for ThreadPoolBuildError {
    ghost use Rattle.parallel_pool.specs.declared.rayon.build_error.ThreadPoolBuildError.TheVariants.{Memory};

    ghost from_gives = { λ _ error. error ≡ Memory };

    fn from(_error: AllocError) -> ThreadPoolBuildError {
        ThreadPoolBuildError::Memory
    }
}

/// A refused growth that hands a value back is `ThreadPoolBuildError::Memory`, and the value is
/// dropped.
impl<T: Drop> From<AllocFailed<T>> for ThreadPoolBuildError {
    ghost use Rattle.parallel_pool.specs.declared.rayon.build_error.ThreadPoolBuildError.TheVariants.{Memory};

    ghost from_gives = { λ _ error. error ≡ Memory };

    fn from(_error: AllocFailed<T>) -> ThreadPoolBuildError {
        ThreadPoolBuildError::Memory
    }
}

/// Want of memory is `Fault::Memory`, and a worker that could not be started `Fault::Worker`.
impl From<ThreadPoolBuildError> for Fault {
    ghost use Rattle.parallel_pool.specs.BuildErrors.{fault_of};

    ghost from_gives = { λ error fault. fault ≡ fault_of error };

    fn from(error: ThreadPoolBuildError) -> Fault {
        match error {
            ThreadPoolBuildError::Memory => Fault::Memory,
            ThreadPoolBuildError::Spawn => Fault::Worker,
        }
    }
}
