//! Why a call could not be carried out, and why a call whose closures may fail has no result.
ghost use Rattle.std.specs.Prelude.{◌≡◌};
ghost use Rattle.std.specs.IoError.{error_kind};
ghost use Rattle.parallel_fault.specs.Trouble.{IsMemoryOnErr, IsMemoryOnFault, IsStop, fault_kind};
ghost use Rattle.parallel_fault.specs.declared.fault.Fault.TheVariants.{Memory};
ghost use Rattle.parallel_fault.specs.declared.fault.Trouble.TheVariants.{Fault as OfFault};

use std::alloc::{AllocError, AllocFailed};
use std::fmt::Display;
use std::io;
use thiserror::Error;

/// Why a call could not be carried out, where that is no error of its caller's closures.
///
/// A closure that returns a `Fault` itself, such as the `prepare` of a batch's map, or a strategy of
/// one's own may give `Memory` where no allocation failed.
#[derive(Clone, Copy, Debug, PartialEq, Eq, Error)]
pub enum Fault {
    /// A growth of a list, a table or a queue was refused.
    #[error("out of memory")]
    Memory,
    /// The start of an offloaded job's worker was refused.
    #[error("a worker could not be started")]
    Worker,
    /// A job was to be handed off, and the pool has the one thread that waits for it.
    #[error("a handed-off job needs a pool of two threads")]
    HandOff,
}

/// What a call returns whose closures may fail by an error of their own.
#[derive(Debug, PartialEq, Eq, Drop, Error)]
#[error_bound(E: Display)]
pub enum Trouble<E> {
    /// The error that a closure of the caller's returned.
    #[error("{0}")]
    Closure(E),
    /// A refusal of the call itself.
    #[error(transparent)]
    Fault(Fault),
}

/// What stopped a call: nothing where it has a result, which is dropped, and otherwise the error of
/// the caller's closure.
///
/// # Errors
///
/// The refusal of the call itself.
pub fn stopped<T: Drop, E>(told: Result<T, Trouble<E>>) -> Result<Option<E>, Fault>
    ensures stop { IsStop told result }
    ensures fault { IsMemoryOnFault told → IsMemoryOnErr result }
{
    match told {
        Ok(_) => Ok(None),
        Err(Trouble::Closure(error)) => Ok(Some(error)),
        Err(Trouble::Fault(fault)) => Err(fault),
    }
}

/// A refused growth is `Fault::Memory`.
impl From<AllocError> for Fault {
    ghost from_gives = { λ _ fault. fault ≡ Memory };

    fn from(_error: AllocError) -> Fault {
        Fault::Memory
    }
}

/// A refused growth that hands a value back is `Fault::Memory`, and the value is dropped.
impl<T: Drop> From<AllocFailed<T>> for Fault {
    ghost from_gives = { λ _ fault. fault ≡ Memory };

    fn from(_error: AllocFailed<T>) -> Fault {
        Fault::Memory
    }
}

/// For a program that returns an `io::Result`: `Fault::Memory` is of the kind `OutOfMemory`, the
/// others of the kind `Other`. The text is the fault's.
impl From<Fault> for io::Error {
    ghost from_gives = { λ fault error. error_kind error ≡ fault_kind fault };

    fn from(fault: Fault) -> io::Error {
        match fault {
            Fault::Memory => io::Error::new(io::ErrorKind::OutOfMemory, "out of memory"),
            Fault::Worker => io::Error::other("a worker could not be started"),
            Fault::HandOff => io::Error::other("a handed-off job needs a pool of two threads"),
        }
    }
}

/// A refusal is the trouble that holds it.
impl<E> From<Fault> for Trouble<E> {
    ghost from_gives = { λ fault trouble. trouble ≡ OfFault fault };

    fn from(fault: Fault) -> Trouble<E> {
        Trouble::Fault(fault)
    }
}

/// A refused growth is `Fault::Memory`.
impl<E> From<AllocError> for Trouble<E> {
    ghost from_gives = { λ _ trouble. trouble ≡ OfFault Memory };

    fn from(_error: AllocError) -> Trouble<E> {
        Trouble::Fault(Fault::Memory)
    }
}

/// A refused growth that hands a value back is `Fault::Memory`, and the value is dropped.
impl<T: Drop, E> From<AllocFailed<T>> for Trouble<E> {
    ghost from_gives = { λ _ trouble. trouble ≡ OfFault Memory };

    fn from(_error: AllocFailed<T>) -> Trouble<E> {
        Trouble::Fault(Fault::Memory)
    }
}
