//! How a run ends where it does not answer every line.
ghost use Rattle.std.specs.Prelude.{◌≡◌};
ghost use Rattle.vfs_run.specs.Status.{status_of};
ghost use Rattle.vfs_run.specs.declared.error.RunError.TheVariants.{OutOfMemory};

use std::alloc::{AllocError, AllocFailed};
use thiserror::Error;

/// Why a run ended before it had answered every line of its input.
#[derive(Clone, Copy, Debug, PartialEq, Eq, Drop, Error)]
pub enum RunError {
    /// The line of this number, counted from 1, is not of the form of a session's line. The lines
    /// before it were answered.
    #[error("bad line {0}")]
    BadLine(usize),

    /// The input could not be read or the output not be written.
    #[error("i/o error")]
    Io,

    /// The program itself, and not the server in an answer, wanted memory and had none.
    #[error("out of memory")]
    OutOfMemory,
}

impl From<AllocError> for RunError {
    ghost from_gives = { λ _ e. e ≡ OutOfMemory };

    fn from(_refused: AllocError) -> RunError {
        RunError::OutOfMemory
    }
}

impl<T: Drop> From<AllocFailed<T>> for RunError {
    ghost from_gives = { λ _ e. e ≡ OutOfMemory };

    fn from(_refused: AllocFailed<T>) -> RunError {
        RunError::OutOfMemory
    }
}

/// The status that the program ends with: 0 where every line was answered, 2 for a bad line, 3 for
/// a fault of input or output, 4 for want of memory.
pub fn exit_status(outcome: &Result<(), RunError>) -> u8
    ensures { result ≡ status_of outcome.now }
{
    match outcome {
        Ok(()) => 0,
        Err(RunError::BadLine(_)) => 2,
        Err(RunError::Io) => 3,
        Err(RunError::OutOfMemory) => 4,
    }
}
