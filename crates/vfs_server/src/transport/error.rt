//! Why a transport has no reply.

ghost use Rattle.std.specs.Prelude.{◌≡◌};
ghost use Rattle.vfs_server.specs.declared.transport.error.ServeError.TheVariants.{OutOfMemory, Server, FileSystem};

use std::alloc::{AllocError, AllocFailed};
use thiserror::Error;
use vfs_flags::Fault;

/// Why a request has no reply. `?` makes it of each error that a transport meets, from the file
/// system to the reply.
#[derive(Clone, Copy, Debug, Error)]
pub enum ServeError {
    /// There was no memory before the server had the request: it is as it was.
    #[error("out of memory")]
    OutOfMemory,
    /// The segments of a request or of a room were refused, by another error than that.
    #[error("{0}")]
    Segments(vfs_segments::Error),
    /// The server refused the request, or its reply is longer than the room.
    #[error("{0}")]
    Server(vfs_grammar::Error),
    /// The file system could not be made, by this fault.
    #[error("the file system could not be made")]
    FileSystem(Fault),
}

impl From<AllocError> for ServeError {
    ghost from_gives = { λ _ e. e ≡ OutOfMemory };

    fn from(_refused: AllocError) -> ServeError {
        ServeError::OutOfMemory
    }
}

impl<T: Drop> From<AllocFailed<T>> for ServeError {
    ghost from_gives = { λ _ e. e ≡ OutOfMemory };

    fn from(_refused: AllocFailed<T>) -> ServeError {
        ServeError::OutOfMemory
    }
}

impl From<vfs_segments::Error> for ServeError {
    ghost use Rattle.vfs_server.specs.ServeErrors.{of_segments};

    ghost from_gives = { λ error e. e ≡ of_segments error };

    fn from(error: vfs_segments::Error) -> ServeError {
        match error {
            vfs_segments::Error::OutOfMemory => ServeError::OutOfMemory,
            other => ServeError::Segments(other),
        }
    }
}

impl From<vfs_grammar::Error> for ServeError {
    ghost from_gives = { λ error e. e ≡ Server error };

    fn from(error: vfs_grammar::Error) -> ServeError {
        ServeError::Server(error)
    }
}

impl From<Fault> for ServeError {
    ghost from_gives = { λ fault e. e ≡ FileSystem fault };

    fn from(fault: Fault) -> ServeError {
        ServeError::FileSystem(fault)
    }
}
