//! Why a call over segments is refused.

use std::alloc::AllocError;
use std::result;
use thiserror::Error;

/// Why a reader or a writer refuses a call.
#[derive(Clone, Copy, Debug, PartialEq, Eq, Error)]
pub enum Error {
    /// The lengths of the segments sum past `usize::MAX`.
    #[error("the lengths of the segments sum past the largest count")]
    DescriptorChainOverflow,
    /// The place of a split or the length of a hold, in bytes, is past what is left.
    #[error("a place {0} bytes on is past what is left")]
    SplitOutOfBounds(usize),
    /// A fault of reading or writing; no call answers it.
    #[error("a segment could not be read or written")]
    IoError,
    /// The memory that the call needs isn't there.
    #[error("out of memory")]
    OutOfMemory,
}

/// What a call over segments answers.
pub type Result<T> = result::Result<T, Error>;

impl From<AllocError> for Error {
    ghost use Rattle.std.specs.Prelude.{◌≡◌};
    ghost use Rattle.vfs_segments.specs.declared.error.Error.{Error};
    ghost use Rattle.vfs_segments.specs.declared.error.Error.TheVariants.{OutOfMemory};

    ghost from_gives = { λ _ e. e ≡ OutOfMemory };

    fn from(_error: AllocError) -> Self {
        Error::OutOfMemory
    }
}
