//! How the printing of a message ends.

use std::fmt::{self, Write};
use vfs_flags::Errno;
use vfs_grammar::Error;

/// Why the printing of a message ended before its last part.
#[derive(Clone, Copy)]
pub enum Stop {
    /// The writer failed.
    Writer,
    /// The bytes are refused with this error, without a reply.
    Refused(Error),
    /// The request isn't served: it is answered ENOSYS, whatever else its bytes are.
    NotServed,
    /// An INIT of a version that isn't served: it is answered EPROTO.
    OldVersion,
}

/// What is left of some bytes after those that were printed.
pub type Left<'a> = Result<&'a [u8], Stop>;

impl From<fmt::Error> for Stop {
    fn from(_error: fmt::Error) -> Stop {
        Stop::Writer
    }
}

impl From<Error> for Stop {
    fn from(error: Error) -> Stop {
        Stop::Refused(error)
    }
}

/// Prints how a message ends: how many bytes come after its parts, if there are any, or what it is
/// refused for.
pub fn print_end<W: Write>(w: &mut W, outcome: Left<'_>) -> fmt::Result {
    match outcome {
        Ok(following) if following.is_empty() => Ok(()),
        Ok(following) => write!(w, " ignored={}", following.len()),
        Err(Stop::Writer) => Err(fmt::Error),
        Err(Stop::Refused(error)) => write!(w, " refused={error:?}"),
        Err(Stop::NotServed) => write!(w, " refused={}", Errno::ENOSYS),
        Err(Stop::OldVersion) => write!(w, " refused={}", Errno::EPROTO),
    }
}
