//! The numbers that C sees of what a call came to.

ghost use Rattle.std.specs.Prelude.{◌≡◌, Err};
ghost use Rattle.c_rooms.specs.Codes.{outcome_code, shown_of};

use vfs_grammar::Error;

/// All is well.
pub const OK: i32 = 0;

/// There is no memory.
pub const OUT_OF_MEMORY: i32 = 10;

/// The handle has no server.
pub const NO_SERVER: i32 = 11;

/// A server can't be made for this page size, or for this largest payload.
pub const WRONG_SIZE: i32 = 12;

/// The lengths of the pieces sum past `usize::MAX`.
pub const TOO_LONG: i32 = 13;

/// A request asks for a call, which is told.
pub const ASKED: i32 = 15;

/// A call is none that was asked, or has another room.
pub const NOT_ASKED: i32 = 16;

/// The bytes of the header of a reply.
const HEADER_SIZE: usize = 16;

/// The number of an error, and how many bytes of a room of `total` are there to be copied out after
/// it.
pub fn told(error: &Error, total: usize) -> (i32, usize)
    ensures number { result.0 ≡ outcome_code (Err error.now) }
    ensures shown { result.1 ≡ shown_of (Err error.now) total }
{
    match error {
        Error::DecodeMessage => (1, 0),
        Error::EncodeMessage => (2, if total < HEADER_SIZE { 0 } else { total }),
        Error::FlushMessage => (3, 0),
        Error::MissingParameter => (4, 0),
        Error::InvalidCString => (5, 0),
        Error::InvalidCString2 => (6, 0),
        Error::InvalidHeaderLength => (7, 0),
        Error::InvalidXattrSize(_) => (8, 0),
        Error::MissingExtension => (9, 0),
        Error::OutOfMemory => (OUT_OF_MEMORY, 0),
    }
}
