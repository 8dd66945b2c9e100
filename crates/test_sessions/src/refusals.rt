//! Calls that ask for memory, each between two lines by which a refusal can be aimed at it: for
//! `tests/allocations/check.sh` alone.
//!
//! Each part of the output is about one call:
//!
//! - `request NAME; STATE`, written right before the call;
//! - `answered`, written right after it, so that all memory that is asked for between these two
//!   lines is asked for by the call;
//! - what the call answered, and of a request the bytes of its room;
//! - `now STATE`, and the calls of the file system, each line with two spaces before it. The state of
//!   a server is its options, that of a reader or a writer how many bytes are left and done.
//!
//! The parts are `Reader::new`, `Writer::new`, `split_at` and `clone`; each message of the corpus,
//! whole, cut after its header, before its last byte and in single bytes, by `handle_message`, and
//! three times in a row by `handle_session`; and each of the lines, in the form of `vfs_demo` and
//! over files in memory as there, by `handle_message`. The bytes of a room are zeros before a
//! request.

mod lines;
mod messages;
mod parts;
mod segments;

use crate::refusals::parts::Parts;
use std::alloc::Global;
use std::io;
use vfs_run::RunError;

/// Makes all calls, with the requests of these lines at the end. The first of them has the number
/// that comes next after `before`, which tells a bad one.
pub fn try_calls<W: io::Write + Drop>(
    alloc: Global,
    requests: &[&[u8]],
    before: usize,
    output: W,
) -> Result<(), RunError> {
    let mut parts = Parts::new(alloc, output);
    segments::try_all(alloc, &mut parts)?;
    messages::try_all(alloc, &mut parts)?;
    lines::try_all(alloc, requests, before, &mut parts)
}
