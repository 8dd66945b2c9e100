//! The answers of a session: the outcome of a request as a line.

use std::alloc::{AllocError, Global};
use vfs_server::Error;

/// The answer to a request with this outcome, where the rooms hold these bytes afterwards, with its
/// newline.
pub fn answer_line(
    alloc: Global,
    outcome: &vfs_server::Result<usize>,
    rooms: &[Vec<u8>],
) -> Result<String, AllocError> {
    match outcome {
        Ok(length) => {
            let mut answer = format!(in alloc; "ok {length}")?;
            push_front(alloc, &mut answer, rooms, *length)?;
            answer.push('\n')?;
            Ok(answer)
        }
        Err(Error::EncodeMessage) => {
            let mut answer = String::from_str(alloc, "err EncodeMessage")?;
            push_front(alloc, &mut answer, rooms, usize::MAX)?;
            answer.push('\n')?;
            Ok(answer)
        }
        Err(Error::InvalidXattrSize((size, length))) => {
            format!(in alloc; "err InvalidXattrSize {size} {length}\n")
        }
        Err(error) => format!(in alloc; "err {error:?}\n"),
    }
}

// Appends a space and at most the first `most` bytes of the rooms in hex, where there are any.
fn push_front(
    alloc: Global,
    answer: &mut String,
    rooms: &[Vec<u8>],
    most: usize,
) -> Result<(), AllocError> {
    let mut left = most;
    let mut between = " ";
    for room in rooms {
        let part = &room[..left.min(room.len())];
        if !part.is_empty() {
            answer.push_str(between)?;
            answer.push_str(hex::encode(alloc, part)?.as_str())?;
            between = "";
        }
        left -= part.len();
    }
    Ok(())
}
