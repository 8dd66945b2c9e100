//! The calls of a reader and a writer that ask for memory.

use crate::refusals::parts::Parts;
use std::alloc::{AllocError, Global};
use std::io;
use vfs_run::RunError;
use vfs_segments::{Error, Reader, Writer};

/// The segments of a reader: more than need no memory.
const SEGMENTS: [&[u8]; 6] = [b"ab", b"c", b"def", b"", b"g", b"hi"];

/// The lengths of those of a writer.
const LENGTHS: [usize; 6] = [2, 1, 3, 0, 1, 2];

/// Where a reader and a writer are split.
const MIDDLE: usize = 1;

/// Makes each call.
pub fn try_all<W: io::Write + Drop>(alloc: Global, parts: &mut Parts<W>) -> Result<(), RunError> {
    try_new(alloc, parts)?;
    try_reader(alloc, parts)?;
    try_writer(alloc, parts)
}

// Makes a reader and a writer.
fn try_new<W: io::Write + Drop>(alloc: Global, parts: &mut Parts<W>) -> Result<(), RunError> {
    begin(alloc, parts, "Reader::new", (0, 0))?;
    let made = Reader::new(alloc, &SEGMENTS);
    end(alloc, parts, made.err(), (0, 0))?;

    let rooms = rooms(alloc)?;
    begin(alloc, parts, "Writer::new", (0, 0))?;
    let made = Writer::new(alloc, rooms);
    end(alloc, parts, made.err(), (0, 0))
}

// Clones a reader, and splits it.
fn try_reader<W: io::Write + Drop>(alloc: Global, parts: &mut Parts<W>) -> Result<(), RunError> {
    match Reader::new(alloc, &SEGMENTS) {
        Ok(mut reader) => {
            try_clone(alloc, parts, &reader)?;
            try_split(alloc, parts, &mut reader)
        }
        Err(_) => Err(RunError::OutOfMemory),
    }
}

// Clones a reader.
fn try_clone<W: io::Write + Drop>(
    alloc: Global,
    parts: &mut Parts<W>,
    reader: &Reader<'_>,
) -> Result<(), RunError> {
    begin(alloc, parts, "clone", counts_of(reader))?;
    let clone = reader.clone();
    end(alloc, parts, clone.err(), counts_of(reader))
}

// Splits a reader.
fn try_split<W: io::Write + Drop>(
    alloc: Global,
    parts: &mut Parts<W>,
    reader: &mut Reader<'_>,
) -> Result<(), RunError> {
    begin(alloc, parts, "split_at of a reader", counts_of(reader))?;
    let rest = reader.split_at(MIDDLE);
    end(alloc, parts, rest.err(), counts_of(reader))
}

// Splits a writer.
fn try_writer<W: io::Write + Drop>(alloc: Global, parts: &mut Parts<W>) -> Result<(), RunError> {
    let Ok(mut writer) = Writer::new(alloc, rooms(alloc)?) else {
        return Err(RunError::OutOfMemory);
    };
    let before = (writer.available_bytes(), writer.bytes_written());
    begin(alloc, parts, "split_at of a writer", before)?;
    let rest = writer.split_at(MIDDLE);
    let after = (writer.available_bytes(), writer.bytes_written());
    end(alloc, parts, rest.err(), after)
}

// The segments of a writer.
fn rooms(alloc: Global) -> Result<Vec<Vec<u8>>, AllocError> {
    let mut rooms = Vec::new(alloc);
    for length in &LENGTHS {
        rooms.push(vec![in alloc; 0u8; *length]?)?;
    }
    Ok(rooms)
}

// How many bytes a reader has left, and how many it has given.
fn counts_of(reader: &Reader<'_>) -> (usize, usize) {
    (reader.available_bytes(), reader.bytes_read())
}

// Begins the part of a call, with the counts before it.
fn begin<W: io::Write + Drop>(
    alloc: Global,
    parts: &mut Parts<W>,
    call: &str,
    counts: (usize, usize),
) -> Result<(), RunError> {
    parts.call_next(String::from_str(alloc, call)?);
    parts.begin(format!(in alloc; "{counts:?}")?.as_str())
}

// Ends the part of a call, with its error and the counts after it.
fn end<W: io::Write + Drop>(
    alloc: Global,
    parts: &mut Parts<W>,
    error: Option<Error>,
    counts: (usize, usize),
) -> Result<(), RunError> {
    parts.end()?;
    let outcome = match error {
        None => Ok(()),
        Some(error) => Err(error),
    };
    parts.tell(format!(in alloc; "{outcome:?}\nnow {counts:?}\n")?.as_str())
}
