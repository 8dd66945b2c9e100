//! The lines of a session, over files in memory.

use crate::cuttings::{Served, Watch, bytes_of};
use crate::refusals::parts::Parts;
use fs_small::MemFs;
use std::alloc::{AllocError, Global};
use std::io;
use vfs_bench::Recorder;
use vfs_run::{Line, PAGE_SIZE, RunError, parse_line};
use vfs_segments::{Reader, Writer};
use vfs_server::server::Server;

/// How many calls can be noted.
const PLACES: usize = 4096;

/// Handles each line, up to the first bad one, by one server. The first has the number that comes
/// next after `before`.
pub fn try_all<W: io::Write + Drop>(
    alloc: Global,
    lines: &[&[u8]],
    before: usize,
    parts: &mut Parts<W>,
) -> Result<(), RunError> {
    let mut number = before;
    let mut server = Server::new(recorder(alloc)?, PAGE_SIZE);
    for line in lines {
        number = number.saturating_add(1);
        try_text(alloc, parts, &mut server, line, number)?;
    }
    Ok(())
}

// Handles the line of this text, which has this number.
fn try_text<W: io::Write + Drop>(
    alloc: Global,
    parts: &mut Parts<W>,
    server: &mut Server<Recorder<MemFs>>,
    text: &[u8],
    number: usize,
) -> Result<(), RunError> {
    match parse_line(alloc, text)? {
        Some(line) => try_line(alloc, parts, server, &line),
        None => Err(RunError::BadLine(number)),
    }
}

// New files in memory, with a note of each call.
fn recorder(alloc: Global) -> Result<Recorder<MemFs>, RunError> {
    let Ok(files) = MemFs::new(alloc) else {
        return Err(RunError::OutOfMemory);
    };
    match Recorder::new(alloc, files, PLACES) {
        Ok(recorder) => Ok(recorder),
        Err(_) => Err(RunError::OutOfMemory),
    }
}

// Handles a line.
fn try_line<W: io::Write + Drop>(
    alloc: Global,
    parts: &mut Parts<W>,
    server: &mut Server<Recorder<MemFs>>,
    line: &Line,
) -> Result<(), RunError> {
    let noted = server.fs().notes().len();
    let mut writer = writer_for(alloc, line)?;
    let outcome = handle_line(alloc, parts, server, line, &mut writer)?;
    let served = served_by(alloc, server, noted, outcome, writer)?;
    parts.tell_served(&served)
}

// What came of a request: this outcome, in this writer's room, and the calls after the first ones.
fn served_by(
    alloc: Global,
    server: &Server<Recorder<MemFs>>,
    noted: usize,
    outcome: vfs_server::Result<usize>,
    writer: Writer,
) -> Result<Served, RunError> {
    Ok(Served {
        outcomes: Vec::from_array(alloc, [outcome])?,
        rooms: bytes_of(alloc, Vec::from_array(alloc, [writer])?)?,
        options: server.options(),
        calls: calls_from(alloc, server.fs(), noted)?,
    })
}

// The segments of a line's request.
fn segments_of(alloc: Global, line: &Line) -> Result<Vec<&[u8]>, AllocError> {
    let mut segments = Vec::new(alloc);
    for segment in &line.segments {
        segments.push(segment.as_slice())?;
    }
    Ok(segments)
}

// A writer over a line's rooms, with zeros in them.
fn writer_for(alloc: Global, line: &Line) -> Result<Writer, RunError> {
    let mut rooms = Vec::new(alloc);
    for length in &line.rooms {
        rooms.push(vec![in alloc; 0u8; *length]?)?;
    }
    match Writer::new(alloc, rooms) {
        Ok(writer) => Ok(writer),
        Err(_) => Err(RunError::OutOfMemory),
    }
}

// Handles a line's request.
fn handle_line<W: io::Write + Drop>(
    alloc: Global,
    parts: &mut Parts<W>,
    server: &mut Server<Recorder<MemFs>>,
    line: &Line,
    writer: &mut Writer,
) -> Result<vfs_server::Result<usize>, RunError> {
    let segments = segments_of(alloc, line)?;
    match Reader::new(alloc, &segments) {
        Ok(reader) => handle(alloc, parts, server, reader, writer),
        Err(_) => Err(RunError::OutOfMemory),
    }
}

// Handles a request, where memory may be refused.
fn handle<W: io::Write + Drop>(
    alloc: Global,
    parts: &mut Parts<W>,
    server: &mut Server<Recorder<MemFs>>,
    reader: Reader<'_>,
    writer: &mut Writer,
) -> Result<vfs_server::Result<usize>, RunError> {
    parts.call_next(String::from_str(alloc, "of a line")?);
    parts.before(server.options())?;
    let outcome = server.handle_message(alloc, reader, writer);
    parts.after()?;
    Ok(outcome)
}

// The calls after the first ones, a line each.
fn calls_from(alloc: Global, fs: &Recorder<MemFs>, noted: usize) -> Result<String, RunError> {
    let mut calls = String::new(alloc);
    for note in fs.notes().iter().skip(noted) {
        writeln!(calls, "  {note:?}")?;
    }
    if fs.missed() {
        return Err(RunError::OutOfMemory);
    }
    Ok(calls)
}
