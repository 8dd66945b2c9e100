//! The server of a session, one request of it, and the input and output of a whole one.

ghost use Rattle.std.specs.Prelude.{◌≡◌, map, IfOk, IfErr, IfSome, OnOk};
ghost use Rattle.std.specs.Io.KnownBytes.{Appends};
ghost use Rattle.vfs_run.specs.Lines.{first_limit_of, or_default, IsRunFault};
ghost use Rattle.vfs_segments.specs.Segments.{segments_of, contents, flat_bytes};
ghost use Rattle.vfs_run.specs.Session.{IsSessionOf, segments_asked, room_for, zeros};

use crate::answer::answer_line;
use crate::{Line, RunError, max_buffer_for};
use std::alloc::{AllocError, Global};
use std::io;
use std::io::ErrorKind;
use vfs_files::FileSystem;
use vfs_segments::{Reader, Writer};
use vfs_server::server::Server;

/// The page size of a session's server, in bytes.
pub const PAGE_SIZE: u32 = 4096;

/// A server over `fs` for a session of these lines: with the limit that [`max_buffer_for`] gives, and
/// no options agreed.
pub fn server_for<F>(fs: F, lines: &[&[u8]]) -> Server<F>
    ensures { result ≡ record {
      options = 0;
      limits = record {
        page_size = PAGE_SIZE;
        max_buffer = or_default (first_limit_of (map (λ line. line.now) lines.now));
      };
      fs = fs;
    } }
{
    Server::with_limit(fs, PAGE_SIZE, max_buffer_for(lines))
}

/// All bytes of an input.
pub fn read_all<R: io::Read>(alloc: Global, input: &mut R) -> Result<Vec<u8>, RunError>
    ensures read { IfSome (R.remaining input.old) (λ text. IfOk result (λ v. v.items ≡ text)) }
    ensures fault { IfErr result (λ e. IsRunFault e) }
{
    let mut text = Vec::new(alloc);
    match input.read_to_end(&mut text) {
        Ok(_) => Ok(text),
        Err(e) if e.kind() == ErrorKind::OutOfMemory => Err(RunError::OutOfMemory),
        Err(_) => Err(RunError::Io),
    }
}

/// Writes a text to an output, all of it or up to a fault.
pub fn write_all<W: io::Write>(output: &mut W, text: &str) -> Result<(), RunError>
    ensures wrote { OnOk result (Appends (W.contents output.old) (W.contents output.new) text.now) }
    ensures fault { IfErr result (λ e. e ≡ RunError.Io) }
{
    match output.write_all(text.as_bytes()) {
        Ok(()) => Ok(()),
        Err(_) => Err(RunError::Io),
    }
}

/// The server's answer to a request, as a line with its newline:
///
/// - `ok 0`, or `ok N HEX` with the N bytes of the reply,
/// - `err EncodeMessage HEX` with the whole room, which the reply did not fit into, and without
///   the bytes where there is no room,
/// - `err InvalidXattrSize S L` with the two sizes,
/// - `err NAME` of any other error of the server.
///
/// The rooms have zeros in them before the request.
pub fn answer_to<F: FileSystem>(
    alloc: Global,
    server: &mut Server<F>,
    request: &Line,
) -> Result<String, RunError>
    ensures memory { IfErr result (λ e. e ≡ RunError.OutOfMemory) }
{
    let slices = slices_of(alloc, request)?;
    let Ok(reader) = Reader::new(alloc, &slices) else {
        return Err(RunError::OutOfMemory);
    };
    let rooms = empty_rooms(alloc, &request.rooms)?;
    let Ok(mut writer) = Writer::new(alloc, rooms) else {
        return Err(RunError::OutOfMemory);
    };
    let outcome = server.handle_message(alloc, reader, &mut writer);
    Ok(answer_line(alloc, &outcome, &writer.into_segments())?)
}

/// The server's answers to requests in order, as one session: a line for each, as [`answer_to`]
/// gives it. Their bytes are handled by [`Server::handle_session`], with rooms of their lengths.
pub fn answers_to<F: FileSystem>(
    alloc: Global,
    server: &mut Server<F>,
    requests: &[Line],
) -> Result<String, RunError>
    ensures session { OnOk result (IsSessionOf F.allows F.DirIter.gives
        server.old requests.now server.new) }
    ensures memory { IfErr result (λ e. e ≡ RunError.OutOfMemory) }
{
    let slices = all_slices(alloc, requests)?;
    let readers = readers_over(alloc, &slices)?;
    let mut writers = writers_for(alloc, requests)?;
    let mut outcomes = vec![in alloc; Ok(0); requests.len()]?;
    server.handle_session(alloc, readers, &mut writers, &mut outcomes);
    answer_lines(alloc, &outcomes, writers)
}

// The segments of a request, in order, as slices.
fn slices_of(alloc: Global, line: &Line) -> Result<Vec<&[u8]>, AllocError>
    ensures { IfOk result (λ slices. segments_of slices.items ≡ segments_asked line.now) }
{
    let mut slices = Vec::new(alloc);
    for segment in &line.segments {
        slices.push(segment.as_slice())?;
    }
    Ok(slices)
}

// The segments of each request.
fn all_slices(alloc: Global, requests: &[Line]) -> Result<Vec<Vec<&[u8]>>, AllocError>
    ensures { IfOk result (λ all. map (λ slices. segments_of slices.items) all.items
        ≡ map segments_asked requests.now) }
{
    let mut all = Vec::new(alloc);
    for request in requests {
        all.push(slices_of(alloc, request)?)?;
    }
    Ok(all)
}

// A reader over the segments of each request.
fn readers_over<'a, 'b: 'a>(
    alloc: Global,
    all: &'a [Vec<&'b [u8]>],
) -> Result<Vec<Reader<'a>>, RunError>
    ensures bytes { IfOk result (λ readers. map (λ r. r.left) readers.items
        ≡ map (λ slices. flat_bytes (segments_of slices.items)) all.now) }
    ensures memory { IfErr result (λ e. e ≡ RunError.OutOfMemory) }
{
    let mut readers = Vec::new(alloc);
    for slices in all {
        match Reader::new(alloc, slices) {
            Ok(reader) => readers.push(reader)?,
            Err(_) => return Err(RunError::OutOfMemory),
        }
    }
    Ok(readers)
}

// A writer over the empty rooms of each request.
fn writers_for(alloc: Global, requests: &[Line]) -> Result<Vec<Writer>, RunError>
    ensures rooms { IfOk result (λ writers. writers.items ≡ map room_for requests.now) }
    ensures memory { IfErr result (λ e. e ≡ RunError.OutOfMemory) }
{
    let mut writers = Vec::new(alloc);
    for request in requests {
        match Writer::new(alloc, empty_rooms(alloc, &request.rooms)?) {
            Ok(writer) => writers.push(writer)?,
            Err(_) => return Err(RunError::OutOfMemory),
        }
    }
    Ok(writers)
}

// The answers with these outcomes, a line each.
fn answer_lines(
    alloc: Global,
    outcomes: &[vfs_server::Result<usize>],
    writers: Vec<Writer>,
) -> Result<String, RunError>
    ensures memory { IfErr result (λ e. e ≡ RunError.OutOfMemory) }
{
    let mut answers = String::new(alloc);
    for (outcome, writer) in outcomes.iter().zip(writers) {
        answers.push_str(answer_line(alloc, outcome, &writer.into_segments())?.as_str())?;
    }
    Ok(answers)
}

// Rooms of these lengths, with zeros in them.
fn empty_rooms(alloc: Global, lengths: &[usize]) -> Result<Vec<Vec<u8>>, AllocError>
    ensures { IfOk result (λ rooms. contents rooms.items ≡ map zeros lengths.now) }
{
    let mut rooms = Vec::new(alloc);
    for length in lengths {
        rooms.push(vec![in alloc; 0u8; *length]?)?;
    }
    Ok(rooms)
}
