//! A request that is handed to a server in many cuttings, and what came of it.

ghost use Rattle.std.specs.Prelude.{◌≡◌, length, vec_len, IfOk};

use crate::table::Message;
use std::alloc::{AllocError, Global};
use std::cell::RefCell;
use std::collections::VecDeque;
use vfs_bench::seeded::{Notes, SeededFs};
use vfs_flags::FsOptions;
use vfs_run::{PAGE_SIZE, RunError, answer_to, lines_of, parse_line};
use vfs_segments::{Reader, Writer};
use vfs_server::server::Server;

/// For how many bytes of notes the file system has room from the first: more than those of a few
/// calls.
const NOTES: usize = 16_384;

/// The call by which a server is handed requests.
#[derive(Clone, Copy, Debug)]
pub enum Way {
    /// Each by `handle_message`.
    Messages,
    /// All by one `handle_session`.
    Session,
}

/// What happens right before and right after a server's handling of requests.
pub trait Watch {
    /// Happens before it, with the options that are agreed then.
    fn before(&mut self, options: FsOptions) -> Result<(), RunError>;

    /// Happens after it.
    fn after(&mut self) -> Result<(), RunError>;
}

/// Nothing happens.
impl Watch for () {
    fn before(&mut self, _options: FsOptions) -> Result<(), RunError> {
        Ok(())
    }

    fn after(&mut self) -> Result<(), RunError> {
        Ok(())
    }
}

/// Where bytes are cut into segments.
#[derive(Clone, Copy, Debug)]
pub enum Cut {
    /// Nowhere.
    Whole,
    /// Between all bytes.
    Bytes,
    /// At this place alone.
    At(usize),
}

/// Where a request and its room are cut.
pub type Cutting = (Cut, Cut);

/// What came of a request in some cuttings: of each the outcome and the bytes of the room
/// afterwards, and the notes of the calls that all of them made.
#[derive(Drop)]
pub struct Served {
    /// The reply's length or the error, a cutting each.
    pub outcomes: Vec<vfs_server::Result<usize>>,

    /// All bytes of the room, a cutting each.
    pub rooms: Vec<Vec<u8>>,

    /// The options that are agreed afterwards.
    pub options: FsOptions,

    /// The calls of all cuttings in order, with their answers: lines as `test_sessions` writes them.
    pub calls: String,
}

/// Bytes, cut.
pub fn pieces<'a>(alloc: Global, bytes: &'a [u8], cut: Cut) -> Result<Vec<&'a [u8]>, AllocError> {
    match cut {
        Cut::Whole => Ok(Vec::from_array(alloc, [bytes])?),
        Cut::Bytes => single_bytes(alloc, bytes),
        Cut::At(place) => {
            let (first, rest) = bytes.split_at(place.min(bytes.len()));
            Ok(Vec::from_array(alloc, [first, rest])?)
        }
    }
}

// Bytes, cut between all of them.
fn single_bytes<'a>(alloc: Global, bytes: &'a [u8]) -> Result<Vec<&'a [u8]>, AllocError> {
    let mut pieces = Vec::new(alloc);
    for byte in bytes.chunks(1) {
        pieces.push(byte)?;
    }
    Ok(pieces)
}

/// A room of that many zeros, cut.
pub fn rooms(alloc: Global, length: usize, cut: Cut) -> Result<Vec<Vec<u8>>, AllocError> {
    let zeros = vec![in alloc; 0u8; length]?;
    let mut rooms = Vec::new(alloc);
    for piece in &pieces(alloc, &zeros, cut)? {
        rooms.push(Vec::from_slice(alloc, piece)?)?;
    }
    Ok(rooms)
}

// Agrees on what a message needs: hands the server the lines before it.
fn agree(
    alloc: Global,
    server: &mut Server<SeededFs<'_>>,
    message: &Message,
) -> Result<(), RunError> {
    for line in &lines_of(alloc, message.before.as_bytes())? {
        agree_on(alloc, server, line)?;
    }
    Ok(())
}

// Hands the server the request of a line.
fn agree_on(alloc: Global, server: &mut Server<SeededFs<'_>>, line: &[u8]) -> Result<(), RunError> {
    match parse_line(alloc, line)? {
        Some(request) => {
            answer_to(alloc, server, &request)?;
            Ok(())
        }
        None => Err(RunError::BadLine(1)),
    }
}

/// The bytes of a request, how many bytes its room has, where both are cut, again and again, and how
/// they are handed over.
#[derive(Clone, Copy)]
pub struct Asked<'a> {
    /// The request.
    pub bytes: &'a [u8],

    /// The length of its room.
    pub room: usize,

    /// How it is cut, each time that it is handed over.
    pub cuttings: &'a [Cutting],

    /// By which call.
    pub way: Way,
}

/// Hands a new server a request again and again, once what the message needs is agreed on.
pub fn serve<W: Watch>(
    alloc: Global,
    message: &Message,
    asked: Asked<'_>,
    watch: &mut W,
) -> Result<Served, RunError> {
    let told = RefCell::new(VecDeque::new(alloc));
    let mut server = Server::new(SeededFs::with_room(alloc, &told, NOTES)?, PAGE_SIZE);
    agree(alloc, &mut server, message)?;
    serve_by(alloc, &mut server, asked, watch)
}

// Hands a server a request again and again.
fn serve_by<W: Watch>(
    alloc: Global,
    server: &mut Server<SeededFs<'_>>,
    asked: Asked<'_>,
    watch: &mut W,
) -> Result<Served, RunError> {
    let noted = server.fs().notes().text().len();
    let (outcomes, rooms) = hand_over(alloc, server, asked, watch)?;
    Ok(Served {
        outcomes,
        rooms,
        options: server.options(),
        calls: calls_from(alloc, server.fs().notes(), noted)?,
    })
}

// Hands over a request in each of its cuttings. The outcomes, and the bytes of the rooms afterwards.
fn hand_over<W: Watch>(
    alloc: Global,
    server: &mut Server<SeededFs<'_>>,
    asked: Asked<'_>,
    watch: &mut W,
) -> Result<(Vec<vfs_server::Result<usize>>, Vec<Vec<u8>>), RunError> {
    let (pieces, counts) = cut_each(alloc, asked.bytes, asked.cuttings)?;
    let readers = readers_over(alloc, &pieces, &counts)?;
    let mut writers = writers_for(alloc, asked.room, asked.cuttings)?;
    let mut outcomes = vec![in alloc; Ok(0); asked.cuttings.len()]?;
    handle_all(
        alloc,
        server,
        readers,
        &mut writers,
        &mut outcomes,
        asked.way,
        watch,
    )?;
    Ok((outcomes, bytes_of(alloc, writers)?))
}

// Handles requests in order, and says so right before and right after that.
fn handle_all<W: Watch>(
    alloc: Global,
    server: &mut Server<SeededFs<'_>>,
    readers: Vec<Reader<'_>>,
    writers: &mut [Writer],
    outcomes: &mut [vfs_server::Result<usize>],
    way: Way,
    watch: &mut W,
) -> Result<(), RunError>
    requires writers { vec_len readers ≡ length writers.old }
    requires outcomes { vec_len readers ≡ length outcomes.old }
{
    watch.before(server.options())?;
    match way {
        Way::Messages => handle_each(alloc, server, readers, writers, outcomes),
        Way::Session => server.handle_session(alloc, readers, writers, outcomes),
    }
    watch.after()
}

// Handles requests in order, each as a message.
fn handle_each(
    alloc: Global,
    server: &mut Server<SeededFs<'_>>,
    readers: Vec<Reader<'_>>,
    writers: &mut [Writer],
    outcomes: &mut [vfs_server::Result<usize>],
) {
    for ((reader, writer), outcome) in readers.into_iter().zip(writers).zip(outcomes) {
        *outcome = server.handle_message(alloc, reader, writer);
    }
}

// The pieces of a request in all cuttings, one after another, and how many each cutting has.
fn cut_each<'a>(
    alloc: Global,
    bytes: &'a [u8],
    cuttings: &[Cutting],
) -> Result<(Vec<&'a [u8]>, Vec<usize>), AllocError>
    ensures { IfOk result (λ cut. vec_len cut.1 ≡ length cuttings.now) }
{
    let mut all = Vec::new(alloc);
    let mut counts = Vec::new(alloc);
    for (place, _) in cuttings {
        let pieces = pieces(alloc, bytes, *place)?;
        all.extend_from_slice(&pieces)?;
        counts.push(pieces.len())?;
    }
    Ok((all, counts))
}

// A reader over the next that many pieces for each count.
fn readers_over<'a>(
    alloc: Global,
    pieces: &'a [&'a [u8]],
    counts: &[usize],
) -> Result<Vec<Reader<'a>>, RunError>
    ensures { IfOk result (λ readers. vec_len readers ≡ length counts.now) }
{
    let mut readers = Vec::new(alloc);
    let mut start = 0usize;
    for count in counts {
        let end = pieces.len().min(start.saturating_add(*count));
        let next = &pieces[start..end];
        start = end;
        match Reader::new(alloc, next) {
            Ok(reader) => readers.push(reader)?,
            Err(_) => return Err(RunError::OutOfMemory),
        }
    }
    Ok(readers)
}

// A writer over a room of that many bytes for each cutting.
fn writers_for(alloc: Global, room: usize, cuttings: &[Cutting]) -> Result<Vec<Writer>, RunError>
    ensures { IfOk result (λ writers. vec_len writers ≡ length cuttings.now) }
{
    let mut writers = Vec::new(alloc);
    for (_, place) in cuttings {
        match Writer::new(alloc, rooms(alloc, room, *place)?) {
            Ok(writer) => writers.push(writer)?,
            Err(_) => return Err(RunError::OutOfMemory),
        }
    }
    Ok(writers)
}

/// The bytes that each writer's room holds.
pub fn bytes_of(alloc: Global, writers: Vec<Writer>) -> Result<Vec<Vec<u8>>, AllocError> {
    let mut rooms = Vec::new(alloc);
    for writer in writers {
        let mut room = Vec::new(alloc);
        for segment in &writer.into_segments() {
            room.extend_from_slice(segment)?;
        }
        rooms.push(room)?;
    }
    Ok(rooms)
}

// The calls that were noted from this place of the notes on.
fn calls_from(alloc: Global, notes: &Notes, noted: usize) -> Result<String, RunError> {
    if notes.lacks() {
        return Err(RunError::OutOfMemory);
    }
    Ok(String::from_str(alloc, notes.text().get(noted..).unwrap_or(""))?)
}
