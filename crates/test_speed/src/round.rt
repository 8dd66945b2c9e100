//! Rounds: each request of a batch, from its pieces to its outcome.

use crate::batch::{Ask, Batch};
use crate::pieces::{REQUEST_HEAD, cut, room};
use std::alloc::Global;
use std::mem;
use vfs_files::FileSystem;
use vfs_segments::{Reader, Writer};
use vfs_server::Error;
use vfs_server::server::Server;

/// The page size of the server, in bytes.
const PAGE_SIZE: u32 = 4096;

/// What a digest of no bytes is.
const DIGEST_START: u64 = 0xcbf2_9ce4_8422_2325;

/// What a digest is multiplied by at each byte.
const DIGEST_PRIME: u64 = 0x100_0000_01b3;

/// How a batch is served.
#[derive(Clone, Copy)]
pub struct Side {
    pub alloc: Global,
    pub rounds: u32,
    pub cutting: u32,
}

// A request and its room in pieces, where its reply goes, and its last outcome: a code and a length.
#[derive(Drop)]
struct Job<'a> {
    request: Vec<&'a [u8]>,
    room: Vec<Vec<u8>>,
    place: usize,
    code: u32,
    len: usize,
}

fn code_of(error: &Error) -> u32 {
    match error {
        Error::DecodeMessage => 1,
        Error::EncodeMessage => 2,
        Error::FlushMessage => 3,
        Error::MissingParameter => 4,
        Error::InvalidCString => 5,
        Error::InvalidCString2 => 6,
        Error::InvalidHeaderLength => 7,
        Error::InvalidXattrSize(_) => 8,
        Error::MissingExtension => 9,
        Error::OutOfMemory => 10,
    }
}

// Cuts a request and its room.
fn make_job<'a>(side: Side, ask: &Ask<'a>, place: usize) -> Option<Job<'a>> {
    Some(Job {
        request: cut(side.alloc, ask.request, REQUEST_HEAD, side.cutting)?,
        room: room(side.alloc, ask.room, side.cutting)?,
        place,
        code: 0,
        len: 0,
    })
}

// The requests of a batch in pieces.
fn jobs<'a>(side: Side, asks: &[Ask<'a>]) -> Option<Vec<Job<'a>>> {
    let mut all = Vec::new(side.alloc);
    let mut place = 0usize;
    for ask in asks {
        all.push(make_job(side, ask, place)?).ok()?;
        place = place.wrapping_add(ask.room);
    }
    Some(all)
}

// What is measured: one request, from its pieces to its outcome.
fn serve<F: FileSystem>(alloc: Global, server: &mut Server<F>, job: &mut Job<'_>) -> Option<()> {
    let reader = Reader::new(alloc, &job.request).ok()?;
    let room = mem::replace(&mut job.room, Vec::new(alloc));
    let mut writer = Writer::new(alloc, room).ok()?;
    let outcome = server.handle_message(alloc, reader, &mut writer);
    job.room = writer.into_segments();
    match &outcome {
        Ok(len) => {
            job.code = 0;
            job.len = *len;
        }
        Err(error) => {
            job.code = code_of(error);
            job.len = 0;
        }
    }
    Some(())
}

// Serves each request once.
fn serve_all<F: FileSystem>(
    alloc: Global,
    server: &mut Server<F>,
    jobs: &mut [Job<'_>],
) -> Option<()> {
    for job in jobs.iter_mut() {
        serve(alloc, server, job)?;
    }
    Some(())
}

// The digest with a byte more.
fn with_byte(digest: u64, byte: u8) -> u64 {
    (digest ^ u64::from(byte)).wrapping_mul(DIGEST_PRIME)
}

// The digest with a number's four bytes more.
fn with_number(digest: u64, number: u32) -> u64 {
    let mut digest = digest;
    for byte in &number.to_le_bytes() {
        digest = with_byte(digest, *byte);
    }
    digest
}

// The digest with an outcome and a reply more, which is copied to its place.
fn with_reply(digest: u64, job: &Job<'_>, replies: &mut [u8]) -> u64 {
    let len = u32::try_from(job.len).unwrap_or(u32::MAX);
    let mut digest = with_number(with_number(digest, job.code), len);
    let mut at = job.place;
    let mut left = job.len;
    for piece in &job.room {
        for byte in piece {
            if left == 0 {
                return digest;
            }
            if let Some(out) = replies.get_mut(at) {
                *out = *byte;
            }
            digest = with_byte(digest, *byte);
            at = at.wrapping_add(1);
            left -= 1;
        }
    }
    digest
}

// Serves the first jobs once, and the others in as many rounds as are wanted. `None` where there is no
// memory.
fn serve_rounds<F: FileSystem>(
    side: Side,
    server: &mut Server<F>,
    setup: &mut [Job<'_>],
    measured: &mut [Job<'_>],
) -> Option<()> {
    serve_all(side.alloc, server, setup)?;
    for _ in 0..side.rounds {
        serve_all(side.alloc, server, measured)?;
    }
    Some(())
}

// Copies the replies of the last round to their places, and answers their digest.
fn with_replies(measured: &[Job<'_>], replies: &mut [u8]) -> u64 {
    let mut digest = DIGEST_START;
    for job in measured.iter() {
        digest = with_reply(digest, job, replies);
    }
    digest
}

/// Serves a batch over `fs`, copies the replies of the last round to their places, and answers its
/// digest. `None` where there is no memory.
pub fn drive<F: FileSystem + Drop>(
    side: Side,
    fs: F,
    batch: &Batch<'_>,
    replies: &mut [u8],
) -> Option<u64> {
    let mut jobs = jobs(side, &batch.asks)?;
    let (setup, measured) = jobs.as_mut_slice().split_at_mut_checked(batch.setup)?;
    let mut server = Server::new(fs, PAGE_SIZE);
    serve_rounds(side, &mut server, setup, measured)?;
    if side.rounds == 0 {
        return Some(DIGEST_START);
    }
    Some(with_replies(measured, replies))
}
