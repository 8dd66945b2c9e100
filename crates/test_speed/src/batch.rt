//! Batches: a file system's number, a count of setup requests, and the requests with their rooms.

use std::alloc::Global;

/// The file system that a batch is served over.
#[derive(Clone, Copy)]
pub enum Files {
    /// One in memory.
    Memory,
    /// One that does next to nothing.
    Null,
}

/// A request, and the length of its reply's room in bytes.
#[derive(Drop)]
pub struct Ask<'a> {
    pub request: &'a [u8],
    pub room: usize,
}

/// A batch.
#[derive(Drop)]
pub struct Batch<'a> {
    pub files: Files,
    /// How many of the requests come first and once.
    pub setup: usize,
    pub asks: Vec<Ask<'a>>,
}

// The number of the first four bytes, and the bytes after them.
fn word(bytes: &[u8]) -> Option<(usize, &[u8])> {
    let (first, rest) = bytes.split_first_chunk::<4>()?;
    Some((u32::from_le_bytes(*first) as usize, rest))
}

// The request that the bytes begin with, and the bytes after it.
fn first_ask(bytes: &[u8]) -> Option<(Ask<'_>, &[u8])> {
    let (room, rest) = word(bytes)?;
    let (len, rest) = word(rest)?;
    let (request, rest) = rest.split_at_checked(len)?;
    Some((Ask { request, room }, rest))
}

/// The batch in these bytes. `None` where they end in a request, or there is no memory.
pub fn parse<'a>(alloc: Global, bytes: &'a [u8]) -> Option<Batch<'a>> {
    let (files, rest) = word(bytes)?;
    let (setup, rest) = word(rest)?;
    let files = if files == 0 {
        Files::Memory
    } else {
        Files::Null
    };
    let mut rest = rest;
    let mut asks = Vec::new(alloc);
    for _ in 0..bytes.len() {
        if rest.is_empty() {
            break;
        }
        let (next, following) = first_ask(rest)?;
        asks.push(next).ok()?;
        rest = following;
    }
    Some(Batch { files, setup, asks })
}
