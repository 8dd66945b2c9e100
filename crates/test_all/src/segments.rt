//! A thousand segments, written and read; and the texts of errors.

use crate::support::{filled, have_texts, holds};
use std::alloc::{AllocError, Global};
use std::io::{Read, Write};
use std::test::Fail;
use vfs_segments::{Error, Reader, Writer};

/// How many bytes the largest write of a client has.
const LARGEST_WRITE: usize = 65_536;

/// The byte at this place of what readers are to read. It is never 0.
fn number(at: usize) -> u8 {
    (at % 255) as u8 + 1
}

/// `n` bytes, each with its number.
fn numbers(alloc: Global, n: usize) -> Result<Vec<u8>, AllocError> {
    let mut bytes = vec![in alloc; 0u8; n]?;
    for (at, b) in bytes.iter_mut().enumerate() {
        *b = number(at);
    }
    Ok(bytes)
}

/// A writer over zeros in segments of these lengths.
pub fn writer_over(alloc: Global, lengths: &[usize]) -> Result<Writer, Error> {
    Writer::new(alloc, filled(alloc, lengths, 0)?)
}

/// A place inside the ninth of the segments below that have bytes.
const MIDDLE: usize = 33_005;

/// The lengths of a thousand segments, of which sixteen have bytes, 66,000 in all. The others need
/// no memory of their own, so that a test can refuse each allocation in turn.
fn thousand_lengths(alloc: Global) -> Result<Vec<usize>, AllocError> {
    let mut lengths = Vec::new(alloc);
    for i in 0..1000 {
        lengths.push(if i % 63 == 0 { 4_125 } else { 0 })?;
    }
    Ok(lengths)
}

/// What is left of a writer, and the number of its segments.
fn room_and_count(writer: Writer) -> (usize, usize) {
    (writer.available_bytes(), writer.into_segments().len())
}

/// A thousand segments that a writer fills with these bytes, without the last 264 of its room, of
/// which it is split. What is left of both parts, and the number of segments of the second, are
/// beside them.
fn thousand_written(
    alloc: Global,
    bytes: &[u8],
    lengths: &[usize],
) -> Result<(Vec<Vec<u8>>, (usize, usize, usize)), Fail> {
    let mut writer = writer_over(alloc, lengths)?;
    writer.write_all(bytes)?;
    let rest = writer.split_at(200)?;
    let first = writer.available_bytes();
    let (second, count) = room_and_count(rest);
    Ok((writer.into_segments(), (first, second, count)))
}

/// The segments as a reader takes them.
fn slices_of(alloc: Global, segments: &[Vec<u8>]) -> Result<Vec<&[u8]>, AllocError> {
    let mut slices = Vec::new(alloc);
    for segment in segments {
        slices.push(segment.as_slice())?;
    }
    Ok(slices)
}

/// Whether these bytes are those from the place `from` on.
fn are_numbers(bytes: &[u8], from: usize) -> bool {
    for (i, b) in bytes.iter().enumerate() {
        if *b != number(from.saturating_add(i)) {
            return false;
        }
    }
    true
}

/// Whether a reader fills a buffer with the bytes from the place `from` on.
fn fills(reader: &mut Reader<'_>, from: usize, buf: &mut [u8]) -> bool {
    buf.fill(0);
    reader.read_exact(buf).is_ok() && are_numbers(buf, from)
}

/// Whether a clone of a reader reads all bytes into a buffer of as many.
fn clone_reads_all(reader: &Reader<'_>, buf: &mut [u8]) -> Result<bool, Error> {
    let mut clone = reader.clone()?;
    Ok(fills(&mut clone, 0, buf))
}

/// Whether a reader that is split inside a segment reads all bytes into a buffer of as many: by one
/// call up to the split, and the rest.
fn parts_read_all(reader: &mut Reader<'_>, buf: &mut [u8]) -> Result<bool, Error> {
    let mut rest = reader.split_at(MIDDLE)?;
    buf.fill(0);
    let first = matches!(reader.read(buf), Ok(MIDDLE));
    let (begin, following) = buf.split_at_mut(MIDDLE.min(buf.len()));
    Ok(first && are_numbers(begin, 0) && fills(&mut rest, MIDDLE, following))
}

/// Whether a reader of these segments, its clone, and its parts read all bytes.
fn all_read_all(alloc: Global, segments: &[&[u8]], buf: &mut [u8]) -> Result<bool, Error> {
    let mut reader = Reader::new(alloc, segments)?;
    Ok(clone_reads_all(&reader, buf)? && parts_read_all(&mut reader, buf)?)
}

/// Whether these segments are as many as said and all bytes are read of them, into a buffer of as
/// many.
fn are_read(alloc: Global, segments: &[Vec<u8>], buf: &mut [u8]) -> Result<bool, Error> {
    let slices = slices_of(alloc, segments)?;
    Ok(slices.len() == 946 && all_read_all(alloc, &slices, buf)?)
}

/// Whether a thousand segments of these lengths are written and read.
fn moves_segments(alloc: Global, lengths: &[usize]) -> Result<bool, Fail> {
    let mut bytes = numbers(alloc, LARGEST_WRITE)?;
    let (written, counts) = thousand_written(alloc, &bytes, lengths)?;
    Ok(counts == (200, 264, 55) && are_read(alloc, &written, &mut bytes)?)
}

/// Whether a thousand segments are.
fn moves_a_thousand_segments(alloc: Global) -> Result<bool, Fail> {
    moves_segments(alloc, &thousand_lengths(alloc)?)
}

#[test]
fn a_thousand_segments_are_written_split_cloned_and_read(rt: HostRuntime) -> Result<(), Fail> {
    holds(moves_a_thousand_segments(rt.alloc()))
}

/// The errors and their texts.
static TEXTS: [(Error, &str); 4] = [
    (
        Error::DescriptorChainOverflow,
        "the lengths of the segments sum past the largest count",
    ),
    (
        Error::SplitOutOfBounds(7),
        "a place 7 bytes on is past what is left",
    ),
    (Error::IoError, "a segment could not be read or written"),
    (Error::OutOfMemory, "out of memory"),
];

#[test]
fn each_error_has_a_text(rt: HostRuntime) -> Result<(), Fail> {
    holds(have_texts(rt.alloc(), &TEXTS))
}
