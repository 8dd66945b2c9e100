//! A line of a session: the rooms for a reply, and the segments of the request.
ghost use Rattle.std.specs.Prelude.{◌≡◌, ◌↔◌, ◌<◌, ◌≤◌, ◌==◌, length, map, sum, position, IsTrue, IfOk, IfErr, IfSome};
ghost use Rattle.std.specs.List.{slice_split};
ghost use Rattle.vfs_run.specs.Lines.{parts, decimal_number, length_of, segment_of, values_of, line_of, lines_in, request_option, numbers_option, lists_option};

use crate::error::RunError;
use hex::FromHexError;
use std::alloc::Global;

/// The most bytes that the rooms of one line have together: twice the largest payload.
pub const MOST_ROOM: usize = 2_097_152;

/// The most digits of one room's length.
const MOST_DIGITS: usize = 7;

/// A line of a session, read.
#[derive(Debug, Drop)]
pub struct Line {
    /// The lengths in bytes of the segments that the reply may fill.
    pub rooms: Vec<usize>,

    /// The bytes of the request, segment by segment.
    pub segments: Vec<Vec<u8>>,
}

/// Reads a line, given without its newline: room lengths of one to seven decimal digits joined by
/// `+`, one space, and segments in hex joined by `+`. The rooms have at most 2,097,152 bytes
/// together. It is `None` where the line is of another form.
pub fn parse_line(alloc: Global, line: &[u8]) -> Result<Option<Line>, RunError>
    ensures read { IfOk result (λ parsed. request_option parsed ≡ line_of line.now) }
    ensures memory { IfErr result (λ e. e ≡ RunError.OutOfMemory) }
{
    let Some(space) = first_space(line) else {
        return Ok(None);
    };
    let Some(rooms) = parse_rooms(alloc, &line[..space])? else {
        return Ok(None);
    };
    let Some(segments) = parse_segments(alloc, &line[space + 1..])? else {
        return Ok(None);
    };
    if !fits(&rooms) {
        return Ok(None);
    }
    Ok(Some(Line { rooms, segments }))
}

/// Why [`parse_line`] does not read a line.
pub fn why_bad(line: &[u8]) -> &'static str {
    let Some(space) = first_space(line) else {
        return "missing space after the reply buffers";
    };
    match &line[..space] {
        b"limit" => return "the limit must be 4096 to 134217728, and on the first line",
        b"answer" => return "answers are accepted by test_sessions only, in the forms of its usage",
        _ => {}
    }
    let mut rooms = line[..space].split(|b| *b == b'+');
    if rooms.any(|room| parse_length(room).is_none()) {
        return "the size of a reply buffer must have 1 to 7 decimal digits";
    }
    for segment in line[space + 1..].split(|b| *b == b'+') {
        if !segment.iter().all(u8::is_ascii_hexdigit) {
            return "invalid hexadecimal digit in a segment";
        }
        if segment.len() % 2 == 1 {
            return "odd number of hexadecimal digits in a segment";
        }
    }
    "the reply buffers exceed 2097152 bytes"
}

// Where the first space of a line is.
fn first_space(line: &[u8]) -> Option<usize>
    ensures place { result ≡ position (λ b. b == 32) line.now }
    ensures within { IfSome result (λ i. i < length line.now) }
{
    line.iter().position(|b| *b == b' ')
}

// The lengths of rooms joined by `+`, if each part is one.
fn parse_rooms(alloc: Global, text: &[u8]) -> Result<Option<Vec<usize>>, RunError>
    ensures read { IfOk result
        (λ rooms. numbers_option rooms ≡ values_of length_of (parts text.now)) }
    ensures memory { IfErr result (λ e. e ≡ RunError.OutOfMemory) }
{
    let pieces = cut(alloc, text, b'+')?;
    let mut rooms = Vec::new(alloc);
    for piece in &pieces {
        let Some(length) = parse_length(piece) else {
            return Ok(None);
        };
        rooms.push(length)?;
    }
    Ok(Some(rooms))
}

// The segments joined by `+`, if each part is hex.
fn parse_segments(alloc: Global, text: &[u8]) -> Result<Option<Vec<Vec<u8>>>, RunError>
    ensures read { IfOk result
        (λ segments. lists_option segments ≡ values_of segment_of (parts text.now)) }
    ensures memory { IfErr result (λ e. e ≡ RunError.OutOfMemory) }
{
    let pieces = cut(alloc, text, b'+')?;
    let mut segments = Vec::new(alloc);
    for piece in &pieces {
        let Some(bytes) = parse_segment(alloc, piece)? else {
            return Ok(None);
        };
        segments.push(bytes)?;
    }
    Ok(Some(segments))
}

// The parts of a text between the bytes that are the separator: one more than there are separators.
fn cut<'a>(alloc: Global, text: &'a [u8], separator: u8) -> Result<Vec<&'a [u8]>, RunError>
    ensures pieces { IfOk result
        (λ v. map (λ x. x.now) v.items ≡ slice_split (λ b. b == separator) text.now) }
    ensures memory { IfErr result (λ e. e ≡ RunError.OutOfMemory) }
{
    Ok(text.split(|b| *b == separator).collect(alloc)?)
}

// The length that one to seven decimal digits write.
fn parse_length(text: &[u8]) -> Option<usize>
    ensures { result ≡ length_of text.now }
{
    match parse_number(text, 1, MOST_DIGITS) {
        Some(number) => Some(number as usize),
        None => None,
    }
}

/// The number that `least` to `most` decimal digits write, where a text is that many and nothing else.
pub fn parse_number(text: &[u8], least: usize, most: usize) -> Option<u32>
    requires { most ≤ 9 }
    ensures { result ≡ decimal_number least most text.now }
{
    if text.len() < least || text.len() > most {
        return None;
    }
    let mut number = 0u32;
    for byte in text {
        if !byte.is_ascii_digit() {
            return None;
        }
        number = number * 10 + u32::from(*byte - b'0');
    }
    Some(number)
}

// The bytes that a text writes in hex.
fn parse_segment(alloc: Global, text: &[u8]) -> Result<Option<Vec<u8>>, RunError>
    ensures read { IfOk result (λ bytes. numbers_option bytes ≡ segment_of text.now) }
    ensures memory { IfErr result (λ e. e ≡ RunError.OutOfMemory) }
{
    match hex::decode(alloc, text) {
        Ok(bytes) => Ok(Some(bytes)),
        Err(FromHexError::OutOfMemory) => Err(RunError::OutOfMemory),
        Err(_) => Ok(None),
    }
}

// Whether rooms have no more bytes than a line may ask for.
fn fits(rooms: &[usize]) -> bool
    ensures { IsTrue result ↔ (sum rooms.now ≤ MOST_ROOM) }
{
    let mut left = MOST_ROOM;
    for room in rooms {
        if *room > left {
            return false;
        }
        left -= *room;
    }
    true
}

/// The lines of a text without their newlines. The last one may lack its newline, and a text
/// without a byte has no line.
pub fn lines_of<'a>(alloc: Global, text: &'a [u8]) -> Result<Vec<&'a [u8]>, RunError>
    ensures lines { IfOk result (λ v. map (λ x. x.now) v.items ≡ lines_in text.now) }
    ensures memory { IfErr result (λ e. e ≡ RunError.OutOfMemory) }
{
    match text.split_last() {
        None => Ok(Vec::new(alloc)),
        Some((b'\n', lines)) => cut(alloc, lines, b'\n'),
        Some(_) => cut(alloc, text, b'\n'),
    }
}
