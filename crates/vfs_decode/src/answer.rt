//! An answer of a session, as a line has it.

use hex::FromHexError;
use std::alloc::Global;
use std::str;
use vfs_run::RunError;

/// An answer, read.
#[derive(Drop)]
pub enum Answer<'a> {
    /// The bytes of the reply: none if there is no reply.
    Reply(Vec<u8>),

    /// The name of the error that the request was refused with.
    Refused(&'a [u8]),

    /// The two sizes of a refused SETXATTR.
    RefusedSizes(usize, usize),
}

/// Reads an answer, given without its newline: `ok 0`, `ok N HEX` with N bytes, `err InvalidXattrSize S
/// L` with two sizes, `err EncodeMessage HEX`, or `err` and a name. None if it is of another form.
pub fn parse_answer<'a>(alloc: Global, line: &'a [u8]) -> Result<Option<Answer<'a>>, RunError> {
    if let Some(reply) = line.strip_prefix(b"ok ".as_slice()) {
        return match parse_reply(alloc, reply)? {
            Some(bytes) => Ok(Some(Answer::Reply(bytes))),
            None => Ok(None),
        };
    }
    match line.strip_prefix(b"err ".as_slice()) {
        Some(refusal) => parse_refusal(alloc, refusal),
        None => Ok(None),
    }
}

/// The bytes of a reply: `0`, or their count and the bytes in hex.
fn parse_reply(alloc: Global, text: &[u8]) -> Result<Option<Vec<u8>>, RunError> {
    let (count, bytes) = cut_word(text);
    let Some(count) = parse_number(count) else {
        return Ok(None);
    };
    let Some(bytes) = parse_hex(alloc, bytes)? else {
        return Ok(None);
    };
    if bytes.len() == count {
        Ok(Some(bytes))
    } else {
        Ok(None)
    }
}

/// A refusal: the name of an error, and what may come after it.
fn parse_refusal<'a>(alloc: Global, text: &'a [u8]) -> Result<Option<Answer<'a>>, RunError> {
    let (name, following) = cut_word(text);
    if name.is_empty() || !name.iter().all(u8::is_ascii_alphanumeric) {
        return Ok(None);
    }
    match name {
        b"InvalidXattrSize" => Ok(parse_sizes(following)),
        b"EncodeMessage" => match parse_hex(alloc, following)? {
            Some(_room) => Ok(Some(Answer::Refused(name))),
            None => Ok(None),
        },
        _ if following.is_empty() => Ok(Some(Answer::Refused(name))),
        _ => Ok(None),
    }
}

/// Two sizes with a space between them.
fn parse_sizes<'a>(text: &[u8]) -> Option<Answer<'a>> {
    let (first, second) = cut_word(text);
    let size = parse_number(first)?;
    let length = parse_number(second)?;
    Some(Answer::RefusedSizes(size, length))
}

/// What is before the first space, and what comes after it: nothing if there is none.
fn cut_word(text: &[u8]) -> (&[u8], &[u8]) {
    match text.iter().position(|b| *b == b' ') {
        Some(end) => (&text[..end], &text[end + 1..]),
        None => (text, &[]),
    }
}

/// The bytes that a text writes in hex.
fn parse_hex(alloc: Global, text: &[u8]) -> Result<Option<Vec<u8>>, RunError> {
    match hex::decode(alloc, text) {
        Ok(bytes) => Ok(Some(bytes)),
        Err(FromHexError::OutOfMemory) => Err(RunError::OutOfMemory),
        Err(_) => Ok(None),
    }
}

/// The number that decimal digits write, and nothing else.
fn parse_number(text: &[u8]) -> Option<usize> {
    if !text.iter().all(u8::is_ascii_digit) {
        return None;
    }
    str::from_utf8(text).ok()?.parse().ok()
}
