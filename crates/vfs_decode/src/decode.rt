//! Each line of a session and its answers, with what it says below it.

use crate::answer::{Answer, parse_answer};
use bitflags::Flags;
use std::alloc::Global;
use std::{fmt, str};
use vfs_flags::FsOptions;
use vfs_print::{agreed_options, print_reply, print_request};
use vfs_run::{RunError, lines_before_requests, lines_of, parse_line, why_bad};

/// What is before a decoded message.
const INDENT: &str = "  ";

/// Decodes the lines of a text before the first bad one, and appends each with what it says. For a bad
/// one a line `bad line N` is appended, and N counts all lines.
pub fn decode_text(alloc: Global, text: &[u8], decoded: &mut String) -> Result<(), RunError> {
    let lines = lines_of(alloc, text)?;
    let outcome = decode_lines(alloc, &lines, decoded);
    if let Err(RunError::BadLine(number)) = outcome {
        decoded.push_str(format!(in alloc; "bad line {number}\n")?.as_str())?;
    }
    outcome
}

/// Decodes lines: one that sets the limit, if it is the first, and then requests and answers in turn.
fn decode_lines(alloc: Global, lines: &[&[u8]], decoded: &mut String) -> Result<(), RunError> {
    let before = lines_before_requests(lines);
    let mut decoder = Decoder {
        options: FsOptions::empty(),
        asked: None,
    };
    for (i, line) in lines.iter().enumerate() {
        let Ok(text) = str::from_utf8(line) else {
            return Err(RunError::BadLine(i + 1));
        };
        if i < before {
            push_line(decoded, text)?;
        } else if !decoder.decode(alloc, text, decoded)? {
            return Err(RunError::BadLine(i + 1));
        }
    }
    Ok(())
}

/// What is known of a session between two of its lines.
#[derive(Drop)]
struct Decoder {
    /// The options that are agreed on.
    options: FsOptions,

    /// The bytes of the last request, if the next line is to be its answer.
    asked: Option<Vec<u8>>,
}

impl Decoder {
    /// Appends the next line with what it says, if it is of its form; whether it is.
    fn decode(
        &mut self,
        alloc: Global,
        line: &str,
        decoded: &mut String,
    ) -> Result<bool, RunError> {
        match self.asked.take() {
            None => self.decode_request(alloc, line, decoded),
            Some(request) => self.decode_answer(alloc, line, &request, decoded),
        }
    }

    /// The same of a request, whose segments are joined.
    fn decode_request(
        &mut self,
        alloc: Global,
        line: &str,
        decoded: &mut String,
    ) -> Result<bool, RunError> {
        let Some(parsed) = parse_line(alloc, line.as_bytes())? else {
            return Ok(false);
        };
        let mut request = Vec::new(alloc);
        for segment in &parsed.segments {
            request.extend_from_slice(segment)?;
        }
        push_line(decoded, line)?;
        decoded.push_str(INDENT)?;
        printed(print_request(decoded, &request, self.options))?;
        decoded.push('\n')?;
        self.asked = Some(request);
        Ok(true)
    }

    /// The same of the answer to a request.
    fn decode_answer(
        &mut self,
        alloc: Global,
        line: &str,
        request: &[u8],
        decoded: &mut String,
    ) -> Result<bool, RunError> {
        let Some(answer) = parse_answer(alloc, line.as_bytes())? else {
            return Ok(false);
        };
        push_line(decoded, line)?;
        decoded.push_str(INDENT)?;
        match answer {
            Answer::Reply(reply) => {
                printed(print_reply(decoded, request, &reply))?;
                self.options = agreed_options(self.options, request, &reply);
            }
            Answer::Refused(name) => {
                let name = str::from_utf8(name).unwrap_or("");
                write!(decoded, "-> refused={name}")?;
            }
            Answer::RefusedSizes(size, length) => {
                write!(decoded, "-> refused=InvalidXattrSize(({size}, {length}))")?;
            }
        }
        decoded.push('\n')?;
        Ok(true)
    }
}

/// Appends a line.
fn push_line(decoded: &mut String, line: &str) -> Result<(), RunError> {
    decoded.push_str(line)?;
    decoded.push('\n')?;
    Ok(())
}

/// A text could be appended, or there was no memory.
fn printed(outcome: fmt::Result) -> Result<(), RunError> {
    match outcome {
        Ok(()) => Ok(()),
        Err(fmt::Error) => Err(RunError::OutOfMemory),
    }
}

/// What is wrong with the line of this number, counted from 1, in words.
pub fn why_bad_line(text: &[u8], number: usize) -> &'static str {
    let first = text.split(|b| *b == b'\n').next().unwrap_or(b"");
    let mut lines = text.split(|b| *b == b'\n');
    let line = lines.nth(number.saturating_sub(1)).unwrap_or(b"");
    let before = lines_before_requests(&[first]);
    if number.saturating_sub(before) % 2 == 1 {
        return why_bad(line);
    }
    "the answer must be `ok 0`, `ok N HEX` with N bytes, or `err NAME`"
}
