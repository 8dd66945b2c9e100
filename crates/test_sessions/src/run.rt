//! A session: the lines of a text, answered one after another.

use crate::corpus::push_corpus;
use crate::cuttings::Way;
use crate::refusals::try_calls;
use std::alloc::Global;
use std::cell::RefCell;
use std::collections::VecDeque;
use std::io;
use vfs_bench::seeded::{SeededFs, Told, parse_told};
use vfs_run::{
    Line, RunError, answer_to, lines_before_requests, lines_of, parse_line, server_for, write_all,
};
use vfs_server::server::Server;

/// What a line with an answer begins with.
const ANSWER: &[u8] = b"answer ";

/// The lines that have the corpus tried, each form by messages and as a session.
const CORPUS: &[u8] = b"corpus";

const CORPUS_OF_SESSIONS: &[u8] = b"corpus sessions";

/// The line after which all others are requests to which memory can be refused.
const REFUSALS: &[u8] = b"refusals";

/// What a line of the input says.
#[derive(Drop)]
enum Said {
    /// A request and the rooms for its reply.
    Request(Line),
    /// The answer of a call that is still to come.
    Answer(Told),
    /// The corpus of hostile messages is to be tried in this way.
    Corpus(Way),
    /// Nothing to do.
    Comment,
}

/// Answers each line of `text` before the first bad one, or before the line `refusals`, and then
/// writes the answers and the calls to `output`. The first line may set the server's limit, and has
/// no answer then. For a bad line `bad line N` is written after them, where N counts all lines, and
/// [`RunError::BadLine`] answered. After the line `refusals` comes what `try_calls` writes.
pub fn run<W: io::Write + Drop>(alloc: Global, text: &[u8], mut output: W) -> Result<(), RunError> {
    let lines = lines_of(alloc, text)?;
    let (session, rest) = before_refusals(&lines);
    let mut answers = String::new(alloc);
    let outcome = answer_all(alloc, session, &mut answers);
    write_all(&mut output, answers.as_str())?;
    outcome?;
    match rest {
        Some(rest) => try_calls(alloc, rest, session.len().saturating_add(1), output),
        None => Ok(()),
    }
}

// The lines before the line `refusals`, and those after it, if there is one.
fn before_refusals<'l, 'a>(lines: &'l [&'a [u8]]) -> (&'l [&'a [u8]], Option<&'l [&'a [u8]]>) {
    match lines.iter().position(|line| *line == REFUSALS) {
        Some(at) => match lines.split_at_checked(at) {
            Some((session, rest)) => (session, rest.get(1..)),
            None => (lines, None),
        },
        None => (lines, None),
    }
}

// Answers each line before the first bad one, by a new server.
fn answer_all(alloc: Global, lines: &[&[u8]], answers: &mut String) -> Result<(), RunError> {
    let told = RefCell::new(VecDeque::new(alloc));
    let mut server = server_for(SeededFs::new(alloc, &told), lines);
    answer_each(alloc, lines, &mut server, &told, answers)
}

// The same by this server, which takes the answers of calls from `told`.
fn answer_each(
    alloc: Global,
    lines: &[&[u8]],
    server: &mut Server<SeededFs<'_>>,
    told: &RefCell<VecDeque<Told>>,
    answers: &mut String,
) -> Result<(), RunError> {
    let before = lines_before_requests(lines);
    for (index, line) in lines.iter().enumerate().skip(before) {
        if !answer_line(alloc, line, server, told, answers)? {
            let number = index + 1;
            writeln!(answers, "bad line {number}")?;
            return Err(RunError::BadLine(number));
        }
    }
    Ok(())
}

// Answers a line, if it is of its form; whether it is.
fn answer_line(
    alloc: Global,
    line: &[u8],
    server: &mut Server<SeededFs<'_>>,
    told: &RefCell<VecDeque<Told>>,
    answers: &mut String,
) -> Result<bool, RunError> {
    match read_line(alloc, line)? {
        Some(Said::Request(request)) => push_answer(alloc, server, &request, answers)?,
        Some(Said::Answer(answer)) => tell(told, answer)?,
        Some(Said::Corpus(way)) => push_corpus(alloc, way, answers)?,
        Some(Said::Comment) => {}
        None => return Ok(false),
    }
    Ok(true)
}

// Tells the answer of a call that is still to come.
fn tell(told: &RefCell<VecDeque<Told>>, answer: Told) -> Result<(), RunError> {
    if let Ok(mut told) = told.try_borrow_mut() {
        told.push_back(answer)?;
    }
    Ok(())
}

// Reads a line, given without its newline. It is `None` where the line has none of the forms.
fn read_line(alloc: Global, line: &[u8]) -> Result<Option<Said>, RunError> {
    if line.starts_with(b"#") {
        return Ok(Some(Said::Comment));
    }
    if line == CORPUS {
        return Ok(Some(Said::Corpus(Way::Messages)));
    }
    if line == CORPUS_OF_SESSIONS {
        return Ok(Some(Said::Corpus(Way::Session)));
    }
    if let Some(told) = line.strip_prefix(ANSWER) {
        return Ok(parse_told(alloc, told)?.map(Said::Answer));
    }
    Ok(parse_line(alloc, line)?.map(Said::Request))
}

// Appends the server's answer to a request, and the calls that it made.
fn push_answer(
    alloc: Global,
    server: &mut Server<SeededFs<'_>>,
    request: &Line,
    answers: &mut String,
) -> Result<(), RunError> {
    let noted = server.fs().notes().text().len();
    answers.push_str(answer_to(alloc, server, request)?.as_str())?;
    let notes = server.fs().notes();
    if notes.lacks() {
        return Err(RunError::OutOfMemory);
    }
    if let Some(new) = notes.text().get(noted..) {
        answers.push_str(new)?;
    }
    Ok(())
}
