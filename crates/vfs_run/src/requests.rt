//! The requests of a session, up to its first bad line.

ghost use Rattle.std.specs.Prelude.{◌≡◌, ◌<◌, ◌+◌, ◌^◌, length, map, Some, IfOk, IfErr};
ghost use Rattle.vfs_run.specs.Lines.{line_of, values_of, request, before_bad, session_before_bad, ending, EndsAs, EndsSession};

use crate::error::RunError;
use crate::limit::lines_before_requests;
use crate::line::{Line, parse_line};
use std::alloc::Global;

/// The requests of a session's lines before the first bad one, in order, and the number of that one,
/// counted from 1, where there is one. A first line that sets the limit is no request, and is counted.
pub fn read_session(alloc: Global, lines: &[&[u8]]) -> Result<(Vec<Line>, Option<usize>), RunError>
    ensures asked { IfOk result
        (λ read. values_of line_of (session_before_bad read.1 (map (λ line. line.now) lines.now)) ≡
        Some (map request read.0.items)) }
    ensures read { IfOk result
        (λ read. EndsSession (map (λ line. line.now) lines.now) (ending read.1)) }
    ensures memory { IfErr result (λ e. e ≡ RunError.OutOfMemory) }
{
    let counted = lines_before_requests(lines);
    read_requests(alloc, counted, &lines[counted..])
}

/// How a session ends that was read: well, or with its first bad line, where that has this number.
pub fn end_session(bad: Option<usize>) -> Result<(), RunError>
    ensures { result ≡ ending bad }
{
    match bad {
        None => Ok(()),
        Some(number) => Err(RunError::BadLine(number)),
    }
}

// The requests of the lines before the first bad one, and the number of that one, where that many
// lines were counted before these.
fn read_requests(
    alloc: Global,
    counted: usize,
    lines: &[&[u8]],
) -> Result<(Vec<Line>, Option<usize>), RunError>
    requires { counted + length lines.now < 2 ^ 64 }
    ensures asked { IfOk result
        (λ read. values_of line_of (before_bad counted read.1 (map (λ line. line.now) lines.now)) ≡
        Some (map request read.0.items)) }
    ensures read { IfOk result
        (λ read. EndsAs counted (map (λ line. line.now) lines.now) (ending read.1)) }
    ensures memory { IfErr result (λ e. e ≡ RunError.OutOfMemory) }
{
    let mut requests = Vec::new(alloc);
    for (index, line) in lines.iter().enumerate() {
        match parse_line(alloc, line)? {
            Some(request) => requests.push(request)?,
            None => return Ok((requests, Some(counted + index + 1))),
        }
    }
    Ok((requests, None))
}
