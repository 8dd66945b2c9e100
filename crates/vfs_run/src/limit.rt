//! The line that sets a server's limit: the first of a session, if there is one.

ghost use Rattle.std.specs.Prelude.{◌≡◌, ◌≤◌, length, map, IfSome};
ghost use Rattle.vfs_flags.specs.declared.constants.TheConstants.{LEAST_MAX_BUFFER, GREATEST_MAX_BUFFER};
ghost use Rattle.vfs_run.specs.Lines.{limit_of, first_limit_of, or_default, before_requests};

use crate::line::parse_number;
use vfs_flags::{DEFAULT_MAX_BUFFER, GREATEST_MAX_BUFFER, LEAST_MAX_BUFFER};

/// What a line that sets a limit begins with.
const WORD: &[u8] = b"limit ";

/// The fewest digits of a limit.
const LEAST_DIGITS: usize = 4;

/// The most digits of a limit.
const MOST_DIGITS: usize = 9;

/// Reads a line that sets the limit of a server, given without its newline: `limit`, one space, and
/// the largest payload in bytes that the reply to INIT tells the client, in four to nine decimal
/// digits, from [`LEAST_MAX_BUFFER`] to [`GREATEST_MAX_BUFFER`]. It is `None` where the line is of
/// another form.
pub fn parse_limit(line: &[u8]) -> Option<u32>
    ensures limit { result ≡ limit_of line.now }
    ensures within { IfSome result
        (λ limit. (LEAST_MAX_BUFFER ≤ limit) × (limit ≤ GREATEST_MAX_BUFFER)) }
{
    let digits = line.strip_prefix(WORD)?;
    let number = parse_number(digits, LEAST_DIGITS, MOST_DIGITS)?;
    if number < LEAST_MAX_BUFFER || number > GREATEST_MAX_BUFFER {
        return None;
    }
    Some(number)
}

/// The limit that the first line of a session sets, where it does.
pub fn first_limit(lines: &[&[u8]]) -> Option<u32>
    ensures limit { result ≡ first_limit_of (map (λ line. line.now) lines.now) }
    ensures within { IfSome result
        (λ limit. (LEAST_MAX_BUFFER ≤ limit) × (limit ≤ GREATEST_MAX_BUFFER)) }
{
    match lines {
        [] => None,
        [first, ..] => parse_limit(first),
    }
}

/// How many lines of a session are before its requests: 1 where the first one sets a limit, and
/// else 0. After these such a line is bad.
pub fn lines_before_requests(lines: &[&[u8]]) -> usize
    ensures value { result ≡ before_requests (map (λ line. line.now) lines.now) }
    ensures within { result ≤ length lines.now }
{
    usize::from(first_limit(lines).is_some())
}

/// The largest payload in bytes that the server of a session tells its client: the limit that the
/// first of these lines sets, or else [`DEFAULT_MAX_BUFFER`].
pub fn max_buffer_for(lines: &[&[u8]]) -> u32
    ensures limit { result ≡ or_default (first_limit_of (map (λ line. line.now) lines.now)) }
    ensures within { (LEAST_MAX_BUFFER ≤ result) × (result ≤ GREATEST_MAX_BUFFER) }
{
    match first_limit(lines) {
        Some(limit) => limit,
        None => DEFAULT_MAX_BUFFER,
    }
}
