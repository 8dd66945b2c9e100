//! What callers know of lines by the contracts alone, as examples.

ghost use Rattle.std.specs.Prelude.{◌≡◌, [], ◌∷◌, map, Some, None, Ok, IfOk};
ghost use Rattle.vfs_run.specs.Lines.{request, request_option};

use crate::error::{RunError, exit_status};
use crate::limit::{max_buffer_for, parse_limit};
use crate::line::{Line, parse_line};
use crate::requests::{end_session, read_session};
use std::alloc::Global;

/// Two rooms of 1 and 20 bytes, and a request of two segments, the second without a byte.
#[tactic(auto, unfolding(hex::specs::Hex::decode_pairs))]
fn rooms_stand_before_segments(alloc: Global) -> Result<Option<Line>, RunError>
    ensures { IfOk result (λ parsed. request_option parsed ≡
        Some (record { rooms = 1 ∷ 20 ∷ []; segments = (171 ∷ 12 ∷ []) ∷ [] ∷ [] })) }
{
    parse_line(alloc, b"1+20 aB0c+")
}

/// A line without a space asks nothing.
fn a_line_has_a_space(alloc: Global) -> Result<Option<Line>, RunError>
    ensures { IfOk result (λ parsed. request_option parsed ≡ None) }
{
    parse_line(alloc, b"16")
}

/// The rooms of a line may not have more than 2,097,152 bytes together.
fn rooms_have_a_limit_together(alloc: Global) -> Result<Option<Line>, RunError>
    ensures { IfOk result (λ parsed. request_option parsed ≡ None) }
{
    parse_line(alloc, b"1000000+1097153 00")
}

/// A line that sets a limit of 8192 bytes.
fn a_limit_of_8192() -> Option<u32>
    ensures { result ≡ Some 8192 }
{
    parse_limit(b"limit 8192")
}

/// A limit is 4096 bytes at least.
fn a_limit_below_the_least() -> Option<u32>
    ensures { result ≡ None }
{
    parse_limit(b"limit 4095")
}

/// A limit is 134,217,728 bytes at most.
fn a_limit_above_the_greatest() -> Option<u32>
    ensures { result ≡ None }
{
    parse_limit(b"limit 134217729")
}

/// A limit has nine digits at most, also where the first of them are zeros.
fn a_limit_has_nine_digits_at_most() -> Option<u32>
    ensures { result ≡ None }
{
    parse_limit(b"limit 0000008192")
}

/// The server of a session has the limit that the first line sets.
fn a_server_has_the_first_lines_limit() -> u32
    ensures { result ≡ 8192 }
{
    max_buffer_for(&[b"limit 8192".as_slice(), b"0 ".as_slice()])
}

/// The server of a session whose first line sets none has the default limit.
fn a_server_has_a_limit_by_default() -> u32
    ensures { result ≡ 1048576 }
{
    max_buffer_for(&[b"0 ".as_slice(), b"limit 8192".as_slice()])
}

/// The status after a bad line, whatever its number.
fn a_bad_line_has_its_status(number: usize) -> u8
    ensures { result ≡ 2 }
{
    exit_status(&Err(RunError::BadLine(number)))
}

/// A session that was read to its end ends well.
fn a_session_without_a_bad_line() -> Result<(), RunError>
    ensures { result ≡ Ok tt }
{
    end_session(None)
}

/// A session of which the third line is bad, after the limit and a request, may name no other line,
/// and what it asks is the request.
fn a_session_ends_at_its_first_bad_line(
    alloc: Global,
) -> Result<(Vec<Line>, Option<usize>), RunError>
    ensures { IfOk result (λ read.
        (read.1 ≡ Some 3) ×
        (map request read.0.items ≡ record { rooms = 0 ∷ []; segments = [] ∷ [] } ∷ [])) }
{
    let lines = [b"limit 8192".as_slice(), b"0 ".as_slice(), b"16".as_slice()];
    let read = read_session(alloc, &lines)?;
    Ok(read)
}
