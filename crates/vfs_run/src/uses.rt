//! What callers know of a run by its contract alone, as examples.

ghost use Rattle.std.specs.Prelude.{◌≡◌, ◌≢◌, ◌≤◌, ℕ, [], length, take, true, IfSome, MatchResult};
ghost use Rattle.vfs_run.specs.Samples.{NamesTheSecond};

use crate::error::{RunError, exit_status};
use crate::input::run;
use crate::limit::parse_limit;
use crate::line::Line;
use crate::session::{answer_to, read_all, server_for, write_all};
use std::alloc::Global;
use std::io;
use vfs_files::FileSystem;
use vfs_server::server::Server;

/// A run over three lines, of which the second and the third are bad: it doesn't end well, and the
/// only line that it may name is the second.
fn names_the_first_bad_line<W: io::Write>(alloc: Global, output: &mut W) -> Result<(), RunError>
    ensures { NamesTheSecond result }
{
    run(alloc, &mut b"0 \n16\n17".as_slice(), output)
}

/// A run whose first line sets the limit, and whose second one is bad: the line of the limit is
/// counted.
fn counts_the_line_of_the_limit<W: io::Write>(alloc: Global, output: &mut W) -> Result<(), RunError>
    ensures { NamesTheSecond result }
{
    run(alloc, &mut b"limit 8192\n16".as_slice(), output)
}

/// A line that sets a limit is bad after the first one.
fn takes_no_late_limit<W: io::Write>(alloc: Global, output: &mut W) -> Result<(), RunError>
    ensures { NamesTheSecond result }
{
    run(alloc, &mut b"0 \nlimit 8192".as_slice(), output)
}

/// A run that ended well, or at a bad line, leaves what was in its output at the front of it.
fn a_run_only_appends<R: io::Read>(
    alloc: Global,
    input: &mut R,
    output: &mut Vec<u8>,
) -> Result<(), RunError>
    ensures { MatchResult result
        (λ done. take (length output.old.items) output.new.items ≡ output.old.items)
        (λ e. (number : ℕ) → e ≡ RunError.BadLine number →
        take (length output.old.items) output.new.items ≡ output.old.items) }
{
    match run(alloc, input, output) {
        Ok(()) => Ok(()),
        Err(e) => Err(e),
    }
}

/// A text that was written whole is what an empty output has.
fn a_text_is_written(output: &mut Vec<u8>, text: &str) -> bool
    requires { output.old.items ≡ [] }
    ensures { result ≡ true → output.new.items ≡ text.now }
{
    match write_all(output, text) {
        Ok(()) => true,
        Err(_) => false,
    }
}

/// An input that could not be read to its end is not ended by a bad line.
fn no_line_is_bad_yet<R: io::Read>(alloc: Global, input: &mut R) -> Option<RunError>
    ensures { IfSome result (λ e. (number : ℕ) → e ≢ RunError.BadLine number) }
{
    match read_all(alloc, input) {
        Ok(_) => None,
        Err(e) => Some(e),
    }
}

/// A limit has at least the bytes of a page and at most 128 MiB.
fn a_limit_within_bounds(line: &[u8]) -> Option<u32>
    ensures least { IfSome result (λ limit. 4096 ≤ limit) }
    ensures greatest { IfSome result (λ limit. limit ≤ 134217728) }
{
    match parse_limit(line) {
        Some(limit) => Some(limit),
        None => None,
    }
}

/// The server of a session without a line has the usual page size and limit.
fn the_server_of_no_line<F>(fs: F) -> Server<F>
    ensures { result ≡ record {
      options = 0;
      limits = record { page_size = 4096; max_buffer = 1048576 };
      fs = fs;
    } }
{
    server_for(fs, &[])
}

/// The status where an answer could not be made is that of want of memory.
fn an_answer_wants_memory_alone<F: FileSystem>(
    alloc: Global,
    server: &mut Server<F>,
    request: &Line,
) -> Option<u8>
    ensures { IfSome result (λ status. status ≡ 4) }
{
    match answer_to(alloc, server, request) {
        Ok(_) => None,
        Err(e) => Some(exit_status(&Err(e))),
    }
}
