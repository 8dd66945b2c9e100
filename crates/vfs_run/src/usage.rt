//! The usage of programs over a session, and their messages.

use crate::{RunError, why_bad};
use std::env::FillError;
use std::io;
use std::io::IsTerminal;
use std::rt::Env;

/// The status of a program that was given an argument: that of a bad line.
pub const USAGE_STATUS: u8 = 2;

/// A program over a session, as its usage names it.
#[derive(Clone, Copy)]
pub struct Program {
    /// Its name.
    pub name: &'static str,

    /// The lines that it takes beside those of each session, whole lines of its usage.
    pub more_lines: &'static str,
}

/// Prints to standard error how a program is started, and the lines that it takes.
pub fn print_usage(rt: &impl Eprint, program: Program) -> io::Result<()> {
    let name = program.name;
    let more_lines = program.more_lines;
    eprint!(rt;
        "\
Usage: {name} < SESSION
Serves the requests of a session, which is read from standard input. Lines of a session:
  limit N         On the first line only: the largest payload of INIT's reply in bytes,
                  4096 to 134217728, in 4 to 9 digits. The default is 1048576.
  BUFFERS REQUEST A request. BUFFERS are the sizes in bytes of the segments of its reply
                  buffer, REQUEST its segments in hexadecimal; `+` separates segments.
{more_lines}For example, a STATFS of node 1 with a reply buffer of 96 bytes:
  96 28000000110000000100000000000000010000000000000000000000000000000000000000000000
"
    )
}

/// Whether a program was given an argument. Then its usage is printed, where it can be.
pub fn refuses_arguments(rt: &(impl Env + Eprint), program: Program) -> bool {
    if let Err(FillError::NotPresent) = rt.arg(1, &mut []) {
        return false;
    }
    let _ = print_usage(rt, program);
    true
}

/// Tells a person at a terminal, on standard error, how long a program reads.
pub fn greet_terminal(
    rt: &impl Eprint,
    input: &impl IsTerminal,
    program: Program,
) -> io::Result<()> {
    if !input.is_terminal() {
        return Ok(());
    }
    let name = program.name;
    eprintln!(rt; "{name}: reading requests from standard input until end of file (see --help)")
}

/// Prints what the answers to the lines of `text` don't say: on standard error what is wrong with a
/// bad line, and the usage of a program where that is the first; and on standard output an error that
/// is no bad line.
pub fn report_session(
    rt: &(impl Print + Eprint),
    text: &[u8],
    outcome: &Result<(), RunError>,
    program: Program,
) -> io::Result<()> {
    let Err(RunError::BadLine(number)) = outcome else {
        return report(rt, outcome);
    };
    let mut lines = text.split(|b| *b == b'\n');
    let why = why_bad(lines.nth(number.saturating_sub(1)).unwrap_or(b""));
    eprintln!(rt; "bad line {number}: {why}")?;
    if *number == 1 {
        return print_usage(rt, program);
    }
    Ok(())
}

// Prints an error that the answers do not say, where it can still be printed.
fn report(rt: &impl Print, outcome: &Result<(), RunError>) -> io::Result<()> {
    match outcome {
        Err(RunError::BadLine(_)) | Ok(()) => Ok(()),
        Err(error) => println!(rt; "{error}"),
    }
}
