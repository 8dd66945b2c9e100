//! The lines of a session and their answers, each with its message decoded below it.
//!
//! Standard input has a request as `vfs_demo` reads it and its answer as `vfs_demo` writes it, a line
//! each in turn; the first line may be `limit N`, which has no answer, and the last request may lack
//! its answer. Standard output gets each line, and below it after two spaces what the message says, by
//! `print_request` and `print_reply` of `vfs_print`. Requests are read by the options of the last INIT's
//! reply. If that did not fit its room, its line does not say what was agreed on, and the options before
//! it stay.
//!
//! The program takes no arguments and opens no file; one that is started otherwise prints to standard
//! error what it takes, status 2. A line of another form ends the run with `bad line N`, status 2, and
//! standard error says what is wrong with it; among the first two lines it is told what lines look like.
//! Status 3: input could not be read or output not be written; 4: out of memory.
//!
//! The lines of its stored session, `stdin`, are one request of each opcode with its reply, then
//! requests that are refused, and then calls that only an offer brings, as one who offers them replies.
#![tactic(auto)]

mod answer;
mod decode;

use decode::{decode_text, why_bad_line};
use std::env::FillError;
use std::io;
use std::io::IsTerminal;
use std::process::ExitCode;
use std::rt::Env;
use vfs_run::{RunError, USAGE_STATUS, exit_status, read_all, write_all};

fn main(rt: HostRuntime) -> ExitCode {
    if !matches!(rt.arg(1, &mut []), Err(FillError::NotPresent)) {
        let _ = print_usage(&rt);
        return ExitCode::from(USAGE_STATUS);
    }
    let _ = greet_terminal(&rt, &rt.stdin());
    let alloc = rt.alloc();
    let (text, outcome) = match read_all(alloc, &mut rt.stdin()) {
        Ok(text) => {
            let outcome = run(&rt, &text);
            (text, outcome)
        }
        Err(error) => (Vec::new(alloc), Err(error)),
    };
    let _ = report(&rt, &text, &outcome);
    ExitCode::from(exit_status(&outcome))
}

/// Decodes the lines of a text up to the first bad one, and prints them.
fn run(rt: &HostRuntime, text: &[u8]) -> Result<(), RunError> {
    let mut decoded = String::new(rt.alloc());
    let outcome = decode_text(rt.alloc(), text, &mut decoded);
    write_all(&mut rt.stdout(), decoded.as_str())?;
    outcome
}

/// Tells a person at a terminal how long the program reads.
fn greet_terminal(rt: &impl Eprint, input: &impl IsTerminal) -> io::Result<()> {
    if !input.is_terminal() {
        return Ok(());
    }
    eprintln!(rt; "vfs_decode: reading lines from standard input until end of file (see --help)")
}

/// Prints what is wrong with a bad line, and which lines there are if it is one of the first two; or
/// an error that is no bad line.
fn report(
    rt: &(impl Print + Eprint),
    text: &[u8],
    outcome: &Result<(), RunError>,
) -> io::Result<()> {
    match outcome {
        Ok(()) => Ok(()),
        Err(RunError::BadLine(number)) => {
            let why = why_bad_line(text, *number);
            eprintln!(rt; "bad line {number}: {why}")?;
            if *number > 2 {
                return Ok(());
            }
            print_usage(rt)
        }
        Err(error) => println!(rt; "{error}"),
    }
}

/// Prints to standard error how the program is started, and the lines that it takes.
fn print_usage(rt: &impl Eprint) -> io::Result<()> {
    eprint!(rt;
        "\
Usage: vfs_decode < LINES
Prints requests and their answers as text. Lines, a request and its answer in turn:
  limit N         On the first line only, without an answer.
  BUFFERS REQUEST A request. BUFFERS are the sizes in bytes of the segments of its reply
                  buffer, REQUEST its segments in hexadecimal; `+` separates segments.
  ok 0            Its answer: no reply.
  ok N HEX        A reply of N bytes, in hexadecimal.
  err NAME        A rejection. After EncodeMessage the bytes of the reply buffer may
                  follow in hexadecimal, after InvalidXattrSize two sizes must.
"
    )
}
