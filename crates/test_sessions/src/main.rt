//! A server over a scripted file system, which shows the calls that it makes: for tests alone.
//!
//! Standard input has lines of five forms, and standard output gets the answers:
//!
//! - A request, in the form of `vfs_demo`. Its answer is written as there, and below it the calls
//!   that it was turned into, each line with two spaces before it.
//! - `answer N`, `answer fault N`, `answer fault none`, `answer items ITEM ..` or
//!   `answer endless ITEM ..`: what the next call is answered, in place of what the file system's
//!   rules say.
//! - `corpus`: each message of a corpus of hostile ones, one for each opcode, cut, shortened and
//!   changed, over servers of its own. A line is written for each: its name, how many forms of it
//!   there are, how many requests these are in all cuttings, and the checksum of what the uncut
//!   forms came to; after it the first form that came to something else in a cutting, if one did.
//!   The last line has the sums. After `corpus sessions` the cuttings of a form are one session.
//! - `refusals`: calls that ask for memory, each with what came of it, the requests of all lines
//!   after this one last. The module `refusals` says what is written; it is written at once.
//! - A line that begins with `#` is passed over.
//!
//! The first line of all may be `limit N` in place of one of these, as in `vfs_demo`.
//!
//! What each call is answered else is a function of its caller's process, by the file system of
//! `vfs_bench::seeded`, so that any request can be made to meet any answer, and another implementation of
//! the protocol with the same file system must write the same lines. The program takes no arguments
//! and opens no file; one that is started otherwise, or whose first line is bad, prints to standard
//! error what it takes. What is wrong with a bad line goes there too, and at a terminal that the
//! program reads to the end of its input.
#![tactic(auto)]

mod corpus;
mod cuttings;
mod hostile;
mod refusals;
mod run;
mod table;

use std::process::ExitCode;
use vfs_run::{
    Program, USAGE_STATUS, exit_status, greet_terminal, read_all, refuses_arguments, report_session,
};

/// The usage of this program.
const PROGRAM: Program = Program {
    name: "test_sessions",
    more_lines: "  answer ANSWER   The answer to the next call: N, fault N, fault none, items ITEM ..
                  or endless ITEM .., where an ITEM is INO,OFFSET,TYPE,NAME.
  corpus          The corpus of hostile messages, cut, shortened and changed.
  corpus sessions The same, with all cuttings of a form in one session.
  refusals        Calls that allocate memory. The lines after it are requests of such calls.
  # ..            A comment.
",
};

fn main(rt: HostRuntime) -> ExitCode {
    if refuses_arguments(&rt, PROGRAM) {
        return ExitCode::from(USAGE_STATUS);
    }
    let _ = greet_terminal(&rt, &rt.stdin(), PROGRAM);
    let alloc = rt.alloc();
    let (text, outcome) = match read_all(alloc, &mut rt.stdin()) {
        Ok(text) => {
            let outcome = run::run(alloc, &text, rt.stdout());
            (text, outcome)
        }
        Err(error) => (Vec::new(alloc), Err(error)),
    };
    let _ = report_session(&rt, &text, &outcome, PROGRAM);
    ExitCode::from(exit_status(&outcome))
}
