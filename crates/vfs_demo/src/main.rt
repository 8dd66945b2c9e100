//! A file server in memory that answers the requests of a session, line by line.
//!
//! Standard input has a line for each request, with the rooms for its reply and its bytes, and
//! standard output gets a line for each answer. The first line may be `limit N` in place of a
//! request: then the server's largest payload is N bytes, 4096 to 134217728, and else 1048576. The
//! program takes no arguments and opens no file; one that is started otherwise, or
//! whose first line is bad, prints to standard error what it takes. What is wrong with a bad line
//! goes there too, and at a terminal that the program reads to the end of its input.
//!
//! All lines and all rooms are in memory at once: three hundred requests with 2 MiB of room each take
//! 600 MB.
//!
//! The lines of its stored session, `stdin`, show:
//!
//! - 1 to 12: how a client begins. INIT, attributes, the file `a` found and others not, FORGET, INIT
//!   again, what a file system that serves no more answers to STATFS, OPEN and ACCESS.
//! - 13 to 19: each form of answer. An opcode that isn't there; INIT's reply of 80 bytes in a room
//!   of 20; a LOOKUP without room; a header cut short, a `len` too small, no name, no byte.
//! - 20 to 23: the file `c` is made, is there then, is taken out, and isn't there then.
//! - 24 to 28: the root's three entries, those after the second and the third; a file is no
//!   directory; READDIRPLUS, where `.` and `..` have their number and type alone, and the file is
//!   looked up.
//! - 29 to 34: READ. Two of three bytes fit, with the room in one piece and in two; without room for
//!   the header nothing is read; at the end there is nothing; node 1 is no file, for WRITE too.
//! - 35 to 40: WRITE. What is written is read, and the size is that of the file then; of three bytes
//!   two end within the limit, and the gap before them holds zeros; at the limit nothing is written.
//! - 41 to 43: GETLK and TMPFILE, which are not served, and INTERRUPT, which has no reply.
#![tactic(auto)]

use std::process::ExitCode;
use vfs_run::{
    Program, USAGE_STATUS, exit_status, greet_terminal, read_all, refuses_arguments,
    report_session, run_text,
};

/// What the program's usage says of it.
const PROGRAM: Program = Program {
    name: "vfs_demo",
    more_lines: "",
};

fn main(rt: HostRuntime) -> ExitCode {
    if refuses_arguments(&rt, PROGRAM) {
        return ExitCode::from(USAGE_STATUS);
    }
    let _ = greet_terminal(&rt, &rt.stdin(), PROGRAM);
    let alloc = rt.alloc();
    let (text, outcome) = match read_all(alloc, &mut rt.stdin()) {
        Ok(text) => {
            let outcome = run_text(alloc, &text, &mut rt.stdout());
            (text, outcome)
        }
        Err(error) => (Vec::new(alloc), Err(error)),
    };
    let _ = report_session(&rt, &text, &outcome, PROGRAM);
    ExitCode::from(exit_status(&outcome))
}
