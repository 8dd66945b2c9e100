//! What a program over a session says to a person whose first line is wrong.

use crate::support::holds;
use std::alloc::Global;
use std::cell::RefCell;
use std::fmt::Display;
use std::io;
use std::io::ErrorKind;
use std::test::Fail;
use vfs_flags::{DEFAULT_MAX_BUFFER, GREATEST_MAX_BUFFER, LEAST_MAX_BUFFER};
use vfs_run::{Program, RunError, report_session};

/// Keeps what is printed as an error; anything else it can't print.
#[derive(Drop)]
struct Screen {
    errors: RefCell<String>,
}

impl Screen {
    /// Puts text after what was printed.
    fn put<D: Display + Drop>(&self, value: D, end: &str) -> io::Result<()> {
        let Ok(mut errors) = self.errors.try_borrow_mut() else {
            return Err(io::Error::from(ErrorKind::WouldBlock));
        };
        if write!(*errors, "{value}{end}").is_err() {
            return Err(io::Error::from(ErrorKind::OutOfMemory));
        }
        Ok(())
    }
}

impl Eprint for Screen {
    fn eprint<D: Display + Drop>(&self, value: D) -> io::Result<()> {
        self.put(value, "")
    }

    fn eprintln<D: Display + Drop>(&self, value: D) -> io::Result<()> {
        self.put(value, "\n")
    }
}

impl Print for Screen {
    fn print<D: Display + Drop>(&self, _value: D) -> io::Result<()> {
        Err(io::Error::from(ErrorKind::Unsupported))
    }

    fn println<D: Display + Drop>(&self, _value: D) -> io::Result<()> {
        Err(io::Error::from(ErrorKind::Unsupported))
    }

    fn write_all(&self, _bytes: &[u8]) -> io::Result<()> {
        Err(io::Error::from(ErrorKind::Unsupported))
    }
}

/// A program with a form of lines of its own.
const PROGRAM: Program = Program {
    name: "reader",
    more_lines: "  more            A line of its own.\n",
};

/// What is printed of the bad line of this number.
fn said(alloc: Global, text: &[u8], number: usize) -> Result<String, Fail> {
    let screen = Screen {
        errors: RefCell::new(String::new(alloc)),
    };
    report_session(&screen, text, &Err(RunError::BadLine(number)), PROGRAM)?;
    Ok(screen.errors.into_inner())
}

/// Whether the usage is printed where the first line is bad: how the program is started, the limits
/// that the code has, and the program's own lines.
fn tells_usage(alloc: Global) -> Result<bool, Fail> {
    let said = said(alloc, b"16\n", 1)?;
    let limits = format!(in alloc;
        "{LEAST_MAX_BUFFER} to {GREATEST_MAX_BUFFER}, in 4 to 9 digits. \
         The default is {DEFAULT_MAX_BUFFER}.\n"
    )?;
    Ok(
        said.starts_with(
            "bad line 1: missing space after the reply buffers\n\
             Usage: reader < SESSION\n",
        ) && said.contains(limits.as_str())
            && said.contains(PROGRAM.more_lines),
    )
}

#[test]
fn a_bad_first_line_prints_the_usage(rt: HostRuntime) -> Result<(), Fail> {
    holds(tells_usage(rt.alloc()))
}

/// Whether of a later bad line no more is printed than what is wrong with it.
fn tells_why(alloc: Global) -> Result<bool, Fail> {
    let said = said(alloc, b"0 \n16 0\n", 2)?;
    Ok(said.as_str() == "bad line 2: odd number of hexadecimal digits in a segment\n")
}

#[test]
fn a_later_bad_line_prints_what_is_wrong(rt: HostRuntime) -> Result<(), Fail> {
    holds(tells_why(rt.alloc()))
}
