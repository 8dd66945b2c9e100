//! The parts of the output, each about one call.

use crate::cuttings::{Served, Watch};
use bitflags::Flags;
use std::alloc::Global;
use std::io;
use vfs_flags::FsOptions;
use vfs_run::{RunError, write_all};

/// The output, and the name of the part that comes next.
#[derive(Drop)]
pub struct Parts<W> {
    alloc: Global,
    output: W,
    name: String,
}

impl<W: io::Write + Drop> Parts<W> {
    /// No parts yet.
    pub fn new(alloc: Global, output: W) -> Parts<W> {
        Parts {
            alloc,
            output,
            name: String::new(alloc),
        }
    }

    /// Says what the next part is called.
    pub fn call_next(&mut self, name: String) {
        self.name = name;
    }

    /// Writes the line before a call, with the state then, in one piece.
    pub fn begin(&mut self, state: &str) -> Result<(), RunError> {
        let name = self.name.as_str();
        let line = format!(in self.alloc; "request {name}; {state}\n")?;
        write_all(&mut self.output, line.as_str())
    }

    /// Writes the line after a call, which takes no memory.
    pub fn end(&mut self) -> Result<(), RunError> {
        write_all(&mut self.output, "answered\n")
    }

    /// Writes what a call answered, and the state after it.
    pub fn tell(&mut self, text: &str) -> Result<(), RunError> {
        write_all(&mut self.output, text)
    }

    /// Writes what came of requests.
    pub fn tell_served(&mut self, served: &Served) -> Result<(), RunError> {
        let text = text_of(self.alloc, served)?;
        self.tell(text.as_str())
    }
}

// The outcomes and the rooms, the options then, and the calls.
fn text_of(alloc: Global, served: &Served) -> Result<String, RunError> {
    let mut text = String::new(alloc);
    for (outcome, room) in served.outcomes.iter().zip(&served.rooms) {
        let room = hex::encode(alloc, room)?;
        writeln!(text, "{outcome:?}\nroom {room}")?;
    }
    let options = served.options.bits();
    let calls = served.calls.as_str();
    write!(text, "now options 0x{options:x}\n{calls}")?;
    Ok(text)
}

// A server's part begins with its options.
impl<W: io::Write + Drop> Watch for Parts<W> {
    fn before(&mut self, options: FsOptions) -> Result<(), RunError> {
        let options = options.bits();
        let state = format!(in self.alloc; "options 0x{options:x}")?;
        self.begin(state.as_str())
    }

    fn after(&mut self) -> Result<(), RunError> {
        self.end()
    }
}
