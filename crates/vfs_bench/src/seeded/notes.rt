//! The notes of the calls, as text.

use crate::FsResult;
use std::alloc::{AllocError, Global};
use vfs_files::{CStr, Context, Extensions};

mod answers;
mod calls;

/// Lines, each with two spaces before it.
///
/// A call begins a line, its arguments go on with it, each as ` NAME=VALUE`, and `end` ends it; an
/// answer likewise.
#[derive(Drop)]
pub struct Notes {
    text: String,
    lacks: bool,
    process: u32,
}

impl Notes {
    /// No lines.
    pub fn new(alloc: Global) -> Notes {
        Notes {
            text: String::new(alloc),
            lacks: false,
            process: 0,
        }
    }

    /// No lines, with the room for that many bytes of them: noting these takes no memory.
    pub fn with_room(alloc: Global, bytes: usize) -> Result<Notes, AllocError> {
        Ok(Notes {
            text: String::with_capacity(alloc, bytes)?,
            lacks: false,
            process: 0,
        })
    }

    /// All lines so far, each with its newline.
    pub fn text(&self) -> &str {
        self.text.as_str()
    }

    /// Whether something was lost, since there was no memory for it.
    pub fn lacks(&self) -> bool {
        self.lacks
    }

    /// The process of the last caller that was noted, without a sign, as the request's header has it;
    /// 0 at first.
    pub fn process(&self) -> u32 {
        self.process
    }

    /// Begins the line of a call that has no caller.
    pub fn call(&mut self, name: &str) {
        let noted = write!(self.text, "  call {name}");
        self.keep(noted);
    }

    /// Begins the line of a call, with its caller's user, group and process.
    pub fn call_by(&mut self, name: &str, ctx: &Context) {
        let uid = ctx.uid.into_inner();
        let gid = ctx.gid.into_inner();
        let pid = ctx.pid.cast_unsigned();
        self.process = pid;
        let noted = write!(self.text, "  call {name} ctx={uid},{gid},{pid}");
        self.keep(noted);
    }

    /// An argument or a part of an answer that is a word.
    pub fn word(&mut self, name: &str, value: &str) {
        let noted = write!(self.text, " {name}={value}");
        self.keep(noted);
    }

    /// One that is a number.
    pub fn number(&mut self, name: &str, value: u64) {
        let noted = write!(self.text, " {name}={value}");
        self.keep(noted);
    }

    /// One that is a number of 32 bits.
    pub fn small(&mut self, name: &str, value: u32) {
        self.number(name, u64::from(value));
    }

    /// One that is true or false.
    pub fn truth(&mut self, name: &str, value: bool) {
        self.word(name, if value { "true" } else { "false" });
    }

    /// One that is a set of bits, in hex.
    pub fn bits(&mut self, name: &str, value: u64) {
        let noted = write!(self.text, " {name}=0x{value:x}");
        self.keep(noted);
    }

    /// A number that need not be there.
    pub fn option(&mut self, name: &str, value: Option<u64>) {
        match value {
            Some(number) => self.number(name, number),
            None => self.word(name, "none"),
        }
    }

    /// Bytes, in hex.
    pub fn bytes(&mut self, name: &str, value: &[u8]) {
        self.word(name, "");
        self.hex(value);
    }

    /// A name, likewise.
    pub fn name(&mut self, name: &str, value: CStr<'_>) {
        self.bytes(name, value.to_bytes());
    }

    /// Pairs of a node and a count, joined by commas.
    pub fn pairs(&mut self, name: &str, value: &[(u64, u64)]) {
        self.word(name, "");
        let mut between = "";
        for (node, count) in value {
            let noted = write!(self.text, "{between}{node}:{count}");
            self.keep(noted);
            between = ",";
        }
    }

    /// The extensions of a request: the name and the value of its security context, and its group.
    pub fn extensions(&mut self, ext: &Extensions) {
        match &ext.secctx {
            Some(context) => {
                self.bytes("secctx", context.name.as_c_str().to_bytes());
                let noted = self.text.push(':');
                self.keep(noted);
                self.hex(&context.secctx);
            }
            None => self.word("secctx", "none"),
        }
        match ext.sup_gid {
            Some(group) => self.number("group", u64::from(group.into_inner())),
            None => self.word("group", "none"),
        }
    }

    /// Ends a line.
    pub fn end(&mut self) {
        let noted = self.text.push('\n');
        self.keep(noted);
    }

    /// Begins the line of a call of a file, of whose answer the bytes that were moved are still to
    /// come.
    pub fn file(&mut self, call: &str, off: u64, view: usize, answer: &FsResult<usize>) {
        let noted = write!(self.text, "  file {call} off={off} view={view} ");
        self.keep(noted);
        let noted = match answer {
            Ok(count) => write!(self.text, "moved={count} "),
            Err(_) => self.text.push_str("fault"),
        };
        self.keep(noted);
    }

    /// Begins the line of an answer. The parts of one that is no fault go on with it.
    pub fn answer<T>(&mut self, answer: &FsResult<T>) {
        let noted = match answer {
            Ok(_) => self.text.push_str("  -> ok"),
            Err(Some(errno)) => {
                let number = errno.get();
                write!(self.text, "  -> fault {number}")
            }
            Err(None) => self.text.push_str("  -> fault none"),
        };
        self.keep(noted);
    }

    /// Bytes in hex, with nothing before them.
    pub fn hex(&mut self, value: &[u8]) {
        for byte in value {
            let noted = write!(self.text, "{byte:02x}");
            self.keep(noted);
        }
    }

    fn keep(&mut self, noted: Result<(), AllocError>) {
        if noted.is_err() {
            self.lacks = true;
        }
    }
}
