//! Answers that the input tells, for the calls of the requests that follow.

use crate::FsResult;
use crate::directory::{ScriptDirectory, ScriptItem};
use crate::seeded::rules::{entry, opening};
use bitflags::Flags;
use hex::FromHexError;
use std::alloc::{AllocError, Global};
use std::time::Duration;
use vfs_files::{CStr, CString, Context, Entry};
use vfs_flags::{Errno, Fault, OpenOptions};
use vfs_wire::Attr;

/// An answer that a line tells.
#[derive(Drop)]
pub enum Told {
    /// `answer N`: the node, the options by their bits or the handle, where the call answers one of
    /// these, with zeros beside it; else what stands for the seed.
    Value(u64),
    /// `answer fault N` or `answer fault none`.
    Fault(Fault),
    /// `answer items ITEM ..` or `answer endless ITEM ..`: the items of a directory, which ends
    /// after them or begins again. An item is `INO,OFFSET,TYPE,NAME`, with the name in hex. A call
    /// that reads no directory takes it for 0.
    Directory(ScriptDirectory),
}

impl Told {
    /// What an answer hangs on that is told, or the fault.
    pub fn source(&self) -> FsResult<Source> {
        match self {
            Told::Value(value) => Ok(Source::Told(*value)),
            Told::Fault(fault) => Err(*fault),
            Told::Directory(_) => Ok(Source::Told(0)),
        }
    }
}

/// What an answer that is no fault hangs on.
#[derive(Clone, Copy)]
pub enum Source {
    /// A number that the input tells.
    Told(u64),
    /// The seed.
    Seed(u32),
}

impl Source {
    /// The seed, or what is told in its place.
    pub fn as_seed(self) -> u32 {
        match self {
            Source::Told(value) => (value % 4_294_967_296) as u32,
            Source::Seed(seed) => seed,
        }
    }

    /// The entry of a name, or of the node that is told.
    pub fn entry(self, ctx: &Context, name: &[u8]) -> Entry {
        match self {
            Source::Told(inode) => bare_entry(inode),
            Source::Seed(seed) => entry(seed, ctx, name),
        }
    }

    /// A handle, and how to use what was opened.
    pub fn opening(self) -> (Option<u64>, OpenOptions) {
        match self {
            Source::Told(handle) => (Some(handle), OpenOptions::empty()),
            Source::Seed(seed) => opening(seed),
        }
    }

    /// The entry of a name that is made, and what is opened of it; of a node that is told, no handle.
    pub fn creation(self, ctx: &Context, name: &[u8]) -> (Entry, Option<u64>, OpenOptions) {
        match self {
            Source::Told(inode) => (bare_entry(inode), None, OpenOptions::empty()),
            Source::Seed(seed) => {
                let (handle, options) = opening(seed);
                (entry(seed, ctx, name), handle, options)
            }
        }
    }
}

// The entry of a node that is told.
fn bare_entry(inode: u64) -> Entry {
    Entry {
        inode,
        generation: 0,
        attr: Attr::default(),
        attr_timeout: Duration::ZERO,
        entry_timeout: Duration::ZERO,
    }
}

/// Reads what comes after `answer `. It is `None` where that has none of the forms.
pub fn parse_told(alloc: Global, text: &[u8]) -> Result<Option<Told>, AllocError> {
    let Ok(text) = std::str::from_utf8(text) else {
        return Ok(None);
    };
    if let Some(fault) = text.strip_prefix("fault ") {
        return Ok(parse_fault(fault).map(Told::Fault));
    }
    if let Some(items) = text.strip_prefix("items ") {
        return parse_directory(alloc, items, false);
    }
    if let Some(items) = text.strip_prefix("endless ") {
        return parse_directory(alloc, items, true);
    }
    Ok(parse_number(text).map(Told::Value))
}

// The fault of a number, or of none.
fn parse_fault(text: &str) -> Option<Fault> {
    if text == "none" {
        return Some(None);
    }
    Some(Some(Errno::new(text.parse::<i32>().ok()?)?))
}

// The directory of items joined by spaces.
fn parse_directory(alloc: Global, text: &str, endless: bool) -> Result<Option<Told>, AllocError> {
    let mut items = Vec::new(alloc);
    for piece in text.split(' ') {
        match parse_item(alloc, piece)? {
            Some(item) => items.push(item)?,
            None => return Ok(None),
        }
    }
    let directory = if endless {
        ScriptDirectory::endless(alloc, items)
    } else {
        ScriptDirectory::new(alloc, items)
    };
    match directory {
        Ok(directory) => Ok(Some(Told::Directory(directory))),
        Err(_) => Err(AllocError),
    }
}

// An item, its four parts joined by commas.
fn parse_item(alloc: Global, text: &str) -> Result<Option<ScriptItem>, AllocError> {
    let Some((ino, offset, type_, name)) = parts_of(text) else {
        return Ok(None);
    };
    match parse_name(alloc, name)? {
        Some(name) => Ok(Some(ScriptItem {
            ino,
            offset,
            type_,
            name,
        })),
        None => Ok(None),
    }
}

// The three numbers of an item, and the text of its name.
fn parts_of(text: &str) -> Option<(u64, u64, u32, &str)> {
    let (ino, rest) = text.split_once(',')?;
    let (offset, rest) = rest.split_once(',')?;
    let (type_, name) = rest.split_once(',')?;
    let type_ = type_.parse::<u32>().ok()?;
    Some((parse_number(ino)?, parse_number(offset)?, type_, name))
}

// The name whose bytes a text writes in hex.
fn parse_name(alloc: Global, text: &str) -> Result<Option<CString>, AllocError> {
    let mut bytes = match hex::decode(alloc, text.as_bytes()) {
        Ok(bytes) => bytes,
        Err(FromHexError::OutOfMemory) => return Err(AllocError),
        Err(_) => return Ok(None),
    };
    bytes.push(0)?;
    let Some(name) = CStr::from_bytes_with_nul(&bytes) else {
        return Ok(None);
    };
    match CString::new(alloc, name) {
        Ok(name) => Ok(Some(name)),
        Err(_) => Err(AllocError),
    }
}

// The number that decimal digits write.
fn parse_number(text: &str) -> Option<u64> {
    text.parse::<u64>().ok()
}
