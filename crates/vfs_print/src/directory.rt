//! The records of a directory in the reply to READDIR or READDIRPLUS.

ghost use Rattle.std.specs.Prelude.{◌<◌, length, IfOk};

use crate::stop::Stop;
use crate::take::{take_bytes, take_record};
use crate::text::Quoted;
use std::fmt::Write;
use vfs_grammar::Error;
use vfs_wire::{Dirent, EntryOut};

/// To how many bytes a record is filled up with zeros.
const ALIGNMENT: usize = 8;

/// Prints the records of READDIR that bytes are, to the end: of each its name, its node, the offset
/// after it, and its type.
pub fn print_items<W: Write>(w: &mut W, bytes: &[u8]) -> Result<(), Stop> {
    let mut left = bytes;
    while !left.is_empty() {
        let (item, name, following) = take_item(left)?;
        write!(w, " (name={} node={}", Quoted(name), item.ino)?;
        write!(w, " offset={} type={})", item.off, item.type_)?;
        left = following;
    }
    Ok(())
}

/// The same of READDIRPLUS: the node is that of the entry, and `ino` the number beside it. The entry's
/// attributes are left out.
pub fn print_entries<W: Write>(w: &mut W, bytes: &[u8]) -> Result<(), Stop> {
    let mut left = bytes;
    while !left.is_empty() {
        let Ok((entry, rest)) = take_record::<EntryOut>(left) else {
            return Err(Stop::Refused(Error::DecodeMessage));
        };
        let (item, name, following) = take_item(rest)?;
        write!(w, " (name={} node={}", Quoted(name), entry.nodeid)?;
        write!(w, " ino={} offset={}", item.ino, item.off)?;
        write!(w, " type={})", item.type_)?;
        left = following;
    }
    Ok(())
}

/// The item that bytes begin with, its name, and what comes after the zeros that fill it up.
fn take_item(bytes: &[u8]) -> Result<(Dirent, &[u8], &[u8]), Error>
    ensures { IfOk result (λ parts. length parts.2.now < length bytes.now) }
{
    let (item, rest) = take_record::<Dirent>(bytes)?;
    let (name, following) = take_bytes(rest, item.namelen as usize)?;
    let over = name.len() % ALIGNMENT;
    if over == 0 {
        return Ok((item, name, following));
    }
    let (_, left) = take_bytes(following, ALIGNMENT - over)?;
    Ok((item, name, left))
}
