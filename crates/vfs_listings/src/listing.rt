//! The reading of a directory: each entry is taken, looked up for READDIRPLUS, and its record put,
//! up to the first that isn't written.

ghost use Rattle.std.specs.Prelude.{◌≡◌, ◌≤◌, length, true, Some, Ok, IfOk};
ghost use Rattle.vfs_files.specs.Values.{context_of, entry_out_of, item};
ghost use Rattle.vfs_grammar.specs.Listing.{is_dot, dot_out, verdict, answer_at, Fails};
ghost use Rattle.vfs_listings.specs.Reading.{got_of, AddsGot, AddsLine, GivesBack, GivesBackNode, ReadsItems, ReadsDirectory};

use crate::record::{add_plain, add_plus};
use std::time::Duration;
use vfs_files::{Context, DirEntry, DirectoryIterator, Entry, FileSystem, Number};
use vfs_flags::Fault;
use vfs_segments::Writer;
use vfs_wire::{Attr, InHeader};
use vfs_wire_more::ReadIn;

/// Whether a name is `.` or `..`.
#[inline(always)]
pub fn is_dot(name: &[u8]) -> bool
    ensures { result ≡ is_dot name.now }
{
    name.len() <= 2 && is_short_dot(name)
}

/// The same, apart from where names are longer.
#[cold]
fn is_short_dot(name: &[u8]) -> bool
    ensures { result ≡ is_dot name.now }
{
    name == b".".as_slice() || name == b"..".as_slice()
}

/// What `.` and `..` get: their number, and a mode that says their type and no more.
pub fn dot_entry(dir_entry: DirEntry<'_>) -> Entry
    ensures { entry_out_of result ≡ dot_out (item dir_entry.entry) }
{
    Entry {
        inode: 0,
        generation: 0,
        attr: Attr {
            ino: dir_entry.ino,
            mode: dir_entry.type_.wrapping_mul(4096),
            ..Attr::default()
        },
        attr_timeout: Duration::ZERO,
        entry_timeout: Duration::ZERO,
    }
}

/// Gives back one lookup of a node, for the caller that the header names: the file system's `forget`
/// is called. Node 0 isn't kept from it.
pub fn give_back<F: FileSystem>(fs: &mut F, header: &InHeader, node: u64)
    ensures { GivesBackNode F.allows (context_of header.now) (Some node) fs.old fs.new }
{
    fs.forget(Context::from(*header), F::Inode::from_number(node), 1)
}

/// Adds the record of a directory's entry with what it got, and gives that back where the record
/// isn't written.
#[inline(always)]
fn add_got<F: FileSystem>(
    fs: &mut F,
    header: &InHeader,
    w: &mut Writer,
    max: usize,
    dir_entry: DirEntry<'_>,
    entry: &Entry,
) -> Result<usize, Fault>
    ensures adds { AddsGot max (length w.old.left) (Ok (Some entry.now)) (item dir_entry.entry)
        w.old result w.new }
    ensures gives_back { GivesBack F.allows (context_of header.now)
        (verdict max (length w.old.left) (Ok (Some entry.now)) (item dir_entry.entry))
        (Ok (Some entry.now)) fs.old fs.new }
{
    let added = add_plus(w, max, dir_entry, entry);
    match added {
        Ok(len) if len > 0 => Ok(len),
        _ => {
            give_back(fs, header, entry.inode);
            added
        }
    }
}

/// Adds the record of a directory's entry with what its `lookup` answered; a fault of that is the
/// answer.
#[inline(always)]
fn add_found<F: FileSystem>(
    fs: &mut F,
    header: &InHeader,
    w: &mut Writer,
    max: usize,
    dir_entry: DirEntry<'_>,
    found: &Result<Entry, Fault>,
) -> Result<usize, Fault>
    ensures adds { AddsGot max (length w.old.left) (got_of found.now) (item dir_entry.entry)
        w.old result w.new }
    ensures gives_back { GivesBack F.allows (context_of header.now)
        (verdict max (length w.old.left) (got_of found.now) (item dir_entry.entry))
        (got_of found.now) fs.old fs.new }
{
    match found {
        Ok(entry) => add_got(fs, header, w, max, dir_entry, entry),
        Err(fault) => Err(*fault),
    }
}

/// Adds the record of a directory's entry with an `Entry`, which but for `.` and `..` is looked up.
fn add_with_entry<F: FileSystem>(
    fs: &mut F,
    header: &InHeader,
    w: &mut Writer,
    max: usize,
    dir_entry: DirEntry<'_>,
) -> Result<usize, Fault>
    ensures { AddsLine F.allows (context_of header.now) true header.now.nodeid max
        (item dir_entry.entry) fs.old w.old result fs.new w.new }
{
    if is_dot(dir_entry.name.to_bytes()) {
        let entry = dot_entry(dir_entry);
        return add_got(fs, header, w, max, dir_entry, &entry);
    }
    let parent = F::Inode::from_number(header.nodeid);
    let found = fs.lookup(Context::from(*header), parent, dir_entry.name);
    add_found(fs, header, w, max, dir_entry, &found)
}

/// Adds the record of a directory's entry, where `plus` with an `Entry`, and gives back what it got
/// where it isn't written.
fn add_line<F: FileSystem>(
    fs: &mut F,
    header: &InHeader,
    plus: bool,
    w: &mut Writer,
    max: usize,
    dir_entry: DirEntry<'_>,
) -> Result<usize, Fault>
    ensures { AddsLine F.allows (context_of header.now) plus header.now.nodeid max
        (item dir_entry.entry) fs.old w.old result fs.new w.new }
{
    if plus {
        add_with_entry(fs, header, w, max, dir_entry)
    } else {
        add_plain(w, max, dir_entry)
    }
}

/// What is answered where an entry fails after this many bytes of records.
fn tell(plus: bool, written: usize, fault: Fault) -> Result<usize, Fault>
    ensures { result ≡ answer_at plus written (Fails fault) }
{
    if plus && written > 0 {
        Ok(written)
    } else {
        Err(fault)
    }
}

/// Reads a directory from its iterator.
fn read_items<F: FileSystem>(
    fs: &mut F,
    header: &InHeader,
    plus: bool,
    it: &mut F::DirIter,
    size: usize,
    w: &mut Writer,
) -> Result<usize, Fault>
    ensures { ReadsItems F.allows F.DirIter.gives (context_of header.now) plus header.now.nodeid
        size it.old fs.old w.old result fs.new w.new }
{
    let mut written = 0;
    'items: loop {
        match it.next() {
            None => return Ok(written),
            Some(entry) => match add_line(fs, header, plus, w, size - written, entry) {
                Ok(0) => return Ok(written),
                Ok(len) => written += len,
                Err(fault) => return tell(plus, written, fault),
            },
        }
    }
}

/// Serves READDIR or, where `plus`, READDIRPLUS, but for the reply's header: calls `readdir`, and
/// puts the records of the entries where the writer is, at most `read_in.size` bytes of them.
/// For READDIRPLUS each entry but `.` and `..` is looked up before its record is put.
///
/// The reading stops at the directory's end, or at the first entry that isn't written: one whose
/// `lookup` fails, one whose record doesn't fit into `read_in.size` any more, or one that
/// [`add_dirent`] fails on. What that one's `lookup` answered is given back by a `forget`.
///
/// Answers how many bytes of records there are. A fault of `readdir` is answered as it is, and
/// nothing is put. The fault of an entry is answered by READDIR whatever was put before, and by
/// READDIRPLUS only where nothing was: what it put are entries that it looked up, and the client
/// must have them. Where the room was too small for a record, its beginning comes after those
/// that count.
pub fn read_directory<F: FileSystem>(
    fs: &mut F,
    header: &InHeader,
    read_in: &ReadIn,
    plus: bool,
    w: &mut Writer,
) -> Result<usize, Fault>
    ensures reads { ReadsDirectory F.allows F.DirIter.gives (context_of header.now) plus
        header.now.nodeid read_in.now.fh read_in.now.size read_in.now.offset
        fs.old w.old result fs.new w.new }
    ensures within { IfOk result (λ written. written ≤ read_in.now.size) }
{
    let mut it = fs.readdir(
        Context::from(*header),
        F::Inode::from_number(header.nodeid),
        F::Handle::from_number(read_in.fh),
        read_in.size,
        read_in.offset,
    )?;
    read_items(fs, header, plus, &mut it, read_in.size as usize, w)
}
