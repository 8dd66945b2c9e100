//! Records of a directory's entries: a `Dirent`, the name, and zeros to a multiple of 8, with an
//! `EntryOut` in front of them for READDIRPLUS.

ghost use Rattle.std.specs.Prelude.{◌≡◌, ◌+◌, ◌-◌, ◌<◌, ◌^◌, length, true, false, Some, None, Ok};
ghost use Rattle.std.specs.Int.{next_multiple_of};
ghost use Rattle.vfs_files.specs.Answers.{FitsEntry};
ghost use Rattle.vfs_files.specs.Values.{item};
ghost use Rattle.vfs_grammar.specs.Listing.{verdict, dirent_len, dirent_bytes};
ghost use Rattle.vfs_grammar.specs.Words.{dirent_of, record_bytes};
ghost use Rattle.vfs_listings.specs.Reading.{PutsBeginning, Adds};

use std::io;
use vfs_files::{DirEntry, Entry};
use vfs_flags::{Errno, Fault};
use vfs_segments::Writer;
use vfs_wire::{ByteValued, Dirent, Direntplus, EntryOut};

/// How many zeros come after `len` bytes of a record, up to a multiple of 8.
#[inline(always)]
fn zeros_after(len: usize) -> u8
    ensures zeros { result ≡ next_multiple_of len 8 - len }
    ensures few { result < 8 }
{
    ((8 - len % 8) % 8) as u8
}

/// How long a record is with that many bytes in front of this name.
#[inline(always)]
fn len_after(front: usize, name: &[u8]) -> usize
    requires { front < 2 ^ 32 }
    ensures { result ≡ next_multiple_of (front + length name.now) 8 }
{
    let len = front + name.len();
    len + zeros_after(len) as usize
}

/// How long the record of an entry with this name is, where `plus` with an `EntryOut`.
#[inline(always)]
pub fn record_len(name: &[u8], plus: bool) -> usize
    ensures plain { plus ≡ false → result ≡ dirent_len (length name.now) }
    ensures with_entry { plus ≡ true → result ≡ 128 + dirent_len (length name.now) }
{
    if plus {
        len_after(Direntplus::SIZE, name)
    } else {
        len_after(Dirent::SIZE, name)
    }
}

/// The `Dirent` of an entry.
#[inline(always)]
fn dirent_of(dir_entry: DirEntry<'_>) -> Dirent
    requires { length dir_entry.name.bytes.now < 2 ^ 32 }
    ensures { result ≡ dirent_of (item dir_entry.entry) }
{
    Dirent {
        ino: dir_entry.ino,
        off: dir_entry.offset,
        namelen: dir_entry.name.to_bytes().len() as u32,
        type_: dir_entry.type_,
    }
}

/// Puts a record without an `EntryOut`.
#[inline(always)]
fn put_dirent(w: &mut Writer, dir_entry: DirEntry<'_>) -> io::Result<()>
    requires { length dir_entry.name.bytes.now < 2 ^ 32 }
    ensures { PutsBeginning w.old (dirent_bytes (item dir_entry.entry)) result w.new }
{
    let name = dir_entry.name.to_bytes();
    let zeros = zeros_after(Dirent::SIZE + name.len());
    w.write_padded(dirent_of(dir_entry), name, zeros)
}

/// Puts a record with an `EntryOut`.
#[inline(always)]
fn put_direntplus(w: &mut Writer, dir_entry: DirEntry<'_>, entry: &Entry) -> io::Result<()>
    requires { length dir_entry.name.bytes.now < 2 ^ 32 }
    ensures puts { PutsBeginning w.old
        (record_bytes (Some entry.now) (item dir_entry.entry)) result w.new }
    ensures fits { FitsEntry entry.now }
{
    let record = Direntplus {
        entry_out: EntryOut::from(entry),
        dirent: dirent_of(dir_entry),
    };
    let name = dir_entry.name.to_bytes();
    let zeros = zeros_after(Direntplus::SIZE + name.len());
    w.write_padded(record, name, zeros)
}

/// Adds a record without an `EntryOut`.
#[inline(always)]
pub(crate) fn add_plain(w: &mut Writer, max: usize, dir_entry: DirEntry<'_>) -> Result<usize, Fault>
    ensures { Adds (verdict max (length w.old.left) (Ok None) (item dir_entry.entry)) None
        (item dir_entry.entry) w.old result w.new }
{
    let name = dir_entry.name.to_bytes();
    if name.len() > u32::MAX as usize {
        return Err(Some(Errno::EOVERFLOW));
    }
    let len = len_after(Dirent::SIZE, name);
    if len > max {
        return Ok(0);
    }
    match put_dirent(w, dir_entry) {
        Ok(()) => Ok(len),
        Err(_) => Err(None),
    }
}

/// Adds a record with an `EntryOut`. It is inlined, so that an entry that was made just before goes
/// into the room without being put together in memory first.
#[inline(always)]
pub(crate) fn add_plus(
    w: &mut Writer,
    max: usize,
    dir_entry: DirEntry<'_>,
    entry: &Entry,
) -> Result<usize, Fault>
    ensures { Adds (verdict max (length w.old.left) (Ok (Some entry.now)) (item dir_entry.entry))
        (Some entry.now) (item dir_entry.entry) w.old result w.new }
{
    let name = dir_entry.name.to_bytes();
    if name.len() > u32::MAX as usize {
        return Err(Some(Errno::EOVERFLOW));
    }
    let plus_len = len_after(Direntplus::SIZE, name);
    if plus_len > max {
        return Ok(0);
    }
    match put_direntplus(w, dir_entry, entry) {
        Ok(()) => Ok(plus_len),
        Err(_) => Err(None),
    }
}

/// Adds the record of a directory's entry to a reply, where it has at most `max` bytes: a `Dirent`,
/// the name, and zeros to a multiple of 8, with the `EntryOut` of `entry` in front of them where
/// there is one.
///
/// Answers how many bytes were put, or 0 where the record is longer than `max`; then nothing is
/// put.
///
/// The fault EOVERFLOW where the name has 2^32 bytes or more; then nothing is put. The fault `None`
/// where the room is too small for the record; then the record's beginning fills it.
#[inline(always)]
pub fn add_dirent(
    w: &mut Writer,
    max: usize,
    dir_entry: DirEntry<'_>,
    entry: Option<Entry>,
) -> Result<usize, Fault>
    ensures { Adds (verdict max (length w.old.left) (Ok entry) (item dir_entry.entry)) entry
        (item dir_entry.entry) w.old result w.new }
{
    match entry {
        Some(entry) => add_plus(w, max, dir_entry, &entry),
        None => add_plain(w, max, dir_entry),
    }
}
