//! Directory records, and directories read.

ghost use Rattle.std.specs.Prelude.{◌≡◌, ◌≤◌, ℕ, length, true, false, [], ◌∷◌, Option, Some, Ok, Err, IfOk, codes, Result as Outcome, None as Nothing};
ghost use Rattle.vfs_segments.specs.Written.{Written, wrote};
ghost use Rattle.vfs_files.specs.Calls.{not_served};
ghost use Rattle.vfs_files.specs.Values.{name_text};
ghost use Rattle.vfs_files.specs.Runs.{Taken};
ghost use Rattle.vfs_files.specs.declared.entry.Context.{Context};
ghost use Rattle.vfs_grammar.specs.Samples.{record_of_dot, file_a};
ghost use Rattle.vfs_listings.specs.Reading.{ReadsItems};

use fs_small::Unserved;
use vfs_files::{CStr, DirEntry, FileSystem};
use vfs_flags::Fault;
use vfs_listings::{add_dirent, read_directory, record_len};
use vfs_segments::Writer;
use vfs_wire::InHeader;
use vfs_wire_more::ReadIn;

/// Adds `.` of the root, whose record has 32 bytes, where 32 may still be put.
fn add_dot(w: &mut Writer, dot: CStr<'_>) -> Result<usize, Fault>
    requires name { name_text dot ≡ codes "." }
    requires room { 32 ≤ length w.old.left }
    ensures answer { result ≡ Ok 32 }
    ensures bytes { w.new ≡ wrote w.old record_of_dot }
{
    let entry = DirEntry {
        ino: 1,
        offset: 1,
        type_: 4,
        name: dot,
    };
    add_dirent(w, 32, entry, None)
}

/// Adds an entry whose name has one byte where 31 bytes may still be put: its record is too long,
/// and nothing is put, however small the room is.
fn add_too_long(w: &mut Writer, entry: DirEntry<'_>) -> Result<usize, Fault>
    requires { length (name_text entry.name) ≡ 1 }
    ensures answer { result ≡ Ok 0 }
    ensures same { w.new ≡ w.old }
{
    add_dirent(w, 31, entry, None)
}

/// Adds the same entry where 32 bytes may be put and there is room for 31: a fault, and the room is
/// full.
fn add_past_the_room(w: &mut Writer, entry: DirEntry<'_>) -> Result<usize, Fault>
    requires name { length (name_text entry.name) ≡ 1 }
    requires room { length w.old.left ≡ 31 }
    ensures answer { result ≡ Err Nothing }
    ensures full { w.new.left ≡ [] }
{
    add_dirent(w, 32, entry, None)
}

/// How long the record of an entry with this name of one byte is with an `EntryOut`: that has 128 bytes.
fn len_with_entry(name: &[u8]) -> usize
    requires { length name.now ≡ 1 }
    ensures { result ≡ 160 }
{
    record_len(name, true)
}

/// Reads a directory of a file system that serves nothing: its fault is answered, and nothing is
/// put.
fn read_what_is_not_served(
    header: &InHeader,
    read_in: &ReadIn,
    plus: bool,
    w: &mut Writer,
) -> Result<usize, Fault>
    ensures answer { result ≡ Err not_served }
    ensures same { w.new ≡ w.old }
{
    let mut fs = Unserved {};
    read_directory(&mut fs, header, read_in, plus, w)
}

/// The records of one READDIRPLUS fit into the page that was asked for, whatever the file system.
fn read_a_page<F: FileSystem>(
    fs: &mut F,
    header: &InHeader,
    read_in: &ReadIn,
    w: &mut Writer,
) -> Result<usize, Fault>
    requires { read_in.now.size ≡ 4096 }
    ensures { IfOk result (λ written. written ≤ 4096) }
{
    read_directory(fs, header, read_in, true, w)
}

/// Where READDIR takes the file `a`, may put the 32 bytes of its record, and there is room for 31:
/// the answer is a fault without a number, and the beginning of the record fills the room.
fn a_room_that_is_too_small<F: FileSystem>()
    ensures { (ctx : Context) (parent size : ℕ) (it : F.DirIter) (old new : F)
        (writer writer_after : Written) (result : Outcome ℕ (Option ℕ)) →
        (h : ReadsItems F.allows F.DirIter.gives ctx false parent size it old writer result new
        writer_after) →
        h.events ≡ Taken (Some file_a) ∷ [] → length writer.left ≡ 31 → 32 ≤ size →
        (result ≡ Err Nothing) × (writer_after.left ≡ []) }
{}
