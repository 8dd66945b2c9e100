//! A reading of the root: what it holds, in order.

ghost use Rattle.std.specs.Prelude.{◌≡◌, ◌+◌, ◌<◌, drop, length, slice_get, Some, MatchResult};
ghost use Rattle.vfs_flags.specs.Numbers.{enomem};
ghost use Rattle.vfs_files.specs.Values.{item, name_text};
ghost use Rattle.fs_small.specs.MemFs.{root_item, file_item, root_items};

use super::File;
use std::alloc::Global;
use vfs_files::{CStr, DirEntry, EntryList};
use vfs_flags::{Fault, ROOT_ID};

/// What `readdir(3)` calls a directory.
const DIRECTORY: u32 = 4;

/// What `readdir(3)` calls a file with contents.
const REGULAR_FILE: u32 = 8;

/// Of a root with these files all entries but the first `offset`. ENOMEM where there is no memory
/// for them, and no other fault.
pub(super) fn root_entries(alloc: Global, files: &[File], offset: u64) -> Result<EntryList, Fault>
    ensures { MatchResult result
        (λ items. items ≡ drop offset (root_items files.now))
        (λ fault. fault ≡ Some enomem) }
{
    let mut entries = EntryList::new(alloc);
    // `.` and `..` come before the files.
    let end = files.len() as u64 + 2;
    for place in offset..end {
        entries.push(entry_at(files, place))?;
    }
    Ok(entries)
}

// The entry at this place of a root with these files: `.`, `..`, or a file.
fn entry_at(files: &[File], place: u64) -> DirEntry<'_>
    requires { place < length files.now + 2 }
    ensures { slice_get (root_items files.now) place ≡ Some (item result) }
{
    match place {
        0 => root_entry(1, CStr::before_nul(b".\0", 1)),
        1 => root_entry(2, CStr::before_nul(b"..\0", 2)),
        _ => file_entry(place + 1, &files[place as usize - 2]),
    }
}

// An entry that leads to the root itself.
fn root_entry(offset: u64, name: CStr<'_>) -> DirEntry<'_>
    ensures { item result ≡ root_item offset (name_text name.entry) }
{
    DirEntry {
        ino: ROOT_ID,
        offset,
        type_: DIRECTORY,
        name,
    }
}

// The entry of a file.
fn file_entry(offset: u64, file: &File) -> DirEntry<'_>
    ensures { item result ≡ file_item offset file.now }
{
    DirEntry {
        ino: file.node,
        offset,
        type_: REGULAR_FILE,
        name: file.name.as_c_str(),
    }
}
