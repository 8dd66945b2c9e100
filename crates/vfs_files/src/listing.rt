//! Items of a directory in memory, for a file system that keeps no iterator of its own.

ghost use Rattle.std.specs.Prelude.{◌≡◌, ◌++◌, ◌∷◌, [], length, IfErr, OnOk};
ghost use Rattle.vfs_files.specs.Calls.{out_of_memory};
ghost use Rattle.vfs_files.specs.Values.{item};

use crate::directory::{DirEntry, DirectoryIterator};
use crate::name::CStr;
use std::alloc::Global;
use std::marker::Model;
use vfs_flags::{Errno, Fault};

// An item, but for its name: that is before `end`, from the end of the name before it on.
#[derive(Clone, Copy)]
struct Kept {
    ino: u64,
    offset: u64,
    type_: u32,
    end: usize,
}

/// Items of a directory with names in memory of their own.
///
/// A file system that answers a [`readdir`](crate::FileSystem::readdir) adds the items in order,
/// and hands the list back: as an iterator it gives each of them once, and then the end. What
/// happens in the directory meanwhile does not change it.
///
/// All names lie in one vector, one after the other, so that an item takes no allocation of its
/// own.
#[derive(Drop)]
pub struct EntryList {
    names: Vec<u8>,
    entries: Vec<Kept>,
    // How many items were given.
    given: usize,
    // Where the name of the next one begins.
    begin: usize,
}

impl Model for EntryList {
    ghost use Rattle.std.specs.Prelude.{List, drop};
    ghost use Rattle.vfs_files.specs.Values.{Item};
    ghost use Rattle.vfs_files.specs.Listing.{IsEntryList, items_from};

    ghost Value = { List Item };

    ghost view = { λ list.
        items_from list.begin list.names.items (drop list.given list.entries.items) };

    ghost invariant = { λ list.
        IsEntryList list.names.items list.entries.items list.given list.begin };
}

impl EntryList {
    /// A list without items.
    pub fn new(alloc: Global) -> EntryList
        ensures { result ≡ [] }
    {
        EntryList {
            names: Vec::new(alloc),
            entries: Vec::new(alloc),
            given: 0,
            begin: 0,
        }
    }

    /// How many items are left to give.
    pub fn len(&self) -> usize
        ensures { result ≡ length self.now }
    {
        self.entries.len() - self.given
    }

    /// Adds an item after the others, with a copy of its name. `Errno::ENOMEM` where there is no
    /// memory for it: then the list stays.
    pub fn push(&mut self, added: DirEntry<'_>) -> Result<(), Fault>
        ensures ok { OnOk result (self.new ≡ self.old ++ item added.entry ∷ []) }
        ensures err { IfErr result (λ fault. (fault ≡ out_of_memory) × (self.new ≡ self.old)) }
    {
        let before = self.names.len();
        if self.names.extend_from_slice(added.name.to_bytes()).is_err() {
            return Err(Some(Errno::ENOMEM));
        }
        let kept = Kept {
            ino: added.ino,
            offset: added.offset,
            type_: added.type_,
            end: self.names.len(),
        };
        if self.entries.push(kept).is_err() {
            self.names.truncate(before);
            return Err(Some(Errno::ENOMEM));
        }
        Ok(())
    }
}

impl DirectoryIterator for EntryList {
    ghost use Rattle.vfs_files.specs.Listing.{GivesFirst};

    ghost gives = { GivesFirst };

    fn next(&mut self) -> Option<DirEntry<'_>> {
        if self.given >= self.entries.len() {
            return None;
        }
        let kept = self.entries[self.given];
        let begin = self.begin;
        self.given += 1;
        self.begin = kept.end;
        Some(DirEntry {
            ino: kept.ino,
            offset: kept.offset,
            type_: kept.type_,
            name: CStr::of_text(&self.names[begin..kept.end]),
        })
    }
}
