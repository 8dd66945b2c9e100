//! A directory for tests, whose items its maker lists, and whose takings are counted.

ghost use Rattle.std.specs.Prelude.{◌≡◌, [], IfOk, IfErr, if◌then◌else◌};
ghost use Rattle.vfs_files.specs.Calls.{out_of_memory};
ghost use Rattle.vfs_bench.specs.Directories.{items_said};

use crate::FsResult;
use std::alloc::Global;
use std::cell::Cell;
use std::marker::Model;
use std::rc::Rc;
use vfs_files::{CString, DirEntry, DirectoryIterator};
use vfs_flags::Errno;

/// An item of a directory.
#[derive(Drop)]
pub struct ScriptItem {
    /// The number of the node.
    pub ino: u64,
    /// Where a reading that goes on after the item begins.
    pub offset: u64,
    /// The kind of file, as the `d_type` of `readdir(3)`.
    pub type_: u32,
    /// The name.
    pub name: CString,
}

/// What a directory and its readings share.
#[derive(Drop)]
struct SharedItems {
    items: Vec<ScriptItem>,
    endless: bool,
    takings: Cell<u64>,
}

/// A directory with the items that its maker lists.
///
/// Each reading of it begins at the first item, and shares the items with it, so that a reading
/// copies none of them. Contracts see a directory as a reading that begins.
#[derive(Drop)]
pub struct ScriptDirectory {
    listing: Rc<SharedItems>,
}

impl Model for ScriptDirectory {
    ghost use Rattle.std.specs.Prelude.{[], if◌then◌else◌};
    ghost use Rattle.vfs_bench.specs.Directories.{Reading};

    ghost Value = { Reading };

    ghost use Rattle.vfs_bench.specs.Directories.{items_said};

    ghost view = { λ d. record {
      left = items_said d.listing.value.items.items;
      again = if d.listing.value.endless then items_said d.listing.value.items.items else [];
    } };
}

impl ScriptDirectory {
    /// A directory of these items, which ends after the last. Want of memory is ENOMEM.
    pub fn new(alloc: Global, items: Vec<ScriptItem>) -> FsResult<ScriptDirectory>
        ensures made { IfOk result (λ directory. directory ≡ record {
          left = items_said items.items;
          again = [];
        }) }
        ensures memory { IfErr result (λ fault. fault ≡ out_of_memory) }
    {
        ScriptDirectory::of(alloc, items, false)
    }

    /// A directory without end: after the last item the first one comes again. Without an item it
    /// ends all the same. Want of memory is ENOMEM.
    pub fn endless(alloc: Global, items: Vec<ScriptItem>) -> FsResult<ScriptDirectory>
        ensures made { IfOk result (λ directory. directory ≡ record {
          left = items_said items.items;
          again = items_said items.items;
        }) }
        ensures memory { IfErr result (λ fault. fault ≡ out_of_memory) }
    {
        ScriptDirectory::of(alloc, items, true)
    }

    /// The directory, which need not end.
    fn of(alloc: Global, items: Vec<ScriptItem>, endless: bool) -> FsResult<ScriptDirectory>
        ensures made { IfOk result (λ directory. directory ≡ record {
          left = items_said items.items;
          again = if endless then items_said items.items else [];
        }) }
        ensures memory { IfErr result (λ fault. fault ≡ out_of_memory) }
    {
        let listing = SharedItems {
            items,
            endless,
            takings: Cell::new(0),
        };
        match Rc::new(alloc, listing) {
            Ok(listing) => Ok(ScriptDirectory { listing }),
            Err(_) => Err(Some(Errno::ENOMEM)),
        }
    }

    /// How often an entry was asked for in all readings together, the ends too: at most
    /// `u64::MAX`.
    pub fn takings(&self) -> u64 {
        self.listing.takings.get()
    }

    /// A reading from the first item on. Want of memory is ENOMEM.
    pub fn entries(&self) -> FsResult<ScriptEntries>
        ensures begun { IfOk result (λ entries. entries ≡ self.now) }
        ensures memory { IfErr result (λ fault. fault ≡ out_of_memory) }
    {
        match self.listing.clone() {
            Ok(listing) => Ok(ScriptEntries { listing, place: 0 }),
            Err(_) => Err(Some(Errno::ENOMEM)),
        }
    }
}

/// A reading of a [`ScriptDirectory`].
#[derive(Drop)]
pub struct ScriptEntries {
    listing: Rc<SharedItems>,
    place: usize,
}

impl Model for ScriptEntries {
    ghost use Rattle.std.specs.Prelude.{[], ◌≤◌, drop, length, if◌then◌else◌};
    ghost use Rattle.vfs_bench.specs.Directories.{Reading};

    ghost Value = { Reading };

    ghost use Rattle.vfs_bench.specs.Directories.{items_said};

    ghost view = { λ e. record {
      left = items_said (drop e.place e.listing.value.items.items);
      again = if e.listing.value.endless then items_said e.listing.value.items.items else [];
    } };

    ghost invariant = { λ e. e.place ≤ length e.listing.value.items.items };
}

impl DirectoryIterator for ScriptEntries {
    ghost use Rattle.vfs_bench.specs.Directories.{GivesNext};

    ghost gives = { GivesNext };

    fn next(&mut self) -> Option<DirEntry<'_>> {
        count(&self.listing.takings);
        if self.place == self.listing.items.len() && self.listing.endless {
            self.place = 0;
        }
        let item = self.listing.items.get(self.place)?;
        self.place += 1;
        Some(DirEntry {
            ino: item.ino,
            offset: item.offset,
            type_: item.type_,
            name: item.name.as_c_str(),
        })
    }
}

/// Counts one more.
fn count(takings: &Cell<u64>) {
    takings.set(takings.get().saturating_add(1));
}
