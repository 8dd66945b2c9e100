//! A reading of a directory: what it held, in order.

ghost use Rattle.std.specs.Prelude.{◌≡◌, ◌<◌, IfOk, IfErr, Some, nat_lt, take};
ghost use Rattle.std.specs.List.{filter};
ghost use Rattle.vfs_flags.specs.Numbers.{enomem};
ghost use Rattle.vfs_files.specs.Values.{item, name_text};
ghost use Rattle.fs_nodes.specs.Listing.{dot_items, items_after};

use crate::children::Child;
use crate::node::Node;
use std::alloc::Global;
use std::ops::Bound;
use vfs_files::{CStr, DirEntry, EntryList};
use vfs_flags::Fault;

/// What `readdir(3)` calls a directory.
const DIRECTORY: u32 = 4;

/// How many bytes a record of a directory has at least.
const LEAST_RECORD: usize = 24;

/// What a directory holds after an offset, at most as much as `size` bytes of records have place
/// for. ENOMEM where there is no memory for it.
pub fn entries_after(
    alloc: Global,
    number: u64,
    directory: &Node,
    offset: u64,
    size: u32,
) -> Result<EntryList, Fault>
    ensures ok { IfOk result (λ items. items ≡ items_after number directory.now offset size) }
    ensures err { IfErr result (λ fault. fault ≡ Some enomem) }
{
    let most = size as usize / LEAST_RECORD + 1;
    let mut entries = dot_entries(alloc, number, directory.parent, offset, most)?;
    let following = (Bound::Excluded(offset), Bound::Unbounded);
    for (place, link) in directory.children.links().range(following) {
        if entries.len() >= most {
            break;
        }
        let Child { node, kind } = link.child;
        entries.push(DirEntry {
            ino: node,
            offset: *place,
            type_: kind.type_(),
            name: link.name.as_c_str(),
        })?;
    }
    Ok(entries)
}

// The entries of a directory itself and of the one above that lie after an offset, at most `most`.
// ENOMEM where there is no memory for them.
fn dot_entries(
    alloc: Global,
    number: u64,
    parent: u64,
    offset: u64,
    most: usize,
) -> Result<EntryList, Fault>
    requires { 0 < most }
    ensures ok { IfOk result (λ items. items ≡
        take most (filter (λ item. nat_lt offset item.offset) (dot_items number parent))) }
    ensures err { IfErr result (λ fault. fault ≡ Some enomem) }
{
    let mut entries = EntryList::new(alloc);
    if offset < 1 {
        entries.push(dot_entry(number, 1, CStr::before_nul(b".\0", 1)))?;
    }
    if offset < 2 && entries.len() < most {
        entries.push(dot_entry(parent, 2, CStr::before_nul(b"..\0", 2)))?;
    }
    Ok(entries)
}

// An entry of a directory.
fn dot_entry(ino: u64, offset: u64, name: CStr<'_>) -> DirEntry<'_>
    ensures { item result ≡ record {
      ino = ino;
      offset = offset;
      type_ = DIRECTORY;
      name = name_text name.entry;
    } }
{
    DirEntry {
        ino,
        offset,
        type_: DIRECTORY,
        name,
    }
}
