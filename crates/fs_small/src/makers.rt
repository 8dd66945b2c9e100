//! Makers of what file systems tell of their nodes.

ghost use Rattle.std.specs.Prelude.{◌≡◌, ◌<◌, Some, IsSome, IfSome, length, position};
ghost use Rattle.std.specs.Str.{bytes_eq};
ghost use Rattle.vfs_files.specs.Values.{name_of, name_text};
ghost use Rattle.fs_small.specs.Makers as makers;

use crate::tree::TreeItem;
use std::time::Duration;
use vfs_files::{CStr, Entry};
use vfs_flags::{DT_DIR, DT_REG, GuestGid, GuestUid, S_IFDIR, S_IFREG};
use vfs_wire::Attr;

/// How long a client may rely on an answer.
pub(crate) const TIMEOUT_SECONDS: u64 = 1;

/// The first place of a name in a list of names, counted from 0.
pub fn name_position(names: &[&[u8]], name: &[u8]) -> Option<usize>
    ensures place { result ≡ position (λ other. bytes_eq other.now name.now) names.now }
    ensures within { IfSome result (λ place. place < length names.now) }
{
    names.iter().position(|other| *other == name)
}

/// The name in these bytes, which are its text and a 0.
pub fn name_in(bytes: &[u8]) -> CStr<'_>
    requires { IsSome (name_of bytes.now) }
    ensures { name_of bytes.now ≡ Some (name_text result) }
{
    match CStr::from_bytes_with_nul(bytes) {
        Some(name) => name,
        None => unreachable!(),
    }
}

/// A directory of this name, which is in `name` with a 0 after it.
pub fn directory_item(node: u64, name: &[u8]) -> TreeItem<'_>
    requires { IsSome (name_of name.now) }
    ensures node { result.node ≡ node }
    ensures kind { result.kind ≡ 4 }
    ensures name { name_of name.now ≡ Some (name_text result.name) }
{
    TreeItem {
        node,
        kind: DT_DIR,
        name: name_in(name),
    }
}

/// A file of this name, which is in `name` with a 0 after it.
pub fn file_item(node: u64, name: &[u8]) -> TreeItem<'_>
    requires { IsSome (name_of name.now) }
    ensures node { result.node ≡ node }
    ensures kind { result.kind ≡ 8 }
    ensures name { name_of name.now ≡ Some (name_text result.name) }
{
    TreeItem {
        node,
        kind: DT_REG,
        name: name_in(name),
    }
}

/// The attributes of a directory that all may read and search, with that many names: 2, and one more
/// for each directory in it.
pub fn directory_attr(node: u64, nlink: u32) -> Attr
    ensures { result ≡ makers.directory_attr node nlink }
{
    node_attr(node, S_IFDIR | 0o555, nlink, 0)
}

/// The attributes of a file of that many bytes that all may read, with one name.
pub fn file_attr(node: u64, size: u64) -> Attr
    ensures { result ≡ makers.file_attr node size }
{
    node_attr(node, S_IFREG | 0o444, 1, size)
}

/// The attributes of a node of this kind and permissions, with that many names and bytes. It belongs
/// to user and group 0, and all its times are 0.
#[inline(always)]
pub fn node_attr(node: u64, mode: u32, nlink: u32, size: u64) -> Attr
    ensures { result ≡ makers.attr_of node mode nlink size }
{
    // Each field is written once: zeros that others are written over cost a wait.
    Attr {
        ino: node,
        size,
        blocks: 0,
        atime: 0,
        mtime: 0,
        ctime: 0,
        atimensec: 0,
        mtimensec: 0,
        ctimensec: 0,
        mode,
        nlink,
        uid: GuestUid::from(0),
        gid: GuestGid::from(0),
        rdev: 0,
        blksize: 4096,
        flags: 0,
    }
}

/// The entry of a node with these attributes, which a client may rely on for a second.
#[inline(always)]
pub fn node_entry(node: u64, attr: Attr) -> Entry
    ensures { makers.IsEntryOf node attr result }
{
    Entry {
        inode: node,
        generation: 0,
        attr,
        attr_timeout: Duration::from_secs(TIMEOUT_SECONDS),
        entry_timeout: Duration::from_secs(TIMEOUT_SECONDS),
    }
}
