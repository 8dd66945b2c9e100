//! Attributes and entries: what they say, and for how long.

ghost use Rattle.std.specs.Prelude.{◌≡◌, codes, None, Some, Err, IfOk, MatchResult};
ghost use Rattle.std.specs.Duration.{as_nanos};
ghost use Rattle.vfs_flags.specs.Flags.{open_options_bits};
ghost use Rattle.test_uses.specs.Trees.{file_of, file_tree, small_tree, tree_of, wide};

use crate::tree::support::root;
use fs_tree::TreeFs;
use std::time::Duration;
use vfs_files::{CStr, Entry, Extensions, FileSystem};
use vfs_flags::{Fault, GuestGid, GuestUid, OpenOptions, SetattrValid};
use vfs_wire::{Attr, SetattrIn};

/// GETATTR of a file: what it is, which a client may rely on for a day.
fn attributes_for_a_day(tree: &mut TreeFs) -> Result<(Attr, Duration), Fault>
    requires { tree.old ≡ file_tree wide (codes "hello") }
    ensures { MatchResult result
        (λ reply. (reply.0.ino ≡ 2) × (reply.0.size ≡ 5) × (reply.0.blocks ≡ 8)
        × (reply.0.mode ≡ 0o100644) × (as_nanos reply.1 ≡ 86400000000000))
        (λ _. ⊥) }
{
    tree.getattr(root(), 2, None)
}

/// LOOKUP of a file: its entry, which a client may rely on for a day. It wants no memory.
fn entry_for_a_day(tree: &mut TreeFs) -> Result<Entry, Fault>
    requires { tree.old ≡ file_tree wide (codes "hello") }
    ensures entry { MatchResult result
        (λ entry. (entry.inode ≡ 2) × (entry.generation ≡ 0) × (entry.attr.size ≡ 5))
        (λ _. ⊥) }
    ensures day { IfOk result (λ entry. (as_nanos entry.attr_timeout ≡ 86400000000000)
        × (as_nanos entry.entry_timeout ≡ 86400000000000)) }
{
    tree.lookup(root(), 1, CStr::before_nul(b"f\0", 1))
}

/// CREATE: an entry likewise, with no handle and no options. Memory alone can be wanting.
fn created(tree: &mut TreeFs) -> Result<(Entry, Option<u64>, OpenOptions), Fault>
    requires { tree.old ≡ small_tree }
    ensures entry { MatchResult result
        (λ made. (made.0.inode ≡ 2) × (made.0.generation ≡ 0) × (made.1 ≡ None)
        × (open_options_bits made.2 ≡ 0))
        (λ fault. fault ≡ Some 12) }
    ensures day { IfOk result (λ made. (as_nanos made.0.attr_timeout ≡ 86400000000000)
        × (as_nanos made.0.entry_timeout ≡ 86400000000000)) }
{
    let name = CStr::before_nul(b"f\0", 1);
    tree.create(root(), 1, name, 0o644, false, 0, 0, Extensions::none())
}

/// MKNOD of a character device: it shows its number. Memory alone can be wanting.
fn device(tree: &mut TreeFs) -> Result<Entry, Fault>
    requires { tree.old ≡ small_tree }
    ensures { MatchResult result
        (λ entry. (entry.attr.mode ≡ 0o20600) × (entry.attr.rdev ≡ 0x103))
        (λ fault. fault ≡ Some 12) }
{
    let name = CStr::before_nul(b"c\0", 1);
    tree.mknod(root(), 1, name, 0o20600, 0x103, 0, Extensions::none())
}

/// MKNOD of a FIFO: it has no number.
fn pipe(tree: &mut TreeFs) -> Result<Entry, Fault>
    requires { tree.old ≡ small_tree }
    ensures { MatchResult result
        (λ entry. (entry.attr.mode ≡ 0o10644) × (entry.attr.rdev ≡ 0))
        (λ fault. fault ≡ Some 12) }
{
    let name = CStr::before_nul(b"p\0", 1);
    tree.mknod(root(), 1, name, 0o10644, 5, 0, Extensions::none())
}

/// MKNOD of a directory: EPERM, and nothing changes.
fn directory_by_mknod(tree: &mut TreeFs) -> Result<Entry, Fault>
    requires { tree.old ≡ small_tree }
    ensures refused { result ≡ Err (Some 1) }
    ensures same { tree.new ≡ tree.old }
{
    let name = CStr::before_nul(b"d\0", 1);
    tree.mknod(root(), 1, name, 0o40700, 0, 0, Extensions::none())
}

/// SETATTR of the permission bits, the owner, the group and the two times: it wants no memory, and
/// what is not set stays.
fn attributes_are_set(tree: &mut TreeFs) -> Result<(Attr, Duration), Fault>
    requires { tree.old ≡ file_tree wide (codes "hello") }
    ensures owner { MatchResult result
        (λ reply. (reply.0.mode ≡ 0o100600) × (reply.0.uid ≡ 8) × (reply.0.gid ≡ 9)
        × (reply.0.size ≡ 5))
        (λ _. ⊥) }
    ensures times { IfOk result (λ reply. (reply.0.atime ≡ 3) × (reply.0.mtime ≡ 4)
        × (reply.0.mtimensec ≡ 5) × (reply.0.ctime ≡ 7)) }
{
    let wanted = SetattrIn {
        mode: 0o600,
        uid: GuestUid::from(8),
        gid: GuestGid::from(9),
        atime: 3,
        mtime: 4,
        mtimensec: 5,
        ..SetattrIn::default()
    };
    let valid = SetattrValid::MODE
        | SetattrValid::UID
        | SetattrValid::GID
        | SetattrValid::ATIME
        | SetattrValid::MTIME;
    tree.setattr(root(), 2, wanted, None, valid)
}

/// SETATTR of the permission bits alone changes these, and no memory is wanted.
fn mode_is_set(tree: &mut TreeFs) -> Result<(Attr, Duration), Fault>
    requires { tree.old ≡ file_tree wide (codes "hello") }
    ensures told { MatchResult result (λ reply. reply.0.mode ≡ 0o104711) (λ _. ⊥) }
    ensures set { tree.new ≡
        tree_of wide (record (file_of (codes "hello")) { permissions = 0o4711 }) }
{
    let wanted = SetattrIn {
        mode: 0o4711,
        ..SetattrIn::default()
    };
    tree.setattr(root(), 2, wanted, None, SetattrValid::MODE)
}
