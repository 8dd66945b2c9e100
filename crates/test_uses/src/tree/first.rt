//! The first calls of a new tree.

ghost use Rattle.std.specs.Prelude.{◌≡◌, codes, true, false, Err, Some, IfOk, IfSome};
ghost use Rattle.vfs_flags.specs.Numbers.{enoent, eisdir};
ghost use Rattle.vfs_files.specs.Answers.{Count, value_or_count};
ghost use Rattle.fs_nodes.specs.Listing.{dot_items};
ghost use Rattle.fs_nodes.specs.Children.{is_directory};
ghost use Rattle.fs_tree.specs.State.{node_at};
ghost use Rattle.test_uses.specs.Trees.{empty_directory, empty_file, small_tree, with_one};

use crate::tree::support::root;
use bitflags::Flags;
use fs_tree::{Capacity, Time, TreeFs};
use std::alloc::Global;
use vfs_files::{CStr, Context, Entry, EntryList, Extensions, FileSystem, GetxattrReply};
use vfs_flags::{Fault, GuestGid, GuestUid, SetattrValid, SetxattrFlags};
use vfs_wire::SetattrIn;

/// A new tree of at most a hundred nodes and two pages. `None` where there is no memory.
fn new_tree(alloc: Global) -> Option<TreeFs>
    ensures { IfSome result (λ tree. tree ≡ small_tree) }
{
    let limits = Capacity {
        nodes: 100,
        bytes: 8192,
        file: 1000,
    };
    let now = Time {
        seconds: 7,
        nanoseconds: 0,
    };
    let (uid, gid) = (GuestUid::from(0), GuestGid::from(0));
    TreeFs::new(alloc, uid, gid, 0o755, limits, false, now).ok()
}

/// Of a new tree no name leads anywhere.
fn nothing_is_there(tree: &mut TreeFs, ctx: Context) -> Result<Entry, Fault>
    requires { tree.old ≡ small_tree }
    ensures answer { result ≡ Err (Some enoent) }
    ensures same { tree.new ≡ tree.old }
{
    tree.lookup(ctx, 1, CStr::before_nul(b"d\0", 1))
}

/// A first directory is node 2, and has two links.
fn first_directory(tree: &mut TreeFs, ctx: Context) -> Result<Entry, Fault>
    requires { tree.old ≡ small_tree }
    ensures node { IfOk result (λ entry. entry.inode ≡ 2) }
    ensures mode { IfOk result (λ entry. entry.attr.mode ≡ 0o40755) }
    ensures links { IfOk result (λ entry. entry.attr.nlink ≡ 2) }
    ensures time { IfOk result (λ entry. entry.attr.mtime ≡ 7) }
{
    let plain = Extensions {
        secctx: None,
        sup_gid: None,
    };
    tree.mkdir(ctx, 1, CStr::before_nul(b"d\0", 1), 0o755, 0, plain)
}

/// What is made is found, by its number.
fn made_and_found(tree: &mut TreeFs) -> Result<Entry, Fault>
    requires { tree.old ≡ small_tree }
    ensures { IfOk result (λ entry. entry.inode ≡ 2) }
{
    let none = Extensions {
        secctx: None,
        sup_gid: None,
    };
    tree.mkdir(root(), 1, CStr::before_nul(b"d\0", 1), 0o755, 0, none)?;
    tree.lookup(root(), 1, CStr::before_nul(b"d\0", 1))
}

/// A name is not given twice: `Ok` only where there was no memory for the first.
fn made_twice(tree: &mut TreeFs) -> Result<Entry, Fault>
    requires { tree.old ≡ small_tree }
    ensures { IfOk result (λ entry. ⊥) }
{
    let first = Extensions {
        secctx: None,
        sup_gid: None,
    };
    let second = Extensions {
        secctx: None,
        sup_gid: None,
    };
    tree.mkdir(root(), 1, CStr::before_nul(b"d\0", 1), 0o755, 0, first)?;
    tree.mkdir(root(), 1, CStr::before_nul(b"d\0", 1), 0o755, 0, second)
}

/// A directory is no file.
fn directory_is_no_file(tree: &mut TreeFs) -> Option<Fault>
    requires { tree.old ≡ small_tree }
    ensures { IfSome result (λ fault. fault ≡ Some eisdir) }
{
    let none = Extensions {
        secctx: None,
        sup_gid: None,
    };
    tree.mkdir(root(), 1, CStr::before_nul(b"d\0", 1), 0o755, 0, none)
        .ok()?;
    tree.unlink(root(), 1, CStr::before_nul(b"d\0", 1)).err()
}

/// A directory that was taken out is gone once its lookup is given back.
fn taken_out_and_forgotten(tree: &mut TreeFs) -> Option<bool>
    requires { tree.old ≡ small_tree }
    ensures { IfSome result (λ gone. gone ≡ true) }
{
    directory_is_made(tree)?;
    tree.rmdir(root(), 1, CStr::before_nul(b"d\0", 1)).ok()?;
    tree.forget(root(), 2, 1);
    Some(tree.getattr(root(), 2, None).is_err())
}

/// A directory is made.
fn directory_is_made(tree: &mut TreeFs) -> Option<()>
    requires { tree.old ≡ small_tree }
    ensures { IfSome result (λ _. tree.new ≡ with_one (codes "d") empty_directory) }
{
    let none = Extensions {
        secctx: None,
        sup_gid: None,
    };
    let name = CStr::before_nul(b"d\0", 1);
    tree.mkdir(root(), 1, name, 0o755, 0, none).ok()?;
    Some(())
}

/// A second name of a file.
fn second_name(tree: &mut TreeFs) -> Result<Entry, Fault>
    requires { tree.old ≡ small_tree }
    ensures { IfOk result (λ entry. entry.attr.nlink ≡ 2) }
{
    let none = Extensions {
        secctx: None,
        sup_gid: None,
    };
    tree.create(
        root(),
        1,
        CStr::before_nul(b"f\0", 1),
        0o644,
        false,
        0,
        0,
        none,
    )?;
    tree.link(root(), 2, 1, CStr::before_nul(b"g\0", 1))
}

/// Under its old name a directory that was moved is not found.
fn moved(tree: &mut TreeFs) -> Result<Entry, Fault>
    requires { tree.old ≡ small_tree }
    ensures { IfOk result (λ entry. ⊥) }
{
    let none = Extensions {
        secctx: None,
        sup_gid: None,
    };
    tree.mkdir(root(), 1, CStr::before_nul(b"d\0", 1), 0o755, 0, none)?;
    tree.rename(
        root(),
        1,
        CStr::before_nul(b"d\0", 1),
        1,
        CStr::before_nul(b"e\0", 1),
        0,
    )?;
    tree.lookup(root(), 1, CStr::before_nul(b"d\0", 1))
}

/// Of a new tree 99 nodes are free.
fn free_nodes(tree: &mut TreeFs) -> u64
    requires { tree.old ≡ small_tree }
    ensures { result ≡ 99 }
{
    match tree.statfs(root(), 1) {
        Ok(statistics) => statistics.f_ffree,
        Err(_) => 99,
    }
}

/// A file that was cut to ten bytes has ten.
fn ten_bytes(tree: &mut TreeFs) -> Option<u64>
    requires { tree.old ≡ small_tree }
    ensures { IfSome result (λ size. size ≡ 10) }
{
    let none = Extensions {
        secctx: None,
        sup_gid: None,
    };
    let name = CStr::before_nul(b"f\0", 1);
    tree.create(root(), 1, name, 0o644, false, 0, 0, none).ok()?;
    let wanted = SetattrIn {
        size: 10,
        ..SetattrIn::default()
    };
    let (attr, _) = tree
        .setattr(root(), 2, wanted, None, SetattrValid::SIZE)
        .ok()?;
    Some(attr.size)
}

/// A symbolic link has its text.
fn text_of_a_link(tree: &mut TreeFs) -> Option<Vec<u8>>
    requires { tree.old ≡ small_tree }
    ensures { IfSome result (λ text. text.items ≡ codes "to") }
{
    let none = Extensions {
        secctx: None,
        sup_gid: None,
    };
    let text = CStr::before_nul(b"to\0", 2);
    tree.symlink(root(), text, 1, CStr::before_nul(b"l\0", 1), none)
        .ok()?;
    tree.readlink(root(), 2).ok()
}

/// A file whose name was taken out is there, without a link, while its lookup is held.
fn held_without_a_name(tree: &mut TreeFs) -> Option<u32>
    requires { tree.old ≡ small_tree }
    ensures { IfSome result (λ links. links ≡ 0) }
{
    name_taken_out(tree)?;
    let (attr, _) = tree.getattr(root(), 2, None).ok()?;
    Some(attr.nlink)
}

/// A file is made, and its name taken out: none leads to it.
fn name_taken_out(tree: &mut TreeFs) -> Option<()>
    requires { tree.old ≡ small_tree }
    ensures { IfSome result (λ _. IfSome (node_at tree.new 2) (λ node.
        (node.names ≡ 0) × (is_directory node.kind ≡ false))) }
{
    file_is_made(tree)?;
    tree.unlink(root(), 1, CStr::before_nul(b"f\0", 1)).ok()
}

/// A file is made.
fn file_is_made(tree: &mut TreeFs) -> Option<()>
    requires { tree.old ≡ small_tree }
    ensures { IfSome result (λ _. tree.new ≡ with_one (codes "f") empty_file) }
{
    let none = Extensions {
        secctx: None,
        sup_gid: None,
    };
    let name = CStr::before_nul(b"f\0", 1);
    tree.create(root(), 1, name, 0o644, false, 0, 0, none).ok()?;
    Some(())
}

/// The value of an extended attribute of the root.
fn value_of_an_attribute(tree: &mut TreeFs) -> Option<GetxattrReply>
    requires { tree.old ≡ small_tree }
    ensures { IfSome result (λ reply. value_or_count reply ≡ Count 2) }
{
    let none = SetxattrFlags::empty();
    tree.setxattr(root(), 1, CStr::before_nul(b"user.a\0", 6), b"on", 0, none)
        .ok()?;
    tree.getxattr(root(), 1, CStr::before_nul(b"user.a\0", 6), 0)
        .ok()
}

/// What is read of a new tree's root: itself, twice.
fn root_is_read(tree: &mut TreeFs) -> Option<EntryList>
    requires { tree.old ≡ small_tree }
    ensures { IfSome result (λ items. items ≡ dot_items 1 1) }
{
    tree.readdir(root(), 1, 0, 4096, 0).ok()
}
