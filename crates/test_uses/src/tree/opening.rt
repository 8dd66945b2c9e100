//! What clients open, by requests or by themselves, and what they close.

ghost use Rattle.std.specs.Prelude.{◌≡◌, codes, None, Some, Ok, Err, MatchResult};
ghost use Rattle.vfs_flags.specs.Flags.{fs_options_bits, open_options_bits};
ghost use Rattle.vfs_files.specs.Answers.{Options, init_answer};
ghost use Rattle.test_uses.specs.Trees.{file_tree, later, of_client, small_tree, tree_of, wide, empty_file, hollow_file, written_later};

use crate::tree::support::root;
use fs_tree::TreeFs;
use std::time::Duration;
use vfs_files::{CStr, Entry, Extensions, FileSystem};
use vfs_flags::{Fault, FsOptions, OpenOptions, SetattrValid};
use vfs_wire::{Attr, SetattrIn};

/// INIT asks for READDIRPLUS as the client likes, DO_READDIRPLUS and READDIRPLUS_AUTO, that directories
/// are opened without a request, ZERO_MESSAGE_OPENDIR, and that the tree takes privileges,
/// HANDLE_KILLPRIV_V2; of a client that is to write later WRITEBACK_CACHE; and of one that offers
/// ZERO_MESSAGE_OPEN (0x20000), and not ATOMIC_O_TRUNC (8), that. What it offers is kept.
fn wanted(tree: &mut TreeFs, capable: FsOptions) -> Result<FsOptions, Fault>
    ensures now { tree.old ≡ small_tree → fs_options_bits capable ≡ 0x20008 →
        init_answer result ≡ Options 0x11006000 }
    ensures later { tree.old ≡ written_later small_tree → fs_options_bits capable ≡ 0x20008 →
        init_answer result ≡ Options 0x11016000 }
    ensures alone { tree.old ≡ small_tree → fs_options_bits capable ≡ 0x20000 →
        init_answer result ≡ Options 0x11026000 }
    ensures kept { tree.old ≡ small_tree →
        tree.new ≡ of_client (fs_options_bits capable) small_tree }
{
    tree.init(capable)
}

/// OPEN by a client that opens nothing: ENOSYS, of whatever node, and nothing changes.
fn not_opened(
    tree: &mut TreeFs,
    inode: u64,
    flags: u32,
) -> Result<(Option<u64>, OpenOptions), Fault>
    requires { tree.old ≡ of_client 0x20000 (file_tree wide (codes "hello")) }
    ensures refused { result ≡ Err (Some 38) }
    ensures same { tree.new ≡ tree.old }
{
    tree.open(root(), inode, false, flags)
}

/// OPEN with O_TRUNC (0o1000) by a client that leaves this to OPEN, ATOMIC_O_TRUNC: the bytes are gone.
fn opened_to_be_cut(tree: &mut TreeFs) -> Result<(Option<u64>, OpenOptions), Fault>
    requires { tree.old ≡ of_client 0x20008 (file_tree wide (codes "hello")) }
    ensures answer { MatchResult result
        (λ reply. (reply.0 ≡ None) × (open_options_bits reply.1 ≡ 0)) (λ _. ⊥) }
    ensures bytes { tree.new ≡ of_client 0x20008 (tree_of wide empty_file) }
{
    tree.open(root(), 2, false, 0o1000)
}

/// SETATTR of no bytes for an O_TRUNC by a client that opens nothing: the times of an empty file move.
fn cut_without_an_open(tree: &mut TreeFs) -> Result<(Attr, Duration), Fault>
    requires { tree.old ≡ of_client 0x20000 (later (tree_of wide empty_file)) }
    ensures { MatchResult result
        (λ reply. (reply.0.mtime ≡ 9) × (reply.0.ctime ≡ 9)) (λ _. ⊥) }
{
    tree.setattr(root(), 2, SetattrIn::default(), None, SetattrValid::SIZE)
}

/// SETATTR of the size that a file has, which holds no page, by such a client: it changes nothing, since
/// O_TRUNC sets no other size than 0.
fn as_long_without_an_open(tree: &mut TreeFs) -> Result<(Attr, Duration), Fault>
    requires { tree.old ≡ of_client 0x20000 (later (tree_of wide hollow_file)) }
    ensures { tree.new ≡ tree.old }
{
    let wanted = SetattrIn {
        size: 2,
        ..SetattrIn::default()
    };
    tree.setattr(root(), 2, wanted, None, SetattrValid::SIZE)
}

/// CREATE by a client that opens nothing: ENOSYS, so that it sends MKNOD, and nothing changes.
fn not_created(tree: &mut TreeFs) -> Result<(Entry, Option<u64>, OpenOptions), Fault>
    requires { tree.old ≡ of_client 0x20000 small_tree }
    ensures refused { result ≡ Err (Some 38) }
    ensures same { tree.new ≡ tree.old }
{
    let name = CStr::before_nul(b"f\0", 1);
    tree.create(root(), 1, name, 0o644, false, 0, 0, Extensions::none())
}

/// OPENDIR by a client that offered ZERO_MESSAGE_OPENDIR (0x1000000): ENOSYS, and nothing changes.
fn directory_not_opened(tree: &mut TreeFs) -> Result<(Option<u64>, OpenOptions), Fault>
    requires { tree.old ≡ of_client 0x1000000 small_tree }
    ensures refused { result ≡ Err (Some 38) }
    ensures same { tree.new ≡ tree.old }
{
    tree.opendir(root(), 1, 0)
}

/// OPENDIR by another one: what is read of a directory may be kept, CACHE_DIR and KEEP_CACHE, and there is
/// no handle.
fn directory_opened(tree: &mut TreeFs) -> Result<(Option<u64>, OpenOptions), Fault>
    requires { tree.old ≡ of_client 0x20000 small_tree }
    ensures told { MatchResult result
        (λ opened. (opened.0 ≡ None) × (open_options_bits opened.1 ≡ 10)) (λ _. ⊥) }
    ensures same { tree.new ≡ tree.old }
{
    tree.opendir(root(), 1, 0)
}

/// FSYNC, of whatever node: there is nothing to be brought anywhere, and nothing changes.
fn synced(tree: &mut TreeFs, inode: u64, datasync: bool, handle: u64) -> Result<(), Fault>
    ensures answer { result ≡ Ok tt }
    ensures same { tree.new ≡ tree.old }
{
    tree.fsync(root(), inode, datasync, handle)
}

/// FSYNCDIR, likewise.
fn directory_synced(tree: &mut TreeFs, inode: u64, datasync: bool, handle: u64) -> Result<(), Fault>
    ensures answer { result ≡ Ok tt }
    ensures same { tree.new ≡ tree.old }
{
    tree.fsyncdir(root(), inode, datasync, handle)
}

/// RELEASE, of whatever node: no handle was given out, so nothing changes; a lookup of it stays held.
fn closed(tree: &mut TreeFs, inode: u64, handle: u64, flush: bool) -> Result<(), Fault>
    ensures answer { result ≡ Ok tt }
    ensures same { tree.new ≡ tree.old }
{
    tree.release(root(), inode, 0, handle, flush, false, None)
}

/// RELEASEDIR, likewise.
fn directory_closed(tree: &mut TreeFs, inode: u64, handle: u64) -> Result<(), Fault>
    ensures answer { result ≡ Ok tt }
    ensures same { tree.new ≡ tree.old }
{
    tree.releasedir(root(), inode, 0, handle)
}
