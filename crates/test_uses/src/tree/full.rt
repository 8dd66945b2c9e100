//! The limits of a tree, each reached.

ghost use Rattle.std.specs.Prelude.{◌≡◌, false, codes, Ok, Err, Some};
ghost use Rattle.fs_tree.specs.Tree.{first_state};
ghost use Rattle.test_uses.specs.Trees.{file_tree, narrow, pair, second_7, short, single};

use crate::tree::support::root;
use bitflags::Flags;
use fs_tree::TreeFs;
use std::time::Duration;
use vfs_files::{CStr, Entry, Extensions, FileSystem, ZeroCopyReader};
use vfs_flags::{Fault, SetattrValid, SetxattrFlags};
use vfs_wire::{Attr, SetattrIn};

/// WRITE of three bytes where a file may become longer by one: that one is written.
#[tactic(auto, unfolding(vfs_segments::specs::Memory::with_bytes_at))]
fn written_to_the_limit<R: ZeroCopyReader>(tree: &mut TreeFs, r: &mut R) -> Result<u32, Fault>
    requires tree { tree.old ≡ file_tree short (codes "hello") }
    requires bytes { R.left r.old ≡ codes "HEY" }
    ensures answer { result ≡ Ok 1 }
    ensures bytes { tree.new ≡ file_tree short (codes "helloH") }
{
    tree.write(root(), 2, 0, r, 3, 5, None, false, false, 0)
}

/// WRITE of three bytes into a page that is held, where there is room for no other: they are written.
#[tactic(auto, unfolding(vfs_segments::specs::Memory::with_bytes_at))]
fn written_without_room<R: ZeroCopyReader>(tree: &mut TreeFs, r: &mut R) -> Result<u32, Fault>
    requires tree { tree.old ≡ file_tree narrow (codes "hello") }
    requires bytes { R.left r.old ≡ codes "HEY" }
    ensures answer { result ≡ Ok 3 }
    ensures bytes { tree.new ≡ file_tree narrow (codes "helloHEY") }
{
    tree.write(root(), 2, 0, r, 3, 5, None, false, false, 0)
}

/// WRITE after the last byte that a file may have: EFBIG.
fn written_past_the_limit<R: ZeroCopyReader>(tree: &mut TreeFs, r: &mut R) -> Result<u32, Fault>
    requires { tree.old ≡ file_tree short (codes "hello") }
    ensures refused { result ≡ Err (Some 27) }
    ensures same { tree.new ≡ tree.old }
{
    tree.write(root(), 2, 0, r, 3, 6, None, false, false, 0)
}

/// WRITE after the last page that there is room for: ENOSPC.
fn written_past_the_room<R: ZeroCopyReader>(tree: &mut TreeFs, r: &mut R) -> Result<u32, Fault>
    requires { tree.old ≡ file_tree narrow (codes "hello") }
    ensures refused { result ≡ Err (Some 28) }
    ensures same { tree.new ≡ tree.old }
{
    tree.write(root(), 2, 0, r, 3, 4096, None, false, false, 0)
}

/// SETATTR of a size of seven bytes: EFBIG past the limit of a file.
fn seven_bytes(tree: &mut TreeFs) -> Result<(Attr, Duration), Fault>
    requires { tree.old ≡ file_tree short (codes "hello") }
    ensures refused { result ≡ Err (Some 27) }
    ensures same { tree.new ≡ tree.old }
{
    let wanted = SetattrIn {
        size: 7,
        ..SetattrIn::default()
    };
    tree.setattr(root(), 2, wanted, None, SetattrValid::SIZE)
}

/// FALLOCATE of a byte of a second page: EFBIG past the limit of a file, ENOSPC past the room.
fn place_for_a_page(tree: &mut TreeFs) -> Result<(), Fault>
    ensures limit { tree.old ≡ file_tree short (codes "hello") → result ≡ Err (Some 27) }
    ensures room { tree.old ≡ file_tree narrow (codes "hello") → result ≡ Err (Some 28) }
{
    tree.fallocate(root(), 2, 0, 0, 4096, 1)
}

/// FALLOCATE of a zero there (FALLOC_FL_ZERO_RANGE and FALLOC_FL_KEEP_SIZE, 17): the same, since it has a page.
fn zero_for_a_page(tree: &mut TreeFs) -> Result<(), Fault>
    ensures limit { tree.old ≡ file_tree short (codes "hello") → result ≡ Err (Some 27) }
    ensures room { tree.old ≡ file_tree narrow (codes "hello") → result ≡ Err (Some 28) }
{
    tree.fallocate(root(), 2, 0, 17, 4096, 1)
}

/// SYMLINK of two bytes, where there is room for one: ENOSPC.
fn text_without_room(tree: &mut TreeFs) -> Result<Entry, Fault>
    requires { tree.old ≡ file_tree narrow (codes "hello") }
    ensures refused { result ≡ Err (Some 28) }
    ensures same { tree.new ≡ tree.old }
{
    let text = CStr::before_nul(b"to\0", 2);
    tree.symlink(
        root(),
        text,
        1,
        CStr::before_nul(b"l\0", 1),
        Extensions::none(),
    )
}

/// MKDIR where the root is the only node that there may be: ENOSPC.
fn no_second_node(tree: &mut TreeFs) -> Result<Entry, Fault>
    requires { tree.old ≡ first_state 0 0 0o755 single false second_7 }
    ensures refused { result ≡ Err (Some 28) }
    ensures same { tree.new ≡ tree.old }
{
    let name = CStr::before_nul(b"d\0", 1);
    tree.mkdir(root(), 1, name, 0o755, 0, Extensions::none())
}

/// LINK where there may be two nodes: a second name counts as a third, ENOSPC.
fn no_second_name(tree: &mut TreeFs) -> Result<Entry, Fault>
    requires { tree.old ≡ file_tree pair (codes "hello") }
    ensures refused { result ≡ Err (Some 28) }
    ensures same { tree.new ≡ tree.old }
{
    tree.link(root(), 2, 1, CStr::before_nul(b"g\0", 1))
}

/// RENAME with RENAME_WHITEOUT (4) there: a whiteout is a third node, ENOSPC.
fn no_room_for_a_whiteout(tree: &mut TreeFs) -> Result<(), Fault>
    requires { tree.old ≡ file_tree pair (codes "hello") }
    ensures refused { result ≡ Err (Some 28) }
    ensures same { tree.new ≡ tree.old }
{
    let (f, g) = (CStr::before_nul(b"f\0", 1), CStr::before_nul(b"g\0", 1));
    tree.rename(root(), 1, f, 1, g, 4)
}

/// SETXATTR where there is no room for its 128 bytes and those of name and value: ENOSPC.
fn attribute_without_room(tree: &mut TreeFs) -> Result<(), Fault>
    requires { tree.old ≡ file_tree narrow (codes "hello") }
    ensures refused { result ≡ Err (Some 28) }
    ensures same { tree.new ≡ tree.old }
{
    let (name, none) = (CStr::before_nul(b"user.a\0", 6), SetxattrFlags::empty());
    tree.setxattr(root(), 2, name, b"on", 0, none)
}
