//! When a node was made, as STATX tells it, and what IOCTLs tell of its flags.

ghost use Rattle.std.specs.Prelude.{◌≡◌, length, Ok, Err, IfOk};
ghost use Rattle.vfs_wire.specs.Fields.{spelled};
ghost use Rattle.fs_nodes.specs.Node.{attr_of};
ghost use Rattle.fs_nodes.specs.Statx.{statx_fields};
ghost use Rattle.test_uses.specs.Trees.{empty_file, fifo_tree, later, second_7, small_tree, tree_of, wide};

use crate::tree::support::root;
use fs_tree::TreeFs;
use vfs_files::FileSystem;
use vfs_flags::{Errno, Fault, SetattrValid};
use vfs_wire::SetattrIn;

/// A file that was made at second 7 and is changed at second 9: STATX tells both.
fn born_once(tree: &mut TreeFs, text: &mut [u8]) -> Result<(), Fault>
    requires tree { tree.old ≡ later (tree_of wide empty_file) }
    requires text { length text.old ≡ 288 }
    ensures { IfOk result (λ _. text.new ≡ spelled (statx_fields
        (record (attr_of 2 empty_file) { mode = 0o100600; ctime = 9 }) second_7 86400)) }
{
    let attr = SetattrIn {
        mode: 0o600,
        ..SetattrIn::default()
    };
    tree.setattr(root(), 2, attr, None, SetattrValid::MODE)?;
    tree.statx(2, text)?;
    Ok(())
}

/// STATX of a node that is not there: ENOENT.
fn unborn(tree: &TreeFs, text: &mut [u8]) -> Result<(), Errno>
    requires tree { tree.now ≡ small_tree }
    requires text { length text.old ≡ 288 }
    ensures { result ≡ Err 2 }
{
    tree.statx(2, text)
}

/// Flags of a file are 0 and can't be set. No other command is there.
fn file_flags(tree: &TreeFs, cmd: u32, place: u32) -> Result<usize, Errno>
    requires { tree.now ≡ tree_of wide empty_file }
    ensures get { cmd ≡ 0x80086601 → place ≡ 4 → result ≡ Ok 20 }
    ensures get_more { cmd ≡ 0x801c581f → place ≡ 28 → result ≡ Ok 44 }
    ensures short { cmd ≡ 0x80086601 → place ≡ 3 → result ≡ Err 22 }
    ensures set { cmd ≡ 0x40086602 → result ≡ Err 95 }
    ensures set_more { cmd ≡ 0x401c5820 → result ≡ Err 95 }
    ensures other { cmd ≡ 0x5401 → result ≡ Err 25 }
{
    tree.ioctl(2, cmd, place)
}

/// So are those of a directory; a FIFO has none.
fn other_flags(tree: &TreeFs, number: u64) -> Result<usize, Errno>
    ensures directory { tree.entry.now ≡ small_tree → number ≡ 1 → result ≡ Ok 20 }
    ensures fifo { tree.entry.now ≡ fifo_tree → number ≡ 2 → result ≡ Err 25 }
    ensures nowhere { tree.entry.now ≡ small_tree → number ≡ 2 → result ≡ Err 2 }
{
    tree.ioctl(number, 0x8008_6601, 4)
}
