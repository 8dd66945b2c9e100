//! Times of access: which readings move them.

ghost use Rattle.std.specs.Prelude.{◌≡◌, Ok, Some, MatchResult};
ghost use Rattle.test_uses.specs.Trees.{later, read_tree, small_tree};

use crate::tree::support::root;
use fs_tree::{Time, TreeFs};
use vfs_files::{CStr, Extensions, FileSystem, ZeroCopyWriter};
use vfs_flags::Fault;

/// READ at second 9 of a file that was written at second 7, and not read since: its time of access is
/// now.
fn first_reading<W: ZeroCopyWriter>(tree: &mut TreeFs, w: &mut W) -> Result<u64, Fault>
    requires tree { tree.old ≡ read_tree 7 9 }
    requires room { W.room w.old ≡ 100 }
    ensures told { result ≡ Ok 9 }
    ensures moved { tree.new ≡ read_tree 9 9 }
{
    tree.read(root(), 2, 0, w, 4096, 0, None, 0)?;
    let (attr, _) = tree.getattr(root(), 2, None)?;
    Ok(attr.atime)
}

/// READ a minute after that one: nothing changes.
fn reading_a_minute_later<W: ZeroCopyWriter>(tree: &mut TreeFs, w: &mut W) -> Result<usize, Fault>
    requires tree { tree.old ≡ read_tree 9 69 }
    requires room { W.room w.old ≡ 100 }
    ensures answer { result ≡ Ok 5 }
    ensures same { tree.new ≡ tree.old }
{
    tree.read(root(), 2, 0, w, 4096, 0, None, 0)
}

/// READ a day after it, at the end of the file: no byte is put, and the time moves.
fn reading_a_day_later<W: ZeroCopyWriter>(tree: &mut TreeFs, w: &mut W) -> Result<usize, Fault>
    requires tree { tree.old ≡ read_tree 9 86409 }
    requires room { W.room w.old ≡ 100 }
    ensures answer { result ≡ Ok 0 }
    ensures moved { tree.new ≡ read_tree 86409 86409 }
{
    tree.read(root(), 2, 0, w, 4096, 5, None, 0)
}

/// READ of no byte: nothing changes.
fn nothing_is_read<W: ZeroCopyWriter>(tree: &mut TreeFs, w: &mut W) -> Result<usize, Fault>
    requires tree { tree.old ≡ read_tree 7 9 }
    requires room { W.room w.old ≡ 100 }
    ensures answer { result ≡ Ok 0 }
    ensures same { tree.new ≡ tree.old }
{
    tree.read(root(), 2, 0, w, 0, 0, None, 0)
}

/// READDIR: a directory's time of access moves, and not that of its last change. Memory alone can be
/// wanting.
fn directory_is_read(tree: &mut TreeFs) -> Result<(u64, u64), Fault>
    requires { tree.old ≡ later small_tree }
    ensures { MatchResult result (λ times. times ≡ (9, 7)) (λ fault. fault ≡ Some 12) }
{
    tree.readdir(root(), 1, 0, 4096, 0)?;
    let (attr, _) = tree.getattr(root(), 1, None)?;
    Ok((attr.atime, attr.mtime))
}

/// READLINK two seconds after SYMLINK: the link's time of access is now. Memory alone can be wanting.
fn link_is_read(tree: &mut TreeFs) -> Result<u64, Fault>
    requires { tree.old ≡ small_tree }
    ensures { MatchResult result (λ atime. atime ≡ 9) (λ fault. fault ≡ Some 12) }
{
    let (text, name) = (CStr::before_nul(b"to\0", 2), CStr::before_nul(b"l\0", 1));
    tree.symlink(root(), text, 1, name, Extensions::none())?;
    tree.set_time(Time {
        seconds: 9,
        nanoseconds: 0,
    });
    tree.readlink(root(), 2)?;
    let (attr, _) = tree.getattr(root(), 2, None)?;
    Ok(attr.atime)
}
