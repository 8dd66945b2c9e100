//! Files that are made without a name, by a CREATE of `/`, and what names lead to them.

ghost use Rattle.std.specs.Prelude.{◌≡◌, true, false, Err, Some, IfOk, IfSome, MatchResult};
ghost use Rattle.fs_tree.specs.Tree.{first_state};
ghost use Rattle.test_uses.specs.Trees.{empty_file, nameless_tree, of_client, pair, second_7, single, small_tree, tree_of, wide};

use crate::tree::support::root;
use fs_tree::TreeFs;
use vfs_files::{CStr, Entry, Extensions, FileSystem};
use vfs_flags::{Fault, OpenOptions};

/// CREATE of `/`, which is a TMPFILE, by these flags of `open(2)`: with O_EXCL (0o200) no name leads to the file
/// later.
fn made_nameless(
    tree: &mut TreeFs,
    parent: u64,
    flags: u32,
) -> Result<(Entry, Option<u64>, OpenOptions), Fault>
    ensures made { tree.old ≡ small_tree → parent ≡ 1 → flags ≡ 2 → MatchResult result
        (λ made. (made.0.inode ≡ 2) × (made.0.attr.nlink ≡ 0) × (made.0.attr.mode ≡ 0o100644)
        × (tree.new ≡ nameless_tree wide true))
        (λ fault. (fault ≡ Some 12) × (tree.new ≡ tree.old)) }
    ensures alone { tree.old ≡ small_tree → parent ≡ 1 → flags ≡ 0o202 →
        IfOk result (λ _. tree.new ≡ nameless_tree wide false) }
    ensures unopened { tree.old ≡ of_client 0x20000 small_tree → parent ≡ 1 → MatchResult result
        (λ made. made.0.inode ≡ 2) (λ fault. fault ≡ Some 12) }
    ensures file { tree.old ≡ tree_of wide empty_file → parent ≡ 2 → result ≡ Err (Some 20) }
    ensures nowhere { tree.old ≡ small_tree → parent ≡ 9 → result ≡ Err (Some 2) }
    ensures full { tree.old ≡ first_state 0 0 0o755 single false second_7 → parent ≡ 1 →
        result ≡ Err (Some 28) }
{
    let name = CStr::before_nul(b"/\0", 1);
    tree.create(
        root(),
        parent,
        name,
        0o644,
        false,
        flags,
        0,
        Extensions::none(),
    )
}

/// LINK of a file without a name gives it its first, which counts as no node: also where there may be no further
/// one. To one that was made for its opener alone no name leads: ENOENT.
fn first_name(tree: &mut TreeFs) -> Result<Entry, Fault>
    ensures named { tree.old ≡ nameless_tree pair true → MatchResult result
        (λ named. (named.inode ≡ 2) × (named.attr.nlink ≡ 1)
        × (tree.new ≡ tree_of pair (record empty_file { lookups = 2 })))
        (λ fault. (fault ≡ Some 12) × (tree.new ≡ tree.old)) }
    ensures alone { tree.old ≡ nameless_tree wide false →
        (result ≡ Err (Some 2)) × (tree.new ≡ tree.old) }
{
    tree.link(root(), 2, 1, CStr::before_nul(b"f\0", 1))
}

/// A file whose only name was removed gets no other.
fn named_once(tree: &mut TreeFs) -> Option<bool>
    requires { tree.old ≡ tree_of wide empty_file }
    ensures { IfSome result (λ refused. refused ≡ true) }
{
    let name = CStr::before_nul(b"f\0", 1);
    tree.unlink(root(), 1, name).ok()?;
    Some(tree.link(root(), 2, 1, name).is_err())
}

/// A file without a name is there as long as a lookup of it is held.
fn gone_by_its_forget(tree: &mut TreeFs) -> (bool, bool)
    requires { tree.old ≡ nameless_tree wide true }
    ensures there { result.0 ≡ true }
    ensures gone { result.1 ≡ false }
    ensures free { tree.new.inodes ≡ 1 }
{
    let there = tree.getattr(root(), 2, None).is_ok();
    tree.forget(root(), 2, 1);
    (there, tree.getattr(root(), 2, None).is_ok())
}
