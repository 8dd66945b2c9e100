//! Names of more than a byte, those that can't be made, and those that are moved and exchanged.

ghost use Rattle.std.specs.Prelude.{◌≡◌, ◌⊎◌, ◌-◌, ◌^◌, [], ◌∷◌, false, codes, length, Ok, Err, Some, IfOk, IfSome, MatchResult};
ghost use Rattle.vfs_files.specs.Values.{name_text};
ghost use Rattle.fs_tree.specs.Tree.{first_state};
ghost use Rattle.test_uses.specs.Trees.{empty_file, second_7, small_tree, to_directory, to_file, to_whiteout, tree_of, tree_of_two, whitened_tree, wide};

use crate::tree::support::root;
use fs_tree::TreeFs;
use vfs_files::{CStr, Context, Entry, EntryList, Extensions, FileSystem};
use vfs_flags::{Fault, GuestGid, GuestUid};

/// Of two names of five bytes that differ in the last one, the second leads to its own node.
fn long_names(tree: &mut TreeFs) -> Option<Entry>
    requires { tree.old ≡ small_tree }
    ensures { IfSome result (λ found. found.inode ≡ 3) }
{
    let (music, musik) = (
        CStr::before_nul(b"music\0", 5),
        CStr::before_nul(b"musik\0", 5),
    );
    tree.mkdir(root(), 1, music, 0o755, 0, Extensions::none())
        .ok()?;
    tree.mkdir(root(), 1, musik, 0o755, 0, Extensions::none())
        .ok()?;
    tree.lookup(root(), 1, musik).ok()
}

/// The beginning of a name leads nowhere.
fn beginning_of_a_name(tree: &mut TreeFs) -> Result<Entry, Fault>
    requires { tree.old ≡ small_tree }
    ensures { MatchResult result (λ _. ⊥) (λ fault. (fault ≡ Some 12) ⊎ (fault ≡ Some 2)) }
{
    let music = CStr::before_nul(b"music\0", 5);
    tree.mkdir(root(), 1, music, 0o755, 0, Extensions::none())?;
    tree.lookup(root(), 1, CStr::before_nul(b"mus\0", 3))
}

/// No name has 256 bytes: ENAMETOOLONG.
fn too_long_a_name(tree: &mut TreeFs, name: CStr<'_>) -> Result<Entry, Fault>
    requires tree { tree.old ≡ small_tree }
    requires long { length (name_text name) ≡ 256 }
    ensures refused { result ≡ Err (Some 36) }
    ensures same { tree.new ≡ tree.old }
{
    tree.lookup(root(), 1, name)
}

/// MKDIR of these names: EINVAL, and nothing changes.
fn improper_names(tree: &mut TreeFs) -> [Result<Entry, Fault>; 4]
    requires { tree.old ≡ small_tree }
    ensures refused { result ≡
        Err (Some 22) ∷ Err (Some 22) ∷ Err (Some 22) ∷ Err (Some 22) ∷ [] }
    ensures same { tree.new ≡ tree.old }
{
    [
        tree.mkdir(
            root(),
            1,
            CStr::before_nul(b"\0", 0),
            0o755,
            0,
            Extensions::none(),
        ),
        tree.mkdir(
            root(),
            1,
            CStr::before_nul(b".\0", 1),
            0o755,
            0,
            Extensions::none(),
        ),
        tree.mkdir(
            root(),
            1,
            CStr::before_nul(b"..\0", 2),
            0o755,
            0,
            Extensions::none(),
        ),
        tree.mkdir(
            root(),
            1,
            CStr::before_nul(b"a/b\0", 3),
            0o755,
            0,
            Extensions::none(),
        ),
    ]
}

/// RENAME with RENAME_EXCHANGE (2): each of two names leads where the other did. No memory is
/// wanted.
fn exchanged(tree: &mut TreeFs) -> Result<(), Fault>
    requires { tree.old ≡ tree_of_two to_file to_directory }
    ensures answer { result ≡ Ok tt }
    ensures names { tree.new ≡ tree_of_two to_directory to_file }
{
    let (f, d) = (CStr::before_nul(b"f\0", 1), CStr::before_nul(b"d\0", 1));
    tree.rename(root(), 1, f, 1, d, 2)
}

/// RENAME with RENAME_NOREPLACE (1) of a name that is taken: EEXIST, and nothing changes.
fn not_replaced(tree: &mut TreeFs) -> Result<(), Fault>
    requires { tree.old ≡ tree_of_two to_file to_directory }
    ensures refused { result ≡ Err (Some 17) }
    ensures same { tree.new ≡ tree.old }
{
    let (f, d) = (CStr::before_nul(b"f\0", 1), CStr::before_nul(b"d\0", 1));
    tree.rename(root(), 1, f, 1, d, 1)
}

/// RENAME with RENAME_WHITEOUT (4): the old name leads to a whiteout, of which no lookup is held.
fn whitened(tree: &mut TreeFs) -> Result<(), Fault>
    requires { tree.old ≡ tree_of wide empty_file }
    ensures { MatchResult result
        (λ _. tree.new ≡ whitened_tree (to_whiteout 3) to_file 3)
        (λ fault. (fault ≡ Some 12) × (tree.new ≡ tree.old)) }
{
    let (f, g) = (CStr::before_nul(b"f\0", 1), CStr::before_nul(b"g\0", 1));
    tree.rename(root(), 1, f, 1, g, 4)
}

/// The same over a whiteout, which is gone then.
fn whitened_back(tree: &mut TreeFs) -> Result<(), Fault>
    requires { tree.old ≡ whitened_tree (to_whiteout 3) to_file 3 }
    ensures { MatchResult result
        (λ _. tree.new ≡ whitened_tree to_file (to_whiteout 4) 4)
        (λ fault. (fault ≡ Some 12) × (tree.new ≡ tree.old)) }
{
    let (f, g) = (CStr::before_nul(b"f\0", 1), CStr::before_nul(b"g\0", 1));
    tree.rename(root(), 1, g, 1, f, 4)
}

/// LOOKUP of a whiteout: a character device of number 0 that nobody may use.
fn found_white(tree: &mut TreeFs) -> Result<Entry, Fault>
    requires { tree.old ≡ whitened_tree (to_whiteout 3) to_file 3 }
    ensures { IfOk result (λ found. (found.inode ≡ 3) × (found.attr.mode ≡ 0o20000)
        × (found.attr.rdev ≡ 0) × (found.attr.nlink ≡ 1)) }
{
    tree.lookup(root(), 1, CStr::before_nul(b"f\0", 1))
}

/// RENAME_WHITEOUT with RENAME_NOREPLACE (5) of a name that is taken: EEXIST; with RENAME_EXCHANGE (6):
/// EINVAL.
fn not_whitened(tree: &mut TreeFs) -> (Result<(), Fault>, Result<(), Fault>)
    requires { tree.old ≡ tree_of_two to_file to_directory }
    ensures taken { result.0 ≡ Err (Some 17) }
    ensures both { result.1 ≡ Err (Some 22) }
    ensures same { tree.new ≡ tree.old }
{
    let (f, d) = (CStr::before_nul(b"f\0", 1), CStr::before_nul(b"d\0", 1));
    let taken = tree.rename(root(), 1, f, 1, d, 5);
    let both = tree.rename(root(), 1, f, 1, d, 6);
    (taken, both)
}

/// RENAME of a file to the name of a directory: EISDIR; of a directory to that of a file: ENOTDIR.
fn kinds_are_not_mixed(tree: &mut TreeFs) -> (Result<(), Fault>, Result<(), Fault>)
    requires { tree.old ≡ tree_of_two to_file to_directory }
    ensures file { result.0 ≡ Err (Some 21) }
    ensures directory { result.1 ≡ Err (Some 20) }
    ensures same { tree.new ≡ tree.old }
{
    let (f, d) = (CStr::before_nul(b"f\0", 1), CStr::before_nul(b"d\0", 1));
    let file = tree.rename(root(), 1, f, 1, d, 0);
    let directory = tree.rename(root(), 1, d, 1, f, 0);
    (file, directory)
}

/// RENAME of a directory into itself: EINVAL.
fn directory_into_itself(tree: &mut TreeFs) -> Result<(), Fault>
    requires { tree.old ≡ tree_of_two to_file to_directory }
    ensures refused { result ≡ Err (Some 22) }
    ensures same { tree.new ≡ tree.old }
{
    let (d, e) = (CStr::before_nul(b"d\0", 1), CStr::before_nul(b"e\0", 1));
    tree.rename(root(), 1, d, 3, e, 0)
}

/// MKDIR by user 8 and group 9 in a root of group 5.
fn made_by_another(tree: &mut TreeFs) -> Result<Entry, Fault>
    ensures owner { tree.old ≡ first_state 0 5 0o755 wide false second_7 →
        MatchResult result
        (λ made. (made.attr.uid ≡ 8) × (made.attr.gid ≡ 9) × (made.attr.mode ≡ 0o40700))
        (λ fault. (fault ≡ Some 12) × (tree.new ≡ tree.old)) }
    ensures handed { tree.old ≡ first_state 0 5 0o2755 wide false second_7 →
        IfOk result
        (λ made. (made.attr.uid ≡ 8) × (made.attr.gid ≡ 5) × (made.attr.mode ≡ 0o42700)) }
{
    let ctx = Context {
        uid: GuestUid::from(8),
        gid: GuestGid::from(9),
        pid: 1,
    };
    let name = CStr::before_nul(b"d\0", 1);
    tree.mkdir(ctx, 1, name, 0o700, 0, Extensions::none())
}

/// A file that is made in a directory that hands its group down has the group, and not the bit.
fn file_of_its_group(tree: &mut TreeFs) -> Option<Entry>
    requires { tree.old ≡ first_state 0 5 0o2755 wide false second_7 }
    ensures { IfSome result
        (λ made. (made.attr.gid ≡ 5) × (made.attr.mode ≡ 0o100600)) }
{
    let name = CStr::before_nul(b"f\0", 1);
    let made = tree.create(root(), 1, name, 0o600, false, 0, 0, Extensions::none());
    let (entry, _, _) = made.ok()?;
    Some(entry)
}

/// READDIR after `.`: `..`, and as many more as 24 bytes have place for, here one.
fn read_after_a_dot(tree: &mut TreeFs) -> Result<EntryList, Fault>
    requires { tree.old ≡ tree_of_two to_file to_directory }
    ensures items { MatchResult result
        (λ items. items ≡
        record { ino = 1; offset = 2; type_ = 4; name = codes ".." }
        ∷ record { ino = 3; offset = 2 ^ 63 - 2; type_ = 4; name = codes "d" } ∷ [])
        (λ fault. fault ≡ Some 12) }
    ensures same { tree.new ≡ tree.old }
{
    tree.readdir(root(), 1, 0, 24, 1)
}

/// READDIR after the last name but one: the last one.
fn read_after_a_name(tree: &mut TreeFs) -> Result<EntryList, Fault>
    requires { tree.old ≡ tree_of_two to_file to_directory }
    ensures items { IfOk result (λ items. items ≡
        record { ino = 2; offset = 2 ^ 63 - 1; type_ = 8; name = codes "f" } ∷ []) }
{
    tree.readdir(root(), 1, 0, 4096, 0x7fff_ffff_ffff_fffe)
}
