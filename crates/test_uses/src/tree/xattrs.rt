//! Extended attributes: they are set, told, listed and taken away, by their names, in three namespaces.

ghost use Rattle.std.specs.Prelude.{◌≡◌, ◌++◌, ◌^◌, ◌-◌, [], ◌∷◌, codes, Ok, Err, Some, MatchResult, ⊤};
ghost use Rattle.vfs_files.specs.Answers.{Text, Count, value_or_count, names_or_count};
ghost use Rattle.test_uses.specs.Trees.{attribute_tree, trusted_a, user_a, user_b, wide};

use crate::tree::support::root;
use bitflags::Flags;
use fs_tree::TreeFs;
use vfs_files::{CStr, Context, FileSystem, GetxattrReply, ListxattrReply};
use vfs_flags::{Fault, GuestUid, SetxattrFlags};

/// SETXATTR of `user.a`, by these flags: 1 is XATTR_CREATE, 2 XATTR_REPLACE.
fn set(tree: &mut TreeFs, flags: u32) -> Result<(), Fault>
    ensures new { flags ≡ 1 → tree.old ≡ attribute_tree wide [] → MatchResult result
        (λ _. tree.new ≡ attribute_tree wide (user_a (codes "on") ∷ []))
        (λ fault. (fault ≡ Some 12) × (tree.new ≡ tree.old)) }
    ensures other { flags ≡ 2 → tree.old ≡ attribute_tree wide (user_a (codes "off") ∷ []) →
        MatchResult result
        (λ _. tree.new ≡ attribute_tree wide (user_a (codes "on") ∷ []))
        (λ fault. (fault ≡ Some 12) × (tree.new ≡ tree.old)) }
    ensures there { flags ≡ 1 → tree.old ≡ attribute_tree wide (user_a (codes "off") ∷ []) →
        result ≡ Err (Some 17) }
    ensures missing { flags ≡ 2 → tree.old ≡ attribute_tree wide [] → result ≡ Err (Some 61) }
{
    let name = CStr::before_nul(b"user.a\0", 6);
    tree.setxattr(root(), 2, name, b"on", flags, SetxattrFlags::empty())
}

/// SETXATTR of `user.a` where `user.b` is there: its place is before, by its name.
fn set_before(tree: &mut TreeFs) -> Result<(), Fault>
    requires { tree.old ≡ attribute_tree wide (user_b (codes "off") ∷ []) }
    ensures { MatchResult result
        (λ _. tree.new ≡ attribute_tree wide (user_a (codes "on") ∷ user_b (codes "off") ∷ []))
        (λ fault. (fault ≡ Some 12) × (tree.new ≡ tree.old)) }
{
    let name = CStr::before_nul(b"user.a\0", 6);
    tree.setxattr(root(), 2, name, b"on", 0, SetxattrFlags::empty())
}

/// SETXATTR of a name of another namespace, as that of an access control list: EOPNOTSUPP; of a name
/// that says nothing within its namespace: EINVAL.
fn names_that_are_not_kept(tree: &mut TreeFs) -> (Result<(), Fault>, Result<(), Fault>)
    requires { tree.old ≡ attribute_tree wide [] }
    ensures other { result.0 ≡ Err (Some 95) }
    ensures bare { result.1 ≡ Err (Some 22) }
    ensures same { tree.new ≡ tree.old }
{
    let list = CStr::before_nul(b"system.posix_acl_access\0", 23);
    let other = tree.setxattr(root(), 2, list, b"", 0, SetxattrFlags::empty());
    let name = CStr::before_nul(b"user.\0", 5);
    let bare = tree.setxattr(root(), 2, name, b"", 0, SetxattrFlags::empty());
    (other, bare)
}

/// SETXATTR of a name of this namespace too. Memory alone can be wanting.
fn trusted_and_security(tree: &mut TreeFs) -> Result<(), Fault>
    requires { tree.old ≡ attribute_tree wide [] }
    ensures { MatchResult result (λ _. ⊤) (λ fault. fault ≡ Some 12) }
{
    let (trusted, security) = (
        CStr::before_nul(b"trusted.a\0", 9),
        CStr::before_nul(b"security.a\0", 10),
    );
    tree.setxattr(root(), 2, trusted, b"", 0, SetxattrFlags::empty())?;
    tree.setxattr(root(), 2, security, b"", 0, SetxattrFlags::empty())
}

/// GETXATTR of `user.a`, for a value of that many bytes: the value; how long it is, which wants no
/// memory, where the size is 0; and ERANGE where it is too small.
fn value(tree: &mut TreeFs, size: u32) -> Result<GetxattrReply, Fault>
    requires { tree.old ≡ attribute_tree wide (user_a (codes "off") ∷ []) }
    ensures whole { size ≡ 3 → MatchResult result
        (λ reply. value_or_count reply ≡ Text (codes "off")) (λ fault. fault ≡ Some 12) }
    ensures count { size ≡ 0 → MatchResult result
        (λ reply. value_or_count reply ≡ Count 3) (λ _. ⊥) }
    ensures small { size ≡ 2 → result ≡ Err (Some 34) }
    ensures same { tree.new ≡ tree.old }
{
    tree.getxattr(root(), 2, CStr::before_nul(b"user.a\0", 6), size)
}

/// GETXATTR and REMOVEXATTR find the second of two by its name.
fn second_of_two(tree: &mut TreeFs) -> (Result<GetxattrReply, Fault>, Result<(), Fault>)
    requires { tree.old ≡
        attribute_tree wide (user_a (codes "on") ∷ user_b (codes "off") ∷ []) }
    ensures value { MatchResult result.0
        (λ reply. value_or_count reply ≡ Text (codes "off")) (λ fault. fault ≡ Some 12) }
    ensures removed { result.1 ≡ Ok tt }
    ensures left { tree.new ≡ attribute_tree wide (user_a (codes "on") ∷ []) }
{
    let name = CStr::before_nul(b"user.b\0", 6);
    let value = tree.getxattr(root(), 2, name, 9);
    (value, tree.removexattr(root(), 2, name))
}

/// GETXATTR of a name that is not there: ENODATA.
fn no_value(tree: &mut TreeFs) -> Result<GetxattrReply, Fault>
    requires { tree.old ≡ attribute_tree wide (user_a (codes "off") ∷ []) }
    ensures { result ≡ Err (Some 61) }
{
    tree.getxattr(root(), 2, CStr::before_nul(b"user.b\0", 6), 3)
}

/// LISTXATTR, for that many bytes: each name with a 0 after it; or how long they are.
fn list(tree: &mut TreeFs, size: u32) -> Result<ListxattrReply, Fault>
    requires { tree.old ≡ attribute_tree wide (user_a (codes "off") ∷ []) }
    ensures whole { size ≡ 7 → MatchResult result
        (λ reply. names_or_count reply ≡ Text (codes "user.a" ++ 0 ∷ []))
        (λ fault. fault ≡ Some 12) }
    ensures count { size ≡ 0 → MatchResult result
        (λ reply. names_or_count reply ≡ Count 7) (λ _. ⊥) }
    ensures small { size ≡ 6 → result ≡ Err (Some 34) }
    ensures same { tree.new ≡ tree.old }
{
    tree.listxattr(root(), 2, size)
}

/// LISTXATTR by this user: a name of `trusted.` is not there for others than root, where it is told who asks.
fn list_for(tree: &mut TreeFs, uid: GuestUid) -> Result<ListxattrReply, Fault>
    requires { tree.old ≡
        attribute_tree wide (trusted_a (codes "on") ∷ user_a (codes "off") ∷ []) }
    ensures root { uid ≡ 0 → MatchResult result
        (λ reply. names_or_count reply ≡ Text (codes "trusted.a" ++ 0 ∷ codes "user.a" ++ 0 ∷ []))
        (λ fault. fault ≡ Some 12) }
    ensures untold { uid ≡ 2 ^ 32 - 1 → MatchResult result
        (λ reply. names_or_count reply ≡ Text (codes "trusted.a" ++ 0 ∷ codes "user.a" ++ 0 ∷ []))
        (λ fault. fault ≡ Some 12) }
    ensures other { uid ≡ 65534 → MatchResult result
        (λ reply. names_or_count reply ≡ Text (codes "user.a" ++ 0 ∷ []))
        (λ fault. fault ≡ Some 12) }
{
    tree.listxattr(Context { uid, ..root() }, 2, 99)
}

/// REMOVEXATTR: the attribute is gone, and no memory is wanted.
fn removed(tree: &mut TreeFs) -> Result<(), Fault>
    requires { tree.old ≡ attribute_tree wide (user_a (codes "off") ∷ []) }
    ensures answer { result ≡ Ok tt }
    ensures gone { tree.new ≡ attribute_tree wide [] }
{
    tree.removexattr(root(), 2, CStr::before_nul(b"user.a\0", 6))
}

/// REMOVEXATTR of one that is not there: ENODATA, and nothing changes.
fn nothing_removed(tree: &mut TreeFs) -> Result<(), Fault>
    requires { tree.old ≡ attribute_tree wide [] }
    ensures refused { result ≡ Err (Some 61) }
    ensures same { tree.new ≡ tree.old }
{
    tree.removexattr(root(), 2, CStr::before_nul(b"user.a\0", 6))
}
