//! Lookups: they are counted, given back one by one, in lists, and all at once.

ghost use Rattle.std.specs.Prelude.{◌≡◌, [], ◌∷◌, codes, false, true, None, IfSome};
ghost use Rattle.fs_tree.specs.State.{node_at};
ghost use Rattle.test_uses.specs.Trees.{file_tree, small_tree, wide};

use crate::tree::support::root;
use fs_tree::TreeFs;
use vfs_files::{CStr, Extensions, FileSystem};
use vfs_flags::FsOptions;

/// A file without a name is gone once the client is: a DESTROY takes every lookup back.
fn gone_by_destroy(tree: &mut TreeFs) -> Option<()>
    requires { tree.old ≡ file_tree wide (codes "hello") }
    ensures gone { IfSome result (λ _. node_at tree.new 2 ≡ None) }
    ensures bytes { IfSome result (λ _. tree.new.used ≡ 0) }
{
    tree.unlink(root(), 1, CStr::before_nul(b"f\0", 1)).ok()?;
    tree.destroy();
    Some(())
}

/// So it is by the INIT of a new client.
fn gone_by_init(tree: &mut TreeFs, capable: FsOptions) -> Option<()>
    requires { tree.old ≡ file_tree wide (codes "hello") }
    ensures gone { IfSome result (λ _. node_at tree.new 2 ≡ None) }
    ensures bytes { IfSome result (λ _. tree.new.used ≡ 0) }
{
    tree.unlink(root(), 1, CStr::before_nul(b"f\0", 1)).ok()?;
    tree.init(capable).ok()?;
    Some(())
}

/// A file that has a name stays when the client goes, without lookups.
fn kept_by_its_name(tree: &mut TreeFs) -> Option<bool>
    requires { tree.old ≡ small_tree }
    ensures { IfSome result (λ there. there ≡ true) }
{
    let name = CStr::before_nul(b"f\0", 1);
    tree.create(root(), 1, name, 0o644, false, 0, 0, Extensions::none())
        .ok()?;
    tree.destroy();
    Some(tree.getattr(root(), 2, None).is_ok())
}

/// A file of two lookups and no name is there after one of them is given back, and gone after both.
fn gone_by_two_forgets(tree: &mut TreeFs) -> Option<(bool, bool)>
    requires { tree.old ≡ file_tree wide (codes "hello") }
    ensures { IfSome result (λ there. there ≡ (true, false)) }
{
    let name = CStr::before_nul(b"f\0", 1);
    tree.lookup(root(), 1, name).ok()?;
    tree.unlink(root(), 1, name).ok()?;
    tree.forget(root(), 2, 1);
    let there = tree.getattr(root(), 2, None).is_ok();
    tree.forget(root(), 2, 1);
    Some((there, tree.getattr(root(), 2, None).is_ok()))
}

/// Lookups of several nodes are given back by one BATCH_FORGET: of node 2 both, and of a node that
/// isn't there none.
fn gone_by_a_list(tree: &mut TreeFs, pairs: Vec<(u64, u64)>) -> Option<bool>
    requires tree { tree.old ≡ file_tree wide (codes "hello") }
    requires pairs { pairs.items ≡ (5, 3) ∷ (2, 1) ∷ [] }
    ensures { IfSome result (λ there. there ≡ false) }
{
    tree.unlink(root(), 1, CStr::before_nul(b"f\0", 1)).ok()?;
    tree.batch_forget(root(), pairs);
    Some(tree.getattr(root(), 2, None).is_ok())
}
