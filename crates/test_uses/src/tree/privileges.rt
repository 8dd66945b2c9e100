//! What a program has of the file that it is run from: a change of the file takes it.

ghost use Rattle.std.specs.Prelude.{◌≡◌, ◌++◌, [], ◌∷◌, false, true, codes, Ok, MatchResult};
ghost use Rattle.std.specs.Duration.{as_nanos};
ghost use Rattle.test_uses.specs.Trees.{capability, directory_tree, program, program_tree, tree_of, user_a, wide};

use crate::tree::support::root;
use bitflags::Flags;
use fs_tree::TreeFs;
use std::time::Duration;
use vfs_files::{Context, FileSystem, ZeroCopyReader};
use vfs_flags::{Fault, GuestUid, OpenOptions, SetattrValid};
use vfs_wire::{Attr, SetattrIn};

/// WRITE over the beginning of a program takes its capabilities, and where the request says so its
/// set-user-ID and set-group-ID too; a delayed one takes nothing. Its other attributes stay.
#[tactic(auto, unfolding(vfs_segments::specs::Memory::with_bytes_at))]
fn written<R: ZeroCopyReader>(
    tree: &mut TreeFs,
    r: &mut R,
    delayed: bool,
    kill_priv: bool,
) -> Result<u32, Fault>
    requires tree { tree.old ≡
        program_tree 0o6755 (capability ∷ user_a (codes "on") ∷ []) (codes "hello") }
    requires bytes { R.left r.old ≡ codes "HEY" }
    ensures root { delayed ≡ false → kill_priv ≡ false → tree.new ≡
        program_tree 0o6755 (user_a (codes "on") ∷ []) (codes "HEYlo") }
    ensures other { delayed ≡ false → kill_priv ≡ true → tree.new ≡
        program_tree 0o755 (user_a (codes "on") ∷ []) (codes "HEYlo") }
    ensures delayed { delayed ≡ true → kill_priv ≡ false → tree.new ≡
        program_tree 0o6755 (capability ∷ user_a (codes "on") ∷ []) (codes "HEYlo") }
{
    tree.write(root(), 2, 0, r, 3, 0, None, delayed, kill_priv, 0)
}

/// WRITE of no bytes takes nothing.
fn nothing_written<R: ZeroCopyReader>(tree: &mut TreeFs, r: &mut R) -> Result<u32, Fault>
    requires { tree.old ≡ program_tree 0o6755 (capability ∷ []) (codes "hello") }
    ensures { tree.new ≡ tree.old }
{
    tree.write(root(), 2, 0, r, 0, 0, None, false, true, 0)
}

/// OPEN with O_TRUNC (0o1000) takes the capabilities; of a program that its group may not run it
/// leaves set-group-ID.
fn emptied(
    tree: &mut TreeFs,
    uid: GuestUid,
    kill_priv: bool,
) -> Result<(Option<u64>, OpenOptions), Fault>
    requires { tree.old ≡ program_tree 0o6745 (capability ∷ []) (codes "hello") }
    ensures root { uid ≡ 0 → kill_priv ≡ false → tree.new ≡
        tree_of wide (record (program 0o6745 [] []) {
          contents = record { bytes = []; held = [] };
        }) }
    ensures killed { uid ≡ 0 → kill_priv ≡ true → tree.new ≡
        tree_of wide (record (program 0o2745 [] []) {
          contents = record { bytes = []; held = [] };
        }) }
    ensures other { uid ≡ 5 → kill_priv ≡ false → tree.new ≡
        tree_of wide (record (program 0o2745 [] []) {
          contents = record { bytes = []; held = [] };
        }) }
{
    let user = Context { uid, ..root() };
    tree.open(user, 2, kill_priv, 0o1000)
}

/// SETATTR of an owner takes all privileges of what is no directory, and so does one of nothing.
fn given_away(tree: &mut TreeFs, gives: bool) -> Result<(Attr, Duration), Fault>
    ensures file { tree.old ≡ program_tree 0o6755 (capability ∷ user_a (codes "on") ∷ []) (codes "hello")
        → MatchResult result (λ reply. (reply.0.mode ≡ 0o100755) × (tree.new ≡
        program_tree 0o755 (user_a (codes "on") ∷ []) (codes "hello"))) (λ _. ⊥) }
    ensures directory { tree.old ≡ directory_tree 0o6755 (capability ∷ []) →
        tree.new ≡ tree.old }
{
    let valid = if gives {
        SetattrValid::UID | SetattrValid::GID
    } else {
        SetattrValid::empty()
    };
    tree.setattr(root(), 2, SetattrIn::default(), None, valid)
}

/// SETATTR of a size takes the capabilities, and where it is asked set-user-ID and set-group-ID.
fn cut(tree: &mut TreeFs, kill_priv: bool) -> Result<(Attr, Duration), Fault>
    requires { tree.old ≡ program_tree 0o6755 (capability ∷ []) (codes "hello") }
    ensures root { kill_priv ≡ false → tree.new ≡ program_tree 0o6755 [] (codes "he") }
    ensures other { kill_priv ≡ true → tree.new ≡ program_tree 0o755 [] (codes "he") }
{
    let wanted = SetattrIn {
        size: 2,
        ..SetattrIn::default()
    };
    let asked = if kill_priv {
        SetattrValid::KILL_SUIDGID
    } else {
        SetattrValid::empty()
    };
    tree.setattr(root(), 2, wanted, None, SetattrValid::SIZE | asked)
}

/// SETATTR of permission bits takes nothing from them, unless it is asked to.
fn mode_given(tree: &mut TreeFs, kill_priv: bool) -> Result<(Attr, Duration), Fault>
    requires { tree.old ≡ program_tree 0o755 (capability ∷ []) (codes "hello") }
    ensures asked { kill_priv ≡ true → tree.new ≡ program_tree 0o710 [] (codes "hello") }
    ensures given { kill_priv ≡ false → tree.new ≡
        program_tree 0o4710 (capability ∷ []) (codes "hello") }
{
    let wanted = SetattrIn {
        mode: 0o4710,
        ..SetattrIn::default()
    };
    let asked = if kill_priv {
        SetattrValid::KILL_SUIDGID
    } else {
        SetattrValid::empty()
    };
    tree.setattr(root(), 2, wanted, None, SetattrValid::MODE | asked)
}

/// GETATTR of a file with set-user-ID: a client may not rely on what it is told, since an OPEN may take that.
fn told_for_no_time(tree: &mut TreeFs) -> Result<(Attr, Duration), Fault>
    requires { tree.old ≡ program_tree 0o4755 [] (codes "hello") }
    ensures { MatchResult result
        (λ reply. (reply.0.mode ≡ 0o104755) × (as_nanos reply.1 ≡ 0)) (λ _. ⊥) }
{
    tree.getattr(root(), 2, None)
}

/// FALLOCATE of bytes (mode 0), of a hole in place of them (3), or of zeros (16), takes the capabilities.
fn allocated(tree: &mut TreeFs, mode: u32) -> Result<(), Fault>
    requires { tree.old ≡ program_tree 0o6755 (capability ∷ []) (codes "hello") }
    ensures bytes { mode ≡ 0 → tree.new ≡ program_tree 0o6755 [] (codes "hello" ++ (0 ∷ [])) }
    ensures hole { mode ≡ 3 → (result ≡ Ok tt) × (tree.new ≡
        program_tree 0o6755 [] (codes "hell" ++ (0 ∷ []))) }
    ensures zeros { mode ≡ 16 → tree.new ≡ program_tree 0o6755 [] (codes "hell" ++ (0 ∷ 0 ∷ [])) }
{
    tree.fallocate(root(), 2, 0, mode, 4, 2)
}
