//! The laws of a tree, in numbers.

ghost use Rattle.std.specs.Prelude.{◌≡◌, ◌≢◌, ◌≤◌, ◌<◌, ◌+◌, ℕ, true, length, max, IfOk, IfSome, OnSome};
ghost use Rattle.fs_nodes.specs.Children.{is_directory};
ghost use Rattle.fs_tree.specs.State.{node_at};
ghost use Rattle.laws_tree.specs.Laws.{IsTree, above, lookups_of};

use fs_tree::{Capacity, Time, TreeFs};
use laws_tree::laws::{calls_keep_trees, new_ones_are_trees};
use laws_tree::session::handle_session;
use std::alloc::Global;
use vfs_files::{CStr, Context, Entry, FileSystem};
use vfs_flags::{Fault, GuestGid, GuestUid};
use vfs_grammar::Result as Served;
use vfs_segments::{Reader, Writer};
use vfs_server::server::Server;

/// A new tree, whatever its limits: no lookup is held of any node. `None` where there is no memory.
fn free_tree(alloc: Global, limits: Capacity, now: Time) -> Option<TreeFs>
    ensures tree { IfSome result (λ tree. IsTree tree) }
    ensures lookups { IfSome result (λ tree. (n : ℕ) → lookups_of tree n ≡ 0) }
{
    new_ones_are_trees();
    let (uid, gid) = (GuestUid::from(0), GuestGid::from(0));
    match TreeFs::new(alloc, uid, gid, 0o755, limits, false, now) {
        Ok(tree) => Some(tree),
        Err(_) => None,
    }
}

/// Any LOOKUP in any tree: one lookup more of the node that is answered is held. The limits stay,
/// bytes and inodes keep within them, and a directory that has a name leads up to the root.
fn any_lookup(tree: &mut TreeFs, ctx: Context, parent: u64, name: CStr<'_>) -> Result<Entry, Fault>
    requires { IsTree tree.old }
    ensures counted { IfOk result (λ entry.
        lookups_of tree.new entry.inode ≡ lookups_of tree.old entry.inode + 1) }
    ensures limits { tree.new.limits ≡ tree.old.limits }
    ensures bytes { tree.new.used ≤ tree.old.limits.bytes }
    ensures inodes { tree.new.inodes ≤ max 1 tree.old.limits.nodes }
    ensures way_up { (n : ℕ) → IfSome (node_at tree.new n) (λ node.
        is_directory node.kind ≡ true → 0 < node.names → (k : ℕ) × (above tree.new k n ≡ 1)) }
{
    calls_keep_trees();
    tree.lookup(ctx, parent, name)
}

/// Request 9, DESTROY: a header alone, of 40 bytes.
const DESTROY: [u8; 40] = [
    40, 0, 0, 0, 38, 0, 0, 0, 9, 0, 0, 0, 0, 0, 0, 0, 0, 0, 0, 0, 0, 0, 0, 0, 0, 0, 0, 0, 0, 0, 0,
    0, 0, 0, 0, 0, 0, 0, 0, 0,
];

/// Hands over a session of one DESTROY, whatever the client held: no lookup of any node is held then,
/// each node that is left has a name, and the tree is still one. `None` where there is no memory for
/// the reader.
fn ended(
    alloc: Global,
    server: &mut Server<TreeFs>,
    writers: &mut [Writer],
    outcomes: &mut [Served<usize>],
) -> Option<()>
    requires tree { IsTree server.old.fs }
    requires room { length writers.old ≡ 1 }
    requires places { length outcomes.old ≡ 1 }
    ensures lookups { OnSome result
        ((n : ℕ) → n ≢ 0 → lookups_of server.new.fs n ≡ 0) }
    ensures names { OnSome result
        ((n : ℕ) → n ≢ 0 → IfSome (node_at server.new.fs n) (λ node. 0 < node.names)) }
    ensures bytes { OnSome result (server.new.fs.used ≤ server.new.fs.limits.bytes) }
{
    let segments = [DESTROY.as_slice()];
    let Ok(reader) = Reader::new(alloc, &segments) else {
        return None;
    };
    let Ok(readers) = vec![in alloc; reader] else {
        return None;
    };
    handle_session(server, alloc, readers, writers, outcomes);
    Some(())
}
