//! A session with a tree, and what its books say of the tree.

ghost use Rattle.std.specs.Prelude.{◌≡◌, length, vec_len};
ghost use Rattle.vfs_server.specs.Session.{IsSession};
ghost use Rattle.vfs_files.specs.Listing.{GivesFirst};
ghost use Rattle.fs_tree.specs.Tree.{TreeAllows};
ghost use Rattle.laws_tree.specs.Laws.{IsTree};
ghost use Rattle.laws_tree.specs.Runs.{KeepsTree, LeavesNone};

use crate::history::histories_keep_trees;
use fs_tree::TreeFs;
use laws_history::laws::sessions_are_histories;
use std::alloc::Global;
use vfs_grammar::Result;
use vfs_segments::{Reader, Writer};
use vfs_server::server::Server;

/// Handles requests in order, as [`Server::handle_session`] does, with a tree.
///
/// A tree stays one, whatever a client asks. An INIT and a DESTROY take back every lookup: since the
/// last of them the lookups of each node that are held are those that were delivered to the client
/// without those that it gave back, if it never gave back more than it had. So after a DESTROY, and
/// after a client that gave back all that it had, no node is left but those that names lead to.
pub fn handle_session(
    server: &mut Server<TreeFs>,
    alloc: Global,
    readers: Vec<Reader<'_>>,
    writers: &mut [Writer],
    outcomes: &mut [Result<usize>],
)
    requires writers { length writers.old ≡ vec_len readers }
    requires outcomes { length outcomes.old ≡ vec_len readers }
    ensures { IsTree server.old.fs →
        (session : IsSession TreeAllows GivesFirst server.old readers.entry.items writers.old
        outcomes.new writers.new server.new)
        × KeepsTree server.old.fs session.turns server.new.fs
        × LeavesNone server.old.fs session.turns server.new.fs }
{
    sessions_are_histories::<TreeFs>();
    histories_keep_trees();
    server.handle_session(alloc, readers, writers, outcomes);
}
