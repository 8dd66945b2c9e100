//! A tree over the history of its server, in whatever calls the requests came.

ghost use Rattle.laws_tree.specs.Histories.{HistoriesKeepTrees, NewTreesAreKept, TellingLeavesLookups};

use crate::laws::{calls_keep_trees, new_ones_are_trees, readings_move_a_time};
use fs_tree::TreeFs;
use laws_history::laws::{history_has_turns, history_keeps_books};
use vfs_server::laws::books::turns_keep_books;

/// Over any history of a server a tree stays one, whatever its clients ask, if its owner does nothing to it
/// between requests but what leaves it one, with the lookups that are held. An INIT and a DESTROY take
/// back every lookup: since the last of them the lookups of each node that are held are those that were
/// delivered to the client without those that it gave back, if it never gave back more than it had. So a
/// client that gave back all that it had leaves no node but those that names lead to.
pub fn histories_keep_trees()
    ensures { HistoriesKeepTrees }
{
    calls_keep_trees();
    readings_move_a_time();
    history_has_turns::<TreeFs>();
    turns_keep_books();
}

/// Telling a tree the time leaves it one, with the lookups that are held.
pub fn telling_leaves_lookups()
    ensures { TellingLeavesLookups }
{}

/// From a new tree on, over any requests and tellings of the time: the books are kept, the tree is one,
/// just those lookups are held that the last client had and did not give back, and what it gave back and
/// has no name is gone.
pub fn new_trees_are_kept()
    ensures { NewTreesAreKept }
{
    new_ones_are_trees();
    history_keeps_books::<TreeFs>();
    histories_keep_trees();
    telling_leaves_lookups();
}
