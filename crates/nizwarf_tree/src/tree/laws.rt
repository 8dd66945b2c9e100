//! What holds of the tree after a server, in whatever calls the messages came. A library over another
//! file system has no such file.

ghost use Rattle.nizwarf_tree.specs.TreeLaws.{HistoriesAreKept};

use laws_tree::history::new_trees_are_kept;

/// After all messages and tellings of the time since a server was made: the books of lookups and forgets
/// are kept; its tree is one; just those lookups are held that the last client had and did not give back;
/// and of what it gave back nothing is left but what has a name.
pub fn histories_are_kept()
    ensures { HistoriesAreKept }
{
    new_trees_are_kept();
}
