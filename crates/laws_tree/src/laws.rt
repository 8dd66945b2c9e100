//! Laws of the relation of a tree's calls.

ghost use Rattle.laws_tree.specs.Laws.{CallsKeepBirths, CallsKeepTrees, NewOnesAreTrees, ReadingsMoveATime};
ghost use Rattle.laws_tree.specs.Runs.{RunsKeepTrees};

/// A new tree is one: each name leads to a node that is there, as many as a node says lead to it, each
/// directory leads up to the root, and what is in use is within the limits. No lookup is held.
pub fn new_ones_are_trees()
    ensures { NewOnesAreTrees }
{}

/// A call keeps a tree one, whatever it asks. Lookups of a node are held as before, with those that the
/// call gives and without those that it takes back.
pub fn calls_keep_trees()
    ensures { CallsKeepTrees }
{}

/// A reading of a directory that begins moves the directory's time of access at most: a tree stays one,
/// and so do the lookups that are held.
pub fn readings_move_a_time()
    ensures { ReadingsMoveATime }
{}

/// A run keeps a tree one, and counts lookups likewise.
pub fn runs_keep_trees()
    ensures { RunsKeepTrees }
{
    calls_keep_trees();
    readings_move_a_time();
}

/// A node that a call makes is born at the time that the tree was told last. No call moves the time of birth of
/// another.
pub fn calls_keep_births()
    ensures { CallsKeepBirths }
{}
