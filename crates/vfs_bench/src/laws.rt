//! What holds of every recorder by its definitions.

ghost use Rattle.vfs_bench.specs.Recorded.{NotesTheCalls};

use vfs_files::FileSystem;

/// The new notes of a recorder are those of the calls that were made, in order.
///
/// Where a run of the recorder's file system ends with no call missed, its notes at the end are
/// those at the start and then one for each call of the run.
pub fn notes_are_the_calls<F: FileSystem>()
    ensures { NotesTheCalls F.allows F.DirIter.gives }
{}
