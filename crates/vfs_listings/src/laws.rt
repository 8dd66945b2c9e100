//! What holds of every directory that was read: a law, which does nothing, and whose clause says what
//! was proved.

ghost use Rattle.std.specs.Prelude.{ℕ, Bool, Option, Result as Outcome};
ghost use Rattle.vfs_segments.specs.Written.{Written};
ghost use Rattle.vfs_files.specs.declared.entry.Context.{Context};
ghost use Rattle.vfs_listings.specs.Reading.{ReadsDirectory, RunsDirectory};

use vfs_files::FileSystem;

/// A directory that was read, or could not be opened, is a run of the file system, which begins
/// with no iterator at hand: its events are those of a whole READDIR or READDIRPLUS.
pub fn readings_are_runs<F: FileSystem>()
    ensures { (ctx : Context) (plus : Bool) (parent handle size offset : ℕ)
        (old : F) (writer : Written) (result : Outcome ℕ (Option ℕ)) (new : F) (writer_after : Written) →
        ReadsDirectory F.allows F.DirIter.gives ctx plus parent handle size offset
        old writer result new writer_after →
        RunsDirectory F.allows F.DirIter.gives ctx plus parent handle size offset
        old writer result new writer_after }
{}
