//! File systems for tests and for hosts that want to see what a client asks: one that notes the
//! calls of another, and one that answers what its maker says. `seeded` has one for tests, whose
//! answers follow from a seed.
#![tactic(auto)]

mod directory;
mod file;
pub mod laws;
mod note;
mod outcome;
mod recorder;
mod script;
pub mod seeded;

use vfs_flags::Fault;

/// What a call comes to: its answer, or its fault.
pub type FsResult<T> = Result<T, Fault>;

pub use directory::{ScriptDirectory, ScriptEntries, ScriptItem};
pub use file::ScriptFile;
pub use note::{Note, NoteKind};
pub use recorder::Recorder;
pub use script::Script;
