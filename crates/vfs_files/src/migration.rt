//! The state of a file system, carried over to another host.

ghost use Rattle.vfs_files.specs.Migrations.{MigrationCall, PrepareSerialization, Serialize, DeserializeAndApply, MigrationAnswer, Prepared, Migrated, Traffic, IsWritten, IsTaken};

use std::fmt::{self, Display, Formatter};
use std::io;
use thiserror::Error;
use vfs_flags::Fault;

/// Why the state of a file system was not carried over.
#[derive(Clone, Copy, Debug, PartialEq, Eq, Error)]
pub enum MigrateError {
    /// The file system has no state that can be carried over.
    #[error("the state of the file system can't be carried over")]
    Unsupported,
    /// It could not be written, read or put in place.
    #[error("the state of the file system was not carried over: {}", Shown(.0))]
    Failed(Fault),
}

/// Shows a fault by its error, or says that it has none.
#[derive(Clone, Copy)]
struct Shown<'a>(&'a Fault);

impl Display for Shown<'_> {
    fn fmt<W: fmt::Write>(&self, f: &mut Formatter<W>) -> fmt::Result {
        match self.0 {
            Some(errno) => write!(f, "{errno}"),
            None => f.write_str("no error is named"),
        }
    }
}

/// A file system whose state can be carried over to another host, where a second one goes on with
/// it.
///
/// The module [`defaults`](crate::defaults) has the answers of calls that a file system doesn't
/// serve.
pub trait SerializableFileSystem {
    /// From the old state the call may give this answer and leave the new state.
    ghost migrates: { Self → MigrationCall → MigrationAnswer → Self → Type 0 };

    /// Says that the state is to be written soon, so that `serialize` has less to do. With `cancel`
    /// it no longer is, and what was prepared may be let go.
    fn prepare_serialization(&mut self, cancel: bool)
        ensures { migrates self.old (PrepareSerialization cancel) Prepared self.new };

    /// Writes the state to `w`, on the host that the client leaves. `Unsupported` where there is no
    /// such state.
    fn serialize<W: io::Write>(&mut self, w: &mut W) -> Result<(), MigrateError>
        ensures { (traffic : Traffic) × IsWritten W.contents w.old result traffic w.new
            × migrates self.old Serialize (Migrated result traffic) self.new };

    /// Reads from `r` what `serialize` wrote, on the host that the client comes to, and puts it in
    /// the place of the own state. `Unsupported` where that can't be done.
    fn deserialize_and_apply<R: io::Read>(&mut self, r: &mut R) -> Result<(), MigrateError>
        ensures { (traffic : Traffic) × IsTaken R.remaining r.old result traffic r.new
            × migrates self.old DeserializeAndApply (Migrated result traffic) self.new };
}
