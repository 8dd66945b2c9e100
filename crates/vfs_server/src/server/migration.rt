//! The state of a server's file system, carried over to another host.

use super::Server;
use std::io;
use vfs_files::{MigrateError, SerializableFileSystem};

/// Each call is passed on to the file system; the agreed options and the limits stay.
impl<F: SerializableFileSystem> SerializableFileSystem for Server<F> {
    ghost use Rattle.vfs_server.specs.Step.{migrates_over};

    ghost migrates = { migrates_over F.migrates };

    fn prepare_serialization(&mut self, cancel: bool) {
        self.session.fs.prepare_serialization(cancel)
    }

    fn serialize<W: io::Write>(&mut self, w: &mut W) -> Result<(), MigrateError> {
        self.session.fs.serialize(w)
    }

    fn deserialize_and_apply<R: io::Read>(&mut self, r: &mut R) -> Result<(), MigrateError> {
        self.session.fs.deserialize_and_apply(r)
    }
}
