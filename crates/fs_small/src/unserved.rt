//! A file system that serves nothing: each call has its default answer. It is what a file system of
//! your own may begin with.

use std::io;
use vfs_files::{
    CallValue, Context, DirEntry, DirectoryIterator, Given, MigrateError, PartialFileSystem,
    ReadValue, SerializableFileSystem, WriteValue, ZeroCopyReader, ZeroCopyWriter, defaults,
    unserved,
};
use vfs_flags::Fault;

/// A directory without entries.
#[derive(Drop)]
pub struct NoEntries {}

impl DirectoryIterator for NoEntries {
    ghost use Rattle.std.specs.Prelude.{◌≡◌, None};

    ghost gives = { λ old item new. item ≡ None };

    fn next(&mut self) -> Option<DirEntry<'_>> {
        None
    }
}

/// Serves nothing: what is not served is answered by [`unserved`].
#[derive(Drop)]
pub struct Unserved {}

impl PartialFileSystem for Unserved {
    ghost use Rattle.std.specs.Prelude.{◌≡◌};
    ghost use Rattle.vfs_files.specs.Calls.{Plain, default_answer};

    type Entries = NoEntries;

    ghost permits = { λ old call handed new. handed ≡ Plain (default_answer call) };

    fn call(&mut self, asked: CallValue<'_>) -> Result<Given, Fault> {
        unserved(&asked)
    }

    fn read_data<W: ZeroCopyWriter>(
        &mut self,
        asked: ReadValue,
        w: &mut W,
    ) -> Result<usize, Fault> {
        defaults::no_such_call::<usize>()
    }

    fn write_data<R: ZeroCopyReader>(
        &mut self,
        asked: WriteValue,
        r: &mut R,
    ) -> Result<u32, Fault> {
        defaults::no_such_call::<u32>()
    }

    fn read_directory(
        &mut self,
        ctx: Context,
        inode: u64,
        handle: u64,
        size: u32,
        offset: u64,
    ) -> Result<NoEntries, Fault> {
        defaults::no_such_call::<NoEntries>()
    }
}

impl SerializableFileSystem for Unserved {
    ghost use Rattle.std.specs.Prelude.{◌≡◌};
    ghost use Rattle.vfs_files.specs.Migrations.{default_migration};

    ghost migrates = { λ old call answer new.
        (answer ≡ default_migration call) × (new ≡ old) };

    fn prepare_serialization(&mut self, cancel: bool) {
        defaults::prepare_serialization()
    }

    fn serialize<W: io::Write>(&mut self, w: &mut W) -> Result<(), MigrateError> {
        defaults::serialize()
    }

    fn deserialize_and_apply<R: io::Read>(&mut self, r: &mut R) -> Result<(), MigrateError> {
        defaults::deserialize_and_apply()
    }
}
