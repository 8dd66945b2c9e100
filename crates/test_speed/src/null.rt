//! A file system that does next to nothing: what a request over it costs is the server's own work.

ghost use Rattle.std.specs.Prelude.{⊤};

use std::time::Duration;
use vfs_files::{
    CStr, CallValue, Context, DirEntry, DirectoryIterator, Entry, Given, PartialFileSystem,
    ReadValue, WriteValue, ZeroCopyReader, ZeroCopyWriter, unserved,
};
use vfs_flags::{Errno, Fault, FsOptions, MAX_REPLY_DATA};
use vfs_segments::{PositionedFile, Slices, SlicesMut, WritevFlags};
use vfs_wire::Attr;

/// The result of a call, or its fault.
type FsResult<T> = Result<T, Fault>;

/// The kind and permissions of a file.
const FILE_MODE: u32 = 0o100644;

/// The kind and permissions of a directory.
const DIRECTORY_MODE: u32 = 0o40755;

/// How many entries a directory has.
const ENTRIES: u64 = 1000;

// The attributes of a node.
fn attr(node: u64, mode: u32, nlink: u32, size: u64) -> Attr {
    Attr {
        ino: node,
        size,
        mode,
        nlink,
        blksize: 4096,
        ..Attr::default()
    }
}

// The entry of the node that these attributes are of.
fn entry(attr: Attr, generation: u64) -> Entry {
    Entry {
        inode: attr.ino,
        generation,
        attr,
        attr_timeout: Duration::from_secs(1),
        entry_timeout: Duration::from_secs(1),
    }
}

/// A file that says it moved all that it was lent, and touches no byte.
#[derive(Drop)]
pub struct NullFile {}

impl PositionedFile for NullFile {
    ghost write_gives = { λ old bytes off flags answer new. ⊤ };

    ghost read_gives = { λ old off room answer bytes new. ⊤ };

    fn write_vectored_at(
        &mut self,
        view: &Slices<'_>,
        off: u64,
        flags: Option<WritevFlags>,
    ) -> FsResult<usize> {
        Ok(view.total())
    }

    fn read_vectored_at(&mut self, view: &mut SlicesMut<'_>, off: u64) -> FsResult<usize> {
        Ok(view.total())
    }
}

/// Entries that differ in their numbers alone.
#[derive(Drop)]
pub struct NullEntries {
    name: CStr<'static>,
    next: u64,
}

impl DirectoryIterator for NullEntries {
    ghost gives = { λ old item new. ⊤ };

    fn next(&mut self) -> Option<DirEntry<'_>> {
        if self.next >= ENTRIES {
            return None;
        }
        let place = self.next;
        self.next = place + 1;
        Some(DirEntry {
            ino: place + 2,
            offset: place + 1,
            type_: 8,
            name: self.name,
        })
    }
}

/// It has no state, and each directory has the same entries.
#[derive(Drop)]
pub struct NullFs {}

impl PartialFileSystem for NullFs {
    type Entries = NullEntries;

    ghost permits = { λ old call handed new. ⊤ };

    #[inline(always)]
    fn call(&mut self, asked: CallValue<'_>) -> FsResult<Given> {
        match asked {
            CallValue::Init { .. } => Ok(Given::Options(FsOptions::SECURITY_CTX)),
            CallValue::Lookup { .. } => Ok(Given::Found(entry(attr(2, FILE_MODE, 1, 0), 0))),
            CallValue::Getattr { inode, .. } => {
                let attr = attr(inode, FILE_MODE, 1, 0);
                Ok(Given::Attributes(attr, Duration::from_secs(1)))
            }
            CallValue::Mkdir { ext, .. } => {
                let context = match &ext.secctx {
                    Some(context) => context.secctx.len() as u64,
                    None => 0,
                };
                Ok(Given::Found(entry(attr(3, DIRECTORY_MODE, 2, 0), context)))
            }
            CallValue::Setxattr { .. } => Ok(Given::Done),
            other => unserved(&other),
        }
    }

    fn read_data<W: ZeroCopyWriter>(&mut self, asked: ReadValue, w: &mut W) -> FsResult<usize> {
        w.read_from_file_at(
            &mut NullFile {},
            asked.size.min(MAX_REPLY_DATA) as usize,
            asked.offset,
        )
    }

    fn write_data<R: ZeroCopyReader>(&mut self, asked: WriteValue, r: &mut R) -> FsResult<u32> {
        match r.write_to_file_at(&mut NullFile {}, asked.size as usize, asked.offset, None) {
            Ok(count) => Ok(count as u32),
            Err(fault) => Err(fault),
        }
    }

    fn read_directory(
        &mut self,
        ctx: Context,
        inode: u64,
        handle: u64,
        size: u32,
        offset: u64,
    ) -> FsResult<NullEntries> {
        match CStr::from_bytes_with_nul(b"file-0123456789-0000\0") {
            Some(name) => Ok(NullEntries { name, next: offset }),
            None => Err(Some(Errno::EIO)),
        }
    }
}
