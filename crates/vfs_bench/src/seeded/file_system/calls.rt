//! The calls of the seeded file system: how each is noted, and what it answers.

ghost use Rattle.vfs_files.specs.Calls.{kind_of};
ghost use Rattle.vfs_files.specs.CallValue.{call_of, IsOfKind};

use super::SeededFs;
use crate::FsResult;
use crate::seeded::listing::DirectoryItems;
use crate::seeded::rules::statistics;
use bitflags::Flags;
use vfs_files::{
    AnswerKind, CallValue, Context, Given, PartialFileSystem, ReadValue, WriteValue,
    ZeroCopyReader, ZeroCopyWriter,
};
use vfs_flags::Errno;

impl SeededFs<'_> {
    // What a call answers.
    fn given(&self, asked: &CallValue<'_>) -> FsResult<Given>
        ensures { IsOfKind (kind_of (call_of asked.now)) result }
    {
        match asked {
            CallValue::Forget { .. } | CallValue::BatchForget { .. } | CallValue::Destroy => Ok(
                Given::Done,
            ),
            CallValue::Init { .. } => self.wanted(),
            CallValue::Lookup { ctx, name, .. } => self.found(ctx, *name),
            CallValue::Symlink { ctx, name, .. }
            | CallValue::Mknod { ctx, name, .. }
            | CallValue::Mkdir { ctx, name, .. } => self.made(ctx, *name),
            CallValue::Link { ctx, newname, .. } => self.made(ctx, *newname),
            CallValue::Getattr { ctx, inode, handle } => self.attributes(ctx, *inode, *handle),
            CallValue::Setattr {
                ctx,
                inode,
                attr,
                handle,
                valid,
            } => {
                let nlink = if handle.is_some() { 77 } else { 1 };
                self.changed(ctx, *inode, attr, nlink, valid.bits())
            }
            CallValue::Open { .. } | CallValue::Opendir { .. } => {
                let (handle, options) = self.source()?.opening();
                Ok(Given::Opened(handle, options))
            }
            CallValue::Create { ctx, name, .. } => {
                let (entry, handle, options) = self.source()?.creation(ctx, name.to_bytes());
                Ok(Given::Created(entry, handle, options))
            }
            CallValue::Statfs { .. } => Ok(Given::Statistics(statistics(self.source()?.as_seed()))),
            CallValue::Readlink { .. } => self.text(),
            CallValue::Getxattr { .. } | CallValue::Listxattr { .. } => self.attribute(),
            CallValue::Lseek { offset, .. } => {
                let seed = u64::from(self.source()?.as_seed());
                Ok(Given::Offset(if seed % 2 == 0 { *offset } else { seed }))
            }
            CallValue::Copyfilerange { len, .. } => {
                let seed = self.source()?.as_seed();
                Ok(Given::Wrote(u32::try_from(*len).unwrap_or(seed).min(seed)))
            }
            CallValue::Tmpfile => {
                self.source()?;
                Err(Some(Errno::ENOSYS))
            }
            _ => {
                self.source()?;
                Ok(Given::Done)
            }
        }
    }
}

// Each call notes itself, finds its answer, and notes that. Its relation allows every answer.
impl PartialFileSystem for SeededFs<'_> {
    ghost use Rattle.std.specs.Prelude.{⊤};

    type Entries = DirectoryItems;

    ghost permits = { λ old call handed new. ⊤ };

    fn call(&mut self, asked: CallValue<'_>) -> FsResult<Given> {
        self.notes.note_call(&asked);
        let answer = self.given(&asked);
        if !matches!(asked.kind(), AnswerKind::Quiet) {
            self.notes.note_answer(&answer);
        }
        answer
    }

    fn read_data<W: ZeroCopyWriter>(&mut self, asked: ReadValue, w: &mut W) -> FsResult<usize> {
        self.notes.note_read(
            &asked.ctx,
            asked.inode,
            asked.handle,
            asked.size,
            asked.offset,
            asked.lock_owner,
            asked.flags,
        );
        let answer = self.read_file(w, asked.size, asked.offset);
        self.notes.note_moved(&answer);
        answer
    }

    fn write_data<R: ZeroCopyReader>(&mut self, asked: WriteValue, r: &mut R) -> FsResult<u32> {
        self.notes.begin_transfer(
            "write",
            &asked.ctx,
            asked.inode,
            asked.handle,
            asked.size,
            asked.offset,
        );
        self.notes.end_write(
            asked.lock_owner,
            asked.delayed_write,
            asked.kill_priv,
            asked.flags,
        );
        let answer = self.write_file(r, asked.size, asked.offset);
        self.notes.note_moved(&answer);
        match answer {
            Ok(count) => Ok(count as u32),
            Err(fault) => Err(fault),
        }
    }

    fn read_directory(
        &mut self,
        ctx: Context,
        inode: u64,
        handle: u64,
        size: u32,
        offset: u64,
    ) -> FsResult<DirectoryItems> {
        self.notes.note_readdir(&ctx, inode, handle, size, offset);
        let answer = self.listing(offset);
        self.notes.note_listed(&answer);
        answer
    }
}
