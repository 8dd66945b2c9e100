//! The contents of open files: READ and WRITE. The room of the reply, or the rest of the request,
//! is lent to the file system for its call; no byte of a file is copied here.

ghost use Rattle.std.specs.Prelude.{◌≡◌, length};
ghost use Rattle.vfs_files.specs.Calls.{Read};
ghost use Rattle.vfs_files.specs.Values.{context_of};
ghost use Rattle.vfs_flags.specs.declared.constants.TheConstants.{READ_LOCKOWNER};
ghost use Rattle.vfs_grammar.specs.Ask.{if_set};
ghost use Rattle.vfs_server.specs.Handling.{Serves, ReadsInto};

use crate::handlers::session::Session;
use crate::transfers::{ZcReader, ZcWriter};
use std::alloc::Global;
use std::mem;
use vfs_files::{FileSystem, Number};
use vfs_flags::{Fault, Opcode, READ_LOCKOWNER, WRITE_CACHE, WRITE_KILL_PRIV, WRITE_LOCKOWNER};
use vfs_grammar::Result;
use vfs_messages::{Request, hold_header, is_set, number_if, reply_data, reply_written};
use vfs_segments::{Reader, Writer};
use vfs_wire_more::{ReadIn, WriteIn};

/// A reader of all that this one has left, which has nothing left then. It takes no memory.
fn take_rest<'a>(alloc: Global, r: &mut Reader<'a>) -> Reader<'a>
    ensures { result.left ≡ r.old.left }
{
    mem::replace(r, Reader::empty(alloc))
}

impl<F: FileSystem> Session<F> {
    /// READ (`struct fuse_read_in`): the data go straight into the room, after the place of their
    /// header, which is filled in last.
    pub(super) fn read(&mut self, mut q: Request<'_, '_>, w: &mut Writer) -> Result<usize>
        ensures { Serves F.allows F.DirIter.gives Opcode.Read q.entry
            self.old w.old result w.new self.new }
    {
        let read_in = q.record::<ReadIn>()?;
        hold_header(w)?;
        let answer = self.read_into(&q, &read_in, w);
        reply_data(answer, q.header.unique, w)
    }

    /// Lends the writer to the file system, which puts the data of a READ into it.
    fn read_into(
        &mut self,
        q: &Request<'_, '_>,
        read_in: &ReadIn,
        w: &mut Writer,
    ) -> std::result::Result<usize, Fault>
        ensures { ReadsInto F.allows
            (Read (context_of q.now.header.now) q.now.header.now.nodeid read_in.now.fh
            (length w.old.left)
            read_in.now.size read_in.now.offset
            (if_set read_in.now.read_flags READ_LOCKOWNER read_in.now.lock_owner)
            read_in.now.flags)
            read_in.now.size self.old w.old result w.new self.new }
    {
        let mut lent = ZcWriter(mem::replace(w, Writer::empty(q.alloc)));
        let answer = self.fs.read(
            q.context(),
            q.node(),
            F::Handle::from_number(read_in.fh),
            &mut lent,
            read_in.size,
            read_in.offset,
            number_if(read_in.read_flags, READ_LOCKOWNER, read_in.lock_owner),
            read_in.flags,
        );
        let ZcWriter(writer) = lent;
        *w = writer;
        answer
    }

    /// WRITE (`struct fuse_write_in`): all bytes after the record are passed on, as they are.
    pub(super) fn write(&mut self, mut q: Request<'_, '_>, w: &mut Writer) -> Result<usize>
        ensures { Serves F.allows F.DirIter.gives Opcode.Write q.entry
            self.old w.old result w.new self.new }
    {
        let write_in = q.record::<WriteIn>()?;
        let flags = write_in.write_flags;
        let mut rest = ZcReader(take_rest(q.alloc, q.r));
        let answer = self.fs.write(
            q.context(),
            q.node(),
            F::Handle::from_number(write_in.fh),
            &mut rest,
            write_in.size,
            write_in.offset,
            number_if(flags, WRITE_LOCKOWNER, write_in.lock_owner),
            is_set(flags, WRITE_CACHE),
            is_set(flags, WRITE_KILL_PRIV),
            write_in.flags,
        );
        reply_written(answer, q.header.unique, w)
    }
}
