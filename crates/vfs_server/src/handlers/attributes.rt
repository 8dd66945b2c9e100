//! Attributes of nodes, and what a file system holds.

ghost use Rattle.vfs_server.specs.Handling.{Serves};

use crate::handlers::session::Session;
use vfs_files::FileSystem;
use vfs_flags::{FATTR_FH, GETATTR_FH, Opcode};
use vfs_grammar::Result;
use vfs_messages::{Request, handle_if, known_valid, reply_attr, reply_done, reply_statistics};
use vfs_segments::Writer;
use vfs_wire::{GetattrIn, SetattrIn};
use vfs_wire_more::AccessIn;

impl<F: FileSystem> Session<F> {
    /// GETATTR (`struct fuse_getattr_in`): the attributes of a node, through a handle where the
    /// request says one.
    pub(super) fn getattr(&mut self, mut q: Request<'_, '_>, w: &mut Writer) -> Result<usize>
        ensures { Serves F.allows F.DirIter.gives Opcode.Getattr q.entry
            self.old w.old result w.new self.new }
    {
        let getattr_in = q.record::<GetattrIn>()?;
        let handle = handle_if::<F::Handle>(getattr_in.flags, GETATTR_FH, getattr_in.fh);
        let answer = self.fs.getattr(q.context(), q.node(), handle);
        reply_attr(answer, q.header.unique, w)
    }

    /// SETATTR (`struct fuse_setattr_in`): changes attributes of a node. The record is passed on as
    /// it is, and its `valid` apart, cut to what is known.
    pub(super) fn setattr(&mut self, mut q: Request<'_, '_>, w: &mut Writer) -> Result<usize>
        ensures { Serves F.allows F.DirIter.gives Opcode.Setattr q.entry
            self.old w.old result w.new self.new }
    {
        let setattr_in = q.record::<SetattrIn>()?;
        let handle = handle_if::<F::Handle>(setattr_in.valid, FATTR_FH, setattr_in.fh);
        let valid = known_valid(setattr_in.valid);
        let answer = self
            .fs
            .setattr(q.context(), q.node(), setattr_in, handle, valid);
        reply_attr(answer, q.header.unique, w)
    }

    /// ACCESS (`struct fuse_access_in`): whether the caller may use a node so.
    pub(super) fn access(&mut self, mut q: Request<'_, '_>, w: &mut Writer) -> Result<usize>
        ensures { Serves F.allows F.DirIter.gives Opcode.Access q.entry
            self.old w.old result w.new self.new }
    {
        let access_in = q.record::<AccessIn>()?;
        let answer = self.fs.access(q.context(), q.node(), access_in.mask);
        reply_done(answer, q.header.unique, w)
    }

    /// STATFS: what the file system holds. The request has no record.
    pub(super) fn statfs(&mut self, q: Request<'_, '_>, w: &mut Writer) -> Result<usize>
        ensures { Serves F.allows F.DirIter.gives Opcode.Statfs q.entry
            self.old w.old result w.new self.new }
    {
        let answer = self.fs.statfs(q.context(), q.node());
        reply_statistics(answer, q.header.unique, w)
    }
}
