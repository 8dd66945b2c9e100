//! Names, and the lookups that the kernel counts.

ghost use Rattle.std.specs.Prelude.{◌≡◌, ◌*◌, nat_lt};
ghost use Rattle.vfs_wire.specs.Records.{forget_one};
ghost use Rattle.vfs_grammar.specs.Records.{size_of};
ghost use Rattle.vfs_server.specs.Handling.{Serves};

use crate::handlers::delivery::deliver_entry;
use crate::handlers::session::Session;
use vfs_files::{FileSystem, Number};
use vfs_flags::{Errno, Opcode, RENAME_FLAGS};
use vfs_grammar::Result;
use vfs_messages::{Request, reply_done, reply_failed, reply_text};
use vfs_segments::Writer;
use vfs_wire::{BatchForgetIn, ByteValued, ForgetIn, ForgetOne};
use vfs_wire_more::{LinkIn, MkdirIn, MknodIn, Rename2In, RenameIn};

impl<F: FileSystem> Session<F> {
    /// LOOKUP: the node of a name, which is the request's tail.
    pub(super) fn lookup(&mut self, mut q: Request<'_, '_>, w: &mut Writer) -> Result<usize>
        ensures { Serves F.allows F.DirIter.gives Opcode.Lookup q.entry
            self.old w.old result w.new self.new }
    {
        let name = q.name(0)?;
        let answer = self.fs.lookup(q.context(), q.node(), name.as_c_str());
        deliver_entry(&mut self.fs, q.header, answer, w)
    }

    /// FORGET (`struct fuse_forget_in`): lookups of a node are taken back. There is no reply.
    pub(super) fn forget(&mut self, mut q: Request<'_, '_>, w: &mut Writer) -> Result<usize>
        ensures { Serves F.allows F.DirIter.gives Opcode.Forget q.entry
            self.old w.old result w.new self.new }
    {
        let forget_in = q.record::<ForgetIn>()?;
        self.fs.forget(q.context(), q.node(), forget_in.nlookup);
        Ok(0)
    }

    /// Whether the pairs of a BATCH_FORGET are more than a payload may hold.
    fn has_too_many(&self, batch: &BatchForgetIn) -> bool
        ensures { result ≡
            nat_lt self.now.limits.max_buffer (batch.now.count * size_of forget_one) }
    {
        batch.count as usize * ForgetOne::SIZE > self.limits.max_buffer as usize
    }

    /// BATCH_FORGET (`struct fuse_batch_forget_in`): lookups of many nodes are taken back, as pairs
    /// after the record say. There is no reply, but to more pairs than a payload may hold.
    pub(super) fn batch_forget(&mut self, mut q: Request<'_, '_>, w: &mut Writer) -> Result<usize>
        ensures { Serves F.allows F.DirIter.gives Opcode.BatchForget q.entry
            self.old w.old result w.new self.new }
    {
        let batch = q.record::<BatchForgetIn>()?;
        if self.has_too_many(&batch) {
            return reply_failed(Some(Errno::ENOMEM), q.header.unique, w);
        }
        let pairs = q.pairs::<F::Inode>(batch.count)?;
        self.fs.batch_forget(q.context(), pairs);
        Ok(0)
    }

    /// READLINK: the text of a symbolic link. The request has no record.
    pub(super) fn readlink(&mut self, q: Request<'_, '_>, w: &mut Writer) -> Result<usize>
        ensures { Serves F.allows F.DirIter.gives Opcode.Readlink q.entry
            self.old w.old result w.new self.new }
    {
        let answer = self.fs.readlink(q.context(), q.node());
        reply_text(answer, q.header.unique, w)
    }

    /// SYMLINK: makes a symbolic link. The request has no record: the link's name and its text
    /// are in the tail, in this order, and the call takes the text first.
    pub(super) fn symlink(&mut self, mut q: Request<'_, '_>, w: &mut Writer) -> Result<usize>
        ensures { Serves F.allows F.DirIter.gives Opcode.Symlink q.entry
            self.old w.old result w.new self.new }
    {
        let (link, extensions) = q.link(self.options)?;
        let (name, text) = (link.name(), link.text());
        let answer = self
            .fs
            .symlink(q.context(), text, q.node(), name, extensions);
        deliver_entry(&mut self.fs, q.header, answer, w)
    }

    /// MKNOD (`struct fuse_mknod_in`): makes a file, a pipe, a socket or a device.
    pub(super) fn mknod(&mut self, mut q: Request<'_, '_>, w: &mut Writer) -> Result<usize>
        ensures { Serves F.allows F.DirIter.gives Opcode.Mknod q.entry
            self.old w.old result w.new self.new }
    {
        let mknod_in = q.record::<MknodIn>()?;
        let (name, extensions) = q.extended(self.options, MknodIn::SIZE)?;
        let answer = self.fs.mknod(
            q.context(),
            q.node(),
            name.as_c_str(),
            mknod_in.mode,
            mknod_in.rdev,
            mknod_in.umask,
            extensions,
        );
        deliver_entry(&mut self.fs, q.header, answer, w)
    }

    /// MKDIR (`struct fuse_mkdir_in`): makes a directory.
    pub(super) fn mkdir(&mut self, mut q: Request<'_, '_>, w: &mut Writer) -> Result<usize>
        ensures { Serves F.allows F.DirIter.gives Opcode.Mkdir q.entry
            self.old w.old result w.new self.new }
    {
        let mkdir_in = q.record::<MkdirIn>()?;
        let (name, extensions) = q.extended(self.options, MkdirIn::SIZE)?;
        let answer = self.fs.mkdir(
            q.context(),
            q.node(),
            name.as_c_str(),
            mkdir_in.mode,
            mkdir_in.umask,
            extensions,
        );
        deliver_entry(&mut self.fs, q.header, answer, w)
    }

    /// UNLINK: takes a file's name away.
    pub(super) fn unlink(&mut self, mut q: Request<'_, '_>, w: &mut Writer) -> Result<usize>
        ensures { Serves F.allows F.DirIter.gives Opcode.Unlink q.entry
            self.old w.old result w.new self.new }
    {
        let name = q.name(0)?;
        let answer = self.fs.unlink(q.context(), q.node(), name.as_c_str());
        reply_done(answer, q.header.unique, w)
    }

    /// RMDIR: takes an empty directory away.
    pub(super) fn rmdir(&mut self, mut q: Request<'_, '_>, w: &mut Writer) -> Result<usize>
        ensures { Serves F.allows F.DirIter.gives Opcode.Rmdir q.entry
            self.old w.old result w.new self.new }
    {
        let name = q.name(0)?;
        let answer = self.fs.rmdir(q.context(), q.node(), name.as_c_str());
        reply_done(answer, q.header.unique, w)
    }

    /// LINK (`struct fuse_link_in`): gives a node one more name. The header's node is the
    /// directory of the name, and the record's node gets it.
    pub(super) fn link(&mut self, mut q: Request<'_, '_>, w: &mut Writer) -> Result<usize>
        ensures { Serves F.allows F.DirIter.gives Opcode.Link q.entry
            self.old w.old result w.new self.new }
    {
        let link_in = q.record::<LinkIn>()?;
        let name = q.name(LinkIn::SIZE)?;
        let answer = self.fs.link(
            q.context(),
            F::Inode::from_number(link_in.oldnodeid),
            q.node(),
            name.as_c_str(),
        );
        deliver_entry(&mut self.fs, q.header, answer, w)
    }

    /// RENAME (`struct fuse_rename_in`): gives a node another name, in place of what has it.
    pub(super) fn rename(&mut self, mut q: Request<'_, '_>, w: &mut Writer) -> Result<usize>
        ensures { Serves F.allows F.DirIter.gives Opcode.Rename q.entry
            self.old w.old result w.new self.new }
    {
        let rename_in = q.record::<RenameIn>()?;
        let names = q.names(RenameIn::SIZE)?;
        let answer = self.fs.rename(
            q.context(),
            q.node(),
            names.first(),
            F::Inode::from_number(rename_in.newdir),
            names.second(),
            0,
        );
        reply_done(answer, q.header.unique, w)
    }

    /// RENAME2 (`struct fuse_rename2_in`): the same, with flags that say what becomes of what has
    /// the name.
    pub(super) fn rename2(&mut self, mut q: Request<'_, '_>, w: &mut Writer) -> Result<usize>
        ensures { Serves F.allows F.DirIter.gives Opcode.Rename2 q.entry
            self.old w.old result w.new self.new }
    {
        let rename2_in = q.record::<Rename2In>()?;
        let names = q.names(Rename2In::SIZE)?;
        let answer = self.fs.rename(
            q.context(),
            q.node(),
            names.first(),
            F::Inode::from_number(rename2_in.newdir),
            names.second(),
            rename2_in.flags & RENAME_FLAGS,
        );
        reply_done(answer, q.header.unique, w)
    }
}
