//! Extended attributes.

ghost use Rattle.vfs_server.specs.Handling.{Serves};

use crate::handlers::session::Session;
use vfs_files::FileSystem;
use vfs_flags::{Errno, Opcode};
use vfs_grammar::Result;
use vfs_messages::{
    Request, further_flags, name_of_tail, reply_done, reply_failed, reply_names, reply_value,
    setxattr_size,
};
use vfs_segments::Writer;
use vfs_wire::ByteValued;
use vfs_wire_more::GetxattrIn;

impl<F: FileSystem> Session<F> {
    /// LISTXATTR (`struct fuse_getxattr_in`): the names of a node's extended attributes, or how
    /// many bytes they have.
    pub(super) fn listxattr(&mut self, mut q: Request<'_, '_>, w: &mut Writer) -> Result<usize>
        ensures { Serves F.allows F.DirIter.gives Opcode.Listxattr q.entry
            self.old w.old result w.new self.new }
    {
        let getxattr_in = q.record::<GetxattrIn>()?;
        if getxattr_in.size > self.limits.max_buffer {
            return reply_failed(Some(Errno::ENOMEM), q.header.unique, w);
        }
        let answer = self.fs.listxattr(q.context(), q.node(), getxattr_in.size);
        reply_names(answer, q.header.unique, w)
    }

    /// SETXATTR (`struct fuse_setxattr_in`): sets an extended attribute. Its record has further
    /// flags where SETXATTR_EXT is agreed.
    pub(super) fn setxattr(&mut self, mut q: Request<'_, '_>, w: &mut Writer) -> Result<usize>
        ensures { Serves F.allows F.DirIter.gives Opcode.Setxattr q.entry
            self.old w.old result w.new self.new }
    {
        let setxattr_in = q.setxattr_record(self.options)?;
        let size = setxattr_size(self.options);
        let part = q.name_and_value(size, setxattr_in.size)?;
        let answer = self.fs.setxattr(
            q.context(),
            q.node(),
            part.as_c_str(),
            part.rest(),
            setxattr_in.flags,
            further_flags(setxattr_in.setxattr_flags),
        );
        reply_done(answer, q.header.unique, w)
    }

    /// GETXATTR (`struct fuse_getxattr_in`): the value of an extended attribute, or how many
    /// bytes it has. The limit of its size is judged when the tail was read, before its name is.
    pub(super) fn getxattr(&mut self, mut q: Request<'_, '_>, w: &mut Writer) -> Result<usize>
        ensures { Serves F.allows F.DirIter.gives Opcode.Getxattr q.entry
            self.old w.old result w.new self.new }
    {
        let getxattr_in = q.record::<GetxattrIn>()?;
        let tail = q.tail(GetxattrIn::SIZE)?;
        if getxattr_in.size > self.limits.max_buffer {
            return reply_failed(Some(Errno::ENOMEM), q.header.unique, w);
        }
        let name = name_of_tail(tail)?;
        let answer = self
            .fs
            .getxattr(q.context(), q.node(), name.as_c_str(), getxattr_in.size);
        reply_value(answer, q.header.unique, w)
    }

    /// REMOVEXATTR: takes an extended attribute away.
    pub(super) fn removexattr(&mut self, mut q: Request<'_, '_>, w: &mut Writer) -> Result<usize>
        ensures { Serves F.allows F.DirIter.gives Opcode.Removexattr q.entry
            self.old w.old result w.new self.new }
    {
        let name = q.name(0)?;
        let answer = self.fs.removexattr(q.context(), q.node(), name.as_c_str());
        reply_done(answer, q.header.unique, w)
    }
}
