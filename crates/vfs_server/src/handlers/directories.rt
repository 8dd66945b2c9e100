//! Open directories, and what is read of them.

ghost use Rattle.std.specs.Prelude.{◌≡◌, length};
ghost use Rattle.vfs_wire_more.specs.Records.{read_in};
ghost use Rattle.vfs_grammar.specs.Ask.{listing_of, lists_too_much};
ghost use Rattle.vfs_grammar.specs.Forms.{Directories, Record, ask_form};
ghost use Rattle.vfs_server.specs.Handling.{Handles, Serves};

use crate::handlers::session::Session;
use vfs_files::{FileSystem, Number};
use vfs_flags::{Errno, FSYNC_FDATASYNC, Opcode};
use vfs_grammar::Result;
use vfs_listings::read_directory;
use vfs_messages::{
    Request, hold_header, is_set, reply_data, reply_done, reply_failed, reply_opened,
};
use vfs_segments::Writer;
use vfs_wire_more::{FsyncIn, OpenIn, ReadIn, ReleaseIn};

impl<F: FileSystem> Session<F> {
    /// OPENDIR (`struct fuse_open_in`): opens a directory.
    pub(super) fn opendir(&mut self, mut q: Request<'_, '_>, w: &mut Writer) -> Result<usize>
        ensures { Serves F.allows F.DirIter.gives Opcode.Opendir q.entry
            self.old w.old result w.new self.new }
    {
        let open_in = q.record::<OpenIn>()?;
        let answer = self.fs.opendir(q.context(), q.node(), open_in.flags);
        reply_opened::<F::Handle>(answer, q.header.unique, w)
    }

    /// Whether a directory's records may have more bytes than a payload may hold, or than there is
    /// room for: the place of the reply's header counts as room here.
    fn is_too_much(&self, read_in: &ReadIn, w: &Writer) -> bool
        ensures { result ≡ lists_too_much self.now.limits (length w.now.left) read_in.now }
    {
        read_in.size > self.limits.max_buffer || read_in.size as usize > w.available_bytes()
    }

    /// READDIR and READDIRPLUS (`struct fuse_read_in`): the records of a directory's items, with
    /// `plus` each with what a LOOKUP of it answers. They are put into the room after the place of
    /// the reply's header, which is filled in last.
    pub(super) fn list(
        &mut self,
        mut q: Request<'_, '_>,
        plus: bool,
        w: &mut Writer,
    ) -> Result<usize>
        ensures { let header = q.entry.header.now in
            Handles F.allows F.DirIter.gives ⊥
            (ask_form header q.entry.r.now.left
            (Directories (Record read_in) (lists_too_much self.old.limits (length w.old.left))
            (length w.old.left) (listing_of plus header)))
            self.old w.old result w.new self.new }
    {
        let read_in = q.record::<ReadIn>()?;
        if self.is_too_much(&read_in, w) {
            return reply_failed(Some(Errno::ENOMEM), q.header.unique, w);
        }
        hold_header(w)?;
        let answer = read_directory(&mut self.fs, q.header, &read_in, plus, w);
        reply_data(answer, q.header.unique, w)
    }

    /// RELEASEDIR (`struct fuse_release_in`): a directory is closed.
    pub(super) fn releasedir(&mut self, mut q: Request<'_, '_>, w: &mut Writer) -> Result<usize>
        ensures { Serves F.allows F.DirIter.gives Opcode.Releasedir q.entry
            self.old w.old result w.new self.new }
    {
        let release_in = q.record::<ReleaseIn>()?;
        let handle = F::Handle::from_number(release_in.fh);
        let answer = self
            .fs
            .releasedir(q.context(), q.node(), release_in.flags, handle);
        reply_done(answer, q.header.unique, w)
    }

    /// FSYNCDIR (`struct fuse_fsync_in`): what was changed in a directory is to be kept for good.
    pub(super) fn fsyncdir(&mut self, mut q: Request<'_, '_>, w: &mut Writer) -> Result<usize>
        ensures { Serves F.allows F.DirIter.gives Opcode.Fsyncdir q.entry
            self.old w.old result w.new self.new }
    {
        let fsync_in = q.record::<FsyncIn>()?;
        let datasync = is_set(fsync_in.fsync_flags, FSYNC_FDATASYNC);
        let handle = F::Handle::from_number(fsync_in.fh);
        let answer = self.fs.fsyncdir(q.context(), q.node(), datasync, handle);
        reply_done(answer, q.header.unique, w)
    }
}
