//! Open files.

ghost use Rattle.vfs_server.specs.Handling.{Serves};

use crate::handlers::delivery::deliver_created;
use crate::handlers::session::Session;
use vfs_files::{FileSystem, Number};
use vfs_flags::{FSYNC_FDATASYNC, OPEN_KILL_SUIDGID, Opcode, RELEASE_FLOCK_UNLOCK, RELEASE_FLUSH};
use vfs_grammar::Result;
use vfs_messages::{
    Request, is_set, number_if, reply_done, reply_fault_alone, reply_offset, reply_opened,
    reply_written,
};
use vfs_segments::Writer;
use vfs_wire::ByteValued;
use vfs_wire_more::{
    CopyfilerangeIn, CreateIn, FallocateIn, FlushIn, FsyncIn, LseekIn, OpenIn, ReleaseIn,
};

impl<F: FileSystem> Session<F> {
    /// OPEN (`struct fuse_open_in`): opens a file.
    pub(super) fn open(&mut self, mut q: Request<'_, '_>, w: &mut Writer) -> Result<usize>
        ensures { Serves F.allows F.DirIter.gives Opcode.Open q.entry
            self.old w.old result w.new self.new }
    {
        let open_in = q.record::<OpenIn>()?;
        let kill_priv = is_set(open_in.open_flags, OPEN_KILL_SUIDGID);
        let answer = self
            .fs
            .open(q.context(), q.node(), kill_priv, open_in.flags);
        reply_opened::<F::Handle>(answer, q.header.unique, w)
    }

    /// CREATE (`struct fuse_create_in`): makes a file and opens it.
    pub(super) fn create(&mut self, mut q: Request<'_, '_>, w: &mut Writer) -> Result<usize>
        ensures { Serves F.allows F.DirIter.gives Opcode.Create q.entry
            self.old w.old result w.new self.new }
    {
        let create_in = q.record::<CreateIn>()?;
        let (name, extensions) = q.extended(self.options, CreateIn::SIZE)?;
        let answer = self.fs.create(
            q.context(),
            q.node(),
            name.as_c_str(),
            create_in.mode,
            is_set(create_in.open_flags, OPEN_KILL_SUIDGID),
            create_in.flags,
            create_in.umask,
            extensions,
        );
        deliver_created(&mut self.fs, q.header, answer, w)
    }

    /// RELEASE (`struct fuse_release_in`): a file is closed. The owner of locks is passed where
    /// they are to be given up.
    pub(super) fn release(&mut self, mut q: Request<'_, '_>, w: &mut Writer) -> Result<usize>
        ensures { Serves F.allows F.DirIter.gives Opcode.Release q.entry
            self.old w.old result w.new self.new }
    {
        let release_in = q.record::<ReleaseIn>()?;
        let flags = release_in.release_flags;
        let owner = number_if(
            flags,
            RELEASE_FLUSH | RELEASE_FLOCK_UNLOCK,
            release_in.lock_owner,
        );
        let handle = F::Handle::from_number(release_in.fh);
        let answer = self.fs.release(
            q.context(),
            q.node(),
            release_in.flags,
            handle,
            is_set(flags, RELEASE_FLUSH),
            is_set(flags, RELEASE_FLOCK_UNLOCK),
            owner,
        );
        reply_done(answer, q.header.unique, w)
    }

    /// FSYNC (`struct fuse_fsync_in`): what was written to a file is to be kept for good.
    pub(super) fn fsync(&mut self, mut q: Request<'_, '_>, w: &mut Writer) -> Result<usize>
        ensures { Serves F.allows F.DirIter.gives Opcode.Fsync q.entry
            self.old w.old result w.new self.new }
    {
        let fsync_in = q.record::<FsyncIn>()?;
        let datasync = is_set(fsync_in.fsync_flags, FSYNC_FDATASYNC);
        let handle = F::Handle::from_number(fsync_in.fh);
        let answer = self.fs.fsync(q.context(), q.node(), datasync, handle);
        reply_done(answer, q.header.unique, w)
    }

    /// FLUSH (`struct fuse_flush_in`): one of the descriptors of an open file is closed.
    pub(super) fn flush(&mut self, mut q: Request<'_, '_>, w: &mut Writer) -> Result<usize>
        ensures { Serves F.allows F.DirIter.gives Opcode.Flush q.entry
            self.old w.old result w.new self.new }
    {
        let flush_in = q.record::<FlushIn>()?;
        let handle = F::Handle::from_number(flush_in.fh);
        let answer = self
            .fs
            .flush(q.context(), q.node(), handle, flush_in.lock_owner);
        reply_done(answer, q.header.unique, w)
    }

    /// FALLOCATE (`struct fuse_fallocate_in`): room in a file is made or given up.
    pub(super) fn fallocate(&mut self, mut q: Request<'_, '_>, w: &mut Writer) -> Result<usize>
        ensures { Serves F.allows F.DirIter.gives Opcode.Fallocate q.entry
            self.old w.old result w.new self.new }
    {
        let fallocate_in = q.record::<FallocateIn>()?;
        let handle = F::Handle::from_number(fallocate_in.fh);
        let answer = self.fs.fallocate(
            q.context(),
            q.node(),
            handle,
            fallocate_in.mode,
            fallocate_in.offset,
            fallocate_in.length,
        );
        reply_done(answer, q.header.unique, w)
    }

    /// LSEEK (`struct fuse_lseek_in`): the next data or hole of a file.
    pub(super) fn lseek(&mut self, mut q: Request<'_, '_>, w: &mut Writer) -> Result<usize>
        ensures { Serves F.allows F.DirIter.gives Opcode.Lseek q.entry
            self.old w.old result w.new self.new }
    {
        let lseek_in = q.record::<LseekIn>()?;
        let handle = F::Handle::from_number(lseek_in.fh);
        let answer = self.fs.lseek(
            q.context(),
            q.node(),
            handle,
            lseek_in.offset,
            lseek_in.whence,
        );
        reply_offset(answer, q.header.unique, w)
    }

    /// COPY_FILE_RANGE (`struct fuse_copy_file_range_in`): copies bytes from one file to another.
    pub(super) fn copyfilerange(&mut self, mut q: Request<'_, '_>, w: &mut Writer) -> Result<usize>
        ensures { Serves F.allows F.DirIter.gives Opcode.CopyFileRange q.entry
            self.old w.old result w.new self.new }
    {
        let range = q.record::<CopyfilerangeIn>()?;
        let answer = self.fs.copyfilerange(
            q.context(),
            q.node(),
            F::Handle::from_number(range.fh_in),
            range.off_in,
            F::Inode::from_number(range.nodeid_out),
            F::Handle::from_number(range.fh_out),
            range.off_out,
            range.len,
            range.flags,
        );
        reply_written(answer, q.header.unique, w)
    }

    /// TMPFILE: makes a file without a name, which no file system does. Only the fault is replied.
    pub(super) fn tmpfile(&mut self, q: Request<'_, '_>, w: &mut Writer) -> Result<usize>
        ensures { Serves F.allows F.DirIter.gives Opcode.TmpFile q.entry
            self.old w.old result w.new self.new }
    {
        let fault = self.fs.tmpfile();
        reply_fault_alone(fault, q.header.unique, w)
    }
}
