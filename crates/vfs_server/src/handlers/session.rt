//! A session, and the way of a request to its handler.

ghost use Rattle.std.specs.Prelude.{◌≡◌, length};
ghost use Rattle.vfs_flags.specs.Numbers.{opcode_of};
ghost use Rattle.vfs_files.specs.Calls.{Destroy};
ghost use Rattle.vfs_files.specs.Answers.{Plain, Done};
ghost use Rattle.vfs_grammar.specs.Words.{ask_header};
ghost use Rattle.vfs_server.specs.Handling.{Handles, Serves};
ghost use Rattle.vfs_server.specs.MemoryByPieces.{MayWantAfter};

use bitflags::Flags;
use std::marker::Model;
use vfs_files::FileSystem;
use vfs_flags::{Errno, FsOptions, Opcode};
use vfs_grammar::{Limits, Result};
use vfs_messages::{Request, reply_failed, reply_fault};
use vfs_segments::Writer;

/// A client's session with a file system: what a server is between two requests.
///
/// Contracts see the agreed options, the limits, and the state of the file system.
#[derive(Drop)]
pub struct Session<F> {
    /// The file system.
    pub fs: F,
    /// The options that the last accepted INIT agreed on; none before, and none after a DESTROY.
    pub options: FsOptions,
    /// The sizes within which requests are handled.
    pub limits: Limits,
}

impl<F> Model for Session<F> {
    ghost use Rattle.vfs_flags.specs.Flags.{fs_options_bits};
    ghost use Rattle.vfs_grammar.specs.Limits.{AreLimits};
    ghost use Rattle.vfs_server.specs.State.{ServerState};

    ghost Value = { ServerState F };

    ghost view = { λ s. record {
      options = fs_options_bits s.options;
      limits = s.limits;
      fs = s.fs;
    } };

    ghost invariant = { λ s. AreLimits s.limits };
}

impl<F: FileSystem> Session<F> {
    /// Ends the session without a request: calls the file system's `destroy`, and no options are
    /// agreed then. Answers 0, the length of the reply to a DESTROY, which has none.
    pub fn destroy(&mut self) -> usize
        ensures called { F.allows self.old.fs Destroy (Plain Done) self.new.fs }
        ensures no_options { self.new.options ≡ 0 }
        ensures same_limits { self.new.limits ≡ self.old.limits }
        ensures length { result ≡ 0 }
    {
        self.fs.destroy();
        self.options = FsOptions::empty();
        0
    }

    /// Handles a request by its header, and answers the reply's length in bytes, 0 where there is
    /// none. A `len` above the limit and an unknown opcode are replied here.
    pub fn handle_header(&mut self, q: Request<'_, '_>, w: &mut Writer) -> Result<usize>
        ensures { let header = q.entry.header.now in
            let reader = q.entry.r.now in
            Handles F.allows F.DirIter.gives
            (MayWantAfter self.old.limits self.old.options (length w.old.left)
            (opcode_of header.opcode) header reader.pieces)
            (ask_header self.old.limits self.old.options (length w.old.left) header reader.left)
            self.old w.old result w.new self.new }
    {
        if q.header.len > self.limits.max_len() {
            return reply_failed(Some(Errno::ENOMEM), q.header.unique, w);
        }
        match Opcode::try_from(q.header.opcode) {
            Ok(opcode) => self.dispatch(opcode, q, w),
            Err(()) => reply_failed(Some(Errno::ENOSYS), q.header.unique, w),
        }
    }

    /// Handles a request by its opcode. Where no handler is named, no record is looked at, and of BMAP,
    /// IOCTL, POLL and NOTIFY_REPLY a fault alone is replied.
    #[tactic(auto)]
    fn dispatch(&mut self, opcode: Opcode, q: Request<'_, '_>, w: &mut Writer) -> Result<usize>
        ensures { Serves F.allows F.DirIter.gives opcode q.entry
            self.old w.old result w.new self.new }
    {
        match opcode {
            Opcode::Lookup => self.lookup(q, w),
            Opcode::Forget => self.forget(q, w),
            Opcode::Getattr => self.getattr(q, w),
            Opcode::Setattr => self.setattr(q, w),
            Opcode::Readlink => self.readlink(q, w),
            Opcode::Symlink => self.symlink(q, w),
            Opcode::Mknod => self.mknod(q, w),
            Opcode::Mkdir => self.mkdir(q, w),
            Opcode::Unlink => self.unlink(q, w),
            Opcode::Rmdir => self.rmdir(q, w),
            Opcode::Rename => self.rename(q, w),
            Opcode::Link => self.link(q, w),
            Opcode::Open => self.open(q, w),
            Opcode::Read => self.read(q, w),
            Opcode::Write => self.write(q, w),
            Opcode::Statfs => self.statfs(q, w),
            Opcode::Release => self.release(q, w),
            Opcode::Fsync => self.fsync(q, w),
            Opcode::Setxattr => self.setxattr(q, w),
            Opcode::Getxattr => self.getxattr(q, w),
            Opcode::Listxattr => self.listxattr(q, w),
            Opcode::Removexattr => self.removexattr(q, w),
            Opcode::Flush => self.flush(q, w),
            Opcode::Init => self.init(q, w),
            Opcode::Opendir => self.opendir(q, w),
            Opcode::Readdir => self.list(q, false, w),
            Opcode::Releasedir => self.releasedir(q, w),
            Opcode::Fsyncdir => self.fsyncdir(q, w),
            Opcode::Getlk => self.getlk(q, w),
            Opcode::Setlk => self.setlk(q, w),
            Opcode::Setlkw => self.setlkw(q, w),
            Opcode::Access => self.access(q, w),
            Opcode::Create => self.create(q, w),
            Opcode::Interrupt => Ok(0),
            Opcode::Bmap => reply_fault(self.fs.bmap(), q.header.unique, w),
            Opcode::Destroy => Ok(self.destroy()),
            Opcode::Ioctl => reply_fault(self.fs.ioctl(), q.header.unique, w),
            Opcode::Poll => reply_fault(self.fs.poll(), q.header.unique, w),
            Opcode::NotifyReply => reply_fault(self.fs.notify_reply(), q.header.unique, w),
            Opcode::BatchForget => self.batch_forget(q, w),
            Opcode::Fallocate => self.fallocate(q, w),
            Opcode::Readdirplus => self.list(q, true, w),
            Opcode::Rename2 => self.rename2(q, w),
            Opcode::Lseek => self.lseek(q, w),
            Opcode::CopyFileRange => self.copyfilerange(q, w),
            Opcode::Syncfs => self.syncfs(q, w),
            Opcode::TmpFile => self.tmpfile(q, w),
            Opcode::SetupMapping | Opcode::RemoveMapping => {
                reply_failed(Some(Errno::ENOSYS), q.header.unique, w)
            }
        }
    }
}
