//! Locks. Their records are not looked at, and only a fault is replied.

ghost use Rattle.vfs_server.specs.Handling.{Serves};

use crate::handlers::session::Session;
use vfs_files::FileSystem;
use vfs_flags::Opcode;
use vfs_grammar::Result;
use vfs_messages::{Request, reply_fault};
use vfs_segments::Writer;

impl<F: FileSystem> Session<F> {
    /// GETLK: asks for a lock that is in the way.
    pub(super) fn getlk(&mut self, q: Request<'_, '_>, w: &mut Writer) -> Result<usize>
        ensures { Serves F.allows F.DirIter.gives Opcode.Getlk q.entry
            self.old w.old result w.new self.new }
    {
        let answer = self.fs.getlk();
        reply_fault(answer, q.header.unique, w)
    }

    /// SETLK: takes or gives up a lock, without waiting.
    pub(super) fn setlk(&mut self, q: Request<'_, '_>, w: &mut Writer) -> Result<usize>
        ensures { Serves F.allows F.DirIter.gives Opcode.Setlk q.entry
            self.old w.old result w.new self.new }
    {
        let answer = self.fs.setlk();
        reply_fault(answer, q.header.unique, w)
    }

    /// SETLKW: takes or gives up a lock, waiting for it.
    pub(super) fn setlkw(&mut self, q: Request<'_, '_>, w: &mut Writer) -> Result<usize>
        ensures { Serves F.allows F.DirIter.gives Opcode.Setlkw q.entry
            self.old w.old result w.new self.new }
    {
        let answer = self.fs.setlkw();
        reply_fault(answer, q.header.unique, w)
    }
}
