//! INIT, and what concerns the file system as a whole.

ghost use Rattle.vfs_server.specs.Handling.{Serves, Handles};
ghost use Rattle.vfs_grammar.specs.Forms.{ask_version};

use crate::handlers::session::Session;
use vfs_files::FileSystem;
use vfs_flags::Opcode;
use vfs_grammar::Result;
use vfs_messages::{
    Request, agreed_options, offered_options, read_second_flags, reply_done, reply_init,
    reply_unserved,
};
use vfs_segments::Writer;
use vfs_wire::{InHeader, InitInCompat};

impl<F: FileSystem> Session<F> {
    /// INIT (`struct fuse_init_in`): reads its one or two records.
    pub(super) fn init(&mut self, mut q: Request<'_, '_>, w: &mut Writer) -> Result<usize>
        ensures { Serves F.allows F.DirIter.gives Opcode.Init q.entry
            self.old w.old result w.new self.new }
    {
        let init_in = q.record::<InitInCompat>()?;
        let flags2 = read_second_flags(init_in.flags, q.r)?;
        self.init_version(q.header, &init_in, flags2, w)
    }

    /// INIT of this version: where it is served, both sides agree on options, which hold even
    /// where the reply does not fit.
    fn init_version(
        &mut self,
        header: &InHeader,
        init_in: &InitInCompat,
        flags2: u32,
        w: &mut Writer,
    ) -> Result<usize>
        ensures { Handles F.allows F.DirIter.gives ⊥ (ask_version header.now init_in.now flags2)
            self.old w.old result w.new self.new }
    {
        if let Some(outcome) = reply_unserved(header, init_in, w) {
            return outcome;
        }
        let offered = offered_options(init_in.flags, flags2);
        let answer = self.fs.init(offered);
        self.options = agreed_options(&answer, offered, self.options);
        reply_init(
            answer,
            self.options,
            self.limits,
            init_in.max_readahead,
            header.unique,
            w,
        )
    }

    /// SYNCFS: all that was written is to be kept for good. The record is not looked at.
    pub(super) fn syncfs(&mut self, q: Request<'_, '_>, w: &mut Writer) -> Result<usize>
        ensures { Serves F.allows F.DirIter.gives Opcode.Syncfs q.entry
            self.old w.old result w.new self.new }
    {
        let answer = self.fs.syncfs(q.context(), q.node());
        reply_done(answer, q.header.unique, w)
    }
}
