//! A file system that notes the calls of another.

ghost use Rattle.std.specs.Prelude.{◌≡◌, [], false, length, map, option_map, IfOk, IfErr};
ghost use Rattle.vfs_flags.specs.Flags.{setattr_valid_bits};
ghost use Rattle.vfs_flags.specs.Numbers.{number_of};
ghost use Rattle.vfs_files.specs.Calls.{Getattr, Setattr, BatchForget, out_of_memory};
ghost use Rattle.vfs_files.specs.Answers.{Plain, Done, attr_answer, entry_answer};
ghost use Rattle.vfs_bench.specs.Notes.{asked, unanswered};
ghost use Rattle.vfs_bench.specs.Outcomes.{plain_outcome};
ghost use Rattle.vfs_bench.specs.Recorded.{IsNoted, recorded};

use crate::FsResult;
use crate::note::Note;
use crate::outcome::Outcome;
use std::alloc::Global;
use std::marker::Model;
use std::time::Duration;
use vfs_files::{
    CStr, Context, Entry, Extensions, FileSystem, GetxattrReply, ListxattrReply, Number,
    ZeroCopyReader, ZeroCopyWriter,
};
use vfs_flags::{Errno, Fault, FsOptions, Opcode, OpenOptions, SetattrValid, SetxattrFlags};
use vfs_wire::{Attr, SetattrIn, Statvfs64};

/// Notes the calls of a file system, once they are answered, as many as it has places for.
///
/// It answers what the file system inside answers. A call that finds no place is answered too, and
/// [`missed`](Recorder::missed) says from then on that one was.
#[derive(Drop)]
pub struct Recorder<F> {
    inner: F,
    notes: Vec<Note>,
    places: usize,
    missed: bool,
}

impl<F> Model for Recorder<F> {
    ghost use Rattle.std.specs.Prelude.{◌≤◌, vec_capacity};
    ghost use Rattle.vfs_bench.specs.Recorded.{Recorded};

    ghost Value = { Recorded F };

    ghost view = { λ r. record {
      inner = r.inner;
      notes = r.notes.items;
      places = r.places;
      missed = r.missed;
    } };

    ghost invariant = { λ r. r.places ≤ vec_capacity r.notes };
}

impl<F> Recorder<F> {
    /// Notes the calls of this file system, up to `n` of them: takes the room for their notes at
    /// once, so that noting takes none. Want of memory, which lets go of the file system, is
    /// ENOMEM.
    pub fn new(alloc: Global, inner: F, n: usize) -> FsResult<Recorder<F>>
    where
        F: Drop,
        ensures made { IfOk result (λ recorder. recorder ≡ record {
          inner = inner;
          notes = [];
          places = n;
          missed = false;
        }) }
        ensures memory { IfErr result (λ fault. fault ≡ out_of_memory) }
    {
        match Vec::with_capacity(alloc, n) {
            Ok(notes) => Ok(Recorder {
                inner,
                notes,
                places: n,
                missed: false,
            }),
            Err(_) => Err(Some(Errno::ENOMEM)),
        }
    }

    /// The notes, in the order of the calls.
    pub fn notes(&self) -> &[Note]
        ensures { result.now ≡ self.now.notes }
    {
        &self.notes
    }

    /// Whether a call was made that found no place for its note.
    pub fn missed(&self) -> bool
        ensures { result ≡ self.now.missed }
    {
        self.missed
    }

    /// The file system inside.
    pub fn inner(&self) -> &F
        ensures { result.now ≡ self.now.inner }
    {
        &self.inner
    }

    /// The file system inside; the notes are gone.
    pub fn into_inner(self) -> F
        ensures { result ≡ self.inner }
    {
        let Recorder {
            inner,
            notes: _,
            places: _,
            missed: _,
        } = self;
        inner
    }

    /// Forgets the notes, and that a call was missed: there are as many places as at the beginning.
    pub fn clear(&mut self)
        ensures { self.new ≡ record self.old { notes = []; missed = false } }
    {
        self.notes.clear();
        self.missed = false;
    }

    /// Notes a call, where there is a place.
    fn note(&mut self, note: Note)
        ensures inner { self.new.inner ≡ self.old.inner }
        ensures noted { IsNoted self.old note self.new }
    {
        if self.notes.len() < self.places {
            match self.notes.push(note) {
                Ok(()) => {}
                Err(_) => self.missed = true,
            }
        } else {
            self.missed = true;
        }
    }

    /// Notes a call that has no answer.
    fn note_told(&mut self, opcode: Opcode, node: u64, count: u64)
        ensures inner { self.new.inner ≡ self.old.inner }
        ensures noted { IsNoted self.old (unanswered (number_of opcode) node count) self.new }
    {
        self.note_call(opcode, node, count, Outcome::NOTHING);
    }

    /// Notes a call with its outcome.
    fn note_asked(&mut self, opcode: Opcode, node: u64, outcome: Outcome)
        ensures inner { self.new.inner ≡ self.old.inner }
        ensures noted { IsNoted self.old (record {
          call = number_of opcode;
          node = node;
          count = 0;
          kind = outcome.kind;
          value = outcome.value;
        }) self.new }
    {
        self.note_call(opcode, node, 0, outcome);
    }

    /// Notes a call whose answer names no node.
    fn note_answer<T>(&mut self, opcode: Opcode, node: u64, answer: &FsResult<T>)
        ensures inner { self.new.inner ≡ self.old.inner }
        ensures noted { IsNoted self.old (record {
          call = number_of opcode;
          node = node;
          count = 0;
          kind = (plain_outcome answer.now).kind;
          value = (plain_outcome answer.now).value;
        }) self.new }
    {
        self.note_call(opcode, node, 0, Outcome::of(answer));
    }

    /// Notes a call that answers an entry.
    fn note_entry(&mut self, opcode: Opcode, node: u64, answer: &FsResult<Entry>)
        ensures inner { self.new.inner ≡ self.old.inner }
        ensures noted { IsNoted self.old (asked (number_of opcode) node
            (entry_answer answer.now)) self.new }
    {
        self.note_call(opcode, node, 0, Outcome::of_entry(answer));
    }

    /// Notes a call.
    fn note_call(&mut self, opcode: Opcode, node: u64, count: u64, outcome: Outcome)
        ensures inner { self.new.inner ≡ self.old.inner }
        ensures noted { IsNoted self.old (record {
          call = number_of opcode;
          node = node;
          count = count;
          kind = outcome.kind;
          value = outcome.value;
        }) self.new }
    {
        self.note(Note {
            call: opcode as u32,
            node,
            count,
            kind: outcome.kind,
            value: outcome.value,
        });
    }
}

#[tactic(auto, using(crate::proofs::PlainOutcomes::plain_outcomes))]
impl<F: FileSystem> FileSystem for Recorder<F> {
    type Inode = F::Inode;

    type Handle = F::Handle;

    type DirIter = F::DirIter;

    ghost allows = { recorded F.allows };

    fn lookup(&mut self, ctx: Context, parent: F::Inode, name: CStr<'_>) -> FsResult<Entry> {
        let node = parent.number();
        let answer = self.inner.lookup(ctx, parent, name);
        self.note_entry(Opcode::Lookup, node, &answer);
        answer
    }

    fn forget(&mut self, ctx: Context, inode: F::Inode, count: u64) {
        let node = inode.number();
        self.inner.forget(ctx, inode, count);
        self.note_told(Opcode::Forget, node, count);
    }

    fn getattr(
        &mut self,
        ctx: Context,
        inode: F::Inode,
        handle: Option<F::Handle>,
    ) -> FsResult<(Attr, Duration)>
        ensures { recorded F.allows self.old
            (Getattr ctx (F.Inode.value inode) (option_map F.Handle.value handle))
            (Plain (attr_answer result))
            self.new }
    {
        let node = inode.number();
        let answer = self.inner.getattr(ctx, inode, handle);
        self.note_answer(Opcode::Getattr, node, &answer);
        answer
    }

    fn setattr(
        &mut self,
        ctx: Context,
        inode: F::Inode,
        attr: SetattrIn,
        handle: Option<F::Handle>,
        valid: SetattrValid,
    ) -> FsResult<(Attr, Duration)>
        ensures { recorded F.allows self.old
            (Setattr ctx (F.Inode.value inode) attr (option_map F.Handle.value handle)
            (setattr_valid_bits valid))
            (Plain (attr_answer result))
            self.new }
    {
        let node = inode.number();
        let answer = self.inner.setattr(ctx, inode, attr, handle, valid);
        self.note_answer(Opcode::Setattr, node, &answer);
        answer
    }

    fn readlink(&mut self, ctx: Context, inode: F::Inode) -> FsResult<Vec<u8>> {
        let node = inode.number();
        let answer = self.inner.readlink(ctx, inode);
        self.note_answer(Opcode::Readlink, node, &answer);
        answer
    }

    fn symlink(
        &mut self,
        ctx: Context,
        linkname: CStr<'_>,
        parent: F::Inode,
        name: CStr<'_>,
        ext: Extensions,
    ) -> FsResult<Entry> {
        let node = parent.number();
        let answer = self.inner.symlink(ctx, linkname, parent, name, ext);
        self.note_entry(Opcode::Symlink, node, &answer);
        answer
    }

    fn mknod(
        &mut self,
        ctx: Context,
        inode: F::Inode,
        name: CStr<'_>,
        mode: u32,
        rdev: u32,
        umask: u32,
        ext: Extensions,
    ) -> FsResult<Entry> {
        let node = inode.number();
        let answer = self.inner.mknod(ctx, inode, name, mode, rdev, umask, ext);
        self.note_entry(Opcode::Mknod, node, &answer);
        answer
    }

    fn mkdir(
        &mut self,
        ctx: Context,
        parent: F::Inode,
        name: CStr<'_>,
        mode: u32,
        umask: u32,
        ext: Extensions,
    ) -> FsResult<Entry> {
        let node = parent.number();
        let answer = self.inner.mkdir(ctx, parent, name, mode, umask, ext);
        self.note_entry(Opcode::Mkdir, node, &answer);
        answer
    }

    fn unlink(&mut self, ctx: Context, parent: F::Inode, name: CStr<'_>) -> FsResult<()> {
        let node = parent.number();
        let answer = self.inner.unlink(ctx, parent, name);
        self.note_answer(Opcode::Unlink, node, &answer);
        answer
    }

    fn rmdir(&mut self, ctx: Context, parent: F::Inode, name: CStr<'_>) -> FsResult<()> {
        let node = parent.number();
        let answer = self.inner.rmdir(ctx, parent, name);
        self.note_answer(Opcode::Rmdir, node, &answer);
        answer
    }

    fn rename(
        &mut self,
        ctx: Context,
        olddir: F::Inode,
        oldname: CStr<'_>,
        newdir: F::Inode,
        newname: CStr<'_>,
        flags: u32,
    ) -> FsResult<()> {
        let node = olddir.number();
        let answer = self
            .inner
            .rename(ctx, olddir, oldname, newdir, newname, flags);
        self.note_answer(Opcode::Rename, node, &answer);
        answer
    }

    fn link(
        &mut self,
        ctx: Context,
        inode: F::Inode,
        newparent: F::Inode,
        newname: CStr<'_>,
    ) -> FsResult<Entry> {
        let node = inode.number();
        let answer = self.inner.link(ctx, inode, newparent, newname);
        self.note_entry(Opcode::Link, node, &answer);
        answer
    }

    fn open(
        &mut self,
        ctx: Context,
        inode: F::Inode,
        kill_priv: bool,
        flags: u32,
    ) -> FsResult<(Option<F::Handle>, OpenOptions)> {
        let node = inode.number();
        let answer = self.inner.open(ctx, inode, kill_priv, flags);
        self.note_answer(Opcode::Open, node, &answer);
        answer
    }

    fn read<W: ZeroCopyWriter>(
        &mut self,
        ctx: Context,
        inode: F::Inode,
        handle: F::Handle,
        w: &mut W,
        size: u32,
        offset: u64,
        lock_owner: Option<u64>,
        flags: u32,
    ) -> FsResult<usize> {
        let node = inode.number();
        let answer = self
            .inner
            .read(ctx, inode, handle, w, size, offset, lock_owner, flags);
        self.note_answer(Opcode::Read, node, &answer);
        answer
    }

    fn write<R: ZeroCopyReader>(
        &mut self,
        ctx: Context,
        inode: F::Inode,
        handle: F::Handle,
        r: &mut R,
        size: u32,
        offset: u64,
        lock_owner: Option<u64>,
        delayed_write: bool,
        kill_priv: bool,
        flags: u32,
    ) -> FsResult<u32> {
        let node = inode.number();
        let answer = self.inner.write(
            ctx,
            inode,
            handle,
            r,
            size,
            offset,
            lock_owner,
            delayed_write,
            kill_priv,
            flags,
        );
        self.note_answer(Opcode::Write, node, &answer);
        answer
    }

    fn statfs(&mut self, ctx: Context, inode: F::Inode) -> FsResult<Statvfs64> {
        let node = inode.number();
        let answer = self.inner.statfs(ctx, inode);
        self.note_answer(Opcode::Statfs, node, &answer);
        answer
    }

    fn release(
        &mut self,
        ctx: Context,
        inode: F::Inode,
        flags: u32,
        handle: F::Handle,
        flush: bool,
        flock_release: bool,
        lock_owner: Option<u64>,
    ) -> FsResult<()> {
        let node = inode.number();
        let answer = self.inner.release(
            ctx,
            inode,
            flags,
            handle,
            flush,
            flock_release,
            lock_owner,
        );
        self.note_answer(Opcode::Release, node, &answer);
        answer
    }

    fn fsync(
        &mut self,
        ctx: Context,
        inode: F::Inode,
        datasync: bool,
        handle: F::Handle,
    ) -> FsResult<()> {
        let node = inode.number();
        let answer = self.inner.fsync(ctx, inode, datasync, handle);
        self.note_answer(Opcode::Fsync, node, &answer);
        answer
    }

    fn setxattr(
        &mut self,
        ctx: Context,
        inode: F::Inode,
        name: CStr<'_>,
        value: &[u8],
        flags: u32,
        extra: SetxattrFlags,
    ) -> FsResult<()> {
        let node = inode.number();
        let answer = self.inner.setxattr(ctx, inode, name, value, flags, extra);
        self.note_answer(Opcode::Setxattr, node, &answer);
        answer
    }

    fn getxattr(
        &mut self,
        ctx: Context,
        inode: F::Inode,
        name: CStr<'_>,
        size: u32,
    ) -> FsResult<GetxattrReply> {
        let node = inode.number();
        let answer = self.inner.getxattr(ctx, inode, name, size);
        self.note_answer(Opcode::Getxattr, node, &answer);
        answer
    }

    fn listxattr(&mut self, ctx: Context, inode: F::Inode, size: u32) -> FsResult<ListxattrReply> {
        let node = inode.number();
        let answer = self.inner.listxattr(ctx, inode, size);
        self.note_answer(Opcode::Listxattr, node, &answer);
        answer
    }

    fn removexattr(&mut self, ctx: Context, inode: F::Inode, name: CStr<'_>) -> FsResult<()> {
        let node = inode.number();
        let answer = self.inner.removexattr(ctx, inode, name);
        self.note_answer(Opcode::Removexattr, node, &answer);
        answer
    }

    fn flush(
        &mut self,
        ctx: Context,
        inode: F::Inode,
        handle: F::Handle,
        lock_owner: u64,
    ) -> FsResult<()> {
        let node = inode.number();
        let answer = self.inner.flush(ctx, inode, handle, lock_owner);
        self.note_answer(Opcode::Flush, node, &answer);
        answer
    }

    fn init(&mut self, capable: FsOptions) -> FsResult<FsOptions> {
        let answer = self.inner.init(capable);
        self.note_answer(Opcode::Init, 0, &answer);
        answer
    }

    fn opendir(
        &mut self,
        ctx: Context,
        inode: F::Inode,
        flags: u32,
    ) -> FsResult<(Option<F::Handle>, OpenOptions)> {
        let node = inode.number();
        let answer = self.inner.opendir(ctx, inode, flags);
        self.note_answer(Opcode::Opendir, node, &answer);
        answer
    }

    fn readdir(
        &mut self,
        ctx: Context,
        inode: F::Inode,
        handle: F::Handle,
        size: u32,
        offset: u64,
    ) -> FsResult<F::DirIter> {
        let node = inode.number();
        let answer = self.inner.readdir(ctx, inode, handle, size, offset);
        self.note_answer(Opcode::Readdir, node, &answer);
        answer
    }

    fn releasedir(
        &mut self,
        ctx: Context,
        inode: F::Inode,
        flags: u32,
        handle: F::Handle,
    ) -> FsResult<()> {
        let node = inode.number();
        let answer = self.inner.releasedir(ctx, inode, flags, handle);
        self.note_answer(Opcode::Releasedir, node, &answer);
        answer
    }

    fn fsyncdir(
        &mut self,
        ctx: Context,
        inode: F::Inode,
        datasync: bool,
        handle: F::Handle,
    ) -> FsResult<()> {
        let node = inode.number();
        let answer = self.inner.fsyncdir(ctx, inode, datasync, handle);
        self.note_answer(Opcode::Fsyncdir, node, &answer);
        answer
    }

    fn getlk(&mut self) -> FsResult<()> {
        let answer = self.inner.getlk();
        self.note_answer(Opcode::Getlk, 0, &answer);
        answer
    }

    fn setlk(&mut self) -> FsResult<()> {
        let answer = self.inner.setlk();
        self.note_answer(Opcode::Setlk, 0, &answer);
        answer
    }

    fn setlkw(&mut self) -> FsResult<()> {
        let answer = self.inner.setlkw();
        self.note_answer(Opcode::Setlkw, 0, &answer);
        answer
    }

    fn access(&mut self, ctx: Context, inode: F::Inode, mask: u32) -> FsResult<()> {
        let node = inode.number();
        let answer = self.inner.access(ctx, inode, mask);
        self.note_answer(Opcode::Access, node, &answer);
        answer
    }

    fn create(
        &mut self,
        ctx: Context,
        parent: F::Inode,
        name: CStr<'_>,
        mode: u32,
        kill_priv: bool,
        flags: u32,
        umask: u32,
        ext: Extensions,
    ) -> FsResult<(Entry, Option<F::Handle>, OpenOptions)> {
        let node = parent.number();
        let answer = self
            .inner
            .create(ctx, parent, name, mode, kill_priv, flags, umask, ext);
        self.note_asked(Opcode::Create, node, Outcome::of_created(&answer));
        answer
    }

    fn bmap(&mut self) -> FsResult<()> {
        let answer = self.inner.bmap();
        self.note_answer(Opcode::Bmap, 0, &answer);
        answer
    }

    fn destroy(&mut self) {
        self.inner.destroy();
        self.note_told(Opcode::Destroy, 0, 0);
    }

    fn ioctl(&mut self) -> FsResult<()> {
        let answer = self.inner.ioctl();
        self.note_answer(Opcode::Ioctl, 0, &answer);
        answer
    }

    fn poll(&mut self) -> FsResult<()> {
        let answer = self.inner.poll();
        self.note_answer(Opcode::Poll, 0, &answer);
        answer
    }

    fn notify_reply(&mut self) -> FsResult<()> {
        let answer = self.inner.notify_reply();
        self.note_answer(Opcode::NotifyReply, 0, &answer);
        answer
    }

    fn batch_forget(&mut self, ctx: Context, requests: Vec<(F::Inode, u64)>)
        ensures { recorded F.allows self.old
            (BatchForget ctx (map (λ p. (F.Inode.value p.0, p.1)) requests.items))
            (Plain Done)
            self.new }
    {
        let count = requests.len() as u64;
        self.inner.batch_forget(ctx, requests);
        self.note_told(Opcode::BatchForget, 0, count);
    }

    fn fallocate(
        &mut self,
        ctx: Context,
        inode: F::Inode,
        handle: F::Handle,
        mode: u32,
        offset: u64,
        length: u64,
    ) -> FsResult<()> {
        let node = inode.number();
        let answer = self
            .inner
            .fallocate(ctx, inode, handle, mode, offset, length);
        self.note_answer(Opcode::Fallocate, node, &answer);
        answer
    }

    fn lseek(
        &mut self,
        ctx: Context,
        inode: F::Inode,
        handle: F::Handle,
        offset: u64,
        whence: u32,
    ) -> FsResult<u64> {
        let node = inode.number();
        let answer = self.inner.lseek(ctx, inode, handle, offset, whence);
        self.note_answer(Opcode::Lseek, node, &answer);
        answer
    }

    fn copyfilerange(
        &mut self,
        ctx: Context,
        inode_in: F::Inode,
        handle_in: F::Handle,
        offset_in: u64,
        inode_out: F::Inode,
        handle_out: F::Handle,
        offset_out: u64,
        len: u64,
        flags: u64,
    ) -> FsResult<u32> {
        let node = inode_in.number();
        let answer = self.inner.copyfilerange(
            ctx, inode_in, handle_in, offset_in, inode_out, handle_out, offset_out, len, flags,
        );
        self.note_answer(Opcode::CopyFileRange, node, &answer);
        answer
    }

    fn syncfs(&mut self, ctx: Context, inode: F::Inode) -> FsResult<()> {
        let node = inode.number();
        let answer = self.inner.syncfs(ctx, inode);
        self.note_answer(Opcode::Syncfs, node, &answer);
        answer
    }

    fn tmpfile(&mut self) -> Fault {
        let fault = self.inner.tmpfile();
        self.note_asked(Opcode::TmpFile, 0, Outcome::of_fault(&fault));
        fault
    }
}
