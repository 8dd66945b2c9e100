//! A file system that notes the call that it is asked for, and holds the answer back.

ghost use Rattle.std.specs.Prelude.{◌≡◌, ◌+◌, ◌<◌, ◌^◌, [], None};
ghost use Rattle.vfs_flags.specs.Flags.{setattr_valid_bits};
ghost use Rattle.vfs_files.specs.Calls.{Getattr, Setattr, Read, Write, Readdir, BatchForget, Plain, Done};
ghost use Rattle.vfs_files.specs.Answers.{attr_answer};
ghost use Rattle.vfs_files.specs.Values.{extension_values_of};
ghost use Rattle.codec_calls.specs.Asked.{Notes};
ghost use Rattle.codec_calls.specs.Shapes.{asks, bit, bit_of, extended, made_by, setattr_of, shape_over};

use crate::call::{CallData, Range, SetattrData, has, kind, number};
use bitflags::Flags;
use std::time::Duration;
use vfs_files::{
    CStr, Context, DirEntry, DirectoryIterator, Entry, Extensions, FileSystem, GetxattrReply,
    ListxattrReply, ZeroCopyReader, ZeroCopyWriter,
};
use vfs_flags::{Errno, Fault, FsOptions, OpenOptions, SetattrValid, SetxattrFlags};
use vfs_wire::{Attr, SetattrIn, Statvfs64};

/// A directory that is not read.
#[derive(Drop)]
pub struct NoEntries {}

impl DirectoryIterator for NoEntries {
    ghost gives = { λ old item new. item ≡ None };

    fn next(&mut self) -> Option<DirEntry<'_>> {
        None
    }
}

/// Notes the call that it is asked for in a record of the caller's, which has no call before. Each
/// is answered by EIO, which nobody sees, and those that have no answer by nothing.
#[derive(Drop)]
pub struct Asking<'a> {
    /// The call, with names and values by their lengths.
    pub call: &'a mut CallData,
}

/// What is answered while a call is only noted.
const HELD_BACK: Fault = Some(Errno::EIO);

// A bit that is set where this holds.
fn bit_if(holds: bool, value: u32) -> u32
    ensures { result ≡ bit holds value }
{
    if holds { value } else { 0 }
}

// A bit that is set where there is a number.
fn bit_if_some(number: Option<u64>, value: u32) -> u32
    ensures { result ≡ bit_of number value }
{
    match number {
        Some(_) => value,
        None => 0,
    }
}

// The record of a SETATTR.
fn setattr_data(r: SetattrIn) -> SetattrData
    ensures { result ≡ setattr_of r }
{
    SetattrData {
        valid: r.valid,
        padding: r.padding,
        fh: r.fh,
        size: r.size,
        lock_owner: r.lock_owner,
        atime: r.atime,
        mtime: r.mtime,
        ctime: r.ctime,
        atimensec: r.atimensec,
        mtimensec: r.mtimensec,
        ctimensec: r.ctimensec,
        mode: r.mode,
        unused4: r.unused4,
        uid: r.uid.into_inner(),
        gid: r.gid.into_inner(),
        unused5: r.unused5,
    }
}

impl CallData {
    // Notes a call of this number, with this kind of answer, that this caller makes.
    #[inline(always)]
    fn note(&mut self, call: u32, answer: u32, ctx: Context)
        ensures { self.new ≡ made_by ctx (asks call answer self.old) }
    {
        self.call = call;
        self.answer = answer;
        self.uid = ctx.uid.into_inner();
        self.gid = ctx.gid.into_inner();
        self.pid = ctx.pid;
    }

    /// Notes a READ. How much room there is for its data is told apart.
    #[inline(always)]
    pub fn note_read(
        &mut self,
        ctx: Context,
        inode: u64,
        handle: u64,
        size: u32,
        offset: u64,
        lock_owner: Option<u64>,
        flags: u32,
    )
        ensures { self.new ≡ shape_over self.old
            (Read ctx inode handle 0 size offset lock_owner flags) }
    {
        self.note(number::READ, kind::DATA, ctx);
        self.node = inode;
        self.handle = handle;
        self.size = size;
        self.offset = offset;
        self.lock_owner = lock_owner.unwrap_or(0);
        self.has = bit_if_some(lock_owner, has::OWNER);
        self.flags = flags;
    }

    /// Notes a WRITE. Where its data are is told apart.
    #[inline(always)]
    pub fn note_write(
        &mut self,
        ctx: Context,
        inode: u64,
        handle: u64,
        size: u32,
        offset: u64,
        lock_owner: Option<u64>,
        delayed_write: bool,
        kill_priv: bool,
        flags: u32,
    )
        ensures { self.new ≡ shape_over self.old
            (Write ctx inode handle [] size offset lock_owner delayed_write kill_priv flags) }
    {
        self.note(number::WRITE, kind::COUNT, ctx);
        self.node = inode;
        self.handle = handle;
        self.size = size;
        self.offset = offset;
        self.lock_owner = lock_owner.unwrap_or(0);
        self.has = bit_if_some(lock_owner, has::OWNER)
            + (bit_if(delayed_write, has::WRITE_CACHE) + bit_if(kill_priv, has::KILL_SUIDGID));
        self.flags = flags;
    }

    /// Notes a READDIR, which a READDIRPLUS is too, but for its bit.
    #[inline(always)]
    pub fn note_readdir(&mut self, ctx: Context, inode: u64, handle: u64, size: u32, offset: u64)
        ensures { self.new ≡ shape_over self.old (Readdir ctx inode handle size offset) }
    {
        self.note(number::READDIR, kind::DIRECTORY, ctx);
        self.node = inode;
        self.handle = handle;
        self.size = size;
        self.offset = offset;
    }
}

impl Asking<'_> {
    // Notes a call of this number, with this kind of answer, that this caller makes.
    #[inline(always)]
    fn note(&mut self, call: u32, answer: u32, ctx: Context)
        ensures same_record { self.new.call.ghost_name ≡ self.old.call.ghost_name }
        ensures noted { self.new.call.now ≡
            made_by ctx (asks call answer self.old.call.now) }
    {
        self.call.note(call, answer, ctx);
    }

    // Notes a call of this number, with this kind of answer, that is told nothing.
    #[inline(always)]
    fn note_untold(&mut self, call: u32, answer: u32)
        ensures same_record { self.new.call.ghost_name ≡ self.old.call.ghost_name }
        ensures noted { self.new.call.now ≡ asks call answer self.old.call.now }
    {
        self.call.call = call;
        self.call.answer = answer;
    }

    // Notes these extensions of a call.
    fn note_extensions(&mut self, ext: &Extensions)
        requires { self.old.call.now.has + 12 < 2 ^ 32 }
        ensures same_record { self.new.call.ghost_name ≡ self.old.call.ghost_name }
        ensures noted { self.new.call.now ≡ extended (extension_values_of ext.now) self.old.call.now }
    {
        let (context_name, context, context_bit) = match &ext.secctx {
            Some(context) => (
                Range::long(context.name.as_c_str().to_bytes()),
                Range::long(&context.secctx),
                has::CONTEXT,
            ),
            None => (Range::NONE, Range::NONE, 0),
        };
        let (group, group_bit) = match &ext.sup_gid {
            Some(group) => (group.into_inner(), has::GROUP),
            None => (0, 0),
        };
        self.call.context_name = context_name;
        self.call.context = context;
        self.call.group = group;
        self.call.has += context_bit + group_bit;
    }
}

impl FileSystem for Asking<'_> {
    type Inode = u64;

    type Handle = u64;

    type DirIter = NoEntries;

    ghost allows = { Notes };

    fn lookup(&mut self, ctx: Context, parent: u64, name: CStr<'_>) -> Result<Entry, Fault> {
        self.note(number::LOOKUP, kind::ENTRY, ctx);
        self.call.node = parent;
        self.call.name = Range::long(name.to_bytes());
        Err(HELD_BACK)
    }

    fn forget(&mut self, ctx: Context, inode: u64, count: u64) {
        self.note(number::FORGET, kind::NONE, ctx);
        self.call.node = inode;
        self.call.length = count;
    }

    fn getattr(
        &mut self,
        ctx: Context,
        inode: u64,
        handle: Option<u64>,
    ) -> Result<(Attr, Duration), Fault>
        ensures { Notes self.old (Getattr ctx inode handle) (Plain (attr_answer result)) self.new }
    {
        self.note(number::GETATTR, kind::ATTR, ctx);
        self.call.node = inode;
        self.call.handle = handle.unwrap_or(0);
        self.call.has = bit_if_some(handle, has::HANDLE);
        Err(HELD_BACK)
    }

    fn setattr(
        &mut self,
        ctx: Context,
        inode: u64,
        attr: SetattrIn,
        handle: Option<u64>,
        valid: SetattrValid,
    ) -> Result<(Attr, Duration), Fault>
        ensures { Notes self.old
            (Setattr ctx inode attr handle (setattr_valid_bits valid))
            (Plain (attr_answer result))
            self.new }
    {
        self.note(number::SETATTR, kind::ATTR, ctx);
        self.call.node = inode;
        self.call.attr = setattr_data(attr);
        self.call.handle = handle.unwrap_or(0);
        self.call.has = bit_if_some(handle, has::HANDLE);
        self.call.flags = valid.bits();
        Err(HELD_BACK)
    }

    fn readlink(&mut self, ctx: Context, inode: u64) -> Result<Vec<u8>, Fault> {
        self.note(number::READLINK, kind::BYTES, ctx);
        self.call.node = inode;
        Err(HELD_BACK)
    }

    fn symlink(
        &mut self,
        ctx: Context,
        linkname: CStr<'_>,
        parent: u64,
        name: CStr<'_>,
        ext: Extensions,
    ) -> Result<Entry, Fault> {
        self.note(number::SYMLINK, kind::ENTRY, ctx);
        self.call.node = parent;
        self.call.name = Range::long(name.to_bytes());
        self.call.other_name = Range::long(linkname.to_bytes());
        self.call.has = 0;
        self.note_extensions(&ext);
        Err(HELD_BACK)
    }

    fn mknod(
        &mut self,
        ctx: Context,
        inode: u64,
        name: CStr<'_>,
        mode: u32,
        rdev: u32,
        umask: u32,
        ext: Extensions,
    ) -> Result<Entry, Fault> {
        self.note(number::MKNOD, kind::ENTRY, ctx);
        self.call.node = inode;
        self.call.name = Range::long(name.to_bytes());
        self.call.mode = mode;
        self.call.rdev = rdev;
        self.call.umask = umask;
        self.call.has = 0;
        self.note_extensions(&ext);
        Err(HELD_BACK)
    }

    fn mkdir(
        &mut self,
        ctx: Context,
        parent: u64,
        name: CStr<'_>,
        mode: u32,
        umask: u32,
        ext: Extensions,
    ) -> Result<Entry, Fault> {
        self.note(number::MKDIR, kind::ENTRY, ctx);
        self.call.node = parent;
        self.call.name = Range::long(name.to_bytes());
        self.call.mode = mode;
        self.call.umask = umask;
        self.call.has = 0;
        self.note_extensions(&ext);
        Err(HELD_BACK)
    }

    fn unlink(&mut self, ctx: Context, parent: u64, name: CStr<'_>) -> Result<(), Fault> {
        self.note(number::UNLINK, kind::STATUS, ctx);
        self.call.node = parent;
        self.call.name = Range::long(name.to_bytes());
        Err(HELD_BACK)
    }

    fn rmdir(&mut self, ctx: Context, parent: u64, name: CStr<'_>) -> Result<(), Fault> {
        self.note(number::RMDIR, kind::STATUS, ctx);
        self.call.node = parent;
        self.call.name = Range::long(name.to_bytes());
        Err(HELD_BACK)
    }

    fn rename(
        &mut self,
        ctx: Context,
        olddir: u64,
        oldname: CStr<'_>,
        newdir: u64,
        newname: CStr<'_>,
        flags: u32,
    ) -> Result<(), Fault> {
        self.note(number::RENAME, kind::STATUS, ctx);
        self.call.node = olddir;
        self.call.name = Range::long(oldname.to_bytes());
        self.call.other_node = newdir;
        self.call.other_name = Range::long(newname.to_bytes());
        self.call.flags = flags;
        Err(HELD_BACK)
    }

    fn link(
        &mut self,
        ctx: Context,
        inode: u64,
        newparent: u64,
        newname: CStr<'_>,
    ) -> Result<Entry, Fault> {
        self.note(number::LINK, kind::ENTRY, ctx);
        self.call.node = inode;
        self.call.other_node = newparent;
        self.call.name = Range::long(newname.to_bytes());
        Err(HELD_BACK)
    }

    fn open(
        &mut self,
        ctx: Context,
        inode: u64,
        kill_priv: bool,
        flags: u32,
    ) -> Result<(Option<u64>, OpenOptions), Fault> {
        self.note(number::OPEN, kind::OPEN, ctx);
        self.call.node = inode;
        self.call.has = bit_if(kill_priv, has::KILL_SUIDGID);
        self.call.flags = flags;
        Err(HELD_BACK)
    }

    fn read<W: ZeroCopyWriter>(
        &mut self,
        ctx: Context,
        inode: u64,
        handle: u64,
        w: &mut W,
        size: u32,
        offset: u64,
        lock_owner: Option<u64>,
        flags: u32,
    ) -> Result<usize, Fault> {
        self.call
            .note_read(ctx, inode, handle, size, offset, lock_owner, flags);
        Err(HELD_BACK)
    }

    fn write<R: ZeroCopyReader>(
        &mut self,
        ctx: Context,
        inode: u64,
        handle: u64,
        r: &mut R,
        size: u32,
        offset: u64,
        lock_owner: Option<u64>,
        delayed_write: bool,
        kill_priv: bool,
        flags: u32,
    ) -> Result<u32, Fault> {
        self.call.note_write(
            ctx,
            inode,
            handle,
            size,
            offset,
            lock_owner,
            delayed_write,
            kill_priv,
            flags,
        );
        Err(HELD_BACK)
    }

    fn statfs(&mut self, ctx: Context, inode: u64) -> Result<Statvfs64, Fault> {
        self.note(number::STATFS, kind::STATFS, ctx);
        self.call.node = inode;
        Err(HELD_BACK)
    }

    fn release(
        &mut self,
        ctx: Context,
        inode: u64,
        flags: u32,
        handle: u64,
        flush: bool,
        flock_release: bool,
        lock_owner: Option<u64>,
    ) -> Result<(), Fault> {
        self.note(number::RELEASE, kind::STATUS, ctx);
        self.call.node = inode;
        self.call.flags = flags;
        self.call.handle = handle;
        self.call.lock_owner = lock_owner.unwrap_or(0);
        self.call.has = bit_if_some(lock_owner, has::OWNER)
            + (bit_if(flush, has::RELEASE_FLUSH)
                + bit_if(flock_release, has::RELEASE_FLOCK_UNLOCK));
        Err(HELD_BACK)
    }

    fn fsync(
        &mut self,
        ctx: Context,
        inode: u64,
        datasync: bool,
        handle: u64,
    ) -> Result<(), Fault> {
        self.note(number::FSYNC, kind::STATUS, ctx);
        self.call.node = inode;
        self.call.has = bit_if(datasync, has::FSYNC_FDATASYNC);
        self.call.handle = handle;
        Err(HELD_BACK)
    }

    fn setxattr(
        &mut self,
        ctx: Context,
        inode: u64,
        name: CStr<'_>,
        value: &[u8],
        flags: u32,
        extra: SetxattrFlags,
    ) -> Result<(), Fault> {
        self.note(number::SETXATTR, kind::STATUS, ctx);
        self.call.node = inode;
        self.call.name = Range::long(name.to_bytes());
        self.call.data = Range::long(value);
        self.call.flags = flags;
        self.call.more = extra.bits();
        Err(HELD_BACK)
    }

    fn getxattr(
        &mut self,
        ctx: Context,
        inode: u64,
        name: CStr<'_>,
        size: u32,
    ) -> Result<GetxattrReply, Fault> {
        self.note(number::GETXATTR, kind::BYTES_OR_SIZE, ctx);
        self.call.node = inode;
        self.call.name = Range::long(name.to_bytes());
        self.call.size = size;
        Err(HELD_BACK)
    }

    fn listxattr(&mut self, ctx: Context, inode: u64, size: u32) -> Result<ListxattrReply, Fault> {
        self.note(number::LISTXATTR, kind::BYTES_OR_SIZE, ctx);
        self.call.node = inode;
        self.call.size = size;
        Err(HELD_BACK)
    }

    fn removexattr(&mut self, ctx: Context, inode: u64, name: CStr<'_>) -> Result<(), Fault> {
        self.note(number::REMOVEXATTR, kind::STATUS, ctx);
        self.call.node = inode;
        self.call.name = Range::long(name.to_bytes());
        Err(HELD_BACK)
    }

    fn flush(
        &mut self,
        ctx: Context,
        inode: u64,
        handle: u64,
        lock_owner: u64,
    ) -> Result<(), Fault> {
        self.note(number::FLUSH, kind::STATUS, ctx);
        self.call.node = inode;
        self.call.handle = handle;
        self.call.lock_owner = lock_owner;
        Err(HELD_BACK)
    }

    fn init(&mut self, capable: FsOptions) -> Result<FsOptions, Fault> {
        self.note_untold(number::INIT, kind::INIT);
        self.call.length = capable.bits();
        Err(HELD_BACK)
    }

    fn opendir(
        &mut self,
        ctx: Context,
        inode: u64,
        flags: u32,
    ) -> Result<(Option<u64>, OpenOptions), Fault> {
        self.note(number::OPENDIR, kind::OPEN, ctx);
        self.call.node = inode;
        self.call.flags = flags;
        Err(HELD_BACK)
    }

    fn readdir(
        &mut self,
        ctx: Context,
        inode: u64,
        handle: u64,
        size: u32,
        offset: u64,
    ) -> Result<NoEntries, Fault> {
        self.call.note_readdir(ctx, inode, handle, size, offset);
        Err(HELD_BACK)
    }

    fn releasedir(
        &mut self,
        ctx: Context,
        inode: u64,
        flags: u32,
        handle: u64,
    ) -> Result<(), Fault> {
        self.note(number::RELEASEDIR, kind::STATUS, ctx);
        self.call.node = inode;
        self.call.flags = flags;
        self.call.handle = handle;
        Err(HELD_BACK)
    }

    fn fsyncdir(
        &mut self,
        ctx: Context,
        inode: u64,
        datasync: bool,
        handle: u64,
    ) -> Result<(), Fault> {
        self.note(number::FSYNCDIR, kind::STATUS, ctx);
        self.call.node = inode;
        self.call.has = bit_if(datasync, has::FSYNC_FDATASYNC);
        self.call.handle = handle;
        Err(HELD_BACK)
    }

    fn getlk(&mut self) -> Result<(), Fault> {
        self.note_untold(number::GETLK, kind::ERROR_OR_NONE);
        Err(HELD_BACK)
    }

    fn setlk(&mut self) -> Result<(), Fault> {
        self.note_untold(number::SETLK, kind::ERROR_OR_NONE);
        Err(HELD_BACK)
    }

    fn setlkw(&mut self) -> Result<(), Fault> {
        self.note_untold(number::SETLKW, kind::ERROR_OR_NONE);
        Err(HELD_BACK)
    }

    fn access(&mut self, ctx: Context, inode: u64, mask: u32) -> Result<(), Fault> {
        self.note(number::ACCESS, kind::STATUS, ctx);
        self.call.node = inode;
        self.call.more = mask;
        Err(HELD_BACK)
    }

    fn create(
        &mut self,
        ctx: Context,
        parent: u64,
        name: CStr<'_>,
        mode: u32,
        kill_priv: bool,
        flags: u32,
        umask: u32,
        ext: Extensions,
    ) -> Result<(Entry, Option<u64>, OpenOptions), Fault> {
        self.note(number::CREATE, kind::CREATE, ctx);
        self.call.node = parent;
        self.call.name = Range::long(name.to_bytes());
        self.call.mode = mode;
        self.call.has = bit_if(kill_priv, has::KILL_SUIDGID);
        self.call.flags = flags;
        self.call.umask = umask;
        self.note_extensions(&ext);
        Err(HELD_BACK)
    }

    fn bmap(&mut self) -> Result<(), Fault> {
        self.note_untold(number::BMAP, kind::ERROR_OR_NONE);
        Err(HELD_BACK)
    }

    fn destroy(&mut self) {
        self.note_untold(number::DESTROY, kind::NONE);
    }

    fn ioctl(&mut self) -> Result<(), Fault> {
        self.note_untold(number::IOCTL, kind::ERROR_OR_NONE);
        Err(HELD_BACK)
    }

    fn poll(&mut self) -> Result<(), Fault> {
        self.note_untold(number::POLL, kind::ERROR_OR_NONE);
        Err(HELD_BACK)
    }

    fn notify_reply(&mut self) -> Result<(), Fault> {
        self.note_untold(number::NOTIFY_REPLY, kind::ERROR_OR_NONE);
        Err(HELD_BACK)
    }

    fn batch_forget(&mut self, ctx: Context, requests: Vec<(u64, u64)>)
        ensures { Notes self.old (BatchForget ctx requests.items) (Plain Done) self.new }
    {
        self.note(number::BATCH_FORGET, kind::NONE, ctx);
        self.call.length = requests.len() as u64;
    }

    fn fallocate(
        &mut self,
        ctx: Context,
        inode: u64,
        handle: u64,
        mode: u32,
        offset: u64,
        length: u64,
    ) -> Result<(), Fault> {
        self.note(number::FALLOCATE, kind::STATUS, ctx);
        self.call.node = inode;
        self.call.handle = handle;
        self.call.mode = mode;
        self.call.offset = offset;
        self.call.length = length;
        Err(HELD_BACK)
    }

    fn lseek(
        &mut self,
        ctx: Context,
        inode: u64,
        handle: u64,
        offset: u64,
        whence: u32,
    ) -> Result<u64, Fault> {
        self.note(number::LSEEK, kind::OFFSET, ctx);
        self.call.node = inode;
        self.call.handle = handle;
        self.call.offset = offset;
        self.call.more = whence;
        Err(HELD_BACK)
    }

    fn copyfilerange(
        &mut self,
        ctx: Context,
        inode_in: u64,
        handle_in: u64,
        offset_in: u64,
        inode_out: u64,
        handle_out: u64,
        offset_out: u64,
        len: u64,
        flags: u64,
    ) -> Result<u32, Fault> {
        self.note(number::COPY, kind::COUNT, ctx);
        self.call.node = inode_in;
        self.call.handle = handle_in;
        self.call.offset = offset_in;
        self.call.other_node = inode_out;
        self.call.other_handle = handle_out;
        self.call.other_offset = offset_out;
        self.call.length = len;
        self.call.lock_owner = flags;
        Err(HELD_BACK)
    }

    fn syncfs(&mut self, ctx: Context, inode: u64) -> Result<(), Fault> {
        self.note(number::SYNCFS, kind::STATUS, ctx);
        self.call.node = inode;
        Err(HELD_BACK)
    }

    fn tmpfile(&mut self) -> Fault {
        self.note_untold(number::TMPFILE, kind::ERROR);
        HELD_BACK
    }
}
