//! File systems that say only what they serve.

ghost use Rattle.std.specs.Prelude.{◌≡◌, ℕ, List, map};
ghost use Rattle.vfs_flags.specs.Flags.{setattr_valid_bits};
ghost use Rattle.vfs_files.specs.Calls.{Call, Getattr, Setattr, Read, Write, Readdir, BatchForget, kind_of, default_answer};
ghost use Rattle.vfs_files.specs.Answers.{Handed, Plain, Done, attr_answer, read_answer, Counts, written_answer, directory_answer};
ghost use Rattle.vfs_files.specs.CallValue.{call_of, answer_of, IsOfKind, read_of, write_of};

use crate::call_value::{CallValue, Given, ReadValue, WriteValue};
use crate::directory::DirectoryIterator;
use crate::entry::{Context, Entry};
use crate::extensions::Extensions;
use crate::filesystem::FileSystem;
use crate::name::CStr;
use crate::transfer::{ZeroCopyReader, ZeroCopyWriter};
use crate::xattr::{GetxattrReply, ListxattrReply};
use crate::{answer, defaults};
use std::time::Duration;
use vfs_flags::{Fault, FsOptions, OpenOptions, SetattrValid, SetxattrFlags};
use vfs_wire::{Attr, SetattrIn, Statvfs64};

/// A file system by one function for all calls but three, so that it says only what it serves, and
/// leaves the rest to [`unserved`]. Each is a [`FileSystem`], whose nodes and handles are numbers.
pub trait PartialFileSystem {
    /// What gives the items of its directories.
    type Entries: DirectoryIterator + Drop;

    /// From the old state the call may hand this back and leave the new state.
    ghost permits: { Self → Call → Handed Self.Entries → Self → Type 0 };

    /// Answers a call, by an answer of its kind or a fault.
    fn call(&mut self, asked: CallValue<'_>) -> Result<Given, Fault>
        ensures permitted { permits self.old
            (call_of asked.entry)
            (Plain (answer_of result))
            self.new }
        ensures kind { IsOfKind (kind_of (call_of asked.entry)) result };

    /// As [`FileSystem::read`], whose data go into `w`.
    fn read_data<W: ZeroCopyWriter>(&mut self, asked: ReadValue, w: &mut W) -> Result<usize, Fault>
        ensures { (bytes : List ℕ) × W.puts w.old bytes w.new × Counts result bytes asked.size
            × permits self.old
            (read_of asked (W.room w.old))
            (Plain (read_answer result bytes))
            self.new };

    /// As [`FileSystem::write`], whose data come from `r`.
    fn write_data<R: ZeroCopyReader>(&mut self, asked: WriteValue, r: &mut R) -> Result<u32, Fault>
        ensures { (bytes : List ℕ) × R.takes r.old bytes r.new
            × permits self.old
            (write_of asked (R.left r.old))
            (Plain (written_answer result))
            self.new };

    /// As [`FileSystem::readdir`].
    fn read_directory(
        &mut self,
        ctx: Context,
        inode: u64,
        handle: u64,
        size: u32,
        offset: u64,
    ) -> Result<Self::Entries, Fault>
        ensures { permits self.old
            (Readdir ctx inode handle size offset)
            (directory_answer result)
            self.new };
}

/// The answer of a call that is not served, as [`defaults`] has it.
#[inline(always)]
pub fn unserved(asked: &CallValue<'_>) -> Result<Given, Fault>
    ensures answer { answer_of result ≡ default_answer (call_of asked.now) }
    ensures kind { IsOfKind (kind_of (call_of asked.now)) result }
{
    match asked {
        CallValue::Forget { .. } | CallValue::BatchForget { .. } | CallValue::Destroy => Ok(
            Given::Done,
        ),
        CallValue::Init { .. } => Ok(Given::Options(defaults::init()?)),
        CallValue::Open { .. } | CallValue::Opendir { .. } => {
            let (handle, options) = defaults::open::<u64>()?;
            Ok(Given::Opened(handle, options))
        }
        CallValue::Statfs { .. } => Ok(Given::Statistics(defaults::statfs()?)),
        _ => defaults::no_such_call::<Given>(),
    }
}

impl<F: PartialFileSystem> FileSystem for F {
    type Inode = u64;

    type Handle = u64;

    type DirIter = F::Entries;

    ghost allows = { F.permits };

    fn lookup(&mut self, ctx: Context, parent: u64, name: CStr<'_>) -> Result<Entry, Fault> {
        answer::entry(self.call(CallValue::Lookup { ctx, parent, name }))
    }

    fn forget(&mut self, ctx: Context, inode: u64, count: u64) {
        let _ = self.call(CallValue::Forget { ctx, inode, count });
    }

    fn getattr(
        &mut self,
        ctx: Context,
        inode: u64,
        handle: Option<u64>,
    ) -> Result<(Attr, Duration), Fault>
        ensures { F.permits self.old (Getattr ctx inode handle)
            (Plain (attr_answer result)) self.new }
    {
        answer::attributes(self.call(CallValue::Getattr { ctx, inode, handle }))
    }

    fn setattr(
        &mut self,
        ctx: Context,
        inode: u64,
        attr: SetattrIn,
        handle: Option<u64>,
        valid: SetattrValid,
    ) -> Result<(Attr, Duration), Fault>
        ensures { F.permits self.old (Setattr ctx inode attr handle (setattr_valid_bits valid))
            (Plain (attr_answer result)) self.new }
    {
        answer::attributes(self.call(CallValue::Setattr {
            ctx,
            inode,
            attr,
            handle,
            valid,
        }))
    }

    fn readlink(&mut self, ctx: Context, inode: u64) -> Result<Vec<u8>, Fault> {
        answer::text(self.call(CallValue::Readlink { ctx, inode }))
    }

    fn symlink(
        &mut self,
        ctx: Context,
        linkname: CStr<'_>,
        parent: u64,
        name: CStr<'_>,
        ext: Extensions,
    ) -> Result<Entry, Fault> {
        answer::entry(self.call(CallValue::Symlink {
            ctx,
            linkname,
            parent,
            name,
            ext,
        }))
    }

    fn mknod(
        &mut self,
        ctx: Context,
        inode: u64,
        name: CStr<'_>,
        mode: u32,
        rdev: u32,
        umask: u32,
        ext: Extensions,
    ) -> Result<Entry, Fault> {
        answer::entry(self.call(CallValue::Mknod {
            ctx,
            inode,
            name,
            mode,
            rdev,
            umask,
            ext,
        }))
    }

    fn mkdir(
        &mut self,
        ctx: Context,
        parent: u64,
        name: CStr<'_>,
        mode: u32,
        umask: u32,
        ext: Extensions,
    ) -> Result<Entry, Fault> {
        answer::entry(self.call(CallValue::Mkdir {
            ctx,
            parent,
            name,
            mode,
            umask,
            ext,
        }))
    }

    fn unlink(&mut self, ctx: Context, parent: u64, name: CStr<'_>) -> Result<(), Fault> {
        answer::done(self.call(CallValue::Unlink { ctx, parent, name }))
    }

    fn rmdir(&mut self, ctx: Context, parent: u64, name: CStr<'_>) -> Result<(), Fault> {
        answer::done(self.call(CallValue::Rmdir { ctx, parent, name }))
    }

    fn rename(
        &mut self,
        ctx: Context,
        olddir: u64,
        oldname: CStr<'_>,
        newdir: u64,
        newname: CStr<'_>,
        flags: u32,
    ) -> Result<(), Fault> {
        answer::done(self.call(CallValue::Rename {
            ctx,
            olddir,
            oldname,
            newdir,
            newname,
            flags,
        }))
    }

    fn link(
        &mut self,
        ctx: Context,
        inode: u64,
        newparent: u64,
        newname: CStr<'_>,
    ) -> Result<Entry, Fault> {
        answer::entry(self.call(CallValue::Link {
            ctx,
            inode,
            newparent,
            newname,
        }))
    }

    fn open(
        &mut self,
        ctx: Context,
        inode: u64,
        kill_priv: bool,
        flags: u32,
    ) -> Result<(Option<u64>, OpenOptions), Fault> {
        answer::opening(self.call(CallValue::Open {
            ctx,
            inode,
            kill_priv,
            flags,
        }))
    }

    fn read<W: ZeroCopyWriter>(
        &mut self,
        ctx: Context,
        inode: u64,
        handle: u64,
        w: &mut W,
        size: u32,
        offset: u64,
        lock_owner: Option<u64>,
        flags: u32,
    ) -> Result<usize, Fault> {
        let asked = ReadValue {
            ctx,
            inode,
            handle,
            size,
            offset,
            lock_owner,
            flags,
        };
        self.read_data(asked, w)
    }

    fn write<R: ZeroCopyReader>(
        &mut self,
        ctx: Context,
        inode: u64,
        handle: u64,
        r: &mut R,
        size: u32,
        offset: u64,
        lock_owner: Option<u64>,
        delayed_write: bool,
        kill_priv: bool,
        flags: u32,
    ) -> Result<u32, Fault> {
        let asked = WriteValue {
            ctx,
            inode,
            handle,
            size,
            offset,
            lock_owner,
            delayed_write,
            kill_priv,
            flags,
        };
        self.write_data(asked, r)
    }

    fn statfs(&mut self, ctx: Context, inode: u64) -> Result<Statvfs64, Fault> {
        answer::statistics(self.call(CallValue::Statfs { ctx, inode }))
    }

    fn release(
        &mut self,
        ctx: Context,
        inode: u64,
        flags: u32,
        handle: u64,
        flush: bool,
        flock_release: bool,
        lock_owner: Option<u64>,
    ) -> Result<(), Fault> {
        answer::done(self.call(CallValue::Release {
            ctx,
            inode,
            flags,
            handle,
            flush,
            flock_release,
            lock_owner,
        }))
    }

    fn fsync(
        &mut self,
        ctx: Context,
        inode: u64,
        datasync: bool,
        handle: u64,
    ) -> Result<(), Fault> {
        answer::done(self.call(CallValue::Fsync {
            ctx,
            inode,
            datasync,
            handle,
        }))
    }

    fn setxattr(
        &mut self,
        ctx: Context,
        inode: u64,
        name: CStr<'_>,
        value: &[u8],
        flags: u32,
        extra: SetxattrFlags,
    ) -> Result<(), Fault> {
        answer::done(self.call(CallValue::Setxattr {
            ctx,
            inode,
            name,
            value,
            flags,
            extra,
        }))
    }

    fn getxattr(
        &mut self,
        ctx: Context,
        inode: u64,
        name: CStr<'_>,
        size: u32,
    ) -> Result<GetxattrReply, Fault> {
        answer::value(self.call(CallValue::Getxattr {
            ctx,
            inode,
            name,
            size,
        }))
    }

    fn listxattr(&mut self, ctx: Context, inode: u64, size: u32) -> Result<ListxattrReply, Fault> {
        answer::names(self.call(CallValue::Listxattr { ctx, inode, size }))
    }

    fn removexattr(&mut self, ctx: Context, inode: u64, name: CStr<'_>) -> Result<(), Fault> {
        answer::done(self.call(CallValue::Removexattr { ctx, inode, name }))
    }

    fn flush(
        &mut self,
        ctx: Context,
        inode: u64,
        handle: u64,
        lock_owner: u64,
    ) -> Result<(), Fault> {
        answer::done(self.call(CallValue::Flush {
            ctx,
            inode,
            handle,
            lock_owner,
        }))
    }

    fn init(&mut self, capable: FsOptions) -> Result<FsOptions, Fault> {
        answer::options(self.call(CallValue::Init { capable }))
    }

    fn opendir(
        &mut self,
        ctx: Context,
        inode: u64,
        flags: u32,
    ) -> Result<(Option<u64>, OpenOptions), Fault> {
        answer::opening(self.call(CallValue::Opendir { ctx, inode, flags }))
    }

    fn readdir(
        &mut self,
        ctx: Context,
        inode: u64,
        handle: u64,
        size: u32,
        offset: u64,
    ) -> Result<F::Entries, Fault> {
        self.read_directory(ctx, inode, handle, size, offset)
    }

    fn releasedir(
        &mut self,
        ctx: Context,
        inode: u64,
        flags: u32,
        handle: u64,
    ) -> Result<(), Fault> {
        answer::done(self.call(CallValue::Releasedir {
            ctx,
            inode,
            flags,
            handle,
        }))
    }

    fn fsyncdir(
        &mut self,
        ctx: Context,
        inode: u64,
        datasync: bool,
        handle: u64,
    ) -> Result<(), Fault> {
        answer::done(self.call(CallValue::Fsyncdir {
            ctx,
            inode,
            datasync,
            handle,
        }))
    }

    fn getlk(&mut self) -> Result<(), Fault> {
        answer::done(self.call(CallValue::Getlk))
    }

    fn setlk(&mut self) -> Result<(), Fault> {
        answer::done(self.call(CallValue::Setlk))
    }

    fn setlkw(&mut self) -> Result<(), Fault> {
        answer::done(self.call(CallValue::Setlkw))
    }

    fn access(&mut self, ctx: Context, inode: u64, mask: u32) -> Result<(), Fault> {
        answer::done(self.call(CallValue::Access { ctx, inode, mask }))
    }

    fn create(
        &mut self,
        ctx: Context,
        parent: u64,
        name: CStr<'_>,
        mode: u32,
        kill_priv: bool,
        flags: u32,
        umask: u32,
        ext: Extensions,
    ) -> Result<(Entry, Option<u64>, OpenOptions), Fault> {
        answer::creation(self.call(CallValue::Create {
            ctx,
            parent,
            name,
            mode,
            kill_priv,
            flags,
            umask,
            ext,
        }))
    }

    fn bmap(&mut self) -> Result<(), Fault> {
        answer::done(self.call(CallValue::Bmap))
    }

    fn destroy(&mut self) {
        let _ = self.call(CallValue::Destroy);
    }

    fn ioctl(&mut self) -> Result<(), Fault> {
        answer::done(self.call(CallValue::Ioctl))
    }

    fn poll(&mut self) -> Result<(), Fault> {
        answer::done(self.call(CallValue::Poll))
    }

    fn notify_reply(&mut self) -> Result<(), Fault> {
        answer::done(self.call(CallValue::NotifyReply))
    }

    fn batch_forget(&mut self, ctx: Context, requests: Vec<(u64, u64)>)
        ensures { F.permits self.old (BatchForget ctx (map (λ p. (p.0, p.1)) requests.items)) (Plain Done) self.new }
    {
        let _ = self.call(CallValue::BatchForget { ctx, requests });
    }

    fn fallocate(
        &mut self,
        ctx: Context,
        inode: u64,
        handle: u64,
        mode: u32,
        offset: u64,
        length: u64,
    ) -> Result<(), Fault> {
        answer::done(self.call(CallValue::Fallocate {
            ctx,
            inode,
            handle,
            mode,
            offset,
            length,
        }))
    }

    fn lseek(
        &mut self,
        ctx: Context,
        inode: u64,
        handle: u64,
        offset: u64,
        whence: u32,
    ) -> Result<u64, Fault> {
        answer::offset(self.call(CallValue::Lseek {
            ctx,
            inode,
            handle,
            offset,
            whence,
        }))
    }

    fn copyfilerange(
        &mut self,
        ctx: Context,
        inode_in: u64,
        handle_in: u64,
        offset_in: u64,
        inode_out: u64,
        handle_out: u64,
        offset_out: u64,
        len: u64,
        flags: u64,
    ) -> Result<u32, Fault> {
        answer::count(self.call(CallValue::Copyfilerange {
            ctx,
            inode_in,
            handle_in,
            offset_in,
            inode_out,
            handle_out,
            offset_out,
            len,
            flags,
        }))
    }

    fn syncfs(&mut self, ctx: Context, inode: u64) -> Result<(), Fault> {
        answer::done(self.call(CallValue::Syncfs { ctx, inode }))
    }

    fn tmpfile(&mut self) -> Fault {
        answer::fault(self.call(CallValue::Tmpfile))
    }
}
