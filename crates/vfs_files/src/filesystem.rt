//! File systems.

ghost use Rattle.std.specs.Prelude.{option_map, map, ℕ, List};
ghost use Rattle.vfs_flags.specs.Flags.{fs_options_bits, setattr_valid_bits, setxattr_flags_bits};
ghost use Rattle.vfs_files.specs.Values.{name_text, extension_values_of};
ghost use Rattle.vfs_files.specs.Calls.{Call, Lookup, Forget, Getattr, Setattr, Readlink, Symlink, Mknod, Mkdir, Unlink, Rmdir, Rename, Link, Open, Read, Write, Statfs, Release, Fsync, Setxattr, Getxattr, Listxattr, Removexattr, Flush, Init, Opendir, Readdir, Releasedir, Fsyncdir, Getlk, Setlk, Setlkw, Access, Create, Bmap, Destroy, Ioctl, Poll, NotifyReply, BatchForget, Fallocate, Lseek, Copyfilerange, Syncfs, Tmpfile};
ghost use Rattle.vfs_files.specs.Answers.{Handed, Plain, Done, Failed, init_answer, entry_answer, attr_answer, done_answer, opened_answer, created_answer, statistics_answer, text_answer, getxattr_answer, listxattr_answer, offset_answer, written_answer, KeepsTextShort, Counts, read_answer, directory_answer};

use crate::directory::DirectoryIterator;
use crate::entry::{Context, Entry};
use crate::extensions::Extensions;
use crate::name::CStr;
use crate::number::Number;
use crate::transfer::{ZeroCopyReader, ZeroCopyWriter};
use crate::xattr::{GetxattrReply, ListxattrReply};
use std::time::Duration;
use vfs_flags::{Fault, FsOptions, OpenOptions, SetattrValid, SetxattrFlags};
use vfs_wire::{Attr, SetattrIn, Statvfs64};

/// A file system: the calls that requests are turned into.
///
/// Each call may fail with a fault, an error number of the system or none, which the reply
/// carries negated. The errors that are named below are those that the kernel or a program looks
/// for; any other may be answered. The module [`defaults`](crate::defaults) has the answers of
/// calls that a file system doesn't serve.
///
/// `ctx` says who makes a call. Offsets, lengths and sizes are in bytes.
pub trait FileSystem {
    /// What its nodes are named by. Node 1 is the root.
    type Inode: Number;

    /// What its open files and directories are named by.
    type Handle: Number;

    /// What gives the items of its directories.
    type DirIter: DirectoryIterator + Drop;

    /// From the old state the call may hand this back and leave the new state.
    ghost allows: { Self → Call → Handed Self.DirIter → Self → Type 0 };

    /// The node of this name in the directory `parent` (LOOKUP). Where the answer reaches the
    /// kernel it counts one more lookup of the node. A name that isn't there is ENOENT, or an entry
    /// of node 0, which the kernel may remember.
    fn lookup(&mut self, ctx: Context, parent: Self::Inode, name: CStr<'_>) -> Result<Entry, Fault>
        ensures { allows self.old
            (Lookup ctx (Self.Inode.value parent) (name_text name.entry))
            (Plain (entry_answer result))
            self.new };

    /// The kernel takes back `count` lookups of a node (FORGET). A node with none left, and no
    /// name, may be dropped. There is no reply.
    fn forget(&mut self, ctx: Context, inode: Self::Inode, count: u64)
        ensures { allows self.old
            (Forget ctx (Self.Inode.value inode) count)
            (Plain Done)
            self.new };

    /// The attributes of a node, and how long the kernel may take them for true (GETATTR). `handle`
    /// is there where the kernel asks through an open file.
    ///
    /// An implementation repeats this clause, with its own relation in place of `allows`, since its
    /// parameter is an `Option` of an associated type (docs/DECISIONS.md).
    fn getattr(
        &mut self,
        ctx: Context,
        inode: Self::Inode,
        handle: Option<Self::Handle>,
    ) -> Result<(Attr, Duration), Fault>
        ensures { allows self.old
            (Getattr ctx (Self.Inode.value inode) (option_map Self.Handle.value handle))
            (Plain (attr_answer result))
            self.new };

    /// Changes attributes of a node (SETATTR), and answers what they are then, as `getattr` does.
    /// `attr` is the record of the request, and `valid` says which of its fields are to be set: the
    /// others may hold anything. `handle` is there where the kernel asks through an open file, as
    /// `ftruncate(2)` does.
    ///
    /// An implementation repeats this clause, as that of `getattr`.
    fn setattr(
        &mut self,
        ctx: Context,
        inode: Self::Inode,
        attr: SetattrIn,
        handle: Option<Self::Handle>,
        valid: SetattrValid,
    ) -> Result<(Attr, Duration), Fault>
        ensures { allows self.old
            (Setattr ctx (Self.Inode.value inode) attr (option_map Self.Handle.value handle)
            (setattr_valid_bits valid))
            (Plain (attr_answer result))
            self.new };

    /// The text of a symbolic link (READLINK), of at most 4,294,967,279 bytes: with the 16 bytes
    /// before them their length must have its place in the reply. A node that is no link is EINVAL.
    fn readlink(&mut self, ctx: Context, inode: Self::Inode) -> Result<Vec<u8>, Fault>
        ensures allowed { allows self.old
            (Readlink ctx (Self.Inode.value inode))
            (Plain (text_answer result))
            self.new }
        ensures short { KeepsTextShort (text_answer result) };

    /// Makes a symbolic link of this name and the text `linkname` in the directory `parent`
    /// (SYMLINK). An answer counts one lookup, as that of `lookup` does. A name that is there
    /// already is EEXIST.
    fn symlink(
        &mut self,
        ctx: Context,
        linkname: CStr<'_>,
        parent: Self::Inode,
        name: CStr<'_>,
        ext: Extensions,
    ) -> Result<Entry, Fault>
        ensures { allows self.old
            (Symlink ctx (name_text linkname.entry) (Self.Inode.value parent)
            (name_text name.entry) (extension_values_of ext))
            (Plain (entry_answer result))
            self.new };

    /// Makes a file, a pipe, a socket or a device of this name in the directory `inode` (MKNOD).
    /// `mode` is its kind and its permissions as in `mknod(2)`, `rdev` the number of a device, and
    /// `umask` the permissions that the caller doesn't give: the kernel has taken them from `mode`
    /// already, unless both sides agreed on `DONT_MASK`. An answer counts one lookup. A name that
    /// is there already is EEXIST.
    fn mknod(
        &mut self,
        ctx: Context,
        inode: Self::Inode,
        name: CStr<'_>,
        mode: u32,
        rdev: u32,
        umask: u32,
        ext: Extensions,
    ) -> Result<Entry, Fault>
        ensures { allows self.old
            (Mknod ctx (Self.Inode.value inode) (name_text name.entry) mode rdev umask
            (extension_values_of ext))
            (Plain (entry_answer result))
            self.new };

    /// Makes a directory of this name in the directory `parent` (MKDIR). `mode` are its
    /// permissions, and `umask` is as for `mknod`. An answer counts one lookup. A name that is
    /// there already is EEXIST.
    fn mkdir(
        &mut self,
        ctx: Context,
        parent: Self::Inode,
        name: CStr<'_>,
        mode: u32,
        umask: u32,
        ext: Extensions,
    ) -> Result<Entry, Fault>
        ensures { allows self.old
            (Mkdir ctx (Self.Inode.value parent) (name_text name.entry) mode umask
            (extension_values_of ext))
            (Plain (entry_answer result))
            self.new };

    /// Takes a name of a file out of the directory `parent` (UNLINK). The node stays as long as the
    /// kernel counts lookups of it. A name that isn't there is ENOENT, that of a directory EISDIR.
    fn unlink(&mut self, ctx: Context, parent: Self::Inode, name: CStr<'_>) -> Result<(), Fault>
        ensures { allows self.old
            (Unlink ctx (Self.Inode.value parent) (name_text name.entry))
            (Plain (done_answer result))
            self.new };

    /// Takes an empty directory out of the directory `parent` (RMDIR). The node stays as long as
    /// the kernel counts lookups of it. A directory with names is ENOTEMPTY, a file ENOTDIR.
    fn rmdir(&mut self, ctx: Context, parent: Self::Inode, name: CStr<'_>) -> Result<(), Fault>
        ensures { allows self.old
            (Rmdir ctx (Self.Inode.value parent) (name_text name.entry))
            (Plain (done_answer result))
            self.new };

    /// Gives a node another name, perhaps in another directory (RENAME with flags 0, and RENAME2).
    /// A node that has the new name is replaced in one step. Bit 0 of `flags` (`RENAME_NOREPLACE`)
    /// says that it is not to be replaced, which is EEXIST then; bit 1 (`RENAME_EXCHANGE`) that the
    /// two change their names; bit 2 (`RENAME_WHITEOUT`) that a whiteout stays in place of the old
    /// name. Flags that aren't served are EINVAL.
    fn rename(
        &mut self,
        ctx: Context,
        olddir: Self::Inode,
        oldname: CStr<'_>,
        newdir: Self::Inode,
        newname: CStr<'_>,
        flags: u32,
    ) -> Result<(), Fault>
        ensures { allows self.old
            (Rename ctx (Self.Inode.value olddir) (name_text oldname.entry)
            (Self.Inode.value newdir) (name_text newname.entry) flags)
            (Plain (done_answer result))
            self.new };

    /// Gives a file one more name, in the directory `newparent` (LINK). An answer is that of the
    /// node, and counts one lookup of it. A name that is there already is EEXIST.
    fn link(
        &mut self,
        ctx: Context,
        inode: Self::Inode,
        newparent: Self::Inode,
        newname: CStr<'_>,
    ) -> Result<Entry, Fault>
        ensures { allows self.old
            (Link ctx (Self.Inode.value inode) (Self.Inode.value newparent)
            (name_text newname.entry))
            (Plain (entry_answer result))
            self.new };

    /// Opens a file (OPEN): answers a handle, by which the kernel names it from then on, or none,
    /// and how the kernel is to use it. `flags` are those of `open(2)` without the ones that make a
    /// file; `kill_priv` says that the file is to lose its set-user and set-group bits. ENOSYS says
    /// that files needn't be opened, where both sides agreed on `ZERO_MESSAGE_OPEN`.
    fn open(
        &mut self,
        ctx: Context,
        inode: Self::Inode,
        kill_priv: bool,
        flags: u32,
    ) -> Result<(Option<Self::Handle>, OpenOptions), Fault>
        ensures { allows self.old
            (Open ctx (Self.Inode.value inode) kill_priv flags)
            (Plain (opened_answer Self.Handle.value result))
            self.new };

    /// Puts up to `size` bytes of an open file, from `offset` on, into `w` (READ), and answers how
    /// many: at most `size` and at most 4,294,967,279, as for `readlink`. Fewer than `size` say
    /// that the file ends there. `lock_owner` is there where the kernel names the owner of the
    /// caller's locks, and `flags` are those of the `open`.
    ///
    /// Bytes of a file are moved by [`read_from_file_at`](ZeroCopyWriter::read_from_file_at), with
    /// no copy in between. After a fault what was put counts for nothing.
    fn read<W: ZeroCopyWriter>(
        &mut self,
        ctx: Context,
        inode: Self::Inode,
        handle: Self::Handle,
        w: &mut W,
        size: u32,
        offset: u64,
        lock_owner: Option<u64>,
        flags: u32,
    ) -> Result<usize, Fault>
        ensures { (bytes : List ℕ) × W.puts w.old bytes w.new × Counts result bytes size
            × allows self.old
            (Read ctx (Self.Inode.value inode) (Self.Handle.value handle) (W.room w.old) size
            offset lock_owner flags)
            (Plain (read_answer result bytes))
            self.new };

    /// Takes up to `size` bytes from `r` and puts them into an open file, from `offset` on (WRITE);
    /// answers how many. `delayed_write` says that the kernel writes pages back that were written
    /// to before, perhaps by another caller than `ctx`; `kill_priv` is as for `open`. `lock_owner`
    /// and `flags` are as for `read`.
    ///
    /// Bytes are moved into a file by [`write_to_file_at`](ZeroCopyReader::write_to_file_at), with
    /// no copy in between.
    fn write<R: ZeroCopyReader>(
        &mut self,
        ctx: Context,
        inode: Self::Inode,
        handle: Self::Handle,
        r: &mut R,
        size: u32,
        offset: u64,
        lock_owner: Option<u64>,
        delayed_write: bool,
        kill_priv: bool,
        flags: u32,
    ) -> Result<u32, Fault>
        ensures { (bytes : List ℕ) × R.takes r.old bytes r.new
            × allows self.old
            (Write ctx (Self.Inode.value inode) (Self.Handle.value handle) (R.left r.old) size
            offset lock_owner delayed_write kill_priv flags)
            (Plain (written_answer result))
            self.new };

    /// How much the file system of this node holds, and how much of it is free (STATFS).
    fn statfs(&mut self, ctx: Context, inode: Self::Inode) -> Result<Statvfs64, Fault>
        ensures { allows self.old
            (Statfs ctx (Self.Inode.value inode))
            (Plain (statistics_answer result))
            self.new };

    /// Closes a handle, once for each `open` or `create` that answered one (RELEASE). `flags` are
    /// those of the `open`. `flush` says to write back what isn't written, `flock_release` to give
    /// up the `flock` locks of `lock_owner`, which is there where one of the two holds. No program
    /// sees a fault.
    fn release(
        &mut self,
        ctx: Context,
        inode: Self::Inode,
        flags: u32,
        handle: Self::Handle,
        flush: bool,
        flock_release: bool,
        lock_owner: Option<u64>,
    ) -> Result<(), Fault>
        ensures { allows self.old
            (Release ctx (Self.Inode.value inode) flags (Self.Handle.value handle) flush
            flock_release lock_owner)
            (Plain (done_answer result))
            self.new };

    /// Brings a file to where it outlasts a crash (FSYNC): its data, and unless `datasync` holds
    /// its attributes too. ENOSYS says that there is nothing to do, and the kernel doesn't ask
    /// again.
    fn fsync(
        &mut self,
        ctx: Context,
        inode: Self::Inode,
        datasync: bool,
        handle: Self::Handle,
    ) -> Result<(), Fault>
        ensures { allows self.old
            (Fsync ctx (Self.Inode.value inode) datasync (Self.Handle.value handle))
            (Plain (done_answer result))
            self.new };

    /// Sets an extended attribute (SETXATTR). `flags` are those of `setxattr(2)`: with bit 0
    /// (`XATTR_CREATE`) one that is there is EEXIST, with bit 1 (`XATTR_REPLACE`) one that isn't is
    /// ENODATA. `extra` is empty unless both sides agreed on `SETXATTR_EXT`. After ENOSYS the
    /// kernel answers EOPNOTSUPP by itself.
    fn setxattr(
        &mut self,
        ctx: Context,
        inode: Self::Inode,
        name: CStr<'_>,
        value: &[u8],
        flags: u32,
        extra: SetxattrFlags,
    ) -> Result<(), Fault>
        ensures { allows self.old
            (Setxattr ctx (Self.Inode.value inode) (name_text name.entry) value.now flags
            (setxattr_flags_bits extra))
            (Plain (done_answer result))
            self.new };

    /// The value of an extended attribute, of at most `size` bytes, or where `size` is 0 how many
    /// it has (GETXATTR). A longer value is ERANGE, an attribute that isn't there ENODATA. A value
    /// of more than 4,294,967,279 bytes is never answered, as for `readlink`.
    fn getxattr(
        &mut self,
        ctx: Context,
        inode: Self::Inode,
        name: CStr<'_>,
        size: u32,
    ) -> Result<GetxattrReply, Fault>
        ensures allowed { allows self.old
            (Getxattr ctx (Self.Inode.value inode) (name_text name.entry) size)
            (Plain (getxattr_answer result))
            self.new }
        ensures short { KeepsTextShort (getxattr_answer result) };

    /// The names of the extended attributes of a node, of at most `size` bytes with a 0 after
    /// each, or where `size` is 0 how many bytes they have (LISTXATTR). Longer ones are ERANGE.
    /// More than 4,294,967,279 bytes are never answered, as for `readlink`.
    fn listxattr(
        &mut self,
        ctx: Context,
        inode: Self::Inode,
        size: u32,
    ) -> Result<ListxattrReply, Fault>
        ensures allowed { allows self.old
            (Listxattr ctx (Self.Inode.value inode) size)
            (Plain (listxattr_answer result))
            self.new }
        ensures short { KeepsTextShort (listxattr_answer result) };

    /// Takes an extended attribute away (REMOVEXATTR). One that isn't there is ENODATA.
    fn removexattr(&mut self, ctx: Context, inode: Self::Inode, name: CStr<'_>) -> Result<(), Fault>
        ensures { allows self.old
            (Removexattr ctx (Self.Inode.value inode) (name_text name.entry))
            (Plain (done_answer result))
            self.new };

    /// A program closes a descriptor of an open file (FLUSH), of which there may be several: what
    /// is to fail by `close(2)` fails here. The POSIX locks of `lock_owner` are given up. ENOSYS
    /// says that there is nothing to do, and the kernel doesn't ask again.
    fn flush(
        &mut self,
        ctx: Context,
        inode: Self::Inode,
        handle: Self::Handle,
        lock_owner: u64,
    ) -> Result<(), Fault>
        ensures { allows self.old
            (Flush ctx (Self.Inode.value inode) (Self.Handle.value handle) lock_owner)
            (Plain (done_answer result))
            self.new };

    /// Begins a session (INIT). `capable` are the options that the client offers, of those that are
    /// known; answers those that the file system wants. The server supports some by itself: agreed
    /// are those offered that either wants.
    fn init(&mut self, capable: FsOptions) -> Result<FsOptions, Fault>
        ensures { allows self.old
            (Init (fs_options_bits capable))
            (Plain (init_answer result))
            self.new };

    /// Opens a directory (OPENDIR), as `open` does a file. ENOSYS says that directories needn't be
    /// opened, where both sides agreed on `ZERO_MESSAGE_OPENDIR`.
    fn opendir(
        &mut self,
        ctx: Context,
        inode: Self::Inode,
        flags: u32,
    ) -> Result<(Option<Self::Handle>, OpenOptions), Fault>
        ensures { allows self.old
            (Opendir ctx (Self.Inode.value inode) flags)
            (Plain (opened_answer Self.Handle.value result))
            self.new };

    /// Answers what gives the items of a directory (READDIR, READDIRPLUS). `offset` is 0 at the
    /// beginning of the directory, or that of an item that was given before: the reading goes on
    /// after it. `handle` is that of the `opendir`, and says nothing where that answered none.
    ///
    /// `size` is how many bytes of records the reply may have. Items are taken until one doesn't
    /// fit in there; a reply without records says that the directory has ended. READDIRPLUS calls
    /// `lookup` for each item that it takes but `.` and `..`.
    fn readdir(
        &mut self,
        ctx: Context,
        inode: Self::Inode,
        handle: Self::Handle,
        size: u32,
        offset: u64,
    ) -> Result<Self::DirIter, Fault>
        ensures { allows self.old
            (Readdir ctx (Self.Inode.value inode) (Self.Handle.value handle) size offset)
            (directory_answer result)
            self.new };

    /// Closes a handle of a directory, once for each `opendir` that answered one (RELEASEDIR).
    /// `flags` are those of the `opendir`. No program sees a fault.
    fn releasedir(
        &mut self,
        ctx: Context,
        inode: Self::Inode,
        flags: u32,
        handle: Self::Handle,
    ) -> Result<(), Fault>
        ensures { allows self.old
            (Releasedir ctx (Self.Inode.value inode) flags (Self.Handle.value handle))
            (Plain (done_answer result))
            self.new };

    /// Brings a directory to where it outlasts a crash (FSYNCDIR), as `fsync` does a file.
    fn fsyncdir(
        &mut self,
        ctx: Context,
        inode: Self::Inode,
        datasync: bool,
        handle: Self::Handle,
    ) -> Result<(), Fault>
        ensures { allows self.old
            (Fsyncdir ctx (Self.Inode.value inode) datasync (Self.Handle.value handle))
            (Plain (done_answer result))
            self.new };

    /// Asks for a lock (GETLK). It is told nothing, and a fault alone is replied.
    fn getlk(&mut self) -> Result<(), Fault>
        ensures { allows self.old Getlk (Plain (done_answer result)) self.new };

    /// Sets a lock, or takes it away (SETLK). It is told nothing, and a fault alone is replied.
    fn setlk(&mut self) -> Result<(), Fault>
        ensures { allows self.old Setlk (Plain (done_answer result)) self.new };

    /// Sets a lock once it is free (SETLKW). It is told nothing, and a fault alone is replied.
    fn setlkw(&mut self) -> Result<(), Fault>
        ensures { allows self.old Setlkw (Plain (done_answer result)) self.new };

    /// Whether the caller may use a node (ACCESS): `mask` says how, as in `access(2)`. What it may
    /// not is EACCES. ENOSYS says that all is allowed, and the kernel doesn't ask again.
    fn access(&mut self, ctx: Context, inode: Self::Inode, mask: u32) -> Result<(), Fault>
        ensures { allows self.old
            (Access ctx (Self.Inode.value inode) mask)
            (Plain (done_answer result))
            self.new };

    /// Makes a file of this name in the directory `parent`, and opens it (CREATE). `mode` and
    /// `umask` are as for `mknod`, `kill_priv` as for `open`, and `flags` too, but with those that
    /// make a file. The answer is that of both: it counts one lookup. A name that is there is
    /// EEXIST if `flags` have `O_EXCL`. Without it the file may be opened, or the name refused with
    /// EEXIST: a kernel asks only for names that it takes to be free. After ENOSYS it calls `mknod`
    /// and `open` in its place.
    fn create(
        &mut self,
        ctx: Context,
        parent: Self::Inode,
        name: CStr<'_>,
        mode: u32,
        kill_priv: bool,
        flags: u32,
        umask: u32,
        ext: Extensions,
    ) -> Result<(Entry, Option<Self::Handle>, OpenOptions), Fault>
        ensures { allows self.old
            (Create ctx (Self.Inode.value parent) (name_text name.entry) mode kill_priv flags
            umask (extension_values_of ext))
            (Plain (created_answer Self.Handle.value result))
            self.new };

    /// Asks where a block of a file lies (BMAP). It is told nothing, and a fault alone is replied.
    fn bmap(&mut self) -> Result<(), Fault>
        ensures { allows self.old Bmap (Plain (done_answer result)) self.new };

    /// Ends a session (DESTROY): all handles are closed and the kernel counts no lookups any more.
    /// There is no reply.
    fn destroy(&mut self)
        ensures { allows self.old Destroy (Plain Done) self.new };

    /// Controls a device (IOCTL). It is told nothing, and a fault alone is replied.
    fn ioctl(&mut self) -> Result<(), Fault>
        ensures { allows self.old Ioctl (Plain (done_answer result)) self.new };

    /// Asks what an open file is ready for (POLL). It is told nothing, and a fault alone is
    /// replied.
    fn poll(&mut self) -> Result<(), Fault>
        ensures { allows self.old Poll (Plain (done_answer result)) self.new };

    /// What the kernel sends for a notice that asked for data (NOTIFY_REPLY). It is told nothing,
    /// and a fault alone is replied.
    fn notify_reply(&mut self) -> Result<(), Fault>
        ensures { allows self.old NotifyReply (Plain (done_answer result)) self.new };

    /// The kernel takes back lookups of many nodes (BATCH_FORGET): of each pair's node as many as
    /// its count says, as by `forget` for each, in order. There is no reply. A file system that has
    /// nothing shorter to do calls its own `forget` in a loop; what a loop like that allows, the
    /// relation `ForgetsEach` says.
    ///
    /// An implementation repeats this clause, as that of `getattr`.
    fn batch_forget(&mut self, ctx: Context, requests: Vec<(Self::Inode, u64)>)
        ensures { allows self.old
            (BatchForget ctx (map (λ p. (Self.Inode.value p.0, p.1)) requests.items))
            (Plain Done)
            self.new };

    /// Takes room for `length` bytes of an open file from `offset` on, so that writes there don't
    /// fail for want of it (FALLOCATE). `mode` is that of `fallocate(2)`; one that isn't served is
    /// EOPNOTSUPP. After ENOSYS the kernel answers EOPNOTSUPP by itself.
    fn fallocate(
        &mut self,
        ctx: Context,
        inode: Self::Inode,
        handle: Self::Handle,
        mode: u32,
        offset: u64,
        length: u64,
    ) -> Result<(), Fault>
        ensures { allows self.old
            (Fallocate ctx (Self.Inode.value inode) (Self.Handle.value handle) mode offset
            length)
            (Plain (done_answer result))
            self.new };

    /// Where the next data (`whence` 3, `SEEK_DATA`) or the next hole (4, `SEEK_HOLE`) of an open
    /// file begins, from `offset` on, in bytes (LSEEK). Past the end it is ENXIO. After ENOSYS the
    /// kernel takes files to have no holes.
    fn lseek(
        &mut self,
        ctx: Context,
        inode: Self::Inode,
        handle: Self::Handle,
        offset: u64,
        whence: u32,
    ) -> Result<u64, Fault>
        ensures { allows self.old
            (Lseek ctx (Self.Inode.value inode) (Self.Handle.value handle) offset whence)
            (Plain (offset_answer result))
            self.new };

    /// Copies `len` bytes from one place of an open file to a place of another, and answers how
    /// many it copied (COPY_FILE_RANGE). `flags` are those of `copy_file_range(2)`, where there are
    /// none as yet. After ENOSYS the kernel copies by reads and writes.
    fn copyfilerange(
        &mut self,
        ctx: Context,
        inode_in: Self::Inode,
        handle_in: Self::Handle,
        offset_in: u64,
        inode_out: Self::Inode,
        handle_out: Self::Handle,
        offset_out: u64,
        len: u64,
        flags: u64,
    ) -> Result<u32, Fault>
        ensures { allows self.old
            (Copyfilerange ctx (Self.Inode.value inode_in) (Self.Handle.value handle_in)
            offset_in (Self.Inode.value inode_out) (Self.Handle.value handle_out) offset_out
            len flags)
            (Plain (written_answer result))
            self.new };

    /// Brings all of the file system of this node to where it outlasts a crash (SYNCFS).
    fn syncfs(&mut self, ctx: Context, inode: Self::Inode) -> Result<(), Fault>
        ensures { allows self.old
            (Syncfs ctx (Self.Inode.value inode))
            (Plain (done_answer result))
            self.new };

    /// Makes a file without a name (TMPFILE). It is told nothing and only ever fails: answers the
    /// fault.
    fn tmpfile(&mut self) -> Fault
        ensures { allows self.old Tmpfile (Plain (Failed result)) self.new };
}
