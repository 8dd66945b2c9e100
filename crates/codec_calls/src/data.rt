//! An answer as data, and what it is to a server.

ghost use Rattle.std.specs.Prelude.{◌≡◌, min};
ghost use Rattle.vfs_files.specs.Values.{entry_out_of, whole_seconds, nanoseconds_beyond};
ghost use Rattle.codec_calls.specs.Values.{IsFaultOf, attr_of, entry_out_for, statistics_of, most_nanoseconds};

use std::time::Duration;
use vfs_files::Entry;
use vfs_flags::{Errno, Fault, GuestGid, GuestUid};
use vfs_wire::{Attr, Statvfs64};

/// Attributes of a file, laid out as `struct fuse_attr`.
#[repr(C)]
#[derive(Clone, Copy, Debug, Default)]
pub struct AttrData {
    /// The number of the file, as `st_ino`.
    pub ino: u64,
    /// How many bytes it has.
    pub size: u64,
    /// How much it takes, in units of 512 bytes.
    pub blocks: u64,
    /// When it was read last, in seconds since 1970.
    pub atime: u64,
    /// When its bytes were changed last, in seconds since 1970.
    pub mtime: u64,
    /// When anything of it was changed last, in seconds since 1970.
    pub ctime: u64,
    /// The nanoseconds beyond `atime`.
    pub atimensec: u32,
    /// The nanoseconds beyond `mtime`.
    pub mtimensec: u32,
    /// The nanoseconds beyond `ctime`.
    pub ctimensec: u32,
    /// Its kind and its permissions, as `st_mode`.
    pub mode: u32,
    /// How many names it has.
    pub nlink: u32,
    /// The user whom it belongs to, as the guest numbers it.
    pub uid: u32,
    /// The group that it belongs to, as the guest numbers it.
    pub gid: u32,
    /// The number of a device.
    pub rdev: u32,
    /// How many bytes are best read and written at a time.
    pub blksize: u32,
    /// Flags of `struct fuse_attr`, as `FUSE_ATTR_SUBMOUNT`.
    pub flags: u32,
}

/// An entry, laid out as `struct fuse_entry_out`.
#[repr(C)]
#[derive(Clone, Copy, Debug, Default)]
pub struct EntryData {
    /// The number of the node, or 0, which says that there is no such name.
    pub node: u64,
    /// Tells apart nodes that bear one number at different times.
    pub generation: u64,
    /// How long the kernel may take the name for this node's, in whole seconds.
    pub entry_seconds: u64,
    /// How long it may take the attributes for true, in whole seconds.
    pub attr_seconds: u64,
    /// The nanoseconds beyond `entry_seconds`. More than 999,999,999 stand for that many.
    pub entry_nanoseconds: u32,
    /// The nanoseconds beyond `attr_seconds`. More than 999,999,999 stand for that many.
    pub attr_nanoseconds: u32,
    /// The attributes of the node.
    pub attr: AttrData,
}

/// What a file system holds, as `statvfs(3)` says it.
#[repr(C)]
#[derive(Clone, Copy, Debug, Default)]
pub struct StatisticsData {
    /// How many bytes are best read and written at a time.
    pub bsize: u64,
    /// How many bytes a block has.
    pub frsize: u64,
    /// How many blocks there are.
    pub blocks: u64,
    /// How many of them are free.
    pub bfree: u64,
    /// How many of these anyone may take.
    pub bavail: u64,
    /// How many files there can be.
    pub files: u64,
    /// How many of them are not there yet.
    pub ffree: u64,
    /// How many bytes a name has at most.
    pub namemax: u64,
}

/// An answer: the fault that `error` is, or where that is 0 what the call's kind of answer names. A
/// text, the data of a READ and the items of a directory are beside it.
#[repr(C)]
#[derive(Clone, Copy, Debug, Default)]
pub struct AnswerData {
    /// The number of the fault, or 0. One below 0 is a fault without a number, which is replied as
    /// EIO.
    pub error: i32,
    /// Whether what was opened has a handle: 0 where it has none.
    pub has_handle: u32,
    /// The number of the handle.
    pub handle: u64,
    /// By the kind: how many bytes of data were read, or were written; how many bytes a text has; a
    /// place in a file; or the bits of the options that INIT wants, of which unknown ones are left
    /// out.
    pub count: u64,
    /// How what was opened is to be used, as bits of `OpenOptions`. Unknown ones are left out.
    pub open_flags: u32,
    /// Whether the length of a text is answered in its place: 0 where the text is.
    pub has_count: u32,
    /// The entry. Of GETATTR and SETATTR its attributes, and how long they hold, are the answer.
    pub entry: EntryData,
    /// What the file system holds.
    pub statfs: StatisticsData,
}

/// An item of a directory, and what its lookup answered.
#[repr(C)]
#[derive(Clone, Copy)]
pub struct ItemData<'a> {
    /// The number of the node, which counts no lookup.
    pub ino: u64,
    /// Where a reading that goes on after this item begins.
    pub offset: u64,
    /// The name with the 0 that ends it.
    pub name: &'a [u8],
    /// The entry that the lookup answered. For READDIR, and of `.` and `..`, it is not looked at.
    pub entry: EntryData,
    /// The kind of file, as the `d_type` of `readdir(3)`.
    pub type_: u32,
    /// The number of the fault that the lookup answered, or 0, as in `AnswerData`.
    pub error: i32,
}

/// The most nanoseconds beside whole seconds.
const MOST_NANOSECONDS: u32 = 999_999_999;

// How long that many seconds and nanoseconds are.
fn duration(seconds: u64, nanoseconds: u32) -> Duration
    ensures whole { whole_seconds result ≡ seconds }
    ensures beyond { nanoseconds_beyond result ≡ min nanoseconds most_nanoseconds }
{
    Duration::new(seconds, nanoseconds.min(MOST_NANOSECONDS))
}

/// The fault of this number: none where it is not above 0.
pub fn fault_of(error: i32) -> Fault
    ensures { IsFaultOf error result }
{
    Errno::new(error)
}

impl AttrData {
    /// The attributes.
    #[inline(always)]
    pub fn attr(&self) -> Attr
        ensures { result ≡ attr_of self.now }
    {
        Attr {
            ino: self.ino,
            size: self.size,
            blocks: self.blocks,
            atime: self.atime,
            mtime: self.mtime,
            ctime: self.ctime,
            atimensec: self.atimensec,
            mtimensec: self.mtimensec,
            ctimensec: self.ctimensec,
            mode: self.mode,
            nlink: self.nlink,
            uid: GuestUid::from(self.uid),
            gid: GuestGid::from(self.gid),
            rdev: self.rdev,
            blksize: self.blksize,
            flags: self.flags,
        }
    }
}

impl EntryData {
    /// The entry.
    #[inline(always)]
    pub fn entry(&self) -> Entry
        ensures { entry_out_of result ≡ entry_out_for self.now }
    {
        Entry {
            inode: self.node,
            generation: self.generation,
            attr: self.attr.attr(),
            attr_timeout: self.attr_timeout(),
            entry_timeout: duration(self.entry_seconds, self.entry_nanoseconds),
        }
    }

    /// How long the attributes hold.
    pub fn attr_timeout(&self) -> Duration
        ensures whole { whole_seconds result ≡ self.now.attr_seconds }
        ensures beyond { nanoseconds_beyond result ≡ min self.now.attr_nanoseconds most_nanoseconds }
    {
        duration(self.attr_seconds, self.attr_nanoseconds)
    }
}

impl StatisticsData {
    /// What the file system holds.
    pub fn statistics(&self) -> Statvfs64
        ensures { result ≡ statistics_of self.now }
    {
        Statvfs64 {
            f_bsize: self.bsize,
            f_frsize: self.frsize,
            f_blocks: self.blocks,
            f_bfree: self.bfree,
            f_bavail: self.bavail,
            f_files: self.files,
            f_ffree: self.ffree,
            f_namemax: self.namemax,
        }
    }
}
