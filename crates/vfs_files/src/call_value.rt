//! Calls and answers as values.

ghost use Rattle.std.specs.Prelude.{◌≡◌};
ghost use Rattle.vfs_flags.specs.Numbers.{number_of};
ghost use Rattle.vfs_files.specs.Calls.{kind_of, opcode_number_of, first_node_of};
ghost use Rattle.vfs_files.specs.CallValue.{call_of, kind_as};

use crate::entry::{Context, Entry};
use crate::extensions::Extensions;
use crate::name::CStr;
use std::time::Duration;
use vfs_flags::{FsOptions, Opcode, OpenOptions, SetattrValid, SetxattrFlags};
use vfs_wire::{Attr, SetattrIn, Statvfs64};

/// The arguments of a READ besides the writer that its data go into.
#[derive(Clone, Copy)]
pub struct ReadValue {
    pub ctx: Context,
    pub inode: u64,
    pub handle: u64,
    pub size: u32,
    pub offset: u64,
    pub lock_owner: Option<u64>,
    pub flags: u32,
}

/// The arguments of a WRITE besides the reader that its data come from.
#[derive(Clone, Copy)]
pub struct WriteValue {
    pub ctx: Context,
    pub inode: u64,
    pub handle: u64,
    pub size: u32,
    pub offset: u64,
    pub lock_owner: Option<u64>,
    pub delayed_write: bool,
    pub kill_priv: bool,
    pub flags: u32,
}

/// A call of a [`FileSystem`](crate::FileSystem), with its arguments: nodes and handles by number.
/// Reading and writing, which are lent a reply's or a request's bytes, and the listing of a
/// directory are none of these.
#[derive(Drop)]
pub enum CallValue<'a> {
    /// LOOKUP.
    Lookup {
        ctx: Context,
        parent: u64,
        name: CStr<'a>,
    },
    /// FORGET.
    Forget {
        ctx: Context,
        inode: u64,
        count: u64,
    },
    /// GETATTR.
    Getattr {
        ctx: Context,
        inode: u64,
        handle: Option<u64>,
    },
    /// SETATTR.
    Setattr {
        ctx: Context,
        inode: u64,
        attr: SetattrIn,
        handle: Option<u64>,
        valid: SetattrValid,
    },
    /// READLINK.
    Readlink {
        ctx: Context,
        inode: u64,
    },
    /// SYMLINK.
    Symlink {
        ctx: Context,
        linkname: CStr<'a>,
        parent: u64,
        name: CStr<'a>,
        ext: Extensions,
    },
    /// MKNOD.
    Mknod {
        ctx: Context,
        inode: u64,
        name: CStr<'a>,
        mode: u32,
        rdev: u32,
        umask: u32,
        ext: Extensions,
    },
    /// MKDIR.
    Mkdir {
        ctx: Context,
        parent: u64,
        name: CStr<'a>,
        mode: u32,
        umask: u32,
        ext: Extensions,
    },
    /// UNLINK.
    Unlink {
        ctx: Context,
        parent: u64,
        name: CStr<'a>,
    },
    /// RMDIR.
    Rmdir {
        ctx: Context,
        parent: u64,
        name: CStr<'a>,
    },
    /// RENAME.
    Rename {
        ctx: Context,
        olddir: u64,
        oldname: CStr<'a>,
        newdir: u64,
        newname: CStr<'a>,
        flags: u32,
    },
    /// LINK.
    Link {
        ctx: Context,
        inode: u64,
        newparent: u64,
        newname: CStr<'a>,
    },
    /// OPEN.
    Open {
        ctx: Context,
        inode: u64,
        kill_priv: bool,
        flags: u32,
    },
    /// STATFS.
    Statfs {
        ctx: Context,
        inode: u64,
    },
    /// RELEASE.
    Release {
        ctx: Context,
        inode: u64,
        flags: u32,
        handle: u64,
        flush: bool,
        flock_release: bool,
        lock_owner: Option<u64>,
    },
    /// FSYNC.
    Fsync {
        ctx: Context,
        inode: u64,
        datasync: bool,
        handle: u64,
    },
    /// SETXATTR.
    Setxattr {
        ctx: Context,
        inode: u64,
        name: CStr<'a>,
        value: &'a [u8],
        flags: u32,
        extra: SetxattrFlags,
    },
    /// GETXATTR.
    Getxattr {
        ctx: Context,
        inode: u64,
        name: CStr<'a>,
        size: u32,
    },
    /// LISTXATTR.
    Listxattr {
        ctx: Context,
        inode: u64,
        size: u32,
    },
    /// REMOVEXATTR.
    Removexattr {
        ctx: Context,
        inode: u64,
        name: CStr<'a>,
    },
    /// FLUSH.
    Flush {
        ctx: Context,
        inode: u64,
        handle: u64,
        lock_owner: u64,
    },
    /// INIT.
    Init {
        capable: FsOptions,
    },
    /// OPENDIR.
    Opendir {
        ctx: Context,
        inode: u64,
        flags: u32,
    },
    /// RELEASEDIR.
    Releasedir {
        ctx: Context,
        inode: u64,
        flags: u32,
        handle: u64,
    },
    /// FSYNCDIR.
    Fsyncdir {
        ctx: Context,
        inode: u64,
        datasync: bool,
        handle: u64,
    },
    /// GETLK.
    Getlk,
    /// SETLK.
    Setlk,
    /// SETLKW.
    Setlkw,
    /// ACCESS.
    Access {
        ctx: Context,
        inode: u64,
        mask: u32,
    },
    /// CREATE.
    Create {
        ctx: Context,
        parent: u64,
        name: CStr<'a>,
        mode: u32,
        kill_priv: bool,
        flags: u32,
        umask: u32,
        ext: Extensions,
    },
    /// BMAP.
    Bmap,
    /// DESTROY.
    Destroy,
    /// IOCTL.
    Ioctl,
    /// POLL.
    Poll,
    /// NOTIFY_REPLY.
    NotifyReply,
    /// BATCH_FORGET.
    BatchForget {
        ctx: Context,
        requests: Vec<(u64, u64)>,
    },
    /// FALLOCATE.
    Fallocate {
        ctx: Context,
        inode: u64,
        handle: u64,
        mode: u32,
        offset: u64,
        length: u64,
    },
    /// LSEEK.
    Lseek {
        ctx: Context,
        inode: u64,
        handle: u64,
        offset: u64,
        whence: u32,
    },
    /// COPY_FILE_RANGE.
    Copyfilerange {
        ctx: Context,
        inode_in: u64,
        handle_in: u64,
        offset_in: u64,
        inode_out: u64,
        handle_out: u64,
        offset_out: u64,
        len: u64,
        flags: u64,
    },
    /// SYNCFS.
    Syncfs {
        ctx: Context,
        inode: u64,
    },
    /// TMPFILE.
    Tmpfile,
}

impl CallValue<'_> {
    /// The opcode that asks for such a call; of two the first, as RENAME of RENAME and RENAME2.
    pub fn opcode(&self) -> Opcode
        ensures { number_of result ≡ opcode_number_of (call_of self.now) }
    {
        match self {
            CallValue::Lookup { .. } => Opcode::Lookup,
            CallValue::Forget { .. } => Opcode::Forget,
            CallValue::Getattr { .. } => Opcode::Getattr,
            CallValue::Setattr { .. } => Opcode::Setattr,
            CallValue::Readlink { .. } => Opcode::Readlink,
            CallValue::Symlink { .. } => Opcode::Symlink,
            CallValue::Mknod { .. } => Opcode::Mknod,
            CallValue::Mkdir { .. } => Opcode::Mkdir,
            CallValue::Unlink { .. } => Opcode::Unlink,
            CallValue::Rmdir { .. } => Opcode::Rmdir,
            CallValue::Rename { .. } => Opcode::Rename,
            CallValue::Link { .. } => Opcode::Link,
            CallValue::Open { .. } => Opcode::Open,
            CallValue::Statfs { .. } => Opcode::Statfs,
            CallValue::Release { .. } => Opcode::Release,
            CallValue::Fsync { .. } => Opcode::Fsync,
            CallValue::Setxattr { .. } => Opcode::Setxattr,
            CallValue::Getxattr { .. } => Opcode::Getxattr,
            CallValue::Listxattr { .. } => Opcode::Listxattr,
            CallValue::Removexattr { .. } => Opcode::Removexattr,
            CallValue::Flush { .. } => Opcode::Flush,
            CallValue::Init { .. } => Opcode::Init,
            CallValue::Opendir { .. } => Opcode::Opendir,
            CallValue::Releasedir { .. } => Opcode::Releasedir,
            CallValue::Fsyncdir { .. } => Opcode::Fsyncdir,
            CallValue::Getlk => Opcode::Getlk,
            CallValue::Setlk => Opcode::Setlk,
            CallValue::Setlkw => Opcode::Setlkw,
            CallValue::Access { .. } => Opcode::Access,
            CallValue::Create { .. } => Opcode::Create,
            CallValue::Bmap => Opcode::Bmap,
            CallValue::Destroy => Opcode::Destroy,
            CallValue::Ioctl => Opcode::Ioctl,
            CallValue::Poll => Opcode::Poll,
            CallValue::NotifyReply => Opcode::NotifyReply,
            CallValue::BatchForget { .. } => Opcode::BatchForget,
            CallValue::Fallocate { .. } => Opcode::Fallocate,
            CallValue::Lseek { .. } => Opcode::Lseek,
            CallValue::Copyfilerange { .. } => Opcode::CopyFileRange,
            CallValue::Syncfs { .. } => Opcode::Syncfs,
            CallValue::Tmpfile => Opcode::TmpFile,
        }
    }

    /// The node that it is about, the first where there are two, and 0 where there is none.
    pub fn node(&self) -> u64
        ensures { result ≡ first_node_of (call_of self.now) }
    {
        match self {
            CallValue::Lookup { parent, .. } => *parent,
            CallValue::Symlink { parent, .. } => *parent,
            CallValue::Mkdir { parent, .. } => *parent,
            CallValue::Unlink { parent, .. } => *parent,
            CallValue::Rmdir { parent, .. } => *parent,
            CallValue::Create { parent, .. } => *parent,
            CallValue::Forget { inode, .. } => *inode,
            CallValue::Getattr { inode, .. } => *inode,
            CallValue::Setattr { inode, .. } => *inode,
            CallValue::Readlink { inode, .. } => *inode,
            CallValue::Mknod { inode, .. } => *inode,
            CallValue::Link { inode, .. } => *inode,
            CallValue::Open { inode, .. } => *inode,
            CallValue::Statfs { inode, .. } => *inode,
            CallValue::Release { inode, .. } => *inode,
            CallValue::Fsync { inode, .. } => *inode,
            CallValue::Setxattr { inode, .. } => *inode,
            CallValue::Getxattr { inode, .. } => *inode,
            CallValue::Listxattr { inode, .. } => *inode,
            CallValue::Removexattr { inode, .. } => *inode,
            CallValue::Flush { inode, .. } => *inode,
            CallValue::Opendir { inode, .. } => *inode,
            CallValue::Releasedir { inode, .. } => *inode,
            CallValue::Fsyncdir { inode, .. } => *inode,
            CallValue::Access { inode, .. } => *inode,
            CallValue::Fallocate { inode, .. } => *inode,
            CallValue::Lseek { inode, .. } => *inode,
            CallValue::Syncfs { inode, .. } => *inode,
            CallValue::Rename { olddir, .. } => *olddir,
            CallValue::Copyfilerange { inode_in, .. } => *inode_in,
            _ => 0,
        }
    }

    /// What its answer is, unless it is a fault.
    pub fn kind(&self) -> AnswerKind
        ensures { kind_as result ≡ kind_of (call_of self.now) }
    {
        match self {
            CallValue::Forget { .. } | CallValue::Destroy | CallValue::BatchForget { .. } =>
                AnswerKind::Quiet,
            CallValue::Getlk
            | CallValue::Setlk
            | CallValue::Setlkw
            | CallValue::Bmap
            | CallValue::Ioctl
            | CallValue::Poll
            | CallValue::NotifyReply => AnswerKind::Untold,
            CallValue::Init { .. } => AnswerKind::Agreements,
            CallValue::Lookup { .. }
            | CallValue::Symlink { .. }
            | CallValue::Mknod { .. }
            | CallValue::Mkdir { .. }
            | CallValue::Link { .. } => AnswerKind::Entries,
            CallValue::Getattr { .. } | CallValue::Setattr { .. } => AnswerKind::TimedAttributes,
            CallValue::Open { .. } | CallValue::Opendir { .. } => AnswerKind::Openings,
            CallValue::Create { .. } => AnswerKind::Creations,
            CallValue::Statfs { .. } => AnswerKind::Capacities,
            CallValue::Readlink { .. } => AnswerKind::Texts,
            CallValue::Getxattr { .. } | CallValue::Listxattr { .. } => AnswerKind::TextsOrCounts,
            CallValue::Lseek { .. } => AnswerKind::Offsets,
            CallValue::Copyfilerange { .. } => AnswerKind::Writes,
            CallValue::Tmpfile => AnswerKind::Faults,
            _ => AnswerKind::Told,
        }
    }
}

/// What such a call answers, beside a fault.
#[derive(Clone, Copy, Debug)]
pub enum AnswerKind {
    /// Nothing at all, and no fault either: there is no reply.
    Quiet,
    /// That it was done.
    Told,
    /// That it was done, which is not replied.
    Untold,
    /// The options that are wanted.
    Agreements,
    /// An entry.
    Entries,
    /// Attributes with their timeout.
    TimedAttributes,
    /// A handle, if there is one, and how to use it.
    Openings,
    /// An entry, and a handle as above.
    Creations,
    /// What the file system holds.
    Capacities,
    /// A text.
    Texts,
    /// A text, or how long it is.
    TextsOrCounts,
    /// A place in a file.
    Offsets,
    /// How many bytes were copied.
    Writes,
    /// Nothing but a fault.
    Faults,
}

/// An answer to such a call. A fault is beside it, as the `Err` of a result.
#[derive(Drop)]
pub enum Given {
    /// It was done, or there is nothing to answer.
    Done,
    /// The options that `init` wants.
    Options(FsOptions),
    /// An entry.
    Found(Entry),
    /// Attributes, and how long they hold.
    Attributes(Attr, Duration),
    /// A handle, if there is one, and how to use what was opened.
    Opened(Option<u64>, OpenOptions),
    /// An entry, and a handle as above.
    Created(Entry, Option<u64>, OpenOptions),
    /// What the file system holds.
    Statistics(Statvfs64),
    /// The text of a link, the value of an extended attribute, or the names of all.
    Text(Vec<u8>),
    /// How many bytes such a value has, or such names.
    Count(u32),
    /// A place in a file.
    Offset(u64),
    /// How many bytes were copied.
    Wrote(u32),
}
