//! What is printed of each opcode: its name, the parts of its request, the body of its reply, and the fields
//! of its records. What a sender leaves 0 isn't printed.

use crate::directory::print_entries;
use crate::directory::print_items;
use crate::fields::Fields;
use crate::fields::Value;
use crate::fields::Value::Hex;
use crate::fields::Value::Number;
use crate::fields::Value::Small;
use crate::fields::Value::Timeout;
use crate::fields::print_alone;
use crate::fields::print_fields;
use crate::fields::print_if_whole;
use crate::flags::Name;
use crate::flags::Set;
use crate::flags::Word;
use crate::further::print_handed_out;
use crate::further::print_ioctl;
use crate::further::print_notify_reply;
use crate::reply::asks_length;
use crate::reply::print_created;
use crate::request::print_init;
use crate::request::print_link;
use crate::request::print_name;
use crate::request::print_named;
use crate::request::print_pairs;
use crate::request::print_record_and_name;
use crate::request::print_setxattr;
use crate::request::print_tmpfile;
use crate::request::print_two_names;
use crate::request::print_write;
use crate::stop::Left;
use crate::stop::Stop;
use crate::text::Octal;
use crate::text::print_data;
use crate::text::print_text;
use bitflags::Flags;
use std::fmt::Write;
use std::fmt::{self};
use vfs_flags::ATTR_DAX;
use vfs_flags::ATTR_SUBMOUNT;
use vfs_flags::FATTR_FH;
use vfs_flags::FATTR_LOCKOWNER;
use vfs_flags::FSYNC_FDATASYNC;
use vfs_flags::FsOptions;
use vfs_flags::GETATTR_FH;
use vfs_flags::IoctlFlags;
use vfs_flags::LK_FLOCK;
use vfs_flags::OPEN_KILL_SUIDGID;
use vfs_flags::Opcode;
use vfs_flags::OpenOptions;
use vfs_flags::POLL_SCHEDULE_NOTIFY;
use vfs_flags::READ_LOCKOWNER;
use vfs_flags::RELEASE_FLOCK_UNLOCK;
use vfs_flags::RELEASE_FLUSH;
use vfs_flags::SetattrValid;
use vfs_flags::SetxattrFlags;
use vfs_flags::WRITE_CACHE;
use vfs_flags::WRITE_KILL_PRIV;
use vfs_flags::WRITE_LOCKOWNER;
use vfs_wire::Attr;
use vfs_wire::AttrOut;
use vfs_wire::BatchForgetIn;
use vfs_wire::EntryOut;
use vfs_wire::ForgetIn;
use vfs_wire::ForgetOne;
use vfs_wire::GetattrIn;
use vfs_wire::InHeader;
use vfs_wire::InitOut;
use vfs_wire::Kstatfs;
use vfs_wire::SetattrIn;
use vfs_wire_more::AccessIn;
use vfs_wire_more::BmapIn;
use vfs_wire_more::BmapOut;
use vfs_wire_more::CopyfilerangeIn;
use vfs_wire_more::CreateIn;
use vfs_wire_more::FallocateIn;
use vfs_wire_more::FileLock;
use vfs_wire_more::FlushIn;
use vfs_wire_more::FsyncIn;
use vfs_wire_more::GetxattrIn;
use vfs_wire_more::GetxattrOut;
use vfs_wire_more::InterruptIn;
use vfs_wire_more::IoctlIn;
use vfs_wire_more::IoctlOut;
use vfs_wire_more::LinkIn;
use vfs_wire_more::LkIn;
use vfs_wire_more::LkOut;
use vfs_wire_more::LseekIn;
use vfs_wire_more::LseekOut;
use vfs_wire_more::MkdirIn;
use vfs_wire_more::MknodIn;
use vfs_wire_more::NotifyRetrieveIn;
use vfs_wire_more::OpenIn;
use vfs_wire_more::OpenOut;
use vfs_wire_more::PollIn;
use vfs_wire_more::PollOut;
use vfs_wire_more::ReadIn;
use vfs_wire_more::ReleaseIn;
use vfs_wire_more::Rename2In;
use vfs_wire_more::RenameIn;
use vfs_wire_more::SetxattrIn;
use vfs_wire_more::SetxattrInCompat;
use vfs_wire_more::StatxIn;
use vfs_wire_more::WriteIn;
use vfs_wire_more::WriteOut;

/// The name that an opcode has in the kernel's `enum fuse_opcode`, without `FUSE_`.
pub fn opcode_name(opcode: Opcode) -> &'static str {
    match opcode {
        Opcode::Lookup => "LOOKUP",
        Opcode::Forget => "FORGET",
        Opcode::Getattr => "GETATTR",
        Opcode::Setattr => "SETATTR",
        Opcode::Readlink => "READLINK",
        Opcode::Symlink => "SYMLINK",
        Opcode::Mknod => "MKNOD",
        Opcode::Mkdir => "MKDIR",
        Opcode::Unlink => "UNLINK",
        Opcode::Rmdir => "RMDIR",
        Opcode::Rename => "RENAME",
        Opcode::Link => "LINK",
        Opcode::Open => "OPEN",
        Opcode::Read => "READ",
        Opcode::Write => "WRITE",
        Opcode::Statfs => "STATFS",
        Opcode::Release => "RELEASE",
        Opcode::Fsync => "FSYNC",
        Opcode::Setxattr => "SETXATTR",
        Opcode::Getxattr => "GETXATTR",
        Opcode::Listxattr => "LISTXATTR",
        Opcode::Removexattr => "REMOVEXATTR",
        Opcode::Flush => "FLUSH",
        Opcode::Init => "INIT",
        Opcode::Opendir => "OPENDIR",
        Opcode::Readdir => "READDIR",
        Opcode::Releasedir => "RELEASEDIR",
        Opcode::Fsyncdir => "FSYNCDIR",
        Opcode::Getlk => "GETLK",
        Opcode::Setlk => "SETLK",
        Opcode::Setlkw => "SETLKW",
        Opcode::Access => "ACCESS",
        Opcode::Create => "CREATE",
        Opcode::Interrupt => "INTERRUPT",
        Opcode::Bmap => "BMAP",
        Opcode::Destroy => "DESTROY",
        Opcode::Ioctl => "IOCTL",
        Opcode::Poll => "POLL",
        Opcode::NotifyReply => "NOTIFY_REPLY",
        Opcode::BatchForget => "BATCH_FORGET",
        Opcode::Fallocate => "FALLOCATE",
        Opcode::Readdirplus => "READDIRPLUS",
        Opcode::Rename2 => "RENAME2",
        Opcode::Lseek => "LSEEK",
        Opcode::CopyFileRange => "COPY_FILE_RANGE",
        Opcode::SetupMapping => "SETUPMAPPING",
        Opcode::RemoveMapping => "REMOVEMAPPING",
        Opcode::Syncfs => "SYNCFS",
        Opcode::TmpFile => "TMPFILE",
    }
}

/// Prints what comes after the header of a request; what is left after that.
pub fn print_parts<'a, W: Write>(
    w: &mut W,
    opcode: Opcode,
    header: &InHeader,
    options: FsOptions,
    bytes: &'a [u8],
) -> Left<'a> {
    match opcode {
        Opcode::Lookup | Opcode::Unlink | Opcode::Rmdir | Opcode::Removexattr => {
            print_name(w, header, 0, bytes)
        }
        Opcode::Forget => print_alone::<ForgetIn, W>(w, bytes),
        Opcode::Getattr => print_alone::<GetattrIn, W>(w, bytes),
        Opcode::Setattr => print_alone::<SetattrIn, W>(w, bytes),
        Opcode::Symlink => print_link(w, header, options, bytes),
        Opcode::Mknod => print_named::<MknodIn, W>(w, header, options, bytes),
        Opcode::Mkdir => print_named::<MkdirIn, W>(w, header, options, bytes),
        Opcode::Create => print_named::<CreateIn, W>(w, header, options, bytes),
        Opcode::Rename => print_two_names::<RenameIn, W>(w, header, bytes),
        Opcode::Rename2 => print_two_names::<Rename2In, W>(w, header, bytes),
        Opcode::Link => print_record_and_name::<LinkIn, W>(w, header, bytes),
        Opcode::Getxattr => print_record_and_name::<GetxattrIn, W>(w, header, bytes),
        Opcode::Open | Opcode::Opendir => print_alone::<OpenIn, W>(w, bytes),
        Opcode::Read | Opcode::Readdir | Opcode::Readdirplus => print_alone::<ReadIn, W>(w, bytes),
        Opcode::Write => print_write(w, bytes),
        Opcode::Release | Opcode::Releasedir => print_alone::<ReleaseIn, W>(w, bytes),
        Opcode::Fsync | Opcode::Fsyncdir => print_alone::<FsyncIn, W>(w, bytes),
        Opcode::Setxattr => print_setxattr(w, header, options, bytes),
        Opcode::Listxattr => print_alone::<GetxattrIn, W>(w, bytes),
        Opcode::Flush => print_alone::<FlushIn, W>(w, bytes),
        Opcode::Init => print_init(w, bytes),
        Opcode::Access => print_alone::<AccessIn, W>(w, bytes),
        Opcode::BatchForget => print_pairs(w, bytes),
        Opcode::Fallocate => print_alone::<FallocateIn, W>(w, bytes),
        Opcode::Lseek => print_alone::<LseekIn, W>(w, bytes),
        Opcode::CopyFileRange => print_alone::<CopyfilerangeIn, W>(w, bytes),
        Opcode::Getlk | Opcode::Setlk | Opcode::Setlkw => print_if_whole::<LkIn, W>(w, bytes),
        Opcode::Interrupt => print_if_whole::<InterruptIn, W>(w, bytes),
        Opcode::Bmap => print_if_whole::<BmapIn, W>(w, bytes),
        Opcode::Ioctl => print_ioctl(w, bytes),
        Opcode::Poll => print_if_whole::<PollIn, W>(w, bytes),
        Opcode::NotifyReply => print_notify_reply(w, bytes),
        Opcode::TmpFile => print_tmpfile(w, header, options, bytes),
        Opcode::SetupMapping | Opcode::RemoveMapping => Err(Stop::NotServed),
        Opcode::Readlink | Opcode::Statfs | Opcode::Destroy | Opcode::Syncfs => Ok(bytes),
    }
}

/// Prints what comes after the header of a reply to a request of this opcode, with this after its
/// header; what is left after that.
pub fn print_answer<'a, W: Write>(
    w: &mut W,
    opcode: Opcode,
    record: &[u8],
    body: &'a [u8],
) -> Left<'a> {
    match opcode {
        Opcode::Lookup | Opcode::Symlink | Opcode::Mknod | Opcode::Mkdir | Opcode::Link => {
            print_alone::<EntryOut, W>(w, body)
        }
        Opcode::Create | Opcode::TmpFile => print_created(w, body),
        Opcode::Getattr | Opcode::Setattr => print_alone::<AttrOut, W>(w, body),
        Opcode::Open | Opcode::Opendir => print_alone::<OpenOut, W>(w, body),
        Opcode::Write | Opcode::CopyFileRange => print_alone::<WriteOut, W>(w, body),
        Opcode::Statfs => print_alone::<Kstatfs, W>(w, body),
        Opcode::Init => print_alone::<InitOut, W>(w, body),
        Opcode::Lseek => print_alone::<LseekOut, W>(w, body),
        Opcode::Getlk => print_alone::<LkOut, W>(w, body),
        Opcode::Bmap => print_alone::<BmapOut, W>(w, body),
        Opcode::Ioctl => print_handed_out(w, body),
        Opcode::Poll => print_alone::<PollOut, W>(w, body),
        Opcode::Getxattr | Opcode::Listxattr if asks_length(record) => {
            print_alone::<GetxattrOut, W>(w, body)
        }
        _ => print_bytes(w, opcode, body),
    }
}

/// Prints the body of a reply that is no record, to its end, if there is one.
fn print_bytes<'a, W: Write>(w: &mut W, opcode: Opcode, body: &'a [u8]) -> Left<'a> {
    match opcode {
        Opcode::Read => print_data(w, "data", body)?,
        Opcode::Getxattr => print_data(w, "value", body)?,
        Opcode::Readlink => print_text(w, "text", body)?,
        Opcode::Listxattr => print_text(w, "names", body)?,
        Opcode::Readdir => print_items(w, body)?,
        Opcode::Readdirplus => print_entries(w, body)?,
        _ => return Ok(body),
    }
    Ok(&[])
}

// The records of requests, field by field.

/// Bits of `flags` of GETATTR, and of `getattr_flags` of STATX.
const GETATTR_FLAGS: &[Name] = &[("FH", GETATTR_FH)];

/// Bits of `valid` of SETATTR that name no attribute.
const SETATTR_ALSO: &[Name] = &[("FH", FATTR_FH), ("LOCKOWNER", FATTR_LOCKOWNER)];

/// Bits of `open_flags` of OPEN, OPENDIR and CREATE.
const OPEN_FLAGS: &[Name] = &[("KILL_SUIDGID", OPEN_KILL_SUIDGID)];

/// Bits of `read_flags` of READ, READDIR and READDIRPLUS.
const READ_FLAGS: &[Name] = &[("LOCKOWNER", READ_LOCKOWNER)];

/// Bits of `write_flags` of WRITE.
const WRITE_FLAGS: &[Name] = &[
    ("CACHE", WRITE_CACHE),
    ("LOCKOWNER", WRITE_LOCKOWNER),
    ("KILL_PRIV", WRITE_KILL_PRIV),
];

/// Bits of `release_flags` of RELEASE and RELEASEDIR.
const RELEASE_FLAGS: &[Name] = &[
    ("FLUSH", RELEASE_FLUSH),
    ("FLOCK_UNLOCK", RELEASE_FLOCK_UNLOCK),
];

/// Bits of `fsync_flags` of FSYNC and FSYNCDIR.
const FSYNC_FLAGS: &[Name] = &[("FDATASYNC", FSYNC_FDATASYNC)];

/// Bits of `flags` of RENAME2, as for `renameat2`.
const RENAME_NAMES: &[Name] = &[("NOREPLACE", 1), ("EXCHANGE", 2), ("WHITEOUT", 4)];

/// Bits of `flags` of SETXATTR, as for `setxattr`.
const XATTR_NAMES: &[Name] = &[("CREATE", 1), ("REPLACE", 2)];

/// Bits of `lk_flags` of GETLK, SETLK and SETLKW.
const LOCK_FLAGS: &[Name] = &[("FLOCK", LK_FLOCK)];

/// Bits of `flags` of POLL.
const POLL_FLAGS: &[Name] = &[("SCHEDULE_NOTIFY", POLL_SCHEDULE_NOTIFY)];

/// Bits of `flags` of attributes.
const ATTR_FLAGS: &[Name] = &[("SUBMOUNT", ATTR_SUBMOUNT), ("DAX", ATTR_DAX)];

impl Fields for ForgetIn {
    fn print<W: Write>(&self, w: &mut W) -> fmt::Result {
        write!(w, " nlookup={}", self.nlookup)
    }
}

impl Fields for BatchForgetIn {
    fn print<W: Write>(&self, w: &mut W) -> fmt::Result {
        write!(w, " count={}", self.count)
    }
}

impl Fields for ForgetOne {
    fn print<W: Write>(&self, w: &mut W) -> fmt::Result {
        write!(w, " (node={} nlookup={})", self.nodeid, self.nlookup)
    }
}

impl Fields for GetattrIn {
    fn print<W: Write>(&self, w: &mut W) -> fmt::Result {
        let flags = Word(self.flags, GETATTR_FLAGS);
        write!(w, " flags={flags} fh={}", self.fh)
    }
}

impl Fields for SetattrIn {
    fn print<W: Write>(&self, w: &mut W) -> fmt::Result {
        let valid = Set(SetattrValid::from_bits_retain(self.valid), SETATTR_ALSO);
        write!(w, " valid={valid}")?;
        print_fields(
            w,
            &[
                ("fh", Number(self.fh)),
                ("size", Number(self.size)),
                ("lock_owner", Number(self.lock_owner)),
                ("atime", Value::Time(self.atime, self.atimensec)),
                ("mtime", Value::Time(self.mtime, self.mtimensec)),
                ("ctime", Value::Time(self.ctime, self.ctimensec)),
                ("mode", Value::Octal(self.mode)),
                ("uid", Small(self.uid.into_inner())),
                ("gid", Small(self.gid.into_inner())),
            ],
        )
    }
}

impl Fields for MknodIn {
    fn print<W: Write>(&self, w: &mut W) -> fmt::Result {
        write!(w, " mode={} rdev={}", Octal(self.mode), self.rdev)?;
        write!(w, " umask={}", Octal(self.umask))
    }
}

impl Fields for MkdirIn {
    fn print<W: Write>(&self, w: &mut W) -> fmt::Result {
        write!(w, " mode={} umask={}", Octal(self.mode), Octal(self.umask))
    }
}

impl Fields for RenameIn {
    fn print<W: Write>(&self, w: &mut W) -> fmt::Result {
        write!(w, " newdir={}", self.newdir)
    }
}

impl Fields for Rename2In {
    fn print<W: Write>(&self, w: &mut W) -> fmt::Result {
        let flags = Word(self.flags, RENAME_NAMES);
        write!(w, " newdir={} flags={flags}", self.newdir)
    }
}

impl Fields for LinkIn {
    fn print<W: Write>(&self, w: &mut W) -> fmt::Result {
        write!(w, " oldnode={}", self.oldnodeid)
    }
}

impl Fields for OpenIn {
    fn print<W: Write>(&self, w: &mut W) -> fmt::Result {
        let open_flags = Word(self.open_flags, OPEN_FLAGS);
        write!(w, " flags={} open_flags={open_flags}", Octal(self.flags))
    }
}

impl Fields for CreateIn {
    fn print<W: Write>(&self, w: &mut W) -> fmt::Result {
        let open_flags = Word(self.open_flags, OPEN_FLAGS);
        write!(w, " flags={} mode={}", Octal(self.flags), Octal(self.mode))?;
        write!(w, " umask={} open_flags={open_flags}", Octal(self.umask))
    }
}

impl Fields for ReadIn {
    fn print<W: Write>(&self, w: &mut W) -> fmt::Result {
        print_fields(
            w,
            &[
                ("fh", Number(self.fh)),
                ("offset", Number(self.offset)),
                ("size", Small(self.size)),
                ("read_flags", Value::Word(self.read_flags, READ_FLAGS)),
                ("lock_owner", Number(self.lock_owner)),
                ("flags", Value::Octal(self.flags)),
            ],
        )
    }
}

impl Fields for WriteIn {
    fn print<W: Write>(&self, w: &mut W) -> fmt::Result {
        print_fields(
            w,
            &[
                ("fh", Number(self.fh)),
                ("offset", Number(self.offset)),
                ("size", Small(self.size)),
                ("write_flags", Value::Word(self.write_flags, WRITE_FLAGS)),
                ("lock_owner", Number(self.lock_owner)),
                ("flags", Value::Octal(self.flags)),
            ],
        )
    }
}

impl Fields for ReleaseIn {
    fn print<W: Write>(&self, w: &mut W) -> fmt::Result {
        let release_flags = Word(self.release_flags, RELEASE_FLAGS);
        write!(w, " fh={} flags={}", self.fh, Octal(self.flags))?;
        write!(w, " release_flags={release_flags}")?;
        write!(w, " lock_owner={}", self.lock_owner)
    }
}

impl Fields for FsyncIn {
    fn print<W: Write>(&self, w: &mut W) -> fmt::Result {
        let fsync_flags = Word(self.fsync_flags, FSYNC_FLAGS);
        write!(w, " fh={} fsync_flags={fsync_flags}", self.fh)
    }
}

impl Fields for FlushIn {
    fn print<W: Write>(&self, w: &mut W) -> fmt::Result {
        write!(w, " fh={} lock_owner={}", self.fh, self.lock_owner)
    }
}

impl Fields for SetxattrIn {
    fn print<W: Write>(&self, w: &mut W) -> fmt::Result {
        let flags = Word(self.flags, XATTR_NAMES);
        let further = Set(SetxattrFlags::from_bits_retain(self.setxattr_flags), &[]);
        write!(
            w,
            " size={} flags={flags} setxattr_flags={further}",
            self.size
        )
    }
}

impl Fields for SetxattrInCompat {
    fn print<W: Write>(&self, w: &mut W) -> fmt::Result {
        let flags = Word(self.flags, XATTR_NAMES);
        write!(w, " size={} flags={flags}", self.size)
    }
}

impl Fields for GetxattrIn {
    fn print<W: Write>(&self, w: &mut W) -> fmt::Result {
        write!(w, " size={}", self.size)
    }
}

impl Fields for AccessIn {
    fn print<W: Write>(&self, w: &mut W) -> fmt::Result {
        write!(w, " mask={}", Octal(self.mask))
    }
}

impl Fields for FallocateIn {
    fn print<W: Write>(&self, w: &mut W) -> fmt::Result {
        write!(w, " fh={} offset={}", self.fh, self.offset)?;
        write!(w, " length={} mode=0x{:x}", self.length, self.mode)
    }
}

impl Fields for LseekIn {
    fn print<W: Write>(&self, w: &mut W) -> fmt::Result {
        write!(w, " fh={} offset={}", self.fh, self.offset)?;
        write!(w, " whence={}", self.whence)
    }
}

impl Fields for CopyfilerangeIn {
    fn print<W: Write>(&self, w: &mut W) -> fmt::Result {
        print_fields(
            w,
            &[
                ("fh_in", Number(self.fh_in)),
                ("off_in", Number(self.off_in)),
                ("node_out", Number(self.nodeid_out)),
                ("fh_out", Number(self.fh_out)),
                ("off_out", Number(self.off_out)),
                ("len", Number(self.len)),
                ("flags", Hex(self.flags)),
            ],
        )
    }
}

// The records of requests that a server looks at only if it offers their calls.

/// Prints a lock: its range, its kind as for `fcntl`, and its holder.
pub fn print_lock<W: Write>(w: &mut W, lock: &FileLock) -> fmt::Result {
    print_fields(
        w,
        &[
            ("start", Number(lock.start)),
            ("end", Number(lock.end)),
            ("type", Small(lock.type_)),
            ("pid", Small(lock.pid)),
        ],
    )
}

impl Fields for LkIn {
    fn print<W: Write>(&self, w: &mut W) -> fmt::Result {
        let lk_flags = Word(self.lk_flags, LOCK_FLAGS);
        write!(w, " fh={} owner={}", self.fh, self.owner)?;
        print_lock(w, &self.lk)?;
        write!(w, " lk_flags={lk_flags}")
    }
}

impl Fields for InterruptIn {
    fn print<W: Write>(&self, w: &mut W) -> fmt::Result {
        write!(w, " interrupted={}", self.unique)
    }
}

impl Fields for BmapIn {
    fn print<W: Write>(&self, w: &mut W) -> fmt::Result {
        write!(w, " block={} blocksize={}", self.block, self.blocksize)
    }
}

impl Fields for IoctlIn {
    fn print<W: Write>(&self, w: &mut W) -> fmt::Result {
        let flags = Set(IoctlFlags::from_bits_retain(self.flags), &[]);
        write!(w, " fh={} flags={flags}", self.fh)?;
        print_fields(
            w,
            &[
                ("cmd", Hex(self.cmd.into())),
                ("arg", Hex(self.arg)),
                ("in_size", Small(self.in_size)),
                ("out_size", Small(self.out_size)),
            ],
        )
    }
}

impl Fields for PollIn {
    fn print<W: Write>(&self, w: &mut W) -> fmt::Result {
        print_fields(
            w,
            &[
                ("fh", Number(self.fh)),
                ("kh", Number(self.kh)),
                ("flags", Value::Word(self.flags, POLL_FLAGS)),
                ("events", Hex(self.events.into())),
            ],
        )
    }
}

impl Fields for NotifyRetrieveIn {
    fn print<W: Write>(&self, w: &mut W) -> fmt::Result {
        write!(w, " offset={} size={}", self.offset, self.size)
    }
}

impl Fields for StatxIn {
    fn print<W: Write>(&self, w: &mut W) -> fmt::Result {
        print_fields(
            w,
            &[
                (
                    "getattr_flags",
                    Value::Word(self.getattr_flags, GETATTR_FLAGS),
                ),
                ("fh", Number(self.fh)),
                ("sx_flags", Hex(self.sx_flags.into())),
                ("sx_mask", Hex(self.sx_mask.into())),
            ],
        )
    }
}

// The records of replies.

impl Fields for Attr {
    fn print<W: Write>(&self, w: &mut W) -> fmt::Result {
        print_fields(
            w,
            &[
                ("ino", Number(self.ino)),
                ("size", Number(self.size)),
                ("blocks", Number(self.blocks)),
                ("atime", Value::Time(self.atime, self.atimensec)),
                ("mtime", Value::Time(self.mtime, self.mtimensec)),
                ("ctime", Value::Time(self.ctime, self.ctimensec)),
                ("mode", Value::Octal(self.mode)),
                ("nlink", Small(self.nlink)),
                ("uid", Small(self.uid.into_inner())),
                ("gid", Small(self.gid.into_inner())),
                ("rdev", Small(self.rdev)),
                ("blksize", Small(self.blksize)),
                ("attr_flags", Value::Word(self.flags, ATTR_FLAGS)),
            ],
        )
    }
}

impl Fields for EntryOut {
    fn print<W: Write>(&self, w: &mut W) -> fmt::Result {
        w.write_str(" entry")?;
        print_fields(
            w,
            &[
                ("node", Number(self.nodeid)),
                ("generation", Number(self.generation)),
                (
                    "entry_valid",
                    Timeout(self.entry_valid, self.entry_valid_nsec),
                ),
                ("attr_valid", Timeout(self.attr_valid, self.attr_valid_nsec)),
            ],
        )?;
        self.attr.print(w)
    }
}

impl Fields for AttrOut {
    fn print<W: Write>(&self, w: &mut W) -> fmt::Result {
        write!(
            w,
            " attr_valid={}.{:09}",
            self.attr_valid, self.attr_valid_nsec
        )?;
        self.attr.print(w)
    }
}

impl Fields for OpenOut {
    fn print<W: Write>(&self, w: &mut W) -> fmt::Result {
        let open_flags = Set(OpenOptions::from_bits_retain(self.open_flags), &[]);
        write!(w, " fh={} open_flags={open_flags}", self.fh)
    }
}

impl Fields for WriteOut {
    fn print<W: Write>(&self, w: &mut W) -> fmt::Result {
        write!(w, " size={}", self.size)
    }
}

impl Fields for GetxattrOut {
    fn print<W: Write>(&self, w: &mut W) -> fmt::Result {
        write!(w, " size={}", self.size)
    }
}

impl Fields for LseekOut {
    fn print<W: Write>(&self, w: &mut W) -> fmt::Result {
        write!(w, " offset={}", self.offset)
    }
}

impl Fields for LkOut {
    fn print<W: Write>(&self, w: &mut W) -> fmt::Result {
        print_lock(w, &self.lk)
    }
}

impl Fields for BmapOut {
    fn print<W: Write>(&self, w: &mut W) -> fmt::Result {
        write!(w, " block={}", self.block)
    }
}

impl Fields for IoctlOut {
    fn print<W: Write>(&self, w: &mut W) -> fmt::Result {
        let flags = Set(IoctlFlags::from_bits_retain(self.flags), &[]);
        write!(w, " result={} flags={flags}", self.result)?;
        write!(w, " in_iovs={} out_iovs={}", self.in_iovs, self.out_iovs)
    }
}

impl Fields for PollOut {
    fn print<W: Write>(&self, w: &mut W) -> fmt::Result {
        write!(w, " revents=0x{:x}", self.revents)
    }
}

impl Fields for Kstatfs {
    fn print<W: Write>(&self, w: &mut W) -> fmt::Result {
        print_fields(
            w,
            &[
                ("blocks", Number(self.blocks)),
                ("bfree", Number(self.bfree)),
                ("bavail", Number(self.bavail)),
                ("files", Number(self.files)),
                ("ffree", Number(self.ffree)),
                ("bsize", Small(self.bsize)),
                ("namelen", Small(self.namelen)),
                ("frsize", Small(self.frsize)),
            ],
        )
    }
}

impl Fields for InitOut {
    fn print<W: Write>(&self, w: &mut W) -> fmt::Result {
        print_fields(
            w,
            &[
                ("major", Small(self.major)),
                ("minor", Small(self.minor)),
                ("max_readahead", Small(self.max_readahead)),
            ],
        )?;
        write!(w, " flags={}", Set(options_of(self), &[]))?;
        print_fields(
            w,
            &[
                ("max_background", Small(self.max_background.into())),
                (
                    "congestion_threshold",
                    Small(self.congestion_threshold.into()),
                ),
                ("max_write", Small(self.max_write)),
                ("time_gran", Small(self.time_gran)),
                ("max_pages", Small(self.max_pages.into())),
                ("map_alignment", Small(self.map_alignment.into())),
            ],
        )
    }
}

/// The options that the reply to an INIT has, of both of its words.
pub fn options_of(record: &InitOut) -> FsOptions {
    let bits = u64::from(record.flags) | (u64::from(record.flags2) << 32);
    FsOptions::from_bits_retain(bits)
}
