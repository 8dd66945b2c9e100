//! Every flag set, opcode, constant and number of the protocol, by name and value.

use bitflags::Flags;
use std::fmt::Debug;
use std::hash::Hash;
use std::ops::{BitAnd, BitOr};
use vfs_server::descriptor_utils::{DescriptorType, WritevFlags};
use vfs_server::filesystem::{CStr, CString, Context};
use vfs_server::fuse;
use vfs_server::fuse::{
    Errno, ExtType, Fault, FsOptions, GuestGid, GuestUid, HostGid, HostUid, IoctlFlags,
    NotifyInvalEntryOutFlags, NotifyOpcode, Opcode, OpenOptions, SetattrValid, SetupmappingFlags,
    SetxattrFlags, Stat64, Statvfs64,
};

/// Whether the two numbers of each pair are the same.
fn agree<T: PartialEq + Copy>(pairs: &[(T, T)]) -> bool {
    for pair in pairs {
        if pair.0 != pair.1 {
            return false;
        }
    }
    true
}

/// The bits of a set of all flags that the type knows; the bounds are the derives of a flag set.
fn known<
    T: Flags
        + Copy
        + Clone
        + Debug
        + PartialEq
        + Eq
        + PartialOrd
        + Ord
        + Hash
        + BitOr<Output = T>
        + BitAnd<Output = T>,
>(all: T::Bits) -> T {
    T::from_bits_truncate(all)
}

fn flags_of_setattr_valid() -> bool {
    agree(&[
        (SetattrValid::MODE.bits(), 1u32 << 0),
        (SetattrValid::UID.bits(), 1u32 << 1),
        (SetattrValid::GID.bits(), 1u32 << 2),
        (SetattrValid::SIZE.bits(), 1u32 << 3),
        (SetattrValid::ATIME.bits(), 1u32 << 4),
        (SetattrValid::MTIME.bits(), 1u32 << 5),
        (SetattrValid::ATIME_NOW.bits(), 1u32 << 7),
        (SetattrValid::MTIME_NOW.bits(), 1u32 << 8),
        (SetattrValid::CTIME.bits(), 1u32 << 10),
        (SetattrValid::KILL_SUIDGID.bits(), 1u32 << 11),
        (known::<SetattrValid>(u32::MAX).bits(), 0xdbf),
    ])
}

fn flags_of_open_options() -> bool {
    agree(&[
        (OpenOptions::DIRECT_IO.bits(), 1u32 << 0),
        (OpenOptions::KEEP_CACHE.bits(), 1u32 << 1),
        (OpenOptions::NONSEEKABLE.bits(), 1u32 << 2),
        (OpenOptions::CACHE_DIR.bits(), 1u32 << 3),
        (OpenOptions::STREAM.bits(), 1u32 << 4),
        (OpenOptions::NOFLUSH.bits(), 1u32 << 5),
        (OpenOptions::PARALLEL_DIRECT_WRITES.bits(), 1u32 << 6),
        (known::<OpenOptions>(u32::MAX).bits(), 0x7f),
    ])
}

fn flags_of_fs_options() -> bool {
    agree(&[
        (FsOptions::ASYNC_READ.bits(), 1u64 << 0),
        (FsOptions::POSIX_LOCKS.bits(), 1u64 << 1),
        (FsOptions::FILE_OPS.bits(), 1u64 << 2),
        (FsOptions::ATOMIC_O_TRUNC.bits(), 1u64 << 3),
        (FsOptions::EXPORT_SUPPORT.bits(), 1u64 << 4),
        (FsOptions::BIG_WRITES.bits(), 1u64 << 5),
        (FsOptions::DONT_MASK.bits(), 1u64 << 6),
        (FsOptions::SPLICE_WRITE.bits(), 1u64 << 7),
        (FsOptions::SPLICE_MOVE.bits(), 1u64 << 8),
        (FsOptions::SPLICE_READ.bits(), 1u64 << 9),
        (FsOptions::FLOCK_LOCKS.bits(), 1u64 << 10),
        (FsOptions::HAS_IOCTL_DIR.bits(), 1u64 << 11),
        (FsOptions::AUTO_INVAL_DATA.bits(), 1u64 << 12),
        (FsOptions::DO_READDIRPLUS.bits(), 1u64 << 13),
        (FsOptions::READDIRPLUS_AUTO.bits(), 1u64 << 14),
        (FsOptions::ASYNC_DIO.bits(), 1u64 << 15),
        (FsOptions::WRITEBACK_CACHE.bits(), 1u64 << 16),
        (FsOptions::ZERO_MESSAGE_OPEN.bits(), 1u64 << 17),
        (FsOptions::PARALLEL_DIROPS.bits(), 1u64 << 18),
        (FsOptions::HANDLE_KILLPRIV.bits(), 1u64 << 19),
        (FsOptions::POSIX_ACL.bits(), 1u64 << 20),
        (FsOptions::ABORT_ERROR.bits(), 1u64 << 21),
        (FsOptions::MAX_PAGES.bits(), 1u64 << 22),
        (FsOptions::CACHE_SYMLINKS.bits(), 1u64 << 23),
        (FsOptions::ZERO_MESSAGE_OPENDIR.bits(), 1u64 << 24),
        (FsOptions::EXPLICIT_INVAL_DATA.bits(), 1u64 << 25),
        (FsOptions::SUBMOUNTS.bits(), 1u64 << 27),
        (FsOptions::HANDLE_KILLPRIV_V2.bits(), 1u64 << 28),
        (FsOptions::SETXATTR_EXT.bits(), 1u64 << 29),
        (FsOptions::INIT_EXT.bits(), 1u64 << 30),
        (FsOptions::INIT_RESERVED.bits(), 1u64 << 31),
        (FsOptions::SECURITY_CTX.bits(), 1u64 << 32),
        (FsOptions::HAS_INODE_DAX.bits(), 1u64 << 33),
        (FsOptions::CREATE_SUPP_GROUP.bits(), 1u64 << 34),
        (FsOptions::DIRECT_IO_ALLOW_MMAP.bits(), 1u64 << 36),
        (FsOptions::ALLOW_IDMAP.bits(), 1u64 << 40),
        (known::<FsOptions>(u64::MAX).bits(), 0x117fbffffff),
    ])
}

fn flags_of_ioctl_flags() -> bool {
    agree(&[
        (IoctlFlags::IOCTL_COMPAT.bits(), 1u32 << 0),
        (IoctlFlags::IOCTL_UNRESTRICTED.bits(), 1u32 << 1),
        (IoctlFlags::IOCTL_RETRY.bits(), 1u32 << 2),
        (IoctlFlags::IOCTL_32BIT.bits(), 1u32 << 3),
        (IoctlFlags::IOCTL_DIR.bits(), 1u32 << 4),
        (IoctlFlags::IOCTL_COMPAT_X32.bits(), 1u32 << 5),
        (IoctlFlags::IOCTL_MAX_IOV.bits(), 1u32 << 8),
        (known::<IoctlFlags>(u32::MAX).bits(), 0x13f),
    ])
}

fn flags_of_setxattr_flags() -> bool {
    agree(&[
        (SetxattrFlags::SETXATTR_ACL_KILL_SGID.bits(), 1u32 << 0),
        (known::<SetxattrFlags>(u32::MAX).bits(), 0x1),
    ])
}

fn flags_of_notify_inval_entry_out_flags() -> bool {
    agree(&[
        (NotifyInvalEntryOutFlags::EXPIRE_ONLY.bits(), 1u32 << 0),
        (known::<NotifyInvalEntryOutFlags>(u32::MAX).bits(), 0x1),
    ])
}

fn flags_of_setupmapping_flags() -> bool {
    agree(&[
        (SetupmappingFlags::WRITE.bits(), 1u64 << 0),
        (SetupmappingFlags::READ.bits(), 1u64 << 1),
        (known::<SetupmappingFlags>(u64::MAX).bits(), 0x3),
    ])
}

fn opcodes() -> bool {
    agree(&[
        (Opcode::Lookup as u32, 1u32),
        (Opcode::Forget as u32, 2u32),
        (Opcode::Getattr as u32, 3u32),
        (Opcode::Setattr as u32, 4u32),
        (Opcode::Readlink as u32, 5u32),
        (Opcode::Symlink as u32, 6u32),
        (Opcode::Mknod as u32, 8u32),
        (Opcode::Mkdir as u32, 9u32),
        (Opcode::Unlink as u32, 10u32),
        (Opcode::Rmdir as u32, 11u32),
        (Opcode::Rename as u32, 12u32),
        (Opcode::Link as u32, 13u32),
        (Opcode::Open as u32, 14u32),
        (Opcode::Read as u32, 15u32),
        (Opcode::Write as u32, 16u32),
        (Opcode::Statfs as u32, 17u32),
        (Opcode::Release as u32, 18u32),
        (Opcode::Fsync as u32, 20u32),
        (Opcode::Setxattr as u32, 21u32),
        (Opcode::Getxattr as u32, 22u32),
        (Opcode::Listxattr as u32, 23u32),
        (Opcode::Removexattr as u32, 24u32),
        (Opcode::Flush as u32, 25u32),
        (Opcode::Init as u32, 26u32),
        (Opcode::Opendir as u32, 27u32),
        (Opcode::Readdir as u32, 28u32),
        (Opcode::Releasedir as u32, 29u32),
        (Opcode::Fsyncdir as u32, 30u32),
        (Opcode::Getlk as u32, 31u32),
        (Opcode::Setlk as u32, 32u32),
        (Opcode::Setlkw as u32, 33u32),
        (Opcode::Access as u32, 34u32),
        (Opcode::Create as u32, 35u32),
        (Opcode::Interrupt as u32, 36u32),
        (Opcode::Bmap as u32, 37u32),
        (Opcode::Destroy as u32, 38u32),
        (Opcode::Ioctl as u32, 39u32),
        (Opcode::Poll as u32, 40u32),
        (Opcode::NotifyReply as u32, 41u32),
        (Opcode::BatchForget as u32, 42u32),
        (Opcode::Fallocate as u32, 43u32),
        (Opcode::Readdirplus as u32, 44u32),
        (Opcode::Rename2 as u32, 45u32),
        (Opcode::Lseek as u32, 46u32),
        (Opcode::CopyFileRange as u32, 47u32),
        (Opcode::SetupMapping as u32, 48u32),
        (Opcode::RemoveMapping as u32, 49u32),
        (Opcode::Syncfs as u32, 50u32),
        (Opcode::TmpFile as u32, 51u32),
    ])
}

fn notify_opcodes() -> bool {
    agree(&[
        (NotifyOpcode::Poll as u32, 1u32),
        (NotifyOpcode::InvalInode as u32, 2u32),
        (NotifyOpcode::InvalEntry as u32, 3u32),
        (NotifyOpcode::Store as u32, 4u32),
        (NotifyOpcode::Retrieve as u32, 5u32),
        (NotifyOpcode::Delete as u32, 6u32),
        (NotifyOpcode::CodeMax as u32, 7u32),
    ])
}

fn constants() -> bool {
    agree(&[
        (fuse::KERNEL_VERSION, 7u32),
        (fuse::KERNEL_MINOR_VERSION, 38u32),
        (fuse::MIN_KERNEL_MINOR_VERSION, 27u32),
        (fuse::FATTR_FH, 64u32),
        (fuse::FATTR_LOCKOWNER, 512u32),
        (fuse::RELEASE_FLUSH, 1u32),
        (fuse::RELEASE_FLOCK_UNLOCK, 2u32),
        (fuse::GETATTR_FH, 1u32),
        (fuse::LK_FLOCK, 1u32),
        (fuse::WRITE_CACHE, 1u32),
        (fuse::WRITE_LOCKOWNER, 2u32),
        (fuse::WRITE_KILL_PRIV, 4u32),
        (fuse::READ_LOCKOWNER, 2u32),
        (fuse::POLL_SCHEDULE_NOTIFY, 1u32),
        (fuse::FUSE_MIN_READ_BUFFER, 8192u32),
        (fuse::FUSE_COMPAT_ENTRY_OUT_SIZE, 120u32),
        (fuse::FUSE_COMPAT_ATTR_OUT_SIZE, 96u32),
        (fuse::FUSE_COMPAT_MKNOD_IN_SIZE, 8u32),
        (fuse::FUSE_COMPAT_WRITE_IN_SIZE, 24u32),
        (fuse::FUSE_COMPAT_STATFS_SIZE, 48u32),
        (fuse::FUSE_COMPAT_INIT_OUT_SIZE, 8u32),
        (fuse::FUSE_COMPAT_22_INIT_OUT_SIZE, 24u32),
        (fuse::FUSE_COMPAT_SETXATTR_IN_SIZE, 8u32),
        (fuse::FSYNC_FDATASYNC, 1u32),
        (fuse::ATTR_SUBMOUNT, 1u32),
        (fuse::ATTR_DAX, 2u32),
        (fuse::OPEN_KILL_SUIDGID, 1u32),
    ]) && fuse::ROOT_ID == 1u64
}

fn limits() -> bool {
    agree(&[
        (fuse::LEAST_MAX_BUFFER, 4096),
        (fuse::DEFAULT_MAX_BUFFER, 1_048_576),
        (fuse::GREATEST_MAX_BUFFER, 134_217_728),
    ])
}

fn tries() -> bool {
    Opcode::try_from(0).is_err()
        && Opcode::try_from(7).is_err()
        && Opcode::try_from(19).is_err()
        && Opcode::try_from(52).is_err()
        && Opcode::try_from(1).is_ok()
        && Opcode::try_from(51).is_ok()
        && matches!(ExtType::try_from(31), Ok(ExtType::SecCtx(31)))
        && matches!(ExtType::try_from(32), Ok(ExtType::SupGroups))
        && matches!(ExtType::try_from(33), Err(()))
}

fn errors() -> bool {
    let fault: Fault = Errno::new(5);
    Errno::new(0).is_none()
        && Errno::new(-1).is_none()
        && Errno::new(i32::MIN).is_none()
        && Errno::new(1).is_some()
        && Errno::new(i32::MAX).is_some()
        && fault == Some(Errno::EIO)
        && agree(&[
            (Errno::EIO.get(), 5),
            (Errno::ENOMEM.get(), 12),
            (Errno::ENOSYS.get(), 38),
            (Errno::EPROTO.get(), 71),
            (Errno::EOVERFLOW.get(), 75),
        ])
}

fn ids() -> bool {
    GuestUid::from(7u32).into_inner() == 7
        && GuestGid::from(7u32).into_inner() == 7
        && HostUid::from(7u32).into_inner() == 7
        && HostGid::from(7u32).into_inner() == 7
}

fn has_id_derives<T: Copy + Clone + Debug + PartialEq + Eq + Default>() {}

fn is_plain<T: Copy + Clone + Debug>() {}

fn is_compared<T: Copy + Clone + Debug + PartialEq + Eq>() {}

fn is_kind<T: Copy + Clone + PartialEq + Eq>() {}

fn is_text<T: Debug + PartialEq + Eq>() {}

fn derives() {
    has_id_derives::<GuestUid>();
    has_id_derives::<GuestGid>();
    has_id_derives::<HostUid>();
    has_id_derives::<HostGid>();
    is_plain::<Opcode>();
    is_plain::<NotifyOpcode>();
    is_plain::<ExtType>();
    is_plain::<Context>();
    is_plain::<WritevFlags>();
    is_plain::<Stat64>();
    is_plain::<Statvfs64>();
    is_compared::<Errno>();
    is_compared::<CStr<'static>>();
    is_kind::<DescriptorType>();
    is_text::<CString>();
}

/// Whether every number has its name and its value.
pub(crate) fn all_numbers() -> bool {
    derives();
    flags_of_setattr_valid()
        && flags_of_open_options()
        && flags_of_fs_options()
        && flags_of_ioctl_flags()
        && flags_of_setxattr_flags()
        && flags_of_notify_inval_entry_out_flags()
        && flags_of_setupmapping_flags()
        && opcodes()
        && notify_opcodes()
        && constants()
        && limits()
        && tries()
        && errors()
        && ids()
}
