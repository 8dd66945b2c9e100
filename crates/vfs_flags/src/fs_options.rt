//! The options that a kernel and a server agree on by INIT.

ghost use Rattle.std.specs.Prelude.{⊤, ◌≡◌};
ghost use Rattle.std.specs.Int.RustNames.{bit_and, bit_or};
ghost use Rattle.vfs_flags.specs.Flags.{fs_options_bits};
ghost use Rattle.vfs_flags.specs.FlagTables.{fs_options_table};

use crate::flag_list::flag_list;
use bitflags::{Flag, Flags};
use std::ops::{BitAnd, BitOr};

/// What the kernel offers and the server takes: the flags of an INIT request and of its reply
/// (`struct fuse_init_in`, `struct fuse_init_out`). Their `flags` are bits 0 to 31, their `flags2`
/// bits 32 to 63. Bit 26, the alignment of mappings, is not known here.
#[derive(Clone, Copy, Debug, PartialEq, Eq, PartialOrd, Ord, Hash)]
pub struct FsOptions(u64);

impl FsOptions {
    /// Several reads of one open file may be under way at a time, in any order (`FUSE_ASYNC_READ`).
    /// Without it the kernel sends one at a time, by rising offset.
    pub const ASYNC_READ: FsOptions = FsOptions(1 << 0);

    /// Record locks of POSIX are the server's: the kernel sends GETLK, SETLK and SETLKW
    /// (`FUSE_POSIX_LOCKS`). Without it the kernel keeps them alone.
    pub const POSIX_LOCKS: FsOptions = FsOptions(1 << 1);

    /// GETATTR and SETATTR of an open file name its handle (`FUSE_FILE_OPS`).
    pub const FILE_OPS: FsOptions = FsOptions(1 << 2);

    /// OPEN keeps `O_TRUNC` among its flags, and the server empties the file
    /// (`FUSE_ATOMIC_O_TRUNC`). Without it the kernel sends a SETATTR of size 0.
    pub const ATOMIC_O_TRUNC: FsOptions = FsOptions(1 << 3);

    /// LOOKUP may ask for the names `.` and `..`, as an export by NFS needs
    /// (`FUSE_EXPORT_SUPPORT`).
    pub const EXPORT_SUPPORT: FsOptions = FsOptions(1 << 4);

    /// One WRITE may carry more than 4096 bytes (`FUSE_BIG_WRITES`).
    pub const BIG_WRITES: FsOptions = FsOptions(1 << 5);

    /// The umask of a request that creates a node is the server's to apply
    /// (`FUSE_DONT_MASK`). Without it the kernel has taken its bits from the mode already.
    pub const DONT_MASK: FsOptions = FsOptions(1 << 6);

    /// The kernel takes replies by `splice` (`FUSE_SPLICE_WRITE`).
    pub const SPLICE_WRITE: FsOptions = FsOptions(1 << 7);

    /// A `splice` of the device may move pages in place of copying them (`FUSE_SPLICE_MOVE`).
    pub const SPLICE_MOVE: FsOptions = FsOptions(1 << 8);

    /// The kernel gives requests by `splice` (`FUSE_SPLICE_READ`).
    pub const SPLICE_READ: FsOptions = FsOptions(1 << 9);

    /// Locks by `flock` are the server's: the kernel sends them as SETLK and SETLKW with
    /// `LK_FLOCK` (`FUSE_FLOCK_LOCKS`). Without it the kernel keeps them alone.
    pub const FLOCK_LOCKS: FsOptions = FsOptions(1 << 10);

    /// IOCTL may name an open directory (`FUSE_HAS_IOCTL_DIR`).
    pub const HAS_IOCTL_DIR: FsOptions = FsOptions(1 << 11);

    /// The kernel asks for a file's attributes before a read once they are out of date, and
    /// drops the bytes that it caches where the time of change or the size differs
    /// (`FUSE_AUTO_INVAL_DATA`).
    pub const AUTO_INVAL_DATA: FsOptions = FsOptions(1 << 12);

    /// The server answers READDIRPLUS, the names of a directory with their nodes
    /// (`FUSE_DO_READDIRPLUS`).
    pub const DO_READDIRPLUS: FsOptions = FsOptions(1 << 13);

    /// The kernel chooses between READDIR and READDIRPLUS by how the directory is used
    /// (`FUSE_READDIRPLUS_AUTO`). It says nothing without `DO_READDIRPLUS`.
    pub const READDIRPLUS_AUTO: FsOptions = FsOptions(1 << 14);

    /// Several direct reads and writes of one open file may be under way at a time
    /// (`FUSE_ASYNC_DIO`).
    pub const ASYNC_DIO: FsOptions = FsOptions(1 << 15);

    /// The kernel gathers writes in its page cache and sends them later
    /// (`FUSE_WRITEBACK_CACHE`).
    pub const WRITEBACK_CACHE: FsOptions = FsOptions(1 << 16);

    /// An OPEN that is answered ENOSYS counts as done, and the kernel sends no further one
    /// (`FUSE_NO_OPEN_SUPPORT`). Only the kernel's word counts.
    pub const ZERO_MESSAGE_OPEN: FsOptions = FsOptions(1 << 17);

    /// LOOKUP and READDIR of one directory may be under way at a time
    /// (`FUSE_PARALLEL_DIROPS`).
    pub const PARALLEL_DIROPS: FsOptions = FsOptions(1 << 18);

    /// The server clears the set-user-id and set-group-id bits and the capabilities of a file
    /// that is written, cut or given another owner (`FUSE_HANDLE_KILLPRIV`).
    pub const HANDLE_KILLPRIV: FsOptions = FsOptions(1 << 19);

    /// The kernel enforces the access lists that the server keeps as extended attributes
    /// (`FUSE_POSIX_ACL`).
    pub const POSIX_ACL: FsOptions = FsOptions(1 << 20);

    /// A read of the device after the connection was aborted fails with ECONNABORTED
    /// (`FUSE_ABORT_ERROR`).
    pub const ABORT_ERROR: FsOptions = FsOptions(1 << 21);

    /// `max_pages` of the INIT reply is the most pages that a request may carry
    /// (`FUSE_MAX_PAGES`).
    pub const MAX_PAGES: FsOptions = FsOptions(1 << 22);

    /// The kernel may cache what READLINK answered (`FUSE_CACHE_SYMLINKS`).
    pub const CACHE_SYMLINKS: FsOptions = FsOptions(1 << 23);

    /// An OPENDIR that is answered ENOSYS counts as done, and the kernel sends no further one
    /// (`FUSE_NO_OPENDIR_SUPPORT`). Only the kernel's word counts.
    pub const ZERO_MESSAGE_OPENDIR: FsOptions = FsOptions(1 << 24);

    /// The kernel drops the bytes of a file that it caches only where the server says so
    /// (`FUSE_EXPLICIT_INVAL_DATA`).
    pub const EXPLICIT_INVAL_DATA: FsOptions = FsOptions(1 << 25);

    /// The kernel mounts a directory whose attributes have `ATTR_SUBMOUNT` as a file system of
    /// its own (`FUSE_SUBMOUNTS`).
    pub const SUBMOUNTS: FsOptions = FsOptions(1 << 27);

    /// As `HANDLE_KILLPRIV`, but the set-user-id and set-group-id bits are cleared only where the
    /// request asks for it or gives another owner (`FUSE_HANDLE_KILLPRIV_V2`).
    pub const HANDLE_KILLPRIV_V2: FsOptions = FsOptions(1 << 28);

    /// SETXATTR begins with its longer record, of 16 bytes (`FUSE_SETXATTR_EXT`).
    pub const SETXATTR_EXT: FsOptions = FsOptions(1 << 29);

    /// INIT has a second record, with the flags from bit 32 on (`FUSE_INIT_EXT`).
    pub const INIT_EXT: FsOptions = FsOptions(1 << 30);

    /// Reserved: no side sets it (`FUSE_INIT_RESERVED`).
    pub const INIT_RESERVED: FsOptions = FsOptions(1 << 31);

    /// Requests that create a node carry its security context as an extension
    /// (`FUSE_SECURITY_CTX`).
    pub const SECURITY_CTX: FsOptions = FsOptions(1 << 32);

    /// The server may choose direct access to its memory file by file, by `ATTR_DAX`
    /// (`FUSE_HAS_INODE_DAX`).
    pub const HAS_INODE_DAX: FsOptions = FsOptions(1 << 33);

    /// Requests that create a node carry the caller's supplementary group that owns the parent
    /// (`FUSE_CREATE_SUPP_GROUP`).
    pub const CREATE_SUPP_GROUP: FsOptions = FsOptions(1 << 34);

    /// A file that is open for direct input and output may still be mapped and shared
    /// (`FUSE_DIRECT_IO_ALLOW_MMAP`).
    pub const DIRECT_IO_ALLOW_MMAP: FsOptions = FsOptions(1 << 36);

    /// The file system may be mounted with mapped ids (`FUSE_ALLOW_IDMAP`).
    pub const ALLOW_IDMAP: FsOptions = FsOptions(1 << 40);

    /// What a server supports by itself, whatever its file system wants.
    pub const SUPPORTED: FsOptions = FsOptions(
        FsOptions::ASYNC_READ.0
            | FsOptions::ATOMIC_O_TRUNC.0
            | FsOptions::BIG_WRITES.0
            | FsOptions::HAS_IOCTL_DIR.0
            | FsOptions::AUTO_INVAL_DATA.0
            | FsOptions::ASYNC_DIO.0
            | FsOptions::PARALLEL_DIROPS.0
            | FsOptions::MAX_PAGES.0
            | FsOptions::SUBMOUNTS.0
            | FsOptions::INIT_EXT.0
            | FsOptions::CREATE_SUPP_GROUP.0
            | FsOptions::ALLOW_IDMAP.0,
    );

    const FLAGS: &'static [Flag<FsOptions>] = flag_list!(FsOptions:
        ASYNC_READ,
        POSIX_LOCKS,
        FILE_OPS,
        ATOMIC_O_TRUNC,
        EXPORT_SUPPORT,
        BIG_WRITES,
        DONT_MASK,
        SPLICE_WRITE,
        SPLICE_MOVE,
        SPLICE_READ,
        FLOCK_LOCKS,
        HAS_IOCTL_DIR,
        AUTO_INVAL_DATA,
        DO_READDIRPLUS,
        READDIRPLUS_AUTO,
        ASYNC_DIO,
        WRITEBACK_CACHE,
        ZERO_MESSAGE_OPEN,
        PARALLEL_DIROPS,
        HANDLE_KILLPRIV,
        POSIX_ACL,
        ABORT_ERROR,
        MAX_PAGES,
        CACHE_SYMLINKS,
        ZERO_MESSAGE_OPENDIR,
        EXPLICIT_INVAL_DATA,
        SUBMOUNTS,
        HANDLE_KILLPRIV_V2,
        SETXATTR_EXT,
        INIT_EXT,
        INIT_RESERVED,
        SECURITY_CTX,
        HAS_INODE_DAX,
        CREATE_SUPP_GROUP,
        DIRECT_IO_ALLOW_MMAP,
        ALLOW_IDMAP,
    );
}

impl Flags for FsOptions {
    type Bits = u64;

    ghost exact = { ⊤ };

    ghost table = { fs_options_table };

    ghost set_of = { fs_options_bits };

    fn flags<'a>() -> &'a [Flag<FsOptions>] {
        FsOptions::FLAGS
    }

    fn bits(&self) -> u64 {
        self.0
    }

    fn from_bits_retain(bits: u64) -> FsOptions {
        FsOptions(bits)
    }
}

impl BitOr for FsOptions {
    type Output = FsOptions;

    ghost bitor_gives = { λ a b r. fs_options_bits r
        ≡ bit_or (fs_options_bits a) (fs_options_bits b) };

    fn bitor(self, other: FsOptions) -> FsOptions {
        FsOptions(self.0 | other.0)
    }
}

impl BitAnd for FsOptions {
    type Output = FsOptions;

    ghost bitand_gives = { λ a b r. fs_options_bits r
        ≡ bit_and (fs_options_bits a) (fs_options_bits b) };

    fn bitand(self, other: FsOptions) -> FsOptions {
        FsOptions(self.0 & other.0)
    }
}
