//! The flag sets of single records: each is the bits of one field, with a constant for each flag.

ghost use Rattle.std.specs.Prelude.{⊤, ◌≡◌};
ghost use Rattle.std.specs.Int.RustNames.{bit_and, bit_or};
ghost use Rattle.vfs_flags.specs.Flags.{ioctl_flags_bits, notify_inval_entry_out_flags_bits, open_options_bits, setattr_valid_bits, setupmapping_flags_bits, setxattr_flags_bits};
ghost use Rattle.vfs_flags.specs.FlagTables.{ioctl_flags_table, notify_inval_entry_out_flags_table, open_options_table, setattr_valid_table, setupmapping_flags_table, setxattr_flags_table};

use crate::flag_list::flag_list;
use bitflags::{Flag, Flags};
use std::ops::{BitAnd, BitOr};

/// How an IOCTL is meant: `flags` of `struct fuse_ioctl_in` and of `struct fuse_ioctl_out`.
#[derive(Clone, Copy, Debug, PartialEq, Eq, PartialOrd, Ord, Hash)]
pub struct IoctlFlags(u32);

impl IoctlFlags {
    /// A caller of 32 bits on a kernel of 64 (`FUSE_IOCTL_COMPAT`).
    pub const IOCTL_COMPAT: IoctlFlags = IoctlFlags(1 << 0);

    /// The command says nothing of its data, so the server may ask again
    /// (`FUSE_IOCTL_UNRESTRICTED`).
    pub const IOCTL_UNRESTRICTED: IoctlFlags = IoctlFlags(1 << 1);

    /// In a reply: the request is to come again with the pieces named
    /// (`FUSE_IOCTL_RETRY`).
    pub const IOCTL_RETRY: IoctlFlags = IoctlFlags(1 << 2);

    /// The caller's words have 32 bits (`FUSE_IOCTL_32BIT`).
    pub const IOCTL_32BIT: IoctlFlags = IoctlFlags(1 << 3);

    /// The file is a directory (`FUSE_IOCTL_DIR`).
    pub const IOCTL_DIR: IoctlFlags = IoctlFlags(1 << 4);

    /// A caller of the x32 kind, whose times have 64 bits (`FUSE_IOCTL_COMPAT_X32`).
    pub const IOCTL_COMPAT_X32: IoctlFlags = IoctlFlags(1 << 5);

    /// 256, the most pieces of memory in and out (`FUSE_IOCTL_MAX_IOV`).
    pub const IOCTL_MAX_IOV: IoctlFlags = IoctlFlags(1 << 8);

    const FLAGS: &'static [Flag<IoctlFlags>] = flag_list!(IoctlFlags:
        IOCTL_COMPAT,
        IOCTL_UNRESTRICTED,
        IOCTL_RETRY,
        IOCTL_32BIT,
        IOCTL_DIR,
        IOCTL_COMPAT_X32,
        IOCTL_MAX_IOV,
    );
}

impl Flags for IoctlFlags {
    type Bits = u32;

    ghost exact = { ⊤ };

    ghost table = { ioctl_flags_table };

    ghost set_of = { ioctl_flags_bits };

    fn flags<'a>() -> &'a [Flag<IoctlFlags>] {
        IoctlFlags::FLAGS
    }

    fn bits(&self) -> u32 {
        self.0
    }

    fn from_bits_retain(bits: u32) -> IoctlFlags {
        IoctlFlags(bits)
    }
}

impl BitOr for IoctlFlags {
    type Output = IoctlFlags;

    ghost bitor_gives = { λ a b r. ioctl_flags_bits r
        ≡ bit_or (ioctl_flags_bits a) (ioctl_flags_bits b) };

    fn bitor(self, other: IoctlFlags) -> IoctlFlags {
        IoctlFlags(self.0 | other.0)
    }
}

impl BitAnd for IoctlFlags {
    type Output = IoctlFlags;

    ghost bitand_gives = { λ a b r. ioctl_flags_bits r
        ≡ bit_and (ioctl_flags_bits a) (ioctl_flags_bits b) };

    fn bitand(self, other: IoctlFlags) -> IoctlFlags {
        IoctlFlags(self.0 & other.0)
    }
}

/// How far a name becomes invalid: `flags` of `struct fuse_notify_inval_entry_out`.
#[derive(Clone, Copy, Debug, PartialEq, Eq, PartialOrd, Ord, Hash)]
pub struct NotifyInvalEntryOutFlags(u32);

impl NotifyInvalEntryOutFlags {
    /// The name is only out of date, to be looked up again: it isn't dropped
    /// (`FUSE_EXPIRE_ONLY`).
    pub const EXPIRE_ONLY: NotifyInvalEntryOutFlags = NotifyInvalEntryOutFlags(1 << 0);

    const FLAGS: &'static [Flag<NotifyInvalEntryOutFlags>] = flag_list!(NotifyInvalEntryOutFlags:
        EXPIRE_ONLY,
    );
}

impl Flags for NotifyInvalEntryOutFlags {
    type Bits = u32;

    ghost exact = { ⊤ };

    ghost table = { notify_inval_entry_out_flags_table };

    ghost set_of = { notify_inval_entry_out_flags_bits };

    fn flags<'a>() -> &'a [Flag<NotifyInvalEntryOutFlags>] {
        NotifyInvalEntryOutFlags::FLAGS
    }

    fn bits(&self) -> u32 {
        self.0
    }

    fn from_bits_retain(bits: u32) -> NotifyInvalEntryOutFlags {
        NotifyInvalEntryOutFlags(bits)
    }
}

impl BitOr for NotifyInvalEntryOutFlags {
    type Output = NotifyInvalEntryOutFlags;

    ghost bitor_gives = { λ a b r. notify_inval_entry_out_flags_bits r
        ≡ bit_or (notify_inval_entry_out_flags_bits a) (notify_inval_entry_out_flags_bits b) };

    fn bitor(self, other: NotifyInvalEntryOutFlags) -> NotifyInvalEntryOutFlags {
        NotifyInvalEntryOutFlags(self.0 | other.0)
    }
}

impl BitAnd for NotifyInvalEntryOutFlags {
    type Output = NotifyInvalEntryOutFlags;

    ghost bitand_gives = { λ a b r. notify_inval_entry_out_flags_bits r
        ≡ bit_and (notify_inval_entry_out_flags_bits a) (notify_inval_entry_out_flags_bits b) };

    fn bitand(self, other: NotifyInvalEntryOutFlags) -> NotifyInvalEntryOutFlags {
        NotifyInvalEntryOutFlags(self.0 & other.0)
    }
}

/// What the server says of a file or a directory that it opened: `open_flags` of
/// `struct fuse_open_out`, in the replies to OPEN, OPENDIR and CREATE.
#[derive(Clone, Copy, Debug, PartialEq, Eq, PartialOrd, Ord, Hash)]
pub struct OpenOptions(u32);

impl OpenOptions {
    /// Reads and writes go past the kernel's page cache (`FOPEN_DIRECT_IO`).
    pub const DIRECT_IO: OpenOptions = OpenOptions(1 << 0);

    /// The bytes that the kernel caches of the file stay (`FOPEN_KEEP_CACHE`). Without it the
    /// kernel drops them.
    pub const KEEP_CACHE: OpenOptions = OpenOptions(1 << 1);

    /// The file has a place but cannot be moved to another (`FOPEN_NONSEEKABLE`).
    pub const NONSEEKABLE: OpenOptions = OpenOptions(1 << 2);

    /// The kernel may cache the entries of the directory (`FOPEN_CACHE_DIR`).
    pub const CACHE_DIR: OpenOptions = OpenOptions(1 << 3);

    /// The file has no place at all, as a pipe (`FOPEN_STREAM`).
    pub const STREAM: OpenOptions = OpenOptions(1 << 4);

    /// A close sends no FLUSH (`FOPEN_NOFLUSH`).
    pub const NOFLUSH: OpenOptions = OpenOptions(1 << 5);

    /// Several direct writes of the file may be under way at a time
    /// (`FOPEN_PARALLEL_DIRECT_WRITES`).
    pub const PARALLEL_DIRECT_WRITES: OpenOptions = OpenOptions(1 << 6);

    const FLAGS: &'static [Flag<OpenOptions>] = flag_list!(OpenOptions:
        DIRECT_IO,
        KEEP_CACHE,
        NONSEEKABLE,
        CACHE_DIR,
        STREAM,
        NOFLUSH,
        PARALLEL_DIRECT_WRITES,
    );
}

impl Flags for OpenOptions {
    type Bits = u32;

    ghost exact = { ⊤ };

    ghost table = { open_options_table };

    ghost set_of = { open_options_bits };

    fn flags<'a>() -> &'a [Flag<OpenOptions>] {
        OpenOptions::FLAGS
    }

    fn bits(&self) -> u32 {
        self.0
    }

    fn from_bits_retain(bits: u32) -> OpenOptions {
        OpenOptions(bits)
    }
}

impl BitOr for OpenOptions {
    type Output = OpenOptions;

    ghost bitor_gives = { λ a b r. open_options_bits r
        ≡ bit_or (open_options_bits a) (open_options_bits b) };

    fn bitor(self, other: OpenOptions) -> OpenOptions {
        OpenOptions(self.0 | other.0)
    }
}

impl BitAnd for OpenOptions {
    type Output = OpenOptions;

    ghost bitand_gives = { λ a b r. open_options_bits r
        ≡ bit_and (open_options_bits a) (open_options_bits b) };

    fn bitand(self, other: OpenOptions) -> OpenOptions {
        OpenOptions(self.0 & other.0)
    }
}

/// The attributes that a SETATTR changes: `valid` of `struct fuse_setattr_in`. Its bits 6 and 9,
/// `FATTR_FH` and `FATTR_LOCKOWNER`, name no attribute and are not among these.
#[derive(Clone, Copy, Debug, PartialEq, Eq, PartialOrd, Ord, Hash)]
pub struct SetattrValid(u32);

impl SetattrValid {
    /// The permission bits and the kind, `mode` (`FATTR_MODE`).
    pub const MODE: SetattrValid = SetattrValid(1 << 0);

    /// The owner, `uid` (`FATTR_UID`).
    pub const UID: SetattrValid = SetattrValid(1 << 1);

    /// The group, `gid` (`FATTR_GID`).
    pub const GID: SetattrValid = SetattrValid(1 << 2);

    /// The length in bytes, `size` (`FATTR_SIZE`).
    pub const SIZE: SetattrValid = SetattrValid(1 << 3);

    /// The time of the last access, `atime` and `atimensec` (`FATTR_ATIME`).
    pub const ATIME: SetattrValid = SetattrValid(1 << 4);

    /// The time of the last write, `mtime` and `mtimensec` (`FATTR_MTIME`).
    pub const MTIME: SetattrValid = SetattrValid(1 << 5);

    /// The time of the last access becomes the present time (`FATTR_ATIME_NOW`).
    pub const ATIME_NOW: SetattrValid = SetattrValid(1 << 7);

    /// The time of the last write becomes the present time (`FATTR_MTIME_NOW`).
    pub const MTIME_NOW: SetattrValid = SetattrValid(1 << 8);

    /// The time of the last change, `ctime` and `ctimensec` (`FATTR_CTIME`).
    pub const CTIME: SetattrValid = SetattrValid(1 << 10);

    /// The set-user-id and set-group-id bits are cleared (`FATTR_KILL_SUIDGID`).
    pub const KILL_SUIDGID: SetattrValid = SetattrValid(1 << 11);

    const FLAGS: &'static [Flag<SetattrValid>] = flag_list!(SetattrValid:
        MODE,
        UID,
        GID,
        SIZE,
        ATIME,
        MTIME,
        ATIME_NOW,
        MTIME_NOW,
        CTIME,
        KILL_SUIDGID,
    );
}

impl Flags for SetattrValid {
    type Bits = u32;

    ghost exact = { ⊤ };

    ghost table = { setattr_valid_table };

    ghost set_of = { setattr_valid_bits };

    fn flags<'a>() -> &'a [Flag<SetattrValid>] {
        SetattrValid::FLAGS
    }

    fn bits(&self) -> u32 {
        self.0
    }

    fn from_bits_retain(bits: u32) -> SetattrValid {
        SetattrValid(bits)
    }
}

impl BitOr for SetattrValid {
    type Output = SetattrValid;

    ghost bitor_gives = { λ a b r. setattr_valid_bits r
        ≡ bit_or (setattr_valid_bits a) (setattr_valid_bits b) };

    fn bitor(self, other: SetattrValid) -> SetattrValid {
        SetattrValid(self.0 | other.0)
    }
}

impl BitAnd for SetattrValid {
    type Output = SetattrValid;

    ghost bitand_gives = { λ a b r. setattr_valid_bits r
        ≡ bit_and (setattr_valid_bits a) (setattr_valid_bits b) };

    fn bitand(self, other: SetattrValid) -> SetattrValid {
        SetattrValid(self.0 & other.0)
    }
}

/// What a mapping into the window of memory allows: `flags` of `struct fuse_setupmapping_in`.
#[derive(Clone, Copy, Debug, PartialEq, Eq, PartialOrd, Ord, Hash)]
pub struct SetupmappingFlags(u64);

impl SetupmappingFlags {
    /// The mapping may be written (`FUSE_SETUPMAPPING_FLAG_WRITE`).
    pub const WRITE: SetupmappingFlags = SetupmappingFlags(1 << 0);

    /// The mapping may be read (`FUSE_SETUPMAPPING_FLAG_READ`).
    pub const READ: SetupmappingFlags = SetupmappingFlags(1 << 1);

    const FLAGS: &'static [Flag<SetupmappingFlags>] = flag_list!(SetupmappingFlags:
        WRITE,
        READ,
    );
}

impl Flags for SetupmappingFlags {
    type Bits = u64;

    ghost exact = { ⊤ };

    ghost table = { setupmapping_flags_table };

    ghost set_of = { setupmapping_flags_bits };

    fn flags<'a>() -> &'a [Flag<SetupmappingFlags>] {
        SetupmappingFlags::FLAGS
    }

    fn bits(&self) -> u64 {
        self.0
    }

    fn from_bits_retain(bits: u64) -> SetupmappingFlags {
        SetupmappingFlags(bits)
    }
}

impl BitOr for SetupmappingFlags {
    type Output = SetupmappingFlags;

    ghost bitor_gives = { λ a b r. setupmapping_flags_bits r
        ≡ bit_or (setupmapping_flags_bits a) (setupmapping_flags_bits b) };

    fn bitor(self, other: SetupmappingFlags) -> SetupmappingFlags {
        SetupmappingFlags(self.0 | other.0)
    }
}

impl BitAnd for SetupmappingFlags {
    type Output = SetupmappingFlags;

    ghost bitand_gives = { λ a b r. setupmapping_flags_bits r
        ≡ bit_and (setupmapping_flags_bits a) (setupmapping_flags_bits b) };

    fn bitand(self, other: SetupmappingFlags) -> SetupmappingFlags {
        SetupmappingFlags(self.0 & other.0)
    }
}

/// What a SETXATTR does besides: `setxattr_flags` of `struct fuse_setxattr_in`, which only the
/// longer form of that record has.
#[derive(Clone, Copy, Debug, PartialEq, Eq, PartialOrd, Ord, Hash)]
pub struct SetxattrFlags(u32);

impl SetxattrFlags {
    /// The set-group-id bit is cleared where the access list is set
    /// (`FUSE_SETXATTR_ACL_KILL_SGID`).
    pub const SETXATTR_ACL_KILL_SGID: SetxattrFlags = SetxattrFlags(1 << 0);

    const FLAGS: &'static [Flag<SetxattrFlags>] = flag_list!(SetxattrFlags:
        SETXATTR_ACL_KILL_SGID,
    );
}

impl Flags for SetxattrFlags {
    type Bits = u32;

    ghost exact = { ⊤ };

    ghost table = { setxattr_flags_table };

    ghost set_of = { setxattr_flags_bits };

    fn flags<'a>() -> &'a [Flag<SetxattrFlags>] {
        SetxattrFlags::FLAGS
    }

    fn bits(&self) -> u32 {
        self.0
    }

    fn from_bits_retain(bits: u32) -> SetxattrFlags {
        SetxattrFlags(bits)
    }
}

impl BitOr for SetxattrFlags {
    type Output = SetxattrFlags;

    ghost bitor_gives = { λ a b r. setxattr_flags_bits r
        ≡ bit_or (setxattr_flags_bits a) (setxattr_flags_bits b) };

    fn bitor(self, other: SetxattrFlags) -> SetxattrFlags {
        SetxattrFlags(self.0 | other.0)
    }
}

impl BitAnd for SetxattrFlags {
    type Output = SetxattrFlags;

    ghost bitand_gives = { λ a b r. setxattr_flags_bits r
        ≡ bit_and (setxattr_flags_bits a) (setxattr_flags_bits b) };

    fn bitand(self, other: SetxattrFlags) -> SetxattrFlags {
        SetxattrFlags(self.0 & other.0)
    }
}
