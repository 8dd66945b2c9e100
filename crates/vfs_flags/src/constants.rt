//! The numbers of the protocol that are no flag set: versions, single flags and sizes.

// The version of the protocol.

/// The major version of the protocol. An INIT of a lower one is refused, and one of a higher one
/// is answered with this, for the kernel to come down to.
pub const KERNEL_VERSION: u32 = 7;

/// The minor version of the protocol that the server speaks, as its reply to INIT says.
pub const KERNEL_MINOR_VERSION: u32 = 38;

/// The lowest minor version of a kernel that is served.
pub const MIN_KERNEL_MINOR_VERSION: u32 = 27;

// Nodes and attributes.

/// The node of the root directory, which the kernel knows without a LOOKUP.
pub const ROOT_ID: u64 = 1;

/// In `flags` of `struct fuse_attr`: the node is the root of a mount inside the file system.
pub const ATTR_SUBMOUNT: u32 = 1 << 0;

/// In `flags` of `struct fuse_attr`: the file is to be reached directly in memory, by DAX.
pub const ATTR_DAX: u32 = 1 << 1;

// Flags of requests.

/// In `valid` of `struct fuse_setattr_in`: `fh` is the handle of an open file.
pub const FATTR_FH: u32 = 1 << 6;

/// In `valid` of `struct fuse_setattr_in`: `lock_owner` is set.
pub const FATTR_LOCKOWNER: u32 = 1 << 9;

/// In `flags` of `struct fuse_getattr_in`: `fh` is the handle of an open file.
pub const GETATTR_FH: u32 = 1 << 0;

/// In `open_flags` of `struct fuse_open_in` and `struct fuse_create_in`: the set-user-id and
/// set-group-id bits are cleared where the file can be executed.
pub const OPEN_KILL_SUIDGID: u32 = 1 << 0;

/// In `release_flags` of `struct fuse_release_in`: what is left to write is flushed first.
pub const RELEASE_FLUSH: u32 = 1 << 0;

/// In `release_flags` of `struct fuse_release_in`: the caller's lock by `flock` is given up.
pub const RELEASE_FLOCK_UNLOCK: u32 = 1 << 1;

/// In `read_flags` of `struct fuse_read_in`: `lock_owner` is set.
pub const READ_LOCKOWNER: u32 = 1 << 1;

/// In `write_flags` of `struct fuse_write_in`: the bytes come late, from the page cache, and the
/// handle is only a guess.
pub const WRITE_CACHE: u32 = 1 << 0;

/// In `write_flags` of `struct fuse_write_in`: `lock_owner` is set.
pub const WRITE_LOCKOWNER: u32 = 1 << 1;

/// In `write_flags` of `struct fuse_write_in`: the set-user-id and set-group-id bits are cleared.
pub const WRITE_KILL_PRIV: u32 = 1 << 2;

/// In `fsync_flags` of `struct fuse_fsync_in`: the bytes alone are brought to their store, not the
/// attributes.
pub const FSYNC_FDATASYNC: u32 = 1 << 0;

/// In `flags` of `struct fuse_rename2_in`: a node that has the new name is not replaced.
pub const RENAME_NOREPLACE: u32 = 1 << 0;

/// In `flags` of `struct fuse_rename2_in`: the two names are exchanged.
pub const RENAME_EXCHANGE: u32 = 1 << 1;

/// In `flags` of `struct fuse_rename2_in`: a whiteout takes the place of the old name.
pub const RENAME_WHITEOUT: u32 = 1 << 2;

/// In `flags` of `struct fuse_rename2_in`: the flags that are passed on, which are these three.
pub const RENAME_FLAGS: u32 = 7;

/// In `lk_flags` of `struct fuse_lk_in`: the lock is one of `flock`, of the whole file.
pub const LK_FLOCK: u32 = 1 << 0;

/// In `flags` of `struct fuse_poll_in`: the kernel wants a notification once the file is ready.
pub const POLL_SCHEDULE_NOTIFY: u32 = 1 << 0;

// Limits of a server, in bytes.

/// The least limit that a server can be made for, of the payload of a request or a reply.
pub const LEAST_MAX_BUFFER: u32 = 4096;

/// The limit of a server that none was chosen for, of the payload of a request or a reply.
pub const DEFAULT_MAX_BUFFER: u32 = 1_048_576;

/// The greatest limit that a server can be made for, of the payload of a request or a reply.
pub const GREATEST_MAX_BUFFER: u32 = 134_217_728;

// Sizes, in bytes.

/// How many bytes of data a reply carries at most: with the 16 of its header, their count is below
/// 2 ^ 32.
pub const MAX_REPLY_DATA: u32 = u32::MAX - 16;

/// The least room for a request that a reader of the device must offer.
pub const FUSE_MIN_READ_BUFFER: u32 = 8192;

/// `struct fuse_entry_out` before minor version 9.
pub const FUSE_COMPAT_ENTRY_OUT_SIZE: u32 = 120;

/// `struct fuse_attr_out` before minor version 9.
pub const FUSE_COMPAT_ATTR_OUT_SIZE: u32 = 96;

/// `struct fuse_mknod_in` before minor version 12.
pub const FUSE_COMPAT_MKNOD_IN_SIZE: u32 = 8;

/// `struct fuse_write_in` before minor version 9.
pub const FUSE_COMPAT_WRITE_IN_SIZE: u32 = 24;

/// `struct fuse_statfs_out` before minor version 4.
pub const FUSE_COMPAT_STATFS_SIZE: u32 = 48;

/// `struct fuse_init_out` before minor version 5.
pub const FUSE_COMPAT_INIT_OUT_SIZE: u32 = 8;

/// `struct fuse_init_out` from minor version 5 to 22.
pub const FUSE_COMPAT_22_INIT_OUT_SIZE: u32 = 24;

/// `struct fuse_setxattr_in` where the longer form wasn't agreed on.
pub const FUSE_COMPAT_SETXATTR_IN_SIZE: u32 = 8;
