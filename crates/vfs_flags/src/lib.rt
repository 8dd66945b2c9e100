//! The numbers of the FUSE protocol: flag sets, opcodes, ids, error numbers and constants.
#![tactic(auto)]

mod constants;
mod errno;
mod ext_type;
mod flag_list;
mod flag_sets;
mod fs_options;
mod ids;
pub mod laws;
mod modes;
mod notify_opcode;
mod opcode;

pub use constants::{
    ATTR_DAX, ATTR_SUBMOUNT, DEFAULT_MAX_BUFFER, FATTR_FH, FATTR_LOCKOWNER, FSYNC_FDATASYNC,
    FUSE_COMPAT_22_INIT_OUT_SIZE, FUSE_COMPAT_ATTR_OUT_SIZE, FUSE_COMPAT_ENTRY_OUT_SIZE,
    FUSE_COMPAT_INIT_OUT_SIZE, FUSE_COMPAT_MKNOD_IN_SIZE, FUSE_COMPAT_SETXATTR_IN_SIZE,
    FUSE_COMPAT_STATFS_SIZE, FUSE_COMPAT_WRITE_IN_SIZE, FUSE_MIN_READ_BUFFER, GETATTR_FH,
    GREATEST_MAX_BUFFER, KERNEL_MINOR_VERSION, KERNEL_VERSION, LEAST_MAX_BUFFER, LK_FLOCK,
    MAX_REPLY_DATA, MIN_KERNEL_MINOR_VERSION, OPEN_KILL_SUIDGID, POLL_SCHEDULE_NOTIFY,
    READ_LOCKOWNER, RELEASE_FLOCK_UNLOCK, RELEASE_FLUSH, RENAME_EXCHANGE, RENAME_FLAGS,
    RENAME_NOREPLACE, RENAME_WHITEOUT, ROOT_ID, WRITE_CACHE, WRITE_KILL_PRIV, WRITE_LOCKOWNER,
};
pub use errno::{Errno, Fault};
pub use ext_type::ExtType;
pub use flag_sets::{
    IoctlFlags, NotifyInvalEntryOutFlags, OpenOptions, SetattrValid, SetupmappingFlags,
    SetxattrFlags,
};
pub use fs_options::FsOptions;
pub use ids::{GuestGid, GuestUid, HostGid, HostUid};
pub use modes::{
    DT_DIR, DT_LNK, DT_REG, S_IFBLK, S_IFCHR, S_IFDIR, S_IFIFO, S_IFLNK, S_IFMT, S_IFREG, S_IFSOCK,
};
pub use notify_opcode::NotifyOpcode;
pub use opcode::Opcode;
