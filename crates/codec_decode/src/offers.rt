//! The rows of the further table, as bits that a file system offers.

/// GETLK, SETLK and SETLKW.
pub const LOCKS: u32 = 1 << 0;

pub const BMAP: u32 = 1 << 1;

pub const IOCTL: u32 = 1 << 2;

pub const POLL: u32 = 1 << 3;

pub const STATX: u32 = 1 << 4;

/// COPY_FILE_RANGE_64.
pub const COPY_64: u32 = 1 << 5;

pub const TMPFILE: u32 = 1 << 6;

pub const NOTIFY_REPLY: u32 = 1 << 7;
