//! What the mode of a node says, as `stat(2)` and `readdir(3)` do.

// The kind of a node, in `mode` of its attributes.

/// The bits that say of which kind it is.
pub const S_IFMT: u32 = 0o170000;

/// A pipe with a name.
pub const S_IFIFO: u32 = 0o010000;

/// A device of characters.
pub const S_IFCHR: u32 = 0o020000;

/// A directory.
pub const S_IFDIR: u32 = 0o040000;

/// A device of blocks.
pub const S_IFBLK: u32 = 0o060000;

/// A file with contents.
pub const S_IFREG: u32 = 0o100000;

/// A symbolic link.
pub const S_IFLNK: u32 = 0o120000;

/// A socket.
pub const S_IFSOCK: u32 = 0o140000;

// Its kind as `d_type` of an item of a directory: the same bits, without the twelve below them.

/// A directory.
pub const DT_DIR: u32 = S_IFDIR >> 12;

/// A file with contents.
pub const DT_REG: u32 = S_IFREG >> 12;

/// A symbolic link.
pub const DT_LNK: u32 = S_IFLNK >> 12;
