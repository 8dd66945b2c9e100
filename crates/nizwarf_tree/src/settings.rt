//! What C sets of a file system.

/// What C says of a new one, in the order of the header's `nizwarf_server_config`. A library over another
/// file system takes of it what it wants.
#[repr(C)]
#[derive(Clone, Copy)]
pub struct Settings {
    /// When it is made, in seconds since 1970.
    pub seconds: u64,
    /// How many nodes it holds at most, the root among them.
    pub nodes: u64,
    /// How many bytes it holds at most.
    pub bytes: u64,
    /// How many bytes a file has at most.
    pub file: u64,
    /// The nanoseconds past `seconds`.
    pub nanoseconds: u32,
    /// The user that the root belongs to.
    pub uid: u32,
    /// The group that the root belongs to.
    pub gid: u32,
    /// The permission bits of the root: `mode & 0o7777`.
    pub mode: u32,
    /// [`WRITEBACK`], or 0.
    pub flags: u64,
}

/// The flag by which the client is to keep what is written, and to write it later.
pub const WRITEBACK: u64 = 1;
