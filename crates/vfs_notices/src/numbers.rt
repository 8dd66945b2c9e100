//! The numbers of notices.

/// The numbers of notices (`enum fuse_notify_code`), which are in a header's `error`. The first six are
/// those of `NotifyOpcode`.
pub mod notice {
    use vfs_flags::NotifyOpcode;

    pub const POLL: u8 = NotifyOpcode::Poll as u8;

    pub const INVAL_INODE: u8 = NotifyOpcode::InvalInode as u8;

    pub const INVAL_ENTRY: u8 = NotifyOpcode::InvalEntry as u8;

    pub const STORE: u8 = NotifyOpcode::Store as u8;

    pub const RETRIEVE: u8 = NotifyOpcode::Retrieve as u8;

    pub const DELETE: u8 = NotifyOpcode::Delete as u8;

    pub const RESEND: u8 = 7;

    pub const INC_EPOCH: u8 = 8;

    pub const PRUNE: u8 = 9;
}
