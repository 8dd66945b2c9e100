//! What a notification says.

/// The kind of a message that the server sends unasked: `enum fuse_notify_code`, which is in
/// the place of the error in its header.
#[derive(Clone, Copy, Debug)]
pub enum NotifyOpcode {
    /// A file that was polled is ready.
    Poll = 1,
    /// The attributes of a node, or a part of its bytes, are out of date.
    InvalInode = 2,
    /// A name in a directory is out of date.
    InvalEntry = 3,
    /// Bytes for the kernel to cache.
    Store = 4,
    /// The kernel is to give bytes that it caches, by NOTIFY_REPLY.
    Retrieve = 5,
    /// A name in a directory was removed.
    Delete = 6,
    /// The end of the list, which is no notification.
    CodeMax = 7,
}
