//! What a call is told of its caller, and what it answers of a node.

ghost use Rattle.std.specs.Prelude.{◌≡◌};
ghost use Rattle.vfs_files.specs.Values.{context_of, entry_out_of};

use std::time::Duration;
use vfs_flags::{GuestGid, GuestUid};
use vfs_wire::{Attr, EntryOut, InHeader};

/// Who makes a call: the user, the group and the process in the guest that the kernel names in
/// the header of the request.
#[derive(Clone, Copy, Debug)]
pub struct Context {
    /// The user, as the guest numbers it.
    pub uid: GuestUid,
    /// The group, as the guest numbers it.
    pub gid: GuestGid,
    /// The process, or 0 where the kernel names none.
    pub pid: i32,
}

impl From<InHeader> for Context {
    ghost from_gives = { λ header context. context ≡ context_of header };

    /// The caller in a request's header: `uid`, `gid`, and `pid` with the same bits, from 2^31 on
    /// as a negative number.
    fn from(header: InHeader) -> Context {
        Context {
            uid: header.uid,
            gid: header.gid,
            pid: header.pid.cast_signed(),
        }
    }
}

/// A node that a call answers. For each one that reaches it the kernel counts one more lookup of
/// the node, and takes them back by `forget`.
#[derive(Drop)]
pub struct Entry {
    /// The number of the node. 0 says that there is no such name, and that the kernel may
    /// remember so for `entry_timeout`.
    pub inode: u64,
    /// Tells apart nodes that bear one number at different times.
    pub generation: u64,
    /// The attributes of the node.
    pub attr: Attr,
    /// How long the kernel may take the attributes for true without asking.
    pub attr_timeout: Duration,
    /// How long the kernel may take the name for this node's without asking.
    pub entry_timeout: Duration,
}

impl From<Entry> for EntryOut {
    ghost from_gives = { λ entry out. out ≡ entry_out_of entry };

    /// The entry as a reply carries it, `struct fuse_entry_out`: each timeout in whole seconds and
    /// the nanoseconds beyond them.
    fn from(entry: Entry) -> EntryOut {
        EntryOut::from(&entry)
    }
}

impl<'a> From<&'a Entry> for EntryOut {
    ghost from_gives = { λ entry out. out ≡ entry_out_of entry.now };

    /// The same of an entry that is lent. It is inlined, so that an entry that was made just before is
    /// not put together in memory first.
    #[inline(always)]
    fn from(entry: &'a Entry) -> EntryOut {
        EntryOut {
            nodeid: entry.inode,
            generation: entry.generation,
            entry_valid: entry.entry_timeout.as_secs(),
            attr_valid: entry.attr_timeout.as_secs(),
            entry_valid_nsec: entry.entry_timeout.subsec_nanos(),
            attr_valid_nsec: entry.attr_timeout.subsec_nanos(),
            attr: entry.attr,
        }
    }
}
