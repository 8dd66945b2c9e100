//! The records of notifications, which a server sends without a request.

ghost use Rattle.std.specs.Prelude.{drop, refl, FitsSigned};
ghost use Rattle.std.specs.Int.{w64, cast_signed, cast_unsigned};
ghost use Rattle.std.proofs.Common.{ap, lit≤, ◌∙◌};
ghost use Rattle.std.proofs.lemmas.Int.{of_z-to_z, to_z-of_z};
ghost use Rattle.vfs_wire.specs.Fields.{number};
ghost use Rattle.vfs_wire.specs.FieldLaws.{AreBytes-drop, number-lt};
ghost use Rattle.vfs_wire_more.specs.Notifications.{notify_delete_out, notify_inval_entry_out, notify_inval_inode_out, notify_poll_wakeup_out, notify_retrieve_in, notify_retrieve_out, notify_store_out, notify_prune_out};

use vfs_wire::ByteValued;
use vfs_wire::bytes::Field::{Eight, Four};
use vfs_wire::bytes::{put_fields, u32_at, u64_at};

/// The notification that wakes a POLL (`struct fuse_notify_poll_wakeup_out`, 8 bytes).
#[derive(Clone, Copy, Debug, Default)]
pub struct NotifyPollWakeupOut {
    /// The number that POLL gave.
    pub kh: u64,
}

impl ByteValued for NotifyPollWakeupOut {
    const SIZE: usize = 8;

    ghost SIZE = { 8 };

    ghost table = { notify_poll_wakeup_out };

    fn put(&self, out: &mut [u8]) {
        put_fields(out, &[Eight(self.kh)]);
    }

    fn take(b: &[u8]) -> NotifyPollWakeupOut {
        NotifyPollWakeupOut { kh: u64_at(b, 0) }
    }

    ghost size_is = { refl };

    ghost size_small = { lit≤ tt };

    ghost made_fields = { λ x h. refl };

    ghost fields_made = { λ b h. refl };
}

/// The notification that the cached data of a node is old (`struct fuse_notify_inval_inode_out`, 24
/// bytes).
#[derive(Clone, Copy, Debug, Default)]
pub struct NotifyInvalInodeOut {
    /// The node.
    pub ino: u64,
    /// Place in bytes that the range begins at; below 0 only the attributes are old.
    pub off: i64,
    /// Length of the range in bytes; 0 or less is all the rest.
    pub len: i64,
}

impl ByteValued for NotifyInvalInodeOut {
    const SIZE: usize = 24;

    ghost SIZE = { 24 };

    ghost table = { notify_inval_inode_out };

    ghost in_range = { λ r. FitsSigned w64 r.off × FitsSigned w64 r.len };

    fn put(&self, out: &mut [u8]) {
        put_fields(
            out,
            &[
                Eight(self.ino),
                Eight(self.off.cast_unsigned()),
                Eight(self.len.cast_unsigned()),
            ],
        );
    }

    fn take(b: &[u8]) -> NotifyInvalInodeOut {
        NotifyInvalInodeOut {
            ino: u64_at(b, 0),
            off: u64_at(b, 8).cast_signed(),
            len: u64_at(b, 16).cast_signed(),
        }
    }

    ghost size_is = { refl };

    ghost size_small = { lit≤ tt };

    ghost made_fields = { λ x h.
        ap (λ z. record x { off = z; len = cast_signed w64 (cast_unsigned w64 x.len) })
        (to_z-of_z w64 x.off h.0)
        ∙ ap (λ z. record x { len = z }) (to_z-of_z w64 x.len h.1) };

    ghost fields_made = { λ b h. Prim.rw (
      of_z-to_z w64 (number 8 (drop 8 b)) (number-lt 8 (drop 8 b) (AreBytes-drop 8 b h)),
      of_z-to_z w64 (number 8 (drop 16 b)) (number-lt 8 (drop 16 b) (AreBytes-drop 16 b h)),
    ) refl };
}

/// The notification that a cached name is old (`struct fuse_notify_inval_entry_out`, 16 bytes); the
/// name follows, then a 0.
#[derive(Clone, Copy, Debug, Default)]
pub struct NotifyInvalEntryOut {
    /// Node of the directory.
    pub parent: u64,
    /// Length of the name in bytes.
    pub namelen: u32,
    /// Bits of `NotifyInvalEntryOutFlags`.
    pub flags: u32,
}

impl ByteValued for NotifyInvalEntryOut {
    const SIZE: usize = 16;

    ghost SIZE = { 16 };

    ghost table = { notify_inval_entry_out };

    fn put(&self, out: &mut [u8]) {
        put_fields(
            out,
            &[Eight(self.parent), Four(self.namelen), Four(self.flags)],
        );
    }

    fn take(b: &[u8]) -> NotifyInvalEntryOut {
        NotifyInvalEntryOut {
            parent: u64_at(b, 0),
            namelen: u32_at(b, 8),
            flags: u32_at(b, 12),
        }
    }

    ghost size_is = { refl };

    ghost size_small = { lit≤ tt };

    ghost made_fields = { λ x h. refl };

    ghost fields_made = { λ b h. refl };
}

/// The notification that a name is gone (`struct fuse_notify_delete_out`, 24 bytes); the name
/// follows, then a 0.
#[derive(Clone, Copy, Debug, Default)]
pub struct NotifyDeleteOut {
    /// Node of the directory.
    pub parent: u64,
    /// Node that the name stood for.
    pub child: u64,
    /// Length of the name in bytes.
    pub namelen: u32,
    /// Not used; a sender writes 0.
    pub padding: u32,
}

impl ByteValued for NotifyDeleteOut {
    const SIZE: usize = 24;

    ghost SIZE = { 24 };

    ghost table = { notify_delete_out };

    fn put(&self, out: &mut [u8]) {
        put_fields(
            out,
            &[
                Eight(self.parent),
                Eight(self.child),
                Four(self.namelen),
                Four(self.padding),
            ],
        );
    }

    fn take(b: &[u8]) -> NotifyDeleteOut {
        NotifyDeleteOut {
            parent: u64_at(b, 0),
            child: u64_at(b, 8),
            namelen: u32_at(b, 16),
            padding: u32_at(b, 20),
        }
    }

    ghost size_is = { refl };

    ghost size_small = { lit≤ tt };

    ghost made_fields = { λ x h. refl };

    ghost fields_made = { λ b h. refl };
}

/// The notification that puts data into the kernel's cache (`struct fuse_notify_store_out`, 24
/// bytes); the data follows.
#[derive(Clone, Copy, Debug, Default)]
pub struct NotifyStoreOut {
    /// The node.
    pub nodeid: u64,
    /// Place in the file in bytes.
    pub offset: u64,
    /// Number of bytes.
    pub size: u32,
    /// Not used; a sender writes 0.
    pub padding: u32,
}

impl ByteValued for NotifyStoreOut {
    const SIZE: usize = 24;

    ghost SIZE = { 24 };

    ghost table = { notify_store_out };

    fn put(&self, out: &mut [u8]) {
        put_fields(
            out,
            &[
                Eight(self.nodeid),
                Eight(self.offset),
                Four(self.size),
                Four(self.padding),
            ],
        );
    }

    fn take(b: &[u8]) -> NotifyStoreOut {
        NotifyStoreOut {
            nodeid: u64_at(b, 0),
            offset: u64_at(b, 8),
            size: u32_at(b, 16),
            padding: u32_at(b, 20),
        }
    }

    ghost size_is = { refl };

    ghost size_small = { lit≤ tt };

    ghost made_fields = { λ x h. refl };

    ghost fields_made = { λ b h. refl };
}

/// The notification that asks for data of the kernel's cache (`struct fuse_notify_retrieve_out`, 32
/// bytes).
#[derive(Clone, Copy, Debug, Default)]
pub struct Notify_Retrieve_Out {
    /// Number that the answer repeats.
    pub notify_unique: u64,
    /// The node.
    pub nodeid: u64,
    /// Place in the file in bytes.
    pub offset: u64,
    /// Most bytes to answer.
    pub size: u32,
    /// Not used; a sender writes 0.
    pub padding: u32,
}

impl ByteValued for Notify_Retrieve_Out {
    const SIZE: usize = 32;

    ghost SIZE = { 32 };

    ghost table = { notify_retrieve_out };

    fn put(&self, out: &mut [u8]) {
        put_fields(
            out,
            &[
                Eight(self.notify_unique),
                Eight(self.nodeid),
                Eight(self.offset),
                Four(self.size),
                Four(self.padding),
            ],
        );
    }

    fn take(b: &[u8]) -> Notify_Retrieve_Out {
        Notify_Retrieve_Out {
            notify_unique: u64_at(b, 0),
            nodeid: u64_at(b, 8),
            offset: u64_at(b, 16),
            size: u32_at(b, 24),
            padding: u32_at(b, 28),
        }
    }

    ghost size_is = { refl };

    ghost size_small = { lit≤ tt };

    ghost made_fields = { λ x h. refl };

    ghost fields_made = { λ b h. refl };
}

/// The record of NOTIFY_REPLY, the answer to such a notification (`struct fuse_notify_retrieve_in`,
/// 40 bytes, as long as `WriteIn`); the data follows.
#[derive(Clone, Copy, Debug, Default)]
pub struct NotifyRetrieveIn {
    /// Not used; a sender writes 0.
    pub dummy1: u64,
    /// Place in the file in bytes.
    pub offset: u64,
    /// Number of bytes.
    pub size: u32,
    /// Not used; a sender writes 0.
    pub dummy2: u32,
    /// Not used; a sender writes 0.
    pub dummy3: u64,
    /// Not used; a sender writes 0.
    pub dummy4: u64,
}

impl ByteValued for NotifyRetrieveIn {
    const SIZE: usize = 40;

    ghost SIZE = { 40 };

    ghost table = { notify_retrieve_in };

    fn put(&self, out: &mut [u8]) {
        put_fields(
            out,
            &[
                Eight(self.dummy1),
                Eight(self.offset),
                Four(self.size),
                Four(self.dummy2),
                Eight(self.dummy3),
                Eight(self.dummy4),
            ],
        );
    }

    fn take(b: &[u8]) -> NotifyRetrieveIn {
        NotifyRetrieveIn {
            dummy1: u64_at(b, 0),
            offset: u64_at(b, 8),
            size: u32_at(b, 16),
            dummy2: u32_at(b, 20),
            dummy3: u64_at(b, 24),
            dummy4: u64_at(b, 32),
        }
    }

    ghost size_is = { refl };

    ghost size_small = { lit≤ tt };

    ghost made_fields = { λ x h. refl };

    ghost fields_made = { λ b h. refl };
}

/// The record of a notification that nodes may be forgotten (`struct fuse_notify_prune_out`, 16 bytes);
/// their numbers follow, in 8 bytes each.
#[derive(Clone, Copy, Debug, Default)]
pub struct NotifyPruneOut {
    /// How many nodes.
    pub count: u32,
    /// Not used; a sender writes 0.
    pub padding: u32,
    /// Not used; a sender writes 0.
    pub spare: u64,
}

impl ByteValued for NotifyPruneOut {
    const SIZE: usize = 16;

    ghost SIZE = { 16 };

    ghost table = { notify_prune_out };

    fn put(&self, out: &mut [u8]) {
        put_fields(
            out,
            &[Four(self.count), Four(self.padding), Eight(self.spare)],
        );
    }

    fn take(b: &[u8]) -> NotifyPruneOut {
        NotifyPruneOut {
            count: u32_at(b, 0),
            padding: u32_at(b, 4),
            spare: u64_at(b, 8),
        }
    }

    ghost size_is = { refl };

    ghost size_small = { lit≤ tt };

    ghost made_fields = { λ x h. refl };

    ghost fields_made = { λ b h. refl };
}
