//! The entries that lookups answer, and the records that forget them.

ghost use Rattle.std.specs.Prelude.{refl};
ghost use Rattle.std.proofs.Common.{lit≤};
ghost use Rattle.vfs_wire.specs.Records.{batch_forget_in, entry_out, forget_in, forget_one};

use crate::ByteValued;
use crate::attributes::Attr;
use crate::bytes::Field::{Eight, Four};
use crate::bytes::{put_fields, put_front, u32_at, u64_at};
use crate::parts::{part_at, put_rest};

/// An entry (`struct fuse_entry_out`, 128 bytes): the reply to LOOKUP, SYMLINK, MKNOD, MKDIR and
/// LINK, the first part of that to CREATE, and a part of each record of READDIRPLUS. The kernel
/// counts one lookup of the node for each.
#[derive(Clone, Copy, Debug, Default)]
pub struct EntryOut {
    /// The node; 0 means that there is none.
    pub nodeid: u64,
    /// Tells apart nodes that have the same number at different times.
    pub generation: u64,
    /// How long the kernel may keep the name, whole seconds.
    pub entry_valid: u64,
    /// How long the kernel may keep the attributes, whole seconds.
    pub attr_valid: u64,
    /// The nanoseconds beside `entry_valid`.
    pub entry_valid_nsec: u32,
    /// The nanoseconds beside `attr_valid`.
    pub attr_valid_nsec: u32,
    /// The node's attributes.
    pub attr: Attr,
}

impl ByteValued for EntryOut {
    const SIZE: usize = 128;

    ghost SIZE = { 128 };

    ghost table = { entry_out };

    fn put(&self, out: &mut [u8]) {
        put_rest(out, 40, &self.attr);
        put_front(
            out,
            40,
            &[
                Eight(self.nodeid),
                Eight(self.generation),
                Eight(self.entry_valid),
                Eight(self.attr_valid),
                Four(self.entry_valid_nsec),
                Four(self.attr_valid_nsec),
            ],
        );
    }

    fn take(b: &[u8]) -> EntryOut {
        EntryOut {
            nodeid: u64_at(b, 0),
            generation: u64_at(b, 8),
            entry_valid: u64_at(b, 16),
            attr_valid: u64_at(b, 24),
            entry_valid_nsec: u32_at(b, 32),
            attr_valid_nsec: u32_at(b, 36),
            attr: part_at(b, 40),
        }
    }

    ghost size_is = { refl };

    ghost size_small = { lit≤ tt };

    ghost made_fields = { λ x h. refl };

    ghost fields_made = { λ b h. refl };
}

/// The record of FORGET (`struct fuse_forget_in`, 8 bytes).
#[derive(Clone, Copy, Debug, Default)]
pub struct ForgetIn {
    /// By how much the node's lookup count falls.
    pub nlookup: u64,
}

impl ByteValued for ForgetIn {
    const SIZE: usize = 8;

    ghost SIZE = { 8 };

    ghost table = { forget_in };

    fn put(&self, out: &mut [u8]) {
        put_fields(out, &[Eight(self.nlookup)]);
    }

    fn take(b: &[u8]) -> ForgetIn {
        ForgetIn {
            nlookup: u64_at(b, 0),
        }
    }

    ghost size_is = { refl };

    ghost size_small = { lit≤ tt };

    ghost made_fields = { λ x h. refl };

    ghost fields_made = { λ b h. refl };
}

/// One pair of BATCH_FORGET (`struct fuse_forget_one`, 16 bytes).
#[derive(Clone, Copy, Debug, Default)]
pub struct ForgetOne {
    /// The node that is forgotten.
    pub nodeid: u64,
    /// By how much its lookup count falls.
    pub nlookup: u64,
}

impl ByteValued for ForgetOne {
    const SIZE: usize = 16;

    ghost SIZE = { 16 };

    ghost table = { forget_one };

    fn put(&self, out: &mut [u8]) {
        put_fields(out, &[Eight(self.nodeid), Eight(self.nlookup)]);
    }

    fn take(b: &[u8]) -> ForgetOne {
        ForgetOne {
            nodeid: u64_at(b, 0),
            nlookup: u64_at(b, 8),
        }
    }

    ghost size_is = { refl };

    ghost size_small = { lit≤ tt };

    ghost made_fields = { λ x h. refl };

    ghost fields_made = { λ b h. refl };
}

/// The record of BATCH_FORGET (`struct fuse_batch_forget_in`, 8 bytes); as many `ForgetOne` follow
/// as `count` says.
#[derive(Clone, Copy, Debug, Default)]
pub struct BatchForgetIn {
    /// Number of pairs.
    pub count: u32,
    /// Not used; a sender writes 0.
    pub dummy: u32,
}

impl ByteValued for BatchForgetIn {
    const SIZE: usize = 8;

    ghost SIZE = { 8 };

    ghost table = { batch_forget_in };

    fn put(&self, out: &mut [u8]) {
        put_fields(out, &[Four(self.count), Four(self.dummy)]);
    }

    fn take(b: &[u8]) -> BatchForgetIn {
        BatchForgetIn {
            count: u32_at(b, 0),
            dummy: u32_at(b, 4),
        }
    }

    ghost size_is = { refl };

    ghost size_small = { lit≤ tt };

    ghost made_fields = { λ x h. refl };

    ghost fields_made = { λ b h. refl };
}
