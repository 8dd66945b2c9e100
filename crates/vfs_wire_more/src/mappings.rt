//! The records of requests that map parts of a file into memory that both sides share.

ghost use Rattle.std.specs.Prelude.{refl};
ghost use Rattle.std.proofs.Common.{lit≤};
ghost use Rattle.vfs_wire_more.specs.Mappings.{removemapping_in, removemapping_one, setupmapping_in};

use vfs_wire::ByteValued;
use vfs_wire::bytes::Field::{Eight, Four};
use vfs_wire::bytes::{put_fields, u32_at, u64_at};

/// The record of SETUPMAPPING (`struct fuse_setupmapping_in`, 40 bytes).
#[derive(Clone, Copy, Debug, Default)]
pub struct SetupmappingIn {
    /// Handle of the open file, as the reply to OPEN or CREATE gave it.
    pub fh: u64,
    /// Place in the file in bytes.
    pub foffset: u64,
    /// Length of the mapping in bytes.
    pub len: u64,
    /// Bits of `SetupmappingFlags`.
    pub flags: u64,
    /// Place in the shared memory in bytes.
    pub moffset: u64,
}

impl ByteValued for SetupmappingIn {
    const SIZE: usize = 40;

    ghost SIZE = { 40 };

    ghost table = { setupmapping_in };

    fn put(&self, out: &mut [u8]) {
        put_fields(
            out,
            &[
                Eight(self.fh),
                Eight(self.foffset),
                Eight(self.len),
                Eight(self.flags),
                Eight(self.moffset),
            ],
        );
    }

    fn take(b: &[u8]) -> SetupmappingIn {
        SetupmappingIn {
            fh: u64_at(b, 0),
            foffset: u64_at(b, 8),
            len: u64_at(b, 16),
            flags: u64_at(b, 24),
            moffset: u64_at(b, 32),
        }
    }

    ghost size_is = { refl };

    ghost size_small = { lit≤ tt };

    ghost made_fields = { λ x h. refl };

    ghost fields_made = { λ b h. refl };
}

/// The record of REMOVEMAPPING (`struct fuse_removemapping_in`, 4 bytes); as many
/// `RemovemappingOne` follow as `count` says.
#[derive(Clone, Copy, Debug, Default)]
pub struct RemovemappingIn {
    /// Number of mappings.
    pub count: u32,
}

impl ByteValued for RemovemappingIn {
    const SIZE: usize = 4;

    ghost SIZE = { 4 };

    ghost table = { removemapping_in };

    fn put(&self, out: &mut [u8]) {
        put_fields(out, &[Four(self.count)]);
    }

    fn take(b: &[u8]) -> RemovemappingIn {
        RemovemappingIn {
            count: u32_at(b, 0),
        }
    }

    ghost size_is = { refl };

    ghost size_small = { lit≤ tt };

    ghost made_fields = { λ x h. refl };

    ghost fields_made = { λ b h. refl };
}

/// One mapping of REMOVEMAPPING (`struct fuse_removemapping_one`, 16 bytes).
#[derive(Clone, Copy, Debug, Default)]
pub struct RemovemappingOne {
    /// Place in the shared memory in bytes.
    pub moffset: u64,
    /// Length in bytes.
    pub len: u64,
}

impl ByteValued for RemovemappingOne {
    const SIZE: usize = 16;

    ghost SIZE = { 16 };

    ghost table = { removemapping_one };

    fn put(&self, out: &mut [u8]) {
        put_fields(out, &[Eight(self.moffset), Eight(self.len)]);
    }

    fn take(b: &[u8]) -> RemovemappingOne {
        RemovemappingOne {
            moffset: u64_at(b, 0),
            len: u64_at(b, 8),
        }
    }

    ghost size_is = { refl };

    ghost size_small = { lit≤ tt };

    ghost made_fields = { λ x h. refl };

    ghost fields_made = { λ b h. refl };
}
