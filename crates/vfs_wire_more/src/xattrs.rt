//! The records of requests on extended attributes.

ghost use Rattle.std.specs.Prelude.{refl};
ghost use Rattle.std.proofs.Common.{lit≤};
ghost use Rattle.vfs_wire_more.specs.Records.{getxattr_in, getxattr_out, setxattr_in, setxattr_in_compat};

use vfs_wire::ByteValued;
use vfs_wire::bytes::Field::Four;
use vfs_wire::bytes::{put_fields, u32_at};

/// The record of SETXATTR where SETXATTR_EXT is agreed (`struct fuse_setxattr_in`, 16 bytes); the
/// name and the value follow.
#[derive(Clone, Copy, Debug, Default)]
pub struct SetxattrIn {
    /// Length of the value in bytes.
    pub size: u32,
    /// Flags of `setxattr`: 1 creates, 2 replaces.
    pub flags: u32,
    /// Bits of `SetxattrFlags`.
    pub setxattr_flags: u32,
    /// Not used; a sender writes 0.
    pub padding: u32,
}

impl ByteValued for SetxattrIn {
    const SIZE: usize = 16;

    ghost SIZE = { 16 };

    ghost table = { setxattr_in };

    fn put(&self, out: &mut [u8]) {
        put_fields(
            out,
            &[
                Four(self.size),
                Four(self.flags),
                Four(self.setxattr_flags),
                Four(self.padding),
            ],
        );
    }

    fn take(b: &[u8]) -> SetxattrIn {
        SetxattrIn {
            size: u32_at(b, 0),
            flags: u32_at(b, 4),
            setxattr_flags: u32_at(b, 8),
            padding: u32_at(b, 12),
        }
    }

    ghost size_is = { refl };

    ghost size_small = { lit≤ tt };

    ghost made_fields = { λ x h. refl };

    ghost fields_made = { λ b h. refl };
}

/// The record of SETXATTR where SETXATTR_EXT is not agreed (the beginning of `struct
/// fuse_setxattr_in`, 8 bytes); the name and the value follow.
#[derive(Clone, Copy, Debug, Default)]
pub struct SetxattrInCompat {
    /// Length of the value in bytes.
    pub size: u32,
    /// Flags of `setxattr`: 1 creates, 2 replaces.
    pub flags: u32,
}

impl ByteValued for SetxattrInCompat {
    const SIZE: usize = 8;

    ghost SIZE = { 8 };

    ghost table = { setxattr_in_compat };

    fn put(&self, out: &mut [u8]) {
        put_fields(out, &[Four(self.size), Four(self.flags)]);
    }

    fn take(b: &[u8]) -> SetxattrInCompat {
        SetxattrInCompat {
            size: u32_at(b, 0),
            flags: u32_at(b, 4),
        }
    }

    ghost size_is = { refl };

    ghost size_small = { lit≤ tt };

    ghost made_fields = { λ x h. refl };

    ghost fields_made = { λ b h. refl };
}

/// The record of GETXATTR and LISTXATTR (`struct fuse_getxattr_in`, 8 bytes); for GETXATTR the name
/// follows.
#[derive(Clone, Copy, Debug, Default)]
pub struct GetxattrIn {
    /// Most bytes to answer; 0 asks for the length alone.
    pub size: u32,
    /// Not used; a sender writes 0.
    pub padding: u32,
}

impl ByteValued for GetxattrIn {
    const SIZE: usize = 8;

    ghost SIZE = { 8 };

    ghost table = { getxattr_in };

    fn put(&self, out: &mut [u8]) {
        put_fields(out, &[Four(self.size), Four(self.padding)]);
    }

    fn take(b: &[u8]) -> GetxattrIn {
        GetxattrIn {
            size: u32_at(b, 0),
            padding: u32_at(b, 4),
        }
    }

    ghost size_is = { refl };

    ghost size_small = { lit≤ tt };

    ghost made_fields = { λ x h. refl };

    ghost fields_made = { λ b h. refl };
}

/// The reply to GETXATTR and LISTXATTR that were asked for a length (`struct fuse_getxattr_out`, 8
/// bytes).
#[derive(Clone, Copy, Debug, Default)]
pub struct GetxattrOut {
    /// Length of the value, or of the list of names, in bytes.
    pub size: u32,
    /// Not used; a sender writes 0.
    pub padding: u32,
}

impl ByteValued for GetxattrOut {
    const SIZE: usize = 8;

    ghost SIZE = { 8 };

    ghost table = { getxattr_out };

    fn put(&self, out: &mut [u8]) {
        put_fields(out, &[Four(self.size), Four(self.padding)]);
    }

    fn take(b: &[u8]) -> GetxattrOut {
        GetxattrOut {
            size: u32_at(b, 0),
            padding: u32_at(b, 4),
        }
    }

    ghost size_is = { refl };

    ghost size_small = { lit≤ tt };

    ghost made_fields = { λ x h. refl };

    ghost fields_made = { λ b h. refl };
}
