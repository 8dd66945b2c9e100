//! The records of what follows the names of requests that create a file.

ghost use Rattle.std.specs.Prelude.{refl};
ghost use Rattle.std.proofs.Common.{lit≤};
ghost use Rattle.vfs_wire.specs.Records.{ext_header, secctx, supp_groups};

use crate::ByteValued;
use crate::bytes::Field::Four;
use crate::bytes::{put_fields, u32_at};

/// The header of each extension of a request (`struct fuse_ext_header`, 8 bytes). A block of
/// security contexts begins likewise (`struct fuse_secctx_header`).
#[derive(Clone, Copy, Debug, Default)]
pub struct ExtHeader {
    /// Length of the extension in bytes, this header included.
    pub size: u32,
    /// Kind of the extension (`ExtType`): 0 to 31 is that many security contexts, 32 is groups.
    pub ext_type: u32,
}

impl ByteValued for ExtHeader {
    const SIZE: usize = 8;

    ghost SIZE = { 8 };

    ghost table = { ext_header };

    fn put(&self, out: &mut [u8]) {
        put_fields(out, &[Four(self.size), Four(self.ext_type)]);
    }

    fn take(b: &[u8]) -> ExtHeader {
        ExtHeader {
            size: u32_at(b, 0),
            ext_type: u32_at(b, 4),
        }
    }

    ghost size_is = { refl };

    ghost size_small = { lit≤ tt };

    ghost made_fields = { λ x h. refl };

    ghost fields_made = { λ b h. refl };
}

/// The header of a security context (`struct fuse_secctx`, 8 bytes); its name, which ends with a 0,
/// and the context follow.
#[derive(Clone, Copy, Debug, Default)]
pub struct Secctx {
    /// Length of the context in bytes, its name not counted.
    pub size: u32,
    /// Not used; a sender writes 0.
    pub padding: u32,
}

impl ByteValued for Secctx {
    const SIZE: usize = 8;

    ghost SIZE = { 8 };

    ghost table = { secctx };

    fn put(&self, out: &mut [u8]) {
        put_fields(out, &[Four(self.size), Four(self.padding)]);
    }

    fn take(b: &[u8]) -> Secctx {
        Secctx {
            size: u32_at(b, 0),
            padding: u32_at(b, 4),
        }
    }

    ghost size_is = { refl };

    ghost size_small = { lit≤ tt };

    ghost made_fields = { λ x h. refl };

    ghost fields_made = { λ b h. refl };
}

/// The beginning of the extension of groups (`struct fuse_supp_groups`, 4 bytes); the groups
/// follow, 4 bytes each.
#[derive(Clone, Copy, Debug, Default)]
pub struct SuppGroups {
    /// Number of groups.
    pub nr_groups: u32,
}

impl ByteValued for SuppGroups {
    const SIZE: usize = 4;

    ghost SIZE = { 4 };

    ghost table = { supp_groups };

    fn put(&self, out: &mut [u8]) {
        put_fields(out, &[Four(self.nr_groups)]);
    }

    fn take(b: &[u8]) -> SuppGroups {
        SuppGroups {
            nr_groups: u32_at(b, 0),
        }
    }

    ghost size_is = { refl };

    ghost size_small = { lit≤ tt };

    ghost made_fields = { λ x h. refl };

    ghost fields_made = { λ b h. refl };
}
