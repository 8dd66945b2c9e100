//! The header of all security contexts of a request.

ghost use Rattle.std.specs.Prelude.{refl};
ghost use Rattle.std.proofs.Common.{lit≤};
ghost use Rattle.vfs_wire_more.specs.Extensions.{secctx_header};

use vfs_wire::ByteValued;
use vfs_wire::bytes::Field::Four;
use vfs_wire::bytes::{put_fields, u32_at};

/// The header of all security contexts of a request (`struct fuse_secctx_header`, 8 bytes).
#[derive(Clone, Copy, Debug, Default)]
pub struct SecctxHeader {
    /// Length in bytes, this header and all contexts included.
    pub size: u32,
    /// Number of contexts.
    pub nr_secctx: u32,
}

impl ByteValued for SecctxHeader {
    const SIZE: usize = 8;

    ghost SIZE = { 8 };

    ghost table = { secctx_header };

    fn put(&self, out: &mut [u8]) {
        put_fields(out, &[Four(self.size), Four(self.nr_secctx)]);
    }

    fn take(b: &[u8]) -> SecctxHeader {
        SecctxHeader {
            size: u32_at(b, 0),
            nr_secctx: u32_at(b, 4),
        }
    }

    ghost size_is = { refl };

    ghost size_small = { lit≤ tt };

    ghost made_fields = { λ x h. refl };

    ghost fields_made = { λ b h. refl };
}
