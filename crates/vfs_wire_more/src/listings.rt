//! The record of a file system as a whole that holds another.

ghost use Rattle.std.specs.Prelude.{◌≡◌, length, refl};
ghost use Rattle.std.proofs.Common.{ap, lit≤};
ghost use Rattle.vfs_wire.specs.FieldLaws.{cells-is};
ghost use Rattle.vfs_wire_more.specs.Listings.{statfs_out};

use vfs_wire::{ByteValued, Kstatfs};

/// The reply to STATFS as a record of its own (`struct fuse_statfs_out`, 80 bytes).
#[derive(Clone, Copy, Debug, Default)]
pub struct StatfsOut {
    /// What is answered of the file system.
    pub st: Kstatfs,
}

impl ByteValued for StatfsOut {
    const SIZE: usize = 80;

    ghost SIZE = { 80 };

    ghost table = { statfs_out };

    ghost in_range = { λ r. length r.st.spare ≡ 6 };

    fn put(&self, out: &mut [u8]) {
        self.st.put(out);
    }

    fn take(b: &[u8]) -> StatfsOut {
        StatfsOut {
            st: Kstatfs::take(b),
        }
    }

    ghost size_is = { refl };

    ghost size_small = { lit≤ tt };

    ghost made_fields = { λ x h.
        ap (λ u. record x { st = record x.st { spare = u } }) (cells-is 6 x.st.spare h) };

    ghost fields_made = { λ b h. refl };
}
