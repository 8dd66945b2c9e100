//! The records of INIT, by which both sides agree on a version and on options.

ghost use Rattle.std.specs.Prelude.{◌≡◌, length, refl};
ghost use Rattle.std.proofs.Common.{ap, lit≤};
ghost use Rattle.vfs_wire.specs.FieldLaws.{cells-is};
ghost use Rattle.vfs_wire.specs.Records.{init_in_compat, init_in_ext, init_out};

use crate::ByteValued;
use crate::bytes::Field::{Four, Two};
use crate::bytes::{put_fields, put_from, put_front, u16_at, u32_at};

/// The first part of an INIT request (the beginning of `struct fuse_init_in`, 16 bytes).
#[derive(Clone, Copy, Debug, Default)]
pub struct InitInCompat {
    /// Major version of the protocol that the kernel speaks.
    pub major: u32,
    /// Minor version of it.
    pub minor: u32,
    /// Most bytes that the kernel reads ahead.
    pub max_readahead: u32,
    /// Bits 0 to 31 of the options that the kernel offers.
    pub flags: u32,
}

impl ByteValued for InitInCompat {
    const SIZE: usize = 16;

    ghost SIZE = { 16 };

    ghost table = { init_in_compat };

    fn put(&self, out: &mut [u8]) {
        put_fields(
            out,
            &[
                Four(self.major),
                Four(self.minor),
                Four(self.max_readahead),
                Four(self.flags),
            ],
        );
    }

    fn take(b: &[u8]) -> InitInCompat {
        InitInCompat {
            major: u32_at(b, 0),
            minor: u32_at(b, 4),
            max_readahead: u32_at(b, 8),
            flags: u32_at(b, 12),
        }
    }

    ghost size_is = { refl };

    ghost size_small = { lit≤ tt };

    ghost made_fields = { λ x h. refl };

    ghost fields_made = { λ b h. refl };
}

/// The second part of an INIT request (the rest of `struct fuse_init_in`, 48 bytes); it follows
/// where bit 30 (INIT_EXT) of the first part's `flags` is set.
#[derive(Clone, Copy, Debug, Default)]
pub struct InitInExt {
    /// Bits 32 to 63 of the options that the kernel offers.
    pub flags2: u32,
    /// Not used; a sender writes 0.
    pub unused: [u32; 11],
}

impl ByteValued for InitInExt {
    const SIZE: usize = 48;

    ghost SIZE = { 48 };

    ghost table = { init_in_ext };

    ghost in_range = { λ r. length r.unused ≡ 11 };

    fn put(&self, out: &mut [u8]) {
        put_fields(
            out,
            &[
                Four(self.flags2),
                Four(self.unused[0]),
                Four(self.unused[1]),
                Four(self.unused[2]),
                Four(self.unused[3]),
                Four(self.unused[4]),
                Four(self.unused[5]),
                Four(self.unused[6]),
                Four(self.unused[7]),
                Four(self.unused[8]),
                Four(self.unused[9]),
                Four(self.unused[10]),
            ],
        );
    }

    fn take(b: &[u8]) -> InitInExt {
        InitInExt {
            flags2: u32_at(b, 0),
            unused: [
                u32_at(b, 4),
                u32_at(b, 8),
                u32_at(b, 12),
                u32_at(b, 16),
                u32_at(b, 20),
                u32_at(b, 24),
                u32_at(b, 28),
                u32_at(b, 32),
                u32_at(b, 36),
                u32_at(b, 40),
                u32_at(b, 44),
            ],
        }
    }

    ghost size_is = { refl };

    ghost size_small = { lit≤ tt };

    ghost made_fields = { λ x h. ap (λ u. record x { unused = u }) (cells-is 11 x.unused h) };

    ghost fields_made = { λ b h. refl };
}

/// The reply to INIT (`struct fuse_init_out`, 64 bytes).
#[derive(Clone, Copy, Debug, Default)]
pub struct InitOut {
    /// Major version of the protocol that the server speaks.
    pub major: u32,
    /// Minor version of it.
    pub minor: u32,
    /// Most bytes that the kernel may read ahead.
    pub max_readahead: u32,
    /// Bits 0 to 31 of the options that are agreed.
    pub flags: u32,
    /// Most requests that the kernel leaves waiting in the background.
    pub max_background: u16,
    /// Number of such requests from which on the kernel holds back.
    pub congestion_threshold: u16,
    /// Most bytes of data in one WRITE.
    pub max_write: u32,
    /// Unit of the file system's times in nanoseconds.
    pub time_gran: u32,
    /// Most pages of data in one request.
    pub max_pages: u16,
    /// Alignment of file ranges that are mapped, as a power of 2.
    pub map_alignment: u16,
    /// Bits 32 to 63 of the options that are agreed.
    pub flags2: u32,
    /// Not used; a sender writes 0.
    pub unused: [u32; 7],
}

impl ByteValued for InitOut {
    const SIZE: usize = 64;

    ghost SIZE = { 64 };

    ghost table = { init_out };

    ghost in_range = { λ r. length r.unused ≡ 7 };

    fn put(&self, out: &mut [u8]) {
        put_from(
            out,
            36,
            &[
                Four(self.unused[0]),
                Four(self.unused[1]),
                Four(self.unused[2]),
                Four(self.unused[3]),
                Four(self.unused[4]),
                Four(self.unused[5]),
                Four(self.unused[6]),
            ],
        );
        put_front(
            out,
            36,
            &[
                Four(self.major),
                Four(self.minor),
                Four(self.max_readahead),
                Four(self.flags),
                Two(self.max_background),
                Two(self.congestion_threshold),
                Four(self.max_write),
                Four(self.time_gran),
                Two(self.max_pages),
                Two(self.map_alignment),
                Four(self.flags2),
            ],
        );
    }

    fn take(b: &[u8]) -> InitOut {
        InitOut {
            major: u32_at(b, 0),
            minor: u32_at(b, 4),
            max_readahead: u32_at(b, 8),
            flags: u32_at(b, 12),
            max_background: u16_at(b, 16),
            congestion_threshold: u16_at(b, 18),
            max_write: u32_at(b, 20),
            time_gran: u32_at(b, 24),
            max_pages: u16_at(b, 28),
            map_alignment: u16_at(b, 30),
            flags2: u32_at(b, 32),
            unused: [
                u32_at(b, 36),
                u32_at(b, 40),
                u32_at(b, 44),
                u32_at(b, 48),
                u32_at(b, 52),
                u32_at(b, 56),
                u32_at(b, 60),
            ],
        }
    }

    ghost size_is = { refl };

    ghost size_small = { lit≤ tt };

    ghost made_fields = { λ x h. ap (λ u. record x { unused = u }) (cells-is 7 x.unused h) };

    ghost fields_made = { λ b h. refl };
}
