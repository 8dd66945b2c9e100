//! The headers of requests and replies.

ghost use Rattle.std.specs.Prelude.{◌≡◌, drop, refl, FitsSigned};
ghost use Rattle.std.specs.Int.{w32};
ghost use Rattle.std.proofs.Common.{ap, lit≤};
ghost use Rattle.std.proofs.lemmas.Int.{of_z-to_z, to_z-of_z};
ghost use Rattle.vfs_wire.specs.Fields.{number};
ghost use Rattle.vfs_wire.specs.FieldLaws.{AreBytes-drop, number-lt};
ghost use Rattle.vfs_wire.specs.Records.{in_header, request_header, out_header};

use crate::ByteValued;
use crate::bytes::Field::{Eight, Four, Two};
use crate::bytes::{put_fields, u16_at, u32_at, u64_at};
use vfs_flags::{GuestGid, GuestUid, Opcode};

/// The header that each request begins with (`struct fuse_in_header`, 40 bytes).
#[derive(Clone, Copy, Debug, Default)]
pub struct InHeader {
    /// Length of the whole request in bytes, this header included.
    pub len: u32,
    /// The request's kind, a number of `Opcode`.
    pub opcode: u32,
    /// Number of the request, which its reply repeats.
    pub unique: u64,
    /// The node that the request is about; 1 is the root.
    pub nodeid: u64,
    /// User of the calling process.
    pub uid: GuestUid,
    /// Group of the calling process.
    pub gid: GuestGid,
    /// The calling process, 0 where there is none.
    pub pid: u32,
    /// Length of the extensions at the request's end, in units of 8 bytes.
    pub total_extlen: u16,
    /// Not used; a sender writes 0.
    pub padding: u16,
}

impl InHeader {
    /// The header of a request of `len` bytes in all, by the user and the group 0 and no process, and
    /// without extensions.
    pub fn new(len: u32, opcode: Opcode, unique: u64, nodeid: u64) -> InHeader
        ensures { result ≡ request_header len opcode unique nodeid }
    {
        InHeader {
            len,
            opcode: opcode as u32,
            unique,
            nodeid,
            ..InHeader::default()
        }
    }
}

impl ByteValued for InHeader {
    const SIZE: usize = 40;

    ghost SIZE = { 40 };

    ghost table = { in_header };

    fn put(&self, out: &mut [u8]) {
        put_fields(
            out,
            &[
                Four(self.len),
                Four(self.opcode),
                Eight(self.unique),
                Eight(self.nodeid),
                Four(self.uid.into_inner()),
                Four(self.gid.into_inner()),
                Four(self.pid),
                Two(self.total_extlen),
                Two(self.padding),
            ],
        );
    }

    fn take(b: &[u8]) -> InHeader {
        InHeader {
            len: u32_at(b, 0),
            opcode: u32_at(b, 4),
            unique: u64_at(b, 8),
            nodeid: u64_at(b, 16),
            uid: GuestUid::from(u32_at(b, 24)),
            gid: GuestGid::from(u32_at(b, 28)),
            pid: u32_at(b, 32),
            total_extlen: u16_at(b, 36),
            padding: u16_at(b, 38),
        }
    }

    ghost size_is = { refl };

    ghost size_small = { lit≤ tt };

    ghost made_fields = { λ x h. refl };

    ghost fields_made = { λ b h. refl };
}

/// The header that each reply begins with (`struct fuse_out_header`, 16 bytes).
#[derive(Clone, Copy, Debug, Default)]
pub struct OutHeader {
    /// Length of the whole reply in bytes, this header included.
    pub len: u32,
    /// 0, or the negated error number of a refusal.
    pub error: i32,
    /// Number of the request that this answers.
    pub unique: u64,
}

impl ByteValued for OutHeader {
    const SIZE: usize = 16;

    ghost SIZE = { 16 };

    ghost table = { out_header };

    ghost in_range = { λ r. FitsSigned w32 r.error };

    fn put(&self, out: &mut [u8]) {
        put_fields(
            out,
            &[
                Four(self.len),
                Four(self.error.cast_unsigned()),
                Eight(self.unique),
            ],
        );
    }

    fn take(b: &[u8]) -> OutHeader {
        OutHeader {
            len: u32_at(b, 0),
            error: u32_at(b, 4).cast_signed(),
            unique: u64_at(b, 8),
        }
    }

    ghost size_is = { refl };

    ghost size_small = { lit≤ tt };

    ghost made_fields = { λ x h. ap (λ z. record x { error = z }) (to_z-of_z w32 x.error h) };

    ghost fields_made = { λ b h. Prim.rw (of_z-to_z w32 (number 4 (drop 4 b))
        (number-lt 4 (drop 4 b) (AreBytes-drop 4 b h))) refl };
}
