//! The records of requests that pass a system call on as it is: BMAP, IOCTL, POLL and STATX.

ghost use Rattle.std.specs.Prelude.{refl, FitsSigned};
ghost use Rattle.std.specs.Int.{w32};
ghost use Rattle.std.proofs.Common.{ap, lit≤};
ghost use Rattle.std.proofs.lemmas.Int.{of_z-to_z, to_z-of_z};
ghost use Rattle.vfs_wire.specs.Fields.{number};
ghost use Rattle.vfs_wire.specs.FieldLaws.{number-lt};
ghost use Rattle.vfs_wire_more.specs.Devices.{bmap_in, bmap_out, ioctl_in, ioctl_iovec, ioctl_out, poll_in, poll_out, statx_in};

use vfs_wire::ByteValued;
use vfs_wire::bytes::Field::{Eight, Four};
use vfs_wire::bytes::{put_fields, u32_at, u64_at};

/// The record of BMAP (`struct fuse_bmap_in`, 16 bytes).
#[derive(Clone, Copy, Debug, Default)]
pub struct BmapIn {
    /// Number of a block of the file.
    pub block: u64,
    /// Size of a block in bytes.
    pub blocksize: u32,
    /// Not used; a sender writes 0.
    pub padding: u32,
}

impl ByteValued for BmapIn {
    const SIZE: usize = 16;

    ghost SIZE = { 16 };

    ghost table = { bmap_in };

    fn put(&self, out: &mut [u8]) {
        put_fields(
            out,
            &[Eight(self.block), Four(self.blocksize), Four(self.padding)],
        );
    }

    fn take(b: &[u8]) -> BmapIn {
        BmapIn {
            block: u64_at(b, 0),
            blocksize: u32_at(b, 8),
            padding: u32_at(b, 12),
        }
    }

    ghost size_is = { refl };

    ghost size_small = { lit≤ tt };

    ghost made_fields = { λ x h. refl };

    ghost fields_made = { λ b h. refl };
}

/// The reply to BMAP (`struct fuse_bmap_out`, 8 bytes).
#[derive(Clone, Copy, Debug, Default)]
pub struct BmapOut {
    /// Number of the device's block that holds it.
    pub block: u64,
}

impl ByteValued for BmapOut {
    const SIZE: usize = 8;

    ghost SIZE = { 8 };

    ghost table = { bmap_out };

    fn put(&self, out: &mut [u8]) {
        put_fields(out, &[Eight(self.block)]);
    }

    fn take(b: &[u8]) -> BmapOut {
        BmapOut {
            block: u64_at(b, 0),
        }
    }

    ghost size_is = { refl };

    ghost size_small = { lit≤ tt };

    ghost made_fields = { λ x h. refl };

    ghost fields_made = { λ b h. refl };
}

/// The record of IOCTL (`struct fuse_ioctl_in`, 32 bytes); the input follows.
#[derive(Clone, Copy, Debug, Default)]
pub struct IoctlIn {
    /// Handle of the open file, as the reply to OPEN or CREATE gave it.
    pub fh: u64,
    /// Bits of `IoctlFlags`.
    pub flags: u32,
    /// The command.
    pub cmd: u32,
    /// The command's argument.
    pub arg: u64,
    /// Length of the input in bytes.
    pub in_size: u32,
    /// Most bytes of output.
    pub out_size: u32,
}

impl ByteValued for IoctlIn {
    const SIZE: usize = 32;

    ghost SIZE = { 32 };

    ghost table = { ioctl_in };

    fn put(&self, out: &mut [u8]) {
        put_fields(
            out,
            &[
                Eight(self.fh),
                Four(self.flags),
                Four(self.cmd),
                Eight(self.arg),
                Four(self.in_size),
                Four(self.out_size),
            ],
        );
    }

    fn take(b: &[u8]) -> IoctlIn {
        IoctlIn {
            fh: u64_at(b, 0),
            flags: u32_at(b, 8),
            cmd: u32_at(b, 12),
            arg: u64_at(b, 16),
            in_size: u32_at(b, 24),
            out_size: u32_at(b, 28),
        }
    }

    ghost size_is = { refl };

    ghost size_small = { lit≤ tt };

    ghost made_fields = { λ x h. refl };

    ghost fields_made = { λ b h. refl };
}

/// A piece of the caller's memory in a reply to IOCTL (`struct fuse_ioctl_iovec`, 16 bytes).
#[derive(Clone, Copy, Debug, Default)]
pub struct IoctlIovec {
    /// Its address.
    pub base: u64,
    /// Its length in bytes.
    pub len: u64,
}

impl ByteValued for IoctlIovec {
    const SIZE: usize = 16;

    ghost SIZE = { 16 };

    ghost table = { ioctl_iovec };

    fn put(&self, out: &mut [u8]) {
        put_fields(out, &[Eight(self.base), Eight(self.len)]);
    }

    fn take(b: &[u8]) -> IoctlIovec {
        IoctlIovec {
            base: u64_at(b, 0),
            len: u64_at(b, 8),
        }
    }

    ghost size_is = { refl };

    ghost size_small = { lit≤ tt };

    ghost made_fields = { λ x h. refl };

    ghost fields_made = { λ b h. refl };
}

/// The reply to IOCTL (`struct fuse_ioctl_out`, 16 bytes); the output follows, or the pieces that a
/// retry needs.
#[derive(Clone, Copy, Debug, Default)]
pub struct IoctlOut {
    /// What the command answered.
    pub result: i32,
    /// Bits of `IoctlFlags`.
    pub flags: u32,
    /// Number of pieces of input that a retry needs.
    pub in_iovs: u32,
    /// Number of pieces of output that a retry needs.
    pub out_iovs: u32,
}

impl ByteValued for IoctlOut {
    const SIZE: usize = 16;

    ghost SIZE = { 16 };

    ghost table = { ioctl_out };

    ghost in_range = { λ r. FitsSigned w32 r.result };

    fn put(&self, out: &mut [u8]) {
        put_fields(
            out,
            &[
                Four(self.result.cast_unsigned()),
                Four(self.flags),
                Four(self.in_iovs),
                Four(self.out_iovs),
            ],
        );
    }

    fn take(b: &[u8]) -> IoctlOut {
        IoctlOut {
            result: u32_at(b, 0).cast_signed(),
            flags: u32_at(b, 4),
            in_iovs: u32_at(b, 8),
            out_iovs: u32_at(b, 12),
        }
    }

    ghost size_is = { refl };

    ghost size_small = { lit≤ tt };

    ghost made_fields = { λ x h. ap (λ z. record x { result = z }) (to_z-of_z w32 x.result h) };

    ghost fields_made = { λ b h. Prim.rw (of_z-to_z w32 (number 4 b) (number-lt 4 b h)) refl };
}

/// The record of POLL (`struct fuse_poll_in`, 24 bytes).
#[derive(Clone, Copy, Debug, Default)]
pub struct PollIn {
    /// Handle of the open file, as the reply to OPEN or CREATE gave it.
    pub fh: u64,
    /// Number by which a notification wakes the caller.
    pub kh: u64,
    /// Bit 0 (POLL_SCHEDULE_NOTIFY): a notification is wanted.
    pub flags: u32,
    /// The events that are waited for, as for `poll`.
    pub events: u32,
}

impl ByteValued for PollIn {
    const SIZE: usize = 24;

    ghost SIZE = { 24 };

    ghost table = { poll_in };

    fn put(&self, out: &mut [u8]) {
        put_fields(
            out,
            &[
                Eight(self.fh),
                Eight(self.kh),
                Four(self.flags),
                Four(self.events),
            ],
        );
    }

    fn take(b: &[u8]) -> PollIn {
        PollIn {
            fh: u64_at(b, 0),
            kh: u64_at(b, 8),
            flags: u32_at(b, 16),
            events: u32_at(b, 20),
        }
    }

    ghost size_is = { refl };

    ghost size_small = { lit≤ tt };

    ghost made_fields = { λ x h. refl };

    ghost fields_made = { λ b h. refl };
}

/// The reply to POLL (`struct fuse_poll_out`, 8 bytes).
#[derive(Clone, Copy, Debug, Default)]
pub struct PollOut {
    /// The events that there are.
    pub revents: u32,
    /// Not used; a sender writes 0.
    pub padding: u32,
}

impl ByteValued for PollOut {
    const SIZE: usize = 8;

    ghost SIZE = { 8 };

    ghost table = { poll_out };

    fn put(&self, out: &mut [u8]) {
        put_fields(out, &[Four(self.revents), Four(self.padding)]);
    }

    fn take(b: &[u8]) -> PollOut {
        PollOut {
            revents: u32_at(b, 0),
            padding: u32_at(b, 4),
        }
    }

    ghost size_is = { refl };

    ghost size_small = { lit≤ tt };

    ghost made_fields = { λ x h. refl };

    ghost fields_made = { λ b h. refl };
}

/// The record of STATX (`struct fuse_statx_in`, 24 bytes).
#[derive(Clone, Copy, Debug, Default)]
pub struct StatxIn {
    /// Bit 0 (`GETATTR_FH`): `fh` is an open file.
    pub getattr_flags: u32,
    /// Not used; a sender writes 0.
    pub reserved: u32,
    /// Handle of the open file, as the reply to OPEN or CREATE gave it.
    pub fh: u64,
    /// Flags of `statx`.
    pub sx_flags: u32,
    /// What is asked for, as the mask of `statx`.
    pub sx_mask: u32,
}

impl ByteValued for StatxIn {
    const SIZE: usize = 24;

    ghost SIZE = { 24 };

    ghost table = { statx_in };

    fn put(&self, out: &mut [u8]) {
        put_fields(
            out,
            &[
                Four(self.getattr_flags),
                Four(self.reserved),
                Eight(self.fh),
                Four(self.sx_flags),
                Four(self.sx_mask),
            ],
        );
    }

    fn take(b: &[u8]) -> StatxIn {
        StatxIn {
            getattr_flags: u32_at(b, 0),
            reserved: u32_at(b, 4),
            fh: u64_at(b, 8),
            sx_flags: u32_at(b, 16),
            sx_mask: u32_at(b, 20),
        }
    }

    ghost size_is = { refl };

    ghost size_small = { lit≤ tt };

    ghost made_fields = { λ x h. refl };

    ghost fields_made = { λ b h. refl };
}
