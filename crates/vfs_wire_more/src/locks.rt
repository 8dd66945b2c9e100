//! The records of requests on locks and waiting requests.

ghost use Rattle.std.specs.Prelude.{refl};
ghost use Rattle.std.proofs.Common.{lit≤};
ghost use Rattle.vfs_wire_more.specs.Locks.{file_lock, interrupt_in, lk_in, lk_out};

use vfs_wire::ByteValued;
use vfs_wire::bytes::Field::{Eight, Four};
use vfs_wire::bytes::{put_fields, u32_at, u64_at};
use vfs_wire::parts::part_at;

/// A lock on a range of a file (`struct fuse_file_lock`, 24 bytes), a part of the requests and
/// replies on locks.
#[derive(Clone, Copy, Debug, Default)]
pub struct FileLock {
    /// First byte of the range.
    pub start: u64,
    /// Last byte of the range.
    pub end: u64,
    /// Kind of lock, as `l_type`.
    pub type_: u32,
    /// The process that holds it.
    pub pid: u32,
}

impl ByteValued for FileLock {
    const SIZE: usize = 24;

    ghost SIZE = { 24 };

    ghost table = { file_lock };

    fn put(&self, out: &mut [u8]) {
        put_fields(
            out,
            &[
                Eight(self.start),
                Eight(self.end),
                Four(self.type_),
                Four(self.pid),
            ],
        );
    }

    fn take(b: &[u8]) -> FileLock {
        FileLock {
            start: u64_at(b, 0),
            end: u64_at(b, 8),
            type_: u32_at(b, 16),
            pid: u32_at(b, 20),
        }
    }

    ghost size_is = { refl };

    ghost size_small = { lit≤ tt };

    ghost made_fields = { λ x h. refl };

    ghost fields_made = { λ b h. refl };
}

/// The record of GETLK, SETLK and SETLKW (`struct fuse_lk_in`, 48 bytes).
#[derive(Clone, Copy, Debug, Default)]
pub struct LkIn {
    /// Handle of the open file, as the reply to OPEN or CREATE gave it.
    pub fh: u64,
    /// Owner of the caller's locks, a number that the kernel makes up.
    pub owner: u64,
    /// The lock.
    pub lk: FileLock,
    /// Bit 0 (LK_FLOCK): the lock is one of `flock`.
    pub lk_flags: u32,
    /// Not used; a sender writes 0.
    pub padding: u32,
}

impl ByteValued for LkIn {
    const SIZE: usize = 48;

    ghost SIZE = { 48 };

    ghost table = { lk_in };

    fn put(&self, out: &mut [u8]) {
        put_fields(
            out,
            &[
                Eight(self.fh),
                Eight(self.owner),
                Eight(self.lk.start),
                Eight(self.lk.end),
                Four(self.lk.type_),
                Four(self.lk.pid),
                Four(self.lk_flags),
                Four(self.padding),
            ],
        );
    }

    fn take(b: &[u8]) -> LkIn {
        LkIn {
            fh: u64_at(b, 0),
            owner: u64_at(b, 8),
            lk: part_at(b, 16),
            lk_flags: u32_at(b, 40),
            padding: u32_at(b, 44),
        }
    }

    ghost size_is = { refl };

    ghost size_small = { lit≤ tt };

    ghost made_fields = { λ x h. refl };

    ghost fields_made = { λ b h. refl };
}

/// The reply to GETLK (`struct fuse_lk_out`, 24 bytes).
#[derive(Clone, Copy, Debug, Default)]
pub struct LkOut {
    /// The lock that is in the way.
    pub lk: FileLock,
}

impl ByteValued for LkOut {
    const SIZE: usize = 24;

    ghost SIZE = { 24 };

    ghost table = { lk_out };

    fn put(&self, out: &mut [u8]) {
        self.lk.put(out);
    }

    fn take(b: &[u8]) -> LkOut {
        LkOut {
            lk: FileLock::take(b),
        }
    }

    ghost size_is = { refl };

    ghost size_small = { lit≤ tt };

    ghost made_fields = { λ x h. refl };

    ghost fields_made = { λ b h. refl };
}

/// The record of INTERRUPT (`struct fuse_interrupt_in`, 8 bytes).
#[derive(Clone, Copy, Debug, Default)]
pub struct InterruptIn {
    /// Number of the request that is interrupted.
    pub unique: u64,
}

impl ByteValued for InterruptIn {
    const SIZE: usize = 8;

    ghost SIZE = { 8 };

    ghost table = { interrupt_in };

    fn put(&self, out: &mut [u8]) {
        put_fields(out, &[Eight(self.unique)]);
    }

    fn take(b: &[u8]) -> InterruptIn {
        InterruptIn {
            unique: u64_at(b, 0),
        }
    }

    ghost size_is = { refl };

    ghost size_small = { lit≤ tt };

    ghost made_fields = { λ x h. refl };

    ghost fields_made = { λ b h. refl };
}
