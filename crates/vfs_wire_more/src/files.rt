//! The records of requests on open files and directories.

ghost use Rattle.std.specs.Prelude.{refl};
ghost use Rattle.std.proofs.Common.{lit≤};
ghost use Rattle.vfs_wire_more.specs.Records.{flush_in, fsync_in, open_in, open_out, read_in, release_in, write_in, write_out};

use vfs_wire::ByteValued;
use vfs_wire::bytes::Field::{Eight, Four};
use vfs_wire::bytes::{put_fields, u32_at, u64_at};

/// The record of OPEN and OPENDIR (`struct fuse_open_in`, 8 bytes).
#[derive(Clone, Copy, Debug, Default)]
pub struct OpenIn {
    /// Flags of `open`.
    pub flags: u32,
    /// Bit 0 (OPEN_KILL_SUIDGID): the set-user and set-group bits are to be cleared.
    pub open_flags: u32,
}

impl ByteValued for OpenIn {
    const SIZE: usize = 8;

    ghost SIZE = { 8 };

    ghost table = { open_in };

    fn put(&self, out: &mut [u8]) {
        put_fields(out, &[Four(self.flags), Four(self.open_flags)]);
    }

    fn take(b: &[u8]) -> OpenIn {
        OpenIn {
            flags: u32_at(b, 0),
            open_flags: u32_at(b, 4),
        }
    }

    ghost size_is = { refl };

    ghost size_small = { lit≤ tt };

    ghost made_fields = { λ x h. refl };

    ghost fields_made = { λ b h. refl };
}

/// The reply to OPEN and OPENDIR, and the second part of that to CREATE (`struct fuse_open_out`, 16
/// bytes).
#[derive(Clone, Copy, Debug, Default)]
pub struct OpenOut {
    /// Handle of the open file, 0 where it has none.
    pub fh: u64,
    /// How the kernel is to treat the file, bits of `OpenOptions`.
    pub open_flags: u32,
    /// Not used; a sender writes 0.
    pub padding: u32,
}

impl ByteValued for OpenOut {
    const SIZE: usize = 16;

    ghost SIZE = { 16 };

    ghost table = { open_out };

    fn put(&self, out: &mut [u8]) {
        put_fields(
            out,
            &[Eight(self.fh), Four(self.open_flags), Four(self.padding)],
        );
    }

    fn take(b: &[u8]) -> OpenOut {
        OpenOut {
            fh: u64_at(b, 0),
            open_flags: u32_at(b, 8),
            padding: u32_at(b, 12),
        }
    }

    ghost size_is = { refl };

    ghost size_small = { lit≤ tt };

    ghost made_fields = { λ x h. refl };

    ghost fields_made = { λ b h. refl };
}

/// The record of RELEASE and RELEASEDIR (`struct fuse_release_in`, 24 bytes).
#[derive(Clone, Copy, Debug, Default)]
pub struct ReleaseIn {
    /// Handle of the open file, as the reply to OPEN or CREATE gave it.
    pub fh: u64,
    /// Flags of `open`.
    pub flags: u32,
    /// Bit 0 (RELEASE_FLUSH): flush the file; bit 1 (RELEASE_FLOCK_UNLOCK): give up its `flock`
    /// lock.
    pub release_flags: u32,
    /// Owner of the caller's locks, a number that the kernel makes up.
    pub lock_owner: u64,
}

impl ByteValued for ReleaseIn {
    const SIZE: usize = 24;

    ghost SIZE = { 24 };

    ghost table = { release_in };

    fn put(&self, out: &mut [u8]) {
        put_fields(
            out,
            &[
                Eight(self.fh),
                Four(self.flags),
                Four(self.release_flags),
                Eight(self.lock_owner),
            ],
        );
    }

    fn take(b: &[u8]) -> ReleaseIn {
        ReleaseIn {
            fh: u64_at(b, 0),
            flags: u32_at(b, 8),
            release_flags: u32_at(b, 12),
            lock_owner: u64_at(b, 16),
        }
    }

    ghost size_is = { refl };

    ghost size_small = { lit≤ tt };

    ghost made_fields = { λ x h. refl };

    ghost fields_made = { λ b h. refl };
}

/// The record of FLUSH (`struct fuse_flush_in`, 24 bytes).
#[derive(Clone, Copy, Debug, Default)]
pub struct FlushIn {
    /// Handle of the open file, as the reply to OPEN or CREATE gave it.
    pub fh: u64,
    /// Not used; a sender writes 0.
    pub unused: u32,
    /// Not used; a sender writes 0.
    pub padding: u32,
    /// Owner of the caller's locks, a number that the kernel makes up.
    pub lock_owner: u64,
}

impl ByteValued for FlushIn {
    const SIZE: usize = 24;

    ghost SIZE = { 24 };

    ghost table = { flush_in };

    fn put(&self, out: &mut [u8]) {
        put_fields(
            out,
            &[
                Eight(self.fh),
                Four(self.unused),
                Four(self.padding),
                Eight(self.lock_owner),
            ],
        );
    }

    fn take(b: &[u8]) -> FlushIn {
        FlushIn {
            fh: u64_at(b, 0),
            unused: u32_at(b, 8),
            padding: u32_at(b, 12),
            lock_owner: u64_at(b, 16),
        }
    }

    ghost size_is = { refl };

    ghost size_small = { lit≤ tt };

    ghost made_fields = { λ x h. refl };

    ghost fields_made = { λ b h. refl };
}

/// The record of READ, READDIR and READDIRPLUS (`struct fuse_read_in`, 40 bytes).
#[derive(Clone, Copy, Debug, Default)]
pub struct ReadIn {
    /// Handle of the open file, as the reply to OPEN or CREATE gave it.
    pub fh: u64,
    /// Place in the file in bytes; in a directory the offset of the item that was read last, 0 at
    /// the start.
    pub offset: u64,
    /// Most bytes to answer.
    pub size: u32,
    /// Bit 1 (READ_LOCKOWNER): `lock_owner` is set.
    pub read_flags: u32,
    /// Owner of the caller's locks, a number that the kernel makes up.
    pub lock_owner: u64,
    /// Flags of `open`.
    pub flags: u32,
    /// Not used; a sender writes 0.
    pub padding: u32,
}

impl ByteValued for ReadIn {
    const SIZE: usize = 40;

    ghost SIZE = { 40 };

    ghost table = { read_in };

    fn put(&self, out: &mut [u8]) {
        put_fields(
            out,
            &[
                Eight(self.fh),
                Eight(self.offset),
                Four(self.size),
                Four(self.read_flags),
                Eight(self.lock_owner),
                Four(self.flags),
                Four(self.padding),
            ],
        );
    }

    fn take(b: &[u8]) -> ReadIn {
        ReadIn {
            fh: u64_at(b, 0),
            offset: u64_at(b, 8),
            size: u32_at(b, 16),
            read_flags: u32_at(b, 20),
            lock_owner: u64_at(b, 24),
            flags: u32_at(b, 32),
            padding: u32_at(b, 36),
        }
    }

    ghost size_is = { refl };

    ghost size_small = { lit≤ tt };

    ghost made_fields = { λ x h. refl };

    ghost fields_made = { λ b h. refl };
}

/// The record of WRITE (`struct fuse_write_in`, 40 bytes); the data follows.
#[derive(Clone, Copy, Debug, Default)]
pub struct WriteIn {
    /// Handle of the open file, as the reply to OPEN or CREATE gave it.
    pub fh: u64,
    /// Place in the file in bytes.
    pub offset: u64,
    /// Number of bytes to write.
    pub size: u32,
    /// Bit 0 (WRITE_CACHE): delayed from the page cache; bit 1 (WRITE_LOCKOWNER): `lock_owner` is
    /// set; bit 2 (WRITE_KILL_PRIV): the set-user and set-group bits are to be cleared.
    pub write_flags: u32,
    /// Owner of the caller's locks, a number that the kernel makes up.
    pub lock_owner: u64,
    /// Flags of `open`.
    pub flags: u32,
    /// Not used; a sender writes 0.
    pub padding: u32,
}

impl ByteValued for WriteIn {
    const SIZE: usize = 40;

    ghost SIZE = { 40 };

    ghost table = { write_in };

    fn put(&self, out: &mut [u8]) {
        put_fields(
            out,
            &[
                Eight(self.fh),
                Eight(self.offset),
                Four(self.size),
                Four(self.write_flags),
                Eight(self.lock_owner),
                Four(self.flags),
                Four(self.padding),
            ],
        );
    }

    fn take(b: &[u8]) -> WriteIn {
        WriteIn {
            fh: u64_at(b, 0),
            offset: u64_at(b, 8),
            size: u32_at(b, 16),
            write_flags: u32_at(b, 20),
            lock_owner: u64_at(b, 24),
            flags: u32_at(b, 32),
            padding: u32_at(b, 36),
        }
    }

    ghost size_is = { refl };

    ghost size_small = { lit≤ tt };

    ghost made_fields = { λ x h. refl };

    ghost fields_made = { λ b h. refl };
}

/// The reply to WRITE and COPY_FILE_RANGE (`struct fuse_write_out`, 8 bytes).
#[derive(Clone, Copy, Debug, Default)]
pub struct WriteOut {
    /// Number of bytes written.
    pub size: u32,
    /// Not used; a sender writes 0.
    pub padding: u32,
}

impl ByteValued for WriteOut {
    const SIZE: usize = 8;

    ghost SIZE = { 8 };

    ghost table = { write_out };

    fn put(&self, out: &mut [u8]) {
        put_fields(out, &[Four(self.size), Four(self.padding)]);
    }

    fn take(b: &[u8]) -> WriteOut {
        WriteOut {
            size: u32_at(b, 0),
            padding: u32_at(b, 4),
        }
    }

    ghost size_is = { refl };

    ghost size_small = { lit≤ tt };

    ghost made_fields = { λ x h. refl };

    ghost fields_made = { λ b h. refl };
}

/// The record of FSYNC and FSYNCDIR (`struct fuse_fsync_in`, 16 bytes).
#[derive(Clone, Copy, Debug, Default)]
pub struct FsyncIn {
    /// Handle of the open file, as the reply to OPEN or CREATE gave it.
    pub fh: u64,
    /// Bit 0 (FSYNC_FDATASYNC): the data alone.
    pub fsync_flags: u32,
    /// Not used; a sender writes 0.
    pub padding: u32,
}

impl ByteValued for FsyncIn {
    const SIZE: usize = 16;

    ghost SIZE = { 16 };

    ghost table = { fsync_in };

    fn put(&self, out: &mut [u8]) {
        put_fields(
            out,
            &[Eight(self.fh), Four(self.fsync_flags), Four(self.padding)],
        );
    }

    fn take(b: &[u8]) -> FsyncIn {
        FsyncIn {
            fh: u64_at(b, 0),
            fsync_flags: u32_at(b, 8),
            padding: u32_at(b, 12),
        }
    }

    ghost size_is = { refl };

    ghost size_small = { lit≤ tt };

    ghost made_fields = { λ x h. refl };

    ghost fields_made = { λ b h. refl };
}
