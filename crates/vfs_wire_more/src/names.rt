//! The records of requests that make, move, link or ask for a name in a directory.

ghost use Rattle.std.specs.Prelude.{refl};
ghost use Rattle.std.proofs.Common.{lit≤};
ghost use Rattle.vfs_wire_more.specs.Records.{access_in, create_in, link_in, mkdir_in, mknod_in, rename2_in, rename_in};

use vfs_wire::ByteValued;
use vfs_wire::bytes::Field::{Eight, Four};
use vfs_wire::bytes::{put_fields, u32_at, u64_at};

/// The record of MKNOD (`struct fuse_mknod_in`, 16 bytes); the name follows.
#[derive(Clone, Copy, Debug, Default)]
pub struct MknodIn {
    /// Kind of file and permission bits, as in `st_mode`.
    pub mode: u32,
    /// Device number, for a device file.
    pub rdev: u32,
    /// The caller's mask of permission bits.
    pub umask: u32,
    /// Not used; a sender writes 0.
    pub padding: u32,
}

impl ByteValued for MknodIn {
    const SIZE: usize = 16;

    ghost SIZE = { 16 };

    ghost table = { mknod_in };

    fn put(&self, out: &mut [u8]) {
        put_fields(
            out,
            &[
                Four(self.mode),
                Four(self.rdev),
                Four(self.umask),
                Four(self.padding),
            ],
        );
    }

    fn take(b: &[u8]) -> MknodIn {
        MknodIn {
            mode: u32_at(b, 0),
            rdev: u32_at(b, 4),
            umask: u32_at(b, 8),
            padding: u32_at(b, 12),
        }
    }

    ghost size_is = { refl };

    ghost size_small = { lit≤ tt };

    ghost made_fields = { λ x h. refl };

    ghost fields_made = { λ b h. refl };
}

/// The record of MKDIR (`struct fuse_mkdir_in`, 8 bytes); the name follows.
#[derive(Clone, Copy, Debug, Default)]
pub struct MkdirIn {
    /// Permission bits.
    pub mode: u32,
    /// The caller's mask of permission bits.
    pub umask: u32,
}

impl ByteValued for MkdirIn {
    const SIZE: usize = 8;

    ghost SIZE = { 8 };

    ghost table = { mkdir_in };

    fn put(&self, out: &mut [u8]) {
        put_fields(out, &[Four(self.mode), Four(self.umask)]);
    }

    fn take(b: &[u8]) -> MkdirIn {
        MkdirIn {
            mode: u32_at(b, 0),
            umask: u32_at(b, 4),
        }
    }

    ghost size_is = { refl };

    ghost size_small = { lit≤ tt };

    ghost made_fields = { λ x h. refl };

    ghost fields_made = { λ b h. refl };
}

/// The record of RENAME (`struct fuse_rename_in`, 8 bytes); the old and the new name follow.
#[derive(Clone, Copy, Debug, Default)]
pub struct RenameIn {
    /// Node of the directory that the file moves to.
    pub newdir: u64,
}

impl ByteValued for RenameIn {
    const SIZE: usize = 8;

    ghost SIZE = { 8 };

    ghost table = { rename_in };

    fn put(&self, out: &mut [u8]) {
        put_fields(out, &[Eight(self.newdir)]);
    }

    fn take(b: &[u8]) -> RenameIn {
        RenameIn {
            newdir: u64_at(b, 0),
        }
    }

    ghost size_is = { refl };

    ghost size_small = { lit≤ tt };

    ghost made_fields = { λ x h. refl };

    ghost fields_made = { λ b h. refl };
}

/// The record of RENAME2 (`struct fuse_rename2_in`, 16 bytes); the old and the new name follow.
#[derive(Clone, Copy, Debug, Default)]
pub struct Rename2In {
    /// Node of the directory that the file moves to.
    pub newdir: u64,
    /// Bits of `renameat2`: 0 keeps a file that is there, 1 exchanges the two, 2 leaves a whiteout.
    pub flags: u32,
    /// Not used; a sender writes 0.
    pub padding: u32,
}

impl ByteValued for Rename2In {
    const SIZE: usize = 16;

    ghost SIZE = { 16 };

    ghost table = { rename2_in };

    fn put(&self, out: &mut [u8]) {
        put_fields(
            out,
            &[Eight(self.newdir), Four(self.flags), Four(self.padding)],
        );
    }

    fn take(b: &[u8]) -> Rename2In {
        Rename2In {
            newdir: u64_at(b, 0),
            flags: u32_at(b, 8),
            padding: u32_at(b, 12),
        }
    }

    ghost size_is = { refl };

    ghost size_small = { lit≤ tt };

    ghost made_fields = { λ x h. refl };

    ghost fields_made = { λ b h. refl };
}

/// The record of LINK (`struct fuse_link_in`, 8 bytes); the new name follows.
#[derive(Clone, Copy, Debug, Default)]
pub struct LinkIn {
    /// Node of the file that gets another name.
    pub oldnodeid: u64,
}

impl ByteValued for LinkIn {
    const SIZE: usize = 8;

    ghost SIZE = { 8 };

    ghost table = { link_in };

    fn put(&self, out: &mut [u8]) {
        put_fields(out, &[Eight(self.oldnodeid)]);
    }

    fn take(b: &[u8]) -> LinkIn {
        LinkIn {
            oldnodeid: u64_at(b, 0),
        }
    }

    ghost size_is = { refl };

    ghost size_small = { lit≤ tt };

    ghost made_fields = { λ x h. refl };

    ghost fields_made = { λ b h. refl };
}

/// The record of CREATE (`struct fuse_create_in`, 16 bytes); the name follows.
#[derive(Clone, Copy, Debug, Default)]
pub struct CreateIn {
    /// Flags of `open`.
    pub flags: u32,
    /// Kind of file and permission bits, as in `st_mode`.
    pub mode: u32,
    /// The caller's mask of permission bits.
    pub umask: u32,
    /// Bit 0 (OPEN_KILL_SUIDGID): the set-user and set-group bits are to be cleared.
    pub open_flags: u32,
}

impl ByteValued for CreateIn {
    const SIZE: usize = 16;

    ghost SIZE = { 16 };

    ghost table = { create_in };

    fn put(&self, out: &mut [u8]) {
        put_fields(
            out,
            &[
                Four(self.flags),
                Four(self.mode),
                Four(self.umask),
                Four(self.open_flags),
            ],
        );
    }

    fn take(b: &[u8]) -> CreateIn {
        CreateIn {
            flags: u32_at(b, 0),
            mode: u32_at(b, 4),
            umask: u32_at(b, 8),
            open_flags: u32_at(b, 12),
        }
    }

    ghost size_is = { refl };

    ghost size_small = { lit≤ tt };

    ghost made_fields = { λ x h. refl };

    ghost fields_made = { λ b h. refl };
}

/// The record of ACCESS (`struct fuse_access_in`, 8 bytes).
#[derive(Clone, Copy, Debug, Default)]
pub struct AccessIn {
    /// The rights that are asked for, as for `access`.
    pub mask: u32,
    /// Not used; a sender writes 0.
    pub padding: u32,
}

impl ByteValued for AccessIn {
    const SIZE: usize = 8;

    ghost SIZE = { 8 };

    ghost table = { access_in };

    fn put(&self, out: &mut [u8]) {
        put_fields(out, &[Four(self.mask), Four(self.padding)]);
    }

    fn take(b: &[u8]) -> AccessIn {
        AccessIn {
            mask: u32_at(b, 0),
            padding: u32_at(b, 4),
        }
    }

    ghost size_is = { refl };

    ghost size_small = { lit≤ tt };

    ghost made_fields = { λ x h. refl };

    ghost fields_made = { λ b h. refl };
}
