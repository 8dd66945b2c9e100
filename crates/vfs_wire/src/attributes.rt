//! The attributes of files, and the records of the requests that ask for them.

ghost use Rattle.std.specs.Prelude.{refl};
ghost use Rattle.std.proofs.Common.{lit≤};
ghost use Rattle.vfs_wire.specs.Records.{attr, attr_out, getattr_in, setattr_in};

use crate::ByteValued;
use crate::bytes::Field::{Eight, Four};
use crate::bytes::{put_fields, put_from, put_front, u32_at, u64_at};
use crate::parts::{part_at, put_rest};
use vfs_flags::{GuestGid, GuestUid};

/// The attributes of a file (`struct fuse_attr`, 88 bytes), a part of the replies to LOOKUP,
/// GETATTR, SETATTR and all that create a node.
#[derive(Clone, Copy, Debug, Default)]
pub struct Attr {
    /// Inode number that programs see.
    pub ino: u64,
    /// Size of the file in bytes.
    pub size: u64,
    /// Space that the file takes, in blocks of 512 bytes.
    pub blocks: u64,
    /// Time of the last access, in seconds since 1970 (the bits of a signed number).
    pub atime: u64,
    /// Time of the last change of the data, likewise.
    pub mtime: u64,
    /// Time of the last change of the attributes, likewise.
    pub ctime: u64,
    /// The nanoseconds beside `atime`.
    pub atimensec: u32,
    /// The nanoseconds beside `mtime`.
    pub mtimensec: u32,
    /// The nanoseconds beside `ctime`.
    pub ctimensec: u32,
    /// Kind of file and permission bits, as in `st_mode`.
    pub mode: u32,
    /// Number of names (hard links).
    pub nlink: u32,
    /// Owner.
    pub uid: GuestUid,
    /// Group.
    pub gid: GuestGid,
    /// Device number of a device file.
    pub rdev: u32,
    /// Preferred size of reads and writes in bytes.
    pub blksize: u32,
    /// Bit 0 (ATTR_SUBMOUNT): another file system begins here; bit 1 (ATTR_DAX): the file's data
    /// may be mapped.
    pub flags: u32,
}

impl ByteValued for Attr {
    const SIZE: usize = 88;

    ghost SIZE = { 88 };

    ghost table = { attr };

    // In two calls, since a long row of fields is written by a loop and a short one is not.
    fn put(&self, out: &mut [u8]) {
        put_from(
            out,
            48,
            &[
                Four(self.atimensec),
                Four(self.mtimensec),
                Four(self.ctimensec),
                Four(self.mode),
                Four(self.nlink),
                Four(self.uid.into_inner()),
                Four(self.gid.into_inner()),
                Four(self.rdev),
                Four(self.blksize),
                Four(self.flags),
            ],
        );
        put_front(
            out,
            48,
            &[
                Eight(self.ino),
                Eight(self.size),
                Eight(self.blocks),
                Eight(self.atime),
                Eight(self.mtime),
                Eight(self.ctime),
            ],
        );
    }

    fn take(b: &[u8]) -> Attr {
        Attr {
            ino: u64_at(b, 0),
            size: u64_at(b, 8),
            blocks: u64_at(b, 16),
            atime: u64_at(b, 24),
            mtime: u64_at(b, 32),
            ctime: u64_at(b, 40),
            atimensec: u32_at(b, 48),
            mtimensec: u32_at(b, 52),
            ctimensec: u32_at(b, 56),
            mode: u32_at(b, 60),
            nlink: u32_at(b, 64),
            uid: GuestUid::from(u32_at(b, 68)),
            gid: GuestGid::from(u32_at(b, 72)),
            rdev: u32_at(b, 76),
            blksize: u32_at(b, 80),
            flags: u32_at(b, 84),
        }
    }

    ghost size_is = { refl };

    ghost size_small = { lit≤ tt };

    ghost made_fields = { λ x h. refl };

    ghost fields_made = { λ b h. refl };
}

/// The record of GETATTR (`struct fuse_getattr_in`, 16 bytes).
#[derive(Clone, Copy, Debug, Default)]
pub struct GetattrIn {
    /// Bit 0 (GETATTR_FH): `fh` is set.
    pub flags: u32,
    /// Not used; a sender writes 0.
    pub dummy: u32,
    /// Handle of the open file to ask.
    pub fh: u64,
}

impl ByteValued for GetattrIn {
    const SIZE: usize = 16;

    ghost SIZE = { 16 };

    ghost table = { getattr_in };

    fn put(&self, out: &mut [u8]) {
        put_fields(out, &[Four(self.flags), Four(self.dummy), Eight(self.fh)]);
    }

    fn take(b: &[u8]) -> GetattrIn {
        GetattrIn {
            flags: u32_at(b, 0),
            dummy: u32_at(b, 4),
            fh: u64_at(b, 8),
        }
    }

    ghost size_is = { refl };

    ghost size_small = { lit≤ tt };

    ghost made_fields = { λ x h. refl };

    ghost fields_made = { λ b h. refl };
}

/// The reply to GETATTR and SETATTR (`struct fuse_attr_out`, 104 bytes).
#[derive(Clone, Copy, Debug, Default)]
pub struct AttrOut {
    /// How long the kernel may keep the attributes, whole seconds.
    pub attr_valid: u64,
    /// The nanoseconds beside `attr_valid`.
    pub attr_valid_nsec: u32,
    /// Not used; a sender writes 0.
    pub dummy: u32,
    /// The attributes.
    pub attr: Attr,
}

impl ByteValued for AttrOut {
    const SIZE: usize = 104;

    ghost SIZE = { 104 };

    ghost table = { attr_out };

    fn put(&self, out: &mut [u8]) {
        put_rest(out, 16, &self.attr);
        put_front(
            out,
            16,
            &[
                Eight(self.attr_valid),
                Four(self.attr_valid_nsec),
                Four(self.dummy),
            ],
        );
    }

    fn take(b: &[u8]) -> AttrOut {
        AttrOut {
            attr_valid: u64_at(b, 0),
            attr_valid_nsec: u32_at(b, 8),
            dummy: u32_at(b, 12),
            attr: part_at(b, 16),
        }
    }

    ghost size_is = { refl };

    ghost size_small = { lit≤ tt };

    ghost made_fields = { λ x h. refl };

    ghost fields_made = { λ b h. refl };
}

/// The record of SETATTR (`struct fuse_setattr_in`, 88 bytes). `valid` says which of the other
/// fields are set.
#[derive(Clone, Copy, Debug, Default)]
pub struct SetattrIn {
    /// Which attributes to set, bits of `SetattrValid`, and bit 6 (FATTR_FH): `fh` is set.
    pub valid: u32,
    /// Not used; a sender writes 0.
    pub padding: u32,
    /// Handle of the open file, where it has one.
    pub fh: u64,
    /// New size in bytes.
    pub size: u64,
    /// Owner of the caller's locks, a number that the kernel makes up.
    pub lock_owner: u64,
    /// New time of the last access, in seconds since 1970 (the bits of a signed number).
    pub atime: u64,
    /// New time of the last change of the data, likewise.
    pub mtime: u64,
    /// New time of the last change of the attributes, likewise.
    pub ctime: u64,
    /// The nanoseconds beside `atime`.
    pub atimensec: u32,
    /// The nanoseconds beside `mtime`.
    pub mtimensec: u32,
    /// The nanoseconds beside `ctime`.
    pub ctimensec: u32,
    /// New permission bits.
    pub mode: u32,
    /// Not used; a sender writes 0.
    pub unused4: u32,
    /// New owner.
    pub uid: GuestUid,
    /// New group.
    pub gid: GuestGid,
    /// Not used; a sender writes 0.
    pub unused5: u32,
}

impl ByteValued for SetattrIn {
    const SIZE: usize = 88;

    ghost SIZE = { 88 };

    ghost table = { setattr_in };

    fn put(&self, out: &mut [u8]) {
        put_from(
            out,
            56,
            &[
                Four(self.atimensec),
                Four(self.mtimensec),
                Four(self.ctimensec),
                Four(self.mode),
                Four(self.unused4),
                Four(self.uid.into_inner()),
                Four(self.gid.into_inner()),
                Four(self.unused5),
            ],
        );
        put_front(
            out,
            56,
            &[
                Four(self.valid),
                Four(self.padding),
                Eight(self.fh),
                Eight(self.size),
                Eight(self.lock_owner),
                Eight(self.atime),
                Eight(self.mtime),
                Eight(self.ctime),
            ],
        );
    }

    fn take(b: &[u8]) -> SetattrIn {
        SetattrIn {
            valid: u32_at(b, 0),
            padding: u32_at(b, 4),
            fh: u64_at(b, 8),
            size: u64_at(b, 16),
            lock_owner: u64_at(b, 24),
            atime: u64_at(b, 32),
            mtime: u64_at(b, 40),
            ctime: u64_at(b, 48),
            atimensec: u32_at(b, 56),
            mtimensec: u32_at(b, 60),
            ctimensec: u32_at(b, 64),
            mode: u32_at(b, 68),
            unused4: u32_at(b, 72),
            uid: GuestUid::from(u32_at(b, 76)),
            gid: GuestGid::from(u32_at(b, 80)),
            unused5: u32_at(b, 84),
        }
    }

    ghost size_is = { refl };

    ghost size_small = { lit≤ tt };

    ghost made_fields = { λ x h. refl };

    ghost fields_made = { λ b h. refl };
}
