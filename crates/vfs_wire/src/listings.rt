//! The records of directories and of a file system as a whole.

ghost use Rattle.std.specs.Prelude.{◌≡◌, length, refl};
ghost use Rattle.std.proofs.Common.{ap, lit≤};
ghost use Rattle.vfs_wire.specs.FieldLaws.{cells-is};
ghost use Rattle.vfs_wire.specs.Records.{dirent, direntplus, kstatfs};

use crate::bytes::Field::{Eight, Four};
use crate::bytes::{put_fields, put_from, put_front, u32_at, u64_at};
use crate::parts::{part_at, put_first, put_rest};
use crate::{ByteValued, EntryOut};

/// An item of a directory in the reply to READDIR (`struct fuse_dirent`, 24 bytes); its name
/// follows without a 0, then zeros up to a multiple of 8 bytes.
#[derive(Clone, Copy, Debug, Default)]
pub struct Dirent {
    /// Inode number that programs see.
    pub ino: u64,
    /// Offset from which the items after this one are read.
    pub off: u64,
    /// Length of the name in bytes.
    pub namelen: u32,
    /// Kind of file, the bits 12 to 15 of its mode (as `d_type`).
    pub type_: u32,
}

impl ByteValued for Dirent {
    const SIZE: usize = 24;

    ghost SIZE = { 24 };

    ghost table = { dirent };

    fn put(&self, out: &mut [u8]) {
        put_fields(
            out,
            &[
                Eight(self.ino),
                Eight(self.off),
                Four(self.namelen),
                Four(self.type_),
            ],
        );
    }

    fn take(b: &[u8]) -> Dirent {
        Dirent {
            ino: u64_at(b, 0),
            off: u64_at(b, 8),
            namelen: u32_at(b, 16),
            type_: u32_at(b, 20),
        }
    }

    ghost size_is = { refl };

    ghost size_small = { lit≤ tt };

    ghost made_fields = { λ x h. refl };

    ghost fields_made = { λ b h. refl };
}

/// An item of a directory in the reply to READDIRPLUS (`struct fuse_direntplus`, 152 bytes); its
/// name follows without a 0, then zeros up to a multiple of 8 bytes.
#[derive(Clone, Copy, Debug, Default)]
pub struct Direntplus {
    /// The entry of the item's node. One of node 0 counts no lookup.
    pub entry_out: EntryOut,
    /// The item.
    pub dirent: Dirent,
}

impl ByteValued for Direntplus {
    const SIZE: usize = 152;

    ghost SIZE = { 152 };

    ghost table = { direntplus };

    fn put(&self, out: &mut [u8]) {
        put_rest(out, 128, &self.dirent);
        put_first(out, &self.entry_out);
    }

    fn take(b: &[u8]) -> Direntplus {
        Direntplus {
            entry_out: part_at(b, 0),
            dirent: part_at(b, 128),
        }
    }

    ghost size_is = { refl };

    ghost size_small = { lit≤ tt };

    ghost made_fields = { λ x h. refl };

    ghost fields_made = { λ b h. refl };
}

/// What STATFS answers of a file system (`struct fuse_kstatfs`, 80 bytes).
#[derive(Clone, Copy, Debug, Default)]
pub struct Kstatfs {
    /// Number of blocks, in units of `frsize`.
    pub blocks: u64,
    /// Blocks that are free.
    pub bfree: u64,
    /// Blocks that are free for ordinary users.
    pub bavail: u64,
    /// Number of files that there can be.
    pub files: u64,
    /// Files that there can be besides those that are.
    pub ffree: u64,
    /// Preferred size of reads and writes in bytes.
    pub bsize: u32,
    /// Most bytes of a name.
    pub namelen: u32,
    /// Size of a block in bytes.
    pub frsize: u32,
    /// Not used; a sender writes 0.
    pub padding: u32,
    /// Not used; a sender writes 0.
    pub spare: [u32; 6],
}

impl ByteValued for Kstatfs {
    const SIZE: usize = 80;

    ghost SIZE = { 80 };

    ghost table = { kstatfs };

    ghost in_range = { λ r. length r.spare ≡ 6 };

    fn put(&self, out: &mut [u8]) {
        put_from(
            out,
            40,
            &[
                Four(self.bsize),
                Four(self.namelen),
                Four(self.frsize),
                Four(self.padding),
                Four(self.spare[0]),
                Four(self.spare[1]),
                Four(self.spare[2]),
                Four(self.spare[3]),
                Four(self.spare[4]),
                Four(self.spare[5]),
            ],
        );
        put_front(
            out,
            40,
            &[
                Eight(self.blocks),
                Eight(self.bfree),
                Eight(self.bavail),
                Eight(self.files),
                Eight(self.ffree),
            ],
        );
    }

    fn take(b: &[u8]) -> Kstatfs {
        Kstatfs {
            blocks: u64_at(b, 0),
            bfree: u64_at(b, 8),
            bavail: u64_at(b, 16),
            files: u64_at(b, 24),
            ffree: u64_at(b, 32),
            bsize: u32_at(b, 40),
            namelen: u32_at(b, 44),
            frsize: u32_at(b, 48),
            padding: u32_at(b, 52),
            spare: [
                u32_at(b, 56),
                u32_at(b, 60),
                u32_at(b, 64),
                u32_at(b, 68),
                u32_at(b, 72),
                u32_at(b, 76),
            ],
        }
    }

    ghost size_is = { refl };

    ghost size_small = { lit≤ tt };

    ghost made_fields = { λ x h. ap (λ u. record x { spare = u }) (cells-is 6 x.spare h) };

    ghost fields_made = { λ b h. refl };
}
