//! What STATX tells of a node.

ghost use Rattle.std.specs.Prelude.{◌≡◌, length};
ghost use Rattle.fs_nodes.specs.Statx.{device_major, device_minor, statx_fields, statx_of};

use crate::node::{Node, Time};
use vfs_wire::Attr;
use vfs_wire::bytes::Field::{self, Eight, Four, Two};
use vfs_wire::bytes::put_fields;

/// How many bytes it has (`struct fuse_statx_out`).
pub const STATX_LEN: usize = 288;

/// What is told: `STATX_BASIC_STATS` and `STATX_BTIME`.
const TOLD: u32 = 0xfff;

/// The bits of a mode.
const MODE: u32 = 0xffff;

impl Node {
    /// Writes what STATX tells of it over all of `out`.
    pub fn put_statx(&self, number: u64, out: &mut [u8])
        requires { length out.old ≡ STATX_LEN }
        ensures { out.new ≡ statx_of number self.now }
    {
        let fields = statx_fields(self.attr(number), self.btime, self.attr_timeout().as_secs());
        put_fields(out, &fields);
    }
}

// The fields of its record.
fn statx_fields(attr: Attr, btime: Time, lasting: u64) -> [Field; 47]
    ensures { result ≡ statx_fields attr btime lasting }
{
    [
        Eight(lasting),
        Four(0),
        Four(0),
        Eight(0),
        Eight(0),
        Four(TOLD),
        Four(attr.blksize),
        Eight(0),
        Four(attr.nlink),
        Four(attr.uid.into_inner()),
        Four(attr.gid.into_inner()),
        Two((attr.mode & MODE) as u16),
        Two(0),
        Eight(attr.ino),
        Eight(attr.size),
        Eight(attr.blocks),
        Eight(0),
        Eight(attr.atime),
        Four(attr.atimensec),
        Four(0),
        Eight(btime.seconds),
        Four(btime.nanoseconds),
        Four(0),
        Eight(attr.ctime),
        Four(attr.ctimensec),
        Four(0),
        Eight(attr.mtime),
        Four(attr.mtimensec),
        Four(0),
        Four(major(attr.rdev)),
        Four(minor(attr.rdev)),
        Four(0),
        Four(0),
        Eight(0),
        Eight(0),
        Eight(0),
        Eight(0),
        Eight(0),
        Eight(0),
        Eight(0),
        Eight(0),
        Eight(0),
        Eight(0),
        Eight(0),
        Eight(0),
        Eight(0),
        Eight(0),
    ]
}

// The first number of a device.
fn major(device: u32) -> u32
    ensures { result ≡ device_major device }
{
    device / (1 << 8) % (1 << 12)
}

// The second number of a device.
fn minor(device: u32) -> u32
    ensures { result ≡ device_minor device }
{
    device / (1 << 20) * (1 << 8) + device % (1 << 8)
}
