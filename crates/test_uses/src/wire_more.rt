//! Records that a server passes on, as bytes.

ghost use Rattle.std.specs.Prelude.{◌≡◌, ◌++◌, pos, negsuc, replicate};

use vfs_wire::ByteValued;
use vfs_wire_more::{IoctlOut, NotifyInvalInodeOut};

mod records;

/// What these bytes of a notification say: the attributes of node 1 alone are out of date, for its
/// place is below 0.
#[tactic(auto, unfolding(vfs_wire::specs::Fields::number))]
fn attributes_alone() -> NotifyInvalInodeOut
    ensures { result ≡ record { ino = 1; off = negsuc 0; len = pos 0 } }
{
    NotifyInvalInodeOut::take(&[
        1, 0, 0, 0, 0, 0, 0, 0, 255, 255, 255, 255, 255, 255, 255, 255, 0, 0, 0, 0, 0, 0, 0, 0,
    ])
}

/// The bytes of a reply to an IOCTL that answers -1.
#[tactic(auto, unfolding(vfs_wire::specs::Fields::little))]
fn refused_ioctl() -> [u8; 16]
    ensures { result ≡ replicate 4 0xff ++ replicate 12 0 }
{
    let reply = IoctlOut {
        result: -1,
        flags: 0,
        in_iovs: 0,
        out_iovs: 0,
    };
    let mut out = [0; 16];
    reply.put(&mut out);
    out
}
