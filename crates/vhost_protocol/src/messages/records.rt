//! The records of messages.

ghost use Rattle.std.specs.Prelude.{◌≡◌, ◌≤◌, length};
ghost use Rattle.vhost_protocol.specs.Records.{head_in};

use vfs_wire::bytes::u32_at;

/// What each message begins with, in 12 bytes.
#[derive(Clone, Copy, Debug)]
pub struct Head {
    /// A number of `Request`.
    pub request: u32,
    /// The version, whether it is a reply, and whether one is wanted.
    pub flags: u32,
    /// The size of the payload.
    pub size: u32,
}

impl Head {
    /// How many bytes it has.
    pub const SIZE: usize = 12;

    /// The header that these bytes begin with.
    pub fn of_bytes(bytes: &[u8]) -> Head
        requires { 12 ≤ length bytes.now }
        ensures { result ≡ head_in bytes.now }
    {
        Head {
            request: u32_at(bytes, 0),
            flags: u32_at(bytes, 4),
            size: u32_at(bytes, 8),
        }
    }
}

/// A region of memory that the front end shares, in 32 bytes.
#[repr(C)]
#[derive(Clone, Copy, Debug, Default)]
pub struct Region {
    /// Its first address in the guest.
    pub guest: u64,
    pub size: u64,
    /// Its first address in the front end.
    pub user: u64,
    /// Where it begins in its file.
    pub offset: u64,
}

impl Region {
    pub const NONE: Region = Region {
        guest: 0,
        size: 0,
        user: 0,
        offset: 0,
    };
}

/// Where what is written to the guest's memory is marked, in 16 bytes (`VhostUserLog`): that many bytes of a file.
#[repr(C)]
#[derive(Clone, Copy, Debug, Default)]
pub struct Log {
    pub size: u64,
    /// Where it begins in its file.
    pub offset: u64,
}

impl Log {
    pub const NONE: Log = Log { size: 0, offset: 0 };
}
