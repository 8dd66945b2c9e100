//! Error numbers, and the fault of a call.

ghost use Rattle.std.specs.Prelude.{◌≡◌, ◌<◌, ◌^◌, ℤ, pos, ◌≤ℤ◌, MatchOption};

use std::fmt::{self, Display, Formatter};
use std::marker::Model;

/// An error number of Linux, from 1 to `i32::MAX`. The header of a reply carries it negated, as
/// `error` of `struct fuse_out_header`.
#[derive(Clone, Copy, Debug, PartialEq, Eq)]
pub struct Errno(u32);

impl Model for Errno {
    ghost use Rattle.std.specs.Prelude.{ℕ, ◌<◌, ◌^◌};

    ghost Value = { ℕ };

    ghost view = { λ e. e.0 };

    ghost invariant = { λ e. (0 < e.0) × (e.0 < 2 ^ 31) };

    ghost inverse = { λ n. record { 0 = n } };
}

/// Why a call of a file system or of a file failed: an error number, or None where there is none
/// to name. A reply to the latter carries EIO.
pub type Fault = Option<Errno>;

impl Errno {
    /// The caller may not do this, whatever the modes of the file say.
    pub const EPERM: Errno = Errno(1);

    /// There is no entry of this name, or the node is gone.
    pub const ENOENT: Errno = Errno(2);

    /// Input or output failed. Also what a reply carries for a fault with no number.
    pub const EIO: Errno = Errno(5);

    /// The handle is of no open file, or the file is not open for this.
    pub const EBADF: Errno = Errno(9);

    /// Memory is wanting, or a request or its reply is longer than the server takes.
    pub const ENOMEM: Errno = Errno(12);

    /// The modes or the access list of the file do not allow this to the caller.
    pub const EACCES: Errno = Errno(13);

    /// There is an entry of this name already.
    pub const EEXIST: Errno = Errno(17);

    /// The two names lie on different mounts.
    pub const EXDEV: Errno = Errno(18);

    /// The node is no directory.
    pub const ENOTDIR: Errno = Errno(20);

    /// The node is a directory.
    pub const EISDIR: Errno = Errno(21);

    /// An argument makes no sense here: flags, an offset, a name or a value.
    pub const EINVAL: Errno = Errno(22);

    /// The file system has no room left.
    pub const ENOSPC: Errno = Errno(28);

    /// The file system is mounted to be read only.
    pub const EROFS: Errno = Errno(30);

    /// The value is longer than the size that the request left for it, as of an extended attribute.
    pub const ERANGE: Errno = Errno(34);

    /// A name is longer than the file system takes.
    pub const ENAMETOOLONG: Errno = Errno(36);

    /// The request is not served.
    pub const ENOSYS: Errno = Errno(38);

    /// The directory still has entries.
    pub const ENOTEMPTY: Errno = Errno(39);

    /// There is no extended attribute of this name.
    pub const ENODATA: Errno = Errno(61);

    /// The kernel's version of the protocol is not served.
    pub const EPROTO: Errno = Errno(71);

    /// A number has no place in the record that should hold it.
    pub const EOVERFLOW: Errno = Errno(75);

    /// The file or the file system has no such operation.
    pub const EOPNOTSUPP: Errno = Errno(95);

    /// The error of this number. None for 0 and below, which name no error.
    pub fn new(n: i32) -> Option<Errno>
        ensures { MatchOption result (n ≤ℤ pos 0) (λ e. pos e ≡ n) }
    {
        if n > 0 { Some(Errno(n as u32)) } else { None }
    }

    /// The number of the error.
    pub fn get(self) -> i32
        ensures number { result ≡ pos self }
        ensures above_zero { 0 < self }
        ensures in_range { self < 2 ^ 31 }
    {
        self.0 as i32
    }
}

/// The name of the error, where it is one of those above, and its number, as `EIO (5)`; else
/// `error` and the number.
impl Display for Errno {
    fn fmt<W: fmt::Write>(&self, f: &mut Formatter<W>) -> fmt::Result {
        let number = self.get();
        match name_of(number) {
            Some(name) => write!(f, "{name} ({number})"),
            None => write!(f, "error {number}"),
        }
    }
}

// The name of the error of this number, where it is one of the constants.
fn name_of(number: i32) -> Option<&'static str> {
    let name = match number {
        1 => "EPERM",
        2 => "ENOENT",
        5 => "EIO",
        9 => "EBADF",
        12 => "ENOMEM",
        13 => "EACCES",
        17 => "EEXIST",
        18 => "EXDEV",
        20 => "ENOTDIR",
        21 => "EISDIR",
        22 => "EINVAL",
        28 => "ENOSPC",
        30 => "EROFS",
        34 => "ERANGE",
        36 => "ENAMETOOLONG",
        38 => "ENOSYS",
        39 => "ENOTEMPTY",
        61 => "ENODATA",
        71 => "EPROTO",
        75 => "EOVERFLOW",
        95 => "EOPNOTSUPP",
        _ => return None,
    };
    Some(name)
}
