//! What callers have in common.

ghost use Rattle.std.specs.Prelude.{◌≡◌};

use vfs_files::Context;
use vfs_flags::{GuestGid, GuestUid};

/// The caller of user and group 0.
pub(crate) fn root() -> Context
    ensures uid { result.uid ≡ 0 }
    ensures gid { result.gid ≡ 0 }
{
    Context {
        uid: GuestUid::from(0),
        gid: GuestGid::from(0),
        pid: 1,
    }
}
