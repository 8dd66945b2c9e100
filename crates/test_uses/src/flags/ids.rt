//! Ids: 0 where none is given, and compared as numbers.

ghost use Rattle.std.specs.Prelude.{◌≡◌, ◌↔◌, IsTrue};

use vfs_flags::{GuestGid, GuestUid, HostGid, HostUid};

/// The users and groups root of the guest and of the host.
fn roots() -> (GuestUid, GuestGid, HostUid, HostGid)
    ensures guest { result.0 ≡ 0 }
    ensures guest_group { result.1 ≡ 0 }
    ensures host { result.2 ≡ 0 }
    ensures host_group { result.3 ≡ 0 }
{
    (
        GuestUid::default(),
        GuestGid::default(),
        HostUid::default(),
        HostGid::default(),
    )
}

/// Whether two users and two groups of the guest are the same.
fn same_in_the_guest(a: (GuestUid, GuestGid), b: (GuestUid, GuestGid)) -> (bool, bool)
    ensures user { IsTrue result.0 ↔ (a.0 ≡ b.0) }
    ensures group { IsTrue result.1 ↔ (a.1 ≡ b.1) }
{
    (a.0 == b.0, a.1 == b.1)
}

/// Whether two users and two groups of the host are the same.
fn same_in_the_host(a: (HostUid, HostGid), b: (HostUid, HostGid)) -> (bool, bool)
    ensures user { IsTrue result.0 ↔ (a.0 ≡ b.0) }
    ensures group { IsTrue result.1 ↔ (a.1 ≡ b.1) }
{
    (a.0 == b.0, a.1 == b.1)
}

/// The user and the group of the guest that have the numbers of those of the host, and a user of
/// the host that comes back as the number that it was made of.
fn same_numbers(user: HostUid, group: HostGid, n: u32) -> (GuestUid, GuestGid, u32)
    ensures user { result.0 ≡ user }
    ensures group { result.1 ≡ group }
    ensures comes_back { result.2 ≡ n }
{
    (
        GuestUid::from(user.into_inner()),
        GuestGid::from(group.into_inner()),
        HostUid::from(GuestUid::from(n).into_inner()).into_inner(),
    )
}
