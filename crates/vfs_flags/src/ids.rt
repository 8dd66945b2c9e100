//! The numbers of users and groups, apart for the guest, where the kernel runs, and the host, where
//! the server runs. Each is a number that comes back unchanged.

ghost use Rattle.std.specs.Prelude.{◌≡◌};

use std::marker::Model;

/// A user, as the guest numbers it: the `uid` of a request's header and of attributes.
#[derive(Clone, Copy, Debug, PartialEq, Eq, Default)]
pub struct GuestUid(u32);

impl Model for GuestUid {
    ghost use Rattle.std.specs.Prelude.{ℕ};

    ghost Value = { ℕ };

    ghost view = { λ id. id.0 };

    ghost inverse = { λ n. record { 0 = n } };
}

impl From<u32> for GuestUid {
    ghost from_gives = { λ n id. id ≡ n };

    fn from(n: u32) -> GuestUid {
        GuestUid(n)
    }
}

impl GuestUid {
    /// The number.
    pub fn into_inner(self) -> u32
        ensures { result ≡ self }
    {
        let GuestUid(n) = self;
        n
    }
}

/// A group, as the guest numbers it: the `gid` of a request's header and of attributes.
#[derive(Clone, Copy, Debug, PartialEq, Eq, Default)]
pub struct GuestGid(u32);

impl Model for GuestGid {
    ghost use Rattle.std.specs.Prelude.{ℕ};

    ghost Value = { ℕ };

    ghost view = { λ id. id.0 };

    ghost inverse = { λ n. record { 0 = n } };
}

impl From<u32> for GuestGid {
    ghost from_gives = { λ n id. id ≡ n };

    fn from(n: u32) -> GuestGid {
        GuestGid(n)
    }
}

impl GuestGid {
    /// The number.
    pub fn into_inner(self) -> u32
        ensures { result ≡ self }
    {
        let GuestGid(n) = self;
        n
    }
}

/// A user, as the host numbers it: the owner that `stat` of a file of the host gives.
#[derive(Clone, Copy, Debug, PartialEq, Eq, Default)]
pub struct HostUid(u32);

impl Model for HostUid {
    ghost use Rattle.std.specs.Prelude.{ℕ};

    ghost Value = { ℕ };

    ghost view = { λ id. id.0 };

    ghost inverse = { λ n. record { 0 = n } };
}

impl From<u32> for HostUid {
    ghost from_gives = { λ n id. id ≡ n };

    fn from(n: u32) -> HostUid {
        HostUid(n)
    }
}

impl HostUid {
    /// The number.
    pub fn into_inner(self) -> u32
        ensures { result ≡ self }
    {
        let HostUid(n) = self;
        n
    }
}

/// A group, as the host numbers it: the group that `stat` of a file of the host gives.
#[derive(Clone, Copy, Debug, PartialEq, Eq, Default)]
pub struct HostGid(u32);

impl Model for HostGid {
    ghost use Rattle.std.specs.Prelude.{ℕ};

    ghost Value = { ℕ };

    ghost view = { λ id. id.0 };

    ghost inverse = { λ n. record { 0 = n } };
}

impl From<u32> for HostGid {
    ghost from_gives = { λ n id. id ≡ n };

    fn from(n: u32) -> HostGid {
        HostGid(n)
    }
}

impl HostGid {
    /// The number.
    pub fn into_inner(self) -> u32
        ensures { result ≡ self }
    {
        let HostGid(n) = self;
        n
    }
}
