//! Records as numbers, and owners whom a map refuses.

ghost use Rattle.std.specs.Prelude.{◌≡◌, ◌<◌, ℕ, List, [], ◌∷◌, slice_index, None, Some, Err};
ghost use Rattle.vfs_wire.specs.Fields.{AreBytes};

use vfs_flags::{Errno, Fault, GuestGid, GuestUid};
use vfs_wire::{Attr, ByteValued, Stat64, decoding_is_the_inverse};

/// Values of the same numbers are the same.
fn numbers_tell_values<T: ByteValued>()
    ensures { (x y : T) → T.in_range x → T.in_range y → T.table.fields x ≡ T.table.fields y → x ≡ y }
{
    decoding_is_the_inverse::<T>();
}

/// Of bytes none is 256.
fn no_byte_is_256()
    ensures { (bytes : List ℕ) (i : ℕ) → AreBytes bytes → slice_index bytes i ≡ 256 → ⊥ }
{}

/// Where both maps fail the fault is that of the owner's.
fn neither_has_a_number(st: Stat64) -> [Result<Attr, Fault>; 2]
    ensures { result ≡ Err None ∷ Err None ∷ [] }
{
    [
        Attr::try_from_stat64(st, |_| Err(None), |_| Err(Some(Errno::EINVAL))),
        Attr::try_with_flags(st, 1, |_| Err(None), |_| Err(Some(Errno::EINVAL))),
    ]
}

/// Where the owner has a number and the group has none the fault is that of the group's map.
fn the_group_has_no_number(st: Stat64) -> [Result<Attr, Fault>; 2]
    ensures { result ≡ Err (Some 22) ∷ Err (Some 22) ∷ [] }
{
    [
        Attr::try_from_stat64(
            st,
            |_| Ok(GuestUid::default()),
            |_| Err(Some(Errno::EINVAL)),
        ),
        Attr::try_with_flags(
            st,
            1,
            |_| Ok(GuestUid::default()),
            |_| Err(Some(Errno::EINVAL)),
        ),
    ]
}
