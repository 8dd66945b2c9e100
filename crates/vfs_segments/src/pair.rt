//! Spells two records, one after the other.

ghost use Rattle.std.specs.Prelude.{◌≡◌, ◌+◌, ◌++◌, length};
ghost use Rattle.vfs_wire.specs.Fields.{Fit, bytes_of};

use vfs_wire::ByteValued;
use vfs_wire::parts::{put_first, put_rest};

// Writes a record, and another after it, over all of `out`.
pub(crate) fn spell_pair<T: ByteValued, U: ByteValued>(out: &mut [u8], first: &T, second: &U)
    requires { length out.old ≡ T.SIZE + U.SIZE }
    ensures wrote { out.new ≡ bytes_of T.table first.now ++ bytes_of U.table second.now }
    ensures size { length (bytes_of T.table first.now) ≡ T.SIZE }
    ensures in_width { Fit T.table.widths (T.table.fields first.now) }
    ensures in_range { T.in_range first.now }
    ensures second_in_width { Fit U.table.widths (U.table.fields second.now) }
    ensures second_in_range { U.in_range second.now }
{
    put_rest(out, T::SIZE, second);
    put_first(out, first);
}
