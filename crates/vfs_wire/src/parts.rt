//! A record at a place of a byte list.

ghost use Rattle.std.specs.Prelude.{◌≡◌, ◌+◌, ◌≤◌, ◌++◌, length, drop};
ghost use Rattle.vfs_wire.specs.Fields.{Fit, bytes_of, numbers_at, row, row_onto};

use crate::ByteValued;

/// The value that the bytes from place `at` on stand for, as many as it has. They lie in `b`.
pub fn part_at<T: ByteValued>(b: &[u8], at: usize) -> T
    requires { at + T.SIZE ≤ length b.now }
    ensures read { result ≡ T.table.made (numbers_at at T.table.widths b.now) }
    ensures in_width { Fit T.table.widths (T.table.fields result) }
    ensures in_range { T.in_range result }
{
    T::take(&b[at..at + T::SIZE])
}

/// Writes the value over the bytes from place `at` on, to the end of `out`.
pub fn put_rest<T: ByteValued>(out: &mut [u8], at: usize, x: &T)
    requires { at + T.SIZE ≡ length out.old }
    ensures written { drop at out.new ≡ row T.table.widths (T.table.fields x.now) }
    ensures in_width { Fit T.table.widths (T.table.fields x.now) }
    ensures in_range { T.in_range x.now }
{
    x.put(&mut out[at..]);
}

/// Writes the value over the first bytes of `out`, as many as it has.
pub fn put_first<T: ByteValued>(out: &mut [u8], x: &T)
    requires { T.SIZE ≤ length out.old }
    ensures written { out.new ≡
        row_onto T.table.widths (T.table.fields x.now) (drop T.SIZE out.old) }
    ensures bytes { out.new ≡ bytes_of T.table x.now ++ drop T.SIZE out.old }
    ensures size { length (bytes_of T.table x.now) ≡ T.SIZE }
    ensures in_width { Fit T.table.widths (T.table.fields x.now) }
    ensures in_range { T.in_range x.now }
{
    x.put(&mut out[..T::SIZE]);
}
