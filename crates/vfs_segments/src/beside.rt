//! Spells a record, bytes after it and zeros after those.

ghost use Rattle.std.specs.Prelude.{◌≡◌, ◌+◌, ◌-◌, ◌≤◌, ◌++◌, drop, length, replicate, take};
ghost use Rattle.vfs_segments.specs.Segments.{with_bytes_at};
ghost use Rattle.vfs_wire.specs.Fields.{Fit, bytes_of};

use crate::gather::put_at;
use vfs_wire::ByteValued;
use vfs_wire::parts::put_first;

// Writes zeros over the last `n` bytes, and where these are few, in one go over the last eight, if a record
// of that many bytes or more is in front of them.
#[inline(always)]
fn clear_end<T: ByteValued>(out: &mut [u8], n: usize)
    requires { T.SIZE + n ≤ length out.old }
    ensures len { length out.new ≡ length out.old }
    ensures cleared { drop (length out.old - n) out.new ≡ replicate n 0 }
{
    let len = out.len();
    if n <= 8 && T::SIZE >= 8 {
        put_at(out, len - 8, &[0; 8]);
    } else {
        out[len - n..].fill(0);
    }
}

// Writes sixteen bytes, those from place `from` on, over as many that are from place `at` on. They go by a
// value, which no place overlaps.
#[inline(always)]
fn put_sixteen(out: &mut [u8], at: usize, bytes: &[u8], from: usize)
    requires room { at + 16 ≤ length out.old }
    requires there { from + 16 ≤ length bytes.now }
    ensures { out.new ≡ with_bytes_at at (take 16 (drop from bytes.now)) out.old }
{
    let mut block = [0; 16];
    block.copy_from_slice(&bytes[from..from + 16]);
    put_at(out, at, &block);
}

// The same of eight.
#[inline(always)]
fn put_eight(out: &mut [u8], at: usize, bytes: &[u8], from: usize)
    requires room { at + 8 ≤ length out.old }
    requires there { from + 8 ≤ length bytes.now }
    ensures { out.new ≡ with_bytes_at at (take 8 (drop from bytes.now)) out.old }
{
    let mut block = [0; 8];
    block.copy_from_slice(&bytes[from..from + 8]);
    put_at(out, at, &block);
}

// Writes the bytes over as many that are from place `at` on. Few of them are two blocks, which may overlap:
// a call costs more than these do.
#[inline(always)]
fn put_name(out: &mut [u8], at: usize, bytes: &[u8])
    requires { at + length bytes.now ≤ length out.old }
    ensures { out.new ≡ with_bytes_at at bytes.now out.old }
{
    let len = bytes.len();
    if len >= 16 && len <= 32 {
        put_sixteen(out, at, bytes, 0);
        put_sixteen(out, at + (len - 16), bytes, len - 16);
    } else if len >= 8 && len <= 16 {
        put_eight(out, at, bytes, 0);
        put_eight(out, at + (len - 8), bytes, len - 8);
    } else {
        put_at(out, at, bytes);
    }
}

// Writes a record, the bytes and that many zeros over all of `out`. The zeros are written first, with
// some bytes in front of them that are then written over.
#[inline(always)]
pub(crate) fn spell_padded<T: ByteValued>(out: &mut [u8], x: &T, bytes: &[u8], zeros: usize)
    requires { length out.old ≡ T.SIZE + length bytes.now + zeros }
    ensures wrote { out.new ≡ bytes_of T.table x.now ++ (bytes.now ++ replicate zeros 0) }
    ensures size { length (bytes_of T.table x.now) ≡ T.SIZE }
    ensures in_width { Fit T.table.widths (T.table.fields x.now) }
    ensures in_range { T.in_range x.now }
{
    clear_end::<T>(out, zeros);
    put_first(out, x);
    put_name(out, T::SIZE, bytes);
}
