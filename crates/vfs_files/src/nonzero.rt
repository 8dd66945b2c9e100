//! Whether bytes have a 0 among them, sixteen at once.

ghost use Rattle.std.specs.Prelude.{◌≡◌, ◌+◌, ◌≤◌, ◌↔◌, length, true};
ghost use Rattle.vfs_files.specs.Nonzero.{AreNonzero};

// Whether neither of the two bytes from place `at` on is 0. Each `&` takes both sides, so that sixteen bytes
// are compared at once.
#[inline(always)]
fn nonzero_2(bytes: &[u8], at: usize) -> bool
    requires { at + 2 ≤ length bytes.now }
    ensures { result ≡ true ↔ AreNonzero at 2 bytes.now }
{
    (bytes[at] != 0) & (bytes[at + 1] != 0)
}

// The same of four.
#[inline(always)]
fn nonzero_4(bytes: &[u8], at: usize) -> bool
    requires { at + 4 ≤ length bytes.now }
    ensures { result ≡ true ↔ AreNonzero at 4 bytes.now }
{
    nonzero_2(bytes, at) & nonzero_2(bytes, at + 2)
}

// The same of eight.
#[inline(always)]
fn nonzero_8(bytes: &[u8], at: usize) -> bool
    requires { at + 8 ≤ length bytes.now }
    ensures { result ≡ true ↔ AreNonzero at 8 bytes.now }
{
    nonzero_4(bytes, at) & nonzero_4(bytes, at + 4)
}

// The same of sixteen.
#[inline(always)]
fn nonzero_16(bytes: &[u8], at: usize) -> bool
    requires { at + 16 ≤ length bytes.now }
    ensures { result ≡ true ↔ AreNonzero at 16 bytes.now }
{
    nonzero_8(bytes, at) & nonzero_8(bytes, at + 8)
}

// Whether none of less than eight bytes is 0.
#[inline(always)]
fn few_nonzero(bytes: &[u8]) -> bool
    ensures { result ≡ true ↔ AreNonzero 0 (length bytes.now) bytes.now }
{
    if bytes.len() >= 4 && bytes.len() <= 8 {
        return nonzero_4(bytes, 0) & nonzero_4(bytes, bytes.len() - 4);
    }
    'each: for byte in bytes {
        if *byte == 0 {
            return false;
        }
    }
    true
}

// Whether none of 16 bytes or more is 0: sixteen by sixteen, and then the last sixteen.
fn many_nonzero(bytes: &[u8]) -> bool
    requires { 16 ≤ length bytes.now }
    ensures { result ≡ true ↔ AreNonzero 0 (length bytes.now) bytes.now }
{
    let blocks = (bytes.len() - 1) / 16;
    'sixteens: for i in 0..blocks {
        if !nonzero_16(bytes, 16 * i) {
            return false;
        }
    }
    nonzero_16(bytes, bytes.len() - 16)
}

// Whether none of the bytes is 0.
#[inline(always)]
pub(crate) fn all_nonzero(bytes: &[u8]) -> bool
    ensures { result ≡ true ↔ AreNonzero 0 (length bytes.now) bytes.now }
{
    let len = bytes.len();
    if len > 32 {
        return many_nonzero(bytes);
    }
    if len >= 16 {
        return nonzero_16(bytes, 0) & nonzero_16(bytes, len - 16);
    }
    if len >= 8 {
        return nonzero_8(bytes, 0) & nonzero_8(bytes, len - 8);
    }
    few_nonzero(bytes)
}
