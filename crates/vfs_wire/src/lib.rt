//! The records of the FUSE protocol as bytes: little endian, field after field, with no hidden
//! padding. `ByteValued` is a value that a fixed number of bytes stand for; each record of the
//! kernel's `fuse.h` that the server reads or writes is one, and so are the plain numbers.
//!
//! Nothing here takes memory, and nothing can fail: a caller hands over as many bytes as the
//! record has.
#![tactic(auto)]

ghost use Rattle.std.specs.Prelude.{◌≡◌, ◌≤◌, ℕ, List, length, sum, ⊤};
ghost use Rattle.vfs_wire.specs.Fields.{AreBytes, Fit, Table, bytes_of, numbers, value_of};

mod attributes;
pub mod bytes;
mod entries;
mod extensions;
mod headers;
mod init;
mod laws;
mod listings;
mod numbers;
pub mod parts;
mod stat;

pub use attributes::{Attr, AttrOut, GetattrIn, SetattrIn};
pub use entries::{BatchForgetIn, EntryOut, ForgetIn, ForgetOne};
pub use extensions::{ExtHeader, Secctx, SuppGroups};
pub use headers::{InHeader, OutHeader};
pub use init::{InitInCompat, InitInExt, InitOut};
pub use laws::{bytes_have_size, decoding_is_the_inverse, put_after_take, take_after_put};
pub use listings::{Dirent, Direntplus, Kstatfs};
pub use stat::{Stat64, Statvfs64};

/// A value that a fixed number of bytes stand for: its fields in order, each little endian in its
/// width. Values and byte lists of that length correspond one to one (`take_after_put`,
/// `put_after_take`, `decoding_is_the_inverse`).
pub trait ByteValued: Sized {
    /// How many bytes, at most 152.
    const SIZE: usize;

    ghost SIZE: { ℕ };

    // The fields' widths, and how a value is split into them and made of them.
    ghost table: { Table Self };

    // What holds of each value besides the widths: a signed field lies in its range, an array has
    // its length.
    ghost in_range: { Self → Type 0 } = { λ _. ⊤ };

    /// Writes the value over all of `out`, which has `SIZE` bytes.
    fn put(&self, out: &mut [u8])
        requires { length out.old ≡ SIZE }
        ensures written { out.new ≡ bytes_of table self.now }
        ensures in_width { Fit table.widths (table.fields self.now) }
        ensures in_range { in_range self.now };

    /// The value that `b` stands for, which has `SIZE` bytes. All byte values are accepted.
    fn take(b: &[u8]) -> Self
        requires { length b.now ≡ SIZE }
        ensures read { result ≡ value_of table b.now }
        ensures in_width { Fit table.widths (table.fields result) }
        ensures in_range { in_range result };

    ghost size_is: { sum table.widths ≡ SIZE };

    ghost size_small: { SIZE ≤ 152 };

    ghost made_fields: { (x : Self) → in_range x → table.made (table.fields x) ≡ x };

    ghost fields_made: { (b : List ℕ) → AreBytes b →
        table.fields (value_of table b) ≡ numbers table.widths b };
}
