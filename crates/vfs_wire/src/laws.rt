//! Values and byte lists of their size correspond one to one. Each function here does nothing: its
//! contract is the law, for a caller's proof to cite.

ghost use Rattle.std.specs.Prelude.{◌≡◌, List, ℕ, length};
ghost use Rattle.vfs_wire.specs.Fields.{AreBytes, Fit, bytes_of, value_of};

use crate::ByteValued;

/// How a value is made of numbers follows of how it is split into them: it is the one inverse. So
/// who believes a record's widths and fields need not read how it is decoded.
pub fn decoding_is_the_inverse<T: ByteValued>()
    ensures made_of_fields { (x : T) → T.in_range x → T.table.made (T.table.fields x) ≡ x }
    ensures fields_of_made { (xs : List ℕ) → Fit T.table.widths xs →
        T.table.fields (T.table.made xs) ≡ xs }
{}

/// What `take` reads from the bytes that `put` wrote is the value.
pub fn take_after_put<T: ByteValued>()
    ensures { (x : T) → Fit T.table.widths (T.table.fields x) → T.in_range x →
        value_of T.table (bytes_of T.table x) ≡ x }
{}

/// What `put` writes of the value that `take` read is the bytes.
pub fn put_after_take<T: ByteValued>()
    ensures { (b : List ℕ) → AreBytes b → length b ≡ T.SIZE →
        bytes_of T.table (value_of T.table b) ≡ b }
{}

/// A value's bytes are `SIZE` in number.
pub fn bytes_have_size<T: ByteValued>()
    ensures { (x : T) → Fit T.table.widths (T.table.fields x) →
        length (bytes_of T.table x) ≡ T.SIZE }
{}
