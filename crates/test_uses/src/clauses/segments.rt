//! Readers and writers: what they answer as a value, what no byte moves, and what a record is that was moved.

ghost use Rattle.std.specs.Prelude.{◌≡◌, ◌+◌, ◌<◌, ◌++◌, ℕ, List, [], ◌∷◌, true, false, Some, Ok, length, drop, min, slice_index, take, IfSome, MatchOption};
ghost use Rattle.vfs_segments.specs.Answers.{Answers, AreAnswers, Available, Taken, Read, Count, Moved};
ghost use Rattle.vfs_segments.specs.Lengths.{lengths_before, lie_together};
ghost use Rattle.vfs_segments.specs.Unread.{Unread};
ghost use Rattle.vfs_wire.specs.Fields.{bytes_of, numbers, value_of};

use std::alloc::Global;
use std::io::ErrorKind;
use std::result;
use vfs_flags::Fault;
use vfs_segments::laws::{equal_bytes_answer_alike, together_after_a_place};
use vfs_segments::{PositionedFile, Reader, Writer};
use vfs_wire::{ByteValued, take_after_put};

/// An answer to a question of a count is that count, and a read moves what fits.
fn answers_are_known()
    ensures available { (u v : Unread) (n : ℕ) → Answers u Available (Count n) v → n ≡ length u.left }
    ensures taken { (u v : Unread) (n : ℕ) → Answers u Taken (Count n) v → n ≡ u.taken }
    ensures read { (u v : Unread) (n : ℕ) (buf bytes : List ℕ) → Answers u (Read buf) (Moved n bytes) v →
        (n ≡ min (length buf) (length u.left))
        × (bytes ≡ take (min (length buf) (length u.left)) u.left
        ++ drop (min (length buf) (length u.left)) buf) }
{}

/// One question, of a count, has one answer: that count.
fn one_question_has_one_answer()
    ensures { (u : Unread) →
        (v : Unread) × AreAnswers u (Available ∷ []) (Count (length u.left) ∷ []) v }
{
    equal_bytes_answer_alike();
}

/// The two counts of a reader, as answers to two questions.
fn two_counts(reader: &Reader<'_>) -> (usize, usize)
    ensures { AreAnswers reader.now (Available ∷ Taken ∷ [])
        (Count result.0 ∷ Count result.1 ∷ []) reader.now }
{
    (reader.available_bytes(), reader.bytes_read())
}

/// A number of four bytes is made of the fields that are read; where there are too few bytes, all are taken.
fn number_of_fields(reader: &mut Reader<'_>) -> Option<u32>
    ensures { MatchOption result
        (reader.new.taken ≡ reader.old.taken + length reader.old.left)
        (λ x. (fields : List ℕ) × (x ≡ slice_index fields 0)
        × (fields ≡ numbers (4 ∷ []) reader.old.left)) }
{
    match reader.read_obj::<u32>() {
        Ok(x) => Some(x),
        Err(_) => None,
    }
}

/// A record that was read is that of its own bytes.
fn read_and_spelled<T: ByteValued>(reader: &mut Reader<'_>) -> Option<T>
    ensures { IfSome result (λ x. value_of T.table (bytes_of T.table x) ≡ x) }
{
    take_after_put::<T>();
    match reader.read_obj::<T>() {
        Ok(x) => Some(x),
        Err(_) => None,
    }
}

/// Two records that are written are each that of its own bytes.
fn pair_and_spelled<T: ByteValued + Drop, U: ByteValued + Drop>(
    writer: &mut Writer,
    first: T,
    second: U,
) -> bool
    ensures first { value_of T.table (bytes_of T.table first) ≡ first }
    ensures second { value_of U.table (bytes_of U.table second) ≡ second }
{
    take_after_put::<T>();
    take_after_put::<U>();
    writer.write_pair(first, second).is_ok()
}

/// A record that is written in front of bytes is that of its own bytes.
fn padded_and_spelled<T: ByteValued + Drop>(writer: &mut Writer, x: T, bytes: &[u8]) -> bool
    ensures { value_of T.table (bytes_of T.table x) ≡ x }
{
    take_after_put::<T>();
    writer.write_padded(x, bytes, 2).is_ok()
}

/// Where a number of four bytes, two bytes and two zeros don't fit, the error's kind is `WriteZero`.
fn kind_of_a_long_row(writer: &mut Writer, number: u32, bytes: &[u8]) -> Option<ErrorKind>
    requires two { length bytes.now ≡ 2 }
    requires room { length writer.old.left ≡ 7 }
    ensures { result ≡ Some ErrorKind.WriteZero }
{
    match writer.write_padded(number, bytes, 2) {
        Ok(()) => None,
        Err(e) => Some(e.kind()),
    }
}

/// A reader of no segment wants no memory, and has no byte.
fn bytes_of_no_segment(alloc: Global, segments: &[&[u8]]) -> usize
    requires { segments.now ≡ [] }
    ensures { result ≡ 0 }
{
    Reader::new(alloc, segments).unwrap().available_bytes()
}

/// A writer over no segment wants no memory, and has no room.
fn room_of_no_segment(alloc: Global, segments: Vec<Vec<u8>>) -> usize
    requires { segments.items ≡ [] }
    ensures { result ≡ 0 }
{
    Writer::new(alloc, segments).unwrap().available_bytes()
}

/// An empty reader has no byte, gave none, and none lies anywhere.
fn reader_of_no_byte<'a>(alloc: Global) -> Reader<'a>
    ensures left { result.left ≡ [] }
    ensures taken { result.taken ≡ 0 }
    ensures lies { lie_together 0 1 result.pieces ≡ false }
{
    Reader::empty(alloc)
}

/// Bytes before the place of a cut lie together after it as they did.
fn together_before_a_cut()
    ensures { (lengths : List ℕ) → lie_together 1 2 lengths ≡ true →
        lie_together 1 2 (lengths_before 5 lengths) ≡ true }
{
    together_after_a_place();
}

/// Where no byte is wanted of a reader, neither it nor the file is touched.
fn nothing_to_a_file<P: PositionedFile>(
    reader: &mut Reader<'_>,
    file: &mut P,
) -> result::Result<usize, Fault>
    ensures count { result ≡ Ok 0 }
    ensures reader { reader.new ≡ reader.old }
    ensures untouched { file.new ≡ file.old }
{
    reader.write_to_file_at(file, 0, 0, None)
}

/// Where a writer has no room, neither it nor the file is touched.
fn nothing_from_a_file<P: PositionedFile>(
    writer: &mut Writer,
    file: &mut P,
) -> result::Result<usize, Fault>
    requires { writer.old.left ≡ [] }
    ensures count { result ≡ Ok 0 }
    ensures writer { writer.new ≡ writer.old }
    ensures untouched { file.new ≡ file.old }
{
    writer.read_from_file_at(file, 9, 0)
}
