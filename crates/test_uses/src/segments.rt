//! Readers and writers at work.

ghost use Rattle.std.specs.Prelude.{◌≡◌, ◌+◌, ◌^◌, ◌<◌, ◌≤◌, ◌++◌, List, [], ◌∷◌, None, true, false, length, take, drop, IfOk, IfErr, MatchOption, OnOk, OnErr};
ghost use Rattle.vfs_segments.specs.Answers.{Question, ReaderAnswer, AreAnswers, Available, Taken, Read, Count, Moved};
ghost use Rattle.vfs_segments.specs.Segments.{contents, flat_bytes, lengths_of};
ghost use Rattle.vfs_segments.specs.Unread.{Unread, IsUnread};
ghost use Rattle.vfs_wire.specs.Fields.{bytes_of, lone_number, value_of};

use crate::views::{Journal, Zeros};
use std::alloc::Global;
use std::io::{ErrorKind, Read, Write};
use std::{io, result};
use vfs_flags::Fault;
use vfs_segments::laws::{Counted, Totals, equal_bytes_answer_alike, find_segment};
use vfs_segments::{Error, Reader, Result, Writer};

/// A new reader of two segments has the bytes of both left, and has given none. It is refused where
/// they are too many to count, and else only for want of memory.
fn counts_of_a_new_reader(alloc: Global, first: &[u8], second: &[u8]) -> Result<(usize, usize)>
    ensures left { IfOk result (λ counts. counts.0 ≡ length first.now + length second.now) }
    ensures taken { IfOk result (λ counts. counts.1 ≡ 0) }
    ensures too_long { 2 ^ 64 ≤ length first.now + length second.now →
        result ≡ Err Error.DescriptorChainOverflow }
    ensures fits { length first.now + length second.now < 2 ^ 64 →
        IfErr result (λ e. e ≡ Error.OutOfMemory) }
{
    let segments = [first, second];
    let reader = Reader::new(alloc, &segments)?;
    Ok((reader.available_bytes(), reader.bytes_read()))
}

/// A reader of two segments, which wants no memory, gives the bytes of the first and then those of
/// the second.
fn read_over_two_segments(alloc: Global, first: &[u8], second: &[u8], buf: &mut [u8])
    requires { length buf.old ≡ length first.now + length second.now }
    ensures { buf.new ≡ first.now ++ second.now }
{
    let segments = [first, second];
    let mut reader = Reader::new(alloc, &segments).unwrap();
    reader.read_exact(buf).unwrap();
}

/// A read into six bytes where four are left moves these four. The rest of the buffer stays.
fn read_of_what_is_left(reader: &mut Reader<'_>, buf: &mut [u8]) -> io::Result<usize>
    requires left { length reader.old.left ≡ 4 }
    requires room { length buf.old ≡ 6 }
    ensures count { result ≡ Ok 4 }
    ensures bytes { take 4 buf.new ≡ reader.old.left }
    ensures kept { drop 4 buf.new ≡ drop 4 buf.old }
    ensures none_left { reader.new.left ≡ [] }
    ensures taken { reader.new.taken ≡ reader.old.taken + 4 }
{
    reader.read(buf)
}

/// A read into four bytes where six are left moves the first four of these.
fn read_of_a_part(reader: &mut Reader<'_>, buf: &mut [u8]) -> io::Result<usize>
    requires left { length reader.old.left ≡ 6 }
    requires room { length buf.old ≡ 4 }
    ensures count { result ≡ Ok 4 }
    ensures bytes { buf.new ≡ take 4 reader.old.left }
    ensures two_left { length reader.new.left ≡ 2 }
{
    reader.read(buf)
}

/// Where a buffer is to be filled and too few bytes are left, the error's kind is `UnexpectedEof`,
/// and they are taken.
fn kind_of_a_short_read(reader: &mut Reader<'_>, buf: &mut [u8]) -> Option<ErrorKind>
    requires { length reader.old.left < length buf.old }
    ensures kind { result ≡ Some ErrorKind.UnexpectedEof }
    ensures none_left { reader.new.left ≡ [] }
    ensures all_taken { reader.new.taken ≡ reader.old.taken + length reader.old.left }
{
    match reader.read_exact(buf) {
        Ok(()) => None,
        Err(e) => Some(e.kind()),
    }
}

/// Where a number of four bytes is to be read and fewer are left, the error's kind is
/// `UnexpectedEof`, and they are taken.
fn kind_of_a_short_record(reader: &mut Reader<'_>) -> Option<ErrorKind>
    requires { length reader.old.left < 4 }
    ensures kind { result ≡ Some ErrorKind.UnexpectedEof }
    ensures none_left { reader.new.left ≡ [] }
    ensures all_taken { reader.new.taken ≡ reader.old.taken + length reader.old.left }
{
    match reader.read_obj::<u32>() {
        Ok(_) => None,
        Err(e) => Some(e.kind()),
    }
}

/// A number of four bytes, where they are left.
fn number_of_four_bytes(reader: &mut Reader<'_>) -> u32
    requires { 4 ≤ length reader.old.left }
    ensures value { result ≡ value_of (lone_number 4) reader.old.left }
    ensures left { reader.new.left ≡ drop 4 reader.old.left }
{
    reader.read_obj().unwrap()
}

/// A number of four bytes is taken, where they are left.
fn taken_number(reader: &mut Reader<'_>) -> Option<u32>
    requires { 4 ≤ length reader.old.left }
    ensures value { result ≡ Some (value_of (lone_number 4) reader.old.left) }
    ensures left { reader.new.left ≡ drop 4 reader.old.left }
{
    reader.read_obj_if_whole()
}

/// Where three bytes are left no number of four is taken, and the reader is as it was.
fn number_of_too_few_bytes(reader: &mut Reader<'_>) -> Option<u32>
    requires { length reader.old.left ≡ 3 }
    ensures none { result ≡ None }
    ensures same { reader.new ≡ reader.old }
{
    reader.read_obj_if_whole()
}

/// The next four bytes in memory of their own, where six are left. Only memory can be wanting, and
/// then the reader is as it was.
fn four_bytes_of_six(alloc: Global, reader: &mut Reader<'_>) -> Result<Vec<u8>>
    requires { length reader.old.left ≡ 6 }
    ensures bytes { IfOk result (λ v. v.items ≡ take 4 reader.old.left) }
    ensures left { OnOk result (reader.new.left ≡ drop 4 reader.old.left) }
    ensures taken { OnOk result (reader.new.taken ≡ reader.old.taken + 4) }
    ensures err { IfErr result (λ e. e ≡ Error.OutOfMemory) }
    ensures same { OnErr result (reader.new ≡ reader.old) }
{
    reader.read_to_vec(alloc, 4)
}

/// More bytes than are left aren't copied, and the reader is as it was.
fn nine_bytes_of_eight(alloc: Global, reader: &mut Reader<'_>) -> Option<Error>
    requires { length reader.old.left ≡ 8 }
    ensures refused { result ≡ Some (Error.SplitOutOfBounds 9) }
    ensures same { reader.new ≡ reader.old }
{
    reader.read_to_vec(alloc, 9).err()
}

/// A reader that has eight bytes left is cut after three: it keeps these and its count, and the
/// rest begins anew. Only memory can be wanting, and then the reader is as it was.
fn split_after_three_bytes<'a>(reader: &mut Reader<'a>) -> Result<Reader<'a>>
    requires { length reader.old.left ≡ 8 }
    ensures first { OnOk result (reader.new.left ≡ take 3 reader.old.left) }
    ensures count { OnOk result (reader.new.taken ≡ reader.old.taken) }
    ensures rest { IfOk result (λ rest. rest.left ≡ drop 3 reader.old.left) }
    ensures anew { IfOk result (λ rest. rest.taken ≡ 0) }
    ensures err { IfErr result (λ e. e ≡ Error.OutOfMemory) }
    ensures same { OnErr result (reader.new ≡ reader.old) }
{
    reader.split_at(3)
}

/// A split past what is left is refused by its place, and the reader is as it was.
fn refused_split(reader: &mut Reader<'_>) -> Option<Error>
    requires { length reader.old.left ≡ 8 }
    ensures refused { result ≡ Some (Error.SplitOutOfBounds 9) }
    ensures same { reader.new ≡ reader.old }
{
    reader.split_at(9).err()
}

/// What a clone reads the reader still has. Only memory can be wanting.
fn read_by_a_clone(reader: &Reader<'_>, buf: &mut [u8]) -> Result<usize>
    requires { length buf.old ≤ length reader.now.left }
    ensures bytes { OnOk result (buf.new ≡ take (length buf.old) reader.now.left) }
    ensures left { IfOk result (λ n. n ≡ length reader.now.left) }
    ensures err { IfErr result (λ e. e ≡ Error.OutOfMemory) }
{
    let mut clone = reader.clone()?;
    clone.read_exact(buf).unwrap();
    Ok(reader.available_bytes())
}

/// Which bytes of segments of three and four bytes lie together: those of each segment, and none
/// over the cut or past the end.
fn together_in_two_segments(
    alloc: Global,
    first: &[u8],
    second: &[u8],
) -> Result<(bool, bool, bool, bool)>
    requires three { length first.now ≡ 3 }
    requires four { length second.now ≡ 4 }
    ensures { IfOk result (λ answers. answers ≡ (true, false, true, false)) }
{
    let segments = [first, second];
    let reader = Reader::new(alloc, &segments)?;
    Ok((
        reader.together(0, 3),
        reader.together(2, 2),
        reader.together(3, 4),
        reader.together(5, 3),
    ))
}

/// Four bytes that a cut is in are not lent, and the reader is as it was.
fn slice_over_a_cut<'a>(reader: &mut Reader<'a>) -> Option<&'a [u8]>
    requires left { length reader.old.left ≡ 7 }
    requires pieces { reader.old.pieces ≡ 3 ∷ 4 ∷ [] }
    ensures none { result ≡ None }
    ensures same { reader.new ≡ reader.old }
{
    reader.take_slice(4)
}

/// The bytes of two segments are lent one after the other, where they are taken as they are cut.
fn slices_of_two_segments<'a>(reader: &mut Reader<'a>) -> (Option<&'a [u8]>, Option<&'a [u8]>)
    requires left { length reader.old.left ≡ 7 }
    requires pieces { reader.old.pieces ≡ 3 ∷ 4 ∷ [] }
    ensures first { MatchOption result.0 ⊥ (λ bytes. bytes.now ≡ take 3 reader.old.left) }
    ensures second { MatchOption result.1 ⊥ (λ bytes. bytes.now ≡ drop 3 reader.old.left) }
    ensures none_left { reader.new.left ≡ [] }
{
    let first = reader.take_slice(3);
    let second = reader.take_slice(4);
    (first, second)
}

/// Three calls of a reader, and what it answers, in the words of the law that readers of equal flat
/// bytes answer alike.
fn three_answers(reader: &mut Reader<'_>, buf: &mut [u8]) -> io::Result<(usize, usize, usize)>
    ensures { IfOk result (λ counts. AreAnswers reader.old
        (Available ∷ Read buf.old ∷ Taken ∷ [])
        (Count counts.0 ∷ Moved counts.1 buf.new ∷ Count counts.2 ∷ []) reader.new) }
{
    let left = reader.available_bytes();
    let moved = reader.read(buf)?;
    let taken = reader.bytes_read();
    Ok((left, moved, taken))
}

/// Readers of three bytes, which are cut after the first or after the second, answer every list of
/// calls alike, and then have the same bytes left.
fn two_cuttings_of_three_bytes()
    ensures { (u t v w : Unread) (questions : List Question) (answers others : List ReaderAnswer) →
        IsUnread (flat_bytes ((1 ∷ []) ∷ (2 ∷ 3 ∷ []) ∷ [])) u →
        IsUnread (flat_bytes ((1 ∷ 2 ∷ []) ∷ (3 ∷ []) ∷ [])) t →
        AreAnswers u questions answers v → AreAnswers t questions others w →
        (answers ≡ others) × (v.left ≡ w.left) }
{
    equal_bytes_answer_alike();
}

/// A reader that is asked for its counts has answers.
fn counts_have_answers()
    ensures { (u : Unread) →
        (answers : List ReaderAnswer) × ((v : Unread) × AreAnswers u (Available ∷ Taken ∷ []) answers v) }
{
    equal_bytes_answer_alike();
}

/// Of a reader that has five bytes left the next three are written to a journal, and two are left.
/// Only memory for the journal can be wanting, and then both are as they were.
fn three_bytes_to_a_journal(
    reader: &mut Reader<'_>,
    journal: &mut Journal,
) -> result::Result<usize, Fault>
    requires { length reader.old.left ≡ 5 }
    ensures count { IfOk result (λ n. n ≡ 3) }
    ensures written { OnOk result (journal.new.bytes.items ≡
        journal.old.bytes.items ++ take 3 reader.old.left) }
    ensures left { OnOk result (reader.new.left ≡ drop 3 reader.old.left) }
    ensures taken { OnOk result (reader.new.taken ≡ reader.old.taken + 3) }

    // 12 is `Errno::ENOMEM`.
    ensures memory { IfErr result (λ fault. fault ≡ Some 12) }
    ensures err { OnErr result (reader.new ≡ reader.old) }
    ensures kept { OnErr result (journal.new.bytes.items ≡ journal.old.bytes.items) }
{
    reader.write_to_file_at(journal, 3, 0, None)
}

/// A writer over no segments needs no memory, and has no room.
fn writer_of_no_room(alloc: Global) -> Writer
    ensures left { result.left ≡ [] }
    ensures passed { result.passed ≡ [] }
    ensures lengths { result.lengths ≡ [] }
{
    Writer::new(alloc, Vec::new(alloc)).unwrap()
}

/// A writer over four segments, whose bytes can be counted, wants no memory.
fn writer_over_four_segments(alloc: Global, segments: Vec<Vec<u8>>) -> Writer
    requires four { length segments.items ≡ 4 }
    requires counted { length (flat_bytes (contents segments.items)) < 2 ^ 64 }
    ensures left { result.left ≡ flat_bytes (contents segments.items) }
    ensures passed { result.passed ≡ [] }
{
    Writer::new(alloc, segments).unwrap()
}

/// A write of four bytes where three fit writes the first three.
fn write_of_what_fits(writer: &mut Writer, bytes: &[u8]) -> io::Result<usize>
    requires room { length writer.old.left ≡ 3 }
    requires four { length bytes.now ≡ 4 }
    ensures count { result ≡ Ok 3 }
    ensures wrote { writer.new.passed ≡ writer.old.passed ++ take 3 bytes.now }
    ensures full { writer.new.left ≡ [] }
{
    writer.write(bytes)
}

/// Of a room of twenty bytes sixteen are held and two written: two are left. A flush changes
/// nothing of it.
fn counts_after_a_hold(writer: &mut Writer, bytes: &[u8]) -> (usize, usize, usize)
    requires passed { writer.old.passed ≡ [] }
    requires room { length writer.old.left ≡ 20 }
    requires two { length bytes.now ≡ 2 }
    ensures held { result.0 ≡ 16 }
    ensures written { result.1 ≡ 18 }
    ensures left { result.2 ≡ 2 }
{
    writer.hold(16).unwrap();
    writer.write_all(bytes).unwrap();
    writer.flush().unwrap();
    (
        writer.held(),
        writer.bytes_written(),
        writer.available_bytes(),
    )
}

/// Where bytes don't fit, the error's kind is `WriteZero`, and those that fit are written.
fn kind_of_a_long_write(writer: &mut Writer, bytes: &[u8]) -> Option<ErrorKind>
    requires { length writer.old.left < length bytes.now }
    ensures kind { result ≡ Some ErrorKind.WriteZero }
    ensures wrote { writer.new.passed ≡
        writer.old.passed ++ take (length writer.old.left) bytes.now }
    ensures full { writer.new.left ≡ [] }
{
    match writer.write_all(bytes) {
        Ok(()) => None,
        Err(e) => Some(e.kind()),
    }
}

/// Where a number of four bytes doesn't fit into two, the error's kind is `WriteZero`, and its low
/// two are written.
fn kind_of_a_long_record(writer: &mut Writer, number: u32) -> Option<ErrorKind>
    requires { length writer.old.left ≡ 2 }
    ensures kind { result ≡ Some ErrorKind.WriteZero }
    ensures wrote { writer.new.passed ≡
        writer.old.passed ++ take 2 (bytes_of (lone_number 4) number) }
{
    match writer.write_obj(number) {
        Ok(()) => None,
        Err(e) => Some(e.kind()),
    }
}

/// A number of four bytes and one of two after it take six bytes of the room.
fn two_numbers(writer: &mut Writer, first: u32, second: u16)
    requires { 6 ≤ length writer.old.left }
    ensures wrote { writer.new.passed ≡ writer.old.passed ++
        (bytes_of (lone_number 4) first ++ bytes_of (lone_number 2) second) }
    ensures left { writer.new.left ≡ drop 6 writer.old.left }
{
    writer.write_pair(first, second).unwrap();
}

/// Where there is room for five of the six bytes, the error's kind is `WriteZero`, and these are
/// written.
fn kind_of_a_long_pair(writer: &mut Writer, first: u32, second: u16) -> Option<ErrorKind>
    requires { length writer.old.left ≡ 5 }
    ensures kind { result ≡ Some ErrorKind.WriteZero }
    ensures wrote { writer.new.passed ≡ writer.old.passed ++
        take 5 (bytes_of (lone_number 4) first ++ bytes_of (lone_number 2) second) }
{
    match writer.write_pair(first, second) {
        Ok(()) => None,
        Err(e) => Some(e.kind()),
    }
}

/// A number of four bytes and two bytes after it take eight bytes of the room, of which the last
/// two are zeros, whatever stood there.
fn number_and_two_bytes(writer: &mut Writer, number: u32, bytes: &[u8])
    requires two { length bytes.now ≡ 2 }
    requires room { 8 ≤ length writer.old.left }
    ensures wrote { writer.new.passed ≡ writer.old.passed ++
        (bytes_of (lone_number 4) number ++ (bytes.now ++ 0 ∷ 0 ∷ [])) }
    ensures left { writer.new.left ≡ drop 8 writer.old.left }
{
    writer.write_padded(number, bytes, 2).unwrap();
}

/// Zeros are read from a file into the next three of five bytes. The two after them stay.
fn three_zeros_from_a_file(writer: &mut Writer) -> usize
    requires { length writer.old.left ≡ 5 }
    ensures count { result ≡ 3 }
    ensures wrote { writer.new.passed ≡ writer.old.passed ++ 0 ∷ 0 ∷ 0 ∷ [] }
    ensures left { writer.new.left ≡ drop 3 writer.old.left }
    ensures lengths { writer.new.lengths ≡ writer.old.lengths }
{
    writer.read_from_file_at(&mut Zeros, 3, 0).unwrap()
}

/// A header is put before a body that is written first. Nothing is held then.
fn header_before_body(writer: &mut Writer, header: &[u8], body: &[u8])
    requires { length header.now + length body.now ≤ length writer.old.left }
    ensures wrote { writer.new.passed ≡ writer.old.passed ++ header.now ++ body.now }
    ensures held { writer.new.held ≡ 0 }
{
    writer.hold(header.len()).unwrap();
    writer.write_all(body).unwrap();
    writer.fill_held(header);
}

/// A second hold takes the place of the first: the last two of five bytes are held.
fn second_hold(writer: &mut Writer) -> usize
    requires { length writer.old.left ≡ 5 }
    ensures held { result ≡ 2 }
    ensures place { writer.new.held_at ≡ length writer.old.passed + 3 }
    ensures full { writer.new.left ≡ [] }
{
    writer.hold(3).unwrap();
    writer.hold(2).unwrap();
    writer.held()
}

/// A hold of more than is left is refused by its length, and the writer is as it was.
fn refused_hold(writer: &mut Writer) -> Option<Error>
    requires { length writer.old.left ≡ 5 }
    ensures refused { result ≡ Some (Error.SplitOutOfBounds 6) }
    ensures same { writer.new ≡ writer.old }
{
    writer.hold(6).err()
}

/// A new writer over two segments of four bytes is cut after six: its second segment has two bytes
/// then, and the rest is one of two. Only memory can be wanting, and then the writer is as it was.
fn split_inside_a_segment(writer: &mut Writer) -> Result<Writer>
    requires passed { writer.old.passed ≡ [] }
    requires left { length writer.old.left ≡ 8 }
    requires lengths { writer.old.lengths ≡ 4 ∷ 4 ∷ [] }
    ensures first { OnOk result (writer.new.lengths ≡ 4 ∷ 2 ∷ []) }
    ensures rest { IfOk result (λ rest. rest.lengths ≡ 2 ∷ []) }
    ensures first_bytes { OnOk result (writer.new.left ≡ take 6 writer.old.left) }
    ensures rest_bytes { IfOk result (λ rest. rest.left ≡ drop 6 writer.old.left) }
    ensures err { IfErr result (λ e. e ≡ Error.OutOfMemory) }
    ensures same { OnErr result (writer.new ≡ writer.old) }
{
    writer.split_at(6)
}

/// A split past what is left is refused by its place, and the writer is as it was.
fn refused_room_split(writer: &mut Writer) -> Option<Error>
    requires { length writer.old.left ≡ 8 }
    ensures refused { result ≡ Some (Error.SplitOutOfBounds 9) }
    ensures same { writer.new ≡ writer.old }
{
    writer.split_at(9).err()
}

/// The segments that a writer gives back have the lengths of those that it was given, and what
/// was written is in place of the first bytes. Where they can be counted, only memory can be
/// wanting.
fn segments_with_what_was_written(
    alloc: Global,
    segments: Vec<Vec<u8>>,
    bytes: &[u8],
) -> Result<Vec<Vec<u8>>>
    requires { length bytes.now ≤ length (flat_bytes (contents segments.items)) }
    ensures lengths { IfOk result (λ written.
        lengths_of (contents written.items) ≡ lengths_of (contents segments.items)) }
    ensures bytes { IfOk result (λ written. flat_bytes (contents written.items) ≡
        bytes.now ++ drop (length bytes.now) (flat_bytes (contents segments.items))) }
    ensures too_long { 2 ^ 64 ≤ length (flat_bytes (contents segments.items)) →
        result ≡ Err Error.DescriptorChainOverflow }
    ensures fits { length (flat_bytes (contents segments.items)) < 2 ^ 64 →
        IfErr result (λ e. e ≡ Error.OutOfMemory) }
{
    let mut writer = Writer::new(alloc, segments)?;
    writer.write_all(bytes).unwrap();
    Ok(writer.into_segments())
}

/// Where a place lies among segments of 8, 16, 18 and 64 bytes, found by their running totals, how
/// many looks that took, and how many totals there are still.
fn place_among_four_segments(at: usize) -> (usize, u32, usize)
    ensures begin { at ≡ 0 → result.0 ≡ 0 }
    ensures second { at ≡ 8 → result.0 ≡ 1 }
    ensures last { at ≡ 64 → result.0 ≡ 3 }
    ensures end { at ≡ 106 → result.0 ≡ 4 }
    ensures looks { result.1 ≤ 3 }
    ensures totals { result.2 ≡ 4 }
{
    let mut totals = Counted::new(&[8, 24, 42, 106]);
    let segment = find_segment(&mut totals, at);
    (segment, totals.looks(), totals.count())
}

/// An empty segment is passed over: the place after the first of segments of 8, 0 and 16 bytes lies
/// in the third.
fn place_past_an_empty_segment() -> usize
    ensures { result ≡ 2 }
{
    find_segment(&mut Counted::new(&[8, 8, 24]), 8)
}
