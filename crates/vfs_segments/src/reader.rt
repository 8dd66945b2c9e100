//! Reads the bytes of a request from segments.

ghost use Rattle.std.specs.Prelude.{◌≡◌, ◌+◌, ◌^◌, ◌<◌, ◌≤◌, ◌++◌, ◌↔◌, ℕ, List, [], length, take, drop, min, is_some, IfSome, IfNone, OnSome, nat_le, IfOk, IfErr, IsOk, OnOk, OnErr, MatchResult};
ghost use Rattle.std.specs.IoError.{error_kind};
ghost use Rattle.std.specs.Io.{ReadsAtMost};
ghost use Rattle.std.specs.Io.KnownBytes.{Consumes, ReadConsumes};
ghost use Rattle.vfs_segments.specs.Answers.{Answers, Available, Taken, Read, ReadExact, ReadObj, Count, Moved, Filled, Fields, TooFew};
ghost use Rattle.vfs_segments.specs.Lengths.{lengths_from};
ghost use Rattle.vfs_segments.specs.Segments.{segments_of, flat_bytes, lengths_of};
ghost use Rattle.vfs_segments.specs.Transfer.{taken_out};
ghost use Rattle.vfs_segments.specs.Unread.{IsUnread, advanced, are_together, first_of, rest_of};
ghost use Rattle.vfs_wire.specs.Fields.{Fit, value_of};

use crate::error::{Error, Result};
use crate::segments::{Segments, total_of};
use crate::{PositionedFile, WritevFlags};
use std::alloc::Global;
use std::io::{ErrorKind, Read};
use std::marker::Model;
use std::{io, result};
use vfs_flags::Fault;
use vfs_wire::ByteValued;

/// Reads bytes from segments, wherever they are cut. It lends the segments, and takes each byte
/// once.
///
/// Contracts see the flat bytes that are left, how many were taken, and the lengths of the pieces
/// of segments in which those left lie.
#[derive(Drop)]
pub struct Reader<'a> {
    segments: Segments<&'a [&'a [u8]]>,
    start: usize,
    at: usize,
    end: usize,
    // The segment in which a place was found last: the next one is looked for there first.
    near: usize,
}

impl<'a> Model for Reader<'a> {
    ghost use Rattle.vfs_segments.specs.Unread.{Unread};

    ghost Value = { Unread };

    ghost use Rattle.vfs_segments.specs.Reader.{unread_of, IsReader};

    ghost view = { unread_of };

    ghost invariant = { IsReader };
}

impl<'a> Reader<'a> {
    /// A reader of all bytes of the segments, of which any may be empty.
    ///
    /// `Error::DescriptorChainOverflow` where their lengths sum past `usize::MAX`, and
    /// `Error::OutOfMemory` where memory is refused. Up to four segments take none.
    #[inline(always)]
    pub fn new(alloc: Global, segments: &'a [&'a [u8]]) -> Result<Reader<'a>>
        ensures ok { IfOk result (IsUnread (flat_bytes (segments_of segments.now))) }
        ensures too_long { 2 ^ 64 ≤ length (flat_bytes (segments_of segments.now)) →
            result ≡ Err Error.DescriptorChainOverflow }
        ensures fits { length (flat_bytes (segments_of segments.now)) < 2 ^ 64 →
            IfErr result (λ e. e ≡ Error.OutOfMemory) }
        ensures none { segments.now ≡ [] → IsOk result }
        ensures pieces { IfOk result (λ r.
            r.pieces ≡ lengths_from 0 (lengths_of (segments_of segments.now))) }
        ensures few { length segments.now ≤ 4 →
            length (flat_bytes (segments_of segments.now)) < 2 ^ 64 → IsOk result }
    {
        let Some(end) = total_of(&segments) else {
            return Err(Error::DescriptorChainOverflow);
        };
        let segments = Segments::new(alloc, segments)?;
        Ok(Reader {
            segments,
            start: 0,
            at: 0,
            end,
            near: 0,
        })
    }

    /// A reader without a segment, which has no byte. It takes no memory.
    pub fn empty(alloc: Global) -> Reader<'a>
        ensures bytes { IsUnread [] result }
        ensures pieces { result.pieces ≡ [] }
    {
        Reader {
            segments: Segments::none(alloc, &[]),
            start: 0,
            at: 0,
            end: 0,
            near: 0,
        }
    }

    /// How many bytes are left.
    pub fn available_bytes(&self) -> usize
        ensures left { result ≡ length self.now.left }
        ensures answers { Answers self.now Available (Count result) self.now }
    {
        self.end - self.at
    }

    /// How many bytes were taken.
    pub fn bytes_read(&self) -> usize
        ensures taken { result ≡ self.now.taken }
        ensures answers { Answers self.now Taken (Count result) self.now }
    {
        self.at - self.start
    }

    /// Cuts this reader after the next `n` bytes. It keeps them and its count; the answer has the
    /// rest, of which nothing is taken.
    ///
    /// `Error::SplitOutOfBounds` with `n` where fewer are left, and `Error::OutOfMemory` where
    /// memory is refused. A refusal changes nothing.
    pub fn split_at(&mut self, n: usize) -> Result<Reader<'a>>
        ensures rest { IfOk result (λ r. r ≡ rest_of self.old n) }
        ensures kept { OnOk result (self.new ≡ first_of self.old n) }
        ensures out_of_bounds { length self.old.left < n → result ≡ Err (Error.SplitOutOfBounds n) }
        ensures within { n ≤ length self.old.left → IfErr result (λ e. e ≡ Error.OutOfMemory) }
        ensures err { OnErr result (self.new ≡ self.old) }
    {
        if n > self.available_bytes() {
            return Err(Error::SplitOutOfBounds(n));
        }
        let segments = self.segments.clone()?;
        let middle = self.at + n;
        let rest = Reader {
            segments,
            start: middle,
            at: middle,
            end: self.end,
            near: self.near,
        };
        self.end = middle;
        Ok(rest)
    }

    /// A reader of the same bytes, with the same count.
    ///
    /// `Error::OutOfMemory` where memory is refused.
    pub fn clone(&self) -> Result<Reader<'a>>
        ensures ok { IfOk result (λ r. r ≡ self.now) }
        ensures err { IfErr result (λ e. e ≡ Error.OutOfMemory) }
    {
        let segments = self.segments.clone()?;
        Ok(Reader {
            segments,
            start: self.start,
            at: self.at,
            end: self.end,
            near: self.near,
        })
    }

    /// Whether the `n` bytes from place `at` of what is left are all there and lie in one segment.
    /// No bytes do at each place up to the end.
    pub fn together(&self, at: usize, n: usize) -> bool
        ensures { result ≡ are_together self.now at n }
    {
        self.segments.is_one_piece(self.at, self.end, at, n)
    }

    /// Takes the next `n` bytes and lends them, where they are left and lie in one segment.
    /// Otherwise nothing changes.
    pub fn take_slice(&mut self, n: usize) -> Option<&'a [u8]>
        ensures variant { is_some result ≡ are_together self.old 0 n }
        ensures bytes { IfSome result (λ bytes. bytes.now ≡ take n self.old.left) }
        ensures moved { OnSome result (self.new ≡ advanced self.old n) }
        ensures none { IfNone result (self.new ≡ self.old) }
    {
        if n > self.available_bytes() {
            return None;
        }
        let Some(bytes) = self.segments.lent(self.at, &mut self.near, n) else {
            return None;
        };
        self.at += n;
        Some(bytes)
    }

    /// Takes the next `n` bytes into memory of their own, each copied once.
    ///
    /// `Error::SplitOutOfBounds` with `n` where fewer are left, and `Error::OutOfMemory` where
    /// memory is refused. A refusal changes nothing.
    pub fn read_to_vec(&mut self, alloc: Global, n: usize) -> Result<Vec<u8>>
        ensures bytes { IfOk result (λ v. v.items ≡ take n self.old.left) }
        ensures moved { OnOk result (self.new ≡ advanced self.old n) }
        ensures out_of_bounds { length self.old.left < n → result ≡ Err (Error.SplitOutOfBounds n) }
        ensures within { n ≤ length self.old.left → IfErr result (λ e. e ≡ Error.OutOfMemory) }
        ensures err { OnErr result (self.new ≡ self.old) }
    {
        if n > self.available_bytes() {
            return Err(Error::SplitOutOfBounds(n));
        }
        let bytes = self.segments.copied(alloc, self.at, &mut self.near, n)?;
        self.at += n;
        Ok(bytes)
    }

    // Takes the next bytes, as many as the buffer has.
    fn take_next(&mut self, buf: &mut [u8])
        requires { length buf.old ≤ length self.old.left }
        ensures copied { buf.new ≡ take (length buf.old) self.old.left }
        ensures moved { self.new ≡ advanced self.old (length buf.old) }
    {
        self.segments.copy_from(self.at, &mut self.near, buf);
        self.at += buf.len();
    }

    // Takes all bytes that are left, and tells that they were too few.
    #[cold]
    fn too_few(&mut self) -> io::Error
        ensures kind { error_kind result ≡ ErrorKind.UnexpectedEof }
        ensures moved { self.new ≡ advanced self.old (length self.old.left) }
    {
        self.at = self.end;
        io::Error::from(ErrorKind::UnexpectedEof)
    }

    /// Takes a record, where as many bytes are left as it has. Otherwise nothing changes.
    #[inline(always)]
    pub fn read_obj_if_whole<T: ByteValued>(&mut self) -> Option<T>
        ensures variant { is_some result ≡ nat_le T.SIZE (length self.old.left) }
        ensures value { IfSome result (λ x. x ≡ value_of T.table self.old.left) }
        ensures in_width { IfSome result (λ x. Fit T.table.widths (T.table.fields x)) }
        ensures in_range { IfSome result (λ x. T.in_range x) }
        ensures moved { OnSome result (self.new ≡ advanced self.old T.SIZE) }
        ensures none { IfNone result (self.new ≡ self.old) }
    {
        if T::SIZE > self.available_bytes() {
            return None;
        }
        let record = self.segments.record_at(self.at, &mut self.near);
        self.at += T::SIZE;
        Some(record)
    }

    /// Takes a record, as many bytes as it has.
    ///
    /// Where fewer are left the error's kind is `UnexpectedEof`, and all of them are taken.
    pub fn read_obj<T: ByteValued>(&mut self) -> io::Result<T>
        ensures variant { IsOk result ↔ (T.SIZE ≤ length self.old.left) }
        ensures answers { MatchResult result
            (λ x. (fields : List ℕ) × ((x ≡ T.table.made fields)
            × Answers self.old (ReadObj T.table.widths) (Fields fields) self.new))
            (λ _. Answers self.old (ReadObj T.table.widths) TooFew self.new) }
        ensures value { IfOk result (λ x. x ≡ value_of T.table self.old.left) }
        ensures in_width { IfOk result (λ x. Fit T.table.widths (T.table.fields x)) }
        ensures in_range { IfOk result (λ x. T.in_range x) }
        ensures moved { OnOk result (self.new ≡ advanced self.old T.SIZE) }
        ensures eof { IfErr result (λ fault. error_kind fault ≡ ErrorKind.UnexpectedEof) }
        ensures at_end { OnErr result (self.new ≡ advanced self.old (length self.old.left)) }
    {
        match self.read_obj_if_whole() {
            Some(record) => Ok(record),
            None => Err(self.too_few()),
        }
    }

    /// Lends a file the next bytes, `count` of them or all that are left, to be written into it
    /// from byte `off` of it on, and takes as many as the file moved. It takes no memory.
    ///
    /// A fault is one of the file, and takes no byte.
    pub fn write_to_file_at<P: PositionedFile>(
        &mut self,
        file: &mut P,
        count: usize,
        off: u64,
        flags: Option<WritevFlags>,
    ) -> result::Result<usize, Fault>
        ensures bound { IfOk result (λ n. n ≤ min count (length self.old.left)) }

        // Where no byte is to be moved the file isn't called.
        ensures nothing { min count (length self.old.left) ≡ 0 →
            (result ≡ Ok 0) × (self.new ≡ self.old) × (file.new ≡ file.old) }

        // Else it was lent just the next bytes.
        ensures lent { 0 < min count (length self.old.left) →
            (self.new ≡ taken_out self.old result)
            × P.write_gives file.old (take (min count (length self.old.left)) self.old.left)
            off flags result file.new }
    {
        let n = count.min(self.available_bytes());
        if n == 0 {
            return Ok(0);
        }
        match self.segments.write_from(self.at, n, file, off, flags) {
            Ok(moved) => {
                self.at += moved;
                Ok(moved)
            }
            Err(fault) => Err(fault),
        }
    }
}

impl<'a> Read for Reader<'a> {
    ghost use Rattle.std.specs.Prelude.{Some};

    ghost remaining = { λ r. Some r.left };

    /// Takes the next bytes, as many as the buffer has or all that are left. It never fails.
    fn read(&mut self, buf: &mut [u8]) -> io::Result<usize>
        ensures bound { ReadsAtMost result buf.new }
        ensures bytes { ReadConsumes (Some self.old.left) (Some self.new.left) result buf.new }
        ensures answers { IfOk result (λ n.
            Answers self.old (Read buf.old) (Moved n buf.new) self.new) }
        ensures count { result ≡ Ok (min (length buf.old) (length self.old.left)) }
        ensures copied { IfOk result (λ n. buf.new ≡ take n self.old.left ++ drop n buf.old) }
        ensures moved { IfOk result (λ n. self.new ≡ advanced self.old n) }
    {
        let n = buf.len().min(self.available_bytes());
        self.take_next(&mut buf[..n]);
        Ok(n)
    }

    /// Fills the buffer.
    ///
    /// Where fewer bytes are left the error's kind is `UnexpectedEof`, all of them are taken, and
    /// what the buffer holds then is open.
    fn read_exact(&mut self, buf: &mut [u8]) -> io::Result<()>
        ensures bytes { OnOk result (Consumes (Some self.old.left) (Some self.new.left) buf.new) }
        ensures variant { IsOk result ↔ (length buf.old ≤ length self.old.left) }
        ensures answers { MatchResult result
            (λ _. Answers self.old (ReadExact (length buf.old)) (Filled buf.new) self.new)
            (λ _. Answers self.old (ReadExact (length buf.old)) TooFew self.new) }
        ensures copied { OnOk result (buf.new ≡ take (length buf.old) self.old.left) }
        ensures moved { OnOk result (self.new ≡ advanced self.old (length buf.old)) }
        ensures eof { IfErr result (λ e. error_kind e ≡ ErrorKind.UnexpectedEof) }
        ensures at_end { OnErr result (self.new ≡ advanced self.old (length self.old.left)) }
    {
        if buf.len() > self.available_bytes() {
            return Err(self.too_few());
        }
        self.take_next(buf);
        Ok(())
    }
}
