//! Writes the bytes of a reply into segments.

ghost use Rattle.std.specs.Prelude.{◌≡◌, ◌+◌, ◌^◌, ◌<◌, ◌≤◌, ◌↔◌, ◌++◌, ℕ, List, [], true, false, length, replicate, take, min, IfOk, IfErr, IsOk, OnOk, OnErr};
ghost use Rattle.std.specs.IoError.{error_kind};
ghost use Rattle.std.specs.Io.{WritesAtMost};
ghost use Rattle.std.specs.Io.KnownBytes.{Appends, Keeps, WriteAppends};
ghost use Rattle.vfs_segments.specs.Segments.{contents, flat_bytes, lengths_of};
ghost use Rattle.vfs_segments.specs.Transfer.{moved_bytes, taken_in};
ghost use Rattle.vfs_segments.specs.Written.{unwritten, wrote, first_room, rest_room, rewound, held_over, held_filled, whole};
ghost use Rattle.vfs_wire.specs.Fields.{Fit, bytes_of};

use crate::PositionedFile;
use crate::error::{Error, Result};
use crate::record::LARGEST_RECORD;
use crate::segments::{Segments, total_of};
use crate::spelled::{Padded, Pair};
use std::alloc::Global;
use std::io::{ErrorKind, Write};
use std::marker::Model;
use std::{io, result};
use vfs_flags::Fault;
use vfs_wire::ByteValued;

/// Writes bytes over those of its segments, wherever they are cut. The segments' lengths are its
/// room.
///
/// It can pass over some bytes and hold their place, as that of a header whose numbers are known
/// only once what follows it is written.
///
/// Contracts see the flat bytes that it has passed, those that are left, the held place, and the
/// segments' lengths.
#[derive(Drop)]
pub struct Writer {
    segments: Segments<Vec<Vec<u8>>>,
    at: usize,
    end: usize,
    held_at: usize,
    held: usize,
    // The segment in which a place was found last: the next one is looked for there first.
    near: usize,
}

impl Model for Writer {
    ghost use Rattle.vfs_segments.specs.Written.{Written};

    ghost Value = { Written };

    ghost use Rattle.vfs_segments.specs.Writer.{written_of, IsWriter};

    ghost view = { written_of };

    ghost invariant = { IsWriter };
}

impl Writer {
    /// A writer over the segments, of which any may be empty. Their bytes are there to be written
    /// over.
    ///
    /// `Error::DescriptorChainOverflow` where their lengths sum past `usize::MAX`, and
    /// `Error::OutOfMemory` where memory is refused. Up to four segments take none. A refusal drops
    /// the segments.
    #[inline(always)]
    pub fn new(alloc: Global, segments: Vec<Vec<u8>>) -> Result<Writer>
        ensures ok { IfOk result (λ w. w ≡ unwritten (contents segments.items)) }
        ensures too_long { 2 ^ 64 ≤ length (flat_bytes (contents segments.items)) →
            result ≡ Err Error.DescriptorChainOverflow }
        ensures fits { length (flat_bytes (contents segments.items)) < 2 ^ 64 →
            IfErr result (λ e. e ≡ Error.OutOfMemory) }
        ensures none { segments.items ≡ [] → IsOk result }
        ensures few { length segments.items ≤ 4 →
            length (flat_bytes (contents segments.items)) < 2 ^ 64 → IsOk result }
    {
        let Some(end) = total_of(&segments) else {
            return Err(Error::DescriptorChainOverflow);
        };
        let segments = Segments::new(alloc, segments)?;
        Ok(Writer {
            segments,
            at: 0,
            end,
            held_at: 0,
            held: 0,
            near: 0,
        })
    }

    /// A writer without a segment, and so without room. It takes no memory.
    pub fn empty(alloc: Global) -> Writer
        ensures { result ≡ unwritten [] }
    {
        Writer {
            segments: Segments::none(alloc, Vec::new(alloc)),
            at: 0,
            end: 0,
            held_at: 0,
            held: 0,
            near: 0,
        }
    }

    /// How many bytes of the room are left.
    pub fn available_bytes(&self) -> usize
        ensures { result ≡ length self.now.left }
    {
        self.end - self.at
    }

    /// How many bytes were written or passed over.
    pub fn bytes_written(&self) -> usize
        ensures { result ≡ length self.now.passed }
    {
        self.at
    }

    /// How many bytes are held.
    pub fn held(&self) -> usize
        ensures { result ≡ self.now.held }
    {
        self.held
    }

    /// Cuts the room after the next `n` bytes. This writer keeps them, what it has passed and what
    /// it holds; the answer has the rest, has passed nothing and holds nothing. A segment in which
    /// the place lies is cut in two.
    ///
    /// `Error::SplitOutOfBounds` with `n` where fewer are left, and `Error::OutOfMemory` where
    /// memory is refused. A refusal changes nothing.
    pub fn split_at(&mut self, n: usize) -> Result<Writer>
        ensures rest { IfOk result (λ w. w ≡ rest_room self.old n) }
        ensures kept { OnOk result (self.new ≡ first_room self.old n) }
        ensures out_of_bounds { length self.old.left < n → result ≡ Err (Error.SplitOutOfBounds n) }
        ensures within { n ≤ length self.old.left → IfErr result (λ e. e ≡ Error.OutOfMemory) }
        ensures err { OnErr result (self.new ≡ self.old) }
    {
        if n > self.available_bytes() {
            return Err(Error::SplitOutOfBounds(n));
        }
        let middle = self.at + n;
        let segments = self.segments.split_off(middle)?;
        let rest = Writer {
            segments,
            at: 0,
            end: self.end - middle,
            held_at: 0,
            held: 0,
            near: 0,
        };
        self.end = middle;
        Ok(rest)
    }

    /// Passes over the next `n` bytes, which then count as written, and keeps their place. What was
    /// held before is held no more.
    ///
    /// `Error::SplitOutOfBounds` with `n` where fewer are left; then nothing changes.
    pub fn hold(&mut self, n: usize) -> Result<()>
        ensures variant { IsOk result ↔ (n ≤ length self.old.left) }
        ensures held { OnOk result (self.new ≡ held_over self.old n) }
        ensures out_of_bounds { IfErr result (λ e. e ≡ Error.SplitOutOfBounds n) }
        ensures err { OnErr result (self.new ≡ self.old) }
    {
        if self.available_bytes() < n {
            return Err(Error::SplitOutOfBounds(n));
        }
        self.held_at = self.at;
        self.held = n;
        self.at += n;
        Ok(())
    }

    /// Begins anew: all bytes of the segments are left, and nothing is passed or held.
    pub fn rewind(&mut self)
        ensures { self.new ≡ rewound self.old }
    {
        self.at = 0;
        self.held_at = 0;
        self.held = 0;
    }

    /// Writes the bytes over those that are held, which must be as many. Nothing is held then.
    pub fn fill_held(&mut self, bytes: &[u8])
        requires { length bytes.now ≡ self.old.held }
        ensures { self.new ≡ held_filled self.old bytes.now }
    {
        self.segments.put_from(self.held_at, &mut self.near, bytes);
        self.held = 0;
    }

    // Writes the bytes into the next bytes of the room.
    fn put_next(&mut self, bytes: &[u8])
        requires { length bytes.now ≤ length self.old.left }
        ensures { self.new ≡ wrote self.old bytes.now }
    {
        self.segments.put_from(self.at, &mut self.near, bytes);
        self.at += bytes.len();
    }

    /// Writes a record, as many bytes as it has.
    ///
    /// Where fewer are left the error's kind is `WriteZero`, and the record's beginning fills them.
    #[inline(always)]
    pub fn write_obj<T: ByteValued + Drop>(&mut self, x: T) -> io::Result<()>
        ensures variant { IsOk result ↔ (T.SIZE ≤ length self.old.left) }
        ensures wrote { self.new ≡
            wrote self.old (take (length self.old.left) (bytes_of T.table x)) }
        ensures full { IfErr result (λ fault. error_kind fault ≡ ErrorKind.WriteZero) }
        ensures in_width { Fit T.table.widths (T.table.fields x) }
        ensures in_range { T.in_range x }
    {
        if T::SIZE > self.available_bytes() {
            self.write_cut(x);
            return Err(io::Error::from(ErrorKind::WriteZero));
        }
        self.segments.put_obj(self.at, &mut self.near, x);
        self.at += T::SIZE;
        Ok(())
    }

    // Fills the room that is left with the beginning of a record, which has more bytes.
    #[cold]
    fn write_cut<T: ByteValued + Drop>(&mut self, x: T)
        requires { length self.old.left < T.SIZE }
        ensures wrote { self.new ≡
            wrote self.old (take (length self.old.left) (bytes_of T.table x)) }
        ensures in_width { Fit T.table.widths (T.table.fields x) }
        ensures in_range { T.in_range x }
    {
        let mut buf = [0u8; LARGEST_RECORD];
        x.put(&mut buf[..T::SIZE]);
        let n = self.available_bytes();
        self.put_next(&buf[..n]);
    }

    /// Writes a record, the bytes after it, and that many zeros after these, at most eight.
    ///
    /// Where fewer are left the error's kind is `WriteZero`, and the beginning of all fills them.
    #[inline(always)]
    pub fn write_padded<T: ByteValued + Drop>(
        &mut self,
        x: T,
        bytes: &[u8],
        zeros: u8,
    ) -> io::Result<()>
        requires { zeros ≤ 8 }
        ensures variant { IsOk result ↔
            (T.SIZE + length bytes.now + zeros ≤ length self.old.left) }
        ensures wrote { self.new ≡ wrote self.old (take (length self.old.left)
            (bytes_of T.table x ++ (bytes.now ++ replicate zeros 0))) }
        ensures full { IfErr result (λ fault. error_kind fault ≡ ErrorKind.WriteZero) }
        ensures in_width { Fit T.table.widths (T.table.fields x) }
        ensures in_range { T.in_range x }
    {
        let padded = Padded {
            record: &x,
            bytes,
            zeros,
        };
        if self.segments.put_whole(self.at, &mut self.near, &padded) {
            self.at += T::SIZE + bytes.len() + zeros as usize;
            return Ok(());
        }
        if self.write_apart(x, bytes, zeros) {
            return Ok(());
        }
        Err(io::Error::from(ErrorKind::WriteZero))
    }

    // Writes a record, the bytes and that many zeros, one after another. Answers whether all fit. The
    // record is spelled out in each place that calls it, so that it lies in memory on this path alone.
    #[inline(always)]
    fn write_apart<T: ByteValued + Drop>(&mut self, x: T, bytes: &[u8], zeros: u8) -> bool
        requires { zeros ≤ 8 }
        ensures whole { result ≡ true →
            T.SIZE + length bytes.now + zeros ≤ length self.old.left }
        ensures cut { result ≡ false →
            length self.old.left < T.SIZE + length bytes.now + zeros }
        ensures wrote { self.new ≡ wrote self.old (take (length self.old.left)
            (bytes_of T.table x ++ (bytes.now ++ replicate zeros 0))) }
        ensures in_width { Fit T.table.widths (T.table.fields x) }
        ensures in_range { T.in_range x }
    {
        let mut buf = [0u8; LARGEST_RECORD];
        x.put(&mut buf[..T::SIZE]);
        self.write_rows(&buf[..T::SIZE], bytes, zeros)
    }

    // Writes some bytes, others and that many zeros, one after another. Answers whether all fit.
    #[inline(never)]
    fn write_rows(&mut self, front: &[u8], bytes: &[u8], zeros: u8) -> bool
        requires { zeros ≤ 8 }
        ensures whole { result ≡ true →
            length front.now + length bytes.now + zeros ≤ length self.old.left }
        ensures cut { result ≡ false →
            length self.old.left < length front.now + length bytes.now + zeros }
        ensures wrote { self.new ≡ wrote self.old (take (length self.old.left)
            (front.now ++ (bytes.now ++ replicate zeros 0))) }
    {
        if self.write_all(front).is_err() {
            return false;
        }
        if self.write_all(bytes).is_err() {
            return false;
        }
        self.write_all(&[0u8; 8][..zeros as usize]).is_ok()
    }

    /// Writes two records, the second after the first.
    ///
    /// Where fewer are left the error's kind is `WriteZero`, and the beginning of both fills them.
    #[inline(always)]
    pub fn write_pair<T: ByteValued + Drop, U: ByteValued + Drop>(
        &mut self,
        first: T,
        second: U,
    ) -> io::Result<()>
        ensures variant { IsOk result ↔ (T.SIZE + U.SIZE ≤ length self.old.left) }
        ensures wrote { self.new ≡ wrote self.old (take (length self.old.left)
            (bytes_of T.table first ++ bytes_of U.table second)) }
        ensures full { IfErr result (λ fault. error_kind fault ≡ ErrorKind.WriteZero) }
        ensures in_width { Fit T.table.widths (T.table.fields first) }
        ensures in_range { T.in_range first }
        ensures second_in_width { Fit U.table.widths (U.table.fields second) }
        ensures second_in_range { U.in_range second }
    {
        let pair = Pair {
            first: &first,
            second: &second,
        };
        if self.segments.put_whole(self.at, &mut self.near, &pair) {
            self.at += T::SIZE + U::SIZE;
            return Ok(());
        }
        if self.write_both(first, second) {
            return Ok(());
        }
        Err(io::Error::from(ErrorKind::WriteZero))
    }

    // Writes the records, one after the other. Answers whether both fit.
    #[inline(always)]
    fn write_both<T: ByteValued + Drop, U: ByteValued + Drop>(
        &mut self,
        first: T,
        second: U,
    ) -> bool
        ensures whole { result ≡ true → T.SIZE + U.SIZE ≤ length self.old.left }
        ensures cut { result ≡ false → length self.old.left < T.SIZE + U.SIZE }
        ensures wrote { self.new ≡ wrote self.old (take (length self.old.left)
            (bytes_of T.table first ++ bytes_of U.table second)) }
        ensures in_width { Fit T.table.widths (T.table.fields first) }
        ensures in_range { T.in_range first }
        ensures second_in_width { Fit U.table.widths (U.table.fields second) }
        ensures second_in_range { U.in_range second }
    {
        let fits = self.write_obj(first).is_ok();
        self.write_obj(second).is_ok() && fits
    }

    /// Lends a file the next bytes of the room, `count` of them or all that are left, to be read
    /// into from byte `off` of the file on. As many as the file moved count as written. It takes
    /// no memory.
    ///
    /// A fault is one of the file, and counts no byte. Past those that count the room that was lent
    /// has what the file left there.
    pub fn read_from_file_at<P: PositionedFile>(
        &mut self,
        file: &mut P,
        count: usize,
        off: u64,
    ) -> result::Result<usize, Fault>
        ensures bound { IfOk result (λ n. n ≤ min count (length self.old.left)) }

        // Where no byte is to be moved the file isn't called.
        ensures nothing { min count (length self.old.left) ≡ 0 →
            (result ≡ Ok 0) × (self.new ≡ self.old) × (file.new ≡ file.old) }

        // Else it was lent just the next bytes, and left some there.
        ensures lent { 0 < min count (length self.old.left) →
            (room : List ℕ) × (length room ≡ min count (length self.old.left))
            × (self.new ≡ taken_in self.old result room)
            × P.read_gives file.old off (min count (length self.old.left)) result
            (moved_bytes result room) file.new }
    {
        let n = count.min(self.available_bytes());
        if n == 0 {
            return Ok(0);
        }
        match self.segments.read_into(self.at, n, file, off) {
            Ok(moved) => {
                self.at += moved;
                Ok(moved)
            }
            Err(fault) => Err(fault),
        }
    }

    /// The segments as they are now, with what was written.
    pub fn segments(&self) -> &[Vec<u8>]
        ensures bytes { flat_bytes (contents result.now) ≡ whole self.now }
        ensures lengths { lengths_of (contents result.now) ≡ self.now.lengths }
    {
        self.segments.list()
    }

    /// The segments, with what was written. Each has the length that it came with, but for one that
    /// a split has cut.
    pub fn into_segments(self) -> Vec<Vec<u8>>
        ensures bytes { flat_bytes (contents result.items) ≡ whole self }
        ensures lengths { lengths_of (contents result.items) ≡ self.lengths }
    {
        let Writer {
            segments,
            at: _,
            end: _,
            held_at: _,
            held: _,
            near: _,
        } = self;
        segments.into_list()
    }
}

impl Write for Writer {
    ghost use Rattle.std.specs.Prelude.{Some};

    ghost contents = { λ w. Some w.passed };

    /// Writes the beginning of the bytes that fits. It never fails.
    fn write(&mut self, buf: &[u8]) -> io::Result<usize>
        ensures bound { WritesAtMost result buf.now }
        ensures bytes { WriteAppends (Some self.old.passed) (Some self.new.passed) result buf.now }
        ensures count { result ≡ Ok (min (length buf.now) (length self.old.left)) }
        ensures wrote { self.new ≡ wrote self.old (take (length self.old.left) buf.now) }
    {
        let n = buf.len().min(self.available_bytes());
        self.put_next(&buf[..n]);
        Ok(n)
    }

    /// Does nothing, since each byte is in its segment once it is written. It never fails.
    fn flush(&mut self) -> io::Result<()>
        ensures bytes { Keeps (Some self.old.passed) (Some self.new.passed) }
        ensures same { self.new ≡ self.old }
        ensures ok { IsOk result }
    {
        Ok(())
    }

    /// Writes the bytes.
    ///
    /// Where fewer are left the error's kind is `WriteZero`, and the beginning that fits is
    /// written.
    fn write_all(&mut self, buf: &[u8]) -> io::Result<()>
        ensures bytes { OnOk result
            (Appends (Some self.old.passed) (Some self.new.passed) buf.now) }
        ensures variant { IsOk result ↔ (length buf.now ≤ length self.old.left) }
        ensures wrote { self.new ≡ wrote self.old (take (length self.old.left) buf.now) }
        ensures full { IfErr result (λ e. error_kind e ≡ ErrorKind.WriteZero) }
    {
        let room = self.available_bytes();
        if buf.len() > room {
            self.put_next(&buf[..room]);
            return Err(io::Error::from(ErrorKind::WriteZero));
        }
        self.put_next(buf);
        Ok(())
    }
}
