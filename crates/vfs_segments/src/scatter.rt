//! Copies bytes into segments.

ghost use Rattle.std.specs.Prelude.{◌≡◌, ◌+◌, ◌<◌, ◌≤◌, [], true, false, length, drop, take, slice_index_or, slice_set, vec_len};
ghost use Rattle.vfs_segments.specs.Segments.{contents, flat_bytes, lengths_of, with_bytes_at};
ghost use Rattle.vfs_wire.specs.Fields.{Fit, bytes_of};

use crate::record::LARGEST_RECORD;
use crate::segments::Segments;
use crate::spelled::{Record, Spelled};
use vfs_wire::ByteValued;

// Spells a value over as many bytes that are from place `at` of a segment on: `len` of them.
#[inline(always)]
fn spell_over<S: Spelled>(segment: &mut Vec<u8>, at: usize, len: usize, x: &S)
    requires whole { len ≡ S.size x.now }
    requires fits { at + len ≤ vec_len segment.old }
    ensures wrote { segment.new.items ≡ with_bytes_at at (S.bytes x.now) segment.old.items }
    ensures long { length (S.bytes x.now) ≡ len }
    ensures known { S.known x.now }
{
    x.spell(segment.slice_mut(at..at + len));
}

impl Segments<Vec<Vec<u8>>> {
    // The list, lent.
    pub(crate) fn list(&self) -> &[Vec<u8>]
        ensures { contents result.now ≡ self.now }
    {
        &self.list
    }

    // The list.
    pub(crate) fn into_list(self) -> Vec<Vec<u8>>
        ensures { contents result.items ≡ self }
    {
        let Segments { list, totals: _ } = self;
        list
    }

    // Spells a value over as many bytes that are from place `at` of segment `i` on: `len` of them.
    #[inline(always)]
    fn spell_in<S: Spelled>(&mut self, i: usize, at: usize, len: usize, x: &S)
        requires listed { i < length self.old }
        requires whole { len ≡ S.size x.now }
        requires fits { at + len ≤ length (slice_index_or self.old i []) }
        ensures wrote { self.new ≡ slice_set self.old i
            (with_bytes_at at (S.bytes x.now) (slice_index_or self.old i [])) }
        ensures long { length (S.bytes x.now) ≡ len }
        ensures known { S.known x.now }
    {
        spell_over(&mut self.list[i], at, len, x);
    }

    // Spells a value over as many bytes that are from place `at` on, `skip` bytes into segment
    // `i`, where this has all of them. Answers whether it has, and else writes nothing.
    #[inline(always)]
    fn spell_at<S: Spelled>(&mut self, i: usize, skip: usize, x: &S) -> bool
        requires { skip ≤ length (slice_index_or self.old i []) }
        ensures wrote { result ≡ true → flat_bytes self.new ≡
            with_bytes_at (length (flat_bytes (take i self.old)) + skip) (S.bytes x.now)
            (flat_bytes self.old) }
        ensures lengths { lengths_of self.new ≡ lengths_of self.old }
        ensures fits { result ≡ true →
            length (flat_bytes (take i self.old)) + skip + S.size x.now ≤
            length (flat_bytes self.old) }
        ensures kept { result ≡ false → self.new ≡ self.old }
        ensures long { result ≡ true → length (S.bytes x.now) ≡ S.size x.now }
        ensures known { result ≡ true → S.known x.now }
    {
        let len = x.size_of();
        if i < self.count() && len <= self.len_of(i) - skip {
            self.spell_in(i, skip, len, x);
            true
        } else {
            false
        }
    }

    // Spells a value over as many bytes that are from place `at` on, where one segment has all of
    // them. Answers whether it has, and else writes nothing.
    #[inline(always)]
    pub(crate) fn put_whole<S: Spelled>(&mut self, at: usize, near: &mut usize, x: &S) -> bool
        requires { at ≤ length (flat_bytes self.old) }
        ensures wrote { result ≡ true → flat_bytes self.new ≡
            with_bytes_at at (S.bytes x.now) (flat_bytes self.old) }
        ensures lengths { lengths_of self.new ≡ lengths_of self.old }
        ensures fits { result ≡ true → at + S.size x.now ≤ length (flat_bytes self.old) }
        ensures kept { result ≡ false → self.new ≡ self.old }
        ensures long { result ≡ true → length (S.bytes x.now) ≡ S.size x.now }
        ensures known { result ≡ true → S.known x.now }
    {
        let (first, skip) = self.place(at, near);
        self.spell_at(first, skip, x)
    }

    // Writes the bytes over as many that follow `skip` bytes of segment `first`, piece by piece. The
    // last segment is the next `near`.
    #[inline(never)]
    fn scatter(&mut self, first: usize, mut skip: usize, near: &mut usize, bytes: &[u8])
        requires listed { first ≤ length self.old }
        requires fits { skip + length bytes.now ≤ length (flat_bytes (drop first self.old)) }
        ensures bytes { flat_bytes self.new ≡
            with_bytes_at (length (flat_bytes (take first self.old)) + skip) bytes.now
            (flat_bytes self.old) }
        ensures lengths { lengths_of self.new ≡ lengths_of self.old }
    {
        let mut done: usize = 0;
        for i in first..self.count() {
            if done == bytes.len() {
                break;
            }
            let len = self.len_of(i);
            let from = skip.min(len);
            let n = (len - from).min(bytes.len() - done);
            let piece = &bytes[done..done + n];
            self.spell_in(i, from, n, &piece);
            done += n;
            skip -= from;
            *near = i;
        }
    }

    // Writes the bytes over as many that are from place `at` on. Where one segment has all of
    // them they are copied at once.
    pub(crate) fn put_from(&mut self, at: usize, near: &mut usize, bytes: &[u8])
        requires { at + length bytes.now ≤ length (flat_bytes self.old) }
        ensures bytes { flat_bytes self.new ≡
            with_bytes_at at bytes.now (flat_bytes self.old) }
        ensures lengths { lengths_of self.new ≡ lengths_of self.old }
    {
        let (first, skip) = self.place(at, near);
        if self.spell_at(first, skip, &bytes) {
            return;
        }
        self.scatter(first, skip, near, bytes);
    }

    // Spells a record over as many bytes that follow `skip` bytes of segment `first`, wherever they
    // are cut.
    #[inline(always)]
    fn put_spelled<T: ByteValued + Drop>(
        &mut self,
        first: usize,
        skip: usize,
        near: &mut usize,
        x: T,
    )
        requires listed { first ≤ length self.old }
        requires fits { skip + T.SIZE ≤ length (flat_bytes (drop first self.old)) }
        ensures bytes { flat_bytes self.new ≡
            with_bytes_at (length (flat_bytes (take first self.old)) + skip)
            (bytes_of T.table x) (flat_bytes self.old) }
        ensures lengths { lengths_of self.new ≡ lengths_of self.old }
        ensures size { length (bytes_of T.table x) ≡ T.SIZE }
        ensures in_width { Fit T.table.widths (T.table.fields x) }
        ensures in_range { T.in_range x }
    {
        let mut buf = [0u8; LARGEST_RECORD];
        x.put(&mut buf[..T::SIZE]);
        self.scatter(first, skip, near, &buf[..T::SIZE]);
    }

    // Writes a record over as many bytes that are from place `at` on. Where one segment has all
    // of them it is spelled right there.
    #[inline(always)]
    pub(crate) fn put_obj<T: ByteValued + Drop>(&mut self, at: usize, near: &mut usize, x: T)
        requires { at + T.SIZE ≤ length (flat_bytes self.old) }
        ensures bytes { flat_bytes self.new ≡
            with_bytes_at at (bytes_of T.table x) (flat_bytes self.old) }
        ensures lengths { lengths_of self.new ≡ lengths_of self.old }
        ensures size { length (bytes_of T.table x) ≡ T.SIZE }
        ensures in_width { Fit T.table.widths (T.table.fields x) }
        ensures in_range { T.in_range x }
    {
        let (first, skip) = self.place(at, near);
        if self.spell_at(first, skip, &Record { record: &x }) {
            return;
        }
        self.put_spelled(first, skip, near, x);
    }
}
