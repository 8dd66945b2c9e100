//! Copies bytes out of segments.

ghost use Rattle.std.specs.Prelude.{◌≡◌, ◌+◌, ◌<◌, ◌≤◌, [], length, take, drop, slice_index_or, IfOk};
ghost use Rattle.vfs_segments.specs.Segments.{flat_bytes, segments_of, with_bytes_at};
ghost use Rattle.vfs_wire.specs.Fields.{Fit, value_of};

use crate::record::LARGEST_RECORD;
use crate::segments::Segments;
use crate::spelled::copy_piece;
use std::alloc::{AllocError, Global};
use vfs_wire::ByteValued;

// Writes the bytes over as many that are from place `at` on.
pub(crate) fn put_at(buf: &mut [u8], at: usize, bytes: &[u8])
    requires { at + length bytes.now ≤ length buf.old }
    ensures { buf.new ≡ with_bytes_at at bytes.now buf.old }
{
    buf[at..at + bytes.len()].copy_from_slice(bytes);
}

// The same, for a piece that may be a single byte.
#[inline(always)]
fn put_piece(buf: &mut [u8], at: usize, bytes: &[u8])
    requires { at + length bytes.now ≤ length buf.old }
    ensures { buf.new ≡ with_bytes_at at bytes.now buf.old }
{
    copy_piece(&mut buf[at..at + bytes.len()], bytes);
}

impl<'a> Segments<&'a [&'a [u8]]> {
    // The list.
    #[inline(always)]
    pub(crate) fn lent_list(&self) -> &'a [&'a [u8]]
        ensures { segments_of result.now ≡ self.now }
    {
        self.list
    }

    // Segment `i`.
    #[inline(always)]
    pub(crate) fn segment(&self, i: usize) -> &'a [u8]
        requires { i < length self.now }
        ensures { result.now ≡ slice_index_or self.now i [] }
    {
        let list = self.list;
        list[i]
    }

    // The same segments once more.
    pub(crate) fn clone(&self) -> Result<Segments<&'a [&'a [u8]]>, AllocError>
        ensures { IfOk result (λ segments. segments ≡ self.now) }
    {
        let totals = self.totals.clone()?;
        Ok(Segments {
            list: self.list,
            totals,
        })
    }

    // Copies into the buffer the bytes that follow `skip` bytes of segment `first`, piece by piece. The
    // last segment is the next `near`.
    #[inline(never)]
    #[tactic(auto, using(crate::proofs::Flat::segments, crate::proofs::Lists::bytes_at))]
    fn gather(&self, first: usize, mut skip: usize, near: &mut usize, buf: &mut [u8])
        requires { skip + length buf.old ≤ length (flat_bytes (drop first self.now)) }
        ensures { buf.new ≡
            take (length buf.old) (drop skip (flat_bytes (drop first self.now))) }
    {
        let mut done: usize = 0;
        for i in first..self.count() {
            if done == buf.len() {
                break;
            }
            let segment = self.segment(i);
            let from = skip.min(segment.len());
            let n = (segment.len() - from).min(buf.len() - done);
            put_piece(buf, done, &segment[from..from + n]);
            done += n;
            skip -= from;
            *near = i;
        }
    }

    // Copies into the buffer the bytes that are from place `at` on. Where one segment has all of
    // them they are copied at once.
    pub(crate) fn copy_from(&self, at: usize, near: &mut usize, buf: &mut [u8])
        requires { at + length buf.old ≤ length (flat_bytes self.now) }
        ensures { buf.new ≡ take (length buf.old) (drop at (flat_bytes self.now)) }
    {
        if buf.is_empty() {
            return;
        }
        let (first, skip) = self.place(at, near);
        let segment = self.segment(first);
        if buf.len() <= segment.len() - skip {
            buf.copy_from_slice(&segment[skip..skip + buf.len()]);
        } else {
            self.gather(first, skip, near, buf);
        }
    }

    // The `n` bytes from place `at` on, in memory of their own, each copied once.
    #[tactic(auto, using(crate::proofs::Flat::segments))]
    pub(crate) fn copied(
        &self,
        alloc: Global,
        at: usize,
        near: &mut usize,
        n: usize,
    ) -> Result<Vec<u8>, AllocError>
        requires { at + n ≤ length (flat_bytes self.now) }
        ensures { IfOk result (λ v. v.items ≡ take n (drop at (flat_bytes self.now))) }
    {
        let (first, mut skip) = self.place(at, near);
        let mut bytes = Vec::with_capacity(alloc, n)?;
        for i in first..self.count() {
            if bytes.len() == n {
                break;
            }
            let segment = self.segment(i);
            let from = skip.min(segment.len());
            let len = (segment.len() - from).min(n - bytes.len());
            bytes.extend_from_slice(&segment[from..from + len])?;
            skip -= from;
            *near = i;
        }
        Ok(bytes)
    }

    // The record whose bytes follow `skip` bytes of segment `first`, wherever they are cut.
    #[inline(always)]
    fn gathered<T: ByteValued>(&self, first: usize, skip: usize, near: &mut usize) -> T
        requires { skip + T.SIZE ≤ length (flat_bytes (drop first self.now)) }
        ensures value { result ≡
            value_of T.table (drop skip (flat_bytes (drop first self.now))) }
        ensures in_width { Fit T.table.widths (T.table.fields result) }
        ensures in_range { T.in_range result }
    {
        let mut buf = [0u8; LARGEST_RECORD];
        self.gather(first, skip, near, &mut buf[..T::SIZE]);
        T::take(&buf[..T::SIZE])
    }

    // The record whose bytes are from place `at` on. Where one segment has all of them it is read
    // right there.
    #[inline(always)]
    pub(crate) fn record_at<T: ByteValued>(&self, at: usize, near: &mut usize) -> T
        requires { at + T.SIZE ≤ length (flat_bytes self.now) }
        ensures value { result ≡ value_of T.table (drop at (flat_bytes self.now)) }
        ensures in_width { Fit T.table.widths (T.table.fields result) }
        ensures in_range { T.in_range result }
    {
        let (first, skip) = self.place(at, near);
        if first < self.count() {
            let segment = self.segment(first);
            if T::SIZE <= segment.len() - skip {
                return T::take(&segment[skip..skip + T::SIZE]);
            }
        }
        self.gathered(first, skip, near)
    }
}
