//! Views of segments: bytes that are lent, piece by piece.

ghost use Rattle.std.specs.Prelude.{◌≡◌, ◌-◌, ◌<◌, ◌≤◌, [], drop, length, take, vec_len, slice_index_or};
ghost use Rattle.std.specs.Borrow.{sem};
ghost use Rattle.std.specs.List.{concat};
ghost use Rattle.vfs_segments.specs.Lending.{LendsPiece};
ghost use Rattle.vfs_segments.specs.Memory.{contents, flat_bytes, lengths_of, segments_of};
ghost use Rattle.vfs_segments.specs.Views.{IsSpan, contents_with, pieces_of, room_of, whole_of};

use crate::span::Span;
use std::alloc::Global;
use std::marker::{Model, PhantomData};
use std::mem;

/// Bytes that are lent to be read, as pieces of segments. No byte is copied.
///
/// A piece is the part of one segment that is lent, so it may be empty where its segment is.
/// Contracts see the list of the pieces.
#[derive(Drop)]
pub struct Slices<'s> {
    segments: &'s [&'s [u8]],
    span: Span,
}

impl<'s> Model for Slices<'s> {
    ghost use Rattle.std.specs.Prelude.{List, ℕ};
    ghost use Rattle.vfs_segments.specs.Memory.{segments_of};
    ghost use Rattle.vfs_segments.specs.Views.{IsSpan, pieces_of};

    ghost Value = { List (List ℕ) };

    ghost view = { λ v. pieces_of v.span (segments_of v.segments.now) };

    ghost invariant = { λ v. IsSpan v.span (segments_of v.segments.now) };
}

impl<'s> Slices<'s> {
    /// Lends a span of the segments. A reader calls it, which has found where its next bytes lie.
    pub fn new(segments: &'s [&'s [u8]], span: Span) -> Slices<'s>
        requires { IsSpan span (segments_of segments.now) }
        ensures { result ≡ pieces_of span (segments_of segments.now) }
    {
        Slices { segments, span }
    }

    /// How many pieces there are, at least one.
    pub fn count(&self) -> usize
        ensures count { result ≡ length self.now }
        ensures some { 0 < result }
    {
        self.span.count
    }

    /// How many bytes all pieces have.
    pub fn total(&self) -> usize
        ensures { result ≡ length (concat self.now) }
    {
        self.span.total
    }

    /// Piece `i`, counted from 0.
    pub fn get(&self, i: usize) -> &'s [u8]
        requires { i < length self.now }
        ensures { result.now ≡ slice_index_or self.now i [] }
    {
        let segment = self.segments[self.span.first + i];
        let (from, to) = self.span.bounds(i, segment.len());
        part(segment, from, to)
    }
}

// The bytes of a segment between two places.
fn part(segment: &[u8], from: usize, to: usize) -> &[u8]
    requires ordered { from ≤ to }
    requires ends { to ≤ length segment.now }
    ensures { result.now ≡ take (to - from) (drop from segment.now) }
{
    &segment[from..to]
}

// Puts the segment `lent` back to `place`, and takes out the one at `next`.
fn exchange(segments: &mut Vec<Vec<u8>>, lent: &mut Vec<u8>, place: usize, next: usize)
    requires place_in { place < vec_len segments.old }
    requires next_in { next < vec_len segments.old }
    ensures same { contents_with segments.new.items next lent.new ≡
        contents_with segments.old.items place lent.old }
    ensures shown { lent.new.items ≡
        slice_index_or (contents_with segments.old.items place lent.old) next [] }
    ensures len { vec_len segments.new ≡ vec_len segments.old }
{
    mem::swap(lent, &mut segments[place]);
    mem::swap(lent, &mut segments[next]);
}

/// Bytes that are lent to be written over, as pieces of segments. No byte is copied.
///
/// A piece is the part of one segment that is lent, so it may be empty where its segment is. The
/// view has the segments for as long as it lasts, and gives them back when the file has returned.
/// Contracts see the pieces and what is around them, which no call changes.
#[derive(Drop)]
pub struct SlicesMut<'s> {
    segments: Vec<Vec<u8>>,
    // The segment of the piece that was lent last. An empty one is in its place.
    lent: Vec<u8>,
    place: usize,
    span: Span,
    room: PhantomData<&'s mut u8>,
}

impl<'s> Model for SlicesMut<'s> {
    ghost use Rattle.vfs_segments.specs.Views.{Room};
    ghost use Rattle.vfs_segments.specs.ViewInside.{seen, IsView};

    ghost Value = { Room };

    ghost view = { seen };

    ghost invariant = { IsView };
}

impl<'s> SlicesMut<'s> {
    /// Lends a span of the segments. A writer calls it, which has found where its next bytes lie.
    /// It takes no memory.
    pub fn new(alloc: Global, mut segments: Vec<Vec<u8>>, span: Span) -> SlicesMut<'s>
        requires { IsSpan span (contents segments.items) }
        ensures { result ≡ room_of span (contents segments.items) }
    {
        let lent = mem::replace(&mut segments[span.first], Vec::new(alloc));
        SlicesMut {
            segments,
            lent,
            place: span.first,
            span,
            room: PhantomData,
        }
    }

    /// The segments, with what was written into the pieces. A writer calls it, to go on with them.
    pub fn into_segments(self) -> Vec<Vec<u8>>
        ensures bytes { flat_bytes (contents result.items) ≡ whole_of self.entry }
        ensures lengths { lengths_of (contents result.items) ≡ self.entry.lengths }
    {
        let SlicesMut {
            mut segments,
            lent,
            place,
            span: _,
            room: _,
        } = self;
        segments[place] = lent;
        segments
    }

    /// How many pieces there are, at least one.
    pub fn count(&self) -> usize
        ensures count { result ≡ length self.now.pieces }
        ensures some { 0 < result }
    {
        self.span.count
    }

    /// How many bytes all pieces have.
    pub fn total(&self) -> usize
        ensures { result ≡ length (concat self.now.pieces) }
    {
        self.span.total
    }

    /// Piece `i`, counted from 0, to be written over.
    pub fn get_mut(&mut self, i: usize) -> &mut [u8]
        requires { i < length self.old.pieces }
        ensures* writes_back { sem 𝓛 (LendsPiece self.entry i result) }
        ensures value { result.now ≡ slice_index_or self.old.pieces i [] }
    {
        let next = self.span.first + i;
        exchange(&mut self.segments, &mut self.lent, self.place, next);
        self.place = next;
        let (from, to) = self.span.bounds(i, self.lent.len());
        self.lent.slice_mut(from..to)
    }
}
