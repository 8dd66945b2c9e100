//! Segments with the running totals of their lengths, and where a place lies in them.

ghost use Rattle.std.specs.Prelude.{◌≡◌, ℕ, ◌+◌, ◌-◌, ◌^◌, ◌<◌, ◌≤◌, List, [], length, take, drop, slice_index_or, IfOk, IfSome, IsOk, MatchOption, OnSome};
ghost use Rattle.vfs_segments.specs.Segments.{contents, flat_bytes, lengths_of, segments_of};
ghost use Rattle.vfs_segments.specs.Totals.{totals_of};
ghost use Rattle.vfs_segments.specs.Views.{IsSpan, room_of};

use crate::Span;
use crate::laws::{Counted, find_segment};
use crate::running::{FEW, Running};
use std::alloc::{AllocError, Global};
use std::marker::Model;

// A list of segments: those that a reader lends, or those that a writer holds.
pub(crate) trait SegmentList {
    // The bytes of each.
    ghost bytes: { Self → List (List ℕ) };

    // How many there are.
    fn count(&self) -> usize
        ensures { result ≡ length (bytes self.now) };

    // How long segment `i` is.
    fn len_of(&self, i: usize) -> usize
        requires { i < length (bytes self.now) }
        ensures { result ≡ length (slice_index_or (bytes self.now) i []) };
}

impl<'a> SegmentList for &'a [&'a [u8]] {
    ghost bytes = { λ list. segments_of list.now };

    #[inline(always)]
    fn count(&self) -> usize {
        let list = *self;
        list.len()
    }

    #[inline(always)]
    fn len_of(&self, i: usize) -> usize {
        let list = *self;
        list[i].len()
    }
}

impl SegmentList for Vec<Vec<u8>> {
    ghost bytes = { λ list. contents list.items };

    #[inline(always)]
    fn count(&self) -> usize {
        self.len()
    }

    #[inline(always)]
    fn len_of(&self, i: usize) -> usize {
        self[i].len()
    }
}

// The sum of the segments' lengths, unless that passes `usize::MAX`.
#[inline(always)]
#[tactic(auto, using(crate::proofs::Flat::segments))]
fn sum_of<L: SegmentList>(list: &L) -> Option<usize>
    ensures { MatchOption result (2 ^ 64 ≤ length (flat_bytes (L.bytes list.now)))
        (λ n. n ≡ length (flat_bytes (L.bytes list.now))) }
{
    let mut total: usize = 0;
    for i in 0..list.count() {
        let Some(next) = total.checked_add(list.len_of(i)) else {
            return None;
        };
        total = next;
    }
    Some(total)
}

// The same of many segments, by a loop that is apart.
#[inline(never)]
fn sum_of_many<L: SegmentList>(list: &L) -> Option<usize>
    ensures { MatchOption result (2 ^ 64 ≤ length (flat_bytes (L.bytes list.now)))
        (λ n. n ≡ length (flat_bytes (L.bytes list.now))) }
{
    sum_of(list)
}

// How many bytes the segments have, unless that passes `usize::MAX`.
#[inline(always)]
pub(crate) fn total_of<L: SegmentList>(list: &L) -> Option<usize>
    ensures { MatchOption result (2 ^ 64 ≤ length (flat_bytes (L.bytes list.now)))
        (λ n. n ≡ length (flat_bytes (L.bytes list.now))) }
{
    if list.count() == 1 {
        return Some(list.len_of(0));
    }
    if list.count() > FEW {
        sum_of_many(list)
    } else {
        sum_of(list)
    }
}

// How long segment `i` is, or 0 where there is none.
#[inline]
fn len_at<L: SegmentList>(list: &L, i: usize) -> usize
    ensures { result ≡ length (slice_index_or (L.bytes list.now) i []) }
{
    if i < list.count() { list.len_of(i) } else { 0 }
}

// The running totals of their lengths, in memory.
#[inline(never)]
#[tactic(auto, using(crate::proofs::Flat::segments))]
fn many_totals<L: SegmentList>(alloc: Global, list: &L) -> Result<Vec<usize>, AllocError>
    requires { length (flat_bytes (L.bytes list.now)) < 2 ^ 64 }
    ensures { IfOk result (λ v. v.items ≡ totals_of (lengths_of (L.bytes list.now))) }
{
    let count = list.count();
    let mut totals = Vec::with_capacity(alloc, count)?;
    let mut total: usize = 0;
    for i in 0..count {
        total += list.len_of(i);
        totals.push_reserved(total);
    }
    Ok(totals)
}

// The segment in which a place lies, and how far in, by a search.
#[inline(never)]
fn search<L: SegmentList>(list: &L, totals: &[usize], at: usize) -> (usize, usize)
    requires totals { totals.now ≡ totals_of (lengths_of (L.bytes list.now)) }
    requires fits { at ≤ length (flat_bytes (L.bytes list.now)) }
    ensures within { result.0 ≤ length (L.bytes list.now) }
    ensures place { length (flat_bytes (take result.0 (L.bytes list.now))) + result.1 ≡ at }
    ensures inside { result.1 ≤ length (slice_index_or (L.bytes list.now) result.0 []) }
    ensures before_end { result.0 < length (L.bytes list.now) →
        result.1 < length (slice_index_or (L.bytes list.now) result.0 []) }
{
    let first = find_segment(&mut Counted::new(totals), at);
    if first >= list.count() {
        return (first, 0);
    }
    (first, at - (totals[first] - list.len_of(first)))
}

// How far into segment `i` a place lies, where it lies there.
#[inline(always)]
fn inside<L: SegmentList>(list: &L, totals: &[usize], i: usize, at: usize) -> Option<usize>
    requires { totals.now ≡ totals_of (lengths_of (L.bytes list.now)) }
    ensures listed { OnSome result (i < length (L.bytes list.now)) }
    ensures place { IfSome result (λ skip. length (flat_bytes (take i (L.bytes list.now))) + skip ≡ at) }
    ensures inside { IfSome result (λ skip. skip < length (slice_index_or (L.bytes list.now) i [])) }
{
    if i >= totals.len() {
        return None;
    }
    let end = totals[i];
    let begin = end - list.len_of(i);
    if begin <= at && at < end {
        Some(at - begin)
    } else {
        None
    }
}

// The segment in which a place lies, and how far in: segment `near` and the one after it are looked
// at first, and else it is searched.
#[inline(never)]
fn search_near<L: SegmentList>(list: &L, totals: &[usize], near: usize, at: usize) -> (usize, usize)
    requires totals { totals.now ≡ totals_of (lengths_of (L.bytes list.now)) }
    requires fits { at ≤ length (flat_bytes (L.bytes list.now)) }
    ensures within { result.0 ≤ length (L.bytes list.now) }
    ensures place { length (flat_bytes (take result.0 (L.bytes list.now))) + result.1 ≡ at }
    ensures inside { result.1 ≤ length (slice_index_or (L.bytes list.now) result.0 []) }
    ensures before_end { result.0 < length (L.bytes list.now) →
        result.1 < length (slice_index_or (L.bytes list.now) result.0 []) }
{
    if let Some(skip) = inside(list, totals, near, at) {
        return (near, skip);
    }
    let next = near.saturating_add(1);
    if let Some(skip) = inside(list, totals, next, at) {
        return (next, skip);
    }
    search(list, totals, at)
}

// Segments, and the running totals of their lengths, by which a place is found.
//
// Contracts see the bytes of each segment.
#[derive(Drop)]
pub(crate) struct Segments<L: SegmentList> {
    pub(crate) list: L,
    pub(crate) totals: Running,
}

impl<L: SegmentList> Model for Segments<L> {
    ghost use Rattle.std.specs.Prelude.{◌≡◌, ℕ, List};
    ghost use Rattle.vfs_segments.specs.Segments.{lengths_of};
    ghost use Rattle.vfs_segments.specs.Totals.{totals_of};

    ghost Value = { List (List ℕ) };

    ghost view = { λ s. L.bytes s.list };

    ghost invariant = { λ s. s.totals.items ≡ totals_of (lengths_of (L.bytes s.list)) };
}

impl<L: SegmentList + Drop> Segments<L> {
    // The segments of a list. Up to `FEW` totals take no memory.
    #[inline(always)]
    pub(crate) fn new(alloc: Global, list: L) -> Result<Segments<L>, AllocError>
        requires { length (flat_bytes (L.bytes list)) < 2 ^ 64 }
        ensures bytes { IfOk result (λ segments. segments ≡ L.bytes list) }
        ensures few { length (L.bytes list) ≤ 4 → IsOk result }
    {
        if list.count() == 1 {
            let len = list.len_of(0);
            let totals = Running::new(len, 0, 0, 0, 1, Vec::new(alloc));
            return Ok(Segments { list, totals });
        }
        let many = if list.count() > FEW {
            many_totals(alloc, &list)?
        } else {
            Vec::new(alloc)
        };
        let totals = Running::new(
            len_at(&list, 0),
            len_at(&list, 1),
            len_at(&list, 2),
            len_at(&list, 3),
            list.count(),
            many,
        );
        Ok(Segments { list, totals })
    }

    // No segments. They take no memory.
    pub(crate) fn none(alloc: Global, list: L) -> Segments<L>
        requires { L.bytes list ≡ [] }
        ensures { result ≡ [] }
    {
        Segments {
            list,
            totals: Running::new(0, 0, 0, 0, 0, Vec::new(alloc)),
        }
    }
}

impl<L: SegmentList> Segments<L> {
    // How many there are.
    #[inline(always)]
    pub(crate) fn count(&self) -> usize
        ensures { result ≡ length self.now }
    {
        self.list.count()
    }

    // How long segment `i` is.
    #[inline(always)]
    pub(crate) fn len_of(&self, i: usize) -> usize
        requires { i < length self.now }
        ensures { result ≡ length (slice_index_or self.now i []) }
    {
        self.list.len_of(i)
    }

    // The segment in which a place lies, and how far in. A place between two segments lies in the
    // second, and the place past all bytes after the last one. One in the first segment, as the
    // header of each request has it, is found without a search, and so is one in the segment `near`,
    // in which another place was found, and in the one after it. The answer's segment is the next
    // `near`.
    #[inline(always)]
    pub(crate) fn place(&self, at: usize, near: &mut usize) -> (usize, usize)
        requires fits { at ≤ length (flat_bytes self.now) }
        ensures within { result.0 ≤ length self.now }
        ensures place { length (flat_bytes (take result.0 self.now)) + result.1 ≡ at }
        ensures inside { result.1 ≤ length (slice_index_or self.now result.0 []) }
        ensures before_end { result.0 < length self.now →
            result.1 < length (slice_index_or self.now result.0 []) }
    {
        if at < len_at(&self.list, 0) {
            return (0, at);
        }
        let (i, skip) = search_near(&self.list, &self.totals, *near, at);
        *near = i;
        (i, skip)
    }

    // The segment in which the place `at` bytes past the beginning of segment `first` lies, and how
    // far in, where it is before the end: the segments are walked from that one on.
    #[tactic(auto, using(crate::proofs::Flat::segments))]
    fn walk(&self, first: usize, at: usize) -> (usize, usize)
        requires { at < length (flat_bytes (drop first self.now)) }
        ensures after { first ≤ result.0 }
        ensures next { result.0 + 1 < 2 ^ 64 }
        ensures listed { result.0 < length self.now }
        ensures place { length (flat_bytes (take result.0 self.now)) + result.1 ≡
            length (flat_bytes (take first self.now)) + at }
        ensures inside { result.1 < length (slice_index_or self.now result.0 []) }
    {
        let mut skip = at;
        for i in first..self.count() {
            let len = self.len_of(i);
            if skip < len {
                return (i, skip);
            }
            skip -= len;
        }
        unreachable!()
    }

    // The span of the `n` bytes from place `at` on. The last of them is looked for from the segment
    // on in which the first one lies.
    pub(crate) fn span(&self, at: usize, n: usize) -> Span
        requires some { 0 < n }
        requires fits { at + n ≤ length (flat_bytes self.now) }
        requires small { at + n < 2 ^ 64 }
        ensures span { IsSpan result self.now }
        ensures place { length (room_of result self.now).before ≡ at }
        ensures total { result.total ≡ n }
    {
        let (first, skip) = self.place(at, &mut 0);
        let (last, inside) = self.walk(first, skip + (n - 1));
        Span {
            first,
            count: last - first + 1,
            skip,
            end: inside + 1,
            total: n,
        }
    }
}
