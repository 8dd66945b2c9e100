//! Cuts segments in two.

ghost use Rattle.std.specs.Prelude.{◌≡◌, ◌+◌, ◌-◌, ◌<◌, ◌≤◌, [], ◌∷◌, ◌++◌, length, map, take, drop, slice_index_or, IfOk, OnOk, OnErr};
ghost use Rattle.vfs_segments.specs.Segments.{contents, flat_bytes, lengths_of};
ghost use Rattle.vfs_segments.specs.Lengths.{lengths_before, lengths_from};

use crate::running::Running;
use crate::segments::Segments;
use std::alloc::{AllocError, Global};
use std::mem;

// Moves the bytes from place `at` on, `inside` bytes into segment `first`, into segments of their
// own, and copies only those of a segment that is cut. Where memory is refused nothing changes.
pub(crate) fn cut_off(
    segments: &mut Vec<Vec<u8>>,
    at: usize,
    first: usize,
    inside: usize,
) -> Result<Vec<Vec<u8>>, AllocError>
    requires within { first ≤ length segments.old.items }
    requires place { length (flat_bytes (contents (take first segments.old.items))) + inside ≡ at }
    requires inside { inside ≤ length (slice_index_or (contents segments.old.items) first []) }
    requires before_end { first < length segments.old.items →
        inside < length (slice_index_or (contents segments.old.items) first []) }
    ensures front { OnOk result
        (flat_bytes (contents segments.new.items)
        ≡ take at (flat_bytes (contents segments.old.items))) }
    ensures back { IfOk result (λ rest. flat_bytes (contents rest.items)
        ≡ drop at (flat_bytes (contents segments.old.items))) }
    ensures front_lengths { OnOk result (lengths_of (contents segments.new.items)
        ≡ lengths_before at (lengths_of (contents segments.old.items))) }
    ensures back_lengths { IfOk result (λ rest. lengths_of (contents rest.items)
        ≡ lengths_from at (lengths_of (contents segments.old.items))) }
    ensures err { OnErr result (segments.new ≡ segments.old) }
{
    if inside == 0 {
        return segments.split_off(first);
    }
    let tail = segments[first][inside..].to_vec(*segments.allocator())?;
    let mut rest = segments.split_off(first)?;
    let mut head = mem::replace(&mut rest[0], tail);
    head.truncate(inside);
    segments.push(head).unwrap();
    Ok(rest)
}

// The totals of the segments from place `at` on, which lies in segment `first`.
pub(crate) fn totals_past(
    alloc: Global,
    totals: &[usize],
    at: usize,
    first: usize,
) -> Result<Running, AllocError>
    requires { first ≤ length totals.now }
    ensures { IfOk result (λ r. r.items ≡ map (λ total. total - at) (drop first totals.now)) }
{
    let rest = &totals[first..];
    let mut past = Running::with_capacity(alloc, rest.len())?;
    for total in rest {
        past.push_reserved(total.saturating_sub(at));
    }
    Ok(past)
}

// Leaves the totals of the segments up to place `at`, `inside` bytes into segment `first`.
pub(crate) fn end_totals(totals: &mut Running, at: usize, first: usize, inside: usize)
    requires { 0 < inside → first < length totals.old.items }
    ensures between { inside ≡ 0 → totals.new.items ≡ take first totals.old.items }
    ensures cut { 0 < inside → totals.new.items ≡ take first totals.old.items ++ at ∷ [] }
{
    totals.truncate(first);
    if inside > 0 {
        totals.push_reserved(at);
    }
}

impl Segments<Vec<Vec<u8>>> {
    // Cuts the segments at place `at`, and answers those from there on. Where memory is refused
    // nothing changes.
    pub(crate) fn split_off(&mut self, at: usize) -> Result<Segments<Vec<Vec<u8>>>, AllocError>
        requires { at ≤ length (flat_bytes self.old) }
        ensures front { OnOk result (flat_bytes self.new ≡ take at (flat_bytes self.old)) }
        ensures back { IfOk result (λ rest. flat_bytes rest ≡ drop at (flat_bytes self.old)) }
        ensures front_lengths { OnOk result
            (lengths_of self.new ≡ lengths_before at (lengths_of self.old)) }
        ensures back_lengths { IfOk result (λ rest.
            lengths_of rest ≡ lengths_from at (lengths_of self.old)) }
        ensures err { OnErr result (self.new ≡ self.old) }
    {
        let (first, inside) = self.place(at, &mut 0);
        let alloc = *self.list.allocator();
        let totals = totals_past(alloc, &self.totals, at, first)?;
        let list = cut_off(&mut self.list, at, first, inside)?;
        end_totals(&mut self.totals, at, first, inside);
        Ok(Segments { list, totals })
    }
}
