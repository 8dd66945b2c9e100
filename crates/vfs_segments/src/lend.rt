//! Lends bytes that lie in one segment.

ghost use Rattle.std.specs.Prelude.{◌≡◌, ◌+◌, ◌≤◌, ◌&&◌, nat_le, length, take, drop, is_some, IfSome};
ghost use Rattle.vfs_segments.specs.Lengths.{lie_together};
ghost use Rattle.vfs_segments.specs.Segments.{flat_bytes, lengths_of};

use crate::segments::Segments;

impl<'a> Segments<&'a [&'a [u8]]> {
    // The `n` bytes from place `at` on, where one segment has all of them.
    pub(crate) fn lent(&self, at: usize, near: &mut usize, n: usize) -> Option<&'a [u8]>
        requires { at + n ≤ length (flat_bytes self.now) }
        ensures found { is_some result ≡ lie_together at n (lengths_of self.now) }
        ensures bytes { IfSome result (λ bytes.
            bytes.now ≡ take n (drop at (flat_bytes self.now))) }
    {
        let (first, skip) = self.place(at, near);
        if first >= self.count() {
            return Some(&[]);
        }
        let segment = self.segment(first);
        if n > segment.len() - skip {
            return None;
        }
        Some(&segment[skip..skip + n])
    }

    // Whether the `n` bytes that follow `at` bytes of those between two places are all there and lie
    // in one segment.
    pub(crate) fn is_one_piece(&self, from: usize, end: usize, at: usize, n: usize) -> bool
        requires ordered { from ≤ end }
        requires fits { end ≤ length (flat_bytes self.now) }
        ensures { result ≡ (nat_le (from + at + n) end
            && lie_together (from + at) n (lengths_of self.now)) }
    {
        let left = end - from;
        if at > left || n > left - at {
            return false;
        }
        self.lent(from + at, &mut 0, n).is_some()
    }
}
