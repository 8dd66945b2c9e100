//! Where lent bytes lie in a list of segments.

ghost use Rattle.std.specs.Prelude.{◌≡◌, ◌+◌, ◌<◌};

/// Some bytes of a list of segments, which follow one another: those of `count` segments from the
/// segment `first` on, in the first one without its first `skip` bytes, in the last one up to its
/// place `end`.
///
/// A reader or a writer finds it, to lend a file just these bytes.
#[derive(Clone, Copy, Debug)]
pub struct Span {
    /// The segment in which the bytes begin.
    pub first: usize,
    /// How many segments they lie in, at least one.
    pub count: usize,
    /// How many bytes of the first segment come before them.
    pub skip: usize,
    /// Where they end in the last segment.
    pub end: usize,
    /// How many bytes they are.
    pub total: usize,
}

impl Span {
    // Where piece `i` begins and ends in its segment, which has `len` bytes.
    pub(crate) fn bounds(&self, i: usize, len: usize) -> (usize, usize)
        requires { i < self.now.count }
        ensures head { i ≡ 0 → result.0 ≡ self.now.skip }
        ensures later { 0 < i → result.0 ≡ 0 }
        ensures last { i + 1 ≡ self.now.count → result.1 ≡ self.now.end }
        ensures inner { i + 1 < self.now.count → result.1 ≡ len }
    {
        let from = if i == 0 { self.skip } else { 0 };
        let to = if i + 1 == self.count { self.end } else { len };
        (from, to)
    }
}
