//! Lends segments to files.

ghost use Rattle.std.specs.Prelude.{◌≡◌, ℕ, ◌+◌, ◌^◌, ◌<◌, ◌≤◌, List, length, take, drop, IfOk};
ghost use Rattle.vfs_segments.specs.Segments.{flat_bytes, lengths_of, with_bytes_at};
ghost use Rattle.vfs_segments.specs.Transfer.{moved_bytes};

use crate::segments::Segments;
use crate::{PositionedFile, Slices, SlicesMut, WritevFlags};
use std::mem;
use vfs_flags::Fault;

impl<'a> Segments<&'a [&'a [u8]]> {
    // Lends a file the `n` bytes from place `at` on, to be written into it.
    pub(crate) fn write_from<P: PositionedFile>(
        &self,
        at: usize,
        n: usize,
        file: &mut P,
        off: u64,
        flags: Option<WritevFlags>,
    ) -> Result<usize, Fault>
        requires some { 0 < n }
        requires fits { at + n ≤ length (flat_bytes self.now) }
        requires small { at + n < 2 ^ 64 }
        ensures bound { IfOk result (λ m. m ≤ n) }
        ensures gives { P.write_gives file.old
            (take n (drop at (flat_bytes self.now))) off flags result file.new }
    {
        let view = Slices::new(self.lent_list(), self.span(at, n));
        file.write_vectored_at(&view, off, flags)
    }
}

impl Segments<Vec<Vec<u8>>> {
    // Lends a file the `n` bytes from place `at` on, to be read into.
    pub(crate) fn read_into<P: PositionedFile>(
        &mut self,
        at: usize,
        n: usize,
        file: &mut P,
        off: u64,
    ) -> Result<usize, Fault>
        requires some { 0 < n }
        requires fits { at + n ≤ length (flat_bytes self.old) }
        requires small { at + n < 2 ^ 64 }
        ensures bound { IfOk result (λ m. m ≤ n) }
        ensures lengths { lengths_of self.new ≡ lengths_of self.old }
        ensures moved { (room : List ℕ) × (length room ≡ n)
            × (flat_bytes self.new ≡ with_bytes_at at room (flat_bytes self.old))
            × P.read_gives file.old off n result (moved_bytes result room) file.new }
    {
        let span = self.span(at, n);
        let alloc = *self.list.allocator();
        let list = mem::replace(&mut self.list, Vec::new(alloc));
        let mut view = SlicesMut::new(alloc, list, span);
        let answer = file.read_vectored_at(&mut view, off);
        self.list = view.into_segments();
        answer
    }
}
