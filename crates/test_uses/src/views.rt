//! Two small files, and views that are lent to them. What each function ensures follows from public
//! contracts alone.

ghost use Rattle.std.specs.Prelude.{◌≡◌, ◌+◌, ◌-◌, ◌<◌, ◌++◌, [], length, take, drop, IfOk, IfErr, MatchResult, OnOk, OnErr, Ok, Some, replicate, slice_index_or};
ghost use Rattle.vfs_segments.specs.Memory.{contents, flat_bytes, lengths_of, with_bytes_at};
ghost use Rattle.vfs_segments.specs.Views.{IsSpan, room_of};

use std::alloc::Global;
use vfs_flags::{Errno, Fault};
use vfs_segments::{PositionedFile, Slices, SlicesMut, Span, WritevFlags};

/// A file that keeps what is written one write after another, wherever it is to be written. It
/// takes all bytes that it is lent, and has none to be read.
#[derive(Drop)]
pub struct Journal {
    /// What was written.
    pub bytes: Vec<u8>,
}

impl PositionedFile for Journal {
    // 12 is `Errno::ENOMEM`.
    ghost write_gives = { λ old bytes off flags answer new. MatchResult answer
        (λ n. (n ≡ length bytes) × (new.bytes.items ≡ old.bytes.items ++ bytes))
        (λ fault. (fault ≡ Some 12) × (new.bytes.items ≡ old.bytes.items)) };

    ghost read_gives = { λ old off room answer moved new. (answer ≡ Ok 0) × (new ≡ old) };

    /// `Errno::ENOMEM` where there is no memory for all bytes. Then the file keeps none of them.
    fn write_vectored_at(
        &mut self,
        view: &Slices<'_>,
        _off: u64,
        _flags: Option<WritevFlags>,
    ) -> Result<usize, Fault> {
        let before = self.bytes.len();
        for i in 0..view.count() {
            if self.bytes.extend_from_slice(view.get(i)).is_err() {
                self.bytes.truncate(before);
                return Err(Some(Errno::ENOMEM));
            }
        }
        Ok(view.total())
    }

    fn read_vectored_at(&mut self, _view: &mut SlicesMut<'_>, _off: u64) -> Result<usize, Fault> {
        Ok(0)
    }
}

/// A file of zeros without an end. A read fills all of the room, and what is written is let go.
#[derive(Clone, Copy, Debug)]
pub struct Zeros;

impl PositionedFile for Zeros {
    ghost write_gives = { λ old bytes off flags answer new. answer ≡ Ok (length bytes) };

    ghost read_gives = { λ old off room answer moved new.
        (answer ≡ Ok room) × (moved ≡ replicate room 0) };

    fn write_vectored_at(
        &mut self,
        view: &Slices<'_>,
        _off: u64,
        _flags: Option<WritevFlags>,
    ) -> Result<usize, Fault> {
        Ok(view.total())
    }

    fn read_vectored_at(&mut self, view: &mut SlicesMut<'_>, _off: u64) -> Result<usize, Fault> {
        for i in 0..view.count() {
            view.get_mut(i).fill(0);
        }
        Ok(view.total())
    }
}

/// The last piece of what is lent to be read. There always is one.
fn last_piece<'s>(view: &Slices<'s>) -> &'s [u8]
    ensures { result.now ≡ slice_index_or view.now (length view.now - 1) [] }
{
    view.get(view.count() - 1)
}

/// How many bytes the last piece of the room that is lent has. There always is one.
fn last_room(view: &mut SlicesMut<'_>) -> usize
    ensures { result ≡
        length (slice_index_or view.old.pieces (length view.old.pieces - 1) []) }
{
    let last = view.count() - 1;
    view.get_mut(last).len()
}

/// Of two segments of two bytes the middle two bytes are written to the journal: the last of the
/// first one and the first of the last one. Only memory can be wanting, and then none is written.
fn middle_of_two_segments(journal: &mut Journal, first: &[u8], last: &[u8]) -> Result<usize, Fault>
    requires first_two { length first.now ≡ 2 }
    requires last_two { length last.now ≡ 2 }
    ensures count { IfOk result (λ n. n ≡ 2) }
    ensures written { OnOk result (journal.new.bytes.items ≡
        journal.old.bytes.items ++ drop 1 first.now ++ take 1 last.now) }

    // 12 is `Errno::ENOMEM`.
    ensures memory { IfErr result (λ fault. fault ≡ Some 12) }
    ensures err { OnErr result (journal.new.bytes.items ≡ journal.old.bytes.items) }
{
    let segments = [first, last];
    let span = Span {
        first: 0,
        count: 2,
        skip: 1,
        end: 1,
        total: 2,
    };
    journal.write_vectored_at(&Slices::new(&segments, span), 0, None)
}

/// Zeros are read into a span of segments. They are in place of the bytes of the span, and of no
/// others, and each segment keeps its length.
fn zeros_in_a_span(alloc: Global, segments: Vec<Vec<u8>>, span: Span) -> Vec<Vec<u8>>
    requires { IsSpan span (contents segments.items) }
    ensures lengths { lengths_of (contents result.items) ≡ lengths_of (contents segments.items) }
    ensures bytes { flat_bytes (contents result.items) ≡
        with_bytes_at (length (room_of span (contents segments.items)).before)
        (replicate span.total 0) (flat_bytes (contents segments.items)) }
{
    let mut view = SlicesMut::new(alloc, segments, span);
    Zeros.read_vectored_at(&mut view, 0).unwrap();
    view.into_segments()
}
