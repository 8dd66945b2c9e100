//! The file whose bytes `read` and `write` move: a new one for each request.
//!
//! It moves few bytes a call, and may fail, by the seed:
//!
//! - Its call of the number `seed / 4 % 5`, where that isn't 0 and the first call is 1, fails: with
//!   EIO where `seed / 20` is even, else without a number.
//! - Each of its first eight calls moves at most `seed % 4` bytes, where that isn't 0.
//! - Where `seed / 80` is odd nothing is moved at or past position 64.
//! - Byte i of a call at position p is read as `(p % 251 + i + seed) % 251`.
//! - Where `seed / 40` is even, all is moved by one transfer. Else one moves the first half, and,
//!   where it moves all of that, another one the rest.

ghost use Rattle.std.specs.Prelude.{◌≤◌, ℕ, List, IfOk};
ghost use Rattle.vfs_files.specs.Answers.{Counts};
ghost use Rattle.vfs_segments.specs.Views.{IsSameRoom};

use crate::FsResult;
use crate::seeded::notes::Notes;
use vfs_files::{ZeroCopyReader, ZeroCopyWriter};
use vfs_flags::{Errno, MAX_REPLY_DATA};
use vfs_segments::{PositionedFile, Slices, SlicesMut, WritevFlags};

/// The file. It notes its calls.
#[derive(Drop)]
pub struct Contents {
    seed: u32,
    calls: u32,
    notes: Notes,
}

impl Contents {
    /// A file by this seed, which adds its calls to these notes.
    pub fn new(seed: u32, notes: Notes) -> Contents {
        Contents {
            seed,
            calls: 0,
            notes,
        }
    }

    /// The notes, with those of its calls.
    pub fn into_notes(self) -> Notes {
        self.notes
    }

    /// Puts up to `size` bytes into `w`, from `offset` on, and answers how many.
    pub fn read_into<W: ZeroCopyWriter>(
        &mut self,
        w: &mut W,
        size: u32,
        offset: u64,
    ) -> FsResult<usize>
        ensures { (bytes : List ℕ) × W.puts w.old bytes w.new × Counts result bytes size }
    {
        let size = size.min(MAX_REPLY_DATA) as usize;
        if self.seed / 40 % 2 == 0 {
            return w.read_from_file_at(self, size, offset);
        }
        let half = size / 2;
        let moved = w.read_from_file_at(self, half, offset)?;
        if moved < half {
            return Ok(moved);
        }
        let Some(next) = offset.checked_add(moved as u64) else {
            return Ok(moved);
        };
        match w.read_from_file_at(self, size - moved, next) {
            Ok(rest) => Ok(moved + rest),
            Err(fault) => Err(fault),
        }
    }

    /// Takes up to `size` bytes from `r`, for the file from `offset` on, and answers how many.
    pub fn write_from<R: ZeroCopyReader>(
        &mut self,
        r: &mut R,
        size: u32,
        offset: u64,
    ) -> FsResult<usize>
        ensures taken { (bytes : List ℕ) × R.takes r.old bytes r.new }
        ensures within { IfOk result (λ n. n ≤ size) }
    {
        let size = size as usize;
        if self.seed / 40 % 2 == 0 {
            return r.write_to_file_at(self, size, offset, None);
        }
        let half = size / 2;
        let moved = r.write_to_file_at(self, half, offset, None)?;
        if moved < half {
            return Ok(moved);
        }
        let Some(next) = offset.checked_add(moved as u64) else {
            return Ok(moved);
        };
        match r.write_to_file_at(self, size - moved, next, None) {
            Ok(rest) => Ok(moved + rest),
            Err(fault) => Err(fault),
        }
    }

    // How many of `len` bytes a call at a position moves.
    fn moves(&mut self, off: u64, len: usize) -> FsResult<usize>
        ensures { IfOk result (λ n. n ≤ len) }
    {
        self.calls = self.calls.saturating_add(1);
        let failing = self.seed / 4 % 5;
        if failing != 0 && self.calls == failing {
            let error = self.seed / 20 % 2 == 0;
            return Err(if error { Some(Errno::EIO) } else { None });
        }
        let most = self.seed % 4;
        let few = if most != 0 && self.calls <= 8 {
            most as usize
        } else {
            len
        };
        let here = if self.seed / 80 % 2 == 1 {
            64u64.saturating_sub(off) as usize
        } else {
            len
        };
        Ok(len.min(few).min(here))
    }
}

impl PositionedFile for Contents {
    ghost use Rattle.std.specs.Prelude.{⊤};

    ghost write_gives = { λ old bytes off flags answer new. ⊤ };

    ghost read_gives = { λ old off room answer moved new. ⊤ };

    fn write_vectored_at(
        &mut self,
        view: &Slices<'_>,
        off: u64,
        _flags: Option<WritevFlags>,
    ) -> FsResult<usize> {
        let answer = self.moves(off, view.total());
        self.notes.file("write", off, view.total(), &answer);
        if let Ok(count) = answer {
            note_pieces(&mut self.notes, view, count);
        }
        self.notes.end();
        answer
    }

    fn read_vectored_at(&mut self, view: &mut SlicesMut<'_>, off: u64) -> FsResult<usize> {
        let answer = self.moves(off, view.total());
        self.notes.file("read", off, view.total(), &answer);
        if let Ok(count) = answer {
            let first = (off % 251).wrapping_add(u64::from(self.seed));
            fill_pieces(&mut self.notes, view, first, count);
        }
        self.notes.end();
        answer
    }
}

// Notes the first `count` bytes that are lent.
fn note_pieces(notes: &mut Notes, view: &Slices<'_>, count: usize) {
    let mut left = count;
    for i in 0..view.count() {
        let piece = view.get(i);
        let part = left.min(piece.len());
        notes.hex(&piece[..part]);
        left -= part;
    }
}

// Fills the first `count` bytes of the room, whose values count on from `first`, and notes them.
fn fill_pieces(notes: &mut Notes, view: &mut SlicesMut<'_>, first: u64, count: usize)
    ensures { IsSameRoom view.old view.new }
{
    let mut left = count;
    let mut value = first;
    for i in 0..view.count() {
        let part = fill_piece(notes, view.get_mut(i), value, left);
        value = value.wrapping_add(part as u64);
        left -= part;
    }
}

// The same for the first `left` bytes of a piece, or all of it. Answers how many these are.
fn fill_piece(notes: &mut Notes, piece: &mut [u8], first: u64, left: usize) -> usize
    ensures { result ≤ left }
{
    let part = left.min(piece.len());
    for i in 0..part {
        piece[i] = (first.wrapping_add(i as u64) % 251) as u8;
    }
    notes.hex(&piece[..part]);
    part
}
