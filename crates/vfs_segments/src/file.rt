//! Files that move bytes at a position.

ghost use Rattle.std.specs.Prelude.{◌≤◌, ℕ, List, length, IfOk, Option, Result};
ghost use Rattle.std.specs.List.{concat};
ghost use Rattle.vfs_segments.specs.Views.{IsSameRoom, moved};

use crate::views::{Slices, SlicesMut};
use vfs_flags::Fault;

/// How a write of a file is to be made, the flags of `pwritev2`, as a number that is passed on.
#[derive(Clone, Copy, Debug)]
pub struct WritevFlags(pub u32);

/// A file that moves bytes at a position: a real one, or one that is kept in memory.
///
/// What the file does with the bytes is its own matter, which it states by two relations.
pub trait PositionedFile {
    ghost use Rattle.vfs_segments.specs.declared.file.WritevFlags.{WritevFlags};

    /// What a write may do: the file before, the bytes that are lent, the position, the flags, the
    /// answer, and the file after.
    ghost write_gives: { Self → List ℕ → ℕ → Option WritevFlags → Result ℕ (Option ℕ) →
        Self → Type 0 };

    /// What a read may do: the file before, the position, how many bytes there is room for, the
    /// answer, the bytes that were moved, and the file after.
    ghost read_gives: { Self → ℕ → ℕ → Result ℕ (Option ℕ) → List ℕ → Self → Type 0 };

    /// Writes a beginning of the bytes that are lent into the file, from byte `off` of it on, and
    /// answers how many. A fault is one of the file, and then nothing counts as written.
    fn write_vectored_at(
        &mut self,
        view: &Slices<'_>,
        off: u64,
        flags: Option<WritevFlags>,
    ) -> Result<usize, Fault>
        ensures bound { IfOk result (λ n. n ≤ length (concat view.now)) }
        ensures gives { write_gives self.old (concat view.now) off flags result self.new };

    /// Reads bytes of the file, from byte `off` of it on, into a beginning of the room, and answers
    /// how many. A fault is one of the file, and then nothing counts as read. What the room then
    /// has past the bytes that were moved is open.
    fn read_vectored_at(&mut self, view: &mut SlicesMut<'_>, off: u64) -> Result<usize, Fault>
        ensures bound { IfOk result (λ n. n ≤ length (concat view.old.pieces)) }
        ensures same_room { IsSameRoom view.old view.new }
        ensures gives { read_gives self.old off (length (concat view.old.pieces)) result
            (moved result view.new) self.new };
}
