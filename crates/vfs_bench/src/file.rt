//! A file for tests, which moves few bytes at a time and fails where it is told to.

ghost use Rattle.std.specs.Prelude.{◌≡◌, ◌≤◌, length, replicate, IfOk};
ghost use Rattle.std.specs.List.{concat};
ghost use Rattle.vfs_segments.specs.Views.{IsSameRoom};
ghost use Rattle.vfs_bench.specs.Scripts.{script_answer, called};

use crate::FsResult;
use vfs_flags::Fault;
use vfs_segments::{PositionedFile, Slices, SlicesMut, WritevFlags};

/// A file that moves a number of bytes a call at most, whatever the position, and fails at one of
/// its calls.
///
/// It has no end. What is written is let go.
#[derive(Clone, Copy, Debug)]
pub struct ScriptFile {
    /// How many bytes a call moves at most.
    pub most: usize,
    /// Which call fails, where the first is 1, if one is to fail.
    pub fails_at: Option<u64>,
    /// The fault of the call that fails.
    pub fault: Fault,
    /// The byte that reads put, again and again.
    pub byte: u8,
    /// How many calls were made, at most `u64::MAX`.
    pub calls: u64,
}

impl ScriptFile {
    // Counts a call that is to move `len` bytes, and answers how many it moves.
    fn called(&mut self, len: usize) -> FsResult<usize>
        ensures answered { result ≡ script_answer self.old len }
        ensures counted { self.new ≡ called self.old }
        ensures bound { IfOk result (λ n. n ≤ len) }
    {
        self.calls = self.calls.saturating_add(1);
        match self.fails_at {
            Some(call) if call == self.calls => Err(self.fault),
            _ => Ok(len.min(self.most)),
        }
    }
}

impl PositionedFile for ScriptFile {
    ghost use Rattle.vfs_bench.specs.Scripts.{ReadsScript, WritesScript};

    ghost write_gives = { WritesScript };

    ghost read_gives = { ReadsScript };

    fn write_vectored_at(
        &mut self,
        view: &Slices<'_>,
        off: u64,
        flags: Option<WritevFlags>,
    ) -> FsResult<usize> {
        self.called(view.total())
    }

    fn read_vectored_at(&mut self, view: &mut SlicesMut<'_>, off: u64) -> FsResult<usize> {
        fill(view, self.byte);
        self.called(view.total())
    }
}

// Writes the byte over all of the room that is lent.
fn fill(view: &mut SlicesMut<'_>, byte: u8)
    ensures same_room { IsSameRoom view.old view.new }
    ensures filled { concat view.new.pieces ≡ replicate (length (concat view.old.pieces)) byte }
{
    for i in 0..view.count() {
        view.get_mut(i).fill(byte);
    }
}
