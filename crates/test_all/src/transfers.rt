//! Transfers with a file that moves few bytes a call, or fails: what it is lent, and where it ends.

ghost use Rattle.std.specs.Prelude.{◌≤◌, IfOk};

use crate::segments::writer_over;
use crate::support::holds;
use std::alloc::Global;
use std::test::Fail;
use vfs_files::{ZeroCopyReader, ZeroCopyWriter};
use vfs_flags::{Errno, Fault};
use vfs_segments::{PositionedFile, Reader, Slices, SlicesMut, WritevFlags};
use vfs_server::server::{ZcReader, ZcWriter};

/// A file that moves at most that many bytes a call, fails with EIO at one of its calls, and notes
/// what it was lent.
#[derive(Drop)]
struct Slow {
    most: usize,
    fails_at: usize,
    /// Position and length of each view.
    views: Vec<(u64, usize)>,
    /// The length of each of their pieces.
    pieces: Vec<usize>,
}

impl Slow {
    /// A file that fails at its call of this number, the first being 1.
    fn new(alloc: Global, most: usize, fails_at: usize) -> Slow {
        Slow {
            most,
            fails_at,
            views: Vec::new(alloc),
            pieces: Vec::new(alloc),
        }
    }

    /// Notes a view, and answers how many of its bytes are moved.
    fn moves(&mut self, off: u64, total: usize) -> Result<usize, Fault>
        ensures { IfOk result (λ n. n ≤ total) }
    {
        if self.views.push((off, total)).is_err() {
            return Err(Some(Errno::ENOMEM));
        }
        if self.views.len() == self.fails_at {
            return Err(Some(Errno::EIO));
        }
        Ok(total.min(self.most))
    }
}

impl PositionedFile for Slow {
    ghost use Rattle.std.specs.Prelude.{⊤};

    ghost write_gives = { λ old bytes off flags answer new. ⊤ };

    ghost read_gives = { λ old off room answer moved new. ⊤ };

    fn write_vectored_at(
        &mut self,
        view: &Slices<'_>,
        off: u64,
        _flags: Option<WritevFlags>,
    ) -> Result<usize, Fault> {
        for i in 0..view.count() {
            if self.pieces.push(view.get(i).len()).is_err() {
                return Err(Some(Errno::ENOMEM));
            }
        }
        self.moves(off, view.total())
    }

    fn read_vectored_at(&mut self, view: &mut SlicesMut<'_>, off: u64) -> Result<usize, Fault> {
        self.moves(off, view.total())
    }
}

/// What a transfer out of these segments answers, and how much is left of them.
fn sent(
    alloc: Global,
    segments: &[&[u8]],
    file: &mut Slow,
    count: usize,
    off: u64,
) -> Result<(Result<usize, Fault>, usize), Fail> {
    let mut reader = ZcReader(Reader::new(alloc, segments)?);
    let answer = reader.write_to_file_at(file, count, off, None);
    Ok((answer, reader.0.available_bytes()))
}

/// A transfer out of the segments `a` and `bc`.
struct Transfer {
    /// How many bytes its file moves a call.
    most: usize,
    /// The call that fails.
    fails_at: usize,
    count: usize,
    off: u64,
    answer: Result<usize, Fault>,
    left: usize,
    /// The position and the length of each view.
    views: &'static [(u64, usize)],
}

const TRANSFERS: [Transfer; 4] = [
    // All that is left, by two calls.
    Transfer {
        most: 2,
        fails_at: 0,
        count: 5,
        off: 0,
        answer: Ok(3),
        left: 0,
        views: &[(0, 3), (2, 1)],
    },
    // A fault of the second call.
    Transfer {
        most: 2,
        fails_at: 2,
        count: 5,
        off: 0,
        answer: Err(Some(Errno::EIO)),
        left: 1,
        views: &[(0, 3), (2, 1)],
    },
    // The position passes the largest number, with bytes still to be moved and without.
    Transfer {
        most: 1,
        fails_at: 0,
        count: 2,
        off: u64::MAX,
        answer: Err(None),
        left: 2,
        views: &[(u64::MAX, 2)],
    },
    Transfer {
        most: 1,
        fails_at: 0,
        count: 1,
        off: u64::MAX,
        answer: Err(None),
        left: 2,
        views: &[(u64::MAX, 1)],
    },
];

/// Whether a transfer is made so.
fn is_made(alloc: Global, row: &Transfer) -> Result<bool, Fail> {
    let mut file = Slow::new(alloc, row.most, row.fails_at);
    let sent = sent(alloc, &[b"a", b"bc"], &mut file, row.count, row.off)?;
    Ok(sent == (row.answer, row.left) && file.views.as_slice() == row.views)
}

#[test]
fn files_are_lent_the_next_bytes_until_all_is_moved(rt: HostRuntime) -> Result<(), Fail> {
    for row in &TRANSFERS {
        holds(is_made(rt.alloc(), row))?;
    }
    Ok(())
}

/// Whether a file that takes all is lent the segments themselves, here one and a part of the next.
fn is_lent_pieces(alloc: Global) -> Result<bool, Fail> {
    let mut file = Slow::new(alloc, usize::MAX, 0);
    let mut reader = Reader::new(alloc, &[b"abcd", b"efgh"])?;
    let answer = reader.write_to_file_at(&mut file, 5, 0, None);
    Ok(
        answer == Ok(5)
            && reader.available_bytes() == 3
            && file.pieces.as_slice() == [4, 1].as_slice(),
    )
}

#[test]
fn a_file_is_lent_the_segments_themselves(rt: HostRuntime) -> Result<(), Fail> {
    holds(is_lent_pieces(rt.alloc()))
}

/// Whether a room of three bytes is lent to a file until it is full.
fn fills_a_room(alloc: Global) -> Result<bool, Fail> {
    let mut file = Slow::new(alloc, 2, 0);
    let mut writer = ZcWriter(writer_over(alloc, &[1, 2])?);
    let answer = writer.read_from_file_at(&mut file, 5, 0);
    Ok(
        answer == Ok(3)
            && writer.0.bytes_written() == 3
            && file.views.as_slice() == [(0, 3), (2, 1)].as_slice(),
    )
}

#[test]
fn a_room_is_lent_until_it_is_full(rt: HostRuntime) -> Result<(), Fail> {
    holds(fills_a_room(rt.alloc()))
}
