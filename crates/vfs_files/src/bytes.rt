//! Bytes in memory as a file, and their transfer into a reply to READ.

ghost use Rattle.std.specs.Prelude.{◌≡◌, ◌≤◌, ◌++◌, ℕ, List, length, take, drop, min, Err, Some};
ghost use Rattle.std.specs.List.{concat};
ghost use Rattle.vfs_flags.specs.Numbers.{ebadf};
ghost use Rattle.vfs_segments.specs.Views.{IsSameRoom};
ghost use Rattle.vfs_files.specs.Bytes.{PutsPart};

use crate::ZeroCopyWriter;
use std::marker::Model;
use vfs_flags::{Errno, Fault, MAX_REPLY_DATA};
use vfs_segments::{PositionedFile, Slices, SlicesMut, WritevFlags};

/// A file of bytes that are only read. A read moves what is there, and nothing at or past the end.
#[derive(Debug, Drop)]
pub struct Bytes<'a> {
    bytes: &'a [u8],
}

impl<'a> Model for Bytes<'a> {
    ghost use Rattle.std.specs.Prelude.{List, ℕ};

    ghost Value = { List ℕ };

    ghost view = { λ file. file.bytes.now };
}

impl<'a> Bytes<'a> {
    /// The file of these bytes.
    pub fn new(bytes: &'a [u8]) -> Bytes<'a>
        ensures { result ≡ bytes.now }
    {
        Bytes { bytes }
    }
}

impl PositionedFile for Bytes<'_> {
    ghost use Rattle.vfs_files.specs.Bytes.{Reads};

    ghost write_gives = { λ old bytes off flags answer new. answer ≡ Err (Some ebadf) };

    ghost read_gives = { Reads };

    /// Always `Errno::EBADF`.
    fn write_vectored_at(
        &mut self,
        _view: &Slices<'_>,
        _off: u64,
        _flags: Option<WritevFlags>,
    ) -> Result<usize, Fault> {
        Err(Some(Errno::EBADF))
    }

    fn read_vectored_at(&mut self, view: &mut SlicesMut<'_>, off: u64) -> Result<usize, Fault> {
        let bytes = part(self.bytes, off, view.total());
        put_pieces(view, bytes);
        Ok(bytes.len())
    }
}

// The bytes from place `off` on, at most that many.
fn part(bytes: &[u8], off: u64, most: usize) -> &[u8]
    ensures { result.now ≡ take most (drop off bytes.now) }
{
    if off >= bytes.len() as u64 {
        return &[];
    }
    let rest = &bytes[off as usize..];
    &rest[..most.min(rest.len())]
}

// Writes the bytes over the beginning of the room that is lent.
fn put_pieces(view: &mut SlicesMut<'_>, bytes: &[u8])
    requires { length bytes.now ≤ length (concat view.old.pieces) }
    ensures same_room { IsSameRoom view.old view.new }
    ensures put { take (length bytes.now) (concat view.new.pieces) ≡ bytes.now }
{
    let mut done = 0;
    for i in 0..view.count() {
        done += fill_front(view.get_mut(i), &bytes[done..]);
    }
}

// Copies as many bytes to the front of `piece` as both have, and answers how many.
pub(crate) fn fill_front(piece: &mut [u8], bytes: &[u8]) -> usize
    ensures count { result ≡ min (length piece.old) (length bytes.now) }
    ensures copied { piece.new ≡ take result bytes.now ++ drop result piece.old }
{
    let count = piece.len().min(bytes.len());
    piece[..count].copy_from_slice(&bytes[..count]);
    count
}

/// Puts bytes of a file that lies in memory into `w`, and answers how many: those from `offset` on,
/// at most `size`, at most what `w` has room for, and at most `MAX_REPLY_DATA`. It has no fault.
///
/// A [`read`](crate::FileSystem::read) of contents in memory is one call of it.
pub fn read_bytes<W: ZeroCopyWriter>(
    bytes: &[u8],
    w: &mut W,
    size: u32,
    offset: u64,
) -> Result<usize, Fault>
    ensures { (moved : List ℕ) × W.puts w.old moved w.new
        × PutsPart bytes.now (W.room w.old) size offset result moved }
{
    let mut file = Bytes { bytes };
    w.read_from_file_at(&mut file, size.min(MAX_REPLY_DATA) as usize, offset)
}
