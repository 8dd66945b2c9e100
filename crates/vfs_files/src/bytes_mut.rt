//! Bytes in memory as a file that is written, and a transfer of the bytes of a WRITE into them.

ghost use Rattle.std.specs.Prelude.{◌≡◌, ◌-◌, ◌<◌, ◌≤◌, ℕ, List, IfErr, IfOk, OnOk, Some, length, take, replicate, vec_len, vec_capacity};
ghost use Rattle.std.specs.List.{concat};
ghost use Rattle.vfs_flags.specs.Numbers.{enomem};
ghost use Rattle.vfs_segments.specs.Memory.{with_bytes_at};
ghost use Rattle.vfs_files.specs.Bytes.{lengthened, Writes};

use crate::ZeroCopyReader;
use crate::bytes::{Bytes, fill_front};
use vfs_flags::{Errno, Fault};
use vfs_segments::{PositionedFile, Slices, SlicesMut, WritevFlags};

/// How many zeros are written at a time.
const BLOCK: usize = 4096;

/// A file of bytes that are kept in a vector, and are written up to a limit.
///
/// A read moves what is there, and nothing at or past the end. A write moves what ends within the
/// limit, and nothing at or past it; where it begins after the end, zeros fill the gap.
#[derive(Drop)]
pub struct BytesMut<'a> {
    /// The bytes.
    pub bytes: &'a mut Vec<u8>,
    /// How many bytes a write may make it at most.
    pub most: usize,
}

impl PositionedFile for BytesMut<'_> {
    ghost use Rattle.vfs_files.specs.BytesMut.{WritesFile, ReadsFile};

    ghost write_gives = { λ old bytes off flags answer new. WritesFile old bytes off answer new };

    ghost read_gives = { ReadsFile };

    /// `Errno::ENOMEM` where the file would become longer and there is no memory for it.
    fn write_vectored_at(
        &mut self,
        view: &Slices<'_>,
        off: u64,
        _flags: Option<WritevFlags>,
    ) -> Result<usize, Fault> {
        write_view(self.bytes, view, off, self.most)
    }

    fn read_vectored_at(&mut self, view: &mut SlicesMut<'_>, off: u64) -> Result<usize, Fault> {
        let mut file = Bytes::new(self.bytes);
        file.read_vectored_at(view, off)
    }
}

// Writes the beginning of what is lent over the bytes from place `off` on, as much as ends within
// the limit, and answers how many that are.
fn write_view(bytes: &mut Vec<u8>, view: &Slices<'_>, off: u64, most: usize) -> Result<usize, Fault>
    ensures bound { IfOk result (λ n. n ≤ length (concat view.now)) }
    ensures wrote { Writes most bytes.old.items (concat view.now) off result bytes.new.items }
{
    if off >= most as u64 || view.total() == 0 {
        return Ok(0);
    }
    let from = off as usize;
    let count = view.total().min(most - from);
    lengthen(bytes, from + count)?;
    overwrite(bytes, from, from + count, view);
    Ok(count)
}

/// Fills up with zeros to `end` what ends before it. `Errno::ENOMEM` where there is no memory for them:
/// then it stays.
pub fn lengthen(bytes: &mut Vec<u8>, end: usize) -> Result<(), Fault>
    ensures ok { OnOk result (bytes.new.items ≡ lengthened bytes.old.items end) }
    ensures err { IfErr result (λ fault. (fault ≡ Some enomem) × (vec_len bytes.old < end)
        × (bytes.new.items ≡ bytes.old.items)) }
{
    if end <= bytes.len() {
        return Ok(());
    }
    match bytes.reserve(end - bytes.len()) {
        Ok(()) => {}
        Err(_) => return Err(Some(Errno::ENOMEM)),
    }
    fill_up(bytes, end, &[0; BLOCK]);
    Ok(())
}

// Fills up to `end`, for which there is memory, with these zeros, again and again.
fn fill_up(bytes: &mut Vec<u8>, end: usize, zeros: &[u8])
    requires room { end ≤ vec_capacity bytes.old }
    requires zeros { zeros.now ≡ replicate BLOCK 0 }
    ensures { bytes.new.items ≡ lengthened bytes.old.items end }
{
    while bytes.len() < end {
        let count = (end - bytes.len()).min(BLOCK);
        let _ = bytes.extend_from_slice(&zeros[..count]);
    }
}

// Writes the beginning of what is lent over the bytes between two places.
fn overwrite(bytes: &mut Vec<u8>, from: usize, end: usize, view: &Slices<'_>)
    requires ordered { from ≤ end }
    requires within { end ≤ vec_len bytes.old }
    requires lent { end - from ≤ length (concat view.now) }
    ensures { bytes.new.items ≡
        with_bytes_at from (take (end - from) (concat view.now)) bytes.old.items }
{
    take_pieces(bytes.slice_mut(from..end), view);
}

// Fills `room` with the beginning of what is lent.
fn take_pieces(room: &mut [u8], view: &Slices<'_>)
    requires { length room.old ≤ length (concat view.now) }
    ensures { room.new ≡ take (length room.old) (concat view.now) }
{
    let mut done = 0;
    for i in 0..view.count() {
        done += fill_front(&mut room[done..], view.get(i));
    }
}

/// Takes up to `size` bytes from `r`, writes those into `bytes`, from `offset` on, that end within
/// `most`, and answers how many these are. Where `offset` is after the end, zeros fill the gap.
/// `Errno::ENOMEM` where `bytes` would become longer and there is no memory for it: then they stay.
///
/// A [`write`](crate::FileSystem::write) of contents in memory is one call of it.
pub fn write_bytes<R: ZeroCopyReader>(
    bytes: &mut Vec<u8>,
    r: &mut R,
    size: u32,
    offset: u64,
    most: usize,
) -> Result<u32, Fault>
    ensures { (taken : List ℕ) × R.takes r.old taken r.new
        × Writes most bytes.old.items (take size (R.left r.old)) offset result bytes.new.items }
{
    let mut file = BytesMut { bytes, most };
    match r.write_to_file_at(&mut file, size as usize, offset, None) {
        Ok(count) => Ok(count as u32),
        Err(fault) => Err(fault),
    }
}
