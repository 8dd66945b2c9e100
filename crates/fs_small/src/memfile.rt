//! A file in memory.

ghost use Rattle.std.specs.Prelude.{◌≡◌, ◌≤◌, ℕ, List, length, take, vec_len};
ghost use Rattle.fs_small.specs.MemFile.{Writes};

use std::marker::Model;
use vfs_files::{Bytes, BytesMut, ZeroCopyReader, write_bytes};
use vfs_flags::Fault;
use vfs_segments::{PositionedFile, Slices, SlicesMut, WritevFlags};

/// How many bytes a file has at most.
const MOST_BYTES: usize = 65_536;

/// A file of at most 65,536 bytes, which are kept in memory.
///
/// A read moves what is there, and nothing at or past the end. A write moves what ends within the
/// limit, and nothing at or past it; where it begins after the end, zeros fill the gap.
#[derive(Debug, Drop)]
pub struct MemFile {
    bytes: Vec<u8>,
}

impl Model for MemFile {
    ghost use Rattle.std.specs.Prelude.{◌≤◌, List, length, ℕ};

    ghost Value = { List ℕ };

    ghost view = { λ file. file.bytes.items };

    ghost invariant = { λ file. length file.bytes.items ≤ 65536 };
}

impl MemFile {
    /// A file that has these bytes.
    pub fn new(bytes: Vec<u8>) -> MemFile
        requires { vec_len bytes ≤ MOST_BYTES }
        ensures { result ≡ bytes.items }
    {
        MemFile { bytes }
    }

    /// How many bytes it has.
    pub fn len(&self) -> usize
        ensures { result ≡ length self.now }
    {
        self.bytes.len()
    }

    /// Its bytes.
    pub fn bytes(&self) -> &[u8]
        ensures { result.now ≡ self.now }
    {
        &self.bytes
    }

    /// Takes up to `size` bytes from `r`, puts those into the file that fit, from `offset` on, and
    /// answers how many. `Errno::ENOMEM` where the file would become longer and there is no memory
    /// for it: then it stays.
    pub fn write_from<R: ZeroCopyReader>(
        &mut self,
        r: &mut R,
        size: u32,
        offset: u64,
    ) -> Result<u32, Fault>
        ensures { (bytes : List ℕ) × R.takes r.old bytes r.new
            × Writes self.old (take size (R.left r.old)) offset result self.new }
    {
        write_bytes(&mut self.bytes, r, size, offset, MOST_BYTES)
    }
}

impl PositionedFile for MemFile {
    ghost use Rattle.vfs_files.specs.Bytes.{Reads};
    ghost use Rattle.fs_small.specs.MemFile.{Writes};

    ghost write_gives = { λ old bytes off flags answer new. Writes old bytes off answer new };

    ghost read_gives = { Reads };

    /// `Errno::ENOMEM` where the file would become longer and there is no memory for it.
    fn write_vectored_at(
        &mut self,
        view: &Slices<'_>,
        off: u64,
        flags: Option<WritevFlags>,
    ) -> Result<usize, Fault> {
        let mut file = BytesMut {
            bytes: &mut self.bytes,
            most: MOST_BYTES,
        };
        file.write_vectored_at(view, off, flags)
    }

    fn read_vectored_at(&mut self, view: &mut SlicesMut<'_>, off: u64) -> Result<usize, Fault> {
        let mut file = Bytes::new(&self.bytes);
        file.read_vectored_at(view, off)
    }
}
