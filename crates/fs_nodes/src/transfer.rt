//! Pages as files: bytes of a READ and a WRITE are moved between them and a message.

ghost use Rattle.std.specs.Prelude.{◌≡◌, ◌≤◌, ◌+◌, ◌<◌, ◌^◌, ◌/◌, ℕ, List, [], true, take, length, min, Ok, Err, Some};
ghost use Rattle.std.specs.Map.{keys_of};
ghost use Rattle.std.specs.List.{concat};
ghost use Rattle.vfs_flags.specs.Numbers.{ebadf};
ghost use Rattle.fs_nodes.specs.Pages.{byte_at, byte_over, holds};
ghost use Rattle.fs_nodes.specs.Filling.{Fills};

use crate::pages::Pages;
use std::marker::Model;
use vfs_files::{Bytes, ZeroCopyReader};
use vfs_flags::{Errno, Fault};
use vfs_segments::{PositionedFile, Slices, SlicesMut, WritevFlags};

/// Pages that are read.
#[derive(Drop)]
pub(crate) struct Reading<'a> {
    pub(crate) pages: &'a Pages,
}

impl<'a> Model for Reading<'a> {
    ghost use Rattle.fs_nodes.specs.Pages.{Pages};

    ghost Value = { Pages };

    ghost view = { λ file. file.pages.now };
}

impl PositionedFile for Reading<'_> {
    ghost use Rattle.fs_nodes.specs.Reading.{ReadsSome};

    ghost write_gives = { λ old bytes off flags answer new. answer ≡ Err (Some ebadf) };

    ghost read_gives = { ReadsSome };

    /// Always `Errno::EBADF`.
    fn write_vectored_at(
        &mut self,
        _view: &Slices<'_>,
        _off: u64,
        _flags: Option<WritevFlags>,
    ) -> Result<usize, Fault> {
        Err(Some(Errno::EBADF))
    }

    fn read_vectored_at(&mut self, view: &mut SlicesMut<'_>, off: u64) -> Result<usize, Fault> {
        let mut file = Bytes::new(self.pages.part(off, view.total()));
        file.read_vectored_at(view, 0)
    }
}

impl PositionedFile for Pages {
    ghost write_gives = { λ old bytes off flags answer new. Fills old bytes off answer new };

    ghost read_gives = { λ old off room answer moved new. answer ≡ Err (Some ebadf) };

    fn write_vectored_at(
        &mut self,
        view: &Slices<'_>,
        off: u64,
        _flags: Option<WritevFlags>,
    ) -> Result<usize, Fault> {
        Ok(put_pieces(self, view, off))
    }

    /// Always `Errno::EBADF`.
    fn read_vectored_at(&mut self, _view: &mut SlicesMut<'_>, _off: u64) -> Result<usize, Fault> {
        Err(Some(Errno::EBADF))
    }
}

// Writes the front of what is lent over the bytes from a place on, as far as their pages are held, and
// answers how many. Each piece is looked at once.
fn put_pieces(pages: &mut Pages, view: &Slices<'_>, off: u64) -> usize
    ensures { Fills pages.old (concat view.now) off (Ok result) pages.new }
{
    if view.total() == 0 {
        return 0;
    }
    let mut done = 0;
    'pieces: for i in 0..view.count() {
        let piece = view.get(i);
        let Some(place) = off.checked_add(done as u64) else {
            return done;
        };
        let count = pages.put_all(place, piece);
        done += count;
        if count < piece.len() {
            return done;
        }
    }
    done
}

/// What counts the bytes that it is lent, and takes none.
#[derive(Drop)]
pub(crate) struct Counting {
    pub(crate) total: usize,
}

impl PositionedFile for Counting {
    ghost use Rattle.std.specs.Prelude.{length};

    ghost write_gives = { λ old bytes off flags answer new.
        (answer ≡ Ok 0) × (new.total ≡ length bytes) };

    ghost read_gives = { λ old off room answer moved new. answer ≡ Err (Some ebadf) };

    /// Always 0.
    fn write_vectored_at(
        &mut self,
        view: &Slices<'_>,
        _off: u64,
        _flags: Option<WritevFlags>,
    ) -> Result<usize, Fault> {
        self.total = view.total();
        Ok(0)
    }

    /// Always `Errno::EBADF`.
    fn read_vectored_at(&mut self, _view: &mut SlicesMut<'_>, _off: u64) -> Result<usize, Fault> {
        Err(Some(Errno::EBADF))
    }
}

/// How many bytes are left, at most that many. None is taken.
pub(crate) fn count_left<R: ZeroCopyReader>(r: &mut R, most: usize) -> usize
    ensures taken { R.takes r.old [] r.new }
    ensures left { R.left r.new ≡ R.left r.old }
    ensures count { result ≡ min most (length (R.left r.old)) }
{
    let mut file = Counting { total: 0 };
    let _ = r.write_to_file_at(&mut file, most, 0, None);
    file.total
}

/// Writes that many bytes of `r` over those of the pages, from a place on. The pages are held, and
/// that many bytes are left.
pub(crate) fn fill<R: ZeroCopyReader>(pages: &mut Pages, r: &mut R, count: usize, off: u64)
    requires held { (place : ℕ) → off ≤ place → place < off + count
        → holds (keys_of pages.old) (place / 4096) ≡ true }
    requires left { count ≤ length (R.left r.old) }
    requires low { off + count < 2 ^ 64 }
    ensures taken { (taken : List ℕ) × R.takes r.old taken r.new }
    ensures keys { keys_of pages.new ≡ keys_of pages.old }
    ensures bytes { (place : ℕ) → byte_at pages.new place
        ≡ byte_over off (take count (R.left r.old)) (byte_at pages.old) place }
{
    let _ = r.write_to_file_at(pages, count, off, None);
}
