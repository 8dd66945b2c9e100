//! Transfers between a file and the room of a reply, or the bytes of a request, without a copy in
//! between.

ghost use Rattle.std.specs.Prelude.{◌≡◌, ◌+◌, ℕ, List, [], ◌++◌, length};
ghost use Rattle.std.proofs.Common.{refl, ◌∙◌};
ghost use Rattle.vfs_files.specs.Transfers.{Transfers, reads_of, writes_of};

use vfs_flags::Fault;
use vfs_segments::{PositionedFile, WritevFlags};

/// What the bytes of a file can be put into, as the room of a reply to READ.
///
/// A file system gets one in [`read`](crate::FileSystem::read), and moves bytes of a file into it
/// by `read_from_file_at`.
pub trait ZeroCopyWriter {
    /// From one state to the other these bytes were put, and nothing else changed that its user may
    /// rely on.
    ghost puts: { Self → List ℕ → Self → Type 0 };

    /// How many bytes there is room for.
    ghost room: { Self → ℕ };

    /// Moves `count` bytes of the file, from `off` on, into the room; fewer where there is less
    /// room, or where the file has no more.
    ///
    /// The file is called until `count` bytes are moved, no room is left or a call moves none. Each
    /// call is lent all the room that is still to be filled, and its position is `off` plus what
    /// was moved. Answers how many bytes were moved.
    ///
    /// A fault of the file is the answer, and what was moved before it stays moved. A position past
    /// `u64::MAX` is the fault `None`, after the bytes that led there, even where `count` are
    /// moved.
    fn read_from_file_at<P: PositionedFile>(
        &mut self,
        f: &mut P,
        count: usize,
        off: u64,
    ) -> Result<usize, Fault>
        ensures { (bytes : List ℕ) × puts self.old bytes self.new
            × Transfers (reads_of P.read_gives) count (room self.old) off
            f.old bytes result f.new };

    ghost nothing: { (w : Self) → puts w [] w };

    ghost one_then_other: { (u v w : Self) (a b : List ℕ) →
        puts u a v → puts v b w → puts u (a ++ b) w };

    ghost takes_room: { (u v : Self) (a : List ℕ) →
        puts u a v → room v + length a ≡ room u };
}

impl<W: ZeroCopyWriter> ZeroCopyWriter for &mut W {
    ghost puts = { λ u a v. (v.ghost_name ≡ u.ghost_name) × W.puts u.now a v.now };

    ghost room = { λ u. W.room u.now };

    ghost nothing = { λ w. (refl, W.nothing w.now) };

    ghost one_then_other = { λ u v w a b p q.
        (q.0 ∙ p.0, W.one_then_other u.now v.now w.now a b p.1 q.1) };

    ghost takes_room = { λ u v a p. W.takes_room u.now v.now a p.1 };

    fn read_from_file_at<P: PositionedFile>(
        &mut self,
        f: &mut P,
        count: usize,
        off: u64,
    ) -> Result<usize, Fault> {
        (**self).read_from_file_at(f, count, off)
    }
}

/// What bytes can be taken from and put into a file, as those of a WRITE.
///
/// A file system gets one in [`write`](crate::FileSystem::write), and moves its bytes into a file
/// by `write_to_file_at`.
pub trait ZeroCopyReader {
    /// From one state to the other these bytes were taken, and nothing else changed that its user
    /// may rely on.
    ghost takes: { Self → List ℕ → Self → Type 0 };

    /// The bytes that are left.
    ghost left: { Self → List ℕ };

    /// Moves the next `count` bytes into the file, from `off` on; fewer where fewer are left, or
    /// where the file takes no more.
    ///
    /// The file is called until `count` bytes are moved, none is left or a call moves none. Each
    /// call is lent all the bytes that are still to be moved, with `flags`, and its position is
    /// `off` plus what was moved. Answers how many bytes were moved.
    ///
    /// A fault of the file is the answer, and what was moved before it stays moved. A position past
    /// `u64::MAX` is the fault `None`, after the bytes that led there, even where `count` are
    /// moved.
    fn write_to_file_at<P: PositionedFile>(
        &mut self,
        f: &mut P,
        count: usize,
        off: u64,
        flags: Option<WritevFlags>,
    ) -> Result<usize, Fault>
        ensures { (bytes : List ℕ) × takes self.old bytes self.new
            × Transfers (writes_of P.write_gives (left self.old) flags) count
            (length (left self.old)) off f.old bytes result f.new };

    ghost nothing: { (r : Self) → takes r [] r };

    ghost one_then_other: { (u v w : Self) (a b : List ℕ) →
        takes u a v → takes v b w → takes u (a ++ b) w };

    ghost takes_first: { (u v : Self) (a : List ℕ) → takes u a v → left u ≡ a ++ left v };
}

impl<R: ZeroCopyReader> ZeroCopyReader for &mut R {
    ghost takes = { λ u a v. (v.ghost_name ≡ u.ghost_name) × R.takes u.now a v.now };

    ghost left = { λ u. R.left u.now };

    ghost nothing = { λ r. (refl, R.nothing r.now) };

    ghost one_then_other = { λ u v w a b p q.
        (q.0 ∙ p.0, R.one_then_other u.now v.now w.now a b p.1 q.1) };

    ghost takes_first = { λ u v a p. R.takes_first u.now v.now a p.1 };

    fn write_to_file_at<P: PositionedFile>(
        &mut self,
        f: &mut P,
        count: usize,
        off: u64,
        flags: Option<WritevFlags>,
    ) -> Result<usize, Fault> {
        (**self).write_to_file_at(f, count, off, flags)
    }
}
