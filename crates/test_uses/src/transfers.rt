//! Small callers, each with what follows for it from the public contracts alone.

ghost use Rattle.std.specs.Prelude.{◌≡◌, ◌≤◌, ◌+◌, length, drop, IfOk, Ok};

use vfs_files::{ZeroCopyReader, ZeroCopyWriter};
use vfs_flags::Fault;
use vfs_segments::PositionedFile;
use vfs_server::server::{ZcReader, ZcWriter};

/// Where no byte is to be put the file isn't called.
fn nothing_is_put<P: PositionedFile>(w: &mut ZcWriter, f: &mut P, off: u64) -> Result<usize, Fault>
    ensures answer { result ≡ Ok 0 }
    ensures file { f.new ≡ f.old }
{
    w.read_from_file_at(f, 0, off)
}

/// Where no byte is to be taken the file isn't called.
fn nothing_is_taken<P: PositionedFile>(
    r: &mut ZcReader<'_>,
    f: &mut P,
    off: u64,
) -> Result<usize, Fault>
    ensures answer { result ≡ Ok 0 }
    ensures file { f.new ≡ f.old }
{
    r.write_to_file_at(f, 0, off, None)
}

/// What is told was put: the writer has passed that many bytes more, and no more than `count`, and
/// has that much less room. A held place stays, and so do the segments' lengths.
fn as_told_was_put<P: PositionedFile>(
    w: &mut ZcWriter,
    f: &mut P,
    count: usize,
    off: u64,
) -> Result<usize, Fault>
    ensures within { IfOk result (λ n. n ≤ count) }
    ensures told { IfOk result (λ n. length w.new.0.passed ≡ length w.old.0.passed + n) }
    ensures room { IfOk result (λ n. length w.new.0.left + n ≡ length w.old.0.left) }
    ensures hold { (w.new.0.held_at ≡ w.old.0.held_at) × (w.new.0.held ≡ w.old.0.held) }
    ensures segments { w.new.0.lengths ≡ w.old.0.lengths }
{
    w.read_from_file_at(f, count, off)
}

/// What is told was taken: the reader has that many bytes less, and no more than `count`, and counts
/// them.
fn as_told_was_taken<P: PositionedFile>(
    r: &mut ZcReader<'_>,
    f: &mut P,
    count: usize,
    off: u64,
) -> Result<usize, Fault>
    ensures within { IfOk result (λ n. n ≤ count) }
    ensures told { IfOk result (λ n. r.new.0.left ≡ drop n r.old.0.left) }
    ensures counted { IfOk result (λ n. r.new.0.taken ≡ r.old.0.taken + n) }
{
    r.write_to_file_at(f, count, off, None)
}
