//! The bytes of a file: they are read, written, cut and made longer.

ghost use Rattle.std.specs.Prelude.{◌≡◌, [], ◌∷◌, ◌++◌, codes, Ok, Err, Some, None, MatchResult, OnOk};
ghost use Rattle.std.specs.Duration.{as_nanos};
ghost use Rattle.vfs_flags.specs.Flags.{open_options_bits};
ghost use Rattle.test_uses.specs.Trees.{empty_file, file_tree, later, narrow, small_tree, tree_of, wide, written_later};

use crate::tree::support::root;
use fs_tree::TreeFs;
use std::time::Duration;
use vfs_files::{CStr, Extensions, FileSystem, ZeroCopyReader, ZeroCopyWriter};
use vfs_flags::{Fault, OpenOptions, SetattrValid};
use vfs_wire::{Attr, SetattrIn};

/// A file that was made has no bytes; what is written into it is what is read of it then.
fn written_and_read<R: ZeroCopyReader, W: ZeroCopyWriter>(
    tree: &mut TreeFs,
    r: &mut R,
    w: &mut W,
) -> Result<(u32, usize), Fault>
    requires tree { tree.old ≡ small_tree }
    requires bytes { R.left r.old ≡ codes "HEY" }
    requires room { W.room w.old ≡ 100 }
    ensures answers { MatchResult result (λ counts. counts ≡ (3, 3)) (λ fault. fault ≡ Some 12) }
    ensures put { OnOk result (W.puts w.old (codes "HEY") w.new) }
{
    let name = CStr::before_nul(b"f\0", 1);
    tree.create(root(), 1, name, 0o644, false, 0, 0, Extensions::none())?;
    written_then_read(tree, r, w)
}

/// The same of a file that is there, and has no page.
fn written_then_read<R: ZeroCopyReader, W: ZeroCopyWriter>(
    tree: &mut TreeFs,
    r: &mut R,
    w: &mut W,
) -> Result<(u32, usize), Fault>
    requires tree { tree.old ≡ tree_of wide empty_file }
    requires bytes { R.left r.old ≡ codes "HEY" }
    requires room { W.room w.old ≡ 100 }
    ensures answers { MatchResult result (λ counts. counts ≡ (3, 3)) (λ fault. fault ≡ Some 12) }
    ensures put { OnOk result (W.puts w.old (codes "HEY") w.new) }
{
    let written = first_page(tree, r)?;
    let read = tree.read(root(), 2, 0, w, 4096, 0, None, 0)?;
    Ok((written, read))
}

/// READ of a file with more room than it has bytes: all of them. In the second of its last change nothing
/// changes.
fn whole_file<W: ZeroCopyWriter>(tree: &mut TreeFs, w: &mut W) -> Result<usize, Fault>
    requires tree { tree.old ≡ file_tree wide (codes "hello") }
    requires room { W.room w.old ≡ 100 }
    ensures answer { result ≡ Ok 5 }
    ensures put { W.puts w.old (codes "hello") w.new }
    ensures same { tree.new ≡ tree.old }
{
    tree.read(root(), 2, 0, w, 4096, 0, None, 0)
}

/// READ of two bytes from place 1 on: just these.
fn two_bytes<W: ZeroCopyWriter>(tree: &mut TreeFs, w: &mut W) -> Result<usize, Fault>
    requires tree { tree.old ≡ file_tree wide (codes "hello") }
    requires room { W.room w.old ≡ 100 }
    ensures answer { result ≡ Ok 2 }
    ensures put { W.puts w.old (codes "el") w.new }
{
    tree.read(root(), 2, 0, w, 2, 1, None, 0)
}

/// READ of the root, which is a directory: EISDIR, and nothing changes.
fn directory_is_not_read<W: ZeroCopyWriter>(tree: &mut TreeFs, w: &mut W) -> Result<usize, Fault>
    requires { tree.old ≡ small_tree }
    ensures refused { result ≡ Err (Some 21) }
    ensures same { tree.new ≡ tree.old }
{
    tree.read(root(), 1, 0, w, 4096, 0, None, 0)
}

/// WRITE over the beginning of a file: those bytes are written and no others, and no memory is
/// wanted.
#[tactic(auto, unfolding(vfs_segments::specs::Memory::with_bytes_at))]
fn written_over<R: ZeroCopyReader>(tree: &mut TreeFs, r: &mut R) -> Result<u32, Fault>
    requires tree { tree.old ≡ file_tree wide (codes "hello") }
    requires bytes { R.left r.old ≡ codes "HEY" }
    ensures answer { result ≡ Ok 3 }
    ensures bytes { tree.new ≡ file_tree wide (codes "HEYlo") }
{
    tree.write(root(), 2, 0, r, 3, 0, None, false, false, 0)
}

/// WRITE two bytes after the end of a file: zeros fill the gap. The page has place for them, so that
/// no memory is wanted.
#[tactic(auto, unfolding(vfs_segments::specs::Memory::with_bytes_at))]
fn written_after_the_end<R: ZeroCopyReader>(tree: &mut TreeFs, r: &mut R) -> Result<u32, Fault>
    requires tree { tree.old ≡ file_tree wide (codes "hello") }
    requires bytes { R.left r.old ≡ codes "HEY" }
    ensures answer { result ≡ Ok 3 }
    ensures bytes { tree.new ≡ file_tree wide (codes "hello" ++ (0 ∷ 0 ∷ [] ++ codes "HEY")) }
{
    tree.write(root(), 2, 0, r, 3, 7, None, false, false, 0)
}

/// WRITE into a file without a page. Memory for one can be wanting, and then nothing changes.
#[tactic(auto, unfolding(vfs_segments::specs::Memory::with_bytes_at))]
fn first_page<R: ZeroCopyReader>(tree: &mut TreeFs, r: &mut R) -> Result<u32, Fault>
    requires tree { tree.old ≡ tree_of wide empty_file }
    requires bytes { R.left r.old ≡ codes "HEY" }
    ensures { MatchResult result
        (λ count. (count ≡ 3) × (tree.new ≡ file_tree wide (codes "HEY")))
        (λ fault. (fault ≡ Some 12) × (tree.new ≡ tree.old)) }
{
    tree.write(root(), 2, 0, r, 3, 0, None, false, false, 0)
}

/// WRITE of no bytes after the end of a file: it wants no memory, and nothing changes.
fn nothing_written<R: ZeroCopyReader>(tree: &mut TreeFs, r: &mut R) -> Result<u32, Fault>
    requires { tree.old ≡ file_tree wide (codes "hello") }
    ensures answer { result ≡ Ok 0 }
    ensures same { tree.new ≡ tree.old }
{
    tree.write(root(), 2, 0, r, 0, 7, None, false, false, 0)
}

/// SETATTR of a size: it wants no memory.
fn resize(tree: &mut TreeFs, size: u64) -> Result<(Attr, Duration), Fault>
    requires { tree.old ≡ file_tree wide (codes "hello") }
    ensures cut { size ≡ 2 → MatchResult result
        (λ reply. (reply.0.size ≡ 2) × (as_nanos reply.1 ≡ 86400000000000)
        × (tree.new ≡ file_tree wide (codes "he")))
        (λ _. ⊥) }
    ensures longer { size ≡ 7 → MatchResult result
        (λ reply. (reply.0.size ≡ 7) × (reply.0.blocks ≡ 8)
        × (tree.new ≡ file_tree wide (codes "hello" ++ 0 ∷ 0 ∷ [])))
        (λ _. ⊥) }
{
    let wanted = SetattrIn {
        size,
        ..SetattrIn::default()
    };
    tree.setattr(root(), 2, wanted, None, SetattrValid::SIZE)
}

/// SETATTR of the size that a file has, which holds no page: it changes nothing, unless by a handle.
fn size_that_is_there(tree: &mut TreeFs, handle: Option<u64>) -> Result<(Attr, Duration), Fault>
    requires { tree.old ≡ later (tree_of wide empty_file) }
    ensures same { handle ≡ None → tree.new ≡ tree.old }
    ensures changed { handle ≡ Some 0 → MatchResult result
        (λ reply. (reply.0.mtime ≡ 9) × (reply.0.ctime ≡ 9)) (λ _. ⊥) }
{
    tree.setattr(root(), 2, SetattrIn::default(), handle, SetattrValid::SIZE)
}

/// FALLOCATE of bytes that are there: it wants no memory, and nothing changes.
fn place_that_is_there(tree: &mut TreeFs) -> Result<(), Fault>
    requires { tree.old ≡ file_tree wide (codes "hello") }
    ensures answer { result ≡ Ok tt }
    ensures same { tree.new ≡ tree.old }
{
    tree.fallocate(root(), 2, 0, 0, 0, 5)
}

/// FALLOCATE past the end of a file, within its page: zeros are there.
fn more_place(tree: &mut TreeFs) -> Result<(), Fault>
    requires { tree.old ≡ file_tree wide (codes "hello") }
    ensures answer { result ≡ Ok tt }
    ensures bytes { tree.new ≡ file_tree wide (codes "hello" ++ 0 ∷ 0 ∷ []) }
{
    tree.fallocate(root(), 2, 0, 0, 4, 3)
}

/// FALLOCATE of a file without a page. Memory for one can be wanting, and then nothing changes.
fn first_place(tree: &mut TreeFs) -> Result<(), Fault>
    requires { tree.old ≡ tree_of wide empty_file }
    ensures { MatchResult result
        (λ _. tree.new ≡ file_tree wide (0 ∷ 0 ∷ []))
        (λ fault. (fault ≡ Some 12) × (tree.new ≡ tree.old)) }
{
    tree.fallocate(root(), 2, 0, 0, 0, 2)
}

/// FALLOCATE that keeps the size of a file (FALLOC_FL_KEEP_SIZE, 1): it has a page, and shows no byte.
fn place_after_the_end(tree: &mut TreeFs) -> Result<(), Fault>
    requires { tree.old ≡ tree_of wide empty_file }
    ensures { MatchResult result
        (λ _. tree.new ≡ file_tree wide [])
        (λ fault. (fault ≡ Some 12) × (tree.new ≡ tree.old)) }
{
    tree.fallocate(root(), 2, 0, 1, 0, 2)
}

/// FALLOCATE that makes a hole (FALLOC_FL_PUNCH_HOLE and FALLOC_FL_KEEP_SIZE, 3): zeros are in a page
/// that stays. It wants no memory.
fn hole_in_a_page(tree: &mut TreeFs) -> Result<(), Fault>
    requires { tree.old ≡ file_tree wide (codes "hello") }
    ensures answer { result ≡ Ok tt }
    ensures bytes { tree.new ≡ file_tree wide (codes "h" ++ (0 ∷ 0 ∷ codes "lo")) }
{
    tree.fallocate(root(), 2, 0, 3, 1, 2)
}

/// FALLOCATE of a hole in place of a page: it goes, and the file stays as long.
fn hole_in_place_of_a_page(tree: &mut TreeFs) -> Result<(), Fault>
    requires { tree.old ≡ file_tree narrow (codes "hello") }
    ensures answer { result ≡ Ok tt }
    ensures bytes { tree.new ≡ tree_of narrow (record empty_file {
      contents = record { bytes = 0 ∷ 0 ∷ 0 ∷ 0 ∷ 0 ∷ []; held = [] };
    }) }
{
    tree.fallocate(root(), 2, 0, 3, 0, 4096)
}

/// FALLOCATE of zeros (FALLOC_FL_ZERO_RANGE, 16) in a page that is held: it wants no memory.
fn zeros_in_a_page(tree: &mut TreeFs) -> Result<(), Fault>
    requires { tree.old ≡ file_tree wide (codes "hello") }
    ensures answer { result ≡ Ok tt }
    ensures bytes { tree.new ≡ file_tree wide (codes "h" ++ (0 ∷ 0 ∷ codes "lo")) }
{
    tree.fallocate(root(), 2, 0, 16, 1, 2)
}

/// FALLOCATE of zeros past the end of a file, which grows, or stays as long (17, with FALLOC_FL_KEEP_SIZE).
fn zeros_past_the_end(tree: &mut TreeFs, mode: u32) -> Result<(), Fault>
    requires { tree.old ≡ file_tree wide (codes "hello") }
    ensures grown { mode ≡ 16 → (result ≡ Ok tt) × (tree.new ≡
        file_tree wide (codes "hel" ++ (0 ∷ 0 ∷ 0 ∷ 0 ∷ []))) }
    ensures kept { mode ≡ 17 → (result ≡ Ok tt) × (tree.new ≡
        file_tree wide (codes "hel" ++ (0 ∷ 0 ∷ []))) }
{
    tree.fallocate(root(), 2, 0, mode, 3, 4)
}

/// FALLOCATE of zeros in place of a hole: they have a page, which takes 8 blocks. Memory for it can be wanting.
fn zeros_in_place_of_a_hole(tree: &mut TreeFs) -> Result<u64, Fault>
    requires { tree.old ≡ tree_of narrow (record empty_file {
      contents = record { bytes = 0 ∷ 0 ∷ 0 ∷ []; held = [] };
    }) }
    ensures { MatchResult result
        (λ blocks. (blocks ≡ 8) × (tree.new ≡ file_tree narrow (0 ∷ 0 ∷ 0 ∷ [])))
        (λ fault. (fault ≡ Some 12) × (tree.new ≡ tree.old)) }
{
    tree.fallocate(root(), 2, 0, 16, 0, 3)?;
    let (attr, _) = tree.getattr(root(), 2, None)?;
    Ok(attr.blocks)
}

/// FALLOCATE that takes bytes out of a file (FALLOC_FL_COLLAPSE_RANGE, 8): EOPNOTSUPP, and nothing changes.
fn bytes_are_not_taken_out(tree: &mut TreeFs) -> Result<(), Fault>
    requires { tree.old ≡ file_tree wide (codes "hello") }
    ensures refused { result ≡ Err (Some 95) }
    ensures same { tree.new ≡ tree.old }
{
    tree.fallocate(root(), 2, 0, 8, 0, 1)
}

/// LSEEK: where a file has data (SEEK_DATA, 3), and where they end (SEEK_HOLE, 4).
fn data_and_hole(tree: &mut TreeFs, whence: u32) -> Result<u64, Fault>
    requires { tree.old ≡ file_tree wide (codes "hello") }
    ensures data { whence ≡ 3 → result ≡ Ok 2 }
    ensures hole { whence ≡ 4 → result ≡ Ok 5 }
    ensures same { tree.new ≡ tree.old }
{
    tree.lseek(root(), 2, 0, 2, whence)
}

/// LSEEK by a client that writes later: ENOSYS, so that it looks itself.
fn no_place_is_known(tree: &mut TreeFs) -> Result<u64, Fault>
    requires { tree.old ≡ written_later (file_tree wide (codes "hello")) }
    ensures refused { result ≡ Err (Some 38) }
    ensures same { tree.new ≡ tree.old }
{
    tree.lseek(root(), 2, 0, 0, 3)
}

/// LSEEK after the end of a file: ENXIO.
fn no_place_after_the_end(tree: &mut TreeFs) -> Result<u64, Fault>
    requires { tree.old ≡ file_tree wide (codes "hello") }
    ensures refused { result ≡ Err (Some 6) }
    ensures same { tree.new ≡ tree.old }
{
    tree.lseek(root(), 2, 0, 5, 3)
}

/// FLUSH of whatever was opened: ENOSYS, after which Linux sends none, and nothing changes.
fn flushed(tree: &mut TreeFs, inode: u64, handle: u64) -> Result<(), Fault>
    ensures refused { result ≡ Err (Some 38) }
    ensures same { tree.new ≡ tree.old }
{
    tree.flush(root(), inode, handle, 0)
}

/// OPEN: what the client keeps of a file stays true (`FOPEN_KEEP_CACHE`, 2), and nothing changes.
fn opened(tree: &mut TreeFs) -> Result<(Option<u64>, OpenOptions), Fault>
    requires { tree.old ≡ file_tree wide (codes "hello") }
    ensures answer { MatchResult result
        (λ reply. (reply.0 ≡ None) × (open_options_bits reply.1 ≡ 2)) (λ _. ⊥) }
    ensures same { tree.new ≡ tree.old }
{
    tree.open(root(), 2, false, 0)
}

/// OPEN with O_TRUNC (0o1000): the bytes are gone, and the client keeps none.
fn opened_and_emptied(tree: &mut TreeFs) -> Result<(Option<u64>, OpenOptions), Fault>
    requires { tree.old ≡ file_tree wide (codes "hello") }
    ensures answer { MatchResult result
        (λ reply. (reply.0 ≡ None) × (open_options_bits reply.1 ≡ 0)) (λ _. ⊥) }
    ensures bytes { tree.new ≡ tree_of wide empty_file }
{
    tree.open(root(), 2, false, 0o1000)
}
