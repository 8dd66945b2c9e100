//! Files in memory at work.

ghost use Rattle.std.specs.Prelude.{◌≡◌, ◌++◌, [], ◌∷◌, List, codes, option_map, IfOk, MatchResult, IsTrue, false, Some, None, Ok, Err};
ghost use Rattle.std.specs.Duration.{as_nanos};
ghost use Rattle.vfs_flags.specs.Flags.{open_options_bits};
ghost use Rattle.vfs_files.specs.Answers.{Plain, Iterator, Done, Options, attr_answer, init_answer};
ghost use Rattle.vfs_files.specs.Calls.{Create, Getattr, Statfs, Write, default_statistics};
ghost use Rattle.vfs_files.specs.Values.{ExtensionValues, Item, item_of, name_text};
ghost use Rattle.fs_small.specs.MemFs.{Stock, MemFsAllows};
ghost use Rattle.test_uses.specs.Files.{one_file, two_files};

use fs_small::MemFs;
use std::alloc::Global;
use std::time::Duration;
use vfs_files::{
    CStr, Context, DirEntry, DirectoryIterator, Entry, Extensions, FileSystem, ZeroCopyReader,
    ZeroCopyWriter,
};
use vfs_flags::{Fault, FsOptions, OpenOptions};
use vfs_wire::{Attr, Statvfs64};

/// LOOKUP of `a` in the root of a new file system: node 2 with five bytes, for a second. Memory
/// alone can be wanting, and then for the file system.
fn first_file(alloc: Global, ctx: Context, name: CStr<'_>) -> Result<Entry, Fault>
    requires { name_text name ≡ codes "a" }
    ensures node { MatchResult result
        (λ entry. (entry.inode ≡ 2) × (entry.generation ≡ 0))
        (λ fault. fault ≡ Some 12) }
    ensures attributes { IfOk result (λ entry. (entry.attr.ino ≡ 2) × (entry.attr.size ≡ 5)) }
    ensures second { IfOk result (λ entry. (as_nanos entry.entry_timeout ≡ 1000000000)
        × (as_nanos entry.attr_timeout ≡ 1000000000)) }
{
    let mut fs = MemFs::new(alloc)?;
    fs.lookup(ctx, 1, name)
}

/// LOOKUP of `a` in node 2, which is no directory: ENOENT, and the files stay.
fn name_in_a_file(fs: &mut MemFs, ctx: Context, name: CStr<'_>) -> Result<Entry, Fault>
    requires first { fs.old ≡ one_file (codes "hello") }
    requires named { name_text name ≡ codes "a" }
    ensures refused { result ≡ Err (Some 2) }
    ensures files { fs.new ≡ fs.old }
{
    fs.lookup(ctx, 2, name)
}

/// GETATTR of the root: a directory with two names, for a second. The files stay.
fn attributes_of_the_root(fs: &mut MemFs, ctx: Context) -> Result<(Attr, Duration), Fault>
    ensures root { MatchResult result
        (λ reply. (reply.0.mode ≡ 0o40755) × (reply.0.nlink ≡ 2)
        × (as_nanos reply.1 ≡ 1000000000))
        (λ _. ⊥) }
    ensures files { fs.new ≡ fs.old }
{
    attributes(fs, ctx, 1)
}

/// GETATTR of node 3, which isn't there: ENOENT, and the files stay.
fn attributes_of_no_file(fs: &mut MemFs, ctx: Context) -> Result<(Attr, Duration), Fault>
    requires { fs.old ≡ one_file (codes "hello") }
    ensures refused { result ≡ Err (Some 2) }
    ensures files { fs.new ≡ fs.old }
{
    attributes(fs, ctx, 3)
}

// The attributes of a node, by what the file system's relation says of them.
fn attributes<F: FileSystem>(
    fs: &mut F,
    ctx: Context,
    inode: F::Inode,
) -> Result<(Attr, Duration), Fault>
    ensures { F.allows fs.old
        (Getattr ctx (F.Inode.value inode) None)
        (Plain (attr_answer result))
        fs.new }
{
    fs.getattr(ctx, inode, None)
}

/// UNLINK of `a`: no file is left.
fn taken_out(fs: &mut MemFs, ctx: Context, name: CStr<'_>) -> Result<(), Fault>
    requires first { fs.old ≡ one_file (codes "hello") }
    requires named { name_text name ≡ codes "a" }
    ensures done { result ≡ Ok tt }
    ensures files { fs.new ≡ record { files = []; next = 3 } }
{
    fs.unlink(ctx, 1, name)
}

/// UNLINK of `b`, which isn't there: ENOENT, and the files stay.
fn nothing_taken_out(fs: &mut MemFs, ctx: Context, name: CStr<'_>) -> Result<(), Fault>
    requires first { fs.old ≡ one_file (codes "hello") }
    requires named { name_text name ≡ codes "b" }
    ensures refused { result ≡ Err (Some 2) }
    ensures files { fs.new ≡ fs.old }
{
    fs.unlink(ctx, 1, name)
}

/// CREATE of `b`: node 3, which is empty, without a handle. Memory alone can be wanting, and then
/// the files stay.
fn new_file(
    fs: &mut MemFs,
    ctx: Context,
    name: CStr<'_>,
) -> Result<(Entry, Option<u64>, OpenOptions), Fault>
    requires first { fs.old ≡ one_file (codes "hello") }
    requires named { name_text name ≡ codes "b" }
    ensures { MatchResult result
        (λ made. (made.0.inode ≡ 3) × (made.0.attr.size ≡ 0) × (made.1 ≡ None) × (open_options_bits made.2 ≡ 0)
        × (fs.new ≡ two_files))
        (λ fault. (fault ≡ Some 12) × (fs.new ≡ fs.old)) }
{
    fs.create(ctx, 1, name, 0o644, false, 0, 0o22, Extensions::none())
}

/// CREATE of `a`, which is there: EEXIST, and the files stay.
fn taken_name(
    fs: &mut MemFs,
    ctx: Context,
    name: CStr<'_>,
) -> Result<(Entry, Option<u64>, OpenOptions), Fault>
    requires first { fs.old ≡ one_file (codes "hello") }
    requires named { name_text name ≡ codes "a" }
    ensures refused { result ≡ Err (Some 17) }
    ensures files { fs.new ≡ fs.old }
{
    fs.create(ctx, 1, name, 0o644, false, 0, 0o22, Extensions::none())
}

/// READ of node 2 with more room than it has bytes: `hello`. The files stay.
fn whole_file<W: ZeroCopyWriter>(fs: &mut MemFs, ctx: Context, w: &mut W) -> Result<usize, Fault>
    requires first { fs.old ≡ one_file (codes "hello") }
    requires room { W.room w.old ≡ 100 }
    ensures answer { result ≡ Ok 5 }
    ensures put { W.puts w.old (codes "hello") w.new }
    ensures files { fs.new ≡ fs.old }
{
    fs.read(ctx, 2, 0, w, 4096, 0, None, 0)
}

/// READ of node 1, which is no file: ENOENT, and the files stay.
fn no_file_to_read<W: ZeroCopyWriter>(
    fs: &mut MemFs,
    ctx: Context,
    w: &mut W,
) -> Result<usize, Fault>
    requires { fs.old ≡ one_file (codes "hello") }
    ensures refused { result ≡ Err (Some 2) }
    ensures files { fs.new ≡ fs.old }
{
    fs.read(ctx, 1, 0, w, 4096, 0, None, 0)
}

/// WRITE of `HEY` over the beginning of node 2, which takes no memory, and READ of it then.
#[tactic(auto, unfolding(vfs_segments::specs::Memory::with_bytes_at))]
fn written_and_read<R: ZeroCopyReader, W: ZeroCopyWriter>(
    fs: &mut MemFs,
    ctx: &Context,
    r: &mut R,
    w: &mut W,
) -> Result<(u32, usize), Fault>
    requires first { fs.old ≡ one_file (codes "hello") }
    requires bytes { R.left r.old ≡ codes "HEY" }
    requires room { W.room w.old ≡ 100 }
    ensures answers { result ≡ Ok (3, 5) }
    ensures put { W.puts w.old (codes "HEYlo") w.new }
    ensures files { fs.new ≡ one_file (codes "HEYlo") }
{
    let written = fs.write(*ctx, 2, 0, r, 3, 0, None, false, false, 0)?;
    let read = fs.read(*ctx, 2, 0, w, 4096, 0, None, 0)?;
    Ok((written, read))
}

/// WRITE of `HEY` two bytes after the end of node 2: zeros fill the gap. Memory alone can be
/// wanting, and then the files stay.
#[tactic(auto, unfolding(vfs_segments::specs::Memory::with_bytes_at))]
fn written_after_the_end<R: ZeroCopyReader>(
    fs: &mut MemFs,
    ctx: Context,
    r: &mut R,
) -> Result<u32, Fault>
    requires first { fs.old ≡ one_file (codes "hello") }
    requires bytes { R.left r.old ≡ codes "HEY" }
    ensures { MatchResult result
        (λ count. (count ≡ 3)
        × (fs.new ≡ one_file (codes "hello" ++ (0 ∷ 0 ∷ [] ++ codes "HEY"))))
        (λ fault. (fault ≡ Some 12) × (fs.new ≡ fs.old)) }
{
    fs.write(ctx, 2, 0, r, 3, 7, None, false, false, 0)
}

/// WRITE of no bytes after the end of node 2: it takes no memory, and the files stay.
fn nothing_written<R: ZeroCopyReader>(fs: &mut MemFs, ctx: Context, r: &mut R) -> Result<u32, Fault>
    requires { fs.old ≡ one_file (codes "hello") }
    ensures answer { result ≡ Ok 0 }
    ensures files { fs.new ≡ fs.old }
{
    fs.write(ctx, 2, 0, r, 0, 7, None, false, false, 0)
}

/// WRITE into node 1, which is no file: ENOENT, and the files stay.
fn no_file_to_write<R: ZeroCopyReader>(
    fs: &mut MemFs,
    ctx: Context,
    r: &mut R,
) -> Result<u32, Fault>
    requires { fs.old ≡ one_file (codes "hello") }
    ensures refused { result ≡ Err (Some 2) }
    ensures files { fs.new ≡ fs.old }
{
    fs.write(ctx, 1, 0, r, 3, 0, None, false, false, 0)
}

/// READDIR of the root: `.` is first. Memory alone can be wanting. The files stay.
fn first_name(fs: &mut MemFs, ctx: Context) -> Result<bool, Fault>
    ensures first { MatchResult result (λ dot. IsTrue dot) (λ fault. fault ≡ Some 12) }
    ensures files { fs.new ≡ fs.old }
{
    let mut it = fs.readdir(ctx, 1, 0, 4096, 0)?;
    match it.next() {
        Some(entry) => Ok(
            entry.name.to_bytes() == b".".as_slice() && entry.ino == 1 && entry.offset == 1,
        ),
        None => Ok(false),
    }
}

/// READDIR of the root after `..`: the file, and then the end, as often as it is asked for.
fn last_name(fs: &mut MemFs, ctx: Context) -> Result<[Option<u64>; 3], Fault>
    requires { fs.old ≡ one_file (codes "hello") }
    ensures { MatchResult result
        (λ nodes. nodes ≡ Some 2 ∷ None ∷ None ∷ [])
        (λ fault. fault ≡ Some 12) }
{
    let mut it = fs.readdir(ctx, 1, 0, 4096, 2)?;
    Ok([node(it.next()), node(it.next()), node(it.next())])
}

// The node of an entry, if there is one.
fn node(entry: Option<DirEntry<'_>>) -> Option<u64>
    ensures { result ≡ option_map (λ i. i.ino) (item_of entry.entry) }
{
    match entry {
        Some(entry) => Some(entry.ino),
        None => None,
    }
}

/// READDIR of node 2, which is no directory: ENOTDIR, and the files stay.
fn no_directory(fs: &mut MemFs, ctx: Context) -> Result<(), Fault>
    ensures refused { result ≡ Err (Some 20) }
    ensures files { fs.new ≡ fs.old }
{
    fs.readdir(ctx, 2, 0, 4096, 0)?;
    Ok(())
}

/// INIT asks for READDIRPLUS, and STATFS says what it says by default. Neither changes the files.
fn wanted(fs: &mut MemFs, capable: FsOptions) -> Result<FsOptions, Fault>
    ensures answer { init_answer result ≡ Options 0x2000 }
    ensures files { fs.new ≡ fs.old }
{
    fs.init(capable)
}

/// STATFS, which is not served: its default answer, no directory, and the files stay.
fn default_statfs(fs: &mut MemFs, ctx: Context) -> Result<Statvfs64, Fault>
    ensures answer { result ≡ Ok default_statistics }
    ensures files { fs.new ≡ fs.old }
{
    fs.statfs(ctx, 1)
}

/// An answer of another kind than its call's is not allowed: STATFS hands back no directory, and
/// CREATE and WRITE don't answer only that they are done.
fn answers_are_of_their_kind()
    ensures statfs { (ctx : Context) (items : List Item) (new : Stock) →
        ¬ (MemFsAllows (one_file []) (Statfs ctx 1) (Iterator items) new) }
    ensures create { (ctx : Context) (ext : ExtensionValues) (new : Stock) →
        ¬ (MemFsAllows (one_file []) (Create ctx 1 (codes "b") 0 false 0 0 ext) (Plain Done) new) }
    ensures write { (ctx : Context) (new : Stock) →
        ¬ (MemFsAllows (one_file [])
        (Write ctx 2 0 (codes "x") 1 0 None false false 0)
        (Plain Done)
        new) }
{}
