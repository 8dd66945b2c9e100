//! Callers, with what follows for them from the tables alone.

ghost use Rattle.std.specs.Prelude.{◌≡◌, ◌≤◌, [], ◌∷◌, codes, replicate, Ok, Err, Some, None, MatchResult, option_map};
ghost use Rattle.std.specs.Duration.{as_nanos};
ghost use Rattle.vfs_files.specs.Values.{item_of};

use crate::Docs;
use fs_small::{ReadOnly, name_in, name_position};
use std::time::Duration;
use vfs_files::{
    CStr, Context, DirEntry, DirectoryIterator, Entry, Extensions, FileSystem, ZeroCopyReader,
    ZeroCopyWriter,
};
use vfs_flags::{Fault, OpenOptions, SetattrValid, SetxattrFlags};
use vfs_wire::{Attr, SetattrIn};

/// A LOOKUP: `hello.txt` of the root is node 2.
fn node_of_hello(ctx: Context) -> u64
    ensures { result ≡ 2 }
{
    let mut fs = ReadOnly { tree: Docs };
    match fs.lookup(ctx, 1, name_in(b"hello.txt\0")) {
        Ok(entry) => entry.inode,
        Err(_) => 0,
    }
}

/// A READ: from its place 7 on it has `world` and a newline.
fn end_of_hello<W: ZeroCopyWriter>(ctx: Context, w: &mut W) -> Result<usize, Fault>
    requires { 100 ≤ W.room w.old }
    ensures count { result ≡ Ok 6 }
    ensures put { W.puts w.old (codes "world\n") w.new }
{
    let mut fs = ReadOnly { tree: Docs };
    fs.read(ctx, 2, 0, w, 100, 7, None, 0)
}

/// A LOOKUP: the entry of `a.txt` in `docs`, which a client may rely on for a second.
fn entry_of_a(ctx: Context) -> Result<Entry, Fault>
    ensures entry { MatchResult result
        (λ entry. (entry.inode ≡ 4) × (entry.generation ≡ 0) × (entry.attr.size ≡ 2)
        × (entry.attr.mode ≡ 0o100444) × (entry.attr.nlink ≡ 1))
        (λ _. ⊥) }
    ensures second { MatchResult result
        (λ entry. (as_nanos entry.attr_timeout ≡ 1000000000)
        × (as_nanos entry.entry_timeout ≡ 1000000000))
        (λ _. ⊥) }
{
    let mut fs = ReadOnly { tree: Docs };
    fs.lookup(ctx, 3, name_in(b"a.txt\0"))
}

/// A GETATTR: `hello.txt` has thirteen bytes, for a second.
fn attributes_of_hello(ctx: Context) -> Result<(Attr, Duration), Fault>
    ensures { MatchResult result
        (λ reply. (reply.0.ino ≡ 2) × (reply.0.size ≡ 13) × (reply.0.mode ≡ 0o100444)
        × (as_nanos reply.1 ≡ 1000000000))
        (λ _. ⊥) }
{
    let mut fs = ReadOnly { tree: Docs };
    fs.getattr(ctx, 2, None)
}

/// The nodes of the first two items of `docs`: it is its own `.`, and the root its `..`.
fn nodes_of_docs(ctx: Context) -> Result<[Option<u64>; 2], Fault>
    ensures { result ≡ Ok (Some 3 ∷ Some 1 ∷ []) }
{
    let mut fs = ReadOnly { tree: Docs };
    let mut it = fs.readdir(ctx, 3, 0, 4096, 0)?;
    Ok([node(it.next()), node(it.next())])
}

/// What is read of `docs` after its second item: `a.txt`, and then the end.
fn nodes_after_dots(ctx: Context) -> Result<[Option<u64>; 2], Fault>
    ensures { result ≡ Ok (Some 4 ∷ None ∷ []) }
{
    let mut fs = ReadOnly { tree: Docs };
    let mut it = fs.readdir(ctx, 3, 0, 4096, 2)?;
    Ok([node(it.next()), node(it.next())])
}

// The node of an entry, if there is one.
fn node(entry: Option<DirEntry<'_>>) -> Option<u64>
    ensures { result ≡ option_map (λ i. i.ino) (item_of entry.entry) }
{
    match entry {
        Some(entry) => Some(entry.ino),
        None => None,
    }
}

/// A MKDIR, whatever its name: EROFS.
fn nothing_is_made(ctx: Context, name: CStr<'_>) -> Result<Entry, Fault>
    ensures { result ≡ Err (Some 30) }
{
    let mut fs = ReadOnly { tree: Docs };
    fs.mkdir(ctx, 1, name, 0o755, 0, Extensions::none())
}

/// An UNLINK and a WRITE, whatever they are of: EROFS.
fn nothing_is_changed<R: ZeroCopyReader>(
    ctx: &Context,
    name: CStr<'_>,
    r: &mut R,
) -> (Result<(), Fault>, Result<u32, Fault>)
    ensures unlink { result.0 ≡ Err (Some 30) }
    ensures write { result.1 ≡ Err (Some 30) }
{
    let mut fs = ReadOnly { tree: Docs };
    let unlink = fs.unlink(*ctx, 1, name);
    let write = fs.write(*ctx, 2, 0, r, 3, 0, None, false, false, 0);
    (unlink, write)
}

/// A SYMLINK, a MKNOD and a LINK, whatever their names: EROFS.
fn no_name_is_made(ctx: &Context, name: CStr<'_>) -> [Result<Entry, Fault>; 3]
    ensures { result ≡ replicate 3 (Err (Some 30)) }
{
    let mut fs = ReadOnly { tree: Docs };
    [
        fs.symlink(*ctx, name, 1, name, Extensions::none()),
        fs.mknod(*ctx, 1, name, 0o10_0644, 0, 0, Extensions::none()),
        fs.link(*ctx, 2, 1, name),
    ]
}

/// A CREATE, with a name and without one: EROFS.
fn no_file_is_made(
    ctx: Context,
    name: CStr<'_>,
) -> (Result<(Entry, Option<u64>, OpenOptions), Fault>, Fault)
    ensures create { result.0 ≡ Err (Some 30) }
    ensures nameless { result.1 ≡ Some 30 }
{
    let mut fs = ReadOnly { tree: Docs };
    let create = fs.create(ctx, 1, name, 0o644, false, 0, 0, Extensions::none());
    (create, fs.tmpfile())
}

/// An RMDIR, a RENAME, a SETXATTR, a REMOVEXATTR and a FALLOCATE: EROFS.
fn nothing_is_renamed_or_set(ctx: &Context, name: CStr<'_>) -> [Result<(), Fault>; 5]
    ensures { result ≡ replicate 5 (Err (Some 30)) }
{
    let mut fs = ReadOnly { tree: Docs };
    [
        fs.rmdir(*ctx, 1, name),
        fs.rename(*ctx, 1, name, 3, name, 0),
        fs.setxattr(*ctx, 2, name, &[], 0, SetxattrFlags::SETXATTR_ACL_KILL_SGID),
        fs.removexattr(*ctx, 2, name),
        fs.fallocate(*ctx, 2, 0, 0, 0, 1),
    ]
}

/// A SETATTR and a COPY_FILE_RANGE: EROFS.
fn nothing_is_copied(ctx: &Context) -> (Result<(Attr, Duration), Fault>, Result<u32, Fault>)
    ensures set { result.0 ≡ Err (Some 30) }
    ensures copied { result.1 ≡ Err (Some 30) }
{
    let mut fs = ReadOnly { tree: Docs };
    let set = fs.setattr(*ctx, 2, SetattrIn::default(), None, SetattrValid::MODE);
    (set, fs.copyfilerange(*ctx, 2, 0, 0, 4, 0, 0, 1, 0))
}

/// An ACCESS: to read (4) is granted, to write (2) is EROFS.
fn access_to_read(ctx: &Context) -> (Result<(), Fault>, Result<(), Fault>)
    ensures read { result.0 ≡ Ok tt }
    ensures write { result.1 ≡ Err (Some 30) }
{
    let mut fs = ReadOnly { tree: Docs };
    let read = fs.access(*ctx, 2, 4);
    let write = fs.access(*ctx, 2, 2);
    (read, write)
}

/// The first place of a name among three, of which two are alike.
fn place_of_b() -> Option<usize>
    ensures { result ≡ Some 1 }
{
    let names = [b"a".as_slice(), b"b".as_slice(), b"b".as_slice()];
    name_position(&names, b"b")
}
