//! Calls of any file system, and what its maker uses, at work.

ghost use Rattle.std.specs.Prelude.{◌≡◌, ◌≤◌, ℕ, List, IfErr, IfOk, IsTrue, Some, true};
ghost use Rattle.vfs_flags.specs.Flags.{fs_options_bits};
ghost use Rattle.vfs_files.specs.Calls.{Destroy, Getxattr, Init, Listxattr, Lookup, Plain, Done, Readdir, directory_answer, entry_answer, getxattr_answer, init_answer, listxattr_answer};
ghost use Rattle.vfs_files.specs.Migrations.{Prepared, PrepareSerialization};
ghost use Rattle.vfs_files.specs.Values.{name_text};

use bitflags::Flags;
use std::alloc::Global;
use vfs_files::{
    CStr, Context, DirEntry, Entry, EntryList, Extensions, FileSystem, GetxattrReply,
    ListxattrReply, Number, PartialFileSystem, ReadValue, SerializableFileSystem, ZeroCopyReader,
    ZeroCopyWriter, defaults, lengthen,
};
use vfs_flags::{Fault, FsOptions};

/// A name is looked for in the root as the file system allows it.
fn lookup_in_the_root<F: FileSystem>(
    fs: &mut F,
    ctx: Context,
    name: CStr<'_>,
) -> Result<Entry, Fault>
    ensures { F.allows fs.old
        (Lookup ctx 1 (name_text name.entry))
        (Plain (entry_answer result))
        fs.new }
{
    fs.lookup(ctx, F::Inode::from_number(1), name)
}

/// An extended attribute of the root is asked for as the file system allows it.
fn value_of_the_root<F: FileSystem>(
    fs: &mut F,
    ctx: Context,
    name: CStr<'_>,
) -> Result<GetxattrReply, Fault>
    ensures { F.allows fs.old
        (Getxattr ctx 1 (name_text name.entry) 0)
        (Plain (getxattr_answer result))
        fs.new }
{
    fs.getxattr(ctx, F::Inode::from_number(1), name, 0)
}

/// So are the names of all.
fn names_of_the_root<F: FileSystem>(fs: &mut F, ctx: Context) -> Result<ListxattrReply, Fault>
    ensures { F.allows fs.old
        (Listxattr ctx 1 0)
        (Plain (listxattr_answer result))
        fs.new }
{
    fs.listxattr(ctx, F::Inode::from_number(1), 0)
}

/// A session begins and ends as the file system allows it, from one state to the next.
fn begun_and_ended<F: FileSystem>(fs: &mut F, capable: FsOptions) -> Result<FsOptions, Fault>
    ensures { (middle : F)
        × F.allows fs.old (Init (fs_options_bits capable)) (Plain (init_answer result)) middle
        × F.allows middle Destroy (Plain Done) fs.new }
{
    let wanted = fs.init(capable);
    fs.destroy();
    wanted
}

/// The root is read as the file system allows it.
fn root_that_is_read<F: FileSystem>(fs: &mut F, ctx: Context) -> Result<F::DirIter, Fault>
    ensures { F.allows fs.old
        (Readdir ctx 1 0 4096 0)
        (directory_answer result)
        fs.new }
{
    fs.readdir(
        ctx,
        F::Inode::from_number(1),
        F::Handle::from_number(0),
        4096,
        0,
    )
}

/// What a WRITE takes of a reader is a beginning of what it has left.
fn bytes_that_are_taken<F: FileSystem, R: ZeroCopyReader>(
    fs: &mut F,
    ctx: Context,
    r: &mut R,
) -> Result<u32, Fault>
    ensures { (bytes : List ℕ) × R.takes r.old bytes r.new }
{
    fs.write(
        ctx,
        F::Inode::from_number(1),
        F::Handle::from_number(0),
        r,
        4096,
        0,
        None,
        false,
        false,
        0,
    )
}

/// A file system that says only what it serves reads no more than was asked for.
fn part_that_is_read<F: PartialFileSystem, W: ZeroCopyWriter>(
    fs: &mut F,
    ctx: Context,
    w: &mut W,
) -> Result<usize, Fault>
    ensures { IfOk result (λ count. count ≤ 4096) }
{
    let asked = ReadValue {
        ctx,
        inode: 1,
        handle: 0,
        size: 4096,
        offset: 0,
        lock_owner: None,
        flags: 0,
    };
    fs.read_data(asked, w)
}

/// A state is made ready to be saved as the file system allows it.
fn made_ready<F: SerializableFileSystem>(fs: &mut F)
    ensures { F.migrates fs.old (PrepareSerialization true) Prepared fs.new }
{
    fs.prepare_serialization(true);
}

/// Where there is no memory for one item more a directory's list stays.
fn one_item_more(list: &mut EntryList, entry: DirEntry<'_>) -> Result<(), Fault>
    ensures { IfErr result (λ _. list.new ≡ list.old) }
{
    list.push(entry)
}

/// Where there is no memory to make bytes eight, they stay.
fn eight_bytes(bytes: &mut Vec<u8>) -> Result<(), Fault>
    ensures { IfErr result (λ _. bytes.new.items ≡ bytes.old.items) }
{
    lengthen(bytes, 8)
}

/// A copy of extensions only ever fails for want of memory.
fn copy_of_extensions(alloc: Global, ext: &Extensions) -> Result<Extensions, Fault>
    ensures { IfErr result (λ fault. fault ≡ Some 12) }
{
    ext.clone(alloc)
}

/// A directory that is opened by default has no handle and no options.
fn default_opendir_says_nothing() -> bool
    ensures { IsTrue result }
{
    match defaults::opendir::<u64>() {
        Ok((handle, options)) => handle.is_none() && options.bits() == 0,
        Err(_) => false,
    }
}
