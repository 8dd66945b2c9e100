//! Names, copies, default answers and file systems of any kind at work.

ghost use Rattle.std.specs.Prelude.{◌≡◌, ◌≤◌, ◌+◌, ◌++◌, pos, negsuc, IsTrue, IfOk, IfErr, Some, Err, map, option_map, ℕ, List};
ghost use Rattle.vfs_files.specs.Values.{context_values, name_text};
ghost use Rattle.vfs_files.specs.Calls.{Unlink, not_served};
ghost use Rattle.vfs_files.specs.Answers.{Plain, done_answer, Counts};
ghost use Rattle.vfs_files.specs.Runs.{ForgetsEach};

use bitflags::Flags;
use fs_small::Unserved;
use std::alloc::Global;
use std::time::Duration;
use vfs_files::laws::runs_join;
use vfs_files::{
    CStr, CString, Context, Entry, Extensions, FileSystem, GetxattrReply, ListxattrReply,
    MigrateError, Number, SecContext, SerializableFileSystem, ZeroCopyWriter, defaults, first_nul,
};
use vfs_flags::{Fault, GuestGid};
use vfs_segments::PositionedFile;
use vfs_wire::{Attr, EntryOut, InHeader};

/// A name ends at its only 0.
fn name_of_two_letters() -> bool
    ensures { IsTrue result }
{
    match CStr::from_bytes_with_nul(b"ab\0") {
        Some(name) => name.to_bytes() == b"ab".as_slice(),
        None => false,
    }
}

/// Two names are not one.
fn two_names_are_no_name() -> bool
    ensures { IsTrue result }
{
    CStr::from_bytes_with_nul(b"a\0b\0").is_none()
}

/// The first of two names ends at the first 0.
fn first_of_two_names() -> bool
    ensures { IsTrue result }
{
    match CStr::from_bytes_until_nul(b"a\0b\0") {
        Some(name) => name.to_bytes() == b"a".as_slice(),
        None => false,
    }
}

/// A name is what is before the 0 that was found.
fn name_before_a_place() -> bool
    ensures { IsTrue result }
{
    let bytes = b"ab\0c\0";
    match first_nul(bytes) {
        Some(nul) => CStr::before_nul(bytes, nul).to_bytes() == b"ab".as_slice(),
        None => false,
    }
}

/// A name of its own has the bytes of the one that it was made from.
fn own_name_has_the_same_bytes(alloc: Global, name: CStr<'_>) -> Result<bool, Fault>
    ensures { IfOk result (λ same. IsTrue same) }
{
    let own = CString::new(alloc, name)?;
    Ok(own.as_c_str().to_bytes() == name.to_bytes())
}

/// Two names made from one are equal.
fn own_names_are_equal(alloc: Global, name: CStr<'_>) -> Result<bool, Fault>
    ensures { IfOk result (λ same. IsTrue same) }
{
    let one = CString::new(alloc, name)?;
    let other = CString::new(alloc, name)?;
    Ok(one == other)
}

/// A name of its own only ever fails with the number 12.
fn own_name_wants_memory_alone(alloc: Global, name: CStr<'_>) -> Result<CString, i32>
    ensures { IfErr result (λ error. error ≡ pos 12) }
{
    match CString::new(alloc, name) {
        Ok(own) => Ok(own),
        Err(Some(error)) => Err(error.get()),
        Err(None) => Err(0),
    }
}

/// A copy of a security context has its name and its value.
fn copy_of_a_context(alloc: Global, context: &SecContext) -> Result<SecContext, Fault>
    ensures name { IfOk result (λ copy. copy.name ≡ context.now.name) }
    ensures value { IfOk result (λ copy. copy.secctx.items ≡ context.now.secctx.items) }
{
    context.clone(alloc)
}

/// A copy of extensions has their group.
fn group_of_a_copy(alloc: Global, group: GuestGid) -> Result<Option<GuestGid>, Fault>
    ensures { IfOk result (λ copied. copied ≡ Some group) }
{
    let ext = Extensions {
        sup_gid: Some(group),
        ..Extensions::none()
    };
    let copy = ext.clone(alloc)?;
    Ok(copy.sup_gid)
}

/// A copy of extensions has their security context.
fn context_of_a_copy(alloc: Global, context: SecContext) -> Result<Option<SecContext>, Fault>
    ensures { IfOk result (λ copied.
        option_map context_values copied ≡ Some (context_values context)) }
{
    let ext = Extensions {
        secctx: Some(context),
        sup_gid: None,
    };
    let copy = ext.clone(alloc)?;
    Ok(copy.secctx)
}

/// A process number with the high bit set is negative.
fn caller_with_the_highest_process() -> i32
    ensures { result ≡ negsuc 0 }
{
    let header = InHeader {
        pid: 0xffff_ffff,
        ..InHeader::default()
    };
    Context::from(header).pid
}

/// A timeout of a second and a half is one second and 500,000,000 nanoseconds.
fn second_and_a_half() -> (u64, u32)
    ensures { result ≡ (1, 500_000_000) }
{
    let out = EntryOut::from(Entry {
        inode: 5,
        generation: 0,
        attr: Attr::default(),
        attr_timeout: Duration::from_millis(1_500),
        entry_timeout: Duration::ZERO,
    });
    (out.attr_valid, out.attr_valid_nsec)
}

/// A number of a node or a handle comes back.
fn there_and_back<N: Number>(n: u64) -> u64
    ensures { result ≡ n }
{
    N::from_number(n).number()
}

/// A call that isn't served fails with the number 38.
fn error_of_a_call_that_is_not_served() -> i32
    ensures { result ≡ pos 38 }
{
    match defaults::no_such_call::<()>() {
        Err(Some(error)) => error.get(),
        _ => 0,
    }
}

/// A file that is opened by default has no handle and no options.
fn default_open_says_nothing() -> bool
    ensures { IsTrue result }
{
    match defaults::open::<u64>() {
        Ok((handle, options)) => handle.is_none() && options.bits() == 0,
        Err(_) => false,
    }
}

/// By default names have up to 255 bytes.
fn default_length_of_names() -> u64
    ensures { result ≡ 255 }
{
    match defaults::statfs() {
        Ok(statistics) => statistics.f_namemax,
        Err(_) => 0,
    }
}

/// A name is taken out of the root as the file system allows it.
fn unlink_from_the_root<F: FileSystem>(
    fs: &mut F,
    ctx: Context,
    name: CStr<'_>,
) -> Result<(), Fault>
    ensures { F.allows fs.old
        (Unlink ctx 1 (name_text name.entry))
        (Plain (done_answer result))
        fs.new }
{
    fs.unlink(ctx, F::Inode::from_number(1), name)
}

/// Forgets each node, in order, and does nothing else: what `batch_forget` does by default.
pub(crate) fn forget_each<F: FileSystem>(fs: &mut F, ctx: &Context, requests: Vec<(F::Inode, u64)>)
    ensures { ForgetsEach F.allows F.DirIter.gives ctx.now
        (map (λ p. (F.Inode.value p.0, p.1)) requests.items)
        fs.old
        fs.new }
{
    for (inode, count) in requests {
        fs.forget(*ctx, inode, count);
    }
}

/// Forgets the nodes of one list and then those of another, which is to forget those of both.
fn forget_two_lists<F: FileSystem>(
    fs: &mut F,
    ctx: &Context,
    first: Vec<(F::Inode, u64)>,
    second: Vec<(F::Inode, u64)>,
)
    ensures { ForgetsEach F.allows F.DirIter.gives ctx.now
        (map (λ p. (F.Inode.value p.0, p.1)) first.items
        ++ map (λ p. (F.Inode.value p.0, p.1)) second.items)
        fs.old
        fs.new }
{
    runs_join::<F>();
    forget_each(fs, ctx, first);
    forget_each(fs, ctx, second);
}

/// The text of a link has at most 4,294,967,279 bytes, whatever the file system.
fn length_of_a_link<F: FileSystem>(
    fs: &mut F,
    ctx: Context,
    inode: F::Inode,
) -> Result<usize, Fault>
    ensures { IfOk result (λ length. length ≤ 4_294_967_279) }
{
    let text = fs.readlink(ctx, inode)?;
    Ok(text.len())
}

/// The value of an extended attribute, or the length told in its place, is at most 4,294,967,295
/// bytes.
fn length_of_a_value<F: FileSystem>(
    fs: &mut F,
    ctx: Context,
    inode: F::Inode,
    name: CStr<'_>,
) -> Result<usize, Fault>
    ensures { IfOk result (λ length. length ≤ 4_294_967_295) }
{
    match fs.getxattr(ctx, inode, name, 65_536)? {
        GetxattrReply::Value(value) => Ok(value.len()),
        GetxattrReply::Count(count) => Ok(count as usize),
    }
}

/// The names of all extended attributes, or the length told in their place, are at most
/// 4,294,967,295 bytes.
fn length_of_all_names<F: FileSystem>(
    fs: &mut F,
    ctx: Context,
    inode: F::Inode,
) -> Result<usize, Fault>
    ensures { IfOk result (λ length. length ≤ 4_294_967_295) }
{
    match fs.listxattr(ctx, inode, 65_536)? {
        ListxattrReply::Names(names) => Ok(names.len()),
        ListxattrReply::Count(count) => Ok(count as usize),
    }
}

/// Nothing is found in a file system that serves nothing.
fn lookup_that_is_not_served(ctx: Context, name: CStr<'_>) -> Result<Entry, Fault>
    ensures { result ≡ Err not_served }
{
    let mut fs = Unserved {};
    fs.lookup(ctx, 1, name)
}

/// A `read` whose bytes are in a file from `offset` on: as many as a reply can count.
fn read_through<P: PositionedFile, W: ZeroCopyWriter>(
    f: &mut P,
    w: &mut W,
    size: u32,
    offset: u64,
) -> Result<usize, Fault>
    ensures { (bytes : List ℕ) × W.puts w.old bytes w.new × Counts result bytes size }
{
    let count = size.min(u32::MAX - 16) as usize;
    w.read_from_file_at(f, count, offset)
}

/// Bytes are moved up to position 2^64 - 2 alone: from the one after it a transfer moves none, or
/// fails.
fn from_the_last_position<P: PositionedFile, W: ZeroCopyWriter>(
    f: &mut P,
    w: &mut W,
    count: usize,
) -> Result<usize, Fault>
    ensures { IfOk result (λ n. n ≡ 0) }
{
    w.read_from_file_at(f, count, u64::MAX)
}

/// A state that is written comes after what the vector had.
fn saved_after<F: SerializableFileSystem>(fs: &mut F, out: &mut Vec<u8>) -> Result<(), MigrateError>
    ensures { IfOk result (λ _. (bytes : List ℕ) × (out.new.items ≡ out.old.items ++ bytes)) }
{
    fs.serialize(out)
}

/// A state that is read is a beginning of the bytes that were there.
fn restored_from<F: SerializableFileSystem>(
    fs: &mut F,
    saved: &mut &[u8],
) -> Result<(), MigrateError>
    ensures { IfOk result (λ _. (bytes : List ℕ) × (saved.old.now ≡ bytes ++ saved.new.now)) }
{
    fs.deserialize_and_apply(saved)
}
