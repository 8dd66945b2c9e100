//! Small callers, with what follows for them from the public contracts alone. The others are in
//! `test_uses`; these are here since an edit of this crate must be refused at the first, and the
//! others are beside what they call.

ghost use Rattle.std.specs.Prelude.{◌≡◌, ◌≤◌, ◌+◌, ◌∷◌, ◌++◌, codes, IfOk, OnOk};

use crate::{
    Context, DirEntry, DirectoryIterator, EntryList, FileSystem, Number, ZeroCopyReader,
    ZeroCopyWriter, write_bytes,
};
use std::alloc::Global;
use vfs_flags::Fault;

/// A READ of any file system, whatever room it has: as many bytes are told as were put, no more
/// than were asked for, and no more than a reply can count.
fn bytes_of_a_read<F: FileSystem, W: ZeroCopyWriter>(
    fs: &mut F,
    ctx: Context,
    w: &mut W,
    size: u32,
) -> Result<usize, Fault>
    ensures asked { IfOk result (λ n. n ≤ size) }
    ensures counted { IfOk result (λ n. n ≤ 4_294_967_279) }
    ensures put { IfOk result (λ n. W.room w.new + n ≡ W.room w.old) }
{
    let inode = F::Inode::from_number(9);
    let handle = F::Handle::from_number(5);
    fs.read(ctx, inode, handle, w, size, 0, None, 0)
}

/// Three bytes from place 2 on, where one is there and the limit is 4: two are written, after a
/// zero in the gap.
fn two_of_three<R: ZeroCopyReader>(bytes: &mut Vec<u8>, r: &mut R) -> Result<u32, Fault>
    requires held { bytes.old.items ≡ codes "a" }
    requires left { R.left r.old ≡ codes "bcd" }
    ensures count { IfOk result (λ n. n ≡ 2) }
    ensures wrote { OnOk result (bytes.new.items ≡ codes "a" ++ 0 ∷ codes "bc") }
{
    write_bytes(bytes, r, 3, 2, 4)
}

/// A list to which two items were added, and which gave one: it has one left.
fn one_of_two_is_left(
    alloc: Global,
    first: DirEntry<'_>,
    second: DirEntry<'_>,
) -> Result<usize, Fault>
    ensures { IfOk result (λ n. n ≡ 1) }
{
    let mut list = EntryList::new(alloc);
    list.push(first)?;
    list.push(second)?;
    let _ = list.next();
    Ok(list.len())
}
