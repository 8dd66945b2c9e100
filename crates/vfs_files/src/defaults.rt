//! The default replies of the calls, by a function of each call's name.
//!
//! An implementation of [`FileSystem`](crate::FileSystem), or of
//! [`SerializableFileSystem`](crate::SerializableFileSystem), calls these for what it does not serve,
//! so that its source shows which calls it leaves to their default. They are not bodies in the
//! trait, because a body there could only be proved from a law that every file system allows its
//! answer.
//!
//! Most return the fault ENOSYS ([`no_such_call`]). `batch_forget` has no function here: an
//! implementation must call its own `forget` for each pair, in order.

ghost use Rattle.std.specs.Prelude.{◌≡◌, Ok, Err};
ghost use Rattle.vfs_files.specs.Calls.{Options, init_answer, opened_answer, not_served, default_opening, default_statistics};
ghost use Rattle.vfs_files.specs.declared.migration.MigrateError.TheVariants.{Unsupported};

use crate::entry::Entry;
use crate::migration::MigrateError;
use crate::number::Number;
use crate::xattr::{GetxattrReply, ListxattrReply};
use bitflags::Flags;
use std::time::Duration;
use vfs_flags::{Errno, Fault, FsOptions, OpenOptions};
use vfs_wire::{Attr, Statvfs64};

/// Returns the fault ENOSYS, whatever the type of the result.
pub fn no_such_call<T>() -> Result<T, Fault>
    ensures { result ≡ Err not_served }
{
    Err(Some(Errno::ENOSYS))
}

/// Returns ENOSYS: no name is found.
pub fn lookup() -> Result<Entry, Fault>
    ensures { result ≡ Err not_served }
{
    no_such_call::<Entry>()
}

/// Does nothing, because a file system that counts no lookups has none to subtract.
pub fn forget() {}

/// Returns ENOSYS: the node has no attributes to report.
pub fn getattr() -> Result<(Attr, Duration), Fault>
    ensures { result ≡ Err not_served }
{
    no_such_call::<(Attr, Duration)>()
}

/// Returns ENOSYS: no attribute is changed.
pub fn setattr() -> Result<(Attr, Duration), Fault>
    ensures { result ≡ Err not_served }
{
    no_such_call::<(Attr, Duration)>()
}

/// Returns ENOSYS: there are no symbolic links.
pub fn readlink() -> Result<Vec<u8>, Fault>
    ensures { result ≡ Err not_served }
{
    no_such_call::<Vec<u8>>()
}

/// Returns ENOSYS: no symbolic link is made.
pub fn symlink() -> Result<Entry, Fault>
    ensures { result ≡ Err not_served }
{
    no_such_call::<Entry>()
}

/// Returns ENOSYS: no file is made.
pub fn mknod() -> Result<Entry, Fault>
    ensures { result ≡ Err not_served }
{
    no_such_call::<Entry>()
}

/// Returns ENOSYS: no directory is made.
pub fn mkdir() -> Result<Entry, Fault>
    ensures { result ≡ Err not_served }
{
    no_such_call::<Entry>()
}

/// Returns ENOSYS: no name is removed.
pub fn unlink() -> Result<(), Fault>
    ensures { result ≡ Err not_served }
{
    no_such_call::<()>()
}

/// Returns ENOSYS: no directory is removed.
pub fn rmdir() -> Result<(), Fault>
    ensures { result ≡ Err not_served }
{
    no_such_call::<()>()
}

/// Returns ENOSYS: no name is changed.
pub fn rename() -> Result<(), Fault>
    ensures { result ≡ Err not_served }
{
    no_such_call::<()>()
}

/// Returns ENOSYS: no hard link is made.
pub fn link() -> Result<Entry, Fault>
    ensures { result ≡ Err not_served }
{
    no_such_call::<Entry>()
}

/// Opens no handle and sets no option: the kernel reads and writes the file by its node.
pub fn open<H: Number>() -> Result<(Option<H>, OpenOptions), Fault>
    ensures { opened_answer H.value result ≡ default_opening }
{
    Ok((None, OpenOptions::empty()))
}

/// Returns ENOSYS: no byte is written to the reply.
pub fn read() -> Result<usize, Fault>
    ensures { result ≡ Err not_served }
{
    no_such_call::<usize>()
}

/// Returns ENOSYS: no byte of the request is used.
pub fn write() -> Result<u32, Fault>
    ensures { result ≡ Err not_served }
{
    no_such_call::<u32>()
}

/// Reports names of at most 255 bytes and a block size of 512 bytes; all other numbers are 0.
pub fn statfs() -> Result<Statvfs64, Fault>
    ensures { result ≡ Ok default_statistics }
{
    Ok(Statvfs64 {
        f_namemax: 255,
        f_bsize: 512,
        ..Statvfs64::default()
    })
}

/// Returns ENOSYS. The kernel ignores the result of a release.
pub fn release() -> Result<(), Fault>
    ensures { result ≡ Err not_served }
{
    no_such_call::<()>()
}

/// Returns ENOSYS. The kernel takes it as success, and does not ask again.
pub fn fsync() -> Result<(), Fault>
    ensures { result ≡ Err not_served }
{
    no_such_call::<()>()
}

/// Returns ENOSYS. The kernel reports EOPNOTSUPP, and does not ask again.
pub fn setxattr() -> Result<(), Fault>
    ensures { result ≡ Err not_served }
{
    no_such_call::<()>()
}

/// Returns ENOSYS. The kernel reports EOPNOTSUPP, and does not ask again.
pub fn getxattr() -> Result<GetxattrReply, Fault>
    ensures { result ≡ Err not_served }
{
    no_such_call::<GetxattrReply>()
}

/// Returns ENOSYS. The kernel reports EOPNOTSUPP, and does not ask again.
pub fn listxattr() -> Result<ListxattrReply, Fault>
    ensures { result ≡ Err not_served }
{
    no_such_call::<ListxattrReply>()
}

/// Returns ENOSYS. The kernel reports EOPNOTSUPP, and does not ask again.
pub fn removexattr() -> Result<(), Fault>
    ensures { result ≡ Err not_served }
{
    no_such_call::<()>()
}

/// Returns ENOSYS. The kernel takes it as success, and does not ask again.
pub fn flush() -> Result<(), Fault>
    ensures { result ≡ Err not_served }
{
    no_such_call::<()>()
}

/// Requests no option of the kernel.
pub fn init() -> Result<FsOptions, Fault>
    ensures { init_answer result ≡ Options 0 }
{
    Ok(FsOptions::empty())
}

/// Opens no handle and sets no option: the kernel reads the directory by its node.
pub fn opendir<H: Number>() -> Result<(Option<H>, OpenOptions), Fault>
    ensures { opened_answer H.value result ≡ default_opening }
{
    open::<H>()
}

/// Returns ENOSYS: no directory is read.
pub fn readdir<I>() -> Result<I, Fault>
    ensures { result ≡ Err not_served }
{
    no_such_call::<I>()
}

/// Returns ENOSYS. The kernel ignores the result of a release.
pub fn releasedir() -> Result<(), Fault>
    ensures { result ≡ Err not_served }
{
    no_such_call::<()>()
}

/// Returns ENOSYS. The kernel takes it as success, and does not ask again.
pub fn fsyncdir() -> Result<(), Fault>
    ensures { result ≡ Err not_served }
{
    no_such_call::<()>()
}

/// Returns ENOSYS: no lock is reported.
pub fn getlk() -> Result<(), Fault>
    ensures { result ≡ Err not_served }
{
    no_such_call::<()>()
}

/// Returns ENOSYS: no lock is set.
pub fn setlk() -> Result<(), Fault>
    ensures { result ≡ Err not_served }
{
    no_such_call::<()>()
}

/// Returns ENOSYS: no lock is waited for.
pub fn setlkw() -> Result<(), Fault>
    ensures { result ≡ Err not_served }
{
    no_such_call::<()>()
}

/// Returns ENOSYS. The kernel then takes every access as allowed.
pub fn access() -> Result<(), Fault>
    ensures { result ≡ Err not_served }
{
    no_such_call::<()>()
}

/// Returns ENOSYS. The kernel then calls `mknod` and `open` instead.
pub fn create<H>() -> Result<(Entry, Option<H>, OpenOptions), Fault>
    ensures { result ≡ Err not_served }
{
    no_such_call::<(Entry, Option<H>, OpenOptions)>()
}

/// Returns ENOSYS: no block is mapped.
pub fn bmap() -> Result<(), Fault>
    ensures { result ≡ Err not_served }
{
    no_such_call::<()>()
}

/// Does nothing.
pub fn destroy() {}

/// Returns ENOSYS: no device is controlled.
pub fn ioctl() -> Result<(), Fault>
    ensures { result ≡ Err not_served }
{
    no_such_call::<()>()
}

/// Returns ENOSYS. The kernel then takes every file as ready.
pub fn poll() -> Result<(), Fault>
    ensures { result ≡ Err not_served }
{
    no_such_call::<()>()
}

/// Returns ENOSYS: the data is not used.
pub fn notify_reply() -> Result<(), Fault>
    ensures { result ≡ Err not_served }
{
    no_such_call::<()>()
}

/// Returns ENOSYS. The kernel reports EOPNOTSUPP, and does not ask again.
pub fn fallocate() -> Result<(), Fault>
    ensures { result ≡ Err not_served }
{
    no_such_call::<()>()
}

/// Returns ENOSYS. The kernel then takes every file to have no holes.
pub fn lseek() -> Result<u64, Fault>
    ensures { result ≡ Err not_served }
{
    no_such_call::<u64>()
}

/// Returns ENOSYS. The kernel then copies by reads and writes.
pub fn copyfilerange() -> Result<u32, Fault>
    ensures { result ≡ Err not_served }
{
    no_such_call::<u32>()
}

/// Returns ENOSYS. The kernel takes it as success, and does not ask again.
pub fn syncfs() -> Result<(), Fault>
    ensures { result ≡ Err not_served }
{
    no_such_call::<()>()
}

/// Returns ENOSYS: no file is made.
pub fn tmpfile() -> Fault
    ensures { result ≡ not_served }
{
    Some(Errno::ENOSYS)
}

/// Prepares nothing.
pub fn prepare_serialization() {}

/// Returns the error `Unsupported`.
pub fn no_migration() -> Result<(), MigrateError>
    ensures { result ≡ Err Unsupported }
{
    Err(MigrateError::Unsupported)
}

/// Returns `Unsupported`, without a byte written.
pub fn serialize() -> Result<(), MigrateError>
    ensures { result ≡ Err Unsupported }
{
    no_migration()
}

/// Returns `Unsupported`, without a byte read.
pub fn deserialize_and_apply() -> Result<(), MigrateError>
    ensures { result ≡ Err Unsupported }
{
    no_migration()
}
