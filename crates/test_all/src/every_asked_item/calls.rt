//! The 44 calls of a file system by their signatures, and the default reply of each.

use bitflags::Flags;
use std::time::Duration;
use vfs_server::filesystem::{
    CStr, Context, Entry, Extensions, FileSystem, FsOptions, GetxattrReply, ListxattrReply,
    MigrateError, Number, OpenOptions, SetattrValid, SetxattrFlags, ZeroCopyReader, ZeroCopyWriter,
    defaults,
};
use vfs_server::fuse::{Attr, Errno, Fault, SetattrIn, Statvfs64};

fn node<F: FileSystem>() -> F::Inode {
    F::Inode::from_number(1)
}

fn handle<F: FileSystem>() -> F::Handle {
    F::Handle::from_number(1)
}

pub(crate) fn names<F: FileSystem>(fs: &mut F, ctx: &Context, name: CStr<'_>) {
    let _: Result<Entry, Fault> = fs.lookup(*ctx, node::<F>(), name);
    fs.forget(*ctx, node::<F>(), 1u64);
    let _: Result<Vec<u8>, Fault> = fs.readlink(*ctx, node::<F>());
    let _: Result<Entry, Fault> = fs.symlink(*ctx, name, node::<F>(), name, Extensions::none());
    let _: Result<Entry, Fault> = fs.mknod(
        *ctx,
        node::<F>(),
        name,
        1u32,
        2u32,
        3u32,
        Extensions::none(),
    );
    let _: Result<Entry, Fault> = fs.mkdir(*ctx, node::<F>(), name, 1u32, 2u32, Extensions::none());
    let _: Result<(), Fault> = fs.unlink(*ctx, node::<F>(), name);
    let _: Result<(), Fault> = fs.rmdir(*ctx, node::<F>(), name);
    let _: Result<(), Fault> = fs.rename(*ctx, node::<F>(), name, node::<F>(), name, 1u32);
    let _: Result<Entry, Fault> = fs.link(*ctx, node::<F>(), node::<F>(), name);
    let _: Result<(Entry, Option<F::Handle>, OpenOptions), Fault> = fs.create(
        *ctx,
        node::<F>(),
        name,
        1u32,
        true,
        2u32,
        3u32,
        Extensions::none(),
    );
}

pub(crate) fn attributes<F: FileSystem>(
    fs: &mut F,
    ctx: &Context,
    attr: SetattrIn,
    name: CStr<'_>,
    value: &[u8],
) {
    let _: Result<(Attr, Duration), Fault> = fs.getattr(*ctx, node::<F>(), Some(handle::<F>()));
    let _: Result<(Attr, Duration), Fault> = fs.setattr(
        *ctx,
        node::<F>(),
        attr,
        None,
        SetattrValid::SIZE,
    );
    let _: Result<Statvfs64, Fault> = fs.statfs(*ctx, node::<F>());
    let _: Result<(), Fault> = fs.setxattr(
        *ctx,
        node::<F>(),
        name,
        value,
        1u32,
        SetxattrFlags::empty(),
    );
    let _: Result<GetxattrReply, Fault> = fs.getxattr(*ctx, node::<F>(), name, 1u32);
    let _: Result<ListxattrReply, Fault> = fs.listxattr(*ctx, node::<F>(), 1u32);
    let _: Result<(), Fault> = fs.removexattr(*ctx, node::<F>(), name);
    let _: Result<(), Fault> = fs.access(*ctx, node::<F>(), 1u32);
}

pub(crate) fn files<F: FileSystem, R: ZeroCopyReader, W: ZeroCopyWriter>(
    fs: &mut F,
    ctx: &Context,
    r: &mut R,
    w: &mut W,
) {
    let _: Result<(Option<F::Handle>, OpenOptions), Fault> = fs.open(*ctx, node::<F>(), true, 1u32);
    let _: Result<usize, Fault> = fs.read(
        *ctx,
        node::<F>(),
        handle::<F>(),
        w,
        1u32,
        2u64,
        Some(3u64),
        4u32,
    );
    let _: Result<u32, Fault> = fs.write(
        *ctx,
        node::<F>(),
        handle::<F>(),
        r,
        1u32,
        2u64,
        Some(3u64),
        true,
        false,
        4u32,
    );
    let _: Result<(), Fault> = fs.release(
        *ctx,
        node::<F>(),
        1u32,
        handle::<F>(),
        true,
        false,
        Some(2u64),
    );
    let _: Result<(), Fault> = fs.fsync(*ctx, node::<F>(), true, handle::<F>());
    let _: Result<(), Fault> = fs.flush(*ctx, node::<F>(), handle::<F>(), 1u64);
    let _: Result<(), Fault> = fs.fallocate(*ctx, node::<F>(), handle::<F>(), 1u32, 2u64, 3u64);
    let _: Result<u64, Fault> = fs.lseek(*ctx, node::<F>(), handle::<F>(), 1u64, 2u32);
    let _: Result<u32, Fault> = fs.copyfilerange(
        *ctx,
        node::<F>(),
        handle::<F>(),
        1u64,
        node::<F>(),
        handle::<F>(),
        2u64,
        3u64,
        4u64,
    );
}

pub(crate) fn directories<F: FileSystem>(fs: &mut F, ctx: &Context) -> Result<F::DirIter, Fault> {
    let _: Result<(Option<F::Handle>, OpenOptions), Fault> = fs.opendir(*ctx, node::<F>(), 1u32);
    let _: Result<(), Fault> = fs.releasedir(*ctx, node::<F>(), 1u32, handle::<F>());
    let _: Result<(), Fault> = fs.fsyncdir(*ctx, node::<F>(), true, handle::<F>());
    fs.readdir(*ctx, node::<F>(), handle::<F>(), 1u32, 2u64)
}

pub(crate) fn others<F: FileSystem>(
    fs: &mut F,
    ctx: &Context,
    requests: Vec<(F::Inode, u64)>,
) -> Fault {
    let _: Result<FsOptions, Fault> = fs.init(FsOptions::ASYNC_READ);
    let _: Result<(), Fault> = fs.getlk();
    let _: Result<(), Fault> = fs.setlk();
    let _: Result<(), Fault> = fs.setlkw();
    let _: Result<(), Fault> = fs.bmap();
    let _: Result<(), Fault> = fs.ioctl();
    let _: Result<(), Fault> = fs.poll();
    let _: Result<(), Fault> = fs.notify_reply();
    fs.batch_forget(*ctx, requests);
    let _: Result<(), Fault> = fs.syncfs(*ctx, node::<F>());
    fs.destroy();
    fs.tmpfile()
}

/// Whether a call that is left to its default fails with ENOSYS.
fn is_missing<T: Drop>(answer: Result<T, Fault>) -> bool {
    match answer.err() {
        Some(fault) => fault == Some(Errno::ENOSYS),
        None => false,
    }
}

fn name_defaults() -> bool {
    is_missing::<Entry>(defaults::lookup())
        && is_missing::<Vec<u8>>(defaults::readlink())
        && is_missing::<Entry>(defaults::symlink())
        && is_missing::<Entry>(defaults::mknod())
        && is_missing::<Entry>(defaults::mkdir())
        && is_missing::<()>(defaults::unlink())
        && is_missing::<()>(defaults::rmdir())
        && is_missing::<()>(defaults::rename())
        && is_missing::<Entry>(defaults::link())
        && is_missing::<(Entry, Option<u64>, OpenOptions)>(defaults::create::<u64>())
        && is_missing::<(Attr, Duration)>(defaults::getattr())
        && is_missing::<(Attr, Duration)>(defaults::setattr())
        && is_missing::<()>(defaults::setxattr())
        && is_missing::<GetxattrReply>(defaults::getxattr())
        && is_missing::<ListxattrReply>(defaults::listxattr())
        && is_missing::<()>(defaults::removexattr())
        && is_missing::<()>(defaults::access())
}

fn file_defaults() -> bool {
    is_missing::<usize>(defaults::read())
        && is_missing::<u32>(defaults::write())
        && is_missing::<()>(defaults::release())
        && is_missing::<()>(defaults::fsync())
        && is_missing::<()>(defaults::flush())
        && is_missing::<u32>(defaults::readdir::<u32>())
        && is_missing::<()>(defaults::releasedir())
        && is_missing::<()>(defaults::fsyncdir())
        && is_missing::<()>(defaults::getlk())
        && is_missing::<()>(defaults::setlk())
        && is_missing::<()>(defaults::setlkw())
        && is_missing::<()>(defaults::bmap())
        && is_missing::<()>(defaults::ioctl())
        && is_missing::<()>(defaults::poll())
        && is_missing::<()>(defaults::notify_reply())
        && is_missing::<()>(defaults::fallocate())
        && is_missing::<u64>(defaults::lseek())
        && is_missing::<u32>(defaults::copyfilerange())
        && is_missing::<()>(defaults::syncfs())
        && defaults::tmpfile() == Some(Errno::ENOSYS)
}

fn is_unsupported(answer: Result<(), MigrateError>) -> bool {
    matches!(answer, Err(MigrateError::Unsupported))
}

fn other_defaults() -> bool {
    defaults::forget();
    defaults::destroy();
    defaults::prepare_serialization();
    let empty = OpenOptions::empty();
    matches!(defaults::open::<u64>(), Ok((None, options)) if options == empty)
        && matches!(defaults::opendir::<u64>(), Ok((None, options)) if options == empty)
        && matches!(defaults::init(), Ok(options) if options == FsOptions::empty())
        && matches!(defaults::statfs(), Ok(s) if s.f_namemax == 255 && s.f_bsize == 512 && s.f_blocks == 0)
        && is_unsupported(defaults::serialize())
        && is_unsupported(defaults::deserialize_and_apply())
}

/// Whether each call that has no body in the trait has its default by its name.
pub(crate) fn all_defaults() -> bool {
    name_defaults() && file_defaults() && other_defaults()
}
