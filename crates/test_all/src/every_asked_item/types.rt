//! Readers and writers, names, and the values that calls take and return, each by its signature.

use std::alloc::Global;
use std::error::Error;
use std::fmt::{Debug, Display};
use std::io;
use std::io::{Read, Write};
use std::time::Duration;
use vfs_server::descriptor_utils;
use vfs_server::descriptor_utils::{
    Counted, DescriptorType, PositionedFile, Reader, Slices, SlicesMut, Totals, Writer,
    WritevFlags, find_segment,
};
use vfs_server::filesystem::{
    CStr, CString, Context, DirEntry, DirectoryIterator, Entry, Extensions, GetxattrReply,
    ListxattrReply, MigrateError, Number, SecContext, ZeroCopyReader, ZeroCopyWriter,
};
use vfs_server::fuse::{
    Attr, EntryOut, Fault, GuestGid, GuestUid, HostGid, HostUid, InHeader, Kstatfs, Stat64,
    Statvfs64,
};
use vfs_server::server::{ZcReader, ZcWriter};

fn is_error<T: Debug + Display + Error>() {}

pub(crate) fn reader<'a, P: PositionedFile>(
    alloc: Global,
    segments: &'a [&'a [u8]],
    file: &mut P,
    bytes: &mut [u8],
) -> descriptor_utils::Result<Reader<'a>> {
    let mut r: Reader<'a> = Reader::new(alloc, segments)?;
    let _: io::Result<usize> = r.read(bytes);
    let _: io::Result<()> = r.read_exact(bytes);
    let _: io::Result<u32> = r.read_obj::<u32>();
    let _: usize = r.available_bytes();
    let _: usize = r.bytes_read();
    let _: descriptor_utils::Result<Reader<'a>> = r.split_at(3);
    let _: descriptor_utils::Result<Reader<'a>> = r.clone();
    let _: Result<usize, Fault> = r.write_to_file_at(file, 3, 4u64, Some(WritevFlags(3)));
    let _: bool = r.together(0, 3);
    let _: Option<&'a [u8]> = r.take_slice(3);
    Ok(r)
}

pub(crate) fn writer<P: PositionedFile>(
    alloc: Global,
    segments: Vec<Vec<u8>>,
    file: &mut P,
    bytes: &[u8],
) -> descriptor_utils::Result<Vec<Vec<u8>>> {
    let mut w: Writer = Writer::new(alloc, segments)?;
    let _: io::Result<usize> = w.write(bytes);
    let _: io::Result<()> = w.write_all(bytes);
    let _: io::Result<()> = w.write_obj(7u32);
    let _: io::Result<()> = w.flush();
    let _: usize = w.available_bytes();
    let _: usize = w.bytes_written();
    let _: descriptor_utils::Result<Writer> = w.split_at(3);
    let _: Result<usize, Fault> = w.read_from_file_at(file, 3, 4u64);
    let _: descriptor_utils::Result<()> = w.hold(0);
    if w.held() == 0 {
        w.fill_held(&[]);
    }
    Ok(w.into_segments())
}

pub(crate) fn slices<'a>(lent: &'a Slices<'_>) -> Option<(usize, &'a [u8])> {
    if lent.count() > 0 {
        Some((lent.total(), lent.get(0)))
    } else {
        None
    }
}

pub(crate) fn slices_mut<'a>(lent: &'a mut SlicesMut<'_>) -> Option<(usize, &'a mut [u8])> {
    if lent.count() > 0 {
        Some((lent.total(), lent.get_mut(0)))
    } else {
        None
    }
}

pub(crate) fn file<P: PositionedFile>(
    p: &mut P,
    from: &Slices<'_>,
    to: &mut SlicesMut<'_>,
) -> (Result<usize, Fault>, Result<usize, Fault>) {
    (
        p.write_vectored_at(from, 4u64, Some(WritevFlags(3))),
        p.read_vectored_at(to, 4u64),
    )
}

pub(crate) fn zero_copy<R: ZeroCopyReader, W: ZeroCopyWriter, P: PositionedFile>(
    mut r: &mut R,
    mut w: &mut W,
    p: &mut P,
) {
    let _: Result<usize, Fault> = r.write_to_file_at(p, 3, 4u64, None);
    let _: Result<usize, Fault> = w.read_from_file_at(p, 3, 4u64);
    let _: Result<usize, Fault> = <&mut R as ZeroCopyReader>::write_to_file_at(
        &mut r, p, 3, 4u64, None,
    );
    let _: Result<usize, Fault> = <&mut W as ZeroCopyWriter>::read_from_file_at(&mut w, p, 3, 4u64);
}

pub(crate) fn wrapped<'a>(r: Reader<'a>, w: Writer) -> (ZcReader<'a>, ZcWriter) {
    (ZcReader(r), ZcWriter(w))
}

fn segment_errors(e: descriptor_utils::Error) -> usize {
    match e {
        descriptor_utils::Error::DescriptorChainOverflow => 1,
        descriptor_utils::Error::SplitOutOfBounds(n) => n,
        descriptor_utils::Error::IoError => 3,
        descriptor_utils::Error::OutOfMemory => 4,
    }
}

fn count_of<T: Totals>(totals: &T) -> usize {
    totals.count()
}

fn found() -> (usize, u32, usize) {
    let mut counted: Counted<'_> = Counted::new(&[8, 24, 42, 106]);
    let index = find_segment(&mut counted, 8);
    (index, counted.looks(), count_of(&counted))
}

fn segment_by_laws() -> usize {
    let mut counted = vfs_segments::laws::Counted::new(&[8, 24, 42, 106]);
    vfs_segments::laws::find_segment(&mut counted, 8)
}

fn can_be_written(kind: DescriptorType) -> bool {
    match kind {
        DescriptorType::Readable => false,
        DescriptorType::Writable => true,
    }
}

pub(crate) fn name(alloc: Global, bytes: &[u8]) -> Option<CString> {
    let name: CStr<'_> = CStr::from_bytes_with_nul(bytes)?;
    let _: &[u8] = name.to_bytes();
    let owned: Result<CString, Fault> = CString::new(alloc, name);
    let owned = owned.ok()?;
    let _: CStr<'_> = owned.as_c_str();
    Some(owned)
}

pub(crate) fn values(
    name: CString,
    secctx: Vec<u8>,
    attr: Attr,
    timeout: Duration,
) -> (Extensions, Entry) {
    let entry = Entry {
        inode: 1u64,
        generation: 2u64,
        attr,
        attr_timeout: timeout,
        entry_timeout: timeout,
    };
    let extensions = Extensions {
        secctx: Some(SecContext { name, secctx }),
        sup_gid: Some(GuestGid::from(3u32)),
    };
    (extensions, entry)
}

pub(crate) fn copies(
    alloc: Global,
    extensions: &Extensions,
    context: &SecContext,
) -> (
    Result<Extensions, Fault>,
    Result<SecContext, Fault>,
    Extensions,
) {
    (
        extensions.clone(alloc),
        context.clone(alloc),
        Extensions::none(),
    )
}

pub(crate) fn item(name: CStr<'_>) -> DirEntry<'_> {
    DirEntry {
        ino: 1u64,
        offset: 2u64,
        type_: 4u32,
        name,
    }
}

pub(crate) fn next<'a, I: DirectoryIterator>(items: &'a mut I) -> Option<DirEntry<'a>> {
    items.next()
}

fn context(uid: GuestUid, gid: GuestGid) -> Context {
    Context {
        uid,
        gid,
        pid: 7i32,
    }
}

pub(crate) fn conversions(
    e: Entry,
    h: InHeader,
    st: Stat64,
    v: Statvfs64,
) -> (EntryOut, Context, Kstatfs, [Result<Attr, Fault>; 2]) {
    let with_flags = Attr::try_with_flags(
        st,
        3u32,
        |u: HostUid| Ok(GuestUid::from(u.into_inner())),
        |g: HostGid| Ok(GuestGid::from(g.into_inner())),
    );
    let plain = Attr::try_from_stat64(
        st,
        |u: HostUid| Ok(GuestUid::from(u.into_inner())),
        |g: HostGid| Ok(GuestGid::from(g.into_inner())),
    );
    (
        EntryOut::from(e),
        Context::from(h),
        Kstatfs::from(v),
        [with_flags, plain],
    )
}

fn stat(n: u64, i: i64, w: u32) -> (Stat64, Statvfs64) {
    let file = Stat64 {
        st_ino: n,
        st_nlink: n,
        st_rdev: n,
        st_size: i,
        st_blocks: i,
        st_blksize: i,
        st_atime: i,
        st_mtime: i,
        st_ctime: i,
        st_atime_nsec: i,
        st_mtime_nsec: i,
        st_ctime_nsec: i,
        st_mode: w,
        st_uid: w,
        st_gid: w,
    };
    let system = Statvfs64 {
        f_bsize: n,
        f_frsize: n,
        f_blocks: n,
        f_bfree: n,
        f_bavail: n,
        f_files: n,
        f_ffree: n,
        f_namemax: n,
    };
    (file, system)
}

pub(crate) fn number<N: Number>(n: u64) -> u64 {
    N::from_number(n).number()
}

fn xattr_lengths(value: &GetxattrReply, names: &ListxattrReply) -> (usize, usize) {
    let value = match value {
        GetxattrReply::Value(bytes) => bytes.len(),
        GetxattrReply::Count(n) => *n as usize,
    };
    let names = match names {
        ListxattrReply::Names(bytes) => bytes.len(),
        ListxattrReply::Count(n) => *n as usize,
    };
    (value, names)
}

fn migration_fault(e: MigrateError) -> Fault {
    match e {
        MigrateError::Unsupported => None,
        MigrateError::Failed(fault) => fault,
    }
}

/// Whether values made and taken apart here are the same.
pub(crate) fn all_values() -> bool {
    is_error::<descriptor_utils::Error>();
    is_error::<MigrateError>();
    is_error::<vfs_server::Error>();
    let (st, system) = stat(9, -9, 3);
    let who = context(GuestUid::from(1), GuestGid::from(2));
    let (index, looks, count) = found();
    (index, count) == (1, 4)
        && looks <= 3
        && segment_by_laws() == 1
        && can_be_written(DescriptorType::Writable)
        && segment_errors(descriptor_utils::Error::SplitOutOfBounds(9)) == 9
        && number::<u64>(7) == 7
        && who.pid == 7
        && Kstatfs::from(system).namelen == 9
        && st.st_uid == 3
        && xattr_lengths(&GetxattrReply::Count(4), &ListxattrReply::Count(5)) == (4, 5)
        && migration_fault(MigrateError::Unsupported).is_none()
}
