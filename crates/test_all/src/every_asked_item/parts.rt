//! The server, the recorder, the script and the program by their signatures.

use fs_small::{MemFile, MemFs};
use std::alloc::Global;
use std::fmt::{Debug, Display};
use std::io;
use vfs_bench::{Note, NoteKind, Recorder, Script};
use vfs_run::{Line, RunError, exit_status, parse_line, run};
use vfs_server::descriptor_utils::{PositionedFile, Reader, Writer};
use vfs_server::filesystem::{
    DirEntry, Entry, Extensions, FileSystem, FsOptions, MigrateError, OpenOptions, ROOT_ID,
    RemovemappingOne, SecContext, SerializableFileSystem, SetattrValid, SetxattrFlags,
};
use vfs_server::fuse::{Fault, GuestGid, OpenOut};
use vfs_server::server::Server;
use vfs_server::{fuse, server};

fn is_shown<T: Debug + Display>() {}

fn is_served<T: FileSystem>() {}

fn is_file<T: PositionedFile>() {}

pub(crate) fn session<F: FileSystem>(
    alloc: Global,
    fs: F,
    reader: Reader<'_>,
    writer: &mut Writer,
    readers: Vec<Reader<'_>>,
    writers: &mut [Writer],
    outcomes: &mut [vfs_server::Result<usize>],
) -> F {
    let mut s: Server<F> = Server::with_limit(fs, 4096u32, 8192u32);
    let _: vfs_server::Result<usize> = s.handle_message(alloc, reader, writer);
    if readers.len() == writers.len() && writers.len() == outcomes.len() {
        s.handle_session(alloc, readers, writers, outcomes);
    }
    let _: FsOptions = s.options();
    let _: &F = s.fs();
    let _: u32 = s.max_buffer();
    let _: usize = s.destroy();
    s.into_fs()
}

pub(crate) fn server_over<F: FileSystem>(fs: F) -> Server<F> {
    Server::new(fs, 4096u32)
}

pub(crate) fn migrated<F: SerializableFileSystem, R: io::Read, W: io::Write>(
    s: &mut Server<F>,
    r: &mut R,
    w: &mut W,
) -> Result<(), MigrateError> {
    s.prepare_serialization(true);
    s.serialize(w)?;
    s.deserialize_and_apply(r)
}

pub(crate) fn pieces(alloc: Global, w: &mut Writer, item: DirEntry<'_>, entry: Option<Entry>) {
    let options = FsOptions::SECURITY_CTX;
    let _: vfs_server::Result<Extensions> = server::get_extensions(alloc, options, 2usize, b"ab");
    let _: vfs_server::Result<Option<SecContext>> = server::parse_security_context(
        alloc, 1u32, b"ab",
    );
    let _: vfs_server::Result<GuestGid> = server::parse_sup_groups(b"ab");
    let _: Result<usize, Fault> = server::add_dirent(w, 100usize, item, entry);
    let _: vfs_server::Result<usize> = server::reply_ok::<OpenOut>(None, Some(b"ab"), 9u64, w);
    let _: vfs_server::Result<usize> = server::reply_error(None, 9u64, w);
    if w.held() == 16 {
        let _: vfs_server::Result<usize> = server::reply_readdir(0usize, 9u64, w);
    }
}

pub(crate) fn recorder(
    alloc: Global,
    files: MemFs,
) -> Result<(Recorder<MemFs>, usize, bool), Fault> {
    let recorder: Recorder<MemFs> = Recorder::new(alloc, files, 3usize)?;
    let notes: &[Note] = recorder.notes();
    let count = notes.len();
    let missed: bool = recorder.missed();
    let _: &MemFs = recorder.inner();
    Ok((recorder, count, missed))
}

fn notes(call: u32, node: u64, count: u64, value: u64) -> [Note; 3] {
    let note = |kind: NoteKind| Note {
        call,
        node,
        count,
        kind,
        value,
    };
    [
        note(NoteKind::Nothing),
        note(NoteKind::Ok),
        note(NoteKind::Fault),
    ]
}

pub(crate) fn program<R: io::Read, W: io::Write>(
    alloc: Global,
    input: &mut R,
    output: &mut W,
) -> u8 {
    let ended: Result<(), RunError> = run(alloc, input, output);
    exit_status(&ended)
}

pub(crate) fn lines(
    alloc: Global,
    rooms: Vec<usize>,
    segments: Vec<Vec<u8>>,
) -> (Line, Result<Option<Line>, RunError>) {
    (Line { rooms, segments }, parse_line(alloc, b"16 "))
}

pub(crate) fn files(alloc: Global) -> Result<MemFs, Fault> {
    MemFs::new(alloc)
}

fn run_error(e: RunError) -> usize {
    match e {
        RunError::BadLine(line) => line,
        RunError::Io => 2,
        RunError::OutOfMemory => 3,
    }
}

fn server_error(e: vfs_server::Error) -> u32 {
    match e {
        vfs_server::Error::DecodeMessage => 1,
        vfs_server::Error::EncodeMessage => 2,
        vfs_server::Error::FlushMessage => 3,
        vfs_server::Error::MissingParameter => 4,
        vfs_server::Error::InvalidCString => 5,
        vfs_server::Error::InvalidCString2 => 6,
        vfs_server::Error::InvalidHeaderLength => 7,
        vfs_server::Error::InvalidXattrSize((size, _)) => size,
        vfs_server::Error::MissingExtension => 9,
        vfs_server::Error::OutOfMemory => 10,
    }
}

/// Whether the parts of a server and of the program have their names.
pub(crate) fn all_parts() -> bool {
    is_shown::<RunError>();
    is_served::<Script>();
    is_served::<MemFs>();
    is_served::<Recorder<Script>>();
    is_file::<MemFile>();
    let same: (FsOptions, OpenOptions, SetattrValid, SetxattrFlags) = (
        fuse::FsOptions::ASYNC_READ,
        fuse::OpenOptions::STREAM,
        fuse::SetattrValid::SIZE,
        fuse::SetxattrFlags::SETXATTR_ACL_KILL_SGID,
    );
    let mapping: RemovemappingOne = fuse::RemovemappingOne { moffset: 1, len: 2 };
    same.0 == FsOptions::ASYNC_READ
        && mapping.len == 2
        && ROOT_ID == 1
        && notes(1, 2, 3, 4)[2].value == 4
        && exit_status(&Ok(())) == 0
        && exit_status(&Err(RunError::OutOfMemory)) == 4
        && run_error(RunError::BadLine(6)) == 6
        && server_error(vfs_server::Error::InvalidXattrSize((2, 1))) == 2
}
