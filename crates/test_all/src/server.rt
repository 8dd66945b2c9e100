//! What no clause says: public calls at file systems of the tests' own; and texts.

use crate::support::{ScriptServer, have_texts, holds, reply_by_script, script_server};
use bitflags::Flags;
use std::alloc::{AllocError, Global};
use std::test::Fail;
use vfs_bench::{Note, NoteKind, Script};
use vfs_server::Error;
use vfs_server::filesystem::FsOptions;

/// A server over a file system that wants these options, with a note of each call.
fn server(alloc: Global, wants: FsOptions) -> Result<ScriptServer, AllocError> {
    let mut script = Script::new();
    script.options = Ok(wants);
    script_server(alloc, script, 4)
}

/// Whether a request is replied to and noted.
fn notes_one(alloc: Global, server: &mut ScriptServer) -> Result<bool, Fail> {
    let reply = reply_by_script(alloc, server, (17, 1, b""), 96)?;
    Ok(!reply.is_empty() && server.fs().notes().len() == 1)
}

/// Whether a server's notes can be cleared between requests.
fn lends(alloc: Global, server: &mut ScriptServer) -> Result<bool, Fail> {
    let noted = notes_one(alloc, server)?;
    server.fs_mut().clear();
    Ok(noted && server.fs().notes().is_empty())
}

#[test]
fn a_server_lends_its_file_system(rt: HostRuntime) -> Result<(), Fail> {
    let mut server = server(rt.alloc(), FsOptions::empty())?;
    holds(lends(rt.alloc(), &mut server))
}

/// INIT of version 7.38 that offers every option in both words of flags, after its header.
static INIT: [u8; 64] = *b"\x07\0\0\0\x26\0\0\0\0\0\x02\0\
    \xff\xff\xff\xff\xff\xff\xff\xff\
    \0\0\0\0\0\0\0\0\0\0\0\0\0\0\0\0\0\0\0\0\0\0\
    \0\0\0\0\0\0\0\0\0\0\0\0\0\0\0\0\0\0\0\0\0\0";

/// The notes of INIT and of the end of a session.
static BEGUN_AND_ENDED: [Note; 2] = [
    Note {
        call: 26,
        node: 0,
        count: 0,
        kind: NoteKind::Ok,
        value: 0,
    },
    Note {
        call: 38,
        node: 0,
        count: 0,
        kind: NoteKind::Nothing,
        value: 0,
    },
];

/// Whether an INIT is replied to, and these options are agreed on then.
fn agrees(alloc: Global, server: &mut ScriptServer, options: u64) -> Result<bool, Fail> {
    let reply = reply_by_script(alloc, server, (26, 0, &INIT), 80)?;
    Ok(reply.len() == 80 && server.options().bits() == options)
}

/// Whether the options are given up at the end.
fn are_given_up(server: &mut ScriptServer) -> bool {
    server.destroy() == 0
        && server.options().bits() == 0
        && server.fs().notes() == BEGUN_AND_ENDED.as_slice()
}

/// Whether these options are agreed on, and given up at the end.
fn agrees_and_ends(alloc: Global, server: &mut ScriptServer, options: u64) -> Result<bool, Fail> {
    Ok(agrees(alloc, server, options)? && are_given_up(server))
}

#[test]
fn options_are_agreed_on_and_given_up(rt: HostRuntime) -> Result<(), Fail> {
    // As many as the file system wants of those that are offered.
    let wants = FsOptions::from_bits_truncate(1 << 17 | 1 << 28);
    let mut server = server(rt.alloc(), wants)?;
    holds(agrees_and_ends(rt.alloc(), &mut server, 0x104_5846_9829))
}

/// The errors and their texts.
static TEXTS: [(Error, &str); 10] = [
    (
        Error::DecodeMessage,
        "the request is cut short, or says what has no meaning",
    ),
    (
        Error::EncodeMessage,
        "the reply is longer than the room for it",
    ),
    (Error::FlushMessage, "the reply could not be flushed"),
    (
        Error::MissingParameter,
        "the request lacks a name or another part",
    ),
    (Error::InvalidCString, "a name does not end at its only nul"),
    (Error::InvalidCString2, "a name has no byte"),
    (
        Error::InvalidHeaderLength,
        "a length in the request is less than what it counts",
    ),
    (
        Error::InvalidXattrSize((2, 1)),
        "the size of an extended attribute is said to be 2, and its value has 1 bytes",
    ),
    (
        Error::MissingExtension,
        "the request lacks the security context that was agreed on",
    ),
    (Error::OutOfMemory, "out of memory"),
];

#[test]
fn each_error_has_a_text(rt: HostRuntime) -> Result<(), Fail> {
    holds(have_texts(rt.alloc(), &TEXTS))
}
