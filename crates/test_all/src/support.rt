//! Requests and replies as bytes, the servers that tests hand them to, and the texts of errors.

use std::alloc::{AllocError, Global};
use std::fmt::{Debug, Display};
use std::test::Fail;
use vfs_bench::{Recorder, Script};
use vfs_server::descriptor_utils::{Reader, Writer};
use vfs_server::filesystem::FileSystem;
use vfs_server::server::Server;

/// A request with this opcode and node, and these bytes after its header. Its `len` counts all of
/// them, its `unique` is 9, and all else in the header is 0.
pub fn request(
    alloc: Global,
    opcode: u8,
    node: u8,
    following: &[u8],
) -> Result<Vec<u8>, AllocError> {
    let mut header = [0; 40];
    header[..8].copy_from_slice(&(40 + following.len()).to_le_bytes());
    header[4] = opcode;
    header[8] = 9;
    header[16] = node;
    let mut all = Vec::from_slice(alloc, &header)?;
    all.extend_from_slice(following)?;
    Ok(all)
}

/// That what a test looked at holds. Where it could not be looked at, the failure says why.
pub fn holds<E: Into<Fail>>(looked: Result<bool, E>) -> Result<(), Fail> {
    match looked {
        Ok(true) => Ok(()),
        Ok(false) => Err(Fail::from("it does not hold")),
        Err(error) => Err(error.into()),
    }
}

/// That no row of a table is wrong. The failure names the first that is, or says why they could not
/// be looked at.
pub fn none_is_wrong<T: Debug + Drop, E: Into<Fail>>(
    looked: Result<Option<T>, E>,
) -> Result<(), Fail> {
    match looked {
        Ok(None) => Ok(()),
        Ok(Some(wrong)) => Err(Fail::from(wrong)),
        Err(error) => Err(error.into()),
    }
}

/// Segments of these lengths, in which each byte is this one.
pub fn filled(alloc: Global, lengths: &[usize], byte: u8) -> Result<Vec<Vec<u8>>, AllocError> {
    let mut segments = Vec::new(alloc);
    for length in lengths {
        segments.push(vec![in alloc; byte; *length]?)?;
    }
    Ok(segments)
}

/// The bytes of segments, one after another.
pub fn joined(alloc: Global, segments: &[Vec<u8>]) -> Result<Vec<u8>, AllocError> {
    let mut all = Vec::new(alloc);
    for segment in segments {
        all.extend_from_slice(segment)?;
    }
    Ok(all)
}

/// Whether an error has this text.
pub fn has_text<E: Display>(alloc: Global, error: &E, text: &str) -> Result<bool, AllocError> {
    let shown = format!(in alloc; "{error}")?;
    Ok(shown.as_str() == text)
}

/// Whether each error has its text.
pub fn have_texts<E: Display>(alloc: Global, rows: &[(E, &str)]) -> Result<bool, AllocError> {
    for (error, text) in rows {
        if !has_text(alloc, error, text)? {
            return Ok(false);
        }
    }
    Ok(true)
}

/// A message: its opcode, its node, and the bytes after its header.
pub type Message<'a> = (u8, u8, &'a [u8]);

/// The reply of a server to a message with a room of that many bytes, without a zero in it.
pub fn reply<F: FileSystem>(
    alloc: Global,
    server: &mut Server<F>,
    (opcode, node, following): Message<'_>,
    room: usize,
) -> Result<Vec<u8>, Fail> {
    let request = request(alloc, opcode, node, following)?;
    let mut writer = Writer::new(alloc, filled(alloc, &[room], 0xaa)?)?;
    let len = hand_over(alloc, server, &request, &mut writer)?;
    let mut reply = joined(alloc, &writer.into_segments())?;
    reply.truncate(len);
    Ok(reply)
}

/// How long the reply to a request is that a server puts into a writer.
fn hand_over<F: FileSystem>(
    alloc: Global,
    server: &mut Server<F>,
    request: &[u8],
    writer: &mut Writer,
) -> Result<usize, Fail> {
    let pieces = [request];
    let reader = Reader::new(alloc, &pieces)?;
    Ok(server.handle_message(alloc, reader, writer)?)
}

/// A server over a recorder of `n` places.
pub fn server_over<F: Drop>(
    alloc: Global,
    inner: F,
    n: usize,
) -> Result<Server<Recorder<F>>, AllocError> {
    match Recorder::new(alloc, inner, n) {
        Ok(recorder) => Ok(Server::new(recorder, 4096)),
        Err(_) => Err(AllocError),
    }
}

/// A server over a script, with a note of each call.
pub type ScriptServer = Server<Recorder<Script>>;

/// A server over a script, with places for `n` notes.
pub fn script_server(alloc: Global, script: Script, n: usize) -> Result<ScriptServer, AllocError> {
    server_over(alloc, script, n)
}

/// `reply` of such a server. It is a function of its own, so that it is proved once for all tests.
pub fn reply_by_script(
    alloc: Global,
    server: &mut ScriptServer,
    message: Message<'_>,
    room: usize,
) -> Result<Vec<u8>, Fail> {
    reply(alloc, server, message, room)
}
