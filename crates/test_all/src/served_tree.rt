//! The tree of three files, served: a client's requests, handed over by the simplest transport.

use crate::support::{have_texts, holds, request};
use example_tree::Docs;
use example_tree::client::{data, lookup, read, said};
use fs_small::ReadOnly;
use std::alloc::Global;
use std::test::Fail;
use vfs_flags::Errno;
use vfs_server::server::Server;
use vfs_server::transport::{ServeError, serve};
use vfs_wire::{AttrOut, EntryOut};

/// A server of the three files.
type DocsServer = Server<ReadOnly<Docs>>;

/// The reply of such a server to a request, with that much room for it. It is a function of its own,
/// so that it is proved once for all requests.
fn served(
    alloc: Global,
    server: &mut DocsServer,
    request: &[u8],
    room: usize,
) -> Result<Vec<u8>, ServeError> {
    serve(alloc, server, request, room)
}

/// Whether request 2, a READ of node 2 from place 7 on and of at most 100 bytes, is served.
fn reads(alloc: Global, server: &mut DocsServer) -> Result<bool, Fail> {
    let reply = served(alloc, server, &read(2, 2, 7, 100), 116)?;
    Ok(data(&reply) == Some(Ok(b"world\n".as_slice())))
}

/// Whether request 3, a LOOKUP of a name that isn't there, fails: ENOENT is 2, and comes negated.
fn misses(alloc: Global, server: &mut DocsServer) -> Result<bool, Fail> {
    let request = lookup(alloc, 3, 1, b"hello")?;
    let reply = served(alloc, server, &request, 144)?;
    Ok(data(&reply) == Some(Err(-2)))
}

/// Whether an UNLINK, of opcode 10, is refused by EROFS, which is 30.
fn refuses(alloc: Global, server: &mut DocsServer) -> Result<bool, Fail> {
    let request = request(alloc, 10, 1, b"hello.txt\0")?;
    let reply = served(alloc, server, &request, 16)?;
    Ok(reply.len() == 16 && data(&reply) == Some(Err(-30)))
}

/// Whether request 1, a LOOKUP in node 1, finds node 2.
fn finds(alloc: Global, server: &mut DocsServer) -> Result<bool, Fail> {
    let request = lookup(alloc, 1, 1, b"hello.txt")?;
    let reply = served(alloc, server, &request, 144)?;
    let entry = said::<EntryOut>(&reply).ok_or("cut short")?;
    Ok(matches!(entry, Ok(entry) if entry.nodeid == 2))
}

#[test]
fn a_tree_is_served(rt: HostRuntime) -> Result<(), Fail> {
    let mut server = Server::new(ReadOnly { tree: Docs }, 4096);
    holds(finds(rt.alloc(), &mut server))?;
    holds(reads(rt.alloc(), &mut server))?;
    holds(misses(rt.alloc(), &mut server))?;
    holds(refuses(rt.alloc(), &mut server))
}

/// Rooms of 2 and of 8 MiB, far wider than the reply.
static WIDE: [usize; 2] = [2 << 20, 8 << 20];

/// Whether a GETATTR, of opcode 3, tells the root's attributes in a room of that many bytes.
fn tells_the_root(alloc: Global, room: usize) -> Result<bool, Fail> {
    let mut server = Server::new(ReadOnly { tree: Docs }, 4096);
    let request = request(alloc, 3, 1, &[0; 16])?;
    let reply = served(alloc, &mut server, &request, room)?;
    let told = said::<AttrOut>(&reply).ok_or("cut short")?;
    Ok(reply.len() == 120 && matches!(told, Ok(told) if told.attr.ino == 1))
}

#[test]
fn a_wide_room_is_served(rt: HostRuntime) -> Result<(), Fail> {
    for room in &WIDE {
        holds(tells_the_root(rt.alloc(), *room))?;
    }
    Ok(())
}

/// Why there is no reply, and how that is shown.
const TEXTS: [(ServeError, &str); 4] = [
    (ServeError::OutOfMemory, "out of memory"),
    (
        ServeError::Segments(vfs_segments::Error::SplitOutOfBounds(3)),
        "a place 3 bytes on is past what is left",
    ),
    (
        ServeError::Server(vfs_server::Error::EncodeMessage),
        "the reply is longer than the room for it",
    ),
    (
        ServeError::FileSystem(Some(Errno::ENOMEM)),
        "the file system could not be made",
    ),
];

/// Whether a LOOKUP with a room that is too small is refused for it.
fn lacks_room(alloc: Global) -> Result<bool, Fail> {
    let mut server = Server::new(ReadOnly { tree: Docs }, 4096);
    let request = lookup(alloc, 1, 1, b"hello.txt")?;
    let refused = served(alloc, &mut server, &request, 143);
    Ok(matches!(
        refused,
        Err(ServeError::Server(vfs_server::Error::EncodeMessage))
    ))
}

#[test]
fn a_transport_tells_why_there_is_no_reply(rt: HostRuntime) -> Result<(), Fail> {
    holds(lacks_room(rt.alloc()))?;
    holds(have_texts(rt.alloc(), &TEXTS))
}
