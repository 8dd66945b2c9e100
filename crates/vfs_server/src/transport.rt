//! The simplest transport: the bytes of a request come in, and those of its reply go out, over any
//! file system. Who has segments of his own, or wants no copy of a request or a room, uses a `Reader`
//! and a `Writer` of `vfs_segments`.

mod error;
mod uses;

ghost use Rattle.std.specs.Prelude.{◌≡◌, ◌≤◌, length, take, vec_len, IfOk, IfErr};
ghost use Rattle.vfs_segments.specs.Segments.{contents, flat_bytes, lengths_of};
ghost use Rattle.vfs_server.specs.Served.{Served, room_of};
ghost use Rattle.vfs_server.specs.declared.transport.error.ServeError.TheVariants.{OutOfMemory};

use crate::server::Server;
pub use crate::transport::error::ServeError;
use std::alloc::Global;
use vfs_files::FileSystem;
use vfs_segments::{Reader, Writer};

/// Has the server handle the request of these bytes, and gives the bytes of its reply: at most
/// `room`, and none where there is no reply, as to a FORGET.
///
/// [`ServeError::Server`] where the server refuses the request: then no call was made, and it is as
/// it was. But after `EncodeMessage` the call may have been made, and the reply was longer than
/// `room`: its beginning, which is for no one, is gone. [`ServeError::OutOfMemory`] where there is
/// no memory for the room; the server is as it was. No other error comes.
///
/// The request's bytes are lent where they lie, and must stay as they are meanwhile. The room is
/// taken anew for each request, and is the memory of the reply.
pub fn serve<F: FileSystem>(
    alloc: Global,
    server: &mut Server<F>,
    request: &[u8],
    room: usize,
) -> Result<Vec<u8>, ServeError>
    ensures served { Served F.allows F.DirIter.gives
        server.old request.now room result server.new }
    ensures fits { IfOk result (λ reply. vec_len reply ≤ room) }
{
    let mut writer = empty_room(alloc, room)?;
    let segments = [request];
    let reader = Reader::new(alloc, &segments)?;
    let len = server.handle_message(alloc, reader, &mut writer)?;
    Ok(first_bytes(alloc, writer.into_segments(), len))
}

// A writer over one room of that many zeros.
fn empty_room(alloc: Global, size: usize) -> Result<Writer, ServeError>
    ensures ok { IfOk result (λ w. w ≡ room_of size) }
    ensures memory { IfErr result (λ e. e ≡ OutOfMemory) }
{
    let room = vec![in alloc; 0u8; size]?;
    Ok(Writer::new(alloc, vec![in alloc; room]?)?)
}

// The first `len` bytes of the only room of a list of one.
fn first_bytes(alloc: Global, mut rooms: Vec<Vec<u8>>, len: usize) -> Vec<u8>
    requires { length (lengths_of (contents rooms.items)) ≡ 1 }
    ensures { result.items ≡ take len (flat_bytes (contents rooms.items)) }
{
    match rooms.pop() {
        Some(mut room) => {
            room.truncate(len);
            room
        }
        None => Vec::new(alloc),
    }
}
