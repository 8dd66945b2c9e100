//! The simplest transport at work.

ghost use Rattle.std.specs.Prelude.{◌≡◌, ◌≤◌, ◌⊎◌, ℕ, List, length, take, IfOk, MatchResult, Ok, Err};
ghost use Rattle.vfs_grammar.specs.declared.error.Error.TheVariants.{DecodeMessage};
ghost use Rattle.vfs_server.specs.declared.transport.error.ServeError.TheVariants.{OutOfMemory, Segments};
ghost use Rattle.vfs_server.specs.declared.transport.error.ServeError.TheVariants as refusal;
ghost use Rattle.vfs_segments.specs.declared.error.Error.{Error};
ghost use Rattle.vfs_segments.specs.declared.error.Error.TheVariants.{SplitOutOfBounds};
ghost use Rattle.test_uses.specs.Requests.{statfs_reply, ReadsOneRecord};

use crate::server::{READDIR, STATFS};
use fs_small::Unserved;
use std::alloc::Global;
use vfs_files::FileSystem;
use vfs_flags::Fault;
use vfs_server::server::Server;
use vfs_server::transport::{ServeError, serve};

/// STATFS of a new server over a file system that serves nothing, with a room of ninety-six bytes:
/// they are the reply. Memory alone can be wanting.
fn serve_statfs(alloc: Global) -> Result<Vec<u8>, ServeError>
    ensures { MatchResult result
        (λ reply. reply.items ≡ statfs_reply)
        (λ error. error ≡ OutOfMemory) }
{
    let mut server = Server::new(Unserved {}, 4096);
    serve(alloc, &mut server, &STATFS, 96)
}

/// A request of thirty-nine bytes, which are too few for a header, whatever they are: it is refused
/// for that, or there was no memory for the room, and the server is as it was.
fn serve_too_few_bytes<F: FileSystem>(
    alloc: Global,
    server: &mut Server<F>,
    request: &[u8],
) -> Result<Vec<u8>, ServeError>
    requires { length request.now ≡ 39 }
    ensures refused { MatchResult result
        (λ _. ⊥)
        (λ error. (error ≡ OutOfMemory) ⊎ (error ≡ refusal.Server DecodeMessage)) }
    ensures same { server.new ≡ server.old }
{
    serve(alloc, server, request, 144)
}

/// Any request: where there is no memory for the room, or the request is refused as segments, the
/// server is as it was.
fn serve_without_memory<F: FileSystem>(
    alloc: Global,
    server: &mut Server<F>,
    request: &[u8],
) -> Result<Vec<u8>, ServeError>
    ensures memory { result ≡ Err OutOfMemory → server.new ≡ server.old }
    ensures segments { (error : Error) → result ≡ Err (Segments error) → server.new ≡ server.old }
{
    serve(alloc, server, request, 144)
}

/// READDIR of a room of forty bytes, for 24 bytes of records: at most two items are taken, and the
/// reply is what [`super::read_one_record`] says of such a room.
fn serve_one_record<F: FileSystem>(
    alloc: Global,
    server: &mut Server<F>,
) -> Result<Vec<u8>, ServeError>
    requires { 24 ≤ server.old.limits.max_buffer }
    ensures { IfOk result (λ reply. (len : ℕ) × (room : List ℕ)
        × ReadsOneRecord F.allows F.DirIter.gives server.old.fs (Ok len) room server.new.fs
        × (reply.items ≡ take len room)) }
{
    serve(alloc, server, &READDIR, 40)
}

/// A fault by which a file system could not be made, as a transport tells it.
fn told_fault(fault: Fault) -> ServeError
    ensures { result ≡ refusal.FileSystem fault }
{
    ServeError::from(fault)
}

/// An error of segments that is no want of memory, likewise.
fn told_place(place: usize) -> ServeError
    ensures { result ≡ Segments (SplitOutOfBounds place) }
{
    ServeError::from(vfs_segments::Error::SplitOutOfBounds(place))
}
