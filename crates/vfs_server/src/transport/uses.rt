//! A small caller.

ghost use Rattle.std.specs.Prelude.{◌≡◌, ◌≤◌, vec_len, IfOk};

use crate::server::Server;
use crate::transport::{ServeError, serve};
use std::alloc::Global;
use vfs_files::FileSystem;

/// Hands over any request, with room for a LOOKUP's reply: the reply is no longer than that, and the
/// limits of the server stay, whatever comes.
fn any_request<F: FileSystem>(
    alloc: Global,
    server: &mut Server<F>,
    request: &[u8],
) -> Result<Vec<u8>, ServeError>
    ensures fits { IfOk result (λ reply. vec_len reply ≤ 144) }
    ensures limits { server.new.limits ≡ server.old.limits }
{
    serve(alloc, server, request, 144)
}
