//! What callers know of a session by its contract alone, as examples.

ghost use Rattle.std.specs.Prelude.{◌≡◌, OnOk};

use crate::session::answers_to;
use crate::{Line, RunError};
use std::alloc::Global;
use vfs_files::FileSystem;
use vfs_server::server::Server;

/// A session keeps its server's limits.
fn a_session_keeps_limits<F: FileSystem>(
    alloc: Global,
    server: &mut Server<F>,
    requests: &[Line],
) -> Result<String, RunError>
    ensures { OnOk result (server.new.limits ≡ server.old.limits) }
{
    answers_to(alloc, server, requests)
}

/// A session without a request leaves the agreed options as they were.
fn a_session_of_no_request<F: FileSystem>(
    alloc: Global,
    server: &mut Server<F>,
) -> Result<String, RunError>
    ensures { OnOk result (server.new.options ≡ server.old.options) }
{
    answers_to(alloc, server, &[])
}
