//! The state of a file system that serves nothing.

use crate::support::{have_texts, holds};
use fs_small::Unserved;
use std::alloc::Global;
use std::test::Fail;
use vfs_flags::Errno;
use vfs_server::filesystem::{MigrateError, SerializableFileSystem};
use vfs_server::server::Server;

/// Whether a server's state is not saved, and nothing is written.
fn saves_nothing(alloc: Global, server: &mut Server<Unserved>) -> bool {
    let mut written = Vec::new(alloc);
    server.serialize(&mut written) == Err(MigrateError::Unsupported) && written.is_empty()
}

/// Whether no state is applied, and nothing is read.
fn applies_nothing(server: &mut Server<Unserved>) -> bool {
    let mut left = b"state".as_slice();
    server.deserialize_and_apply(&mut left) == Err(MigrateError::Unsupported) && left.len() == 5
}

#[test]
fn state_that_is_not_served_is_not_carried_over(rt: HostRuntime) {
    let mut server = Server::new(Unserved {}, 4096);
    server.prepare_serialization(false);
    assert!(rt; saves_nothing(rt.alloc(), &mut server) && applies_nothing(&mut server));
}

/// Why a state was not carried over, and how that is shown.
const TEXTS: [(MigrateError, &str); 3] = [
    (
        MigrateError::Unsupported,
        "the state of the file system can't be carried over",
    ),
    (
        MigrateError::Failed(Some(Errno::EIO)),
        "the state of the file system was not carried over: EIO (5)",
    ),
    (
        MigrateError::Failed(None),
        "the state of the file system was not carried over: no error is named",
    ),
];

#[test]
fn errors_of_migration_have_texts(rt: HostRuntime) -> Result<(), Fail> {
    holds(have_texts(rt.alloc(), &TEXTS))
}
