//! The server at work.

mod serve;
mod session;

ghost use Rattle.std.specs.Prelude.{◌≡◌, ◌≢◌, ◌≤◌, ◌-◌, ◌++◌, [], true, length, take, drop, Err, Some, IfSome, OnSome};
ghost use Rattle.vfs_flags.specs.Numbers.{opcode_of};
ghost use Rattle.vfs_flags.specs.declared.opcode.Opcode.{Opcode};
ghost use Rattle.vfs_segments.specs.Segments.{contents, flat_bytes};
ghost use Rattle.vfs_segments.specs.Unread.{are_together};
ghost use Rattle.vfs_segments.specs.Written.{whole};
ghost use Rattle.vfs_files.specs.declared.migration.MigrateError.TheVariants.{Unsupported};
ghost use Rattle.vfs_grammar.specs.Memory.{header_of};
ghost use Rattle.vfs_grammar.specs.Samples.{not_served_reply};
ghost use Rattle.vfs_grammar.specs.declared.error.Error.TheVariants.{EncodeMessage, OutOfMemory};
ghost use Rattle.test_uses.specs.Requests.{statfs_reply, no_memory_reply, IsWithoutTail, ReadsOneRecord};

use fs_small::Unserved;
use std::alloc::Global;
use std::io;
use vfs_files::{FileSystem, MigrateError, SerializableFileSystem};
use vfs_grammar::Result;
use vfs_segments::{Reader, Writer};
use vfs_server::server::Server;

/// Request 9, STATFS of node 1: a header alone, of 40 bytes.
const STATFS: [u8; 40] = [
    40, 0, 0, 0, 17, 0, 0, 0, 9, 0, 0, 0, 0, 0, 0, 0, 1, 0, 0, 0, 0, 0, 0, 0, 0, 0, 0, 0, 0, 0, 0,
    0, 0, 0, 0, 0, 0, 0, 0, 0,
];

/// A writer over one segment of ninety-six zeros. `None` where there is no memory.
fn empty_room(alloc: Global) -> Option<Writer>
    ensures passed { IfSome result (λ w. w.passed ≡ []) }
    ensures room { IfSome result (λ w. length w.left ≡ 96) }
{
    let Ok(segment) = vec![in alloc; 0u8; 96] else {
        return None;
    };
    let Ok(segments) = vec![in alloc; segment] else {
        return None;
    };
    match Writer::new(alloc, segments) {
        Ok(writer) => Some(writer),
        Err(_) => None,
    }
}

/// Makes a server over a file system that serves nothing, asks it how much it holds, and gives back
/// the room of ninety-six bytes with the reply in it. `None` where there is no memory.
fn ask_statfs(alloc: Global) -> Option<Vec<Vec<u8>>>
    ensures { IfSome result (λ room. flat_bytes (contents room.items) ≡ statfs_reply) }
{
    let mut server = Server::new(Unserved {}, 4096);

    let request = [STATFS.as_slice()];
    let Ok(reader) = Reader::new(alloc, &request) else {
        return None;
    };
    let mut writer = empty_room(alloc)?;

    match server.handle_message(alloc, reader, &mut writer) {
        Ok(_) => Some(writer.into_segments()),
        Err(_) => None,
    }
}

/// Request 9 of opcode 7, which is none: a header alone, of 40 bytes.
const UNKNOWN: [u8; 40] = [
    40, 0, 0, 0, 7, 0, 0, 0, 9, 0, 0, 0, 0, 0, 0, 0, 1, 0, 0, 0, 0, 0, 0, 0, 0, 0, 0, 0, 0, 0, 0,
    0, 0, 0, 0, 0, 0, 0, 0, 0,
];

/// Hands over a request of an unknown opcode. The sixteen bytes that say ENOSYS are at the
/// front of the room, and all other bytes are as they were; nothing is held; the file system
/// wasn't called, and the server is as it was. `None` where there is no memory for the reader.
fn unknown_opcode<F: FileSystem>(
    alloc: Global,
    server: &mut Server<F>,
    w: &mut Writer,
) -> Option<usize>
    requires { 16 ≤ length w.old.left }
    ensures outcome { IfSome result (λ n. n ≡ 16) }
    ensures bytes { OnSome result
        (whole w.new ≡ w.old.passed ++ (not_served_reply ++ drop 16 w.old.left)) }
    ensures held { OnSome result (w.new.held ≡ 0) }
    ensures state { OnSome result (server.new ≡ server.old) }
{
    let segments = [UNKNOWN.as_slice()];
    let Ok(reader) = Reader::new(alloc, &segments) else {
        return None;
    };
    server.handle_message(alloc, reader, w).ok()
}

/// The same, by a caller that holds the first sixteen bytes of its room for itself: they stay as
/// they were, the reply comes after them, and nothing is held any more.
fn after_a_hold<F: FileSystem>(
    alloc: Global,
    server: &mut Server<F>,
    w: &mut Writer,
) -> Option<usize>
    requires { 32 ≤ length w.old.left }
    ensures bytes { OnSome result
        (whole w.new ≡
        (w.old.passed ++ take 16 w.old.left) ++ (not_served_reply ++ drop 32 w.old.left)) }
    ensures held { OnSome result (w.new.held ≡ 0) }
{
    w.hold(16).ok()?;
    unknown_opcode(alloc, server, w)
}

/// A server for payloads of at most 8,192 bytes, and the limit that it tells.
fn small_buffers<F>(fs: F) -> (Server<F>, u32)
    ensures limits { result.0.limits ≡ record { page_size = 4096; max_buffer = 8192 } }
    ensures told { result.1 ≡ 8192 }
{
    let server = Server::with_limit(fs, 4096, 8192);
    let limit = server.max_buffer();
    (server, limit)
}

/// Request 2, STATFS of node 1, whose `len` says 12,289 bytes: a header alone, of 40 bytes.
const LONG_STATFS: [u8; 40] = [
    1, 48, 0, 0, 17, 0, 0, 0, 2, 0, 0, 0, 0, 0, 0, 0, 1, 0, 0, 0, 0, 0, 0, 0, 0, 0, 0, 0, 0, 0, 0,
    0, 0, 0, 0, 0, 0, 0, 0, 0,
];

/// Hands over a request that says to be one byte longer than a server for payloads of 8,192 bytes
/// takes. The sixteen bytes that say ENOMEM are at the front of the room, and all other bytes are
/// as they were. `None` where there is no memory for the reader.
fn len_above_a_chosen_limit(alloc: Global, w: &mut Writer) -> Option<usize>
    requires { 16 ≤ length w.old.left }
    ensures outcome { IfSome result (λ n. n ≡ 16) }
    ensures bytes { OnSome result
        (whole w.new ≡ w.old.passed ++ (no_memory_reply ++ drop 16 w.old.left)) }
{
    let (mut server, _) = small_buffers(Unserved {});
    let segments = [LONG_STATFS.as_slice()];
    let Ok(reader) = Reader::new(alloc, &segments) else {
        return None;
    };
    server.handle_message(alloc, reader, w).ok()
}

/// Request 9, READ of three bytes of node 2: a header and a record, of 80 bytes.
const READ: [u8; 80] = [
    80, 0, 0, 0, 15, 0, 0, 0, 9, 0, 0, 0, 0, 0, 0, 0, 2, 0, 0, 0, 0, 0, 0, 0, 0, 0, 0, 0, 0, 0, 0,
    0, 0, 0, 0, 0, 0, 0, 0, 0, 0, 0, 0, 0, 0, 0, 0, 0, 0, 0, 0, 0, 0, 0, 0, 0, 3, 0, 0, 0, 0, 0, 0,
    0, 0, 0, 0, 0, 0, 0, 0, 0, 0, 0, 0, 0, 0, 0, 0, 0,
];

/// Hands over a READ with eight bytes of room, which is too small for a header: it is refused, the
/// bytes of the room are as they were, and the file system wasn't called. `None` where there is no
/// memory for the reader.
fn read_into_eight_bytes<F: FileSystem>(
    alloc: Global,
    server: &mut Server<F>,
    w: &mut Writer,
) -> Option<Result<usize>>
    requires { length w.old.left ≡ 8 }
    ensures outcome { IfSome result (λ outcome. outcome ≡ Err EncodeMessage) }
    ensures bytes { OnSome result (whole w.new ≡ whole w.old) }
    ensures state { OnSome result (server.new.fs ≡ server.old.fs) }
{
    let segments = [READ.as_slice()];
    let Ok(reader) = Reader::new(alloc, &segments) else {
        return None;
    };
    Some(server.handle_message(alloc, reader, w))
}

/// Hands over any request: what the writer had passed stays, its room is as long as before, in
/// segments of the same lengths, and nothing is held; and the limits of the server stay.
fn any_request<F: FileSystem>(
    alloc: Global,
    server: &mut Server<F>,
    r: Reader<'_>,
    w: &mut Writer,
) -> Result<usize>
    ensures passed { take (length w.old.passed) (whole w.new) ≡ w.old.passed }
    ensures room { length (whole w.new) ≡ length (whole w.old) }
    ensures segments { w.new.lengths ≡ w.old.lengths }
    ensures held { w.new.held ≡ 0 }
    ensures limits { server.new.limits ≡ server.old.limits }
{
    server.handle_message(alloc, r, w)
}

/// Hands over a request without a tail and without pairs: of an unknown opcode, a GETATTR, a READ, a
/// WRITE, a READDIR, an INIT, an INTERRUPT or a SETUPMAPPING. Whatever its bytes, the room and the
/// cutting, it is never told that memory is wanted.
fn without_tail_lacks_no_memory<F: FileSystem>(
    alloc: Global,
    server: &mut Server<F>,
    r: Reader<'_>,
    w: &mut Writer,
) -> Result<usize>
    requires { IsWithoutTail (opcode_of (header_of r.left).opcode) }
    ensures { result ≢ Err OutOfMemory }
{
    server.handle_message(alloc, r, w)
}

/// Hands over a LOOKUP whose name lies in one segment: whatever its bytes and the room, it is never
/// told that memory is wanted.
fn lookup_in_one_segment<F: FileSystem>(
    alloc: Global,
    server: &mut Server<F>,
    r: Reader<'_>,
    w: &mut Writer,
) -> Result<usize>
    requires opcode { opcode_of (header_of r.left).opcode ≡ Some Opcode.Lookup }
    requires together { are_together r 40 ((header_of r.left).len - 40) ≡ true }
    ensures { result ≢ Err OutOfMemory }
{
    server.handle_message(alloc, r, w)
}

/// The same of a RENAME whose two names lie in one segment.
fn rename_in_one_segment<F: FileSystem>(
    alloc: Global,
    server: &mut Server<F>,
    r: Reader<'_>,
    w: &mut Writer,
) -> Result<usize>
    requires opcode { opcode_of (header_of r.left).opcode ≡ Some Opcode.Rename }
    requires together { are_together r 48 ((header_of r.left).len - 48) ≡ true }
    ensures { result ≢ Err OutOfMemory }
{
    server.handle_message(alloc, r, w)
}

/// The same of a SETXATTR whose name and value lie in one segment, where no options are agreed.
fn setxattr_in_one_segment<F: FileSystem>(
    alloc: Global,
    server: &mut Server<F>,
    r: Reader<'_>,
    w: &mut Writer,
) -> Result<usize>
    requires opcode { opcode_of (header_of r.left).opcode ≡ Some Opcode.Setxattr }
    requires options { server.old.options ≡ 0 }
    requires together { are_together r 48 ((header_of r.left).len - 48) ≡ true }
    ensures { result ≢ Err OutOfMemory }
{
    server.handle_message(alloc, r, w)
}

/// The same of a MKDIR whose name lies in one segment, where no options are agreed: no context can
/// come after it.
fn mkdir_in_one_segment<F: FileSystem>(
    alloc: Global,
    server: &mut Server<F>,
    r: Reader<'_>,
    w: &mut Writer,
) -> Result<usize>
    requires opcode { opcode_of (header_of r.left).opcode ≡ Some Opcode.Mkdir }
    requires options { server.old.options ≡ 0 }
    requires together { are_together r 48 ((header_of r.left).len - 48) ≡ true }
    ensures { result ≢ Err OutOfMemory }
{
    server.handle_message(alloc, r, w)
}

/// The same of a MKDIR where groups were agreed on, as FUSE_CREATE_SUPP_GROUP, and no contexts: 2^34.
fn mkdir_with_groups_in_one_segment<F: FileSystem>(
    alloc: Global,
    server: &mut Server<F>,
    r: Reader<'_>,
    w: &mut Writer,
) -> Result<usize>
    requires opcode { opcode_of (header_of r.left).opcode ≡ Some Opcode.Mkdir }
    requires options { server.old.options ≡ 0x400000000 }
    requires together { are_together r 48 ((header_of r.left).len - 48) ≡ true }
    ensures { result ≢ Err OutOfMemory }
{
    server.handle_message(alloc, r, w)
}

/// The same of a SYMLINK whose name and text lie in one segment.
fn symlink_in_one_segment<F: FileSystem>(
    alloc: Global,
    server: &mut Server<F>,
    r: Reader<'_>,
    w: &mut Writer,
) -> Result<usize>
    requires opcode { opcode_of (header_of r.left).opcode ≡ Some Opcode.Symlink }
    requires options { server.old.options ≡ 0 }
    requires together { are_together r 40 ((header_of r.left).len - 40) ≡ true }
    ensures { result ≢ Err OutOfMemory }
{
    server.handle_message(alloc, r, w)
}

/// Request 9, READDIR of node 1 by handle 0, from offset 0 on, with 24 bytes for records: a header
/// and a record, of 80 bytes.
const READDIR: [u8; 80] = [
    80, 0, 0, 0, 28, 0, 0, 0, 9, 0, 0, 0, 0, 0, 0, 0, 1, 0, 0, 0, 0, 0, 0, 0, 0, 0, 0, 0, 0, 0, 0,
    0, 0, 0, 0, 0, 0, 0, 0, 0, 0, 0, 0, 0, 0, 0, 0, 0, 0, 0, 0, 0, 0, 0, 0, 0, 24, 0, 0, 0, 0, 0,
    0, 0, 0, 0, 0, 0, 0, 0, 0, 0, 0, 0, 0, 0, 0, 0, 0, 0,
];

/// Hands over a READDIR with room for its reply's header and for 24 bytes of records: at most two
/// items are taken; where the file system says that node 1 is no directory, that is the reply; and
/// where the directory ends at once, the reply has no record. `None` where there is no memory for
/// the reader.
fn read_one_record<F: FileSystem>(
    alloc: Global,
    server: &mut Server<F>,
    w: &mut Writer,
) -> Option<Result<usize>>
    requires limit { 24 ≤ server.old.limits.max_buffer }
    requires passed { w.old.passed ≡ [] }
    requires room { length w.old.left ≡ 40 }
    ensures { IfSome result (λ outcome.
        ReadsOneRecord F.allows F.DirIter.gives server.old.fs outcome (whole w.new) server.new.fs) }
{
    let segments = [READDIR.as_slice()];
    let Ok(reader) = Reader::new(alloc, &segments) else {
        return None;
    };
    Some(server.handle_message(alloc, reader, w))
}

/// Asks a server over a file system that serves nothing for its state: there is none to carry over.
/// Nothing is written, and the options and all else of the server stay.
fn state_that_is_not_served<W: io::Write>(
    server: &mut Server<Unserved>,
    w: &mut W,
) -> std::result::Result<(), MigrateError>
    ensures outcome { result ≡ Err Unsupported }
    ensures nothing_written { w.new ≡ w.old }
    ensures state { server.new ≡ server.old }
{
    server.serialize(w)
}

/// Puts another file system after a server, which goes on with its options and limits.
fn exchange<F: Drop>(server: &mut Server<F>, fs: F)
    ensures fs { server.new.fs ≡ fs }
    ensures options { server.new.options ≡ server.old.options }
    ensures limits { server.new.limits ≡ server.old.limits }
{
    *server.fs_mut() = fs;
}
