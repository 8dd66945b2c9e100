//! A message for each call, its reply over a script and its notes.

use crate::support::Message;
use vfs_bench::NoteKind;

/// The record of a request in which all is 0. What lies after a record isn't looked at.
const ZEROS: [u8; 88] = [0; 88];

/// The reply to a call that fails with EIO, or with a fault without a number.
const FAILED: [u8; 16] = *b"\x10\0\0\0\xfb\xff\xff\xff\x09\0\0\0\0\0\0\0";

/// The attributes of inode 500, for 4 seconds.
const ATTRIBUTES: [u8; 120] = *b"\
    \x78\0\0\0\0\0\0\0\x09\0\0\0\0\0\0\0\x04\0\0\0\0\0\0\0\0\0\0\0\0\0\0\0\xf4\x01\0\
    \0\0\0\0\0\0\0\0\0\0\0\0\0\0\0\0\0\0\0\0\0\0\0\0\0\0\0\0\0\0\0\0\0\0\0\0\0\0\0\0\
    \0\0\0\0\0\0\0\0\0\0\0\0\0\0\0\0\0\0\0\0\0\0\0\0\0\0\0\0\0\0\0\0\0\0\0\0\0\0\0\0\
    \0\0\0\0\0";

/// The entry of node 77: generation 3, 2 seconds for the name and 1 for the attributes, inode 500.
const FOUND: [u8; 144] = *b"\
    \x90\0\0\0\0\0\0\0\x09\0\0\0\0\0\0\0\x4d\0\0\0\0\0\0\0\x03\0\0\0\0\0\0\0\x02\0\0\
    \0\0\0\0\0\x01\0\0\0\0\0\0\0\0\0\0\0\0\0\0\0\xf4\x01\0\0\0\0\0\0\0\0\0\0\0\0\0\0\
    \0\0\0\0\0\0\0\0\0\0\0\0\0\0\0\0\0\0\0\0\0\0\0\0\0\0\0\0\0\0\0\0\0\0\0\0\0\0\0\0\
    \0\0\0\0\0\0\0\0\0\0\0\0\0\0\0\0\0\0\0\0\0\0\0\0\0\0\0\0\0\0\0\0";

/// Handle 6, with the first option.
const OPENED: [u8; 32] =
    *b"\x20\0\0\0\0\0\0\0\x09\0\0\0\0\0\0\0\x06\0\0\0\0\0\0\0\x01\0\0\0\0\0\0\0";

/// The kind of a note, and its value.
pub type Noted = (NoteKind, u64);

/// The note of a call that has no answer.
const NOTHING: Noted = (NoteKind::Nothing, 0);

/// That of one that succeeds and answers no entry. One that does has its node.
const OK: Noted = (NoteKind::Ok, 0);

/// That of one that fails, as one does that is not served. Others have the number of their fault, or
/// 0.
const ENOSYS: Noted = (NoteKind::Fault, 38);

/// A message of a call.
pub struct Row {
    pub message: Message<'static>,
    /// The count of its note.
    pub count: u64,
    /// What is replied to it over a script.
    pub reply: &'static [u8],
    /// The note over a script.
    pub by_script: Noted,
    /// The note where nothing is served.
    pub unserved: Noted,
}

/// A message for each call.
static ROWS: [Row; 44] = [
    // INIT
    Row {
        message: (26, 0, b"\x07\0\0\0\x26\0\0\0\0\0\0\0\0\0\0\0"),
        count: 0,
        reply: b"\x50\0\0\0\0\0\0\0\x09\0\0\0\0\0\0\0\x07\0\0\0\x26\0\0\0\0\0\0\0\0\0\0\0\xff\xff\
        \xfd\xbf\0\0\x10\0\x01\0\0\0\0\x01\0\0\0\0\0\0\0\0\0\0\0\0\0\0\0\0\0\0\0\0\0\0\0\
        \0\0\0\0\0\0\0\0\0\0\0",
        by_script: OK,
        unserved: OK,
    },
    // FORGET
    Row {
        message: (2, 2, b"\x03\0\0\0\0\0\0\0"),
        count: 3,
        reply: b"",
        by_script: NOTHING,
        unserved: NOTHING,
    },
    // GETATTR
    Row {
        message: (3, 3, &ZEROS),
        count: 0,
        reply: &ATTRIBUTES,
        by_script: OK,
        unserved: ENOSYS,
    },
    // SETATTR
    Row {
        message: (4, 4, &ZEROS),
        count: 0,
        reply: &ATTRIBUTES,
        by_script: OK,
        unserved: ENOSYS,
    },
    // READLINK
    Row {
        message: (5, 5, b""),
        count: 0,
        reply: b"\x12\0\0\0\0\0\0\0\x09\0\0\0\0\0\0\0to",
        by_script: OK,
        unserved: ENOSYS,
    },
    // STATFS
    Row {
        message: (17, 17, b""),
        count: 0,
        reply: &FAILED,
        by_script: (NoteKind::Fault, 5),
        unserved: OK,
    },
    // ACCESS
    Row {
        message: (34, 34, &ZEROS),
        count: 0,
        reply: &FAILED,
        by_script: (NoteKind::Fault, 0),
        unserved: ENOSYS,
    },
    // BATCH_FORGET
    Row {
        message: (
            42,
            0,
            b"\x02\0\0\0\0\0\0\0\x06\0\0\0\0\0\0\0\x01\0\0\0\0\0\0\0\x07\0\0\0\0\0\0\0\x02\0\0\
            \0\0\0\0\0",
        ),
        count: 2,
        reply: b"",
        by_script: NOTHING,
        unserved: NOTHING,
    },
    // SYNCFS
    Row {
        message: (50, 50, &ZEROS),
        count: 0,
        reply: &FAILED,
        by_script: (NoteKind::Fault, 0),
        unserved: ENOSYS,
    },
    // DESTROY
    Row {
        message: (38, 0, b""),
        count: 0,
        reply: b"",
        by_script: NOTHING,
        unserved: NOTHING,
    },
    // LOOKUP
    Row {
        message: (1, 1, b"a\0"),
        count: 0,
        reply: &FOUND,
        by_script: (NoteKind::Ok, 77),
        unserved: ENOSYS,
    },
    // SYMLINK
    Row {
        message: (6, 6, b"a\0b\0"),
        count: 0,
        reply: &FOUND,
        by_script: (NoteKind::Ok, 77),
        unserved: ENOSYS,
    },
    // MKNOD
    Row {
        message: (8, 8, b"\0\0\0\0\0\0\0\0\0\0\0\0\0\0\0\0a\0"),
        count: 0,
        reply: &FOUND,
        by_script: (NoteKind::Ok, 77),
        unserved: ENOSYS,
    },
    // MKDIR
    Row {
        message: (9, 9, b"\0\0\0\0\0\0\0\0a\0"),
        count: 0,
        reply: &FOUND,
        by_script: (NoteKind::Ok, 77),
        unserved: ENOSYS,
    },
    // UNLINK
    Row {
        message: (10, 10, b"a\0"),
        count: 0,
        reply: &FAILED,
        by_script: (NoteKind::Fault, 0),
        unserved: ENOSYS,
    },
    // RMDIR
    Row {
        message: (11, 11, b"a\0"),
        count: 0,
        reply: &FAILED,
        by_script: (NoteKind::Fault, 0),
        unserved: ENOSYS,
    },
    // RENAME
    Row {
        message: (12, 12, b"\x2d\0\0\0\0\0\0\0a\0b\0"),
        count: 0,
        reply: &FAILED,
        by_script: (NoteKind::Fault, 0),
        unserved: ENOSYS,
    },
    // LINK
    Row {
        message: (13, 13, b"\x0d\0\0\0\0\0\0\0a\0"),
        count: 0,
        reply: &FOUND,
        by_script: (NoteKind::Ok, 77),
        unserved: ENOSYS,
    },
    // CREATE
    Row {
        message: (35, 35, b"\0\0\0\0\0\0\0\0\0\0\0\0\0\0\0\0a\0"),
        count: 0,
        reply: b"\xa0\0\0\0\0\0\0\0\x09\0\0\0\0\0\0\0\x4e\0\0\0\0\0\0\0\x03\0\0\0\0\0\0\0\x02\0\0\
        \0\0\0\0\0\x01\0\0\0\0\0\0\0\0\0\0\0\0\0\0\0\xf4\x01\0\0\0\0\0\0\0\0\0\0\0\0\0\0\
        \0\0\0\0\0\0\0\0\0\0\0\0\0\0\0\0\0\0\0\0\0\0\0\0\0\0\0\0\0\0\0\0\0\0\0\0\0\0\0\0\
        \0\0\0\0\0\0\0\0\0\0\0\0\0\0\0\0\0\0\0\0\0\0\0\0\0\0\0\0\0\0\0\0\x07\0\0\0\0\0\0\
        \0\0\0\0\0\0\0\0\0",
        by_script: (NoteKind::Ok, 78),
        unserved: ENOSYS,
    },
    // SETXATTR
    Row {
        message: (21, 21, b"\x01\0\0\0\0\0\0\0a\0v"),
        count: 0,
        reply: &FAILED,
        by_script: (NoteKind::Fault, 0),
        unserved: ENOSYS,
    },
    // GETXATTR
    Row {
        message: (22, 22, b"\0\0\0\0\0\0\0\0a\0"),
        count: 0,
        reply: b"\x11\0\0\0\0\0\0\0\x09\0\0\0\0\0\0\0v",
        by_script: OK,
        unserved: ENOSYS,
    },
    // LISTXATTR
    Row {
        message: (23, 23, &ZEROS),
        count: 0,
        reply: b"\x18\0\0\0\0\0\0\0\x09\0\0\0\0\0\0\0\x09\0\0\0\0\0\0\0",
        by_script: OK,
        unserved: ENOSYS,
    },
    // REMOVEXATTR
    Row {
        message: (24, 24, b"a\0"),
        count: 0,
        reply: &FAILED,
        by_script: (NoteKind::Fault, 0),
        unserved: ENOSYS,
    },
    // OPEN
    Row {
        message: (14, 14, &ZEROS),
        count: 0,
        reply: &OPENED,
        by_script: OK,
        unserved: OK,
    },
    // RELEASE
    Row {
        message: (18, 18, &ZEROS),
        count: 0,
        reply: &FAILED,
        by_script: (NoteKind::Fault, 0),
        unserved: ENOSYS,
    },
    // FSYNC
    Row {
        message: (20, 20, &ZEROS),
        count: 0,
        reply: &FAILED,
        by_script: (NoteKind::Fault, 0),
        unserved: ENOSYS,
    },
    // FLUSH
    Row {
        message: (25, 25, &ZEROS),
        count: 0,
        reply: &FAILED,
        by_script: (NoteKind::Fault, 0),
        unserved: ENOSYS,
    },
    // OPENDIR
    Row {
        message: (27, 27, &ZEROS),
        count: 0,
        reply: &OPENED,
        by_script: OK,
        unserved: OK,
    },
    // READDIR
    Row {
        message: (
            28,
            28,
            b"\0\0\0\0\0\0\0\0\0\0\0\0\0\0\0\0\x30\0\0\0\0\0\0\0\0\0\0\0\0\0\0\0\0\0\0\0\0\0\0\
            \0",
        ),
        count: 0,
        reply: b"\x40\0\0\0\0\0\0\0\x09\0\0\0\0\0\0\0\xf4\x01\0\0\0\0\0\0\x01\0\0\0\0\0\0\0\0\0\0\
        \0\x04\0\0\0\xf4\x01\0\0\0\0\0\0\x01\0\0\0\0\0\0\0\0\0\0\0\x04\0\0\0",
        by_script: OK,
        unserved: ENOSYS,
    },
    // RELEASEDIR
    Row {
        message: (29, 29, &ZEROS),
        count: 0,
        reply: &FAILED,
        by_script: (NoteKind::Fault, 0),
        unserved: ENOSYS,
    },
    // FSYNCDIR
    Row {
        message: (30, 30, &ZEROS),
        count: 0,
        reply: &FAILED,
        by_script: (NoteKind::Fault, 0),
        unserved: ENOSYS,
    },
    // FALLOCATE
    Row {
        message: (43, 43, &ZEROS),
        count: 0,
        reply: &FAILED,
        by_script: (NoteKind::Fault, 0),
        unserved: ENOSYS,
    },
    // LSEEK
    Row {
        message: (46, 46, &ZEROS),
        count: 0,
        reply: b"\x18\0\0\0\0\0\0\0\x09\0\0\0\0\0\0\0\0\x10\0\0\0\0\0\0",
        by_script: OK,
        unserved: ENOSYS,
    },
    // COPY_FILE_RANGE
    Row {
        message: (47, 47, &ZEROS),
        count: 0,
        reply: b"\x18\0\0\0\0\0\0\0\x09\0\0\0\0\0\0\0\x64\0\0\0\0\0\0\0",
        by_script: OK,
        unserved: ENOSYS,
    },
    // READ
    Row {
        message: (
            15,
            15,
            b"\0\0\0\0\0\0\0\0\0\0\0\0\0\0\0\0\x05\0\0\0\0\0\0\0\0\0\0\0\0\0\0\0\0\0\0\0\0\0\0\
            \0",
        ),
        count: 0,
        reply: b"\x15\0\0\0\0\0\0\0\x09\0\0\0\0\0\0\0fffff",
        by_script: OK,
        unserved: ENOSYS,
    },
    // WRITE
    Row {
        message: (
            16,
            16,
            b"\0\0\0\0\0\0\0\0\0\0\0\0\0\0\0\0\x04\0\0\0\0\0\0\0\0\0\0\0\0\0\0\0\0\0\0\0\0\0\0\
            \0abcd",
        ),
        count: 0,
        reply: &FAILED,
        by_script: (NoteKind::Fault, 5),
        unserved: ENOSYS,
    },
    // GETLK
    Row {
        message: (31, 0, b""),
        count: 0,
        reply: &FAILED,
        by_script: (NoteKind::Fault, 0),
        unserved: ENOSYS,
    },
    // SETLK
    Row {
        message: (32, 0, b""),
        count: 0,
        reply: &FAILED,
        by_script: (NoteKind::Fault, 0),
        unserved: ENOSYS,
    },
    // SETLKW
    Row {
        message: (33, 0, b""),
        count: 0,
        reply: &FAILED,
        by_script: (NoteKind::Fault, 0),
        unserved: ENOSYS,
    },
    // BMAP
    Row {
        message: (37, 0, b""),
        count: 0,
        reply: &FAILED,
        by_script: (NoteKind::Fault, 0),
        unserved: ENOSYS,
    },
    // IOCTL
    Row {
        message: (39, 0, b""),
        count: 0,
        reply: &FAILED,
        by_script: (NoteKind::Fault, 0),
        unserved: ENOSYS,
    },
    // POLL
    Row {
        message: (40, 0, b""),
        count: 0,
        reply: &FAILED,
        by_script: (NoteKind::Fault, 0),
        unserved: ENOSYS,
    },
    // NOTIFY_REPLY
    Row {
        message: (41, 0, b""),
        count: 0,
        reply: &FAILED,
        by_script: (NoteKind::Fault, 0),
        unserved: ENOSYS,
    },
    // TMPFILE
    Row {
        message: (51, 0, b""),
        count: 0,
        reply: b"\x10\0\0\0\xf5\xff\xff\xff\x09\0\0\0\0\0\0\0",
        by_script: (NoteKind::Fault, 11),
        unserved: ENOSYS,
    },
];

/// These messages. The table is named here alone: the proof of a function goes through a
/// table that it names at each step.
pub fn rows() -> &'static [Row] {
    &ROWS
}
