//! A call as data: plain numbers. Names and values are told as ranges of the request's bytes.

ghost use Rattle.std.specs.Prelude.{◌≡◌};
ghost use Rattle.codec_calls.specs.Shapes.{unplaced};

/// The numbers of calls: those of the opcodes, where both renames are 12 and both readings of a
/// directory 28.
pub mod number {
    pub const LOOKUP: u32 = 1;

    pub const FORGET: u32 = 2;

    pub const GETATTR: u32 = 3;

    pub const SETATTR: u32 = 4;

    pub const READLINK: u32 = 5;

    pub const SYMLINK: u32 = 6;

    pub const MKNOD: u32 = 8;

    pub const MKDIR: u32 = 9;

    pub const UNLINK: u32 = 10;

    pub const RMDIR: u32 = 11;

    pub const RENAME: u32 = 12;

    pub const LINK: u32 = 13;

    pub const OPEN: u32 = 14;

    pub const READ: u32 = 15;

    pub const WRITE: u32 = 16;

    pub const STATFS: u32 = 17;

    pub const RELEASE: u32 = 18;

    pub const FSYNC: u32 = 20;

    pub const SETXATTR: u32 = 21;

    pub const GETXATTR: u32 = 22;

    pub const LISTXATTR: u32 = 23;

    pub const REMOVEXATTR: u32 = 24;

    pub const FLUSH: u32 = 25;

    pub const INIT: u32 = 26;

    pub const OPENDIR: u32 = 27;

    pub const READDIR: u32 = 28;

    pub const RELEASEDIR: u32 = 29;

    pub const FSYNCDIR: u32 = 30;

    pub const GETLK: u32 = 31;

    pub const SETLK: u32 = 32;

    pub const SETLKW: u32 = 33;

    pub const ACCESS: u32 = 34;

    pub const CREATE: u32 = 35;

    pub const BMAP: u32 = 37;

    pub const DESTROY: u32 = 38;

    pub const IOCTL: u32 = 39;

    pub const POLL: u32 = 40;

    pub const NOTIFY_REPLY: u32 = 41;

    pub const BATCH_FORGET: u32 = 42;

    pub const FALLOCATE: u32 = 43;

    pub const LSEEK: u32 = 46;

    pub const COPY: u32 = 47;

    pub const SYNCFS: u32 = 50;

    pub const TMPFILE: u32 = 51;

    pub const STATX: u32 = 52;

    pub const COPY_64: u32 = 53;
}

/// The kinds of answers.
pub mod kind {
    pub const NONE: u32 = 0;

    pub const STATUS: u32 = 1;

    pub const ERROR_OR_NONE: u32 = 2;

    pub const DATA: u32 = 3;

    pub const INIT: u32 = 4;

    pub const ENTRY: u32 = 5;

    pub const ATTR: u32 = 6;

    pub const OPEN: u32 = 7;

    pub const CREATE: u32 = 8;

    pub const STATFS: u32 = 9;

    pub const BYTES: u32 = 10;

    pub const BYTES_OR_SIZE: u32 = 11;

    pub const OFFSET: u32 = 12;

    pub const COUNT: u32 = 13;

    pub const DIRECTORY: u32 = 14;

    pub const ERROR: u32 = 15;
}

/// What a call has besides its numbers: bits that are summed up.
pub mod has {
    pub const HANDLE: u32 = 1;

    pub const OWNER: u32 = 2;

    pub const CONTEXT: u32 = 4;

    pub const GROUP: u32 = 8;

    pub const KILL_SUIDGID: u32 = 16;

    pub const WRITE_CACHE: u32 = 32;

    pub const FSYNC_FDATASYNC: u32 = 64;

    pub const RELEASE_FLUSH: u32 = 128;

    pub const RELEASE_FLOCK_UNLOCK: u32 = 256;

    pub const PLUS: u32 = 512;

    pub const LK_FLOCK: u32 = 1024;
}

/// Bytes of a request.
#[repr(C)]
#[derive(Clone, Copy)]
pub struct Range {
    /// The place of the first one, counted from the first byte of the request's header.
    pub at: u64,
    /// How many they are.
    pub len: u64,
}

impl Range {
    /// Nothing.
    pub const NONE: Range = Range { at: 0, len: 0 };

    /// As many bytes as these, wherever they are.
    pub fn long(bytes: &[u8]) -> Range
        ensures { result ≡ unplaced bytes.now }
    {
        Range {
            at: 0,
            len: bytes.len() as u64,
        }
    }
}

/// The record of a SETATTR.
#[repr(C)]
#[derive(Clone, Copy)]
pub struct SetattrData {
    pub valid: u32,
    pub padding: u32,
    pub fh: u64,
    pub size: u64,
    pub lock_owner: u64,
    pub atime: u64,
    pub mtime: u64,
    pub ctime: u64,
    pub atimensec: u32,
    pub mtimensec: u32,
    pub ctimensec: u32,
    pub mode: u32,
    pub unused4: u32,
    pub uid: u32,
    pub gid: u32,
    pub unused5: u32,
}

impl SetattrData {
    pub const NONE: SetattrData = SetattrData {
        valid: 0,
        padding: 0,
        fh: 0,
        size: 0,
        lock_owner: 0,
        atime: 0,
        mtime: 0,
        ctime: 0,
        atimensec: 0,
        mtimensec: 0,
        ctimensec: 0,
        mode: 0,
        unused4: 0,
        uid: 0,
        gid: 0,
        unused5: 0,
    };
}

/// A call as data. What a call does not have is 0.
#[repr(C)]
#[derive(Clone, Copy)]
pub struct CallData {
    /// The number of the request, which its reply repeats.
    pub unique: u64,
    /// The options that were agreed on when it was asked.
    pub options: u64,
    /// How many bytes of room there were for the reply, its header among them.
    pub room: u64,
    /// The node of the header; of a LINK the node that gets a name.
    pub node: u64,
    /// The open file or directory; of a GETATTR or a SETATTR where `has` has `HANDLE`.
    pub handle: u64,
    /// Where in the file or the directory the call begins.
    pub offset: u64,
    /// Of a FORGET the lookups that are taken back, of a READ the room for data, of an INIT the
    /// options that are offered, of a BATCH_FORGET its pairs, of a FALLOCATE or a COPY its bytes.
    pub length: u64,
    /// The owner of locks, of a READ, a WRITE or a RELEASE where `has` has `OWNER`; of a COPY its
    /// flags.
    pub lock_owner: u64,
    /// Of a RENAME or a LINK the directory of the new name, of a COPY the node that is written.
    pub other_node: u64,
    /// Of a COPY the open file that is written.
    pub other_handle: u64,
    /// Of a COPY where in it.
    pub other_offset: u64,
    /// The name without its 0; of a RENAME the old one.
    pub name: Range,
    /// Of a RENAME the new name, of a SYMLINK the text.
    pub other_name: Range,
    /// Of a WRITE the data, of a SETXATTR the value, of a BATCH_FORGET its pairs of 16 bytes.
    pub data: Range,
    /// The name of the security context where `has` has `CONTEXT`.
    pub context_name: Range,
    /// The value of that context.
    pub context: Range,
    /// The record of a SETATTR.
    pub attr: SetattrData,
    /// Which call it is, by [`number`]; 0 of none.
    pub call: u32,
    /// Which kind of answer it has, by [`kind`].
    pub answer: u32,
    /// What it has besides, by the bits of [`has`].
    pub has: u32,
    /// The user that calls, as the guest numbers it.
    pub uid: u32,
    /// The group that calls.
    pub gid: u32,
    /// The process that calls.
    pub pid: i32,
    /// The flags of the call; of a SETATTR which fields are to be set.
    pub flags: u32,
    /// Kind and permissions of what is made; of a FALLOCATE its mode.
    pub mode: u32,
    /// The permissions that the caller does not give.
    pub umask: u32,
    /// The number of a device that is made.
    pub rdev: u32,
    /// The most bytes that are wanted or given.
    pub size: u32,
    /// Of a SETXATTR its further flags, of an ACCESS the mask, of an LSEEK whence.
    pub more: u32,
    /// A further group of the caller where `has` has `GROUP`.
    pub group: u32,
    /// Of an INIT the most bytes that the client reads ahead.
    pub readahead: u32,
}

impl CallData {
    /// No call.
    pub const NONE: CallData = CallData {
        unique: 0,
        options: 0,
        room: 0,
        node: 0,
        handle: 0,
        offset: 0,
        length: 0,
        lock_owner: 0,
        other_node: 0,
        other_handle: 0,
        other_offset: 0,
        name: Range::NONE,
        other_name: Range::NONE,
        data: Range::NONE,
        context_name: Range::NONE,
        context: Range::NONE,
        attr: SetattrData::NONE,
        call: 0,
        answer: 0,
        has: 0,
        uid: 0,
        gid: 0,
        pid: 0,
        flags: 0,
        mode: 0,
        umask: 0,
        rdev: 0,
        size: 0,
        more: 0,
        group: 0,
        readahead: 0,
    };
}
