//! What a request asks for.

ghost use Rattle.std.specs.Prelude.{◌≡◌, ◌↔◌, IfOk, IsOk};
ghost use Rattle.std.specs.Result.{result_ok};
ghost use Rattle.vfs_flags.specs.Numbers.{opcode_of, number_of, IsOpcode};

/// The kind of a request: `opcode` of `struct fuse_in_header`. Its numbers are 1 to 51 without 7
/// and 19, which no kernel sends. The names are those of `enum fuse_opcode`.
#[derive(Clone, Copy, Debug)]
pub enum Opcode {
    /// Looks a name up in a directory. The reply names a node, which gains one lookup.
    Lookup = 1,
    /// The kernel gives lookups of one node back. No reply.
    Forget = 2,
    /// The attributes of a node.
    Getattr = 3,
    /// Changes some attributes of a node, its size among them.
    Setattr = 4,
    /// The text of a symbolic link.
    Readlink = 5,
    /// Makes a symbolic link.
    Symlink = 6,
    /// Makes a file, a device, a pipe or a socket.
    Mknod = 8,
    /// Makes a directory.
    Mkdir = 9,
    /// Removes a name that is no directory.
    Unlink = 10,
    /// Removes an empty directory.
    Rmdir = 11,
    /// Moves a name.
    Rename = 12,
    /// Gives a node a further name.
    Link = 13,
    /// Opens a file. The reply has its handle.
    Open = 14,
    /// Reads bytes of an open file.
    Read = 15,
    /// Writes bytes to an open file.
    Write = 16,
    /// The size and the free room of the file system.
    Statfs = 17,
    /// The last use of an open file ended: its handle is given back.
    Release = 18,
    /// Brings what was written to an open file to its store.
    Fsync = 20,
    /// Sets an extended attribute.
    Setxattr = 21,
    /// The value of an extended attribute, or its length.
    Getxattr = 22,
    /// The names of the extended attributes, or their length.
    Listxattr = 23,
    /// Removes an extended attribute.
    Removexattr = 24,
    /// One of the descriptors of an open file was closed.
    Flush = 25,
    /// Opens the session: version and options are agreed on.
    Init = 26,
    /// Opens a directory. The reply has its handle.
    Opendir = 27,
    /// Reads entries of an open directory.
    Readdir = 28,
    /// The last use of an open directory ended.
    Releasedir = 29,
    /// Brings the changes of an open directory to their store.
    Fsyncdir = 30,
    /// Tests a lock of a file.
    Getlk = 31,
    /// Sets or clears a lock, and fails where it is held.
    Setlk = 32,
    /// Sets or clears a lock, and waits where it is held.
    Setlkw = 33,
    /// Whether the caller may do what a mask says.
    Access = 34,
    /// Makes a file and opens it.
    Create = 35,
    /// An earlier request is to be broken off.
    Interrupt = 36,
    /// The block of a device that holds a block of a file.
    Bmap = 37,
    /// Closes the session.
    Destroy = 38,
    /// A command to the device after a file.
    Ioctl = 39,
    /// What an open file is ready for.
    Poll = 40,
    /// The kernel's answer to a notification that asked for bytes.
    NotifyReply = 41,
    /// As `Forget`, of several nodes at once. No reply.
    BatchForget = 42,
    /// Makes room in a file, or a hole.
    Fallocate = 43,
    /// As `Readdir`, and each name is looked up.
    Readdirplus = 44,
    /// Moves a name, with flags: not over another one, or both exchanged.
    Rename2 = 45,
    /// The place of the next data or the next hole.
    Lseek = 46,
    /// Copies bytes from one open file to another.
    CopyFileRange = 47,
    /// Maps a part of a file into the window of memory.
    SetupMapping = 48,
    /// Takes parts out of the window of memory.
    RemoveMapping = 49,
    /// Brings all that was written to the file system to its store.
    Syncfs = 50,
    /// Makes a file that has no name.
    TmpFile = 51,
}

impl TryFrom<u32> for Opcode {
    type Error = ();

    // The opcode of the number, whose own number it is, and an error where there is none.
    ghost try_from_gives = { λ n r. (result_ok r ≡ opcode_of n)
        × IfOk r (λ o. number_of o ≡ n)
        × (IsOk r ↔ IsOpcode n) };

    #[tactic(auto, unfolding(crate::specs::Numbers::opcode_of))]
    fn try_from(n: u32) -> Result<Opcode, ()> {
        match n {
            1 => Ok(Opcode::Lookup),
            2 => Ok(Opcode::Forget),
            3 => Ok(Opcode::Getattr),
            4 => Ok(Opcode::Setattr),
            5 => Ok(Opcode::Readlink),
            6 => Ok(Opcode::Symlink),
            8 => Ok(Opcode::Mknod),
            9 => Ok(Opcode::Mkdir),
            10 => Ok(Opcode::Unlink),
            11 => Ok(Opcode::Rmdir),
            12 => Ok(Opcode::Rename),
            13 => Ok(Opcode::Link),
            14 => Ok(Opcode::Open),
            15 => Ok(Opcode::Read),
            16 => Ok(Opcode::Write),
            17 => Ok(Opcode::Statfs),
            18 => Ok(Opcode::Release),
            20 => Ok(Opcode::Fsync),
            21 => Ok(Opcode::Setxattr),
            22 => Ok(Opcode::Getxattr),
            23 => Ok(Opcode::Listxattr),
            24 => Ok(Opcode::Removexattr),
            25 => Ok(Opcode::Flush),
            26 => Ok(Opcode::Init),
            27 => Ok(Opcode::Opendir),
            28 => Ok(Opcode::Readdir),
            29 => Ok(Opcode::Releasedir),
            30 => Ok(Opcode::Fsyncdir),
            31 => Ok(Opcode::Getlk),
            32 => Ok(Opcode::Setlk),
            33 => Ok(Opcode::Setlkw),
            34 => Ok(Opcode::Access),
            35 => Ok(Opcode::Create),
            36 => Ok(Opcode::Interrupt),
            37 => Ok(Opcode::Bmap),
            38 => Ok(Opcode::Destroy),
            39 => Ok(Opcode::Ioctl),
            40 => Ok(Opcode::Poll),
            41 => Ok(Opcode::NotifyReply),
            42 => Ok(Opcode::BatchForget),
            43 => Ok(Opcode::Fallocate),
            44 => Ok(Opcode::Readdirplus),
            45 => Ok(Opcode::Rename2),
            46 => Ok(Opcode::Lseek),
            47 => Ok(Opcode::CopyFileRange),
            48 => Ok(Opcode::SetupMapping),
            49 => Ok(Opcode::RemoveMapping),
            50 => Ok(Opcode::Syncfs),
            51 => Ok(Opcode::TmpFile),
            _ => Err(()),
        }
    }
}
