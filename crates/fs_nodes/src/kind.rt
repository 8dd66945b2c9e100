//! What a node is.

ghost use Rattle.std.specs.Prelude.{◌≡◌, ◌/◌};
ghost use Rattle.fs_nodes.specs.Children.{is_directory, is_file, is_link, kind_bits};
ghost use Rattle.fs_nodes.specs.Node.{device_of, kind_by_mode};

use vfs_flags::{S_IFBLK, S_IFCHR, S_IFDIR, S_IFIFO, S_IFLNK, S_IFMT, S_IFREG, S_IFSOCK};

/// What a node is.
#[derive(Clone, Copy)]
pub enum Kind {
    /// A directory.
    Directory,
    /// A file with contents.
    File,
    /// A symbolic link.
    Link,
    /// A FIFO.
    Fifo,
    /// A socket.
    Socket,
    /// A character device, of this number.
    Character(u32),
    /// A block device, of this number.
    Block(u32),
}

impl Kind {
    /// What `mknod(2)` makes by these bits of `mode`: a file if they say nothing, and no directory or
    /// link.
    pub fn by_mode(mode: u32, device: u32) -> Option<Kind>
        ensures { result ≡ kind_by_mode mode device }
    {
        match mode & S_IFMT {
            0 | S_IFREG => Some(Kind::File),
            S_IFIFO => Some(Kind::Fifo),
            S_IFSOCK => Some(Kind::Socket),
            S_IFCHR => Some(Kind::Character(device)),
            S_IFBLK => Some(Kind::Block(device)),
            _ => None,
        }
    }

    /// The bits of `mode` that say so.
    pub(crate) fn bits(self) -> u32
        ensures { result ≡ kind_bits self }
    {
        match self {
            Kind::Directory => S_IFDIR,
            Kind::File => S_IFREG,
            Kind::Link => S_IFLNK,
            Kind::Fifo => S_IFIFO,
            Kind::Socket => S_IFSOCK,
            Kind::Character(_) => S_IFCHR,
            Kind::Block(_) => S_IFBLK,
        }
    }

    /// The number of a device, and 0 of what is none.
    pub(crate) fn device(self) -> u32
        ensures { result ≡ device_of self }
    {
        match self {
            Kind::Character(device) | Kind::Block(device) => device,
            _ => 0,
        }
    }

    /// What `readdir(3)` calls a node of this kind.
    pub(crate) fn type_(self) -> u32
        ensures { result ≡ kind_bits self / 0o10000 }
    {
        self.bits() / 0o10000
    }

    /// Whether it is a directory.
    pub fn is_directory(self) -> bool
        ensures { result ≡ is_directory self }
    {
        matches!(self, Kind::Directory)
    }

    /// Whether it is a file with contents.
    pub fn is_file(self) -> bool
        ensures { result ≡ is_file self }
    {
        matches!(self, Kind::File)
    }

    /// Whether it is a symbolic link.
    pub fn is_link(self) -> bool
        ensures { result ≡ is_link self }
    {
        matches!(self, Kind::Link)
    }
}
