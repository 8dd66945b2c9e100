//! The file system that a server calls, and its types.

pub use vfs_files::{
    CStr, CString, Context, DirEntry, DirectoryIterator, Entry, Extensions, FileSystem,
    GetxattrReply, ListxattrReply, MigrateError, Number, SecContext, SerializableFileSystem,
    ZeroCopyReader, ZeroCopyWriter, defaults,
};
pub use vfs_flags::{FsOptions, OpenOptions, ROOT_ID, SetattrValid, SetxattrFlags};
pub use vfs_wire_more::RemovemappingOne;
