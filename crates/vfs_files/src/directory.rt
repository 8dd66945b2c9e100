//! Items of a directory, one after another.

ghost use Rattle.std.specs.Prelude.{Option};
ghost use Rattle.std.specs.Borrow.{sem};
ghost use Rattle.vfs_files.specs.Values.{Item, item_of, Rests};

use crate::name::CStr;

/// An item of a directory, as `struct fuse_dirent` carries it.
#[derive(Clone, Copy)]
pub struct DirEntry<'a> {
    /// The number of the node, which counts no lookup.
    pub ino: u64,
    /// Where a reading that goes on after this item begins.
    pub offset: u64,
    /// The kind of file, as the `d_type` of `readdir(3)`.
    pub type_: u32,
    /// The name in the directory.
    pub name: CStr<'a>,
}

/// What gives the items of a directory. It need not end.
pub trait DirectoryIterator {
    /// From the old state the iterator may give this item, or the end, and leave the new state.
    ghost gives: { Self → Option Item → Self → Type 0 };

    /// The next item, which borrows from the iterator, or `None` at the end. An iterator that has
    /// ended may be asked again.
    fn next(&mut self) -> Option<DirEntry<'_>>
        ensures* { sem 𝓛 (Rests Self.row self.entry
            (λ new. gives self.old (item_of result) new)) };
}
