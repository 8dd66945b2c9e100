//! A reading of a directory.

ghost use Rattle.vfs_files.specs.Listing.{GivesFirst};

use crate::tree::ReadTree;
use std::marker::Model;
use vfs_files::{DirEntry, DirectoryIterator};

/// The items of a directory of a tree from an offset on. The offset of each is its place, counted
/// from 1.
#[derive(Drop)]
pub struct TreeEntries<T: ReadTree> {
    pub(crate) tree: T,
    pub(crate) node: u64,
    pub(crate) next: u64,
}

impl<T: ReadTree> Model for TreeEntries<T> {
    ghost use Rattle.std.specs.Prelude.{List};
    ghost use Rattle.vfs_files.specs.Values.{Item};
    ghost use Rattle.fs_small.specs.Tables.{items_of};
    ghost use Rattle.fs_small.specs.ReadOnly.{items_after};

    ghost Value = { List Item };

    ghost view = { λ it. items_after (items_of (T.tables it.tree) it.node) it.next };
}

impl<T: ReadTree> DirectoryIterator for TreeEntries<T> {
    ghost gives = { GivesFirst };

    fn next(&mut self) -> Option<DirEntry<'_>> {
        match self.tree.item(self.node, self.next) {
            Some(item) => {
                self.next += 1;
                Some(DirEntry {
                    ino: item.node,
                    offset: self.next,
                    type_: item.kind,
                    name: item.name,
                })
            }
            None => None,
        }
    }
}
