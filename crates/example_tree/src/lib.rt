//! An example: a tree of three files that is served read-only. `hello.txt` and `readme.txt` are
//! in the root, and `a.txt` in the directory `docs`.
#![tactic(auto)]

ghost use Rattle.std.proofs.Common.{rules};
ghost use Rattle.example_tree.specs.Docs.{docs};

pub mod client;
mod uses;

use fs_small::{ReadTree, TreeItem, directory_attr, directory_item, file_attr, file_item};
use vfs_wire::Attr;

/// The tree. `ReadOnly { tree: Docs }` is its file system.
#[derive(Clone, Copy)]
pub struct Docs;

impl ReadTree for Docs {
    ghost tables = { λ tree. docs };

    ghost sizes_agree = { Prim.search rules };

    ghost items_agree = { Prim.search rules };

    ghost children_agree = { Prim.search rules };

    fn attr(&self, node: u64) -> Option<Attr> {
        match node {
            1 => Some(directory_attr(1, 3)),
            2 => Some(file_attr(2, 13)),
            3 => Some(directory_attr(3, 2)),
            4 => Some(file_attr(4, 2)),
            5 => Some(file_attr(5, 8)),
            _ => None,
        }
    }

    fn child(&self, parent: u64, name: &[u8]) -> Option<u64> {
        if parent == 1 && name == b"hello.txt".as_slice() {
            Some(2)
        } else if parent == 1 && name == b"docs".as_slice() {
            Some(3)
        } else if parent == 1 && name == b"readme.txt".as_slice() {
            Some(5)
        } else if parent == 3 && name == b"a.txt".as_slice() {
            Some(4)
        } else {
            None
        }
    }

    fn contents(&self, node: u64) -> Option<&[u8]> {
        match node {
            2 => Some(b"hello, world\n"),
            4 => Some(b"a\n"),
            5 => Some(b"read me\n"),
            _ => None,
        }
    }

    fn is_directory(&self, node: u64) -> bool {
        node == 1 || node == 3
    }

    fn item(&self, node: u64, place: u64) -> Option<TreeItem<'_>> {
        match (node, place) {
            (1, 0) => Some(directory_item(1, b".\0")),
            (1, 1) => Some(directory_item(1, b"..\0")),
            (1, 2) => Some(file_item(2, b"hello.txt\0")),
            (1, 3) => Some(directory_item(3, b"docs\0")),
            (1, 4) => Some(file_item(5, b"readme.txt\0")),
            (3, 0) => Some(directory_item(3, b".\0")),
            (3, 1) => Some(directory_item(1, b"..\0")),
            (3, 2) => Some(file_item(4, b"a.txt\0")),
            _ => None,
        }
    }
}
