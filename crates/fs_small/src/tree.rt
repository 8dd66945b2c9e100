//! What a tree tells of its nodes.

ghost use Rattle.std.specs.Prelude.{◌≡◌, ◌↔◌, ◌-◌, ◌<◌, ◌^◌, IsSome, IfSome, IsTrue, slice_get};
ghost use Rattle.std.specs.Option.{option_copied};
ghost use Rattle.fs_small.specs.Tables.{Tables, SizesAgree, ItemsAgree, ChildrenAgree, items_of, found_item};

use vfs_files::CStr;
use vfs_wire::Attr;

/// What a directory has: `.`, `..`, a directory or a file in it.
#[derive(Clone, Copy)]
pub struct TreeItem<'a> {
    /// The number of the node.
    pub node: u64,
    /// The kind of node, as `d_type` of `readdir(3)`: [`DT_DIR`](vfs_flags::DT_DIR) or
    /// [`DT_REG`](vfs_flags::DT_REG).
    pub kind: u32,
    /// The name in the directory.
    pub name: CStr<'a>,
}

/// A tree that is only read: directories and files, each a node with a number. Node 1 is the root.
///
/// Its tables say what it holds, and each function is a lookup in one of them. An implementation
/// also proves that the tables agree: the size in a file's attributes is the length of its contents,
/// each item but `.` and `..` is a child with attributes, and only directories have children. The
/// tables are those of a value, and never change. A tree is copied into each reading of a directory; for a large one
/// that is a reference to it.
pub trait ReadTree: Copy {
    /// What it holds.
    ghost tables: { Self → Tables };

    /// The attributes of a node, or `None` where there is no such node.
    fn attr(&self, node: u64) -> Option<Attr>
        ensures { result ≡ (tables self.now).attr node };

    /// The node of this name in a directory, or `None` where there is none. `.` and `..` are not
    /// asked for by a kernel.
    fn child(&self, parent: u64, name: &[u8]) -> Option<u64>
        ensures { result ≡ (tables self.now).child parent name.now };

    /// The bytes of a file, or `None` where the node is no file.
    fn contents(&self, node: u64) -> Option<&[u8]>
        ensures { option_copied result ≡ (tables self.now).contents node };

    /// Whether a node is a directory.
    fn is_directory(&self, node: u64) -> bool
        ensures { IsTrue result ↔ IsSome ((tables self.now).items node) };

    /// The item at this place of a directory, counted from 0, or `None` after the last one.
    fn item(&self, node: u64, place: u64) -> Option<TreeItem<'_>>
        ensures item { found_item result ≡ slice_get (items_of (tables self.now) node) place }
        ensures few { IfSome result (λ _. place < 2 ^ 64 - 1) };

    ghost sizes_agree: { (tree : Self) → SizesAgree (tables tree) };

    ghost items_agree: { (tree : Self) → ItemsAgree (tables tree) };

    ghost children_agree: { (tree : Self) → ChildrenAgree (tables tree) };
}
