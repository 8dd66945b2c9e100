//! Small file systems, and what one of your own may begin with.
//!
//! [`ReadOnly`] is one that is only read: whoever has a tree of directories and files states its
//! tables and gives its [`ReadTree`]. [`Unserved`] serves nothing. [`MemFs`] has a root directory with
//! files in memory, for a program or a measurement that needs one: it opens no file of the machine,
//! and forgets everything when it is dropped.
#![tactic(auto)]

mod listing;
mod makers;
mod memfile;
mod memfs;
mod read_only;
mod tree;
mod unserved;

pub use listing::TreeEntries;
pub use makers::{
    directory_attr, directory_item, file_attr, file_item, name_in, name_position, node_attr,
    node_entry,
};
pub use memfile::MemFile;
pub use memfs::MemFs;
pub use read_only::ReadOnly;
pub use tree::{ReadTree, TreeItem};
pub use unserved::{NoEntries, Unserved};
