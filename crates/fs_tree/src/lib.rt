//! A file system in memory, for people: directories, files and symbolic links, under any names, with
//! times, owners, permissions and extended attributes.
//!
//! [`TreeFs`] keeps a node while a name leads to it or the guest holds a lookup of it.
#![tactic(auto)]

mod calls;
mod changes;
mod fs;
mod naming;
mod rename;
mod rows;

pub use fs::{Capacity, TreeFs};
pub use fs_nodes::Time;
pub use rows::MOST_TEXT;
