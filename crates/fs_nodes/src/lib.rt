//! The nodes of the file system in memory of `fs_tree`.
//!
//! A [`Node`] is a directory, with its names in [`Children`], a file, with its bytes in [`Contents`],
//! or a symbolic link, with its [`Text`]. Each has extended attributes, [`Xattrs`].
//!
//! [`Contents`] has pages of 4096 bytes. A page that was never written takes no memory and reads as
//! zeros.
#![tactic(auto)]

mod children;
mod contents;
mod flags;
mod held;
mod kind;
mod listing;
mod node;
mod pages;
mod refusals;
mod renames;
mod statx;
mod text;
mod transfer;
mod xattrs;

pub use children::{Child, Children};
pub use contents::{Contents, KEEP_SIZE, PUNCH_HOLE, ZERO_RANGE, is_mode};
pub use held::{Held, first_held, is_idle};
pub use kind::Kind;
pub use listing::entries_after;
pub use node::{Node, Time, is_other, put_node, remove_node};
pub use refusals::{
    check_contents, check_namespace, directory, holds_names, is_directory, is_improper, no_device,
    no_place, too_big,
};
pub use renames::{is_same, is_served, leaves_whiteout, replaced};
pub use statx::STATX_LEN;
pub use text::Text;
pub use xattrs::{MOST_BYTES, Xattrs};
