//! A file system as the server sees it: its calls, its answers, and a relation over both.
//!
//! [`FileSystem`] is what a file system implements and the server calls. This crate knows nothing
//! of requests and replies as bytes, but for the records that an [`Entry`] and a [`Context`] are
//! turned into and made from. For a file system that holds contents as bytes it has the transfers
//! of a READ and a WRITE.
#![tactic(auto)]

mod answer;
mod bytes;
mod bytes_mut;
mod call_value;
pub mod defaults;
mod directory;
mod entry;
mod extensions;
mod filesystem;
pub mod laws;
mod listing;
mod memory;
mod migration;
mod name;
mod nonzero;
mod number;
mod partial;
mod transfer;
mod uses;
mod xattr;

pub use bytes::{Bytes, read_bytes};
pub use bytes_mut::{BytesMut, lengthen, write_bytes};
pub use call_value::{AnswerKind, CallValue, Given, ReadValue, WriteValue};
pub use directory::{DirEntry, DirectoryIterator};
pub use entry::{Context, Entry};
pub use extensions::{Extensions, SecContext};
pub use filesystem::FileSystem;
pub use listing::EntryList;
pub use memory::copy_of;
pub use migration::{MigrateError, SerializableFileSystem};
pub use name::{CStr, CString, first_nul};
pub use number::Number;
pub use partial::{PartialFileSystem, unserved};
pub use transfer::{ZeroCopyReader, ZeroCopyWriter};
pub use xattr::{GetxattrReply, ListxattrReply};
