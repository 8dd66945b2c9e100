//! The room of a reply and the bytes of a request, as a file system moves bytes into them and out
//! of them.
//!
//! [`ZcWriter`] and [`ZcReader`] are the writer and the reader of `vfs_segments` for whole
//! transfers: they call a file again until all is moved. No byte is copied on the way, and no
//! memory is taken.

mod reader;
mod writer;

pub use reader::ZcReader;
pub use writer::ZcWriter;
