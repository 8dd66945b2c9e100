//! A server of FUSE requests over any file system: request bytes in, calls of the file system,
//! reply bytes out.
//!
//! The lower crates are again below the modules that are named after virtiofsd's files: `fuse`
//! has the records and numbers of the protocol, `descriptor_utils` readers and writers,
//! `filesystem` the trait and its types. `server` has the server, and the parts of requests and
//! replies that a caller may need beside it. `handlers` has a handler of each opcode, `laws` what
//! holds of every request, and `transport` the simplest transport, one call.
#![tactic(auto, unfolding(crate::specs::Handling::Serves))]

pub mod descriptor_utils;
pub mod filesystem;
pub mod handlers;
pub mod laws;
pub mod server;
mod transfers;
pub mod transport;

pub use vfs_grammar::{Error, Result};
pub use vfs_wire_more as fuse;
