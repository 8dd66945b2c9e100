//! The handlers of the opcodes. Each reads the parts of its request, makes its call of the file
//! system, and puts the reply into the writer's room. They are in files by subject.
//!
//! A [`Session`] has what they work on, and takes a [`Request`] to its handler; a server is a
//! session that reads the headers of requests.

mod attributes;
mod contents;
mod delivery;
mod directories;
mod files;
mod init;
mod locks;
mod names;
mod session;
mod xattrs;

pub use session::Session;
