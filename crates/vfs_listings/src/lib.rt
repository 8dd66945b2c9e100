//! Directories as replies carry them: the record of each entry, and the reading of a directory into
//! records, as READDIR and READDIRPLUS do.
//!
//! Nothing here knows a reply's header: records are put where the writer is, and the answer is
//! how many bytes they have, or the fault that is replied in their place. No call takes memory, and
//! each record is put into the room once. The crate `test_uses` has examples.
#![tactic(auto)]

pub mod laws;
mod listing;
mod record;

pub use listing::{dot_entry, give_back, is_dot, read_directory};
pub use record::{add_dirent, record_len};
