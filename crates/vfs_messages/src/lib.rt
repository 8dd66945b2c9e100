//! The parts of a request, read from a reader, and replies, put into the room of a writer: without a
//! file system, and as the written grammar says.
//!
//! The server uses this crate and shows the parts of it that its callers need again.
#![tactic(auto)]

mod extensions;
mod options;
mod parts;
mod reply;
mod request;

pub use extensions::{get_extensions, parse_security_context, parse_sup_groups};
pub use options::{
    agreed_options, offered_options, read_second_flags, reply_init, reply_unserved, reply_version,
};
pub use parts::Request;
pub use reply::{
    hold_header, reply_attr, reply_created, reply_data, reply_done, reply_entry, reply_error,
    reply_failed, reply_fault, reply_fault_alone, reply_names, reply_offset, reply_ok,
    reply_opened, reply_readdir, reply_record, reply_statistics, reply_text, reply_value,
    reply_written,
};
pub use request::{
    FirstName, Name, NameAndText, Tail, TwoNames, further_flags, handle_if, is_set, known_valid,
    name_of_tail, number_if, read_pairs, read_record, read_tail, setxattr_size,
};
