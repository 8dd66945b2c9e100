//! What a request asks: a call as data, or that it is finished.
//!
//! So also the calls that virtiofsd has not: of locks, BMAP, IOCTL, POLL, STATX, COPY_FILE_RANGE_64, TMPFILE and
//! NOTIFY_REPLY. A file system says which it offers; a request of another is none of these, and its reply is
//! virtiofsd's.
#![tactic(auto)]

mod asked;
mod at_once;
mod checked;
mod clear;
mod contexts;
mod direct;
mod front;
mod init;
mod listing;
mod note;
pub mod offers;
mod parts;
mod rest;
mod row;
mod uses;
mod uses_rows;
mod with_opcode;

pub use asked::{Asked, LONGEST_REPLY, ask};
pub use at_once::{ask_at_once, record_in};
pub use checked::{Checked, check, check_as};
pub use rest::ask_rest;
pub use row::{Further, what};
pub use with_opcode::ask_as;
