//! What a server says beyond virtiofsd's replies: the notices of FUSE 7.45, which no request asks for;
//! what its reply to INIT agrees on besides; and the file that comes after one that was opened.
//!
//! Nothing here takes memory, and nothing has a state. What has no room, or no length that a header can
//! tell, is not put.
#![tactic(auto)]

mod backing;
mod init;
mod notices;
mod numbers;
mod uses;
mod uses_init;

pub use backing::{FOPEN_PASSTHROUGH, add_backing};
pub use init::{InitMore, add_to_init, further, further_offered};
pub use notices::{
    put_delete, put_inc_epoch, put_inval_entry, put_inval_inode, put_poll, put_prune, put_resend,
    put_retrieve, put_store,
};
pub use numbers::notice;
