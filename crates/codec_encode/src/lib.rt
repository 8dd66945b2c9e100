//! The reply to a call that was made elsewhere, from its data and those of its answer.
//!
//! Nothing here sees the request again, calls a file system or takes memory.
#![tactic(auto)]

mod answered;
mod call;
mod fitting;
mod listing;
mod reply;
mod uses;
mod uses_fitting;
mod value;

pub use answered::Answered;
pub use call::answer;
pub use fitting::{EIO, answer_offered, is_unfit};
