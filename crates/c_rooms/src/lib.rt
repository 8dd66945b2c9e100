//! What the libraries for C share: the room in which a reply is put together, kept between calls,
//! and the numbers that C sees of what a call came to.
#![tactic(auto)]

pub mod codes;
mod room;

pub use room::{copy_part, lend, only_room};
