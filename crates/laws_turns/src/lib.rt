//! What holds of every request by the written grammar, as laws: each function does nothing, and its
//! clause says what was proved. They speak of bytes, calls and outcomes, and of no server.
#![tactic(auto)]

pub mod books;
pub mod extensions;
pub mod listings;
pub mod turns;
mod uses;
