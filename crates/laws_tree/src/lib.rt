//! What holds of a tree in memory over calls, runs and sessions.
#![tactic(auto)]

pub mod history;
pub mod laws;
pub mod session;
mod uses;
