//! Small callers, as examples: each makes a few calls of a crate below and says what comes of them,
//! proved by the calls' public contracts alone.
//!
//! They are in a crate of their own, a module for each crate that is called, since nothing calls
//! them: what they hold is the clauses and definitions that they rest on.
#![tactic(auto)]

mod calls;
mod clauses;
mod files;
mod flags;
mod history;
mod laws;
mod listings;
mod memory;
mod messages;
mod mock;
mod mock_more;
mod segments;
mod server;
mod small_files;
mod small_laws;
mod trait_values;
mod transfers;
mod tree;
mod tree_laws;
mod views;
mod wire;
mod wire_more;
