//! Clauses that no other caller here needs.

mod flags;
mod messages;
mod readings;
mod segments;
mod server;
mod wire;
