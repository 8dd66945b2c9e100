//! Requests of one client in flight at the same time: in whatever order they are asked and answered, the
//! books of lookups and forgets are kept. So also of turns with calls that virtiofsd lacks. Laws alone.
#![tactic(auto)]

mod crossing;
pub mod laws;
mod numbers;
mod uses;
mod uses_offered;
