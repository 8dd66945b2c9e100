//! The written grammar: what a request asks by its bytes, the calls and the reply that follow, what
//! is in the room, and the books of lookups and forgets. It is in `specs`, and the promise
//! of a server is made in its words.
//!
//! Of code it has the errors by which a request is refused, and the sizes that a server goes by.
#![tactic(auto)]

mod error;
mod limits;
mod uses;

pub use error::{Error, Result};
pub use limits::Limits;
