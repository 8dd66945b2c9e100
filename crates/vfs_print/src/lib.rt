//! Messages by name: a request, and the reply to one, as a line of text with its fields by their
//! names, for a person who looks at a session.
//!
//! A request is judged by its bytes and the agreed options alone, in the order of the protocol. What a
//! server refuses since it is above a limit of its own, since there is no room, or since it doesn't offer
//! the call, is printed with all its fields; a TMPFILE as the CREATE that it is where it is offered. Nothing
//! takes memory. Each part is taken off the front of the bytes that are left, so that none past the end is
//! read, whatever they are.
#![tactic(auto)]

mod directory;
mod extensions;
mod fields;
mod flags;
mod further;
pub mod laws;
mod message;
mod opcodes;
mod part;
mod reply;
mod request;
mod stop;
mod take;
mod text;
mod uses;

pub use message::Message;
pub use reply::{agreed_options, print_reply};
pub use request::print_request;
pub use text::Quoted;
