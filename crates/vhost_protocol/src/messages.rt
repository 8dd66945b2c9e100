//! Messages of a vhost-user front end: each is a value, or refused by name. A message is a header of 12 bytes,
//! a payload, and descriptors beside it.
//!
//! Nothing here takes memory, and nothing has a state.

mod message;
mod payload;
mod place;
mod read;
mod records;
mod request;
mod table;
mod uses;

pub use crate::numbers::{Refusal, Request};
pub use message::{Message, Offer, Rings, Table};
pub use place::{Place, View, place_of};
pub use read::{payload_size, read_message};
pub use records::{Head, Region};
