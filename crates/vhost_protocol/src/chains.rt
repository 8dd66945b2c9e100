//! The rings of virtio 1.2 as a device reads them: section 2.7, split virtqueues. Descriptors that were copied
//! out of a guest's memory once become the pieces of a request and of its room, or are refused by name.
//!
//! Nothing here takes memory, and nothing reads that of the guest: who calls copies a descriptor, and maps a
//! place in a region to a pointer. What the guest writes meanwhile changes nothing.

mod descriptor;
mod laws;
mod regions;
mod rings;
mod uses;
mod walk;

pub use crate::numbers::ChainRefusal;
pub use descriptor::{Descriptor, flag};
pub use laws::{steps_are_within, walks_are_chains, words_are_bytes};
pub use regions::{Place, Region, find};
pub use rings::{needs_event, slot, waiting};
pub use walk::{LAST, MORE, MOST_BYTES, Piece, Step, TABLE, Walk, begin, take_step};
