//! What a message comes to.

use crate::messages::records::{Log, Region};

/// What was offered, and how many queues there are.
#[repr(C)]
#[derive(Clone, Copy, Debug)]
pub struct Offer {
    pub features: u64,
    /// Those of the protocol.
    pub protocol: u64,
    pub queues: u64,
}

/// Where the rings of a queue begin, by the front end's addresses, and by the guest's the used one, for the log.
#[repr(C)]
#[derive(Clone, Copy, Debug)]
pub struct Rings {
    pub descriptors: u64,
    pub used: u64,
    pub available: u64,
    pub log: u64,
}

impl Rings {
    pub const NONE: Rings = Rings {
        descriptors: 0,
        used: 0,
        available: 0,
        log: 0,
    };
}

/// The regions of memory: `count` of eight.
#[repr(C)]
#[derive(Clone, Copy, Debug)]
pub struct Table {
    pub count: u64,
    pub region: [Region; 8],
}

impl Table {
    pub const NONE: Table = Table {
        count: 0,
        region: [Region::NONE; 8],
    };
}

/// A message. What is not its request's is 0.
#[repr(C)]
#[derive(Clone, Copy, Debug)]
pub struct Message {
    /// A number of `Request`.
    pub request: u32,
    /// 1 if a reply is wanted, else 0.
    pub wants_reply: u32,
    pub queue: u32,
    /// How many descriptors it has.
    pub descriptors: u32,
    /// Features; a number of the queue; of its rings, 1 if what is written there is marked in the log; of a state,
    /// 0 if it is saved, and 1 if it is loaded.
    pub number: u64,
    pub rings: Rings,
    pub log: Log,
    pub memory: Table,
}

impl Message {
    pub const NONE: Message = Message {
        request: 0,
        wants_reply: 0,
        queue: 0,
        descriptors: 0,
        number: 0,
        rings: Rings::NONE,
        log: Log::NONE,
        memory: Table::NONE,
    };
}
