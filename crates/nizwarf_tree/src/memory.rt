//! The memory of a reply that was taken out of a server, and where in it the reply lies.

/// The memory in which a reply was put together.
#[derive(Drop)]
pub struct Memory {
    pub room: Vec<u8>,
}

/// Where the bytes of a reply lie, in the order of the header's `nizwarf_reply_range`.
#[repr(C)]
#[derive(Clone, Copy)]
pub struct Place {
    /// The memory that was taken.
    pub at: *const u8,
    /// How many bytes of it lie before the reply.
    pub start: usize,
    /// How many bytes the reply has. Where it has any, all lie in the memory.
    pub len: usize,
}
