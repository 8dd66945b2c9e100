//! The two kinds of descriptors.

/// What the device does with the memory of a descriptor in a chain of the guest.
#[derive(Clone, Copy, PartialEq, Eq)]
pub enum DescriptorType {
    /// It reads it: a part of a request.
    Readable,
    /// It writes it: a part of a reply.
    Writable,
}
