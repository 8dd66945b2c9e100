//! What the calls on extended attributes answer.
//!
//! A program asks twice: first for the length, with a size of 0, and then for the bytes.

/// What `getxattr` answers.
#[derive(Drop)]
pub enum GetxattrReply {
    /// The value of the attribute, any bytes.
    Value(Vec<u8>),
    /// How many bytes the value has, where the size that is asked for is 0.
    Count(u32),
}

/// What `listxattr` answers.
#[derive(Drop)]
pub enum ListxattrReply {
    /// The names of the attributes, each with a 0 after it, in any order.
    Names(Vec<u8>),
    /// How many bytes these names have, where the size that is asked for is 0.
    Count(u32),
}
