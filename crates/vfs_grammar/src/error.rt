//! Why a request is refused.

use thiserror::Error;

/// Why a request was not answered by a reply that fits.
#[derive(Clone, Copy, Debug, PartialEq, Eq, Error)]
pub enum Error {
    /// The request ends before a header, a record, a tail or a list that it needs, or says
    /// something that has no meaning.
    #[error("the request is cut short, or says what has no meaning")]
    DecodeMessage,
    /// The reply is longer than the room; the room holds its beginning. Also a READ, or a READDIR
    /// or READDIRPLUS of no more bytes than the room has, whose room is below the 16 bytes of a
    /// header: then nothing was written, and no call was made.
    #[error("the reply is longer than the room for it")]
    EncodeMessage,
    /// A writer could not be flushed. It is never answered: flushing never fails.
    #[error("the reply could not be flushed")]
    FlushMessage,
    /// A name or a text that another part may follow is missing.
    #[error("the request lacks a name or another part")]
    MissingParameter,
    /// A name does not end with a nul, or has one before its end.
    #[error("a name does not end at its only nul")]
    InvalidCString,
    /// The name of a security context has no byte. It is never answered: such a name is a missing
    /// parameter.
    #[error("a name has no byte")]
    InvalidCString2,
    /// The header's `len`, or the size of an extension, is less than what it counts.
    #[error("a length in the request is less than what it counts")]
    InvalidHeaderLength,
    /// The `size` of a SETXATTR, and the length of its value, which differ.
    #[error("the size of an extended attribute is said to be {}, and its value has {} bytes", .0.0, .0.1)]
    InvalidXattrSize((u32, usize)),
    /// Security contexts were agreed on, and the request has no block of them.
    #[error("the request lacks the security context that was agreed on")]
    MissingExtension,
    /// A tail, a list or a security context could not be copied for want of memory. No call was made.
    #[error("out of memory")]
    OutOfMemory,
}

/// The outcome of a request.
pub type Result<T> = std::result::Result<T, Error>;
