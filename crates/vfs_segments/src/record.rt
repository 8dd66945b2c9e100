//! What a reader and a writer know of records.

/// The size of the largest record, in bytes.
pub const LARGEST_RECORD: usize = 152;
