//! Readers and writers over memory that is cut into segments, and files, with which they exchange
//! bytes; and the search by which a reader and a writer find their place.

pub use vfs_segments::laws::{Counted, Totals, find_segment};
pub use vfs_segments::{
    DescriptorType, Error, PositionedFile, Reader, Result, Slices, SlicesMut, Writer, WritevFlags,
};
