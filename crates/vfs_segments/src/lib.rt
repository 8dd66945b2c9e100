//! Readers and writers over memory that is cut into segments.
//!
//! A request of the guest lies in one list of segments, and its reply goes into another. A
//! `Reader` and a `Writer` hide the cuts: each call is an operation on flat bytes, those of one
//! segment after another, and on a count. A record is read and written as the bytes that stand for
//! it, and `Writer::write_padded` aligns what it writes to 8 bytes, as a directory's records are;
//! what a record says is not looked at. The crate `test_uses` has examples.
//!
//! A transfer moves bytes between segments and a file without a copy in between: a `PositionedFile`
//! is lent a view of just the next bytes, `Slices` or `SlicesMut`, and moves a beginning of them.
//!
//! Both keep the running totals of their segments' lengths, for which `new`, `split_at` and `clone`
//! take memory where they are more than four. A call finds the segment of its place by one search
//! of them, or by none where that is the first one, moves each byte once, segment by segment, and
//! stops there. Bytes that lie whole in one segment are moved at once. Where what they write lies
//! in several, `Writer::write_pair` and `Writer::write_padded` search once more for each part.
#![tactic(auto)]

mod beside;
mod cut;
mod descriptor_type;
mod error;
mod file;
mod gather;
pub mod laws;
mod lend;
mod pair;
mod reader;
mod record;
mod running;
mod scatter;
mod segments;
mod span;
mod spelled;
mod transfer;
mod views;
mod writer;

pub use descriptor_type::DescriptorType;
pub use error::{Error, Result};
pub use file::{PositionedFile, WritevFlags};
pub use reader::Reader;
pub use record::LARGEST_RECORD;
pub use span::Span;
pub use views::{Slices, SlicesMut};
pub use writer::Writer;
