//! Calls of a file system, and their answers, as data: plain numbers, which another language can
//! read and write.
#![tactic(auto)]

mod asking;
mod call;
mod data;

pub use asking::{Asking, NoEntries};
pub use call::{CallData, Range, SetattrData, has, kind, number};
pub use data::{AnswerData, AttrData, EntryData, ItemData, StatisticsData, fault_of};
