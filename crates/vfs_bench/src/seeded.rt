//! A file system whose answers follow from a seed, and which notes its calls: for tests alone.

mod contents;
mod file_system;
mod listing;
mod notes;
mod rules;
mod told;

pub use file_system::SeededFs;
pub use listing::{DirectoryItems, Seeded};
pub use notes::Notes;
pub use told::{Told, parse_told};
