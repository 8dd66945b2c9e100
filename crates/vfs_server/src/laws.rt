//! What holds of every request, as laws: of turns, extensions, directories and the books.

pub use laws_turns::{books, extensions, listings, turns};
