//! Small callers of a tree in memory, as examples: each makes a few calls and says what comes of
//! them, in numbers, by the relation of a tree alone.

mod accesses;
mod attributes;
mod births;
mod contents;
mod first;
mod full;
mod lookups;
mod nameless;
mod names;
mod opening;
mod parts;
mod privileges;
mod support;
mod xattrs;
