//! What holds of a server over the tree in memory alone, and callers that rest on it. A library over
//! another file system has no such module.

mod laws;
mod uses;
