//! Small callers of the laws, as examples. What each ensures follows from the law that it calls,
//! and from nothing else.

mod books;
mod directories;
mod extensions;
mod limits;
mod listings;
mod refusals;
mod turns;
