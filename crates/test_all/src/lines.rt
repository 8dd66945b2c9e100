//! The texts of errors.

use crate::support::{have_texts, holds};
use std::test::Fail;
use vfs_run::RunError;

/// Each end of a run that has a text, and the text.
static TEXTS: [(RunError, &str); 3] = [
    (RunError::BadLine(6), "bad line 6"),
    (RunError::Io, "i/o error"),
    (RunError::OutOfMemory, "out of memory"),
];

#[test]
fn each_end_of_a_run_has_a_text(rt: HostRuntime) -> Result<(), Fail> {
    holds(have_texts(rt.alloc(), &TEXTS))
}
