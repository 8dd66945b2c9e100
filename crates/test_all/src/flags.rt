//! Errors, as they are shown.

use crate::support::{has_text, holds, none_is_wrong};
use std::alloc::{AllocError, Global};
use std::test::Fail;
use vfs_flags::Errno;

/// The numbers of the errors that have a name, and how they are shown.
static ERRORS: [(i32, &str); 20] = [
    (1, "EPERM (1)"),
    (2, "ENOENT (2)"),
    (5, "EIO (5)"),
    (9, "EBADF (9)"),
    (12, "ENOMEM (12)"),
    (13, "EACCES (13)"),
    (17, "EEXIST (17)"),
    (18, "EXDEV (18)"),
    (20, "ENOTDIR (20)"),
    (21, "EISDIR (21)"),
    (22, "EINVAL (22)"),
    (28, "ENOSPC (28)"),
    (30, "EROFS (30)"),
    (34, "ERANGE (34)"),
    (38, "ENOSYS (38)"),
    (39, "ENOTEMPTY (39)"),
    (61, "ENODATA (61)"),
    (71, "EPROTO (71)"),
    (75, "EOVERFLOW (75)"),
    (95, "EOPNOTSUPP (95)"),
];

/// The first number that is no error's, or whose error is shown otherwise.
fn wrong_error(alloc: Global) -> Result<Option<i32>, AllocError> {
    for (n, text) in &ERRORS {
        let Some(e) = Errno::new(*n) else {
            return Ok(Some(*n));
        };
        if !has_text(alloc, &e, text)? {
            return Ok(Some(*n));
        }
    }
    Ok(None)
}

/// Whether an error without a name is shown by its number.
fn is_shown_by_number(alloc: Global) -> Result<bool, AllocError> {
    match Errno::new(1234) {
        Some(e) => has_text(alloc, &e, "error 1234"),
        None => Ok(false),
    }
}

/// The numbers of no error, from 0 down.
static NO_ERRORS: [i32; 3] = [0, -1, i32::MIN];

/// Whether these are no errors, and the largest number is one.
fn are_bounded() -> bool {
    for n in &NO_ERRORS {
        if Errno::new(*n).is_some() {
            return false;
        }
    }
    matches!(Errno::new(i32::MAX), Some(e) if e.get() == i32::MAX)
}

#[test]
fn errors_have_their_numbers_and_texts(rt: HostRuntime) -> Result<(), Fail> {
    assert!(rt; are_bounded());
    holds(is_shown_by_number(rt.alloc()))?;
    none_is_wrong(wrong_error(rt.alloc()))
}
