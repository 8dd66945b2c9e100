//! What no contract says: that names and extensions are copied where there is memory.

use crate::support::holds;
use std::alloc::Global;
use std::test::Fail;
use vfs_files::{CStr, CString, Extensions, SecContext};
use vfs_flags::{Errno, Fault, GuestGid};

/// A name of its own that has these bytes, in place of the 0 that ends them.
fn own_name(alloc: Global, bytes: &[u8]) -> Result<CString, Fault> {
    match CStr::from_bytes_with_nul(bytes) {
        Some(name) => CString::new(alloc, name),
        None => Err(None),
    }
}

/// Names that are put into memory of their own, and their texts.
static OWN_NAMES: [(&[u8], &[u8]); 3] = [
    (b"\0", b""),
    (b"security.selinux\0", b"security.selinux"),
    (b"\xff\x01\0", b"\xff\x01"),
];

/// Whether a name of its own has this text.
fn is_own_name(alloc: Global, bytes: &[u8], text: &[u8]) -> Result<bool, Fault> {
    Ok(own_name(alloc, bytes)?.as_c_str().to_bytes() == text)
}

/// Whether each row's copy is the same name.
fn are_own_names(alloc: Global) -> Result<bool, Fault> {
    for (bytes, text) in &OWN_NAMES {
        if !is_own_name(alloc, bytes, text)? {
            return Ok(false);
        }
    }
    Ok(true)
}

#[test]
fn a_name_in_memory_of_its_own_is_the_same(rt: HostRuntime) -> Result<(), Fail> {
    holds(are_own_names(rt.alloc()))
}

/// Extensions with the context `user` of this name, and with group 100.
fn both_extensions(alloc: Global) -> Result<Extensions, Fault> {
    let name = own_name(alloc, b"security.selinux\0")?;
    let secctx = Vec::from_slice(alloc, b"user").map_err(|_| Some(Errno::ENOMEM))?;
    Ok(Extensions {
        secctx: Some(SecContext { name, secctx }),
        sup_gid: Some(GuestGid::from(100)),
    })
}

/// Whether both have group 100, and a context of the same name and bytes.
fn are_same(one: &Extensions, other: &Extensions) -> bool {
    let group = Some(GuestGid::from(100));
    match (&one.secctx, &other.secctx) {
        (Some(a), Some(b)) => {
            one.sup_gid == group
                && other.sup_gid == group
                && a.name == b.name
                && a.secctx == b.secctx
        }
        _ => false,
    }
}

/// Whether a copy is the same.
fn is_copied(alloc: Global) -> Result<bool, Fault> {
    let ext = both_extensions(alloc)?;
    let copy = ext.clone(alloc)?;
    Ok(are_same(&ext, &copy))
}

#[test]
fn a_copy_of_extensions_is_equal(rt: HostRuntime) -> Result<(), Fail> {
    holds(is_copied(rt.alloc()))
}
