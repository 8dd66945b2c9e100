//! Attributes from a `stat`.

use vfs_flags::{Errno, GuestGid};
use vfs_wire::{Attr, Stat64};

#[test]
fn the_group_is_not_mapped_after_a_fault_of_the_owner(rt: HostRuntime) {
    let mut called = false;
    let answer = Attr::try_from_stat64(
        Stat64::default(),
        |_| Err(Errno::new(34)),
        |gid| {
            called = true;
            Ok(GuestGid::from(gid.into_inner()))
        },
    );
    assert!(rt; !called && matches!(answer, Err(Some(e)) if e.get() == 34));
}
