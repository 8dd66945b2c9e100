//! Notices for C. Each function encodes a notice into the first bytes of `out` and returns its
//! length, or 0 without writing anything if it does not fit, or if its header cannot hold the length.

ghost use Rattle.vfs_notices.specs.Notices.{IsPut, delete, inc_epoch, inval_entry, inval_inode, poll, prune, resend, retrieve, store};

use vfs_notices::{
    put_delete, put_inc_epoch, put_inval_entry, put_inval_inode, put_poll, put_prune, put_resend,
    put_retrieve, put_store,
};

/// See [`put_poll`].
#[unsafe(no_mangle)]
pub extern "C" fn nizwarf_notice_poll_at(kh: u64, out: &mut [u8]) -> usize
    ensures { IsPut (poll kh) out.old result out.new }
{
    put_poll(kh, out)
}

/// See [`put_inval_inode`].
#[unsafe(no_mangle)]
pub extern "C" fn nizwarf_notice_inval_inode_at(
    node: u64,
    offset: i64,
    len: i64,
    out: &mut [u8],
) -> usize
    ensures { IsPut (inval_inode node offset len) out.old result out.new }
{
    put_inval_inode(node, offset, len, out)
}

/// See [`put_inval_entry`].
#[unsafe(no_mangle)]
pub extern "C" fn nizwarf_notice_inval_entry_at(
    parent: u64,
    flags: u32,
    name: &[u8],
    out: &mut [u8],
) -> usize
    ensures { IsPut (inval_entry parent flags name.now) out.old result out.new }
{
    put_inval_entry(parent, flags, name, out)
}

/// See [`put_store`].
#[unsafe(no_mangle)]
pub extern "C" fn nizwarf_notice_store_at(
    node: u64,
    offset: u64,
    size: u32,
    out: &mut [u8],
) -> usize
    ensures { IsPut (store node offset size) out.old result out.new }
{
    put_store(node, offset, size, out)
}

/// See [`put_retrieve`].
#[unsafe(no_mangle)]
pub extern "C" fn nizwarf_notice_retrieve_at(
    unique: u64,
    node: u64,
    offset: u64,
    size: u32,
    out: &mut [u8],
) -> usize
    ensures { IsPut (retrieve unique node offset size) out.old result out.new }
{
    put_retrieve(unique, node, offset, size, out)
}

/// See [`put_delete`].
#[unsafe(no_mangle)]
pub extern "C" fn nizwarf_notice_delete_at(
    parent: u64,
    child: u64,
    name: &[u8],
    out: &mut [u8],
) -> usize
    ensures { IsPut (delete parent child name.now) out.old result out.new }
{
    put_delete(parent, child, name, out)
}

/// See [`put_resend`].
#[unsafe(no_mangle)]
pub extern "C" fn nizwarf_notice_resend_at(out: &mut [u8]) -> usize
    ensures { IsPut resend out.old result out.new }
{
    put_resend(out)
}

/// See [`put_inc_epoch`].
#[unsafe(no_mangle)]
pub extern "C" fn nizwarf_notice_inc_epoch_at(out: &mut [u8]) -> usize
    ensures { IsPut inc_epoch out.old result out.new }
{
    put_inc_epoch(out)
}

/// See [`put_prune`].
#[unsafe(no_mangle)]
pub extern "C" fn nizwarf_notice_prune_at(count: u32, out: &mut [u8]) -> usize
    ensures { IsPut (prune count) out.old result out.new }
{
    put_prune(count, out)
}
