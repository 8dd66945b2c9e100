//! Each notice, as bytes. The functions put one over the first bytes of a piece of memory, and answer how
//! many they are; 0 where nothing was put.

ghost use Rattle.std.specs.Prelude.{◌≡◌, ◌≤◌, ◌+◌, ◌++◌, ◌∷◌, [], length, drop};
ghost use Rattle.vfs_wire.specs.Fields.{bytes_of};
ghost use Rattle.vfs_notices.specs.Notices.{IsPut, delete, header, inc_epoch, inval_entry, inval_inode, notice_of, poll, prune, resend, retrieve, store};

use crate::numbers::notice;
use vfs_wire::parts::put_first;
use vfs_wire::{ByteValued, OutHeader};
use vfs_wire_more::{
    Notify_Retrieve_Out, NotifyDeleteOut, NotifyInvalEntryOut, NotifyInvalInodeOut,
    NotifyPollWakeupOut, NotifyPruneOut, NotifyStoreOut,
};

/// The greatest length that a header can tell.
const LONGEST: usize = u32::MAX as usize;

/// The bytes of a node's number after a PRUNE.
const NODE_SIZE: usize = 8;

/// Puts the header of a notice of `len` bytes in all.
fn put_header(number: u8, len: u32, out: &mut [u8])
    requires { 16 ≤ length out.old }
    ensures { out.new ≡ header number len ++ drop 16 out.old }
{
    let told = OutHeader {
        len,
        error: i32::from(number),
        unique: 0,
    };
    put_first(out, &told);
}

/// Puts the header of a notice of `len` bytes in all, and its record, into room for both.
fn put_front<T: ByteValued>(number: u8, len: u32, told: &T, out: &mut [u8])
    requires { 16 + T.SIZE ≤ length out.old }
    ensures { out.new ≡ header number len ++ (bytes_of T.table told.now ++ drop (16 + T.SIZE) out.old) }
{
    let (front, rest) = out.split_at_mut(OutHeader::SIZE);
    put_header(number, len, front);
    put_first(rest, told);
}

/// Puts a name and a 0 into room for both.
fn put_name(name: &[u8], out: &mut [u8])
    requires { length name.now + 1 ≡ length out.old }
    ensures { out.new ≡ name.now ++ 0 ∷ [] }
{
    let (text, end) = out.split_at_mut(name.len());
    text.copy_from_slice(name);
    end[0] = 0;
}

/// Puts a notice that is a header alone.
fn put_alone(number: u8, out: &mut [u8]) -> usize
    ensures { IsPut (notice_of number [] 0 0) out.old result out.new }
{
    if out.len() < OutHeader::SIZE {
        return 0;
    }
    put_header(number, OutHeader::SIZE as u32, out);
    OutHeader::SIZE
}

/// Puts a notice with a record, which `more` bytes follow.
fn put_told<T: ByteValued>(number: u8, told: &T, more: usize, out: &mut [u8]) -> usize
    ensures { IsPut (notice_of number (bytes_of T.table told.now) T.SIZE more) out.old result out.new }
{
    let size = OutHeader::SIZE + T::SIZE;
    if out.len() < size || more > LONGEST - size {
        return 0;
    }
    put_front(number, (size + more) as u32, told, out);
    size
}

/// Puts a notice with a record, and a name.
fn put_named<T: ByteValued>(number: u8, told: &T, name: &[u8], out: &mut [u8]) -> usize
    ensures { IsPut
        (notice_of number (bytes_of T.table told.now ++ (name.now ++ 0 ∷ []))
        (T.SIZE + (length name.now + 1)) 0)
        out.old result out.new }
{
    let front_size = OutHeader::SIZE + T::SIZE;
    let size = front_size + name.len() + 1;
    if out.len() < size || size > LONGEST {
        return 0;
    }
    let (front, rest) = out.split_at_mut(front_size);
    put_front(number, size as u32, told, front);
    put_name(name, &mut rest[..name.len() + 1]);
    size
}

/// The attributes of a node are old, and its bytes from `offset` on: `len` of them, or all where that is not
/// above 0; none where `offset` is below 0.
pub fn put_inval_inode(node: u64, offset: i64, len: i64, out: &mut [u8]) -> usize
    ensures { IsPut (inval_inode node offset len) out.old result out.new }
{
    let told = NotifyInvalInodeOut {
        ino: node,
        off: offset,
        len,
    };
    put_told(notice::INVAL_INODE, &told, 0, out)
}

/// A name in a directory is old: it is dropped, or by `NotifyInvalEntryOutFlags::EXPIRE_ONLY` looked up
/// again at its next use. Linux takes a name of at most 4095 bytes.
pub fn put_inval_entry(parent: u64, flags: u32, name: &[u8], out: &mut [u8]) -> usize
    ensures { IsPut (inval_entry parent flags name.now) out.old result out.new }
{
    let Ok(namelen) = u32::try_from(name.len()) else {
        return 0;
    };
    let told = NotifyInvalEntryOut {
        parent,
        namelen,
        flags,
    };
    put_named(notice::INVAL_ENTRY, &told, name, out)
}

/// A name in a directory, which was that of the node `child`, is gone. Linux takes a name of at most 4095
/// bytes.
pub fn put_delete(parent: u64, child: u64, name: &[u8], out: &mut [u8]) -> usize
    ensures { IsPut (delete parent child name.now) out.old result out.new }
{
    let Ok(namelen) = u32::try_from(name.len()) else {
        return 0;
    };
    let told = NotifyDeleteOut {
        parent,
        child,
        namelen,
        padding: 0,
    };
    put_named(notice::DELETE, &told, name, out)
}

/// What comes before `size` bytes of a node, from `offset` on, which the client is to keep.
pub fn put_store(node: u64, offset: u64, size: u32, out: &mut [u8]) -> usize
    ensures { IsPut (store node offset size) out.old result out.new }
{
    let told = NotifyStoreOut {
        nodeid: node,
        offset,
        size,
        padding: 0,
    };
    put_told(notice::STORE, &told, size as usize, out)
}

/// Bytes of a node that the client keeps are wanted: they come by a NOTIFY_REPLY with this number.
pub fn put_retrieve(unique: u64, node: u64, offset: u64, size: u32, out: &mut [u8]) -> usize
    ensures { IsPut (retrieve unique node offset size) out.old result out.new }
{
    let told = Notify_Retrieve_Out {
        notify_unique: unique,
        nodeid: node,
        offset,
        size,
        padding: 0,
    };
    put_told(notice::RETRIEVE, &told, 0, out)
}

/// Whoever polled with this number, the `kh` of a POLL, is to poll again.
pub fn put_poll(kh: u64, out: &mut [u8]) -> usize
    ensures { IsPut (poll kh) out.old result out.new }
{
    put_told(notice::POLL, &NotifyPollWakeupOut { kh }, 0, out)
}

/// Each request that has no reply yet is to be sent again.
pub fn put_resend(out: &mut [u8]) -> usize
    ensures { IsPut resend out.old result out.new }
{
    put_alone(notice::RESEND, out)
}

/// Each name that is kept is to be looked up again at its next use.
pub fn put_inc_epoch(out: &mut [u8]) -> usize
    ensures { IsPut inc_epoch out.old result out.new }
{
    put_alone(notice::INC_EPOCH, out)
}

/// What comes before the numbers of `count` nodes, each in 8 bytes, which are to be dropped if nothing uses
/// them.
pub fn put_prune(count: u32, out: &mut [u8]) -> usize
    ensures { IsPut (prune count) out.old result out.new }
{
    let told = NotifyPruneOut {
        count,
        ..NotifyPruneOut::default()
    };
    put_told(notice::PRUNE, &told, count as usize * NODE_SIZE, out)
}
