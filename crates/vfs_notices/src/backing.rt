//! Passthrough: a file that is open may name one of the client's, by a number that the client gave.

ghost use Rattle.std.specs.Prelude.{◌≡◌, true, false};
ghost use Rattle.std.specs.Int.{w32, cast_unsigned};
ghost use Rattle.vfs_notices.specs.Backing.{Opens, reply_with_backing, with_backing as said_with};

use vfs_wire::parts::{part_at, put_first};
use vfs_wire::{ByteValued, OutHeader};
use vfs_wire_more::OpenOut;

/// In `open_flags` of `struct fuse_open_out`: `backing_id` is one.
pub const FOPEN_PASSTHROUGH: u32 = 1 << 7;

/// Whether a reply has the record of an open file.
fn opens(reply: &[u8]) -> bool
    ensures yes { result ≡ true → Opens reply.now }
    ensures no { result ≡ false → Opens reply.now → ⊥ }
{
    if reply.len() < OutHeader::SIZE + OpenOut::SIZE {
        return false;
    }
    let header: OutHeader = part_at(reply, 0);
    header.len as usize == reply.len() && header.error == 0
}

/// The record of an open file with a backing file.
fn with_backing(id: u32, said: &OpenOut) -> OpenOut
    ensures { result ≡ said_with id said.now }
{
    OpenOut {
        open_flags: said.open_flags | FOPEN_PASSTHROUGH,
        padding: id,
        ..*said
    }
}

/// Names a backing file in a reply that has the record.
fn put_backing(reply: &mut [u8], id: u32)
    requires { Opens reply.old }
    ensures { reply.new ≡ reply_with_backing id reply.old }
{
    let at = reply.len() - OpenOut::SIZE;
    let said: OpenOut = part_at(reply, at);
    let (_before, rest) = reply.split_at_mut(at);
    put_first(rest, &with_backing(id, &said));
}

/// Names a backing file in the reply to an OPEN or a CREATE, if PASSTHROUGH is agreed on. Answers whether it
/// does: a reply that is a fault, or too short, stays as it is.
pub fn add_backing(reply: &mut [u8], id: i32) -> bool
    ensures other { (Opens reply.old → ⊥) → (result ≡ false) × (reply.new ≡ reply.old) }
    ensures opened { Opens reply.old →
        (result ≡ true) × (reply.new ≡ reply_with_backing (cast_unsigned w32 id) reply.old) }
{
    if !opens(reply) {
        return false;
    }
    put_backing(reply, id.cast_unsigned());
    true
}
