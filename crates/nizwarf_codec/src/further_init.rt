//! The parameters of INIT beyond virtiofsd's, for C.

ghost use Rattle.std.specs.Prelude.{◌≡◌, pos};
ghost use Rattle.std.specs.Int.{w32, cast_unsigned};
ghost use Rattle.vfs_notices.specs.Backing.{Opens, reply_with_backing};
ghost use Rattle.vfs_notices.specs.Init.{AddsNothing, Agrees, further_agreed, further_offered as offered_in, reply_with_more, said_in};

use vfs_notices::{InitMore, add_backing, add_to_init, further_offered};

/// Returns the extension options that the client of an INIT supports; the first 104 bytes of the
/// request suffice: see [`further_offered`].
#[unsafe(no_mangle)]
pub extern "C" fn nizwarf_init_capable_at(request: &[u8]) -> u64
    ensures { result ≡ offered_in request.now }
{
    further_offered(request)
}

/// Adds parameters to the reply to an INIT, of 80 bytes, and returns the extension options that are
/// negotiated: see [`add_to_init`].
#[unsafe(no_mangle)]
pub extern "C" fn nizwarf_add_to_init_at(reply: &mut [u8], offered: u64, more: &InitMore) -> u64
    ensures other { (Agrees reply.old → ⊥) → (result ≡ 0) × (reply.new ≡ reply.old) }
    ensures agreed { Agrees reply.old →
        result ≡ further_agreed offered more.now.want (said_in reply.old).flags }
    ensures added { Agrees reply.old → reply.new ≡ reply_with_more result more.now reply.old }
    ensures nothing { AddsNothing more.now → (result ≡ 0) × (reply.new ≡ reply.old) }
{
    add_to_init(reply, offered, more)
}

/// Adds the number of a backing file to the reply to an OPEN or a CREATE: see [`add_backing`].
/// Returns 1, or 0 if the reply is an error or too short, and is left as it is.
#[unsafe(no_mangle)]
pub extern "C" fn nizwarf_add_backing_at(reply: &mut [u8], id: i32) -> i32
    ensures other { (Opens reply.old → ⊥) → (result ≡ pos 0) × (reply.new ≡ reply.old) }
    ensures opened { Opens reply.old →
        (result ≡ pos 1) × (reply.new ≡ reply_with_backing (cast_unsigned w32 id) reply.old) }
{
    i32::from(add_backing(reply, id))
}
