//! Noting the call of a request, with names and values by their lengths.

ghost use Rattle.std.specs.Prelude.{◌≡◌, length};
ghost use Rattle.vfs_flags.specs.Flags.{fs_options_bits};
ghost use Rattle.vfs_flags.specs.Numbers.{opcode_of};
ghost use Rattle.vfs_grammar.specs.Words.{ask_header};
ghost use Rattle.vfs_grammar.specs.Limits.{AreLimits};
ghost use Rattle.vfs_server.specs.MemoryByPieces.{MayWantAfter};
ghost use Rattle.codec_calls.specs.Shapes.{nothing};
ghost use Rattle.codec_decode.specs.Noting.{IsNoted};
ghost use Rattle.codec_decode.specs.Room.{KeepsRoom};

use codec_calls::{Asking, CallData};
use vfs_flags::FsOptions;
use vfs_grammar::{Limits, Result};
use vfs_messages::Request;
use vfs_segments::Writer;
use vfs_server::handlers::Session;

// Has a request handled over a file system that notes its call.
fn handle(session: &mut Session<Asking<'_>>, q: Request<'_, '_>, w: &mut Writer) -> Result<usize>
    requires { session.old.fs.call.now ≡ nothing }
    ensures same_record { session.new.fs.call.ghost_name ≡ session.old.fs.call.ghost_name }
    ensures noted { IsNoted
        (MayWantAfter session.old.limits session.old.options (length w.old.left)
        (opcode_of q.entry.header.now.opcode) q.entry.header.now q.entry.r.now.pieces)
        (ask_header session.old.limits session.old.options (length w.old.left) q.entry.header.now
        q.entry.r.now.left)
        w.old result w.new session.new.fs.call.now }
    ensures room { KeepsRoom w.old w.new }
{
    session.handle_header(q, w)
}

/// Notes the call that a request with this header asks for, in a record that has none. Else it
/// finishes the request: the reply is put into the room that `w` has left.
#[inline(never)]
pub fn note(
    limits: Limits,
    options: FsOptions,
    q: Request<'_, '_>,
    w: &mut Writer,
    call: &mut CallData,
) -> Result<usize>
    requires limits { AreLimits limits }
    requires none { call.old ≡ nothing }
    ensures noted { IsNoted
        (MayWantAfter limits (fs_options_bits options) (length w.old.left)
        (opcode_of q.entry.header.now.opcode) q.entry.header.now q.entry.r.now.pieces)
        (ask_header limits (fs_options_bits options) (length w.old.left) q.entry.header.now
        q.entry.r.now.left)
        w.old result w.new call.new }
    ensures room { KeepsRoom w.old w.new }
{
    let mut session = Session {
        fs: Asking { call },
        options,
        limits,
    };
    let outcome = handle(&mut session, q, w);
    let Session {
        fs: Asking { call: _noted },
        options: _,
        limits: _,
    } = session;
    outcome
}
