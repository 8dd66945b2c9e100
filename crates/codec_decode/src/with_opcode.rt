//! What a request asks with another opcode: that of a TMPFILE, with CREATE's, asks for a file.

ghost use Rattle.std.specs.Prelude.{◌≡◌, ◌+◌, ℕ, List, length};
ghost use Rattle.vfs_flags.specs.Flags.{fs_options_bits};
ghost use Rattle.vfs_messages.specs.Rooms.{with_after};
ghost use Rattle.vfs_grammar.specs.Ask.{ask};
ghost use Rattle.vfs_grammar.specs.Limits.{AreLimits};
ghost use Rattle.codec_decode.specs.declared.asked.Asked.TheVariants.{Call as IsCall};
ghost use Rattle.codec_decode.specs.Room.{KeepsRoom};
ghost use Rattle.codec_decode.specs.Asked.{IsAsked, IsEnough, LiesWithin, Tells, interrupted_by};
ghost use Rattle.codec_decode.specs.Memory.{LacksNoMemory, MayWant};
ghost use Rattle.codec_decode.specs.WithOpcode.{unread_with_opcode, with_opcode as with_opcode_of};

use crate::asked::{Asked, Terms, ask_after};
use crate::clear::{clear_numbers, clear_places};
use codec_calls::CallData;
use std::alloc::Global;
use vfs_flags::FsOptions;
use vfs_grammar::Limits;
use vfs_messages::{Request, read_record};
use vfs_segments::{Reader, Writer};
use vfs_wire::InHeader;

/// What the request asks that `r` has left with this number in place of its opcode: [`ask`](crate::ask) of those bytes.
pub fn ask_as(
    opcode: u32,
    alloc: Global,
    limits: Limits,
    options: FsOptions,
    r: Reader<'_>,
    room: usize,
    w: &mut Writer,
    call: &mut CallData,
) -> Asked
    requires limits { AreLimits limits }
    requires enough { IsEnough (length w.old.left) room }
    ensures asked { (following : List ℕ) → length w.old.left + length following ≡ room →
        IsAsked limits (fs_options_bits options) (with_opcode_of opcode r.entry.left)
        (with_after w.old following) result (with_after w.new following) call.new }
    ensures within { LiesWithin (length w.old.left) result }
    ensures memory { ¬ (MayWant limits (fs_options_bits options) room (unread_with_opcode opcode r.entry)) →
        LacksNoMemory result }
    ensures room { result ≡ IsCall → KeepsRoom w.old w.new }
{
    ask_request_as(opcode, alloc, limits, options, r, room, w, call)
}

// The same, whatever room `w` has left.
#[inline(never)]
pub(crate) fn ask_request_as(
    opcode: u32,
    alloc: Global,
    limits: Limits,
    options: FsOptions,
    mut r: Reader<'_>,
    room: usize,
    w: &mut Writer,
    call: &mut CallData,
) -> Asked
    requires { AreLimits limits }
    ensures told { Tells (MayWant limits (fs_options_bits options) room (unread_with_opcode opcode r.entry))
        (with_opcode_of opcode r.entry.left) (fs_options_bits options)
        (interrupted_by limits (with_opcode_of opcode r.entry.left)) room
        (ask limits (fs_options_bits options) room (with_opcode_of opcode r.entry.left)) w.old result
        w.new call.new }
    ensures room { result ≡ IsCall → KeepsRoom w.old w.new }
{
    clear_places(call);
    let len = r.available_bytes() as u64;
    let header = read_record::<InHeader>(&mut r);
    clear_numbers(call);
    match header {
        Ok(header) => {
            let (header, r) = (&InHeader { opcode, ..header }, &mut r);
            let terms = Terms {
                limits,
                options,
                len,
                room,
            };
            ask_after(terms, Request { alloc, header, r }, w, call)
        }
        Err(error) => Asked::finished(Err(error)),
    }
}
