//! What a request asks whose header lies in one piece. A reader has the rest: it is made without the header, and
//! passes over none.

ghost use Rattle.std.specs.Prelude.{◌≡◌, ◌<◌, ◌^◌, ◌+◌, ◌++◌, ℕ, List, length};
ghost use Rattle.vfs_flags.specs.Flags.{fs_options_bits};
ghost use Rattle.vfs_messages.specs.Rooms.{with_after};
ghost use Rattle.vfs_grammar.specs.Ask.{ask};
ghost use Rattle.vfs_grammar.specs.Limits.{AreLimits};
ghost use Rattle.codec_decode.specs.declared.asked.Asked.TheVariants.{Call as IsCall};
ghost use Rattle.codec_decode.specs.Room.{KeepsRoom};
ghost use Rattle.codec_decode.specs.Asked.{IsAsked, IsEnough, LiesWithin, Tells, interrupted_by};
ghost use Rattle.codec_decode.specs.Memory.{LacksNoMemory, MayWantAfterHeader};

use crate::asked::{Asked, Terms, ask_after};
use crate::at_once::record_in;
use crate::clear::{clear_numbers, clear_places};
use codec_calls::CallData;
use std::alloc::Global;
use vfs_flags::FsOptions;
use vfs_grammar::Limits;
use vfs_messages::Request;
use vfs_segments::{Reader, Writer};
use vfs_wire::{ByteValued, InHeader};

/// What the request asks that has these bytes as its header, and after it those that `r` has left:
/// [`ask`](crate::ask) of all of them.
#[inline(always)]
pub fn ask_rest(
    alloc: Global,
    limits: Limits,
    options: FsOptions,
    head: &[u8],
    r: Reader<'_>,
    room: usize,
    w: &mut Writer,
    call: &mut CallData,
) -> Asked
    requires limits { AreLimits limits }
    requires head { length head.now ≡ 40 }
    requires fits { 40 + length r.left < 2 ^ 64 }
    requires enough { IsEnough (length w.old.left) room }
    ensures asked { (following : List ℕ) → length w.old.left + length following ≡ room →
        IsAsked limits (fs_options_bits options) (head.now ++ r.entry.left)
        (with_after w.old following) result (with_after w.new following) call.new }
    ensures within { LiesWithin (length w.old.left) result }
    ensures memory { ¬ (MayWantAfterHeader limits (fs_options_bits options) room (head.now ++ r.entry.left)
        r.entry.pieces) → LacksNoMemory result }
    ensures room { result ≡ IsCall → KeepsRoom w.old w.new }
{
    ask_request_rest(alloc, limits, options, head, r, room, w, call)
}

// The same, whatever room `w` has left.
#[inline(always)]
fn ask_request_rest(
    alloc: Global,
    limits: Limits,
    options: FsOptions,
    head: &[u8],
    mut r: Reader<'_>,
    room: usize,
    w: &mut Writer,
    call: &mut CallData,
) -> Asked
    requires limits { AreLimits limits }
    requires head { length head.now ≡ 40 }
    requires fits { 40 + length r.left < 2 ^ 64 }
    ensures told { Tells (MayWantAfterHeader limits (fs_options_bits options) room
        (head.now ++ r.entry.left) r.entry.pieces)
        (head.now ++ r.entry.left) (fs_options_bits options)
        (interrupted_by limits (head.now ++ r.entry.left)) room
        (ask limits (fs_options_bits options) room (head.now ++ r.entry.left)) w.old result w.new
        call.new }
    ensures room { result ≡ IsCall → KeepsRoom w.old w.new }
{
    clear_places(call);
    let rest = r.available_bytes();
    let len = (InHeader::SIZE + rest) as u64;
    let header = record_in::<InHeader>(head);
    clear_numbers(call);
    match header {
        Ok(header) => {
            let (header, r) = (&header, &mut r);
            let terms = Terms {
                limits,
                options,
                len,
                room,
            };
            ask_after(terms, Request { alloc, header, r }, w, call)
        }
        Err(_) => unreachable!(),
    }
}
