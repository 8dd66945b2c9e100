//! Decoding a request whose header lies in one segment, and all that follows in another.

ghost use Rattle.std.specs.Prelude.{◌≡◌, ◌≢◌, ◌++◌, ◌∷◌, [], length, min};
ghost use Rattle.vfs_flags.specs.Flags.{fs_options_bits};
ghost use Rattle.vfs_segments.specs.Lengths.{lengths_from};
ghost use Rattle.vfs_grammar.specs.Ask.{ask as ask_of};
ghost use Rattle.vfs_grammar.specs.Limits.{AreLimits};
ghost use Rattle.codec_decode.specs.Memory.{MayWantAfterHeader};
ghost use Rattle.c_rooms.specs.Codes.{no_memory};
ghost use Rattle.nizwarf_codec.specs.Asking.{AsksOrNot};
ghost use Rattle.nizwarf_codec.specs.Kept.{HasFor, HasIfTold, KeepsRooms};
ghost use Rattle.nizwarf_codec.specs.Rooms.{HasRoomFor};
ghost use Rattle.nizwarf_codec.specs.Shown.{bytes_shown};

use crate::ask::{not_asked, number_and_length, tell_call};
use crate::check::reader_of;
use crate::data::ToldData;
use crate::memory::Memory;
use c_rooms::codes::OUT_OF_MEMORY;
use codec_calls::CallData;
use codec_decode::{Asked, LONGEST_REPLY, ask_rest};
use std::alloc::Global;
use vfs_flags::FsOptions;
use vfs_grammar::Limits;

/// Asks the request that has this header, and after it these bytes.
#[inline(always)]
pub fn ask_pieces(
    alloc: Global,
    memory: &mut Memory,
    limits: Limits,
    options: FsOptions,
    head: &[u8],
    rest: &[u8],
    room: usize,
    call: &mut CallData,
    told: &mut ToldData,
) -> i32
    requires limits { AreLimits limits }
    requires head { length head.now ≡ 40 }
    ensures asked { AsksOrNot limits (fs_options_bits options) (head.now ++ rest.now) room
        result call.new told.old told.new (bytes_shown memory.new) }
    ensures memory { HasRoomFor (min room 80) memory.old.asked →
        HasFor room (ask_of limits (fs_options_bits options) room (head.now ++ rest.now))
        memory.old.answers →
        ¬ (MayWantAfterHeader limits (fs_options_bits options) room (head.now ++ rest.now)
        (lengths_from 0 (length rest.now ∷ []))) → result ≢ no_memory }
    ensures kept { HasIfTold result call.new memory.new.answers }
    ensures keeps { KeepsRooms memory.old.answers memory.new.answers }
{
    if !memory.begin_ask(alloc, room.min(LONGEST_REPLY)) {
        return not_asked(OUT_OF_MEMORY, call);
    }
    // (no slice is longer than that)
    let _len = rest.len();
    let pieces = [rest];
    let reader = reader_of(alloc, &pieces);
    let asked = ask_rest(
        alloc,
        limits,
        options,
        head,
        reader,
        room,
        &mut memory.asked.writer,
        call,
    );
    match asked {
        Asked::Call => tell_call(alloc, memory, call),
        Asked::Finished {
            outcome,
            interrupts,
        } => {
            let (code, len) = number_and_length(&outcome);
            memory.shown = len;
            told.len = len as u64;
            told.put = len as u64;
            told.interrupts = interrupts;
            code
        }
    }
}
