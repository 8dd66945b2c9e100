//! Decoding a request.

ghost use Rattle.std.specs.Prelude.{◌≡◌, ◌≢◌, ◌≤◌, ◌+◌, ◌++◌, ◌∷◌, List, [], ℕ, false, length, min, true, MatchOption};
ghost use Rattle.vfs_flags.specs.Flags.{fs_options_bits};
ghost use Rattle.vfs_segments.specs.Lengths.{lengths_from};
ghost use Rattle.vfs_segments.specs.Segments.{segments_of, flat_bytes, lengths_of};
ghost use Rattle.vfs_segments.specs.Written.{Written};
ghost use Rattle.vfs_grammar.specs.Ask.{ask as ask_of};
ghost use Rattle.vfs_grammar.specs.Limits.{AreLimits};
ghost use Rattle.vfs_grammar.specs.Memory.{header_of};
ghost use Rattle.codec_calls.specs.Shapes.{nothing};
ghost use Rattle.vfs_messages.specs.Rooms.{with_after};
ghost use Rattle.codec_decode.specs.Asked.{IsAsked, IsEnough, LiesWithin};
ghost use Rattle.codec_decode.specs.AtOnce.{AsksAtOnce, IsAskedMost};
ghost use Rattle.codec_decode.specs.Further.{Ordinary};
ghost use Rattle.codec_decode.specs.Memory.{LacksNoMemory, MayWant};
ghost use Rattle.codec_decode.specs.Room.{KeepsRoom};
ghost use Rattle.codec_decode.specs.declared.asked.Asked.TheVariants.{Call as IsCall};
ghost use Rattle.c_rooms.specs.Codes.{is_asked, length_of, no_memory, outcome_code};
ghost use Rattle.nizwarf_codec.specs.Asking.{AsksOrNot, LiesInTwo, unread_in};
ghost use Rattle.nizwarf_codec.specs.Clauses.{what_in};
ghost use Rattle.nizwarf_codec.specs.Further.{bytes_as, unread_as};
ghost use Rattle.nizwarf_codec.specs.Kept.{HasFor, HasIfTold, KeepsRooms, TellsOrNot, put_of};
ghost use Rattle.nizwarf_codec.specs.Rooms.{HasRoomFor};
ghost use Rattle.nizwarf_codec.specs.Session.{limits_of, options_of};
ghost use Rattle.nizwarf_codec.specs.Shown.{bytes_shown};

use crate::answer::{HEADER_SIZE, put_of};
use crate::data::{Incoming, ToldData};
use crate::memory::{Memory, Part};
use crate::rest::ask_pieces;
use c_rooms::codes::{ASKED, OK, OUT_OF_MEMORY, TOO_LONG, told as code_of};
use codec_calls::{CallData, kind, number};
use codec_decode::{Asked, LONGEST_REPLY, ask, ask_as, ask_at_once};
use std::alloc::Global;
use vfs_flags::{FsOptions, Opcode};
use vfs_grammar::{Limits, Result};
use vfs_segments::{Reader, Writer};
use vfs_wire::parts::part_at;
use vfs_wire::{ByteValued, InHeader};

/// The number of an outcome, and the length of the reply, 0 where there is none.
pub fn number_and_length(outcome: &Result<usize>) -> (i32, usize)
    ensures number { result.0 ≡ outcome_code outcome.now }
    ensures length { result.1 ≡ length_of outcome.now }
{
    match outcome {
        Ok(len) => (OK, *len),
        Err(error) => (code_of(error, 0).0, 0),
    }
}

/// The code of a request that isn't asked. No call is told.
#[cold]
#[inline(never)]
pub fn not_asked(code: i32, call: &mut CallData) -> i32
    ensures code { result ≡ code }
    ensures none { call.new ≡ nothing }
{
    *call = CallData::NONE;
    code
}

// Whether this is memory for any answer to a call. Where it isn't found to be so at once, it may be.
#[inline(always)]
fn has_for(part: &Part, call: &CallData) -> bool
    ensures { result ≡ true → HasRoomFor (put_of call.now call.now.room) part.now }
{
    part.has(call.room as usize) || (call.answer == kind::DATA && part.has(HEADER_SIZE))
}

// Takes memory for any answer to a call, and tells it; else none is told.
#[inline(never)]
fn take_and_tell(alloc: Global, memory: &mut Memory, call: &mut CallData) -> i32
    ensures told { TellsOrNot result call.old call.new
        (HasRoomFor (put_of call.old call.old.room) memory.new.answers) }
    ensures has { HasRoomFor (put_of call.old call.old.room) memory.old.answers → result ≡ is_asked }
    ensures keeps { KeepsRooms memory.old.answers memory.new.answers }
    ensures same_shown { memory.new.shown ≡ memory.old.shown }
{
    let room = put_of(call, call.room as usize);
    if memory.answers.keep(alloc, room) {
        return ASKED;
    }
    not_asked(OUT_OF_MEMORY, call)
}

/// Tells a call, if there is memory for any answer to it, which is kept. Else none is told.
#[inline(always)]
pub fn tell_call(alloc: Global, memory: &mut Memory, call: &mut CallData) -> i32
    ensures told { TellsOrNot result call.old call.new
        (HasRoomFor (put_of call.old call.old.room) memory.new.answers) }
    ensures has { HasRoomFor (put_of call.old call.old.room) memory.old.answers → result ≡ is_asked }
    ensures keeps { KeepsRooms memory.old.answers memory.new.answers }
    ensures same_shown { memory.new.shown ≡ memory.old.shown }
{
    if has_for(&memory.answers, call) {
        return ASKED;
    }
    take_and_tell(alloc, memory, call)
}

/// Asks the request in these segments, with `room` bytes of room: the code of what came of it. Most have their header
/// in one piece, and in one all that follows it.
#[inline(always)]
pub fn ask_segments(
    alloc: Global,
    memory: &mut Memory,
    limits: Limits,
    options: FsOptions,
    request: &[&[u8]],
    room: usize,
    call: &mut CallData,
    told: &mut ToldData,
) -> i32
    requires { AreLimits limits }
    ensures asked { AsksOrNot limits (fs_options_bits options)
        (flat_bytes (segments_of request.now)) room
        result call.new told.old told.new (bytes_shown memory.new) }
    ensures memory { HasRoomFor (min room 80) memory.old.asked →
        HasFor room (ask_of limits (fs_options_bits options) room (flat_bytes (segments_of request.now)))
        memory.old.answers → length request.now ≤ 4 →
        ¬ (MayWant limits (fs_options_bits options) room (unread_in (segments_of request.now))) →
        result ≢ no_memory }
    ensures kept { HasIfTold result call.new memory.new.answers }
    ensures keeps { KeepsRooms memory.old.answers memory.new.answers }
{
    match header_and_rest(request) {
        Some((head, rest)) => {
            ask_pieces(alloc, memory, limits, options, head, rest, room, call, told)
        }
        None => ask_cut(
            alloc, memory, limits, options, false, request, room, call, told,
        ),
    }
}

/// The same, wherever the segments are cut; or what it asks as a CREATE.
#[cold]
#[inline(never)]
pub fn ask_cut(
    alloc: Global,
    memory: &mut Memory,
    limits: Limits,
    options: FsOptions,
    create: bool,
    request: &[&[u8]],
    room: usize,
    call: &mut CallData,
    told: &mut ToldData,
) -> i32
    requires { AreLimits limits }
    ensures asked { AsksOrNot limits (fs_options_bits options)
        (bytes_as create (flat_bytes (segments_of request.now))) room
        result call.new told.old told.new (bytes_shown memory.new) }
    ensures memory { HasRoomFor (min room 80) memory.old.asked →
        HasFor room (ask_of limits (fs_options_bits options) room
        (bytes_as create (flat_bytes (segments_of request.now)))) memory.old.answers →
        length request.now ≤ 4 →
        ¬ (MayWant limits (fs_options_bits options) room
        (unread_as create (unread_in (segments_of request.now)))) → result ≢ no_memory }
    ensures kept { HasIfTold result call.new memory.new.answers }
    ensures keeps { KeepsRooms memory.old.answers memory.new.answers }
{
    memory.shown = 0;
    match Reader::new(alloc, request) {
        Ok(reader) => ask_reader(
            alloc, memory, limits, options, create, reader, room, call, told,
        ),
        Err(vfs_segments::Error::DescriptorChainOverflow) => not_asked(TOO_LONG, call),
        Err(_) => not_asked(OUT_OF_MEMORY, call),
    }
}

// Whether a request with this header is a LOOKUP, a GETATTR, a READ or a WRITE.
#[inline(always)]
fn is_asked_most(head: &[u8]) -> bool
    requires { length head.now ≡ 40 }
    ensures most { result ≡ true → IsAskedMost (header_of head.now).opcode }
    ensures all { IsAskedMost (header_of head.now).opcode → result ≡ true }
{
    let header: InHeader = part_at(head, 0);
    if header.opcode == Opcode::Lookup as u32 {
        return true;
    }
    if header.opcode == Opcode::Getattr as u32 {
        return true;
    }
    if header.opcode == Opcode::Read as u32 {
        return true;
    }
    header.opcode == Opcode::Write as u32
}

// The header of a request and all that follows it, where each lies in one piece.
#[inline(always)]
fn header_and_rest<'a>(request: &[&'a [u8]]) -> Option<(&'a [u8], &'a [u8])>
    ensures { MatchOption result (LiesInTwo (segments_of request.now) → ⊥) (λ parts. (length parts.0.now ≡ 40)
        × (flat_bytes (segments_of request.now) ≡ parts.0.now ++ parts.1.now)
        × (lengths_from 40 (lengths_from 0 (lengths_of (segments_of request.now)))
        ≡ lengths_from 0 (length parts.1.now ∷ []))) }
{
    if request.len() == 1 && request[0].len() >= InHeader::SIZE {
        let all = request[0];
        return Some((&all[..InHeader::SIZE], &all[InHeader::SIZE..]));
    }
    if request.len() == 2 && request[0].len() == InHeader::SIZE {
        return Some((request[0], request[1]));
    }
    None
}

/// Asks at once a request in one segment, or in two of which the first is the header: each LOOKUP, GETATTR, READ and
/// WRITE that asks for a call is told, because no row is of such a request. False of any other, which is to be asked by
/// a reader: then nothing is told.
#[inline(always)]
pub fn ask_in_two(incoming: &Incoming<'_>, call: &mut CallData) -> bool
    ensures limits { result ≡ true → AreLimits (limits_of incoming.now.session.now) }
    ensures told { result ≡ true → (w after : Written) → length w.left ≡ incoming.now.room →
        IsAsked (limits_of incoming.now.session.now) (options_of incoming.now.session.now)
        (flat_bytes (segments_of incoming.now.request.now)) w IsCall after call.new }
    ensures ordinary { result ≡ true →
        what_in incoming.now.session.now incoming.now.offers incoming.now.request.now ≡ Ordinary }
    ensures all { AreLimits (limits_of incoming.now.session.now) →
        LiesInTwo (segments_of incoming.now.request.now) →
        AsksAtOnce (limits_of incoming.now.session.now) (options_of incoming.now.session.now)
        incoming.now.room (flat_bytes (segments_of incoming.now.request.now)) → result ≡ true }
    ensures same { result ≡ false → call.new ≡ call.old }
{
    let Some((head, rest)) = header_and_rest(incoming.request) else {
        return false;
    };
    if !is_asked_most(head) {
        return false;
    }
    let Some(limits) = incoming.session.limits() else {
        return false;
    };
    ask_at_once(
        limits,
        incoming.session.options(),
        head,
        rest,
        incoming.room,
        call,
    )
}

// What the request asks that this reader has left; or what it asks as a CREATE.
fn ask_left(
    alloc: Global,
    limits: Limits,
    options: FsOptions,
    create: bool,
    reader: Reader<'_>,
    room: usize,
    w: &mut Writer,
    call: &mut CallData,
) -> Asked
    requires limits { AreLimits limits }
    requires enough { IsEnough (length w.old.left) room }
    ensures asked { (following : List ℕ) → length w.old.left + length following ≡ room →
        IsAsked limits (fs_options_bits options) (bytes_as create reader.entry.left)
        (with_after w.old following) result (with_after w.new following) call.new }
    ensures within { LiesWithin (length w.old.left) result }
    ensures memory { ¬ (MayWant limits (fs_options_bits options) room (unread_as create reader.entry)) →
        LacksNoMemory result }
    ensures room { result ≡ IsCall → KeepsRoom w.old w.new }
{
    if create {
        ask_as(
            number::CREATE,
            alloc,
            limits,
            options,
            reader,
            room,
            w,
            call,
        )
    } else {
        ask(alloc, limits, options, reader, room, w, call)
    }
}

// Asks the request that this reader has left; or what it asks as a CREATE.
fn ask_reader(
    alloc: Global,
    memory: &mut Memory,
    limits: Limits,
    options: FsOptions,
    create: bool,
    reader: Reader<'_>,
    room: usize,
    call: &mut CallData,
    told: &mut ToldData,
) -> i32
    requires { AreLimits limits }
    ensures asked { AsksOrNot limits (fs_options_bits options) (bytes_as create reader.entry.left) room
        result call.new told.old told.new (bytes_shown memory.new) }
    ensures memory { HasRoomFor (min room 80) memory.old.asked →
        HasFor room (ask_of limits (fs_options_bits options) room (bytes_as create reader.entry.left))
        memory.old.answers →
        ¬ (MayWant limits (fs_options_bits options) room (unread_as create reader.entry)) →
        result ≢ no_memory }
    ensures kept { HasIfTold result call.new memory.new.answers }
    ensures keeps { KeepsRooms memory.old.answers memory.new.answers }
{
    if !memory.begin_ask(alloc, room.min(LONGEST_REPLY)) {
        return not_asked(OUT_OF_MEMORY, call);
    }
    let asked = ask_left(
        alloc,
        limits,
        options,
        create,
        reader,
        room,
        &mut memory.asked.writer,
        call,
    );
    match asked {
        Asked::Call => tell_call(alloc, memory, call),
        Asked::Finished {
            outcome,
            interrupts,
        } => {
            let (code, len) = number_and_length(&outcome);
            memory.shown = len;
            told.len = len as u64;
            told.put = len as u64;
            told.interrupts = interrupts;
            code
        }
    }
}
