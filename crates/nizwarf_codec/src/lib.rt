//! The codec for a file system in any language: a request is decoded into a call, which is plain
//! data, and the answer to the call is encoded as the reply.
//!
//! The header is `include/nizwarf.h`. The functions there check pointers first, because no function
//! here can: for each reference of the signatures below C passes a pointer to initialised memory,
//! never NULL. A slice is a pointer and then a length in C, also as an element of a list and as the
//! name of a directory entry; `alloc` is nothing.
//!
//! Scratch memory holds no state: each call is passed all that it depends on. The memory that an
//! answer needs is allocated when its call is decoded. If C breaks the conditions that the header
//! states, nothing is promised.
#![tactic(auto)]

mod answer;
mod ask;
mod check;
mod data;
mod further;
mod further_init;
mod handle;
mod memory;
mod notices;
mod print;
mod rest;
mod uses;
mod uses_notices;

ghost use Rattle.std.specs.Prelude.{◌≡◌, ◌≢◌, ◌++◌, [], length, take, drop, min, MatchOption};
ghost use Rattle.std.specs.declared.option.Option.TheVariants.{None, Some};
ghost use Rattle.vfs_segments.specs.Segments.{segments_of, flat_bytes};
ghost use Rattle.vfs_grammar.specs.Limits.{AreLimits};
ghost use Rattle.codec_calls.specs.declared.call.number.TheConstants.{GETLK, IOCTL, STATX};
ghost use Rattle.codec_decode.specs.Further.{Ordinary};
ghost use Rattle.codec_encode.specs.Fitting.{answer_offered};
ghost use Rattle.c_rooms.specs.Codes.{is_asked, no_server, ok};
ghost use Rattle.nizwarf_codec.specs.Clauses.{AnswersInSession, AnswersNoServer, AnswersTurn, AnswersWithoutMemory, AsksInSession, AsksNoServer, AsksWithoutMemory, what_in};
ghost use Rattle.nizwarf_codec.specs.Kept.{HoldsAnswer, HoldsForOthers, HoldsIfTold, KeepsAnswers, StaysFor, StaysThere, TellsOrNot};
ghost use Rattle.nizwarf_codec.specs.Session.{limits_of, options_of};
ghost use Rattle.nizwarf_codec.specs.Shown.{shown_in};
ghost use Rattle.nizwarf_codec.specs.Turns.{IsAskedOrNot};
ghost use Rattle.nizwarf_codec.specs.declared.memory.Memory.{Memory};

use crate::answer::{answer_call, entry_of, in_place, unfit_answer};
use crate::ask::{ask_in_two, ask_segments, not_asked, tell_call};
use crate::data::{Incoming, SessionData, ToldData};
use crate::further::{ask_unnamed, refuse};
use crate::handle::Handle;
use crate::memory::Memory;
use c_rooms::codes::{NO_SERVER, OK, OUT_OF_MEMORY, WRONG_SIZE};
use codec_calls::{AnswerData, CallData, ItemData};
use codec_decode::{Further, what};
use std::alloc::Global;

// New memory. `None` where there is none. It is apart, since a slot has its memory from its first call on.
#[cold]
#[inline(never)]
fn new_memory(alloc: Global) -> Option<Box<Memory>> {
    Box::new(alloc, Memory::new(alloc)?).ok()
}

// The memory after a handle, or new. `None` where there is no memory.
#[inline(always)]
pub(crate) fn memory_of(alloc: Global, handle: &mut Handle) -> Option<Box<Memory>>
    ensures taken { handle.new.value ≡ None }
    ensures kept { (m : Memory) → handle.old.value ≡ Some m →
        MatchOption result ⊥ (λ b. b.value ≡ m) }
{
    match handle.take(alloc) {
        Some(memory) => Some(memory),
        None => new_memory(alloc),
    }
}

// Leaves nothing there to be copied out.
#[tactic(auto, using(crate::proofs::Leaving::none_shown))]
pub(crate) fn show_nothing(alloc: Global, handle: &mut Handle)
    ensures nothing { shown_in handle.new.value ≡ [] }
    ensures keeps { KeepsAnswers handle.old.value handle.new.value }
    ensures some { StaysThere handle.old.value handle.new.value }
{
    if let Some(mut memory) = handle.take(alloc) {
        memory.shown = 0;
        handle.put(memory);
    }
}

// Tells a call, if the slot has memory for any answer to it, which it keeps; else none is told. Nothing is left there
// to be copied out.
#[tactic(auto, using(crate::proofs::Leaving::none_shown))]
#[inline(always)]
pub(crate) fn tell_in_slot(alloc: Global, handle: &mut Handle, call: &mut CallData) -> i32
    ensures told { TellsOrNot result call.old call.new (HoldsAnswer call.old handle.new.value) }
    ensures has { HoldsAnswer call.old handle.old.value → result ≡ is_asked }
    ensures keeps { KeepsAnswers handle.old.value handle.new.value }
    ensures nothing { shown_in handle.new.value ≡ [] }
    ensures some { StaysThere handle.old.value handle.new.value }
{
    let Some(mut memory) = memory_of(alloc, handle) else {
        return not_asked(OUT_OF_MEMORY, call);
    };
    memory.shown = 0;
    let code = tell_call(alloc, &mut memory, call);
    handle.put(memory);
    code
}

/// Decodes the request in these segments, any of which may be empty. `offers` are the optional
/// operations that the file system serves; with 0 each reply is virtiofsd's. `room` is the size of the
/// reply buffer.
///
/// Returns 15 and fills in `call` if the file system must act. Otherwise the request is finished and
/// `call` is no call: the result is 0 if there is a reply or none is due, and 1 to 10 for the error.
/// `told` gets the length of the reply, and the request that an INTERRUPT names; the reply can be
/// copied out until the next call with this handle. Returns 10 if memory is lacking, also for an answer
/// to the call; 13 if the lengths sum past `usize::MAX`; and 12, without filling in `told`, if the
/// session has sizes that no server has.
///
/// For an optional operation it returns 15 and fills in `call`, 1 if the request is cut short, or 10 if
/// there is no memory for an answer. A TMPFILE is decoded as a CREATE, and its call is a TMPFILE.
#[inline(always)]
#[unsafe(no_mangle)]
pub extern "C" fn nizwarf_decode_at(
    alloc: Global,
    handle: &mut Handle,
    session: &SessionData,
    offers: u32,
    request: &[&[u8]],
    room: usize,
    call: &mut CallData,
    told: &mut ToldData,
) -> i32
    ensures wrong { AsksNoServer session.now result handle.old.value handle.new.value call.old call.new
        told.old told.new }

    ensures promise { AreLimits (limits_of session.now) → offers ≡ 0 →
        IsAskedOrNot (limits_of session.now) (options_of session.now)
        (flat_bytes (segments_of request.now)) room
        result call.new told.old told.new (shown_in handle.new.value) }

    // So also of a request that is of no row that is offered.
    ensures plain { AreLimits (limits_of session.now) →
        what_in session.now offers request.now ≡ Ordinary →
        IsAskedOrNot (limits_of session.now) (options_of session.now)
        (flat_bytes (segments_of request.now)) room
        result call.new told.old told.new (shown_in handle.new.value) }

    // The same over writers, and of each row.
    ensures asked { AsksInSession session.now request.now room (what_in session.now offers request.now)
        result call.new told.old told.new (shown_in handle.new.value) }

    // A slot that has memory wants no more for a request in up to four segments, unless its tail is
    // cut, it may have a context, or it has pairs.
    ensures memory { AsksWithoutMemory session.now request.now room
        (what_in session.now offers request.now) result handle.old.value }

    // Where a call is told the slot has memory for any answer to it, and so for what comes of any request with no more
    // room; and so it stays up to the end of the slot.
    ensures kept { HoldsIfTold result call.new handle.new.value }
    ensures keeps { KeepsAnswers handle.old.value handle.new.value }
    ensures ready { HoldsForOthers result call.new handle.new.value }
    ensures stays { StaysFor handle.old.value handle.new.value }
{
    let incoming = Incoming {
        session,
        offers,
        request,
        room,
    };
    ask_in_slot(alloc, handle, &incoming, call, told)
}

// The same, but for what follows from it: at once, where it can be.
#[inline(always)]
fn ask_in_slot(
    alloc: Global,
    handle: &mut Handle,
    incoming: &Incoming<'_>,
    call: &mut CallData,
    told: &mut ToldData,
) -> i32
    ensures wrong { AsksNoServer incoming.now.session.now result handle.old.value handle.new.value
        call.old call.new told.old told.new }
    ensures asked { AsksInSession incoming.now.session.now incoming.now.request.now incoming.now.room
        (what_in incoming.now.session.now incoming.now.offers incoming.now.request.now)
        result call.new told.old told.new (shown_in handle.new.value) }
    ensures memory { AsksWithoutMemory incoming.now.session.now incoming.now.request.now
        incoming.now.room (what_in incoming.now.session.now incoming.now.offers incoming.now.request.now)
        result handle.old.value }
    ensures kept { HoldsIfTold result call.new handle.new.value }
    ensures keeps { KeepsAnswers handle.old.value handle.new.value }
    ensures some { StaysThere handle.old.value handle.new.value }
{
    if ask_in_two(incoming, call) {
        return tell_in_slot(alloc, handle, call);
    }
    ask_by_table(alloc, handle, incoming, call, told)
}

// The same, by the tables alone: by that of rows first, where rows are offered.
#[inline(never)]
fn ask_by_table(
    alloc: Global,
    handle: &mut Handle,
    incoming: &Incoming<'_>,
    call: &mut CallData,
    told: &mut ToldData,
) -> i32
    ensures wrong { AsksNoServer incoming.now.session.now result handle.old.value handle.new.value
        call.old call.new told.old told.new }
    ensures asked { AsksInSession incoming.now.session.now incoming.now.request.now incoming.now.room
        (what_in incoming.now.session.now incoming.now.offers incoming.now.request.now)
        result call.new told.old told.new (shown_in handle.new.value) }
    ensures memory { AsksWithoutMemory incoming.now.session.now incoming.now.request.now
        incoming.now.room (what_in incoming.now.session.now incoming.now.offers incoming.now.request.now)
        result handle.old.value }
    ensures kept { HoldsIfTold result call.new handle.new.value }
    ensures keeps { KeepsAnswers handle.old.value handle.new.value }
    ensures some { StaysThere handle.old.value handle.new.value }
{
    let Some(limits) = incoming.session.limits() else {
        return WRONG_SIZE;
    };
    let options = incoming.session.options();
    match what(
        incoming.offers,
        limits,
        options,
        incoming.request,
        incoming.room,
        call,
    ) {
        Further::Ordinary => ask_by_reader(alloc, handle, incoming, call, told),
        Further::Short => refuse(alloc, handle, call, told),
        Further::Row => tell_in_slot(alloc, handle, call),
        Further::Unnamed => ask_unnamed(
            alloc,
            handle,
            limits,
            options,
            incoming.request,
            incoming.room,
            call,
            told,
        ),
    }
}

// The same, of a request that asks what virtiofsd's table says.
fn ask_by_reader(
    alloc: Global,
    handle: &mut Handle,
    incoming: &Incoming<'_>,
    call: &mut CallData,
    told: &mut ToldData,
) -> i32
    ensures wrong { AsksNoServer incoming.now.session.now result handle.old.value handle.new.value
        call.old call.new told.old told.new }
    ensures asked { AsksInSession incoming.now.session.now incoming.now.request.now incoming.now.room
        Ordinary
        result call.new told.old told.new (shown_in handle.new.value) }
    ensures memory { AsksWithoutMemory incoming.now.session.now incoming.now.request.now
        incoming.now.room Ordinary
        result handle.old.value }
    ensures kept { HoldsIfTold result call.new handle.new.value }
    ensures keeps { KeepsAnswers handle.old.value handle.new.value }
    ensures some { StaysThere handle.old.value handle.new.value }
{
    let Some(limits) = incoming.session.limits() else {
        return WRONG_SIZE;
    };
    let Some(mut memory) = memory_of(alloc, handle) else {
        return not_asked(OUT_OF_MEMORY, call);
    };
    let options = incoming.session.options();
    let code = ask_segments(
        alloc,
        &mut memory,
        limits,
        options,
        incoming.request,
        incoming.room,
        call,
        told,
    );
    handle.put(memory);
    code
}

/// Encodes the answer to a call that was decoded. `text` is the target of a link, the value of an
/// extended attribute, or a list of names; `items` are directory entries. EIO is replied in place of a
/// text that the call cannot have: for GETLK another length than 24 bytes, for STATX another than 288,
/// for IOCTL one without its record or with more output than was requested.
///
/// Returns the outcome as [`nizwarf_decode_at`] does. `told` gets the length of the reply; how many of
/// its bytes must be copied out, which are 16 for a READ, because the data are in the reply buffer
/// already; the options from then on; the node of an entry that the client does not receive, of which
/// one lookup must be forgotten; and the number of directory entries in the reply. Returns 16 if the
/// data are no call that was decoded, and 12 if the session has sizes that no server has; `told` is not
/// filled in then. Returns 10 if memory is lacking, which happens only with other scratch memory than
/// the call was decoded with: then an entry must be forgotten, and no directory entry is in a reply.
#[unsafe(no_mangle)]
pub extern "C" fn nizwarf_encode_at(
    alloc: Global,
    handle: &mut Handle,
    session: &SessionData,
    call: &CallData,
    answer: &AnswerData,
    text: &[u8],
    items: &[ItemData<'_>],
    told: &mut ToldData,
) -> i32
    ensures wrong { AnswersNoServer session.now result handle.old.value handle.new.value told.old told.new }
    ensures promise { call.now.call ≢ GETLK → call.now.call ≢ STATX → call.now.call ≢ IOCTL →
        AnswersTurn session.now call.now answer.now text.now items.now
        result told.old told.new (shown_in handle.new.value) }

    // Of these three rows too, whose text is to fit.
    ensures fitted { AnswersTurn session.now call.now (answer_offered call.now answer.now text.now)
        text.now items.now result told.old told.new (shown_in handle.new.value) }

    // The same over writers, and by the data alone, of whatever request they are.
    ensures answered { AnswersInSession session.now call.now (answer_offered call.now answer.now text.now)
        text.now items.now result told.old told.new (shown_in handle.new.value) }

    // A slot with which the call was asked has memory for its answer, and has it for others still, and for requests.
    ensures memory { AnswersWithoutMemory call.now result handle.old.value }
    ensures keeps { KeepsAnswers handle.old.value handle.new.value }
    ensures stays { StaysFor handle.old.value handle.new.value }
{
    let unfit = unfit_answer(call, answer, text);
    let fitting = in_place(&unfit, answer);
    answer_in_slot(alloc, handle, session, call, fitting, text, items, told)
}

// The same of an answer whose text fits, but for what follows from it.
#[inline(always)]
fn answer_in_slot(
    alloc: Global,
    handle: &mut Handle,
    session: &SessionData,
    call: &CallData,
    answer: &AnswerData,
    text: &[u8],
    items: &[ItemData<'_>],
    told: &mut ToldData,
) -> i32
    ensures wrong { AnswersNoServer session.now result handle.old.value handle.new.value told.old told.new }
    ensures answered { AnswersInSession session.now call.now answer.now text.now items.now
        result told.old told.new (shown_in handle.new.value) }
    ensures memory { AnswersWithoutMemory call.now result handle.old.value }
    ensures keeps { KeepsAnswers handle.old.value handle.new.value }
    ensures some { StaysThere handle.old.value handle.new.value }
{
    let Some(limits) = session.limits() else {
        return WRONG_SIZE;
    };
    let Some(mut memory) = memory_of(alloc, handle) else {
        told.give_back = entry_of(call, answer);
        told.taken = 0;
        return OUT_OF_MEMORY;
    };
    let code = answer_call(alloc, &mut memory, limits, call, answer, text, items, told);
    handle.put(memory);
    code
}

/// Copies bytes of the last reply, from position `at` on, into the beginning of `piece`, as many as
/// both have, and returns their number.
#[unsafe(no_mangle)]
pub extern "C" fn nizwarf_scratch_copy_at(
    alloc: Global,
    handle: &mut Handle,
    at: usize,
    piece: &mut [u8],
) -> usize
    ensures same { handle.new.value ≡ handle.old.value }
    ensures count { result ≡
        min (length (drop at (shown_in handle.old.value))) (length piece.old) }
    ensures copied { piece.new ≡
        take result (drop at (shown_in handle.old.value)) ++ drop result piece.old }
{
    let Some(memory) = handle.take(alloc) else {
        return 0;
    };
    let count = memory.copy_out(at, piece);
    handle.put(memory);
    count
}

/// Returns the version of this library: 65536 times the major number, plus 256 times the minor
/// number, plus the patch number.
#[unsafe(no_mangle)]
pub extern "C" fn nizwarf_version() -> u32
    ensures { result ≡ 1024 }
{
    0x0000_0400
}

/// Frees scratch memory. Returns 0, or 11 if there was none.
#[unsafe(no_mangle)]
pub extern "C" fn nizwarf_scratch_free_at(alloc: Global, handle: &mut Handle) -> i32
    ensures ended { handle.new.value ≡ None }
    ensures code { MatchOption handle.old.value (result ≡ no_server) (λ _. result ≡ ok) }
{
    let Some(memory) = handle.take(alloc) else {
        return NO_SERVER;
    };
    drop(memory);
    OK
}
