//! Small callers of the library: of requests in a row, as a program is that has a file system; of rows that it offers; of
//! requests that are finished at their ask or are not asked; of answers to INIT, DESTROY and directories; and of the
//! functions that check a request and print it.

ghost use Rattle.std.specs.Prelude.{◌≡◌, ◌≢◌, ◌≤◌, ◌^◌, ◌⊎◌, ◌==◌, ◌++◌, if◌then◌else◌, ℕ, ℤ, List, [], ◌∷◌, codes, length, take, bit_and, pos, Option, None, Some, Result};
ghost use Rattle.vfs_grammar.specs.Samples.{lookup_of_a, not_served_reply};
ghost use Rattle.vfs_segments.specs.Segments.{segments_of, flat_bytes};
ghost use Rattle.c_rooms.specs.Codes.{ok, no_memory, not_asked, is_asked, too_long, wrong_size, outcome_code, length_of};
ghost use Rattle.vfs_grammar.specs.Limits.{AreLimits};
ghost use Rattle.vfs_grammar.specs.Ask.{ask};
ghost use Rattle.codec_decode.specs.Memory.{MayWant};
ghost use Rattle.nizwarf_codec.specs.Asking.{unread_in};
ghost use Rattle.nizwarf_codec.specs.Kept.{Holds, HoldsAnswer, HoldsFor, put_of};
ghost use Rattle.nizwarf_codec.specs.Session.{limits_of, options_of};
ghost use Rattle.nizwarf_codec.specs.Shown.{shown_in};
ghost use Rattle.nizwarf_codec.specs.Uses.{IsLookupOfA, IsOneTurn, IsTurnInC, no_such_name, usual_limits};
ghost use Rattle.vfs_grammar.specs.Forms.{Ask, Asks, Lists};
ghost use Rattle.laws_flight.specs.Table.{AreOf, interrupted};
ghost use Rattle.codec_encode.specs.Fitting.{answer_offered};
ghost use Rattle.codec_encode.specs.Uses.{getlk_asked};
ghost use Rattle.laws_flight.specs.Uses.{getlk};
ghost use Rattle.nizwarf_codec.specs.Answering.{AnswersOrNot, entry_of};
ghost use Rattle.nizwarf_codec.specs.Further.{with_eio};
ghost use Rattle.nizwarf_codec.specs.Turns.{IsAnsweredOrNot, Suffice};
ghost use Rattle.vfs_flags.specs.Flags.{known_fs_options};
ghost use Rattle.vfs_files.specs.Calls.{Failed, Getattr};
ghost use Rattle.vfs_files.specs.Runs.{Called};
ghost use Rattle.vfs_files.specs.declared.entry.Context.{Context};
ghost use Rattle.vfs_grammar.specs.Listing.{Listing, given_back};
ghost use Rattle.vfs_grammar.specs.Memory.{header_of};
ghost use Rattle.vfs_grammar.specs.Reply.{Echo};
ghost use Rattle.codec_encode.specs.Said.{IsFailed};
ghost use Rattle.vfs_grammar.specs.Options.{agreed};
ghost use Rattle.vfs_grammar.specs.Turn.{IsTurn, Turn};
ghost use Rattle.vfs_grammar.specs.declared.error.Error.{Error};
ghost use Rattle.codec_calls.specs.Shapes.{nothing};
ghost use Rattle.codec_calls.specs.declared.call.CallData.{CallData};
ghost use Rattle.codec_calls.specs.declared.call.Range.{Range};
ghost use Rattle.nizwarf_codec.specs.UsesRest.{IsCallOf, interrupt_of_7, request_of_99};
ghost use Rattle.codec_calls.specs.declared.call.number.TheConstants as numbers;
ghost use Rattle.codec_calls.specs.declared.call.kind.TheConstants as kinds;

use crate::check::nizwarf_check_at;
use crate::data::{SessionData, ToldData};
use crate::handle::Handle;
use crate::print::nizwarf_print_request_at;
use crate::{
    nizwarf_decode_at, nizwarf_encode_at, nizwarf_scratch_copy_at, nizwarf_scratch_free_at,
};
use c_rooms::codes::{ASKED, NOT_ASKED, OK};
use codec_calls::{AnswerData, CallData, EntryData, ItemData, kind, number};
use codec_decode::offers;
use laws_flight::laws::asked_and_answered_is_one_turn;
use std::alloc::Global;

/// A session before its INIT, as virtiofsd has it.
const SESSION: SessionData = SessionData {
    options: 0,
    page_size: 4096,
    max_buffer: 1_048_576,
};

/// Asks a LOOKUP of the name `a` for its call: it is told, and nothing is there to be copied out, and
/// the slot has memory for its answer; unless there is no memory.
fn ask_lookup(
    alloc: Global,
    handle: &mut Handle,
    lookup: &[&[u8]],
    call: &mut CallData,
    told: &mut ToldData,
) -> i32
    requires { flat_bytes (segments_of lookup.now) ≡ lookup_of_a }
    ensures code { (result ≡ is_asked) ⊎ (result ≡ no_memory) }
    ensures call { result ≡ is_asked → IsLookupOfA call.new }
    ensures untold { result ≡ is_asked → told.new ≡ told.old }
    ensures nothing { result ≡ is_asked → shown_in handle.new.value ≡ [] }
    ensures kept { result ≡ is_asked → HoldsAnswer call.new handle.new.value }
{
    nizwarf_decode_at(alloc, handle, &SESSION, 0, lookup, 4096, call, told)
}

/// Answers that LOOKUP by ENOENT, which is 2: these are the bytes of the reply. A slot that has memory
/// for its answer wants no more.
fn refuse_lookup(alloc: Global, handle: &mut Handle, call: &CallData, told: &mut ToldData) -> i32
    requires { IsLookupOfA call.now }
    ensures bytes { result ≡ ok → shown_in handle.new.value ≡ no_such_name }
    ensures length { result ≡ ok → (told.new.len ≡ 16) × (told.new.put ≡ 16) }
    ensures none_back { result ≡ ok → told.new.give_back ≡ 0 }
    ensures memory { HoldsAnswer call.now handle.old.value → result ≢ no_memory }
{
    let no_entry = AnswerData {
        error: 2,
        ..AnswerData::default()
    };
    nizwarf_encode_at(alloc, handle, &SESSION, call, &no_entry, &[], &[], told)
}

/// Answers that LOOKUP by an entry, perhaps with another slot. Where there is no memory for the reply, it is to be
/// given back.
fn find(alloc: Global, handle: &mut Handle, call: &CallData, node: u64, told: &mut ToldData) -> i32
    requires { IsLookupOfA call.now }
    ensures { result ≡ no_memory → told.new.give_back ≡ node }
{
    let entry = EntryData {
        node,
        ..EntryData::default()
    };
    let found = AnswerData {
        error: 0,
        entry,
        ..AnswerData::default()
    };
    nizwarf_encode_at(alloc, handle, &SESSION, call, &found, &[], &[], told)
}

/// Asks a LOOKUP of a name for its call, answers that there is none, copies the reply out, and
/// gives the memory back. If all is answered, the reply is these sixteen bytes.
fn nothing_is_found(alloc: Global, handle: &mut Handle, lookup: &[&[u8]], reply: &mut [u8]) -> i32
    requires lookup { flat_bytes (segments_of lookup.now) ≡ lookup_of_a }
    requires reply { length reply.old ≡ 16 }
    ensures bytes { result ≡ ok → reply.new ≡ no_such_name }
    ensures ended { result ≡ ok → handle.new.value ≡ None }
{
    let mut call = CallData::NONE;
    let mut told = ToldData::NOTHING;
    let asked = ask_lookup(alloc, handle, lookup, &mut call, &mut told);
    if asked != ASKED {
        return asked;
    }
    let answered = refuse_lookup(alloc, handle, &call, &mut told);
    if answered != OK {
        return answered;
    }
    let _ = nizwarf_scratch_copy_at(alloc, handle, 0, reply);
    nizwarf_scratch_free_at(alloc, handle)
}

/// Answers a READ whose room is too short for a header: it is none that was asked, and nothing is
/// told.
fn read_without_room(alloc: Global, handle: &mut Handle, told: &mut ToldData) -> i32
    ensures code { (result ≡ not_asked) ⊎ (result ≡ no_memory) }
    ensures untold { result ≡ not_asked → told.new ≡ told.old }
    ensures nothing { shown_in handle.new.value ≡ [] }
{
    let call = CallData {
        call: number::READ,
        answer: kind::DATA,
        room: 15,
        ..CallData::NONE
    };
    let answer = AnswerData::default();
    nizwarf_encode_at(alloc, handle, &SESSION, &call, &answer, &[], &[], told)
}

/// Answers a READ: of the reply no more than the header is there to be copied out.
fn read_some(
    alloc: Global,
    handle: &mut Handle,
    call: &CallData,
    count: u64,
    told: &mut ToldData,
) -> i32
    requires { call.now.answer ≡ 3 }
    ensures put { result ≡ ok → told.new.put ≤ 16 }
    ensures header { length (shown_in handle.new.value) ≤ 16 }
{
    let some = AnswerData {
        error: 0,
        count,
        ..AnswerData::default()
    };
    nizwarf_encode_at(alloc, handle, &SESSION, call, &some, &[], &[], told)
}

/// Asks any request for its call, and answers that with the same slot by these data, whatever they are. The answer lacks
/// no memory; so where it is to that call, both were one turn of the grammar: by what each promises, and over writers. (A
/// text that the call can't have would be answered by EIO.)
fn ask_and_answer(
    alloc: Global,
    handle: &mut Handle,
    session: &SessionData,
    request: &[&[u8]],
    room: usize,
    call: &mut CallData,
    answer: &AnswerData,
    text: &[u8],
    items: &[ItemData<'_>],
    told: &mut ToldData,
) -> i32
    requires { AreLimits (limits_of session.now) }
    ensures memory { result ≢ no_memory }
    ensures promise { (code : ℤ) → result ≡ code → result ≢ not_asked →
        IsTurnInC (limits_of session.now) (options_of session.now)
        (flat_bytes (segments_of request.now)) room (answer_offered call.new answer.now text.now)
        text.now items.now code told.new }
    ensures turn { (code : ℤ) → result ≡ code → result ≢ not_asked →
        IsOneTurn (limits_of session.now) (options_of session.now)
        (flat_bytes (segments_of request.now)) room call.new
        (answer_offered call.new answer.now text.now) text.now items.now
        code told.old told.new (shown_in handle.new.value) }
{
    asked_and_answered_is_one_turn();
    let asked = nizwarf_decode_at(alloc, handle, session, 0, request, room, call, told);
    if asked != ASKED {
        return NOT_ASKED;
    }
    nizwarf_encode_at(alloc, handle, session, call, answer, text, items, told)
}

/// Asks two requests for their calls with one slot, and answers them in the other order; then it asks the second once more.
/// From a call on that was told, no answer lacks memory, and no ask with no more room, unless a tail is cut, or there may be
/// a context, or pairs.
fn answer_in_other_order(
    alloc: Global,
    handle: &mut Handle,
    session: &SessionData,
    first: &[&[u8]],
    second: &[&[u8]],
    room: usize,
    one: &mut CallData,
    answer: &AnswerData,
    told: &mut ToldData,
) -> (i32, i32, i32, i32)
    requires { AreLimits (limits_of session.now) }
    ensures first { result.0 ≢ no_memory }
    ensures second { result.1 ≢ no_memory }
    ensures asked { room ≤ put_of one.new one.new.room → length second.now ≤ 4 →
        ¬ (MayWant (limits_of session.now) (options_of session.now) room
        (unread_in (segments_of second.now))) → result.2 ≢ no_memory }
    ensures again { room ≤ put_of one.new one.new.room → length second.now ≤ 4 →
        ¬ (MayWant (limits_of session.now) (options_of session.now) room
        (unread_in (segments_of second.now))) → result.3 ≢ no_memory }
{
    let mut other = CallData::NONE;
    let asked = nizwarf_decode_at(alloc, handle, session, 0, first, room, one, told);
    if asked != ASKED {
        return (NOT_ASKED, NOT_ASKED, NOT_ASKED, NOT_ASKED);
    }
    let asked = nizwarf_decode_at(alloc, handle, session, 0, second, room, &mut other, told);
    if asked != ASKED {
        return (NOT_ASKED, NOT_ASKED, asked, NOT_ASKED);
    }
    let answered = nizwarf_encode_at(alloc, handle, session, &other, answer, &[], &[], told);
    let earlier = nizwarf_encode_at(alloc, handle, session, one, answer, &[], &[], told);
    let again = nizwarf_decode_at(alloc, handle, session, 0, second, room, &mut other, told);
    (earlier, answered, asked, again)
}

/// Asks a LOOKUP of the name `a`, which lies in one segment, with a slot that has memory: its call
/// is told.
fn ask_lookup_in_a_slot(
    alloc: Global,
    handle: &mut Handle,
    lookup: &[&[u8]],
    call: &mut CallData,
    told: &mut ToldData,
) -> i32
    requires slot { HoldsFor 4096 (ask usual_limits 0 4096 lookup_of_a) handle.old.value }
    requires one { length lookup.now ≡ 1 }
    requires bytes { segments_of lookup.now ≡ lookup_of_a ∷ [] }
    ensures code { result ≡ is_asked }
    ensures call { IsLookupOfA call.new }
{
    nizwarf_decode_at(alloc, handle, &SESSION, 0, lookup, 4096, call, told)
}

/// Asks any request where locks are offered. Of a GETLK of real bytes the call is told, and the slot has memory for its
/// answer, and for any request with 4096 bytes of room; unless there is no memory, which a slot that has it doesn't lack. Nothing is there to be copied out. A call
/// that is told of a LOOKUP, which is of no row, is that of virtiofsd's table. What a slot has memory for, it has after any
/// request.
fn ask_with_locks(
    alloc: Global,
    handle: &mut Handle,
    request: &[&[u8]],
    call: &mut CallData,
    told: &mut ToldData,
) -> i32
    ensures code { flat_bytes (segments_of request.now) ≡ getlk → (result ≡ is_asked) ⊎ (result ≡ no_memory) }
    ensures call { flat_bytes (segments_of request.now) ≡ getlk → result ≡ is_asked →
        call.new ≡ getlk_asked 0 4096 }
    ensures nothing { flat_bytes (segments_of request.now) ≡ getlk → shown_in handle.new.value ≡ [] }
    ensures kept { flat_bytes (segments_of request.now) ≡ getlk → result ≡ is_asked →
        HoldsAnswer (getlk_asked 0 4096) handle.new.value }
    ensures ready { flat_bytes (segments_of request.now) ≡ getlk → result ≡ is_asked →
        (asks : Ask) → HoldsFor 4096 asks handle.new.value }
    ensures memory { flat_bytes (segments_of request.now) ≡ getlk → length request.now ≤ 4 →
        HoldsAnswer (getlk_asked 0 4096) handle.old.value → result ≢ no_memory }
    ensures keeps { Holds 4096 handle.old.value → Holds 4096 handle.new.value }
    ensures plain { flat_bytes (segments_of request.now) ≡ lookup_of_a → result ≡ is_asked →
        AreOf usual_limits lookup_of_a call.new }
    ensures stays { (asks : Ask) → HoldsFor 4096 asks handle.old.value → HoldsFor 4096 asks handle.new.value }
{
    nizwarf_decode_at(
        alloc,
        handle,
        &SESSION,
        offers::LOCKS,
        request,
        4096,
        call,
        told,
    )
}

/// The same of its bytes in one piece, without a reply.
fn check_getlk(alloc: Global, request: &[u8], call: &mut CallData, interrupts: &mut u64) -> i32
    requires { request.now ≡ getlk }
    ensures code { result ≡ is_asked }
    ensures call { call.new ≡ getlk_asked 0 4096 }
{
    nizwarf_check_at(
        alloc,
        &SESSION,
        offers::LOCKS,
        request,
        4096,
        call,
        interrupts,
    )
}

/// Answers that GETLK by a lock of 25 bytes: it is answered as by EIO, over writers and as is promised. What a slot has
/// memory for, it has afterwards.
fn answer_long_lock(
    alloc: Global,
    handle: &mut Handle,
    call: &CallData,
    a: &AnswerData,
    lock: &[u8],
    told: &mut ToldData,
) -> i32
    requires asked { call.now ≡ getlk_asked 0 4096 }
    requires fine { a.now.error ≡ pos 0 }
    requires lock { length lock.now ≡ 25 }
    ensures writers { (code : ℤ) → result ≡ code →
        AnswersOrNot usual_limits call.now (with_eio a.now) lock.now [] code told.old told.new
        (shown_in handle.new.value) }
    ensures promise { (code : ℤ) → result ≡ code →
        IsAnsweredOrNot usual_limits call.now (with_eio a.now) lock.now [] code told.old told.new
        (shown_in handle.new.value) }
    ensures memory { HoldsAnswer call.now handle.old.value → result ≢ no_memory }
    ensures keeps { Holds 4096 handle.old.value → Holds 4096 handle.new.value }
    ensures stays { (asks : Ask) → HoldsFor 4096 asks handle.old.value → HoldsFor 4096 asks handle.new.value }
{
    nizwarf_encode_at(alloc, handle, &SESSION, call, a, lock, &[], told)
}

/// Sizes of which there is no server: a page of 512 bytes.
const SMALL_PAGES: SessionData = SessionData {
    options: 0,
    page_size: 512,
    max_buffer: 1_048_576,
};

/// Asks any request. One of an opcode that nobody knows is finished, and the reply that is there to be copied out says
/// ENOSYS in sixteen bytes; unless there is no memory. Where there was none, no call is told; a GETATTR in at most four
/// pieces, wherever it is cut, lacks none of a slot that has it. Where the lengths of the pieces sum past the largest
/// count, which alone is told so, nothing is told besides, and nothing is there to be copied out. Where there is a call,
/// that is told so, and nothing besides; and any other request that is asked is a turn without a call, and its reply is
/// there to be copied out.
fn ask_anything(
    alloc: Global,
    handle: &mut Handle,
    request: &[&[u8]],
    call: &mut CallData,
    told: &mut ToldData,
) -> i32
    ensures unknown { flat_bytes (segments_of request.now) ≡ request_of_99 →
        (call.new ≡ nothing) × (((result ≡ ok) × (shown_in handle.new.value ≡ not_served_reply)
        × (told.new.len ≡ 16) × (told.new.put ≡ 16)) ⊎ (result ≡ no_memory)) }
    ensures without_memory { result ≡ no_memory → call.new ≡ nothing }
    ensures memory { HoldsFor 4096 (ask usual_limits 0 4096 (flat_bytes (segments_of request.now)))
        handle.old.value → length request.now ≤ 4 →
        (header_of (flat_bytes (segments_of request.now))).opcode ≡ 3 → result ≢ no_memory }
    ensures long { result ≡ too_long → 2 ^ 64 ≤ length (flat_bytes (segments_of request.now)) }
    ensures no_call { result ≡ too_long → call.new ≡ nothing }
    ensures untold { result ≡ too_long → told.new ≡ told.old }
    ensures nothing { result ≡ too_long → shown_in handle.new.value ≡ [] }
    ensures call { call.new ≢ nothing →
        (result ≡ is_asked) × (told.new ≡ told.old) × (shown_in handle.new.value ≡ []) }
    ensures ended { (code : ℤ) → result ≡ code → code ≢ is_asked → code ≢ no_memory → code ≢ too_long →
        (turn : Turn) × IsTurn usual_limits 0 turn 0
        × (turn.request ≡ flat_bytes (segments_of request.now)) × (length turn.room ≡ 4096)
        × (turn.events ≡ []) × (code ≡ outcome_code turn.outcome)
        × (told.new.len ≡ length_of turn.outcome) × (told.new.put ≡ length_of turn.outcome)
        × (told.new.interrupts ≡ interrupted usual_limits (flat_bytes (segments_of request.now)))
        × (told.new.options ≡ told.old.options)
        × (shown_in handle.new.value ≡ take (length_of turn.outcome) turn.room_after) }
{
    nizwarf_decode_at(alloc, handle, &SESSION, 0, request, 4096, call, told)
}

/// Asks, answers and checks, whatever is offered, under sizes of which there is no server: each time that is told, and all
/// is as it was.
fn nobody_is_there(
    alloc: Global,
    handle: &mut Handle,
    offers: u32,
    request: &[u8],
    call: &mut CallData,
    answer: &AnswerData,
    told: &mut ToldData,
    interrupts: &mut u64,
) -> (i32, i32, i32)
    ensures codes { result ≡ (wrong_size, wrong_size, wrong_size) }
    ensures slot { handle.new.value ≡ handle.old.value }
    ensures call { call.new ≡ call.old }
    ensures told { told.new ≡ told.old }
    ensures interrupts { interrupts.new ≡ interrupts.old }
{
    let pieces = [request];
    let asked = nizwarf_decode_at(
        alloc,
        handle,
        &SMALL_PAGES,
        offers,
        &pieces,
        4096,
        call,
        told,
    );
    let answered = nizwarf_encode_at(alloc, handle, &SMALL_PAGES, call, answer, &[], &[], told);
    let checked = nizwarf_check_at(alloc, &SMALL_PAGES, offers, request, 4096, call, interrupts);
    (asked, answered, checked)
}

/// Checks an INTERRUPT of request 7: it is finished, and this is the request that it means.
fn check_interrupt(alloc: Global, request: &[u8], call: &mut CallData, interrupts: &mut u64) -> i32
    requires { request.now ≡ interrupt_of_7 }
    ensures code { result ≡ ok }
    ensures means { interrupts.new ≡ 7 }
    ensures no_call { call.new ≡ nothing }
{
    nizwarf_check_at(alloc, &SESSION, 0, request, 4096, call, interrupts)
}

/// Answers any call. From an INIT on that was answered these options are agreed on, of those that it offered, and from a
/// DESTROY on none. No more items are in the reply than there are. What is told of an answer is of one outcome, and the
/// reply's bytes that are put are there to be copied out; of data that suffice for no request nothing is told, and those that
/// tell a request suffice, also if their name and their second offset were changed. Where there is no memory for the answer
/// to a request, an entry is to be given back, and nothing else is told. A GETATTR that is answered by an error is a turn in
/// which the file system answered that error; and of a directory that is, no item is in the reply.
fn answer_anything(
    alloc: Global,
    handle: &mut Handle,
    call: &CallData,
    answer: &AnswerData,
    items: &[ItemData<'_>],
    told: &mut ToldData,
) -> i32
    ensures agreed { IsCallOf numbers.INIT kinds.INIT call.now → answer.now.error ≡ pos 0 → result ≡ ok →
        told.new.options ≡ agreed call.now.length (bit_and answer.now.count known_fs_options) }
    ensures none { IsCallOf numbers.DESTROY kinds.NONE call.now → result ≡ ok → told.new.options ≡ 0 }
    ensures few { result ≡ ok → told.new.taken ≤ length items.now }
    ensures told { (code : ℤ) → result ≡ code → code ≢ no_memory → code ≢ not_asked →
        (outcome : Result ℕ Error) × (room_after : List ℕ) × (code ≡ outcome_code outcome)
        × (told.new.len ≡ length_of outcome) × (told.new.put ≡ put_of call.now (length_of outcome))
        × (told.new.interrupts ≡ told.old.interrupts)
        × (shown_in handle.new.value ≡ take (put_of call.now (length_of outcome)) room_after) }
    ensures untold { result ≡ not_asked → told.new ≡ told.old }
    ensures nothing { result ≡ not_asked → shown_in handle.new.value ≡ [] }
    ensures of_none { result ≡ not_asked → (request : List ℕ) → Suffice usual_limits request call.now → ⊥ }
    ensures changed { (request : List ℕ) (asked : CallData) (name : Range) (other_offset : ℕ) →
        AreOf usual_limits request asked →
        call.now ≡ record asked { name = name; other_offset = other_offset } → result ≢ not_asked }
    ensures lacking { result ≡ no_memory → (request : List ℕ) → Suffice usual_limits request call.now →
        (told.new ≡ record told.old { give_back = entry_of call.now answer.now; taken = 0 })
        × (shown_in handle.new.value ≡ []) }
    ensures failed { (code : ℤ) → result ≡ code → code ≢ no_memory → code ≢ not_asked →
        (request : List ℕ) (echo : Echo) (ctx : Context) (inode : ℕ) (handle : Option ℕ) →
        Suffice usual_limits request call.now →
        ask usual_limits call.now.options call.now.room request ≡ Asks echo (Getattr ctx inode handle) →
        answer.now.error ≢ pos 0 →
        (turn : Turn) × (fault : Option ℕ) × IsTurn usual_limits call.now.options turn told.new.options
        × (turn.request ≡ request) × IsFailed answer.now fault
        × (turn.events ≡ Called (Getattr ctx inode handle) (Failed fault)
        ∷ given_back echo.ctx (if told.new.give_back == 0 then None else Some told.new.give_back))
        × (told.new.taken ≡ 0) }
    ensures unread { (code : ℤ) → result ≡ code → code ≢ no_memory → code ≢ not_asked →
        (request : List ℕ) (echo : Echo) (l : Listing) → Suffice usual_limits request call.now →
        ask usual_limits call.now.options call.now.room request ≡ Lists echo l →
        answer.now.error ≢ pos 0 → (told.new.taken ≡ 0) × (told.new.give_back ≡ 0) }
{
    nizwarf_encode_at(alloc, handle, &SESSION, call, answer, &[], items, told)
}

/// Checks a LOOKUP of the name `a`: it is whole, and its call is told, whether or not there is memory.
fn check_lookup(alloc: Global, lookup: &[u8], call: &mut CallData, interrupts: &mut u64) -> i32
    requires { lookup.now ≡ lookup_of_a }
    ensures code { result ≡ is_asked }
    ensures call { IsLookupOfA call.new }
{
    nizwarf_check_at(alloc, &SESSION, 0, lookup, 4096, call, interrupts)
}

/// Prints a request of no bytes into memory that its line just fits.
fn print_nothing(text: &mut [u8]) -> usize
    requires { length text.old ≡ 22 }
    ensures len { result ≡ 21 }
    ensures line { text.new ≡ codes "refused=DecodeMessage" ++ 0 ∷ [] }
{
    nizwarf_print_request_at(&[], 0, text)
}
