//! Encoding the answer to a call.

ghost use Rattle.std.specs.Prelude.{◌≡◌, ◌≢◌, MatchOption};
ghost use Rattle.vfs_grammar.specs.Limits.{AreLimits};
ghost use Rattle.codec_encode.specs.Fitting.{answer_offered};
ghost use Rattle.c_rooms.specs.Codes.{no_memory};
ghost use Rattle.nizwarf_codec.specs.Answering.{AnswersOrNot, entry_of};
ghost use Rattle.nizwarf_codec.specs.Kept.{KeepsRooms, put_of};
ghost use Rattle.nizwarf_codec.specs.Rooms.{HasRoomFor};
ghost use Rattle.nizwarf_codec.specs.Shown.{bytes_shown};

use crate::ask::number_and_length;
use crate::data::ToldData;
use crate::memory::Memory;
use c_rooms::codes::{NOT_ASKED, OUT_OF_MEMORY};
use codec_calls::{AnswerData, CallData, ItemData, kind};
use codec_encode::{EIO, answer as put_answer, is_unfit};
use std::alloc::Global;
use vfs_grammar::Limits;

/// The bytes of the header of a reply.
pub const HEADER_SIZE: usize = 16;

/// Of that many bytes those that are put: all, but of a READ the header's at most.
pub fn put_of(call: &CallData, len: usize) -> usize
    ensures { result ≡ put_of call.now len }
{
    if call.answer == kind::DATA {
        len.min(HEADER_SIZE)
    } else {
        len
    }
}

/// The node of the entry that was answered, and 0 where there is none.
pub fn entry_of(call: &CallData, answer: &AnswerData) -> u64
    ensures { result ≡ entry_of call.now answer.now }
{
    if (call.answer == kind::ENTRY || call.answer == kind::CREATE) && answer.error == 0 {
        answer.entry.node
    } else {
        0
    }
}

/// EIO in the place of a text that the call can't have, where the answer is such a text.
#[inline(always)]
pub fn unfit_answer(call: &CallData, answer: &AnswerData, text: &[u8]) -> Option<AnswerData>
    ensures { MatchOption result (answer_offered call.now answer.now text.now ≡ answer.now)
        (λ it. it ≡ answer_offered call.now answer.now text.now) }
{
    if is_unfit(call, answer, text) {
        Some(AnswerData {
            error: EIO,
            ..*answer
        })
    } else {
        None
    }
}

/// The answer that stands in the place of another, if one does.
#[inline(always)]
pub fn in_place<'a>(unfit: &'a Option<AnswerData>, answer: &'a AnswerData) -> &'a AnswerData
    ensures { MatchOption unfit.now (result.now ≡ answer.now) (λ it. result.now ≡ it) }
{
    match unfit {
        Some(it) => it,
        None => answer,
    }
}

/// Answers a call: the code of what came of it.
pub fn answer_call(
    alloc: Global,
    memory: &mut Memory,
    limits: Limits,
    call: &CallData,
    answer: &AnswerData,
    text: &[u8],
    items: &[ItemData<'_>],
    told: &mut ToldData,
) -> i32
    requires { AreLimits limits }
    ensures answered { AnswersOrNot limits call.now answer.now text.now items.now
        result told.old told.new (bytes_shown memory.new) }
    ensures memory { HasRoomFor (put_of call.now call.now.room) memory.old.answers → result ≢ no_memory }
    ensures keeps { KeepsRooms memory.old.answers memory.new.answers }
{
    let room = put_of(call, call.room as usize);
    if !memory.begin_answer(alloc, room) {
        told.give_back = entry_of(call, answer);
        told.taken = 0;
        return OUT_OF_MEMORY;
    }
    match put_answer(
        limits,
        call,
        answer,
        text,
        items,
        &mut memory.answers.writer,
    ) {
        None => NOT_ASKED,
        Some(came) => {
            let (code, len) = number_and_length(&came.outcome);
            let put = put_of(call, len);
            memory.shown = put;
            told.len = len as u64;
            told.put = put as u64;
            told.options = came.options;
            told.give_back = came.given;
            told.taken = came.taken as u64;
            code
        }
    }
}
