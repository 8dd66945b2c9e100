//! The answer to a call, by its kind.

ghost use Rattle.std.specs.Prelude.{◌≡◌, ◌≢◌, ◌==◌, ◌<◌, ◌≤◌, ◌-◌, ◌^◌, ℕ, List, length, IfOk, IfSome, Some};
ghost use Rattle.vfs_segments.specs.Written.{Written};
ghost use Rattle.vfs_files.specs.Answers.{Counts, Data, Entries, IsAnswer, Iterators, TimedAttributes, read_answer};
ghost use Rattle.vfs_messages.specs.Rooms.{PutsAfterHeader, Replies};
ghost use Rattle.vfs_grammar.specs.Words.{reply_to};
ghost use Rattle.vfs_grammar.specs.Limits.{AreLimits};
ghost use Rattle.vfs_grammar.specs.declared.limits.Limits.{Limits};
ghost use Rattle.codec_encode.specs.Kinds.{kind_told};
ghost use Rattle.codec_encode.specs.Answering.{can_answer, Answers, AnswersCall, AnswersDirectory, IsAnswered};
ghost use Rattle.codec_encode.specs.Listing.{listing_told};
ghost use Rattle.codec_encode.specs.Offered.{ListsOffered};
ghost use Rattle.codec_encode.specs.Told.{AnswersEachCall, AnswersEachListing};

use crate::answered::Answered;
use crate::listing::{Listed, has_left, put_items};
use crate::reply::{
    put_agreed, put_attributes, put_created, put_data, put_done, put_entry, put_fault,
    put_fault_alone, put_nothing, put_offset, put_opened, put_statistics, put_text, put_value,
    put_written,
};
use crate::value;
use codec_calls::{AnswerData, CallData, ItemData, has, kind};
use vfs_flags::MAX_REPLY_DATA;
use vfs_grammar::Limits;
use vfs_messages::{hold_header, reply_data};
use vfs_segments::Writer;
use vfs_wire::{AttrOut, ByteValued, EntryOut, OutHeader};

/// Whether that many bytes are left, and the first segment has them all. No promise rests on it: what is put is
/// the same.
#[inline(always)]
fn fits_in_one(w: &Writer, len: usize) -> bool {
    len <= w.available_bytes() && has_left(w, len)
}

/// Answers an entry, wherever the segments are cut.
#[inline(always)]
fn entry_here(call: &CallData, answer: &AnswerData, w: &mut Writer) -> Answered
    ensures { (limits : Limits) (text : List ℕ) →
        IsAnswered limits call.now Entries answer.now text w.old result w.new }
{
    put_entry(call, value::entry(answer), w)
}

/// The same, over a cut.
#[cold]
#[inline(never)]
fn entry_apart(call: &CallData, answer: &AnswerData, w: &mut Writer) -> Answered
    ensures { (limits : Limits) (text : List ℕ) →
        IsAnswered limits call.now Entries answer.now text w.old result w.new }
{
    entry_here(call, answer, w)
}

/// Answers an entry. As of an item of a directory, what puts it into one segment is spelled right from the
/// answer, and is apart from what puts together in memory what is cut.
#[inline(always)]
fn answer_entry(call: &CallData, answer: &AnswerData, w: &mut Writer) -> Answered
    ensures { (limits : Limits) (text : List ℕ) →
        IsAnswered limits call.now Entries answer.now text w.old result w.new }
{
    if fits_in_one(w, OutHeader::SIZE + EntryOut::SIZE) {
        entry_here(call, answer, w)
    } else {
        entry_apart(call, answer, w)
    }
}

/// Answers attributes, wherever the segments are cut.
#[inline(always)]
fn attributes_here(call: &CallData, answer: &AnswerData, w: &mut Writer) -> Answered
    ensures { (limits : Limits) (text : List ℕ) →
        IsAnswered limits call.now TimedAttributes answer.now text w.old result w.new }
{
    put_attributes(call, value::attributes(answer), w)
}

/// The same, over a cut.
#[cold]
#[inline(never)]
fn attributes_apart(call: &CallData, answer: &AnswerData, w: &mut Writer) -> Answered
    ensures { (limits : Limits) (text : List ℕ) →
        IsAnswered limits call.now TimedAttributes answer.now text w.old result w.new }
{
    attributes_here(call, answer, w)
}

/// Answers attributes. As of an item of a directory, what puts them into one segment is spelled right from the
/// answer, and is apart from what puts together in memory what is cut.
#[inline(always)]
fn answer_attributes(call: &CallData, answer: &AnswerData, w: &mut Writer) -> Answered
    ensures { (limits : Limits) (text : List ℕ) →
        IsAnswered limits call.now TimedAttributes answer.now text w.old result w.new }
{
    if fits_in_one(w, OutHeader::SIZE + AttrOut::SIZE) {
        attributes_here(call, answer, w)
    } else {
        attributes_apart(call, answer, w)
    }
}

/// Answers a call of any kind but READ and READDIR, in the room that was told.
fn answer_told(
    limits: Limits,
    call: &CallData,
    answer: &AnswerData,
    text: &[u8],
    w: &mut Writer,
) -> Option<Answered>
    requires limits { AreLimits limits }
    requires room { length w.old.left ≡ call.now.room }
    requires no_data { call.now.answer ≢ 3 }
    requires no_directory { call.now.answer ≢ 14 }
    ensures answers { AnswersCall limits (kind_told call.now.answer call.now.size) call.now
        answer.now text.now w.old result w.new }
    ensures none_taken { IfSome result (λ came. came.taken ≡ 0) }
{
    match call.answer {
        kind::NONE => Some(put_nothing(call, w)),
        kind::STATUS => Some(put_done(call, value::done(answer), w)),
        kind::ERROR_OR_NONE => Some(put_fault(call, value::done(answer), w)),
        kind::INIT => Some(put_agreed(limits, call, value::want(answer), w)),
        kind::ENTRY => Some(answer_entry(call, answer, w)),
        kind::ATTR => Some(answer_attributes(call, answer, w)),
        kind::OPEN => Some(put_opened(call, value::opened(answer), w)),
        kind::CREATE => Some(put_created(call, value::created(answer), w)),
        kind::STATFS => Some(put_statistics(call, value::statistics(answer), w)),
        kind::BYTES => Some(put_text(call, value::text(answer, text), text, w)),
        kind::BYTES_OR_SIZE => Some(put_value(call, value::value(answer, text), text, w)),
        kind::OFFSET => Some(put_offset(call, value::offset(answer), w)),
        kind::COUNT => Some(put_written(call, value::written(answer), w)),
        kind::ERROR => Some(put_fault_alone(call, value::fault(answer), w)),
        _ => None,
    }
}

/// Answers a READ, whose data come after the place of the reply's header: that alone is put.
fn answer_read(call: &CallData, answer: &AnswerData, w: &mut Writer) -> Option<Answered>
    ensures answers { (limits : Limits) (text : List ℕ) →
        AnswersCall limits (Some (Data call.now.size)) call.now answer.now text w.old result w.new }
    ensures none_taken { IfSome result (λ came. came.taken ≡ 0) }
{
    let room = w.available_bytes();
    if room < OutHeader::SIZE || room as u64 > call.room {
        return None;
    }
    Some(put_data(call, value::data(call, answer), w))
}

/// Whether the call is a READDIRPLUS.
fn is_plus(call: &CallData) -> bool
    ensures { result ≡ (listing_told call.now).plus }
{
    call.has & has::PLUS != 0
}

/// Puts the records of the items that were offered, or answers the fault.
fn list(call: &CallData, answer: &AnswerData, items: &[ItemData<'_>], w: &mut Writer) -> Listed
    ensures lists { ListsOffered (listing_told call.now).plus call.now.size answer.now items.now
        w.old result.answer result.taken w.new }
    ensures within { result.taken ≤ length items.now }
{
    match value::done(answer) {
        Ok(()) => put_items(items, is_plus(call), call.size as usize, w),
        Err(fault) => Listed::failed(fault),
    }
}

/// Whether a READDIR or READDIRPLUS can be answered in this room.
fn can_list(call: &CallData, room: usize) -> bool
    ensures { result ≡ can_answer (Some Iterators) call.now room }
{
    room as u64 == call.room && room >= OutHeader::SIZE && call.size <= MAX_REPLY_DATA
}

/// Fills in the header of what was put of a directory.
fn answer_listed(call: &CallData, listed: Listed, w: &mut Writer) -> Answered
    requires held { w.old.held ≡ 16 }
    requires short { IfOk listed.answer (λ count. count < 2 ^ 32 - 16) }
    ensures replied { (old : Written) (bytes : List ℕ) (size : ℕ) →
        PutsAfterHeader old bytes w.old → Counts listed.answer bytes size →
        Replies (reply_to call.now.unique (Data size) (read_answer listed.answer bytes))
        old result.outcome w.new }
    ensures kind { (bytes : List ℕ) (size : ℕ) → Counts listed.answer bytes size →
        IsAnswer (Data size) (read_answer listed.answer bytes) }
    ensures options { result.options ≡ call.now.options }
    ensures given { result.given ≡ 0 }
    ensures taken { result.taken ≡ listed.taken }
{
    let outcome = reply_data(listed.answer, call.unique, w);
    Answered {
        taken: listed.taken,
        ..Answered::plain(call, outcome)
    }
}

/// Answers a READDIR or READDIRPLUS of the items that were offered.
fn answer_directory(
    call: &CallData,
    answer: &AnswerData,
    items: &[ItemData<'_>],
    w: &mut Writer,
) -> Option<Answered>
    ensures answers { AnswersDirectory call.now answer.now items.now w.old result w.new }
    ensures within { IfSome result (λ came. came.taken ≤ length items.now) }
{
    if !can_list(call, w.available_bytes()) {
        return None;
    }
    match hold_header(w) {
        Ok(()) => Some(answer_listed(call, list(call, answer, items, w), w)),
        Err(_) => None,
    }
}

/// Answers a call by its kind.
fn answer_kind(
    limits: Limits,
    call: &CallData,
    answer: &AnswerData,
    text: &[u8],
    items: &[ItemData<'_>],
    w: &mut Writer,
) -> Option<Answered>
    requires { AreLimits limits }
    ensures answers { Answers limits (kind_told call.now.answer call.now.size) call.now answer.now
        text.now items.now w.old result w.new }
    ensures within { IfSome result (λ came. came.taken ≤ length items.now) }
{
    match call.answer {
        kind::DATA => answer_read(call, answer, w),
        kind::DIRECTORY => answer_directory(call, answer, items, w),
        _ if w.available_bytes() as u64 == call.room => {
            answer_told(limits, call, answer, text, w)
        }
        _ => None,
    }
}

/// Answers a call: puts the reply into the room that `w` has left. Of a READ the header alone is
/// put, and what comes after it is not touched: there the data are.
///
/// `text` is the text of a link, the value of an extended attribute, or the names of all, where the
/// answer is one. `items` are those of a directory from the offset that was asked for, one after
/// another, up to the first whose name is none.
///
/// What can't be is EIO: more data of a READ than its size or its room, a count of 2^32 or more, a
/// TMPFILE that succeeds. A text whose reply would have 2^32 bytes or more is ERANGE.
///
/// None where `call` can't be answered in this room: its kind is none, or the room is another than
/// that of the call. Then nothing is put. The room of a READ may be shorter, but not than a header.
pub fn answer(
    limits: Limits,
    call: &CallData,
    answer: &AnswerData,
    text: &[u8],
    items: &[ItemData<'_>],
    w: &mut Writer,
) -> Option<Answered>
    requires { AreLimits limits }
    ensures by_kind { Answers limits (kind_told call.now.answer call.now.size) call.now answer.now
        text.now items.now w.old result w.new }
    ensures calls { AnswersEachCall limits call.now answer.now text.now w.old result w.new }
    ensures listings { AnswersEachListing limits call.now answer.now items.now w.old result w.new }
    ensures within { IfSome result (λ came. came.taken ≤ length items.now) }
{
    answer_kind(limits, call, answer, text, items, w)
}
