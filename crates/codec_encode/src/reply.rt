//! The reply to each kind of answer.

ghost use Rattle.std.specs.Prelude.{◌≡◌, ◌≤◌, ◌<◌, ◌-◌, ◌^◌, ◌+◌, length, if◌then◌else◌, is_err, IfOk, MatchResult, Ok};
ghost use Rattle.vfs_wire.specs.Fields.{bytes_of};
ghost use Rattle.vfs_wire.specs.Records.{out_header};
ghost use Rattle.vfs_segments.specs.Written.{wrote};
ghost use Rattle.vfs_files.specs.Answers.{IsFault, KeepsTextShort, Quiet, Told, Untold, Agreements, Entries, TimedAttributes, Openings, Creations, Capacities, Texts, TextsOrCounts, Offsets, Writes, Faults, Done, Failed, Text, Count, init_answer, done_answer, entry_answer, attr_answer, opened_answer, created_answer, statistics_answer, offset_answer, written_answer};
ghost use Rattle.vfs_grammar.specs.Limits.{AreLimits};
ghost use Rattle.vfs_grammar.specs.Reply.{Bytes, fault_reply};
ghost use Rattle.vfs_grammar.specs.Words.{reply_to};
ghost use Rattle.vfs_grammar.specs.declared.limits.Limits.{Limits};
ghost use Rattle.vfs_messages.specs.Rooms.{Replies, data_header};
ghost use Rattle.codec_encode.specs.Said.{text_said, value_said};
ghost use Rattle.codec_encode.specs.Answering.{Comes};

use crate::answered::Answered;
use bitflags::Flags;
use codec_calls::{CallData, number};
use std::time::Duration;
use vfs_files::Entry;
use vfs_flags::{Fault, FsOptions, OpenOptions};
use vfs_grammar::{Limits, Result};
use vfs_messages::{
    agreed_options, reply_attr, reply_created, reply_done, reply_entry, reply_failed, reply_fault,
    reply_fault_alone, reply_init, reply_offset, reply_ok, reply_opened, reply_record,
    reply_statistics, reply_written,
};
use vfs_segments::Writer;
use vfs_wire::{Attr, ByteValued, OutHeader, Statvfs64};
use vfs_wire_more::GetxattrOut;

type FsResult<T> = std::result::Result<T, Fault>;

/// Nothing is replied. DESTROY leaves no options.
pub(crate) fn put_nothing(call: &CallData, w: &mut Writer) -> Answered
    ensures { (limits : Limits) → Comes limits call.now Quiet Done w.old result w.new }
{
    let options = if call.call == number::DESTROY {
        0
    } else {
        call.options
    };
    Answered {
        options,
        ..Answered::plain(call, Ok(0))
    }
}

/// Replies that a call was done, or the fault.
pub(crate) fn put_done(call: &CallData, said: FsResult<()>, w: &mut Writer) -> Answered
    ensures { (limits : Limits) → Comes limits call.now Told (done_answer said) w.old result w.new }
{
    Answered::plain(call, reply_done(said, call.unique, w))
}

/// Replies the fault, if there is one.
pub(crate) fn put_fault(call: &CallData, said: FsResult<()>, w: &mut Writer) -> Answered
    ensures { (limits : Limits) →
        Comes limits call.now Untold (done_answer said) w.old result w.new }
{
    Answered::plain(call, reply_fault(said, call.unique, w))
}

/// Replies the fault.
pub(crate) fn put_fault_alone(call: &CallData, fault: Fault, w: &mut Writer) -> Answered
    ensures { (limits : Limits) → Comes limits call.now Faults (Failed fault) w.old result w.new }
{
    Answered::plain(call, reply_fault_alone(fault, call.unique, w))
}

/// Replies the options that are agreed on, or the fault.
pub(crate) fn put_agreed(
    limits: Limits,
    call: &CallData,
    want: FsResult<FsOptions>,
    w: &mut Writer,
) -> Answered
    requires { AreLimits limits }
    ensures { Comes limits call.now Agreements (init_answer want) w.old result w.new }
{
    let offered = FsOptions::from_bits_retain(call.length);
    let options = agreed_options(&want, offered, FsOptions::from_bits_retain(call.options));
    let outcome = reply_init(want, options, limits, call.readahead, call.unique, w);
    Answered {
        options: options.bits(),
        ..Answered::plain(call, outcome)
    }
}

/// The node of an entry whose reply was refused for want of room, and else 0.
fn given(outcome: &Result<usize>, node: u64) -> u64
    ensures { result ≡ (if is_err outcome.now then node else 0) }
{
    if outcome.is_err() { node } else { 0 }
}

/// Replies an entry, or the fault. An entry whose reply doesn't fit is to be given back.
#[inline(always)]
pub(crate) fn put_entry(call: &CallData, said: FsResult<Entry>, w: &mut Writer) -> Answered
    ensures { (limits : Limits) →
        Comes limits call.now Entries (entry_answer said) w.old result w.new }
{
    let node = match &said {
        Ok(entry) => entry.inode,
        Err(_) => 0,
    };
    let outcome = reply_entry(said, call.unique, w);
    Answered {
        given: given(&outcome, node),
        ..Answered::plain(call, outcome)
    }
}

/// Replies an entry and what was opened with it, or the fault. An entry whose reply doesn't fit is
/// to be given back, and what was opened stays open.
pub(crate) fn put_created(
    call: &CallData,
    said: FsResult<(Entry, Option<u64>, OpenOptions)>,
    w: &mut Writer,
) -> Answered
    ensures { (limits : Limits) →
        Comes limits call.now Creations (created_answer (λ h. h) said) w.old result w.new }
{
    let node = match &said {
        Ok((entry, _, _)) => entry.inode,
        Err(_) => 0,
    };
    let outcome = reply_created::<u64>(said, call.unique, w);
    Answered {
        given: given(&outcome, node),
        ..Answered::plain(call, outcome)
    }
}

/// Replies attributes and how long they hold, or the fault.
#[inline(always)]
pub(crate) fn put_attributes(
    call: &CallData,
    said: FsResult<(Attr, Duration)>,
    w: &mut Writer,
) -> Answered
    ensures { (limits : Limits) →
        Comes limits call.now TimedAttributes (attr_answer said) w.old result w.new }
{
    Answered::plain(call, reply_attr(said, call.unique, w))
}

/// Replies what was opened, or the fault.
pub(crate) fn put_opened(
    call: &CallData,
    said: FsResult<(Option<u64>, OpenOptions)>,
    w: &mut Writer,
) -> Answered
    ensures { (limits : Limits) →
        Comes limits call.now Openings (opened_answer (λ h. h) said) w.old result w.new }
{
    Answered::plain(call, reply_opened::<u64>(said, call.unique, w))
}

/// Replies what the file system holds, or the fault.
pub(crate) fn put_statistics(call: &CallData, said: FsResult<Statvfs64>, w: &mut Writer) -> Answered
    ensures { (limits : Limits) →
        Comes limits call.now Capacities (statistics_answer said) w.old result w.new }
{
    Answered::plain(call, reply_statistics(said, call.unique, w))
}

/// Replies a text that leaves room for a header in 32 bits.
fn reply_short(text: &[u8], unique: u64, w: &mut Writer) -> Result<usize>
    requires { length text.now < 2 ^ 32 - 16 }
    ensures { Replies (reply_to unique Texts (Text text.now)) w.old result w.new }
{
    reply_ok::<u8>(None, Some(text), unique, w)
}

/// Replies the text, or the fault.
pub(crate) fn put_text(call: &CallData, said: FsResult<()>, text: &[u8], w: &mut Writer) -> Answered
    requires { KeepsTextShort (text_said said text.now) }
    ensures { (limits : Limits) →
        Comes limits call.now Texts (text_said said text.now) w.old result w.new }
{
    let outcome = match said {
        Ok(()) => reply_short(text, call.unique, w),
        Err(fault) => reply_failed(fault, call.unique, w),
    };
    Answered::plain(call, outcome)
}

/// Replies how many bytes extended attributes have.
fn reply_count(count: u32, unique: u64, w: &mut Writer) -> Result<usize>
    ensures { Replies (reply_to unique TextsOrCounts (Count count)) w.old result w.new }
{
    let out = GetxattrOut {
        size: count,
        padding: 0,
    };
    reply_record(out, unique, w)
}

/// Replies the text, or how many bytes it has, or the fault.
pub(crate) fn put_value(
    call: &CallData,
    said: FsResult<Option<u32>>,
    text: &[u8],
    w: &mut Writer,
) -> Answered
    requires { KeepsTextShort (value_said said text.now) }
    ensures { (limits : Limits) →
        Comes limits call.now TextsOrCounts (value_said said text.now) w.old result w.new }
{
    let outcome = match said {
        Ok(None) => reply_short(text, call.unique, w),
        Ok(Some(count)) => reply_count(count, call.unique, w),
        Err(fault) => reply_failed(fault, call.unique, w),
    };
    Answered::plain(call, outcome)
}

/// Replies a place in a file, or the fault.
pub(crate) fn put_offset(call: &CallData, said: FsResult<u64>, w: &mut Writer) -> Answered
    ensures { (limits : Limits) →
        Comes limits call.now Offsets (offset_answer said) w.old result w.new }
{
    Answered::plain(call, reply_offset(said, call.unique, w))
}

/// Replies how many bytes were written, or the fault.
pub(crate) fn put_written(call: &CallData, said: FsResult<u32>, w: &mut Writer) -> Answered
    ensures { (limits : Limits) →
        Comes limits call.now Writes (written_answer said) w.old result w.new }
{
    Answered::plain(call, reply_written(said, call.unique, w))
}

/// Puts the header of a reply with that many bytes of data, which come after its place already.
fn put_header(count: u32, unique: u64, w: &mut Writer) -> Result<usize>
    requires short { count < 2 ^ 32 - 16 }
    requires room { 16 ≤ length w.old.left }
    ensures outcome { result ≡ Ok (16 + count) }
    ensures header { w.new ≡ wrote w.old (bytes_of out_header (data_header (Ok count) unique)) }
{
    let header = OutHeader {
        len: OutHeader::SIZE as u32 + count,
        error: 0,
        unique,
    };
    let _ = w.write_obj(header);
    Ok(OutHeader::SIZE + count as usize)
}

/// Replies that many bytes of data, which come after the place of their header already, or the
/// fault. The header alone is put.
pub(crate) fn put_data(call: &CallData, said: FsResult<u32>, w: &mut Writer) -> Answered
    requires short { IfOk said (λ count. count < 2 ^ 32 - 16) }
    requires room { 16 ≤ length w.old.left }
    ensures plain { result ≡ record {
      outcome = result.outcome;
      options = call.now.options;
      given = 0;
      taken = 0;
    } }
    ensures put { MatchResult said
        (λ count. (result.outcome ≡ Ok (16 + count))
        × (w.new ≡ wrote w.old (bytes_of out_header (data_header (Ok count) call.now.unique))))
        (λ fault. IsFault fault
        × Replies (Bytes (fault_reply fault call.now.unique)) w.old result.outcome w.new) }
{
    match said {
        Ok(count) => Answered::plain(call, put_header(count, call.unique, w)),
        Err(fault) => Answered::plain(call, reply_failed(fault, call.unique, w)),
    }
}
