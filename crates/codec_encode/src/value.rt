//! The answer of a call, as its kind has it, from an answer as data.

ghost use Rattle.std.specs.Prelude.{◌≡◌, ◌<◌, ◌-◌, ◌^◌, ◌+◌, ℕ, List, pos, length, take, drop, bit_and, IfOk, MatchResult};
ghost use Rattle.vfs_flags.specs.Numbers.{eio};
ghost use Rattle.vfs_flags.specs.Flags.{fs_options_bits, open_options_bits, known_fs_options, known_open_options};
ghost use Rattle.vfs_files.specs.Answers.{Told, Untold, Entries, TimedAttributes, Openings, Creations, Capacities, Offsets, Writes, Agreements, Texts, TextsOrCounts, Data, Faults, Failed, KeepsTextShort, read_answer, init_answer, done_answer, entry_answer, attr_answer, opened_answer, created_answer, statistics_answer, offset_answer, written_answer};
ghost use Rattle.codec_calls.specs.Values.{handle_of};
ghost use Rattle.codec_encode.specs.Said.{CanBeRead, IsFailed, IsSaid, IsTooLong, IsTooMuch, IsUncounted, text_said, value_said};

use bitflags::Flags;
use codec_calls::{AnswerData, CallData, fault_of};
use std::time::Duration;
use vfs_files::Entry;
use vfs_flags::{Errno, Fault, FsOptions, MAX_REPLY_DATA, OpenOptions};
use vfs_wire::{Attr, ByteValued, OutHeader, Statvfs64};

/// The fault that was answered, if one was.
pub(crate) fn done(answer: &AnswerData) -> Result<(), Fault>
    ensures failed { MatchResult result
        (λ _. answer.now.error ≡ pos 0)
        (λ fault. IsFailed answer.now fault) }
    ensures told { (text room : List ℕ) → IsSaid answer.now text room Told (done_answer result) }
    ensures untold { (text room : List ℕ) →
        IsSaid answer.now text room Untold (done_answer result) }
{
    match answer.error {
        0 => Ok(()),
        error => Err(fault_of(error)),
    }
}

/// The fault of a call that has no other answer: EIO where none was answered.
pub(crate) fn fault(answer: &AnswerData) -> Fault
    ensures { (text room : List ℕ) → IsSaid answer.now text room Faults (Failed result) }
{
    match done(answer) {
        Ok(()) => Some(Errno::EIO),
        Err(fault) => fault,
    }
}

/// The options that are wanted.
#[tactic(auto, unfolding(bitflags::proofs::OnLiterals::bitflags_on_literals))]
fn options(answer: &AnswerData) -> FsOptions
    ensures { fs_options_bits result ≡ bit_and answer.now.count known_fs_options }
{
    FsOptions::from_bits_truncate(answer.count)
}

/// The options that are wanted, or the fault.
pub(crate) fn want(answer: &AnswerData) -> Result<FsOptions, Fault>
    ensures { (text room : List ℕ) → IsSaid answer.now text room Agreements (init_answer result) }
{
    done(answer)?;
    Ok(options(answer))
}

/// The entry, or the fault.
#[inline(always)]
pub(crate) fn entry(answer: &AnswerData) -> Result<Entry, Fault>
    ensures { (text room : List ℕ) → IsSaid answer.now text room Entries (entry_answer result) }
{
    done(answer)?;
    Ok(answer.entry.entry())
}

/// The attributes and how long they hold, or the fault.
#[inline(always)]
pub(crate) fn attributes(answer: &AnswerData) -> Result<(Attr, Duration), Fault>
    ensures { (text room : List ℕ) →
        IsSaid answer.now text room TimedAttributes (attr_answer result) }
{
    done(answer)?;
    Ok((answer.entry.attr.attr(), answer.entry.attr_timeout()))
}

/// The handle, where there is one.
fn handle(answer: &AnswerData) -> Option<u64>
    ensures { result ≡ handle_of answer.now }
{
    if answer.has_handle != 0 {
        Some(answer.handle)
    } else {
        None
    }
}

/// How what was opened is to be used.
#[tactic(auto, unfolding(bitflags::proofs::OnLiterals::bitflags_on_literals))]
fn open_options(answer: &AnswerData) -> OpenOptions
    ensures { open_options_bits result ≡ bit_and answer.now.open_flags known_open_options }
{
    OpenOptions::from_bits_truncate(answer.open_flags)
}

/// What was opened, or the fault.
pub(crate) fn opened(answer: &AnswerData) -> Result<(Option<u64>, OpenOptions), Fault>
    ensures { (text room : List ℕ) →
        IsSaid answer.now text room Openings (opened_answer (λ h. h) result) }
{
    done(answer)?;
    Ok((handle(answer), open_options(answer)))
}

/// An entry and what was opened with it, or the fault.
pub(crate) fn created(answer: &AnswerData) -> Result<(Entry, Option<u64>, OpenOptions), Fault>
    ensures { (text room : List ℕ) →
        IsSaid answer.now text room Creations (created_answer (λ h. h) result) }
{
    done(answer)?;
    Ok((answer.entry.entry(), handle(answer), open_options(answer)))
}

/// What the file system holds, or the fault.
pub(crate) fn statistics(answer: &AnswerData) -> Result<Statvfs64, Fault>
    ensures { (text room : List ℕ) →
        IsSaid answer.now text room Capacities (statistics_answer result) }
{
    done(answer)?;
    Ok(answer.statfs.statistics())
}

/// The place in a file, or the fault.
pub(crate) fn offset(answer: &AnswerData) -> Result<u64, Fault>
    ensures { (text room : List ℕ) → IsSaid answer.now text room Offsets (offset_answer result) }
{
    done(answer)?;
    Ok(answer.count)
}

/// The count, where it has a place in a reply, and else EIO.
pub(crate) fn count(answer: &AnswerData) -> Result<u32, Fault>
    ensures { MatchResult result
        (λ count. count ≡ answer.now.count)
        (λ fault. IsUncounted answer.now fault) }
{
    match u32::try_from(answer.count) {
        Ok(count) => Ok(count),
        Err(_) => Err(Some(Errno::EIO)),
    }
}

/// How many bytes were written, or the fault.
pub(crate) fn written(answer: &AnswerData) -> Result<u32, Fault>
    ensures { (text room : List ℕ) → IsSaid answer.now text room Writes (written_answer result) }
{
    done(answer)?;
    count(answer)
}

/// That this text is short enough for a reply, or ERANGE.
fn short(text: &[u8]) -> Result<(), Fault>
    ensures short { IfOk result (λ _. length text.now < 2 ^ 32 - 16) }
    ensures long { MatchResult result (λ _. length text.now < 2 ^ 32 - 16)
        (λ fault. IsTooLong text.now fault) }
{
    if text.len() > MAX_REPLY_DATA as usize {
        return Err(Some(Errno::ERANGE));
    }
    Ok(())
}

/// That the text beside is the answer, or the fault.
pub(crate) fn text(answer: &AnswerData, text: &[u8]) -> Result<(), Fault>
    ensures short { KeepsTextShort (text_said result text.now) }
    ensures said { (room : List ℕ) →
        IsSaid answer.now text.now room Texts (text_said result text.now) }
{
    done(answer)?;
    short(text)
}

/// How many bytes a text has, or that the text beside is the answer, or the fault.
pub(crate) fn value(answer: &AnswerData, text: &[u8]) -> Result<Option<u32>, Fault>
    ensures short { KeepsTextShort (value_said result text.now) }
    ensures said { (room : List ℕ) →
        IsSaid answer.now text.now room TextsOrCounts (value_said result text.now) }
{
    done(answer)?;
    if answer.has_count != 0 {
        return Ok(Some(count(answer)?));
    }
    short(text)?;
    Ok(None)
}

/// How many bytes of data there are, where the reply to a READ can have that many, and else EIO.
fn data_count(call: &CallData, answer: &AnswerData) -> Result<u32, Fault>
    ensures { MatchResult result
        (λ count. (count ≡ answer.now.count)
        × CanBeRead call.now.size call.now.room answer.now.count)
        (λ fault. (fault ≡ Some eio) × IsTooMuch call.now.size call.now.room answer.now.count) }
{
    if answer.count > u64::from(call.size.min(MAX_REPLY_DATA)) {
        return Err(Some(Errno::EIO));
    }
    if answer.count + OutHeader::SIZE as u64 > call.room {
        return Err(Some(Errno::EIO));
    }
    Ok(answer.count as u32)
}

/// How many bytes of data there are, or the fault.
pub(crate) fn data(call: &CallData, answer: &AnswerData) -> Result<u32, Fault>
    ensures count { IfOk result (λ count. (count ≡ answer.now.count)
        × CanBeRead call.now.size call.now.room answer.now.count) }
    ensures said { (text room : List ℕ) → length room ≡ call.now.room →
        IsSaid answer.now text room (Data call.now.size)
        (read_answer result (take answer.now.count (drop 16 room))) }
{
    done(answer)?;
    data_count(call, answer)
}
