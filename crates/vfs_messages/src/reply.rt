//! Replies: a header (`struct fuse_out_header`) and a body, put into the room of a writer.
//!
//! Each call answers the reply's length, or `EncodeMessage` where the room is too small: then it
//! holds as much of the reply's beginning as there is room for. Data are put before their header is
//! known: its place is held in front of them, and filled in last.

ghost use Rattle.std.specs.Prelude.{◌≡◌, ◌≢◌, ◌≤◌, ◌<◌, ◌+◌, ◌-◌, ◌^◌, ◌%◌, ◌++◌, ◌-ℤ◌, pos, take, length, ℕ, List, nat_le, if◌then◌else◌, Ok, Err, IfSome, option_map, IfOk, OnOk, OnErr, MatchResult};
ghost use Rattle.vfs_wire.specs.Fields.{Fit, bytes_of};
ghost use Rattle.vfs_wire.specs.Records.{out_header};
ghost use Rattle.vfs_wire_more.specs.Records.{getxattr_out};
ghost use Rattle.vfs_flags.specs.Flags.{open_options_bits};
ghost use Rattle.vfs_segments.specs.declared.record.TheConstants.{LARGEST_RECORD};
ghost use Rattle.vfs_segments.specs.Written.{Written, wrote, held_over, held_filled};
ghost use Rattle.std.specs.Option.{option_copied};
ghost use Rattle.vfs_files.specs.Answers.{IsFault, IsAnswer, FitsText, KeepsTextShort, Counts, Data, Told, Untold, Entries, TimedAttributes, Openings, Creations, Capacities, Texts, TextsOrCounts, Offsets, Writes, Faults, Failed, done_answer, entry_answer, attr_answer, opened_answer, created_answer, statistics_answer, text_answer, getxattr_answer, listxattr_answer, offset_answer, written_answer, read_answer};
ghost use Rattle.vfs_grammar.specs.Records.{size_of};
ghost use Rattle.vfs_messages.specs.Rooms.{bytes_of_option, bytes_or_none, size_of_option, data_header, Replies, PutsAfterHeader};
ghost use Rattle.vfs_grammar.specs.Reply.{Bytes, fault_reply, body_reply, open_out_of};
ghost use Rattle.vfs_grammar.specs.Words.{fault_number, reply_to, attr_out_of, getxattr_out_of};
ghost use Rattle.vfs_grammar.specs.Forms.{space_after_header};

use bitflags::Flags;
use std::io::Write;
use std::time::Duration;
use vfs_files::{Entry, GetxattrReply, ListxattrReply, Number};
use vfs_flags::{Errno, Fault, OpenOptions};
use vfs_grammar::{Error, Result};
use vfs_segments::Writer;
use vfs_wire::{Attr, AttrOut, ByteValued, EntryOut, Kstatfs, OutHeader, Statvfs64};
use vfs_wire_more::{GetxattrOut, LseekOut, OpenOut, WriteOut};

/// Puts a header, as much of it as there is room for.
fn put_header(header: OutHeader, w: &mut Writer)
    ensures { w.new ≡ wrote w.old (take (length w.old.left) (bytes_of out_header header)) }
{
    let _ = w.write_obj(header);
}

/// Puts a header and a record after it, where there is one, as much of them as there is room for.
#[inline(always)]
fn put_parts<T: ByteValued + Drop>(header: OutHeader, out: Option<T>, w: &mut Writer)
    ensures wrote { w.new ≡ wrote w.old (take (length w.old.left)
        (bytes_of out_header header ++ bytes_of_option T.table out)) }
    ensures in_width { IfSome out (λ x. Fit T.table.widths (T.table.fields x)) }
{
    match out {
        Some(out) => {
            let _ = w.write_pair(header, out);
        }
        None => put_header(header, w),
    }
}

/// Puts bytes, as many as there is room for.
fn put_body(body: &[u8], w: &mut Writer)
    ensures { w.new ≡ wrote w.old (take (length w.old.left) body.now) }
{
    if body.is_empty() {
        return;
    }
    let _ = w.write_all(body);
}

/// The bytes that a record has, where there is one.
fn part_size<T: ByteValued + Drop>(out: &Option<T>) -> usize
    ensures small { result ≤ LARGEST_RECORD }
    ensures size { result ≡ size_of_option T.table out.now }
{
    match out {
        Some(_) => T::SIZE,
        None => 0,
    }
}

/// The outcome of a reply of `len` bytes in a room of that many.
fn outcome_of(len: usize, room: usize) -> Result<usize>
    ensures { result ≡ (if nat_le len room then Ok len else Err Error.EncodeMessage) }
{
    if len <= room {
        Ok(len)
    } else {
        Err(Error::EncodeMessage)
    }
}

/// Replies a record, where there is one, and bytes after it. It is inlined, as `reply_record` and
/// `reply_entry` are, so that the fields of a record go into the room without being put together in
/// memory first.
#[inline(always)]
fn reply_parts<T: ByteValued + Drop>(
    out: Option<T>,
    body: &[u8],
    unique: u64,
    w: &mut Writer,
) -> Result<usize>
    ensures replied { let bytes = bytes_of_option T.table out ++ body.now in
        size_of out_header + length bytes < 2 ^ 32 →
        Replies (Bytes (body_reply bytes unique)) w.old result w.new }
    ensures in_width { IfSome out (λ x. Fit T.table.widths (T.table.fields x)) }
{
    let room = w.available_bytes();
    let len = OutHeader::SIZE + part_size(&out) + body.len();
    let header = OutHeader {
        len: (len % (1 << 32)) as u32,
        error: 0,
        unique,
    };
    put_parts(header, out, w);
    put_body(body, w);
    outcome_of(len, room)
}

/// Replies that a call succeeded: a record and bytes after it, each where there is one. Without
/// both the reply is a header alone.
///
/// The header says the length of the reply in 32 bits: of a longer one nothing is promised.
pub fn reply_ok<T: ByteValued + Drop>(
    out: Option<T>,
    body: Option<&[u8]>,
    unique: u64,
    w: &mut Writer,
) -> Result<usize>
    ensures replied { let bytes = bytes_of_option T.table out ++ bytes_or_none (option_copied body.entry) in
        size_of out_header + length bytes < 2 ^ 32 →
        Replies (Bytes (body_reply bytes unique)) w.old result w.new }
    ensures in_width { IfSome out (λ x. Fit T.table.widths (T.table.fields x)) }
{
    match body {
        Some(bytes) => reply_parts(out, bytes, unique, w),
        None => reply_parts(out, &[], unique, w),
    }
}

/// Replies a record.
#[inline(always)]
pub fn reply_record<T: ByteValued + Drop>(out: T, unique: u64, w: &mut Writer) -> Result<usize>
    ensures replied { Replies (Bytes (body_reply (bytes_of T.table out) unique))
        w.old result w.new }
    ensures in_width { Fit T.table.widths (T.table.fields out) }
{
    reply_parts(Some(out), &[], unique, w)
}

/// Replies a record and the bytes of another after it.
fn reply_both<T: ByteValued + Drop>(
    out: T,
    following: &[u8],
    unique: u64,
    w: &mut Writer,
) -> Result<usize>
    requires { length following.now ≤ LARGEST_RECORD }
    ensures replied { Replies (Bytes (body_reply (bytes_of T.table out ++ following.now) unique))
        w.old result w.new }
    ensures in_width { Fit T.table.widths (T.table.fields out) }
{
    reply_parts(Some(out), following, unique, w)
}

/// The header of a reply that says a fault: its negated number, or that of EIO where it has none.
fn fault_header(fault: Fault, unique: u64) -> OutHeader
    ensures header { result ≡
        record {
          len = size_of out_header;
          error = pos 0 -ℤ pos (fault_number fault);
          unique = unique;
        } }
    ensures fault { IsFault fault }
{
    let errno = match fault {
        Some(errno) => errno,
        None => Errno::EIO,
    };
    OutHeader {
        len: OutHeader::SIZE as u32,
        error: -errno.get(),
        unique,
    }
}

/// Replies a fault: the header alone, with its negated number, or that of EIO where it has none.
pub fn reply_failed(fault: Fault, unique: u64, w: &mut Writer) -> Result<usize>
    ensures replied { Replies (Bytes (fault_reply fault unique)) w.old result w.new }
    ensures fault { IsFault fault }
{
    let room = w.available_bytes();
    put_header(fault_header(fault, unique), w);
    outcome_of(OutHeader::SIZE, room)
}

/// Fills the bytes of a header that the writer holds.
fn fill_header(header: OutHeader, w: &mut Writer)
    requires { w.old.held ≡ size_of out_header }
    ensures { w.new ≡ held_filled w.old (bytes_of out_header header) }
{
    let mut bytes = [0u8; OutHeader::SIZE];
    header.put(&mut bytes);
    w.fill_held(&bytes);
}

/// Replies a fault, as [`reply_failed`] does, but where the writer holds the sixteen bytes of a
/// header it goes into these, whatever was written after them.
pub fn reply_error(fault: Fault, unique: u64, w: &mut Writer) -> Result<usize>
    ensures held_outcome { w.old.held ≡ size_of out_header → result ≡ Ok (size_of out_header) }
    ensures held { w.old.held ≡ size_of out_header →
        w.new ≡ held_filled w.old (fault_reply fault unique) }
    ensures replied { w.old.held ≢ size_of out_header →
        Replies (Bytes (fault_reply fault unique)) w.old result w.new }
    ensures fault { IsFault fault }
{
    if w.held() == OutHeader::SIZE {
        fill_header(fault_header(fault, unique), w);
        return Ok(OutHeader::SIZE);
    }
    reply_failed(fault, unique, w)
}

/// Holds the place of a reply's header, so that the data of the reply can be put first.
///
/// `EncodeMessage` where there is no room for a header; then nothing changes.
pub fn hold_header(w: &mut Writer) -> Result<()>
    ensures room { MatchResult result
        (λ held. space_after_header (length w.old.left) ≡ Ok (length w.new.left))
        (λ error. space_after_header (length w.old.left) ≡ Err error) }
    ensures held { OnOk result (w.new ≡ held_over w.old (size_of out_header)) }
    ensures enough { OnOk result (size_of out_header ≤ length w.old.left) }
    ensures refused { OnErr result (w.new ≡ w.old) }
{
    match w.hold(OutHeader::SIZE) {
        Ok(()) => Ok(()),
        Err(_) => Err(Error::EncodeMessage),
    }
}

/// Replies that many bytes that were put after the held place of their header, as READDIR does: the
/// header is filled in now. The room after them is as it is left.
///
/// The header says the length of the reply in 32 bits: of a longer one nothing is promised.
pub fn reply_readdir(len: usize, unique: u64, w: &mut Writer) -> Result<usize>
    requires held { w.old.held ≡ size_of out_header }
    ensures outcome { len < 2 ^ 32 - 16 → result ≡ Ok (size_of out_header + len) }
    ensures filled { len < 2 ^ 32 - 16 →
        w.new ≡ held_filled w.old (bytes_of out_header (data_header (Ok len) unique)) }
{
    let len = OutHeader::SIZE.wrapping_add(len);
    let header = OutHeader {
        len: (len % (1 << 32)) as u32,
        error: 0,
        unique,
    };
    fill_header(header, w);
    Ok(len)
}

/// Replies what was put after the held place of its header, as READ and READDIR do: `answer` is
/// how many bytes count of it, and the header is filled in now. A fault is replied as the header
/// alone, whatever was put after it.
///
/// The room after the reply is as it is left. Answers the reply's length, which always fits.
pub fn reply_data(
    answer: std::result::Result<usize, Fault>,
    unique: u64,
    w: &mut Writer,
) -> Result<usize>
    requires held { w.old.held ≡ size_of out_header }
    requires short { IfOk answer (λ count. count < 2 ^ 32 - 16) }
    ensures replied { (old : Written) (bytes : List ℕ) (size : ℕ) →
        PutsAfterHeader old bytes w.old → Counts answer bytes size →
        Replies (reply_to unique (Data size) (read_answer answer bytes)) old result w.new }
    ensures kind { (bytes : List ℕ) (size : ℕ) → Counts answer bytes size →
        IsAnswer (Data size) (read_answer answer bytes) }
{
    match answer {
        Ok(count) => reply_readdir(count, unique, w),
        Err(fault) => reply_error(fault, unique, w),
    }
}

/// Replies that a call was done, as ACCESS does: a header alone, or the fault.
pub fn reply_done(
    answer: std::result::Result<(), Fault>,
    unique: u64,
    w: &mut Writer,
) -> Result<usize>
    ensures replied { Replies (reply_to unique Told (done_answer answer)) w.old result w.new }
    ensures kind { IsAnswer Told (done_answer answer) }
{
    match answer {
        Ok(()) => reply_parts::<u8>(None, &[], unique, w),
        Err(fault) => reply_failed(fault, unique, w),
    }
}

/// Replies a fault and nothing else, as GETLK does.
pub fn reply_fault(
    answer: std::result::Result<(), Fault>,
    unique: u64,
    w: &mut Writer,
) -> Result<usize>
    ensures replied { Replies (reply_to unique Untold (done_answer answer)) w.old result w.new }
    ensures kind { IsAnswer Untold (done_answer answer) }
{
    match answer {
        Ok(()) => Ok(0),
        Err(fault) => reply_failed(fault, unique, w),
    }
}

/// Replies a fault, which is all that TMPFILE is ever answered.
pub fn reply_fault_alone(fault: Fault, unique: u64, w: &mut Writer) -> Result<usize>
    ensures replied { Replies (reply_to unique Faults (Failed fault)) w.old result w.new }
    ensures kind { IsAnswer Faults (Failed fault) }
{
    reply_failed(fault, unique, w)
}

/// Replies an entry, as LOOKUP does.
#[inline(always)]
pub fn reply_entry(
    answer: std::result::Result<Entry, Fault>,
    unique: u64,
    w: &mut Writer,
) -> Result<usize>
    ensures replied { Replies (reply_to unique Entries (entry_answer answer)) w.old result w.new }
    ensures kind { IsAnswer Entries (entry_answer answer) }
{
    match answer {
        Ok(entry) => reply_record(EntryOut::from(entry), unique, w),
        Err(fault) => reply_failed(fault, unique, w),
    }
}

/// The record of attributes and how long they hold.
fn attr_out(attr: Attr, timeout: Duration) -> AttrOut
    ensures { result ≡ attr_out_of attr timeout }
{
    AttrOut {
        attr_valid: timeout.as_secs(),
        attr_valid_nsec: timeout.subsec_nanos(),
        dummy: 0,
        attr,
    }
}

/// Replies attributes and how long they hold, as GETATTR does.
#[inline(always)]
pub fn reply_attr(
    answer: std::result::Result<(Attr, Duration), Fault>,
    unique: u64,
    w: &mut Writer,
) -> Result<usize>
    ensures replied { Replies (reply_to unique TimedAttributes (attr_answer answer)) w.old result w.new }
    ensures kind { IsAnswer TimedAttributes (attr_answer answer) }
{
    match answer {
        Ok((attr, timeout)) => reply_record(attr_out(attr, timeout), unique, w),
        Err(fault) => reply_failed(fault, unique, w),
    }
}

/// The record of what was opened.
fn open_out<H: Number>(handle: Option<H>, options: OpenOptions) -> OpenOut
    ensures { result ≡ open_out_of (option_map H.value handle) (open_options_bits options) }
{
    let fh = match handle {
        Some(handle) => handle.number(),
        None => 0,
    };
    OpenOut {
        fh,
        open_flags: options.bits(),
        padding: 0,
    }
}

/// Replies what was opened, as OPEN does.
pub fn reply_opened<H: Number>(
    answer: std::result::Result<(Option<H>, OpenOptions), Fault>,
    unique: u64,
    w: &mut Writer,
) -> Result<usize>
    ensures replied { Replies (reply_to unique Openings (opened_answer H.value answer))
        w.old result w.new }
    ensures kind { IsAnswer Openings (opened_answer H.value answer) }
{
    match answer {
        Ok((handle, options)) => reply_record(open_out::<H>(handle, options), unique, w),
        Err(fault) => reply_failed(fault, unique, w),
    }
}

/// Replies an entry and what was opened, as CREATE does.
pub fn reply_created<H: Number>(
    answer: std::result::Result<(Entry, Option<H>, OpenOptions), Fault>,
    unique: u64,
    w: &mut Writer,
) -> Result<usize>
    ensures replied { Replies (reply_to unique Creations (created_answer H.value answer))
        w.old result w.new }
    ensures kind { IsAnswer Creations (created_answer H.value answer) }
{
    match answer {
        Ok((entry, handle, options)) => {
            let mut opened = [0; OpenOut::SIZE];
            open_out::<H>(handle, options).put(&mut opened);
            reply_both(EntryOut::from(entry), &opened, unique, w)
        }
        Err(fault) => reply_failed(fault, unique, w),
    }
}

/// Replies what a file system holds, as STATFS does.
pub fn reply_statistics(
    answer: std::result::Result<Statvfs64, Fault>,
    unique: u64,
    w: &mut Writer,
) -> Result<usize>
    ensures replied { Replies (reply_to unique Capacities (statistics_answer answer))
        w.old result w.new }
    ensures kind { IsAnswer Capacities (statistics_answer answer) }
{
    match answer {
        Ok(statistics) => reply_record(Kstatfs::from(statistics), unique, w),
        Err(fault) => reply_failed(fault, unique, w),
    }
}

/// Replies bytes that leave room for a header in 32 bits.
fn reply_bytes(bytes: &[u8], unique: u64, w: &mut Writer) -> Result<usize>
    requires { FitsText bytes.now }
    ensures { Replies (Bytes (body_reply bytes.now unique)) w.old result w.new }
{
    reply_parts::<u8>(None, bytes, unique, w)
}

/// Replies a text, as READLINK does.
pub fn reply_text(
    answer: std::result::Result<Vec<u8>, Fault>,
    unique: u64,
    w: &mut Writer,
) -> Result<usize>
    requires { KeepsTextShort (text_answer answer) }
    ensures replied { Replies (reply_to unique Texts (text_answer answer)) w.old result w.new }
    ensures kind { IsAnswer Texts (text_answer answer) }
{
    match answer {
        Ok(text) => reply_bytes(&text, unique, w),
        Err(fault) => reply_failed(fault, unique, w),
    }
}

/// Replies how many bytes extended attributes have.
fn reply_count(length: u32, unique: u64, w: &mut Writer) -> Result<usize>
    ensures { Replies (Bytes (body_reply (bytes_of getxattr_out (getxattr_out_of length)) unique))
        w.old result w.new }
{
    let out = GetxattrOut {
        size: length,
        padding: 0,
    };
    reply_record(out, unique, w)
}

/// Replies the names of extended attributes, or how many bytes they have, as LISTXATTR does.
pub fn reply_names(
    answer: std::result::Result<ListxattrReply, Fault>,
    unique: u64,
    w: &mut Writer,
) -> Result<usize>
    requires { KeepsTextShort (listxattr_answer answer) }
    ensures replied { Replies (reply_to unique TextsOrCounts (listxattr_answer answer))
        w.old result w.new }
    ensures kind { IsAnswer TextsOrCounts (listxattr_answer answer) }
{
    match answer {
        Ok(ListxattrReply::Names(names)) => reply_bytes(&names, unique, w),
        Ok(ListxattrReply::Count(length)) => reply_count(length, unique, w),
        Err(fault) => reply_failed(fault, unique, w),
    }
}

/// Replies the value of an extended attribute, or how many bytes it has, as GETXATTR does.
pub fn reply_value(
    answer: std::result::Result<GetxattrReply, Fault>,
    unique: u64,
    w: &mut Writer,
) -> Result<usize>
    requires { KeepsTextShort (getxattr_answer answer) }
    ensures replied { Replies (reply_to unique TextsOrCounts (getxattr_answer answer))
        w.old result w.new }
    ensures kind { IsAnswer TextsOrCounts (getxattr_answer answer) }
{
    match answer {
        Ok(GetxattrReply::Value(value)) => reply_bytes(&value, unique, w),
        Ok(GetxattrReply::Count(length)) => reply_count(length, unique, w),
        Err(fault) => reply_failed(fault, unique, w),
    }
}

/// Replies a place in a file, as LSEEK does.
pub fn reply_offset(
    answer: std::result::Result<u64, Fault>,
    unique: u64,
    w: &mut Writer,
) -> Result<usize>
    ensures replied { Replies (reply_to unique Offsets (offset_answer answer)) w.old result w.new }
    ensures kind { IsAnswer Offsets (offset_answer answer) }
{
    match answer {
        Ok(offset) => reply_record(LseekOut { offset }, unique, w),
        Err(fault) => reply_failed(fault, unique, w),
    }
}

/// Replies how many bytes were written, as COPY_FILE_RANGE does.
pub fn reply_written(
    answer: std::result::Result<u32, Fault>,
    unique: u64,
    w: &mut Writer,
) -> Result<usize>
    ensures replied { Replies (reply_to unique Writes (written_answer answer))
        w.old result w.new }
    ensures kind { IsAnswer Writes (written_answer answer) }
{
    match answer {
        Ok(count) => reply_record(
            WriteOut {
                size: count,
                padding: 0,
            },
            unique,
            w,
        ),
        Err(fault) => reply_failed(fault, unique, w),
    }
}
