//! Asking at once what is asked for most: a LOOKUP, a GETATTR, a READ or a WRITE, of a request whose header lies in one
//! piece, and in one all that follows it. No reader is made, and no writer.

ghost use Rattle.std.specs.Prelude.{◌≡◌, ◌<◌, ◌^◌, ◌++◌, false, length, true, IsErr, MatchOption, Ok};
ghost use Rattle.vfs_flags.specs.Flags.{fs_options_bits};
ghost use Rattle.vfs_segments.specs.Written.{Written};
ghost use Rattle.vfs_grammar.specs.Forms.{tail_of};
ghost use Rattle.vfs_grammar.specs.Limits.{AreLimits};
ghost use Rattle.vfs_grammar.specs.Records.{record_of};
ghost use Rattle.codec_calls.specs.Shapes.{nothing};
ghost use Rattle.codec_decode.specs.AtOnce.{AsksAfterHeader, AsksAtOnce, AsksForCall, IsAskedMost, IsToldAtOnce, TellsAtOnce};
ghost use Rattle.codec_decode.specs.Cleared.{cleared_numbers};
ghost use Rattle.codec_decode.specs.Asked.{IsAsked};
ghost use Rattle.codec_decode.specs.declared.asked.Asked.TheVariants.{Call as IsCall};

use crate::asked::{Terms, complete};
use crate::clear::{clear_numbers, clear_places};
use crate::direct::{put_getattr, put_lookup, put_read, put_write};
use codec_calls::CallData;
use vfs_files::CStr;
use vfs_flags::{FsOptions, Opcode};
use vfs_grammar::{Error, Limits, Result};
use vfs_wire::parts::part_at;
use vfs_wire::{ByteValued, GetattrIn, InHeader, OutHeader};
use vfs_wire_more::{ReadIn, WriteIn};

/// The record that bytes begin with. `DecodeMessage` where it isn't whole.
#[inline(always)]
pub fn record_in<T: ByteValued>(rest: &[u8]) -> Result<T>
    ensures { result ≡ record_of T.table rest.now }
{
    if rest.len() < T::SIZE {
        return Err(Error::DecodeMessage);
    }
    Ok(part_at(rest, 0))
}

// Clears the second part of a call.
#[inline(never)]
fn clear_apart(call: &mut CallData)
    ensures { call.new ≡ cleared_numbers call.old }
{
    clear_numbers(call);
}

// Clears all of a call, one part in line and one apart: both in line are a call of `memset` again.
#[inline(always)]
fn clear(call: &mut CallData)
    ensures { call.new ≡ nothing }
{
    clear_places(call);
    clear_apart(call);
}

// The tail of a request without a record, where it is whole.
#[inline(always)]
fn tail_in<'a>(header: &InHeader, rest: &'a [u8]) -> Option<&'a [u8]>
    ensures { MatchOption result (IsErr (tail_of header.now 0 rest.now))
        (λ tail. tail_of header.now 0 rest.now ≡ Ok tail.now) }
{
    let len = header.len as usize;
    if len < InHeader::SIZE || rest.len() < len - InHeader::SIZE {
        return None;
    }
    Some(&rest[..len - InHeader::SIZE])
}

// Tells the LOOKUP of a request, where its name is one.
#[inline(always)]
fn tell_lookup(terms: Terms, header: &InHeader, rest: &[u8], call: &mut CallData) -> bool
    ensures told { result ≡ true →
        IsToldAtOnce terms Opcode.Lookup header.now rest.now call.new }
    ensures all { AsksForCall terms Opcode.Lookup header.now rest.now → result ≡ true }
    ensures same { result ≡ false → call.new ≡ call.old }
{
    let Some(tail) = tail_in(header, rest) else {
        return false;
    };
    let Some(name) = CStr::from_bytes_with_nul(tail) else {
        return false;
    };
    clear(call);
    put_lookup(header, name, call);
    complete(Opcode::Lookup, terms, header.unique, call);
    true
}

// Tells the GETATTR of a request, where its record is whole.
#[inline(always)]
fn tell_getattr(terms: Terms, header: &InHeader, rest: &[u8], call: &mut CallData) -> bool
    ensures told { result ≡ true →
        IsToldAtOnce terms Opcode.Getattr header.now rest.now call.new }
    ensures all { AsksForCall terms Opcode.Getattr header.now rest.now → result ≡ true }
    ensures same { result ≡ false → call.new ≡ call.old }
{
    let Ok(getattr_in) = record_in::<GetattrIn>(rest) else {
        return false;
    };
    clear(call);
    put_getattr(header, getattr_in, call);
    complete(Opcode::Getattr, terms, header.unique, call);
    true
}

// Tells the READ of a request, where its record is whole, and its reply has room for a header.
#[inline(always)]
fn tell_read(terms: Terms, header: &InHeader, rest: &[u8], call: &mut CallData) -> bool
    ensures told { result ≡ true → IsToldAtOnce terms Opcode.Read header.now rest.now call.new }
    ensures all { AsksForCall terms Opcode.Read header.now rest.now → result ≡ true }
    ensures same { result ≡ false → call.new ≡ call.old }
{
    if terms.room < OutHeader::SIZE {
        return false;
    }
    let Ok(read_in) = record_in::<ReadIn>(rest) else {
        return false;
    };
    clear(call);
    put_read(header, read_in, call);
    complete(Opcode::Read, terms, header.unique, call);
    true
}

// Tells the WRITE of a request, where its record is whole.
#[inline(always)]
fn tell_write(terms: Terms, header: &InHeader, rest: &[u8], call: &mut CallData) -> bool
    ensures told { result ≡ true → IsToldAtOnce terms Opcode.Write header.now rest.now call.new }
    ensures all { AsksForCall terms Opcode.Write header.now rest.now → result ≡ true }
    ensures same { result ≡ false → call.new ≡ call.old }
{
    let Ok(write_in) = record_in::<WriteIn>(rest) else {
        return false;
    };
    clear(call);
    put_write(header, write_in, call);
    complete(Opcode::Write, terms, header.unique, call);
    true
}

// Tells the call of a request with this header, if it is one of the four.
#[inline(always)]
fn tell_at_once(terms: Terms, header: &InHeader, rest: &[u8], call: &mut CallData) -> bool
    requires limits { AreLimits terms.limits }
    requires fits { terms.len < 2 ^ 64 }
    ensures told { result ≡ true → TellsAtOnce terms header.now rest.now call.new }
    ensures all { IsAskedMost header.now.opcode → AsksAfterHeader terms header.now rest.now →
        result ≡ true }
    ensures same { result ≡ false → call.new ≡ call.old }
{
    if header.len > terms.limits.max_len() {
        return false;
    }
    if header.opcode == Opcode::Lookup as u32 {
        return tell_lookup(terms, header, rest, call);
    }
    if header.opcode == Opcode::Getattr as u32 {
        return tell_getattr(terms, header, rest, call);
    }
    if header.opcode == Opcode::Read as u32 {
        return tell_read(terms, header, rest, call);
    }
    if header.opcode == Opcode::Write as u32 {
        return tell_write(terms, header, rest, call);
    }
    false
}

/// Tells the call of a request that has these bytes as its header, and then these, with the options that are
/// agreed on and `room` bytes of room for the reply: of each LOOKUP, GETATTR, READ and WRITE that asks for one, as
/// [`ask`](crate::ask) does. False of any other request: then nothing is told, and `call` is as it was.
///
/// It takes no memory.
#[inline(always)]
pub fn ask_at_once(
    limits: Limits,
    options: FsOptions,
    head: &[u8],
    rest: &[u8],
    room: usize,
    call: &mut CallData,
) -> bool
    requires limits { AreLimits limits }
    requires head { length head.now ≡ 40 }
    ensures told { result ≡ true → (w after : Written) → length w.left ≡ room →
        IsAsked limits (fs_options_bits options) (head.now ++ rest.now) w IsCall after call.new }
    ensures all { AsksAtOnce limits (fs_options_bits options) room (head.now ++ rest.now) →
        result ≡ true }
    ensures same { result ≡ false → call.new ≡ call.old }
{
    let Ok(header) = record_in::<InHeader>(head) else {
        return false;
    };
    let terms = Terms {
        limits,
        options,
        len: (InHeader::SIZE + rest.len()) as u64,
        room,
    };
    tell_at_once(terms, &header, rest, call)
}
