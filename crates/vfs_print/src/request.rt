//! A request as a line.

ghost use Rattle.std.specs.Prelude.{◌<◌, ◌≤◌, OnOk, codes, length};

use crate::extensions::print_extensions;
use crate::fields::Value::{Number, Small};
use crate::fields::{Fields, print_fields, print_record};
use crate::flags::Set;
use crate::further::{print_further_parts, print_number};
use crate::opcodes::{opcode_name, print_parts};
use crate::stop::{Left, Stop, print_end};
use crate::take::{take_bytes, take_name, take_record, whole_name};
use crate::text::{Data, Quoted};
use bitflags::Flags;
use std::fmt::{self, Write};
use vfs_flags::{FsOptions, KERNEL_VERSION, MIN_KERNEL_MINOR_VERSION, Opcode};
use vfs_grammar::Error;
use vfs_wire::{BatchForgetIn, ByteValued, ForgetOne, InHeader, InitInCompat, InitInExt};
use vfs_wire_more::{CreateIn, SetxattrIn, SetxattrInCompat, WriteIn};

/// Prints a request as a line without its newline: its opcode, the fields of its header and of its
/// record by name, and what follows them. `options` are those that are agreed on: they say whether a
/// SETXATTR has its longer record, and which extensions follow a name.
///
/// Names are between quotes, with `\x` and two hex digits in place of what isn't printable ASCII;
/// other bytes are a count and the first 16 of them. `len=` is printed if the header's isn't the
/// number of bytes, and `ignored=` says how many bytes come after the parts. Bytes that don't decode
/// end the line with `refused=` and the error that a server has for them, after what could be read; so
/// does a request that any server answers by ENOSYS or EPROTO, whatever else it asks. What a server refuses
/// by its limits, for want of room, or since it doesn't offer the call isn't told by the bytes, and printed whole.
pub fn print_request<W: Write>(w: &mut W, bytes: &[u8], options: FsOptions) -> fmt::Result
    ensures no_header { length bytes.now < 40 → OnOk result
        (W.write_str_gives w.old (codes "refused=DecodeMessage") w.new) }
{
    let Ok((header, following)) = take_record::<InHeader>(bytes) else {
        return w.write_str("refused=DecodeMessage");
    };
    let opcode = Opcode::try_from(header.opcode).ok();
    match opcode {
        Some(opcode) => w.write_str(opcode_name(opcode))?,
        None => print_number(w, header.opcode)?,
    }
    print_header(w, &header, bytes.len())?;
    let outcome = match opcode {
        Some(opcode) => print_parts(w, opcode, &header, options, following),
        None => print_further_parts(w, header.opcode, following),
    };
    print_end(w, outcome)
}

/// Prints the fields of a header but the opcode, of a request of that many bytes.
fn print_header<W: Write>(w: &mut W, header: &InHeader, count: usize) -> fmt::Result {
    print_fields(
        w,
        &[
            ("unique", Number(header.unique)),
            ("node", Number(header.nodeid)),
            ("uid", Small(header.uid.into_inner())),
            ("gid", Small(header.gid.into_inner())),
            ("pid", Small(header.pid)),
        ],
    )?;
    if header.len as usize != count {
        write!(w, " len={}", header.len)?;
    }
    if header.total_extlen != 0 {
        write!(w, " total_extlen={}", header.total_extlen)?;
    }
    Ok(())
}

/// The tail of a request after its header and a record of `size` bytes, as long as the header's
/// `len` says, and what is left after it.
fn take_tail<'a>(
    header: &InHeader,
    size: usize,
    bytes: &'a [u8],
) -> Result<(&'a [u8], &'a [u8]), Error>
    requires { size ≤ 152 }
{
    let before = InHeader::SIZE + size;
    match (header.len as usize).checked_sub(before) {
        Some(count) => take_bytes(bytes, count),
        None => Err(Error::InvalidHeaderLength),
    }
}

/// A tail that is a name, after a record of `size` bytes.
pub fn print_name<'a, W: Write>(
    w: &mut W,
    header: &InHeader,
    size: usize,
    bytes: &'a [u8],
) -> Left<'a>
    requires { size ≤ 152 }
{
    let (tail, following) = take_tail(header, size, bytes)?;
    let name = whole_name(tail)?;
    write!(w, " name={}", Quoted(name))?;
    Ok(following)
}

/// A record and a name.
pub fn print_record_and_name<'a, T: Fields, W: Write>(
    w: &mut W,
    header: &InHeader,
    bytes: &'a [u8],
) -> Left<'a> {
    let (_, following) = print_record::<T, W>(w, bytes)?;
    print_name(w, header, T::SIZE, following)
}

/// A record and two names: the first ends at its first 0, and the second is the rest of the tail.
pub fn print_two_names<'a, T: Fields, W: Write>(
    w: &mut W,
    header: &InHeader,
    bytes: &'a [u8],
) -> Left<'a> {
    let (_, following) = print_record::<T, W>(w, bytes)?;
    let (tail, left) = take_tail(header, T::SIZE, following)?;
    let Some((name, rest)) = take_name(tail) else {
        return Err(Stop::Refused(Error::MissingParameter));
    };
    write!(w, " name={}", Quoted(name))?;
    let newname = whole_name(rest)?;
    write!(w, " newname={}", Quoted(newname))?;
    Ok(left)
}

/// A record, a name and extensions.
pub fn print_named<'a, T: Fields, W: Write>(
    w: &mut W,
    header: &InHeader,
    options: FsOptions,
    bytes: &'a [u8],
) -> Left<'a> {
    let (_, following) = print_record::<T, W>(w, bytes)?;
    let (tail, left) = take_tail(header, T::SIZE, following)?;
    print_extended(w, " name=", options, tail)?;
    Ok(left)
}

/// The parts of TMPFILE, which are those of CREATE, if its record is there.
pub fn print_tmpfile<'a, W: Write>(
    w: &mut W,
    header: &InHeader,
    options: FsOptions,
    bytes: &'a [u8],
) -> Left<'a> {
    if bytes.len() < CreateIn::SIZE {
        return Ok(bytes);
    }
    print_named::<CreateIn, W>(w, header, options, bytes)
}

/// The name of a symbolic link, its text and extensions.
pub fn print_link<'a, W: Write>(
    w: &mut W,
    header: &InHeader,
    options: FsOptions,
    bytes: &'a [u8],
) -> Left<'a> {
    let (tail, left) = take_tail(header, 0, bytes)?;
    let Some((name, rest)) = take_name(tail) else {
        return Err(Stop::Refused(Error::MissingParameter));
    };
    write!(w, " name={}", Quoted(name))?;
    print_extended(w, " text=", options, rest)?;
    Ok(left)
}

/// A name with extensions after it, printed after `label`. The extensions of a name that has no 0
/// are no bytes, and are judged before the name.
fn print_extended<W: Write>(
    w: &mut W,
    label: &str,
    options: FsOptions,
    bytes: &[u8],
) -> Result<(), Stop> {
    if bytes.is_empty() {
        return Err(Stop::Refused(Error::MissingParameter));
    }
    match take_name(bytes) {
        Some((name, rest)) => {
            write!(w, "{label}{}", Quoted(name))?;
            print_extensions(w, options, rest)
        }
        None => {
            print_extensions(w, options, &[])?;
            Err(Stop::Refused(Error::InvalidCString))
        }
    }
}

/// The record of WRITE, and its data: all bytes after it.
pub fn print_write<'a, W: Write>(w: &mut W, bytes: &'a [u8]) -> Left<'a> {
    let (_, data) = print_record::<WriteIn, W>(w, bytes)?;
    write!(w, " data{}", Data(data))?;
    Ok(&[])
}

/// The record of SETXATTR, whose form the options say, a name and a value.
pub fn print_setxattr<'a, W: Write>(
    w: &mut W,
    header: &InHeader,
    options: FsOptions,
    bytes: &'a [u8],
) -> Left<'a> {
    if options.contains(FsOptions::SETXATTR_EXT) {
        let (record, following) = print_record::<SetxattrIn, W>(w, bytes)?;
        let (tail, left) = take_tail(header, SetxattrIn::SIZE, following)?;
        print_value(w, record.size, tail)?;
        return Ok(left);
    }
    let (record, following) = print_record::<SetxattrInCompat, W>(w, bytes)?;
    let (tail, left) = take_tail(header, SetxattrInCompat::SIZE, following)?;
    print_value(w, record.size, tail)?;
    Ok(left)
}

/// A name, which ends at its first 0, and the value after it, which is to have `size` bytes.
fn print_value<W: Write>(w: &mut W, size: u32, tail: &[u8]) -> Result<(), Stop> {
    let Some((name, value)) = take_name(tail) else {
        return Err(Stop::Refused(Error::MissingParameter));
    };
    write!(w, " name={} value{}", Quoted(name), Data(value))?;
    if value.len() != size as usize {
        return Err(Stop::Refused(Error::InvalidXattrSize((size, value.len()))));
    }
    Ok(())
}

/// The records of INIT: the second one is there if the first one's flags say so.
pub fn print_init<'a, W: Write>(w: &mut W, bytes: &'a [u8]) -> Left<'a> {
    let (first, following) = take_record::<InitInCompat>(bytes)?;
    print_fields(
        w,
        &[
            ("major", Small(first.major)),
            ("minor", Small(first.minor)),
            ("max_readahead", Small(first.max_readahead)),
        ],
    )?;
    let (options, left) = take_offered(&first, following);
    write!(w, " flags={}", Set(options, &[]))?;
    let Some(left) = left else {
        return Err(Stop::Refused(Error::DecodeMessage));
    };
    judge_version(&first)?;
    Ok(left)
}

/// The options that an INIT of this first record offers, and what comes after its records. None if the
/// second one is to be there and isn't whole: then the options are those of the first.
fn take_offered<'a>(first: &InitInCompat, following: &'a [u8]) -> (FsOptions, Option<&'a [u8]>) {
    let options = FsOptions::from_bits_retain(u64::from(first.flags));
    if !options.contains(FsOptions::INIT_EXT) {
        return (options, Some(following));
    }
    let Ok((second, left)) = take_record::<InitInExt>(following) else {
        return (options, None);
    };
    let bits = u64::from(first.flags) | (u64::from(second.flags2) << 32);
    (FsOptions::from_bits_retain(bits), Some(left))
}

/// Whether the version that a kernel speaks is served.
fn judge_version(record: &InitInCompat) -> Result<(), Stop> {
    let is_old = record.major == KERNEL_VERSION && record.minor < MIN_KERNEL_MINOR_VERSION;
    if record.major < KERNEL_VERSION || is_old {
        return Err(Stop::OldVersion);
    }
    Ok(())
}

/// The record of BATCH_FORGET, and as many pairs as it says.
pub fn print_pairs<'a, W: Write>(w: &mut W, bytes: &'a [u8]) -> Left<'a> {
    let (record, following) = print_record::<BatchForgetIn, W>(w, bytes)?;
    let mut left = following;
    for _ in 0..record.count {
        let (_, rest) = print_record::<ForgetOne, W>(w, left)?;
        left = rest;
    }
    Ok(left)
}
