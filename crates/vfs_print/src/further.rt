//! What is printed of what only an offer brings: what comes after the records of some calls, the calls whose
//! numbers are no `Opcode`, and the replies to both.

ghost use Rattle.std.specs.Prelude.{◌+◌, ◌≤◌, length};

use crate::fields::Value::{self, Hex, Number, Octal, Small, Time, Timeout};
use crate::fields::{print_alone, print_fields, print_if_whole, print_record};
use crate::stop::{Left, Stop};
use crate::take::{take_bytes, take_record};
use crate::text::print_data;
use std::fmt::{self, Write};
use vfs_wire::ByteValued;
use vfs_wire::bytes::{u16_at, u32_at, u64_at};
use vfs_wire_more::{CopyfilerangeIn, IoctlIn, IoctlOut, NotifyRetrieveIn, StatxIn};

/// The number of STATX.
const STATX: u32 = 52;

/// The number of COPY_FILE_RANGE_64.
const COPY_FILE_RANGE_64: u32 = 53;

/// How many bytes `struct fuse_statx_out` has.
const STATX_OUT_SIZE: usize = 288;

/// Prints the name of an opcode that is no `Opcode`, or its number where it has none.
pub fn print_number<W: Write>(w: &mut W, number: u32) -> fmt::Result {
    match number {
        STATX => w.write_str("STATX"),
        COPY_FILE_RANGE_64 => w.write_str("COPY_FILE_RANGE_64"),
        _ => write!(w, "opcode={number}"),
    }
}

/// Prints what comes after the header of a request with such an opcode; what is left after that.
pub fn print_further_parts<'a, W: Write>(w: &mut W, number: u32, bytes: &'a [u8]) -> Left<'a> {
    match number {
        STATX => print_if_whole::<StatxIn, W>(w, bytes),
        COPY_FILE_RANGE_64 => print_if_whole::<CopyfilerangeIn, W>(w, bytes),
        _ => Err(Stop::NotServed),
    }
}

/// Prints what comes after the header of the reply to one; what is left after that.
pub fn print_further_answer<'a, W: Write>(w: &mut W, number: u32, body: &'a [u8]) -> Left<'a> {
    match number {
        STATX => print_statx(w, body),
        COPY_FILE_RANGE_64 => print_copied(w, body),
        _ => Ok(body),
    }
}

/// The record of IOCTL, and the `in_size` bytes after it, if they are there.
pub fn print_ioctl<'a, W: Write>(w: &mut W, bytes: &'a [u8]) -> Left<'a> {
    if bytes.len() < IoctlIn::SIZE {
        return Ok(bytes);
    }
    let (record, following) = print_record::<IoctlIn, W>(w, bytes)?;
    print_sized(w, record.in_size, following)
}

/// The record of NOTIFY_REPLY, and the `size` bytes after it, if they are there.
pub fn print_notify_reply<'a, W: Write>(w: &mut W, bytes: &'a [u8]) -> Left<'a> {
    if bytes.len() < NotifyRetrieveIn::SIZE {
        return Ok(bytes);
    }
    let (record, following) = print_record::<NotifyRetrieveIn, W>(w, bytes)?;
    print_sized(w, record.size, following)
}

/// `size` bytes of data, if there are to be any, and all of them are there.
fn print_sized<'a, W: Write>(w: &mut W, size: u32, bytes: &'a [u8]) -> Left<'a> {
    if size == 0 {
        return Ok(bytes);
    }
    match take_bytes(bytes, size as usize) {
        Ok((data, following)) => {
            print_data(w, "data", data)?;
            Ok(following)
        }
        Err(_) => Ok(bytes),
    }
}

/// The record of the reply to IOCTL, and what is handed out after it.
pub fn print_handed_out<'a, W: Write>(w: &mut W, body: &'a [u8]) -> Left<'a> {
    let following = print_alone::<IoctlOut, W>(w, body)?;
    if !following.is_empty() {
        print_data(w, "data", following)?;
    }
    Ok(&[])
}

/// The record of the reply to COPY_FILE_RANGE_64 (`struct fuse_copy_file_range_out`).
fn print_copied<'a, W: Write>(w: &mut W, body: &'a [u8]) -> Left<'a> {
    let (bytes_copied, following) = take_record::<u64>(body)?;
    write!(w, " bytes_copied={bytes_copied}")?;
    Ok(following)
}

/// The record of the reply to STATX (`struct fuse_statx_out`).
fn print_statx<'a, W: Write>(w: &mut W, body: &'a [u8]) -> Left<'a> {
    let (out, following) = take_bytes(body, STATX_OUT_SIZE)?;
    print_fields(
        w,
        &[
            ("attr_valid", Timeout(u64_at(out, 0), u32_at(out, 8))),
            ("flags", Hex(u32_at(out, 12).into())),
        ],
    )?;
    print_stat(w, out)?;
    Ok(following)
}

/// What `statx` tells (`struct fuse_statx`), at its place in that record.
fn print_stat<W: Write>(w: &mut W, out: &[u8]) -> fmt::Result
    requires { 288 ≤ length out.now }
{
    print_stat_owner(w, out)?;
    print_stat_size(w, out)?;
    print_stat_times_and_devices(w, out)
}

/// The fields up to the mode.
fn print_stat_owner<W: Write>(w: &mut W, out: &[u8]) -> fmt::Result
    requires { 288 ≤ length out.now }
{
    print_fields(
        w,
        &[
            ("mask", Hex(u32_at(out, 32).into())),
            ("blksize", Small(u32_at(out, 36))),
            ("attributes", Hex(u64_at(out, 40))),
            ("nlink", Small(u32_at(out, 48))),
            ("uid", Small(u32_at(out, 52))),
            ("gid", Small(u32_at(out, 56))),
            ("mode", Octal(u16_at(out, 60).into())),
        ],
    )
}

/// The fields from the node's number on, up to the times.
fn print_stat_size<W: Write>(w: &mut W, out: &[u8]) -> fmt::Result
    requires { 288 ≤ length out.now }
{
    print_fields(
        w,
        &[
            ("ino", Number(u64_at(out, 64))),
            ("size", Number(u64_at(out, 72))),
            ("blocks", Number(u64_at(out, 80))),
            ("attributes_mask", Hex(u64_at(out, 88))),
        ],
    )
}

/// The times, the device that a node is, and the one that it is on.
fn print_stat_times_and_devices<W: Write>(w: &mut W, out: &[u8]) -> fmt::Result
    requires { 288 ≤ length out.now }
{
    print_fields(
        w,
        &[
            ("atime", time_at(out, 96)),
            ("btime", time_at(out, 112)),
            ("ctime", time_at(out, 128)),
            ("mtime", time_at(out, 144)),
            ("rdev_major", Small(u32_at(out, 160))),
            ("rdev_minor", Small(u32_at(out, 164))),
            ("dev_major", Small(u32_at(out, 168))),
            ("dev_minor", Small(u32_at(out, 172))),
        ],
    )
}

/// The time from place `at` on (`struct fuse_sx_time`).
fn time_at(out: &[u8], at: usize) -> Value
    requires { at + 12 ≤ length out.now }
{
    Time(u64_at(out, at), u32_at(out, at + 8))
}
