//! A reply as a line.

ghost use Rattle.std.specs.Prelude.{◌≡◌, ◌<◌, OnOk, codes, length};

use crate::fields::print_alone;
use crate::further::print_further_answer;
use crate::opcodes::{options_of, print_answer};
use crate::stop::{Left, print_end};
use crate::take::take_record;
use bitflags::Flags;
use std::fmt::{self, Write};
use vfs_flags::{Errno, FsOptions, KERNEL_VERSION, Opcode};
use vfs_wire::{EntryOut, InHeader, InitInCompat, InitOut, OutHeader};
use vfs_wire_more::{GetxattrIn, OpenOut};

/// Prints the reply to a request as a line without its newline: `->`, the fields of its header and of
/// its record by name, or its data. The request's bytes say of which form the reply is, by its opcode;
/// GETXATTR and LISTXATTR are answered a length if they ask for 0 bytes. No agreed option changes a reply.
///
/// `error=` is printed if the header has one; names, data, `len=`, `ignored=` and `refused=` are as in
/// [`print_request`](crate::print_request). Of the records of READDIRPLUS the entries' attributes are
/// left out. A reply without a byte is `-> no reply`.
pub fn print_reply<W: Write>(w: &mut W, request: &[u8], reply: &[u8]) -> fmt::Result
    ensures none { length reply.now ≡ 0 → OnOk result
        (W.write_str_gives w.old (codes "-> no reply") w.new) }
    ensures no_header { 0 < length reply.now → length reply.now < 16 → OnOk result
        (W.write_str_gives w.old (codes "-> refused=DecodeMessage") w.new) }
{
    if reply.is_empty() {
        return w.write_str("-> no reply");
    }
    let Ok((header, body)) = take_record::<OutHeader>(reply) else {
        return w.write_str("-> refused=DecodeMessage");
    };
    write!(w, "-> unique={}", header.unique)?;
    if header.len as usize != reply.len() {
        write!(w, " len={}", header.len)?;
    }
    if header.error != 0 {
        print_error(w, header.error)?;
        return print_end(w, Ok(body));
    }
    let outcome = print_body(w, request, body);
    print_end(w, outcome)
}

/// Prints the error of a reply's header, a negated error number.
fn print_error<W: Write>(w: &mut W, error: i32) -> fmt::Result {
    match error.checked_neg().and_then(Errno::new) {
        Some(errno) => write!(w, " error={errno}"),
        None => write!(w, " error={error}"),
    }
}

/// The number of a request's opcode, and what comes after its header. None if it has no whole header.
fn number_of(request: &[u8]) -> Option<(u32, &[u8])> {
    match take_record::<InHeader>(request) {
        Ok((header, following)) => Some((header.opcode, following)),
        Err(_) => None,
    }
}

/// The opcode of a request, and what comes after its header. None if it has no whole header, or a
/// number that is no opcode.
fn opcode_of(request: &[u8]) -> Option<(Opcode, &[u8])> {
    let (number, following) = number_of(request)?;
    match Opcode::try_from(number) {
        Ok(opcode) => Some((opcode, following)),
        Err(()) => None,
    }
}

/// Prints what comes after the header of a reply; what is left after that.
fn print_body<'a, W: Write>(w: &mut W, request: &[u8], body: &'a [u8]) -> Left<'a> {
    let Some((number, record)) = number_of(request) else {
        return Ok(body);
    };
    match Opcode::try_from(number) {
        Ok(opcode) => print_answer(w, opcode, record, body),
        Err(()) => print_further_answer(w, number, body),
    }
}

/// Prints the two records of the reply to CREATE.
pub fn print_created<'a, W: Write>(w: &mut W, body: &'a [u8]) -> Left<'a> {
    let following = print_alone::<EntryOut, W>(w, body)?;
    print_alone::<OpenOut, W>(w, following)
}

/// Whether a GETXATTR or a LISTXATTR asks for the length alone.
pub fn asks_length(record: &[u8]) -> bool {
    match take_record::<GetxattrIn>(record) {
        Ok((asked, _)) => asked.size == 0,
        Err(_) => false,
    }
}

/// The options that are agreed on after a request that was answered by this reply, if these were before
/// it: those of the reply to an INIT, and none after a DESTROY.
pub fn agreed_options(options: FsOptions, request: &[u8], reply: &[u8]) -> FsOptions {
    match opcode_of(request) {
        Some((Opcode::Destroy, _)) if reply.is_empty() => FsOptions::empty(),
        Some((Opcode::Init, record)) => offered_and_taken(record, reply).unwrap_or(options),
        _ => options,
    }
}

/// The options of the reply to an INIT of this record, if it agrees on them: one of a higher version is
/// told the server's, and agrees on nothing.
fn offered_and_taken(record: &[u8], reply: &[u8]) -> Option<FsOptions> {
    let Ok((asked, _)) = take_record::<InitInCompat>(record) else {
        return None;
    };
    let Ok((header, body)) = take_record::<OutHeader>(reply) else {
        return None;
    };
    let Ok((answered, _)) = take_record::<InitOut>(body) else {
        return None;
    };
    if asked.major != KERNEL_VERSION || header.error != 0 {
        return None;
    }
    Some(options_of(&answered))
}
