//! What the file system offers beyond virtiofsd, and the CREATE that a TMPFILE is handed to the server as.

ghost use Rattle.std.specs.Prelude.{◌≡◌, ◌++◌, take, drop, IfOk, OnOk};
ghost use Rattle.vfs_segments.specs.Segments.{segments_of, flat_bytes};
ghost use Rattle.vfs_grammar.specs.Limits.{AreLimits};
ghost use Rattle.codec_calls.specs.declared.call.kind.TheConstants as kind;
ghost use Rattle.codec_decode.specs.Further.{Ordinary, Short, Tells, Unnamed, told_under};
ghost use Rattle.codec_decode.specs.declared.row.Further.TheVariants.{Ordinary as IsOrdinary, Row as IsRow, Short as IsShort, Unnamed as IsUnnamed};
ghost use Rattle.laws_flight.specs.OfferedTurns.{as_create};
ghost use Rattle.nizwarf_tree.specs.Offered.{AsksRow, row_limits, what_asked};

use crate::files::{Files, OFFERS};
use codec_calls::CallData;
use codec_decode::{Further, what};
use std::alloc::{AllocError, Global};
use vfs_flags::{GREATEST_MAX_BUFFER, LEAST_MAX_BUFFER};
use vfs_grammar::Limits;
use vfs_server::server::Server;

/// The opcode of a CREATE, as a request has it, and where it is.
static CREATE: [u8; 4] = [35, 0, 0, 0];

const OPCODE_AT: usize = 4;

/// What a request asks of a server by the rows that its file system offers: a call of a row, each of which is
/// answered a text, is told in `call`, with that many bytes of room.
pub fn asked(server: &Server<Files>, request: &[&[u8]], room: usize, call: &mut CallData) -> Further
    ensures ordinary { result ≡ IsOrdinary →
        what_asked server.now.limits (flat_bytes (segments_of request.now)) ≡ Ordinary }
    ensures short { result ≡ IsShort →
        what_asked server.now.limits (flat_bytes (segments_of request.now)) ≡ Short }
    ensures unnamed { result ≡ IsUnnamed →
        what_asked server.now.limits (flat_bytes (segments_of request.now)) ≡ Unnamed }
    ensures row { result ≡ IsRow →
        AsksRow server.now room (flat_bytes (segments_of request.now)) call.new }
    ensures text { result ≡ IsRow → call.new.answer ≡ kind.BYTES }
    ensures room { result ≡ IsRow → call.new.room ≡ room }
{
    tell(server, request, room, call)
}

// The same, as the further table says it.
fn tell(server: &Server<Files>, request: &[&[u8]], room: usize, call: &mut CallData) -> Further
    ensures { Tells (what_asked server.now.limits (flat_bytes (segments_of request.now)))
        (told_under server.now.options room) result call.old call.new }
{
    what(
        OFFERS,
        row_limits(server),
        server.options(),
        request,
        room,
        call,
    )
}

/// The limits that rows are asked by.
pub fn row_limits(server: &Server<Files>) -> Limits
    ensures limits { result ≡ row_limits server.now.limits }
    ensures within { AreLimits result }
{
    let largest = server.max_buffer();
    Limits {
        page_size: 4096,
        max_buffer: largest.min(GREATEST_MAX_BUFFER).max(LEAST_MAX_BUFFER),
    }
}

/// The segments of a request, with CREATE's number as its opcode. No byte of it is copied. An error where there is
/// no memory for their list.
pub fn as_create<'a>(alloc: Global, request: &[&'a [u8]]) -> Result<Vec<&'a [u8]>, AllocError>
    ensures { IfOk result (λ list. flat_bytes (segments_of list.items) ≡
        as_create (flat_bytes (segments_of request.now))) }
{
    let mut list = Vec::new(alloc);
    push_first(&mut list, request, OPCODE_AT)?;
    list.push(&CREATE)?;
    push_after(&mut list, request, OPCODE_AT + CREATE.len())?;
    Ok(list)
}

// Adds the first `count` bytes of a request.
fn push_first<'a>(
    list: &mut Vec<&'a [u8]>,
    request: &[&'a [u8]],
    count: usize,
) -> Result<(), AllocError>
    ensures { OnOk result (flat_bytes (segments_of list.new.items) ≡
        flat_bytes (segments_of list.old.items)
        ++ take count (flat_bytes (segments_of request.now))) }
{
    let mut left = count;
    for i in 0..request.len() {
        if left == 0 {
            return Ok(());
        }
        let len = request[i].len().min(left);
        list.push(&request[i][..len])?;
        left -= len;
    }
    Ok(())
}

// Adds the bytes of a request after the first `count`.
fn push_after<'a>(
    list: &mut Vec<&'a [u8]>,
    request: &[&'a [u8]],
    count: usize,
) -> Result<(), AllocError>
    ensures { OnOk result (flat_bytes (segments_of list.new.items) ≡
        flat_bytes (segments_of list.old.items)
        ++ drop count (flat_bytes (segments_of request.now))) }
{
    let mut left = count;
    for i in 0..request.len() {
        let len = request[i].len().min(left);
        list.push(&request[i][len..])?;
        left -= len;
    }
    Ok(())
}
