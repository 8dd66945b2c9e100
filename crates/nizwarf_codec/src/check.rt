//! Checks a request without a reply, for a program in front of a server that trusts its client.

ghost use Rattle.std.specs.Prelude.{◌≡◌, ◌^◌, ◌<◌, length};
ghost use Rattle.vfs_segments.specs.Segments.{flat_bytes, segments_of};
ghost use Rattle.vfs_flags.specs.Flags.{fs_options_bits};
ghost use Rattle.vfs_grammar.specs.Limits.{AreLimits};
ghost use Rattle.codec_decode.specs.Further.{what_of};
ghost use Rattle.nizwarf_codec.specs.Checking.{Checks, IsWhole, checked_code, interrupts_of};
ghost use Rattle.nizwarf_codec.specs.Clauses.{ChecksNoServer};
ghost use Rattle.nizwarf_codec.specs.Further.{ChecksOffered};
ghost use Rattle.nizwarf_codec.specs.Session.{limits_of, options_of};

use crate::data::SessionData;
use crate::further::check_unnamed;
use c_rooms::codes::{ASKED, OK, WRONG_SIZE, told as code_of};
use codec_calls::CallData;
use codec_decode::{Checked, Further, check, what};
use std::alloc::Global;
use vfs_flags::FsOptions;
use vfs_grammar::{Error, Limits};
use vfs_segments::Reader;

/// Checks a request in one segment, without a reply. `offers` are the optional operations that the
/// file system serves, 0 none. `room` is the size that the reply buffer would have.
///
/// Returns 15 and fills in `call` if the request is well-formed and a call must be made. Otherwise
/// `call` is no call, and the result is 0 if the request needs no file system, or 1 to 10 if it is
/// rejected; 10 only for the pairs of a BATCH_FORGET or a security context, because no other request
/// allocates memory. `interrupts` gets the number of the request that an INTERRUPT names, or 0. Returns
/// 12 if the session has sizes that no server has; nothing is filled in then.
#[unsafe(no_mangle)]
pub extern "C" fn nizwarf_check_at(
    alloc: Global,
    session: &SessionData,
    offers: u32,
    request: &[u8],
    room: usize,
    call: &mut CallData,
    interrupts: &mut u64,
) -> i32
    ensures wrong { ChecksNoServer session.now result call.old call.new interrupts.old interrupts.new }

    // Where nothing is offered.
    ensures promise { AreLimits (limits_of session.now) → offers ≡ 0 →
        Checks (limits_of session.now) (options_of session.now) request.now room
        result call.new interrupts.new }

    // By both tables.
    ensures checked { AreLimits (limits_of session.now) →
        ChecksOffered (limits_of session.now) (options_of session.now) request.now room
        (what_of offers (limits_of session.now) request.now) result call.new interrupts.new }
{
    let Some(limits) = session.limits() else {
        return WRONG_SIZE;
    };
    let options = session.options();
    let pieces = [request];
    match what(offers, limits, options, &pieces, room, call) {
        Further::Ordinary => check_piece(alloc, limits, options, request, room, call, interrupts),
        Further::Short => {
            *call = CallData::NONE;
            *interrupts = 0;
            code_of(&Error::DecodeMessage, 0).0
        }
        Further::Row => {
            *interrupts = 0;
            ASKED
        }
        Further::Unnamed => check_unnamed(alloc, limits, options, request, room, call, interrupts),
    }
}

// Says what a request in one piece is.
fn check_piece(
    alloc: Global,
    limits: Limits,
    options: FsOptions,
    request: &[u8],
    room: usize,
    call: &mut CallData,
    interrupts: &mut u64,
) -> i32
    requires { AreLimits limits }
    ensures { Checks limits (fs_options_bits options) request.now room result call.new interrupts.new }
{
    // (no slice is longer than that)
    let _len = request.len();
    let pieces = [request];
    let reader = reader_of(alloc, &pieces);
    let (code, number) = code_and_number(&check(alloc, limits, options, reader, room, call));
    *interrupts = number;
    code
}

// A reader of one piece, for which no memory is taken.
pub(crate) fn reader_of<'a>(alloc: Global, pieces: &'a [&'a [u8]]) -> Reader<'a>
    requires one { length pieces.now ≡ 1 }
    requires fits { length (flat_bytes (segments_of pieces.now)) < 2 ^ 64 }
    ensures { IsWhole (flat_bytes (segments_of pieces.now)) result }
{
    match Reader::new(alloc, pieces) {
        Ok(reader) => reader,
        Err(_) => unreachable!(),
    }
}

// The code of what a request is, and which request it interrupts.
pub(crate) fn code_and_number(checked: &Checked) -> (i32, u64)
    ensures code { result.0 ≡ checked_code checked.now }
    ensures number { result.1 ≡ interrupts_of checked.now }
{
    match checked {
        Checked::Call => (ASKED, 0),
        Checked::Finished { interrupts } => (OK, *interrupts),
        Checked::Refused(error) => (code_of(error, 0).0, 0),
    }
}
