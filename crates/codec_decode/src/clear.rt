//! Clearing the record of a call: no bytes of an earlier one stay.
//!
//! It is cleared in two parts, each short enough that LLVM writes it in line. All at once is a call of `memset`.

ghost use Rattle.std.specs.Prelude.{◌≡◌};
ghost use Rattle.codec_decode.specs.Cleared.{cleared_places, cleared_numbers};

use codec_calls::{CallData, Range, SetattrData};

/// Clears the first part: what has 8 bytes, and the ranges.
#[inline(always)]
pub fn clear_places(call: &mut CallData)
    ensures { call.new ≡ cleared_places call.old }
{
    call.unique = 0;
    call.options = 0;
    call.room = 0;
    call.node = 0;
    call.handle = 0;
    call.offset = 0;
    call.length = 0;
    call.lock_owner = 0;
    call.other_node = 0;
    call.other_handle = 0;
    call.other_offset = 0;
    call.name = Range::NONE;
    call.other_name = Range::NONE;
    call.data = Range::NONE;
    call.context_name = Range::NONE;
    call.context = Range::NONE;
}

/// Clears the second part: the record of a SETATTR, and what has 4 bytes.
#[inline(always)]
pub fn clear_numbers(call: &mut CallData)
    ensures { call.new ≡ cleared_numbers call.old }
{
    call.attr = SetattrData::NONE;
    call.call = 0;
    call.answer = 0;
    call.has = 0;
    call.uid = 0;
    call.gid = 0;
    call.pid = 0;
    call.flags = 0;
    call.mode = 0;
    call.umask = 0;
    call.rdev = 0;
    call.size = 0;
    call.more = 0;
    call.group = 0;
    call.readahead = 0;
}
