//! Small callers.

ghost use Rattle.std.specs.Prelude.{◌≡◌, ◌≤◌, ◌⊎◌, ◌++◌, [], ◌∷◌, length, true};
ghost use Rattle.vfs_flags.specs.Flags.{fs_options_bits, security_ctx};
ghost use Rattle.vfs_grammar.specs.Memory.{header_of};
ghost use Rattle.vfs_grammar.specs.Reply.{Refusal};
ghost use Rattle.vfs_grammar.specs.Samples.{batch_of_two, eight, header_9, lookup_of_a, request_for_data};
ghost use Rattle.vfs_grammar.specs.declared.error.Error.{Error};
ghost use Rattle.codec_calls.specs.Shapes.{nothing};
ghost use Rattle.codec_decode.specs.Asked.{IsFinished};
ghost use Rattle.codec_decode.specs.declared.checked.Checked.TheVariants.{Finished, Refused};
ghost use Rattle.codec_decode.specs.Memory.{LacksNoMemory};
ghost use Rattle.codec_decode.specs.Uses.{ForgetsTwo, HasContext, LooksUpA, later_init, mkdir_with_context, ReadsThree, RenamesAToB, rename_of_a_to_b};

use crate::asked::{Asked, ask};
use crate::at_once::ask_at_once;
use crate::checked::{Checked, check, check_as};
use crate::rest::ask_rest;
use crate::with_opcode::ask_as;
use codec_calls::{CallData, number};
use std::alloc::Global;
use vfs_flags::{DEFAULT_MAX_BUFFER, FsOptions};
use vfs_grammar::Limits;
use vfs_segments::{Reader, Writer};

const LIMITS: Limits = Limits {
    page_size: 4096,
    max_buffer: DEFAULT_MAX_BUFFER,
};

/// A LOOKUP of `a` in the root tells its directory, its options and its room, and a range of the
/// request whose one byte is `a`; or there was no memory for a name that is cut.
fn look_up_a(
    alloc: Global,
    options: FsOptions,
    r: Reader<'_>,
    w: &mut Writer,
    call: &mut CallData,
) -> Asked
    requires { r.left ≡ lookup_of_a }
    ensures { LooksUpA (fs_options_bits options) (length w.old.left) result call.new
        ⊎ IsFinished (Refusal Error.OutOfMemory) 0 w.old result w.new call.new }
{
    let room = w.available_bytes();
    ask(alloc, LIMITS, options, r, room, w, call)
}

/// A RENAME of `a` to `b` tells the two names in this order.
fn rename_a_to_b(
    alloc: Global,
    options: FsOptions,
    r: Reader<'_>,
    w: &mut Writer,
    call: &mut CallData,
) -> Asked
    requires { r.left ≡ rename_of_a_to_b }
    ensures { RenamesAToB (fs_options_bits options) (length w.old.left) result call.new
        ⊎ IsFinished (Refusal Error.OutOfMemory) 0 w.old result w.new call.new }
{
    let room = w.available_bytes();
    ask(alloc, LIMITS, options, r, room, w, call)
}

/// A MKDIR with a context tells its name and its value, where contexts were agreed on.
fn make_with_context(
    alloc: Global,
    options: FsOptions,
    r: Reader<'_>,
    w: &mut Writer,
    call: &mut CallData,
) -> Asked
    requires request { r.left ≡ mkdir_with_context }
    requires options { fs_options_bits options ≡ security_ctx }
    ensures { HasContext result call.new
        ⊎ IsFinished (Refusal Error.OutOfMemory) 0 w.old result w.new call.new }
{
    let room = w.available_bytes();
    ask(alloc, LIMITS, options, r, room, w, call)
}

/// A READ of three bytes into a room of twenty tells that there is room for four.
fn read_three(
    alloc: Global,
    options: FsOptions,
    r: Reader<'_>,
    w: &mut Writer,
    call: &mut CallData,
) -> Asked
    requires request { r.left ≡ request_for_data 15 3 }
    requires room { length w.old.left ≡ 20 }
    ensures { ReadsThree (fs_options_bits options) (length w.old.left) result call.new }
{
    let room = w.available_bytes();
    ask(alloc, LIMITS, options, r, room, w, call)
}

/// A GETATTR without its record is refused, no call is told, and nothing is put into the room.
fn getattr_of_a_header_alone(
    alloc: Global,
    options: FsOptions,
    r: Reader<'_>,
    w: &mut Writer,
    call: &mut CallData,
) -> Asked
    requires { r.left ≡ header_9 40 3 }
    ensures { IsFinished (Refusal Error.DecodeMessage) 0 w.old result w.new call.new }
{
    let room = w.available_bytes();
    ask(alloc, LIMITS, options, r, room, w, call)
}

/// The same where the header lies in one piece, and nothing follows it.
fn getattr_of_a_head(
    alloc: Global,
    options: FsOptions,
    head: &[u8],
    r: Reader<'_>,
    w: &mut Writer,
    call: &mut CallData,
) -> Asked
    requires head { head.now ≡ header_9 40 3 }
    requires rest { r.left ≡ [] }
    ensures { IsFinished (Refusal Error.DecodeMessage) 0 w.old result w.new call.new }
{
    let room = w.available_bytes();
    ask_rest(alloc, LIMITS, options, head, r, room, w, call)
}

/// A GETATTR with a whole record is told at once.
fn getattr_at_once(
    options: FsOptions,
    head: &[u8],
    rest: &[u8],
    room: usize,
    call: &mut CallData,
) -> bool
    requires head { head.now ≡ header_9 56 3 }
    requires rest { 16 ≤ length rest.now }
    ensures { result ≡ true }
{
    ask_at_once(LIMITS, options, head, rest, room, call)
}

/// A LOOKUP of `a` that lies in one segment is told: there is memory for its name.
fn look_up_a_in_one_segment(
    alloc: Global,
    options: FsOptions,
    r: Reader<'_>,
    w: &mut Writer,
    call: &mut CallData,
) -> Asked
    requires request { r.left ≡ lookup_of_a }
    requires together { r.pieces ≡ 42 ∷ [] }
    ensures { LooksUpA (fs_options_bits options) (length w.old.left) result call.new }
{
    let room = w.available_bytes();
    ask(alloc, LIMITS, options, r, room, w, call)
}

/// A GETATTR is not refused for want of memory, whatever its bytes are and however they are cut.
fn get_attributes(
    alloc: Global,
    options: FsOptions,
    r: Reader<'_>,
    w: &mut Writer,
    call: &mut CallData,
) -> Asked
    requires { (header_of r.left).opcode ≡ 3 }
    ensures { LacksNoMemory result }
{
    let room = w.available_bytes();
    ask(alloc, LIMITS, options, r, room, w, call)
}

/// An INTERRUPT of request 7 tells its number, and no call.
fn interrupt_seven(
    alloc: Global,
    options: FsOptions,
    r: Reader<'_>,
    w: &mut Writer,
    call: &mut CallData,
) -> u64
    requires { r.left ≡ header_9 48 36 ++ eight 7 }
    ensures told { result ≡ 7 }
    ensures no_call { call.new ≡ nothing }
{
    let room = w.available_bytes();
    match ask(alloc, LIMITS, options, r, room, w, call) {
        Asked::Finished {
            outcome: _,
            interrupts,
        } => interrupts,
        Asked::Call => 0,
    }
}

/// A request of another opcode, asked as a LOOKUP of the same bytes, is that LOOKUP.
fn look_up_a_as(
    alloc: Global,
    options: FsOptions,
    r: Reader<'_>,
    w: &mut Writer,
    call: &mut CallData,
) -> Asked
    requires { r.left ≡ header_9 42 51 ++ (0x61 ∷ 0 ∷ []) }
    ensures { LooksUpA (fs_options_bits options) (length w.old.left) result call.new
        ⊎ IsFinished (Refusal Error.OutOfMemory) 0 w.old result w.new call.new }
{
    let room = w.available_bytes();
    ask_as(number::LOOKUP, alloc, LIMITS, options, r, room, w, call)
}

/// A header alone, checked as a GETATTR, is refused, and no call is told.
fn check_getattr_as(
    alloc: Global,
    options: FsOptions,
    r: Reader<'_>,
    room: usize,
    call: &mut CallData,
) -> Checked
    requires { r.left ≡ header_9 40 51 }
    ensures result { result ≡ Refused Error.DecodeMessage }
    ensures no_call { call.new ≡ nothing }
{
    check_as(number::GETATTR, alloc, LIMITS, options, r, room, call)
}

/// An INIT of the major version 8 is told ours, in 80 bytes: with one byte less of room it is refused, and no call
/// is told.
fn check_later_init(
    alloc: Global,
    options: FsOptions,
    r: Reader<'_>,
    call: &mut CallData,
) -> Checked
    requires { r.left ≡ later_init }
    ensures result { result ≡ Refused Error.EncodeMessage }
    ensures no_call { call.new ≡ nothing }
{
    check(alloc, LIMITS, options, r, 79, call)
}

/// An INTERRUPT of request 7 that is checked is finished, and tells that number and no call.
fn check_interrupt_of_seven(
    alloc: Global,
    options: FsOptions,
    r: Reader<'_>,
    room: usize,
    call: &mut CallData,
) -> Checked
    requires { r.left ≡ header_9 48 36 ++ eight 7 }
    ensures result { result ≡ Finished 7 }
    ensures no_call { call.new ≡ nothing }
{
    check(alloc, LIMITS, options, r, room, call)
}

/// A BATCH_FORGET of two pairs tells where they lie: in 32 bytes of the request, which spell them; or there was no
/// memory for them.
fn forget_two(
    alloc: Global,
    options: FsOptions,
    r: Reader<'_>,
    w: &mut Writer,
    call: &mut CallData,
) -> Asked
    requires { r.left ≡ batch_of_two }
    ensures { ForgetsTwo result call.new
        ⊎ IsFinished (Refusal Error.OutOfMemory) 0 w.old result w.new call.new }
{
    let room = w.available_bytes();
    ask(alloc, LIMITS, options, r, room, w, call)
}
