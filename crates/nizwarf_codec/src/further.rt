//! Decoding for a file system that serves optional operations, which virtiofsd lacks.

ghost use Rattle.std.specs.Prelude.{◌≡◌, ◌≢◌, ◌≤◌, [], length, Err};
ghost use Rattle.vfs_flags.specs.Flags.{fs_options_bits};
ghost use Rattle.vfs_segments.specs.Segments.{segments_of, flat_bytes};
ghost use Rattle.codec_calls.specs.Shapes.{nothing};
ghost use Rattle.vfs_grammar.specs.Limits.{AreLimits};
ghost use Rattle.vfs_grammar.specs.declared.error.Error.TheVariants.{DecodeMessage};
ghost use Rattle.codec_decode.specs.Further.{Unnamed};
ghost use Rattle.c_rooms.specs.Codes.{no_memory, outcome_code};
ghost use Rattle.nizwarf_codec.specs.Asking.{finished, unread_in};
ghost use Rattle.nizwarf_codec.specs.Further.{AsksOffered, ChecksOffered, HoldsOffered, MayWantOffered, named};
ghost use Rattle.nizwarf_codec.specs.Kept.{HoldsIfTold, KeepsAnswers, StaysThere};
ghost use Rattle.nizwarf_codec.specs.Shown.{shown_in};

use crate::ask::{ask_cut, not_asked};
use crate::check::{code_and_number, reader_of};
use crate::data::ToldData;
use crate::handle::Handle;
use crate::{memory_of, show_nothing};
use c_rooms::codes::{ASKED, OUT_OF_MEMORY, told as code_of};
use codec_calls::{CallData, number};
use codec_decode::check_as;
use std::alloc::Global;
use vfs_flags::FsOptions;
use vfs_grammar::{Error, Limits};

// Gives the call of a CREATE that was told the number of a TMPFILE.
fn name(code: i32, call: &mut CallData)
    ensures { call.new ≡ named code call.old }
{
    if code == ASKED {
        call.call = number::TMPFILE;
    }
}

// Refuses a request that is cut.
pub(crate) fn refuse(
    alloc: Global,
    handle: &mut Handle,
    call: &mut CallData,
    told: &mut ToldData,
) -> i32
    ensures code { result ≡ outcome_code (Err DecodeMessage) }
    ensures call { call.new ≡ nothing }
    ensures told { told.new ≡ finished (Err DecodeMessage) 0 told.old }
    ensures shown { shown_in handle.new.value ≡ [] }
    ensures keeps { KeepsAnswers handle.old.value handle.new.value }
    ensures some { StaysThere handle.old.value handle.new.value }
{
    show_nothing(alloc, handle);
    *call = CallData::NONE;
    told.len = 0;
    told.put = 0;
    told.interrupts = 0;
    code_of(&Error::DecodeMessage, 0).0
}

// Asks a TMPFILE as a CREATE.
#[inline(never)]
pub(crate) fn ask_unnamed(
    alloc: Global,
    handle: &mut Handle,
    limits: Limits,
    options: FsOptions,
    request: &[&[u8]],
    room: usize,
    call: &mut CallData,
    told: &mut ToldData,
) -> i32
    requires { AreLimits limits }
    ensures asked { AsksOffered limits (fs_options_bits options) (flat_bytes (segments_of request.now)) room
        Unnamed result call.new told.old told.new (shown_in handle.new.value) }
    ensures memory { HoldsOffered limits (fs_options_bits options) (flat_bytes (segments_of request.now)) room
        Unnamed handle.old.value → length request.now ≤ 4 →
        ¬ (MayWantOffered limits (fs_options_bits options) room (unread_in (segments_of request.now))
        Unnamed) → result ≢ no_memory }
    ensures kept { HoldsIfTold result call.new handle.new.value }
    ensures keeps { KeepsAnswers handle.old.value handle.new.value }
    ensures some { StaysThere handle.old.value handle.new.value }
{
    let Some(mut memory) = memory_of(alloc, handle) else {
        return not_asked(OUT_OF_MEMORY, call);
    };
    let code = ask_cut(
        alloc,
        &mut memory,
        limits,
        options,
        true,
        request,
        room,
        call,
        told,
    );
    handle.put(memory);
    name(code, call);
    code
}

// Says what a TMPFILE in one piece is, as a CREATE.
pub(crate) fn check_unnamed(
    alloc: Global,
    limits: Limits,
    options: FsOptions,
    request: &[u8],
    room: usize,
    call: &mut CallData,
    interrupts: &mut u64,
) -> i32
    requires limits { AreLimits limits }
    requires whole { 40 ≤ length request.now }
    ensures { ChecksOffered limits (fs_options_bits options) request.now room Unnamed
        result call.new interrupts.new }
{
    // (no slice is longer than that)
    let _len = request.len();
    let pieces = [request];
    let reader = reader_of(alloc, &pieces);
    let (code, number) = code_and_number(&check_as(
        number::CREATE,
        alloc,
        limits,
        options,
        reader,
        room,
        call,
    ));
    *interrupts = number;
    name(code, call);
    code
}
