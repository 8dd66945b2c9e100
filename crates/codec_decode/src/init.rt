//! What an INIT asks.

ghost use Rattle.std.specs.Prelude.{◌≡◌, ℕ, List};
ghost use Rattle.vfs_flags.specs.Flags.{fs_options_bits};
ghost use Rattle.vfs_grammar.specs.Forms.{Versions, ask_form, ask_version};
ghost use Rattle.codec_calls.specs.Shapes.{nothing};
ghost use Rattle.codec_decode.specs.Room.{KeepsRoom};
ghost use Rattle.codec_decode.specs.Asked.{Tells, init_told};
ghost use Rattle.codec_decode.specs.declared.asked.Asked.TheVariants.{Call as IsCall};

use crate::asked::Asked;
use bitflags::Flags;
use codec_calls::{CallData, kind, number};
use vfs_flags::FsOptions;
use vfs_messages::{offered_options, read_record, read_second_flags, reply_unserved};
use vfs_segments::{Reader, Writer};
use vfs_wire::{InHeader, InitInCompat};

/// What an INIT with this header asks, after which `r` is: its one or two records.
#[inline(never)]
pub fn ask_init(
    header: &InHeader,
    options: FsOptions,
    r: &mut Reader<'_>,
    room: usize,
    w: &mut Writer,
    call: &mut CallData,
) -> Asked
    requires { call.old ≡ nothing }
    ensures told { (request : List ℕ) → Tells ⊥ request (fs_options_bits options) 0 room
        (ask_form header.now r.old.left Versions) w.old result w.new call.new }
    ensures room { result ≡ IsCall → KeepsRoom w.old w.new }
{
    let init_in = match read_record::<InitInCompat>(r) {
        Ok(init_in) => init_in,
        Err(error) => return Asked::finished(Err(error)),
    };
    match read_second_flags(init_in.flags, r) {
        Ok(flags2) => ask_of_version(header, &init_in, flags2, options, room, w, call),
        Err(error) => Asked::finished(Err(error)),
    }
}

// What an INIT of this version asks: it is refused, or told ours, where it isn't served.
pub fn ask_of_version(
    header: &InHeader,
    init_in: &InitInCompat,
    flags2: u32,
    options: FsOptions,
    room: usize,
    w: &mut Writer,
    call: &mut CallData,
) -> Asked
    requires { call.old ≡ nothing }
    ensures told { (request : List ℕ) → Tells ⊥ request (fs_options_bits options) 0 room
        (ask_version header.now init_in.now flags2) w.old result w.new call.new }
    ensures room { result ≡ IsCall → KeepsRoom w.old w.new }
{
    match reply_unserved(header, init_in, w) {
        Some(outcome) => Asked::finished(outcome),
        None => tell_init(header, init_in, flags2, options, room, call),
    }
}

// The call of an INIT that is served.
fn tell_init(
    header: &InHeader,
    init_in: &InitInCompat,
    flags2: u32,
    options: FsOptions,
    room: usize,
    call: &mut CallData,
) -> Asked
    requires { call.old ≡ nothing }
    ensures asked { result ≡ IsCall }
    ensures told { call.new ≡ init_told header.now init_in.now flags2 (fs_options_bits options) room }
{
    call.call = number::INIT;
    call.answer = kind::INIT;
    call.unique = header.unique;
    call.readahead = init_in.max_readahead;
    call.options = options.bits();
    call.room = room as u64;
    call.length = offered_options(init_in.flags, flags2).bits();
    Asked::Call
}
