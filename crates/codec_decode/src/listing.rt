//! What a READDIR or a READDIRPLUS asks.

ghost use Rattle.std.specs.Prelude.{◌≡◌, ℕ, List};
ghost use Rattle.vfs_flags.specs.Flags.{fs_options_bits};
ghost use Rattle.vfs_wire_more.specs.Records.{read_in};
ghost use Rattle.codec_calls.specs.Shapes.{nothing};
ghost use Rattle.vfs_grammar.specs.Ask.{listing_of, lists_too_much};
ghost use Rattle.vfs_grammar.specs.Forms.{Directories, Record, ask_form};
ghost use Rattle.codec_decode.specs.declared.asked.Asked.TheVariants.{Call as IsCall};
ghost use Rattle.codec_decode.specs.Room.{KeepsRoom};
ghost use Rattle.codec_decode.specs.Asked.{Tells};

use crate::asked::Asked;
use bitflags::Flags;
use codec_calls::{CallData, has};
use vfs_flags::{Errno, FsOptions};
use vfs_grammar::{Error, Limits};
use vfs_messages::{Request, reply_failed};
use vfs_segments::Writer;
use vfs_wire::{ByteValued, OutHeader};
use vfs_wire_more::ReadIn;

/// What a READDIR asks, or with `plus` a READDIRPLUS: the directory is to be read.
#[inline(never)]
pub fn ask_listing(
    plus: bool,
    limits: Limits,
    options: FsOptions,
    mut q: Request<'_, '_>,
    room: usize,
    w: &mut Writer,
    call: &mut CallData,
) -> Asked
    requires { call.old ≡ nothing }
    ensures told { (request : List ℕ) → Tells ⊥ request (fs_options_bits options) 0 room
        (ask_form q.entry.header.now q.entry.r.now.left
        (Directories (Record read_in) (lists_too_much limits room) room
        (listing_of plus q.entry.header.now)))
        w.old result w.new call.new }
    ensures room { result ≡ IsCall → KeepsRoom w.old w.new }
{
    let read_in = match q.record::<ReadIn>() {
        Ok(read_in) => read_in,
        Err(error) => return Asked::finished(Err(error)),
    };
    if read_in.size > limits.max_buffer || read_in.size as usize > room {
        return Asked::finished(reply_failed(Some(Errno::ENOMEM), q.header.unique, w));
    }
    if room < OutHeader::SIZE {
        return Asked::finished(Err(Error::EncodeMessage));
    }
    call.note_readdir(
        q.context(),
        q.node(),
        read_in.fh,
        read_in.size,
        read_in.offset,
    );
    call.unique = q.header.unique;
    call.options = options.bits();
    call.room = room as u64;
    call.has = if plus { has::PLUS } else { 0 };
    Asked::Call
}
