//! Where a security context is among the extensions of a request.

ghost use Rattle.std.specs.Prelude.{◌≡◌, Err, drop};
ghost use Rattle.vfs_flags.specs.Flags.{fs_options_bits};
ghost use Rattle.codec_decode.specs.Contexts.{GivesTailOf, PlacesContext, StandsInBlocks, last_name, may_have_context, tail_after};

use crate::parts::place_after;
use bitflags::Flags;
use codec_calls::{CallData, Range};
use std::alloc::Global;
use vfs_flags::{FsOptions, Opcode};
use vfs_grammar::{Error, Result};
use vfs_messages::{Tail, read_record, read_tail};
use vfs_segments::Reader;
use vfs_wire::parts::part_at;
use vfs_wire::{ByteValued, ExtHeader, InHeader, Secctx};
use vfs_wire_more::{CreateIn, MkdirIn, MknodIn};

/// The type of a block of one context.
const ONE_CONTEXT: u32 = 1;

/// The place of the name of the context in these blocks, which are one after the other, where they
/// have one.
fn context_place(blocks: &[u8]) -> usize
    ensures { StandsInBlocks blocks.now result }
{
    let mut at = 0;
    let mut left = blocks;
    while left.len() >= ExtHeader::SIZE {
        let header = part_at::<ExtHeader>(left, 0);
        if header.ext_type == ONE_CONTEXT {
            return at + ExtHeader::SIZE + Secctx::SIZE;
        }
        let size = header.size as usize;
        if size < ExtHeader::SIZE || left.len() < size {
            return 0;
        }
        at += size;
        left = &left[size..];
    }
    0
}

/// Whether a request of this opcode may have a context, where these options are agreed on.
pub fn may_have_context(opcode: Opcode, options: FsOptions) -> bool
    ensures { result ≡ may_have_context (fs_options_bits options) opcode }
{
    match opcode {
        Opcode::Symlink | Opcode::Mknod | Opcode::Mkdir | Opcode::Create => {
            options.intersects(FsOptions::SECURITY_CTX)
        }
        _ => false,
    }
}

/// The tail of a request that may have a context, after whose header `r` is: the bytes that its
/// names and its blocks lie in. It is refused as the request is.
pub fn read_tail_of<'a>(
    opcode: Opcode,
    alloc: Global,
    header: &InHeader,
    r: &mut Reader<'a>,
) -> Result<Tail<'a>>
    ensures { GivesTailOf result (tail_after opcode header.now r.old.left) }
{
    match opcode {
        Opcode::Mknod => {
            read_record::<MknodIn>(r)?;
            read_tail(alloc, header, MknodIn::SIZE, r)
        }
        Opcode::Mkdir => {
            read_record::<MkdirIn>(r)?;
            read_tail(alloc, header, MkdirIn::SIZE, r)
        }
        Opcode::Create => {
            read_record::<CreateIn>(r)?;
            read_tail(alloc, header, CreateIn::SIZE, r)
        }
        _ => read_tail(alloc, header, 0, r),
    }
}

/// The last name or text of a call, after which its blocks are.
fn last_name(opcode: Opcode, call: &CallData) -> Range
    ensures { result ≡ last_name opcode call.now }
{
    match opcode {
        Opcode::Symlink => call.other_name,
        _ => call.name,
    }
}

/// Tells the place of the context of a call, where it has one, whose names are told, and whose
/// request has this tail.
pub fn place_context(opcode: Opcode, tail: &[u8], call: &mut CallData)
    ensures { PlacesContext opcode tail.now call.old call.new }
{
    let place = place_after(last_name(opcode, call));
    let blocks = bytes_after(tail, place.saturating_sub(call.name.at));
    let at = place.saturating_add(context_place(blocks) as u64);
    if call.context.len != 0 {
        call.context_name.at = at;
        call.context.at = place_after(call.context_name);
    }
}

/// The bytes from this place on, none where it is past the end.
fn bytes_after(bytes: &[u8], place: u64) -> &[u8]
    ensures { result.now ≡ drop place bytes.now }
{
    if place > bytes.len() as u64 {
        return &[];
    }
    &bytes[place as usize..]
}

/// Why a request is refused where there is no memory for a copy of its tail.
pub fn refusal_of_tail(
    opcode: Opcode,
    alloc: Global,
    header: &InHeader,
    r: &mut Reader<'_>,
) -> Error
    ensures { GivesTailOf (Err result) (tail_after opcode header.now r.old.left) }
{
    match read_tail_of(opcode, alloc, header, r) {
        Ok(_) => Error::OutOfMemory,
        Err(error) => error,
    }
}
