//! What a request is, and what it asks, without a reply.

ghost use Rattle.std.specs.Prelude.{◌≡◌, ◌<◌, ◌≤◌, ◌^◌, ℕ, List, Some, false, true};
ghost use Rattle.vfs_flags.specs.Flags.{fs_options_bits};
ghost use Rattle.vfs_flags.specs.Numbers.{opcode_of};
ghost use Rattle.vfs_flags.specs.declared.opcode.Opcode.{Opcode};
ghost use Rattle.vfs_grammar.specs.Forms.{Versions, ask_form, ask_version};
ghost use Rattle.vfs_grammar.specs.Limits.{AreLimits, max_len};
ghost use Rattle.codec_calls.specs.Shapes.{nothing};
ghost use Rattle.codec_decode.specs.Checked.{IsChecked, Judges, JudgesHeader, answered as answered_in, checked_of};
ghost use Rattle.codec_decode.specs.WithOpcode.{unread_with_opcode};

use crate::asked::{Asked, LONGEST_REPLY, Terms, ask_after};
use crate::clear::{clear_numbers, clear_places};
use crate::init::ask_of_version;
use codec_calls::CallData;
use std::alloc::Global;
use vfs_flags::{FsOptions, KERNEL_VERSION, Opcode};
use vfs_grammar::{Error, Limits};
use vfs_messages::{Request, read_record, read_second_flags};
use vfs_segments::{Reader, Writer};
use vfs_wire::{ByteValued, InHeader, InitInCompat, OutHeader};

/// What a request is.
#[derive(Clone, Copy)]
pub enum Checked {
    /// It is whole, and asks for a call, which is told.
    Call,
    /// It needs no file system, and is answered without one, or not at all.
    Finished {
        /// Of an INTERRUPT the number (`unique`) of the request that it means, and else 0.
        interrupts: u64,
    },
    /// It is refused.
    Refused(Error),
}

// What a request is to which a reply of `len` bytes is due.
fn answered(room: usize, interrupts: u64, len: usize) -> Checked
    ensures { result ≡ answered_in room interrupts len }
{
    if room < len {
        Checked::Refused(Error::EncodeMessage)
    } else {
        Checked::Finished { interrupts }
    }
}

impl Checked {
    // What a request is that came to this without room for a reply, if that is a header alone, where there would be
    // that much room.
    fn of(asked: &Asked, room: usize) -> Checked
        ensures { result ≡ checked_of room asked.now }
    {
        match asked {
            Asked::Call => Checked::Call,
            Asked::Finished {
                outcome: Ok(_),
                interrupts,
            } => Checked::Finished {
                interrupts: *interrupts,
            },
            Asked::Finished {
                outcome: Err(Error::EncodeMessage),
                interrupts,
            } => answered(room, *interrupts, OutHeader::SIZE),
            Asked::Finished {
                outcome: Err(error),
                interrupts: _,
            } => Checked::Refused(*error),
        }
    }
}

// What an INIT of this version is.
fn check_version(
    alloc: Global,
    header: &InHeader,
    init_in: &InitInCompat,
    flags2: u32,
    options: FsOptions,
    room: usize,
    call: &mut CallData,
) -> Checked
    requires { call.old ≡ nothing }
    ensures { (request : List ℕ) → Judges ⊥ request (fs_options_bits options) 0 room
        (ask_version header.now init_in.now flags2) result call.new }
{
    // (a later major version is told ours, in a record)
    if init_in.major > KERNEL_VERSION {
        return answered(room, 0, LONGEST_REPLY);
    }
    let mut nowhere = Writer::empty(alloc);
    Checked::of(
        &ask_of_version(header, init_in, flags2, options, room, &mut nowhere, call),
        room,
    )
}

// What an INIT with this header is, after which `r` is.
fn check_init(
    alloc: Global,
    header: &InHeader,
    options: FsOptions,
    r: &mut Reader<'_>,
    room: usize,
    call: &mut CallData,
) -> Checked
    requires { call.old ≡ nothing }
    ensures { (request : List ℕ) → Judges ⊥ request (fs_options_bits options) 0 room
        (ask_form header.now r.old.left Versions) result call.new }
{
    let init_in = match read_record::<InitInCompat>(r) {
        Ok(init_in) => init_in,
        Err(error) => return Checked::Refused(error),
    };
    match read_second_flags(init_in.flags, r) {
        Ok(flags2) => check_version(alloc, header, &init_in, flags2, options, room, call),
        Err(error) => Checked::Refused(error),
    }
}

// Whether a request is an INIT whose records are looked at.
fn is_init(limits: Limits, header: &InHeader) -> bool
    requires { AreLimits limits }
    ensures init { result ≡ true →
        (opcode_of header.now.opcode ≡ Some Opcode.Init) × (header.now.len ≤ max_len limits) }
    ensures other { result ≡ false → opcode_of header.now.opcode ≡ Some Opcode.Init →
        max_len limits < header.now.len }
{
    match Opcode::try_from(header.opcode) {
        Ok(Opcode::Init) => header.len <= limits.max_len(),
        _ => false,
    }
}

// What a request with this header is.
fn check_after(terms: Terms, q: Request<'_, '_>, call: &mut CallData) -> Checked
    requires limits { AreLimits terms.limits }
    requires fits { terms.len < 2 ^ 64 }
    requires none { call.old ≡ nothing }
    ensures { JudgesHeader terms q.entry.header.now q.entry.r.now result call.new }
{
    let room = terms.room;
    if is_init(terms.limits, q.header) {
        return check_init(q.alloc, q.header, terms.options, q.r, room, call);
    }
    let mut nowhere = Writer::empty(q.alloc);
    Checked::of(&ask_after(terms, q, &mut nowhere, call), room)
}

/// What the request is that `r` has left, with the options that are agreed on and `room` bytes of room for a
/// reply. A call that it asks for is told in `call`, as by [`ask`](crate::ask); else that is none.
///
/// No reply is put. Memory is taken as by `ask`, and so of a request in one piece for the pairs of a
/// BATCH_FORGET and for a security context alone.
pub fn check(
    alloc: Global,
    limits: Limits,
    options: FsOptions,
    mut r: Reader<'_>,
    room: usize,
    call: &mut CallData,
) -> Checked
    requires { AreLimits limits }
    ensures { IsChecked limits (fs_options_bits options) r.entry room result call.new }
{
    clear_places(call);
    let len = r.available_bytes() as u64;
    let header = read_record::<InHeader>(&mut r);
    clear_numbers(call);
    match header {
        Ok(header) => {
            let (header, r) = (&header, &mut r);
            let terms = Terms {
                limits,
                options,
                len,
                room,
            };
            check_after(terms, Request { alloc, header, r }, call)
        }
        Err(error) => Checked::Refused(error),
    }
}

/// What the request is that `r` has left with this number in place of its opcode: [`check`] of those bytes.
pub fn check_as(
    opcode: u32,
    alloc: Global,
    limits: Limits,
    options: FsOptions,
    mut r: Reader<'_>,
    room: usize,
    call: &mut CallData,
) -> Checked
    requires { AreLimits limits }
    ensures { IsChecked limits (fs_options_bits options) (unread_with_opcode opcode r.entry) room
        result call.new }
{
    clear_places(call);
    let len = r.available_bytes() as u64;
    let header = read_record::<InHeader>(&mut r);
    clear_numbers(call);
    match header {
        Ok(header) => {
            let (header, r) = (&InHeader { opcode, ..header }, &mut r);
            let terms = Terms {
                limits,
                options,
                len,
                room,
            };
            check_after(terms, Request { alloc, header, r }, call)
        }
        Err(error) => Checked::Refused(error),
    }
}
