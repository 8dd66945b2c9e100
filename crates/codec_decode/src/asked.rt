//! What a request asks.

ghost use Rattle.std.specs.Prelude.{◌≡◌, ◌≢◌, ◌<◌, ◌≤◌, ◌^◌, ◌+◌, ℕ, List, Ok, Some, false, length, true};
ghost use Rattle.vfs_flags.specs.Flags.{fs_options_bits};
ghost use Rattle.vfs_flags.specs.Numbers.{opcode_of};
ghost use Rattle.vfs_flags.specs.declared.opcode.Opcode.{Opcode};
ghost use Rattle.vfs_wire_more.specs.Locks.{interrupt_in};
ghost use Rattle.vfs_messages.specs.Rooms.{with_after};
ghost use Rattle.vfs_grammar.specs.Ask.{ask};
ghost use Rattle.vfs_grammar.specs.Words.{ask_opcode};
ghost use Rattle.vfs_grammar.specs.Limits.{AreLimits, max_len};
ghost use Rattle.vfs_grammar.specs.Records.{record_of};
ghost use Rattle.vfs_server.specs.MemoryByPieces.{MayWantAfter};
ghost use Rattle.codec_calls.specs.Shapes.{nothing};
ghost use Rattle.codec_decode.specs.declared.asked.Asked.TheVariants.{Finished, Call as IsCall};
ghost use Rattle.codec_decode.specs.Contexts.{may_have_context};
ghost use Rattle.codec_decode.specs.Memory.{LacksNoMemory, MayWant};
ghost use Rattle.codec_decode.specs.Noting.{IsNoted, NotedAndTold};
ghost use Rattle.codec_decode.specs.Terms.{TellsOfHeader, TellsOfOpcode};
ghost use Rattle.codec_decode.specs.Parts.{told_with};
ghost use Rattle.codec_decode.specs.Room.{KeepsRoom};
ghost use Rattle.codec_decode.specs.Asked.{IsAsked, IsEnough, LiesWithin, Tells, interrupted_by, unique_or_none};

use crate::clear::{clear_numbers, clear_places};
use crate::contexts::{may_have_context, place_context, read_tail_of, refusal_of_tail};
use crate::direct::{note_getattr, note_lookup, note_read, note_write};
use crate::init::ask_init;
use crate::listing::ask_listing;
use crate::note::note;
use crate::parts::Parts;
use bitflags::Flags;
use codec_calls::CallData;
use std::alloc::Global;
use vfs_flags::{Errno, FsOptions, Opcode};
use vfs_grammar::{Limits, Result};
use vfs_messages::{Request, read_record, reply_failed};
use vfs_segments::{Reader, Writer};
use vfs_wire::InHeader;
use vfs_wire_more::InterruptIn;

/// What a request asks.
#[derive(Drop)]
pub enum Asked {
    /// A call, which is told.
    Call,
    /// Nothing more.
    Finished {
        /// What the request came to.
        outcome: Result<usize>,
        /// Of an INTERRUPT the number (`unique`) of the request that it means, and else 0.
        interrupts: u64,
    },
}

impl Asked {
    /// A request that is no INTERRUPT came to this.
    pub(crate) fn finished(outcome: Result<usize>) -> Asked
        ensures { result ≡ Finished outcome 0 }
    {
        Asked::Finished {
            outcome,
            interrupts: 0,
        }
    }
}

/// Under what a request is asked.
#[derive(Clone, Copy)]
pub(crate) struct Terms {
    /// The sizes that a server goes by.
    pub(crate) limits: Limits,
    /// The options that are agreed on.
    pub(crate) options: FsOptions,
    /// How many bytes the request has.
    pub(crate) len: u64,
    /// How many bytes the room for its reply has.
    pub(crate) room: usize,
}

/// How many bytes a reply to a request that asks for no call has at most.
pub const LONGEST_REPLY: usize = 80;

/// What the request asks that `r` has left, with the options that are agreed on and `room` bytes of room
/// for the reply: a call, which is told in `call`, or that it is finished, and what it came to.
///
/// `w` has the room left, or the first `LONGEST_REPLY` bytes of it. A finished request has its reply
/// there, and `call` is none. It is refused by the errors of a server's `handle_message`; after each
/// but `EncodeMessage` the room is as it was. Of a told call the room holds nothing of worth: `w` is
/// to be made anew for the answer.
///
/// Memory is taken for a tail that is cut between two segments, for the pairs of a BATCH_FORGET, for a
/// security context, and, where contexts are agreed on, for a second reader of more than four
/// segments.
pub fn ask(
    alloc: Global,
    limits: Limits,
    options: FsOptions,
    r: Reader<'_>,
    room: usize,
    w: &mut Writer,
    call: &mut CallData,
) -> Asked
    requires limits { AreLimits limits }
    requires enough { IsEnough (length w.old.left) room }
    ensures asked { (following : List ℕ) → length w.old.left + length following ≡ room →
        IsAsked limits (fs_options_bits options) r.entry.left (with_after w.old following) result
        (with_after w.new following) call.new }
    ensures within { LiesWithin (length w.old.left) result }

    // It is refused for want of memory only where its tail is cut, it may have a context, or it has pairs.
    ensures memory { ¬ (MayWant limits (fs_options_bits options) room r.entry) → LacksNoMemory result }

    // The room is as long as before, for the next request.
    ensures room { result ≡ IsCall → KeepsRoom w.old w.new }
{
    ask_request(alloc, limits, options, r, room, w, call)
}

// The same, whatever room `w` has left: a finished request has as much of its reply there as fits.
#[inline(always)]
pub(crate) fn ask_request(
    alloc: Global,
    limits: Limits,
    options: FsOptions,
    mut r: Reader<'_>,
    room: usize,
    w: &mut Writer,
    call: &mut CallData,
) -> Asked
    requires { AreLimits limits }
    ensures told { Tells (MayWant limits (fs_options_bits options) room r.entry) r.entry.left
        (fs_options_bits options) (interrupted_by limits r.entry.left) room
        (ask limits (fs_options_bits options) room r.entry.left) w.old result w.new call.new }
    ensures room { result ≡ IsCall → KeepsRoom w.old w.new }
{
    clear_places(call);
    let len = r.available_bytes() as u64;
    let header = read_record::<InHeader>(&mut r);
    clear_numbers(call);
    match header {
        Ok(header) => {
            let (header, r) = (&header, &mut r);
            let terms = Terms {
                limits,
                options,
                len,
                room,
            };
            ask_after(terms, Request { alloc, header, r }, w, call)
        }
        Err(error) => Asked::finished(Err(error)),
    }
}

// What a request with this header asks.
#[inline(always)]
pub(crate) fn ask_after(
    terms: Terms,
    q: Request<'_, '_>,
    w: &mut Writer,
    call: &mut CallData,
) -> Asked
    requires limits { AreLimits terms.limits }
    requires fits { terms.len < 2 ^ 64 }
    requires none { call.old ≡ nothing }
    ensures told { TellsOfHeader terms q.entry.header.now q.entry.r.now w.old result w.new call.new }
    ensures room { result ≡ IsCall → KeepsRoom w.old w.new }
{
    let Terms {
        limits,
        options,
        len: _,
        room,
    } = terms;
    if q.header.len > limits.max_len() {
        return Asked::finished(reply_failed(Some(Errno::ENOMEM), q.header.unique, w));
    }
    if q.header.opcode == Opcode::Interrupt as u32 {
        return Asked::Finished {
            outcome: Ok(0),
            interrupts: interrupted(q.r),
        };
    }
    match Opcode::try_from(q.header.opcode) {
        Ok(Opcode::Init) => ask_init(q.header, options, q.r, room, w, call),
        Ok(Opcode::Readdir) => ask_listing(false, limits, options, q, room, w, call),
        Ok(Opcode::Readdirplus) => ask_listing(true, limits, options, q, room, w, call),
        Ok(opcode) => ask_of_opcode(opcode, terms, q, w, call),
        Err(()) => Asked::finished(reply_failed(Some(Errno::ENOSYS), q.header.unique, w)),
    }
}

// The request that an INTERRUPT means, whose record is next.
fn interrupted(r: &mut Reader<'_>) -> u64
    ensures { result ≡ unique_or_none (record_of interrupt_in r.old.left) }
{
    match read_record::<InterruptIn>(r) {
        Ok(interrupt_in) => interrupt_in.unique,
        Err(_) => 0,
    }
}

// What a request of this opcode asks, which is no INIT, no INTERRUPT and reads no directory.
#[inline(always)]
fn ask_of_opcode(
    opcode: Opcode,
    terms: Terms,
    q: Request<'_, '_>,
    w: &mut Writer,
    call: &mut CallData,
) -> Asked
    requires limits { AreLimits terms.limits }
    requires fits { terms.len < 2 ^ 64 }
    requires none { call.old ≡ nothing }
    requires known { opcode_of q.header.now.opcode ≡ Some opcode }
    requires below { q.header.now.len ≤ max_len terms.limits }
    requires no_readdir { opcode ≢ Opcode.Readdir }
    requires no_readdirplus { opcode ≢ Opcode.Readdirplus }
    requires no_init { opcode ≢ Opcode.Init }
    ensures told { TellsOfOpcode terms opcode q.entry.header.now q.entry.r.now w.old result w.new
        call.new }
    ensures room { result ≡ IsCall → KeepsRoom w.old w.new }
{
    if may_have_context(opcode, terms.options) {
        ask_with_context(opcode, terms, q, w, call)
    } else {
        tell(opcode, terms, q, w, call)
    }
}

// What a request of this opcode asks, which may have a context.
#[inline(never)]
fn ask_with_context(
    opcode: Opcode,
    terms: Terms,
    q: Request<'_, '_>,
    w: &mut Writer,
    call: &mut CallData,
) -> Asked
    requires limits { AreLimits terms.limits }
    requires fits { terms.len < 2 ^ 64 }
    requires none { call.old ≡ nothing }
    requires known { opcode_of q.header.now.opcode ≡ Some opcode }
    requires below { q.header.now.len ≤ max_len terms.limits }
    requires no_readdir { opcode ≢ Opcode.Readdir }
    requires no_readdirplus { opcode ≢ Opcode.Readdirplus }
    requires context { may_have_context (fs_options_bits terms.options) opcode ≡ true }
    ensures told { TellsOfOpcode terms opcode q.entry.header.now q.entry.r.now w.old result w.new
        call.new }
    ensures room { result ≡ IsCall → KeepsRoom w.old w.new }
{
    let mut again = match q.r.clone() {
        Ok(again) => again,
        Err(_) => {
            return Asked::finished(Err(refusal_of_tail(opcode, q.alloc, q.header, q.r)));
        }
    };
    let tail = match read_tail_of(opcode, q.alloc, q.header, &mut again) {
        Ok(tail) => tail,
        Err(error) => return Asked::finished(Err(error)),
    };
    let asked = tell(opcode, terms, q, w, call);
    place_context(opcode, tail.as_bytes(), call);
    asked
}

// Notes the call of a request of this opcode, or finishes the request: those that are asked for most
// by themselves, and the others over a handler.
#[inline(always)]
fn note_opcode(
    opcode: Opcode,
    terms: Terms,
    q: Request<'_, '_>,
    w: &mut Writer,
    call: &mut CallData,
) -> Result<usize>
    requires limits { AreLimits terms.limits }
    requires none { call.old ≡ nothing }
    requires known { opcode_of q.header.now.opcode ≡ Some opcode }
    requires below { q.header.now.len ≤ max_len terms.limits }
    requires no_readdir { opcode ≢ Opcode.Readdir }
    requires no_readdirplus { opcode ≢ Opcode.Readdirplus }
    ensures noted { IsNoted
        (MayWantAfter terms.limits (fs_options_bits terms.options) terms.room (Some opcode)
        q.entry.header.now q.entry.r.now.pieces)
        (ask_opcode terms.limits (fs_options_bits terms.options) terms.room opcode q.entry.header.now
        q.entry.r.now.left)
        w.old result w.new call.new }
    ensures room { KeepsRoom w.old w.new }
{
    match opcode {
        Opcode::Lookup => note_lookup(q, call),
        Opcode::Getattr => note_getattr(q, call),
        Opcode::Read => note_read(terms.room, q, call),
        Opcode::Write => note_write(q, call),
        _ => note(terms.limits, terms.options, q, w, call),
    }
}

// Notes the call of a request, and tells it with the places of its names and values.
#[inline(always)]
fn tell(
    opcode: Opcode,
    terms: Terms,
    q: Request<'_, '_>,
    w: &mut Writer,
    call: &mut CallData,
) -> Asked
    requires limits { AreLimits terms.limits }
    requires none { call.old ≡ nothing }
    requires known { opcode_of q.header.now.opcode ≡ Some opcode }
    requires below { q.header.now.len ≤ max_len terms.limits }
    requires no_readdir { opcode ≢ Opcode.Readdir }
    requires no_readdirplus { opcode ≢ Opcode.Readdirplus }
    ensures told { NotedAndTold
        (MayWantAfter terms.limits (fs_options_bits terms.options) terms.room (Some opcode)
        q.entry.header.now q.entry.r.now.pieces)
        (ask_opcode terms.limits (fs_options_bits terms.options) terms.room opcode q.entry.header.now
        q.entry.r.now.left)
        (told_with q.entry.header.now.unique (fs_options_bits terms.options) terms.room terms.len
        opcode)
        w.old result w.new call.new }
    ensures room { result ≡ IsCall → KeepsRoom w.old w.new }
{
    let unique = q.header.unique;
    let outcome = note_opcode(opcode, terms, q, w, call);
    if call.call == 0 {
        return Asked::finished(outcome);
    }
    complete(opcode, terms, unique, call);
    Asked::Call
}

// Tells what a call of a request of this opcode has besides: its number, the terms, and the places of its
// names and values.
#[inline(always)]
pub(crate) fn complete(opcode: Opcode, terms: Terms, unique: u64, call: &mut CallData)
    ensures { call.new ≡ told_with unique (fs_options_bits terms.options) terms.room terms.len opcode
        call.old }
{
    call.unique = unique;
    call.options = terms.options.bits();
    call.room = terms.room as u64;
    Parts::of(opcode, terms.options).place(terms.len, terms.room as u64, call);
}
