//! What the reply to an INIT agrees on beyond what virtiofsd's does.

ghost use Rattle.std.specs.Prelude.{◌≡◌, ◌++◌, length, take, true, false, max, min};
ghost use Rattle.vfs_wire.specs.Fields.{bytes_of};
ghost use Rattle.vfs_wire.specs.Records.{init_out};
ghost use Rattle.vfs_notices.specs.Init.{AddsNothing, Agrees, further_agreed, further_offered as offered_in, in_place, reply_with_more, said_in, with_more as said_with};

use bitflags::Flags;
use vfs_flags::{FsOptions, LEAST_MAX_BUFFER, Opcode};
use vfs_wire::parts::{part_at, put_first};
use vfs_wire::{ByteValued, InHeader, InitInCompat, InitInExt, InitOut, OutHeader};

/// The options of INIT that `FsOptions` has not, by linux/fuse.h's names, and all of them. `flags2` of an
/// INIT and of its reply are bits 32 to 63.
pub mod further {
    /// The client knows `NotifyInvalEntryOutFlags::EXPIRE_ONLY`.
    pub const HAS_EXPIRE_ONLY: u64 = 1 << 35;

    /// An OPEN may be answered by a file that the client reads and writes by itself.
    pub const PASSTHROUGH: u64 = 1 << 37;

    /// LOOKUP of `.` in a node that the client forgot is not served.
    pub const NO_EXPORT_SUPPORT: u64 = 1 << 38;

    /// The client knows the notice RESEND.
    pub const HAS_RESEND: u64 = 1 << 39;

    /// Requests may come by io_uring.
    pub const OVER_IO_URING: u64 = 1 << 41;

    /// The client gives up a server that leaves a request without a reply for too long.
    pub const REQUEST_TIMEOUT: u64 = 1 << 42;

    pub const ALL: u64 = 0x6e8_0000_0000;
}

/// What is to be agreed on, and what the reply is to say in place of what it does, each where it isn't 0
/// (`nizwarf_init_more`).
#[repr(C)]
#[derive(Clone, Copy, Debug, Default)]
pub struct InitMore {
    /// The further options that are wanted.
    pub want: u64,
    /// Most bytes that the client may read ahead; no more than the reply says.
    pub max_readahead: u32,
    /// Most bytes of data in one WRITE; no more than the reply says, and at least 4096.
    pub max_write: u32,
    /// Unit of the file system's times in nanoseconds.
    pub time_gran: u32,
    /// With `PASSTHROUGH`: how many file systems may lie over one another, this one among them.
    pub max_stack_depth: u32,
    /// With `REQUEST_TIMEOUT`: for how many seconds a request may be without a reply; 65535 at most.
    pub request_timeout: u32,
    /// Most requests that the client leaves waiting in the background.
    pub max_background: u16,
    /// Number of such requests from which on the client holds back.
    pub congestion_threshold: u16,
    /// Not used, 0.
    pub padding: u64,
}

/// Where the second record of an INIT begins.
const EXT_AT: usize = InHeader::SIZE + InitInCompat::SIZE;

/// The further options that an INIT offers. They are in its second record, which it has if its first says
/// INIT_EXT; the first 104 bytes of a request are enough. A request that isn't one offers none.
pub fn further_offered(request: &[u8]) -> u64
    ensures { result ≡ offered_in request.now }
{
    if request.len() < EXT_AT + InitInExt::SIZE {
        return 0;
    }
    let header: InHeader = part_at(request, 0);
    if header.opcode != Opcode::Init as u32 {
        return 0;
    }
    let first: InitInCompat = part_at(request, InHeader::SIZE);
    if u64::from(first.flags) & FsOptions::INIT_EXT.bits() == 0 {
        return 0;
    }
    let second: InitInExt = part_at(request, EXT_AT);
    (u64::from(second.flags2) * (1 << 32)) & further::ALL
}

/// Whether a reply says what was agreed on.
fn agrees(reply: &[u8]) -> bool
    ensures yes { result ≡ true → Agrees reply.now }
    ensures no { result ≡ false → Agrees reply.now → ⊥ }
{
    if reply.len() != OutHeader::SIZE + InitOut::SIZE {
        return false;
    }
    let header: OutHeader = part_at(reply, 0);
    if header.len as usize != reply.len() || header.error != 0 {
        return false;
    }
    let said: InitOut = part_at(reply, OutHeader::SIZE);
    said.max_write >= LEAST_MAX_BUFFER
}

/// What a reply says, which is all of it after its header.
fn said(reply: &[u8]) -> InitOut
    requires { length reply.now ≡ 80 }
    ensures read { result ≡ said_in reply.now }
    ensures written { take 16 reply.now ++ bytes_of init_out result ≡ reply.now }
{
    part_at(reply, OutHeader::SIZE)
}

/// The further options that are agreed on, by a reply with these flags.
fn agreed_by(offered: u64, want: u64, flags: u32) -> u64
    ensures { result ≡ further_agreed offered want flags }
{
    if u64::from(flags) & FsOptions::INIT_EXT.bits() == 0 {
        return 0;
    }
    offered & want & further::ALL
}

/// What is said of 32 bits.
fn word(ours: u32, said: u32) -> u32
    ensures { result ≡ in_place ours said }
{
    if ours == 0 { said } else { ours }
}

/// What is said of 16 bits.
fn half(ours: u16, said: u16) -> u16
    ensures { result ≡ in_place ours said }
{
    if ours == 0 { said } else { ours }
}

/// The record of a reply with these further options.
fn with_more(agreed: u64, more: &InitMore, said: &InitOut) -> InitOut
    ensures { result ≡ said_with agreed more.now said.now }
{
    let [depth, timeout, a, b, c, d, e] = said.unused;
    let depth = if agreed & further::PASSTHROUGH == 0 {
        depth
    } else {
        more.max_stack_depth
    };
    let timeout = if agreed & further::REQUEST_TIMEOUT == 0 {
        timeout
    } else {
        more.request_timeout.min(u32::from(u16::MAX))
    };
    InitOut {
        max_readahead: word(more.max_readahead, said.max_readahead).min(said.max_readahead),
        max_background: half(more.max_background, said.max_background),
        congestion_threshold: half(more.congestion_threshold, said.congestion_threshold),
        max_write: LEAST_MAX_BUFFER.max(word(more.max_write, said.max_write).min(said.max_write)),
        time_gran: word(more.time_gran, said.time_gran),
        flags2: said.flags2 | (agreed / (1 << 32)) as u32,
        unused: [depth, timeout, a, b, c, d, e],
        ..*said
    }
}

/// Adds to a reply to INIT, of 80 bytes, what it has not: the further options that are `offered` and wanted,
/// and numbers. Answers the further options that are agreed on; of a reply that says a fault, or a version
/// alone, none, and it stays as it is.
pub fn add_to_init(reply: &mut [u8], offered: u64, more: &InitMore) -> u64
    ensures other { (Agrees reply.old → ⊥) → (result ≡ 0) × (reply.new ≡ reply.old) }
    ensures agreed { Agrees reply.old →
        result ≡ further_agreed offered more.now.want (said_in reply.old).flags }
    ensures added { Agrees reply.old → reply.new ≡ reply_with_more result more.now reply.old }
    ensures nothing { AddsNothing more.now → (result ≡ 0) × (reply.new ≡ reply.old) }
{
    if !agrees(reply) {
        return 0;
    }
    let said = said(reply);
    let agreed = agreed_by(offered, more.want, said.flags);
    let (_header, rest) = reply.split_at_mut(OutHeader::SIZE);
    put_first(rest, &with_more(agreed, more, &said));
    agreed
}
