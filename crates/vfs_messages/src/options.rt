//! INIT: what is offered, what is agreed on, and the reply (`struct fuse_init_in`,
//! `struct fuse_init_out`).

ghost use Rattle.std.specs.Prelude.{◌≡◌};
ghost use Rattle.vfs_flags.specs.Flags.{fs_options_bits};
ghost use Rattle.vfs_wire.specs.Fields.{bytes_of};
ghost use Rattle.vfs_wire.specs.Records.{init_out};
ghost use Rattle.vfs_files.specs.Calls.{IsAnswer, Agreements, Init, init_answer};
ghost use Rattle.vfs_grammar.specs.Forms.{second_flags};
ghost use Rattle.vfs_grammar.specs.Limits.{AreLimits};
ghost use Rattle.vfs_grammar.specs.Options.{options_offered, agreed, options_after};
ghost use Rattle.vfs_grammar.specs.Reply.{Bytes, init_out_of, body_reply, answer_reply, version_out};
ghost use Rattle.vfs_messages.specs.Rooms.{Replies};
ghost use Rattle.vfs_messages.specs.Versions.{AnswersVersion};

use crate::reply::{reply_failed, reply_record};
use crate::request::read_record;
use bitflags::Flags;
use vfs_flags::{
    Errno, Fault, FsOptions, KERNEL_MINOR_VERSION, KERNEL_VERSION, MIN_KERNEL_MINOR_VERSION,
};
use vfs_grammar::{Limits, Result};
use vfs_segments::{Reader, Writer};
use vfs_wire::{InHeader, InitInCompat, InitInExt, InitOut};

/// The second word of INIT's flags, in a record of its own where the first word says so, and else
/// 0.
pub fn read_second_flags(flags: u32, reader: &mut Reader<'_>) -> Result<u32>
    ensures { second_flags flags reader.old.left ≡ result }
{
    if u64::from(flags) & FsOptions::INIT_EXT.bits() == 0 {
        return Ok(0);
    }
    let record = read_record::<InitInExt>(reader)?;
    Ok(record.flags2)
}

/// The known options among those that the client offers in its two words of flags.
#[tactic(auto, unfolding(bitflags::proofs::OnLiterals::bitflags_on_literals))]
pub fn offered_options(flags: u32, flags2: u32) -> FsOptions
    ensures { fs_options_bits result ≡ options_offered flags flags2 }
{
    FsOptions::from_bits_truncate(u64::from(flags2) * (1 << 32) + u64::from(flags))
}

/// The options that are agreed on: those offered that the file system wants or the server supports.
#[tactic(auto, unfolding(bitflags::proofs::OnLiterals::bitflags_on_literals))]
fn agree(offered: FsOptions, want: FsOptions) -> FsOptions
    ensures { fs_options_bits result ≡ agreed (fs_options_bits offered) (fs_options_bits want) }
{
    offered & (want | FsOptions::SUPPORTED)
}

/// The options after an INIT: those agreed on, or, after a fault of the file system, the old ones.
pub fn agreed_options(
    answer: &std::result::Result<FsOptions, Fault>,
    offered: FsOptions,
    options: FsOptions,
) -> FsOptions
    ensures { fs_options_bits result ≡
        options_after (Init (fs_options_bits offered)) (init_answer answer.now)
        (fs_options_bits options) }
{
    match answer {
        Ok(want) => agree(offered, *want),
        Err(_) => options,
    }
}

/// The reply to a client of a newer major version: our own version, upon which it asks again.
pub fn reply_version(unique: u64, w: &mut Writer) -> Result<usize>
    ensures { Replies (Bytes (body_reply (bytes_of init_out version_out) unique))
        w.old result w.new }
{
    let out = InitOut {
        major: KERNEL_VERSION,
        minor: KERNEL_MINOR_VERSION,
        ..InitOut::default()
    };
    reply_record(out, unique, w)
}

/// The reply to an INIT of a version that isn't served: an older one is refused, and a newer major
/// one is told ours. `None` where it is served, and then nothing is put.
pub fn reply_unserved(
    header: &InHeader,
    init_in: &InitInCompat,
    w: &mut Writer,
) -> Option<Result<usize>>
    ensures { AnswersVersion header.now init_in.now w.old result w.new }
{
    if init_in.major < KERNEL_VERSION {
        return Some(reply_failed(Some(Errno::EPROTO), header.unique, w));
    }
    if init_in.major > KERNEL_VERSION {
        return Some(reply_version(header.unique, w));
    }
    if init_in.minor < MIN_KERNEL_MINOR_VERSION {
        return Some(reply_failed(Some(Errno::EPROTO), header.unique, w));
    }
    None
}

/// What INIT replies to a client that it agrees with.
fn init_out(limits: Limits, max_readahead: u32, options: FsOptions) -> InitOut
    requires { AreLimits limits }
    ensures { result ≡ init_out_of limits max_readahead (fs_options_bits options) }
{
    let bits = options.bits();
    InitOut {
        major: KERNEL_VERSION,
        minor: KERNEL_MINOR_VERSION,
        max_readahead,
        flags: (bits % (1 << 32)) as u32,
        max_background: u16::MAX,
        congestion_threshold: (u16::MAX / 4) * 3,
        max_write: limits.max_buffer,
        time_gran: 1,
        max_pages: limits.max_pages(),
        map_alignment: 0,
        flags2: (bits / (1 << 32)) as u32,
        unused: [0; 7],
    }
}

/// Replies the options that INIT agreed on, or the file system's fault.
pub fn reply_init(
    answer: std::result::Result<FsOptions, Fault>,
    options: FsOptions,
    limits: Limits,
    max_readahead: u32,
    unique: u64,
    w: &mut Writer,
) -> Result<usize>
    requires { AreLimits limits }
    ensures replied { Replies
        (Bytes (answer_reply
        (bytes_of init_out (init_out_of limits max_readahead (fs_options_bits options))) unique
        (init_answer answer)))
        w.old result w.new }
    ensures kind { IsAnswer Agreements (init_answer answer) }
{
    match answer {
        Ok(_) => reply_record(init_out(limits, max_readahead, options), unique, w),
        Err(fault) => reply_failed(fault, unique, w),
    }
}
