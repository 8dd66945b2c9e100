//! The extensions of a request that makes a node: blocks after its names.

ghost use Rattle.std.specs.Prelude.{◌<◌, length, IfOk};

use crate::stop::Stop;
use crate::take::{take_bytes, take_name, take_record};
use crate::text::{Data, Quoted};
use bitflags::Flags;
use std::fmt::Write;
use vfs_flags::{ExtType, FsOptions};
use vfs_grammar::Error;
use vfs_wire::{ByteValued, ExtHeader, Secctx, SuppGroups};

/// Which blocks were there so far.
#[derive(Clone, Copy)]
struct Seen {
    contexts: bool,
    groups: bool,
}

/// Prints the extensions that bytes are, to the end, if one of them was agreed on.
pub fn print_extensions<W: Write>(w: &mut W, options: FsOptions, bytes: &[u8]) -> Result<(), Stop> {
    let with_contexts = options.contains(FsOptions::SECURITY_CTX);
    if !with_contexts && !options.contains(FsOptions::CREATE_SUPP_GROUP) {
        return Ok(());
    }
    let mut seen = Seen {
        contexts: false,
        groups: false,
    };
    let mut left = bytes;
    while !left.is_empty() {
        let (header, body, following) = take_block(left)?;
        seen = print_block(w, options, seen, header.ext_type, body)?;
        left = following;
    }
    if with_contexts && !seen.contexts {
        return Err(Stop::Refused(Error::MissingExtension));
    }
    Ok(())
}

/// The header and the body of the block that bytes begin with, and what comes after it.
fn take_block(bytes: &[u8]) -> Result<(ExtHeader, &[u8], &[u8]), Error>
    ensures { IfOk result (λ parts. length parts.2.now < length bytes.now) }
{
    let (header, following) = take_record::<ExtHeader>(bytes)?;
    let Some(size) = (header.size as usize).checked_sub(ExtHeader::SIZE) else {
        return Err(Error::InvalidHeaderLength);
    };
    let (body, rest) = take_bytes(following, size)?;
    Ok((header, body, rest))
}

/// Prints a block of this type, if it was agreed on and is the first of its kind.
fn print_block<W: Write>(
    w: &mut W,
    options: FsOptions,
    seen: Seen,
    ext_type: u32,
    body: &[u8],
) -> Result<Seen, Stop> {
    match ExtType::try_from(ext_type) {
        Ok(ExtType::SecCtx(count)) => {
            if seen.contexts || !options.contains(FsOptions::SECURITY_CTX) {
                return Err(Stop::Refused(Error::DecodeMessage));
            }
            print_contexts(w, count, body)?;
            Ok(Seen {
                contexts: true,
                groups: seen.groups,
            })
        }
        Ok(ExtType::SupGroups) => {
            if seen.groups || !options.contains(FsOptions::CREATE_SUPP_GROUP) {
                return Err(Stop::Refused(Error::DecodeMessage));
            }
            print_group(w, body)?;
            Ok(Seen {
                contexts: seen.contexts,
                groups: true,
            })
        }
        Err(()) => Err(Stop::Refused(Error::DecodeMessage)),
    }
}

/// Prints the security context in a block of `count` of them, which is at most one.
fn print_contexts<W: Write>(w: &mut W, count: u32, body: &[u8]) -> Result<(), Stop> {
    match count {
        0 => {
            w.write_str(" context=none")?;
            Ok(())
        }
        1 => print_context(w, body),
        _ => Err(Stop::Refused(Error::DecodeMessage)),
    }
}

/// Prints a security context: its name, which ends at its first 0, and its value.
fn print_context<W: Write>(w: &mut W, body: &[u8]) -> Result<(), Stop> {
    let (record, texts) = take_record::<Secctx>(body)?;
    if record.size == 0 {
        return Err(Stop::Refused(Error::DecodeMessage));
    }
    if texts.is_empty() {
        return Err(Stop::Refused(Error::MissingParameter));
    }
    let Some((name, following)) = take_name(texts) else {
        return Err(Stop::Refused(Error::DecodeMessage));
    };
    let (value, _) = take_bytes(following, record.size as usize)?;
    write!(w, " context={} value{}", Quoted(name), Data(value))?;
    Ok(())
}

/// Prints the group in a block of groups, which has exactly one.
fn print_group<W: Write>(w: &mut W, body: &[u8]) -> Result<(), Stop> {
    let (record, groups) = take_record::<SuppGroups>(body)?;
    if record.nr_groups != 1 {
        return Err(Stop::Refused(Error::DecodeMessage));
    }
    let (group, _) = take_record::<u32>(groups)?;
    write!(w, " group={group}")?;
    Ok(())
}
