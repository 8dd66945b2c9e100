//! The extensions of a request that makes a node (SYMLINK, MKNOD, MKDIR, CREATE): blocks after its
//! names, each with a header (`struct fuse_ext_header`) that says its size and its type.
//!
//! No size or count is gone by before it is compared with the bytes that are there. Memory is taken
//! for the name and the value of a security context, once each, and for nothing else.

ghost use Rattle.std.specs.Prelude.{◌≡◌, ◌≢◌, ◌<◌, IsFalse, drop, option_map, MatchResult, Ok, Err, Some};
ghost use Rattle.vfs_flags.specs.Flags.{fs_options_bits, security_ctx, has_flag};
ghost use Rattle.vfs_files.specs.Values.{context_values, extension_values_of, name_text};
ghost use Rattle.vfs_messages.specs.Parts.{GivesValue, GivesBlock, IsContext, HoldsContext, MayHoldContext, found_values};
ghost use Rattle.vfs_grammar.specs.Extensions.{name_and_value, context_in, security_context_in, group_in, receive_kind, received_at_end, cut_of};
ghost use Rattle.vfs_grammar.specs.Words.{receive, nothing_received, reads_extensions, extensions_of, extensions_after};
ghost use Rattle.vfs_grammar.specs.Records.{record_of, size_of};

use bitflags::Flags;
use std::alloc::Global;
use vfs_files::{CStr, CString, Extensions, SecContext};
use vfs_flags::{ExtType, FsOptions, GuestGid};
use vfs_grammar::{Error, Result};
use vfs_wire::parts::part_at;
use vfs_wire::{ByteValued, ExtHeader, Secctx, SuppGroups};

/// The record that bytes begin with, and what comes after it. `DecodeMessage` where it isn't
/// whole.
fn split_record<T: ByteValued>(bytes: &[u8]) -> Result<(T, &[u8])>
    ensures { MatchResult result
        (λ parts. (record_of T.table bytes.now ≡ Ok parts.0)
        × (parts.1.now ≡ drop (size_of T.table) bytes.now))
        (λ error. record_of T.table bytes.now ≡ Err error) }
{
    if bytes.len() < T::SIZE {
        return Err(Error::DecodeMessage);
    }
    Ok((part_at::<T>(bytes, 0), &bytes[T::SIZE..]))
}

/// The name of a context, which runs through the first 0, and the `size` bytes of its value after
/// it, which is not empty.
fn split_context(size: usize, bytes: &[u8]) -> Result<(CStr<'_>, &[u8])>
    requires { 0 < size }
    ensures { MatchResult result
        (λ parts. name_and_value size bytes.now ≡ Ok (name_text parts.0, parts.1.now))
        (λ error. name_and_value size bytes.now ≡ Err error) }
{
    if bytes.is_empty() {
        return Err(Error::MissingParameter);
    }
    let Some(name) = CStr::from_bytes_until_nul(bytes) else {
        return Err(Error::DecodeMessage);
    };
    let value = &bytes[name.to_bytes().len() + 1..];
    if value.len() < size {
        return Err(Error::DecodeMessage);
    }
    Ok((name, &value[..size]))
}

/// The context of this name and this value, in memory of its own.
fn copy_context(alloc: Global, name: CStr<'_>, value: &[u8]) -> Result<SecContext>
    ensures { MatchResult result
        (λ context. context_values context ≡ (name_text name.entry, value.now))
        (λ error. error ≡ Error.OutOfMemory) }
{
    let name = match CString::new(alloc, name) {
        Ok(name) => name,
        Err(_) => return Err(Error::OutOfMemory),
    };
    match Vec::from_slice(alloc, value) {
        Ok(secctx) => Ok(SecContext { name, secctx }),
        Err(_) => Err(Error::OutOfMemory),
    }
}

/// The context that a body of one context holds.
fn read_context(alloc: Global, body: &[u8]) -> Result<SecContext>
    ensures { GivesValue (IsContext body.now) context_values result (context_in body.now) }
{
    let (header, texts) = split_record::<Secctx>(body)?;
    if header.size == 0 {
        return Err(Error::DecodeMessage);
    }
    let (name, value) = split_context(header.size as usize, texts)?;
    copy_context(alloc, name, value)
}

/// The security context in the body of an extension of `nr` contexts (`struct fuse_secctx`, a name
/// that ends with a 0, and the value): none where `nr` is 0, whatever the body. Bytes after the
/// value are ignored.
///
/// `DecodeMessage` where `nr` is more than 1, where the record is cut short or says that the value
/// has no byte, and where the name has no end or fewer bytes follow it than the record says;
/// `MissingParameter` where no byte follows the record; `OutOfMemory` where there is no memory for
/// a context that is whole.
pub fn parse_security_context(alloc: Global, nr: u32, body: &[u8]) -> Result<Option<SecContext>>
    ensures { GivesValue (HoldsContext nr body.now) (option_map context_values) result
        (security_context_in nr body.now) }
{
    match nr {
        0 => Ok(None),
        1 => Ok(Some(read_context(alloc, body)?)),
        _ => Err(Error::DecodeMessage),
    }
}

/// The group in the body of an extension of groups (`struct fuse_supp_groups` and a number of four
/// bytes). Bytes after it are ignored. `DecodeMessage` where the body is cut short, or says that
/// there is not exactly one group.
pub fn parse_sup_groups(body: &[u8]) -> Result<GuestGid>
    ensures { group_in body.now ≡ result }
{
    let (header, groups) = split_record::<SuppGroups>(body)?;
    if header.nr_groups != 1 {
        return Err(Error::DecodeMessage);
    }
    let (group, _) = split_record::<u32>(groups)?;
    Ok(GuestGid::from(group))
}

/// A block of a request, and what comes after it.
#[derive(Clone, Copy)]
struct Block<'a> {
    ext_type: u32,
    body: &'a [u8],
    following: &'a [u8],
}

/// The block that bytes begin with.
fn split_block(bytes: &[u8]) -> Result<Block<'_>>
    ensures { GivesBlock result bytes.now }
{
    let (header, _) = split_record::<ExtHeader>(bytes)?;
    let size = header.size as usize;
    if size < ExtHeader::SIZE {
        return Err(Error::InvalidHeaderLength);
    }
    if bytes.len() < size {
        return Err(Error::DecodeMessage);
    }
    Ok(Block {
        ext_type: header.ext_type,
        body: &bytes[ExtHeader::SIZE..size],
        following: &bytes[size..],
    })
}

/// What was found in the blocks so far.
#[derive(Drop)]
struct Found {
    /// There was a block of contexts, be it of none.
    has_contexts: bool,
    secctx: Option<SecContext>,
    sup_gid: Option<GuestGid>,
}

/// What is found with a block of `nr` contexts.
fn receive_context(
    alloc: Global,
    options: FsOptions,
    found: Found,
    nr: u32,
    body: &[u8],
) -> Result<Found>
    ensures { GivesValue (MayHoldContext (fs_options_bits options)) found_values result
        (receive_kind (fs_options_bits options) (found_values found)
        (Some (ExtType.SecCtx nr)) body.now) }
{
    if !options.intersects(FsOptions::SECURITY_CTX) || found.has_contexts {
        return Err(Error::DecodeMessage);
    }
    let secctx = parse_security_context(alloc, nr, body)?;
    Ok(Found {
        has_contexts: true,
        secctx,
        sup_gid: found.sup_gid,
    })
}

/// What is found with a block of groups.
fn receive_group(options: FsOptions, found: Found, body: &[u8]) -> Result<Found>
    ensures { GivesValue (MayHoldContext (fs_options_bits options)) found_values result
        (receive_kind (fs_options_bits options) (found_values found)
        (Some ExtType.SupGroups) body.now) }
{
    if !options.intersects(FsOptions::CREATE_SUPP_GROUP) || found.sup_gid.is_some() {
        return Err(Error::DecodeMessage);
    }
    let group = parse_sup_groups(body)?;
    Ok(Found {
        has_contexts: found.has_contexts,
        secctx: found.secctx,
        sup_gid: Some(group),
    })
}

/// What is found with one more block.
fn receive(
    alloc: Global,
    options: FsOptions,
    found: Found,
    ext_type: u32,
    body: &[u8],
) -> Result<Found>
    ensures { GivesValue (MayHoldContext (fs_options_bits options)) found_values result
        (receive (fs_options_bits options) (found_values found)
        (record { ext_type = ext_type; body = body.now })) }
{
    match ExtType::try_from(ext_type) {
        Ok(ExtType::SecCtx(nr)) => receive_context(alloc, options, found, nr, body),
        Ok(ExtType::SupGroups) => receive_group(options, found, body),
        Err(()) => Err(Error::DecodeMessage),
    }
}

/// What was found in all blocks. `MissingExtension` where there was no block of contexts, but it
/// was agreed on that there is.
fn received(options: FsOptions, found: Found) -> Result<Extensions>
    ensures { GivesValue (MayHoldContext (fs_options_bits options)) extension_values_of result
        (received_at_end (fs_options_bits options) None (found_values found)) }
{
    if options.intersects(FsOptions::SECURITY_CTX) && !found.has_contexts {
        return Err(Error::MissingExtension);
    }
    Ok(Extensions {
        secctx: found.secctx,
        sup_gid: found.sup_gid,
    })
}

/// What is found in bytes that are all blocks, one after the other.
fn read_blocks(alloc: Global, options: FsOptions, bytes: &[u8]) -> Result<Extensions>
    ensures { GivesValue (MayHoldContext (fs_options_bits options)) extension_values_of result
        (extensions_of (fs_options_bits options) nothing_received (cut_of bytes.now)) }
{
    let mut found = Found {
        has_contexts: false,
        secctx: None,
        sup_gid: None,
    };
    let mut left = bytes;
    while !left.is_empty() {
        let block = split_block(left)?;
        found = receive(alloc, options, found, block.ext_type, block.body)?;
        left = block.following;
    }
    received(options, found)
}

/// Whether one of the extensions was agreed on.
fn reads_extensions(options: FsOptions) -> bool
    ensures { result ≡ reads_extensions (fs_options_bits options) }
{
    options.intersects(FsOptions::SECURITY_CTX) || options.intersects(FsOptions::CREATE_SUPP_GROUP)
}

/// The extensions in a tail, after the `skip` bytes of its names: blocks, one after the other, to
/// the end. Nothing is read, whatever `skip` is, where INIT agreed on neither `SECURITY_CTX` nor
/// `CREATE_SUPP_GROUP`; otherwise the fault of the first block that is bad is answered.
///
/// `DecodeMessage` where `skip` is past the bytes, a block is cut short or of an unknown type, or
/// was not agreed on, or is the second of its kind; `InvalidHeaderLength` where a block's size is
/// less than its header's 8 bytes; the errors of [`parse_security_context`] and
/// [`parse_sup_groups`]; `MissingExtension` where `SECURITY_CTX` was agreed on and no block is of
/// contexts. `OutOfMemory` is among them only where `SECURITY_CTX` was agreed on.
pub fn get_extensions(
    alloc: Global,
    options: FsOptions,
    skip: usize,
    bytes: &[u8],
) -> Result<Extensions>
    ensures gives { GivesValue (MayHoldContext (fs_options_bits options)) extension_values_of result
        (extensions_after (fs_options_bits options) skip bytes.now) }
    ensures memory { IsFalse (has_flag (fs_options_bits options) security_ctx) →
        result ≢ Err Error.OutOfMemory }
{
    if !reads_extensions(options) {
        return Ok(Extensions::none());
    }
    if bytes.len() < skip {
        return Err(Error::DecodeMessage);
    }
    read_blocks(alloc, options, &bytes[skip..])
}
