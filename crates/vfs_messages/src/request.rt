//! The parts of a request: records, tails, pairs of a node and a count.

ghost use Rattle.std.specs.Prelude.{◌≡◌, ◌==◌, ◌≤◌, ◌+◌, ◌-◌, ◌*◌, length, drop, take, map, option_map, bit_and, position, OnOk, IfOk, IfErr, IsErr, IsFalse, MatchResult, Ok, Err, Some};
ghost use Rattle.vfs_flags.specs.Flags.{fs_options_bits, setattr_valid_bits, known_setattr_valid, setxattr_flags_bits, known_setxattr_flags, setxattr_ext, has_flag};
ghost use Rattle.vfs_files.specs.Values.{name_text, name_of};
ghost use Rattle.vfs_wire.specs.Records.{forget_one};
ghost use Rattle.vfs_segments.specs.declared.record.TheConstants.{LARGEST_RECORD};
ghost use Rattle.vfs_segments.specs.Lengths.{lengths_from, lie_together};
ghost use Rattle.vfs_grammar.specs.Ask.{if_set, setxattr_layout};
ghost use Rattle.vfs_messages.specs.Parts.{GivesValue, MayHoldContext, TailIsCut, pieces_after, GivesTail, GivesExtended, extended_values, link_values, GivesPairs};
ghost use Rattle.vfs_grammar.specs.Forms.{tail_of, pairs_in, pairs_of, two_names_in, value_in, extended_in, link_in_tail, layout_record, layout_size};
ghost use Rattle.vfs_grammar.specs.Words.{name_in};
ghost use Rattle.vfs_grammar.specs.FormParts.{second_or_refusal, sized_or_refusal, link_or_refusal};
ghost use Rattle.vfs_grammar.specs.Records.{record_of, size_of};

use crate::extensions::get_extensions;
use bitflags::Flags;
use std::alloc::Global;
use std::marker::Model;
use vfs_files::{CStr, Extensions, Number, first_nul};
use vfs_flags::{FsOptions, SetattrValid, SetxattrFlags};
use vfs_grammar::{Error, Result};
use vfs_segments::Reader;
use vfs_wire::{ByteValued, ForgetOne, InHeader};
use vfs_wire_more::{SetxattrIn, SetxattrInCompat};

/// The next record of a request. `DecodeMessage` where it isn't whole.
#[inline(always)]
pub fn read_record<T: ByteValued>(reader: &mut Reader<'_>) -> Result<T>
    ensures value { record_of T.table reader.old.left ≡ result }
    ensures moved { OnOk result (reader.new.left ≡ drop (size_of T.table) reader.old.left) }
    ensures pieces { OnOk result
        (reader.new.pieces ≡ lengths_from (size_of T.table) reader.old.pieces) }
{
    match reader.read_obj_if_whole() {
        Some(record) => Ok(record),
        None => Err(Error::DecodeMessage),
    }
}

/// The next `len` bytes, which the reader has.
fn copy_bytes(alloc: Global, len: usize, reader: &mut Reader<'_>) -> Result<Vec<u8>>
    requires { len ≤ length reader.old.left }
    ensures bytes { IfOk result (λ v. v.items ≡ take len reader.old.left) }
    ensures err { IfErr result (λ e. e ≡ Error.OutOfMemory) }
{
    match reader.read_to_vec(alloc, len) {
        Ok(bytes) => Ok(bytes),
        Err(_) => Err(Error::OutOfMemory),
    }
}

/// The tail of a request: lent from the segment in which it lies, or a copy of one that is cut.
#[derive(Drop)]
pub struct Tail<'a> {
    /// No byte where the tail was copied.
    lent: &'a [u8],
    /// No byte, and no memory, where the tail is lent.
    copied: Vec<u8>,
}

impl<'a> Model for Tail<'a> {
    ghost use Rattle.std.specs.Prelude.{◌≡◌, ◌<◌, ◌++◌, ℕ, List, [], length};

    ghost Value = { List ℕ };

    ghost view = { λ t. t.lent.now ++ t.copied.items };

    ghost invariant = { λ t. 0 < length t.lent.now → t.copied.items ≡ [] };
}

impl<'a> Tail<'a> {
    /// Its bytes.
    pub fn as_bytes(&self) -> &[u8]
        ensures { result.now ≡ self.now }
    {
        if self.lent.is_empty() {
            &self.copied
        } else {
            self.lent
        }
    }
}

/// The next `len` bytes, which the reader has: lent where they lie in one segment, else copied.
#[inline(always)]
fn take_tail<'a>(alloc: Global, len: usize, reader: &mut Reader<'a>) -> Result<Tail<'a>>
    requires { len ≤ length reader.old.left }
    ensures bytes { IfOk result (λ tail. tail ≡ take len reader.old.left) }
    ensures err { IfErr result (λ e. e ≡ Error.OutOfMemory) }
    ensures cut { IsErr result → IsFalse (lie_together 0 len reader.old.pieces) }
{
    if let Some(lent) = reader.take_slice(len) {
        return Ok(Tail {
            lent,
            copied: Vec::new(alloc),
        });
    }
    let copied = copy_bytes(alloc, len, reader)?;
    Ok(Tail { lent: &[], copied })
}

/// The tail of a request after its header and a record of `size` bytes, as long as `len` says.
/// It is lent where it lies in one segment, and else copied once its bytes were found to be there.
///
/// `InvalidHeaderLength` where `len` is less than header and record, `DecodeMessage` where bytes
/// are missing, `OutOfMemory` where there is no memory for a tail that is whole and cut between two
/// segments, in this order.
#[inline(always)]
pub fn read_tail<'a>(
    alloc: Global,
    header: &InHeader,
    size: usize,
    reader: &mut Reader<'a>,
) -> Result<Tail<'a>>
    requires { size ≤ LARGEST_RECORD }
    ensures { GivesTail (TailIsCut header.now size reader.old.pieces) result
        (tail_of header.now size reader.old.left) }
{
    let len = header.len as usize;
    if len < InHeader::SIZE + size {
        return Err(Error::InvalidHeaderLength);
    }
    let tail = len - (InHeader::SIZE + size);
    if reader.available_bytes() < tail {
        return Err(Error::DecodeMessage);
    }
    take_tail(alloc, tail, reader)
}

/// A tail that is a name.
#[derive(Drop)]
pub struct Name<'a> {
    tail: Tail<'a>,
}

impl<'a> Model for Name<'a> {
    ghost use Rattle.std.specs.Prelude.{◌≡◌, ℕ, List, Some};
    ghost use Rattle.vfs_files.specs.Values.{name_of};
    ghost use Rattle.vfs_messages.specs.Parts.{text_or_none};

    ghost Value = { List ℕ };

    ghost view = { λ s. text_or_none (name_of s.tail) };

    ghost invariant = { λ s. name_of s.tail ≡ Some (text_or_none (name_of s.tail)) };
}

impl<'a> Name<'a> {
    /// The name.
    #[tactic(auto, using(crate::proofs::FirstNames::name_has_an_end, crate::proofs::FirstNames::name_ends_last, crate::proofs::FirstNames::name_is_the_rest))]
    pub fn as_c_str(&self) -> CStr<'_>
        ensures { name_text result ≡ self.now }
    {
        let bytes = self.tail.as_bytes();
        CStr::before_nul(bytes, bytes.len() - 1)
    }
}

/// The name that a tail is. `InvalidCString` where it is none.
#[inline(always)]
pub fn name_of_tail<'a>(tail: Tail<'a>) -> Result<Name<'a>>
    ensures { MatchResult result
        (λ name. name_in tail.entry ≡ Ok name)
        (λ error. name_in tail.entry ≡ Err error) }
{
    if CStr::from_bytes_with_nul(tail.as_bytes()).is_none() {
        return Err(Error::InvalidCString);
    }
    Ok(Name { tail })
}

/// A tail that begins with a name and the 0 after it.
#[derive(Drop)]
pub struct FirstName<'a> {
    tail: Tail<'a>,
    nul: usize,
}

impl<'a> Model for FirstName<'a> {
    ghost use Rattle.std.specs.Prelude.{◌≡◌, ◌==◌, ◌+◌, ℕ, List, Some, position, take, drop};

    ghost Value = { List ℕ × List ℕ };

    ghost view = { λ s. (take s.nul s.tail, drop (s.nul + 1) s.tail) };

    ghost invariant = { λ s. position (λ b. b == 0) s.tail ≡ Some s.nul };
}

impl<'a> FirstName<'a> {
    /// The name.
    pub fn as_c_str(&self) -> CStr<'_>
        ensures { name_text result ≡ self.now.0 }
    {
        CStr::before_nul(self.tail.as_bytes(), self.nul)
    }

    /// What follows it.
    #[tactic(auto, using(crate::proofs::FirstNames::below_length))]
    pub fn rest(&self) -> &[u8]
        ensures { result.now ≡ self.now.1 }
    {
        &self.tail.as_bytes()[self.nul + 1..]
    }
}

/// A tail that is two names, the first with the 0 after it.
#[derive(Drop)]
pub struct TwoNames<'a> {
    first: FirstName<'a>,
}

impl<'a> Model for TwoNames<'a> {
    ghost use Rattle.std.specs.Prelude.{◌≡◌, ℕ, List, Some};
    ghost use Rattle.vfs_files.specs.Values.{name_of};
    ghost use Rattle.vfs_messages.specs.Parts.{text_or_none};

    ghost Value = { List ℕ × List ℕ };

    ghost view = { λ s. (s.first.0, text_or_none (name_of s.first.1)) };

    ghost invariant = { λ s. name_of s.first.1 ≡ Some (text_or_none (name_of s.first.1)) };
}

impl<'a> TwoNames<'a> {
    /// The first name.
    pub fn first(&self) -> CStr<'_>
        ensures { name_text result ≡ self.now.0 }
    {
        self.first.as_c_str()
    }

    /// The second name.
    #[tactic(auto, using(crate::proofs::FirstNames::name_has_an_end, crate::proofs::FirstNames::name_ends_last, crate::proofs::FirstNames::name_is_the_rest))]
    pub fn second(&self) -> CStr<'_>
        ensures { name_text result ≡ self.now.1 }
    {
        let bytes = self.first.rest();
        CStr::before_nul(bytes, bytes.len() - 1)
    }
}

/// The two names that begin so.
fn second_of<'a>(first: FirstName<'a>) -> Result<TwoNames<'a>>
    ensures { MatchResult result
        (λ names. second_or_refusal first.entry.0 (name_of first.entry.1) ≡ Ok names)
        (λ error. second_or_refusal first.entry.0 (name_of first.entry.1) ≡ Err error) }
{
    if CStr::from_bytes_with_nul(first.rest()).is_none() {
        return Err(Error::InvalidCString);
    }
    Ok(TwoNames { first })
}

/// The two names that a tail is.
pub(crate) fn names_of_tail<'a>(tail: Tail<'a>) -> Result<TwoNames<'a>>
    ensures { MatchResult result
        (λ names. two_names_in tail.entry ≡ Ok names)
        (λ error. two_names_in tail.entry ≡ Err error) }
{
    let Some(nul) = first_nul(tail.as_bytes()) else {
        return Err(Error::MissingParameter);
    };
    second_of(FirstName { tail, nul })
}

/// A name and a value, where the value has this size.
fn sized<'a>(size: u32, part: FirstName<'a>) -> Result<FirstName<'a>>
    ensures { MatchResult result
        (λ same. sized_or_refusal size (Some part.entry) ≡ Ok same)
        (λ error. sized_or_refusal size (Some part.entry) ≡ Err error) }
{
    let len = part.rest().len();
    if len != size as usize {
        return Err(Error::InvalidXattrSize((size, len)));
    }
    Ok(part)
}

/// The name and the value that a tail is.
pub(crate) fn value_of_tail<'a>(size: u32, tail: Tail<'a>) -> Result<FirstName<'a>>
    ensures { MatchResult result
        (λ part. value_in size tail.entry ≡ Ok part)
        (λ error. value_in size tail.entry ≡ Err error) }
{
    let Some(nul) = first_nul(tail.as_bytes()) else {
        return Err(Error::MissingParameter);
    };
    sized(size, FirstName { tail, nul })
}

/// The place of the 0 that ends the name that bytes begin with, and the extensions after it.
fn extended(alloc: Global, options: FsOptions, bytes: &[u8]) -> Result<(usize, Extensions)>
    ensures { GivesExtended result (fs_options_bits options) bytes.now }
{
    if bytes.is_empty() {
        return Err(Error::MissingParameter);
    }
    let nul = first_nul(bytes);
    let skip = match nul {
        Some(nul) => nul + 1,
        None => bytes.len(),
    };
    let extensions = get_extensions(alloc, options, skip, bytes)?;
    match nul {
        Some(nul) => Ok((nul, extensions)),
        None => Err(Error::InvalidCString),
    }
}

/// The name and the extensions that a tail is.
#[inline(always)]
pub(crate) fn extended_of_tail<'a>(
    alloc: Global,
    options: FsOptions,
    tail: Tail<'a>,
) -> Result<(FirstName<'a>, Extensions)>
    ensures { GivesValue (MayHoldContext (fs_options_bits options)) extended_values result
        (extended_in (fs_options_bits options) tail.entry) }
{
    let (nul, extensions) = extended(alloc, options, tail.as_bytes())?;
    Ok((FirstName { tail, nul }, extensions))
}

/// A tail that begins with a name and a text, each with the 0 after it.
#[derive(Drop)]
pub struct NameAndText<'a> {
    first: FirstName<'a>,
    nul: usize,
}

impl<'a> Model for NameAndText<'a> {
    ghost use Rattle.std.specs.Prelude.{◌≡◌, ◌==◌, ℕ, List, Some, position, take};

    ghost Value = { List ℕ × List ℕ };

    ghost view = { λ s. (s.first.0, take s.nul s.first.1) };

    ghost invariant = { λ s. position (λ b. b == 0) s.first.1 ≡ Some s.nul };
}

impl<'a> NameAndText<'a> {
    /// The name.
    pub fn name(&self) -> CStr<'_>
        ensures { name_text result ≡ self.now.0 }
    {
        self.first.as_c_str()
    }

    /// The text.
    pub fn text(&self) -> CStr<'_>
        ensures { name_text result ≡ self.now.1 }
    {
        CStr::before_nul(self.first.rest(), self.nul)
    }
}

/// The name, the text and the extensions that begin so.
fn link_of<'a>(
    alloc: Global,
    options: FsOptions,
    first: FirstName<'a>,
) -> Result<(NameAndText<'a>, Extensions)>
    ensures { GivesValue (MayHoldContext (fs_options_bits options)) link_values result
        (link_or_refusal (fs_options_bits options) (Some first.entry)) }
{
    let (nul, extensions) = extended(alloc, options, first.rest())?;
    Ok((NameAndText { first, nul }, extensions))
}

/// The name, the text and the extensions that a tail is.
pub(crate) fn link_of_tail<'a>(
    alloc: Global,
    options: FsOptions,
    tail: Tail<'a>,
) -> Result<(NameAndText<'a>, Extensions)>
    ensures { GivesValue (MayHoldContext (fs_options_bits options)) link_values result
        (link_in_tail (fs_options_bits options) tail.entry) }
{
    let Some(nul) = first_nul(tail.as_bytes()) else {
        return Err(Error::MissingParameter);
    };
    link_of(alloc, options, FirstName { tail, nul })
}

/// Whether SETXATTR has its longer record, which was agreed on.
fn has_long_setxattr(options: FsOptions) -> bool
    ensures { result ≡ has_flag (fs_options_bits options) setxattr_ext }
{
    options.intersects(FsOptions::SETXATTR_EXT)
}

/// SETXATTR's record, by the agreed options.
pub(crate) fn read_setxattr(options: FsOptions, reader: &mut Reader<'_>) -> Result<SetxattrIn>
    ensures value { layout_record (setxattr_layout (fs_options_bits options)) reader.old.left
        ≡ result }
    ensures moved { OnOk result (reader.new.left ≡
        drop (layout_size (setxattr_layout (fs_options_bits options))) reader.old.left) }
    ensures pieces { OnOk result (reader.new.pieces ≡
        pieces_after (setxattr_layout (fs_options_bits options)) reader.old.pieces) }
{
    if has_long_setxattr(options) {
        read_record::<SetxattrIn>(reader)
    } else {
        let short = read_record::<SetxattrInCompat>(reader)?;
        Ok(SetxattrIn {
            size: short.size,
            flags: short.flags,
            setxattr_flags: 0,
            padding: 0,
        })
    }
}

/// The bytes of SETXATTR's record, by the agreed options.
pub fn setxattr_size(options: FsOptions) -> usize
    ensures size { result ≡ layout_size (setxattr_layout (fs_options_bits options)) }
    ensures small { result ≤ LARGEST_RECORD }
{
    if has_long_setxattr(options) {
        SetxattrIn::SIZE
    } else {
        SetxattrInCompat::SIZE
    }
}

/// The known ones among the further flags of a SETXATTR.
#[tactic(auto, unfolding(bitflags::proofs::OnLiterals::bitflags_on_literals))]
pub fn further_flags(flags: u32) -> SetxattrFlags
    ensures { setxattr_flags_bits result ≡ bit_and flags known_setxattr_flags }
{
    SetxattrFlags::from_bits_truncate(flags)
}

/// The pair of a node and a count that a record is.
fn pair_of<I: Number>(one: &ForgetOne) -> (I, u64)
    ensures node { I.value result.0 ≡ one.now.nodeid }
    ensures nlookup { result.1 ≡ one.now.nlookup }
{
    (I::from_number(one.nodeid), one.nlookup)
}

/// The pairs that the bytes begin with, that many.
fn pairs_in_bytes<I: Number>(alloc: Global, count: u32, bytes: &[u8]) -> Result<Vec<(I, u64)>>
    requires { count * size_of forget_one ≤ length bytes.now }
    ensures pairs { IfOk result
        (λ v. map (λ p. (I.value p.0, p.1)) v.items ≡ pairs_of count bytes.now) }
    ensures err { IfErr result (λ e. e ≡ Error.OutOfMemory) }
{
    let mut pairs = match Vec::with_capacity(alloc, count as usize) {
        Ok(pairs) => pairs,
        Err(_) => return Err(Error::OutOfMemory),
    };
    let mut rest = bytes;
    for i in 0..count {
        let one = ForgetOne::take(&rest[..ForgetOne::SIZE]);
        match pairs.push(pair_of::<I>(&one)) {
            Ok(()) => {}
            Err(_) => return Err(Error::OutOfMemory),
        }
        rest = &rest[ForgetOne::SIZE..];
    }
    Ok(pairs)
}

/// The next `count` pairs, which the reader has.
fn copy_pairs<I: Number>(
    alloc: Global,
    count: u32,
    reader: &mut Reader<'_>,
) -> Result<Vec<(I, u64)>>
    requires { count * size_of forget_one ≤ length reader.old.left }
    ensures pairs { IfOk result
        (λ v. map (λ p. (I.value p.0, p.1)) v.items ≡ pairs_of count reader.old.left) }
    ensures err { IfErr result (λ e. e ≡ Error.OutOfMemory) }
{
    let mut pairs = match Vec::with_capacity(alloc, count as usize) {
        Ok(pairs) => pairs,
        Err(_) => return Err(Error::OutOfMemory),
    };
    for i in 0..count {
        match reader.read_obj_if_whole::<ForgetOne>() {
            Some(one) => match pairs.push(pair_of::<I>(&one)) {
                Ok(()) => {}
                Err(_) => return Err(Error::OutOfMemory),
            },
            None => unreachable!(),
        }
    }
    Ok(pairs)
}

/// `count` pairs of a node and a count (`struct fuse_forget_one`). Each is read once, into one
/// vector: right from the segment, where all lie in one.
///
/// `DecodeMessage` where bytes are missing, then `OutOfMemory` where there is no memory for them.
pub fn read_pairs<I: Number>(
    alloc: Global,
    count: u32,
    reader: &mut Reader<'_>,
) -> Result<Vec<(I, u64)>>
    ensures { GivesPairs I.value result (pairs_in count reader.old.left) }
{
    if reader.available_bytes() < count as usize * ForgetOne::SIZE {
        return Err(Error::DecodeMessage);
    }
    match reader.take_slice(count as usize * ForgetOne::SIZE) {
        Some(bytes) => pairs_in_bytes(alloc, count, bytes),
        None => copy_pairs(alloc, count, reader),
    }
}

/// Whether a word of flags has one of these flags.
pub fn is_set(flags: u32, flag: u32) -> bool
    ensures { result ≡ has_flag flags flag }
{
    flags & flag != 0
}

/// A number that a record says, where one of these flags is set.
pub fn number_if(flags: u32, flag: u32, n: u64) -> Option<u64>
    ensures { result ≡ if_set flags flag n }
{
    if is_set(flags, flag) { Some(n) } else { None }
}

/// The known attributes among those that a SETATTR says are to be set.
#[tactic(auto, unfolding(bitflags::proofs::OnLiterals::bitflags_on_literals))]
pub fn known_valid(valid: u32) -> SetattrValid
    ensures { setattr_valid_bits result ≡ bit_and valid known_setattr_valid }
{
    SetattrValid::from_bits_truncate(valid)
}

/// The handle that a record says, where its flag is set.
pub fn handle_if<H: Number>(flags: u32, flag: u32, fh: u64) -> Option<H>
    ensures { option_map H.value result ≡ if_set flags flag fh }
{
    if is_set(flags, flag) {
        Some(H::from_number(fh))
    } else {
        None
    }
}
