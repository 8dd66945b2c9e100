//! A request whose header was read, and how its parts are read.

ghost use Rattle.std.specs.Prelude.{◌≡◌, ◌≤◌, drop, ◌⊎◌, OnOk};
ghost use Rattle.vfs_flags.specs.Flags.{fs_options_bits};
ghost use Rattle.vfs_files.specs.Values.{context_of};
ghost use Rattle.vfs_segments.specs.declared.record.TheConstants.{LARGEST_RECORD};
ghost use Rattle.vfs_segments.specs.Lengths.{lengths_from};
ghost use Rattle.vfs_grammar.specs.Ask.{setxattr_layout};
ghost use Rattle.vfs_grammar.specs.Forms.{tail_of, pairs_in, two_names_in, value_in, extended_in, link_in_tail, layout_record, layout_size};
ghost use Rattle.vfs_grammar.specs.Words.{name_in};
ghost use Rattle.vfs_grammar.specs.Records.{record_of, size_of};
ghost use Rattle.vfs_messages.specs.Parts.{MayHoldContext, TailIsCut, pieces_after, GivesTail, GivesPart, GivesPartAs, extended_values, link_values, GivesPairs};

use crate::request::{
    FirstName, Name, NameAndText, Tail, TwoNames, extended_of_tail, link_of_tail, name_of_tail,
    names_of_tail, read_pairs, read_record, read_setxattr, read_tail, value_of_tail,
};
use bitflags::Flags;
use std::alloc::Global;
use vfs_files::{Context, Extensions, Number};
use vfs_flags::FsOptions;
use vfs_grammar::Result;
use vfs_segments::Reader;
use vfs_wire::{ByteValued, InHeader};
use vfs_wire_more::SetxattrIn;

/// One request whose header was read: where its memory comes from, the header, and the reader of
/// what comes after it.
///
/// Each part is read from where the reader is: first the records, then the tail or the pairs.
#[derive(Drop)]
pub struct Request<'a, 'r> {
    /// Where the memory for a tail or a list is taken from.
    pub alloc: Global,
    /// The header.
    pub header: &'a InHeader,
    /// The reader of what comes after the header.
    pub r: &'a mut Reader<'r>,
}

impl<'a, 'r> Request<'a, 'r> {
    /// The caller that the header names.
    #[inline(always)]
    pub fn context(&self) -> Context
        ensures { result ≡ context_of self.now.header.now }
    {
        Context::from(*self.header)
    }

    /// The node that the header names.
    #[inline(always)]
    pub fn node<I: Number>(&self) -> I
        ensures { I.value result ≡ self.now.header.now.nodeid }
    {
        I::from_number(self.header.nodeid)
    }

    /// The next record. `DecodeMessage` where it isn't whole.
    #[inline(always)]
    pub fn record<T: ByteValued>(&mut self) -> Result<T>
        ensures header { self.new.header ≡ self.old.header }
        ensures value { record_of T.table self.old.r.now.left ≡ result }
        ensures moved { OnOk result
            (self.new.r.now.left ≡ drop (size_of T.table) self.old.r.now.left) }
        ensures pieces { OnOk result
            (self.new.r.now.pieces ≡ lengths_from (size_of T.table) self.old.r.now.pieces) }
    {
        read_record(self.r)
    }

    /// SETXATTR's record, by the agreed options. `DecodeMessage` where it isn't whole.
    #[inline(always)]
    pub fn setxattr_record(&mut self, options: FsOptions) -> Result<SetxattrIn>
        ensures header { self.new.header ≡ self.old.header }
        ensures value { layout_record (setxattr_layout (fs_options_bits options))
            self.old.r.now.left ≡ result }
        ensures moved { OnOk result (self.new.r.now.left ≡
            drop (layout_size (setxattr_layout (fs_options_bits options))) self.old.r.now.left) }
        ensures pieces { OnOk result (self.new.r.now.pieces ≡
            pieces_after (setxattr_layout (fs_options_bits options)) self.old.r.now.pieces) }
    {
        read_setxattr(options, self.r)
    }

    /// The tail after the header and a record of `size` bytes, by [`read_tail`].
    #[inline(always)]
    pub fn tail(&mut self, size: usize) -> Result<Tail<'r>>
        requires { size ≤ LARGEST_RECORD }
        ensures header { self.new.header ≡ self.old.header }
        ensures tail { GivesTail (TailIsCut self.old.header.now size self.old.r.now.pieces) result
            (tail_of self.old.header.now size self.old.r.now.left) }
    {
        read_tail(self.alloc, self.header, size, self.r)
    }

    /// The name that the tail is, after a record of `size` bytes: the errors of [`read_tail`],
    /// then `InvalidCString` where the tail is no name.
    #[inline(always)]
    pub fn name(&mut self, size: usize) -> Result<Name<'r>>
        requires { size ≤ LARGEST_RECORD }
        ensures header { self.new.header ≡ self.old.header }
        ensures name { GivesPart (TailIsCut self.old.header.now size self.old.r.now.pieces)
            name_in result (tail_of self.old.header.now size self.old.r.now.left) }
    {
        let tail = self.tail(size)?;
        name_of_tail(tail)
    }

    /// The two names that the tail is, after a record of `size` bytes: the errors of
    /// [`read_tail`], then `MissingParameter` where no 0 ends the first, and `InvalidCString` where
    /// the rest is no name.
    #[inline(always)]
    pub fn names(&mut self, size: usize) -> Result<TwoNames<'r>>
        requires { size ≤ LARGEST_RECORD }
        ensures header { self.new.header ≡ self.old.header }
        ensures names { GivesPart (TailIsCut self.old.header.now size self.old.r.now.pieces)
            two_names_in result (tail_of self.old.header.now size self.old.r.now.left) }
    {
        let tail = self.tail(size)?;
        names_of_tail(tail)
    }

    /// The name and the value that the tail is, after a record of `size` bytes, which says that
    /// the value has `value` bytes: the errors of [`read_tail`], then `MissingParameter` where no 0
    /// ends the name, and `InvalidXattrSize` where the value has another length.
    #[inline(always)]
    pub fn name_and_value(&mut self, size: usize, value: u32) -> Result<FirstName<'r>>
        requires { size ≤ LARGEST_RECORD }
        ensures header { self.new.header ≡ self.old.header }
        ensures part { GivesPart (TailIsCut self.old.header.now size self.old.r.now.pieces)
            (value_in value) result (tail_of self.old.header.now size self.old.r.now.left) }
    {
        let tail = self.tail(size)?;
        value_of_tail(value, tail)
    }

    /// The name and the extensions that the tail is, after a record of `size` bytes: the errors of
    /// [`read_tail`], then `MissingParameter` where it has no byte, the errors of
    /// [`get_extensions`](crate::get_extensions), and `InvalidCString` where no 0 ends the name.
    #[inline(always)]
    pub fn extended(
        &mut self,
        options: FsOptions,
        size: usize,
    ) -> Result<(FirstName<'r>, Extensions)>
        requires { size ≤ LARGEST_RECORD }
        ensures header { self.new.header ≡ self.old.header }
        ensures part { GivesPartAs
            (TailIsCut self.old.header.now size self.old.r.now.pieces
            ⊎ MayHoldContext (fs_options_bits options))
            extended_values (extended_in (fs_options_bits options)) result
            (tail_of self.old.header.now size self.old.r.now.left) }
    {
        let tail = self.tail(size)?;
        extended_of_tail(self.alloc, options, tail)
    }

    /// The name of a link, its text and the extensions that the tail is, after no record: the
    /// errors of [`read_tail`], then `MissingParameter` where no 0 ends the name or no byte follows
    /// it, the errors of [`get_extensions`](crate::get_extensions), and `InvalidCString` where no 0
    /// ends the text.
    #[inline(always)]
    pub fn link(&mut self, options: FsOptions) -> Result<(NameAndText<'r>, Extensions)>
        ensures header { self.new.header ≡ self.old.header }
        ensures part { GivesPartAs
            (TailIsCut self.old.header.now 0 self.old.r.now.pieces
            ⊎ MayHoldContext (fs_options_bits options))
            link_values (link_in_tail (fs_options_bits options)) result
            (tail_of self.old.header.now 0 self.old.r.now.left) }
    {
        let tail = self.tail(0)?;
        link_of_tail(self.alloc, options, tail)
    }

    /// The next pairs of a node and a count, by [`read_pairs`].
    #[inline(always)]
    pub fn pairs<I: Number>(&mut self, count: u32) -> Result<Vec<(I, u64)>>
        ensures header { self.new.header ≡ self.old.header }
        ensures pairs { GivesPairs I.value result (pairs_in count self.old.r.now.left) }
    {
        read_pairs(self.alloc, count, self.r)
    }
}
