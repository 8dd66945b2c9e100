//! A file system whose answers are a function of a word, the process of the caller, and which notes
//! each call and what it answered.
//!
//! The word is 0 at first. Each call with a caller sets it to the caller's process, and is answered
//! by it; a call without one is answered by the word as it is. Where the word's rest by 8 is 7
//! the answer is a fault. Everything else goes by the word divided by 8, the *seed*; the module
//! `rules` has the numbers:
//!
//! - `init`: by the seed's rest by 6 no option, all, or some that are known.
//! - `lookup`: ENOENT for a name that begins with `x`, a fault without a number for one that begins
//!   with `y`, whatever the word is, else the name's entry.
//! - `symlink`, `mknod`, `mkdir`, `link`: the name's entry.
//! - `create`: the name's entry, and what `open` answers.
//! - `open`, `opendir`: a handle or none, and how to use it.
//! - `getattr`: attributes; their t is the seed, the node's rest by 1000 and the handle's by 7.
//! - `setattr`: the attributes that the record sets, 77 names where there is a handle and 1 else,
//!   and the bits of `valid` as flags. All others are by the seed.
//! - `readlink`: as many bytes as the seed's rest by 300.
//! - `getxattr`, `listxattr`: the seed as a length where it is a multiple of 3, else as many bytes
//!   as the rest by 500 of its third.
//! - `statfs`: numbers by the seed.
//! - A place in a file: the offset where the seed is even, else the seed.
//! - How much was copied: the length, at most the seed.
//! - `read`, `write`: bytes of the file of the module `contents`, and into it.
//! - `readdir`: the directory of the module `listing`, from the offset on.
//! - `tmpfile`: ENOSYS.
//! - All others: that it is done.
//!
//! An answer that the input tells goes before all this.

ghost use Rattle.std.specs.Prelude.{◌≤◌, ℕ, List, IfOk};
ghost use Rattle.vfs_files.specs.Answers.{Counts};
ghost use Rattle.vfs_files.specs.CallValue.{IsOptions, IsEntry, IsAttributes, IsText, IsTextOrCount};

use crate::FsResult;
use crate::seeded::contents::Contents;
use crate::seeded::listing::{DirectoryItems, Seeded};
use crate::seeded::notes::Notes;
use crate::seeded::rules::{attr, bytes, fault_of, time, wanted_bits};
use crate::seeded::told::{Source, Told};
use bitflags::Flags;
use std::alloc::{AllocError, Global};
use std::cell::RefCell;
use std::collections::VecDeque;
use std::mem;
use vfs_files::{CStr, Context, Given, ZeroCopyReader, ZeroCopyWriter};
use vfs_flags::{Errno, FsOptions, OpenOptions};
use vfs_wire::{Attr, SetattrIn};

mod calls;

/// The file system.
#[derive(Drop)]
pub struct SeededFs<'a> {
    alloc: Global,
    told: &'a RefCell<VecDeque<Told>>,
    notes: Notes,
}

impl<'a> SeededFs<'a> {
    /// A file system with no notes, and so the word 0, which takes the answers that it is told from
    /// `told`.
    pub fn new(alloc: Global, told: &'a RefCell<VecDeque<Told>>) -> SeededFs<'a> {
        SeededFs {
            alloc,
            told,
            notes: Notes::new(alloc),
        }
    }

    /// The same with room for that many bytes of notes, so that noting these takes no memory.
    pub fn with_room(
        alloc: Global,
        told: &'a RefCell<VecDeque<Told>>,
        bytes: usize,
    ) -> Result<SeededFs<'a>, AllocError> {
        Ok(SeededFs {
            alloc,
            told,
            notes: Notes::with_room(alloc, bytes)?,
        })
    }

    /// The notes of all calls so far.
    pub fn notes(&self) -> &Notes {
        &self.notes
    }

    // The answer that is told for this call, if one is.
    fn next_told(&self) -> Option<Told> {
        match self.told.try_borrow_mut() {
            Ok(mut told) => told.pop_front(),
            Err(_) => None,
        }
    }

    // The seed, or the fault that is the answer.
    fn seed(&self) -> FsResult<Source> {
        let word = self.notes.process();
        let seed = word / 8;
        if word % 8 == 7 {
            Err(fault_of(seed % 160))
        } else {
            Ok(Source::Seed(seed))
        }
    }

    // What the answer hangs on, or the fault that is the answer.
    fn source(&self) -> FsResult<Source> {
        match self.next_told() {
            Some(told) => told.source(),
            None => self.seed(),
        }
    }

    // The options that are wanted.
    fn wanted(&self) -> FsResult<Given>
        ensures { IsOptions result }
    {
        let bits = match self.source()? {
            Source::Told(bits) => bits,
            Source::Seed(seed) => wanted_bits(seed),
        };
        Ok(Given::Options(FsOptions::from_bits_truncate(bits)))
    }

    // What LOOKUP finds.
    fn found(&self, ctx: &Context, name: CStr<'_>) -> FsResult<Given>
        ensures { IsEntry result }
    {
        let source = match self.next_told() {
            Some(told) => told.source(),
            None => match name.to_bytes().first() {
                Some(b'x') => Err(Some(Errno::ENOENT)),
                Some(b'y') => Err(None),
                _ => self.seed(),
            },
        };
        Ok(Given::Found(source?.entry(ctx, name.to_bytes())))
    }

    // The entry of a node that is made or gets a name.
    fn made(&self, ctx: &Context, name: CStr<'_>) -> FsResult<Given>
        ensures { IsEntry result }
    {
        Ok(Given::Found(self.source()?.entry(ctx, name.to_bytes())))
    }

    // A reading of a directory from this place on.
    fn listing(&self, place: u64) -> FsResult<DirectoryItems> {
        let source = match self.next_told() {
            Some(Told::Directory(directory)) => return Ok(DirectoryItems::Told(
                directory.entries()?,
            )),
            Some(told) => told.source()?,
            None => self.seed()?,
        };
        Ok(DirectoryItems::Seeded(Seeded::new(source.as_seed(), place)))
    }

    // The attributes of a node.
    fn attributes(&self, ctx: &Context, inode: u64, handle: Option<u64>) -> FsResult<Given>
        ensures { IsAttributes result }
    {
        let t = u64::from(self.source()?.as_seed()) + inode % 1000 + handle.unwrap_or(0) % 7;
        Ok(Given::Attributes(attr(t, inode, ctx), time(t)))
    }

    // The attributes of a node, where those of the record are set.
    fn changed(
        &self,
        ctx: &Context,
        inode: u64,
        set: &SetattrIn,
        nlink: u32,
        flags: u32,
    ) -> FsResult<Given>
        ensures { IsAttributes result }
    {
        let t = u64::from(self.source()?.as_seed());
        let attr = Attr {
            size: set.size,
            atime: set.atime,
            mtime: set.mtime,
            ctime: set.ctime,
            atimensec: set.atimensec,
            mtimensec: set.mtimensec,
            ctimensec: set.ctimensec,
            mode: set.mode,
            uid: set.uid,
            gid: set.gid,
            nlink,
            flags,
            ..attr(t, inode, ctx)
        };
        Ok(Given::Attributes(attr, time(t)))
    }

    // Puts bytes of a file into `w`.
    fn read_file<W: ZeroCopyWriter>(&mut self, w: &mut W, size: u32, offset: u64) -> FsResult<usize>
        ensures { (bytes : List ℕ) × W.puts w.old bytes w.new × Counts result bytes size }
    {
        let seed = self.source()?.as_seed();
        let mut file = self.lend_notes(seed);
        let answer = file.read_into(w, size, offset);
        self.notes = file.into_notes();
        answer
    }

    // Takes bytes from `r` for a file.
    fn write_file<R: ZeroCopyReader>(
        &mut self,
        r: &mut R,
        size: u32,
        offset: u64,
    ) -> FsResult<usize>
        ensures taken { (bytes : List ℕ) × R.takes r.old bytes r.new }
        ensures within { IfOk result (λ n. n ≤ size) }
    {
        let seed = self.source()?.as_seed();
        let mut file = self.lend_notes(seed);
        let answer = file.write_from(r, size, offset);
        self.notes = file.into_notes();
        answer
    }

    // A file that has the notes, to add to them.
    fn lend_notes(&mut self, seed: u32) -> Contents {
        let notes = mem::replace(&mut self.notes, Notes::new(self.alloc));
        Contents::new(seed, notes)
    }

    // The text of a link.
    fn text(&self) -> FsResult<Given>
        ensures { IsText result }
    {
        let seed = self.source()?.as_seed();
        Ok(Given::Text(bytes(self.alloc, seed, seed % 300)?))
    }

    // The bytes of extended attributes, or their length where there is to be no more.
    fn attribute(&self) -> FsResult<Given>
        ensures { IsTextOrCount result }
    {
        let seed = self.source()?.as_seed();
        if seed % 3 == 0 {
            Ok(Given::Count(seed))
        } else {
            Ok(Given::Text(bytes(self.alloc, seed, seed / 3 % 500)?))
        }
    }
}
