//! The calls of the file system in memory. What it has no arm for is not served.

ghost use Rattle.vfs_files.specs.Values.{name_text};
ghost use Rattle.vfs_files.specs.Calls.{Plain, kind_of};
ghost use Rattle.vfs_files.specs.CallValue.{call_of, answer_of, IsEntry, IsAttributes, IsDone, IsCreation, IsOfKind};
ghost use Rattle.fs_small.specs.MemFs.{MemFsAllows, AnswersAttr, AnswersEntry, TakesOut, Makes, attr_at, file_named, place_of, refusal_of};

use super::entries::root_entries;
use super::{MOST_FILES, MemFs, ROOT_MODE, TIMEOUT_SECONDS, attr, entry, not_found};
use crate::memfile::MemFile;
use crate::node_attr;
use bitflags::Flags;
use std::time::Duration;
use vfs_files::{
    CStr, CallValue, Context, EntryList, Given, PartialFileSystem, ReadValue, WriteValue,
    ZeroCopyReader, ZeroCopyWriter, read_bytes, unserved,
};
use vfs_flags::{Errno, Fault, FsOptions, OpenOptions, ROOT_ID};

impl MemFs {
    // A LOOKUP. Inlined, so that the fields of an entry go into a reply without being put together
    // first.
    #[inline(always)]
    fn look_up(&self, parent: u64, name: CStr<'_>) -> Result<Given, Fault>
        ensures answer { AnswersEntry (file_named self.now parent (name_text name.entry))
            (answer_of result) }
        ensures kind { IsEntry result }
    {
        if parent != ROOT_ID {
            return Err(not_found());
        }
        match self.find_name(name.to_bytes()) {
            Some(file) => Ok(Given::Found(entry(file))),
            None => Err(not_found()),
        }
    }

    // A GETATTR.
    #[inline(always)]
    fn attributes(&self, inode: u64) -> Result<Given, Fault>
        ensures answer { AnswersAttr (attr_at self.now inode) (answer_of result) }
        ensures kind { IsAttributes result }
    {
        let timeout = Duration::from_secs(TIMEOUT_SECONDS);
        if inode == ROOT_ID {
            let attr = node_attr(ROOT_ID, ROOT_MODE, 2, 0);
            return Ok(Given::Attributes(attr, timeout));
        }
        match self.find_node(inode) {
            Some(file) => Ok(Given::Attributes(attr(file), timeout)),
            None => Err(not_found()),
        }
    }

    // An UNLINK.
    fn unlink_file(&mut self, parent: u64, name: CStr<'_>) -> Result<Given, Fault>
        ensures answer { TakesOut self.old (place_of self.old parent (name_text name.entry))
            (answer_of result) self.new }
        ensures kind { IsDone result }
    {
        if parent != ROOT_ID {
            return Err(not_found());
        }
        let Some(place) = self.place_of(name.to_bytes()) else {
            return Err(not_found());
        };
        self.take_out(name.to_bytes(), place);
        Ok(Given::Done)
    }

    // A CREATE.
    fn create_file(&mut self, parent: u64, name: CStr<'_>) -> Result<Given, Fault>
        ensures answer { Makes self.old (name_text name.entry)
            (refusal_of self.old parent (name_text name.entry)) (answer_of result) self.new }
        ensures kind { IsCreation result }
    {
        if parent != ROOT_ID {
            return Err(not_found());
        }
        if self.place_of(name.to_bytes()).is_some() {
            return Err(Some(Errno::EEXIST));
        }
        if self.files.len() >= MOST_FILES || self.next == u64::MAX {
            return Err(Some(Errno::ENOSPC));
        }
        let entry = self.add(name, MemFile::new(Vec::new(self.alloc)))?;
        Ok(Given::Created(entry, None, OpenOptions::empty()))
    }

    // What a call answers.
    #[inline(always)]
    fn given(&mut self, asked: &CallValue<'_>) -> Result<Given, Fault>
        ensures answer { MemFsAllows self.old (call_of asked.now) (Plain (answer_of result))
            self.new }
        ensures kind { IsOfKind (kind_of (call_of asked.now)) result }
    {
        match asked {
            CallValue::Init { .. } => Ok(Given::Options(FsOptions::DO_READDIRPLUS)),
            CallValue::Lookup { parent, name, .. } => self.look_up(*parent, *name),
            CallValue::Getattr { inode, .. } => self.attributes(*inode),
            CallValue::Unlink { parent, name, .. } => self.unlink_file(*parent, *name),
            CallValue::Create { parent, name, .. } => self.create_file(*parent, *name),
            // No lookups are counted, so a FORGET is among these.
            other => unserved(other),
        }
    }
}

impl PartialFileSystem for MemFs {
    type Entries = EntryList;

    ghost permits = { MemFsAllows };

    #[inline(always)]
    fn call(&mut self, asked: CallValue<'_>) -> Result<Given, Fault> {
        self.given(&asked)
    }

    fn read_data<W: ZeroCopyWriter>(
        &mut self,
        asked: ReadValue,
        w: &mut W,
    ) -> Result<usize, Fault> {
        let Some(place) = self.place_of_node(asked.inode) else {
            return Err(not_found());
        };
        let file = &self.files[place];
        read_bytes(file.contents.bytes(), w, asked.size, asked.offset)
    }

    fn write_data<R: ZeroCopyReader>(
        &mut self,
        asked: WriteValue,
        r: &mut R,
    ) -> Result<u32, Fault> {
        let Some(place) = self.place_of_node(asked.inode) else {
            return Err(not_found());
        };
        let file = &mut self.files[place];
        file.contents.write_from(r, asked.size, asked.offset)
    }

    fn read_directory(
        &mut self,
        _ctx: Context,
        inode: u64,
        _handle: u64,
        _size: u32,
        offset: u64,
    ) -> Result<EntryList, Fault> {
        if inode != ROOT_ID {
            return Err(Some(Errno::ENOTDIR));
        }
        root_entries(self.alloc, &self.files, offset)
    }
}
