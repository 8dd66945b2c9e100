//! The line of each answer.

use super::Notes;
use crate::FsResult;
use crate::seeded::listing::DirectoryItems;
use bitflags::Flags;
use vfs_files::Given;
use vfs_flags::OpenOptions;

impl Notes {
    /// Notes an answer, and the numbers that it shows.
    pub fn note_answer(&mut self, answer: &FsResult<Given>) {
        self.answer(answer);
        match answer {
            Ok(Given::Options(want)) => self.bits("want", want.bits()),
            Ok(Given::Found(entry)) => self.number("node", entry.inode),
            Ok(Given::Opened(handle, options)) => self.note_opening(*handle, *options),
            Ok(Given::Created(entry, handle, options)) => {
                self.number("node", entry.inode);
                self.note_opening(*handle, *options);
            }
            Ok(Given::Offset(offset)) => self.number("offset", *offset),
            Ok(Given::Wrote(count)) => self.number("count", u64::from(*count)),
            _ => {}
        }
        self.end();
    }

    // Notes a handle and how to use it.
    fn note_opening(&mut self, handle: Option<u64>, options: OpenOptions) {
        self.option("handle", handle);
        self.number("opts", u64::from(options.bits()));
    }

    /// Notes an answer that says how many bytes were moved.
    pub fn note_moved(&mut self, answer: &FsResult<usize>) {
        self.answer(answer);
        if let Ok(count) = answer {
            self.number("count", *count as u64);
        }
        self.end();
    }

    /// Notes the answer to a READDIR.
    pub fn note_listed(&mut self, answer: &FsResult<DirectoryItems>) {
        self.answer(answer);
        self.end();
    }
}
