//! A file system that answers what its maker says.

ghost use Rattle.std.specs.Prelude.{◌≡◌, ℕ, List, None, Some, Ok, Err, IfOk};
ghost use Rattle.vfs_files.specs.Calls.{Options, Plain, kind_of, not_served, default_opening, default_statistics, init_answer, entry_answer, created_answer, opened_answer, text_answer, getxattr_answer, listxattr_answer, done_answer};
ghost use Rattle.vfs_files.specs.Answers.{Text, FitsText, written_answer};
ghost use Rattle.vfs_files.specs.CallValue.{call_of, answer_of, kind_as, IsEntry, IsCreation, IsText, IsTextOrCount, IsDone, IsOfKind};
ghost use Rattle.vfs_bench.specs.Scripts.{Plays, MayCopy, MayTell, WritesFile, said_by, tells_text, lists_names};

use crate::FsResult;
use crate::directory::{ScriptDirectory, ScriptEntries};
use crate::file::ScriptFile;
use std::time::Duration;
use vfs_files::{
    AnswerKind, CallValue, Context, Entry, GetxattrReply, Given, ListxattrReply, PartialFileSystem,
    ReadValue, WriteValue, ZeroCopyReader, ZeroCopyWriter, copy_of, defaults,
};
use vfs_flags::{Errno, Fault, FsOptions, MAX_REPLY_DATA, OpenOptions};
use vfs_wire::{Attr, Statvfs64};

/// Answers each call as its maker says, again and again, whatever the call's arguments are.
///
/// A script is made with the answers of a file system that serves nothing; its maker then sets
/// those that matter:
///
/// ```text
/// let mut script = Script::new();
/// script.done = Ok(());
/// script.written = Err(None);
/// ```
///
/// `forget`, `batch_forget` and `destroy` have no answer and do nothing. Where there is no memory
/// for a text to answer, the answer is ENOMEM, and so it is for a directory.
#[derive(Drop)]
pub struct Script {
    /// The options that `init` wants.
    pub options: FsResult<FsOptions>,
    /// What each call answers that answers an entry, as `lookup`.
    pub entry: FsResult<Entry>,
    /// What each call answers that answers attributes and how long they hold, as `getattr`.
    pub attributes: FsResult<(Attr, Duration)>,
    /// What `open` and `opendir` answer.
    pub opening: FsResult<(Option<u64>, OpenOptions)>,
    /// What `create` answers.
    pub creation: FsResult<(Entry, Option<u64>, OpenOptions)>,
    /// What `statfs` answers.
    pub statistics: FsResult<Statvfs64>,
    /// What `readlink` answers. A text that is too long for a reply is answered as ERANGE.
    pub text: FsResult<Vec<u8>>,
    /// What `getxattr` answers, whichever size is asked for. A value that is too long for a reply
    /// is answered as ERANGE.
    pub value: FsResult<GetxattrReply>,
    /// What `listxattr` answers, whichever size is asked for. Names that are too long for a reply
    /// are answered as ERANGE.
    pub names: FsResult<ListxattrReply>,
    /// What each call answers that answers a place in a file.
    pub offset: FsResult<u64>,
    /// The file that `read` and `write` move bytes of and into, whatever node they are about, or
    /// none: then they are not served.
    pub file: Option<ScriptFile>,
    /// The directory that `readdir` answers a reading of, from its first item on whatever the
    /// offset.
    pub directory: FsResult<ScriptDirectory>,
    /// What each call answers that answers how many bytes were copied, as `copyfilerange`.
    pub written: FsResult<u32>,
    /// What each call answers that says only whether it was done, as `unlink`.
    pub done: FsResult<()>,
    /// The fault of `tmpfile`.
    pub tmpfile: Fault,
}

impl Script {
    /// A script of default answers: those of a file system that serves nothing.
    pub fn new() -> Script
        ensures options { init_answer result.options ≡ Options 0 }
        ensures entry { result.entry ≡ Err not_served }
        ensures attributes { result.attributes ≡ Err not_served }
        ensures opening { opened_answer (λ handle. handle) result.opening ≡ default_opening }
        ensures creation { result.creation ≡ Err not_served }
        ensures statistics { result.statistics ≡ Ok default_statistics }
        ensures text { result.text ≡ Err not_served }
        ensures value { result.value ≡ Err not_served }
        ensures names { result.names ≡ Err not_served }
        ensures offset { result.offset ≡ Err not_served }
        ensures file { result.file ≡ None }
        ensures directory { result.directory ≡ Err not_served }
        ensures written { result.written ≡ Err not_served }
        ensures done { result.done ≡ Err not_served }
        ensures tmpfile { result.tmpfile ≡ not_served }
    {
        Script {
            options: defaults::init(),
            entry: defaults::no_such_call::<Entry>(),
            attributes: defaults::no_such_call::<(Attr, Duration)>(),
            opening: defaults::open::<u64>(),
            creation: defaults::no_such_call::<(Entry, Option<u64>, OpenOptions)>(),
            statistics: defaults::statfs(),
            text: defaults::no_such_call::<Vec<u8>>(),
            value: defaults::no_such_call::<GetxattrReply>(),
            names: defaults::no_such_call::<ListxattrReply>(),
            offset: defaults::no_such_call::<u64>(),
            file: None,
            directory: defaults::no_such_call::<ScriptDirectory>(),
            written: defaults::no_such_call::<u32>(),
            done: defaults::no_such_call::<()>(),
            tmpfile: defaults::tmpfile(),
        }
    }
}

/// An equal entry.
fn same_entry(entry: &Entry) -> Entry
    ensures { result ≡ entry.now }
{
    Entry {
        inode: entry.inode,
        generation: entry.generation,
        attr: entry.attr,
        attr_timeout: entry.attr_timeout,
        entry_timeout: entry.entry_timeout,
    }
}

/// An equal answer.
fn same_entry_answer(answer: &FsResult<Entry>) -> FsResult<Given>
    ensures answer { answer_of result ≡ entry_answer answer.now }
    ensures kind { IsEntry result }
{
    match answer {
        Ok(entry) => Ok(Given::Found(same_entry(entry))),
        Err(fault) => Err(*fault),
    }
}

/// An equal answer.
fn same_creation(answer: &FsResult<(Entry, Option<u64>, OpenOptions)>) -> FsResult<Given>
    ensures answer { answer_of result ≡ created_answer (λ handle. handle) answer.now }
    ensures kind { IsCreation result }
{
    match answer {
        Ok((entry, handle, options)) => Ok(Given::Created(same_entry(entry), *handle, *options)),
        Err(fault) => Err(*fault),
    }
}

/// How many bytes a text has at most that has its place in a reply.
const LONGEST_TEXT: usize = (1 << 32) - 17;

/// The same bytes, in memory of their own: ENOMEM where there is none, and ERANGE where they are
/// too many for a reply.
fn same_bytes(bytes: &Vec<u8>) -> FsResult<Vec<u8>>
    ensures told { MayCopy (Text bytes.now.items) (Plain (text_answer result)) }
    ensures short { IfOk result (λ copy. FitsText copy.items) }
{
    if bytes.len() > LONGEST_TEXT {
        return Err(Some(Errno::ERANGE));
    }
    copy_of(*bytes.allocator(), bytes)
}

/// Moves up to `size` bytes into the file, and answers how many.
fn write_file<R: ZeroCopyReader>(
    file: &mut ScriptFile,
    r: &mut R,
    size: u32,
    offset: u64,
) -> FsResult<u32>
    ensures { (bytes : List ℕ) × R.takes r.old bytes r.new
        × WritesFile (Some file.old) (R.left r.old) size offset
        (Plain (written_answer result))
        (Some file.new) }
{
    match r.write_to_file_at(file, size as usize, offset, None) {
        Ok(count) => Ok(count as u32),
        Err(fault) => Err(fault),
    }
}

/// The same text as `same_bytes` gives it, or the fault.
fn same_text(text: &FsResult<Vec<u8>>) -> FsResult<Given>
    ensures told { MayCopy (text_answer text.now) (Plain (answer_of result)) }
    ensures kind { IsText result }
{
    match text {
        Ok(bytes) => Ok(Given::Text(same_bytes(bytes)?)),
        Err(fault) => Err(*fault),
    }
}

/// The same value as `same_bytes` gives it, the same length, or the fault.
fn same_value(value: &FsResult<GetxattrReply>) -> FsResult<Given>
    ensures told { MayCopy (getxattr_answer value.now) (Plain (answer_of result)) }
    ensures kind { IsTextOrCount result }
{
    match value {
        Ok(GetxattrReply::Value(bytes)) => Ok(Given::Text(same_bytes(bytes)?)),
        Ok(GetxattrReply::Count(count)) => Ok(Given::Count(*count)),
        Err(fault) => Err(*fault),
    }
}

/// The same names as `same_bytes` gives them, the same length, or the fault.
fn same_names(names: &FsResult<ListxattrReply>) -> FsResult<Given>
    ensures told { MayCopy (listxattr_answer names.now) (Plain (answer_of result)) }
    ensures kind { IsTextOrCount result }
{
    match names {
        Ok(ListxattrReply::Names(bytes)) => Ok(Given::Text(same_bytes(bytes)?)),
        Ok(ListxattrReply::Count(count)) => Ok(Given::Count(*count)),
        Err(fault) => Err(*fault),
    }
}

/// An equal answer.
fn same_done(answer: &FsResult<()>) -> FsResult<Given>
    ensures answer { answer_of result ≡ done_answer answer.now }
    ensures kind { IsDone result }
{
    match answer {
        Ok(()) => Ok(Given::Done),
        Err(fault) => Err(*fault),
    }
}

impl Script {
    // What was set for the answers of a kind; of texts that may be lengths the names of extended
    // attributes, or the value of one.
    #[inline(always)]
    fn set_for(&self, kind: AnswerKind, lists: bool) -> FsResult<Given>
        ensures told { MayTell (tells_text (kind_as kind))
            (said_by self.now (kind_as kind) lists)
            (Plain (answer_of result)) }
        ensures kind { IsOfKind (kind_as kind) result }
    {
        match kind {
            AnswerKind::Quiet => Ok(Given::Done),
            AnswerKind::Told | AnswerKind::Untold => same_done(&self.done),
            AnswerKind::Agreements => Ok(Given::Options(self.options?)),
            AnswerKind::Entries => same_entry_answer(&self.entry),
            AnswerKind::TimedAttributes => {
                let (attr, timeout) = self.attributes?;
                Ok(Given::Attributes(attr, timeout))
            }
            AnswerKind::Openings => {
                let (handle, options) = self.opening?;
                Ok(Given::Opened(handle, options))
            }
            AnswerKind::Creations => same_creation(&self.creation),
            AnswerKind::Capacities => Ok(Given::Statistics(self.statistics?)),
            AnswerKind::Texts => same_text(&self.text),
            AnswerKind::TextsOrCounts => {
                if lists {
                    same_names(&self.names)
                } else {
                    same_value(&self.value)
                }
            }
            AnswerKind::Offsets => Ok(Given::Offset(self.offset?)),
            AnswerKind::Writes => Ok(Given::Wrote(self.written?)),
            AnswerKind::Faults => Err(self.tmpfile),
        }
    }

    // What a call answers.
    #[inline(always)]
    fn given(&self, asked: &CallValue<'_>) -> FsResult<Given>
        ensures answer { Plays self.now (call_of asked.now) (Plain (answer_of result)) self.now }
        ensures kind { IsOfKind (kind_of (call_of asked.now)) result }
    {
        self.set_for(asked.kind(), asks_names(asked))
    }
}

/// Whether a call asks for the names of extended attributes.
#[inline(always)]
fn asks_names(asked: &CallValue<'_>) -> bool
    ensures { result ≡ lists_names (call_of asked.now) }
{
    match asked {
        CallValue::Listxattr { .. } => true,
        _ => false,
    }
}

impl PartialFileSystem for Script {
    type Entries = ScriptEntries;

    ghost permits = { Plays };

    #[inline(always)]
    fn call(&mut self, asked: CallValue<'_>) -> FsResult<Given> {
        self.given(&asked)
    }

    fn read_data<W: ZeroCopyWriter>(&mut self, asked: ReadValue, w: &mut W) -> FsResult<usize> {
        match &mut self.file {
            Some(file) => w.read_from_file_at(
                file,
                asked.size.min(MAX_REPLY_DATA) as usize,
                asked.offset,
            ),
            None => defaults::no_such_call::<usize>(),
        }
    }

    fn write_data<R: ZeroCopyReader>(&mut self, asked: WriteValue, r: &mut R) -> FsResult<u32> {
        match &mut self.file {
            Some(file) => write_file(file, r, asked.size, asked.offset),
            None => defaults::no_such_call::<u32>(),
        }
    }

    fn read_directory(
        &mut self,
        ctx: Context,
        inode: u64,
        handle: u64,
        size: u32,
        offset: u64,
    ) -> FsResult<ScriptEntries> {
        match &self.directory {
            Ok(directory) => directory.entries(),
            Err(fault) => Err(*fault),
        }
    }
}
