//! What each call of a [`FileSystem`](crate::FileSystem) answers, of an answer as a value of its
//! kind.

ghost use Rattle.std.specs.Prelude.{◌≡◌};
ghost use Rattle.vfs_files.specs.Answers.{init_answer, entry_answer, attr_answer, done_answer, opened_answer, created_answer, statistics_answer, Failed, text_answer, getxattr_answer, listxattr_answer, offset_answer, written_answer, KeepsTextShort};
ghost use Rattle.vfs_files.specs.CallValue.{answer_of, IsDone, IsOptions, IsEntry, IsAttributes, IsOpening, IsCreation, IsStatistics, IsText, IsTextOrCount, IsOffset, IsWrote, IsRefused};

use crate::call_value::Given;
use crate::entry::Entry;
use crate::xattr::{GetxattrReply, ListxattrReply};
use std::time::Duration;
use vfs_flags::{Fault, FsOptions, OpenOptions};
use vfs_wire::{Attr, Statvfs64};

/// That of a call that is done or not.
#[inline(always)]
pub fn done(answer: Result<Given, Fault>) -> Result<(), Fault>
    requires { IsDone answer }
    ensures { done_answer result ≡ answer_of answer }
{
    match answer? {
        Given::Done => Ok(()),
        _ => unreachable!(),
    }
}

/// That of `init`.
#[inline(always)]
pub fn options(answer: Result<Given, Fault>) -> Result<FsOptions, Fault>
    requires { IsOptions answer }
    ensures { init_answer result ≡ answer_of answer }
{
    match answer? {
        Given::Options(want) => Ok(want),
        _ => unreachable!(),
    }
}

/// That of a call that answers an entry.
#[inline(always)]
pub fn entry(answer: Result<Given, Fault>) -> Result<Entry, Fault>
    requires { IsEntry answer }
    ensures { entry_answer result ≡ answer_of answer }
{
    match answer? {
        Given::Found(entry) => Ok(entry),
        _ => unreachable!(),
    }
}

/// That of `getattr` and `setattr`.
#[inline(always)]
pub fn attributes(answer: Result<Given, Fault>) -> Result<(Attr, Duration), Fault>
    requires { IsAttributes answer }
    ensures { attr_answer result ≡ answer_of answer }
{
    match answer? {
        Given::Attributes(attr, timeout) => Ok((attr, timeout)),
        _ => unreachable!(),
    }
}

/// That of `open` and `opendir`.
#[inline(always)]
pub fn opening(answer: Result<Given, Fault>) -> Result<(Option<u64>, OpenOptions), Fault>
    requires { IsOpening answer }
    ensures { opened_answer (λ handle. handle) result ≡ answer_of answer }
{
    match answer? {
        Given::Opened(handle, options) => Ok((handle, options)),
        _ => unreachable!(),
    }
}

/// That of `create`.
#[inline(always)]
pub fn creation(answer: Result<Given, Fault>) -> Result<(Entry, Option<u64>, OpenOptions), Fault>
    requires { IsCreation answer }
    ensures { created_answer (λ handle. handle) result ≡ answer_of answer }
{
    match answer? {
        Given::Created(entry, handle, options) => Ok((entry, handle, options)),
        _ => unreachable!(),
    }
}

/// That of `statfs`.
#[inline(always)]
pub fn statistics(answer: Result<Given, Fault>) -> Result<Statvfs64, Fault>
    requires { IsStatistics answer }
    ensures { statistics_answer result ≡ answer_of answer }
{
    match answer? {
        Given::Statistics(statistics) => Ok(statistics),
        _ => unreachable!(),
    }
}

/// That of `readlink`.
#[inline(always)]
pub fn text(answer: Result<Given, Fault>) -> Result<Vec<u8>, Fault>
    requires { IsText answer }
    ensures told { text_answer result ≡ answer_of answer }
    ensures short { KeepsTextShort (text_answer result) }
{
    match answer? {
        Given::Text(text) => Ok(text),
        _ => unreachable!(),
    }
}

/// That of `getxattr`.
#[inline(always)]
pub fn value(answer: Result<Given, Fault>) -> Result<GetxattrReply, Fault>
    requires { IsTextOrCount answer }
    ensures told { getxattr_answer result ≡ answer_of answer }
    ensures short { KeepsTextShort (getxattr_answer result) }
{
    match answer? {
        Given::Text(value) => Ok(GetxattrReply::Value(value)),
        Given::Count(count) => Ok(GetxattrReply::Count(count)),
        _ => unreachable!(),
    }
}

/// That of `listxattr`.
#[inline(always)]
pub fn names(answer: Result<Given, Fault>) -> Result<ListxattrReply, Fault>
    requires { IsTextOrCount answer }
    ensures told { listxattr_answer result ≡ answer_of answer }
    ensures short { KeepsTextShort (listxattr_answer result) }
{
    match answer? {
        Given::Text(names) => Ok(ListxattrReply::Names(names)),
        Given::Count(count) => Ok(ListxattrReply::Count(count)),
        _ => unreachable!(),
    }
}

/// That of a call that answers a place in a file.
#[inline(always)]
pub fn offset(answer: Result<Given, Fault>) -> Result<u64, Fault>
    requires { IsOffset answer }
    ensures { offset_answer result ≡ answer_of answer }
{
    match answer? {
        Given::Offset(offset) => Ok(offset),
        _ => unreachable!(),
    }
}

/// That of a call that answers how many bytes were copied.
#[inline(always)]
pub fn count(answer: Result<Given, Fault>) -> Result<u32, Fault>
    requires { IsWrote answer }
    ensures { written_answer result ≡ answer_of answer }
{
    match answer? {
        Given::Wrote(count) => Ok(count),
        _ => unreachable!(),
    }
}

/// That of `tmpfile`.
#[inline(always)]
pub fn fault(answer: Result<Given, Fault>) -> Fault
    requires { IsRefused answer }
    ensures { Failed result ≡ answer_of answer }
{
    match answer {
        Ok(_) => unreachable!(),
        Err(fault) => fault,
    }
}
