//! Recorders and scripts at work.

ghost use Rattle.std.specs.Prelude.{◌≡◌, ◌≤◌, ◌<◌, ◌++◌, [], ◌∷◌, true, false, length, map, vec_len, Some, None, Ok, Err, IfSome, IfOk, IfErr, IsOk, IsSome};
ghost use Rattle.vfs_flags.specs.declared.opcode.Opcode.{Opcode};
ghost use Rattle.vfs_files.specs.Answers.{entry_answer};
ghost use Rattle.vfs_files.specs.Calls.{no_such_call, not_served, out_of_memory};
ghost use Rattle.vfs_bench.specs.Directories.{GivesNext, Reading};
ghost use Rattle.vfs_bench.specs.Notes.{unanswered};
ghost use Rattle.vfs_bench.specs.declared.note.NoteKind.TheVariants.{Nothing, Fault as Failed, Ok as Found};

use crate::files::forget_each;
use fs_small::Unserved;
use fs_tree::TreeFs;
use std::alloc::Global;
use vfs_bench::laws::notes_are_the_calls;
use vfs_bench::{Note, Recorder, Script, ScriptDirectory, ScriptEntries, ScriptFile, ScriptItem};
use vfs_files::{
    CStr, Context, DirectoryIterator, Entry, FileSystem, GetxattrReply, ZeroCopyReader,
    ZeroCopyWriter,
};
use vfs_flags::{Errno, Fault, Opcode};

/// Looks a name up in node 9 of a file system that serves nothing: one note more says so.
fn lookup_is_noted(
    recorder: &mut Recorder<Unserved>,
    ctx: Context,
    name: CStr<'_>,
) -> Result<Entry, Fault>
    requires { length recorder.old.notes < recorder.old.places }
    ensures noted { recorder.new.notes ≡ recorder.old.notes ++ record {
      call = 1;
      node = 9;
      count = 0;
      kind = Failed;
      value = 38;
    } ∷ [] }
    ensures not_missed { recorder.new.missed ≡ recorder.old.missed }
    ensures answer { entry_answer result ≡ no_such_call }
{
    recorder.lookup(ctx, 9, name)
}

/// A recorder wraps any file system: a name found in the root of a tree in memory is noted with its node.
fn lookup_in_a_tree_is_noted(
    recorder: &mut Recorder<TreeFs>,
    ctx: Context,
    name: CStr<'_>,
) -> Result<Entry, Fault>
    requires { length recorder.old.notes < recorder.old.places }
    ensures { IfOk result (λ entry. recorder.new.notes ≡ recorder.old.notes ++ record {
      call = 1;
      node = 1;
      count = 0;
      kind = Found;
      value = entry.inode;
    } ∷ []) }
{
    recorder.lookup(ctx, 1, name)
}

/// The same where there is no place for a note: the call is answered all the same.
fn lookup_is_missed(
    recorder: &mut Recorder<Unserved>,
    ctx: Context,
    name: CStr<'_>,
) -> Result<Entry, Fault>
    requires { recorder.old.places ≤ length recorder.old.notes }
    ensures notes { recorder.new.notes ≡ recorder.old.notes }
    ensures missed { recorder.new.missed ≡ true }
    ensures answer { entry_answer result ≡ no_such_call }
{
    recorder.lookup(ctx, 9, name)
}

/// Takes three lookups of node 9 back, which the note counts.
fn forget_is_noted(recorder: &mut Recorder<Unserved>, ctx: Context)
    requires { length recorder.old.notes < recorder.old.places }
    ensures { recorder.new.notes ≡ recorder.old.notes ++ record {
      call = 2;
      node = 9;
      count = 3;
      kind = Nothing;
      value = 0;
    } ∷ [] }
{
    recorder.forget(ctx, 9, 3);
}

/// A recorder with one place, after two calls: it has the note of the first, and missed the second.
fn first_of_two(alloc: Global) -> Result<Recorder<Unserved>, Fault>
    ensures notes { IfOk result (λ recorder. recorder.notes ≡ record {
      call = 31;
      node = 0;
      count = 0;
      kind = Failed;
      value = 38;
    } ∷ []) }
    ensures missed { IfOk result (λ recorder. recorder.missed ≡ true) }
{
    let mut recorder = Recorder::new(alloc, Unserved {}, 1)?;
    let _ = recorder.getlk();
    let _ = recorder.setlk();
    Ok(recorder)
}

/// Takes lookups of many nodes back, one by one: where none is missed there is a note for each, in
/// order.
fn forgets_are_noted(recorder: &mut Recorder<Unserved>, ctx: &Context, requests: Vec<(u64, u64)>)
    ensures { recorder.new.missed ≡ false →
        recorder.new.notes ≡ recorder.old.notes ++ map (λ p. unanswered 2 p.0 p.1) requests.items }
{
    notes_are_the_calls::<Unserved>();
    forget_each(recorder, ctx, requests);
}

/// A file system that says of each call that it was done, where it says no more than that.
fn all_done() -> Script
    ensures done { IsOk result.done }
    ensures names { result.entry ≡ Err not_served }
{
    let mut script = Script::new();
    script.done = Ok(());
    script
}

/// A script answers what its maker set, and keeps it: `lookup` that the name isn't there, then
/// `getxattr` that a value has 9 bytes, `readdir` that it is no directory, and `unlink` that it was
/// done.
fn what_was_set(
    script: &mut Script,
    ctx: &Context,
    name: CStr<'_>,
) -> (
    Result<Entry, Fault>,
    Result<GetxattrReply, Fault>,
    Result<ScriptEntries, Fault>,
    Result<(), Fault>,
)
    ensures lookup { result.0 ≡ Err (Some 2) }
    ensures getxattr { result.1 ≡ Ok (GetxattrReply.Count 9) }
    ensures readdir { result.2 ≡ Err (Some 20) }
    ensures unlink { result.3 ≡ Ok tt }
{
    script.entry = Err(Some(Errno::ENOENT));
    script.value = Ok(GetxattrReply::Count(9));
    script.directory = Err(Some(Errno::ENOTDIR));
    script.done = Ok(());
    let found = script.lookup(*ctx, 1, name);
    let value = script.getxattr(*ctx, 1, name, 0);
    let entries = script.readdir(*ctx, 1, 0, 4096, 0);
    let done = script.unlink(*ctx, 1, name);
    (found, value, entries, done)
}

/// The text of a link that was set is answered: where there is no memory for a copy that is ENOMEM,
/// and where it is too long for a reply ERANGE.
fn text_that_was_set(script: &mut Script, ctx: Context, text: Vec<u8>) -> Result<Vec<u8>, Fault>
    ensures same { IfOk result (λ copy. copy.items ≡ text.items) }
    ensures short { vec_len text < 4_294_967_280 → IfErr result (λ fault. fault ≡ out_of_memory) }
    ensures long { 4_294_967_280 ≤ vec_len text → result ≡ Err (Some 34) }
{
    script.text = Ok(text);
    script.readlink(ctx, 1)
}

/// The directory that was set is read from its first item on: where there is no memory for that it
/// is ENOMEM.
fn directory_that_was_set(
    script: &mut Script,
    ctx: Context,
    directory: ScriptDirectory,
) -> Result<ScriptEntries, Fault>
    ensures begun { IfOk result (λ entries. entries ≡ directory) }
    ensures memory { IfErr result (λ fault. fault ≡ out_of_memory) }
    ensures kept { script.new.directory ≡ Ok directory }
{
    script.directory = Ok(directory);
    script.readdir(ctx, 1, 0, 4096, 0)
}

/// Where no file was set neither READ nor WRITE is served.
fn without_a_file<W: ZeroCopyWriter, R: ZeroCopyReader>(
    script: &mut Script,
    ctx: &Context,
    w: &mut W,
    r: &mut R,
) -> (Result<usize, Fault>, Result<u32, Fault>)
    ensures read { result.0 ≡ Err not_served }
    ensures written { result.1 ≡ Err not_served }
    ensures file { script.new.file ≡ None }
{
    script.file = None;
    let read = script.read(*ctx, 1, 0, w, 4096, 0, None, 0);
    let written = script.write(*ctx, 1, 0, r, 4096, 0, None, false, false, 0);
    (read, written)
}

/// READ of one byte of a file of sevens puts a seven, and calls the file once.
fn one_byte_of_a_file<W: ZeroCopyWriter>(
    script: &mut Script,
    ctx: Context,
    w: &mut W,
) -> Result<usize, Fault>
    requires { 0 < W.room w.old }
    ensures answer { result ≡ Ok 1 }
    ensures put { W.puts w.old (7 ∷ []) w.new }
    ensures called { IfSome script.new.file (λ file. file.calls ≡ 1) }
    ensures kept { script.new.done ≡ script.old.done }
{
    script.file = Some(ScriptFile {
        most: 1,
        fails_at: None,
        fault: None,
        byte: 7,
        calls: 0,
    });
    script.read(ctx, 1, 0, w, 1, 0, None, 0)
}

/// WRITE to a file that takes no byte: 0 is answered, and the file was called once.
fn file_that_takes_no_byte<R: ZeroCopyReader>(
    script: &mut Script,
    ctx: Context,
    r: &mut R,
) -> Result<u32, Fault>
    requires { 0 < length (R.left r.old) }
    ensures answer { result ≡ Ok 0 }
    ensures called { IfSome script.new.file (λ file. file.calls ≡ 1) }
    ensures kept { script.new.done ≡ script.old.done }
{
    script.file = Some(ScriptFile {
        most: 0,
        fails_at: None,
        fault: None,
        byte: 0,
        calls: 0,
    });
    script.write(ctx, 1, 0, r, 4096, 0, None, false, false, 0)
}

/// A reading of a directory that has items and no end: it never gives the end.
fn reading_without_end(alloc: Global, items: Vec<ScriptItem>) -> Result<ScriptEntries, Fault>
    requires { 0 < vec_len items }
    ensures { IfOk result (λ entries. (new : Reading) → ¬ (GivesNext entries None new)) }
{
    ScriptDirectory::endless(alloc, items)?.entries()
}

/// A reading that has one item left and ends after it: gives that item, then the end, and then the
/// end again.
fn one_item_and_the_end(entries: &mut ScriptEntries) -> (Option<u64>, bool, bool)
    requires last { length entries.old.left ≡ 1 }
    requires ends { entries.old.again ≡ [] }
    ensures item { IfSome result.0 (λ ino. map (λ item. item.ino) entries.old.left ≡ ino ∷ []) }
    ensures some { IsSome result.0 }
    ensures ended { result.1 ≡ true }
    ensures again { result.2 ≡ true }
{
    let first = match entries.next() {
        Some(entry) => Some(entry.ino),
        None => None,
    };
    let ended = entries.next().is_none();
    let again = entries.next().is_none();
    (first, ended, again)
}

/// How many calls a recorder noted, where it missed none.
fn count_of_calls(recorder: &Recorder<Unserved>) -> Option<usize>
    ensures all { recorder.now.missed ≡ false → result ≡ Some (length recorder.now.notes) }
    ensures some { recorder.now.missed ≡ true → result ≡ None }
{
    if recorder.missed() {
        None
    } else {
        Some(recorder.notes().len())
    }
}

/// A recorder whose notes are forgotten has none, has missed no call, and has the same file system
/// inside and as many places; and that is what comes out.
fn cleared(mut recorder: Recorder<Script>) -> (usize, bool, Script)
    ensures notes { result.0 ≡ 0 }
    ensures missed { result.1 ≡ false }
    ensures inner { result.2 ≡ recorder.inner }
{
    recorder.clear();
    (
        recorder.notes().len(),
        recorder.missed(),
        recorder.into_inner(),
    )
}

/// The opcode of a note of a LOOKUP, and that of one that no recorder makes.
#[tactic(auto, unfolding(vfs_flags::specs::Numbers::opcode_of))]
fn opcodes_of_notes(lookup: &Note, none: &Note) -> (Option<Opcode>, Option<Opcode>)
    requires lookup { lookup.now.call ≡ 1 }
    requires none { none.now.call ≡ 7 }
    ensures lookup { result.0 ≡ Some Opcode.Lookup }
    ensures none { result.1 ≡ None }
{
    (lookup.opcode(), none.opcode())
}
