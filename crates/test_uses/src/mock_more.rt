//! More of recorders and scripts at work: what a script says before anything is set, and what one may hand back.

ghost use Rattle.std.specs.Prelude.{◌≡◌, ℕ, Bool, List, [], ◌∷◌, Option, Some, None, Err, IfErr, IfOk};
ghost use Rattle.vfs_files.specs.Calls.{Call, Count, Failed, Getxattr, Handed, Plain, Readdir, Write, default_answer, getxattr_answer, not_served};
ghost use Rattle.vfs_files.specs.Values.{Item};
ghost use Rattle.vfs_files.specs.declared.entry.Context.{Context};
ghost use Rattle.vfs_bench.specs.Directories.{GivesNext, Reading, items_said};
ghost use Rattle.vfs_bench.specs.Scripts.{Plays, said};
ghost use Rattle.vfs_bench.specs.declared.script.Script.{Script as ScriptValue};

use std::alloc::Global;
use vfs_bench::{Recorder, Script, ScriptDirectory, ScriptEntries, ScriptItem};
use vfs_flags::Fault;

/// A new script says of each call what a file system that serves nothing answers; it has no file, and no directory.
fn new_script() -> Script
    ensures says { (call : Call) → said result call ≡ default_answer call }
    ensures file { result.file ≡ None }
    ensures directory { result.directory ≡ Err not_served }
{
    Script::new()
}

/// What a script hands back is what was set: how long a value is, that it is no directory, or, where there is no file, that
/// WRITE is not served; and it stays as it was.
fn scripts_hand_back_what_was_set()
    ensures count { (old new : ScriptValue) (ctx : Context) (inode size : ℕ) (name : List ℕ)
        (handed : Handed Reading) → getxattr_answer old.value ≡ Count 9 →
        Plays old (Getxattr ctx inode name size) handed new → (handed ≡ Plain (Count 9)) × (new ≡ old) }
    ensures no_directory { (old new : ScriptValue) (ctx : Context) (inode handle size offset : ℕ)
        (handed : Handed Reading) → old.directory ≡ Err (Some 20) →
        Plays old (Readdir ctx inode handle size offset) handed new →
        (handed ≡ Plain (Failed (Some 20))) × (new ≡ old) }
    ensures no_file { (old new : ScriptValue) (ctx : Context) (inode handle size offset flags : ℕ)
        (bytes : List ℕ) (owner : Option ℕ) (delayed kill_priv : Bool) (handed : Handed Reading) →
        old.file ≡ None →
        Plays old (Write ctx inode handle bytes size offset owner delayed kill_priv flags) handed new →
        (handed ≡ Plain (Failed (Some 38))) × (new.file ≡ None) }
{}

/// A reading gives its items in order. At its end it gives the end, and stays; or it begins again, where it has no end.
fn items_come_in_order()
    ensures first { (a b item : Item) (new : Reading) →
        GivesNext (record { left = a ∷ b ∷ []; again = [] }) (Some item) new →
        (item ≡ a) × (new.left ≡ b ∷ []) × (new.again ≡ []) }
    ensures not_yet { (a : Item) (again : List Item) (new : Reading) →
        GivesNext (record { left = a ∷ []; again = again }) None new → ⊥ }
    ensures ended { (new : Reading) →
        GivesNext (record { left = []; again = [] }) None new → new ≡ record { left = []; again = [] } }
    ensures again { (a item : Item) (new : Reading) →
        GivesNext (record { left = []; again = a ∷ [] }) (Some item) new →
        (item ≡ a) × (new.left ≡ []) × (new.again ≡ a ∷ []) }
{}

/// A directory that ends is read from its first item on, and nothing comes after its last; ENOMEM where there is no memory.
fn reading_with_an_end(alloc: Global, items: Vec<ScriptItem>) -> Result<ScriptEntries, Fault>
    ensures left { IfOk result (λ entries. entries.left ≡ items_said items.items) }
    ensures again { IfOk result (λ entries. entries.again ≡ []) }
    ensures memory { IfErr result (λ fault. fault ≡ Some 12) }
{
    ScriptDirectory::new(alloc, items)?.entries()
}

/// The script that a recorder has inside is the one that was put there.
fn fault_inside(recorder: &Recorder<Script>) -> Fault
    ensures { result ≡ recorder.now.inner.tmpfile }
{
    recorder.inner().tmpfile
}
