//! Small callers of the law on directories: what comes back of a READDIR and a READDIRPLUS whose
//! bytes are written out.

ghost use Rattle.std.specs.Prelude.{◌≡◌, ◌≢◌, ℕ, List, [], ◌∷◌, length, take, Option, Some, Ok, None as Nothing};
ghost use Rattle.vfs_files.specs.Calls.{Readdir, Lookup, Answer, Failed};
ghost use Rattle.vfs_files.specs.Values.{Item};
ghost use Rattle.vfs_files.specs.Runs.{Event, Called, OpenedDirectory, Taken};
ghost use Rattle.vfs_grammar.specs.Samples.{file_a, nobody, reply_of_one_file, refused_reply, request_for_data};
ghost use Rattle.vfs_grammar.specs.Limits.{default_limits};
ghost use Rattle.vfs_grammar.specs.Turn.{Turn, IsTurn};

use crate::turns::directories_are_read;

/// A READDIR of 64 bytes, where there is room for them and a header, of a directory whose one item
/// is the file `a`: the reply has 48 bytes, says so, and after its header is the record of `a`.
fn a_reply_of_one_file()
    ensures { (options after : ℕ) (t : Turn) → IsTurn (default_limits 4096) options t after →
        t.request ≡ request_for_data 28 64 → length t.room ≡ 80 →
        t.events ≡ OpenedDirectory (Readdir nobody 1 0 64 0) ∷ Taken (Some file_a) ∷ Taken Nothing ∷ [] →
        (t.outcome ≡ Ok 48) × (take 48 t.room_after ≡ reply_of_one_file) }
{
    directories_are_read();
}

/// Where `readdir` fails with EACCES, the reply to the same READDIR is that, in 16 bytes.
fn a_reply_of_a_refusal()
    ensures { (options after : ℕ) (t : Turn) → IsTurn (default_limits 4096) options t after →
        t.request ≡ request_for_data 28 64 → length t.room ≡ 80 →
        t.events ≡ Called (Readdir nobody 1 0 64 0) (Failed (Some 13)) ∷ [] →
        (t.outcome ≡ Ok 16) × (take 16 t.room_after ≡ refused_reply) }
{
    directories_are_read();
}

/// Where fewer bytes are asked for than the shortest record has, at most one item is taken: of a
/// READDIR of 23 bytes, and of a READDIRPLUS of 151, which looks the item up.
fn one_item_is_taken()
    ensures plain { (options after : ℕ) (t : Turn) (first second : Option Item)
        (events : List Event) → IsTurn (default_limits 4096) options t after →
        t.request ≡ request_for_data 28 23 → length t.room ≡ 39 →
        t.events ≢ OpenedDirectory (Readdir nobody 1 0 23 0) ∷ Taken first ∷ Taken second ∷ events }
    ensures with_entries { (options after : ℕ) (t : Turn) (first second : Option Item)
        (name : List ℕ) (answer : Answer) (events : List Event) → IsTurn (default_limits 4096) options t after →
        t.request ≡ request_for_data 44 151 → length t.room ≡ 167 →
        t.events ≢ OpenedDirectory (Readdir nobody 1 0 151 0) ∷ Taken first
        ∷ Called (Lookup nobody 1 name) answer ∷ Taken second ∷ events }
{
    directories_are_read();
}
