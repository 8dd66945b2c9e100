//! Small callers of the laws of directories.

ghost use Rattle.std.specs.Prelude.{◌≡◌, ◌≤◌, ◌<◌, ◌++◌, ◌%◌, ℕ, length, Bool, true, false, List, [], ◌∷◌, Option, Some, Ok, Err, codes, Result as Outcome, None as Nothing};
ghost use Rattle.vfs_files.specs.Answers.{FitsEntry};
ghost use Rattle.vfs_files.specs.Calls.{Readdir, Lookup, Forget, Failed, Found, Done};
ghost use Rattle.vfs_files.specs.Runs.{Event, Called, Taken};
ghost use Rattle.vfs_files.specs.Values.{Item};
ghost use Rattle.vfs_files.specs.declared.entry.Context.{Context};
ghost use Rattle.vfs_files.specs.declared.entry.Entry.{Entry};
ghost use Rattle.vfs_grammar.specs.Directories.{takings};
ghost use Rattle.vfs_grammar.specs.Listing.{IsListing};
ghost use Rattle.vfs_grammar.specs.Words.{record_bytes, IsDirectoryOf};
ghost use Rattle.vfs_grammar.specs.Nodes.{nodes_in};
ghost use Rattle.vfs_grammar.specs.Samples.{record_of_dot, record_of_a, entry_of_dot, root_dot, file_a};

use crate::listings::{
    directories_are_whole, nodes_are_found, records_are_aligned, records_are_counted,
    takings_are_bounded,
};

/// A READDIR of 240 bytes takes at most eleven items, also from a directory that never ends.
fn endless_directory_is_left()
    ensures { (ctx : Context) (parent space : ℕ) (events : List Event) (body : List ℕ)
        (result : Outcome ℕ (Option ℕ)) →
        IsListing false ctx parent 240 space events body result → length (takings events) ≤ 11 }
{
    takings_are_bounded();
}

/// A READDIR of a directory whose one item is the file `a`, where there is room for as much as was
/// asked for: the body is the 32 bytes of its record, that is how many are answered, and no fewer
/// were asked for.
fn a_directory_of_one_file()
    ensures { (ctx : Context) (parent size space : ℕ) (body : List ℕ)
        (result : Outcome ℕ (Option ℕ)) →
        IsListing false ctx parent size space (Taken (Some file_a) ∷ Taken Nothing ∷ []) body result →
        size ≤ space → (body ≡ record_of_a) × (result ≡ Ok 32) × (32 ≤ size) }
{
    directories_are_whole();
}

/// A READDIRPLUS of a directory with `.` and the file `a`, which is looked up: the body is the 160
/// bytes of `.`, with zeros but for its inode and its mode, and the record of `a` with the entry.
fn a_directory_with_entries()
    ensures { (ctx : Context) (parent size space : ℕ) (entry : Entry) (body : List ℕ)
        (result : Outcome ℕ (Option ℕ)) →
        IsListing true ctx parent size space
        (Taken (Some root_dot) ∷ Taken (Some file_a)
        ∷ Called (Lookup ctx parent (codes "a")) (Found entry) ∷ Taken Nothing ∷ []) body result →
        size ≤ space →
        (body ≡ (entry_of_dot ++ record_of_dot) ++ record_bytes (Some entry) file_a)
        × (result ≡ Ok 320) }
{
    directories_are_whole();
}

/// Where READDIRPLUS gives back a node right after it took `.`, that is node 0, nothing was put, and
/// less than the 160 bytes of its record were asked for.
fn a_dot_that_does_not_fit()
    ensures { (ctx : Context) (parent size space n : ℕ) (body : List ℕ)
        (result : Outcome ℕ (Option ℕ)) →
        IsListing true ctx parent size space
        (Taken (Some root_dot) ∷ Called (Forget ctx n 1) Done ∷ []) body result →
        size ≤ space → (n ≡ 0) × (body ≡ []) × (size < 160) }
{
    directories_are_whole();
}

/// Where `readdir` fails with EACCES, that is the answer, and there are no records.
fn a_directory_that_is_refused()
    ensures { (plus : Bool) (ctx : Context) (parent handle size offset space : ℕ) (body : List ℕ)
        (result : Outcome ℕ (Option ℕ)) →
        IsDirectoryOf plus ctx parent handle size offset space
        (Called (Readdir ctx parent handle size offset) (Failed (Some 13)) ∷ []) body result →
        (body ≡ []) × (result ≡ Err (Some 13)) }
{}

/// Where the lookup of the first item fails with ENOENT, that is the answer of READDIRPLUS, and
/// there are no records.
fn a_first_lookup_that_fails()
    ensures { (ctx : Context) (parent size space : ℕ) (body : List ℕ)
        (result : Outcome ℕ (Option ℕ)) →
        IsListing true ctx parent size space
        (Taken (Some file_a) ∷ Called (Lookup ctx parent (codes "a")) (Failed (Some 2)) ∷ [])
        body result →
        (body ≡ []) × (result ≡ Err (Some 2)) }
{}

/// The records of two entries, one after the other, hold their nodes in order.
fn nodes_of_two_records()
    ensures { (first second : Entry) → FitsEntry first → FitsEntry second →
        nodes_in (record_bytes (Some first) file_a ++ record_bytes (Some second) root_dot)
        ≡ first.inode ∷ second.inode ∷ [] }
{
    nodes_are_found();
}

/// The bytes of a READDIRPLUS hold as many nodes as it put lines, of whatever directory.
fn a_node_for_each_line()
    ensures { (ctx : Context) (parent size space : ℕ) (events : List Event) (body : List ℕ)
        (result : Outcome ℕ (Option ℕ)) →
        (h : IsListing true ctx parent size space events body result) →
        length (nodes_in body) ≡ length h.lines }
{
    nodes_are_found();
}

/// The bytes of a record are a multiple of 8, whatever the name: at least 24, and 152 with an entry.
fn bytes_of_a_record()
    ensures multiple { (entry : Option Entry) (i : Item) → length (record_bytes entry i) % 8 ≡ 0 }
    ensures least { (i : Item) → 24 ≤ length (record_bytes Nothing i) }
    ensures with_entry { (entry : Entry) (i : Item) → 152 ≤ length (record_bytes (Some entry) i) }
{
    records_are_aligned();
}

/// A READDIR of 96 bytes that answers a number answers how many bytes its records have: at most 96.
fn a_reading_of_96_bytes()
    ensures { (ctx : Context) (parent space n : ℕ) (events : List Event) (body : List ℕ) →
        IsListing false ctx parent 96 space events body (Ok n) → (length body ≡ n) × (length body ≤ 96) }
{
    records_are_counted();
}
