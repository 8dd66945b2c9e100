//! Laws of names, runs, readings and segments at work.

ghost use Rattle.std.specs.Prelude.{◌≡◌, ◌+◌, ◌++◌, ℕ, Bool, [], ◌∷◌, true, false, length, sum, List, Option, Some, None, Result};
ghost use Rattle.vfs_files.specs.Answers.{IsAnswer, Entries};
ghost use Rattle.vfs_files.specs.Calls.{Call, Answer, Iterator, Lookup, Plain, default_answer};
ghost use Rattle.vfs_files.specs.Runs.{Called, Event, IsRun, OpenedDirectory, Taken};
ghost use Rattle.vfs_files.specs.Values.{IsName, Item, name_of};
ghost use Rattle.vfs_files.specs.declared.entry.Context.{Context};
ghost use Rattle.vfs_listings.specs.Reading.{ReadsDirectory};
ghost use Rattle.vfs_segments.specs.Lengths.{lie_together};
ghost use Rattle.vfs_segments.specs.Unread.{Unread, first_of, rest_of};
ghost use Rattle.vfs_segments.specs.Written.{Written, first_room, rest_room, whole};

use vfs_files::FileSystem;
use vfs_files::laws::{default_answers_are_of_their_kind, names_end_at_their_only_nul, runs_go_on};
use vfs_listings::laws::readings_are_runs;
use vfs_segments::laws::{reader_split, together_in_a_segment, together_over_a_cut, writer_split};

/// Bytes that are the name `ab` are these letters and a 0; and bytes are one name alone.
fn bytes_of_a_name()
    ensures bytes { (bytes : List ℕ) → name_of bytes ≡ Some (0x61 ∷ 0x62 ∷ []) →
        bytes ≡ 0x61 ∷ 0x62 ∷ 0 ∷ [] }
    ensures one { (bytes text other : List ℕ) → IsName bytes text → IsName bytes other → text ≡ other }
{
    names_end_at_their_only_nul();
}

/// A directory is opened, an item is taken, a call is made, and another item is taken: the state is what the call left.
fn a_call_between_two_items<F: FileSystem>()
    ensures { (old new : F) (opening call : Call) (answer : Answer) (item next : Option Item) →
        IsRun F.allows F.DirIter.gives None old
        (OpenedDirectory opening ∷ Taken item ∷ Called call answer ∷ Taken next ∷ []) new →
        (opened : F) × (it a b : F.DirIter)
        × F.allows old opening (Iterator it) opened × F.allows opened call (Plain answer) new
        × F.DirIter.gives it item a × F.DirIter.gives a next b }
{
    runs_go_on::<F>();
}

/// What a LOOKUP answers where a file system has none is an answer of its kind.
fn an_unserved_lookup_is_answered()
    ensures { (ctx : Context) (parent : ℕ) (name : List ℕ) →
        IsAnswer Entries (default_answer (Lookup ctx parent name)) }
{
    default_answers_are_of_their_kind();
}

/// A directory that was read led the file system from the one state to the other by a run.
fn a_reading_leads_on<F: FileSystem>()
    ensures { (ctx : Context) (plus : Bool) (parent handle size offset : ℕ) (old new : F)
        (writer writer_after : Written) (result : Result ℕ (Option ℕ)) →
        ReadsDirectory F.allows F.DirIter.gives ctx plus parent handle size offset
        old writer result new writer_after →
        (events : List Event) × IsRun F.allows F.DirIter.gives None old events new }
{
    readings_are_runs::<F>();
}

/// A reader of ten bytes that is split after four: four are of the first part, and both parts are the ten.
fn a_reader_of_ten_bytes()
    ensures { (u : Unread) → length u.left ≡ 10 →
        (length (first_of u 4).left ≡ 4) × ((first_of u 4).left ++ (rest_of u 4).left ≡ u.left) }
{
    reader_split();
}

/// A writer with ten bytes left that is split after four: four are left to the first part, both parts are all its bytes,
/// and the segments of each are as long as the part.
fn a_writer_of_ten_bytes()
    ensures { (w : Written) → length w.left ≡ 10 → sum w.lengths ≡ length (whole w) →
        (length (first_room w 4).left ≡ 4) × (whole (first_room w 4) ++ whole (rest_room w 4) ≡ whole w)
        × (sum (first_room w 4).lengths ≡ length (whole (first_room w 4)))
        × (sum (rest_room w 4).lengths ≡ length (whole (rest_room w 4))) }
{
    writer_split();
}

/// Of segments of three, five and any more bytes: the five lie together, and the two around the first cut don't.
fn bytes_around_a_cut()
    ensures together { (after : List ℕ) → lie_together 3 5 (3 ∷ 5 ∷ after) ≡ true }
    ensures apart { (after : List ℕ) → lie_together 2 2 (3 ∷ 5 ∷ after) ≡ false }
{
    together_in_a_segment();
    together_over_a_cut();
}
