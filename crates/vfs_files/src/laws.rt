//! What holds of names and of every file system by their definitions.

ghost use Rattle.std.specs.Prelude.{◌≡◌, ℕ, List, [], ◌∷◌, Option, Some, None};
ghost use Rattle.vfs_files.specs.Values.{IsName, name_of, Item};
ghost use Rattle.vfs_files.specs.Answers.{IsAnswer};
ghost use Rattle.vfs_files.specs.Calls.{Call, Answer, Plain, Iterator, kind_of, default_answer};
ghost use Rattle.vfs_files.specs.Runs.{IsRun, Called, OpenedDirectory, Taken, RunsJoin};

use crate::filesystem::FileSystem;

/// Runs are joined by putting one list after the other.
///
/// Where a run leads from one state to a second, and another, which begins with no iterator at
/// hand, from there to a third, the events of the first and then those of the second are those of a
/// run from the first state to the third.
pub fn runs_join<F: FileSystem>()
    ensures { RunsJoin F.allows F.DirIter.gives }
{}

/// A run goes on from state to state, and its takings from iterator to iterator.
///
/// Over an opening, a taking, a call and a taking: each call is allowed in the state that the call
/// before it left, the first taking is one of the iterator that was opened, the second one of what
/// the first left, and neither changes the state.
pub fn runs_go_on<F: FileSystem>()
    ensures { (old new : F) (opening call : Call) (answer : Answer) (item next : Option Item) →
        IsRun F.allows F.DirIter.gives None old
        (OpenedDirectory opening ∷ Taken item ∷ Called call answer ∷ Taken next ∷ []) new →
        (opened called : F) × (it b d : F.DirIter)
        × F.allows old opening (Iterator it) opened × F.DirIter.gives it item b
        × F.allows opened call (Plain answer) called × F.DirIter.gives b next d
        × (new ≡ called) }
{}

/// A byte list is a name where its last byte is 0 and no other is, and its text is the rest.
pub fn names_end_at_their_only_nul()
    ensures named { (bytes text : List ℕ) → name_of bytes ≡ Some text → IsName bytes text }
    ensures found { (bytes text : List ℕ) → IsName bytes text → name_of bytes ≡ Some text }
{}

/// What a call answers by default is an answer of its kind, with its numbers within their widths.
pub fn default_answers_are_of_their_kind()
    ensures { (call : Call) → IsAnswer (kind_of call) (default_answer call) }
{}
