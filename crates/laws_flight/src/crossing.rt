//! Requests that cross, and what a turn says of the data that it was answered by.

ghost use Rattle.std.specs.Prelude.{◌≡◌, ◌≢◌, ℕ, List, Option, [], ◌∷◌, length, pos};
ghost use Rattle.codec_calls.specs.declared.data.AnswerData.{AnswerData};
ghost use Rattle.codec_calls.specs.declared.data.ItemData.{ItemData};
ghost use Rattle.vfs_files.specs.Calls.{Failed, Getattr};
ghost use Rattle.vfs_files.specs.Runs.{Called};
ghost use Rattle.vfs_files.specs.declared.entry.Context.{Context};
ghost use Rattle.vfs_grammar.specs.Ask.{ask};
ghost use Rattle.vfs_grammar.specs.Books.{KeepsBooks};
ghost use Rattle.vfs_grammar.specs.Forms.{Asks, Lists};
ghost use Rattle.vfs_grammar.specs.Listing.{Listing};
ghost use Rattle.vfs_grammar.specs.Reply.{Echo};
ghost use Rattle.vfs_grammar.specs.Turn.{Turn};
ghost use Rattle.vfs_grammar.specs.declared.limits.Limits.{Limits};
ghost use Rattle.vfs_segments.specs.Written.{Written, Leaves};
ghost use Rattle.codec_encode.specs.Said.{IsFailed};
ghost use Rattle.codec_encode.specs.declared.answered.Answered.{Answered};
ghost use Rattle.laws_flight.specs.OneTurn.{IsAnsweredTurn};

use crate::laws::turns_in_flight_keep_books;

/// Two requests were asked, each under options of its own, and answered in the other order. Each is a turn with the
/// bytes that came, that outcome and the room as it was left, and the books of both are kept.
fn crossing_answers_keep_books()
    ensures { (limits : Limits) (options others : ℕ) (request other : List ℕ) (a b : AnswerData)
        (text words : List ℕ) (items entries : List ItemData) (old before : Written)
        (came went : Answered) (new after : Written) →
        IsAnsweredTurn limits options request a text items old came new →
        IsAnsweredTurn limits others other b words entries before went after →
        (s t : Turn) × (s.request ≡ request) × (s.outcome ≡ came.outcome)
        × Leaves old s.room_after new
        × (t.request ≡ other) × (t.outcome ≡ went.outcome) × Leaves before t.room_after after
        × KeepsBooks (t ∷ s ∷ []) }
{
    turns_in_flight_keep_books();
}

/// A GETATTR was answered by an error: its turn says that the file system answered this error to this call, made
/// nothing else, and nothing is to be given back.
fn an_error_is_the_answer()
    ensures { (limits : Limits) (options : ℕ) (request : List ℕ) (a : AnswerData) (text : List ℕ)
        (items : List ItemData) (old : Written) (came : Answered) (new : Written) (echo : Echo)
        (ctx : Context) (inode : ℕ) (handle : Option ℕ) →
        ask limits options (length old.left) request ≡ Asks echo (Getattr ctx inode handle) →
        a.error ≢ pos 0 →
        (t : IsAnsweredTurn limits options request a text items old came new) →
        (fault : Option ℕ) × IsFailed a fault
        × (t.events ≡ Called (Getattr ctx inode handle) (Failed fault) ∷ [])
        × (came.given ≡ 0) }
{}

/// A directory whose reading was answered by an error has no item in the reply.
fn an_error_lists_nothing()
    ensures { (limits : Limits) (options : ℕ) (request : List ℕ) (a : AnswerData) (text : List ℕ)
        (items : List ItemData) (old : Written) (came : Answered) (new : Written) (echo : Echo)
        (l : Listing) →
        ask limits options (length old.left) request ≡ Lists echo l → a.error ≢ pos 0 →
        IsAnsweredTurn limits options request a text items old came new → came.taken ≡ 0 }
{}
