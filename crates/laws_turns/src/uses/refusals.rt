//! Small callers of the laws of what is refused, and of what stays.

ghost use Rattle.std.specs.Prelude.{◌≡◌, ◌≢◌, [], ◌∷◌, ℕ, List, length, Ok, Err, Some};
ghost use Rattle.vfs_flags.specs.Numbers.{opcode_of};
ghost use Rattle.vfs_flags.specs.declared.opcode.Opcode.{Opcode};
ghost use Rattle.vfs_wire.specs.Records.{init_out};
ghost use Rattle.vfs_wire.specs.Fields.{value_of};
ghost use Rattle.vfs_files.specs.Calls.{Options};
ghost use Rattle.vfs_grammar.specs.Memory.{header_of};
ghost use Rattle.vfs_grammar.specs.Turn.{AreTurns, Turn, IsTurn};
ghost use Rattle.vfs_grammar.specs.declared.error.Error.{Error};
ghost use Rattle.vfs_grammar.specs.declared.limits.Limits.{Limits};
ghost use Rattle.laws_turns.specs.Turns.{AnswersWhole, body_in};

use crate::turns::{
    agreed_options_are_told, memory_is_wanted_for_whole_tails, other_requests_keep_the_options,
    refusals_change_nothing, rooms_stay, two_errors_are_never_answered,
};

/// A request that is refused for want of memory may be sent once more, or left out: the file system saw nothing of it,
/// its room is as it was, and what comes after it are turns in order without it.
fn a_refused_request_may_be_left_out()
    ensures unseen { (limits : Limits) (options after : ℕ) (t : Turn) → IsTurn limits options t after →
        t.outcome ≡ Err Error.OutOfMemory → (t.events ≡ []) × (t.room_after ≡ t.room) }
    ensures left_out { (limits : Limits) (options after : ℕ) (t : Turn) (turns : List Turn) →
        AreTurns limits options (t ∷ turns) after → t.outcome ≡ Err Error.OutOfMemory →
        AreTurns limits options turns after }
{
    refusals_change_nothing();
}

/// Where one room serves for two requests in a row, it is as long afterwards; and if the second has no reply, it has the
/// first one's bytes.
fn one_room_for_two_requests()
    ensures length { (limits : Limits) (options between after : ℕ) (s t : Turn) →
        IsTurn limits options s between → IsTurn limits between t after → t.room ≡ s.room_after →
        length t.room_after ≡ length s.room }
    ensures silent { (limits : Limits) (options after : ℕ) (s t : Turn) → IsTurn limits options t after →
        t.room ≡ s.room_after → t.outcome ≡ Ok 0 → t.room_after ≡ s.room_after }
{
    rooms_stay();
}

/// Two errors of the list of all are none that a request comes to.
fn errors_of_requests()
    ensures { (limits : Limits) (options after : ℕ) (t : Turn) (e : Error) → IsTurn limits options t after →
        t.outcome ≡ Err e → (e ≢ Error.FlushMessage) × (e ≢ Error.InvalidCString2) }
{
    two_errors_are_never_answered();
}

/// A GETATTR is never refused for want of memory, whatever its bytes are: it has no tail.
fn getattr_lacks_no_memory()
    ensures { (limits : Limits) (options after : ℕ) (t : Turn) → IsTurn limits options t after →
        opcode_of (header_of t.request).opcode ≡ Some Opcode.Getattr → t.outcome ≢ Err Error.OutOfMemory }
{
    memory_is_wanted_for_whole_tails();
}

/// Where both words of flags in INIT's reply are 0, no options are agreed on.
fn no_flags_agree_on_nothing()
    ensures { (limits : Limits) (options after want : ℕ) (t : Turn) →
        AnswersWhole limits options (Options want) t after →
        (value_of init_out (body_in t.room_after)).flags ≡ 0 →
        (value_of init_out (body_in t.room_after)).flags2 ≡ 0 → after ≡ 0 }
{
    agreed_options_are_told();
}

/// A request that asks for no call keeps the options.
fn no_call_keeps_the_options()
    ensures { (limits : Limits) (options after : ℕ) (t : Turn) → IsTurn limits options t after →
        t.events ≡ [] → after ≡ options }
{
    other_requests_keep_the_options();
}
