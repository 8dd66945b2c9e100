//! Of requests in flight, small numbers: what is told of calls that have nothing but a number, and which answers may come.

ghost use Rattle.std.specs.Prelude.{◌≡◌, ℕ, List, [], ◌∷◌, length};
ghost use Rattle.codec_decode.specs.Asked.{IsTold};
ghost use Rattle.codec_calls.specs.declared.call.CallData.{CallData};
ghost use Rattle.vfs_files.specs.Calls.{Bmap, Destroy, Getlk, Init, Ioctl, NotifyReply, Poll, Setlk, Setlkw, Tmpfile};
ghost use Rattle.vfs_grammar.specs.Reply.{Echo};
ghost use Rattle.vfs_grammar.specs.Turn.{Turn};
ghost use Rattle.vfs_grammar.specs.declared.limits.Limits.{Limits};
ghost use Rattle.laws_flight.specs.Flight.{AreInFlight, Completes, IsTurnOf, Waiting};

use crate::laws::the_table_says_what_is_told;
use laws_turns::turns::rooms_stay;

/// A call that has nothing but its number is told by it, and by its kind of answer: a fault or silence (2), none at all (0)
/// or a fault (15). An INIT is told with what the client can do, and answered by what is wanted (4).
fn calls_that_are_told_by_number()
    ensures init { (request : List ℕ) (told : CallData) (echo : Echo) (capable : ℕ) →
        IsTold request told.options told.room echo (Init capable) told →
        (told.call ≡ 26) × (told.answer ≡ 4) × (told.length ≡ capable) × (told.node ≡ 0) }
    ensures getlk { (request : List ℕ) (told : CallData) (echo : Echo) →
        IsTold request told.options told.room echo Getlk told →
        (told.call ≡ 31) × (told.answer ≡ 2) × (told.node ≡ 0) }
    ensures setlk { (request : List ℕ) (told : CallData) (echo : Echo) →
        IsTold request told.options told.room echo Setlk told →
        (told.call ≡ 32) × (told.answer ≡ 2) × (told.node ≡ 0) }
    ensures setlkw { (request : List ℕ) (told : CallData) (echo : Echo) →
        IsTold request told.options told.room echo Setlkw told →
        (told.call ≡ 33) × (told.answer ≡ 2) × (told.node ≡ 0) }
    ensures bmap { (request : List ℕ) (told : CallData) (echo : Echo) →
        IsTold request told.options told.room echo Bmap told →
        (told.call ≡ 37) × (told.answer ≡ 2) × (told.node ≡ 0) }
    ensures destroy { (request : List ℕ) (told : CallData) (echo : Echo) →
        IsTold request told.options told.room echo Destroy told →
        (told.call ≡ 38) × (told.answer ≡ 0) × (told.node ≡ 0) }
    ensures ioctl { (request : List ℕ) (told : CallData) (echo : Echo) →
        IsTold request told.options told.room echo Ioctl told →
        (told.call ≡ 39) × (told.answer ≡ 2) × (told.node ≡ 0) }
    ensures poll { (request : List ℕ) (told : CallData) (echo : Echo) →
        IsTold request told.options told.room echo Poll told →
        (told.call ≡ 40) × (told.answer ≡ 2) × (told.node ≡ 0) }
    ensures notify_reply { (request : List ℕ) (told : CallData) (echo : Echo) →
        IsTold request told.options told.room echo NotifyReply told →
        (told.call ≡ 41) × (told.answer ≡ 2) × (told.node ≡ 0) }
    ensures tmpfile { (request : List ℕ) (told : CallData) (echo : Echo) →
        IsTold request told.options told.room echo Tmpfile told →
        (told.call ≡ 51) × (told.answer ≡ 15) × (told.node ≡ 0) }
{
    the_table_says_what_is_told();
}

/// The room of a request is as long as it was told to be when it was asked, also after its turn.
fn a_room_is_as_long_as_asked()
    ensures { (limits : Limits) (w : Waiting) (t : Turn) (after : ℕ) → IsTurnOf limits w t after →
        length t.room_after ≡ w.room_len }
{
    rooms_stay();
}

/// No answer comes of a request that doesn't wait.
fn nothing_is_answered_unasked()
    ensures { (limits : Limits) (w : Waiting) (t : Turn) (after : ℕ) →
        AreInFlight limits [] (Completes w t after ∷ []) → ⊥ }
{}
