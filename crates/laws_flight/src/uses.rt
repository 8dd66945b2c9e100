//! What a transport knows of requests in flight, by the laws alone.

ghost use Rattle.std.specs.declared.option.Option.TheVariants.{None, Some};
ghost use Rattle.std.specs.Prelude.{◌≡◌, ◌≢◌, ◌≤◌, ◌+◌, ℕ, Bool, List, Option, [], ◌∷◌, length, true, IfSome};
ghost use Rattle.vfs_flags.specs.Flags.{fs_options_bits};
ghost use Rattle.vfs_messages.specs.Rooms.{with_after};
ghost use Rattle.vfs_files.specs.Calls.{Call, Done, Forget, Found, Getattr, Lookup, Mkdir, Read};
ghost use Rattle.vfs_files.specs.Values.{ExtensionValues, Item};
ghost use Rattle.vfs_files.specs.declared.entry.Context.{Context};
ghost use Rattle.vfs_files.specs.declared.entry.Entry.{Entry};
ghost use Rattle.vfs_grammar.specs.Limits.{AreLimits};
ghost use Rattle.vfs_files.specs.Runs.{Called, Event, IsRun, OpenedDirectory, Taken};
ghost use Rattle.vfs_grammar.specs.Books.{KeepsBooks, answered, delivered, sent};
ghost use Rattle.vfs_grammar.specs.Turn.{AreTurns, Turn};
ghost use Rattle.vfs_grammar.specs.declared.limits.Limits.{Limits};
ghost use Rattle.vfs_grammar.specs.Reply.{Echo};
ghost use Rattle.codec_calls.specs.Shapes.{no_range};
ghost use Rattle.codec_calls.specs.declared.call.CallData.{CallData};
ghost use Rattle.codec_decode.specs.Asked.{IsEnough, IsTold};
ghost use Rattle.laws_flight.specs.Flight.{Waiting, IsTurnOf};
ghost use Rattle.laws_flight.specs.Made.{AreSeen, Began, Completed, Point, Seen, events_seen, ForgetsWhatItWasTold, given_back_by};
ghost use Rattle.laws_flight.specs.OneTurn.{IsAnsweredTurn, IsFinishedTurn};
ghost use Rattle.laws_flight.specs.Running.{AreMade, EachCallKeeps};
ghost use Rattle.laws_flight.specs.Table.{TellsByTable, of_request};

use crate::laws::{
    a_finished_request_is_one_turn, asked_and_answered_is_one_turn, calls_in_flight_are_a_run,
    no_count_falls_below_zero_in_flight, the_table_says_what_is_told, turns_in_flight_are_in_order,
    turns_in_flight_keep_books, what_is_told_is_the_call,
};
use codec_calls::{AnswerData, CallData, ItemData};
use codec_decode::{Asked, ask};
use codec_encode::{Answered, answer};
use std::alloc::Global;
use vfs_files::FileSystem;
use vfs_flags::FsOptions;
use vfs_grammar::{Limits, Result};
use vfs_segments::{Reader, Writer};

/// Asks a request for its call, and answers that by these data, whatever they are, in the room that was told. If
/// both are done, that was one turn of the grammar.
fn ask_and_answer(
    alloc: Global,
    limits: Limits,
    options: FsOptions,
    r: Reader<'_>,
    room: usize,
    w: &mut Writer,
    told: &mut CallData,
    a: &AnswerData,
    text: &[u8],
    items: &[ItemData<'_>],
    reply: &mut Writer,
) -> Option<Answered>
    requires limits { AreLimits limits }
    requires enough { IsEnough (length w.old.left) room }
    requires room { length reply.old.left ≡ room }
    ensures { IfSome result (λ came.
        IsAnsweredTurn limits (fs_options_bits options) r.entry.left a.now text.now items.now
        (with_after reply.old []) came (with_after reply.new [])) }
{
    asked_and_answered_is_one_turn();
    match ask(alloc, limits, options, r, room, w, told) {
        Asked::Call => answer(limits, told, a, text, items, reply),
        Asked::Finished { .. } => None,
    }
}

/// Asks a request for its call. If it is finished, that was one turn of the grammar, without a call, in the room that
/// the writer has left and any bytes after it.
fn ask_alone(
    alloc: Global,
    limits: Limits,
    options: FsOptions,
    r: Reader<'_>,
    room: usize,
    w: &mut Writer,
    told: &mut CallData,
) -> Option<Result<usize>>
    requires limits { AreLimits limits }
    requires enough { IsEnough (length w.old.left) room }
    ensures { (following : List ℕ) → length w.old.left + length following ≡ room → IfSome result (λ outcome.
        IsFinishedTurn limits (fs_options_bits options) r.entry.left (with_after w.old following) outcome
        (with_after w.new following)) }
{
    a_finished_request_is_one_turn();
    match ask(alloc, limits, options, r, room, w, told) {
        Asked::Call => None,
        Asked::Finished { outcome, .. } => Some(outcome),
    }
}

/// Two requests are asked, and answered in the other order: the books of both are kept.
fn answer_in_other_order()
    ensures { (limits : Limits) (a b : Waiting) (s t : Turn) (x y : ℕ) →
        IsTurnOf limits a s x → IsTurnOf limits b t y → KeepsBooks (t ∷ s ∷ []) }
{
    turns_in_flight_keep_books();
}

/// Two requests cross, of one call each: the second one's call is made first. If the client's forgets of a node are no
/// more than what both replies delivered of it, the file system was sent no more of them than it had answered.
fn crossing_calls_keep_counts()
    ensures { (limits : Limits) (a b : Waiting) (s t : Turn) (x y n : ℕ) (d e : Event) → n ≢ 0 →
        IsTurnOf limits a s x → s.events ≡ d ∷ [] → IsTurnOf limits b t y → t.events ≡ e ∷ [] →
        given_back_by n a + given_back_by n b ≤ delivered n s + delivered n t →
        sent n (e ∷ d ∷ []) ≤ answered n (e ∷ d ∷ []) }
{
    no_count_falls_below_zero_in_flight();
}

/// The reply to a READDIRPLUS stops at `.`, of which its turn gives back node 0, and the caller doesn't; but it looked up
/// the item after that, and gives this back. Counts are kept of such a flight too.
fn a_lookup_beside_a_turn_is_seen()
    ensures seen { (limits : Limits) (w : Waiting) (t : Turn) (after : ℕ) (call : Call) (dot more : Item)
        (ctx : Context) (parent : ℕ) (entry : Entry) → IsTurnOf limits w t after →
        t.events ≡ OpenedDirectory call ∷ Taken (Some dot) ∷ Called (Forget ctx 0 1) Done ∷ [] →
        AreSeen limits [] (Began w ∷ Seen (OpenedDirectory call) ∷ Seen (Taken (Some dot))
        ∷ Seen (Taken (Some more)) ∷ Seen (Called (Lookup ctx parent more.name) (Found entry))
        ∷ Seen (Called (Forget ctx entry.inode 1) Done) ∷ Completed t after ∷ []) }
    ensures counts { (limits : Limits) (points : List Point) (n : ℕ) → n ≢ 0 → AreSeen limits [] points →
        ForgetsWhatItWasTold n points →
        sent n (events_seen points) ≤ answered n (events_seen points) }
{
    no_count_falls_below_zero_in_flight();
}

/// What each call of a file system keeps, it has after all calls of requests in flight, wherever they are made; and of a
/// client that gave back no more of a node than was delivered to it, no more was sent back than was answered.
fn what_calls_keep_flights_keep<F: FileSystem>()
    ensures { (limits : Limits) (old new : F) (points : List Point) (keeps : F → Bool) (n : ℕ) →
        EachCallKeeps F.allows keeps → keeps old ≡ true →
        AreMade F.allows F.DirIter.gives limits [] old points new → n ≢ 0 →
        ForgetsWhatItWasTold n points →
        (keeps new ≡ true) × (sent n (events_seen points) ≤ answered n (events_seen points)) }
{
    calls_in_flight_are_a_run::<F>();
    no_count_falls_below_zero_in_flight();
}

/// A directory is read for a request that is alone: what is taken is of the directory that was opened.
fn a_reading_alone_is_a_run<F: FileSystem>()
    ensures { (limits : Limits) (w : Waiting) (t : Turn) (after : ℕ) (call : Call) (item : Option Item)
        (old new : F) →
        AreMade F.allows F.DirIter.gives limits [] old
        (Began w ∷ Seen (OpenedDirectory call) ∷ Seen (Taken item) ∷ Completed t after ∷ [])
        new →
        IsRun F.allows F.DirIter.gives None old (OpenedDirectory call ∷ Taken item ∷ []) new }
{
    calls_in_flight_are_a_run::<F>();
}

/// A request is asked and answered, and then another one: turns in order.
fn one_after_another()
    ensures { (limits : Limits) (a b : Waiting) (s t : Turn) (x y : ℕ) →
        IsTurnOf limits a s x → b.options ≡ x → IsTurnOf limits b t y →
        (after : ℕ) × AreTurns limits a.options (s ∷ t ∷ []) after }
{
    turns_in_flight_are_in_order();
}

/// A call that the same data tell as a READ is that READ, of the same request.
fn calls_told_alike()
    ensures { (request : List ℕ) (options room : ℕ) (one other : Echo) (told : CallData) (ctx : Context)
        (inode handle space size offset flags : ℕ) (owner : Option ℕ) (call : Call) →
        IsTold request options room one (Read ctx inode handle space size offset owner flags) told →
        IsTold request options room other call told →
        call ≡ Read ctx inode handle space size offset owner flags }
{
    what_is_told_is_the_call();
}

/// What a call has not is told as { 0, 0 }, by the row of the call: a GETATTR has no name and no value, a LOOKUP a name
/// alone, and a MKDIR without a security context too.
fn what_is_not_there_is_told_so()
    ensures getattr { (request : List ℕ) (told : CallData) (echo : Echo) (ctx : Context) (inode : ℕ)
        (handle : Option ℕ) → IsTold request told.options told.room echo (Getattr ctx inode handle) told →
        (told.name ≡ no_range) × (told.other_name ≡ no_range) × (told.data ≡ no_range)
        × (told.context_name ≡ no_range) × (told.context ≡ no_range) }
    ensures lookup { (request : List ℕ) (told : CallData) (echo : Echo) (ctx : Context) (parent : ℕ)
        (name : List ℕ) → IsTold request told.options told.room echo (Lookup ctx parent name) told →
        (told.other_name ≡ no_range) × (told.data ≡ no_range)
        × (told.context_name ≡ no_range) × (told.context ≡ no_range) }
    ensures mkdir { (request : List ℕ) (told : CallData) (echo : Echo) (ctx : Context) (parent : ℕ)
        (name : List ℕ) (mode umask : ℕ) (ext : ExtensionValues) → ext.context ≡ None →
        IsTold request told.options told.room echo (Mkdir ctx parent name mode umask ext) told →
        (told.other_name ≡ no_range) × (told.data ≡ no_range)
        × (told.context_name ≡ no_range) × (told.context ≡ no_range) }
{
    the_table_says_what_is_told();
}

/// Data that the row of a READ says of a request are told of that READ, and of no other call.
fn a_read_by_its_row()
    ensures told { (request : List ℕ) (told : CallData) (echo : Echo) (ctx : Context)
        (inode handle space size offset flags : ℕ) (owner : Option ℕ) →
        TellsByTable request told (of_request echo told)
        (Read ctx inode handle space size offset owner flags) →
        IsTold request told.options told.room echo
        (Read ctx inode handle space size offset owner flags) told }
    ensures alone { (request : List ℕ) (told : CallData) (one other : Echo) (ctx : Context)
        (inode handle space size offset flags : ℕ) (owner : Option ℕ) (call : Call) →
        TellsByTable request told (of_request one told)
        (Read ctx inode handle space size offset owner flags) →
        TellsByTable request told (of_request other told) call →
        call ≡ Read ctx inode handle space size offset owner flags }
{
    the_table_says_what_is_told();
}
