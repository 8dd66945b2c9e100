//! What holds of requests that are in flight at the same time.
//!
//! A transport keeps three things, which no law can see: it makes each call that it is told, once; it
//! answers with what came of it; and it gives back what it is told to, before it completes the request.

ghost use Rattle.std.specs.Prelude.{◌≡◌, ℕ, List, [], None, Err};
ghost use Rattle.vfs_grammar.specs.Books.{KeepsBooks, answered};
ghost use Rattle.vfs_grammar.specs.Turn.{AreTurns, IsTurn, Turn, events_in};
ghost use Rattle.vfs_grammar.specs.declared.error.Error.TheVariants.{DecodeMessage};
ghost use Rattle.vfs_grammar.specs.declared.limits.Limits.{Limits};
ghost use Rattle.codec_decode.specs.Further.{Ordinary, Short, Unnamed, what_of};
ghost use Rattle.laws_flight.specs.Flight.{Waiting, Move, turns_answered, AreInFlight, AreAskedInTime};
ghost use Rattle.laws_flight.specs.Made.{NoCountIsBelow};
ghost use Rattle.laws_flight.specs.OfferedTurns.{AreOffered, AreOfferedInOrder, IsOfferedTurn, OfferedTurn, all_seen, plain, seen};
ghost use Rattle.laws_flight.specs.OneOfferedTurn.{AreOneOfferedTurn};
ghost use Rattle.laws_flight.specs.OneTurn.{AreOneTurn, AreFinishedTurns};
ghost use Rattle.laws_flight.specs.Running.{AloneRun, FlightsRun};
ghost use Rattle.laws_flight.specs.ToldCall.{TableIsCall, TableSays, ToldIsCall};

use vfs_files::FileSystem;

/// What is told of a call determines it: the numbers, and the bytes of the request in the ranges
/// that are told. No two calls are told by the same data.
pub fn what_is_told_is_the_call()
    ensures { ToldIsCall }
{}

/// The table of calls as data: data are told of a call if and only if they are those of its row. So no two calls have
/// rows with the same data.
pub fn the_table_says_what_is_told()
    ensures says { TableSays }
    ensures one { TableIsCall }
{}

/// A request that was asked for its call, and whose call was answered, is one turn of the grammar, under the
/// options that it was asked with: its call is the one that was told, the answer the one that the data say,
/// and an entry that was told to be given back was given back. Of a directory, it was read from the items
/// that were offered.
pub fn asked_and_answered_is_one_turn()
    ensures { AreOneTurn }
{}

/// A request that is finished when it is asked is one turn of the grammar too, without a call: its outcome and the
/// bytes in the room are those of the turn, and the options stay.
pub fn a_finished_request_is_one_turn()
    ensures { AreFinishedTurns }
{}

/// However requests are interleaved, the turns in the order of their answers keep the books: for each
/// node but 0 they balance, and if after each answer the client has given back no more than was delivered
/// to it, no count falls below zero in that order. A call that is made before its turn's answer may come
/// before a call of an earlier turn: a FORGET that a client sends before it was told of the node may reach
/// the file system before the lookup, which then has to keep its count at 0.
pub fn turns_in_flight_keep_books()
    ensures { (limits : Limits) (waiting : List Waiting) (moves : List Move) →
        AreInFlight limits waiting moves → KeepsBooks (turns_answered moves) }
{}

/// However requests are interleaved, and wherever between its ask and its answer a call is made: after each point at
/// which a client's forgets of a node are no more than the entries of it that were delivered to the client, as a
/// kernel's are, the file system was sent no more forgets of that node than it had answered entries of it.
pub fn no_count_falls_below_zero_in_flight()
    ensures { NoCountIsBelow }
{}

/// However requests are interleaved, their calls are a run of the file system, in the order in which they are made, as
/// those of one caller are: so what each call keeps, a flight keeps. An item that is taken of a directory changes
/// nothing, and is of the reading of its own request. If no request is beside another, all is one run.
pub fn calls_in_flight_are_a_run<F: FileSystem>()
    ensures flights { FlightsRun F.allows F.DirIter.gives }
    ensures alone { AloneRun F.allows F.DirIter.gives }
{}

/// If each request is asked under the options of then, and INIT and DESTROY are alone in flight, the turns
/// in the order of their answers are turns in order, as those of a session that one caller hands over.
pub fn turns_in_flight_are_in_order()
    ensures { (limits : Limits) (options : ℕ) (moves : List Move) →
        AreAskedInTime limits options [] moves →
        (after : ℕ) × AreTurns limits options (turns_answered moves) after }
{}

/// Where nothing is offered, each request asks what the table of virtiofsd says; the turns are those of that
/// table, and there are no others.
pub fn what_offers_nothing_is_virtiofsds()
    ensures asks { (limits : Limits) (request : List ℕ) → what_of 0 limits request ≡ Ordinary }
    ensures its { (limits : Limits) (options after : ℕ) (turn : Turn) →
        IsTurn limits options turn after → IsOfferedTurn limits options (plain turn) after }
    ensures no_others { (limits : Limits) (options after : ℕ) (t : OfferedTurn) →
        IsOfferedTurn limits options t after → t.offers ≡ 0 →
        (t.row ≡ None) × IsTurn limits options t.turn after }
{}

/// The books of lookups and forgets are kept by turns of both tables, each under the options that it was asked
/// with, as turns in flight are, and so by turns in order. A TMPFILE is in the books as the CREATE that it is
/// asked as: its entry counts (`unnamed`). No other row is.
pub fn offered_turns_keep_books()
    ensures each { (limits : Limits) (turns : List OfferedTurn) →
        AreOffered limits turns → KeepsBooks (all_seen limits turns) }
    ensures in_order { (limits : Limits) (options after : ℕ) (turns : List OfferedTurn) →
        AreOfferedInOrder limits options turns after → KeepsBooks (all_seen limits turns) }
    ensures unnamed { (limits : Limits) (t : OfferedTurn) → what_of t.offers limits t.turn.request ≡ Unnamed →
        (n : ℕ) → answered n (events_in (seen limits t)) ≡ answered n t.turn.events }
{}

/// A request that was asked by both tables, and whose call was answered, is one turn, under the options that it was
/// asked with: its call is the one that was told, and the answer the one that the data say, or EIO in the place
/// of a text that is unfit.
pub fn asked_and_answered_is_one_offered_turn()
    ensures { AreOneOfferedTurn }
{}

/// A request whose row is offered, but whose record is cut, is a turn without a call: it is refused, and its room
/// stays.
pub fn a_short_request_is_one_offered_turn()
    ensures { (limits : Limits) (options offers : ℕ) (request room : List ℕ) →
        what_of offers limits request ≡ Short →
        IsOfferedTurn limits options (record {
          offers = offers;
          turn = record {
            request = request;
            room = room;
            events = [];
            outcome = Err DecodeMessage;
            room_after = room;
          };
          row = None;
        }) options }
{}
