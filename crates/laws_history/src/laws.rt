//! What holds of every history of a server over any file system.

ghost use Rattle.laws_history.specs.History.{GoesOnHandled, GoesOnChanged, GoesOnEnded, HasOneRun, HasTurns, HeldCountsStay, HistoriesJoin, HistoriesKeepBooks, HistoriesSplit};
ghost use Rattle.laws_history.specs.Serving.{GoesOnServed};
ghost use Rattle.laws_history.specs.Sessions.{SessionsAreHistories};

use laws_turns::books::turns_keep_books;
use vfs_files::FileSystem;

/// A history goes on by what a transport calls: by `Server::handle_message`, with the turn of its step;
/// by `serve`, with the turn of these bytes and this room, unless the request was not handed on; by a
/// change through `Server::fs_mut` or by a call that carries state over, which leave the options and
/// the limits; and by `Server::destroy`, with the turn of a DESTROY.
pub fn history_goes_on<F: FileSystem>()
    ensures handled { GoesOnHandled F.allows F.DirIter.gives }
    ensures served { GoesOnServed F.allows F.DirIter.gives }
    ensures changed { GoesOnChanged F.allows F.DirIter.gives }
    ensures ended { GoesOnEnded F.allows F.DirIter.gives }
{}

/// A history, and one that begins where it ends, are one.
pub fn histories_join<F: FileSystem>()
    ensures { HistoriesJoin F.allows F.DirIter.gives }
{}

/// A history is cut in two at any of its moments.
pub fn history_is_cut<F: FileSystem>()
    ensures { HistoriesSplit F.allows F.DirIter.gives }
{}

/// The turns of a history are in order, and the limits stay. If nobody but the server changed the file
/// system, it is one run of it.
pub fn history_has_turns<F: FileSystem>()
    ensures turns { HasTurns F.allows F.DirIter.gives }
    ensures run { HasOneRun F.allows F.DirIter.gives }
{}

/// Over any history the books of each node but 0 balance; and a client that after each turn has given
/// back no more of a node than was delivered to it drives no count below zero, in whatever calls its
/// requests came.
pub fn history_keeps_books<F: FileSystem>()
    ensures { HistoriesKeepBooks F.allows F.DirIter.gives }
{
    turns_keep_books();
}

/// The same of counts over a history that begins in the midst of a client's life: of a client that had
/// lookups of a node to begin with.
pub fn held_counts_never_fall_below_zero<F: FileSystem>()
    ensures { HeldCountsStay F.allows F.DirIter.gives }
{}

/// A session that was handed over in one call is a history, of the turns that it has.
pub fn sessions_are_histories<F: FileSystem>()
    ensures { SessionsAreHistories F.allows F.DirIter.gives }
{}
