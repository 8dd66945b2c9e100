//! Servers that are called message by message.

ghost use Rattle.std.specs.Prelude.{◌≡◌, ◌≤◌, ◌+◌, ◌∷◌, ◌++◌, [], List, map, IfErr, IfOk};
ghost use Rattle.vfs_grammar.specs.Books.{KeepsBooks, answered, sent};
ghost use Rattle.vfs_grammar.specs.Samples.{lookup_of_a};
ghost use Rattle.vfs_grammar.specs.Turn.{Turn, events_in};
ghost use Rattle.vfs_server.specs.Step.{ServerState};
ghost use Rattle.laws_history.specs.Calls.{AreServed, forget_of_5, GivesBack, HandlesEach, IsSeen, KeepsHistory, ServedNone};
ghost use Rattle.laws_history.specs.History.{GivesBackWithinHeld, Handled, Changed, IsHistory, Moment, turn_of_end, turns_in};

use crate::laws::{
    held_counts_never_fall_below_zero, histories_join, history_goes_on, history_has_turns,
    history_is_cut, history_keeps_books,
};
use std::alloc::Global;
use std::io;
use vfs_files::{FileSystem, SerializableFileSystem};
use vfs_grammar::Result;
use vfs_segments::{Reader, Writer};
use vfs_server::server::Server;
use vfs_server::transport::{ServeError, serve};

/// Has a server over any file system handle three messages, each by a call of its own. The books of the
/// three turns balance.
fn handle_three<F: FileSystem>(
    alloc: Global,
    server: &mut Server<F>,
    readers: (Reader<'_>, Reader<'_>, Reader<'_>),
    one: &mut Writer,
    two: &mut Writer,
    three: &mut Writer,
) -> (Result<usize>, Result<usize>, Result<usize>)
    ensures { (a b c : Turn)
        × IsSeen readers.entry.0.left one.old result.0 one.new a
        × IsSeen readers.entry.1.left two.old result.1 two.new b
        × IsSeen readers.entry.2.left three.old result.2 three.new c
        × KeepsHistory F.allows F.DirIter.gives
        server.old (Handled a ∷ Handled b ∷ Handled c ∷ []) server.new }
{
    history_goes_on::<F>();
    history_keeps_books::<F>();
    let first = server.handle_message(alloc, readers.0, one);
    let second = server.handle_message(alloc, readers.1, two);
    let third = server.handle_message(alloc, readers.2, three);
    (first, second, third)
}

/// Has a server handle messages as they come, however many. The books of all turns balance.
fn handle_each<F: FileSystem>(
    alloc: Global,
    server: &mut Server<F>,
    readers: Vec<Reader<'_>>,
    w: &mut Writer,
)
    ensures { HandlesEach F.allows F.DirIter.gives
        server.old (map (λ r. r.left) readers.entry.items) server.new }
{
    history_goes_on::<F>();
    history_keeps_books::<F>();
    for reader in readers {
        let _ = server.handle_message(alloc, reader, w);
    }
}

/// Has a server handle a message, puts another file system after it, and has it handle another one. The
/// books of both turns balance, though the file system is another.
fn exchange_between<F: FileSystem + Drop>(
    alloc: Global,
    server: &mut Server<F>,
    fs: F,
    readers: (Reader<'_>, Reader<'_>),
    one: &mut Writer,
    two: &mut Writer,
) -> (Result<usize>, Result<usize>)
    ensures { (a b : Turn) × (middle : F)
        × IsSeen readers.entry.0.left one.old result.0 one.new a
        × IsSeen readers.entry.1.left two.old result.1 two.new b
        × KeepsHistory F.allows F.DirIter.gives
        server.old (Handled a ∷ Changed middle fs ∷ Handled b ∷ []) server.new }
{
    history_goes_on::<F>();
    history_keeps_books::<F>();
    let before = server.handle_message(alloc, readers.0, one);
    *server.fs_mut() = fs;
    let after = server.handle_message(alloc, readers.1, two);
    (before, after)
}

/// Has a server handle a message, takes the state of its file system over from another host, and has it
/// handle another one. The books of both turns balance, whatever was taken over.
fn take_over_between<F: FileSystem + SerializableFileSystem, R: io::Read>(
    alloc: Global,
    server: &mut Server<F>,
    state: &mut R,
    readers: (Reader<'_>, Reader<'_>),
    one: &mut Writer,
    two: &mut Writer,
) -> (Result<usize>, Result<usize>)
    ensures { (a b : Turn) × (before after : F)
        × IsSeen readers.entry.0.left one.old result.0 one.new a
        × IsSeen readers.entry.1.left two.old result.1 two.new b
        × KeepsHistory F.allows F.DirIter.gives
        server.old (Handled a ∷ Changed before after ∷ Handled b ∷ []) server.new }
{
    history_goes_on::<F>();
    history_keeps_books::<F>();
    let first = server.handle_message(alloc, readers.0, one);
    let _ = server.deserialize_and_apply(state);
    let last = server.handle_message(alloc, readers.1, two);
    (first, last)
}

/// Serves two requests. If both have replies, these are of two turns, whose books balance.
fn serve_two<F: FileSystem>(
    alloc: Global,
    server: &mut Server<F>,
    one: &[u8],
    two: &[u8],
    room: usize,
) -> std::result::Result<(Vec<u8>, Vec<u8>), ServeError>
    ensures { IfOk result (λ replies. AreServed F.allows F.DirIter.gives
        server.old one.now two.now room replies.0.items replies.1.items server.new) }
{
    history_goes_on::<F>();
    history_keeps_books::<F>();
    let first = serve(alloc, server, one, room)?;
    let second = serve(alloc, server, two, room)?;
    Ok((first, second))
}

/// Serves a request. If it has no reply, it was a turn that was refused, or nothing happened.
fn serve_one<F: FileSystem>(
    alloc: Global,
    server: &mut Server<F>,
    request: &[u8],
    room: usize,
) -> std::result::Result<Vec<u8>, ServeError>
    ensures { IfErr result (λ error. ServedNone F.allows F.DirIter.gives
        server.old request.now error server.new) }
{
    history_goes_on::<F>();
    history_keeps_books::<F>();
    serve(alloc, server, request, room)
}

/// Has a server handle a message, and ends it without a request: its end is a turn too.
fn handle_then_end<F: FileSystem>(
    alloc: Global,
    server: &mut Server<F>,
    reader: Reader<'_>,
    w: &mut Writer,
) -> Result<usize>
    ensures { (t : Turn) × IsSeen reader.entry.left w.old result w.new t
        × KeepsHistory F.allows F.DirIter.gives
        server.old (Handled t ∷ Handled turn_of_end ∷ []) server.new }
{
    history_goes_on::<F>();
    history_keeps_books::<F>();
    let outcome = server.handle_message(alloc, reader, w);
    let _ = server.destroy();
    outcome
}

/// Has a server handle a LOOKUP and a FORGET of node 5, each by a call of its own. A client that was
/// replied the node may give it back in the second call: no count falls below zero.
fn look_up_then_forget<F: FileSystem>(
    alloc: Global,
    server: &mut Server<F>,
    readers: (Reader<'_>, Reader<'_>),
    one: &mut Writer,
    two: &mut Writer,
) -> (Result<usize>, Result<usize>)
    requires lookup { readers.0.left ≡ lookup_of_a }
    requires forget { readers.1.left ≡ forget_of_5 }
    ensures { (a b : Turn)
        × IsSeen lookup_of_a one.old result.0 one.new a
        × IsSeen forget_of_5 two.old result.1 two.new b
        × GivesBack F.allows F.DirIter.gives server.old a b server.new }
{
    history_goes_on::<F>();
    history_has_turns::<F>();
    history_keeps_books::<F>();
    let found = server.handle_message(alloc, readers.0, one);
    let forgotten = server.handle_message(alloc, readers.1, two);
    (found, forgotten)
}

/// However many messages a server handles, its limits stay: it refuses in the end what it refused before.
fn handle_each_within_limits<F: FileSystem>(
    alloc: Global,
    server: &mut Server<F>,
    readers: Vec<Reader<'_>>,
    w: &mut Writer,
)
    ensures { server.new.limits ≡ server.old.limits }
{
    history_has_turns::<F>();
    handle_each(alloc, server, readers, w);
}

/// The books of each part of a history are kept, wherever it is cut.
fn both_parts_keep_books<F: FileSystem>()
    ensures { (first last : ServerState F) (before after : List (Moment F)) →
        IsHistory F.allows F.DirIter.gives first (before ++ after) last →
        KeepsBooks (turns_in before) × KeepsBooks (turns_in after) }
{
    history_is_cut::<F>();
    history_keeps_books::<F>();
}

/// The books of a history, and of one that begins where it ends, are kept over both.
fn both_histories_keep_books<F: FileSystem>()
    ensures { (first middle last : ServerState F) (before after : List (Moment F)) →
        IsHistory F.allows F.DirIter.gives first before middle →
        IsHistory F.allows F.DirIter.gives middle after last →
        KeepsBooks (turns_in (before ++ after)) }
{
    histories_join::<F>();
    history_keeps_books::<F>();
}

/// A client held two lookups of node 5 when a history began. If after each turn it has given back no more than these
/// and what was delivered, then no more was sent back than these and what was answered.
fn two_were_held<F: FileSystem>()
    ensures { (old new : ServerState F) (moments : List (Moment F)) →
        IsHistory F.allows F.DirIter.gives old moments new →
        GivesBackWithinHeld 5 2 (turns_in moments) →
        sent 5 (events_in (turns_in moments)) ≤ 2 + answered 5 (events_in (turns_in moments)) }
{
    held_counts_never_fall_below_zero::<F>();
}
