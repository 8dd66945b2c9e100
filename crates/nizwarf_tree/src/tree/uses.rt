//! A transport that calls the library in a row, over a new tree; that hands on rows and a TMPFILE, and takes a reply out of
//! a server; and that relies on what a directory and a tree keep.

ghost use Rattle.std.specs.Prelude.{◌≡◌, ◌≢◌, ℕ, ℤ, List, None, IfSome, MatchOption, drop, length, sum_by, take};
ghost use Rattle.std_alloc.specs.Vec.{vec_ptr};
ghost use Rattle.vfs_segments.specs.Segments.{segments_of, flat_bytes};
ghost use Rattle.vfs_grammar.specs.Books.{accepted, delivered};
ghost use Rattle.vfs_grammar.specs.Samples.{lookup_of_a};
ghost use Rattle.vfs_grammar.specs.Words.{GivesBackWithin};
ghost use Rattle.vfs_server.specs.Step.{ServerState};
ghost use Rattle.codec_decode.specs.RowUses.{statx, statx_asked, tmpfile};
ghost use Rattle.laws_flight.specs.OfferedTurns.{as_create};
ghost use Rattle.laws_history.specs.Calls.{forget_of_5};
ghost use Rattle.laws_history.specs.History.{IsHistory, Moment, turns_in};
ghost use Rattle.c_rooms.specs.Codes.{ok};
ghost use Rattle.fs_tree.specs.Rows.{ioctl_answer, statx_answer};
ghost use Rattle.laws_tree.specs.Histories.{OnlyTold};
ghost use Rattle.laws_tree.specs.Laws.{lookups_of};
ghost use Rattle.laws_tree.specs.Runs.{last_turns};
ghost use Rattle.nizwarf_tree.specs.Files.{Allows, Gives, State};
ghost use Rattle.nizwarf_tree.specs.History.{HandlesTwo, Turned};
ghost use Rattle.nizwarf_tree.specs.Served.{new_server};
ghost use Rattle.nizwarf_tree.specs.TreeUses.{IsRow, IsTaken, TakesFewItems, getflags, getflags_asked, no_such_name};
ghost use Rattle.nizwarf_tree.specs.declared.settings.Settings.{Settings as AnySettings};

use crate::files::Files;
use crate::handle::Handle;
use crate::memory::Place;
use crate::settings::Settings;
use crate::taken::Taken;
use crate::tree::laws::histories_are_kept;
use crate::{
    nizwarf_server_copy_at, nizwarf_server_free_at, nizwarf_server_handle_at,
    nizwarf_server_new_at, nizwarf_server_set_time_at, nizwarf_server_take_at,
};
use c_rooms::codes::OK;
use laws_history::laws::history_keeps_books;
use std::alloc::Global;

/// Makes a server, has it look up a name, copies the reply out, has it forget a node, and ends it; the time
/// is told before each message. If all is answered, the reply is these sixteen bytes: a new tree has no
/// such name. The books of both turns are kept, and the handle has no server.
fn nothing_is_found(
    alloc: Global,
    handle: &mut Handle,
    settings: &Settings,
    lookup: &[&[u8]],
    forget: &[&[u8]],
    reply: &mut [u8],
) -> i32
    requires lookup { flat_bytes (segments_of lookup.now) ≡ lookup_of_a }
    requires forget { flat_bytes (segments_of forget.now) ≡ forget_of_5 }
    requires reply { length reply.old ≡ 16 }
    ensures bytes { result ≡ ok → reply.new ≡ no_such_name }
    ensures books { result ≡ ok → (last : ServerState State)
        × HandlesTwo (new_server 4096 1048576 settings.now) lookup_of_a forget_of_5 last }
    ensures ended { result ≡ ok → handle.new.value ≡ None }
{
    history_keeps_books::<Files>();
    let made = nizwarf_server_new_at(alloc, handle, 4096, 1_048_576, settings);
    if made != OK {
        return made;
    }
    let mut len = 0;
    let _ = nizwarf_server_set_time_at(alloc, handle, 1, 0);
    let first = nizwarf_server_handle_at(alloc, handle, lookup, 4096, &mut len);
    if first != OK {
        return first;
    }
    let _ = nizwarf_server_copy_at(alloc, handle, 0, reply);
    let _ = nizwarf_server_set_time_at(alloc, handle, 2, 0);
    let second = nizwarf_server_handle_at(alloc, handle, forget, 4096, &mut len);
    if second != OK {
        return second;
    }
    nizwarf_server_free_at(alloc, handle)
}

/// Hands on a message. A STATX of node 1 that is answered has the answer of the tree of that server, which stays as it is;
/// so has an IOCTL of node 1 that asks for its flags. A TMPFILE that is answered is the next turn of its server's history as
/// the CREATE of the same bytes, so that its entry counts as that of a CREATE. And of a directory no more items are taken
/// than records that can have been asked for, and one.
fn message_is_the_trees(
    alloc: Global,
    handle: &mut Handle,
    request: &[&[u8]],
    room: usize,
    len: &mut usize,
) -> i32
    ensures statx { flat_bytes (segments_of request.now) ≡ statx → result ≡ ok →
        IfSome handle.old.value (λ s. MatchOption handle.new.value ⊥ (λ t.
        IsRow s.server (statx_asked s.server.options room) (statx_answer s.server.fs 1) room len.new
        (drop t.start t.room.items) t.server)) }
    ensures flags { flat_bytes (segments_of request.now) ≡ getflags → result ≡ ok →
        IfSome handle.old.value (λ s. MatchOption handle.new.value ⊥ (λ t.
        IsRow s.server (getflags_asked s.server.options room) (ioctl_answer s.server.fs 1 0x80086601 4) room
        len.new (drop t.start t.room.items) t.server)) }
    ensures tmpfile { flat_bytes (segments_of request.now) ≡ tmpfile → result ≡ ok →
        IfSome handle.old.value (λ s. MatchOption handle.new.value ⊥ (λ t.
        Turned s.server (as_create tmpfile) room ok len.new (drop t.start t.room.items) t.shown
        t.server)) }
    ensures few { (code : ℤ) → result ≡ code →
        IfSome handle.old.value (λ s. MatchOption handle.new.value ⊥ (λ t.
        TakesFewItems s.server (flat_bytes (segments_of request.now)) room code t.server)) }
{
    nizwarf_server_handle_at(alloc, handle, request, room, len)
}

/// Answers a request and takes the reply, as `nizwarf_server_handle_take` of the header does: what is taken first,
/// before the message, sees to it that there is memory. What was answered is the next turn of the server's
/// history, or a row, and no reply is lost.
fn message_is_taken(
    alloc: Global,
    handle: &mut Handle,
    taken: &mut Taken,
    place: &mut Place,
    request: &[&[u8]],
    room: usize,
    len: &mut usize,
) -> i32
    ensures { result ≡ ok → IfSome handle.old.value (λ s. MatchOption handle.new.value ⊥ (λ t.
        MatchOption taken.new.value ⊥ (λ m. IsTaken s.server (flat_bytes (segments_of request.now)) room
        len.new m.room.items (vec_ptr m.room) place.new t.server))) }
{
    let ready = nizwarf_server_take_at(alloc, handle, taken, place);
    if ready != OK {
        return ready;
    }
    let code = nizwarf_server_handle_at(alloc, handle, request, room, len);
    if code != OK {
        return code;
    }
    let _ = nizwarf_server_take_at(alloc, handle, taken, place);
    code
}

/// Makes a server, has it look up a name, takes the reply out of it, and ends it. If all is answered, the
/// reply is still there: these sixteen bytes, in the memory that was taken, at the place that is told.
fn nothing_is_taken(
    alloc: Global,
    handle: &mut Handle,
    taken: &mut Taken,
    place: &mut Place,
    settings: &Settings,
    lookup: &[&[u8]],
) -> i32
    requires lookup { flat_bytes (segments_of lookup.now) ≡ lookup_of_a }
    ensures reply { result ≡ ok → MatchOption taken.new.value ⊥ (λ m.
        (take place.new.len (drop place.new.start m.room.items) ≡ no_such_name)
        × (place.new.at ≡ vec_ptr m.room)) }
    ensures ended { result ≡ ok → handle.new.value ≡ None }
{
    let made = nizwarf_server_new_at(alloc, handle, 4096, 1_048_576, settings);
    if made != OK {
        return made;
    }
    let mut len = 0;
    let _ = nizwarf_server_set_time_at(alloc, handle, 1, 0);
    let first = nizwarf_server_handle_at(alloc, handle, lookup, 4096, &mut len);
    if first != OK {
        return first;
    }
    let took = nizwarf_server_take_at(alloc, handle, taken, place);
    if took != OK {
        return took;
    }
    nizwarf_server_free_at(alloc, handle)
}

/// Of a node of which the last client gave back all that was delivered to it, and never more, no lookup is held of the
/// tree after a server, in whatever calls its messages came.
fn none_is_held()
    ensures { (page_size max_buffer : ℕ) (settings : AnySettings) (new : ServerState State)
        (moments : List (Moment State)) (n : ℕ) →
        IsHistory Allows Gives (new_server page_size max_buffer settings) moments new →
        OnlyTold moments → n ≢ 0 → GivesBackWithin n (last_turns (turns_in moments)) →
        sum_by (accepted n) (last_turns (turns_in moments))
        ≡ sum_by (delivered n) (last_turns (turns_in moments)) →
        lookups_of new.fs n ≡ 0 }
{
    histories_are_kept();
}
