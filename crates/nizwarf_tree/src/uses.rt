//! A transport that calls the library in a row, as that of `/dev/fuse` does.

ghost use Rattle.std.specs.Prelude.{◌≡◌, ◌≢◌, ◌≤◌, ◌^◌, ℕ, ℤ, List, [], ◌∷◌, MatchOption, length, map};
ghost use Rattle.vfs_segments.specs.Segments.{segments_of, flat_bytes};
ghost use Rattle.vfs_server.specs.Step.{ServerState};
ghost use Rattle.codec_calls.specs.declared.call.CallData.{CallData};
ghost use Rattle.codec_decode.specs.Further.{Ordinary, Row, Short, Unnamed};
ghost use Rattle.laws_flight.specs.OfferedTurns.{as_create};
ghost use Rattle.laws_history.specs.History.{Moment, turns_in};
ghost use Rattle.c_rooms.specs.Codes.{no_memory, ok, too_long};
ghost use Rattle.nizwarf_tree.specs.Files.{State};
ghost use Rattle.nizwarf_tree.specs.History.{AreAdded, HandlesTwo};
ghost use Rattle.nizwarf_tree.specs.Kept.{WantsNone};
ghost use Rattle.nizwarf_tree.specs.Served.{Refused, new_server};

use crate::files::Files;
use crate::handle::Handle;
use crate::settings::Settings;
use crate::{nizwarf_server_handle_at, nizwarf_server_new_at, nizwarf_server_set_time_at};
use c_rooms::codes::OK;
use laws_history::laws::history_keeps_books;
use std::alloc::Global;

/// A request that is answered adds one turn to the history, of its own bytes, or of a TMPFILE those of the CREATE; by a row it
/// adds none.
fn what_a_request_adds()
    ensures ordinary { (request : List ℕ) (added : List (Moment State)) → AreAdded Ordinary request added →
        map (λ t. t.request) (turns_in added) ≡ request ∷ [] }
    ensures unnamed { (request : List ℕ) (added : List (Moment State)) → AreAdded Unnamed request added →
        map (λ t. t.request) (turns_in added) ≡ as_create request ∷ [] }
    ensures short { (request : List ℕ) (added : List (Moment State)) → AreAdded Short request added →
        turns_in added ≡ [] }
    ensures row { (request : List ℕ) (told : CallData) (added : List (Moment State)) →
        AreAdded (Row told) request added → turns_in added ≡ [] }
{}

/// A request that is not handed on has no reply, and leaves no bytes; one that is refused for its length is past the
/// largest count.
fn what_is_not_handed_on()
    ensures silent { (old new : ServerState State) (request : List ℕ) (number : ℤ) (len shown : ℕ) →
        Refused old request number len shown new → (len ≡ 0) × (shown ≡ 0) }
    ensures long { (old new : ServerState State) (request : List ℕ) (len shown : ℕ) →
        Refused old request too_long len shown new → 2 ^ 64 ≤ length request }
{}

/// Makes a server, and has it handle two messages, each after it was told the time. If both are
/// answered, the server's history is these moments, of a row none, and the books of its turns are kept.
fn two_messages(
    alloc: Global,
    handle: &mut Handle,
    settings: &Settings,
    one: &[&[u8]],
    two: &[&[u8]],
) -> i32
    ensures { result ≡ ok → MatchOption handle.new.value ⊥ (λ s.
        HandlesTwo (new_server 4096 1048576 settings.now)
        (flat_bytes (segments_of one.now)) (flat_bytes (segments_of two.now))
        s.server) }
{
    history_keeps_books::<Files>();
    let made = nizwarf_server_new_at(alloc, handle, 4096, 1_048_576, settings);
    if made != OK {
        return made;
    }
    let mut len = 0;
    let _ = nizwarf_server_set_time_at(alloc, handle, 1, 0);
    let first = nizwarf_server_handle_at(alloc, handle, one, 4096, &mut len);
    if first != OK {
        return first;
    }
    let _ = nizwarf_server_set_time_at(alloc, handle, 2, 0);
    nizwarf_server_handle_at(alloc, handle, two, 4096, &mut len)
}

/// Has a server handle two messages with the same room. If the first is answered, the second lacks no memory, if whatever
/// server it comes to it wants none but for its reply.
fn second_lacks_no_memory(
    alloc: Global,
    handle: &mut Handle,
    one: &[&[u8]],
    two: &[&[u8]],
    room: usize,
    len: &mut usize,
) -> (i32, i32)
    requires few { length two.now ≤ 4 }
    requires none { (server : ServerState State) → WantsNone server room (segments_of two.now) }
    ensures { result.0 ≡ ok → result.1 ≢ no_memory }
{
    let first = nizwarf_server_handle_at(alloc, handle, one, room, len);
    if first != OK {
        return (first, OK);
    }
    (
        first,
        nizwarf_server_handle_at(alloc, handle, two, room, len),
    )
}
