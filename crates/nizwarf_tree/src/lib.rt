//! The server over a file system in memory, for a transport that is written in C or links as C does:
//! a server lives after a handle between calls, and each message is one call.
//!
//! The header is `include/nizwarf_tree.h`. What a transport calls are the functions there, which look at
//! pointers first, since no function here can: for a reference of the signatures below C gives a
//! pointer to what is there, never NULL. A slice is a pointer and then a length to C, also as an
//! element of a list of segments; `alloc` is nothing.
//!
//! Each promise is over the server after the handle. C may break the conditions that the header
//! states, and then nothing is promised.
#![tactic(auto)]

mod files;
mod handle;
mod instance;
mod memory;
mod offered;
mod rows;
mod settings;
mod taken;
mod tree;
mod uses;

ghost use Rattle.std.specs.Prelude.{◌≡◌, ◌≢◌, ◌≤◌, ◌<◌, ◌⊎◌, ◌++◌, ◌∷◌, ℕ, [], length, take, drop, min, IfSome, MatchOption};
ghost use Rattle.std.specs.declared.option.Option.TheVariants.{None, Some};
ghost use Rattle.vfs_flags.specs.declared.constants.TheConstants.{LEAST_MAX_BUFFER, GREATEST_MAX_BUFFER};
ghost use Rattle.vfs_segments.specs.Segments.{segments_of, flat_bytes};
ghost use Rattle.c_rooms.specs.Codes.{ok, no_memory, no_server, too_long, wrong_size};
ghost use Rattle.laws_history.specs.History.{Handled, turn_of_end};
ghost use Rattle.vfs_server.specs.Step.{ServerState};
ghost use Rattle.nizwarf_tree.specs.Files.{State};
ghost use Rattle.nizwarf_tree.specs.History.{Answered, Extends, Told};
ghost use Rattle.nizwarf_tree.specs.Kept.{KeepsFor, WantsNone};
ghost use Rattle.nizwarf_tree.specs.Served.{new_server, told_time, ServedInC};
ghost use Rattle.nizwarf_tree.specs.Taken.{place_of};
ghost use Rattle.c_rooms.specs.Parts.{part_from};

use crate::files::Files;
use crate::handle::Handle;
use crate::instance::Instance;
use crate::memory::{Memory, Place};
use crate::settings::Settings;
use crate::taken::Taken;
use bitflags::Flags;
use c_rooms::codes::{NO_SERVER, OK, OUT_OF_MEMORY, WRONG_SIZE};
use laws_history::laws::history_goes_on;
use std::alloc::Global;
use vfs_flags::{GREATEST_MAX_BUFFER, LEAST_MAX_BUFFER};

/// Puts a new server over a new file system of these settings into the handle, for this size of a
/// page and this largest payload, both in bytes. A server that is there is ended first. Answers 0;
/// or 10 where there is no memory, and 12 where a server can't be made for these sizes: then the
/// handle is as it was.
#[unsafe(no_mangle)]
pub extern "C" fn nizwarf_server_new_at(
    alloc: Global,
    handle: &mut Handle,
    page_size: u32,
    max_buffer: u32,
    settings: &Settings,
) -> i32
    ensures made { result ≡ ok → MatchOption handle.new.value ⊥ (λ s.
        (s.server ≡ new_server page_size max_buffer settings.now) × (s.shown ≡ 0)) }
    ensures refused { result ≢ ok → handle.new.value ≡ handle.old.value }
    ensures page { page_size < 4096 → result ≡ wrong_size }
    ensures least { max_buffer < LEAST_MAX_BUFFER → result ≡ wrong_size }
    ensures greatest { GREATEST_MAX_BUFFER < max_buffer → result ≡ wrong_size }
    ensures fits { 4096 ≤ page_size → LEAST_MAX_BUFFER ≤ max_buffer →
        max_buffer ≤ GREATEST_MAX_BUFFER → (result ≡ ok) ⊎ (result ≡ no_memory) }
{
    if page_size < 4096 || max_buffer < LEAST_MAX_BUFFER || max_buffer > GREATEST_MAX_BUFFER {
        return WRONG_SIZE;
    }
    let Some(instance) = Instance::new(alloc, page_size, max_buffer, settings) else {
        return OUT_OF_MEMORY;
    };
    let Ok(made) = Box::new(alloc, instance) else {
        return OUT_OF_MEMORY;
    };
    let _ = nizwarf_server_free_at(alloc, handle);
    handle.put(made);
    OK
}

/// Tells the file system the time since 1970: what is made, changed or read from now on bears it. It is a
/// moment of the server's history, with no turn. Answers 0, or 11 where the handle has no server.
#[unsafe(no_mangle)]
pub extern "C" fn nizwarf_server_set_time_at(
    alloc: Global,
    handle: &mut Handle,
    seconds: u64,
    nanoseconds: u32,
) -> i32
    ensures none { handle.old.value ≡ None → (result ≡ no_server) × (handle.new.value ≡ None) }
    ensures told { IfSome handle.old.value (λ s. (result ≡ ok)
        × (handle.new.value ≡ Some (record s { server = told_time s.server seconds nanoseconds }))) }
    ensures history { IfSome handle.old.value (λ s. MatchOption handle.new.value ⊥ (λ t.
        Told s.server seconds nanoseconds t.server)) }
{
    history_goes_on::<Files>();
    let Some(mut instance) = handle.take(alloc) else {
        return NO_SERVER;
    };
    instance.tell_time(seconds, nanoseconds);
    handle.put(instance);
    OK
}

/// Answers the request in these segments, of which any may be empty. `room` is how many bytes there
/// are for the reply. The reply stays with the server, for [`nizwarf_server_copy_at`], up to the next
/// message; its length goes to `len`, and 0 where there is none.
///
/// Answers the outcome's number: 0 where the request was answered or needs no reply, else the
/// error's, 1 to 10. After each of them the request is completed with `len`, and the session goes
/// on. 10 is also answered where there was no memory to begin with, 13 where the lengths sum past
/// `usize::MAX`, and 11 where the handle has no server.
///
/// A request of a row that the file system offers is answered by it, and changes nothing; but a TMPFILE is handed to
/// the server as the CREATE of the same bytes.
///
/// A request that was handed to the server is the next turn of its history, whatever came before. So over
/// all calls the books balance: entries answered and forgets accepted are entries delivered and forgets
/// sent.
#[unsafe(no_mangle)]
pub extern "C" fn nizwarf_server_handle_at(
    alloc: Global,
    handle: &mut Handle,
    request: &[&[u8]],
    room: usize,
    len: &mut usize,
) -> i32
    ensures none { handle.old.value ≡ None →
        (result ≡ no_server) × (len.new ≡ 0) × (handle.new.value ≡ None) }
    ensures served { IfSome handle.old.value (λ s. MatchOption handle.new.value ⊥ (λ t.
        ServedInC s.server (flat_bytes (segments_of request.now)) room
        result len.new (drop t.start t.room.items) t.shown t.server)) }
    ensures history { IfSome handle.old.value (λ s. MatchOption handle.new.value ⊥ (λ t.
        Answered s.server (flat_bytes (segments_of request.now)) room
        result len.new (drop t.start t.room.items) t.shown t.server)) }

    // A server that keeps memory for the room lacks none for a request in up to four segments, unless its tail is cut, it
    // may have a context, it has pairs, or it is a row. It keeps it, and has it after each message of that room.
    ensures memory { IfSome handle.old.value (λ s. length request.now ≤ 4 →
        WantsNone s.server room (segments_of request.now) → KeepsFor room s → result ≢ no_memory) }
    ensures keeps { (n : ℕ) → IfSome handle.old.value (λ s. KeepsFor n s →
        MatchOption handle.new.value ⊥ (λ t. KeepsFor n t)) }
    ensures kept { result ≢ no_memory → result ≢ too_long →
        IfSome handle.old.value (λ _. MatchOption handle.new.value ⊥ (λ t. KeepsFor room t)) }
{
    history_goes_on::<Files>();
    *len = 0;
    let Some(mut instance) = handle.take(alloc) else {
        return NO_SERVER;
    };
    let (code, count) = instance.answer(alloc, request, room);
    *len = count;
    handle.put(instance);
    code
}

/// Copies bytes that the last message left, from place `at` on, over the first ones of a piece, as
/// many as both have. Answers how many. They are those of the reply; after EncodeMessage of the
/// whole room, which has the beginning of the reply, unless it has less than 16 bytes; and none
/// after another error, or where the handle has no server.
#[unsafe(no_mangle)]
pub extern "C" fn nizwarf_server_copy_at(
    alloc: Global,
    handle: &mut Handle,
    at: usize,
    piece: &mut [u8],
) -> usize
    ensures same { handle.new.value ≡ handle.old.value }
    ensures none { handle.old.value ≡ None → (result ≡ 0) × (piece.new ≡ piece.old) }
    ensures count { IfSome handle.old.value (λ s.
        result ≡ min (length (part_from at (drop s.start s.room.items) s.shown))
        (length piece.old)) }
    ensures copied { IfSome handle.old.value (λ s. piece.new ≡
        take result (part_from at (drop s.start s.room.items) s.shown)
        ++ drop result piece.old) }
{
    let Some(instance) = handle.take(alloc) else {
        return 0;
    };
    let count = instance.copy_out(at, piece);
    handle.put(instance);
    count
}

/// Takes the bytes that the last message left out of the server, with the memory in which they lie,
/// and says where that is. They are those that [`nizwarf_server_copy_at`] would copy, and are not there for
/// it any more. They stay up to the next call with `taken`. What memory `taken` had is the server's
/// then, so where it had some, none is wanted.
///
/// Answers 0; 11 where the handle has no server, and 10 where there is no memory: then all is as it
/// was.
#[unsafe(no_mangle)]
pub extern "C" fn nizwarf_server_take_at(
    alloc: Global,
    handle: &mut Handle,
    taken: &mut Taken,
    place: &mut Place,
) -> i32
    ensures code { MatchOption handle.old.value (result ≡ no_server) (λ _.
        MatchOption taken.old.value ((result ≡ ok) ⊎ (result ≡ no_memory)) (λ _. result ≡ ok)) }
    ensures refused { result ≢ ok → (handle.new.value ≡ handle.old.value)
        × (taken.new.value ≡ taken.old.value) × (place.new ≡ place.old) }
    ensures taken { result ≡ ok → IfSome handle.old.value (λ s.
        MatchOption taken.new.value ⊥ (λ m. m.room ≡ s.room)) }
    ensures place { result ≡ ok → IfSome handle.old.value (λ s. place.new ≡ place_of s) }
    ensures server { result ≡ ok → IfSome handle.old.value (λ s.
        MatchOption handle.new.value ⊥ (λ t. (t.server ≡ s.server) × (t.shown ≡ 0))) }
    ensures memory { result ≡ ok → IfSome taken.old.value (λ m.
        MatchOption handle.new.value ⊥ (λ t. t.room ≡ m.room)) }
{
    let Some(mut instance) = handle.take(alloc) else {
        return NO_SERVER;
    };
    let Some(mut memory) = taken.take_or_new(alloc) else {
        handle.put(instance);
        return OUT_OF_MEMORY;
    };
    *place = instance.exchange(&mut memory);
    handle.put(instance);
    taken.put(memory);
    OK
}

/// Gives the memory back that was taken. There is none from then on. Answers 0, or 11 where there was
/// none.
#[unsafe(no_mangle)]
pub extern "C" fn nizwarf_reply_buf_free_at(alloc: Global, taken: &mut Taken) -> i32
    ensures ended { taken.new.value ≡ None }
    ensures code { MatchOption taken.old.value (result ≡ no_server) (λ _. result ≡ ok) }
{
    let Some(memory) = taken.take(alloc) else {
        return NO_SERVER;
    };
    drop(memory);
    OK
}

/// The options that the last INIT agreed on, as INIT has them: `flags` are bits 0 to 31, `flags2`
/// bits 32 to 63. 0 before an INIT, after a DESTROY, and where the handle has no server.
#[unsafe(no_mangle)]
pub extern "C" fn nizwarf_server_options_at(alloc: Global, handle: &mut Handle) -> u64
    ensures same { handle.new.value ≡ handle.old.value }
    ensures options { MatchOption handle.old.value (result ≡ 0) (λ s.
        result ≡ s.server.options) }
{
    let Some(instance) = handle.take(alloc) else {
        return 0;
    };
    let options = instance.server.options();
    handle.put(instance);
    options.bits()
}

/// The largest payload of a request or a reply, in bytes, and 0 where the handle has no server.
#[unsafe(no_mangle)]
pub extern "C" fn nizwarf_server_max_buffer_at(alloc: Global, handle: &mut Handle) -> u32
    ensures same { handle.new.value ≡ handle.old.value }
    ensures largest { MatchOption handle.old.value (result ≡ 0) (λ s.
        result ≡ s.server.limits.max_buffer) }
{
    let Some(instance) = handle.take(alloc) else {
        return 0;
    };
    let largest = instance.server.max_buffer();
    handle.put(instance);
    largest
}

/// Ends the server, as a DESTROY does, and gives its memory back. The handle has none from then on.
/// Answers 0, or 11 where it had none.
#[unsafe(no_mangle)]
pub extern "C" fn nizwarf_server_free_at(alloc: Global, handle: &mut Handle) -> i32
    ensures ended { handle.new.value ≡ None }
    ensures code { MatchOption handle.old.value (result ≡ no_server) (λ _. result ≡ ok) }

    // One turn more, that of a DESTROY, is the last one of its history.
    ensures history { IfSome handle.old.value (λ s. (last : ServerState State)
        × Extends s.server (Handled turn_of_end ∷ []) last × (last.options ≡ 0)) }
{
    let Some(mut instance) = handle.take(alloc) else {
        return NO_SERVER;
    };
    instance.destroy();
    drop(instance);
    OK
}
