//! Small callers of the laws of turns.

ghost use Rattle.std.specs.Prelude.{◌≡◌, ◌≢◌, ◌<◌, ◌≤◌, ◌+◌, ◌*◌, ◌^◌, [], ◌∷◌, ℕ, Bool, List, length, take, drop, Option, Ok, Err, Some};
ghost use Rattle.std.specs.Int.{bit_at};
ghost use Rattle.std.specs.declared.time.Duration.{Duration};
ghost use Rattle.vfs_flags.specs.Numbers.{opcode_of};
ghost use Rattle.vfs_flags.specs.declared.opcode.Opcode.{Opcode};
ghost use Rattle.vfs_wire.specs.Records.{attr_out, entry_out, kstatfs, kstatfs_of};
ghost use Rattle.vfs_wire.specs.Fields.{little, value_of};
ghost use Rattle.vfs_wire.specs.declared.attributes.Attr.{Attr};
ghost use Rattle.vfs_wire.specs.declared.stat.Statvfs64.{Statvfs64};
ghost use Rattle.vfs_wire_more.specs.Records.{getxattr_out, open_out, write_out};
ghost use Rattle.vfs_files.specs.Calls.{Call, Lookup, Getattr, Readlink, Open, Write, Statfs, Getxattr, Access, Create, Init, Failed, Options, Found, Attributes, Opened, Created, Statistics, Text, Count, Wrote};
ghost use Rattle.vfs_files.specs.Values.{ExtensionValues, whole_seconds};
ghost use Rattle.vfs_files.specs.Runs.{Event, Called};
ghost use Rattle.vfs_files.specs.declared.entry.Context.{Context};
ghost use Rattle.vfs_files.specs.declared.entry.Entry.{Entry};
ghost use Rattle.vfs_grammar.specs.Ask.{ask};
ghost use Rattle.vfs_grammar.specs.Memory.{header_of};
ghost use Rattle.vfs_grammar.specs.Limits.{default_limits, max_len};
ghost use Rattle.vfs_grammar.specs.Turn.{Turn, IsTurn};
ghost use Rattle.vfs_grammar.specs.Witnesses.{FollowsFor, turn_tells};
ghost use Rattle.vfs_grammar.specs.Samples.{lookup_of_a, request_for_data, node_5, node_5_reply};
ghost use Rattle.vfs_grammar.specs.declared.error.Error.{Error};
ghost use Rattle.vfs_grammar.specs.declared.limits.Limits.{Limits};
ghost use Rattle.laws_turns.specs.Turns.{unique_of, count_of_pairs, WantsMemory};
ghost use Rattle.vfs_grammar.specs.Books.{opcode_in};

use crate::turns::{
    answers_are_of_their_kind, data_are_no_more_than_asked, options_are_agreed,
    replies_begin_with_their_header, replies_say_what_was_answered, turns_are_told_by_witnesses,
    unfit_replies_are_cut_off,
};

/// Memory is never wanted for a GETATTR, whatever its bytes and its room: it has no tail.
fn getattr_wants_no_memory()
    ensures { (limits : Limits) (options space : ℕ) (request : List ℕ) →
        opcode_of (header_of request).opcode ≡ Some Opcode.Getattr →
        ¬ (WantsMemory limits options space request) }
{}

/// Memory is wanted only for what is whole and within the limits: never for a request that is
/// shorter than a header, or whose `len` is above the limit, or that is shorter than its `len`
/// says, as a LOOKUP whose name lacks a byte; nor for a BATCH_FORGET that lacks some of its pairs,
/// or whose pairs are above the limit.
fn broken_requests_want_no_memory()
    ensures short { (limits : Limits) (options space : ℕ) (request : List ℕ) →
        length request < 40 → ¬ (WantsMemory limits options space request) }
    ensures above { (limits : Limits) (options space : ℕ) (request : List ℕ) →
        max_len limits < (header_of request).len → ¬ (WantsMemory limits options space request) }
    ensures cut { (limits : Limits) (options space : ℕ) (request : List ℕ) →
        opcode_in request ≢ Some Opcode.BatchForget → length request < (header_of request).len →
        ¬ (WantsMemory limits options space request) }
    ensures few_pairs { (limits : Limits) (options space : ℕ) (request : List ℕ) →
        opcode_in request ≡ Some Opcode.BatchForget →
        length request < 48 + 16 * count_of_pairs request →
        ¬ (WantsMemory limits options space request) }
    ensures many_pairs { (limits : Limits) (options space : ℕ) (request : List ℕ) →
        opcode_in request ≡ Some Opcode.BatchForget →
        limits.max_buffer < 16 * count_of_pairs request →
        ¬ (WantsMemory limits options space request) }
{}

/// The four bytes at the front of a reply are the answer, and its last eight of a header are the
/// request's `unique`.
fn front_of_a_reply()
    ensures len { (limits : Limits) (options after n : ℕ) (t : Turn) →
        IsTurn limits options t after → t.outcome ≡ Ok n → 0 < n →
        take 4 t.room_after ≡ little 4 n }
    ensures unique { (limits : Limits) (options after n : ℕ) (t : Turn) →
        IsTurn limits options t after → t.outcome ≡ Ok n → 0 < n →
        take 8 (drop 8 t.room_after) ≡ little 8 (unique_of t.request) }
{
    replies_begin_with_their_header();
}

/// A READ of three bytes is answered by at most nineteen, a READDIR of 96 by at most 112, and a
/// READDIRPLUS of 200 by at most 216: the data, and sixteen bytes of a header.
fn lengths_of_data()
    ensures read { (limits : Limits) (options after n : ℕ) (t : Turn) →
        IsTurn limits options t after → t.request ≡ request_for_data 15 3 → t.outcome ≡ Ok n →
        n ≤ 19 }
    ensures readdir { (limits : Limits) (options after n : ℕ) (t : Turn) →
        IsTurn limits options t after → t.request ≡ request_for_data 28 96 → t.outcome ≡ Ok n →
        n ≤ 112 }
    ensures readdirplus { (limits : Limits) (options after n : ℕ) (t : Turn) →
        IsTurn limits options t after → t.request ≡ request_for_data 44 200 → t.outcome ≡ Ok n →
        n ≤ 216 }
{
    data_are_no_more_than_asked();
}

/// After `EncodeMessage`: the room of a LOOKUP that was answered by the entry of node 5 holds the
/// beginning of these 144 bytes, as a room of a hundred bytes the first hundred. With eight bytes
/// of room a READ made no call, and changed nothing; with twenty it isn't so refused.
fn rooms_that_are_too_small()
    ensures lookup { (options after : ℕ) (call : Call) (back : List Event) (t : Turn) →
        IsTurn (default_limits 4096) options t after → t.request ≡ lookup_of_a →
        t.events ≡ Called call (Found node_5) ∷ back → t.outcome ≡ Err Error.EncodeMessage →
        (length t.room < 144) × (t.room_after ≡ take (length t.room) node_5_reply) }
    ensures read { (options after : ℕ) (t : Turn) →
        IsTurn (default_limits 4096) options t after → t.request ≡ request_for_data 15 3 →
        length t.room ≡ 8 → t.outcome ≡ Err Error.EncodeMessage →
        (t.events ≡ []) × (t.room_after ≡ t.room) × (after ≡ options) }
    ensures enough { (options after : ℕ) (t : Turn) →
        IsTurn (default_limits 4096) options t after → t.request ≡ request_for_data 15 3 →
        length t.room ≡ 20 → t.outcome ≢ Err Error.EncodeMessage }
{
    unfit_replies_are_cut_off();
}

/// Of options that a client offers, those that the server supports by itself are agreed on, as bit
/// 40 is, though the file system wants none; and where none is offered none is agreed on, whatever
/// it wants.
fn options_by_themselves()
    ensures supported { (limits : Limits) (options after offered : ℕ) (t : Turn) →
        IsTurn limits options t after → bit_at offered 40 ≡ 1 →
        t.events ≡ Called (Init offered) (Options 0) ∷ [] → bit_at after 40 ≡ 1 }
    ensures unoffered { (limits : Limits) (options after want : ℕ) (t : Turn) →
        IsTurn limits options t after → t.events ≡ Called (Init 0) (Options want) ∷ [] →
        bit_at after 40 ≡ 0 }
{
    options_are_agreed();
}

/// A GETATTR that was answered by attributes: the reply of 120 bytes has the file's size and the
/// whole seconds that the attributes hold, a LOOKUP's of 144 the node, a STATFS's of 96 what the
/// file system holds, as its own record has it, and a READLINK's of 19 the text.
fn numbers_in_replies()
    ensures getattr { (limits : Limits) (options after inode : ℕ) (ctx : Context)
        (handle : Option ℕ) (attributes : Attr) (timeout : Duration) (t : Turn) →
        IsTurn limits options t after →
        t.events ≡ Called (Getattr ctx inode handle) (Attributes attributes timeout) ∷ [] →
        t.outcome ≡ Ok 120 →
        ((value_of attr_out (drop 16 t.room_after)).attr.size ≡ attributes.size)
        × ((value_of attr_out (drop 16 t.room_after)).attr_valid ≡ whole_seconds timeout) }
    ensures lookup { (limits : Limits) (options after parent : ℕ) (ctx : Context) (name : List ℕ)
        (entry : Entry) (t : Turn) → IsTurn limits options t after →
        t.events ≡ Called (Lookup ctx parent name) (Found entry) ∷ [] → t.outcome ≡ Ok 144 →
        (value_of entry_out (drop 16 t.room_after)).nodeid ≡ entry.inode }
    ensures statfs { (limits : Limits) (options after inode : ℕ) (ctx : Context)
        (statistics : Statvfs64) (t : Turn) → IsTurn limits options t after →
        t.events ≡ Called (Statfs ctx inode) (Statistics statistics) ∷ [] → t.outcome ≡ Ok 96 →
        value_of kstatfs (drop 16 t.room_after) ≡ kstatfs_of statistics }
    ensures readlink { (limits : Limits) (options after inode : ℕ) (ctx : Context) (text : List ℕ)
        (t : Turn) → IsTurn limits options t after →
        t.events ≡ Called (Readlink ctx inode) (Text text) ∷ [] → t.outcome ≡ Ok 19 →
        take (length text) (drop 16 t.room_after) ≡ text }
{
    replies_say_what_was_answered();
    answers_are_of_their_kind();
}

/// The reply of 32 bytes to an OPEN has the handle, a CREATE's of 160 the node and, after it, the handle, a GETXATTR's of 24
/// how long a value is, and a WRITE's of 24 how many bytes were written.
fn handles_and_counts_in_replies()
    ensures open { (limits : Limits) (options after inode handle how flags : ℕ) (ctx : Context)
        (kill_priv : Bool) (t : Turn) → IsTurn limits options t after →
        t.events ≡ Called (Open ctx inode kill_priv flags) (Opened (Some handle) how) ∷ [] →
        t.outcome ≡ Ok 32 →
        ((value_of open_out (drop 16 t.room_after)).fh ≡ handle)
        × ((value_of open_out (drop 16 t.room_after)).open_flags ≡ how) }
    ensures create { (limits : Limits) (options after parent handle how mode flags umask : ℕ)
        (ctx : Context) (kill_priv : Bool) (name : List ℕ) (ext : ExtensionValues) (entry : Entry)
        (t : Turn) → IsTurn limits options t after →
        t.events ≡ Called (Create ctx parent name mode kill_priv flags umask ext)
        (Created entry (Some handle) how) ∷ [] → t.outcome ≡ Ok 160 →
        ((value_of entry_out (drop 16 t.room_after)).nodeid ≡ entry.inode)
        × ((value_of open_out (drop 128 (drop 16 t.room_after))).fh ≡ handle) }
    ensures getxattr { (limits : Limits) (options after inode size asked : ℕ) (ctx : Context)
        (name : List ℕ) (t : Turn) → IsTurn limits options t after →
        t.events ≡ Called (Getxattr ctx inode name asked) (Count size) ∷ [] → t.outcome ≡ Ok 24 →
        (value_of getxattr_out (drop 16 t.room_after)).size ≡ size }
    ensures write { (limits : Limits) (options after inode handle size offset flags count : ℕ)
        (ctx : Context) (bytes : List ℕ) (owner : Option ℕ) (delayed kill_priv : Bool) (t : Turn) →
        IsTurn limits options t after →
        t.events ≡ Called (Write ctx inode handle bytes size offset owner delayed kill_priv flags)
        (Wrote count) ∷ [] → t.outcome ≡ Ok 24 →
        (value_of write_out (drop 16 t.room_after)).size ≡ count }
{
    replies_say_what_was_answered();
}

/// Numbers that calls answered are in the widths that replies have for them.
fn widths_of_answers()
    ensures fault { (limits : Limits) (options after number : ℕ) (ctx : Context) (inode mask : ℕ)
        (t : Turn) → IsTurn limits options t after →
        t.events ≡ Called (Access ctx inode mask) (Failed (Some number)) ∷ [] →
        (0 < number) × (number < 2 ^ 31) }
    ensures wanted { (limits : Limits) (options after offered want : ℕ) (t : Turn) →
        IsTurn limits options t after → t.events ≡ Called (Init offered) (Options want) ∷ [] →
        want < 2 ^ 64 }
{
    answers_are_of_their_kind();
}

/// The largest answer is one that the `len` of a reply's header can say.
fn lengths_fit_their_field()
    ensures { (limits : Limits) (options after n : ℕ) (t : Turn) → IsTurn limits options t after →
        t.outcome ≡ Ok n → 0 < n → n < 2 ^ 32 }
{
    replies_begin_with_their_header();
}

/// A turn of a request follows by what it tells, and what follows so is a turn.
fn turns_by_what_they_tell()
    ensures told { (limits : Limits) (options after : ℕ) (t : Turn) → IsTurn limits options t after →
        FollowsFor (turn_tells t) limits options (ask limits options (length t.room) t.request) after }
    ensures is_turn { (limits : Limits) (options after : ℕ) (t : Turn) →
        FollowsFor (turn_tells t) limits options (ask limits options (length t.room) t.request) after →
        IsTurn limits options t after }
{
    turns_are_told_by_witnesses();
}
