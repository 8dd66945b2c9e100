//! Small callers of the laws of the books.

ghost use Rattle.std.specs.Prelude.{◌≡◌, ◌≢◌, ◌≤◌, ◌+◌, ◌++◌, ℕ, List, [], ◌∷◌, Some, Ok, sum_by};
ghost use Rattle.vfs_grammar.specs.Books.{answered, sent, delivered, accepted, opcode_in};
ghost use Rattle.vfs_grammar.specs.Words.{GivesBackWithin, NeverBelow, in_header_size, out_header_size, entry_out_size, dirent_size, pair_size, pairs_place, namelen_place};
ghost use Rattle.vfs_grammar.specs.Records.{size_of};
ghost use Rattle.vfs_wire.specs.Records.{batch_forget_in, entry_out, forget_one, in_header, out_header, dirent};
ghost use Rattle.vfs_grammar.specs.Turn.{AreTurns, events_in, Turn, IsTurn};
ghost use Rattle.vfs_grammar.specs.Samples.{reply_of_node_5, batch_of_two};
ghost use Rattle.vfs_files.specs.Calls.{Lookup, Forget, Destroy, Answer, Found, Done};
ghost use Rattle.vfs_files.specs.Runs.{Event, Called};
ghost use Rattle.vfs_files.specs.declared.entry.Context.{Context};
ghost use Rattle.vfs_files.specs.declared.entry.Entry.{Entry};
ghost use Rattle.vfs_flags.specs.declared.opcode.Opcode.{Opcode};
ghost use Rattle.vfs_grammar.specs.declared.limits.Limits.{Limits};

use crate::books::{
    counts_never_fall_below_zero, each_turn_balances, turns_balance, turns_keep_books,
};
use crate::turns::destroy_leaves_no_options;

/// A LOOKUP whose entry of node 5 is answered in 144 bytes delivers node 5 once.
fn a_whole_reply_delivers_its_entry()
    ensures { (limits : Limits) (options after : ℕ) (t : Turn) (ctx : Context) (parent : ℕ)
        (name : List ℕ) (entry : Entry) → IsTurn limits options t after →
        t.events ≡ Called (Lookup ctx parent name) (Found entry) ∷ [] → entry.inode ≡ 5 →
        t.outcome ≡ Ok 144 → delivered 5 t ≡ 1 }
{
    each_turn_balances();
}

/// A reply of 144 bytes to a SYMLINK, MKNOD, MKDIR or LINK that has an entry of node 5 was answered
/// by the file system: it counted the node.
fn a_replied_entry_was_answered()
    ensures symlink { (limits : Limits) (options after : ℕ) (t : Turn) (following : List ℕ) →
        IsTurn limits options t after → opcode_in t.request ≡ Some Opcode.Symlink → t.outcome ≡ Ok 144 →
        t.room_after ≡ reply_of_node_5 ++ following → 1 ≤ answered 5 t.events }
    ensures mknod { (limits : Limits) (options after : ℕ) (t : Turn) (following : List ℕ) →
        IsTurn limits options t after → opcode_in t.request ≡ Some Opcode.Mknod → t.outcome ≡ Ok 144 →
        t.room_after ≡ reply_of_node_5 ++ following → 1 ≤ answered 5 t.events }
    ensures mkdir { (limits : Limits) (options after : ℕ) (t : Turn) (following : List ℕ) →
        IsTurn limits options t after → opcode_in t.request ≡ Some Opcode.Mkdir → t.outcome ≡ Ok 144 →
        t.room_after ≡ reply_of_node_5 ++ following → 1 ≤ answered 5 t.events }
    ensures link { (limits : Limits) (options after : ℕ) (t : Turn) (following : List ℕ) →
        IsTurn limits options t after → opcode_in t.request ≡ Some Opcode.Link → t.outcome ≡ Ok 144 →
        t.room_after ≡ reply_of_node_5 ++ following → 1 ≤ answered 5 t.events }
{
    each_turn_balances();
}

/// A LOOKUP whose entry of node 5 was replied, and then a BATCH_FORGET of node 5 by 1 and of node 7 by
/// 3: as many of node 7 are sent as the bytes say, beyond what is answered meanwhile; and no count of
/// node 5 falls below zero, in the middle of a request too.
fn what_was_replied_is_given_back()
    ensures sent { (limits : Limits) (options after : ℕ) (gave : Turn) →
        IsTurn limits options gave after → gave.request ≡ batch_of_two → gave.outcome ≡ Ok 0 →
        sent 7 gave.events ≡ answered 7 gave.events + 3 }
    ensures never_below { (limits : Limits) (options after : ℕ) (looked gave : Turn) (ctx : Context)
        (parent : ℕ) (name : List ℕ) (entry : Entry) →
        AreTurns limits options (looked ∷ gave ∷ []) after →
        looked.events ≡ Called (Lookup ctx parent name) (Found entry) ∷ [] → entry.inode ≡ 5 →
        looked.outcome ≡ Ok 144 → gave.request ≡ batch_of_two → gave.outcome ≡ Ok 0 →
        NeverBelow 5 (events_in (looked ∷ gave ∷ [])) }
{
    each_turn_balances();
    turns_keep_books();
}

/// A session of a DESTROY alone leaves no options.
fn a_session_of_a_destroy()
    ensures { (limits : Limits) (options after : ℕ) (t : Turn) (answer : Answer) →
        AreTurns limits options (t ∷ []) after → t.events ≡ Called Destroy answer ∷ [] →
        after ≡ 0 }
{
    destroy_leaves_no_options();
}

/// A client that has given back all that was delivered to it leaves the file system nothing of a
/// node to wait for: it was sent as many forgets as it answered entries, whatever the rooms were.
fn all_is_sent_back()
    ensures { (limits : Limits) (options after n : ℕ) (turns : List Turn) → n ≢ 0 →
        AreTurns limits options turns after →
        sum_by (accepted n) turns ≡ sum_by (delivered n) turns →
        sent n (events_in turns) ≡ answered n (events_in turns) }
{
    turns_keep_books();
}

/// No session of a client that gives back no more than it had begins with a forget.
fn no_session_begins_with_a_forget()
    ensures { (limits : Limits) (options after : ℕ) (turns : List Turn) (ctx : Context)
        (events : List Event) → AreTurns limits options turns after → GivesBackWithin 5 turns →
        events_in turns ≢ Called (Forget ctx 5 1) Done ∷ events }
{
    turns_keep_books();
}

/// Nor does the part of a session that begins anywhere, as with an INIT after a DESTROY, if the client
/// gives back no more than was delivered to it from there on.
fn no_part_of_a_session_begins_with_a_forget()
    ensures { (limits : Limits) (options after : ℕ) (before part following : List Turn) (ctx : Context)
        (events : List Event) → AreTurns limits options (before ++ (part ++ following)) after →
        GivesBackWithin 5 part → events_in part ≢ Called (Forget ctx 5 1) Done ∷ events }
{
    turns_keep_books();
}

/// What a client holds of a node after turns in order, the file system holds too: of what it answered that much was not
/// sent back.
fn what_a_client_holds_is_held()
    ensures { (limits : Limits) (options after n held : ℕ) (turns : List Turn) → n ≢ 0 →
        AreTurns limits options turns after →
        sum_by (delivered n) turns ≡ sum_by (accepted n) turns + held →
        answered n (events_in turns) ≡ sent n (events_in turns) + held }
{
    turns_balance();
}

/// Over all turns of a client that gives back no more than it had, no more is sent back than was answered.
fn no_more_is_sent_back()
    ensures { (limits : Limits) (options after n : ℕ) (turns : List Turn) → n ≢ 0 →
        AreTurns limits options turns after → GivesBackWithin n turns →
        sent n (events_in turns) ≤ answered n (events_in turns) }
{
    counts_never_fall_below_zero();
}

/// The sizes and places by which bytes are read without their tables are those of the tables.
fn sizes_are_of_the_tables()
    ensures in_header { in_header_size ≡ size_of in_header }
    ensures out_header { out_header_size ≡ size_of out_header }
    ensures entry_out { entry_out_size ≡ size_of entry_out }
    ensures dirent { dirent_size ≡ size_of dirent }
    ensures pair { pair_size ≡ size_of forget_one }
    ensures pairs { pairs_place ≡ size_of in_header + size_of batch_forget_in }
    ensures namelen { namelen_place ≡ size_of entry_out + 16 }
{}
