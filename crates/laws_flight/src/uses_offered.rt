//! Small callers, of what happens by both tables, and of turns in order.

ghost use Rattle.std.specs.Prelude.{◌≡◌, ◌∷◌, ℕ, Bool, List, [], length, Option, None};
ghost use Rattle.vfs_flags.specs.Flags.{fs_options_bits};
ghost use Rattle.vfs_segments.specs.Segments.{segments_of, flat_bytes};
ghost use Rattle.vfs_files.specs.Calls.{Answer, Create, Created, Text, Texts};
ghost use Rattle.vfs_files.specs.Runs.{Called, Event};
ghost use Rattle.vfs_files.specs.Values.{ExtensionValues};
ghost use Rattle.vfs_files.specs.declared.entry.Context.{Context};
ghost use Rattle.vfs_files.specs.declared.entry.Entry.{Entry};
ghost use Rattle.vfs_grammar.specs.Ask.{ask};
ghost use Rattle.vfs_grammar.specs.Books.{KeepsBooks, answered};
ghost use Rattle.vfs_grammar.specs.Forms.{Ends};
ghost use Rattle.vfs_grammar.specs.Reply.{Reply};
ghost use Rattle.vfs_grammar.specs.Turn.{IsTurn, Turn, events_in};
ghost use Rattle.vfs_grammar.specs.declared.limits.Limits.{Limits};
ghost use Rattle.codec_calls.specs.declared.call.CallData.{CallData as Told};
ghost use Rattle.codec_calls.specs.declared.data.AnswerData.{AnswerData as Data};
ghost use Rattle.codec_calls.specs.declared.data.ItemData.{ItemData as Item};
ghost use Rattle.codec_encode.specs.Fitting.{IsFit};
ghost use Rattle.codec_encode.specs.Uses.{getlk_asked, ioctl_asked};
ghost use Rattle.codec_encode.specs.declared.answered.Answered.{Answered as Came};
ghost use Rattle.codec_decode.specs.Further.{Ordinary, Row, Short, Unnamed, what_of};
ghost use Rattle.codec_decode.specs.declared.row.Further.TheVariants.{Ordinary as IsOrdinary, Row as IsRow, Short as IsShort};
ghost use Rattle.laws_flight.specs.OfferedTurns.{AreOfferedInOrder, IsOfferedTurn, OfferedTurn, as_create, created_turn, plain, seen};
ghost use Rattle.laws_flight.specs.OneOfferedTurn.{HappenedOffered};
ghost use Rattle.laws_flight.specs.Uses.{getlk, ioctl, ioctl_with};

use crate::laws::{offered_turns_keep_books, what_offers_nothing_is_virtiofsds};
use codec_calls::CallData;
use codec_decode::{Further, offers, what};
use vfs_flags::{DEFAULT_MAX_BUFFER, FsOptions};
use vfs_grammar::Limits;

const LIMITS: Limits = Limits {
    page_size: 4096,
    max_buffer: DEFAULT_MAX_BUFFER,
};

/// A GETLK of real bytes tells its range, its owner and whose lock it is, where locks are offered.
fn ask_getlk(options: FsOptions, request: &[&[u8]], room: usize, call: &mut CallData) -> Further
    requires { flat_bytes (segments_of request.now) ≡ getlk }
    ensures row { result ≡ IsRow }
    ensures told { call.new ≡ getlk_asked (fs_options_bits options) room }
{
    what(offers::LOCKS, LIMITS, options, request, room, call)
}

/// Where all else is offered, the same bytes ask what virtiofsd's table says.
fn ask_getlk_of_others(
    options: FsOptions,
    request: &[&[u8]],
    room: usize,
    call: &mut CallData,
) -> Further
    requires { flat_bytes (segments_of request.now) ≡ getlk }
    ensures ordinary { result ≡ IsOrdinary }
    ensures untold { call.new ≡ call.old }
{
    what(254, LIMITS, options, request, room, call)
}

/// An IOCTL tells its command and its argument, and where its input is.
fn ask_ioctl(options: FsOptions, request: &[&[u8]], room: usize, call: &mut CallData) -> Further
    requires { flat_bytes (segments_of request.now) ≡ ioctl }
    ensures { (result ≡ IsRow) × (call.new ≡ ioctl_asked (fs_options_bits options) room) }
{
    what(offers::IOCTL, LIMITS, options, request, room, call)
}

/// An IOCTL that says it has nine bytes of input, where there are eight, is short.
fn ask_short_ioctl(
    options: FsOptions,
    request: &[&[u8]],
    room: usize,
    call: &mut CallData,
) -> Further
    requires { flat_bytes (segments_of request.now) ≡ ioctl_with 9 }
    ensures { result ≡ IsShort }
{
    what(offers::IOCTL, LIMITS, options, request, room, call)
}

/// A TMPFILE is in the books as the CREATE that it was asked as, where it is offered.
fn a_tmpfile_is_counted()
    ensures { (limits : Limits) (options after : ℕ) (t : OfferedTurn) →
        what_of t.offers limits t.turn.request ≡ Unnamed → IsOfferedTurn limits options t after →
        KeepsBooks (created_turn t.turn ∷ []) }
{
    offered_turns_keep_books();
}

/// The entry that a TMPFILE was answered counts once.
fn a_tmpfiles_entry_counts()
    ensures { (limits : Limits) (t : OfferedTurn) (ctx : Context) (parent : ℕ) (name : List ℕ) (mode : ℕ)
        (kill_priv : Bool) (flags umask : ℕ) (ext : ExtensionValues) (entry : Entry) (handle : Option ℕ)
        (opening : ℕ) →
        what_of t.offers limits t.turn.request ≡ Unnamed →
        t.turn.events ≡ Called (Create ctx parent name mode kill_priv flags umask ext)
        (Created entry handle opening) ∷ [] →
        answered entry.inode (events_in (seen limits t)) ≡ 1 }
{
    offered_turns_keep_books();
}

/// Where nothing is offered, a GETLK asks what the table of virtiofsd says; and its turns are those of that table.
fn a_getlk_without_offers()
    ensures asks { (limits : Limits) → what_of 0 limits getlk ≡ Ordinary }
    ensures its { (limits : Limits) (options after : ℕ) (turn : Turn) → turn.request ≡ getlk →
        IsTurn limits options turn after → IsOfferedTurn limits options (plain turn) after }
    ensures no_others { (limits : Limits) (options after : ℕ) (t : OfferedTurn) → t.turn.request ≡ getlk →
        t.offers ≡ 0 → IsOfferedTurn limits options t after → IsTurn limits options t.turn after }
{
    what_offers_nothing_is_virtiofsds();
}

/// Between ask and answer no row is told of a request that asks what virtiofsd's table says, nor of a TMPFILE, and nothing
/// happens of one that is refused; nor of a row that is cut short. A row has no event, and gives nothing back.
fn what_happens_by_both_tables()
    ensures ordinary { (limits : Limits) (options : ℕ) (request : List ℕ) (told : Told) (a : Data) (text : List ℕ)
        (items : List Item) (room : List ℕ) (came : Came) (events : List Event) (row : Option (Told × Answer)) →
        HappenedOffered limits options request Ordinary told a text items room came events row →
        (row ≡ None) × ((reply : Reply) → ask limits options (length room) request ≡ Ends reply → ⊥) }
    ensures unnamed { (limits : Limits) (options : ℕ) (request : List ℕ) (told : Told) (a : Data) (text : List ℕ)
        (items : List Item) (room : List ℕ) (came : Came) (events : List Event) (row : Option (Told × Answer)) →
        HappenedOffered limits options request Unnamed told a text items room came events row →
        (row ≡ None)
        × ((reply : Reply) → ask limits options (length room) (as_create request) ≡ Ends reply → ⊥) }
    ensures short { (limits : Limits) (options : ℕ) (request : List ℕ) (told : Told) (a : Data) (text : List ℕ)
        (items : List Item) (room : List ℕ) (came : Came) (events : List Event) (row : Option (Told × Answer)) →
        HappenedOffered limits options request Short told a text items room came events row → ⊥ }
    ensures row { (limits : Limits) (options : ℕ) (request : List ℕ) (asked told : Told) (a : Data) (text : List ℕ)
        (items : List Item) (room : List ℕ) (came : Came) (events : List Event) (row : Option (Told × Answer)) →
        HappenedOffered limits options request (Row asked) told a text items room came events row →
        (events ≡ []) × (came.given ≡ 0) }
{}

/// A text that answers a GETLK has 24 bytes.
fn locks_that_fit()
    ensures { (options room : ℕ) (bytes : List ℕ) → IsFit (getlk_asked options room) Texts (Text bytes) →
        length bytes ≡ 24 }
{}

/// One turn in order is that turn: it leaves the options that are left at the end.
fn one_turn_in_order()
    ensures { (limits : Limits) (options after : ℕ) (t : OfferedTurn) →
        AreOfferedInOrder limits options (t ∷ []) after → IsOfferedTurn limits options t after }
{}

/// A TMPFILE in order is in the books as the CREATE that it was asked as.
fn a_tmpfile_in_order_is_counted()
    ensures { (limits : Limits) (options after : ℕ) (t : OfferedTurn) →
        what_of t.offers limits t.turn.request ≡ Unnamed → AreOfferedInOrder limits options (t ∷ []) after →
        KeepsBooks (created_turn t.turn ∷ []) }
{
    offered_turns_keep_books();
}

/// Where nothing is offered, a GETLK tells no row.
fn a_getlk_tells_no_row()
    ensures { (limits : Limits) (options after : ℕ) (t : OfferedTurn) → t.turn.request ≡ getlk →
        t.offers ≡ 0 → IsOfferedTurn limits options t after → t.row ≡ None }
{
    what_offers_nothing_is_virtiofsds();
}
