//! Answers of calls.

ghost use Rattle.std.specs.Prelude.{◌≡◌, ◌<◌, ◌≤◌, ◌-◌, ◌^◌, ◌++◌, ℕ, List, Option, length, drop, bit_and, false, Some, Ok, Err, MatchOption};
ghost use Rattle.vfs_flags.specs.Flags.{known_fs_options};
ghost use Rattle.vfs_files.specs.Calls.{Getattr, Init, Lookup, Read};
ghost use Rattle.vfs_files.specs.declared.entry.Context.{Context};
ghost use Rattle.vfs_grammar.specs.Listing.{Listing};
ghost use Rattle.vfs_grammar.specs.Limits.{AreLimits};
ghost use Rattle.vfs_grammar.specs.Options.{agreed};
ghost use Rattle.vfs_grammar.specs.Reply.{Bytes, Echo, fault_reply};
ghost use Rattle.vfs_messages.specs.Rooms.{Replies};
ghost use Rattle.vfs_segments.specs.Written.{whole};
ghost use Rattle.codec_calls.specs.declared.data.AnswerData.{AnswerData};
ghost use Rattle.codec_encode.specs.Told.{ListingIsAnswered, TellsCall, TellsEcho, TellsListing};

use crate::answered::Answered;
use crate::call::answer;
use codec_calls::{AnswerData, CallData, EntryData, ItemData};
use vfs_grammar::{Error, Limits};
use vfs_segments::Writer;

/// Answers a GETATTR by the fault EIO, which is 5.
fn refuse_getattr(limits: Limits, call: &CallData, w: &mut Writer) -> Option<Answered>
    requires limits { AreLimits limits }
    requires room { length w.old.left ≡ call.now.room }
    ensures { (echo : Echo) (ctx : Context) (node : ℕ) (handle : Option ℕ) →
        TellsEcho call.now echo → TellsCall call.now (Getattr ctx node handle) →
        MatchOption result ⊥ (λ came.
        Replies (Bytes (fault_reply (Some 5) echo.unique)) w.old came.outcome w.new
        × (came.options ≡ call.now.options) × (came.given ≡ 0) × (came.taken ≡ 0)) }
{
    let refusal = AnswerData {
        error: 5,
        ..AnswerData::default()
    };
    answer(limits, call, &refusal, &[], &[], w)
}

/// Answers a LOOKUP by an entry for which there is no room: it is to be given back.
fn find_without_room(limits: Limits, call: &CallData, node: u64, w: &mut Writer) -> Option<Answered>
    requires limits { AreLimits limits }
    requires room { length w.old.left ≡ call.now.room }
    requires small { length w.old.left < 144 }
    ensures { (echo : Echo) (ctx : Context) (parent : ℕ) (name : List ℕ) →
        TellsEcho call.now echo → TellsCall call.now (Lookup ctx parent name) →
        MatchOption result ⊥ (λ came.
        (came.given ≡ node) × (came.outcome ≡ Err Error.EncodeMessage)) }
{
    let entry = EntryData {
        node,
        ..EntryData::default()
    };
    let found = AnswerData {
        error: 0,
        entry,
        ..AnswerData::default()
    };
    answer(limits, call, &found, &[], &[], w)
}

/// Answers an INIT that these options are wanted: of those that it offers they are agreed on, with
/// those that the server supports.
fn agree(limits: Limits, call: &CallData, want: u64, w: &mut Writer) -> Option<Answered>
    requires limits { AreLimits limits }
    requires room { length w.old.left ≡ call.now.room }
    ensures { (echo : Echo) (offered : ℕ) →
        TellsEcho call.now echo → TellsCall call.now (Init offered) →
        MatchOption result ⊥ (λ came.
        came.options ≡ agreed offered (bit_and want known_fs_options)) }
{
    let wanted = AnswerData {
        error: 0,
        count: want,
        ..AnswerData::default()
    };
    answer(limits, call, &wanted, &[], &[], w)
}

/// Answers a READ whose data are in the room already, after the place of the header: they stay, whatever is said of
/// them.
fn read_data(limits: Limits, call: &CallData, said: &AnswerData, w: &mut Writer) -> Option<Answered>
    requires limits { AreLimits limits }
    requires room { length w.old.left ≡ call.now.room }
    requires header { 16 ≤ length w.old.left }
    ensures { (echo : Echo) (ctx : Context) (node handle space size offset flags : ℕ) (owner : Option ℕ) →
        TellsEcho call.now echo →
        TellsCall call.now (Read ctx node handle space size offset owner flags) →
        MatchOption result ⊥ (λ came. (header : List ℕ) × (length header ≡ 16)
        × (whole w.new ≡ w.old.passed ++ (header ++ drop 16 w.old.left))) }
{
    answer(limits, call, said, &[], &[], w)
}

/// Answers a READDIR or READDIRPLUS of these items, and hands back those that are not in the reply:
/// of a READDIRPLUS their lookups are to be given back.
fn list_and_rest<'a>(
    limits: Limits,
    call: &CallData,
    items: &'a [ItemData<'a>],
    w: &mut Writer,
) -> &'a [ItemData<'a>]
    requires limits { AreLimits limits }
    requires room { length w.old.left ≡ call.now.room }
    requires header { 16 ≤ length w.old.left }
    requires short { call.now.size < 2 ^ 32 - 16 }
    ensures { (echo : Echo) (listing : Listing) →
        TellsEcho call.now echo → TellsListing call.now listing →
        (a : AnswerData) × (came : Answered)
        × ListingIsAnswered limits echo listing call.now.options a items.now w.old came w.new
        × (result.now ≡ drop came.taken items.now) }
{
    let opened = AnswerData::default();
    match answer(limits, call, &opened, &[], items, w) {
        Some(came) => &items[came.taken..],
        None => items,
    }
}

/// Answers a READDIR of one item of the name "a", whose record of 32 bytes has room: it is in the
/// reply.
fn list_one(limits: Limits, call: &CallData, w: &mut Writer) -> Option<Answered>
    requires limits { AreLimits limits }
    requires room { length w.old.left ≡ call.now.room }
    requires space { 48 ≤ length w.old.left }
    requires size { 32 ≤ call.now.size }
    requires short { call.now.size < 2 ^ 32 - 16 }
    ensures { (echo : Echo) (listing : Listing) →
        TellsEcho call.now echo → TellsListing call.now listing → listing.plus ≡ false →
        MatchOption result ⊥ (λ came.
        (came.taken ≡ 1) × (came.given ≡ 0) × (came.outcome ≡ Ok 48)) }
{
    let opened = AnswerData {
        error: 0,
        ..AnswerData::default()
    };
    let item = ItemData {
        ino: 5,
        offset: 1,
        name: b"a\0".as_slice(),
        entry: EntryData::default(),
        type_: 8,
        error: 0,
    };
    answer(limits, call, &opened, &[], &[item], w)
}
