//! What holds of every turn of a request.

ghost use Rattle.std.specs.Prelude.{◌≡◌, ◌≢◌, ◌<◌, ◌≤◌, ◌+◌, ◌*◌, ◌-◌, ◌/◌, ◌^◌, ◌⊎◌, ℕ, length, take, drop, List, [], ◌∷◌, Option, Ok, Err, Some};
ghost use Rattle.std.specs.declared.time.Duration.{Duration};
ghost use Rattle.vfs_flags.specs.declared.opcode.Opcode.{Opcode};
ghost use Rattle.vfs_wire.specs.Records.{attr_out, entry_out, init_out};
ghost use Rattle.vfs_wire.specs.Fields.{value_of};
ghost use Rattle.vfs_wire_more.specs.Records.{open_out, write_out, getxattr_out};
ghost use Rattle.vfs_wire.specs.declared.attributes.Attr.{Attr};
ghost use Rattle.vfs_files.specs.Calls.{Found, Attributes, Opened, Created, Count, Wrote, Call, Init, Destroy, BatchForget, Answer, Options, kind_of, IsAnswer};
ghost use Rattle.vfs_files.specs.Values.{entry_out_of, context_of};
ghost use Rattle.vfs_files.specs.Runs.{Event, Called};
ghost use Rattle.vfs_files.specs.declared.entry.Entry.{Entry};
ghost use Rattle.vfs_grammar.specs.Ask.{ask, ask_number};
ghost use Rattle.vfs_grammar.specs.Memory.{header_of};
ghost use Rattle.vfs_grammar.specs.Forms.{Ask, Lists, Asks, WithMemory, faulted, refused_or, pairs_in};
ghost use Rattle.vfs_grammar.specs.Listing.{Listing};
ghost use Rattle.laws_turns.specs.Turns.{AnswersWhole, body_in, unique_of, BeginsWithHeader, WantsMemory, after_header, count_of_pairs, CarriesData, size_asked, cut_turn_tells, LacksRoomForHeader};
ghost use Rattle.vfs_grammar.specs.Books.{opcode_in};
ghost use Rattle.vfs_grammar.specs.Limits.{default_limits, AreLimits, max_len};
ghost use Rattle.vfs_grammar.specs.Options.{AreAgreed};
ghost use Rattle.vfs_grammar.specs.Directories.{StopsForACause, ComesWhole, TakesFew};
ghost use Rattle.vfs_grammar.specs.Reply.{Echo, echo_of, open_out_of, body_of};
ghost use Rattle.vfs_grammar.specs.Words.{attr_out_of};
ghost use Rattle.vfs_grammar.specs.Turn.{Turn, IsTurn, Follows};
ghost use Rattle.vfs_grammar.specs.Witnesses.{IsTurnWithMemory, FollowsFor, turn_tells};
ghost use Rattle.vfs_grammar.specs.declared.error.Error.{Error};
ghost use Rattle.vfs_grammar.specs.declared.limits.Limits.{Limits};

/// What a server goes by that was made for these limits, whatever they are: INIT's reply says the
/// largest payload as `max_write`, and in `max_pages` how many pages it takes. A `len` of more than
/// it and 4096 is answered ENOMEM, 12, and with it the rest isn't looked at; and so is a
/// BATCH_FORGET whose pairs, of sixteen bytes each, are more than it, whether they are there or
/// not.
pub fn limits_are_kept()
    ensures max_write { (limits : Limits) (options after want : ℕ) (t : Turn) → AreLimits limits →
        AnswersWhole limits options (Options want) t after →
        (value_of init_out (body_in t.room_after)).max_write ≡ limits.max_buffer }
    ensures max_pages { (limits : Limits) (options after want : ℕ) (t : Turn) → AreLimits limits →
        AnswersWhole limits options (Options want) t after →
        (value_of init_out (body_in t.room_after)).max_pages
        ≡ (limits.max_buffer - 1) / limits.page_size + 1 }
    ensures len_within { (limits : Limits) (options space : ℕ) (request : List ℕ) →
        40 ≤ length request → (header_of request).len ≤ limits.max_buffer + 4096 →
        ask limits options space request
        ≡ ask_number limits options space (opcode_in request)
        (header_of request) (after_header request) }
    ensures len_above { (limits : Limits) (options space : ℕ) (request : List ℕ) →
        40 ≤ length request → limits.max_buffer + 4096 < (header_of request).len →
        ask limits options space request ≡ faulted 12 (header_of request) }
    ensures pairs_within { (limits : Limits) (options space : ℕ) (request : List ℕ) →
        48 ≤ length request → (header_of request).len ≤ limits.max_buffer + 4096 →
        opcode_in request ≡ Some Opcode.BatchForget →
        16 * count_of_pairs request ≤ limits.max_buffer →
        ask limits options space request
        ≡ refused_or (pairs_in (count_of_pairs request) (drop 48 request)) (λ pairs.
        WithMemory (Asks (echo_of (header_of request))
        (BatchForget (context_of (header_of request)) pairs))) }
    ensures pairs_above { (limits : Limits) (options space : ℕ) (request : List ℕ) →
        48 ≤ length request → (header_of request).len ≤ limits.max_buffer + 4096 →
        opcode_in request ≡ Some Opcode.BatchForget →
        limits.max_buffer < 16 * count_of_pairs request →
        ask limits options space request ≡ faulted 12 (header_of request) }
{}

/// The limits of a server of which nothing is said but the size of a page, in numbers: payloads of
/// 1,048,576 bytes, which INIT's reply says as `max_write`, and requests whose `len` is at most
/// 1,052,672. A greater `len` is answered ENOMEM, 12, and with it the rest isn't looked at. A
/// BATCH_FORGET has at most 65,536 pairs; of more it is answered ENOMEM, whether they are there or
/// not.
pub fn limits_have_their_numbers()
    ensures largest_len { (page_size : ℕ) → max_len (default_limits page_size) ≡ 1_052_672 }
    ensures max_write { (page_size options after want : ℕ) (t : Turn) →
        AnswersWhole (default_limits page_size) options (Options want) t after →
        (value_of init_out (body_in t.room_after)).max_write ≡ 1_048_576 }
    ensures len_within { (page_size options space : ℕ) (request : List ℕ) → 40 ≤ length request →
        (header_of request).len ≤ 1_052_672 →
        ask (default_limits page_size) options space request
        ≡ ask_number (default_limits page_size) options space (opcode_in request)
        (header_of request) (after_header request) }
    ensures len_above { (page_size options space : ℕ) (request : List ℕ) → 40 ≤ length request →
        1_052_672 < (header_of request).len →
        ask (default_limits page_size) options space request ≡ faulted 12 (header_of request) }
    ensures pairs_within { (page_size options space : ℕ) (request : List ℕ) →
        48 ≤ length request → (header_of request).len ≤ 1_052_672 →
        opcode_in request ≡ Some Opcode.BatchForget → count_of_pairs request ≤ 65_536 →
        ask (default_limits page_size) options space request
        ≡ refused_or (pairs_in (count_of_pairs request) (drop 48 request)) (λ pairs.
        WithMemory (Asks (echo_of (header_of request))
        (BatchForget (context_of (header_of request)) pairs))) }
    ensures pairs_above { (page_size options space : ℕ) (request : List ℕ) →
        48 ≤ length request → (header_of request).len ≤ 1_052_672 →
        opcode_in request ≡ Some Opcode.BatchForget → 65_536 < count_of_pairs request →
        ask (default_limits page_size) options space request ≡ faulted 12 (header_of request) }
{}

/// After every error but `EncodeMessage` no call was made, the room is as it was, and the options
/// are the old ones.
pub fn refusals_change_nothing()
    ensures { (limits : Limits) (options after : ℕ) (t : Turn) (e : Error) →
        IsTurn limits options t after → t.outcome ≡ Err e → e ≢ Error.EncodeMessage →
        (t.events ≡ []) × (t.room_after ≡ t.room) × (after ≡ options) }
{}

/// After `EncodeMessage` the room holds as much as it has place for of the reply that the grammar
/// gives for the request and the answer, which is longer. Or the request was a READ, READDIR or
/// READDIRPLUS, whose room has no place for the sixteen bytes of a header: no call was made, the
/// room is as it was, and the options are the old ones.
pub fn unfit_replies_are_cut_off()
    ensures { (limits : Limits) (options after : ℕ) (t : Turn) → IsTurn limits options t after →
        t.outcome ≡ Err Error.EncodeMessage →
        FollowsFor (cut_turn_tells t) limits options
        (ask limits options (length t.room) t.request) after
        ⊎ LacksRoomForHeader options after t }
{}

/// A READ, READDIR or READDIRPLUS is answered by at most that many bytes as it asks for, and the
/// sixteen of a header.
pub fn data_are_no_more_than_asked()
    ensures { (limits : Limits) (options after n : ℕ) (t : Turn) → IsTurn limits options t after →
        CarriesData (opcode_in t.request) → t.outcome ≡ Ok n → n ≤ 16 + size_asked t.request }
{}

/// A room is as long as it was, whatever came of the request; and where the answer is 0, each of
/// its bytes is as it was.
pub fn rooms_stay()
    ensures length { (limits : Limits) (options after : ℕ) (t : Turn) →
        IsTurn limits options t after → length t.room_after ≡ length t.room }
    ensures silent { (limits : Limits) (options after : ℕ) (t : Turn) →
        IsTurn limits options t after → t.outcome ≡ Ok 0 → t.room_after ≡ t.room }
{}

/// `FlushMessage` and `InvalidCString2` are never answered.
pub fn two_errors_are_never_answered()
    ensures { (limits : Limits) (options after : ℕ) (t : Turn) → IsTurn limits options t after →
        (t.outcome ≢ Err Error.FlushMessage) × (t.outcome ≢ Err Error.InvalidCString2) }
{}

/// What follows in a turn is what follows by a witness of which the turn tells all.
pub fn turns_are_told_by_witnesses()
    ensures plainly { (limits : Limits) (options after : ℕ) (t : Turn) (asks : Ask) →
        FollowsFor (turn_tells t) limits options asks after → Follows t limits options asks after }
    ensures as_told { (limits : Limits) (options after : ℕ) (t : Turn) (asks : Ask) →
        Follows t limits options asks after → FollowsFor (turn_tells t) limits options asks after }
{}

/// `OutOfMemory` is answered only to a request of a form with a tail or pairs, whose header,
/// record and tail or pairs are whole, whose `len` is in the limit, and whose pairs are. An
/// unknown opcode, a `len` above the limit, a part that isn't whole, and a request of another
/// form never get it.
pub fn memory_is_wanted_for_whole_tails()
    ensures { (limits : Limits) (options after : ℕ) (t : Turn) → IsTurn limits options t after →
        t.outcome ≡ Err Error.OutOfMemory → WantsMemory limits options (length t.room) t.request }
{}

/// Where memory was there for each copy that a request asks for, `OutOfMemory` isn't answered.
pub fn memory_is_wanted_for_copies()
    ensures { (limits : Limits) (options after : ℕ) (t : Turn) →
        IsTurnWithMemory limits options t after → t.outcome ≢ Err Error.OutOfMemory }
{}

/// Where the answer is n above 0, the room begins with a header whose `len` is n, which fits it,
/// and whose `unique` is the request's.
pub fn replies_begin_with_their_header()
    ensures { (limits : Limits) (options after n : ℕ) (t : Turn) → IsTurn limits options t after →
        t.outcome ≡ Ok n → 0 < n → BeginsWithHeader n (unique_of t.request) t.room_after }
{}

/// After an INIT that the file system accepts, the options lie within those offered, and contain
/// all of these that the server supports.
pub fn options_are_agreed()
    ensures { (limits : Limits) (options after offered want : ℕ) (t : Turn) →
        IsTurn limits options t after → t.events ≡ Called (Init offered) (Options want) ∷ [] →
        AreAgreed offered after }
{}

/// The options after an INIT that the file system accepts are those that its reply tells, where it
/// fits: in its two words of flags together.
pub fn agreed_options_are_told()
    ensures { (limits : Limits) (options after want : ℕ) (t : Turn) →
        AnswersWhole limits options (Options want) t after →
        (value_of init_out (body_in t.room_after)).flags
        + 2 ^ 32 * (value_of init_out (body_in t.room_after)).flags2 ≡ after }
{}

/// After a DESTROY no options are agreed.
pub fn destroy_leaves_no_options()
    ensures { (limits : Limits) (options after : ℕ) (answer : Answer) (t : Turn) →
        IsTurn limits options t after → t.events ≡ Called Destroy answer ∷ [] → after ≡ 0 }
{}

/// Every other request leaves the options as they were.
pub fn other_requests_keep_the_options()
    ensures { (limits : Limits) (options after : ℕ) (t : Turn) → IsTurn limits options t after →
        ((offered want : ℕ) → t.events ≢ Called (Init offered) (Options want) ∷ []) →
        ((answer : Answer) → t.events ≢ Called Destroy answer ∷ []) → after ≡ options }
{}

/// A call that the events of a request begin with was answered by an answer of its kind, whose
/// numbers are in the widths that a reply has for them.
pub fn answers_are_of_their_kind()
    ensures { (limits : Limits) (options after : ℕ) (call : Call) (answer : Answer)
        (rest : List Event) (t : Turn) → IsTurn limits options t after →
        t.events ≡ Called call answer ∷ rest → IsAnswer (kind_of call) answer }
{}

/// What comes after the header of a reply that fits is what the one call of the request answered:
/// the body of its answer, whatever it is. So each number that is in its width is read back from it,
/// as it is from the records that several requests share.
pub fn replies_say_what_was_answered()
    ensures body { (limits : Limits) (options after : ℕ) (t : Turn) (answer : Answer) →
        AnswersWhole limits options answer t after →
        take (length (body_of answer)) (body_in t.room_after) ≡ body_of answer }
    ensures entry { (limits : Limits) (options after : ℕ) (t : Turn) (entry : Entry) →
        AnswersWhole limits options (Found entry) t after →
        value_of entry_out (body_in t.room_after) ≡ entry_out_of entry }
    ensures attributes { (limits : Limits) (options after : ℕ) (t : Turn) (attributes : Attr)
        (timeout : Duration) → AnswersWhole limits options (Attributes attributes timeout) t after →
        value_of attr_out (body_in t.room_after) ≡ attr_out_of attributes timeout }
    ensures opening { (limits : Limits) (options after : ℕ) (t : Turn) (handle : Option ℕ)
        (how : ℕ) → AnswersWhole limits options (Opened handle how) t after →
        value_of open_out (body_in t.room_after) ≡ open_out_of handle how }
    ensures creation { (limits : Limits) (options after : ℕ) (t : Turn) (entry : Entry)
        (handle : Option ℕ) (how : ℕ) →
        AnswersWhole limits options (Created entry handle how) t after →
        (value_of entry_out (body_in t.room_after) ≡ entry_out_of entry)
        × (value_of open_out (drop 128 (body_in t.room_after)) ≡ open_out_of handle how) }
    ensures count { (limits : Limits) (options after : ℕ) (t : Turn) (size : ℕ) →
        AnswersWhole limits options (Count size) t after →
        (value_of getxattr_out (body_in t.room_after)).size ≡ size }
    ensures written { (limits : Limits) (options after : ℕ) (t : Turn) (count : ℕ) →
        AnswersWhole limits options (Wrote count) t after →
        (value_of write_out (body_in t.room_after)).size ≡ count }
{}

/// Of every turn that reads a directory:
///
/// - It stops for a cause alone: at the directory's end, at a fault, or at the first item whose
///   record does not fit; and what comes back is what it gave up to there.
/// - The directory comes back whole where nothing cuts it short: where it could be opened, there is
///   room for as much as was asked for, no lookup fails, and no name has 2^32 bytes or more, the
///   reply has the records of all items that were taken, but of a last one whose record would pass
///   the size; and where there is no such one, the directory ended there.
/// - At most `size / 24 + 1` items are taken for a READDIR, and `size / 152 + 1` for a READDIRPLUS,
///   also of a directory that has no end.
pub fn directories_are_read()
    ensures stops { (limits : Limits) (options after : ℕ) (t : Turn) (echo : Echo) (l : Listing) →
        IsTurn limits options t after →
        ask limits options (length t.room) t.request ≡ Lists echo l →
        StopsForACause l echo.unique t }
    ensures whole { (limits : Limits) (options after : ℕ) (t : Turn) (echo : Echo) (l : Listing) →
        IsTurn limits options t after →
        ask limits options (length t.room) t.request ≡ Lists echo l →
        ComesWhole l echo.unique t }
    ensures few { (limits : Limits) (options after : ℕ) (t : Turn) (echo : Echo) (l : Listing) →
        IsTurn limits options t after →
        ask limits options (length t.room) t.request ≡ Lists echo l → TakesFew l t }
{}
