//! Directories that are read, and what follows from a request.

ghost use Rattle.std.specs.Prelude.{◌≡◌, ℕ, Bool, List, [], ◌∷◌, false, true, length, Option, Some, Ok, Err, None as Nothing, Result as Outcome};
ghost use Rattle.vfs_segments.specs.Written.{Written};
ghost use Rattle.vfs_files.specs.Calls.{Failed, Found, Lookup, Plain, Readdir, Statfs};
ghost use Rattle.vfs_files.specs.Runs.{Called, Event, IsRun, Taken};
ghost use Rattle.vfs_files.specs.Values.{Item};
ghost use Rattle.vfs_files.specs.declared.entry.Context.{Context};
ghost use Rattle.vfs_files.specs.declared.entry.Entry.{Entry};
ghost use Rattle.vfs_grammar.specs.Forms.{Asks, Ends, Lists, WithMemory};
ghost use Rattle.vfs_grammar.specs.Listing.{IsDirectory, Listing, entry_bytes};
ghost use Rattle.vfs_grammar.specs.Reply.{Echo, Reply};
ghost use Rattle.vfs_grammar.specs.Turn.{Turn};
ghost use Rattle.vfs_grammar.specs.Witnesses.{FollowsFor, turn_tells};
ghost use Rattle.vfs_grammar.specs.Words.{FitsOption};
ghost use Rattle.vfs_grammar.specs.declared.limits.Limits.{Limits};
ghost use Rattle.vfs_listings.specs.Reading.{LooksUp, ReadsDirectory, ReadsItems};

use vfs_files::FileSystem;
use vfs_listings::record_len;

/// Where READDIR failed there is no record.
fn no_record_of_a_fault()
    ensures { (l : Listing) (events : List Event) (records : List ℕ) (result : Outcome ℕ (Option ℕ)) (fault : Option ℕ) →
        IsDirectory l events records result →
        events ≡ Called (Readdir l.ctx l.parent l.handle l.size l.offset) (Failed fault) ∷ [] →
        records ≡ [] }
{}

/// A request that asks for no call, for STATFS or for a directory leaves the options as they were; so does one that
/// memory may be wanted for.
fn options_stay()
    ensures ended { (t : Turn) (limits : Limits) (options after : ℕ) (reply : Reply) →
        FollowsFor (turn_tells t) limits options (Ends reply) after → after ≡ options }
    ensures asked { (t : Turn) (limits : Limits) (options after node : ℕ) (echo : Echo) (ctx : Context) →
        FollowsFor (turn_tells t) limits options (Asks echo (Statfs ctx node)) after → after ≡ options }
    ensures listed { (t : Turn) (limits : Limits) (options after : ℕ) (echo : Echo) (l : Listing) →
        FollowsFor (turn_tells t) limits options (Lists echo l) after → after ≡ options }
    ensures wanted { (t : Turn) (limits : Limits) (options after : ℕ) (reply : Reply) →
        FollowsFor (turn_tells t) limits options (WithMemory (Ends reply)) after → after ≡ options }
{}

/// An entry whose numbers fit has 128 bytes.
fn entry_of_128_bytes()
    ensures { (entry : Entry) → FitsOption (Some entry) → length (entry_bytes (Some entry)) ≡ 128 }
{}

/// An item of READDIRPLUS other than `.` and `..` got what a LOOKUP of its name found.
fn an_item_was_looked_up<F: FileSystem>()
    ensures { (ctx : Context) (parent : ℕ) (i : Item) (old new : F) (entry : Entry) →
        LooksUp F.allows ctx true false parent i old (Ok (Some entry)) new →
        F.allows old (Lookup ctx parent i.name) (Plain (Found entry)) new }
{}

/// A READDIR that comes to the end at once leaves the file system as it was.
fn the_end_at_once<F: FileSystem>()
    ensures { (ctx : Context) (parent size : ℕ) (it : F.DirIter) (old new : F)
        (writer writer_after : Written) (result : Outcome ℕ (Option ℕ)) →
        (h : ReadsItems F.allows F.DirIter.gives ctx false parent size it old writer result new
        writer_after) →
        h.events ≡ Taken Nothing ∷ [] → new ≡ old }
{}

/// A directory that could not be opened is answered the fault, and nothing is taken and nothing put; one that was
/// opened is read by a run from its iterator.
fn opened_or_not<F: FileSystem>()
    ensures failed { (ctx : Context) (plus : Bool) (parent handle size offset : ℕ) (old new : F)
        (writer writer_after : Written) (result : Outcome ℕ (Option ℕ)) (fault : Option ℕ) →
        (h : ReadsDirectory F.allows F.DirIter.gives ctx plus parent handle size offset
        old writer result new writer_after) →
        h.opened ≡ Err fault →
        (result ≡ Err fault) × (new ≡ h.middle) × (writer_after ≡ writer) }
    ensures opened { (ctx : Context) (plus : Bool) (parent handle size offset : ℕ) (old new : F)
        (writer writer_after : Written) (result : Outcome ℕ (Option ℕ)) (it : F.DirIter) →
        (h : ReadsDirectory F.allows F.DirIter.gives ctx plus parent handle size offset
        old writer result new writer_after) →
        h.opened ≡ Ok it →
        (events : List Event) × IsRun F.allows F.DirIter.gives (Some it) h.middle events new }
{}

/// How long the record of an entry with this name of one byte is: 24 bytes, the name, and zeros.
fn len_without_entry(name: &[u8]) -> usize
    requires { length name.now ≡ 1 }
    ensures { result ≡ 32 }
{
    record_len(name, false)
}
