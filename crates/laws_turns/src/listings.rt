//! What holds of directory records and of every reading of a directory.

ghost use Rattle.std.specs.Prelude.{◌≡◌, ◌≤◌, ◌+◌, ◌%◌, ◌/◌, ℕ, Bool, true, List, length, map, Option, Some, None, Ok, Result as Outcome};
ghost use Rattle.std.specs.List.{All};
ghost use Rattle.vfs_files.specs.Values.{Item};
ghost use Rattle.vfs_files.specs.Runs.{Event};
ghost use Rattle.vfs_files.specs.declared.entry.Context.{Context};
ghost use Rattle.vfs_files.specs.declared.entry.Entry.{Entry};
ghost use Rattle.vfs_grammar.specs.Directories.{takings, least_record, GoesOn, IsWhole};
ghost use Rattle.vfs_grammar.specs.Listing.{IsListing, record_len};
ghost use Rattle.vfs_grammar.specs.Words.{record_bytes};
ghost use Rattle.vfs_grammar.specs.Nodes.{nodes_in};
ghost use Rattle.laws_turns.specs.Listings.{IsRow, rows_bytes, node_of_line};

/// A record has as many bytes as its length says: a multiple of 8, at least 24, and with an entry
/// at least 152.
pub fn records_are_aligned()
    ensures length { (entry : Option Entry) (i : Item) →
        length (record_bytes entry i) ≡ record_len entry i }
    ensures multiple { (entry : Option Entry) (i : Item) → record_len entry i % 8 ≡ 0 }
    ensures least { (i : Item) → 24 ≤ record_len None i }
    ensures with_entry { (entry : Entry) (i : Item) → 152 ≤ record_len (Some entry) i }
{}

/// The nodes of records with entries are found again in their bytes, put one after the other: of
/// any entries whose numbers are within their widths and items whose names have less than 2^32
/// bytes, and so of the records of each READDIRPLUS.
pub fn nodes_are_found()
    ensures rows { (rows : List (Entry × Item)) → All IsRow rows →
        nodes_in (rows_bytes rows) ≡ map (λ r. r.0.inode) rows }
    ensures listed { (ctx : Context) (parent size space : ℕ) (events : List Event) (body : List ℕ)
        (result : Outcome ℕ (Option ℕ)) →
        (h : IsListing true ctx parent size space events body result) →
        nodes_in body ≡ map node_of_line h.lines }
{}

/// A reading that answers a number answers the length of its records, which is at most `size`.
pub fn records_are_counted()
    ensures { (plus : Bool) (ctx : Context) (parent size space : ℕ) (events : List Event)
        (body : List ℕ) (result : Outcome ℕ (Option ℕ)) (n : ℕ) →
        IsListing plus ctx parent size space events body result →
        result ≡ Ok n → (n ≡ length body) × (n ≤ size) }
{}

/// A reading takes at most `size / 24 + 1` items for READDIR and `size / 152 + 1` for READDIRPLUS,
/// also from an iterator that has no end.
pub fn takings_are_bounded()
    ensures { (plus : Bool) (ctx : Context) (parent size space : ℕ) (events : List Event)
        (body : List ℕ) (result : Outcome ℕ (Option ℕ)) →
        IsListing plus ctx parent size space events body result →
        length (takings events) ≤ size / least_record plus + 1 }
{}

/// Where the room after a header is at least `size`, no lookup fails and no name has 2^32 bytes or more, the
/// records are those of all items taken but of a last one whose record would pass `size`; where
/// there is no such one, the iterator answered its end.
pub fn directories_are_whole()
    ensures { (plus : Bool) (ctx : Context) (parent size space : ℕ) (events : List Event)
        (body : List ℕ) (result : Outcome ℕ (Option ℕ)) →
        IsListing plus ctx parent size space events body result →
        size ≤ space → All GoesOn events → IsWhole plus ctx parent size events body result }
{}
